// The lines of a text, and the words of a line.
ghost use Rattle.std.specs.Prelude.{◌≡◌, ℕ, ◌<◌, ◌^◌, ◌==◌, IfOk, Some, drop};
ghost use Rattle.std.specs.Fmt.{decimal};
ghost use Rattle.std.specs.List.{position_or_len};
ghost use Rattle.place_text.specs.Readings as readings;
ghost use Rattle.place_text.specs.Readings.{parts_at};

use fd_base::{Bytes, Memory};
use std::alloc::Global;
use std::str;

/// The place of the first byte of this number, or the length of the text.
fn place_of(text: &[u8], separator: u8) -> usize
    ensures { result ≡ position_or_len (λ b. b == separator) text.now }
{
    for (i, b) in text.iter().enumerate() {
        if *b == separator {
            return i;
        }
    }
    text.len()
}

/// The parts of a text between bytes of this number.
#[tactic(auto, using(crate::proofs::Parts::part_more, crate::proofs::Parts::part_last))]
pub fn parts(alloc: Global, text: &[u8], separator: u8) -> Result<Vec<Bytes>, Memory>
    ensures { IfOk result (λ parts. parts.items ≡ parts_at separator text.now) }
{
    let mut parts = Vec::new(alloc);
    let mut rest = text;
    'part: loop {
        let end = place_of(rest, separator);
        parts.push(Bytes::from_slice(alloc, &rest[..end])?)?;
        if end == rest.len() {
            return Ok(parts);
        }
        rest = behind(rest, end + 1);
    }
}

/// A text without the end of its last line, which may be missing.
pub fn unended(text: &[u8]) -> &[u8]
    ensures { result.now ≡ readings.unended text.now }
{
    let count = text.len();
    if count > 0 && text[count - 1] == b'\n' {
        &text[..count - 1]
    } else {
        text
    }
}

/// The number below 2^32 that these digits write.
pub fn number_of(digits: &[u8]) -> Option<u32>
    ensures { (n : ℕ) → n < 2 ^ 32 → digits.now ≡ decimal n → result ≡ Some n }
{
    match str::from_utf8(digits) {
        Ok(text) => text.parse::<u32>().ok(),
        Err(_) => None,
    }
}

/// The bytes from a place on.
pub fn behind(text: &[u8], place: usize) -> &[u8]
    ensures { result.now ≡ drop place text.now }
{
    text.get(place..).unwrap_or(&[])
}
