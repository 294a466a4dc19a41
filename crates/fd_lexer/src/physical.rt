// What a physical line is made of.
ghost use Rattle.std.specs.Prelude.{◌≡◌, ◌↔◌, ◌+◌, ◌-◌, ◌<◌, ◌≤◌, ℕ, IsTrue, length, take};
ghost use Rattle.std.specs.List.{suffix_len};
ghost use Rattle.fd_lexer.specs.Bytes as byte;
ghost use Rattle.fd_lexer.specs.Physical as of;
ghost use Rattle.fd_lexer.specs.Physical.{HasBadByte};

use crate::bytes::{is_blank, is_plain, is_quotable};

/// How many bytes stand before the comment.
fn code_len(line: &[u8]) -> usize
    ensures value { result ≡ of.code_len line.now }
    ensures within { result ≤ length line.now }
{
    let mut quotes: usize = 0;
    for (i, b) in line.iter().enumerate() {
        if *b == b'!' && quotes % 2 != 1 {
            return i;
        }
        if *b == b'\'' {
            quotes += 1;
        }
    }
    line.len()
}

// How many bytes there are up to the last that is no blank.
fn trimmed_len(bytes: &[u8]) -> usize
    ensures value { result ≡ length bytes.now - suffix_len byte.is_blank bytes.now }
    ensures within { result ≤ length bytes.now }
{
    let mut n = bytes.len();
    while 0 < n {
        if !is_blank(bytes[n - 1]) {
            return n;
        }
        n -= 1;
    }
    0
}

// How many bytes of the code there are up to the last that is no blank.
fn code_end(line: &[u8]) -> usize
    ensures value { result ≡ of.code_end line.now }
    ensures within { result ≤ length line.now }
{
    let len = code_len(line);
    let (code, _) = line.split_at(len);
    trimmed_len(code)
}

fn begins_comment(line: &[u8]) -> bool
    ensures { result ≡ of.begins_comment line.now }
{
    match line.first() {
        Some(b) => *b == b'C' || *b == b'c' || *b == b'*' || *b == b'!',
        None => false,
    }
}

/// Whether the line is neither blank nor a comment.
pub fn counts(line: &[u8]) -> bool
    ensures { result ≡ of.counts line.now }
{
    if begins_comment(line) {
        return false;
    }
    0 < code_end(line)
}

// Whether a place lies in a quoted text.
fn in_text(line: &[u8], place: usize) -> bool
    requires { place ≤ length line.now }
    ensures { result ≡ of.in_text line.now place }
{
    let (front, _) = line.split_at(place);
    front.iter().filter(|b| **b == b'\'').count() % 2 == 1
}

/// Whether the line goes on with the next that counts.
pub fn continued(line: &[u8]) -> bool
    ensures { result ≡ of.continued line.now }
{
    let end = code_end(line);
    if end == 0 {
        return false;
    }
    if line[end - 1] != b'&' {
        return false;
    }
    !in_text(line, end - 1)
}

/// The bytes of the line that form tokens.
pub fn content(line: &[u8]) -> &[u8]
    ensures value { result.now ≡ of.content line.now }
    ensures within { length result.now ≤ length line.now }
{
    let end = code_end(line);
    if continued(line) {
        let (front, _) = line.split_at(end.saturating_sub(1));
        return front;
    }
    let (front, _) = line.split_at(end);
    front
}

fn allowed_in(in_text: bool, b: u8) -> bool
    ensures { result ≡ of.allowed_in in_text b }
{
    if in_text { is_quotable(b) } else { is_plain(b) }
}

/// Whether some byte of the code may not stand where it stands.
pub fn has_bad_byte(line: &[u8]) -> bool
    ensures { IsTrue result ↔ HasBadByte line.now }
{
    let len = code_len(line);
    let mut quotes: usize = 0;
    for i in 0..len {
        let b = line[i];
        if !allowed_in(quotes % 2 == 1, b) {
            return true;
        }
        if b == b'\'' {
            quotes += 1;
        }
    }
    false
}
