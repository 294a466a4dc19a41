// The physical lines of a text that count, one after the other.
ghost use Rattle.std.specs.Prelude.{◌≡◌, ◌<◌, ◌≤◌, [], IfSome, IfNone, length};
ghost use Rattle.std.specs.List.{position_or_len};
ghost use Rattle.fd_lexer.specs.Physical as of;
ghost use Rattle.fd_lexer.specs.Place.{counted_of, HasRoom, IsFirstLine, IsNextLine};

use crate::physical::counts;
use crate::place::{PhysicalLine, Place};

/// The first line from a place on that counts, and the place behind it.
pub fn next_line<'a>(place: Place<'a>) -> Option<(PhysicalLine<'a>, Place<'a>)>
    requires { HasRoom place }
    ensures none { IfNone result (counted_of place.entry ≡ []) }
    ensures some { IfSome result (λ p. IsNextLine place.entry p.0 p.1) }
{
    let mut here = place;
    while !here.rest.is_empty() {
        let (line, behind) = first_line(here);
        if counts(line.bytes) {
            return Some((line, behind));
        }
        here = behind;
    }
    None
}

// The line at a place, and the place behind it.
fn first_line<'a>(place: Place<'a>) -> (PhysicalLine<'a>, Place<'a>)
    requires room { HasRoom place }
    requires some { 0 < length place.rest.now }
    ensures { IsFirstLine place.entry result.0 result.1 }
{
    let len = line_len(place.rest);
    let (bytes, behind) = place.rest.split_at(len);
    match behind.split_first() {
        None => {
            let line = PhysicalLine {
                number: place.number,
                start: place.at,
                bytes,
                next: place.at + len,
            };
            let next = Place {
                rest: behind,
                at: place.at + len,
                number: place.number,
            };
            (line, next)
        }
        Some((_, after)) => {
            let line = PhysicalLine {
                number: place.number,
                start: place.at,
                bytes: without_return(bytes),
                next: place.at + len + 1,
            };
            let next = Place {
                rest: after,
                at: place.at + len + 1,
                number: place.number + 1,
            };
            (line, next)
        }
    }
}

// How many bytes stand before the first line feed.
fn line_len(bytes: &[u8]) -> usize
    ensures value { result ≡ position_or_len of.is_feed bytes.now }
    ensures within { result ≤ length bytes.now }
{
    bytes.iter().take_while(|b| **b != b'\n').count()
}

// A line without the carriage return that stands before its line feed.
fn without_return(bytes: &[u8]) -> &[u8]
    ensures { result.now ≡ of.without_return bytes.now }
{
    let len = bytes.len();
    if len == 0 {
        return bytes;
    }
    if bytes[len - 1] != 13 {
        return bytes;
    }
    let (front, _) = bytes.split_at(len - 1);
    front
}
