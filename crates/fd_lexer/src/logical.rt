// The logical lines of a text, one after the other.
ghost use Rattle.std.specs.Prelude.{◌≡◌, ◌+◌, ◌-◌, ◌<◌, ◌≤◌, ◌^◌, IfOk, length};
ghost use Rattle.fd_lexer.specs.Place.{HasRoom};
ghost use Rattle.fd_lexer.specs.Faults.{SeesMore, IsLogicalOrNone};
ghost use Rattle.fd_lexer.specs.Faults as of;

use crate::cause::Cause;
use crate::faults::{Faults, LogicalLine};
use crate::lexeme::Taken;
use crate::physical::{content, continued, has_bad_byte};
use crate::place::{PhysicalLine, Place};
use crate::scan::next_line;
use crate::segment::{take_tokens, worse};
use crate::token::Token;
use fd_base::{Line, Memory};

/// The first logical line from a place on, whose tokens are added, and the place behind it.
pub fn logical_line<'a>(
    place: Place<'a>,
    tokens: &mut Vec<Token>,
) -> Result<Option<(LogicalLine, Place<'a>)>, Memory>
    requires { HasRoom place }
    ensures { IfOk result (λ r. IsLogicalOrNone place.entry tokens.old.items tokens.new.items r) }
{
    let Some((first, behind)) = next_line(place) else {
        return Ok(None);
    };
    let number = Line(first.number);
    let mut line = first;
    let mut here = behind;
    let mut faults = Faults {
        bad_byte: false,
        size: 0,
        taken: Taken::All,
    };
    'parts: loop {
        faults = see_line(faults, line, number, tokens)?;
        if !continued(line.bytes) {
            return Ok(Some((whole_line(number, line, faults), here)));
        }
        match next_line(here) {
            None => return Ok(Some((whole_line(number, line, faults), here))),
            Some((next, behind)) => {
                line = next;
                here = behind;
            }
        }
    }
}

// The logical line that ends with a physical line.
fn whole_line(number: Line, last: PhysicalLine, faults: Faults) -> LogicalLine
    requires { last.start + length last.bytes.now < 2 ^ 32 - 1 }
    ensures number { result.number ≡ number }
    ensures end { result.end ≡ last.entry.start + length last.entry.bytes.now }
    ensures next { result.next ≡ last.entry.next }
    ensures cause { result.cause ≡ of.cause_of faults }
{
    LogicalLine {
        number,
        end: last.start + last.bytes.len(),
        next: last.next,
        cause: cause_of(faults),
    }
}

// Adds the tokens of one more physical line of a logical line, and what is wrong with it.
fn see_line(
    faults: Faults,
    line: PhysicalLine,
    number: Line,
    tokens: &mut Vec<Token>,
) -> Result<Faults, Memory>
    requires room { line.start + length line.bytes.now < 2 ^ 32 - 1 }
    requires size { faults.size ≤ line.start }
    ensures { IfOk result (λ g. SeesMore number faults line.entry tokens.old.items tokens.new.items g) }
{
    let part = take_tokens(content(line.bytes), line.start, number, tokens)?;
    let bad = has_bad_byte(line.bytes);
    Ok(Faults {
        bad_byte: faults.bad_byte | bad,
        size: faults.size + line.bytes.len(),
        taken: worse(faults.taken, part),
    })
}

fn cause_of(faults: Faults) -> Option<Cause>
    ensures { result ≡ of.cause_of faults }
{
    if faults.bad_byte {
        return Some(Cause::BadByte);
    }
    if faults.size > 4096 {
        return Some(Cause::LineTooLong);
    }
    match faults.taken {
        Taken::All => None,
        Taken::Large => Some(Cause::NumberTooLarge),
        Taken::Bad => Some(Cause::BadToken),
    }
}
