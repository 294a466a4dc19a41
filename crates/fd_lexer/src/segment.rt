// The tokens of the bytes of a line.
ghost use Rattle.std.specs.Prelude.{◌≡◌, ◌+◌, ◌<◌, ◌≤◌, ◌^◌, ◌∷◌, ◌++◌, ℕ, List, length, IfOk, false};
ghost use Rattle.fd_lexer.specs.Bytes as of;
ghost use Rattle.fd_lexer.specs.Tokens.{IsTokens};
ghost use Rattle.fd_lexer.specs.Segment.{TookOrNot, IsTaken};
ghost use Rattle.fd_lexer.specs.Segment as segment;

use crate::bytes::is_blank;
use crate::front::front;
use crate::lexeme::Taken;
use crate::token::{Token, TokenKind};
use fd_base::{Line, Memory};

/// Adds the tokens of bytes of a line, of which the first stands at `start` in the text.
pub fn take_tokens(
    bytes: &[u8],
    start: usize,
    line: Line,
    tokens: &mut Vec<Token>,
) -> Result<Taken, Memory>
    requires { start + length bytes.now < 2 ^ 32 }
    ensures { IfOk result (λ t. IsTaken (IsTokens line start bytes.now) tokens.old.items tokens.new.items t) }
{
    let mut rest = bytes;
    let mut at = start;
    let mut large = false;
    while let Some((first, behind)) = rest.split_first() {
        if is_blank(*first) {
            rest = behind;
            at += 1;
        } else {
            let Some((len, fits)) = take_front(rest, at, line, tokens)? else {
                return Ok(Taken::Bad);
            };
            let (_, behind) = rest.split_at(len);
            large |= !fits;
            rest = behind;
            at += len;
        }
    }
    if large {
        Ok(Taken::Large)
    } else {
        Ok(Taken::All)
    }
}

// Adds the token at the front, and says how long it is and whether it was added: a number past its limit isn't.
fn take_front(
    bytes: &[u8],
    at: usize,
    line: Line,
    tokens: &mut Vec<Token>,
) -> Result<Option<(usize, bool)>, Memory>
    requires room { at + length bytes.now < 2 ^ 32 }
    requires begins { (b : ℕ) (bs : List ℕ) → bytes.now ≡ b ∷ bs → of.is_blank b ≡ false }
    ensures { IfOk result (λ r. TookOrNot line at bytes.now tokens.old.items tokens.new.items r) }
{
    let Some(found) = front(bytes) else {
        return Ok(None);
    };
    let Some(kind) = found.kind else {
        return Ok(Some((found.len, false)));
    };
    if kind == TokenKind::Name && found.len > 31 {
        return Ok(None);
    }
    tokens.push(Token {
        line,
        start: at as u32,
        end: (at + found.len) as u32,
        kind,
    })?;
    Ok(Some((found.len, true)))
}

/// The worse of what became of two parts of a line.
pub fn worse(first: Taken, second: Taken) -> Taken
    ensures { result ≡ segment.worse first second }
{
    match first {
        Taken::Bad => Taken::Bad,
        Taken::All => second,
        Taken::Large => match second {
            Taken::Bad => Taken::Bad,
            _ => Taken::Large,
        },
    }
}
