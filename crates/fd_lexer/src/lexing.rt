// The tokens of a text up to its END line.
ghost use Rattle.std.specs.Prelude.{◌≡◌, ◌↔◌, ◌+◌, ◌-◌, ◌<◌, ◌≤◌, ◌^◌, ◌∷◌, ◌++◌, ℕ, List, All, IsTrue, IfOk, IfErr, MatchResult, length, count_by};
ghost use Rattle.std.specs.List.{AllByRecursion};
ghost use Rattle.fd_base.specs.declared.numbering.Line.{Line};
ghost use Rattle.fd_lexer.specs.declared.token.Token.{Token};
ghost use Rattle.fd_lexer.specs.declared.token.Lexed.{Lexed};
ghost use Rattle.fd_lexer.specs.declared.token.TokenKind.TheVariants.{LineEnd};
ghost use Rattle.fd_lexer.specs.View.{IsWellFormed, TokenLine, lines_of, unquoted};
ghost use Rattle.fd_lexer.specs.Physical.{Physical, is_feed};
ghost use Rattle.fd_lexer.specs.Words.{IsQuoted, doubled};
ghost use Rattle.fd_lexer.specs.Text.{IsEnd, IsReading, IsFirstRefusal, IsRefusal, IsRefusedAt, IsMemory, LiesIn, LinesHave, IsEndName};
ghost use Rattle.fd_lexer.specs.Said.{AreSaid};
ghost use Rattle.fd_lexer.specs.Spelled.{IsWritten};

use crate::cause::cause_number;
use crate::faults::LogicalLine;
use crate::logical::logical_line;
use crate::place::Place;
use crate::token::{LexRefusal, Lexed, Token, TokenKind, TokenList};
use crate::words::is_word;
use fd_base::{Bytes, Line, Memory};
use std::alloc::Global;

/// The tokens of a text up to its END line, or its first refusal: the first line with something wrong, counted from 1,
/// and the number of the first of what is wrong with it. Want of memory is told apart.
pub fn lex(alloc: Global, bytes: &[u8]) -> Result<Lexed, LexRefusal>
    requires { length bytes.now < 2 ^ 32 - 1 }
    ensures reading { IfOk result (λ x. IsReading bytes.now x) }
    ensures well_formed { IfOk result (λ x. IsWellFormed x) }
    ensures refused { IfErr result (λ e. IsRefusal bytes.now e) }
    ensures only_reading { (x : Lexed) → IsReading bytes.now x → MatchResult result (λ y. y ≡ x) IsMemory }
    ensures only_refusal { (line : Line) (n : ℕ) → IsFirstRefusal bytes.now line n → MatchResult result (λ y. ⊥) (IsRefusedAt line n) }
{
    // A text has no more tokens than bytes, but for the end of its last line: the list doesn't grow.
    let mut tokens = Vec::with_capacity(alloc, bytes.len() + 1)?;
    let mut place = Place {
        rest: bytes,
        at: 0,
        number: 1,
    };
    'lines: loop {
        let from = tokens.as_slice().len();
        let Some((line, behind)) = logical_line(place, &mut tokens)? else {
            let made = lexed(
                alloc,
                bytes,
                tokens,
                false,
                Line(feed_count(bytes) + 1),
                bytes.len(),
            )?;
            return Ok(made);
        };
        if let Some(cause) = line.cause {
            return Err(LexRefusal::At(line.number, cause_number(cause)));
        }
        let (_, found) = tokens.as_slice().split_at(from);
        if is_end(bytes, found) {
            tokens.truncate(from);
            let made = lexed(alloc, bytes, tokens, true, line.number, line.next)?;
            return Ok(made);
        }
        tokens.push(line_end(line))?;
        place = behind;
    }
}

fn lexed(
    alloc: Global,
    bytes: &[u8],
    tokens: Vec<Token>,
    ended: bool,
    end_line: Line,
    rest: usize,
) -> Result<Lexed, Memory>
    requires { rest < 2 ^ 32 }
    ensures { IfOk result (λ x. x ≡ record { text = bytes.now; tokens = tokens.items; ended = ended; end_line = end_line; rest = rest }) }
{
    let text = Bytes::from_slice(alloc, bytes)?;
    Ok(Lexed {
        text,
        tokens: TokenList::from_vec(tokens),
        ended,
        end_line,
        rest: rest as u32,
    })
}

fn feed_count(bytes: &[u8]) -> u32
    requires { length bytes.now < 2 ^ 32 - 1 }
    ensures value { result ≡ count_by is_feed bytes.now }
    ensures few { result ≤ length bytes.now }
{
    bytes.iter().filter(|b| **b == b'\n').count() as u32
}

// Whether the tokens of a line are the one name END.
fn is_end(text: &[u8], line: &[Token]) -> bool
    requires { AllByRecursion (LiesIn text.now) line.now }
    ensures { IsTrue result ↔ IsEnd text.now line.now }
{
    match line.split_first() {
        Some((token, more)) => more.is_empty() && is_end_name(text, *token),
        None => false,
    }
}

fn is_end_name(text: &[u8], token: Token) -> bool
    requires { LiesIn text.now token }
    ensures { IsTrue result ↔ IsEndName text.now token }
{
    if token.kind != TokenKind::Name {
        return false;
    }
    is_word(&text[token.start as usize..token.end as usize], b"END")
}

// What closes the tokens of a logical line.
fn line_end(line: LogicalLine) -> Token
    requires { line.end < 2 ^ 32 }
    ensures { result ≡ record { line = line.number; start = line.end; end = line.end; kind = LineEnd } }
{
    Token {
        line: line.number,
        start: line.end as u32,
        end: line.end as u32,
        kind: TokenKind::LineEnd,
    }
}

/// A text has at most one reading.
pub fn one_reading()
    ensures { (text : List ℕ) (x y : Lexed) → IsReading text x → IsReading text y → x ≡ y }
{}

/// A text is not refused in two ways, and one that is refused has no reading.
pub fn one_refusal()
    ensures refusal { (text : List ℕ) (k l : Line) (m n : ℕ) → IsFirstRefusal text k m → IsFirstRefusal text l n → (k ≡ l) × (m ≡ n) }
    ensures reading { (text : List ℕ) (x : Lexed) (l : Line) (n : ℕ) → IsReading text x → IsFirstRefusal text l n → ⊥ }
{}

/// The bytes of each token's span in the text spell it: a name, a number, a sign or a word between dots is that word, a quoted text stands between its quotes, and at the end of a line is nothing.
pub fn tokens_are_slices()
    ensures { (text : List ℕ) (x : Lexed) → IsReading text x → All (IsWritten text) x.tokens }
{}

/// A quoted text has the bytes that it stands for, with each quote twice.
pub fn quoted_content()
    ensures written { (bs rest : List ℕ) → IsQuoted bs rest → (content : List ℕ) × (bs ≡ doubled content ++ 39 ∷ rest) }
    ensures read { (content : List ℕ) → unquoted (doubled content) ≡ content }
{}

/// The lines that the tokens of logical lines form are what these lines say, which is one thing.
pub fn said_lines()
    ensures said { (text : List ℕ) (ls : List (List Physical)) (ts : List Token) → LinesHave ls ts → AreSaid text ls (lines_of text ts) }
    ensures once { (text : List ℕ) (ls : List (List Physical)) (ks ms : List TokenLine) → AreSaid text ls ks → AreSaid text ls ms → ks ≡ ms }
    ensures some { (text : List ℕ) (ls : List (List Physical)) (ks : List TokenLine) → AreSaid text ls ks → (ts : List Token) × LinesHave ls ts × (lines_of text ts ≡ ks) }
{}
