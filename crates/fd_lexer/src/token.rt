// Tokens, the lexed text, and why there is none.
ghost use Rattle.std.specs.Prelude.{◌≡◌};
ghost use Rattle.fd_lexer.specs.declared.token.LexRefusal.TheVariants.{Memory};

use fd_base::{Bytes, Line, ListOf, Memory};
use std::alloc::{AllocError, AllocFailed};
use thiserror::Error;

/// A token. Its text is the bytes of the source from `start` to `end`, counted from 0.
#[derive(Clone, Copy, PartialEq, Eq)]
pub struct Token {
    /// The number of its logical line.
    pub line: Line,
    pub start: u32,
    pub end: u32,
    pub kind: TokenKind,
}

/// What a token is.
#[derive(Clone, Copy, PartialEq, Eq)]
pub enum TokenKind {
    Name,
    /// A number, which is not negative.
    Num(i64),
    /// A quoted text, with its quotes.
    Words,
    Dot(DotWord),
    Sign(SignKind),
    /// The end of a logical line. Its span is empty, where the line's last physical line ends.
    LineEnd,
}

/// A word between dots.
#[derive(Clone, Copy, PartialEq, Eq)]
pub enum DotWord {
    Eq,
    Ne,
    Lt,
    Le,
    Gt,
    Ge,
    And,
    Or,
    Not,
    IsTrue,
    IsFalse,
}

#[derive(Clone, Copy, PartialEq, Eq)]
pub enum SignKind {
    ParLeft,
    ParRight,
    Comma,
    Colon,
    Equal,
    Plus,
    Minus,
    Star,
    Slash,
    StarStar,
    EqEq,
    SlashEq,
    Less,
    LessEq,
    Greater,
    GreaterEq,
}

pub type TokenList = ListOf<Token>;

/// The tokens of a source text before its END line.
#[derive(Drop)]
pub struct Lexed {
    /// All bytes of the text.
    pub text: Bytes,
    /// The tokens in order, with a LineEnd behind those of each logical line.
    pub tokens: TokenList,
    /// Whether there is an END line.
    pub ended: bool,
    /// The number of the END line; where there is none, one more than the line feeds of the text.
    pub end_line: Line,
    /// Where the bytes behind the END line begin; where there is none, the length of the text.
    pub rest: u32,
}

/// Why a text has no tokens.
#[derive(Clone, Copy, Debug, PartialEq, Eq, Error)]
pub enum LexRefusal {
    /// The first line with a fault, and the number of its first fault: 1 a byte that is not allowed, 2 more than 4,096
    /// bytes, 3 no token, 4 a number past its limit.
    #[error("a line has bytes or tokens that no source of the language may have, or too many")]
    At(Line, u8),
    #[error("no memory")]
    Memory,
}

impl From<Memory> for LexRefusal {
    ghost from_gives = { λ _ e. e ≡ Memory };

    fn from(_e: Memory) -> LexRefusal {
        LexRefusal::Memory
    }
}

impl From<AllocError> for LexRefusal {
    ghost from_gives = { λ _ e. e ≡ Memory };

    fn from(_e: AllocError) -> LexRefusal {
        LexRefusal::Memory
    }
}

impl<T: Drop> From<AllocFailed<T>> for LexRefusal {
    ghost from_gives = { λ _ e. e ≡ Memory };

    fn from(_e: AllocFailed<T>) -> LexRefusal {
        LexRefusal::Memory
    }
}
