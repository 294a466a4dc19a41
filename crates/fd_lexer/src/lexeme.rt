// What a token is, before it is placed.
use crate::token::TokenKind;

/// The token at the front of bytes: how many bytes it has, and what it is, unless it is a number past its limit.
#[derive(Clone, Copy)]
pub struct FrontToken {
    pub len: usize,
    pub kind: Option<TokenKind>,
}

/// What became of the tokens of a line.
#[derive(Clone, Copy)]
pub enum Taken {
    /// They were added.
    All,
    /// A number among them is past its limit.
    Large,
    /// There are none: some bytes form no token.
    Bad,
}
