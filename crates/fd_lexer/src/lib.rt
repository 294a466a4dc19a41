//! The tokens of a source text, up to its END line.
#![tactic(auto)]

mod bytes;
mod cause;
mod faults;
mod front;
mod lexeme;
mod lexing;
mod logical;
mod physical;
mod place;
mod scan;
mod segment;
mod token;
mod words;

pub use lexing::{lex, one_reading, one_refusal, quoted_content, said_lines, tokens_are_slices};
pub use token::{DotWord, LexRefusal, Lexed, SignKind, Token, TokenKind, TokenList};
pub use words::{is_word, upper_byte};
