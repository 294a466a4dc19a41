//! The tree of a source text, from its tokens.
#![tactic(auto)]

mod blocks;
mod condition;
mod declaration;
mod expression;
mod fault;
mod form;
mod law;
mod lexeme;
mod line;
mod mapping;
mod parsing;
mod refusal;
mod scan;
mod simple;
mod source;
mod stop;

pub use law::{
    nesting_is_bounded, one_form, one_program, one_refusal, one_source, one_text, sources_are_read,
};
pub use parsing::parse;
pub use refusal::ParseRefusal;
