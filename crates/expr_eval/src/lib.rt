//! The value of an expression or a condition over cells, wherever their numbers come from. It takes no memory.
#![tactic(auto)]

mod cells;
mod conditions;
mod expressions;

pub use cells::Cells;
pub use conditions::{compare, test};
pub use expressions::{eval, pair};
