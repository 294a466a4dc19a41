//! The items of a program by their numbers, and what each node of its flow graph takes and steals.
#![tactic(auto)]

mod around;
mod book;
mod bounds;
mod copies;
mod firsts;
mod laws;
mod mentions;
mod names;
mod numbering;
mod order;
mod referring;
mod setting;
mod stealing;
mod tables;
mod walking;
mod widening;

pub use copies::{copy_expression, copy_reference};
pub use laws::equal_numbers_need_the_same;
pub use numbering::{Items, NumberRefusal, number};
