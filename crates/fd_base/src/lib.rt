//! What every other crate stands on: numbers with their faults, numbers of lines and ranks, shapes of arrays, lists and want of memory.
#![tactic(auto)]

mod decimals;
mod limit;
mod lists;
mod memory;
mod numbering;
mod numbers;
mod relation;
mod shapes;

pub use decimals::{decimal_number, digits_len, is_digit};
pub use limit::Limit;
pub use lists::{Bytes, ListOf, NumList};
pub use memory::Memory;
pub use numbering::{ItemNo, Line, NodeNo, RankNo};
pub use numbers::{FaultKind, abs, add, div, mul, neg, rem, sub, trip_count};
pub use relation::Rel;
pub use shapes::{Along, Dist, Shape, ordinal, place, place_in_row};
