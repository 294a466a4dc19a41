//! Finite sets of items, and tables of them.
#![tactic(auto)]

mod kept;
#[cfg(test)]
mod rows;
mod sets;
mod tables;
mod words;

pub use sets::ItemSet;
pub use tables::SetTable;
