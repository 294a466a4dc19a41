//! Owners and local numbers of arrays that a map array distributes.
#![tactic(auto)]

mod deal;
#[cfg(test)]
mod rows;
mod table;

pub use table::Table;
