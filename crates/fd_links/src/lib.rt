//! Chains of slots in one block of memory.
#![tactic(auto)]

mod links;
#[cfg(test)]
mod rows;

pub use links::Links;
