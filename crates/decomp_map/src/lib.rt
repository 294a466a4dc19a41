//! Owners and local numbers of regularly distributed arrays, by division.
#![tactic(auto)]

mod map;
mod positions;
#[cfg(test)]
mod rows;

pub use map::Map;
