//! Large valid decks, each made from a number.
#![tactic(auto)]

mod draw;
mod mesh;
#[cfg(test)]
mod rows;

pub use mesh::generate_mesh;
