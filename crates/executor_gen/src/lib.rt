//! Flat code for a program with a placement.
#![tactic(auto)]

mod blocks;
mod copies;
mod generating;
mod measure;
mod operations;
mod tables;
mod tree;

pub use generating::generate;
