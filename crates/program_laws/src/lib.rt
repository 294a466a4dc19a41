//! What holds of every accepted program.
#![tactic(auto)]

mod laws;

pub use laws::{accepted_numbers_are_small, accepted_stores_are_words, references_have_items};
