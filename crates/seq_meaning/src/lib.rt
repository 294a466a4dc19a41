//! Runs a checked program in sequence, on one store.
#![tactic(auto)]

mod preparing;
mod progress;
mod ready;
mod run;
mod running;
mod simple;
mod steps;
mod store;
mod task;
mod text;
mod valuing;

pub use run::{SeqEnd, run_seq};
