//! What the trees of texts keep to, whatever their names are declared as.
#![tactic(auto)]

mod laws;

pub use laws::trees_are_written;
