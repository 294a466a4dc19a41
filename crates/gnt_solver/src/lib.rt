//! Where items are sent and received: as early, and as late, as the flow graph of a program allows.
#![tactic(auto)]

mod arrivals;
mod inside;
mod laws;
mod passes;
mod placing;
mod solving;
mod tables;
mod wanted;

pub use inside::taken_in_bodies;
pub use laws::{one_placement, one_solution, placement_is_good, placement_is_told};
pub use solving::{Placement, solve};
