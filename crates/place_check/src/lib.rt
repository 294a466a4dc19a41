//! The judge of placements: whether sends and receives keep the conditions on every path, and else a shortest path that shows it.
#![tactic(auto)]

mod column;
mod differing;
mod edges;
mod judging;
mod laws;
mod marks;
mod reached;
mod search;
mod verdict;

pub use judging::judge;
pub use laws::one_verdict;
pub use verdict::{Condition, NodeList, Verdict};
