//! The interval flow graph of a program.
#![tactic(auto)]

mod chains;
mod edges;
mod graph;
mod laws;
mod lay;
mod node;
mod telling;

pub use edges::Edges;
pub use graph::{Graph, build};
pub use laws::{edges_are_told, nodes_are_flow};
pub use node::{EdgeKind, NodeKind, Row, Way};
