// Nodes and edges of a flow graph.
use fd_base::{Line, NodeNo};

/// What a node is there for.
#[derive(Clone, Copy, PartialEq, Eq)]
pub enum NodeKind {
    Start,
    End,
    Simple,
    Branch,
    Pad,
    Join,
    Loop,
    Latch,
}

/// How an edge leads: on at the level of the node, into the body of a loop, or from its latch back to the loop.
#[derive(Clone, Copy, PartialEq, Eq)]
pub enum EdgeKind {
    Forward,
    Entry,
    Cycle,
}

/// Where a node leads, by its number.
#[derive(Clone, Copy, PartialEq, Eq)]
pub enum Way {
    /// To the next node.
    Next,
    /// To the next node and to another.
    Fork(NodeNo),
    /// To another node alone.
    Jump(NodeNo),
    /// From a loop to the next node by an Entry edge, and to what follows this latch by a Forward edge.
    Around(NodeNo),
    /// From a latch to this loop by a Cycle edge, and else nowhere.
    Back(NodeNo),
    /// Nowhere, at the end of the program.
    Nowhere,
}

/// A node with its line.
#[derive(Clone, Copy, PartialEq, Eq)]
pub struct Row {
    pub kind: NodeKind,
    pub line: Line,
    pub way: Way,
}
