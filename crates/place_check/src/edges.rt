// The edges that leave a node.
ghost use Rattle.std.specs.Prelude.{◌≡◌, ◌<◌, length};
ghost use Rattle.interval_graph.specs.Rows.{AreRows};
ghost use Rattle.place_check.specs.Edges.{AreEdges};

use fd_base::NodeNo;
use interval_graph::{EdgeKind, Graph, Way};

/// An edge by the node that it leads to.
#[derive(Clone, Copy)]
pub struct Edge {
    pub to: u16,
    pub kind: EdgeKind,
}

/// The edges that leave a node: two at most, the one to the lesser number first.
#[derive(Clone, Copy)]
pub struct Edges {
    pub first: Option<Edge>,
    pub second: Option<Edge>,
}

/// The edges that leave a node.
pub fn edges_of(graph: &Graph, n: u16) -> Edges
    requires rows { AreRows graph.now.rows.items }
    requires inside { n < length graph.now.rows.items }
    ensures { AreEdges graph.now.rows.items n result }
{
    match graph.way(NodeNo(n)) {
        Way::Next => one(n + 1, EdgeKind::Forward),
        Way::Fork(other) => Edges {
            first: Some(Edge {
                to: n + 1,
                kind: EdgeKind::Forward,
            }),
            second: Some(Edge {
                to: other.0,
                kind: EdgeKind::Forward,
            }),
        },
        Way::Jump(other) => one(other.0, EdgeKind::Forward),
        Way::Around(latch) => Edges {
            first: Some(Edge {
                to: n + 1,
                kind: EdgeKind::Entry,
            }),
            second: Some(Edge {
                to: latch.0 + 1,
                kind: EdgeKind::Forward,
            }),
        },
        Way::Back(start) => one(start.0, EdgeKind::Cycle),
        Way::Nowhere => Edges {
            first: None,
            second: None,
        },
    }
}

/// One edge alone.
fn one(to: u16, kind: EdgeKind) -> Edges
    ensures { result ≡ record { first = Some (record { to = to; kind = kind }); second = None } }
{
    Edges {
        first: Some(Edge { to, kind }),
        second: None,
    }
}
