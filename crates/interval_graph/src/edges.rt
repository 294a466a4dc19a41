// The edges of a node, one after the other.
ghost use Rattle.std.specs.Prelude.{◌≡◌, ◌<◌};
ghost use Rattle.std.specs.Iterator.{YieldsFirst, item_count};
ghost use Rattle.interval_graph.specs.Chained.{told_by};

use crate::chains::Chains;
use crate::node::EdgeKind;
use fd_base::NodeNo;
use std::marker::Model;

/// The edges of a node that are left to come, each as the node at its other end and how it leads. Contracts see the list of them.
#[derive(Drop)]
pub struct Edges<'a> {
    chains: &'a Chains,
    node: u16,
    place: Option<u32>,
}

impl<'a> Model for Edges<'a> {
    ghost use Rattle.std.specs.Prelude.{◌<◌, List};
    ghost use Rattle.interval_graph.specs.Edges.{Edge};
    ghost use Rattle.interval_graph.specs.Chained.{told_from, IsPlace};

    ghost Value = { List Edge };

    ghost view = { λ e. told_from e.node e.chains.now.told e.place };

    ghost invariant = { λ e. (e.node < e.chains.now.nodes) × IsPlace e.node e.chains.now.told e.place };
}

/// The edges that a node tells.
pub fn edges_of(chains: &Chains, n: NodeNo) -> Edges<'_>
    requires { n.0 < chains.now.nodes }
    ensures { result ≡ told_by n.0 chains.now.told }
{
    Edges {
        chains,
        node: n.0,
        place: chains.first(n.0),
    }
}

impl Iterator for Edges<'_> {
    type Item = (NodeNo, EdgeKind);

    ghost next_gives = { YieldsFirst (λ edges. edges) };

    ghost remaining = { item_count (λ edges. edges) };

    fn next(&mut self) -> Option<(NodeNo, EdgeKind)> {
        let place = self.place?;
        self.place = self.chains.next(self.node, place);
        Some(self.chains.at(place))
    }
}
