// Edges in chains, one for each node.
ghost use Rattle.std.specs.Prelude.{◌≡◌, ◌<◌, [], ◌∷◌, ◌++◌, Some, length, IfOk};
ghost use Rattle.interval_graph.specs.Chained.{told_by, told_at, told_from, TellsAt, IsPlace};

use crate::node::EdgeKind;
use fd_base::{Memory, NodeNo};
use fd_links::Links;
use std::alloc::Global;
use std::marker::Model;

/// More edges than this have no places.
const MOST: usize = 0xffff_0000;

/// An edge, and the node that tells it.
#[derive(Clone, Copy)]
pub struct Told {
    pub by: u16,
    pub node: NodeNo,
    pub kind: EdgeKind,
}

/// Edges in the order in which they were added. Each is in the chain of the node that tells it, by its place.
#[derive(Drop)]
pub struct Chains {
    links: Links,
    told: Vec<Told>,
}

impl Model for Chains {
    ghost use Rattle.std.specs.Prelude.{length};
    ghost use Rattle.interval_graph.specs.Chained.{Edges, AreChained};

    ghost Value = { Edges };

    ghost view = { λ c. record { nodes = length c.links.chains; told = c.told.items } };

    ghost invariant = { λ c. AreChained c.links c.told.items };
}

impl Chains {
    /// No edge for so many nodes.
    pub fn new(alloc: Global, nodes: u16) -> Result<Chains, Memory>
        ensures { IfOk result (λ c. c ≡ record { nodes = nodes; told = [] }) }
    {
        let links = Links::new(alloc, u32::from(nodes))?;
        Ok(Chains {
            links,
            told: Vec::new(alloc),
        })
    }

    /// With one more edge.
    pub fn with(mut self, by: u16, node: NodeNo, kind: EdgeKind) -> Result<Chains, Memory>
        requires { by < self.nodes }
        ensures { IfOk result (λ c. c ≡ record { nodes = self.nodes; told = self.told ++ record { by = by; node = node; kind = kind } ∷ [] }) }
    {
        if self.told.len() >= MOST {
            return Err(Memory);
        }
        let slot = self.links.add_node()?;
        self.links.push_back(u32::from(by), slot);
        self.told.push(Told { by, node, kind })?;
        Ok(self)
    }

    /// The place of the first edge that a node tells.
    pub fn first(&self, n: u16) -> Option<u32>
        requires { n < self.now.nodes }
        ensures place { IsPlace n self.now.told result }
        ensures edges { told_from n self.now.told result ≡ told_by n self.now.told }
    {
        self.links.first(u32::from(n))
    }

    /// The edge at a place.
    pub fn at(&self, place: u32) -> (NodeNo, EdgeKind)
        requires { place < length self.now.told }
        ensures { result ≡ ((told_at self.now.told place).node, (told_at self.now.told place).kind) }
    {
        let told = self.told[place as usize];
        (told.node, told.kind)
    }

    /// The place of the next edge that a node tells, behind that at a place.
    pub fn next(&self, n: u16, place: u32) -> Option<u32>
        requires inside { n < self.now.nodes }
        requires tells { TellsAt n self.now.told place }
        ensures place { IsPlace n self.now.told result }
        ensures edges { told_from n self.now.told (Some place) ≡ ((told_at self.now.told place).node, (told_at self.now.told place).kind) ∷ told_from n self.now.told result }
    {
        self.links.next(place)
    }
}
