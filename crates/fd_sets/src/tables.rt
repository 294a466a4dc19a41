// A table of sets, one for each node.
ghost use Rattle.std.specs.Prelude.{◌≡◌, ◌<◌, IfOk, length, replicate, slice_index_or, slice_set};
ghost use Rattle.std.specs.FinSet as set;
ghost use Rattle.std.specs.Borrow.{sem};
ghost use Rattle.fd_sets.specs.Lending.{LendsSet};

use crate::ItemSet;
use fd_base::{Memory, NodeNo};
use std::alloc::Global;
use std::marker::Model;

/// One set for each node, in order of the nodes' numbers. Contracts see it as the list of the sets.
#[derive(Drop)]
pub struct SetTable {
    sets: Vec<ItemSet>,
}

impl Model for SetTable {
    ghost use Rattle.std.specs.Prelude.{List};
    ghost use Rattle.std.specs.Coded.{coded_list};
    ghost use Rattle.fd_sets.specs.Sets.{Subset, subset_code};

    ghost Value = { List Subset };

    ghost coded = { coded_list subset_code };

    ghost view = { λ t. t.sets.items };
}

impl SetTable {
    /// The table with the empty set of items up to `items` at each of the nodes.
    pub fn new(alloc: Global, nodes: u16, items: u16) -> Result<SetTable, Memory>
        ensures { IfOk result (λ t. t ≡ replicate nodes (record { size = items; members = set.empty })) }
    {
        let mut sets = Vec::with_capacity(alloc, usize::from(nodes))?;
        for _node in 0..nodes {
            sets.push(ItemSet::new(alloc, items)?)?;
        }
        Ok(SetTable { sets })
    }

    /// The set of a node.
    pub fn set(&self, n: NodeNo) -> &ItemSet
        requires { n.0 < length self.now }
        ensures { result.now ≡ slice_index_or self.now n.0 result.now }
    {
        &self.sets[usize::from(n.0)]
    }

    /// Puts a set in the place of a node's.
    pub fn put(&mut self, n: NodeNo, set: ItemSet)
        requires { n.0 < length self.old }
        ensures { self.new ≡ slice_set self.old n.0 set }
    {
        self.sets[usize::from(n.0)] = set;
    }

    /// The set of a node, to be changed.
    pub fn set_mut(&mut self, n: NodeNo) -> &mut ItemSet
        requires { n.0 < length self.old }
        ensures* writes_back { sem 𝓛 (LendsSet self.entry n.0 result) }
        ensures value { result.now ≡ slice_index_or self.old n.0 result.now }
    {
        &mut self.sets[usize::from(n.0)]
    }
}
