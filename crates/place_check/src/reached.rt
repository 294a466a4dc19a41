// What a search has reached.
ghost use Rattle.std.specs.Prelude.{◌≡◌, ℕ, ◌+◌, ◌*◌, ◌<◌, ◌^◌, ◌∷◌, IfOk, IfSome, length, reverse};
ghost use Rattle.place_check.specs.Columns.{machine_of};
ghost use Rattle.place_check.specs.Trails.{reached_at, trail, spot, IsNoted, FollowsEdge, LeadBack};
ghost use Rattle.place_check.specs.Verdicts.{numbers_of};

use crate::column::Column;
use crate::edges::Edge;
use crate::verdict::NodeList;
use fd_base::{ListOf, Memory, NodeNo};
use std::alloc::Global;

/// A node that a walk reaches with a mark, and the place of what the walk reached before it.
#[derive(Clone, Copy)]
pub struct Reached {
    pub node: u16,
    pub mark: bool,
    pub from: usize,
}

/// What was reached, in the order in which it was first reached; and whether each node was reached with the mark clear, and with the mark set.
#[derive(Drop)]
pub struct Search {
    pub reached: Vec<Reached>,
    pub seen: Vec<bool>,
}

impl Search {
    /// Notes a node that is reached with a mark from what is at a place, unless it was reached with that mark before.
    pub fn note(&mut self, node: u16, mark: bool, from: usize) -> Result<(), Memory>
        requires { spot node mark < length self.old.seen.items }
        ensures { IfOk result (λ _. IsNoted self.old self.new node mark from) }
    {
        let place = 2 * usize::from(node) + usize::from(mark);
        if !self.seen[place] {
            self.seen[place] = true;
            self.reached.push(Reached { node, mark, from })?;
        }
        Ok(())
    }

    /// Follows an edge from what is at a place; the node that it leads to where that breaks the condition.
    pub fn follow(
        &mut self,
        column: &Column,
        at: usize,
        edge: Option<Edge>,
    ) -> Result<Option<u16>, Memory>
        requires inside { at < length self.old.reached.items }
        requires here { (reached_at self.old.reached.items at).node < length column.now.nodes.items }
        requires there { IfSome edge (λ e. e.to < length column.now.nodes.items) }
        requires seen { length self.old.seen.items ≡ 2 * length column.now.nodes.items }
        ensures { IfOk result (λ broken. FollowsEdge (machine_of column.now) self.old self.new at edge broken) }
    {
        let Some(edge) = edge else {
            return Ok(None);
        };
        let here = self.reached[at];
        match column.along(here.node, edge, here.mark) {
            None => Ok(Some(edge.to)),
            Some(mark) => {
                self.note(edge.to, mark, at)?;
                Ok(None)
            }
        }
    }

    /// The nodes of the walk to what is at a place, and then one more, in order from Start.
    pub fn path(&self, alloc: Global, at: usize, last: u16) -> Result<NodeList, Memory>
        requires inside { at < length self.now.reached.items }
        requires back { LeadBack self.now.reached.items }
        ensures { IfOk result (λ nodes. numbers_of nodes ≡ reverse (last ∷ trail self.now.reached.items at)) }
    {
        let mut nodes = Vec::new(alloc);
        nodes.push(NodeNo(last))?;
        let mut i = at;
        while i > 0 {
            nodes.push(NodeNo(self.reached[i].node))?;
            i = self.reached[i].from;
        }
        nodes.push(NodeNo(self.reached[0].node))?;
        nodes.reverse();
        Ok(ListOf::from_vec(nodes))
    }
}
