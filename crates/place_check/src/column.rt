// What happens to one item at all nodes.
ghost use Rattle.std.specs.Prelude.{◌≡◌, ℕ, ◌<◌, ◌≤◌, ◌+◌, ◌&&◌, nat_le, if◌then◌else◌, IfOk, length};
ghost use Rattle.fd_prog.specs.Flow.{is_around, latch_in};
ghost use Rattle.interval_graph.specs.Rows.{AreRows, way_in};
ghost use Rattle.gnt_solver.specs.Columns.{at, col};
ghost use Rattle.place_check.specs.Marks.{doings_at};
ghost use Rattle.place_check.specs.Walks as walks;
ghost use Rattle.place_check.specs.Columns.{machine_of, plan_of, doings_of, HaveNodes, IsNearest};

use crate::edges::Edge;
use crate::marks::{Doings, QUIET, arrived, ended, left};
use crate::verdict::Condition;
use fd_base::{ItemNo, Memory, NodeNo};
use fd_sets::SetTable;
use gnt_solver::Placement;
use interval_graph::{EdgeKind, Graph, Way};
use std::alloc::Global;

/// What happens to an item at each node, and the condition that it has to keep.
#[derive(Drop)]
pub struct Column {
    pub condition: Condition,
    pub item: ItemNo,
    pub nodes: Vec<Doings>,
}

impl Column {
    /// The mark after arrival at a node.
    pub fn arrive(&self, n: u16, mark: bool) -> Option<bool>
        requires { n < length self.now.nodes.items }
        ensures { result ≡ (machine_of self.now).arriving n mark }
    {
        let here = self.nodes[usize::from(n)];
        let at_end = usize::from(n) == self.nodes.len() - 1;
        ended(
            self.condition,
            at_end,
            arrived(self.condition, self.item, here, mark),
        )
    }

    /// The mark after an edge is followed from a node to another.
    pub fn along(&self, n: u16, edge: Edge, mark: bool) -> Option<bool>
        requires here { n < length self.now.nodes.items }
        requires there { edge.to < length self.now.nodes.items }
        ensures { result ≡ walks.along (machine_of self.now) edge.kind n edge.to mark }
    {
        match edge.kind {
            EdgeKind::Forward => {
                let away = self.leave(n, mark)?;
                self.arrive(edge.to, away)
            }
            EdgeKind::Entry => self.arrive(edge.to, mark),
            EdgeKind::Cycle => Some(mark),
        }
    }

    /// The mark after leaving a node by a Forward edge.
    fn leave(&self, n: u16, mark: bool) -> Option<bool>
        requires { n < length self.now.nodes.items }
        ensures { result ≡ (machine_of self.now).leaving n mark }
    {
        left(self.condition, self.item, self.nodes[usize::from(n)], mark)
    }
}

/// An item is in the set of a node.
fn has(table: &SetTable, n: u16, item: ItemNo) -> bool
    requires { n < length table.now }
    ensures { result ≡ at (col table.now item.0) n }
{
    table.set(NodeNo(n)).has(item)
}

/// A node that hoists an item is a loop with the node `nearest` in its body.
fn hoisted(hoists: bool, way: Way, nearest: u16) -> bool
    ensures { result ≡ (hoists && (is_around (way_in way) && nat_le nearest (latch_in (way_in way)))) }
{
    match way {
        Way::Around(latch) => hoists && nearest <= latch.0,
        _ => false,
    }
}

/// The nearest node that takes an item, with one node more.
fn nearer(taken: bool, n: u16, nearest: u16) -> u16
    ensures { result ≡ (if taken then n else nearest) }
{
    if taken { n } else { nearest }
}

/// What happens to an item at a node; `nearest` is the nearest node behind it that takes the item, or the count of nodes.
fn doings(
    graph: &Graph,
    take: &SetTable,
    steal: &SetTable,
    p: &Placement,
    item: ItemNo,
    n: u16,
    nearest: u16,
) -> Doings
    requires rows { AreRows graph.now.rows.items }
    requires tables { HaveNodes (length graph.now.rows.items) take.now steal.now p.now }
    requires inside { n < length graph.now.rows.items }
    requires near { IsNearest (length graph.now.rows.items) (at (col take.now item.0)) (n + 1) nearest }
    ensures { result ≡ doings_of (plan_of graph.now.rows.items take.now steal.now p.now) item.0 n }
{
    Doings {
        sent_in: has(&p.send_in, n, item),
        received_in: has(&p.recv_in, n, item),
        taken: has(take, n, item),
        hoisted: hoisted(has(&p.hoists, n, item), graph.way(NodeNo(n)), nearest),
        stolen: has(steal, n, item),
        sent_out: has(&p.send_out, n, item),
        received_out: has(&p.recv_out, n, item),
    }
}

/// What happens to an item at each node.
pub fn column_of(
    alloc: Global,
    graph: &Graph,
    take: &SetTable,
    steal: &SetTable,
    p: &Placement,
    condition: Condition,
    item: ItemNo,
) -> Result<Column, Memory>
    requires rows { AreRows graph.now.rows.items }
    requires tables { HaveNodes (length graph.now.rows.items) take.now steal.now p.now }
    ensures condition { IfOk result (λ c. c.condition ≡ condition) }
    ensures nodes { IfOk result (λ c. length c.nodes.items ≡ length graph.now.rows.items) }
    ensures doings { IfOk result (λ c. (n : ℕ) → doings_at c.nodes.items n ≡ doings_of (plan_of graph.now.rows.items take.now steal.now p.now) item.0 n) }
{
    let count = graph.count();
    let mut nodes = vec![in alloc; QUIET; usize::from(count)]?;
    let mut nearest = count;
    for n in (0..count).rev() {
        let here = doings(graph, take, steal, p, item, n, nearest);
        nearest = nearer(here.taken, n, nearest);
        nodes[usize::from(n)] = here;
    }
    Ok(Column {
        condition,
        item,
        nodes,
    })
}
