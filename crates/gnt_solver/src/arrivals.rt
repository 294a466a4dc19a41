// What comes to each node along Forward edges.
ghost use Rattle.std.specs.Prelude.{◌≡◌, ℕ, ◌<◌, true, false, not, ◌&&◌, ◌||◌, IfOk, length, set};
ghost use Rattle.fd_prog.specs.Flow.{leads};
ghost use Rattle.interval_graph.specs.Rows.{AreRows, leads_at};
ghost use Rattle.gnt_solver.specs.Columns.{held, col, at, IsTable};
ghost use Rattle.gnt_solver.specs.Arrived.{AreArrivals, Joins, StepsOn};

use crate::tables::{Size, blank, meet_at, put, unite_at};
use fd_base::{Memory, NodeNo};
use fd_sets::{ItemSet, SetTable};
use interval_graph::{Graph, Way};
use std::alloc::Global;

/// Of each node, whether a node before leads there, what some of these have, and what all of these have.
#[derive(Drop)]
pub struct Arrivals {
    pub seen: Vec<bool>,
    pub some: SetTable,
    pub every: SetTable,
}

/// What all have, after one that has `goes`; before the first, there is none to have anything.
fn narrow(every: &mut SetTable, seen: bool, s: u16, goes: &ItemSet, size: Size)
    requires table { IsTable size every.old }
    requires inside { s < size.nodes }
    requires sized { goes.now.size ≡ size.items }
    ensures table { IsTable size every.new }
    ensures column { (x : ℕ) → col every.new x ≡ set (col every.old x) s ((not seen || at (col every.old x) s) && held goes.now x) }
{
    if seen {
        meet_at(every, s, goes, size);
        return;
    }
    put(every, s, goes, size);
}

/// The mark of a node.
fn marked(seen: &Vec<bool>, s: u16) -> bool
    requires { s < length seen.now.items }
    ensures { result ≡ at seen.now.items s }
{
    seen[usize::from(s)]
}

/// Marks a node.
fn mark(seen: &mut Vec<bool>, s: u16)
    requires { s < length seen.old.items }
    ensures { seen.new.items ≡ set seen.old.items s true }
{
    seen[usize::from(s)] = true;
}

/// Nothing has come anywhere.
pub fn none(alloc: Global, size: Size) -> Result<Arrivals, Memory>
    ensures are { IfOk result (λ a. AreArrivals size a) }
    ensures seen { IfOk result (λ a. (s : ℕ) → at a.seen.items s ≡ false) }
    ensures some { IfOk result (λ a. (x s : ℕ) → at (col a.some x) s ≡ false) }
    ensures every { IfOk result (λ a. (x s : ℕ) → at (col a.every x) s ≡ false) }
{
    let seen = vec![in alloc; false; usize::from(size.nodes)]?;
    let some = blank(alloc, size)?;
    let every = blank(alloc, size)?;
    Ok(Arrivals { seen, some, every })
}

/// One more node that leads to `s` has these items.
fn join(arrivals: &mut Arrivals, s: u16, goes: &ItemSet, size: Size)
    requires are { AreArrivals size arrivals.old }
    requires inside { s < size.nodes }
    requires sized { goes.now.size ≡ size.items }
    ensures are { AreArrivals size arrivals.new }
    ensures joins { Joins arrivals.old arrivals.new s goes.now }
{
    let seen = marked(&arrivals.seen, s);
    narrow(&mut arrivals.every, seen, s, goes, size);
    unite_at(&mut arrivals.some, s, goes, size);
    mark(&mut arrivals.seen, s);
}

/// The items of a node come to all nodes that it leads to.
pub fn pass_on(graph: &Graph, n: u16, arrivals: &mut Arrivals, goes: &ItemSet, size: Size)
    requires rows { AreRows graph.now.rows.items }
    requires nodes { size.nodes ≡ length graph.now.rows.items }
    requires inside { n < size.nodes }
    requires are { AreArrivals size arrivals.old }
    requires sized { goes.now.size ≡ size.items }
    ensures are { AreArrivals size arrivals.new }
    ensures steps { StepsOn (leads (leads_at graph.now.rows.items n) n) goes.now arrivals.old arrivals.new }
{
    match graph.way(NodeNo(n)) {
        Way::Next => join(arrivals, n + 1, goes, size),
        Way::Fork(other) => {
            join(arrivals, n + 1, goes, size);
            join(arrivals, other.0, goes, size);
        }
        Way::Jump(other) => join(arrivals, other.0, goes, size),
        Way::Around(latch) => join(arrivals, latch.0 + 1, goes, size),
        Way::Back(_) => {}
        Way::Nowhere => {}
    }
}
