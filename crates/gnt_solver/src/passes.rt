// Where items are had: the passes from the first node to the last.
ghost use Rattle.std.specs.Prelude.{◌≡◌, ℕ, ◌<◌, ◌&&◌, ◌||◌, IfOk, length};
ghost use Rattle.interval_graph.specs.Rows.{AreRows, leads_at};
ghost use Rattle.gnt_solver.specs.Columns.{held, col, at, IsTable};
ghost use Rattle.gnt_solver.specs.Passes.{HasCome, IsEntered, ArePassed};
ghost use Rattle.gnt_solver.specs.Arrived.{AreArrivals};

use crate::arrivals::{Arrivals, none, pass_on};
use crate::tables::{Size, blank, clear, empty, entry, fill, lose, meet, put, unite};
use fd_base::{Memory, NodeNo};
use fd_sets::{ItemSet, SetTable};
use interval_graph::{Graph, Way};
use std::alloc::Global;

/// The items that are had on arrival at each node, at it, and behind it.
#[derive(Drop)]
pub struct Held {
    pub gi: SetTable,
    pub g: SetTable,
    pub go: SetTable,
}

/// What is had on arrival at a node that is no top pad: what all nodes before have, and what is wanted from here on and some node before has.
fn gathered(arrivals: &Arrivals, ti: &SetTable, n: u16, into: &mut ItemSet, size: Size)
    requires are { AreArrivals size arrivals.now }
    requires table_ti { IsTable size ti.now }
    requires inside { n < size.nodes }
    requires sized { into.old.size ≡ size.items }
    ensures size { into.new.size ≡ size.items }
    ensures held { (x : ℕ) → held into.new x ≡ ((at (col ti.now x) n && at (col arrivals.now.some x) n) || at (col arrivals.now.every x) n) }
{
    fill(into, entry(ti, n, size));
    meet(into, entry(&arrivals.some, n, size));
    unite(into, entry(&arrivals.every, n, size));
}

/// What is had on arrival at a node.
fn entered(
    graph: &Graph,
    arrivals: &Arrivals,
    ti: &SetTable,
    go: &SetTable,
    n: u16,
    into: &mut ItemSet,
    size: Size,
)
    requires rows { AreRows graph.now.rows.items }
    requires nodes { size.nodes ≡ length graph.now.rows.items }
    requires are { AreArrivals size arrivals.now }
    requires table_ti { IsTable size ti.now }
    requires table_go { IsTable size go.now }
    requires inside { n < size.nodes }
    requires come { (x : ℕ) → HasCome (leads_at graph.now.rows.items) (at (col go.now x)) arrivals.now.seen.items (col arrivals.now.some x) (col arrivals.now.every x) n }
    requires sized { into.old.size ≡ size.items }
    ensures size { into.new.size ≡ size.items }
    ensures held { (x : ℕ) → IsEntered graph.now.rows.items (at (col ti.now x)) (at (col go.now x)) (held into.new x) n }
{
    if n == 0 {
        clear(into, entry(go, n, size));
        return;
    }
    match graph.way(NodeNo(n - 1)) {
        Way::Around(_) => fill(into, entry(go, n - 1, size)),
        _ => gathered(arrivals, ti, n, into, size),
    }
}

/// Where items are had that are brought at the nodes of `brought`.
pub fn pass(
    alloc: Global,
    graph: &Graph,
    st: &SetTable,
    ti: &SetTable,
    brought: &SetTable,
    size: Size,
) -> Result<Held, Memory>
    requires rows { AreRows graph.now.rows.items }
    requires nodes { size.nodes ≡ length graph.now.rows.items }
    requires table_st { IsTable size st.now }
    requires table_ti { IsTable size ti.now }
    requires table_brought { IsTable size brought.now }
    ensures table_gi { IfOk result (λ w. IsTable size w.gi) }
    ensures table_g { IfOk result (λ w. IsTable size w.g) }
    ensures table_go { IfOk result (λ w. IsTable size w.go) }
    ensures passed { IfOk result (λ w. (x : ℕ) → ArePassed graph.now.rows.items (col st.now x) (col ti.now x) (col brought.now x) (col w.gi x) (col w.g x) (col w.go x) size.nodes) }
{
    let mut gi = blank(alloc, size)?;
    let mut g = blank(alloc, size)?;
    let mut go = blank(alloc, size)?;
    let mut arrivals = none(alloc, size)?;
    let mut here = empty(alloc, size)?;
    for i in 0..size.nodes {
        entered(graph, &arrivals, ti, &go, i, &mut here, size);
        put(&mut gi, i, &here, size);
        unite(&mut here, entry(brought, i, size));
        put(&mut g, i, &here, size);
        lose(&mut here, entry(st, i, size));
        put(&mut go, i, &here, size);
        pass_on(graph, i, &mut arrivals, &here, size);
    }
    Ok(Held { gi, g, go })
}
