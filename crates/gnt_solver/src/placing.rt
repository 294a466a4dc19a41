// Where items are sent and received.
ghost use Rattle.std.specs.Prelude.{◌≡◌, ℕ, ◌<◌, IfOk, length};
ghost use Rattle.interval_graph.specs.Rows.{AreRows, leads_at};
ghost use Rattle.gnt_solver.specs.Columns.{held, col, at, IsTable};
ghost use Rattle.gnt_solver.specs.Passes.{some_of, AreSet, hoist_of};

use crate::passes::Held;
use crate::tables::{Size, blank, clear, empty, entry, fill, lose, put, unite};
use fd_base::{Memory, NodeNo};
use fd_sets::{ItemSet, SetTable};
use interval_graph::{Graph, Way};
use std::alloc::Global;

/// What some successor of a node has.
fn some_behind(graph: &Graph, gi: &SetTable, n: u16, into: &mut ItemSet, size: Size)
    requires rows { AreRows graph.now.rows.items }
    requires nodes { size.nodes ≡ length graph.now.rows.items }
    requires table { IsTable size gi.now }
    requires inside { n < size.nodes }
    requires sized { into.old.size ≡ size.items }
    ensures size { into.new.size ≡ size.items }
    ensures held { (x : ℕ) → held into.new x ≡ some_of (leads_at graph.now.rows.items n) n (at (col gi.now x)) }
{
    match graph.way(NodeNo(n)) {
        Way::Next => fill(into, entry(gi, n + 1, size)),
        Way::Fork(other) => {
            fill(into, entry(gi, n + 1, size));
            unite(into, entry(gi, other.0, size));
        }
        Way::Jump(other) => fill(into, entry(gi, other.0, size)),
        Way::Around(latch) => fill(into, entry(gi, latch.0 + 1, size)),
        Way::Back(_) => clear(into, entry(gi, n, size)),
        Way::Nowhere => clear(into, entry(gi, n, size)),
    }
}

/// The operations of a solution, at the `in` and at the `out` of each node.
#[derive(Drop)]
pub struct Operations {
    pub at_in: SetTable,
    pub at_out: SetTable,
}

/// What brings items to where they are had.
pub fn bring(alloc: Global, graph: &Graph, had: &Held, size: Size) -> Result<Operations, Memory>
    requires rows { AreRows graph.now.rows.items }
    requires nodes { size.nodes ≡ length graph.now.rows.items }
    requires table_gi { IsTable size had.now.gi }
    requires table_g { IsTable size had.now.g }
    requires table_go { IsTable size had.now.go }
    ensures table_in { IfOk result (λ o. IsTable size o.at_in) }
    ensures table_out { IfOk result (λ o. IsTable size o.at_out) }
    ensures set { IfOk result (λ o. (x : ℕ) → AreSet graph.now.rows.items (col had.now.gi x) (col had.now.g x) (col had.now.go x) (col o.at_in x) (col o.at_out x) size.nodes) }
{
    let mut at_in = blank(alloc, size)?;
    let mut at_out = blank(alloc, size)?;
    let mut here = empty(alloc, size)?;
    for i in 0..size.nodes {
        fill(&mut here, entry(&had.g, i, size));
        lose(&mut here, entry(&had.gi, i, size));
        put(&mut at_in, i, &here, size);
        some_behind(graph, &had.gi, i, &mut here, size);
        lose(&mut here, entry(&had.go, i, size));
        put(&mut at_out, i, &here, size);
    }
    Ok(Operations { at_in, at_out })
}

/// What a node hoists out of its body.
fn hoisted_at(
    graph: &Graph,
    take: &SetTable,
    st: &SetTable,
    ti: &SetTable,
    n: u16,
    into: &mut ItemSet,
    size: Size,
)
    requires rows { AreRows graph.now.rows.items }
    requires nodes { size.nodes ≡ length graph.now.rows.items }
    requires table_take { IsTable size take.now }
    requires table_st { IsTable size st.now }
    requires table_ti { IsTable size ti.now }
    requires inside { n < size.nodes }
    requires sized { into.old.size ≡ size.items }
    ensures size { into.new.size ≡ size.items }
    ensures held { (x : ℕ) → held into.new x ≡ hoist_of graph.now.rows.items (at (col take.now x)) (at (col st.now x)) (at (col ti.now x)) n }
{
    match graph.way(NodeNo(n)) {
        Way::Around(_) => {
            fill(into, entry(ti, n + 1, size));
            lose(into, entry(st, n, size));
            lose(into, entry(take, n, size));
        }
        _ => clear(into, entry(take, n, size)),
    }
}

/// What each loop hoists out of its body.
pub fn hoists(
    alloc: Global,
    graph: &Graph,
    take: &SetTable,
    st: &SetTable,
    ti: &SetTable,
    size: Size,
) -> Result<SetTable, Memory>
    requires rows { AreRows graph.now.rows.items }
    requires nodes { size.nodes ≡ length graph.now.rows.items }
    requires table_take { IsTable size take.now }
    requires table_st { IsTable size st.now }
    requires table_ti { IsTable size ti.now }
    ensures table { IfOk result (λ h. IsTable size h) }
    ensures is { IfOk result (λ h. (x n : ℕ) → n < size.nodes → at (col h x) n ≡ hoist_of graph.now.rows.items (at (col take.now x)) (at (col st.now x)) (at (col ti.now x)) n) }
{
    let mut all = blank(alloc, size)?;
    let mut here = empty(alloc, size)?;
    for i in 0..size.nodes {
        hoisted_at(graph, take, st, ti, i, &mut here, size);
        put(&mut all, i, &here, size);
    }
    Ok(all)
}
