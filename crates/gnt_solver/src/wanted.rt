// What is stolen and what is wanted: the passes from the last node to the first.
ghost use Rattle.std.specs.Prelude.{◌≡◌, ℕ, suc, ◌+◌, ◌<◌, ◌≤◌, Bool, ◌&&◌, ◌||◌, IsTrue, ◌↔◌, if◌then◌else◌, IfOk, length};
ghost use Rattle.fd_prog.specs.Flow.{Within, Around, is_around, latch_in};
ghost use Rattle.interval_graph.specs.Rows.{AreRows, flow_of, leads_at};
ghost use Rattle.gnt_solver.specs.Columns.{held, col, at, IsTable};
ghost use Rattle.gnt_solver.specs.Passes.{IsClosed, IsSt, IsAny, to_of, inner_of, ti_of, IsTi, IsT};

use crate::tables::{Size, blank, clear, empty, entry, fill, lose, meet, put, unite};
use fd_base::{Memory, NodeNo};
use fd_sets::{ItemSet, SetTable};
use interval_graph::{Graph, Way};
use std::alloc::Global;

/// The node behind one and its body.
fn behind_body(graph: &Graph, m: u16) -> u16
    requires rows { AreRows graph.now.rows.items }
    requires inside { m + 1 < length graph.now.rows.items }
    ensures { result ≡ suc (if is_around (leads_at graph.now.rows.items m) then latch_in (leads_at graph.now.rows.items m) else m) }
{
    match graph.way(NodeNo(m)) {
        Way::Around(latch) => latch.0 + 1,
        _ => m + 1,
    }
}

/// The members of the sets of the nodes in the body of the loop that begins at `l` and has the latch `c`. A loop there has the members of its own body.
fn gathered(graph: &Graph, table: &SetTable, l: u16, c: u16, into: &mut ItemSet, size: Size)
    requires rows { AreRows graph.now.rows.items }
    requires nodes { size.nodes ≡ length graph.now.rows.items }
    requires table { IsTable size table.now }
    requires leads { leads_at graph.now.rows.items l ≡ Around c }
    requires closed { (x : ℕ) → IsClosed graph.now.rows.items (col table.now x) l }
    requires sized { into.old.size ≡ size.items }
    ensures size { into.new.size ≡ size.items }
    ensures held { (x : ℕ) → IsTrue (held into.new x) ↔ ((m : ℕ) × (l < m) × (m ≤ c) × IsTrue (at (col table.now x) m)) }
{
    let mut m = l + 1;
    clear(into, entry(table, m, size));
    'level: while m <= c {
        unite(into, entry(table, m, size));
        m = behind_body(graph, m);
    }
}

/// The members of the sets of the nodes in the body of a loop.
fn in_body(graph: &Graph, table: &SetTable, n: u16, into: &mut ItemSet, size: Size)
    requires rows { AreRows graph.now.rows.items }
    requires nodes { size.nodes ≡ length graph.now.rows.items }
    requires table { IsTable size table.now }
    requires inside { n < size.nodes }
    requires closed { (x : ℕ) → IsClosed graph.now.rows.items (col table.now x) n }
    requires sized { into.old.size ≡ size.items }
    ensures size { into.new.size ≡ size.items }
    ensures held { (x : ℕ) → IsTrue (held into.new x) ↔ ((m : ℕ) × Within (flow_of graph.now.rows.items) n m × IsTrue (at (col table.now x) m)) }
{
    match graph.way(NodeNo(n)) {
        Way::Around(latch) => gathered(graph, table, n, latch.0, into, size),
        _ => clear(into, entry(table, n, size)),
    }
}

/// What a node and its body steal; or, from what each node takes, what a node and its body take.
pub fn stolen(
    alloc: Global,
    graph: &Graph,
    steal: &SetTable,
    size: Size,
) -> Result<SetTable, Memory>
    requires rows { AreRows graph.now.rows.items }
    requires nodes { size.nodes ≡ length graph.now.rows.items }
    requires table { IsTable size steal.now }
    ensures table { IfOk result (λ st. IsTable size st) }
    ensures is { IfOk result (λ st. (x : ℕ) → IsSt graph.now.rows.items (col steal.now x) (col st x) 0) }
{
    let mut st = blank(alloc, size)?;
    let mut here = empty(alloc, size)?;
    let mut i = size.nodes;
    while i > 0 {
        i -= 1;
        in_body(graph, &st, i, &mut here, size);
        unite(&mut here, entry(steal, i, size));
        put(&mut st, i, &here, size);
    }
    Ok(st)
}

/// What is taken in the body of each loop, from what each node and its body take.
pub fn body_takes(
    alloc: Global,
    graph: &Graph,
    take: &SetTable,
    taken: &SetTable,
    size: Size,
) -> Result<SetTable, Memory>
    requires rows { AreRows graph.now.rows.items }
    requires nodes { size.nodes ≡ length graph.now.rows.items }
    requires table { IsTable size taken.now }
    requires are { (x : ℕ) → IsSt graph.now.rows.items (col take.now x) (col taken.now x) 0 }
    ensures table { IfOk result (λ any. IsTable size any) }
    ensures is { IfOk result (λ any. (x : ℕ) → IsAny graph.now.rows.items (col take.now x) (col any x) 0) }
{
    let mut any = blank(alloc, size)?;
    let mut here = empty(alloc, size)?;
    let mut i = size.nodes;
    while i > 0 {
        i -= 1;
        in_body(graph, taken, i, &mut here, size);
        put(&mut any, i, &here, size);
    }
    Ok(any)
}

/// What all successors of a node have, where there is one.
fn behind(graph: &Graph, ti: &SetTable, n: u16, into: &mut ItemSet, size: Size)
    requires rows { AreRows graph.now.rows.items }
    requires nodes { size.nodes ≡ length graph.now.rows.items }
    requires table { IsTable size ti.now }
    requires inside { n < size.nodes }
    requires sized { into.old.size ≡ size.items }
    ensures size { into.new.size ≡ size.items }
    ensures held { (x : ℕ) → held into.new x ≡ to_of (leads_at graph.now.rows.items n) n (at (col ti.now x)) }
{
    match graph.way(NodeNo(n)) {
        Way::Next => fill(into, entry(ti, n + 1, size)),
        Way::Fork(other) => {
            fill(into, entry(ti, n + 1, size));
            meet(into, entry(ti, other.0, size));
        }
        Way::Jump(other) => fill(into, entry(ti, other.0, size)),
        Way::Around(latch) => fill(into, entry(ti, latch.0 + 1, size)),
        Way::Back(_) => clear(into, entry(ti, n, size)),
        Way::Nowhere => clear(into, entry(ti, n, size)),
    }
}

/// Adds what is wanted at the top pad of a loop.
fn unite_top(graph: &Graph, ti: &SetTable, n: u16, into: &mut ItemSet, size: Size)
    requires rows { AreRows graph.now.rows.items }
    requires nodes { size.nodes ≡ length graph.now.rows.items }
    requires table { IsTable size ti.now }
    requires inside { n < size.nodes }
    requires sized { into.old.size ≡ size.items }
    ensures size { into.new.size ≡ size.items }
    ensures held { (x : ℕ) → held into.new x ≡ (held into.old x || (is_around (leads_at graph.now.rows.items n) && at (col ti.now x) (suc n))) }
{
    match graph.way(NodeNo(n)) {
        Way::Around(_) => unite(into, entry(ti, n + 1, size)),
        _ => {}
    }
}

/// What is wanted at a node or behind it: what it takes, and what is wanted behind it or in its body, and not stolen. What a loop wants to keep over its body
/// is wanted behind it too.
fn wanted_at(
    graph: &Graph,
    take: &SetTable,
    st: &SetTable,
    ti: &SetTable,
    n: u16,
    into: &mut ItemSet,
    size: Size,
)
    requires rows { AreRows graph.now.rows.items }
    requires nodes { size.nodes ≡ length graph.now.rows.items }
    requires table_take { IsTable size take.now }
    requires table_st { IsTable size st.now }
    requires table_ti { IsTable size ti.now }
    requires inside { n < size.nodes }
    requires sized { into.old.size ≡ size.items }
    ensures size { into.new.size ≡ size.items }
    ensures held { (x : ℕ) (any : ℕ → Bool) → held into.new x ≡ ti_of graph.now.rows.items (at (col take.now x)) (at (col st.now x)) any (at (col ti.now x)) n }
{
    behind(graph, ti, n, into, size);
    unite_top(graph, ti, n, into, size);
    lose(into, entry(st, n, size));
    unite(into, entry(take, n, size));
}

/// What is wanted at each node or behind it.
pub fn wanted(
    alloc: Global,
    graph: &Graph,
    take: &SetTable,
    st: &SetTable,
    size: Size,
) -> Result<SetTable, Memory>
    requires rows { AreRows graph.now.rows.items }
    requires nodes { size.nodes ≡ length graph.now.rows.items }
    requires table_take { IsTable size take.now }
    requires table_st { IsTable size st.now }
    ensures table { IfOk result (λ ti. IsTable size ti) }
    ensures is { IfOk result (λ ti. (x : ℕ) (any : ℕ → Bool) → IsTi graph.now.rows.items (at (col take.now x)) (at (col st.now x)) any (at (col ti x)) 0) }
{
    let mut ti = blank(alloc, size)?;
    let mut here = empty(alloc, size)?;
    let mut i = size.nodes;
    while i > 0 {
        i -= 1;
        wanted_at(graph, take, st, &ti, i, &mut here, size);
        put(&mut ti, i, &here, size);
    }
    Ok(ti)
}

/// What a loop wants for its body, and what it keeps over its body since it is taken there and wanted behind the loop.
fn inner(
    graph: &Graph,
    st: &SetTable,
    any: &SetTable,
    ti: &SetTable,
    n: u16,
    into: &mut ItemSet,
    size: Size,
)
    requires rows { AreRows graph.now.rows.items }
    requires nodes { size.nodes ≡ length graph.now.rows.items }
    requires table_st { IsTable size st.now }
    requires table_any { IsTable size any.now }
    requires table_ti { IsTable size ti.now }
    requires inside { n < size.nodes }
    requires sized { into.old.size ≡ size.items }
    ensures size { into.new.size ≡ size.items }
    ensures held { (x : ℕ) → held into.new x ≡ inner_of graph.now.rows.items (at (col st.now x)) (at (col any.now x)) (at (col ti.now x)) n }
{
    match graph.way(NodeNo(n)) {
        Way::Around(_) => {
            behind(graph, ti, n, into, size);
            meet(into, entry(any, n, size));
            unite(into, entry(ti, n + 1, size));
            lose(into, entry(st, n, size));
        }
        _ => clear(into, entry(ti, n, size)),
    }
}

/// What is taken at each node, or wanted for its body.
pub fn needs(
    alloc: Global,
    graph: &Graph,
    take: &SetTable,
    st: &SetTable,
    any: &SetTable,
    ti: &SetTable,
    size: Size,
) -> Result<SetTable, Memory>
    requires rows { AreRows graph.now.rows.items }
    requires nodes { size.nodes ≡ length graph.now.rows.items }
    requires table_take { IsTable size take.now }
    requires table_st { IsTable size st.now }
    requires table_any { IsTable size any.now }
    requires table_ti { IsTable size ti.now }
    ensures table { IfOk result (λ t. IsTable size t) }
    ensures is { IfOk result (λ t. (x : ℕ) → IsT graph.now.rows.items (at (col take.now x)) (at (col st.now x)) (at (col any.now x)) (at (col ti.now x)) (at (col t x)) size.nodes) }
{
    let mut t = blank(alloc, size)?;
    let mut here = empty(alloc, size)?;
    for i in 0..size.nodes {
        inner(graph, st, any, ti, i, &mut here, size);
        unite(&mut here, entry(take, i, size));
        put(&mut t, i, &here, size);
    }
    Ok(t)
}
