// The edges of all nodes, as their ends tell them.
ghost use Rattle.std.specs.Prelude.{◌≡◌, ℕ, suc, ◌+◌, ◌<◌, ◌^◌, ◌==◌, [], ◌++◌, if◌then◌else◌, IfOk, IfSome, length};
ghost use Rattle.std.specs.Option.{option_to_list};
ghost use Rattle.fd_prog.specs.Flow.{Around, latch_in, is_around};
ghost use Rattle.interval_graph.specs.Rows.{row_at, way_in, leads_at, AreRows};
ghost use Rattle.interval_graph.specs.Edges.{leaving, arriving, successors, predecessors, child, children};
ghost use Rattle.interval_graph.specs.Chained.{told_by};

use crate::chains::Chains;
use crate::node::{EdgeKind, Row, Way};
use fd_base::{Memory, NodeNo};
use std::alloc::Global;

/// Where a node leads.
fn way_at(rows: &Vec<Row>, n: u16) -> Way
    requires { n < length rows.now.items }
    ensures { result ≡ (row_at rows.now.items n).way }
{
    rows[usize::from(n)].way
}

/// The edges that leave a node: two at most.
fn edges_from(way: Way, n: u16) -> (Option<(NodeNo, EdgeKind)>, Option<(NodeNo, EdgeKind)>)
    requires here { n < 2 ^ 15 }
    requires there { latch_in (way_in way) < 2 ^ 15 }
    ensures { option_to_list result.0 ++ option_to_list result.1 ≡ leaving (way_in way) n }
{
    let next = NodeNo(n + 1);
    match way {
        Way::Next => (Some((next, EdgeKind::Forward)), None),
        Way::Fork(other) => (
            Some((next, EdgeKind::Forward)),
            Some((other, EdgeKind::Forward)),
        ),
        Way::Jump(other) => (Some((other, EdgeKind::Forward)), None),
        Way::Around(latch) => (
            Some((next, EdgeKind::Entry)),
            Some((NodeNo(latch.0 + 1), EdgeKind::Forward)),
        ),
        Way::Back(start) => (Some((start, EdgeKind::Cycle)), None),
        Way::Nowhere => (None, None),
    }
}

/// With an edge that leaves node `n`, where there is one, as that node tells it.
fn with_leaving(chains: Chains, n: u16, edge: Option<(NodeNo, EdgeKind)>) -> Result<Chains, Memory>
    requires { n < chains.nodes }
    ensures nodes { IfOk result (λ c. c.nodes ≡ chains.nodes) }
    ensures told { IfOk result (λ c. (m : ℕ) → told_by m c.told ≡ told_by m chains.told ++ (if n == m then option_to_list edge else [])) }
{
    match edge {
        Some((node, kind)) => chains.with(n, node, kind),
        None => Ok(chains),
    }
}

/// With an edge that leaves node `n`, where there is one, as the node that it leads to tells it.
fn with_arriving(chains: Chains, n: u16, edge: Option<(NodeNo, EdgeKind)>) -> Result<Chains, Memory>
    requires { IfSome edge (λ e. e.0.0 < chains.nodes) }
    ensures nodes { IfOk result (λ c. c.nodes ≡ chains.nodes) }
    ensures told { IfOk result (λ c. (m : ℕ) → told_by m c.told ≡ told_by m chains.told ++ arriving n m (option_to_list edge)) }
{
    match edge {
        Some((node, kind)) => chains.with(node.0, NodeNo(n), kind),
        None => Ok(chains),
    }
}

/// All edges, each told by the node that it leaves.
pub fn tell_leaving(alloc: Global, rows: &Vec<Row>) -> Result<Chains, Memory>
    requires { AreRows rows.now.items }
    ensures nodes { IfOk result (λ c. c.nodes ≡ length rows.now.items) }
    ensures told { IfOk result (λ c. (n : ℕ) → n < length rows.now.items → told_by n c.told ≡ successors rows.now.items n) }
{
    let count = rows.len() as u16;
    let mut chains = Chains::new(alloc, count)?;
    for n in 0..count {
        let (first, second) = edges_from(way_at(rows, n), n);
        let one = with_leaving(chains, n, first)?;
        chains = with_leaving(one, n, second)?;
    }
    Ok(chains)
}

/// All edges, each told by the node that it leads to.
pub fn tell_arriving(alloc: Global, rows: &Vec<Row>) -> Result<Chains, Memory>
    requires { AreRows rows.now.items }
    ensures nodes { IfOk result (λ c. c.nodes ≡ length rows.now.items) }
    ensures told { IfOk result (λ c. (n : ℕ) → told_by n c.told ≡ predecessors rows.now.items n) }
{
    let count = rows.len() as u16;
    let mut chains = Chains::new(alloc, count)?;
    for n in 0..count {
        let (first, second) = edges_from(way_at(rows, n), n);
        let one = with_arriving(chains, n, first)?;
        chains = with_arriving(one, n, second)?;
    }
    Ok(chains)
}

/// The node behind one and its body.
fn behind(rows: &Vec<Row>, m: u16) -> u16
    requires rows { AreRows rows.now.items }
    requires inside { m + 1 < length rows.now.items }
    ensures { result ≡ suc (if is_around (leads_at rows.now.items m) then latch_in (leads_at rows.now.items m) else m) }
{
    match way_at(rows, m) {
        Way::Around(latch) => latch.0 + 1,
        _ => m + 1,
    }
}

/// How the edges lead to a node of a loop's body.
fn kind_inside(start: u16, m: u16) -> EdgeKind
    requires { start < 2 ^ 15 }
    ensures { result ≡ (child start m).1 }
{
    if m == start + 1 {
        EdgeKind::Entry
    } else {
        EdgeKind::Forward
    }
}

/// With the nodes of a loop's body at its level, as the loop tells them.
fn with_body(chains: Chains, rows: &Vec<Row>, start: u16, latch: u16) -> Result<Chains, Memory>
    requires rows { AreRows rows.now.items }
    requires nodes { chains.nodes ≡ length rows.now.items }
    requires leads { leads_at rows.now.items start ≡ Around latch }
    ensures nodes { IfOk result (λ c. c.nodes ≡ chains.nodes) }
    ensures told { IfOk result (λ c. (m : ℕ) → told_by m c.told ≡ told_by m chains.told ++ (if start == m then children rows.now.items start else [])) }
{
    let mut all = chains;
    let mut m = start + 1;
    'level: while m <= latch {
        all = all.with(start, NodeNo(m), kind_inside(start, m))?;
        m = behind(rows, m);
    }
    Ok(all)
}

/// With the nodes of the body of a node at its level, as the node tells them.
fn with_children(chains: Chains, rows: &Vec<Row>, l: u16) -> Result<Chains, Memory>
    requires rows { AreRows rows.now.items }
    requires nodes { chains.nodes ≡ length rows.now.items }
    requires inside { l < length rows.now.items }
    ensures nodes { IfOk result (λ c. c.nodes ≡ chains.nodes) }
    ensures told { IfOk result (λ c. (m : ℕ) → told_by m c.told ≡ told_by m chains.told ++ (if l == m then children rows.now.items l else [])) }
{
    match way_at(rows, l) {
        Way::Around(latch) => with_body(chains, rows, l, latch.0),
        _ => Ok(chains),
    }
}

/// The nodes of each loop's body at its level, told by the loop.
pub fn tell_children(alloc: Global, rows: &Vec<Row>) -> Result<Chains, Memory>
    requires { AreRows rows.now.items }
    ensures nodes { IfOk result (λ c. c.nodes ≡ length rows.now.items) }
    ensures told { IfOk result (λ c. (n : ℕ) → n < length rows.now.items → told_by n c.told ≡ children rows.now.items n) }
{
    let count = rows.len() as u16;
    let mut chains = Chains::new(alloc, count)?;
    for n in 0..count {
        chains = with_children(chains, rows, n)?;
    }
    Ok(chains)
}
