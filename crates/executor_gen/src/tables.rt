// The operations that the tables of a placement tell for each node.
ghost use Rattle.std.specs.Prelude.{◌≡◌, ℕ, ◌<◌, ◌≤◌, IfOk, IfNone, IfSome, length};
ghost use Rattle.gnt_solver.specs.Columns.{at, col, held};
ghost use Rattle.gnt_solver.specs.Placed.{places_of, AreTables};
ghost use Rattle.executor_gen.specs.Told.{items_marked, AreNone, AreTold, IsNext, IsToldAt};

use crate::operations::Operations;
use fd_base::{ItemNo, Memory, NodeNo};
use fd_sets::{ItemSet, SetTable};
use gnt_solver::Placement;
use std::alloc::Global;

/// The least member of a set from `from` on, of so many items.
fn next_member(set: &ItemSet, from: u16, items: u16) -> Option<ItemNo>
    ensures some { IfSome result (λ next. IsNext (held set.now) from items next.0) }
    ensures none { IfNone result (AreNone (held set.now) from items) }
{
    let next = set.next_from(ItemNo(from))?;
    let number = next.0;
    if items < number {
        return None;
    }
    Some(next)
}

/// The members of a set, of so many items, ascending.
fn members(alloc: Global, set: &ItemSet, items: u16) -> Result<Vec<ItemNo>, Memory>
    requires { items ≤ 512 }
    ensures { IfOk result (λ found. found.items ≡ items_marked items (held set.now)) }
{
    let mut found: Vec<ItemNo> = Vec::new(alloc);
    let mut from = 1;
    while let Some(item) = next_member(set, from, items) {
        found.push(item)?;
        from = item.0 + 1;
    }
    Ok(found)
}

/// The members of a node's set, of so many items, ascending.
fn members_at(alloc: Global, table: &SetTable, n: NodeNo, items: u16) -> Result<Vec<ItemNo>, Memory>
    requires node { n.0 < length table.now }
    requires few { items ≤ 512 }
    ensures { IfOk result (λ found. found.items ≡ items_marked items (λ x. at (col table.now x) n.0)) }
{
    let own = table.set(n);
    let found = members(alloc, own, items)?;
    Ok(found)
}

/// The operations of a node, of so many.
fn operations_at(
    alloc: Global,
    p: &Placement,
    n: u16,
    nodes: u16,
    items: u16,
) -> Result<Operations, Memory>
    requires node { n < nodes }
    requires few { items ≤ 512 }
    requires tables { AreTables (record { nodes = nodes; items = items }) p.now }
    ensures { IfOk result (λ o. IsToldAt (places_of p.now) items n o) }
{
    let send_in = members_at(alloc, &p.send_in, NodeNo(n), items)?;
    let recv_in = members_at(alloc, &p.recv_in, NodeNo(n), items)?;
    let send_out = members_at(alloc, &p.send_out, NodeNo(n), items)?;
    let recv_out = members_at(alloc, &p.recv_out, NodeNo(n), items)?;
    Ok(Operations {
        send_in,
        recv_in,
        send_out,
        recv_out,
    })
}

/// The operations of so many nodes, in order of the nodes.
pub fn operations_of(
    alloc: Global,
    p: &Placement,
    nodes: u16,
    items: u16,
) -> Result<Vec<Operations>, Memory>
    requires few { items ≤ 512 }
    requires tables { AreTables (record { nodes = nodes; items = items }) p.now }
    ensures count { IfOk result (λ all. length all.items ≡ nodes) }
    ensures told { IfOk result (λ all. AreTold (places_of p.now) items 0 all.items) }
{
    let mut all: Vec<Operations> = Vec::new(alloc);
    for n in 0..nodes {
        let one = operations_at(alloc, p, n, nodes, items)?;
        all.push(one)?;
    }
    Ok(all)
}
