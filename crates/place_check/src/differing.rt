// The items that are placed otherwise than the solver places them.
ghost use Rattle.std.specs.Prelude.{◌≡◌, ℕ, ◌-◌, false, not, ◌&&◌, ◌||◌, IfOk, length};
ghost use Rattle.fd_sets.specs.Tables as sets;
ghost use Rattle.interval_graph.specs.Rows.{AreRows};
ghost use Rattle.gnt_solver.specs.Columns.{held, col, at, IsTable, size_of};
ghost use Rattle.gnt_solver.specs.Placed.{AreTables};
ghost use Rattle.place_check.specs.Columns.{plan_of};
ghost use Rattle.place_check.specs.Verdicts.{OthersAreHeld};

use fd_base::{Memory, NodeNo};
use fd_sets::{ItemSet, SetTable};
use gnt_solver::{Placement, solve};
use interval_graph::Graph;
use std::alloc::Global;

/// Adds the items that are in one set and not in another. What `rest` had is lost.
fn add_rest(differing: &mut ItemSet, rest: &mut ItemSet, some: &ItemSet, other: &ItemSet)
    requires differing { differing.old.size ≡ some.now.size }
    requires rest { rest.old.size ≡ some.now.size }
    requires other { other.now.size ≡ some.now.size }
    ensures differing { differing.new.size ≡ differing.old.size }
    ensures rest { rest.new.size ≡ rest.old.size }
    ensures held { (x : ℕ) → held differing.new x ≡ (held differing.old x || (held some.now x && not (held other.now x))) }
{
    rest.meet(some);
    rest.unite(some);
    rest.drop_all(other);
    differing.unite(rest);
}

/// Adds the items by which the sets of a node differ, for every node.
fn add_differing(
    differing: &mut ItemSet,
    rest: &mut ItemSet,
    some: &SetTable,
    other: &SetTable,
    count: u16,
)
    requires some { sets.IsTable count differing.old.size some.now }
    requires other { sets.IsTable count differing.old.size other.now }
    requires rest { rest.old.size ≡ differing.old.size }
    ensures differing { differing.new.size ≡ differing.old.size }
    ensures rest { rest.new.size ≡ rest.old.size }
    ensures others { (x : ℕ) → held differing.new x ≡ false → (held differing.old x ≡ false) × ((n : ℕ) → at (col some.now x) n ≡ at (col other.now x) n) }
{
    for n in 0..count {
        let here = some.set(NodeNo(n));
        let there = other.set(NodeNo(n));
        add_rest(differing, rest, here, there);
        add_rest(differing, rest, there, here);
    }
}

/// The items that are placed otherwise than the solver places them. The others keep each condition, since what the solver places is good.
pub fn differing_items(
    alloc: Global,
    graph: &Graph,
    take: &SetTable,
    steal: &SetTable,
    p: &Placement,
) -> Result<ItemSet, Memory>
    requires rows { AreRows graph.now.rows.items }
    requires nodes { length take.now ≡ length graph.now.rows.items }
    requires takes { IsTable (size_of take.now) take.now }
    requires steals { IsTable (size_of take.now) steal.now }
    requires tables { AreTables (size_of take.now) p.now }
    ensures { IfOk result (λ differing. OthersAreHeld (plan_of graph.now.rows.items take.now steal.now p.now) (length graph.now.rows.items - 1) differing) }
{
    let count = graph.count();
    let items = take.set(NodeNo(0)).size();
    let solved = solve(alloc, graph, take, steal)?;
    let mut differing = ItemSet::new(alloc, items)?;
    let mut rest = ItemSet::new(alloc, items)?;
    add_differing(
        &mut differing,
        &mut rest,
        &solved.send_in,
        &p.send_in,
        count,
    );
    add_differing(
        &mut differing,
        &mut rest,
        &solved.send_out,
        &p.send_out,
        count,
    );
    add_differing(
        &mut differing,
        &mut rest,
        &solved.recv_in,
        &p.recv_in,
        count,
    );
    add_differing(
        &mut differing,
        &mut rest,
        &solved.recv_out,
        &p.recv_out,
        count,
    );
    add_differing(&mut differing, &mut rest, &solved.hoists, &p.hoists, count);
    Ok(differing)
}
