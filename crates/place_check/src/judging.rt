// The verdict on a placement.
ghost use Rattle.std.specs.Prelude.{◌≡◌, ◌-◌, ◌≤◌, ◌<◌, IfOk, length};
ghost use Rattle.interval_graph.specs.Rows.{AreRows};
ghost use Rattle.gnt_solver.specs.Columns.{IsTable, size_of};
ghost use Rattle.gnt_solver.specs.Placed.{AreTables};
ghost use Rattle.place_check.specs.Columns.{plan_of, HaveNodes};
ghost use Rattle.place_check.specs.Verdicts.{IsVerdict, IsShownAt, IsNamed, OthersAreHeld};

use crate::column::column_of;
use crate::differing::differing_items;
use crate::search::first_walk;
use crate::verdict::{Condition, NodeList, Verdict};
use fd_base::{ItemNo, Memory, NodeNo};
use fd_sets::{ItemSet, SetTable};
use gnt_solver::Placement;
use interval_graph::Graph;
use std::alloc::Global;

/// The path that shows that an item breaks a condition, where it does. Only the items of a set are searched; the others are known to keep it.
fn shown(
    alloc: Global,
    graph: &Graph,
    take: &SetTable,
    steal: &SetTable,
    p: &Placement,
    differing: &ItemSet,
    condition: Condition,
    item: ItemNo,
) -> Result<Option<NodeList>, Memory>
    requires rows { AreRows graph.now.rows.items }
    requires tables { HaveNodes (length graph.now.rows.items) take.now steal.now p.now }
    requires others { OthersAreHeld (plan_of graph.now.rows.items take.now steal.now p.now) (length graph.now.rows.items - 1) differing.now }
    requires low { 1 ≤ item.0 }
    requires high { item.0 ≤ (size_of take.now).items }
    ensures { IfOk result (λ path. IsShownAt (plan_of graph.now.rows.items take.now steal.now p.now) (length graph.now.rows.items - 1) condition item.0 path) }
{
    if !differing.has(item) {
        return Ok(None);
    }
    let happens = column_of(alloc, graph, take, steal, p, condition, item)?;
    first_walk(alloc, graph, &happens)
}

/// The first item that breaks a condition, with the path that shows it.
fn named(
    alloc: Global,
    graph: &Graph,
    take: &SetTable,
    steal: &SetTable,
    p: &Placement,
    differing: &ItemSet,
    condition: Condition,
    items: u16,
) -> Result<Verdict, Memory>
    requires rows { AreRows graph.now.rows.items }
    requires tables { HaveNodes (length graph.now.rows.items) take.now steal.now p.now }
    requires others { OthersAreHeld (plan_of graph.now.rows.items take.now steal.now p.now) (length graph.now.rows.items - 1) differing.now }
    requires count { items ≡ (size_of take.now).items }
    ensures { IfOk result (λ verdict. IsNamed (plan_of graph.now.rows.items take.now steal.now p.now) (length graph.now.rows.items - 1) condition verdict) }
{
    for before in 0..items {
        let item = ItemNo(before + 1);
        if let Some(path) = shown(alloc, graph, take, steal, p, differing, condition, item)? {
            return Ok(Verdict::Bad {
                condition,
                item,
                path,
            });
        }
    }
    Ok(Verdict::Good)
}

/// The verdict on a placement: good, or the first condition that is broken in the order of `Condition`, the least item that breaks it, and of the paths with
/// fewest nodes that show it the one whose nodes have the least numbers. The tables have one set for each node, all of one size, which is the count of items.
pub fn judge(
    alloc: Global,
    graph: &Graph,
    take: &SetTable,
    steal: &SetTable,
    p: &Placement,
) -> Result<Verdict, Memory>
    requires rows { AreRows graph.now.rows.items }
    requires nodes { length take.now ≡ length graph.now.rows.items }
    requires takes { IsTable (size_of take.now) take.now }
    requires steals { IsTable (size_of take.now) steal.now }
    requires tables { AreTables (size_of take.now) p.now }
    ensures { IfOk result (λ verdict. IsVerdict (plan_of graph.now.rows.items take.now steal.now p.now) (length graph.now.rows.items - 1) verdict) }
{
    let items = take.set(NodeNo(0)).size();
    let unlike = differing_items(alloc, graph, take, steal, p)?;
    let balanced = named(
        alloc,
        graph,
        take,
        steal,
        p,
        &unlike,
        Condition::Balanced,
        items,
    )?;
    if balanced.is_bad() {
        return Ok(balanced);
    }
    let covered = named(
        alloc,
        graph,
        take,
        steal,
        p,
        &unlike,
        Condition::Covered,
        items,
    )?;
    if covered.is_bad() {
        return Ok(covered);
    }
    named(
        alloc,
        graph,
        take,
        steal,
        p,
        &unlike,
        Condition::Used,
        items,
    )
}
