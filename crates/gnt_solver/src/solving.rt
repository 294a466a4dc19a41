// The placement of all items.
ghost use Rattle.std.specs.Prelude.{◌≡◌, ◌-◌, IfOk, length};
ghost use Rattle.fd_prog.specs.PathConditions.{IsGoodPlan};
ghost use Rattle.interval_graph.specs.Rows.{AreRows, flow_of};
ghost use Rattle.gnt_solver.specs.Columns.{IsTable, size_of, uses_of};
ghost use Rattle.gnt_solver.specs.Equations.{AreSolved};
ghost use Rattle.gnt_solver.specs.Placed.{places_of, AreTables};

use crate::passes::pass;
use crate::placing::{bring, hoists};
use crate::tables::Size;
use crate::wanted::{body_takes, needs, stolen, wanted};
use fd_base::{Memory, NodeNo};
use fd_sets::SetTable;
use interval_graph::Graph;
use std::alloc::Global;

/// What is sent and received at the `in` and the `out` of each node, and what each loop hoists.
#[derive(Drop)]
pub struct Placement {
    pub send_in: SetTable,
    pub send_out: SetTable,
    pub recv_in: SetTable,
    pub recv_out: SetTable,
    pub hoists: SetTable,
}

/// The placement by the equations: sent as early, and received as late, as what is taken and stolen allows. The tables have one set for each node, all of one size, which is the count of items.
pub fn solve(
    alloc: Global,
    graph: &Graph,
    take: &SetTable,
    steal: &SetTable,
) -> Result<Placement, Memory>
    requires rows { AreRows graph.now.rows.items }
    requires nodes { length take.now ≡ length graph.now.rows.items }
    requires takes { IsTable (size_of take.now) take.now }
    requires steals { IsTable (size_of take.now) steal.now }
    ensures tables { IfOk result (λ p. AreTables (size_of take.now) p) }
    ensures solved { IfOk result (λ p. AreSolved (flow_of graph.now.rows.items) (uses_of take.now steal.now) (places_of p)) }
    ensures good { IfOk result (λ p. IsGoodPlan (record { graph = flow_of graph.now.rows.items; items = (size_of take.now).items; uses = uses_of take.now steal.now; places = places_of p }) (length graph.now.rows.items - 1)) }
{
    let size = Size {
        nodes: graph.count(),
        items: take.set(NodeNo(0)).size(),
    };
    let taken = stolen(alloc, graph, take, size)?;
    let any = body_takes(alloc, graph, take, &taken, size)?;
    drop(taken);
    let st = stolen(alloc, graph, steal, size)?;
    let ti = wanted(alloc, graph, take, &st, size)?;
    let t = needs(alloc, graph, take, &st, &any, &ti, size)?;
    drop(any);
    let eager = pass(alloc, graph, &st, &ti, &ti, size)?;
    let sends = bring(alloc, graph, &eager, size)?;
    drop(eager);
    let lazy = pass(alloc, graph, &st, &ti, &t, size)?;
    let recvs = bring(alloc, graph, &lazy, size)?;
    let hoists = hoists(alloc, graph, take, &st, &ti, size)?;
    Ok(Placement {
        send_in: sends.at_in,
        send_out: sends.at_out,
        recv_in: recvs.at_in,
        recv_out: recvs.at_out,
        hoists,
    })
}
