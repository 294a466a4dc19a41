// What the bodies of loops take.
ghost use Rattle.std.specs.Prelude.{◌≡◌, ℕ, IfOk, length};
ghost use Rattle.fd_prog.specs.Paths.{taken_inside};
ghost use Rattle.interval_graph.specs.Rows.{AreRows, flow_of};
ghost use Rattle.gnt_solver.specs.Columns.{at, col, IsTable, size_of};

use crate::tables::Size;
use crate::wanted::{body_takes, stolen};
use fd_base::{Memory, NodeNo};
use fd_sets::SetTable;
use interval_graph::Graph;
use std::alloc::Global;

/// The items that the body of each loop takes; at other nodes there are none. The table has one set for each node, all of one size.
pub fn taken_in_bodies(alloc: Global, graph: &Graph, take: &SetTable) -> Result<SetTable, Memory>
    requires rows { AreRows graph.now.rows.items }
    requires nodes { length take.now ≡ length graph.now.rows.items }
    requires takes { IsTable (size_of take.now) take.now }
    ensures table { IfOk result (λ any. IsTable (size_of take.now) any) }
    ensures is { IfOk result (λ any. (n x : ℕ) → at (col any x) n ≡ taken_inside (flow_of graph.now.rows.items) (λ m q. at (col take.now q) m) n x) }
{
    let size = Size {
        nodes: graph.count(),
        items: take.set(NodeNo(0)).size(),
    };
    let taken = stolen(alloc, graph, take, size)?;
    let any = body_takes(alloc, graph, take, &taken, size)?;
    Ok(any)
}
