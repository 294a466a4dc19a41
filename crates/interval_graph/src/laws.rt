// What holds of every program's flow graph.
ghost use Rattle.fd_prog.specs.Programs.{CheckedProgram};
ghost use Rattle.fd_prog.specs.Nodes.{nodes_of, nodes_among};
ghost use Rattle.fd_prog.specs.Flow.{graph_of};
ghost use Rattle.std.specs.Prelude.{◌≡◌, ℕ, ◌+◌, ◌<◌, ◌↔◌, IsTrue, List, length};
ghost use Rattle.interval_graph.specs.Structure.{IsFlow, IsLast};
ghost use Rattle.interval_graph.specs.declared.node.EdgeKind.{EdgeKind};
ghost use Rattle.interval_graph.specs.declared.node.Row.{Row};
ghost use Rattle.interval_graph.specs.Rows.{AreRows, flow_of};
ghost use Rattle.interval_graph.specs.Edges.{Tells, successors, predecessors};

/// The nodes of every program are a flow graph, of which End is the last.
pub fn nodes_are_flow()
    ensures flow { (p : CheckedProgram) → IsFlow (graph_of (nodes_of p)) }
    ensures last { (p : CheckedProgram) → IsLast (graph_of (nodes_of p)) (nodes_among p.body + 1) }
{}

/// The edges that nodes tell are those of the flow graph: its Forward edges, from each loop the Entry edge to the node behind it, and from the latch of each loop of a program the Cycle edge back to it. An edge is told by both of its ends.
pub fn edges_are_told()
    ensures forward { (rows : List Row) (n s : ℕ) → Tells (successors rows n) s EdgeKind.Forward ↔ IsTrue ((flow_of rows).forward n s) }
    ensures entry { (rows : List Row) (n s : ℕ) → Tells (successors rows n) s EdgeKind.Entry ↔ (IsTrue ((flow_of rows).is_loop n) × (n + 1 ≡ s)) }
    ensures cycle { (rows : List Row) (n s : ℕ) → AreRows rows → Tells (successors rows n) s EdgeKind.Cycle ↔ (IsTrue ((flow_of rows).is_loop s) × ((flow_of rows).latch s ≡ n)) }
    ensures both { (rows : List Row) (s p : ℕ) (kind : EdgeKind) → Tells (predecessors rows s) p kind ↔ ((p < length rows) × Tells (successors rows p) s kind) }
{}
