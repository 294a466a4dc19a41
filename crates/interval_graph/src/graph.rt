// The flow graph of a program.
ghost use Rattle.std.specs.Prelude.{◌≡◌, ℕ, ◌<◌, ◌≤◌, ◌^◌, IfOk, length};
ghost use Rattle.fd_prog.specs.Programs.{program_of};
ghost use Rattle.fd_prog.specs.Checked.{size_among};
ghost use Rattle.fd_prog.specs.Nodes.{nodes_of};
ghost use Rattle.interval_graph.specs.Rows.{row_at, rows_of, AreRows};
ghost use Rattle.interval_graph.specs.Edges.{successors, predecessors, children};
ghost use Rattle.interval_graph.specs.Chained.{told_by};

use crate::chains::Chains;
use crate::edges::{Edges, edges_of};
use crate::lay::{add, lay_all};
use crate::node::{NodeKind, Row, Way};
use crate::telling::{tell_arriving, tell_children, tell_leaving};
use fd_base::{Line, Memory, NodeNo};
use fd_prog::Program;
use std::alloc::Global;

/// The flow graph of a program, its nodes in order of their numbers.
#[derive(Drop)]
pub struct Graph {
    pub rows: Vec<Row>,
    /// All edges, by the nodes that they leave.
    leaving: Chains,
    /// All edges, by the nodes that they lead to.
    arriving: Chains,
    /// The nodes of each loop's body at its level.
    inside: Chains,
    ghost leaving_nodes: { leaving.nodes ≡ length rows.items },
    ghost leaving_told: { (n : ℕ) → n < length rows.items → told_by n leaving.told ≡ successors rows.items n },
    ghost arriving_nodes: { arriving.nodes ≡ length rows.items },
    ghost arriving_told: { (n : ℕ) → told_by n arriving.told ≡ predecessors rows.items n },
    ghost inside_nodes: { inside.nodes ≡ length rows.items },
    ghost inside_told: { (n : ℕ) → n < length rows.items → told_by n inside.told ≡ children rows.items n },
}

impl Graph {
    /// How many nodes there are.
    pub fn count(&self) -> u16
        requires { length self.now.rows.items < 2 ^ 16 }
        ensures { result ≡ length self.now.rows.items }
    {
        self.rows.len() as u16
    }

    /// What a node is there for.
    pub fn kind(&self, n: NodeNo) -> NodeKind
        requires { n.0 < length self.now.rows.items }
        ensures { result ≡ (row_at self.now.rows.items n.0).kind }
    {
        self.rows[usize::from(n.0)].kind
    }

    /// The line that a node is told by; 0 at Start.
    pub fn line(&self, n: NodeNo) -> Line
        requires { n.0 < length self.now.rows.items }
        ensures { result ≡ (row_at self.now.rows.items n.0).line }
    {
        self.rows[usize::from(n.0)].line
    }

    /// Where a node leads.
    pub fn way(&self, n: NodeNo) -> Way
        requires { n.0 < length self.now.rows.items }
        ensures { result ≡ (row_at self.now.rows.items n.0).way }
    {
        self.rows[usize::from(n.0)].way
    }

    /// The edges that leave a node, in order of the nodes that they lead to; the Cycle edge of a latch leads back.
    pub fn succs(&self, n: NodeNo) -> Edges<'_>
        requires { n.0 < length self.now.rows.items }
        ensures { result ≡ successors self.now.rows.items n.0 }
    {
        edges_of(&self.leaving, n)
    }

    /// The edges that lead to a node, in order of the nodes that they leave.
    pub fn preds(&self, n: NodeNo) -> Edges<'_>
        requires { n.0 < length self.now.rows.items }
        ensures { result ≡ predecessors self.now.rows.items n.0 }
    {
        edges_of(&self.arriving, n)
    }

    /// The nodes of a loop's body at its level, in order: its top pad, told as by the Entry edge, and the others, told as by Forward edges. Other nodes have none.
    pub fn children(&self, n: NodeNo) -> Edges<'_>
        requires { n.0 < length self.now.rows.items }
        ensures { result ≡ children self.now.rows.items n.0 }
    {
        edges_of(&self.inside, n)
    }
}

/// The rows of a program's nodes.
fn rows_of_program(alloc: Global, program: &Program) -> Result<Vec<Row>, Memory>
    requires { size_among (program_of program.now).body ≤ 4096 }
    ensures nodes { IfOk result (λ rows. rows.items ≡ rows_of (nodes_of (program_of program.now))) }
    ensures rows { IfOk result (λ rows. AreRows rows.items) }
{
    let mut rows = Vec::new(alloc);
    add(&mut rows, NodeKind::Start, Line(0), Way::Next)?;
    lay_all(&program.body, 1, &mut rows)?;
    add(&mut rows, NodeKind::End, program.end_line, Way::Nowhere)?;
    Ok(rows)
}

/// The flow graph of a program.
pub fn build(alloc: Global, program: &Program) -> Result<Graph, Memory>
    requires { size_among (program_of program.now).body ≤ 4096 }
    ensures nodes { IfOk result (λ graph. graph.rows.items ≡ rows_of (nodes_of (program_of program.now))) }
    ensures rows { IfOk result (λ graph. AreRows graph.rows.items) }
{
    let rows = rows_of_program(alloc, program)?;
    let leaving = tell_leaving(alloc, &rows)?;
    let arriving = tell_arriving(alloc, &rows)?;
    let inside = tell_children(alloc, &rows)?;
    Ok(Graph {
        rows,
        leaving,
        arriving,
        inside,
    })
}
