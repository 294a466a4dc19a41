// The nodes of statements, one statement after the other.
ghost use Rattle.std.specs.Prelude.{◌≡◌, ◌+◌, ◌≤◌, ◌++◌, ◌∷◌, [], IfOk};
ghost use Rattle.fd_prog.specs.Statements.{statement_of, statements_of};
ghost use Rattle.fd_prog.specs.Nodes.{nodes_in, nodes_among, nodes_from, all_nodes_from};
ghost use Rattle.interval_graph.specs.Rows.{rows_of, side_rows, loop_rows};

use crate::node::{NodeKind, Row, Way};
use fd_base::{Line, Memory, NodeNo};
use fd_prog::{Stmt, StmtList};

/// Adds a node.
pub fn add(rows: &mut Vec<Row>, kind: NodeKind, line: Line, way: Way) -> Result<(), Memory>
    ensures { IfOk result (λ _. rows.new.items ≡ rows.old.items ++ record { kind = kind; line = line; way = way } ∷ []) }
{
    rows.push(Row { kind, line, way })?;
    Ok(())
}

/// How many nodes a statement has.
#[cycle(count)]
fn count(statement: &Stmt) -> u16
    requires { nodes_in (statement_of statement.now) ≤ 30000 }
    ensures { result ≡ nodes_in (statement_of statement.now) }
{
    match statement {
        Stmt::If(_, _, so, otherwise) => count_all(so) + count_all(otherwise) + 6,
        Stmt::Do(_, _, _, _, _, body) => count_all(body) + 3,
        Stmt::While(_, _, body) => count_all(body) + 3,
        Stmt::Assign(_, _, _) => 1,
        Stmt::Read(_, _) => 1,
        Stmt::Print(_, _) => 1,
        Stmt::Skip(_) => 1,
        Stmt::Remap(_, _, _) => 1,
    }
}

/// How many nodes statements have.
#[cycle(count)]
fn count_all(statements: &StmtList) -> u16
    requires { nodes_among (statements_of statements.now) ≤ 30000 }
    ensures { result ≡ nodes_among (statements_of statements.now) }
{
    match statements {
        StmtList::End => 0,
        StmtList::More(first, rest) => count(first) + count_all(rest),
    }
}

/// Adds the nodes of one side of an IF with its two pads, of which the first has the number `a` and the last leads as told.
#[cycle(lay)]
fn lay_side(
    line: Line,
    side: &StmtList,
    a: u16,
    last: Way,
    rows: &mut Vec<Row>,
) -> Result<(), Memory>
    requires { a + (nodes_among (statements_of side.now) + 2) ≤ 30000 }
    ensures { IfOk result (λ _. rows.new.items ≡ rows.old.items ++ side_rows line (rows_of (all_nodes_from (a + 1) (statements_of side.now))) last) }
{
    add(rows, NodeKind::Pad, line, Way::Next)?;
    lay_all(side, a + 1, rows)?;
    add(rows, NodeKind::Pad, line, last)?;
    Ok(())
}

/// Adds the nodes of a loop whose first node has the number `a`.
#[cycle(lay)]
fn lay_loop(line: Line, body: &StmtList, a: u16, rows: &mut Vec<Row>) -> Result<(), Memory>
    requires { a + (nodes_among (statements_of body.now) + 3) ≤ 30000 }
    ensures { IfOk result (λ _. rows.new.items ≡ rows.old.items ++ loop_rows a line (nodes_among (statements_of body.now)) (rows_of (all_nodes_from (a + 2) (statements_of body.now)))) }
{
    let latch = a + 2 + count_all(body);
    add(rows, NodeKind::Loop, line, Way::Around(NodeNo(latch)))?;
    add(rows, NodeKind::Pad, line, Way::Next)?;
    lay_all(body, a + 2, rows)?;
    add(rows, NodeKind::Latch, line, Way::Back(NodeNo(a)))?;
    Ok(())
}

/// Adds the nodes of a statement whose first node has the number `a`.
#[cycle(lay)]
fn lay(statement: &Stmt, a: u16, rows: &mut Vec<Row>) -> Result<(), Memory>
    requires { a + nodes_in (statement_of statement.now) ≤ 30000 }
    ensures { IfOk result (λ _. rows.new.items ≡ rows.old.items ++ rows_of (nodes_from a (statement_of statement.now))) }
{
    match statement {
        Stmt::If(line, _, so, otherwise) => {
            let no_side = a + 3 + count_all(so);
            let join = no_side + 2 + count_all(otherwise);
            add(rows, NodeKind::Branch, *line, Way::Fork(NodeNo(no_side)))?;
            lay_side(*line, so, a + 1, Way::Jump(NodeNo(join)), rows)?;
            lay_side(*line, otherwise, no_side, Way::Next, rows)?;
            add(rows, NodeKind::Join, *line, Way::Next)?;
            Ok(())
        }
        Stmt::Do(line, _, _, _, _, body) => lay_loop(*line, body, a, rows),
        Stmt::While(line, _, body) => lay_loop(*line, body, a, rows),
        Stmt::Assign(line, _, _) => add(rows, NodeKind::Simple, *line, Way::Next),
        Stmt::Read(line, _) => add(rows, NodeKind::Simple, *line, Way::Next),
        Stmt::Print(line, _) => add(rows, NodeKind::Simple, *line, Way::Next),
        Stmt::Skip(line) => add(rows, NodeKind::Simple, *line, Way::Next),
        Stmt::Remap(line, _, _) => add(rows, NodeKind::Simple, *line, Way::Next),
    }
}

/// Adds the nodes of statements, the first of which has the number `a`.
#[cycle(lay)]
pub fn lay_all(statements: &StmtList, a: u16, rows: &mut Vec<Row>) -> Result<(), Memory>
    requires { a + nodes_among (statements_of statements.now) ≤ 30000 }
    ensures { IfOk result (λ _. rows.new.items ≡ rows.old.items ++ rows_of (all_nodes_from a (statements_of statements.now))) }
{
    match statements {
        StmtList::End => Ok(()),
        StmtList::More(first, rest) => {
            lay(first, a, rows)?;
            let b = a + count(first);
            lay_all(rest, b, rows)?;
            Ok(())
        }
    }
}
