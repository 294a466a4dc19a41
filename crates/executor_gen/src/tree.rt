// The code of statements.
ghost use Rattle.std.specs.Prelude.{◌≡◌, ◌++◌, ℕ, ◌+◌, ◌≤◌, ◌∷◌, [], IfOk};
ghost use Rattle.exec_code.specs.Instructions.{instruction_of};
ghost use Rattle.fd_prog.specs.Nodes as nodes;
ghost use Rattle.fd_prog.specs.Nodes.{at_line, nodes_in, nodes_among, nodes_from, all_nodes_from};
ghost use Rattle.fd_prog.specs.Conditions.{condition_of};
ghost use Rattle.fd_prog.specs.Statements.{If, Statement, statement_of, statements_of};
ghost use Rattle.exec_code.specs.Trails.{is_distribute};
ghost use Rattle.executor_gen.specs.Layout.{test_offset};
ghost use Rattle.executor_gen.specs.Blocks.{spots_in, place_at, IsRoomy, Adds};

use crate::blocks::{
    write_branch, write_do, write_latch, write_quiet, write_simple, write_while, write_yes_end,
};
use crate::operations::Operations;
use exec_code::Instr;
use fd_base::{Line, Memory};
use fd_prog::{Cond, Stmt, StmtList};
use std::alloc::Global;

/// How many nodes a statement has.
#[cycle(count)]
pub fn count_nodes(statement: &Stmt) -> u16
    requires { nodes_in (statement_of statement.now) ≤ 30000 }
    ensures { result ≡ nodes_in (statement_of statement.now) }
{
    match statement {
        Stmt::If(_, _, so, otherwise) => count_all(so) + count_all(otherwise) + 6,
        Stmt::Do(_, _, _, _, _, body) => count_all(body) + 3,
        Stmt::While(_, _, body) => count_all(body) + 3,
        Stmt::Assign(_, _, _) => 1,
        Stmt::Read(_, _) => 1,
        Stmt::Print(_, _) => 1,
        Stmt::Skip(_) => 1,
        Stmt::Remap(_, _, _) => 1,
    }
}

/// How many nodes statements have.
#[cycle(count)]
pub fn count_all(statements: &StmtList) -> u16
    requires { nodes_among (statements_of statements.now) ≤ 30000 }
    ensures { result ≡ nodes_among (statements_of statements.now) }
{
    match statements {
        StmtList::End => 0,
        StmtList::More(first, rest) => count_nodes(first) + count_all(rest),
    }
}

/// The yes side of an IF, with its two pads, of which the first has the number `a` and the last leads to the Join.
#[cycle(write)]
fn write_yes(
    alloc: Global,
    line: Line,
    side: &StmtList,
    a: u16,
    k: u16,
    join: u16,
    places: &[u32],
    operations: &[Operations],
    instrs: &mut Vec<Instr>,
    lines: &mut Vec<Line>,
) -> Result<u16, Memory>
    requires number { a + (nodes_among (statements_of side.now) + 2) ≤ 30000 }
    requires few { k ≤ a }
    requires roomy { IsRoomy places.now operations.now }
    ensures adds { IfOk result (λ next. Adds (spots_in operations.now) (place_at places.now) k a (at_line line nodes.Pad ∷ (all_nodes_from (a + 1) (statements_of side.now) ++ (at_line line (nodes.YesEnd join) ∷ []))) instrs.old.items lines.old.items instrs.new.items lines.new.items next) }
    ensures few { IfOk result (λ next. next ≤ a + (nodes_among (statements_of side.now) + 2)) }
{
    write_quiet(operations, a, line, instrs, lines)?;
    let next = write_all(alloc, side, a + 1, k, places, operations, instrs, lines)?;
    let last = a + 1 + count_all(side);
    write_yes_end(places, operations, last, join, line, instrs, lines)?;
    Ok(next)
}

/// The no side of an IF, with its two pads, of which the first has the number `a`.
#[cycle(write)]
fn write_no(
    alloc: Global,
    line: Line,
    side: &StmtList,
    a: u16,
    k: u16,
    places: &[u32],
    operations: &[Operations],
    instrs: &mut Vec<Instr>,
    lines: &mut Vec<Line>,
) -> Result<u16, Memory>
    requires number { a + (nodes_among (statements_of side.now) + 2) ≤ 30000 }
    requires few { k ≤ a }
    requires roomy { IsRoomy places.now operations.now }
    ensures adds { IfOk result (λ next. Adds (spots_in operations.now) (place_at places.now) k a (at_line line nodes.Pad ∷ (all_nodes_from (a + 1) (statements_of side.now) ++ (at_line line nodes.Pad ∷ []))) instrs.old.items lines.old.items instrs.new.items lines.new.items next) }
    ensures few { IfOk result (λ next. next ≤ a + (nodes_among (statements_of side.now) + 2)) }
{
    write_quiet(operations, a, line, instrs, lines)?;
    let next = write_all(alloc, side, a + 1, k, places, operations, instrs, lines)?;
    let last = a + 1 + count_all(side);
    write_quiet(operations, last, line, instrs, lines)?;
    Ok(next)
}

/// What follows the beginning of a loop whose node has the number `a`: a pad, the body and the latch, from which the later tests are so far behind the operations of the beginning.
#[cycle(write)]
fn write_round(
    alloc: Global,
    line: Line,
    body: &StmtList,
    a: u16,
    k: u16,
    offset: u32,
    places: &[u32],
    operations: &[Operations],
    instrs: &mut Vec<Instr>,
    lines: &mut Vec<Line>,
) -> Result<u16, Memory>
    requires number { a + (nodes_among (statements_of body.now) + 3) ≤ 30000 }
    requires few { k ≤ a }
    requires offset { offset ≤ 1 }
    requires roomy { IsRoomy places.now operations.now }
    ensures adds { IfOk result (λ next. (s : Statement) → test_offset s ≡ offset → Adds (spots_in operations.now) (place_at places.now) k (a + 1) (at_line line nodes.Pad ∷ (all_nodes_from (a + 2) (statements_of body.now) ++ (at_line line (nodes.Latch s a) ∷ []))) instrs.old.items lines.old.items instrs.new.items lines.new.items next) }
    ensures few { IfOk result (λ next. next ≤ a + (nodes_among (statements_of body.now) + 3)) }
{
    write_quiet(operations, a + 1, line, instrs, lines)?;
    let next = write_all(alloc, body, a + 2, k, places, operations, instrs, lines)?;
    let latch = a + 2 + count_all(body);
    write_latch(places, operations, latch, a, offset, line, instrs, lines)?;
    Ok(next)
}

/// How many executed DISTRIBUTEs a statement is by itself.
fn distributes(statement: &Stmt) -> u16
    ensures is { result ≡ is_distribute (nodes.Simple (statement_of statement.now)) }
    ensures few { result ≤ 1 }
{
    match statement {
        Stmt::Remap(_, _, _) => 1,
        Stmt::Assign(_, _, _) => 0,
        Stmt::If(_, _, _, _) => 0,
        Stmt::Do(_, _, _, _, _, _) => 0,
        Stmt::While(_, _, _) => 0,
        Stmt::Read(_, _) => 0,
        Stmt::Print(_, _) => 0,
        Stmt::Skip(_) => 0,
    }
}

/// The code of a simple statement whose node has the number `a`.
fn write_plain(
    alloc: Global,
    line: Line,
    statement: &Stmt,
    a: u16,
    k: u16,
    operations: &[Operations],
    instrs: &mut Vec<Instr>,
    lines: &mut Vec<Line>,
) -> Result<u16, Memory>
    requires few { k ≤ a }
    requires number { a ≤ 30000 }
    ensures adds { IfOk result (λ next. (place : ℕ → ℕ) (s : Statement) → statement_of statement.now ≡ s → Adds (spots_in operations.now) place k a (at_line line (nodes.Simple s) ∷ []) instrs.old.items lines.old.items instrs.new.items lines.new.items next) }
    ensures few { IfOk result (λ next. next ≤ a + 1) }
{
    write_simple(alloc, operations, a, k, line, statement, instrs, lines)?;
    let next = k + distributes(statement);
    Ok(next)
}

/// The code of an IF whose Branch has the number `a`.
#[cycle(write)]
fn write_fork(
    alloc: Global,
    line: Line,
    condition: &Cond,
    so: &StmtList,
    otherwise: &StmtList,
    a: u16,
    k: u16,
    places: &[u32],
    operations: &[Operations],
    instrs: &mut Vec<Instr>,
    lines: &mut Vec<Line>,
) -> Result<u16, Memory>
    requires number { a + (nodes_among (statements_of so.now) + nodes_among (statements_of otherwise.now) + 6) ≤ 30000 }
    requires few { k ≤ a }
    requires roomy { IsRoomy places.now operations.now }
    ensures adds { IfOk result (λ next. Adds (spots_in operations.now) (place_at places.now) k a (nodes_from a (If line (condition_of condition.now) (statements_of so.now) (statements_of otherwise.now))) instrs.old.items lines.old.items instrs.new.items lines.new.items next) }
    ensures few { IfOk result (λ next. next ≤ a + (nodes_among (statements_of so.now) + nodes_among (statements_of otherwise.now) + 6)) }
{
    let left = count_all(so);
    let right = count_all(otherwise);
    let no_side = a + 3 + left;
    let join = no_side + 2 + right;
    write_branch(
        alloc, places, operations, a, no_side, line, condition, instrs, lines,
    )?;
    let middle = write_yes(
        alloc,
        line,
        so,
        a + 1,
        k,
        join,
        places,
        operations,
        instrs,
        lines,
    )?;
    let next = write_no(
        alloc, line, otherwise, no_side, middle, places, operations, instrs, lines,
    )?;
    write_quiet(operations, join, line, instrs, lines)?;
    Ok(next)
}

/// The code of a statement whose first node has the number `a`, where `k` executed DISTRIBUTEs stand before it; how many stand before what follows.
#[cycle(write)]
fn write(
    alloc: Global,
    statement: &Stmt,
    a: u16,
    k: u16,
    places: &[u32],
    operations: &[Operations],
    instrs: &mut Vec<Instr>,
    lines: &mut Vec<Line>,
) -> Result<u16, Memory>
    requires number { a + nodes_in (statement_of statement.now) ≤ 30000 }
    requires few { k ≤ a }
    requires roomy { IsRoomy places.now operations.now }
    ensures adds { IfOk result (λ next. Adds (spots_in operations.now) (place_at places.now) k a (nodes_from a (statement_of statement.now)) instrs.old.items lines.old.items instrs.new.items lines.new.items next) }
    ensures few { IfOk result (λ next. next ≤ a + nodes_in (statement_of statement.now)) }
{
    match statement {
        Stmt::If(line, c, so, otherwise) => {
            let k = write_fork(
                alloc, *line, c, so, otherwise, a, k, places, operations, instrs, lines,
            )?;
            Ok(k)
        }
        Stmt::Do(line, var, first, last, step, body) => {
            let latch = a + 2 + count_all(body);
            write_do(
                alloc, places, operations, a, latch, *line, *var, first, last, step, instrs, lines,
            )?;
            let k = write_round(
                alloc, *line, body, a, k, 1, places, operations, instrs, lines,
            )?;
            Ok(k)
        }
        Stmt::While(line, c, body) => {
            let latch = a + 2 + count_all(body);
            write_while(alloc, places, operations, a, latch, *line, c, instrs, lines)?;
            let k = write_round(
                alloc, *line, body, a, k, 0, places, operations, instrs, lines,
            )?;
            Ok(k)
        }
        Stmt::Assign(line, _, _) => {
            let k = write_plain(alloc, *line, statement, a, k, operations, instrs, lines)?;
            Ok(k)
        }
        Stmt::Read(line, _) => {
            let k = write_plain(alloc, *line, statement, a, k, operations, instrs, lines)?;
            Ok(k)
        }
        Stmt::Print(line, _) => {
            let k = write_plain(alloc, *line, statement, a, k, operations, instrs, lines)?;
            Ok(k)
        }
        Stmt::Skip(line) => {
            let k = write_plain(alloc, *line, statement, a, k, operations, instrs, lines)?;
            Ok(k)
        }
        Stmt::Remap(line, _, _) => {
            let k = write_plain(alloc, *line, statement, a, k, operations, instrs, lines)?;
            Ok(k)
        }
    }
}

/// The code of statements, the first of which has the node number `a`.
#[cycle(write)]
pub fn write_all(
    alloc: Global,
    statements: &StmtList,
    a: u16,
    k: u16,
    places: &[u32],
    operations: &[Operations],
    instrs: &mut Vec<Instr>,
    lines: &mut Vec<Line>,
) -> Result<u16, Memory>
    requires number { a + nodes_among (statements_of statements.now) ≤ 30000 }
    requires few { k ≤ a }
    requires roomy { IsRoomy places.now operations.now }
    ensures adds { IfOk result (λ next. Adds (spots_in operations.now) (place_at places.now) k a (all_nodes_from a (statements_of statements.now)) instrs.old.items lines.old.items instrs.new.items lines.new.items next) }
    ensures few { IfOk result (λ next. next ≤ a + nodes_among (statements_of statements.now)) }
{
    match statements {
        StmtList::End => Ok(k),
        StmtList::More(first, rest) => {
            let b = a + count_nodes(first);
            let k = write(alloc, first, a, k, places, operations, instrs, lines)?;
            let k = write_all(alloc, rest, b, k, places, operations, instrs, lines)?;
            Ok(k)
        }
    }
}
