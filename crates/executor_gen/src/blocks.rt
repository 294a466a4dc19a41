// The blocks of nodes.
ghost use Rattle.std.specs.Prelude.{◌≡◌, ◌++◌, ◌+◌, ◌≤◌, ◌∷◌, [], IfOk, map, length};
ghost use Rattle.exec_code.specs.Instructions.{Jump, Test, Start, Turn, Stop, instruction_of};
ghost use Rattle.fd_prog.specs.Conditions.{condition_of};
ghost use Rattle.fd_prog.specs.Expressions.{expression_of};
ghost use Rattle.fd_prog.specs.Statements.{statement_of};
ghost use Rattle.executor_gen.specs.Blocks.{spots_in, place_at, IsRoomy, Wrote};
ghost use Rattle.executor_gen.specs.Layout.{simple};

use crate::copies::{copy_condition, copy_parts, copy_target};
use crate::operations::{
    Operations, add, add_ins, add_outs, close, count, count_ins, count_outs, place_of,
};
use exec_code::Instr;
use fd_base::{Line, Memory};
use fd_prog::{Cond, Expr, Stmt};
use section_num::copy_expression;
use std::alloc::Global;

/// A node with operations alone.
pub fn write_quiet(
    operations: &[Operations],
    n: u16,
    line: Line,
    instrs: &mut Vec<Instr>,
    lines: &mut Vec<Line>,
) -> Result<(), Memory>
    ensures { IfOk result (λ _. Wrote ((spots_in operations.now).ins n ++ (spots_in operations.now).outs n) line instrs.old.items lines.old.items instrs.new.items lines.new.items) }
{
    let start = count(instrs);
    add_ins(operations, n, instrs)?;
    add_outs(operations, n, instrs)?;
    close(start, line, instrs, lines)?;
    Ok(())
}

/// The last pad of a yes side, which leads to the Join.
pub fn write_yes_end(
    places: &[u32],
    operations: &[Operations],
    n: u16,
    join: u16,
    line: Line,
    instrs: &mut Vec<Instr>,
    lines: &mut Vec<Line>,
) -> Result<(), Memory>
    ensures { IfOk result (λ _. Wrote ((spots_in operations.now).ins n ++ ((spots_in operations.now).outs n ++ (Jump (place_at places.now join) ∷ []))) line instrs.old.items lines.old.items instrs.new.items lines.new.items) }
{
    let start = count(instrs);
    add_ins(operations, n, instrs)?;
    add_outs(operations, n, instrs)?;
    add(Instr::Jump(place_of(places, join)), instrs)?;
    close(start, line, instrs, lines)?;
    Ok(())
}

/// The instruction of a simple statement, where `k` executed DISTRIBUTEs stand before it. An IF and a loop have blocks of their own.
fn simple_instr(alloc: Global, statement: &Stmt, k: u16) -> Result<Instr, Memory>
    ensures { IfOk result (λ made. instruction_of made ≡ simple k (statement_of statement.now)) }
{
    match statement {
        Stmt::Assign(_, target, e) => {
            let target = copy_target(alloc, target)?;
            let e = copy_expression(alloc, e)?;
            Ok(Instr::Assign(target, e))
        }
        Stmt::Read(_, target) => {
            let target = copy_target(alloc, target)?;
            Ok(Instr::Read(target))
        }
        Stmt::Print(_, parts) => {
            let parts = copy_parts(alloc, parts.as_slice())?;
            Ok(Instr::Print(parts))
        }
        Stmt::Remap(_, decomp, _) => Ok(Instr::Install(*decomp, k)),
        Stmt::Skip(_) => Ok(Instr::Skip),
        Stmt::If(_, _, _, _) => Ok(Instr::Skip),
        Stmt::Do(_, _, _, _, _, _) => Ok(Instr::Skip),
        Stmt::While(_, _, _) => Ok(Instr::Skip),
    }
}

/// Adds the instruction of a simple statement.
fn add_simple(
    alloc: Global,
    statement: &Stmt,
    k: u16,
    instrs: &mut Vec<Instr>,
) -> Result<(), Memory>
    ensures { IfOk result (λ _. map instruction_of instrs.new.items ≡ map instruction_of instrs.old.items ++ simple k (statement_of statement.now) ∷ []) }
{
    let instr = simple_instr(alloc, statement, k)?;
    add(instr, instrs)?;
    Ok(())
}

/// A simple statement.
pub fn write_simple(
    alloc: Global,
    operations: &[Operations],
    n: u16,
    k: u16,
    line: Line,
    statement: &Stmt,
    instrs: &mut Vec<Instr>,
    lines: &mut Vec<Line>,
) -> Result<(), Memory>
    ensures { IfOk result (λ _. Wrote ((spots_in operations.now).ins n ++ (simple k (statement_of statement.now) ∷ (spots_in operations.now).outs n)) line instrs.old.items lines.old.items instrs.new.items lines.new.items) }
{
    let start = count(instrs);
    add_ins(operations, n, instrs)?;
    add_simple(alloc, statement, k, instrs)?;
    add_outs(operations, n, instrs)?;
    close(start, line, instrs, lines)?;
    Ok(())
}

/// Adds the test of a condition, which goes on at `to` where the condition doesn't hold.
fn add_test(alloc: Global, condition: &Cond, to: u32, instrs: &mut Vec<Instr>) -> Result<(), Memory>
    ensures { IfOk result (λ _. map instruction_of instrs.new.items ≡ map instruction_of instrs.old.items ++ Test (condition_of condition.now) to ∷ []) }
{
    let condition = copy_condition(alloc, condition)?;
    add(Instr::Test(condition, to), instrs)?;
    Ok(())
}

/// Adds the start of a DO.
fn add_start(
    alloc: Global,
    var: u16,
    first: &Expr,
    last: &Expr,
    step: &Expr,
    instrs: &mut Vec<Instr>,
) -> Result<(), Memory>
    ensures { IfOk result (λ _. map instruction_of instrs.new.items ≡ map instruction_of instrs.old.items ++ Start var (expression_of first.now) (expression_of last.now) (expression_of step.now) ∷ []) }
{
    let first = copy_expression(alloc, first)?;
    let last = copy_expression(alloc, last)?;
    let step = copy_expression(alloc, step)?;
    add(Instr::Start(var, first, last, step), instrs)?;
    Ok(())
}

/// The way from a Branch to one of its sides.
fn add_way(
    to: u32,
    operations: &[Operations],
    n: u16,
    instrs: &mut Vec<Instr>,
) -> Result<(), Memory>
    ensures { IfOk result (λ _. map instruction_of instrs.new.items ≡ map instruction_of instrs.old.items ++ ((spots_in operations.now).outs n ++ (Jump to ∷ []))) }
{
    add_outs(operations, n, instrs)?;
    add(Instr::Jump(to), instrs)?;
    Ok(())
}

/// The test of an IF.
pub fn write_branch(
    alloc: Global,
    places: &[u32],
    operations: &[Operations],
    n: u16,
    no_side: u16,
    line: Line,
    condition: &Cond,
    instrs: &mut Vec<Instr>,
    lines: &mut Vec<Line>,
) -> Result<(), Memory>
    requires number { n ≤ 30000 }
    requires roomy { IsRoomy places.now operations.now }
    ensures { IfOk result (λ _. Wrote ((spots_in operations.now).ins n ++ (Test (condition_of condition.now) (place_at places.now n + length ((spots_in operations.now).ins n) + length ((spots_in operations.now).outs n) + 2) ∷ ((spots_in operations.now).outs n ++ (Jump (place_at places.now (n + 1)) ∷ ((spots_in operations.now).outs n ++ (Jump (place_at places.now no_side) ∷ [])))))) line instrs.old.items lines.old.items instrs.new.items lines.new.items) }
{
    let start = count(instrs);
    let place = place_of(places, n);
    let ins = count_ins(operations, n);
    let outs = count_outs(operations, n);
    add_ins(operations, n, instrs)?;
    add_test(alloc, condition, place + ins + outs + 2, instrs)?;
    add_way(place_of(places, n + 1), operations, n, instrs)?;
    add_way(place_of(places, no_side), operations, n, instrs)?;
    close(start, line, instrs, lines)?;
    Ok(())
}

/// Where the code goes on behind a loop.
fn exit_of(places: &[u32], operations: &[Operations], latch: u16) -> u32
    requires { IsRoomy places.now operations.now }
    ensures { result ≡ place_at places.now latch + length ((spots_in operations.now).ins latch) + 1 }
{
    let place = place_of(places, latch);
    let ins = count_ins(operations, latch);
    place + ins + 1
}

/// The beginning of a DO.
pub fn write_do(
    alloc: Global,
    places: &[u32],
    operations: &[Operations],
    n: u16,
    latch: u16,
    line: Line,
    var: u16,
    first: &Expr,
    last: &Expr,
    step: &Expr,
    instrs: &mut Vec<Instr>,
    lines: &mut Vec<Line>,
) -> Result<(), Memory>
    requires { IsRoomy places.now operations.now }
    ensures { IfOk result (λ _. Wrote ((spots_in operations.now).ins n ++ (Start var (expression_of first.now) (expression_of last.now) (expression_of step.now) ∷ (Turn var (place_at places.now latch + length ((spots_in operations.now).ins latch) + 1) ∷ []))) line instrs.old.items lines.old.items instrs.new.items lines.new.items) }
{
    let start = count(instrs);
    add_ins(operations, n, instrs)?;
    add_start(alloc, var, first, last, step, instrs)?;
    add(Instr::Turn(var, exit_of(places, operations, latch)), instrs)?;
    close(start, line, instrs, lines)?;
    Ok(())
}

/// The beginning of a DO WHILE.
pub fn write_while(
    alloc: Global,
    places: &[u32],
    operations: &[Operations],
    n: u16,
    latch: u16,
    line: Line,
    condition: &Cond,
    instrs: &mut Vec<Instr>,
    lines: &mut Vec<Line>,
) -> Result<(), Memory>
    requires { IsRoomy places.now operations.now }
    ensures { IfOk result (λ _. Wrote ((spots_in operations.now).ins n ++ (Test (condition_of condition.now) (place_at places.now latch + length ((spots_in operations.now).ins latch) + 1) ∷ [])) line instrs.old.items lines.old.items instrs.new.items lines.new.items) }
{
    let start = count(instrs);
    add_ins(operations, n, instrs)?;
    let exit = exit_of(places, operations, latch);
    add_test(alloc, condition, exit, instrs)?;
    close(start, line, instrs, lines)?;
    Ok(())
}

/// The latch of a loop, whose later tests stand so far behind the operations of its beginning.
pub fn write_latch(
    places: &[u32],
    operations: &[Operations],
    n: u16,
    beginning: u16,
    offset: u32,
    line: Line,
    instrs: &mut Vec<Instr>,
    lines: &mut Vec<Line>,
) -> Result<(), Memory>
    requires roomy { IsRoomy places.now operations.now }
    requires offset { offset ≤ 1 }
    ensures { IfOk result (λ _. Wrote ((spots_in operations.now).ins n ++ (Jump (place_at places.now beginning + length ((spots_in operations.now).ins beginning) + offset) ∷ (spots_in operations.now).outs beginning)) line instrs.old.items lines.old.items instrs.new.items lines.new.items) }
{
    let start = count(instrs);
    let place = place_of(places, beginning);
    let ins = count_ins(operations, beginning);
    add_ins(operations, n, instrs)?;
    add(Instr::Jump(place + ins + offset), instrs)?;
    add_outs(operations, beginning, instrs)?;
    close(start, line, instrs, lines)?;
    Ok(())
}

/// The end of the program.
pub fn write_end(
    operations: &[Operations],
    n: u16,
    line: Line,
    instrs: &mut Vec<Instr>,
    lines: &mut Vec<Line>,
) -> Result<(), Memory>
    ensures { IfOk result (λ _. Wrote ((spots_in operations.now).ins n ++ (Stop ∷ [])) line instrs.old.items lines.old.items instrs.new.items lines.new.items) }
{
    let start = count(instrs);
    add_ins(operations, n, instrs)?;
    add(Instr::Stop, instrs)?;
    close(start, line, instrs, lines)?;
    Ok(())
}
