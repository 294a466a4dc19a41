// The run of statements, one after the other and one in the other.
ghost use Rattle.std.specs.Prelude.{◌≡◌, IfOk};
ghost use Rattle.fd_prog.specs.Expressions.{expression_of};
ghost use Rattle.fd_prog.specs.Programs.{program_of};
ghost use Rattle.fd_prog.specs.Sequence as sequence;
ghost use Rattle.fd_prog.specs.Statements.{Do, While};
ghost use Rattle.fd_prog.specs.WellFormed.{names_of, IsSoundCondition, IsSoundStatement, AreSoundStatements};
ghost use Rattle.seq_meaning.specs.Ready.{ready_condition, ready_statement, ready_statements};
ghost use Rattle.seq_meaning.specs.Going.{progress_of, task_of, Goes};

use crate::progress::{Progress, Stop};
use crate::ready::{ReadyCond, ReadyList, ReadyStmt};
use crate::steps::{
    step_assign, step_gain, step_nothing, step_print, step_read, step_start, step_test,
};
use crate::store::Cell;
use crate::task::Task;
use fd_base::Line;
use fd_prog::Expr;
use std::alloc::Global;

/// Runs statements in order.
#[cycle(run)]
pub fn run_list(
    alloc: Global,
    task: &Task,
    list: &ReadyList,
    progress: &mut Progress,
) -> Result<(), Stop>
    requires { AreSoundStatements (names_of (program_of task.now.program.now)) (ready_statements list.now) }
    ensures { Goes (sequence.after_all (task_of task.now) (ready_statements list.now) (progress_of progress.old)) progress.new result }
{
    let mut rest = list;
    while let ReadyList::More(first, more) = rest {
        run_statement(alloc, task, first, progress)?;
        rest = more;
    }
    Ok(())
}

// Runs a statement.
#[cycle(run)]
fn run_statement(
    alloc: Global,
    task: &Task,
    s: &ReadyStmt,
    progress: &mut Progress,
) -> Result<(), Stop>
    requires { IsSoundStatement (names_of (program_of task.now.program.now)) (ready_statement s.now) }
    ensures { Goes (sequence.after (task_of task.now) (ready_statement s.now) (progress_of progress.old)) progress.new result }
{
    match s {
        ReadyStmt::Assign(line, target, e) => step_assign(task, *line, target, e, progress),
        ReadyStmt::If(line, c, so, otherwise) => {
            let chosen = if step_test(task, *line, c, progress)? {
                so
            } else {
                otherwise
            };
            // Where a side is empty, as most ELSE sides are, this test spares a call.
            match chosen {
                ReadyList::End => Ok(()),
                ReadyList::More(_, _) => run_list(alloc, task, chosen, progress),
            }
        }
        ReadyStmt::Do(line, var, first, last, by, body) => {
            run_do(alloc, task, *line, *var, *first, *last, *by, body, progress)
        }
        ReadyStmt::While(line, c, body) => run_while(alloc, task, body, *line, c, progress),
        ReadyStmt::Read(line, target) => step_read(task, *line, target, progress),
        ReadyStmt::Print(line, parts) => step_print(alloc, task, *line, parts.as_slice(), progress),
        ReadyStmt::Skip(line) => step_nothing(task, *line, progress),
        ReadyStmt::Remap(line, _, _) => step_nothing(task, *line, progress),
    }
}

// Runs a DO.
#[cycle(run)]
#[inline(never)]
fn run_do(
    alloc: Global,
    task: &Task,
    line: Line,
    var: u16,
    first: &Expr,
    last: &Expr,
    by: &Expr,
    body: &ReadyList,
    progress: &mut Progress,
) -> Result<(), Stop>
    requires { IsSoundStatement (names_of (program_of task.now.program.now)) (Do line var (expression_of first.now) (expression_of last.now) (expression_of by.now) (ready_statements body.now)) }
    ensures { Goes (sequence.after (task_of task.now) (Do line var (expression_of first.now) (expression_of last.now) (expression_of by.now) (ready_statements body.now)) (progress_of progress.old)) progress.new result }
{
    let bounds = step_start(task, line, first, last, by, progress)?;
    progress.store.put(Cell::Scalar(var), bounds.first);
    step_nothing(task, line, progress)?;
    run_iterations(
        alloc,
        task,
        body,
        line,
        var,
        bounds.by,
        bounds.count,
        progress,
    )
}

// Runs the iterations of a DO, each with the test behind it.
#[cycle(run)]
fn run_iterations(
    alloc: Global,
    task: &Task,
    body: &ReadyList,
    line: Line,
    var: u16,
    by: i64,
    count: u128,
    progress: &mut Progress,
) -> Result<(), Stop>
    requires { AreSoundStatements (names_of (program_of task.now.program.now)) (ready_statements body.now) }
    ensures { Goes (sequence.iterations task.now.limit line var by (sequence.after_all (task_of task.now) (ready_statements body.now)) count (progress_of progress.old)) progress.new result }
{
    let mut left = count;
    while left > 0 {
        run_list(alloc, task, body, progress)?;
        step_gain(task, line, var, by, progress)?;
        left -= 1;
    }
    Ok(())
}

// Runs a DO WHILE.
#[cycle(run)]
#[inline(never)]
fn run_while(
    alloc: Global,
    task: &Task,
    body: &ReadyList,
    line: Line,
    c: &ReadyCond,
    progress: &mut Progress,
) -> Result<(), Stop>
    requires body { AreSoundStatements (names_of (program_of task.now.program.now)) (ready_statements body.now) }
    requires test { IsSoundCondition (names_of (program_of task.now.program.now)) (ready_condition c.now) }
    ensures { Goes (sequence.after (task_of task.now) (While line (ready_condition c.now) (ready_statements body.now)) (progress_of progress.old)) progress.new result }
{
    while step_test(task, line, c, progress)? {
        run_list(alloc, task, body, progress)?;
    }
    Ok(())
}
