// One step of a statement: within the limit, its effect or its fault, and its count.
ghost use Rattle.std.specs.Prelude.{◌≡◌, ◌+◌, ◌<◌, Bool, All, map, OnOk, Ok};
ghost use Rattle.fd_prog.specs.Expressions.{expression_of};
ghost use Rattle.fd_prog.specs.Programs.{program_of};
ghost use Rattle.fd_prog.specs.Sequence as sequence;
ghost use Rattle.fd_prog.specs.Statements.{print_item_of, Assign, Read, Print};
ghost use Rattle.fd_prog.specs.Stores.{readings_of};
ghost use Rattle.fd_prog.specs.Values.{truth_of};
ghost use Rattle.fd_prog.specs.WellFormed.{names_of, IsSound, IsSoundCondition, IsSoundItem, IsSoundTarget};
ghost use Rattle.seq_meaning.specs.Ready.{ready_expression, ready_condition, ready_target};
ghost use Rattle.seq_meaning.specs.Stored.{store_of, bounds_in};
ghost use Rattle.seq_meaning.specs.Going.{progress_of, task_of, Goes, Continues};

use crate::progress::{Progress, Stop};
use crate::ready::{ReadyCond, ReadyExpr, ReadyTarget};
use crate::simple::{Bounds, assign, gain, holds, read, value_bounds};
use crate::task::Task;
use crate::text::line_text;
use fd_base::Line;
use fd_prog::{Expr, Part, Printed};
use std::alloc::Global;

/// An assignment.
pub fn step_assign(
    task: &Task,
    line: Line,
    target: &ReadyTarget,
    e: &ReadyExpr,
    progress: &mut Progress,
) -> Result<(), Stop>
    requires target { IsSoundTarget (names_of (program_of task.now.program.now)) (ready_target target.now) }
    requires value { IsSound (names_of (program_of task.now.program.now)) (ready_expression e.now) }
    ensures { Goes (sequence.after (task_of task.now) (Assign line (ready_target target.now) (ready_expression e.now)) (progress_of progress.old)) progress.new result }
{
    progress.allowed(task.limit, line)?;
    let assigned = assign(task, target, e, &mut progress.store);
    progress.complete(line, assigned)
}

/// A READ of one target.
#[inline(never)]
pub fn step_read(
    task: &Task,
    line: Line,
    target: &ReadyTarget,
    progress: &mut Progress,
) -> Result<(), Stop>
    requires { IsSoundTarget (names_of (program_of task.now.program.now)) (ready_target target.now) }
    ensures { Goes (sequence.after (task_of task.now) (Read line (ready_target target.now)) (progress_of progress.old)) progress.new result }
{
    progress.allowed(task.limit, line)?;
    let taken = read(task, target, &mut progress.store);
    progress.complete(line, taken)
}

/// A PRINT.
#[inline(never)]
pub fn step_print(
    alloc: Global,
    task: &Task,
    line: Line,
    parts: &[Part],
    progress: &mut Progress,
) -> Result<(), Stop>
    requires { All (IsSoundItem (names_of (program_of task.now.program.now))) (map print_item_of parts.now) }
    ensures { Goes (sequence.after (task_of task.now) (Print line (map print_item_of parts.now)) (progress_of progress.old)) progress.new result }
{
    progress.allowed(task.limit, line)?;
    let given = line_text(alloc, task, parts, &progress.store)?;
    let text = progress.complete(line, given)?;
    let step = progress.steps;
    progress.lines.push(Printed { step, text })?;
    Ok(())
}

/// A step that changes nothing but the count.
pub fn step_nothing(task: &Task, line: Line, progress: &mut Progress) -> Result<(), Stop>
    ensures { (go : sequence.Progress → sequence.Onward) → Continues (sequence.store_step task.now.limit line (progress_of progress.old) (Ok (store_of progress.old.store)) go) (λ _. go (progress_of progress.new)) progress.new result }
{
    progress.allowed(task.limit, line)?;
    progress.complete(line, Ok(()))
}

/// A test of a condition.
#[inline(always)]
pub fn step_test(
    task: &Task,
    line: Line,
    c: &ReadyCond,
    progress: &mut Progress,
) -> Result<bool, Stop>
    requires { IsSoundCondition (names_of (program_of task.now.program.now)) (ready_condition c.now) }
    ensures goes { (go : Bool → sequence.Progress → sequence.Onward) → Continues (sequence.step task.now.limit line (progress_of progress.old) (truth_of (readings_of (program_of task.now.program.now) (store_of progress.old.store)) (ready_condition c.now)) go) (λ b. go b (progress_of progress.new)) progress.new result }
    ensures counted { OnOk result (progress.new.steps ≡ progress.old.steps + 1) }
    ensures within { OnOk result (progress.old.steps < task.now.limit) }
{
    progress.allowed(task.limit, line)?;
    let holds = holds(task, c, &progress.store);
    progress.complete(line, holds)
}

/// The start of a DO, which values its bounds.
#[inline(never)]
pub fn step_start(
    task: &Task,
    line: Line,
    first: &Expr,
    last: &Expr,
    by: &Expr,
    progress: &mut Progress,
) -> Result<Bounds, Stop>
    requires first { IsSound (names_of (program_of task.now.program.now)) (expression_of first.now) }
    requires last { IsSound (names_of (program_of task.now.program.now)) (expression_of last.now) }
    requires by { IsSound (names_of (program_of task.now.program.now)) (expression_of by.now) }
    ensures { (go : sequence.Bounds → sequence.Progress → sequence.Onward) → Continues (sequence.step task.now.limit line (progress_of progress.old) (sequence.bounds_of (readings_of (program_of task.now.program.now) (store_of progress.old.store)) (expression_of first.now) (expression_of last.now) (expression_of by.now)) go) (λ b. go (bounds_in b) (progress_of progress.new)) progress.new result }
{
    progress.allowed(task.limit, line)?;
    let bounds = value_bounds(task, first, last, by, &progress.store);
    progress.complete(line, bounds)
}

/// A later test of a DO, in which its variable gains its step.
pub fn step_gain(
    task: &Task,
    line: Line,
    var: u16,
    by: i64,
    progress: &mut Progress,
) -> Result<(), Stop>
    ensures { (go : sequence.Progress → sequence.Onward) → Continues (sequence.store_step task.now.limit line (progress_of progress.old) (sequence.gained var by (store_of progress.old.store)) go) (λ _. go (progress_of progress.new)) progress.new result }
{
    progress.allowed(task.limit, line)?;
    let gained = gain(var, by, &mut progress.store);
    progress.complete(line, gained)
}
