// What assignments, READs and the bounds of a DO do to the store.
ghost use Rattle.std.specs.Prelude.{◌≡◌, ◌<◌, length, Ok};
ghost use Rattle.fd_base.specs.Shapes.{ordinal_of};
ghost use Rattle.fd_prog.specs.Expressions.{expression_of};
ghost use Rattle.fd_prog.specs.Outcomes.{and_then};
ghost use Rattle.fd_prog.specs.Programs.{program_of};
ghost use Rattle.fd_prog.specs.Sequence.{bounds_of, gained};
ghost use Rattle.fd_prog.specs.Statements.{target_of};
ghost use Rattle.fd_prog.specs.Stores.{readings_of, cell_of, assigned, read_into, shape_of, ElementCell};
ghost use Rattle.fd_prog.specs.Values.{value_of, truth_of};
ghost use Rattle.fd_prog.specs.WellFormed.{names_of, IsSound, IsSoundCondition, IsSoundTarget};
ghost use Rattle.seq_meaning.specs.Ready.{ready_condition, ready_expression, ready_target};
ghost use Rattle.seq_meaning.specs.Stored.{store_of, cell_in, bounds_in, map_ok};

use crate::ready::{ReadyCond, ReadyExpr, ReadyTarget};
use crate::store::{Cell, Store};
use crate::task::Task;
use crate::valuing;
use expr_eval::{eval, pair};
use fd_base::{FaultKind, add, ordinal, place, trip_count};
use fd_prog::{Expr, Ref2};

/// How a DO begins: the first number of its variable, its step, and how often it iterates.
#[derive(Clone, Copy)]
pub struct Bounds {
    pub first: i64,
    pub by: i64,
    pub count: u128,
}

/// What a target names: its subscripts from left to right, and then their bounds.
#[inline(always)]
fn target_cell(task: &Task, target: &ReadyTarget, store: &Store) -> Result<Cell, FaultKind>
    requires { IsSoundTarget (names_of (program_of task.now.program.now)) (ready_target target.now) }
    ensures { cell_of (readings_of (program_of task.now.program.now) (store_of store.now)) (ready_target target.now) ≡ map_ok cell_in result }
{
    let cells = task.cells(store);
    match target {
        ReadyTarget::Scalar(scalar) => Ok(Cell::Scalar(*scalar)),
        ReadyTarget::ShiftedRow(array, first, _) => {
            let first = valuing::shifted_value(first, cells)?;
            element_cell(task, *array, [first, 0])
        }
        ReadyTarget::ShiftedGrid(array, both, _) => {
            let first = valuing::shifted_value(&both.first, cells)?;
            let second = valuing::shifted_value(&both.second, cells)?;
            element_cell(task, *array, [first, second])
        }
        ReadyTarget::Row(array, first, _) => {
            let first = valuing::value_apart(first, cells)?;
            element_cell(task, *array, [first, 0])
        }
        ReadyTarget::Grid(array, first, second, _) => {
            let first = valuing::value_apart(first, cells)?;
            let second = valuing::value_apart(second, cells)?;
            element_cell(task, *array, [first, second])
        }
        ReadyTarget::AsIs(target) => named_cell(task, *target, store),
    }
}

// What a target names as it stands in the program.
fn named_cell(task: &Task, target: &Ref2, store: &Store) -> Result<Cell, FaultKind>
    requires { IsSoundTarget (names_of (program_of task.now.program.now)) (target_of target.now) }
    ensures { cell_of (readings_of (program_of task.now.program.now) (store_of store.now)) (target_of target.now) ≡ map_ok cell_in result }
{
    match target {
        Ref2::Scalar(scalar) => Ok(Cell::Scalar(*scalar)),
        Ref2::Elem(r) => {
            let subs = pair(&r.subs, &task.cells(store))?;
            let arrays = task.program.arrays.as_slice();
            let number = ordinal(&arrays[r.array as usize].shape, subs)?;
            Ok(Cell::Element(r.array, number))
        }
    }
}

// The element that subscripts name, or Bounds where one is outside.
#[inline(always)]
fn element_cell(task: &Task, array: u16, subs: [i64; 2]) -> Result<Cell, FaultKind>
    requires { array < length task.now.program.now.arrays }
    ensures { and_then (ordinal_of (shape_of (program_of task.now.program.now) array) subs) (λ n. Ok (ElementCell array n)) ≡ map_ok cell_in result }
{
    let arrays = task.program.arrays.as_slice();
    match place(&arrays[array as usize].shape, subs) {
        Some(number) => Ok(Cell::Element(array, number)),
        None => Err(FaultKind::Bounds),
    }
}

/// The value of an expression in a store.
pub fn value(task: &Task, e: &Expr, store: &Store) -> Result<i64, FaultKind>
    requires { IsSound (names_of (program_of task.now.program.now)) (expression_of e.now) }
    ensures { result ≡ value_of (readings_of (program_of task.now.program.now) (store_of store.now)) (expression_of e.now) }
{
    eval(e, &task.cells(store))
}

// The value of an expression made ready in a store.
#[inline(always)]
fn ready_value(task: &Task, e: &ReadyExpr, store: &Store) -> Result<i64, FaultKind>
    requires { IsSound (names_of (program_of task.now.program.now)) (ready_expression e.now) }
    ensures { result ≡ value_of (readings_of (program_of task.now.program.now) (store_of store.now)) (ready_expression e.now) }
{
    valuing::value(e, task.cells(store))
}

/// Whether a condition holds in a store.
#[inline(always)]
pub fn holds(task: &Task, c: &ReadyCond, store: &Store) -> Result<bool, FaultKind>
    requires { IsSoundCondition (names_of (program_of task.now.program.now)) (ready_condition c.now) }
    ensures { result ≡ truth_of (readings_of (program_of task.now.program.now) (store_of store.now)) (ready_condition c.now) }
{
    valuing::holds(c, task.cells(store))
}

/// Assigns the value of an expression to a target, or gives the first fault.
pub fn assign(
    task: &Task,
    target: &ReadyTarget,
    e: &ReadyExpr,
    store: &mut Store,
) -> Result<(), FaultKind>
    requires target { IsSoundTarget (names_of (program_of task.now.program.now)) (ready_target target.now) }
    requires value { IsSound (names_of (program_of task.now.program.now)) (ready_expression e.now) }
    ensures { assigned (program_of task.now.program.now) (ready_target target.now) (ready_expression e.now) (store_of store.old) ≡ map_ok (λ _. store_of store.new) result }
{
    // Most assignments are to scalars, whose cells are known without a fault.
    if let ReadyTarget::Scalar(scalar) = target {
        let value = ready_value(task, e, store)?;
        store.put(Cell::Scalar(*scalar), value);
        return Ok(());
    }
    let cell = target_cell(task, target, store)?;
    let number = ready_value(task, e, store)?;
    store.put(cell, number);
    Ok(())
}

/// Reads the next number of the input into a target, or gives the first fault.
pub fn read(task: &Task, target: &ReadyTarget, store: &mut Store) -> Result<(), FaultKind>
    requires { IsSoundTarget (names_of (program_of task.now.program.now)) (ready_target target.now) }
    ensures { read_into (program_of task.now.program.now) task.now.input.now (ready_target target.now) (store_of store.old) ≡ map_ok (λ _. store_of store.new) result }
{
    let target = target_cell(task, target, store)?;
    let Some(number) = task.input.get(store.taken).copied() else {
        return Err(FaultKind::EndOfInput);
    };
    store.taken += 1;
    store.put(target, number);
    Ok(())
}

/// The bounds of a DO, from left to right, or the first fault.
pub fn value_bounds(
    task: &Task,
    first: &Expr,
    last: &Expr,
    by: &Expr,
    store: &Store,
) -> Result<Bounds, FaultKind>
    requires first { IsSound (names_of (program_of task.now.program.now)) (expression_of first.now) }
    requires last { IsSound (names_of (program_of task.now.program.now)) (expression_of last.now) }
    requires by { IsSound (names_of (program_of task.now.program.now)) (expression_of by.now) }
    ensures { bounds_of (readings_of (program_of task.now.program.now) (store_of store.now)) (expression_of first.now) (expression_of last.now) (expression_of by.now) ≡ map_ok bounds_in result }
{
    let cells = task.cells(store);
    let first = eval(first, &cells)?;
    let last = eval(last, &cells)?;
    let by = eval(by, &cells)?;
    let count = trip_count(first, last, by)?;
    Ok(Bounds { first, by, count })
}

/// Adds the step of a DO to its variable, or gives Overflow.
pub fn gain(var: u16, by: i64, store: &mut Store) -> Result<(), FaultKind>
    ensures { gained var by (store_of store.old) ≡ map_ok (λ _. store_of store.new) result }
{
    let number = add(store.number_of(var), by)?;
    store.put(Cell::Scalar(var), number);
    Ok(())
}
