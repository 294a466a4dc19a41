// The values of what is made ready.
ghost use Rattle.std.specs.Prelude.{◌≡◌, ◌<◌, ℕ, pos, get_or, Option, length, ok_or, Ok};
ghost use Rattle.fd_base.specs.declared.numbers.FaultKind.TheVariants.{Bounds};
ghost use Rattle.fd_base.specs.Numbers.{exact_quotient, exact_remainder};
ghost use Rattle.fd_prog.specs.Expressions.{expression_of, Element, Joined, More, End};
ghost use Rattle.fd_prog.specs.Outcomes.{and_then};
ghost use Rattle.fd_prog.specs.Programs.{program_of};
ghost use Rattle.fd_prog.specs.Stores.{readings_of};
ghost use Rattle.fd_prog.specs.Values.{value_of, truth_of, joined, element_value};
ghost use Rattle.fd_prog.specs.WellFormed.{names_of, IsSound, IsSoundCondition};
ghost use Rattle.seq_meaning.specs.Ready.{ready_expression, ready_condition, ready_leaf, ready_shifted};
ghost use Rattle.seq_meaning.specs.Stored.{store_of};

use crate::ready::{Leaf, Leaves, ReadyCond, ReadyExpr, Shifted, ShiftedPair};
use crate::task::StoreCells;
use expr_eval::{Cells, compare, eval, test};
use fd_base::{FaultKind, add, div, mul, place, place_in_row, rem, sub};
use fd_prog::{Expr, Op2};

/// The value of an expression, or the first fault from left to right.
#[inline(always)]
pub fn value(e: &ReadyExpr, cells: StoreCells) -> Result<i64, FaultKind>
    requires { IsSound (names_of (program_of cells.program.now)) (ready_expression e.now) }
    ensures { result ≡ value_of (readings_of (program_of cells.entry.program.now) (store_of cells.entry.store.now)) (ready_expression e.now) }
{
    let mut fault = FaultKind::Overflow;
    let found = whole(e, cells, &mut fault);
    found.ok_or(fault)
}

/// The same, always by a call of `number`, for the subscripts of a target made ready where not all are shifted scalars, so that an assignment stays small.
#[inline(always)]
pub fn value_apart(e: &ReadyExpr, cells: StoreCells) -> Result<i64, FaultKind>
    requires { IsSound (names_of (program_of cells.program.now)) (ready_expression e.now) }
    ensures { result ≡ value_of (readings_of (program_of cells.entry.program.now) (store_of cells.entry.store.now)) (ready_expression e.now) }
{
    let mut fault = FaultKind::Overflow;
    let found = number(e, cells, &mut fault);
    found.ok_or(fault)
}

// The same for the sides of a comparison of two expressions: leaves take no call and all else takes one, so that a test stays small.
#[inline(always)]
fn compared_side(e: &ReadyExpr, cells: StoreCells) -> Result<i64, FaultKind>
    requires { IsSound (names_of (program_of cells.program.now)) (ready_expression e.now) }
    ensures { result ≡ value_of (readings_of (program_of cells.entry.program.now) (store_of cells.entry.store.now)) (ready_expression e.now) }
{
    let mut fault = FaultKind::Overflow;
    let found = operand(e, cells, &mut fault);
    found.ok_or(fault)
}

/// Whether a condition holds, or the first fault from left to right.
#[inline(always)]
pub fn holds(c: &ReadyCond, cells: StoreCells) -> Result<bool, FaultKind>
    requires { IsSoundCondition (names_of (program_of cells.program.now)) (ready_condition c.now) }
    ensures { result ≡ truth_of (readings_of (program_of cells.entry.program.now) (store_of cells.entry.store.now)) (ready_condition c.now) }
{
    match c {
        ReadyCond::Cmp(rel, left, right) => {
            let left = compared_side(left, cells)?;
            let right = compared_side(right, cells)?;
            Ok(compare(*rel, left, right))
        }
        ReadyCond::Against(rel, left, right) => {
            let left = value(left, cells)?;
            Ok(compare(*rel, left, *right))
        }
        ReadyCond::AsIs(c) => test(*c, &cells),
    }
}

// The value, or None behind the fault: an answer that fits two registers. A leaf takes no call, and what is made ready as an operator on two leaves a short one.
#[cycle(number)]
#[inline(always)]
fn operand(e: &ReadyExpr, cells: StoreCells, fault: &mut FaultKind) -> Option<i64>
    requires { IsSound (names_of (program_of cells.program.now)) (ready_expression e.now) }
    ensures { value_of (readings_of (program_of cells.entry.program.now) (store_of cells.entry.store.now)) (ready_expression e.now) ≡ ok_or result fault.new }
{
    match e {
        ReadyExpr::Num(number) => Some(*number),
        ReadyExpr::Scalar(scalar) => Some(cells.scalar(*scalar)),
        ReadyExpr::ShiftedRow(array, first, _) => row_element(cells, *array, first, fault),
        ReadyExpr::ShiftedGrid(array, both, _) => grid_element(cells, *array, both, fault),
        ReadyExpr::BinLeaves(op, both) => bin_leaves(*op, both, cells, fault),
        _ => number(e, cells, fault),
    }
}

// The same of any expression, by a call.
#[cycle(number)]
#[inline(never)]
fn number(e: &ReadyExpr, cells: StoreCells, fault: &mut FaultKind) -> Option<i64>
    requires { IsSound (names_of (program_of cells.program.now)) (ready_expression e.now) }
    ensures { value_of (readings_of (program_of cells.entry.program.now) (store_of cells.entry.store.now)) (ready_expression e.now) ≡ ok_or result fault.new }
{
    match e {
        ReadyExpr::Num(number) => Some(*number),
        ReadyExpr::Scalar(scalar) => Some(cells.scalar(*scalar)),
        ReadyExpr::Above(scalar, more) => noted(add(cells.scalar(*scalar), *more), fault),
        ReadyExpr::Below(scalar, less) => noted(sub(cells.scalar(*scalar), *less), fault),
        ReadyExpr::Half(scalar) => noted(div(cells.scalar(*scalar), 2), fault),
        ReadyExpr::ModTwo(scalar) => noted(rem(cells.scalar(*scalar), 2), fault),
        ReadyExpr::Quotient(scalar, by) => noted(quotient(cells.scalar(*scalar), *by), fault),
        ReadyExpr::Remainder(scalar, by) => noted(remainder(cells.scalar(*scalar), *by), fault),
        ReadyExpr::ShiftedRow(array, first, _) => row_element(cells, *array, first, fault),
        ReadyExpr::ShiftedGrid(array, both, _) => grid_element(cells, *array, both, fault),
        ReadyExpr::Row(array, first, _) => {
            let first = operand(first, cells, fault)?;
            found_in_row(cells, *array, [first, 0], fault)
        }
        ReadyExpr::Grid(array, first, second, _) => {
            let first = operand(first, cells, fault)?;
            let second = operand(second, cells, fault)?;
            found(cells, *array, [first, second], fault)
        }
        ReadyExpr::BinLeaves(op, both) => bin_leaves(*op, both, cells, fault),
        ReadyExpr::Bin(op, left, right) => {
            let left = operand(left, cells, fault)?;
            let right = operand(right, cells, fault)?;
            noted(apply(*op, left, right), fault)
        }
        ReadyExpr::Mod(left, right) => {
            let left = operand(left, cells, fault)?;
            let right = operand(right, cells, fault)?;
            noted(remainder(left, right), fault)
        }
        ReadyExpr::AsIs(e) => as_it_stands(*e, cells, fault),
    }
}

/// The value of a shifted scalar, or Overflow.
#[inline(always)]
pub fn shifted_value(e: &Shifted, cells: StoreCells) -> Result<i64, FaultKind>
    ensures { result ≡ value_of (readings_of (program_of cells.entry.program.now) (store_of cells.entry.store.now)) (ready_shifted e.now) }
{
    add(cells.store.number_of(e.scalar), e.shift)
}

// The value of a whole expression. One match has all that takes no call or a short one, since a match within another costs a test more.
#[inline(always)]
fn whole(e: &ReadyExpr, cells: StoreCells, fault: &mut FaultKind) -> Option<i64>
    requires { IsSound (names_of (program_of cells.program.now)) (ready_expression e.now) }
    ensures { value_of (readings_of (program_of cells.entry.program.now) (store_of cells.entry.store.now)) (ready_expression e.now) ≡ ok_or result fault.new }
{
    match e {
        ReadyExpr::Num(number) => Some(*number),
        ReadyExpr::Scalar(scalar) => Some(cells.scalar(*scalar)),
        ReadyExpr::Above(scalar, more) => noted(add(cells.scalar(*scalar), *more), fault),
        ReadyExpr::Below(scalar, less) => noted(sub(cells.scalar(*scalar), *less), fault),
        ReadyExpr::Half(scalar) => noted(div(cells.scalar(*scalar), 2), fault),
        ReadyExpr::ModTwo(scalar) => noted(rem(cells.scalar(*scalar), 2), fault),
        ReadyExpr::Quotient(scalar, by) => noted(quotient(cells.scalar(*scalar), *by), fault),
        ReadyExpr::Remainder(scalar, by) => noted(remainder(cells.scalar(*scalar), *by), fault),
        ReadyExpr::ShiftedRow(array, first, _) => row_element(cells, *array, first, fault),
        ReadyExpr::ShiftedGrid(array, both, _) => grid_element(cells, *array, both, fault),
        ReadyExpr::BinLeaves(op, both) => bin_leaves(*op, both, cells, fault),
        _ => number(e, cells, fault),
    }
}

// The value of a leaf.
#[inline(always)]
fn leaf(e: &Leaf, cells: StoreCells, fault: &mut FaultKind) -> Option<i64>
    requires { IsSound (names_of (program_of cells.program.now)) (ready_leaf e.now) }
    ensures { value_of (readings_of (program_of cells.entry.program.now) (store_of cells.entry.store.now)) (ready_leaf e.now) ≡ ok_or result fault.new }
{
    match e {
        Leaf::Num(number) => Some(*number),
        Leaf::Scalar(scalar) => Some(cells.scalar(*scalar)),
        Leaf::ShiftedRow(array, first, _) => row_element(cells, *array, first, fault),
        Leaf::ShiftedGrid(array, both, _) => grid_element(cells, *array, both, fault),
    }
}

// An operator on the values of two leaves. What it needs is inlined, so that its call is a short one.
#[inline(never)]
fn bin_leaves(op: Op2, both: &Leaves, cells: StoreCells, fault: &mut FaultKind) -> Option<i64>
    requires { IsSound (names_of (program_of cells.program.now)) (Joined op (ready_leaf both.now.left) (ready_leaf both.now.right)) }
    ensures { value_of (readings_of (program_of cells.entry.program.now) (store_of cells.entry.store.now)) (Joined op (ready_leaf both.now.left) (ready_leaf both.now.right)) ≡ ok_or result fault.new }
{
    let left = leaf(&both.left, cells, fault)?;
    let right = leaf(&both.right, cells, fault)?;
    noted(apply(op, left, right), fault)
}

// The value of an expression as it stands in the program.
#[inline(never)]
fn as_it_stands(e: &Expr, cells: StoreCells, fault: &mut FaultKind) -> Option<i64>
    requires { IsSound (names_of (program_of cells.program.now)) (expression_of e.now) }
    ensures { value_of (readings_of (program_of cells.entry.program.now) (store_of cells.entry.store.now)) (expression_of e.now) ≡ ok_or result fault.new }
{
    noted(eval(e, &cells), fault)
}

// The number of the element that a shifted scalar names.
#[inline(always)]
fn row_element(cells: StoreCells, array: u16, first: &Shifted, fault: &mut FaultKind) -> Option<i64>
    requires { array < length cells.program.now.arrays }
    ensures { (site : ℕ) → value_of (readings_of (program_of cells.entry.program.now) (store_of cells.entry.store.now)) (Element array (More (ready_shifted first.now) End) site) ≡ ok_or result fault.new }
{
    let first = noted(shifted_value(first, cells), fault)?;
    found_in_row(cells, array, [first, 0], fault)
}

// The number of the element that two of these name.
#[inline(always)]
fn grid_element(
    cells: StoreCells,
    array: u16,
    both: &ShiftedPair,
    fault: &mut FaultKind,
) -> Option<i64>
    requires { array < length cells.program.now.arrays }
    ensures { (site : ℕ) → value_of (readings_of (program_of cells.entry.program.now) (store_of cells.entry.store.now)) (Element array (More (ready_shifted both.now.first) (More (ready_shifted both.now.second) End)) site) ≡ ok_or result fault.new }
{
    let first = noted(shifted_value(&both.first, cells), fault)?;
    let second = noted(shifted_value(&both.second, cells), fault)?;
    found(cells, array, [first, second], fault)
}

// The number of the element that one subscript names, with 0 for the second.
#[inline(always)]
fn found_in_row(cells: StoreCells, array: u16, subs: [i64; 2], fault: &mut FaultKind) -> Option<i64>
    requires array { array < length cells.program.now.arrays }
    requires row { get_or subs 1 (pos 0) ≡ pos 0 }
    ensures { (site : Option ℕ) → element_value (readings_of (program_of cells.entry.program.now) (store_of cells.entry.store.now)) array site subs ≡ ok_or result fault.new }
{
    let arrays = cells.program.arrays.as_slice();
    let place = place_in_row(&arrays[array as usize].shape, subs);
    number_at(cells, array, place, fault)
}

// The number of the element that two subscripts name.
#[inline(always)]
fn found(cells: StoreCells, array: u16, subs: [i64; 2], fault: &mut FaultKind) -> Option<i64>
    requires { array < length cells.program.now.arrays }
    ensures { (site : Option ℕ) → element_value (readings_of (program_of cells.entry.program.now) (store_of cells.entry.store.now)) array site subs ≡ ok_or result fault.new }
{
    let arrays = cells.program.arrays.as_slice();
    let place = place(&arrays[array as usize].shape, subs);
    number_at(cells, array, place, fault)
}

// The number at a place in an array, or Bounds where there is no place.
#[inline(always)]
fn number_at(
    cells: StoreCells,
    array: u16,
    place: Option<u32>,
    fault: &mut FaultKind,
) -> Option<i64>
    ensures { (site : Option ℕ) → and_then (ok_or place Bounds) (λ n. Ok ((readings_of (program_of cells.entry.program.now) (store_of cells.entry.store.now)).element array site n)) ≡ ok_or result fault.new }
{
    match place {
        Some(number) => Some(cells.store.number_at(array as usize, number as usize)),
        None => {
            *fault = FaultKind::Bounds;
            None
        }
    }
}

// The number, or None behind the fault.
#[inline(always)]
fn noted(given: Result<i64, FaultKind>, fault: &mut FaultKind) -> Option<i64>
    ensures { given ≡ ok_or result fault.new }
{
    match given {
        Ok(number) => Some(number),
        Err(kind) => {
            *fault = kind;
            None
        }
    }
}

// An operator on the values of both sides.
#[inline(always)]
fn apply(op: Op2, left: i64, right: i64) -> Result<i64, FaultKind>
    ensures { result ≡ joined op left right }
{
    match op {
        Op2::Add => add(left, right),
        Op2::Sub => sub(left, right),
        Op2::Mul => mul(left, right),
        Op2::Div => quotient(left, right),
    }
}

// The quotient. By a number that the compiler knows, as these by which loops halve, form means and take digits, it costs a multiplication or a shift and no division.
#[inline(always)]
fn quotient(a: i64, b: i64) -> Result<i64, FaultKind>
    ensures { result ≡ exact_quotient a b }
{
    match b {
        2 => div(a, 2),
        3 => div(a, 3),
        4 => div(a, 4),
        5 => div(a, 5),
        8 => div(a, 8),
        10 => div(a, 10),
        _ => div(a, b),
    }
}

// MOD, likewise.
#[inline(always)]
fn remainder(a: i64, b: i64) -> Result<i64, FaultKind>
    ensures { result ≡ exact_remainder a b }
{
    match b {
        2 => rem(a, 2),
        3 => rem(a, 3),
        4 => rem(a, 4),
        5 => rem(a, 5),
        8 => rem(a, 8),
        10 => rem(a, 10),
        _ => rem(a, b),
    }
}
