// What one iteration of an item's loops finds for a rank.
ghost use Rattle.std.specs.Prelude.{◌≡◌, ◌<◌, ◌≤◌, ◌^◌, ◌-ℤ◌, ℕ, length, unsigned_abs, option_to_list, IfSome, IfOk, Option, Ok};
ghost use Rattle.fd_base.specs.Shapes.{IsShape, extent_of, ordinal_of, size_of, within};
ghost use Rattle.fd_prog.specs.Forms.{linear_form_of, linear_forms_of};
ghost use Rattle.fd_prog.specs.FormValues.{part_values};
ghost use Rattle.fd_prog.specs.Homes.{executor_of};
ghost use Rattle.fd_prog.specs.Items.{linear_item_of, linear_loop_of};
ghost use Rattle.fd_prog.specs.Mapped.{IsMapped};
ghost use Rattle.fd_prog.specs.Needs as definition;
ghost use Rattle.fd_prog.specs.Needs.{bound_value, executes_at, position_at};
ghost use Rattle.fd_prog.specs.Programs.{program_of};
ghost use Rattle.fd_prog.specs.Stores.{shape_of};
ghost use Rattle.fd_prog.specs.Mappings.{extent_along};
ghost use Rattle.inspector.specs.Readers.{IsReader, item_in, map_ok, numbers_of, program_in, sight_of};
ghost use Rattle.fd_prog.specs.SoundForms.{IsSoundLoop};
ghost use Rattle.inspector.specs.Walks.{element_in, found_at};

use crate::reader::Reader;
use crate::values::{form_value, pair, part_value};
use expr_eval::Cells;
use fd_base::{FaultKind, Shape, ordinal, trip_count};
use fd_prog::{Home, Program, Widened};

/// How a widened loop begins: the first number of its variable, its step, and how often it iterates.
#[derive(Clone, Copy)]
pub struct Numbers {
    pub first: i64,
    pub by: i64,
    pub count: u128,
}

/// The numbers of a loop.
pub fn loop_numbers<C: Cells>(l: &Widened, vs: &[i64], c: &C) -> Result<Numbers, FaultKind>
    requires { IsSoundLoop (C.names c.now) (linear_loop_of l.now) }
    ensures { map_ok numbers_of result ≡ definition.loop_numbers (C.readings c.now) vs.now (linear_loop_of l.now) }
{
    let first = part_value(&l.first, vs, c)?;
    let last = part_value(&l.last, vs, c)?;
    let by = part_value(&l.step, vs, c)?;
    let count = trip_count(first, last, by)?;
    Ok(Numbers { first, by, count })
}

/// How far a number is above a lower bound, where it is inside the bounds.
fn offset(z: i128, low: i64, extent: u32) -> Option<u32>
    requires { unsigned_abs z < 2 ^ 100 }
    ensures value { result ≡ within extent (z -ℤ low) }
    ensures below { IfSome result (λ n. n < extent) }
{
    let above = z - i128::from(low);
    if 0 <= above && above < i128::from(extent) {
        Some(above as u32)
    } else {
        None
    }
}

/// The position along the distributed dimension of a decomposition that a subscript has, where it is inside.
fn position(program: &Program, decomp: u16, z: i128) -> Option<u32>
    requires mapped { IsMapped (program_of program.now) }
    requires small { unsigned_abs z < 2 ^ 100 }
    ensures value { result ≡ position_at (program_of program.now) decomp (Ok z) }
    ensures below { IfSome result (λ n. n < extent_along (program_of program.now) decomp) }
{
    match program.decomps.get(decomp as usize) {
        None => None,
        Some(d) => {
            let dim = d.dim as usize;
            offset(z, d.shape.low[dim], d.shape.extent[dim])
        }
    }
}

/// Whether the rank executes at the item's home in an iteration.
fn executes<C: Cells>(r: &Reader, vs: &[i64], c: &C) -> bool
    requires { IsReader (C.names c.now) r.now }
    ensures { result ≡ executes_at (sight_of (C.readings c.now) r.now) vs.now (executor_of r.now.item.now.home) r.now.rank.0 }
{
    match &r.item.home {
        Home::All => true,
        Home::Root => r.rank.0 == 0,
        Home::At(decomp, form) => match form_value(form, vs, c) {
            Err(_) => false,
            Ok(z) => match position(r.program, *decomp, z) {
                None => false,
                Some(place) => r.home_place.owns(place, r.rank),
            },
        },
    }
}

/// The shape of an array.
fn shape_at(program: &Program, array: u16) -> &Shape
    requires mapped { IsMapped (program_of program.now) }
    requires array { array < length (program_of program.now).arrays }
    ensures value { result.now ≡ shape_of (program_of program.now) array }
    ensures shape { IsShape result.now }
{
    &program.arrays.as_slice()[array as usize].shape
}

/// The number of the element that subscripts name.
fn number(shape: &Shape, subs: [i64; 2]) -> Result<u32, FaultKind>
    requires { IsShape shape.now }
    ensures value { result ≡ ordinal_of shape.now subs }
    ensures below { IfOk result (λ n. n < size_of shape.now) }
{
    ordinal(shape, subs)
}

/// The element that the item's subscripts give in an iteration.
fn element<C: Cells>(r: &Reader, vs: &[i64], c: &C) -> Result<u32, FaultKind>
    requires { IsReader (C.names c.now) r.now }
    ensures value { result ≡ element_in (C.readings c.now) vs.now (item_in r.now) (program_in r.now) }
    ensures below { IfOk result (λ n. n < size_of (shape_of (program_in r.now) (item_in r.now).array)) }
{
    let subs = pair(&r.item.subs, vs, c)?;
    number(shape_at(r.program, r.item.array), subs)
}

/// The element that an iteration reads for the rank and that the rank doesn't own.
pub fn find<C: Cells>(r: &Reader, vs: &[i64], c: &C) -> Option<u32>
    requires { IsReader (C.names c.now) r.now }
    ensures { option_to_list result ≡ found_at (sight_of (C.readings c.now) r.now) (item_in r.now) r.now.rank.0 vs.now }
{
    if vs.len() != r.item.loops.len() {
        return None;
    }
    if !executes(r, vs, c) {
        return None;
    }
    match element(r, vs, c) {
        Err(_) => None,
        Ok(number) => {
            if r.array_place.owns(number, r.rank) {
                None
            } else {
                Some(number)
            }
        }
    }
}
