// A walk over the iterations of an item's loops.
ghost use Rattle.std.specs.Prelude.{◌≡◌, ◌<◌, ◌≤◌, ◌+ℤ◌, true, if◌then◌else◌, [], ◌∷◌, drop, flat_map, length, OnOk};
ghost use Rattle.fd_base.specs.Numbers.{fits_i64};
ghost use Rattle.fd_prog.specs.Needs.{iterations_inside};
ghost use Rattle.inspector.specs.Readers.{IsReader, item_in, sight_of, walk_of};
ghost use Rattle.inspector.specs.Walks.{Visits, numbers_from, one_number_of};

use crate::finding::{Numbers, find, loop_numbers};
use crate::found::Found;
use crate::reader::Reader;
use expr_eval::Cells;
use fd_base::{Memory, add};

/// One iteration, where the walk may visit one more.
pub fn visit<C: Cells>(r: &Reader, vs: &[i64], c: &C, found: &mut Found) -> Result<(), Memory>
    requires reader { IsReader (C.names c.now) r.now }
    requires left { 0 < found.old.left }
    ensures { OnOk result (Visits (sight_of (C.readings c.now) r.now) (item_in r.now) r.now.rank.0 (vs.now ∷ []) (walk_of found.old) (walk_of found.new)) }
{
    found.count();
    match find(r, vs, c) {
        None => Ok(()),
        Some(element) => {
            found.add(element)?;
            Ok(())
        }
    }
}

/// The number one step further, where it fits 64 bits.
fn following(number: i64, by: i64) -> Option<i64>
    ensures next { result ≡ (if fits_i64 (number +ℤ by) then Some (number +ℤ by) else None) }
    ensures word { fits_i64 number ≡ true }
{
    add(number, by).ok()
}

/// The iterations that begin with one number of a loop's variable. What the variables have is as before, unless there is no memory.
#[cycle(walk)]
fn one_number<C: Cells>(
    r: &Reader,
    depth: usize,
    number: i64,
    vs: &mut Vec<i64>,
    c: &C,
    found: &mut Found,
) -> Result<(), Memory>
    requires reader { IsReader (C.names c.now) r.now }
    requires depth { depth ≤ length r.now.item.now.loops }
    requires left { 0 < found.old.left }
    ensures visits { OnOk result (Visits (sight_of (C.readings c.now) r.now) (item_in r.now) r.now.rank.0
        (one_number_of (C.readings c.now) (drop depth (item_in r.now).loops) vs.old.items number) (walk_of found.old) (walk_of found.new)) }
    ensures same { OnOk result (vs.new.items ≡ vs.old.items) }
{
    vs.push(number)?;
    visit(r, vs, c, found)?;
    walk(r, depth, vs, c, found)?;
    vs.pop();
    Ok(())
}

/// The iterations of the loops from one on.
#[cycle(walk)]
pub fn walk<C: Cells>(
    r: &Reader,
    depth: usize,
    vs: &mut Vec<i64>,
    c: &C,
    found: &mut Found,
) -> Result<(), Memory>
    requires reader { IsReader (C.names c.now) r.now }
    requires depth { depth ≤ length r.now.item.now.loops }
    ensures visits { OnOk result (Visits (sight_of (C.readings c.now) r.now) (item_in r.now) r.now.rank.0
        (iterations_inside (C.readings c.now) (drop depth (item_in r.now).loops) vs.old.items) (walk_of found.old) (walk_of found.new)) }
    ensures same { OnOk result (vs.new.items ≡ vs.old.items) }
{
    let loops = r.item.loops.as_slice();
    if depth >= loops.len() {
        return Ok(());
    }
    match loop_numbers(&loops[depth], vs, c) {
        Err(_) => Ok(()),
        Ok(numbers) => each_number(r, depth + 1, numbers, vs, c, found),
    }
}

/// The iterations of a loop with these numbers, where the loops inside it are those from one on.
#[cycle(walk)]
fn each_number<C: Cells>(
    r: &Reader,
    depth: usize,
    numbers: Numbers,
    vs: &mut Vec<i64>,
    c: &C,
    found: &mut Found,
) -> Result<(), Memory>
    requires reader { IsReader (C.names c.now) r.now }
    requires depth { depth ≤ length r.now.item.now.loops }
    ensures visits { OnOk result (Visits (sight_of (C.readings c.now) r.now) (item_in r.now) r.now.rank.0
        (flat_map (one_number_of (C.readings c.now) (drop depth (item_in r.now).loops) vs.old.items) (numbers_from numbers.first numbers.by numbers.count)) (walk_of found.old) (walk_of found.new)) }
    ensures same { OnOk result (vs.new.items ≡ vs.old.items) }
{
    let mut number = numbers.first;
    let mut remaining = numbers.count;
    while remaining > 0 {
        if found.left == 0 {
            return Ok(());
        }
        one_number(r, depth, number, vs, c, found)?;
        match following(number, numbers.by) {
            None => return Ok(()),
            Some(next) => number = next,
        }
        remaining -= 1;
    }
    Ok(())
}
