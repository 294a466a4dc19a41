// The needs of an item.
ghost use Rattle.std.specs.Prelude.{◌≡◌, ◌<◌, length, All, IfOk, OnOk};
ghost use Rattle.fd_base.specs.Shapes.{size_of};
ghost use Rattle.fd_prog.specs.Homes.{executor_of};
ghost use Rattle.fd_prog.specs.Items.{linear_item_of};
ghost use Rattle.fd_prog.specs.Mapped.{IsMapped};
ghost use Rattle.fd_prog.specs.Needs as definition;
ghost use Rattle.fd_prog.specs.Needs.{all_iterations};
ghost use Rattle.fd_prog.specs.Programs.{program_of};
ghost use Rattle.fd_prog.specs.SoundForms.{IsSoundItem};
ghost use Rattle.fd_prog.specs.Stores.{shape_of};
ghost use Rattle.inspector.specs.Placed.{HasPositions, IsHomePlace, IsHomeSplit};
ghost use Rattle.owner_part.specs.Placed.{HasElement, HasElements, IsSplit, array_place, decomp_place, place_by_name, place_of};
ghost use Rattle.inspector.specs.Readers.{IsReader, item_in, sight_by, sight_of, walk_of};
ghost use Rattle.inspector.specs.Walks.{Visits};

use crate::found::{ElemList, Found};
use crate::reader::Reader;
use crate::walk::{visit, walk};
use expr_eval::Cells;
use fd_base::{Memory, RankNo};
use fd_prog::{Home, Item, Program};
use owner_part::{Place, PlaceList, Placed, place_named};
use std::alloc::Global;

/// All iterations of an item.
fn walk_all<C: Cells>(alloc: Global, r: &Reader, c: &C, found: &mut Found) -> Result<(), Memory>
    requires { IsReader (C.names c.now) r.now }
    ensures { OnOk result (Visits (sight_of (C.readings c.now) r.now) (item_in r.now) r.now.rank.0 (all_iterations (C.readings c.now) (item_in r.now).loops) (walk_of found.old) (walk_of found.new)) }
{
    if r.item.loops.len() == 0 {
        if found.left == 0 {
            return Ok(());
        }
        return visit(r, &[], c, found);
    }
    let mut vs = Vec::new(alloc);
    walk(r, 0, &mut vs, c, found)
}

/// The needs of an item at a rank, by the two places alone that they depend on.
fn needs_by<C: Cells>(alloc: Global, r: &Reader, c: &C, limit: u64) -> Result<ElemList, Memory>
    requires { IsReader (C.names c.now) r.now }
    ensures { IfOk result (λ es. es ≡ definition.needs (sight_of (C.readings c.now) r.now) (item_in r.now) r.now.rank.0 limit) }
{
    let mut found = Found::new(alloc, limit);
    walk_all(alloc, r, c, &mut found)?;
    let elements = found.ascending();
    Ok(elements)
}

/// The place of an array or a decomposition, which the list has.
fn split_place(places: &PlaceList, name: Placed) -> &Place
    requires { IsSplit (place_by_name places.now name) }
    ensures { place_of result.now ≡ place_by_name places.now name }
{
    match place_named(places, name) {
        Some(place) => place,
        None => unreachable!(),
    }
}

/// The place of a home's decomposition, and any other where the home has none.
fn place_of_home<'a>(places: &'a PlaceList, home: &Home, other: &'a Place) -> &'a Place
    requires { IsHomeSplit (decomp_place places.now) (executor_of home.now) }
    ensures { IsHomePlace (decomp_place places.now) (executor_of home.now) (place_of result.now) }
{
    match home {
        Home::All => other,
        Home::Root => other,
        Home::At(decomp, _) => split_place(places, Placed::Decomp(*decomp)),
    }
}

/// The elements that a rank needs of an item: those that it reads by it and doesn't own, ascending, by the numbers of
/// these cells, whatever they are, and by these places. Iterations whose bounds, subscripts or home fault or leave the
/// bounds are skipped; only the first `limit` iterations of all loops together are visited.
pub fn needs<C: Cells>(
    alloc: Global,
    program: &Program,
    item: &Item,
    cells: &C,
    places: &PlaceList,
    rank: RankNo,
    limit: u64,
) -> Result<ElemList, Memory>
    requires program { IsMapped (program_of program.now) }
    requires item { IsSoundItem (C.names cells.now) (linear_item_of item.now) }
    requires array { item.now.array < length (program_of program.now).arrays }
    requires place { HasElements (array_place places.now item.now.array) (size_of (shape_of (program_of program.now) item.now.array)) }
    requires home { HasPositions (program_of program.now) (decomp_place places.now) (executor_of item.now.home) }
    ensures needs { IfOk result (λ es. es ≡ definition.needs (sight_by (program_of program.now) (C.readings cells.now) places.now) (linear_item_of item.now) rank.0 limit) }
    ensures elements { IfOk result (λ es. All (HasElement (array_place places.now item.now.array)) es) }
{
    let array_place = split_place(places, Placed::Array(item.array));
    let home_place = place_of_home(places, &item.home, array_place);
    let r = Reader {
        program,
        item,
        array_place,
        home_place,
        rank,
    };
    let elements = needs_by(alloc, &r, cells, limit)?;
    Ok(elements)
}
