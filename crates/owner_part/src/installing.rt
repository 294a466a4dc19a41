// The places that a DISTRIBUTE by a map array gives.
ghost use Rattle.std.specs.Prelude.{◌≡◌, ◌^◌, ◌<◌, ◌≤◌, ◌++◌, pos, All, IfOk, IfSome, OnOk, length, map, option_map, option_to_list, slice_index_or};
ghost use Rattle.std.specs.List.{range_with_len};
ghost use Rattle.fd_base.specs.declared.shapes.Along.TheVariants.{Dim};
ghost use Rattle.fd_base.specs.Places.{IsAligned, position_of};
ghost use Rattle.fd_base.specs.Shapes.{IsShape, size_of};
ghost use Rattle.fd_prog.specs.Mapped.{IsBounded, IsMapped, IsMappedArray};
ghost use Rattle.fd_prog.specs.Mappings.{extent_along};
ghost use Rattle.fd_prog.specs.Placing.{line_of_positions};
ghost use Rattle.fd_prog.specs.Programs.{program_of};
ghost use Rattle.owner_part.specs.Installed.{IsInstalled, TellsNewPlaces, new_place, place_by_map};
ghost use Rattle.owner_part.specs.Placed.{IsSplitBelow, place_of};

use crate::place::{Place, PlaceList, Placed};
use crate::positions::position;
use fd_base::{Along, Memory, Shape};
use fd_prog::{Array, Program};
use std::alloc::Global;
use trans_table::Table;

/// The map's value for an element of a shape, which lies so along the positions.
fn value_of_element(shape: &Shape, along: Along, values: &[i64], element: u32) -> i64
    requires shape { IsShape shape.now }
    requires first { IsBounded shape.now 0 }
    requires second { IsBounded shape.now 1 }
    requires aligned { IsAligned shape.now along (length values.now) }
    requires few { length values.now ≤ 262144 }
    requires element { element < size_of shape.now }
    ensures { result ≡ slice_index_or values.now (position_of shape.now along element) (pos 0) }
{
    values[position(shape, along, values.len() as u32, element) as usize]
}

/// The map's value for each element of a shape, which lies so along the positions.
fn values_of_elements(
    alloc: Global,
    shape: &Shape,
    along: Along,
    values: &[i64],
) -> Result<Vec<i64>, Memory>
    requires shape { IsShape shape.now }
    requires first { IsBounded shape.now 0 }
    requires second { IsBounded shape.now 1 }
    requires aligned { IsAligned shape.now along (length values.now) }
    requires few { length values.now ≤ 262144 }
    ensures { IfOk result (λ found. found.items ≡ map (λ element. slice_index_or values.now (position_of shape.now along element) (pos 0)) (range_with_len 0 (size_of shape.now))) }
{
    let size = shape.extent[0] * shape.extent[1];
    let mut found = Vec::with_capacity(alloc, size as usize)?;
    for element in 0..size {
        found.push(value_of_element(shape, along, values, element))?;
    }
    Ok(found)
}

/// The place of the elements of an array by a map.
fn place_of_elements(
    alloc: Global,
    shape: &Shape,
    along: Along,
    values: &[i64],
    ranks: u8,
) -> Result<Place, Memory>
    requires shape { IsShape shape.now }
    requires first { IsBounded shape.now 0 }
    requires second { IsBounded shape.now 1 }
    requires aligned { IsAligned shape.now along (length values.now) }
    requires few { length values.now ≤ 262144 }
    requires ranks { (1 ≤ ranks) × (ranks ≤ 16) }
    ensures place { IfOk result (λ place. place_of place ≡ place_by_map values.now ranks shape.now along) }
    ensures ranks { IfOk result (λ place. IsSplitBelow ranks (place_of place)) }
{
    let values = values_of_elements(alloc, shape, along, values)?;
    let table = Table::build(alloc, &values, ranks)?;
    Ok(Place::Irregular(table))
}

/// The place of the positions themselves by a map.
fn place_of_positions(alloc: Global, values: &[i64], ranks: u8) -> Result<Place, Memory>
    requires few { length values.now ≤ 262144 }
    requires ranks { (1 ≤ ranks) × (ranks ≤ 16) }
    ensures place { IfOk result (λ place. place_of place ≡ place_by_map values.now ranks (line_of_positions (length values.now)) (Dim 0 (pos 0))) }
    ensures ranks { IfOk result (λ place. IsSplitBelow ranks (place_of place)) }
{
    let table = Table::build(alloc, values, ranks)?;
    Ok(Place::Irregular(table))
}

/// The place that an array gets, where it is aligned with the decomposition.
fn place_of_array(
    alloc: Global,
    program: &Program,
    array: &Array,
    decomp: u16,
    values: &[i64],
    ranks: u8,
) -> Result<Option<Place>, Memory>
    requires program { IsMapped (program_of program.now) }
    requires array { IsMappedArray (program_of program.now) array.now }
    requires values { length values.now ≡ extent_along (program_of program.now) decomp }
    requires ranks { (1 ≤ ranks) × (ranks ≤ 16) }
    ensures place { IfOk result (λ found. option_map place_of found ≡ new_place decomp values.now ranks array.now) }
    ensures ranks { IfOk result (λ found. IfSome found (λ place. IsSplitBelow ranks (place_of place))) }
{
    if array.decomp != Some(decomp) {
        return Ok(None);
    }
    let place = place_of_elements(alloc, &array.shape, array.along, values, ranks)?;
    Ok(Some(place))
}

/// Puts a place behind the others, where there is one.
fn add_place(places: &mut PlaceList, name: Placed, found: Option<Place>) -> Result<(), Memory>
    ensures { OnOk result (places.new ≡ places.old ++ option_to_list (option_map (λ place. (name, place)) found)) }
{
    match found {
        None => Ok(()),
        Some(place) => places.push((name, place)),
    }
}

/// The new places behind a DISTRIBUTE of the decomposition by a map array with these values, one for each position
/// along its distributed dimension: those of all arrays that are aligned with it and of the dimension itself, and no
/// others. An owner is the non-negative remainder of the position's value by the number of ranks.
pub fn install(
    alloc: Global,
    program: &Program,
    decomp: u16,
    values: &[i64],
    ranks: u8,
) -> Result<PlaceList, Memory>
    requires program { IsMapped (program_of program.now) }
    requires arrays { length (program_of program.now).arrays ≤ 2 ^ 16 }
    requires values { length values.now ≡ extent_along (program_of program.now) decomp }
    requires ranks { (1 ≤ ranks) × (ranks ≤ 16) }
    ensures places { IfOk result (λ places. TellsNewPlaces (program_of program.now) decomp values.now ranks places) }
    ensures installed { IfOk result (λ places. IsInstalled (program_of program.now) decomp values.now ranks places) }
    ensures ranks { IfOk result (λ places. All (λ pair. IsSplitBelow ranks (place_of pair.1)) places) }
{
    let mut places = PlaceList::new(alloc);
    let positions = place_of_positions(alloc, values, ranks)?;
    places.push((Placed::Decomp(decomp), positions))?;
    for (number, array) in program.arrays.as_slice().iter().enumerate() {
        let found = place_of_array(alloc, program, array, decomp, values, ranks)?;
        add_place(&mut places, Placed::Array(number as u16), found)?;
    }
    Ok(places)
}
