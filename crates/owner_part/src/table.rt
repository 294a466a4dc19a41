// The owner table of a program, as a text.
ghost use Rattle.std.specs.Prelude.{◌≡◌, ◌<◌, ◌≤◌, ◌++◌, flat_map, length, IfOk, OnOk};
ghost use Rattle.std.specs.List.{range_with_len};
ghost use Rattle.fd_base.specs.Shapes.{IsShape, size_of};
ghost use Rattle.fd_prog.specs.Mapped.{IsBounded, IsMapped, IsMappedArray};
ghost use Rattle.fd_prog.specs.Placing.{place_of_array};
ghost use Rattle.fd_prog.specs.Programs.{program_of};
ghost use Rattle.owner_part.specs.OwnerTable.{array_lines, element_line, element_text, irregular_line, owner_table, subscripts_text};

use crate::distribution::distribution_of;
use crate::positions::{first_subscript, second_subscript};
use decomp_map::Map;
use fd_base::{Bytes, Dist, Memory, Shape};
use fd_prog::{Array, Program};
use std::alloc::Global;

/// Appends the subscripts of an element.
fn append_subscripts(shape: &Shape, element: u32, out: &mut Bytes) -> Result<(), Memory>
    requires first { IsBounded shape.now 0 }
    requires second { IsBounded shape.now 1 }
    ensures { OnOk result (out.new ≡ out.old ++ subscripts_text shape.now element) }
{
    out.append_signed(first_subscript(shape, element))?;
    if shape.dims == 1 {
        return Ok(());
    }
    out.append(b",")?;
    out.append_signed(second_subscript(shape, element))
}

/// Appends an element by its array's name and its subscripts.
fn append_element(array: &Array, element: u32, out: &mut Bytes) -> Result<(), Memory>
    requires first { IsBounded array.now.shape 0 }
    requires second { IsBounded array.now.shape 1 }
    ensures { OnOk result (out.new ≡ out.old ++ element_text array.now element) }
{
    out.append(array.name.as_slice())?;
    out.append(b"(")?;
    append_subscripts(&array.shape, element, out)?;
    out.append(b")")
}

/// Appends the line of an element.
fn append_line(array: &Array, map: &Map, element: u32, out: &mut Bytes) -> Result<(), Memory>
    requires first { IsBounded array.now.shape 0 }
    requires second { IsBounded array.now.shape 1 }
    requires element { element < length map.now }
    ensures { OnOk result (out.new ≡ out.old ++ element_line array.now map.now element) }
{
    let (owner, local) = (map.owner_of(element), map.local_of(element));
    append_element(array, element, out)?;
    out.append(b" ")?;
    out.append_number(u64::from(owner.0))?;
    out.append(b" ")?;
    out.append_number(u64::from(local))?;
    out.append(b"\n")
}

/// Appends a line for each element of a regularly distributed array.
fn append_lines(array: &Array, map: &Map, out: &mut Bytes) -> Result<(), Memory>
    requires shape { IsShape array.now.shape }
    requires first { IsBounded array.now.shape 0 }
    requires second { IsBounded array.now.shape 1 }
    requires size { length map.now ≡ size_of array.now.shape }
    ensures { OnOk result (out.new ≡ out.old ++ flat_map (element_line array.now map.now) (range_with_len 0 (size_of array.now.shape))) }
{
    for element in 0..array.shape.extent[0] * array.shape.extent[1] {
        append_line(array, map, element, out)?;
    }
    Ok(())
}

/// Appends the line of an array that a statement of the run places.
fn append_irregular(array: &Array, out: &mut Bytes) -> Result<(), Memory>
    ensures { OnOk result (out.new ≡ out.old ++ irregular_line array.now) }
{
    out.append(array.name.as_slice())?;
    out.append(b" irregular\n")
}

/// Appends the lines of an array; one that is replicated has none.
fn append_array(program: &Program, array: &Array, ranks: u8, out: &mut Bytes) -> Result<(), Memory>
    requires program { IsMapped (program_of program.now) }
    requires array { IsMappedArray (program_of program.now) array.now }
    requires ranks { (1 ≤ ranks) × (ranks ≤ 16) }
    ensures { OnOk result (out.new ≡ out.old ++ array_lines array.now (place_of_array (program_of program.now) ranks array.now)) }
{
    let Some(found) = distribution_of(program, array) else {
        return Ok(());
    };
    match found.dist {
        Dist::Irregular | Dist::Later => append_irregular(array, out),
        Dist::Block | Dist::Cyclic | Dist::BlockCyclic(_) => {
            let map = Map::regular(array.shape, found.along, found.extent, found.dist, ranks);
            append_lines(array, &map, out)
        }
    }
}

/// The owner table of a program on so many ranks: for each distributed array in order of declaration a line for each element in
/// column-major order, with its owner and its local number; one line where a statement of the run places the array.
pub fn write_owner_table(alloc: Global, program: &Program, ranks: u8) -> Result<Bytes, Memory>
    requires program { IsMapped (program_of program.now) }
    requires ranks { (1 ≤ ranks) × (ranks ≤ 16) }
    ensures { IfOk result (λ text. text ≡ owner_table (program_of program.now) ranks) }
{
    let mut text = Bytes::new(alloc);
    for array in program.arrays.as_slice() {
        append_array(program, array, ranks, &mut text)?;
    }
    Ok(text)
}
