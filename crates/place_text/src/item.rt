// The texts of items.
ghost use Rattle.std.specs.Prelude.{◌≡◌, ◌++◌, flat_map, map, IfOk, OnOk};
ghost use Rattle.fd_prog.specs.Programs.{program_of};
ghost use Rattle.fd_prog.specs.Forms.{linear_form_of};
ghost use Rattle.fd_prog.specs.Homes.{executor_of, OwnerOf};
ghost use Rattle.fd_prog.specs.Items.{linear_item_of, linear_loop_of};
ghost use Rattle.place_text.specs.ItemTexts as texts;

use crate::form::{append_arguments, append_form};
use crate::names::{array_name, decomp_name};
use fd_base::{Bytes, Memory};
use fd_prog::{Form, Home, Item, Program, Widened};
use std::alloc::Global;

/// Appends the text of an item.
pub fn append_item(
    alloc: Global,
    program: &Program,
    item: &Item,
    out: &mut Bytes,
) -> Result<(), Memory>
    ensures { OnOk result (out.new ≡ out.old ++ texts.item_text (program_of program.now) (linear_item_of item.now)) }
{
    out.append(array_name(program, item.array))?;
    append_arguments(alloc, program, &item.subs, out)?;
    append_loops(alloc, program, item.loops.as_slice(), out)?;
    out.append(b" at ")?;
    append_home(alloc, program, &item.home, out)
}

fn append_loops(
    alloc: Global,
    program: &Program,
    loops: &[Widened],
    out: &mut Bytes,
) -> Result<(), Memory>
    ensures { OnOk result (out.new ≡ out.old ++ flat_map (texts.loop_text (program_of program.now)) (map linear_loop_of loops.now)) }
{
    for widened in loops {
        append_loop(alloc, program, widened, out)?;
    }
    Ok(())
}

fn append_loop(
    alloc: Global,
    program: &Program,
    widened: &Widened,
    out: &mut Bytes,
) -> Result<(), Memory>
    ensures { OnOk result (out.new ≡ out.old ++ texts.loop_text (program_of program.now) (linear_loop_of widened.now)) }
{
    out.append(b" do ")?;
    append_form(alloc, program, &widened.first, out)?;
    out.append(b",")?;
    append_form(alloc, program, &widened.last, out)?;
    out.append(b",")?;
    append_form(alloc, program, &widened.step, out)
}

fn append_home(alloc: Global, program: &Program, home: &Home, out: &mut Bytes) -> Result<(), Memory>
    ensures { OnOk result (out.new ≡ out.old ++ texts.home_text (program_of program.now) (executor_of home.now)) }
{
    match home {
        Home::All => out.append(b"all"),
        Home::Root => out.append(b"root"),
        Home::At(decomp, form) => append_owner(alloc, program, *decomp, form, out),
    }
}

/// Appends the text of a decomposition and the form of its subscript along the distributed dimension.
fn append_owner(
    alloc: Global,
    program: &Program,
    decomp: u16,
    form: &Form,
    out: &mut Bytes,
) -> Result<(), Memory>
    ensures { OnOk result (out.new ≡ out.old ++ texts.home_text (program_of program.now) (OwnerOf (record { decomp = decomp; form = linear_form_of form.now }))) }
{
    out.append(decomp_name(program, decomp))?;
    out.append(b"(")?;
    append_form(alloc, program, form, out)?;
    out.append(b")")
}

/// The text of an item: its array with its subscripts, its loops with the outermost first, and its home.
pub fn item_text(alloc: Global, program: &Program, item: &Item) -> Result<Bytes, Memory>
    ensures { IfOk result (λ text. text ≡ texts.item_text (program_of program.now) (linear_item_of item.now)) }
{
    let mut text = Bytes::new(alloc);
    append_item(alloc, program, item, &mut text)?;
    Ok(text)
}
