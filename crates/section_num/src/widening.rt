// The loops over which an item is widened.
ghost use Rattle.std.specs.Prelude.{◌≡◌, ◌++◌, ◌∷◌, ◌≤◌, ◌+◌, List, [], length, filter, not, IfOk, OnOk, Ok};
ghost use Rattle.std.specs.List.{list_any};
ghost use Rattle.fd_prog.specs.Programs.{CheckedProgram, program_of};
ghost use Rattle.fd_prog.specs.Items.{Counted, Name as TheName, ScalarName, is_same_name, is_distributed as is_the_distributed, linear_loop_of, loop_names, may_widen as may_be_widened, widened_over as the_widened_over, widened_past as the_widened_past};
ghost use Rattle.fd_prog.specs.Mapped.{IsMapped};
ghost use Rattle.section_num.specs.Views.{IsReached, around_of, counted_of, loops_of, loops_past, name_of, names_of};

use crate::around::{Around, Loop};
use crate::names::{Name, Names, add_form};
use crate::setting::SetNames;
use fd_base::Memory;
use fd_prog::{Program, Widened};
use owner_part::distribution_at;
use std::alloc::Global;

/// The name is that of a distributed array.
fn is_distributed(program: &Program, name: Name) -> bool
    requires { IsMapped (program_of program.now) }
    ensures { result ≡ is_the_distributed (program_of program.now) (name_of name) }
{
    match name {
        Name::Scalar(_) => false,
        Name::Array(array) => distribution_at(program, array).is_some(),
        Name::Decomp(_) => false,
    }
}

/// Some name is that of a distributed array.
fn has_distributed(program: &Program, names: &[Name]) -> bool
    requires { IsMapped (program_of program.now) }
    ensures { result ≡ list_any (λ n. is_the_distributed (program_of program.now) (name_of n)) names.now }
{
    names.iter().any(|name| is_distributed(program, *name))
}

/// A name is among others.
pub fn has_name(names: &[Name], name: Name) -> bool
    ensures { result ≡ list_any (λ n. is_same_name (name_of name) (name_of n)) names.now }
{
    names.iter().any(|other| name.is(*other))
}

/// Some name is among those that are set.
fn is_set(sets: &SetNames, names: &[Name]) -> bool
    ensures { result ≡ list_any (λ n. list_any (λ s. is_same_name (name_of n) (name_of s)) sets.now) names.now }
{
    names.iter().any(|name| sets.has(*name))
}

/// Some name that is set is among others.
fn has_any(names: &[Name], sets: &SetNames) -> bool
    ensures { result ≡ list_any (λ s. list_any (λ n. is_same_name (name_of s) (name_of n)) names.now) sets.now }
{
    is_set(sets, names)
}

/// An item without names may be widened over a loop with these names in its bounds: the bounds use replicated names alone and don't name
/// the loop's own variable, and the body sets none of them.
fn may_widen(program: &Program, l: &Loop<'_>, bounds: &[Name]) -> bool
    requires { IsMapped (program_of program.now) }
    ensures { result ≡ may_be_widened (program_of program.now) [] (counted_of l.now) (names_of bounds.now) }
{
    !has_distributed(program, bounds)
        && (!has_name(bounds, Name::Scalar(l.var)) && !has_any(bounds, l.sets))
}

/// The names but for a variable.
fn without(alloc: Global, var: u16, names: &[Name]) -> Result<Names, Memory>
    ensures { IfOk result (λ others. others ≡ filter (λ n. not (is_same_name (name_of n) (ScalarName var))) names.now) }
{
    let others: Vec<Name> = names
        .iter()
        .copied()
        .filter(|name| !name.is(Name::Scalar(var)))
        .collect(alloc)?;
    Ok(Names::from_vec(others))
}

/// Adds the names in a loop's bounds.
pub fn add_loop(names: &mut Names, forms: &Widened) -> Result<(), Memory>
    ensures { OnOk result (names_of names.new ≡ names_of names.old ++ loop_names (linear_loop_of forms.now)) }
{
    add_form(names, &forms.first)?;
    add_form(names, &forms.last)?;
    add_form(names, &forms.step)
}

/// Of what stands around a reference, the loops over which an item with these names is widened, the outermost first: of the so many loops
/// over which one is widened that has none of these names, those up to the first that sets one of them.
#[cycle(widened)]
pub fn widened_over<'a>(
    alloc: Global,
    around: &Around<'a>,
    names: Names,
    room: usize,
) -> Result<Vec<Loop<'a>>, Memory>
    ensures loops { IfOk result (λ loops. (p : CheckedProgram) (others : List TheName) → room ≡ length (the_widened_over p (around_of around.now) others)
        → loops_of loops.items ≡ the_widened_over p (around_of around.now) (names_of names ++ others)) }
    ensures count { IfOk result (λ loops. length loops.items ≤ length (around_of around.now)) }
{
    match around {
        Around::Nothing => Ok(Vec::new(alloc)),
        Around::Side(_) => Ok(Vec::new(alloc)),
        Around::Repeated(_) => Ok(Vec::new(alloc)),
        Around::Counted(l, outer) => widened_past(alloc, l, outer, names, room),
    }
}

/// The same of a loop and what stands around it.
#[cycle(widened)]
fn widened_past<'a>(
    alloc: Global,
    l: &Loop<'a>,
    outer: &Around<'a>,
    names: Names,
    room: usize,
) -> Result<Vec<Loop<'a>>, Memory>
    ensures loops { IfOk result (λ loops. (p : CheckedProgram) (others : List TheName) → room ≡ length (loops_past p others (counted_of l.now) (the_widened_over p (around_of outer.now)))
        → loops_of loops.items ≡ loops_past p (names_of names ++ others) (counted_of l.now) (the_widened_over p (around_of outer.now))) }
    ensures count { IfOk result (λ loops. length loops.items ≤ length (around_of outer.now) + 1) }
{
    if room == 0 {
        return Ok(Vec::new(alloc));
    }
    if has_any(names.as_slice(), l.sets) {
        return Ok(Vec::new(alloc));
    }
    let further = without(alloc, l.var, names.as_slice())?;
    let mut loops = widened_over(alloc, outer, further, room - 1)?;
    loops.push(*l)?;
    Ok(loops)
}

/// The loops over which an item that has no names is widened in the body of a loop whose bounds have these forms.
fn reached_past<'a>(
    alloc: Global,
    program: &Program,
    l: &Loop<'a>,
    forms: &Widened,
    outer: &Around<'a>,
) -> Result<Vec<Loop<'a>>, Memory>
    requires program { IsMapped (program_of program.now) }
    requires reach { IsReached (program_of program.now) outer.now }
    ensures loops { IfOk result (λ loops. loops_of loops.items ≡ the_widened_past (program_of program.now) [] (counted_of l.now) (Ok (linear_loop_of forms.now)) (the_widened_over (program_of program.now) (around_of outer.now))) }
    ensures count { IfOk result (λ loops. length loops.items ≤ length (around_of outer.now) + 1) }
{
    let mut bounds = Names::new(alloc);
    add_loop(&mut bounds, forms)?;
    if !may_widen(program, l, bounds.as_slice()) {
        return Ok(Vec::new(alloc));
    }
    let others = without(alloc, l.var, bounds.as_slice())?;
    let mut loops = widened_over(alloc, outer, others, outer.reach())?;
    loops.push(*l)?;
    Ok(loops)
}

/// The loops over which an item that has no names is widened in the body of a loop.
pub fn reached_in<'a>(
    alloc: Global,
    program: &Program,
    l: &Loop<'a>,
    outer: &Around<'a>,
) -> Result<Vec<Loop<'a>>, Memory>
    requires program { IsMapped (program_of program.now) }
    requires reach { IsReached (program_of program.now) outer.now }
    ensures loops { IfOk result (λ loops. loops_of loops.items ≡ the_widened_over (program_of program.now) (Counted (counted_of l.now) ∷ around_of outer.now) []) }
    ensures count { IfOk result (λ loops. length loops.items ≤ length (around_of outer.now) + 1) }
{
    match l.bounds.plain() {
        Some(forms) => reached_past(alloc, program, l, forms, outer),
        None => Ok(Vec::new(alloc)),
    }
}
