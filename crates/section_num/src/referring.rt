// The item of a reference.
ghost use Rattle.std.specs.Prelude.{◌≡◌, ◌≢◌, ◌++◌, ◌≤◌, List, [], length, map, flat_map, option_map, IfErr, IfOk, IfSome, OnOk, Ok, Err};
ghost use Rattle.fd_prog.specs.Programs.{program_of};
ghost use Rattle.fd_prog.specs.Expressions.{expressions_of};
ghost use Rattle.fd_prog.specs.Forms.{LinearForms, linear_form_of};
ghost use Rattle.fd_prog.specs.Homes.{executor_of, location_of};
ghost use Rattle.fd_prog.specs.Items.{CountedLoop, all_loop_forms as the_loop_forms, executor_names, is_local as is_the_local, item_names as the_item_names, item_of_reference, item_by, item_over as the_item_over, linear_item_of, linear_loop_of, loop_forms as forms_of_loop, loop_names};
ghost use Rattle.fd_prog.specs.Mapped.{IsMapped};
ghost use Rattle.owner_part.specs.Distributions.{IsSmall, view_of};
ghost use Rattle.section_num.specs.Views.{AreFormsOver, IsReached, around_of, counted_of, forms_over, loops_of, names_of, program_in, setting_of, valuer_home};

use crate::around::{Loop, Stand, Valuer};
use crate::copies::copy_all;
use crate::names::{Name, Names, add_form, add_forms};
use crate::widening::{add_loop, widened_over};
use fd_base::{ListOf, Memory};
use fd_prog::{
    ExprList, Form, FormRefusal, Home, Item, Program, Widened, WidenedList, compare_forms, forms_of,
};
use owner_part::{Distribution, distribution_at, home_within, location_form};
use std::alloc::Global;

/// Who values a reference, where the scalars of `bound` are widened variables.
fn home_at(alloc: Global, stand: &Stand<'_>, bound: &[u16]) -> Result<Home, FormRefusal>
    requires program { IsMapped (program_in stand.now) }
    requires bound { length bound.now ≤ 32 }
    ensures found { IfOk result (λ home. valuer_home (program_in stand.now) stand.now.valuer bound.now ≡ Ok (executor_of home)) }
    ensures refused { IfErr result (λ why. why ≢ FormRefusal.Memory → valuer_home (program_in stand.now) stand.now.valuer bound.now ≡ Err why) }
{
    match stand.valuer {
        Valuer::AllRanks => Ok(Home::All),
        Valuer::HomeOf(s) => home_within(alloc, stand.program, s, bound),
    }
}

/// The variables of loops.
fn variables_of(alloc: Global, loops: &[Loop<'_>]) -> Result<Vec<u16>, Memory>
    ensures { IfOk result (λ vars. vars.items ≡ map (λ (l : CountedLoop). l.var) (loops_of loops.now)) }
{
    let mut variables = Vec::new(alloc);
    for one in loops {
        variables.push(one.var)?;
    }
    Ok(variables)
}

/// The forms of a loop's bounds, where the scalars of `bound` are widened variables, or the limit that one passes.
fn loop_forms(alloc: Global, l: &Loop<'_>, bound: &[u16]) -> Result<Widened, FormRefusal>
    requires { length bound.now ≤ 32 }
    ensures found { IfOk result (λ forms. forms_of_loop bound.now (counted_of l.now) ≡ Ok (linear_loop_of forms)) }
    ensures refused { IfErr result (λ why. why ≢ FormRefusal.Memory → forms_of_loop bound.now (counted_of l.now) ≡ Err why) }
{
    l.bounds.within(alloc, bound)
}

/// The forms of the bounds of loops, where the scalars of `bound` are widened variables.
fn all_loop_forms(
    alloc: Global,
    loops: &[Loop<'_>],
    bound: &[u16],
) -> Result<WidenedList, FormRefusal>
    requires { length bound.now ≤ 32 }
    ensures found { IfOk result (λ forms. the_loop_forms bound.now (loops_of loops.now) ≡ Ok (map linear_loop_of forms)) }
    ensures refused { IfErr result (λ why. why ≢ FormRefusal.Memory → the_loop_forms bound.now (loops_of loops.now) ≡ Err why) }
{
    let mut forms = WidenedList::new(alloc);
    for one in loops {
        let bounds = loop_forms(alloc, one, bound)?;
        forms.push(bounds)?;
    }
    Ok(forms)
}

/// The same where the variables of these loops are widened, if they have forms.
pub fn kept_over(alloc: Global, loops: &[Loop<'_>]) -> Result<Option<WidenedList>, Memory>
    requires { length loops.now ≤ 32 }
    ensures { IfOk result (λ kept. AreFormsOver kept (loops_of loops.now)) }
{
    let bound = variables_of(alloc, loops)?;
    match all_loop_forms(alloc, loops, &bound) {
        Ok(forms) => Ok(Some(forms)),
        Err(FormRefusal::Memory) => Err(Memory),
        Err(FormRefusal::Terms) => Ok(None),
        Err(FormRefusal::Coefficient) => Ok(None),
    }
}

/// The same from those that are kept, if they are.
fn forms_from(
    alloc: Global,
    loops: &[Loop<'_>],
    bound: &[u16],
    kept: Option<&WidenedList>,
) -> Result<WidenedList, FormRefusal>
    requires bound { length bound.now ≤ 32 }
    requires kept { IfSome kept (λ forms. the_loop_forms bound.now (loops_of loops.now) ≡ Ok (map linear_loop_of forms.now)) }
    ensures found { IfOk result (λ forms. the_loop_forms bound.now (loops_of loops.now) ≡ Ok (map linear_loop_of forms)) }
    ensures refused { IfErr result (λ why. why ≢ FormRefusal.Memory → the_loop_forms bound.now (loops_of loops.now) ≡ Err why) }
{
    match kept {
        Some(forms) => Ok(copy_all(alloc, forms.as_slice())?),
        None => all_loop_forms(alloc, loops, bound),
    }
}

/// The item of a reference to an array, widened over these loops, the forms of whose bounds may be kept, or the limit that a form passes.
fn item_over(
    alloc: Global,
    stand: &Stand<'_>,
    array: u16,
    subs: &ExprList,
    loops: &[Loop<'_>],
    kept: Option<&WidenedList>,
) -> Result<Item, FormRefusal>
    requires program { IsMapped (program_in stand.now) }
    requires loops { length loops.now ≤ 32 }
    requires kept { IfSome kept (λ forms. forms_over (loops_of loops.now) ≡ Ok (map linear_loop_of forms.now)) }
    ensures found { IfOk result (λ item. the_item_over (setting_of stand.now) array (expressions_of subs.now) (loops_of loops.now) ≡ Ok (linear_item_of item)) }
    ensures refused { IfErr result (λ why. why ≢ FormRefusal.Memory → the_item_over (setting_of stand.now) array (expressions_of subs.now) (loops_of loops.now) ≡ Err why) }
{
    let bound = variables_of(alloc, loops)?;
    let subs = forms_of(alloc, subs, &bound)?;
    let home = home_at(alloc, stand, &bound)?;
    let loops = forms_from(alloc, loops, &bound, kept)?;
    Ok(Item {
        array,
        subs,
        loops,
        home,
    })
}

/// A home is at the location of a reference.
fn is_local(distribution: &Distribution, location: &Form, home: &Home) -> bool
    ensures { (subs : LinearForms) → linear_form_of location.now ≡ (location_of (view_of distribution.now) subs).form
        → result ≡ is_the_local (view_of distribution.now) subs (executor_of home.now) }
{
    match home {
        Home::All => false,
        Home::Root => false,
        Home::At(decomp, form) => decomp
            .cmp(&distribution.decomp)
            .then(compare_forms(form, location))
            .is_eq(),
    }
}

/// Adds the names in the bounds of loops.
fn add_loops(names: &mut Names, loops: &[Widened]) -> Result<(), Memory>
    ensures { OnOk result (names_of names.new ≡ names_of names.old ++ flat_map loop_names (map linear_loop_of loops.now)) }
{
    for one in loops {
        add_loop(names, one)?;
    }
    Ok(())
}

/// Adds the names in a home.
fn add_home(names: &mut Names, home: &Home) -> Result<(), Memory>
    ensures { OnOk result (names_of names.new ≡ names_of names.old ++ executor_names (executor_of home.now)) }
{
    match home {
        Home::All => Ok(()),
        Home::Root => Ok(()),
        Home::At(decomp, form) => {
            names.push(Name::Decomp(*decomp))?;
            add_form(names, form)
        }
    }
}

/// The names of an item.
pub fn item_names(alloc: Global, program: &Program, item: &Item) -> Result<Names, Memory>
    requires { IsMapped (program_of program.now) }
    ensures { IfOk result (λ names. names_of names ≡ the_item_names (program_of program.now) (linear_item_of item.now)) }
{
    let mut names = Names::new(alloc);
    names.push(Name::Array(item.array))?;
    add_forms(&mut names, &item.subs)?;
    add_loops(&mut names, item.loops.as_slice())?;
    add_home(&mut names, &item.home)?;
    match distribution_at(program, item.array) {
        None => Ok(names),
        Some(distribution) => {
            names.push(Name::Decomp(distribution.decomp))?;
            Ok(names)
        }
    }
}

/// The item of a reference to an array that is distributed so, or None where it is local.
fn item_of_distributed(
    alloc: Global,
    stand: &Stand<'_>,
    distribution: &Distribution,
    array: u16,
    subs: &ExprList,
) -> Result<Option<Item>, FormRefusal>
    requires program { IsMapped (program_in stand.now) }
    requires around { length (around_of stand.now.around.now) ≤ 32 }
    requires reach { IsReached (program_in stand.now) stand.now.around.now }
    requires small { IsSmall distribution.now }
    ensures found { IfOk result (λ item. item_by (program_in stand.now) (setting_of stand.now) array (expressions_of subs.now) (Some (view_of distribution.now)) ≡ Ok (option_map linear_item_of item)) }
    ensures refused { IfErr result (λ why. why ≢ FormRefusal.Memory → item_by (program_in stand.now) (setting_of stand.now) array (expressions_of subs.now) (Some (view_of distribution.now)) ≡ Err why) }
{
    let plain = item_over(alloc, stand, array, subs, &[], None)?;
    let location = location_form(alloc, *distribution, subs, &[])?;
    if is_local(distribution, &location, &plain.home) {
        return Ok(None);
    }
    let names = item_names(alloc, stand.program, &plain)?;
    let loops = widened_over(alloc, stand.around, names, stand.around.reach())?;
    let kept = stand.around.forms_at(loops.len());
    match item_over(alloc, stand, array, subs, &loops, kept) {
        Ok(item) => Ok(Some(item)),
        Err(why) => Err(why),
    }
}

/// The item of a reference, or None where the array is replicated or the reference is local.
pub fn item_of(
    alloc: Global,
    stand: &Stand<'_>,
    array: u16,
    subs: &ExprList,
) -> Result<Option<Item>, FormRefusal>
    requires program { IsMapped (program_in stand.now) }
    requires around { length (around_of stand.now.around.now) ≤ 32 }
    requires reach { IsReached (program_in stand.now) stand.now.around.now }
    ensures found { IfOk result (λ item. item_of_reference (program_in stand.now) (setting_of stand.now) array (expressions_of subs.now) ≡ Ok (option_map linear_item_of item)) }
    ensures refused { IfErr result (λ why. why ≢ FormRefusal.Memory → item_of_reference (program_in stand.now) (setting_of stand.now) array (expressions_of subs.now) ≡ Err why) }
{
    match distribution_at(stand.program, array) {
        None => Ok(None),
        Some(distribution) => item_of_distributed(alloc, stand, &distribution, array, subs),
    }
}
