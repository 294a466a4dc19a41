// Who executes a statement, and where a reference lies.
ghost use Rattle.std.specs.Prelude.{◌≡◌, ◌≤◌, ◌^◌, [], length, unsigned_abs, IfErr, IfOk, IsOk, Ok, Err, ◌≢◌};
ghost use Rattle.fd_prog.specs.Expressions.{expressions_of};
ghost use Rattle.fd_prog.specs.Statements.{statement_of, target_of};
ghost use Rattle.fd_prog.specs.Programs.{program_of};
ghost use Rattle.fd_prog.specs.Forms.{linear_form_of, linear_forms_of};
ghost use Rattle.fd_prog.specs.FormOf.{AllKeep, KeepsLimits};
ghost use Rattle.fd_prog.specs.Homes.{distribution_at as at, element_home, executor_of, form_at, home_of_statement, location_of, plus_number, target_home};
ghost use Rattle.fd_prog.specs.Mapped.{IsMapped};
ghost use Rattle.owner_part.specs.Distributions.{IsSmall, form_of_location, view_of};

use crate::distribution::{Distribution, distribution_at};
use fd_base::{Along, Memory};
use fd_prog::{
    ExprList, Form, FormList, FormRefusal, Home, Program, Ref2, Stmt, constant_form, forms_of,
};
use std::alloc::Global;

/// A form and a number more.
fn form_plus(form: Form, number: i64) -> Form
    requires form { KeepsLimits (linear_form_of form) }
    requires number { unsigned_abs number ≤ 2 ^ 34 }
    ensures { linear_form_of result ≡ plus_number (linear_form_of form) number }
{
    Form {
        terms: form.terms,
        constant: form.constant + number,
    }
}

/// The form of this number, from 0. One that is missing would be 0.
fn form_in(forms: FormList, dim: u8) -> Form
    requires { AllKeep (linear_forms_of forms) }
    ensures value { linear_form_of result ≡ form_at (linear_forms_of forms) dim }
    ensures keeps { KeepsLimits (linear_form_of result) }
{
    match forms {
        FormList::End => constant_form(0),
        FormList::More(first, rest) => {
            if dim == 0 {
                Box::into_inner(first)
            } else {
                form_in(Box::into_inner(rest), dim - 1)
            }
        }
    }
}

/// The decomposition's subscript along its distributed dimension, at the element with these subscripts.
fn form_along(distribution: Distribution, subs: FormList) -> Form
    requires small { IsSmall distribution }
    requires subs { AllKeep (linear_forms_of subs) }
    ensures { linear_form_of result ≡ (location_of (view_of distribution) (linear_forms_of subs)).form }
{
    match distribution.along {
        Along::Fixed(position) => constant_form(i64::from(position) + distribution.low),
        Along::Dim { dim, shift } => form_plus(form_in(subs, dim), shift + distribution.low),
    }
}

/// The form of the decomposition's subscript along its distributed dimension, at the element with these subscripts of an array
/// that is distributed so, or the limit that a subscript passes. The scalars of `bound` are widened variables.
pub fn location_form(
    alloc: Global,
    distribution: Distribution,
    subs: &ExprList,
    bound: &[u16],
) -> Result<Form, FormRefusal>
    requires small { IsSmall distribution }
    requires bound { length bound.now ≤ 32 }
    ensures found { IfOk result (λ f. form_of_location (view_of distribution) bound.now (expressions_of subs.now) ≡ Ok (linear_form_of f)) }
    ensures refused { IfErr result (λ why. why ≢ FormRefusal.Memory → form_of_location (view_of distribution) bound.now (expressions_of subs.now) ≡ Err why) }
{
    let subs = forms_of(alloc, subs, bound)?;
    Ok(form_along(distribution, subs))
}

/// Who sets an element of the array with this number.
fn home_of_element(
    alloc: Global,
    program: &Program,
    array: u16,
    subs: &ExprList,
    bound: &[u16],
) -> Result<Home, FormRefusal>
    requires program { IsMapped (program_of program.now) }
    requires bound { length bound.now ≤ 32 }
    ensures found { IfOk result (λ home. element_home (at (program_of program.now) array) bound.now (expressions_of subs.now) ≡ Ok (executor_of home)) }
    ensures refused { IfErr result (λ why. why ≢ FormRefusal.Memory → element_home (at (program_of program.now) array) bound.now (expressions_of subs.now) ≡ Err why) }
{
    match distribution_at(program, array) {
        None => Ok(Home::All),
        Some(distribution) => {
            let form = location_form(alloc, distribution, subs, bound)?;
            Ok(Home::At(distribution.decomp, form))
        }
    }
}

/// Who sets a target.
fn home_of_target(
    alloc: Global,
    program: &Program,
    target: &Ref2,
    bound: &[u16],
) -> Result<Home, FormRefusal>
    requires program { IsMapped (program_of program.now) }
    requires bound { length bound.now ≤ 32 }
    ensures found { IfOk result (λ home. target_home (program_of program.now) bound.now (target_of target.now) ≡ Ok (executor_of home)) }
    ensures refused { IfErr result (λ why. why ≢ FormRefusal.Memory → target_home (program_of program.now) bound.now (target_of target.now) ≡ Err why) }
{
    match target {
        Ref2::Scalar(_) => Ok(Home::All),
        Ref2::Elem(r) => home_of_element(alloc, program, r.array, &r.subs, bound),
    }
}

/// Who executes a statement where the scalars of `bound` are widened variables, or the limit that a subscript of its target passes.
pub fn home_within(
    alloc: Global,
    program: &Program,
    s: &Stmt,
    bound: &[u16],
) -> Result<Home, FormRefusal>
    requires program { IsMapped (program_of program.now) }
    requires bound { length bound.now ≤ 32 }
    ensures found { IfOk result (λ home. home_of_statement (program_of program.now) bound.now (statement_of s.now) ≡ Ok (executor_of home)) }
    ensures refused { IfErr result (λ why. why ≢ FormRefusal.Memory → home_of_statement (program_of program.now) bound.now (statement_of s.now) ≡ Err why) }
{
    match s {
        Stmt::Assign(_, target, _) => home_of_target(alloc, program, target, bound),
        Stmt::Read(_, target) => home_of_target(alloc, program, target, bound),
        Stmt::Print(_, _) => Ok(Home::Root),
        Stmt::If(_, _, _, _) => Ok(Home::All),
        Stmt::Do(_, _, _, _, _, _) => Ok(Home::All),
        Stmt::While(_, _, _) => Ok(Home::All),
        Stmt::Skip(_) => Ok(Home::All),
        Stmt::Remap(_, _, _) => Ok(Home::All),
    }
}

/// Who executes a statement no form of whose target passes a limit: all ranks; for a PRINT rank 0; for an assignment or a READ to
/// a distributed array the owner of the element.
pub fn home_of(alloc: Global, program: &Program, s: &Stmt) -> Result<Home, Memory>
    requires program { IsMapped (program_of program.now) }
    requires home { IsOk (home_of_statement (program_of program.now) [] (statement_of s.now)) }
    ensures { IfOk result (λ home. home_of_statement (program_of program.now) [] (statement_of s.now) ≡ Ok (executor_of home)) }
{
    match home_within(alloc, program, s, &[]) {
        Ok(home) => Ok(home),
        Err(FormRefusal::Memory) => Err(Memory),
        Err(FormRefusal::Terms) => unreachable!(),
        Err(FormRefusal::Coefficient) => unreachable!(),
    }
}
