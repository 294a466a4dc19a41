// The linear form of an expression.
ghost use Rattle.std.specs.Prelude.{◌≡◌, ◌≢◌, ◌≤◌, ◌+ℤ◌, ◌*ℤ◌, ℕ, ℤ, List, length, map, ◌==◌, IfOk, IfErr, Ok, Err};
ghost use Rattle.std.specs.Cmp.{IsTotalOrder};
ghost use Rattle.std.specs.List.{position};
ghost use Rattle.std.specs.declared.cmp.Ordering.TheVariants.{Equal};
ghost use Rattle.fd_prog.specs.declared.form.FormRefusal.TheVariants as refusals;
ghost use Rattle.fd_prog.specs.Expressions.{Expression, Expressions, expression_of, expressions_of};
ghost use Rattle.fd_prog.specs.Values.{Readings, value_of, values_of};
ghost use Rattle.fd_prog.specs.Forms.{LinearAtom, LinearForm, LinearForms, LinearTerms, atom_order, linear_atom_of, linear_form_of, linear_forms_of};
ghost use Rattle.fd_prog.specs.FormOf.{AllKeep, KeepsLimits, constant, form_of_expression, forms_of_expressions, joined_form, known_or, product, constant_in, scalar_atom, scaled_terms, single, sum_of_terms};
ghost use Rattle.fd_prog.specs.FormSums.{AreOrdered, IsOrdered, coefficient};
ghost use Rattle.fd_prog.specs.FormValues.{IsOneNumber, AreWords, form_value, part_values};

use crate::constants::{call_of, constant_of, quotient_of};
use crate::expression::{Expr, ExprList, Op2};
use crate::form::{Atom, Form, FormList, FormRefusal, Term, TermList};
use crate::limits::limit;
use crate::sums::{add_forms, scale_form};
use fd_base::{FaultKind, Memory};
use std::alloc::{AllocFailed, Global};

/// A form has the value of its expression wherever that has one, where each widened variable has the number of its scalar; so have the forms of
/// subscripts, each of which is then inside 64 bits.
pub fn form_keeps_value()
    ensures value { (r : Readings) (bound : List ℕ) (e : Expression) (f : LinearForm) (x : ℤ) → AreWords r → IsOneNumber r → form_of_expression bound e ≡ Ok f → value_of r e ≡ Ok x → form_value r (map r.scalar bound) f ≡ Ok x }
    ensures values { (r : Readings) (bound : List ℕ) (es : Expressions) (fs : LinearForms) (xs : List ℤ) → AreWords r → IsOneNumber r → forms_of_expressions bound es ≡ Ok fs → values_of r es ≡ Ok xs → part_values r (map r.scalar bound) fs ≡ Ok xs }
{}

/// Of two different atoms one comes before the other.
pub fn atoms_are_ordered()
    ensures order { IsTotalOrder atom_order }
    ensures equal { (a b : LinearAtom) → atom_order a b ≡ Equal → a ≡ b }
{}

/// The terms of every form are in that order, and terms in order that have each atom equally often are equal: so equal sums are equal forms.
pub fn equal_sums_are_equal()
    ensures ordered { (bound : List ℕ) (e : Expression) (f : LinearForm) → form_of_expression bound e ≡ Ok f → IsOrdered f }
    ensures sums { (a : LinearAtom) (ts us : LinearTerms) → coefficient a (sum_of_terms ts us) ≡ coefficient a ts +ℤ coefficient a us }
    ensures multiples { (a : LinearAtom) (k : ℤ) (ts : LinearTerms) → coefficient a (scaled_terms k ts) ≡ k *ℤ coefficient a ts }
    ensures equal { (ts us : LinearTerms) → AreOrdered ts → AreOrdered us → ((a : LinearAtom) → coefficient a ts ≡ coefficient a us) → ts ≡ us }
{}

impl From<Memory> for FormRefusal {
    ghost from_gives = { λ _ e. e ≡ refusals.Memory };

    fn from(_e: Memory) -> FormRefusal {
        FormRefusal::Memory
    }
}

impl<T: Drop> From<AllocFailed<T>> for FormRefusal {
    ghost from_gives = { λ _ e. e ≡ refusals.Memory };

    fn from(_e: AllocFailed<T>) -> FormRefusal {
        FormRefusal::Memory
    }
}

/// A form without terms.
pub fn constant_form(number: i64) -> Form
    ensures { linear_form_of result ≡ constant number }
{
    Form {
        terms: TermList::End,
        constant: number,
    }
}

/// One time an atom.
fn single_form(alloc: Global, atom: Atom) -> Result<Form, Memory>
    ensures { IfOk result (λ f. linear_form_of f ≡ single (linear_atom_of atom)) }
{
    let term = Box::new(alloc, Term { coef: 1, atom })?;
    let rest = Box::new(alloc, TermList::End)?;
    Ok(Form {
        terms: TermList::More(term, rest),
        constant: 0,
    })
}

/// The constant that is known, or else one time an atom.
fn known_form(
    alloc: Global,
    atom: Atom,
    known: Option<Result<i64, FaultKind>>,
) -> Result<Form, Memory>
    ensures { IfOk result (λ f. linear_form_of f ≡ known_or known (linear_atom_of atom)) }
{
    match known {
        None => single_form(alloc, atom),
        Some(value) => match value {
            Ok(number) => Ok(constant_form(number)),
            Err(_) => single_form(alloc, atom),
        },
    }
}

/// The first place at which a scalar is widened.
fn place_in(bound: &[u16], s: u16) -> Option<usize>
    ensures { result ≡ position (λ b. b == s) bound.now }
{
    bound.iter().position(|b| *b == s)
}

/// A scalar, or the widened variable that it is.
fn variable_or_scalar(s: u16, bound: &[u16]) -> Atom
    requires { length bound.now ≤ 32 }
    ensures { linear_atom_of result ≡ scalar_atom (position (λ b. b == s) bound.now) s }
{
    match place_in(bound, s) {
        Some(place) => Atom::Bound(place as u8),
        None => Atom::Scalar(s),
    }
}

fn multiply_forms(alloc: Global, f: Form, g: Form) -> Result<Form, Memory>
    requires left { KeepsLimits (linear_form_of f) }
    requires right { KeepsLimits (linear_form_of g) }
    ensures { IfOk result (λ made. linear_form_of made ≡ product (constant_in (linear_form_of f)) (constant_in (linear_form_of g)) (linear_form_of f) (linear_form_of g)) }
{
    match constant_of(&f) {
        Some(x) => scale_form(alloc, g, x),
        None => match constant_of(&g) {
            Some(y) => scale_form(alloc, f, y),
            None => {
                let f = Box::new(alloc, f)?;
                let g = Box::new(alloc, g)?;
                single_form(alloc, Atom::Mul(f, g))
            }
        },
    }
}

/// The form of two joined by an operator, without limits.
fn join_forms(alloc: Global, op: Op2, f: Form, g: Form) -> Result<Form, Memory>
    requires left { KeepsLimits (linear_form_of f) }
    requires right { KeepsLimits (linear_form_of g) }
    ensures { IfOk result (λ made. linear_form_of made ≡ joined_form op (linear_form_of f) (linear_form_of g)) }
{
    match op {
        Op2::Add => add_forms(alloc, f, g),
        Op2::Sub => {
            let negative = scale_form(alloc, g, -1)?;
            add_forms(alloc, f, negative)
        }
        Op2::Mul => multiply_forms(alloc, f, g),
        Op2::Div => {
            let known = quotient_of(&f, &g);
            let f = Box::new(alloc, f)?;
            let g = Box::new(alloc, g)?;
            known_form(alloc, Atom::Div(f, g), known)
        }
    }
}

/// The linear form of an expression, or the limit that decides, or want of memory.
#[cycle(limited_form)]
fn limited_form(alloc: Global, e: &Expr, bound: &[u16]) -> Result<Form, FormRefusal>
    requires { length bound.now ≤ 32 }
    ensures found { IfOk result (λ f. form_of_expression bound.now (expression_of e.now) ≡ Ok (linear_form_of f)) }
    ensures keeps { IfOk result (λ f. KeepsLimits (linear_form_of f)) }
    ensures refused { IfErr result (λ why. why ≢ FormRefusal.Memory → form_of_expression bound.now (expression_of e.now) ≡ Err why) }
{
    match e {
        Expr::Num(number) => limit(constant_form(*number)),
        Expr::Scalar(scalar) => Ok(single_form(alloc, variable_or_scalar(*scalar, bound))?),
        Expr::Elem(r) => {
            let subs = forms_of(alloc, &r.subs, bound)?;
            Ok(single_form(alloc, Atom::Elem(r.array, subs))?)
        }
        Expr::Neg(inner) => {
            let inner = limited_form(alloc, inner, bound)?;
            limit(scale_form(alloc, inner, -1)?)
        }
        Expr::Bin(op, left, right) => {
            let left = limited_form(alloc, left, bound)?;
            let right = limited_form(alloc, right, bound)?;
            limit(join_forms(alloc, *op, left, right)?)
        }
        Expr::Call(f, args) => {
            let args = forms_of(alloc, args, bound)?;
            let known = call_of(*f, &args);
            limit(known_form(alloc, Atom::Call(*f, args), known)?)
        }
    }
}

/// The linear forms of expressions from left to right, each as `form_of` gives it, or the limit that the first form on the way passes.
#[cycle(limited_form)]
pub fn forms_of(alloc: Global, list: &ExprList, bound: &[u16]) -> Result<FormList, FormRefusal>
    requires { length bound.now ≤ 32 }
    ensures found { IfOk result (λ fs. forms_of_expressions bound.now (expressions_of list.now) ≡ Ok (linear_forms_of fs)) }
    ensures refused { IfErr result (λ why. why ≢ FormRefusal.Memory → forms_of_expressions bound.now (expressions_of list.now) ≡ Err why) }
    ensures keep { IfOk result (λ fs. AllKeep (linear_forms_of fs)) }
{
    match list {
        ExprList::End => Ok(FormList::End),
        ExprList::More(first, rest) => {
            let first = limited_form(alloc, first, bound)?;
            let rest = forms_of(alloc, rest, bound)?;
            let first = Box::new(alloc, first)?;
            let rest = Box::new(alloc, rest)?;
            Ok(FormList::More(first, rest))
        }
    }
}

/// The linear form of an expression with the scalars of `bound` as widened variables: Terms where the first form on the way that passes a limit has more than 16 terms, Coefficient where it is another.
pub fn form_of(alloc: Global, e: &Expr, bound: &[u16]) -> Result<Form, FormRefusal>
    requires { length bound.now ≤ 32 }
    ensures found { IfOk result (λ f. form_of_expression bound.now (expression_of e.now) ≡ Ok (linear_form_of f)) }
    ensures refused { IfErr result (λ why. why ≢ FormRefusal.Memory → form_of_expression bound.now (expression_of e.now) ≡ Err why) }
    ensures keeps { IfOk result (λ f. KeepsLimits (linear_form_of f)) }
    // Equal sums give equal forms.
    ensures ordered { IfOk result (λ f. IsOrdered (linear_form_of f)) }
    ensures value { IfOk result (λ f. (r : Readings) (x : ℤ) → AreWords r → IsOneNumber r → value_of r (expression_of e.now) ≡ Ok x → form_value r (map r.scalar bound.now) (linear_form_of f) ≡ Ok x) }
{
    limited_form(alloc, e, bound)
}
