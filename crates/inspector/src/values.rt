// The value of a linear form.
ghost use Rattle.std.specs.Prelude.{◌≡◌, ◌+◌, ◌*◌, ◌^◌, ◌<◌, ◌≤◌, ◌+ℤ◌, ◌*ℤ◌, pos, unsigned_abs, IsTrue, IfOk, IfSome, Ok, fold, slice_index_or};
ghost use Rattle.fd_base.specs.Numbers.{exact};
ghost use Rattle.fd_prog.specs.Outcomes.{and_then};
ghost use Rattle.fd_prog.specs.Extremes.{extreme_of_two};
ghost use Rattle.fd_prog.specs.Forms.{NoTerms, Term as LastTerm, linear_atom_of, linear_form_of, linear_forms_of, linear_terms_of, terms_in};
ghost use Rattle.fd_prog.specs.FormOf.{is_small, are_small};
ghost use Rattle.fd_prog.specs.FormValues as forms;
ghost use Rattle.fd_prog.specs.FormValues.{terms_value, part_values};
ghost use Rattle.fd_prog.specs.Values.{applied, pair_of};
ghost use Rattle.fd_prog.specs.WellFormed.{Takes};
ghost use Rattle.fd_prog.specs.SoundForms.{AreSoundForms, AreSoundTerms, IsSoundAtom, IsSoundForm, forms_in};

use expr_eval::Cells;
use fd_base::{FaultKind, abs, div, mul, rem};
use fd_prog::{Atom, Extreme, Form, FormList, Func, Term, TermList};

/// A coefficient times the value of an atom.
fn times(coef: i64, x: i64) -> i128
    requires { IsTrue (is_small coef) }
    ensures value { result ≡ coef *ℤ x }
    ensures bound { unsigned_abs result ≤ 2 ^ 94 }
{
    i128::from(coef) * i128::from(x)
}

/// The sum of two numbers far inside 128 bits.
fn plus(a: i128, b: i128) -> i128
    requires left { unsigned_abs a < 2 ^ 126 }
    requires right { unsigned_abs b < 2 ^ 126 }
    ensures { result ≡ a +ℤ b }
{
    a + b
}

/// The number itself where it fits 64 bits, and else Overflow.
fn exact_number(z: i128) -> Result<i64, FaultKind>
    ensures { result ≡ exact z }
{
    i64::try_from(z).ok().ok_or(FaultKind::Overflow)
}

/// The number of a widened variable.
fn variable(vs: &[i64], place: u8) -> i64
    ensures { result ≡ slice_index_or vs.now place (pos 0) }
{
    vs.get(place as usize).copied().unwrap_or(0)
}

/// The value of a last term, where its atom is a variable or a scalar, and None of any other.
#[inline(always)]
fn plain_term<C: Cells>(term: &Term, vs: &[i64], c: &C) -> Option<i128>
    requires small { IsTrue (is_small term.now.coef) }
    requires sound { IsSoundAtom (C.names c.now) (linear_atom_of term.now.atom) }
    ensures value { IfSome result (λ z. terms_value (C.readings c.now) vs.now (LastTerm term.now.coef (linear_atom_of term.now.atom) NoTerms) ≡ Ok z) }
    ensures bound { IfSome result (λ z. unsigned_abs z ≤ 2 ^ 94) }
{
    match &term.atom {
        Atom::Bound(place) => Some(times(term.coef, variable(vs, *place))),
        Atom::Scalar(scalar) => Some(times(term.coef, c.scalar(*scalar))),
        _ => None,
    }
}

/// The sum of one such term or none, and None of any other. Most subscripts and homes are such, and are worth no call.
#[inline(always)]
fn plain_sum<C: Cells>(list: &TermList, vs: &[i64], c: &C) -> Option<i128>
    requires small { IsTrue (are_small (linear_terms_of list.now)) }
    requires sound { AreSoundTerms (C.names c.now) (linear_terms_of list.now) }
    ensures value { IfSome result (λ z. terms_value (C.readings c.now) vs.now (linear_terms_of list.now) ≡ Ok z) }
    ensures bound { IfSome result (λ z. unsigned_abs z ≤ 2 ^ 94) }
{
    match list {
        TermList::End => Some(0),
        TermList::More(term, rest) => match &**rest {
            TermList::End => plain_term(term, vs, c),
            TermList::More(_, _) => None,
        },
    }
}

/// The value of an atom, where the widened variables have these numbers.
#[cycle(values)]
fn atom_value<C: Cells>(a: &Atom, vs: &[i64], c: &C) -> Result<i64, FaultKind>
    requires { IsSoundAtom (C.names c.now) (linear_atom_of a.now) }
    ensures { result ≡ forms.atom_value (C.readings c.now) vs.now (linear_atom_of a.now) }
{
    match a {
        Atom::Bound(place) => Ok(variable(vs, *place)),
        Atom::Scalar(scalar) => Ok(c.scalar(*scalar)),
        Atom::Elem(array, subs) => {
            let subs = pair(subs, vs, c)?;
            c.element(*array, None, subs)
        }
        Atom::Call(f, args) => call(*f, args, vs, c),
        Atom::Mul(left, right) => {
            let left = part_value(left, vs, c)?;
            let right = part_value(right, vs, c)?;
            mul(left, right)
        }
        Atom::Div(left, right) => {
            let left = part_value(left, vs, c)?;
            let right = part_value(right, vs, c)?;
            div(left, right)
        }
    }
}

/// The value of a form, which may be outside 64 bits, or the first fault inside.
#[cycle(values)]
#[inline(always)]
pub fn form_value<C: Cells>(f: &Form, vs: &[i64], c: &C) -> Result<i128, FaultKind>
    requires { IsSoundForm (C.names c.now) (linear_form_of f.now) }
    ensures value { result ≡ forms.form_value (C.readings c.now) vs.now (linear_form_of f.now) }
    ensures bound { IfOk result (λ z. unsigned_abs z < 2 ^ 100) }
{
    if let Some(sum) = plain_sum(&f.terms, vs, c) {
        return Ok(plus(sum, i128::from(f.constant)));
    }
    let sum = sum_of_terms(&f.terms, vs, c)?;
    Ok(plus(sum, i128::from(f.constant)))
}

/// The value of a form as a part of an atom, which is inside 64 bits.
#[cycle(values)]
#[inline(always)]
pub fn part_value<C: Cells>(f: &Form, vs: &[i64], c: &C) -> Result<i64, FaultKind>
    requires { IsSoundForm (C.names c.now) (linear_form_of f.now) }
    ensures { result ≡ and_then (forms.form_value (C.readings c.now) vs.now (linear_form_of f.now)) exact }
{
    let value = form_value(f, vs, c)?;
    exact_number(value)
}

/// The sum of terms.
#[cycle(values)]
fn sum_of_terms<C: Cells>(list: &TermList, vs: &[i64], c: &C) -> Result<i128, FaultKind>
    requires few { terms_in (linear_terms_of list.now) ≤ 16 }
    requires small { IsTrue (are_small (linear_terms_of list.now)) }
    requires sound { AreSoundTerms (C.names c.now) (linear_terms_of list.now) }
    ensures value { result ≡ terms_value (C.readings c.now) vs.now (linear_terms_of list.now) }
    ensures bound { IfOk result (λ z. unsigned_abs z ≤ terms_in (linear_terms_of list.now) * 2 ^ 94) }
{
    match list {
        TermList::End => Ok(0),
        TermList::More(term, rest) => {
            let x = atom_value(&term.atom, vs, c)?;
            let sum = sum_of_terms(rest, vs, c)?;
            Ok(plus(times(term.coef, x), sum))
        }
    }
}

/// The value of a function.
#[cycle(values)]
fn call<C: Cells>(f: Func, args: &FormList, vs: &[i64], c: &C) -> Result<i64, FaultKind>
    requires takes { Takes f (forms_in (linear_forms_of args.now)) }
    requires sound { AreSoundForms (C.names c.now) (linear_forms_of args.now) }
    ensures { result ≡ and_then (part_values (C.readings c.now) vs.now (linear_forms_of args.now)) (applied f) }
{
    match f {
        Func::Mod => {
            let [first, second] = pair(args, vs, c)?;
            rem(first, second)
        }
        Func::Abs => {
            let [first, _] = pair(args, vs, c)?;
            abs(first)
        }
        Func::Min => match args {
            FormList::End => Ok(0),
            FormList::More(first, rest) => {
                let first = part_value(first, vs, c)?;
                extreme_from(Extreme::Least, first, rest, vs, c)
            }
        },
        Func::Max => match args {
            FormList::End => Ok(0),
            FormList::More(first, rest) => {
                let first = part_value(first, vs, c)?;
                extreme_from(Extreme::Greatest, first, rest, vs, c)
            }
        },
    }
}

/// The values of at most two forms; one that is missing is 0.
#[cycle(values)]
#[inline(always)]
pub fn pair<C: Cells>(list: &FormList, vs: &[i64], c: &C) -> Result<[i64; 2], FaultKind>
    requires two { forms_in (linear_forms_of list.now) ≤ 2 }
    requires sound { AreSoundForms (C.names c.now) (linear_forms_of list.now) }
    ensures { result ≡ and_then (part_values (C.readings c.now) vs.now (linear_forms_of list.now)) (λ xs. Ok (pair_of xs)) }
{
    match list {
        FormList::End => Ok([0, 0]),
        FormList::More(first, rest) => {
            let first = part_value(first, vs, c)?;
            match &**rest {
                FormList::End => Ok([first, 0]),
                FormList::More(second, _) => {
                    let second = part_value(second, vs, c)?;
                    Ok([first, second])
                }
            }
        }
    }
}

/// The least or the greatest of a number and the values of forms.
#[cycle(values)]
fn extreme_from<C: Cells>(
    which: Extreme,
    so_far: i64,
    list: &FormList,
    vs: &[i64],
    c: &C,
) -> Result<i64, FaultKind>
    requires { AreSoundForms (C.names c.now) (linear_forms_of list.now) }
    ensures { result ≡ and_then (part_values (C.readings c.now) vs.now (linear_forms_of list.now)) (λ xs. Ok (fold (extreme_of_two which) so_far xs)) }
{
    match list {
        FormList::End => Ok(so_far),
        FormList::More(first, rest) => {
            let first = part_value(first, vs, c)?;
            extreme_from(which, which.of_two(so_far, first), rest, vs, c)
        }
    }
}
