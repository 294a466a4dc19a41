// Sums and multiples of terms and forms.
ghost use Rattle.std.specs.Prelude.{◌≡◌, ◌+◌, ◌^◌, ◌<◌, IfOk, IsTrue, unsigned_abs};
ghost use Rattle.fd_prog.specs.Forms.{linear_atom_of, linear_form_of, linear_terms_of};
ghost use Rattle.fd_prog.specs.FormOf.{kept, with_term, sum_of_terms, scaled_terms, sum_of, scaled, weight, form_weight, is_small, are_small, KeepsLimits};

use crate::form::{Atom, Form, Term, TermList};
use crate::order::compare_atoms;
use fd_base::Memory;
use std::alloc::Global;
use std::cmp::Ordering;

/// A multiple of an atom before other terms, unless its coefficient is 0.
fn keep(alloc: Global, rest: TermList, coef: i64, atom: Atom) -> Result<TermList, Memory>
    ensures { IfOk result (λ ts. linear_terms_of ts ≡ kept coef (linear_atom_of atom) (linear_terms_of rest)) }
{
    if coef == 0 {
        Ok(rest)
    } else {
        let term = Box::new(alloc, Term { coef, atom })?;
        let rest = Box::new(alloc, rest)?;
        Ok(TermList::More(term, rest))
    }
}

/// A multiple of an atom and terms in the order of their atoms, summed up.
fn insert(alloc: Global, terms: TermList, coef: i64, atom: Atom) -> Result<TermList, Memory>
    requires { unsigned_abs coef + weight (linear_terms_of terms) < 2 ^ 63 }
    ensures { IfOk result (λ ts. linear_terms_of ts ≡ with_term coef (linear_atom_of atom) (linear_terms_of terms)) }
{
    match terms {
        TermList::End => keep(alloc, TermList::End, coef, atom),
        TermList::More(head, rest) => match compare_atoms(&atom, &head.atom) {
            Ordering::Less => keep(alloc, TermList::More(head, rest), coef, atom),
            Ordering::Equal => {
                let Term {
                    coef: other,
                    atom: same,
                } = Box::into_inner(head);
                keep(alloc, Box::into_inner(rest), coef + other, same)
            }
            Ordering::Greater => {
                let behind = insert(alloc, Box::into_inner(rest), coef, atom)?;
                let behind = Box::new(alloc, behind)?;
                Ok(TermList::More(head, behind))
            }
        },
    }
}

/// All terms of both.
fn add_terms(alloc: Global, more: TermList, terms: TermList) -> Result<TermList, Memory>
    requires { weight (linear_terms_of more) + weight (linear_terms_of terms) < 2 ^ 63 }
    ensures { IfOk result (λ ts. linear_terms_of ts ≡ sum_of_terms (linear_terms_of more) (linear_terms_of terms)) }
{
    match more {
        TermList::End => Ok(terms),
        TermList::More(head, rest) => {
            let Term { coef, atom } = Box::into_inner(head);
            let sum = add_terms(alloc, Box::into_inner(rest), terms)?;
            insert(alloc, sum, coef, atom)
        }
    }
}

/// All terms so many times.
fn scale_terms(alloc: Global, terms: TermList, times: i64) -> Result<TermList, Memory>
    requires times { IsTrue (is_small times) }
    requires small { IsTrue (are_small (linear_terms_of terms)) }
    ensures { IfOk result (λ ts. linear_terms_of ts ≡ scaled_terms times (linear_terms_of terms)) }
{
    match terms {
        TermList::End => Ok(TermList::End),
        TermList::More(head, rest) => {
            let Term { coef, atom } = Box::into_inner(head);
            let rest = scale_terms(alloc, Box::into_inner(rest), times)?;
            keep(alloc, rest, times * coef, atom)
        }
    }
}

/// The sum of two forms.
pub fn add_forms(alloc: Global, f: Form, g: Form) -> Result<Form, Memory>
    requires { form_weight (linear_form_of f) + form_weight (linear_form_of g) < 2 ^ 63 }
    ensures { IfOk result (λ sum. linear_form_of sum ≡ sum_of (linear_form_of f) (linear_form_of g)) }
{
    let terms = add_terms(alloc, f.terms, g.terms)?;
    Ok(Form {
        terms,
        constant: f.constant + g.constant,
    })
}

/// A form so many times.
pub fn scale_form(alloc: Global, f: Form, times: i64) -> Result<Form, Memory>
    requires times { IsTrue (is_small times) }
    requires keeps { KeepsLimits (linear_form_of f) }
    ensures { IfOk result (λ multiple. linear_form_of multiple ≡ scaled times (linear_form_of f)) }
{
    let terms = scale_terms(alloc, f.terms, times)?;
    Ok(Form {
        terms,
        constant: times * f.constant,
    })
}
