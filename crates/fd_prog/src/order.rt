// The order of atoms, which gives equal sums equal forms.
ghost use Rattle.std.specs.Prelude.{◌≡◌};
ghost use Rattle.fd_prog.specs.Forms.{linear_atom_of, linear_form_of, linear_terms_of, linear_forms_of, atom_order, form_order, terms_order, forms_order, atom_rank, function_rank};

use crate::expression::Func;
use crate::form::{Atom, Form, FormList, TermList};
use std::cmp::Ordering;

/// Atoms of one kind by their parts from left to right, and others by their kinds.
#[cycle(order)]
pub fn compare_atoms(a: &Atom, b: &Atom) -> Ordering
    ensures { result ≡ atom_order (linear_atom_of a.now) (linear_atom_of b.now) }
{
    match (a, b) {
        (Atom::Bound(i), Atom::Bound(j)) => i.cmp(j),
        (Atom::Scalar(s), Atom::Scalar(t)) => s.cmp(t),
        (Atom::Elem(array, fs), Atom::Elem(other, gs)) => array
            .cmp(other)
            .then(compare_lists(fs, gs)),
        (Atom::Call(f, fs), Atom::Call(g, gs)) => {
            rank_of_function(*f)
                .cmp(&rank_of_function(*g))
                .then(compare_lists(fs, gs))
        }
        (Atom::Mul(f, g), Atom::Mul(h, k)) => compare_forms(f, h).then(compare_forms(g, k)),
        (Atom::Div(f, g), Atom::Div(h, k)) => compare_forms(f, h).then(compare_forms(g, k)),
        _ => rank_of_atom(a).cmp(&rank_of_atom(b)),
    }
}

/// Forms by their terms, and then by their constants.
#[cycle(order)]
pub fn compare_forms(a: &Form, b: &Form) -> Ordering
    ensures { result ≡ form_order (linear_form_of a.now) (linear_form_of b.now) }
{
    compare_terms(&a.terms, &b.terms).then(a.constant.cmp(&b.constant))
}

#[cycle(order)]
fn compare_terms(a: &TermList, b: &TermList) -> Ordering
    ensures { result ≡ terms_order (linear_terms_of a.now) (linear_terms_of b.now) }
{
    match (a, b) {
        (TermList::End, TermList::End) => Ordering::Equal,
        (TermList::End, TermList::More(_, _)) => Ordering::Less,
        (TermList::More(_, _), TermList::End) => Ordering::Greater,
        (TermList::More(t, ts), TermList::More(u, us)) => {
            compare_atoms(&t.atom, &u.atom).then(t.coef.cmp(&u.coef).then(compare_terms(ts, us)))
        }
    }
}

/// Forms in a row by the first that differ, where an end comes first.
#[cycle(order)]
pub fn compare_lists(a: &FormList, b: &FormList) -> Ordering
    ensures { result ≡ forms_order (linear_forms_of a.now) (linear_forms_of b.now) }
{
    match (a, b) {
        (FormList::End, FormList::End) => Ordering::Equal,
        (FormList::End, FormList::More(_, _)) => Ordering::Less,
        (FormList::More(_, _), FormList::End) => Ordering::Greater,
        (FormList::More(f, fs), FormList::More(g, gs)) => compare_forms(f, g).then(compare_lists(
            fs, gs,
        )),
    }
}

fn rank_of_function(f: Func) -> u8
    ensures { result ≡ function_rank f }
{
    match f {
        Func::Mod => 0,
        Func::Abs => 1,
        Func::Min => 2,
        Func::Max => 3,
    }
}

fn rank_of_atom(a: &Atom) -> u8
    ensures { result ≡ atom_rank (linear_atom_of a.now) }
{
    match a {
        Atom::Bound(_) => 0,
        Atom::Scalar(_) => 1,
        Atom::Elem(_, _) => 2,
        Atom::Call(_, _) => 3,
        Atom::Mul(_, _) => 4,
        Atom::Div(_, _) => 5,
    }
}
