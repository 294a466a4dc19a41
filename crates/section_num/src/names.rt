// Names in forms, and names that statements set.
ghost use Rattle.std.specs.Prelude.{◌≡◌, ◌++◌, OnOk, IfOk};
ghost use Rattle.fd_prog.specs.Forms.{linear_atom_of, linear_form_of, linear_forms_of, linear_terms_of};
ghost use Rattle.fd_prog.specs.Items.{all_names_set, atom_names, form_names, forms_names, is_same_name, names_set, target_name, terms_names};
ghost use Rattle.fd_prog.specs.Statements.{statement_of, statements_of, target_of};
ghost use Rattle.section_num.specs.Views.{name_of, names_of};

use fd_base::{ListOf, Memory};
use fd_prog::{Atom, Form, FormList, Ref2, Stmt, StmtList, TermList};

/// A name of a program: a scalar, an array or a decomposition by its number.
#[derive(Clone, Copy, PartialEq, Eq, PartialOrd, Ord)]
pub enum Name {
    Scalar(u16),
    Array(u16),
    Decomp(u16),
}

/// Names, in any order and as often as they come.
pub type Names = ListOf<Name>;

impl Name {
    /// The two are one.
    pub fn is(self, other: Name) -> bool
        ensures { result ≡ is_same_name (name_of self) (name_of other) }
    {
        match (self, other) {
            (Name::Scalar(a), Name::Scalar(b)) => a == b,
            (Name::Array(a), Name::Array(b)) => a == b,
            (Name::Decomp(a), Name::Decomp(b)) => a == b,
            _ => false,
        }
    }
}

/// Adds the names in an atom, but for widened variables.
#[cycle(names_in)]
fn add_atom(names: &mut Names, atom: &Atom) -> Result<(), Memory>
    ensures { OnOk result (names_of names.new ≡ names_of names.old ++ atom_names (linear_atom_of atom.now)) }
{
    match atom {
        Atom::Bound(_) => Ok(()),
        Atom::Scalar(s) => names.push(Name::Scalar(*s)),
        Atom::Elem(array, subs) => {
            names.push(Name::Array(*array))?;
            add_forms(names, subs)
        }
        Atom::Call(_, args) => add_forms(names, args),
        Atom::Mul(f, g) => {
            add_form(names, f)?;
            add_form(names, g)
        }
        Atom::Div(f, g) => {
            add_form(names, f)?;
            add_form(names, g)
        }
    }
}

/// Adds the names in a form.
#[cycle(names_in)]
pub fn add_form(names: &mut Names, form: &Form) -> Result<(), Memory>
    ensures { OnOk result (names_of names.new ≡ names_of names.old ++ form_names (linear_form_of form.now)) }
{
    add_terms(names, &form.terms)
}

#[cycle(names_in)]
fn add_terms(names: &mut Names, terms: &TermList) -> Result<(), Memory>
    ensures { OnOk result (names_of names.new ≡ names_of names.old ++ terms_names (linear_terms_of terms.now)) }
{
    match terms {
        TermList::End => Ok(()),
        TermList::More(term, rest) => {
            add_atom(names, &term.atom)?;
            add_terms(names, rest)
        }
    }
}

/// Adds the names in forms.
#[cycle(names_in)]
pub fn add_forms(names: &mut Names, forms: &FormList) -> Result<(), Memory>
    ensures { OnOk result (names_of names.new ≡ names_of names.old ++ forms_names (linear_forms_of forms.now)) }
{
    match forms {
        FormList::End => Ok(()),
        FormList::More(form, rest) => {
            add_form(names, form)?;
            add_forms(names, rest)
        }
    }
}

/// The name that a target sets.
pub fn name_of_target(target: &Ref2) -> Name
    ensures { name_of result ≡ target_name (target_of target.now) }
{
    match target {
        Ref2::Scalar(s) => Name::Scalar(*s),
        Ref2::Elem(r) => Name::Array(r.array),
    }
}

/// Adds what a statement sets, and all that stands in it.
#[cycle(names_set_in)]
fn add_set(names: &mut Names, s: &Stmt) -> Result<(), Memory>
    ensures { OnOk result (names_of names.new ≡ names_of names.old ++ names_set (statement_of s.now)) }
{
    match s {
        Stmt::Assign(_, target, _) => names.push(name_of_target(target)),
        Stmt::If(_, _, so, otherwise) => {
            add_all_set(names, so)?;
            add_all_set(names, otherwise)
        }
        Stmt::Do(_, var, _, _, _, body) => {
            names.push(Name::Scalar(*var))?;
            add_all_set(names, body)
        }
        Stmt::While(_, _, body) => add_all_set(names, body),
        Stmt::Read(_, target) => names.push(name_of_target(target)),
        Stmt::Print(_, _) => Ok(()),
        Stmt::Skip(_) => Ok(()),
        Stmt::Remap(_, _, _) => Ok(()),
    }
}

/// Adds what statements set.
#[cycle(names_set_in)]
pub fn add_all_set(names: &mut Names, list: &StmtList) -> Result<(), Memory>
    ensures { OnOk result (names_of names.new ≡ names_of names.old ++ all_names_set (statements_of list.now)) }
{
    match list {
        StmtList::End => Ok(()),
        StmtList::More(s, rest) => {
            add_set(names, s)?;
            add_all_set(names, rest)
        }
    }
}
