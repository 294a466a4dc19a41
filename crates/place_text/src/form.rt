// The texts of linear forms.
ghost use Rattle.std.specs.Prelude.{◌≡◌, ◌++◌, flat_map, codes, IfOk, OnOk};
ghost use Rattle.std.specs.List.{join_with_byte};
ghost use Rattle.fd_prog.specs.Programs.{program_of};
ghost use Rattle.fd_prog.specs.Forms.{linear_atom_of, linear_form_of, linear_terms_of, linear_forms_of};
ghost use Rattle.place_text.specs.FormTexts as texts;
ghost use Rattle.place_text.specs.FormTexts.{arguments_text, atom_text, forms_texts, in_parentheses, printed_terms};
ghost use Rattle.place_text.specs.Joined.{after_commas};

use crate::names::{array_name, function_name, scalar_name};
use crate::sum::{PrintedTerm, append_sum};
use fd_base::{Bytes, Memory};
use fd_prog::{Atom, Form, FormList, Program, TermList};
use std::alloc::Global;

/// Appends the text of an atom.
#[cycle(texts)]
fn append_atom(alloc: Global, program: &Program, atom: &Atom, out: &mut Bytes) -> Result<(), Memory>
    ensures { OnOk result (out.new ≡ out.old ++ atom_text (program_of program.now) (linear_atom_of atom.now)) }
{
    match atom {
        Atom::Bound(place) => {
            out.append(b"$")?;
            out.append_number(u64::from(*place) + 1)
        }
        Atom::Scalar(scalar) => out.append(scalar_name(program, *scalar)),
        Atom::Elem(array, subs) => {
            out.append(array_name(program, *array))?;
            append_arguments(alloc, program, subs, out)
        }
        Atom::Call(function, args) => {
            out.append(function_name(*function))?;
            append_arguments(alloc, program, args, out)
        }
        Atom::Mul(left, right) => {
            append_part(alloc, program, left, out)?;
            out.append(b"*")?;
            append_part(alloc, program, right, out)
        }
        Atom::Div(left, right) => {
            append_part(alloc, program, left, out)?;
            out.append(b"/")?;
            append_part(alloc, program, right, out)
        }
    }
}

/// Appends the text of a form in parentheses.
#[cycle(texts)]
fn append_part(alloc: Global, program: &Program, form: &Form, out: &mut Bytes) -> Result<(), Memory>
    ensures { OnOk result (out.new ≡ out.old ++ in_parentheses (texts.form_text (program_of program.now) (linear_form_of form.now))) }
{
    out.append(b"(")?;
    append_form(alloc, program, form, out)?;
    out.append(b")")
}

/// Appends the text of a form.
#[cycle(texts)]
pub fn append_form(
    alloc: Global,
    program: &Program,
    form: &Form,
    out: &mut Bytes,
) -> Result<(), Memory>
    ensures { OnOk result (out.new ≡ out.old ++ texts.form_text (program_of program.now) (linear_form_of form.now)) }
{
    let mut terms = Vec::new(alloc);
    collect_terms(alloc, program, &form.terms, &mut terms)?;
    append_sum(alloc, terms, form.constant, out)
}

/// Collects terms by the texts of their atoms.
#[cycle(texts)]
fn collect_terms(
    alloc: Global,
    program: &Program,
    list: &TermList,
    terms: &mut Vec<PrintedTerm>,
) -> Result<(), Memory>
    ensures { OnOk result (terms.new.items ≡ terms.old.items ++ printed_terms (program_of program.now) (linear_terms_of list.now)) }
{
    match list {
        TermList::End => Ok(()),
        TermList::More(term, rest) => {
            let mut atom = Bytes::new(alloc);
            append_atom(alloc, program, &term.atom, &mut atom)?;
            terms.push(PrintedTerm {
                atom,
                coefficient: term.coef,
            })?;
            collect_terms(alloc, program, rest, terms)
        }
    }
}

/// Appends the texts of forms in parentheses, with commas between them.
#[cycle(texts)]
pub fn append_arguments(
    alloc: Global,
    program: &Program,
    list: &FormList,
    out: &mut Bytes,
) -> Result<(), Memory>
    ensures { OnOk result (out.new ≡ out.old ++ arguments_text (forms_texts (program_of program.now) (linear_forms_of list.now))) }
{
    out.append(b"(")?;
    append_joined(alloc, program, list, out)?;
    out.append(b")")
}

/// Appends the texts of forms, with commas between them.
#[cycle(texts)]
#[tactic(auto, using(crate::proofs::Joined::join_first))]
fn append_joined(
    alloc: Global,
    program: &Program,
    list: &FormList,
    out: &mut Bytes,
) -> Result<(), Memory>
    ensures { OnOk result (out.new ≡ out.old ++ join_with_byte 44 (forms_texts (program_of program.now) (linear_forms_of list.now))) }
{
    match list {
        FormList::End => Ok(()),
        FormList::More(first, rest) => {
            append_form(alloc, program, first, out)?;
            append_more(alloc, program, rest, out)
        }
    }
}

/// Appends the texts of forms, each behind a comma.
#[cycle(texts)]
fn append_more(
    alloc: Global,
    program: &Program,
    list: &FormList,
    out: &mut Bytes,
) -> Result<(), Memory>
    ensures { OnOk result (out.new ≡ out.old ++ after_commas (forms_texts (program_of program.now) (linear_forms_of list.now))) }
{
    match list {
        FormList::End => Ok(()),
        FormList::More(form, rest) => {
            out.append(b",")?;
            append_form(alloc, program, form, out)?;
            append_more(alloc, program, rest, out)
        }
    }
}

/// The text of a form: its terms in byte order of their atoms' texts, and then its constant.
pub fn form_text(alloc: Global, program: &Program, form: &Form) -> Result<Bytes, Memory>
    ensures { IfOk result (λ text. text ≡ texts.form_text (program_of program.now) (linear_form_of form.now)) }
{
    let mut text = Bytes::new(alloc);
    append_form(alloc, program, form, &mut text)?;
    Ok(text)
}
