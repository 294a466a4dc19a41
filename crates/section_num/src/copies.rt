// Copies of forms and of expressions.
ghost use Rattle.std.specs.Prelude.{◌≡◌, IfOk, map};
ghost use Rattle.fd_prog.specs.Expressions.{expression_of, expressions_of};
ghost use Rattle.fd_prog.specs.Forms.{linear_atom_of, linear_form_of, linear_forms_of, linear_terms_of};
ghost use Rattle.fd_prog.specs.Items.{linear_loop_of};

use fd_base::Memory;
use fd_prog::{Atom, Expr, ExprList, Form, FormList, Ref, Term, TermList, Widened, WidenedList};
use std::alloc::Global;

#[cycle(copied)]
fn copy_atom(alloc: Global, atom: &Atom) -> Result<Atom, Memory>
    ensures { IfOk result (λ made. linear_atom_of made ≡ linear_atom_of atom.now) }
{
    match atom {
        Atom::Bound(i) => Ok(Atom::Bound(*i)),
        Atom::Scalar(s) => Ok(Atom::Scalar(*s)),
        Atom::Elem(array, subs) => Ok(Atom::Elem(*array, copy_list(alloc, subs)?)),
        Atom::Call(f, args) => Ok(Atom::Call(*f, copy_list(alloc, args)?)),
        Atom::Mul(f, g) => {
            let f = Box::new(alloc, copy_form(alloc, f)?)?;
            let g = Box::new(alloc, copy_form(alloc, g)?)?;
            Ok(Atom::Mul(f, g))
        }
        Atom::Div(f, g) => {
            let f = Box::new(alloc, copy_form(alloc, f)?)?;
            let g = Box::new(alloc, copy_form(alloc, g)?)?;
            Ok(Atom::Div(f, g))
        }
    }
}

#[cycle(copied)]
fn copy_form(alloc: Global, form: &Form) -> Result<Form, Memory>
    ensures { IfOk result (λ made. linear_form_of made ≡ linear_form_of form.now) }
{
    Ok(Form {
        terms: copy_terms(alloc, &form.terms)?,
        constant: form.constant,
    })
}

#[cycle(copied)]
fn copy_terms(alloc: Global, terms: &TermList) -> Result<TermList, Memory>
    ensures { IfOk result (λ made. linear_terms_of made ≡ linear_terms_of terms.now) }
{
    match terms {
        TermList::End => Ok(TermList::End),
        TermList::More(term, rest) => {
            let atom = copy_atom(alloc, &term.atom)?;
            let coef = term.coef;
            let term = Box::new(alloc, Term { coef, atom })?;
            let rest = Box::new(alloc, copy_terms(alloc, rest)?)?;
            Ok(TermList::More(term, rest))
        }
    }
}

#[cycle(copied)]
fn copy_list(alloc: Global, forms: &FormList) -> Result<FormList, Memory>
    ensures { IfOk result (λ made. linear_forms_of made ≡ linear_forms_of forms.now) }
{
    match forms {
        FormList::End => Ok(FormList::End),
        FormList::More(form, rest) => {
            let form = Box::new(alloc, copy_form(alloc, form)?)?;
            let rest = Box::new(alloc, copy_list(alloc, rest)?)?;
            Ok(FormList::More(form, rest))
        }
    }
}

/// The same forms of a loop's bounds and its step.
pub fn copy_widened(alloc: Global, forms: &Widened) -> Result<Widened, Memory>
    ensures { IfOk result (λ made. linear_loop_of made ≡ linear_loop_of forms.now) }
{
    Ok(Widened {
        first: copy_form(alloc, &forms.first)?,
        last: copy_form(alloc, &forms.last)?,
        step: copy_form(alloc, &forms.step)?,
    })
}

/// The same forms of the bounds and the steps of loops.
pub fn copy_all(alloc: Global, all: &[Widened]) -> Result<WidenedList, Memory>
    ensures { IfOk result (λ made. map linear_loop_of made ≡ map linear_loop_of all.now) }
{
    let mut copies = WidenedList::new(alloc);
    for one in all {
        let copy = copy_widened(alloc, one)?;
        copies.push(copy)?;
    }
    Ok(copies)
}

/// The same expression.
#[cycle(copied_expression)]
pub fn copy_expression(alloc: Global, e: &Expr) -> Result<Expr, Memory>
    ensures { IfOk result (λ made. expression_of made ≡ expression_of e.now) }
{
    match e {
        Expr::Num(n) => Ok(Expr::Num(*n)),
        Expr::Scalar(s) => Ok(Expr::Scalar(*s)),
        Expr::Elem(r) => Ok(Expr::Elem(copy_reference(alloc, r)?)),
        Expr::Neg(a) => {
            let a = Box::new(alloc, copy_expression(alloc, a)?)?;
            Ok(Expr::Neg(a))
        }
        Expr::Bin(op, a, b) => {
            let a = Box::new(alloc, copy_expression(alloc, a)?)?;
            let b = Box::new(alloc, copy_expression(alloc, b)?)?;
            Ok(Expr::Bin(*op, a, b))
        }
        Expr::Call(f, args) => Ok(Expr::Call(*f, copy_expressions(alloc, args)?)),
    }
}

/// The same reference.
#[cycle(copied_expression)]
pub fn copy_reference(alloc: Global, r: &Ref) -> Result<Ref, Memory>
    ensures array { IfOk result (λ made. made.array ≡ r.now.array) }
    ensures subs { IfOk result (λ made. expressions_of made.subs ≡ expressions_of r.now.subs) }
    ensures site { IfOk result (λ made. made.site ≡ r.now.site) }
{
    Ok(Ref {
        array: r.array,
        subs: copy_expressions(alloc, &r.subs)?,
        site: r.site,
    })
}

#[cycle(copied_expression)]
fn copy_expressions(alloc: Global, list: &ExprList) -> Result<ExprList, Memory>
    ensures { IfOk result (λ made. expressions_of made ≡ expressions_of list.now) }
{
    match list {
        ExprList::End => Ok(ExprList::End),
        ExprList::More(first, rest) => {
            let first = Box::new(alloc, copy_expression(alloc, first)?)?;
            let rest = Box::new(alloc, copy_expressions(alloc, rest)?)?;
            Ok(ExprList::More(first, rest))
        }
    }
}
