// The limits on forms.
ghost use Rattle.std.specs.Prelude.{◌≡◌, nat_lt, IfOk, IfErr, Ok, Err};
ghost use Rattle.fd_prog.specs.Forms.{linear_form_of, linear_terms_of, terms_in};
ghost use Rattle.fd_prog.specs.FormOf.{is_small, are_small, limited, KeepsLimits};

use crate::form::{Form, FormRefusal, TermList};

/// The greatest size of a coefficient or constant.
const GREATEST: u64 = 2_147_483_648;

/// The most terms of a form.
const MOST_TERMS: u8 = 16;

fn is_small_number(number: i64) -> bool
    ensures { result ≡ is_small number }
{
    number.unsigned_abs() <= GREATEST
}

fn are_small_terms(terms: &TermList) -> bool
    ensures { result ≡ are_small (linear_terms_of terms.now) }
{
    match terms {
        TermList::End => true,
        TermList::More(head, rest) => is_small_number(head.coef) && are_small_terms(rest),
    }
}

fn has_more_than(terms: &TermList, room: u8) -> bool
    ensures { result ≡ nat_lt room (terms_in (linear_terms_of terms.now)) }
{
    match terms {
        TermList::End => false,
        TermList::More(_, rest) => room == 0 || has_more_than(rest, room - 1),
    }
}

/// The form itself, or the limit that it passes.
pub fn limit(form: Form) -> Result<Form, FormRefusal>
    ensures found { IfOk result (λ f. limited (linear_form_of form) ≡ Ok (linear_form_of f)) }
    ensures keeps { IfOk result (λ f. KeepsLimits (linear_form_of f)) }
    ensures refused { IfErr result (λ why. limited (linear_form_of form) ≡ Err why) }
{
    if has_more_than(&form.terms, MOST_TERMS) {
        return Err(FormRefusal::Terms);
    }
    if are_small_terms(&form.terms) && is_small_number(form.constant) {
        Ok(form)
    } else {
        Err(FormRefusal::Coefficient)
    }
}
