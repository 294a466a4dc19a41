// The text of a sum, from the texts of its atoms.
ghost use Rattle.std.specs.Prelude.{◌≡◌, ◌++◌, flat_map, OnOk};
ghost use Rattle.place_text.specs.Sums as sums;
ghost use Rattle.place_text.specs.Sums.{in_byte_order, sum_text, terms_text};

use fd_base::{Bytes, Memory};
use std::alloc::Global;

/// A term by the text of its atom.
#[derive(Drop)]
pub struct PrintedTerm {
    pub atom: Bytes,
    pub coefficient: i64,
}

/// Appends the text of a sum of terms and a constant.
pub fn append_sum(
    alloc: Global,
    terms: Vec<PrintedTerm>,
    constant: i64,
    out: &mut Bytes,
) -> Result<(), Memory>
    ensures { OnOk result (out.new ≡ out.old ++ sum_text terms.items constant) }
{
    let mut terms = terms;
    sort_terms(&mut terms)?;
    append_terms(terms.as_slice(), constant, out)
}

/// Brings terms into byte order of their atoms' texts; those of one text keep their order.
fn sort_terms(terms: &mut Vec<PrintedTerm>) -> Result<(), Memory>
    ensures { OnOk result (terms.new.items ≡ in_byte_order terms.old.items) }
{
    terms.sort_by(|t, u| t.atom.as_slice().cmp(u.atom.as_slice()))?;
    Ok(())
}

/// Appends terms as they stand, and then the constant.
fn append_terms(terms: &[PrintedTerm], constant: i64, out: &mut Bytes) -> Result<(), Memory>
    ensures { OnOk result (out.new ≡ out.old ++ terms_text terms.now constant) }
{
    match terms {
        [] => out.append_signed(constant),
        [first, more @ ..] => {
            append_term(first, out)?;
            append_later_terms(more, out)?;
            append_later_constant(constant, out)
        }
    }
}

fn append_later_terms(terms: &[PrintedTerm], out: &mut Bytes) -> Result<(), Memory>
    ensures { OnOk result (out.new ≡ out.old ++ flat_map sums.later_term terms.now) }
{
    for term in terms {
        append_later_term(term, out)?;
    }
    Ok(())
}

fn append_later_term(term: &PrintedTerm, out: &mut Bytes) -> Result<(), Memory>
    ensures { OnOk result (out.new ≡ out.old ++ sums.later_term term.now) }
{
    if term.coefficient >= 0 {
        out.append(b"+")?;
    }
    append_term(term, out)
}

fn append_later_constant(constant: i64, out: &mut Bytes) -> Result<(), Memory>
    ensures { OnOk result (out.new ≡ out.old ++ sums.later_constant constant) }
{
    if constant == 0 {
        return Ok(());
    }
    if constant > 0 {
        out.append(b"+")?;
    }
    out.append_signed(constant)
}

fn append_term(term: &PrintedTerm, out: &mut Bytes) -> Result<(), Memory>
    ensures { OnOk result (out.new ≡ out.old ++ sums.term_text term.now) }
{
    append_coefficient(term.coefficient, out)?;
    out.append(term.atom.as_slice())
}

fn append_coefficient(coefficient: i64, out: &mut Bytes) -> Result<(), Memory>
    ensures { OnOk result (out.new ≡ out.old ++ sums.coefficient_text coefficient) }
{
    match coefficient {
        1 => Ok(()),
        -1 => out.append(b"-"),
        _ => {
            out.append_signed(coefficient)?;
            out.append(b"*")
        }
    }
}
