// Copies of what stands in statements.
ghost use Rattle.std.specs.Prelude.{◌≡◌, IfOk, map};
ghost use Rattle.fd_prog.specs.Conditions.{condition_of};
ghost use Rattle.fd_prog.specs.Statements.{target_of, print_item_of};

use fd_base::{Bytes, Memory};
use fd_prog::{Cond, Part, PartList, Ref2};
use section_num::{copy_expression, copy_reference};
use std::alloc::Global;

/// The same condition.
pub fn copy_condition(alloc: Global, c: &Cond) -> Result<Cond, Memory>
    ensures { IfOk result (λ made. condition_of made ≡ condition_of c.now) }
{
    match c {
        Cond::Fixed(b) => Ok(Cond::Fixed(*b)),
        Cond::Cmp(rel, a, b) => {
            let a = copy_expression(alloc, a)?;
            let b = copy_expression(alloc, b)?;
            Ok(Cond::Cmp(*rel, a, b))
        }
        Cond::Not(a) => {
            let a = Box::new(alloc, copy_condition(alloc, a)?)?;
            Ok(Cond::Not(a))
        }
        Cond::Both(a, b) => {
            let a = Box::new(alloc, copy_condition(alloc, a)?)?;
            let b = Box::new(alloc, copy_condition(alloc, b)?)?;
            Ok(Cond::Both(a, b))
        }
        Cond::Either(a, b) => {
            let a = Box::new(alloc, copy_condition(alloc, a)?)?;
            let b = Box::new(alloc, copy_condition(alloc, b)?)?;
            Ok(Cond::Either(a, b))
        }
    }
}

/// The same target.
pub fn copy_target(alloc: Global, target: &Ref2) -> Result<Ref2, Memory>
    ensures { IfOk result (λ made. target_of made ≡ target_of target.now) }
{
    match target {
        Ref2::Scalar(s) => Ok(Ref2::Scalar(*s)),
        Ref2::Elem(r) => Ok(Ref2::Elem(copy_reference(alloc, r)?)),
    }
}

/// The same item of a PRINT.
fn copy_part(alloc: Global, part: &Part) -> Result<Part, Memory>
    ensures { IfOk result (λ made. print_item_of made ≡ print_item_of part.now) }
{
    match part {
        Part::Words(text) => Ok(Part::Words(Bytes::from_slice(alloc, text.as_slice())?)),
        Part::Value(e) => Ok(Part::Value(copy_expression(alloc, e)?)),
    }
}

/// The same items of a PRINT.
pub fn copy_parts(alloc: Global, parts: &[Part]) -> Result<PartList, Memory>
    ensures { IfOk result (λ made. map print_item_of made ≡ map print_item_of parts.now) }
{
    let mut copies = PartList::new(alloc);
    for one in parts {
        let copy = copy_part(alloc, one)?;
        copies.push(copy)?;
    }
    Ok(copies)
}
