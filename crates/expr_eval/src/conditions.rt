// Whether a condition holds.
ghost use Rattle.std.specs.Prelude.{◌≡◌};
ghost use Rattle.fd_prog.specs.Conditions.{condition_of};
ghost use Rattle.fd_prog.specs.Values.{truth_of, compared};
ghost use Rattle.fd_prog.specs.WellFormed.{IsSoundCondition};

use crate::{Cells, eval};
use fd_base::{FaultKind, Rel};
use fd_prog::Cond;

/// Whether a condition holds with the numbers of the cells, or the first fault from left to right. Both sides of `.AND.` and `.OR.` are valued.
pub fn test<C: Cells>(e: &Cond, c: &C) -> Result<bool, FaultKind>
    requires { IsSoundCondition (C.names c.now) (condition_of e.now) }
    ensures { result ≡ truth_of (C.readings c.now) (condition_of e.now) }
{
    match e {
        Cond::Fixed(holds) => Ok(*holds),
        Cond::Cmp(rel, left, right) => {
            let left = eval(left, c)?;
            let right = eval(right, c)?;
            Ok(compare(*rel, left, right))
        }
        Cond::Not(inner) => {
            let inner = test(inner, c)?;
            Ok(!inner)
        }
        Cond::Both(left, right) => {
            let left = test(left, c)?;
            let right = test(right, c)?;
            Ok(left & right)
        }
        Cond::Either(left, right) => {
            let left = test(left, c)?;
            let right = test(right, c)?;
            Ok(left | right)
        }
    }
}

/// Whether a comparison holds of two values.
pub fn compare(rel: Rel, left: i64, right: i64) -> bool
    ensures { result ≡ compared rel left right }
{
    match rel {
        Rel::Eq => left == right,
        Rel::Ne => left != right,
        Rel::Lt => left < right,
        Rel::Le => left <= right,
        Rel::Gt => left > right,
        Rel::Ge => left >= right,
    }
}
