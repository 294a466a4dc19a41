// The scalars that expressions name.
ghost use Rattle.std.specs.Prelude.{◌≡◌, ◌++◌, OnOk};
ghost use Rattle.fd_prog.specs.Expressions.{expression_of, expressions_of};
ghost use Rattle.section_num.specs.Bounds.{scalars_among, scalars_in};
ghost use Rattle.section_num.specs.KeptNames.{names_of};

use crate::names::{Name, Names};
use fd_base::Memory;
use fd_prog::{Expr, ExprList};

/// Adds the scalars that an expression names.
#[cycle(mentioned)]
pub fn add_scalars(names: &mut Names, e: &Expr) -> Result<(), Memory>
    ensures { OnOk result (names_of names.new ≡ names_of names.old ++ scalars_in (expression_of e.now)) }
{
    match e {
        Expr::Num(_) => Ok(()),
        Expr::Scalar(s) => names.push(Name::Scalar(*s)),
        Expr::Elem(r) => add_all_scalars(names, &r.subs),
        Expr::Neg(a) => add_scalars(names, a),
        Expr::Bin(_, a, b) => {
            add_scalars(names, a)?;
            add_scalars(names, b)
        }
        Expr::Call(_, args) => add_all_scalars(names, args),
    }
}

/// Adds the scalars that expressions name.
#[cycle(mentioned)]
fn add_all_scalars(names: &mut Names, list: &ExprList) -> Result<(), Memory>
    ensures { OnOk result (names_of names.new ≡ names_of names.old ++ scalars_among (expressions_of list.now)) }
{
    match list {
        ExprList::End => Ok(()),
        ExprList::More(first, rest) => {
            add_scalars(names, first)?;
            add_all_scalars(names, rest)
        }
    }
}
