// Constants.
ghost use Rattle.std.specs.Prelude.{◌≡◌, fold, is_some, option_and_then, option_map, ◌∷◌, []};
ghost use Rattle.std.specs.Result.{result_ok};
ghost use Rattle.fd_prog.specs.Expressions.{expression_of, expressions_of};
ghost use Rattle.fd_prog.specs.Extremes.{extreme_of_two};
ghost use Rattle.fd_prog.specs.Values.{applied, first, joined, second};
ghost use Rattle.fd_names.specs.Constants.{constant_of, constants_of};

use fd_base::{FaultKind, abs, add, div, mul, neg, rem, sub};
use fd_prog::{Expr, ExprList, Extreme, Func, Op2};

/// The operator's value.
fn joined(op: Op2, left: i64, right: i64) -> Result<i64, FaultKind>
    ensures { result ≡ joined op left right }
{
    match op {
        Op2::Add => add(left, right),
        Op2::Sub => sub(left, right),
        Op2::Mul => mul(left, right),
        Op2::Div => div(left, right),
    }
}

/// The value of an expression that is constant and doesn't fault.
#[cycle(constants)]
pub fn constant(e: &Expr) -> Option<i64>
    ensures { result ≡ constant_of (expression_of e.now) }
{
    match e {
        Expr::Num(value) => Some(*value),
        Expr::Scalar(_) => None,
        Expr::Elem(_) => None,
        Expr::Neg(inner) => {
            let a = constant(inner)?;
            neg(a).ok()
        }
        Expr::Bin(op, left, right) => {
            let a = constant(left)?;
            let b = constant(right)?;
            joined(*op, a, b).ok()
        }
        Expr::Call(func, args) => applied(*func, args),
    }
}

/// The value of a function of constants.
#[cycle(constants)]
fn applied(func: Func, args: &ExprList) -> Option<i64>
    ensures { result ≡ option_and_then (λ xs. result_ok (applied func xs)) (constants_of (expressions_of args.now)) }
{
    match func {
        Func::Mod => {
            let (a, b) = first_two(args)?;
            rem(a, b).ok()
        }
        Func::Abs => {
            let (a, _) = first_two(args)?;
            abs(a).ok()
        }
        Func::Min => match args {
            ExprList::End => Some(0),
            ExprList::More(first, rest) => {
                let a = constant(first)?;
                extreme_from(Extreme::Least, a, rest)
            }
        },
        Func::Max => match args {
            ExprList::End => Some(0),
            ExprList::More(first, rest) => {
                let a = constant(first)?;
                extreme_from(Extreme::Greatest, a, rest)
            }
        },
    }
}

/// The first two values of constants; one that is missing is 0.
#[cycle(constants)]
fn first_two(list: &ExprList) -> Option<(i64, i64)>
    ensures { result ≡ option_map (λ xs. (first xs, second xs)) (constants_of (expressions_of list.now)) }
{
    match list {
        ExprList::End => Some((0, 0)),
        ExprList::More(head, rest) => {
            let a = constant(head)?;
            let b = first_one(rest)?;
            Some((a, b))
        }
    }
}

/// The first value of constants; where it is missing, 0.
#[cycle(constants)]
fn first_one(list: &ExprList) -> Option<i64>
    ensures { result ≡ option_map first (constants_of (expressions_of list.now)) }
{
    match list {
        ExprList::End => Some(0),
        ExprList::More(head, rest) => {
            let a = constant(head)?;
            are_constant(rest).then_some(a)
        }
    }
}

#[cycle(constants)]
fn are_constant(list: &ExprList) -> bool
    ensures { result ≡ is_some (constants_of (expressions_of list.now)) }
{
    match list {
        ExprList::End => true,
        ExprList::More(head, rest) => constant(head).is_some() && are_constant(rest),
    }
}

/// The least or the greatest of a number and the values of constants.
#[cycle(constants)]
fn extreme_from(which: Extreme, so_far: i64, list: &ExprList) -> Option<i64>
    ensures { result ≡ option_map (fold (extreme_of_two which) so_far) (constants_of (expressions_of list.now)) }
{
    match list {
        ExprList::End => Some(so_far),
        ExprList::More(head, rest) => {
            let a = constant(head)?;
            extreme_from(which, which.of_two(so_far, a), rest)
        }
    }
}
