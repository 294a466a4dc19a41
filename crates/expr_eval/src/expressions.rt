// The value of an expression.
ghost use Rattle.std.specs.Prelude.{◌≡◌, ◌≤◌, Ok, fold, ok_or};
ghost use Rattle.fd_prog.specs.Outcomes.{and_then};
ghost use Rattle.fd_prog.specs.Expressions.{expression_of, expressions_of, Element, Negated, Joined};
ghost use Rattle.fd_prog.specs.Extremes.{extreme_of_two};
ghost use Rattle.fd_prog.specs.Values.{value_of, values_of, applied, pair_of};
ghost use Rattle.fd_prog.specs.WellFormed.{IsSound, AreSound, Takes, count_of};

use crate::Cells;
use fd_base::{FaultKind, abs, add, div, mul, neg, rem, sub};
use fd_prog::{Expr, ExprList, Extreme, Func, Op2, Ref};

/// The value of an expression with the numbers of the cells, or the first fault from left to right.
// In line down to the sides of an operator, since a call costs more than most expressions.
#[cycle(eval)]
#[inline(always)]
pub fn eval<C: Cells>(e: &Expr, c: &C) -> Result<i64, FaultKind>
    requires { IsSound (C.names c.now) (expression_of e.now) }
    ensures { result ≡ value_of (C.readings c.now) (expression_of e.now) }
{
    match e {
        Expr::Num(number) => Ok(*number),
        Expr::Scalar(scalar) => Ok(c.scalar(*scalar)),
        Expr::Elem(r) => element(r, c),
        Expr::Neg(inner) => negated(inner, c),
        Expr::Bin(op, left, right) => joined(*op, left, right, c),
        Expr::Call(f, args) => call(*f, args, c),
    }
}

// The same as a call.
#[cycle(eval)]
#[inline(always)]
fn value<C: Cells>(e: &Expr, c: &C) -> Result<i64, FaultKind>
    requires { IsSound (C.names c.now) (expression_of e.now) }
    ensures { result ≡ value_of (C.readings c.now) (expression_of e.now) }
{
    let mut fault = FaultKind::Overflow;
    let found = value_apart(e, c, &mut fault);
    found.ok_or(fault)
}

// The call, whose answer fits two registers: the number, or None behind the fault.
#[cycle(eval)]
#[inline(never)]
fn value_apart<C: Cells>(e: &Expr, c: &C, fault: &mut FaultKind) -> Option<i64>
    requires { IsSound (C.names c.now) (expression_of e.now) }
    ensures { value_of (C.readings c.now) (expression_of e.now) ≡ ok_or result fault.new }
{
    let given = eval(e, c);
    note(given, fault)
}

// The number, or None behind the fault.
#[inline(always)]
fn note(given: Result<i64, FaultKind>, fault: &mut FaultKind) -> Option<i64>
    ensures { given ≡ ok_or result fault.new }
{
    match given {
        Ok(number) => Some(number),
        Err(kind) => {
            *fault = kind;
            None
        }
    }
}

// The value of an expression, where a number or a scalar takes no call.
#[cycle(eval)]
#[inline(always)]
fn operand<C: Cells>(e: &Expr, c: &C) -> Result<i64, FaultKind>
    requires { IsSound (C.names c.now) (expression_of e.now) }
    ensures { result ≡ value_of (C.readings c.now) (expression_of e.now) }
{
    match e {
        Expr::Num(number) => Ok(*number),
        Expr::Scalar(scalar) => Ok(c.scalar(*scalar)),
        Expr::Elem(r) => element(r, c),
        _ => value(e, c),
    }
}

// The number of an element, by a call like that of `value`.
#[cycle(eval)]
#[inline(always)]
fn element<C: Cells>(r: &Ref, c: &C) -> Result<i64, FaultKind>
    requires { IsSound (C.names c.now) (Element r.now.array (expressions_of r.now.subs) r.now.site) }
    ensures { result ≡ value_of (C.readings c.now) (Element r.now.array (expressions_of r.now.subs) r.now.site) }
{
    let mut fault = FaultKind::Overflow;
    let found = element_apart(r, c, &mut fault);
    found.ok_or(fault)
}

#[cycle(eval)]
#[inline(never)]
fn element_apart<C: Cells>(r: &Ref, c: &C, fault: &mut FaultKind) -> Option<i64>
    requires { IsSound (C.names c.now) (Element r.now.array (expressions_of r.now.subs) r.now.site) }
    ensures { value_of (C.readings c.now) (Element r.now.array (expressions_of r.now.subs) r.now.site) ≡ ok_or result fault.new }
{
    let given = subscripted(r, c);
    note(given, fault)
}

#[cycle(eval)]
#[inline(always)]
fn subscripted<C: Cells>(r: &Ref, c: &C) -> Result<i64, FaultKind>
    requires { IsSound (C.names c.now) (Element r.now.array (expressions_of r.now.subs) r.now.site) }
    ensures { result ≡ value_of (C.readings c.now) (Element r.now.array (expressions_of r.now.subs) r.now.site) }
{
    let subs = pair(&r.subs, c)?;
    c.element(r.array, Some(r.site), subs)
}

// The value of an expression with its sign turned.
#[cycle(eval)]
fn negated<C: Cells>(inner: &Expr, c: &C) -> Result<i64, FaultKind>
    requires { IsSound (C.names c.now) (expression_of inner.now) }
    ensures { result ≡ value_of (C.readings c.now) (Negated (expression_of inner.now)) }
{
    let number = operand(inner, c)?;
    neg(number)
}

// The value of both sides of an operator.
#[cycle(eval)]
#[inline(always)]
fn joined<C: Cells>(op: Op2, left: &Expr, right: &Expr, c: &C) -> Result<i64, FaultKind>
    requires left { IsSound (C.names c.now) (expression_of left.now) }
    requires right { IsSound (C.names c.now) (expression_of right.now) }
    ensures { result ≡ value_of (C.readings c.now) (Joined op (expression_of left.now) (expression_of right.now)) }
{
    let left = operand(left, c)?;
    let right = operand(right, c)?;
    match op {
        Op2::Add => add(left, right),
        Op2::Sub => sub(left, right),
        Op2::Mul => mul(left, right),
        Op2::Div => div(left, right),
    }
}

// The value of a function.
#[cycle(eval)]
fn call<C: Cells>(f: Func, args: &ExprList, c: &C) -> Result<i64, FaultKind>
    requires takes { Takes f (count_of (expressions_of args.now)) }
    requires sound { AreSound (C.names c.now) (expressions_of args.now) }
    ensures { result ≡ and_then (values_of (C.readings c.now) (expressions_of args.now)) (applied f) }
{
    match f {
        Func::Mod => {
            let [first, second] = pair(args, c)?;
            rem(first, second)
        }
        Func::Abs => {
            let [first, _] = pair(args, c)?;
            abs(first)
        }
        Func::Min => match args {
            ExprList::End => Ok(0),
            ExprList::More(first, rest) => {
                let first = operand(first, c)?;
                extreme_from(Extreme::Least, first, rest, c)
            }
        },
        Func::Max => match args {
            ExprList::End => Ok(0),
            ExprList::More(first, rest) => {
                let first = operand(first, c)?;
                extreme_from(Extreme::Greatest, first, rest, c)
            }
        },
    }
}

/// The values of at most two subscripts or arguments, from left to right; one that is missing is 0.
#[cycle(eval)]
#[inline(always)]
pub fn pair<C: Cells>(list: &ExprList, c: &C) -> Result<[i64; 2], FaultKind>
    requires two { count_of (expressions_of list.now) ≤ 2 }
    requires sound { AreSound (C.names c.now) (expressions_of list.now) }
    ensures { result ≡ and_then (values_of (C.readings c.now) (expressions_of list.now)) (λ xs. Ok (pair_of xs)) }
{
    match list {
        ExprList::End => Ok([0, 0]),
        ExprList::More(first, rest) => {
            let first = eval(first, c)?;
            match &**rest {
                ExprList::End => Ok([first, 0]),
                ExprList::More(second, _) => {
                    let second = eval(second, c)?;
                    Ok([first, second])
                }
            }
        }
    }
}

// The least or the greatest of a number and the values of expressions.
#[cycle(eval)]
fn extreme_from<C: Cells>(
    which: Extreme,
    so_far: i64,
    list: &ExprList,
    c: &C,
) -> Result<i64, FaultKind>
    requires { AreSound (C.names c.now) (expressions_of list.now) }
    ensures { result ≡ and_then (values_of (C.readings c.now) (expressions_of list.now)) (λ xs. Ok (fold (extreme_of_two which) so_far xs)) }
{
    match list {
        ExprList::End => Ok(so_far),
        ExprList::More(first, rest) => {
            let first = operand(first, c)?;
            extreme_from(which, which.of_two(so_far, first), rest, c)
        }
    }
}
