// Makes a program ready to be run.
ghost use Rattle.std.specs.Prelude.{◌≡◌, IfOk, IfSome, map};
ghost use Rattle.fd_prog.specs.Conditions.{condition_of};
ghost use Rattle.fd_prog.specs.declared.expression.Func.TheVariants.{Mod};
ghost use Rattle.fd_prog.specs.Expressions.{expression_of, Joined, Element, Applied, More, End, expressions_of};
ghost use Rattle.fd_prog.specs.Statements.{Empty, statement_of, statements_of, target_of};
ghost use Rattle.seq_meaning.specs.Ready.{ready_expression, ready_leaf, ready_shifted, ready_condition, ready_target, ready_statement, ready_statements, in_front, IsFew};

use crate::ready::{
    Leaf, Leaves, ReadyCond, ReadyExpr, ReadyFew, ReadyList, ReadyStmt, ReadyTarget, Shifted,
    ShiftedPair, Written,
};
use fd_base::Memory;
use fd_prog::{Cond, Expr, ExprList, Func, Op2, Ref2, Stmt, StmtList};
use std::alloc::Global;

// Makes an expression ready.
#[cycle(ready_expr)]
fn ready_expr<'a>(alloc: Global, e: &'a Expr) -> Result<ReadyExpr<'a>, Memory>
    ensures { IfOk result (λ made. ready_expression made ≡ expression_of e.now) }
{
    match e {
        Expr::Num(number) => Ok(ReadyExpr::Num(*number)),
        Expr::Scalar(scalar) => Ok(ReadyExpr::Scalar(*scalar)),
        Expr::Elem(r) => match ready_few(alloc, &r.subs)? {
            ReadyFew::One(first) => in_row(alloc, r.array, first, r.site),
            ReadyFew::Two(first, second) => in_grid(alloc, r.array, first, second, r.site),
            ReadyFew::Others => Ok(ReadyExpr::AsIs(e)),
        },
        Expr::Bin(op, left, right) => {
            let left = ready_expr(alloc, left)?;
            let right = ready_expr(alloc, right)?;
            joined(alloc, *op, left, right)
        }
        Expr::Call(Func::Mod, args) => match ready_few(alloc, args)? {
            ReadyFew::Two(first, second) => remainder(alloc, first, second),
            _ => Ok(ReadyExpr::AsIs(e)),
        },
        _ => Ok(ReadyExpr::AsIs(e)),
    }
}

// Makes one or two expressions ready.
#[cycle(ready_expr)]
fn ready_few<'a>(alloc: Global, list: &'a ExprList) -> Result<ReadyFew<'a>, Memory>
    ensures { IfOk result (λ made. IsFew made (expressions_of list.now)) }
{
    let ExprList::More(first, rest) = list else {
        return Ok(ReadyFew::Others);
    };
    match &**rest {
        ExprList::End => Ok(ReadyFew::One(ready_expr(alloc, first)?)),
        ExprList::More(second, rest) => match &**rest {
            ExprList::End => {
                let first = ready_expr(alloc, first)?;
                let second = ready_expr(alloc, second)?;
                Ok(ReadyFew::Two(first, second))
            }
            _ => Ok(ReadyFew::Others),
        },
    }
}

// An element by one subscript.
fn in_row<'a>(
    alloc: Global,
    array: u16,
    first: ReadyExpr<'a>,
    site: u32,
) -> Result<ReadyExpr<'a>, Memory>
    ensures { IfOk result (λ made. ready_expression made ≡ Element array (More (ready_expression first.entry) End) site) }
{
    match shifted(&first) {
        Some(first) => Ok(ReadyExpr::ShiftedRow(array, first, site)),
        None => Ok(ReadyExpr::Row(array, Box::new(alloc, first)?, site)),
    }
}

// An element by two subscripts.
fn in_grid<'a>(
    alloc: Global,
    array: u16,
    first: ReadyExpr<'a>,
    second: ReadyExpr<'a>,
    site: u32,
) -> Result<ReadyExpr<'a>, Memory>
    ensures { IfOk result (λ made. ready_expression made ≡ Element array (More (ready_expression first.entry) (More (ready_expression second.entry) End)) site) }
{
    match shifted_pair(&first, &second) {
        Some(both) => Ok(ReadyExpr::ShiftedGrid(array, Box::new(alloc, both)?, site)),
        None => Ok(ReadyExpr::Grid(
            array,
            Box::new(alloc, first)?,
            Box::new(alloc, second)?,
            site,
        )),
    }
}

// The shifted scalar that the expression is, where it is one.
fn shifted(e: &ReadyExpr) -> Option<Shifted>
    ensures { IfSome result (λ n. ready_shifted n ≡ ready_expression e.now) }
{
    match e {
        ReadyExpr::Scalar(scalar) => Some(Shifted {
            scalar: *scalar,
            shift: 0,
            written: Written::Alone,
        }),
        ReadyExpr::Above(scalar, more) => Some(Shifted {
            scalar: *scalar,
            shift: *more,
            written: Written::Added,
        }),
        ReadyExpr::Below(scalar, less) => {
            let shift = less.checked_neg()?;
            Some(Shifted {
                scalar: *scalar,
                shift,
                written: Written::Taken,
            })
        }
        _ => None,
    }
}

// Both shifted scalars, where both expressions are such.
fn shifted_pair(first: &ReadyExpr, second: &ReadyExpr) -> Option<ShiftedPair>
    ensures first { IfSome result (λ both. ready_shifted both.first ≡ ready_expression first.now) }
    ensures second { IfSome result (λ both. ready_shifted both.second ≡ ready_expression second.now) }
{
    let first = shifted(first)?;
    let second = shifted(second)?;
    Some(ShiftedPair { first, second })
}

// The leaf that the expression is, where it is one.
fn leaf(e: &ReadyExpr) -> Option<Leaf>
    ensures { IfSome result (λ made. ready_leaf made ≡ ready_expression e.now) }
{
    match e {
        ReadyExpr::Num(number) => Some(Leaf::Num(*number)),
        ReadyExpr::Scalar(scalar) => Some(Leaf::Scalar(*scalar)),
        ReadyExpr::ShiftedRow(array, first, site) => Some(Leaf::ShiftedRow(*array, *first, *site)),
        ReadyExpr::ShiftedGrid(array, both, site) => Some(Leaf::ShiftedGrid(*array, **both, *site)),
        _ => None,
    }
}

// Both leaves, where both expressions are such.
fn leaves(left: &ReadyExpr, right: &ReadyExpr) -> Option<Leaves>
    ensures left { IfSome result (λ both. ready_leaf both.left ≡ ready_expression left.now) }
    ensures right { IfSome result (λ both. ready_leaf both.right ≡ ready_expression right.now) }
{
    let left = leaf(left)?;
    let right = leaf(right)?;
    Some(Leaves { left, right })
}

// Both sides of an operator.
fn joined<'a>(
    alloc: Global,
    op: Op2,
    left: ReadyExpr<'a>,
    right: ReadyExpr<'a>,
) -> Result<ReadyExpr<'a>, Memory>
    ensures { IfOk result (λ made. ready_expression made ≡ Joined op (ready_expression left.entry) (ready_expression right.entry)) }
{
    match (op, &left, &right) {
        (Op2::Add, ReadyExpr::Scalar(scalar), ReadyExpr::Num(number)) => {
            Ok(ReadyExpr::Above(*scalar, *number))
        }
        (Op2::Sub, ReadyExpr::Scalar(scalar), ReadyExpr::Num(number)) => {
            Ok(ReadyExpr::Below(*scalar, *number))
        }
        (Op2::Div, ReadyExpr::Scalar(scalar), ReadyExpr::Num(2)) => Ok(ReadyExpr::Half(*scalar)),
        (Op2::Div, ReadyExpr::Scalar(scalar), ReadyExpr::Num(number)) => {
            Ok(ReadyExpr::Quotient(*scalar, *number))
        }
        _ => match leaves(&left, &right) {
            Some(both) => Ok(ReadyExpr::BinLeaves(op, Box::new(alloc, both)?)),
            None => Ok(ReadyExpr::Bin(op, Box::new(alloc, left)?, Box::new(alloc, right)?)),
        },
    }
}

// MOD of both arguments.
fn remainder<'a>(
    alloc: Global,
    first: ReadyExpr<'a>,
    second: ReadyExpr<'a>,
) -> Result<ReadyExpr<'a>, Memory>
    ensures { IfOk result (λ made. ready_expression made ≡ Applied Mod (More (ready_expression first.entry) (More (ready_expression second.entry) End))) }
{
    match (&first, &second) {
        (ReadyExpr::Scalar(scalar), ReadyExpr::Num(2)) => Ok(ReadyExpr::ModTwo(*scalar)),
        (ReadyExpr::Scalar(scalar), ReadyExpr::Num(number)) => {
            Ok(ReadyExpr::Remainder(*scalar, *number))
        }
        _ => Ok(ReadyExpr::Mod(Box::new(alloc, first)?, Box::new(alloc, second)?)),
    }
}

// Makes the right side of an assignment ready where a loop repeats it.
fn ready_side<'a>(alloc: Global, e: &'a Expr, repeated: bool) -> Result<ReadyExpr<'a>, Memory>
    ensures { IfOk result (λ made. ready_expression made ≡ expression_of e.now) }
{
    if repeated {
        ready_expr(alloc, e)
    } else {
        Ok(ReadyExpr::AsIs(e))
    }
}

// Makes a condition ready where a loop repeats it.
fn ready_cond<'a>(alloc: Global, c: &'a Cond, repeated: bool) -> Result<ReadyCond<'a>, Memory>
    ensures { IfOk result (λ made. ready_condition made ≡ condition_of c.now) }
{
    if !repeated {
        return Ok(ReadyCond::AsIs(c));
    }
    match c {
        Cond::Cmp(rel, left, right) => {
            let left = ready_expr(alloc, left)?;
            Ok(match ready_expr(alloc, right)? {
                ReadyExpr::Num(number) => ReadyCond::Against(*rel, left, number),
                right => ReadyCond::Cmp(*rel, left, right),
            })
        }
        _ => Ok(ReadyCond::AsIs(c)),
    }
}

// Makes a target ready where a loop repeats it.
fn ready_ref<'a>(alloc: Global, target: &'a Ref2, repeated: bool) -> Result<ReadyTarget<'a>, Memory>
    ensures { IfOk result (λ made. ready_target made ≡ target_of target.now) }
{
    if !repeated {
        return Ok(ReadyTarget::AsIs(target));
    }
    match target {
        Ref2::Scalar(scalar) => Ok(ReadyTarget::Scalar(*scalar)),
        Ref2::Elem(r) => match ready_few(alloc, &r.subs)? {
            ReadyFew::One(first) => Ok(match shifted(&first) {
                Some(first) => ReadyTarget::ShiftedRow(r.array, first, r.site),
                None => ReadyTarget::Row(r.array, first, r.site),
            }),
            ReadyFew::Two(first, second) => Ok(match shifted_pair(&first, &second) {
                Some(both) => ReadyTarget::ShiftedGrid(r.array, both, r.site),
                None => ReadyTarget::Grid(r.array, first, second, r.site),
            }),
            ReadyFew::Others => Ok(ReadyTarget::AsIs(target)),
        },
    }
}

// A list of statements from a vector of them.
fn chain<'a>(alloc: Global, mut items: Vec<ReadyStmt<'a>>) -> Result<ReadyList<'a>, Memory>
    ensures { IfOk result (λ list. ready_statements list ≡ in_front (map ready_statement items.entry.items) Empty) }
{
    let mut list = ReadyList::End;
    while let Some(last) = items.pop() {
        list = ReadyList::More(Box::new(alloc, last)?, Box::new(alloc, list)?);
    }
    Ok(list)
}

/// Makes statements ready. What no loop repeats stays as it stands in the program, since it is valued once.
// One after the other, since a program has thousands of statements, and each call takes room on the stack.
#[cycle(ready_list)]
pub fn ready_list<'a>(
    alloc: Global,
    list: &'a StmtList,
    repeated: bool,
) -> Result<ReadyList<'a>, Memory>
    ensures { IfOk result (λ made. ready_statements made ≡ statements_of list.now) }
{
    let mut made = Vec::new(alloc);
    let mut rest = list;
    while let StmtList::More(first, more) = rest {
        let one = ready_stmt(alloc, first, repeated)?;
        made.push(one)?;
        rest = more;
    }
    chain(alloc, made)
}

// Makes a statement ready.
#[cycle(ready_list)]
fn ready_stmt<'a>(alloc: Global, s: &'a Stmt, repeated: bool) -> Result<ReadyStmt<'a>, Memory>
    ensures { IfOk result (λ made. ready_statement made ≡ statement_of s.now) }
{
    match s {
        Stmt::Assign(line, target, e) => {
            let target = ready_ref(alloc, target, repeated)?;
            let e = ready_side(alloc, e, repeated)?;
            Ok(ReadyStmt::Assign(*line, target, e))
        }
        Stmt::If(line, c, so, otherwise) => {
            let c = ready_cond(alloc, c, repeated)?;
            let so = ready_list(alloc, so, repeated)?;
            let otherwise = ready_list(alloc, otherwise, repeated)?;
            Ok(ReadyStmt::If(*line, c, so, otherwise))
        }
        Stmt::Do(line, var, first, last, by, body) => {
            let body = ready_list(alloc, body, true)?;
            Ok(ReadyStmt::Do(*line, *var, first, last, by, body))
        }
        Stmt::While(line, c, body) => {
            let c = ready_cond(alloc, c, true)?;
            let body = ready_list(alloc, body, true)?;
            Ok(ReadyStmt::While(*line, c, body))
        }
        Stmt::Read(line, target) => {
            let target = ready_ref(alloc, target, repeated)?;
            Ok(ReadyStmt::Read(*line, target))
        }
        Stmt::Print(line, parts) => Ok(ReadyStmt::Print(*line, parts)),
        Stmt::Skip(line) => Ok(ReadyStmt::Skip(*line)),
        Stmt::Remap(line, decomp, given) => Ok(ReadyStmt::Remap(*line, *decomp, *given)),
    }
}
