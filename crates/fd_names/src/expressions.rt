// Expressions.
ghost use Rattle.std.specs.Prelude.{◌≡◌, ◌++◌, OnOk, IfOk, nat_eq, nat_le};
ghost use Rattle.fd_ast.specs.Tree.{expr_tree, expr_trees};
ghost use Rattle.fd_prog.specs.Expressions.{expression_of, expressions_of};
ghost use Rattle.fd_names.specs.First.{noted};
ghost use Rattle.fd_names.specs.Expressions.{all_causes, all_meant, call_causes, call_meant, causes, count, meant, name_causes, name_meant, op_meant, see, see_all, see_callee, see_name, takes};
ghost use Rattle.fd_names.specs.Names.{callee_of, use_of};

use crate::book::Book;
use crate::names::{Callee, Table, Use};
use crate::refusal::Cause;
use fd_ast::{Op, TExpr, TExprList};
use fd_base::{Line, Memory};
use fd_prog::{Expr, ExprList, Func, Op2, Ref};
use std::alloc::Global;

/// Whether a list has this many expressions.
pub fn has_count(list: &TExprList, wanted: u8) -> bool
    ensures { result ≡ nat_eq (count (expr_trees list.now)) wanted }
{
    match list {
        TExprList::End => wanted == 0,
        TExprList::More(_, rest) => wanted > 0 && has_count(rest, wanted - 1),
    }
}

/// Whether a list has at least this many expressions.
fn has_at_least(list: &TExprList, wanted: u8) -> bool
    ensures { result ≡ nat_le wanted (count (expr_trees list.now)) }
{
    match list {
        TExprList::End => wanted == 0,
        TExprList::More(_, rest) => wanted == 0 || has_at_least(rest, wanted - 1),
    }
}

/// Whether a function takes these arguments.
fn fits(func: Func, args: &TExprList) -> bool
    ensures { result ≡ takes func (count (expr_trees args.now)) }
{
    match func {
        Func::Mod => has_count(args, 2),
        Func::Abs => has_count(args, 1),
        Func::Min => has_at_least(args, 2),
        Func::Max => has_at_least(args, 2),
    }
}

fn op_of(op: Op) -> Op2
    ensures { result ≡ op_meant op }
{
    match op {
        Op::Add => Op2::Add,
        Op::Sub => Op2::Sub,
        Op::Mul => Op2::Mul,
        Op::Div => Op2::Div,
    }
}

impl Book {
    /// A name alone in an expression.
    pub fn name(
        &mut self,
        alloc: Global,
        table: &Table,
        line: Line,
        name: &[u8],
    ) -> Result<Expr, Memory>
        ensures seen { OnOk result (self.new.seen ≡ see_name (use_of table.now line name.now) name.now self.old.seen) }
        ensures worst { OnOk result (self.new.worst ≡ noted line (name_causes (use_of table.now line name.now)) self.old.worst) }
        ensures around { OnOk result (self.new.around ≡ self.old.around) }
        ensures meant { IfOk result (λ e. expression_of e ≡ name_meant (use_of table.now line name.now) name.now self.old.seen) }
    {
        match table.use_of(line, name) {
            Use::Scalar => {
                let number = self.seen.scalars.number(alloc, name)?;
                Ok(Expr::Scalar(number))
            }
            Use::Constant(value) => Ok(Expr::Num(value)),
            Use::Array(_, _) => {
                self.note(line, Cause::WrongShape);
                Ok(Expr::Scalar(0))
            }
            Use::Decomp(_, _) => {
                self.note(line, Cause::WrongShape);
                Ok(Expr::Scalar(0))
            }
            Use::Unknown => {
                self.note(line, Cause::NotDeclared);
                Ok(Expr::Scalar(0))
            }
        }
    }

    #[cycle(expressions)]
    #[tactic(auto, using(crate::proofs::Noted::noting))]
    pub fn expr(
        &mut self,
        alloc: Global,
        table: &Table,
        line: Line,
        e: &TExpr,
    ) -> Result<Expr, Memory>
        ensures seen { OnOk result (self.new.seen ≡ see table.now line (expr_tree e.now) self.old.seen) }
        ensures worst { OnOk result (self.new.worst ≡ noted line (causes table.now line (expr_tree e.now)) self.old.worst) }
        ensures around { OnOk result (self.new.around ≡ self.old.around) }
        ensures meant { IfOk result (λ x. expression_of x ≡ meant table.now line (expr_tree e.now) self.old.seen) }
    {
        match e {
            TExpr::Num(value) => Ok(Expr::Num(*value)),
            TExpr::Name(name) => {
                let made = self.name(alloc, table, line, name.as_slice())?;
                Ok(made)
            }
            TExpr::Call(name, args) => {
                let made = self.call(alloc, table, line, name.as_slice(), args)?;
                Ok(made)
            }
            TExpr::Neg(inner) => {
                let inner = self.expr(alloc, table, line, inner)?;
                Ok(Expr::Neg(Box::new(alloc, inner)?))
            }
            TExpr::Bin(op, left, right) => {
                let left = self.expr(alloc, table, line, left)?;
                let right = self.expr(alloc, table, line, right)?;
                Ok(Expr::Bin(op_of(*op), Box::new(alloc, left)?, Box::new(alloc, right)?))
            }
        }
    }

    #[cycle(expressions)]
    #[tactic(auto, using(crate::proofs::Noted::noting))]
    pub fn exprs(
        &mut self,
        alloc: Global,
        table: &Table,
        line: Line,
        list: &TExprList,
    ) -> Result<ExprList, Memory>
        ensures seen { OnOk result (self.new.seen ≡ see_all table.now line (expr_trees list.now) self.old.seen) }
        ensures worst { OnOk result (self.new.worst ≡ noted line (all_causes table.now line (expr_trees list.now)) self.old.worst) }
        ensures around { OnOk result (self.new.around ≡ self.old.around) }
        ensures meant { IfOk result (λ x. expressions_of x ≡ all_meant table.now line (expr_trees list.now) self.old.seen) }
    {
        match list {
            TExprList::End => Ok(ExprList::End),
            TExprList::More(first, rest) => {
                let first = self.expr(alloc, table, line, first)?;
                let rest = self.exprs(alloc, table, line, rest)?;
                Ok(ExprList::More(Box::new(alloc, first)?, Box::new(alloc, rest)?))
            }
        }
    }

    /// A name with parentheses in an expression.
    #[cycle(expressions)]
    #[tactic(auto, using(crate::proofs::Noted::noting))]
    pub fn call(
        &mut self,
        alloc: Global,
        table: &Table,
        line: Line,
        name: &[u8],
        args: &TExprList,
    ) -> Result<Expr, Memory>
        ensures seen { OnOk result (self.new.seen ≡ see_all table.now line (expr_trees args.now) (see_callee (callee_of table.now line name.now) self.old.seen)) }
        ensures worst { OnOk result (self.new.worst ≡ noted line (all_causes table.now line (expr_trees args.now)) (noted line (call_causes (callee_of table.now line name.now) (count (expr_trees args.now))) self.old.worst)) }
        ensures around { OnOk result (self.new.around ≡ self.old.around) }
        ensures meant { IfOk result (λ x. expression_of x ≡ call_meant (callee_of table.now line name.now) (all_meant table.now line (expr_trees args.now) (see_callee (callee_of table.now line name.now) self.old.seen)) self.old.seen) }
    {
        match table.callee_of(line, name) {
            Callee::Array(array, dims) => {
                self.note_if(!has_count(args, dims), line, Cause::WrongShape);
                let site = self.site()?;
                let subs = self.exprs(alloc, table, line, args)?;
                Ok(Expr::Elem(Ref { array, subs, site }))
            }
            Callee::Function(func) => {
                self.note_if(!fits(func, args), line, Cause::WrongShape);
                let args = self.exprs(alloc, table, line, args)?;
                Ok(Expr::Call(func, args))
            }
            Callee::Unknown => {
                self.note(line, Cause::NotDeclared);
                self.exprs(alloc, table, line, args)?;
                Ok(Expr::Scalar(0))
            }
        }
    }
}
