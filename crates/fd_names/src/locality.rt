// The rules on subscripts of distributed references.
ghost use Rattle.std.specs.Prelude.{◌≡◌, ◌≢◌, ◌++◌, OnOk, [], get_or, false, map};
ghost use Rattle.fd_prog.specs.Conditions.{condition_of};
ghost use Rattle.fd_prog.specs.Expressions.{expression_of, expressions_of};
ghost use Rattle.fd_prog.specs.FormOf.{form_of_expression};
ghost use Rattle.fd_prog.specs.Statements.{print_item_of, statement_of, statements_of, target_of};
ghost use Rattle.fd_names.specs.First.{met, noted};
ghost use Rattle.fd_names.specs.Locality.{all_index_causes, all_index_refusals, form_causes, index_causes, index_in_condition, index_in_item, index_in_items, index_in_target, index_refusals, is_dealt, mention, mentions, reference_causes, subscript_causes};

use crate::book::Book;
use crate::refusal::Cause;
use fd_base::{Limit, Line, Memory};
use fd_prog::{Cond, Expr, ExprList, FormRefusal, Part, Ref2, Stmt, StmtList, form_of};
use std::alloc::Global;

/// Whether an array is distributed.
fn is_dealt(dealt: &[bool], array: u16) -> bool
    ensures { result ≡ is_dealt dealt.now array }
{
    dealt.get(usize::from(array)).copied().unwrap_or(false)
}

/// Whether a distributed array stands somewhere in an expression.
#[cycle(mentions)]
fn mentions(dealt: &[bool], e: &Expr) -> bool
    ensures { result ≡ mentions dealt.now (expression_of e.now) }
{
    match e {
        Expr::Num(_) => false,
        Expr::Scalar(_) => false,
        Expr::Elem(reference) => is_dealt(dealt, reference.array)
            || mention(dealt, &reference.subs),
        Expr::Neg(inner) => mentions(dealt, inner),
        Expr::Bin(_, left, right) => mentions(dealt, left) || mentions(dealt, right),
        Expr::Call(_, args) => mention(dealt, args),
    }
}

#[cycle(mentions)]
fn mention(dealt: &[bool], list: &ExprList) -> bool
    ensures { result ≡ mention dealt.now (expressions_of list.now) }
{
    match list {
        ExprList::End => false,
        ExprList::More(first, rest) => mentions(dealt, first) || mention(dealt, rest),
    }
}

impl Book {
    /// The form of a subscript, where it passes no limit.
    fn form(&mut self, alloc: Global, line: Line, e: &Expr) -> Result<(), Memory>
        ensures { OnOk result (self.new ≡ record self.old { worst = noted line (form_causes (form_of_expression [] (expression_of e.now))) self.old.worst }) }
    {
        match form_of(alloc, e, &[]) {
            Ok(_) => Ok(()),
            Err(FormRefusal::Terms) => {
                self.note(line, Cause::TooMany(Limit::Terms));
                Ok(())
            }
            Err(FormRefusal::Coefficient) => {
                self.note(line, Cause::TooMany(Limit::Coefficient));
                Ok(())
            }
            Err(FormRefusal::Memory) => Err(Memory),
        }
    }

    /// The subscripts of a distributed reference.
    #[tactic(auto, using(crate::proofs::Noted::noting))]
    fn subscripts(
        &mut self,
        alloc: Global,
        line: Line,
        dealt: &[bool],
        subs: &ExprList,
    ) -> Result<(), Memory>
        ensures { OnOk result (self.new ≡ record self.old { worst = noted line (subscript_causes dealt.now (expressions_of subs.now)) self.old.worst }) }
    {
        match subs {
            ExprList::End => Ok(()),
            ExprList::More(first, rest) => {
                self.note_if(mentions(dealt, first), line, Cause::IndexNotLocal);
                self.form(alloc, line, first)?;
                self.subscripts(alloc, line, dealt, rest)
            }
        }
    }

    /// The subscripts of a reference.
    #[tactic(auto, using(crate::proofs::Noted::noting))]
    fn reference(
        &mut self,
        alloc: Global,
        line: Line,
        dealt: &[bool],
        array: u16,
        subs: &ExprList,
    ) -> Result<(), Memory>
        ensures { OnOk result (self.new ≡ record self.old { worst = noted line (reference_causes (is_dealt dealt.now array) dealt.now (expressions_of subs.now)) self.old.worst }) }
    {
        if is_dealt(dealt, array) {
            self.subscripts(alloc, line, dealt, subs)?;
        }
        Ok(())
    }

    /// The distributed references of an expression.
    #[cycle(indexes)]
    #[tactic(auto, using(crate::proofs::Noted::noting))]
    fn index(&mut self, alloc: Global, line: Line, dealt: &[bool], e: &Expr) -> Result<(), Memory>
        ensures { OnOk result (self.new ≡ record self.old { worst = noted line (index_causes dealt.now (expression_of e.now)) self.old.worst }) }
    {
        match e {
            Expr::Num(_) => Ok(()),
            Expr::Scalar(_) => Ok(()),
            Expr::Elem(reference) => {
                self.reference(alloc, line, dealt, reference.array, &reference.subs)?;
                self.indexes(alloc, line, dealt, &reference.subs)
            }
            Expr::Neg(inner) => self.index(alloc, line, dealt, inner),
            Expr::Bin(_, left, right) => {
                self.index(alloc, line, dealt, left)?;
                self.index(alloc, line, dealt, right)
            }
            Expr::Call(_, args) => self.indexes(alloc, line, dealt, args),
        }
    }

    #[cycle(indexes)]
    #[tactic(auto, using(crate::proofs::Noted::noting))]
    fn indexes(
        &mut self,
        alloc: Global,
        line: Line,
        dealt: &[bool],
        list: &ExprList,
    ) -> Result<(), Memory>
        ensures { OnOk result (self.new ≡ record self.old { worst = noted line (all_index_causes dealt.now (expressions_of list.now)) self.old.worst }) }
    {
        match list {
            ExprList::End => Ok(()),
            ExprList::More(first, rest) => {
                self.index(alloc, line, dealt, first)?;
                self.indexes(alloc, line, dealt, rest)
            }
        }
    }

    #[tactic(auto, using(crate::proofs::Noted::noting))]
    fn index_condition(
        &mut self,
        alloc: Global,
        line: Line,
        dealt: &[bool],
        c: &Cond,
    ) -> Result<(), Memory>
        ensures { OnOk result (self.new ≡ record self.old { worst = noted line (index_in_condition dealt.now (condition_of c.now)) self.old.worst }) }
    {
        match c {
            Cond::Fixed(_) => Ok(()),
            Cond::Cmp(_, left, right) => {
                self.index(alloc, line, dealt, left)?;
                self.index(alloc, line, dealt, right)
            }
            Cond::Not(inner) => self.index_condition(alloc, line, dealt, inner),
            Cond::Both(left, right) => {
                self.index_condition(alloc, line, dealt, left)?;
                self.index_condition(alloc, line, dealt, right)
            }
            Cond::Either(left, right) => {
                self.index_condition(alloc, line, dealt, left)?;
                self.index_condition(alloc, line, dealt, right)
            }
        }
    }

    #[tactic(auto, using(crate::proofs::Noted::noting))]
    fn index_target(
        &mut self,
        alloc: Global,
        line: Line,
        dealt: &[bool],
        target: &Ref2,
    ) -> Result<(), Memory>
        ensures { OnOk result (self.new ≡ record self.old { worst = noted line (index_in_target dealt.now (target_of target.now)) self.old.worst }) }
    {
        match target {
            Ref2::Scalar(_) => Ok(()),
            Ref2::Elem(set) => {
                self.reference(alloc, line, dealt, set.array, &set.subs)?;
                self.indexes(alloc, line, dealt, &set.subs)
            }
        }
    }

    /// An item of a PRINT.
    fn index_item(
        &mut self,
        alloc: Global,
        line: Line,
        dealt: &[bool],
        item: &Part,
    ) -> Result<(), Memory>
        ensures { OnOk result (self.new ≡ record self.old { worst = noted line (index_in_item dealt.now (print_item_of item.now)) self.old.worst }) }
    {
        match item {
            Part::Words(_) => Ok(()),
            Part::Value(value) => self.index(alloc, line, dealt, value),
        }
    }

    /// What a PRINT prints.
    #[tactic(auto, using(crate::proofs::Noted::noting))]
    fn index_items(
        &mut self,
        alloc: Global,
        line: Line,
        dealt: &[bool],
        items: &[Part],
    ) -> Result<(), Memory>
        ensures { OnOk result (self.new ≡ record self.old { worst = noted line (index_in_items dealt.now (map print_item_of items.now)) self.old.worst }) }
    {
        for item in items {
            self.index_item(alloc, line, dealt, item)?;
        }
        Ok(())
    }

    /// The distributed references of a statement, and of all that stands in it.
    #[cycle(index_statements)]
    #[tactic(auto, using(crate::proofs::Noted::noting))]
    fn index_stmt(&mut self, alloc: Global, dealt: &[bool], stmt: &Stmt) -> Result<(), Memory>
        ensures { OnOk result (self.new ≡ record self.old { worst = met (index_refusals dealt.now (statement_of stmt.now)) self.old.worst }) }
    {
        match stmt {
            Stmt::Assign(line, target, value) => {
                self.index_target(alloc, *line, dealt, target)?;
                self.index(alloc, *line, dealt, value)
            }
            Stmt::If(line, test, so, otherwise) => {
                self.index_condition(alloc, *line, dealt, test)?;
                self.index_stmts(alloc, dealt, so)?;
                self.index_stmts(alloc, dealt, otherwise)
            }
            Stmt::Do(line, _, first, last, by, body) => {
                self.index(alloc, *line, dealt, first)?;
                self.index(alloc, *line, dealt, last)?;
                self.index(alloc, *line, dealt, by)?;
                self.index_stmts(alloc, dealt, body)
            }
            Stmt::While(line, test, body) => {
                self.index_condition(alloc, *line, dealt, test)?;
                self.index_stmts(alloc, dealt, body)
            }
            Stmt::Read(line, target) => self.index_target(alloc, *line, dealt, target),
            Stmt::Print(line, items) => self.index_items(alloc, *line, dealt, items.as_slice()),
            Stmt::Skip(_) => Ok(()),
            Stmt::Remap(_, _, _) => Ok(()),
        }
    }

    // By a loop, since a program may have many statements, and each call takes room on the stack.
    #[cycle(index_statements)]
    #[tactic(auto, using(crate::proofs::Noted::noting))]
    pub fn index_stmts(
        &mut self,
        alloc: Global,
        dealt: &[bool],
        list: &StmtList,
    ) -> Result<(), Memory>
        ensures { OnOk result (self.new ≡ record self.old { worst = met (all_index_refusals dealt.now (statements_of list.now)) self.old.worst }) }
    {
        let mut left = list;
        while let StmtList::More(first, rest) = left {
            self.index_stmt(alloc, dealt, first)?;
            left = rest;
        }
        Ok(())
    }
}
