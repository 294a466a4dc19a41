// Statements.
ghost use Rattle.std.specs.Prelude.{◌+◌, ◌≡◌, [], ◌++◌, ◌∷◌, OnOk, IfOk, nat_lt, length, map};
ghost use Rattle.fd_ast.specs.Tree.{AssignStmt, DoStmt, PrintStmt, ReadStmt, expr_tree, expr_trees, item_tree, stmt_tree, stmt_trees};
ghost use Rattle.fd_prog.specs.Statements.{Empty, print_item_of, statement_of, statements_of, target_of};
ghost use Rattle.fd_names.specs.First.{met, noted};
ghost use Rattle.fd_names.specs.Expressions.{all_causes, all_meant, see_all, see_name};
ghost use Rattle.fd_names.specs.Names.{has_name, use_of};
ghost use Rattle.fd_names.specs.Statements.{all_refusals, begun, element_causes, element_meant, in_front, item_causes, item_meant, items_causes, items_meant, most_names, name_limit, refusals, scalar_meant, see_element, see_item, see_items, see_stmt, see_stmts, see_target, set_causes, statement_limit, stmt_meant, stmts_meant, target_causes, target_meant};

use crate::book::Book;
use crate::expressions::has_count;
use crate::names::{Table, Use};
use crate::refusal::Cause;
use fd_ast::{TExpr, TExprList, TItem, TStmt, TStmtList};
use fd_base::{Bytes, Limit, Line, Memory};
use fd_prog::{Part, PartList, Ref, Ref2, Stmt, StmtList};
use std::alloc::Global;

const MOST_STATEMENTS: u32 = 4096;

const MOST_NAMES: usize = 16384;

/// A list of statements from a vector of them.
fn chain(alloc: Global, mut items: Vec<Stmt>) -> Result<StmtList, Memory>
    ensures { IfOk result (λ list. statements_of list ≡ in_front (map statement_of items.items) Empty) }
{
    let mut list = StmtList::End;
    while let Some(last) = items.pop() {
        list = StmtList::More(Box::new(alloc, last)?, Box::new(alloc, list)?);
    }
    Ok(list)
}

impl Book {
    /// Whether a loop around has this variable.
    fn is_around(&self, name: &[u8]) -> bool
        ensures { result ≡ has_name self.now.around name.now }
    {
        self.around.has(name)
    }

    fn has_many_names(&self) -> bool
        ensures { result ≡ nat_lt most_names (length self.now.seen.scalars + self.now.seen.decomps) }
    {
        MOST_NAMES
            < self
                .seen
                .scalars
                .len()
                .saturating_add(self.seen.decomps as usize)
    }

    /// One more statement, on this line. More statements than numbers are as good as want of memory.
    #[tactic(auto, using(crate::proofs::Noted::noting))]
    fn begin(&mut self, line: Line) -> Result<(), Memory>
        ensures seen { OnOk result (self.new.seen ≡ begun self.old.seen) }
        ensures worst { OnOk result (self.new.worst ≡ noted line (statement_limit self.old.seen) self.old.worst) }
        ensures around { OnOk result (self.new.around ≡ self.old.around) }
    {
        let wrong = MOST_STATEMENTS <= self.seen.statements;
        self.note_if(wrong, line, Cause::TooMany(Limit::Statements));
        self.seen.statements = self.seen.statements.checked_add(1).ok_or(Memory)?;
        Ok(())
    }

    /// The end of a line that may have named scalars.
    pub fn count_names(&mut self, line: Line)
        ensures { self.new ≡ record self.old { worst = noted line (name_limit self.old.seen) self.old.worst } }
    {
        let wrong = self.has_many_names();
        self.note_if(wrong, line, Cause::TooMany(Limit::Names));
    }

    /// A scalar that is set.
    fn set_name(
        &mut self,
        alloc: Global,
        table: &Table,
        line: Line,
        name: &[u8],
    ) -> Result<u16, Memory>
        ensures seen { OnOk result (self.new.seen ≡ see_name (use_of table.now line name.now) name.now self.old.seen) }
        ensures worst { OnOk result (self.new.worst ≡ noted line (set_causes (use_of table.now line name.now) (has_name self.old.around name.now)) self.old.worst) }
        ensures around { OnOk result (self.new.around ≡ self.old.around) }
        ensures meant { IfOk result (λ k. k ≡ scalar_meant (use_of table.now line name.now) name.now self.old.seen) }
    {
        match table.use_of(line, name) {
            Use::Scalar => {
                let wrong = self.is_around(name);
                self.note_if(wrong, line, Cause::DoVarAssigned);
                let number = self.seen.scalars.number(alloc, name)?;
                Ok(number)
            }
            Use::Constant(_) => {
                self.note(line, Cause::WrongShape);
                Ok(0)
            }
            Use::Array(_, _) => {
                self.note(line, Cause::WrongShape);
                Ok(0)
            }
            Use::Decomp(_, _) => {
                self.note(line, Cause::WrongShape);
                Ok(0)
            }
            Use::Unknown => {
                self.note(line, Cause::NotDeclared);
                Ok(0)
            }
        }
    }

    /// An element that is set.
    #[tactic(auto, using(crate::proofs::Noted::noting))]
    fn set_element(
        &mut self,
        alloc: Global,
        table: &Table,
        line: Line,
        name: &[u8],
        subs: &TExprList,
    ) -> Result<Ref2, Memory>
        ensures seen { OnOk result (self.new.seen ≡ see_all table.now line (expr_trees subs.now) (see_element (use_of table.now line name.now) self.old.seen)) }
        ensures worst { OnOk result (self.new.worst ≡ noted line (element_causes (use_of table.now line name.now) (expr_trees subs.now) ++ all_causes table.now line (expr_trees subs.now)) self.old.worst) }
        ensures around { OnOk result (self.new.around ≡ self.old.around) }
        ensures meant { IfOk result (λ t. target_of t ≡ element_meant (use_of table.now line name.now) (all_meant table.now line (expr_trees subs.now) (see_element (use_of table.now line name.now) self.old.seen)) self.old.seen) }
    {
        match table.use_of(line, name) {
            Use::Array(array, dims) => {
                self.note_if(!has_count(subs, dims), line, Cause::WrongShape);
                let site = self.site()?;
                let subs = self.exprs(alloc, table, line, subs)?;
                Ok(Ref2::Elem(Ref { array, subs, site }))
            }
            Use::Scalar => {
                self.note(line, Cause::WrongShape);
                self.exprs(alloc, table, line, subs)?;
                Ok(Ref2::Scalar(0))
            }
            Use::Constant(_) => {
                self.note(line, Cause::WrongShape);
                self.exprs(alloc, table, line, subs)?;
                Ok(Ref2::Scalar(0))
            }
            Use::Decomp(_, _) => {
                self.note(line, Cause::WrongShape);
                self.exprs(alloc, table, line, subs)?;
                Ok(Ref2::Scalar(0))
            }
            Use::Unknown => {
                self.note(line, Cause::NotDeclared);
                self.exprs(alloc, table, line, subs)?;
                Ok(Ref2::Scalar(0))
            }
        }
    }

    fn target(
        &mut self,
        alloc: Global,
        table: &Table,
        line: Line,
        target: &TExpr,
    ) -> Result<Ref2, Memory>
        ensures seen { OnOk result (self.new.seen ≡ see_target table.now line (expr_tree target.now) self.old.seen) }
        ensures worst { OnOk result (self.new.worst ≡ noted line (target_causes table.now self.old.around line (expr_tree target.now)) self.old.worst) }
        ensures around { OnOk result (self.new.around ≡ self.old.around) }
        ensures meant { IfOk result (λ t. target_of t ≡ target_meant table.now line (expr_tree target.now) self.old.seen) }
    {
        match target {
            TExpr::Name(name) => {
                let number = self.set_name(alloc, table, line, name.as_slice())?;
                Ok(Ref2::Scalar(number))
            }
            TExpr::Call(name, subs) => {
                let made = self.set_element(alloc, table, line, name.as_slice(), subs)?;
                Ok(made)
            }
            TExpr::Num(_) => {
                self.note(line, Cause::WrongShape);
                Ok(Ref2::Scalar(0))
            }
            TExpr::Neg(_) => {
                self.note(line, Cause::WrongShape);
                Ok(Ref2::Scalar(0))
            }
            TExpr::Bin(_, _, _) => {
                self.note(line, Cause::WrongShape);
                Ok(Ref2::Scalar(0))
            }
        }
    }

    /// An item of a PRINT.
    fn item(
        &mut self,
        alloc: Global,
        table: &Table,
        line: Line,
        item: &TItem,
    ) -> Result<Part, Memory>
        ensures seen { OnOk result (self.new.seen ≡ see_item table.now line (item_tree item.now) self.old.seen) }
        ensures worst { OnOk result (self.new.worst ≡ noted line (item_causes table.now line (item_tree item.now)) self.old.worst) }
        ensures around { OnOk result (self.new.around ≡ self.old.around) }
        ensures meant { IfOk result (λ p. print_item_of p ≡ item_meant table.now line (item_tree item.now) self.old.seen) }
    {
        match item {
            TItem::Words(text) => {
                let text = Bytes::from_slice(alloc, text.as_slice())?;
                Ok(Part::Words(text))
            }
            TItem::Value(value) => {
                let value = self.expr(alloc, table, line, value)?;
                Ok(Part::Value(value))
            }
        }
    }

    fn items(
        &mut self,
        alloc: Global,
        table: &Table,
        line: Line,
        items: &[TItem],
    ) -> Result<PartList, Memory>
        ensures seen { OnOk result (self.new.seen ≡ see_items table.now line (map item_tree items.now) self.old.seen) }
        ensures worst { OnOk result (self.new.worst ≡ noted line (items_causes table.now line (map item_tree items.now)) self.old.worst) }
        ensures around { OnOk result (self.new.around ≡ self.old.around) }
        ensures meant { IfOk result (λ ps. map print_item_of ps ≡ items_meant table.now line (map item_tree items.now) self.old.seen) }
    {
        let mut parts = PartList::new(alloc);
        for item in items {
            let part = self.item(alloc, table, line, item)?;
            parts.push(part)?;
        }
        Ok(parts)
    }

    /// An assignment.
    #[tactic(auto, using(crate::proofs::Noted::noting))]
    fn assign(
        &mut self,
        alloc: Global,
        table: &Table,
        line: Line,
        target: &TExpr,
        value: &TExpr,
    ) -> Result<Stmt, Memory>
        ensures seen { OnOk result (self.new.seen ≡ see_stmt table.now (AssignStmt line (expr_tree target.now) (expr_tree value.now)) self.old.seen) }
        ensures worst { OnOk result (self.new.worst ≡ met (refusals table.now self.old.around (AssignStmt line (expr_tree target.now) (expr_tree value.now)) self.old.seen) self.old.worst) }
        ensures around { OnOk result (self.new.around ≡ self.old.around) }
        ensures meant { IfOk result (λ s. statement_of s ≡ stmt_meant table.now (AssignStmt line (expr_tree target.now) (expr_tree value.now)) self.old.seen) }
    {
        self.begin(line)?;
        let target = self.target(alloc, table, line, target)?;
        let value = self.expr(alloc, table, line, value)?;
        self.count_names(line);
        Ok(Stmt::Assign(line, target, value))
    }

    /// A READ of one target.
    #[tactic(auto, using(crate::proofs::Noted::noting))]
    fn read(
        &mut self,
        alloc: Global,
        table: &Table,
        line: Line,
        target: &TExpr,
    ) -> Result<Stmt, Memory>
        ensures seen { OnOk result (self.new.seen ≡ see_stmt table.now (ReadStmt line (expr_tree target.now)) self.old.seen) }
        ensures worst { OnOk result (self.new.worst ≡ met (refusals table.now self.old.around (ReadStmt line (expr_tree target.now)) self.old.seen) self.old.worst) }
        ensures around { OnOk result (self.new.around ≡ self.old.around) }
        ensures meant { IfOk result (λ s. statement_of s ≡ stmt_meant table.now (ReadStmt line (expr_tree target.now)) self.old.seen) }
    {
        self.begin(line)?;
        let target = self.target(alloc, table, line, target)?;
        self.count_names(line);
        Ok(Stmt::Read(line, target))
    }

    /// A PRINT.
    #[tactic(auto, using(crate::proofs::Noted::noting))]
    fn print(
        &mut self,
        alloc: Global,
        table: &Table,
        line: Line,
        items: &[TItem],
    ) -> Result<Stmt, Memory>
        ensures seen { OnOk result (self.new.seen ≡ see_stmt table.now (PrintStmt line (map item_tree items.now)) self.old.seen) }
        ensures worst { OnOk result (self.new.worst ≡ met (refusals table.now self.old.around (PrintStmt line (map item_tree items.now)) self.old.seen) self.old.worst) }
        ensures around { OnOk result (self.new.around ≡ self.old.around) }
        ensures meant { IfOk result (λ s. statement_of s ≡ stmt_meant table.now (PrintStmt line (map item_tree items.now)) self.old.seen) }
    {
        self.begin(line)?;
        let parts = self.items(alloc, table, line, items)?;
        self.count_names(line);
        Ok(Stmt::Print(line, parts))
    }

    #[cycle(statements)]
    #[tactic(auto, using(crate::proofs::Noted::noting))]
    pub fn stmt(&mut self, alloc: Global, table: &Table, stmt: &TStmt) -> Result<Stmt, Memory>
        ensures seen { OnOk result (self.new.seen ≡ see_stmt table.now (stmt_tree stmt.now) self.old.seen) }
        ensures worst { OnOk result (self.new.worst ≡ met (refusals table.now self.old.around (stmt_tree stmt.now) self.old.seen) self.old.worst) }
        ensures around { OnOk result (self.new.around ≡ self.old.around) }
        ensures meant { IfOk result (λ s. statement_of s ≡ stmt_meant table.now (stmt_tree stmt.now) self.old.seen) }
    {
        match stmt {
            TStmt::Assign(line, target, value) => {
                let made = self.assign(alloc, table, *line, target, value)?;
                Ok(made)
            }
            TStmt::If(line, test, so, otherwise) => {
                self.begin(*line)?;
                let test = self.condition(alloc, table, *line, test)?;
                self.count_names(*line);
                let so = self.stmts(alloc, table, so)?;
                let otherwise = self.stmts(alloc, table, otherwise)?;
                Ok(Stmt::If(*line, test, so, otherwise))
            }
            TStmt::Do(line, name, first, last, by, body) => {
                let made = self.counted_loop(
                    alloc,
                    table,
                    *line,
                    name.as_slice(),
                    first,
                    last,
                    by,
                    body,
                )?;
                Ok(made)
            }
            TStmt::While(line, test, body) => {
                self.begin(*line)?;
                let test = self.condition(alloc, table, *line, test)?;
                self.count_names(*line);
                let body = self.stmts(alloc, table, body)?;
                Ok(Stmt::While(*line, test, body))
            }
            TStmt::Read(line, target) => {
                let made = self.read(alloc, table, *line, target)?;
                Ok(made)
            }
            TStmt::Print(line, items) => {
                let made = self.print(alloc, table, *line, items.as_slice())?;
                Ok(made)
            }
            TStmt::Skip(line) => {
                self.begin(*line)?;
                self.count_names(*line);
                Ok(Stmt::Skip(*line))
            }
            TStmt::Remap(line, _, _) => {
                self.note(*line, Cause::LeftOut);
                Ok(Stmt::Skip(*line))
            }
        }
    }

    /// A DO over this variable, with its first value, its last one and its step.
    #[cycle(statements)]
    #[tactic(auto, using(crate::proofs::Noted::noting))]
    fn counted_loop(
        &mut self,
        alloc: Global,
        table: &Table,
        line: Line,
        name: &[u8],
        first: &TExpr,
        last: &TExpr,
        by: &TExpr,
        body: &TStmtList,
    ) -> Result<Stmt, Memory>
        ensures seen { OnOk result (self.new.seen ≡ see_stmt table.now (DoStmt line name.now (expr_tree first.now) (expr_tree last.now) (expr_tree by.now) (stmt_trees body.now)) self.old.seen) }
        ensures worst { OnOk result (self.new.worst ≡ met (refusals table.now self.old.around (DoStmt line name.now (expr_tree first.now) (expr_tree last.now) (expr_tree by.now) (stmt_trees body.now)) self.old.seen) self.old.worst) }
        ensures around { OnOk result (self.new.around ≡ self.old.around) }
        ensures meant { IfOk result (λ s. statement_of s ≡ stmt_meant table.now (DoStmt line name.now (expr_tree first.now) (expr_tree last.now) (expr_tree by.now) (stmt_trees body.now)) self.old.seen) }
    {
        self.begin(line)?;
        let var = self.set_name(alloc, table, line, name)?;
        let first = self.expr(alloc, table, line, first)?;
        let last = self.expr(alloc, table, line, last)?;
        let by = self.expr(alloc, table, line, by)?;
        self.count_names(line);
        let body = self.loop_body(alloc, table, name, body)?;
        Ok(Stmt::Do(line, var, first, last, by, body))
    }

    /// The statements of a loop over this variable.
    #[cycle(statements)]
    fn loop_body(
        &mut self,
        alloc: Global,
        table: &Table,
        name: &[u8],
        body: &TStmtList,
    ) -> Result<StmtList, Memory>
        ensures seen { OnOk result (self.new.seen ≡ see_stmts table.now (stmt_trees body.now) self.old.seen) }
        ensures worst { OnOk result (self.new.worst ≡ met (all_refusals table.now (self.old.around ++ name.now ∷ []) (stmt_trees body.now) self.old.seen) self.old.worst) }
        ensures around { OnOk result (self.new.around ≡ self.old.around) }
        ensures meant { IfOk result (λ s. statements_of s ≡ stmts_meant table.now (stmt_trees body.now) self.old.seen) }
    {
        self.around.enter(alloc, name)?;
        let body = self.stmts(alloc, table, body)?;
        self.around.leave();
        Ok(body)
    }

    // By a loop, since a source has up to half a million statements, and each call takes room on the stack.
    #[cycle(statements)]
    #[tactic(auto, using(crate::proofs::Noted::noting))]
    pub fn stmts(
        &mut self,
        alloc: Global,
        table: &Table,
        list: &TStmtList,
    ) -> Result<StmtList, Memory>
        ensures seen { OnOk result (self.new.seen ≡ see_stmts table.now (stmt_trees list.now) self.old.seen) }
        ensures worst { OnOk result (self.new.worst ≡ met (all_refusals table.now self.old.around (stmt_trees list.now) self.old.seen) self.old.worst) }
        ensures around { OnOk result (self.new.around ≡ self.old.around) }
        ensures meant { IfOk result (λ s. statements_of s ≡ stmts_meant table.now (stmt_trees list.now) self.old.seen) }
    {
        let mut made = Vec::new(alloc);
        let mut left = list;
        while let TStmtList::More(first, rest) = left {
            let stmt = self.stmt(alloc, table, first)?;
            made.push(stmt)?;
            left = rest;
        }
        let made = chain(alloc, made)?;
        Ok(made)
    }
}
