// Conditions.
ghost use Rattle.std.specs.Prelude.{◌≡◌, OnOk, IfOk};
ghost use Rattle.fd_ast.specs.Tree.{cond_tree};
ghost use Rattle.fd_prog.specs.Conditions.{condition_of};
ghost use Rattle.fd_names.specs.First.{noted};
ghost use Rattle.fd_names.specs.Conditions.{condition_causes, condition_meant, see_condition};

use crate::book::Book;
use crate::names::Table;
use fd_ast::TCond;
use fd_base::{Line, Memory};
use fd_prog::Cond;
use std::alloc::Global;

impl Book {
    #[tactic(auto, using(crate::proofs::Noted::noting))]
    pub fn condition(
        &mut self,
        alloc: Global,
        table: &Table,
        line: Line,
        c: &TCond,
    ) -> Result<Cond, Memory>
        ensures seen { OnOk result (self.new.seen ≡ see_condition table.now line (cond_tree c.now) self.old.seen) }
        ensures worst { OnOk result (self.new.worst ≡ noted line (condition_causes table.now line (cond_tree c.now)) self.old.worst) }
        ensures around { OnOk result (self.new.around ≡ self.old.around) }
        ensures meant { IfOk result (λ x. condition_of x ≡ condition_meant table.now line (cond_tree c.now) self.old.seen) }
    {
        match c {
            TCond::Fixed(value) => Ok(Cond::Fixed(*value)),
            TCond::Cmp(rel, left, right) => {
                let left = self.expr(alloc, table, line, left)?;
                let right = self.expr(alloc, table, line, right)?;
                Ok(Cond::Cmp(*rel, left, right))
            }
            TCond::Not(inner) => {
                let inner = self.condition(alloc, table, line, inner)?;
                Ok(Cond::Not(Box::new(alloc, inner)?))
            }
            TCond::Both(left, right) => {
                let left = self.condition(alloc, table, line, left)?;
                let right = self.condition(alloc, table, line, right)?;
                Ok(Cond::Both(Box::new(alloc, left)?, Box::new(alloc, right)?))
            }
            TCond::Either(left, right) => {
                let left = self.condition(alloc, table, line, left)?;
                let right = self.condition(alloc, table, line, right)?;
                Ok(Cond::Either(Box::new(alloc, left)?, Box::new(alloc, right)?))
            }
        }
    }
}
