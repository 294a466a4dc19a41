// DISTRIBUTE by a map array, a statement of the body: which decompositions are distributed so.
ghost use Rattle.std.specs.Prelude.{◌≡◌, OnOk};
ghost use Rattle.fd_ast.specs.Tree.{stmt_tree, stmt_trees};
ghost use Rattle.fd_names.specs.Irregular.{all_remapped, remapped};

use crate::declarations::{Base, Spread};
use fd_ast::{TStmt, TStmtList};
use fd_base::{Dist, Memory};
use std::alloc::Global;

/// Stands for a distribution by a map array.
const BY_A_MAP: Spread = Spread {
    dim: 0,
    dist: Some(Dist::Block),
};

impl Base {
    /// What a statement distributes, and all that stands in it.
    #[cycle(irregular)]
    fn remap(&mut self, alloc: Global, stmt: &TStmt) -> Result<(), Memory>
        ensures { OnOk result (self.new ≡ remapped (stmt_tree stmt.now) self.old) }
    {
        match stmt {
            TStmt::Assign(_, _, _) => Ok(()),
            TStmt::If(_, _, so, otherwise) => {
                self.remap_all(alloc, so)?;
                self.remap_all(alloc, otherwise)
            }
            TStmt::Do(_, _, _, _, _, body) => self.remap_all(alloc, body),
            TStmt::While(_, _, body) => self.remap_all(alloc, body),
            TStmt::Read(_, _) => Ok(()),
            TStmt::Print(_, _) => Ok(()),
            TStmt::Skip(_) => Ok(()),
            TStmt::Remap(line, name, _) => {
                let used = self.table.use_of(*line, name.as_slice());
                self.distribute(alloc, used, name.as_slice(), BY_A_MAP)
            }
        }
    }

    // By a loop, since a source has up to half a million statements, and each call takes room on the stack.
    #[cycle(irregular)]
    pub fn remap_all(&mut self, alloc: Global, list: &TStmtList) -> Result<(), Memory>
        ensures { OnOk result (self.new ≡ all_remapped (stmt_trees list.now) self.old) }
    {
        let mut left = list;
        while let TStmtList::More(first, rest) = left {
            self.remap(alloc, first)?;
            left = rest;
        }
        Ok(())
    }
}
