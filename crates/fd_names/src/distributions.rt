// DISTRIBUTE.
ghost use Rattle.std.specs.Prelude.{◌≡◌, OnOk, IfOk, map, nat_eq};
ghost use Rattle.fd_ast.specs.Tree.{attr_tree};
ghost use Rattle.fd_names.specs.First.{noted};
ghost use Rattle.fd_names.specs.Distributions.{attr_causes, attr_meant, attrs_causes, attrs_meant, block_causes, block_from, block_meant, dealt, see_attr, see_attrs, spread_from};

use crate::book::Book;
use crate::constants::constant;
use crate::declarations::Spread;
use crate::names::Table;
use crate::refusal::Cause;
use fd_ast::TAttr;
use fd_base::{Dist, Line, ListOf, Memory};
use std::alloc::Global;

/// The most positions of a block.
const MOST_POSITIONS: i64 = 262144;

/// Blocks of this size, where it is one.
fn block_from(size: i64) -> Option<Dist>
    ensures { result ≡ block_from size }
{
    if 1 <= size && size <= MOST_POSITIONS {
        Some(Dist::BlockCyclic(size as u32))
    } else {
        None
    }
}

/// Whether no attribute is other than `:`.
fn has_none(attrs: &[Option<Dist>]) -> bool
    ensures { result ≡ nat_eq (dealt attrs.now) 0 }
{
    match attrs {
        [] => true,
        [None, rest @ ..] => has_none(rest),
        [Some(_), ..] => false,
    }
}

/// Whether exactly one attribute is other than `:`.
pub fn has_one(attrs: &[Option<Dist>]) -> bool
    ensures { result ≡ nat_eq (dealt attrs.now) 1 }
{
    match attrs {
        [] => false,
        [None, rest @ ..] => has_one(rest),
        [Some(_), rest @ ..] => has_none(rest),
    }
}

/// The one attribute other than `:` and its dimension; where something is wrong one is as good as any.
pub fn spread_from(attrs: &[Option<Dist>]) -> Spread
    ensures { result ≡ spread_from attrs.now }
{
    let (dim, dist) = match attrs {
        [] => (0, Dist::Block),
        [Some(first), ..] => (0, *first),
        [None] => (0, Dist::Block),
        [None, Some(second), ..] => (1, *second),
        [None, None, ..] => (0, Dist::Block),
    };
    Spread {
        dim,
        dist: Some(dist),
    }
}

impl Book {
    /// A size of blocks, None where it isn't constant.
    fn block(&mut self, line: Line, size: Option<i64>) -> Dist
        ensures dist { result ≡ block_meant size }
        ensures book { self.new ≡ record self.old { worst = noted line (block_causes size) self.old.worst } }
    {
        match size {
            None => {
                self.note(line, Cause::NotConstant);
                Dist::Block
            }
            Some(size) => {
                let dist = block_from(size);
                self.note_if(dist.is_none(), line, Cause::DistributeBad);
                dist.unwrap_or(Dist::Block)
            }
        }
    }

    /// An attribute; None where it is `:`.
    #[tactic(auto, using(crate::proofs::Noted::noting))]
    fn attr(
        &mut self,
        alloc: Global,
        table: &Table,
        line: Line,
        attr: &TAttr,
    ) -> Result<Option<Dist>, Memory>
        ensures seen { OnOk result (self.new.seen ≡ see_attr table.now line (attr_tree attr.now) self.old.seen) }
        ensures worst { OnOk result (self.new.worst ≡ noted line (attr_causes table.now line (attr_tree attr.now) self.old.seen) self.old.worst) }
        ensures around { OnOk result (self.new.around ≡ self.old.around) }
        ensures meant { IfOk result (λ x. x ≡ attr_meant table.now line (attr_tree attr.now) self.old.seen) }
    {
        match attr {
            TAttr::Whole => Ok(None),
            TAttr::Block => Ok(Some(Dist::Block)),
            TAttr::Cyclic => Ok(Some(Dist::Cyclic)),
            TAttr::BlockCyclic(size) => {
                let made = self.expr(alloc, table, line, size)?;
                Ok(Some(self.block(line, constant(&made))))
            }
            TAttr::Named(_) => {
                self.note(line, Cause::LeftOut);
                Ok(Some(Dist::Block))
            }
        }
    }

    pub fn attrs(
        &mut self,
        alloc: Global,
        table: &Table,
        line: Line,
        attrs: &[TAttr],
    ) -> Result<ListOf<Option<Dist>>, Memory>
        ensures seen { OnOk result (self.new.seen ≡ see_attrs table.now line (map attr_tree attrs.now) self.old.seen) }
        ensures worst { OnOk result (self.new.worst ≡ noted line (attrs_causes table.now line (map attr_tree attrs.now) self.old.seen) self.old.worst) }
        ensures around { OnOk result (self.new.around ≡ self.old.around) }
        ensures meant { IfOk result (λ xs. xs ≡ attrs_meant table.now line (map attr_tree attrs.now) self.old.seen) }
    {
        let mut made = ListOf::new(alloc);
        for attr in attrs {
            let dist = self.attr(alloc, table, line, attr)?;
            made.push(dist)?;
        }
        Ok(made)
    }
}
