// A set of items.
ghost use Rattle.std.specs.Prelude.{◌≡◌, ℕ, ◌≤◌, false, IfOk, IfSome, IfNone};
ghost use Rattle.std.specs.FinSet as set;
ghost use Rattle.fd_sets.specs.Sets.{IsLeast};

use crate::kept::Words;
use crate::words;
use fd_base::{ItemNo, Memory};
use std::alloc::Global;
use std::marker::Model;

/// A set of items up to a size. It takes its memory when it is made.
#[derive(Drop)]
pub struct ItemSet {
    size: u16,
    /// A bit for each item.
    words: Words,
}

impl Model for ItemSet {
    ghost use Rattle.fd_sets.specs.Sets.{IsKept, Subset, subset_code, members_of};
    ghost use Rattle.fd_sets.specs.Kept.{words_of};

    ghost Value = { Subset };

    ghost coded = { subset_code };

    ghost view = { λ s. record { size = s.size; members = members_of (words_of s.words) } };

    ghost invariant = { λ s. IsKept s.size (words_of s.words) };
}

impl ItemSet {
    /// The empty set of items up to `items`.
    pub fn new(alloc: Global, items: u16) -> Result<ItemSet, Memory>
        ensures { IfOk result (λ s. s ≡ record { size = items; members = set.empty }) }
    {
        let words = Words::none(alloc, items)?;
        Ok(ItemSet { size: items, words })
    }

    /// The greatest item that the set has room for.
    pub fn size(&self) -> u16
        ensures { result ≡ self.now.size }
    {
        self.size
    }

    /// Adds an item.
    pub fn insert(&mut self, item: ItemNo)
        requires { item.0 ≤ self.old.size }
        ensures size { self.new.size ≡ self.old.size }
        ensures members { self.new.members ≡ set.insert self.old.members item.0 }
    {
        words::put(self.words.as_mut_slice(), item.0);
    }

    /// Adds the members of another set of the same size.
    pub fn unite(&mut self, other: &ItemSet)
        requires { other.now.size ≡ self.old.size }
        ensures size { self.new.size ≡ self.old.size }
        ensures members { self.new.members ≡ set.union self.old.members other.now.members }
    {
        words::unite(self.words.as_mut_slice(), other.words.as_slice());
    }

    /// Leaves the members that another set of the same size has too.
    pub fn meet(&mut self, other: &ItemSet)
        requires { other.now.size ≡ self.old.size }
        ensures size { self.new.size ≡ self.old.size }
        ensures members { self.new.members ≡ set.intersection self.old.members other.now.members }
    {
        words::meet(self.words.as_mut_slice(), other.words.as_slice());
    }

    /// Leaves the members that another set of the same size hasn't.
    pub fn drop_all(&mut self, other: &ItemSet)
        requires { other.now.size ≡ self.old.size }
        ensures size { self.new.size ≡ self.old.size }
        ensures members { self.new.members ≡ set.difference self.old.members other.now.members }
    {
        words::drop_all(self.words.as_mut_slice(), other.words.as_slice());
    }

    /// An item is in the set.
    pub fn has(&self, item: ItemNo) -> bool
        ensures { result ≡ set.contains self.now.members item.0 }
    {
        words::has(self.words.as_slice(), item.0)
    }

    /// The least member at `item` or above it.
    pub fn next_from(&self, item: ItemNo) -> Option<ItemNo>
        ensures some { IfSome result (λ next. IsLeast self.now item.0 next.0) }
        ensures none { IfNone result ((other : ℕ) → item.0 ≤ other → set.contains self.now.members other ≡ false) }
    {
        let next = words::least_from(self.words.as_slice(), item.0)?;
        Some(ItemNo(next))
    }
}
