// The table of an irregularly distributed array.
ghost use Rattle.std.specs.Prelude.{◌≡◌, ℕ, ◌^◌, ◌<◌, ◌≤◌, All, IfOk, length};
ghost use Rattle.fd_base.specs.Places.{count_in, local_in, owner_in};
ghost use Rattle.fd_base.specs.Places.{irregular_owners};

use crate::deal::{elements_by_rank, local_numbers, owners_of};
use fd_base::{ListOf, Memory, RankNo};
use std::alloc::Global;
use std::marker::Model;

/// Who owns the elements of an array, in column-major order. Contracts see it as the list of the owners.
#[derive(Drop)]
pub struct Table {
    owners: Vec<u8>,
    /// The local number of each element.
    locals: Vec<u32>,
    /// The elements of each rank, ascending.
    elements: Vec<ListOf<u32>>,
}

impl Model for Table {
    ghost use Rattle.std.specs.Prelude.{List, ℕ};

    ghost Value = { List ℕ };

    ghost use Rattle.trans_table.specs.Tables.{IsTable};

    ghost view = { λ t. t.owners.items };

    ghost invariant = { λ t. IsTable t.owners.items t.locals.items t.elements.items };
}

impl Table {
    /// The table of an array whose elements have these map values, in column-major order.
    pub fn build(alloc: Global, values: &[i64], ranks: u8) -> Result<Table, Memory>
        requires ranks { (1 ≤ ranks) × (ranks ≤ 16) }
        requires size { length values.now < 2 ^ 32 }
        ensures owners { IfOk result (λ table. table ≡ irregular_owners values.now ranks) }
        ensures ranks { IfOk result (λ table. All (λ owner. owner < ranks) table) }
        ensures size { IfOk result (λ table. length table ≡ length values.now) }
    {
        let owners = owners_of(alloc, values, ranks)?;
        let locals = local_numbers(alloc, &owners)?;
        let elements = elements_by_rank(alloc, &owners, ranks)?;
        Ok(Table {
            owners,
            locals,
            elements,
        })
    }

    /// The rank that owns an element.
    pub fn owner_of(&self, element: u32) -> RankNo
        requires { element < length self.now }
        ensures { result.0 ≡ owner_in self.now element }
    {
        RankNo(self.owners[element as usize])
    }

    /// The number of an element among those of its owner, from 0.
    pub fn local_of(&self, element: u32) -> u32
        requires { element < length self.now }
        ensures value { result ≡ local_in self.now element }
        ensures below { result < count_in self.now (owner_in self.now element) }
    {
        self.locals[element as usize]
    }

    /// How many elements a rank owns.
    pub fn count_of(&self, rank: RankNo) -> u32
        ensures { result ≡ count_in self.now rank.0 }
    {
        if usize::from(rank.0) >= self.elements.len() {
            return 0;
        }
        self.elements[usize::from(rank.0)].len() as u32
    }

    /// The element of a rank with a local number.
    pub fn element_at(&self, rank: RankNo, local: u32) -> u32
        requires { local < count_in self.now rank.0 }
        ensures inside { result < length self.now }
        ensures owner { owner_in self.now result ≡ rank.0 }
        ensures local { local_in self.now result ≡ local }
        ensures only { (other : ℕ) → other < length self.now → owner_in self.now other ≡ rank.0
            → local_in self.now other ≡ local → other ≡ result }
    {
        self.elements[usize::from(rank.0)].as_slice()[local as usize]
    }
}
