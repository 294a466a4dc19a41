// What a walk over an item's iterations found so far.
ghost use Rattle.std.specs.Prelude.{◌≡◌, ◌<◌, ◌-◌, [], ◌∷◌, ◌++◌, OnOk};
ghost use Rattle.std.specs.List.Sorted.{IsStrictlyIncreasing};
ghost use Rattle.inspector.specs.Walks.{HaveSameMembers};

use fd_base::{ListOf, Memory};
use std::alloc::Global;

/// Numbers of elements.
pub type ElemList = ListOf<u32>;

/// So many elements may stand before repeats are first taken out.
const LEAST_ROOM: usize = 1024;

/// How many iterations a walk may still visit, and the elements that it found so far, in any order and maybe more than once. There are
/// never more of them than twice as many as are different, or the least room.
#[derive(Drop)]
pub struct Found {
    pub left: u64,
    pub elements: Vec<u32>,
    room: usize,
}

/// Puts numbers into ascending order, without repeats.
fn sort_out(numbers: &mut Vec<u32>)
    ensures rises { IsStrictlyIncreasing numbers.new.items }
    ensures same { HaveSameMembers numbers.new.items numbers.old.items }
{
    numbers.sort_unstable();
    numbers.dedup();
}

impl Found {
    /// Nothing yet, where a walk may visit so many iterations.
    pub fn new(alloc: Global, left: u64) -> Found
        ensures left { result.left ≡ left }
        ensures elements { result.elements.items ≡ [] }
    {
        Found {
            left,
            elements: Vec::new(alloc),
            room: LEAST_ROOM,
        }
    }

    /// Counts an iteration.
    pub fn count(&mut self)
        requires { 0 < self.old.left }
        ensures left { self.new.left ≡ self.old.left - 1 }
        ensures elements { self.new.elements.items ≡ self.old.elements.items }
    {
        self.left -= 1;
    }

    /// Notes an element.
    pub fn add(&mut self, element: u32) -> Result<(), Memory>
        ensures left { self.new.left ≡ self.old.left }
        ensures elements { OnOk result (HaveSameMembers self.new.elements.items (self.old.elements.items ++ element ∷ [])) }
    {
        self.make_room();
        self.elements.push(element)?;
        Ok(())
    }

    /// Takes repeats out where there is no room.
    fn make_room(&mut self)
        ensures left { self.new.left ≡ self.old.left }
        ensures elements { HaveSameMembers self.new.elements.items self.old.elements.items }
    {
        if self.elements.len() < self.room {
            return;
        }
        self.thin();
    }

    /// Takes repeats out, and makes room for as many elements again.
    fn thin(&mut self)
        ensures left { self.new.left ≡ self.old.left }
        ensures elements { HaveSameMembers self.new.elements.items self.old.elements.items }
    {
        sort_out(&mut self.elements);
        self.room = self.elements.len().saturating_mul(2).max(LEAST_ROOM);
    }

    /// The elements in ascending order, without repeats.
    pub fn ascending(self) -> ElemList
        ensures rises { IsStrictlyIncreasing result }
        ensures same { HaveSameMembers result self.elements.items }
    {
        let Found { mut elements, .. } = self;
        sort_out(&mut elements);
        ElemList::from_vec(elements)
    }
}
