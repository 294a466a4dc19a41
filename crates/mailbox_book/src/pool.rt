// Queues of numbers over one pool of slots.
ghost use Rattle.std.specs.Prelude.{◌≡◌, ◌+◌, ◌<◌, max, [], ◌∷◌, ◌++◌, get_or, length, replicate, Contains, set, drop, slice_get, IfOk, IfErr, OnErr, IfNone};
ghost use Rattle.mailbox_book.specs.Pools.{IsPool, KeepsFront, count_queued};

use fd_base::{Memory, NumList};
use fd_links::Links;
use std::alloc::Global;
use std::marker::Model;
use std::mem::replace;

/// There are no more slots than have numbers.
const MOST: usize = 0xffff_ffff;

/// Queues, each a chain of slots. A slot holds the numbers of one message, and none where it is free.
#[derive(Drop)]
pub struct Pool {
    links: Links,
    slots: Vec<NumList>,
    alloc: Global,
}

impl Model for Pool {
    ghost use Rattle.std.specs.Prelude.{length};
    ghost use Rattle.mailbox_book.specs.Pools.{IsPool, Queues, queues_code, queues_of};

    ghost Value = { Queues };

    ghost coded = { queues_code };

    ghost view = { λ p. record { queues = queues_of p.slots.items p.links.chains; slots = length p.slots.items } };

    ghost invariant = { λ p. IsPool p.links p.slots.items };
}

impl Pool {
    /// So many empty queues.
    pub fn new(alloc: Global, queues: u32) -> Result<Pool, Memory>
        ensures { IfOk result (λ p. p ≡ record { queues = replicate queues []; slots = 0 }) }
    {
        let links = Links::new(alloc, queues)?;
        Ok(Pool {
            links,
            slots: Vec::new(alloc),
            alloc,
        })
    }

    /// Puts numbers at the end of a queue. After want of memory the queues are as before, and the numbers are handed back.
    pub fn put(&mut self, queue: u32, numbers: NumList) -> Result<(), NumList>
        requires { queue < length self.old.queues }
        ensures queues { IfOk result (λ done. self.new.queues ≡ set self.old.queues queue (get_or self.old.queues queue [] ++ numbers ∷ [])) }
        ensures slots { IfOk result (λ done. self.new.slots ≡ max self.old.slots (count_queued self.old.queues + 1)) }
        ensures kept { IfErr result (λ back. self.new ≡ self.old) }
        ensures back { IfErr result (λ back. back ≡ numbers) }
    {
        match free_slot(self.alloc, &mut self.links, &mut self.slots) {
            Err(Memory) => Err(numbers),
            Ok(slot) => {
                self.slots[slot as usize] = numbers;
                self.links.push_back(queue, slot);
                Ok(())
            }
        }
    }

    /// Takes the first numbers of a queue; None exactly where it is empty. The others stay as they are.
    pub fn take(&mut self, queue: u32) -> Option<NumList>
        requires { queue < length self.old.queues }
        ensures first { result ≡ slice_get (get_or self.old.queues queue []) 0 }
        ensures rest { self.new ≡ record { queues = set self.old.queues queue (drop 1 (get_or self.old.queues queue [])); slots = self.old.slots } }
        ensures none { IfNone result (self.new ≡ self.old) }
    {
        match self.links.first(queue) {
            None => None,
            Some(slot) => {
                self.links.unlink(slot);
                let numbers = replace(&mut self.slots[slot as usize], NumList::new(self.alloc));
                Some(numbers)
            }
        }
    }

    /// How many slots there are.
    pub fn slots(&self) -> u32
        ensures { result ≡ self.now.slots }
    {
        self.slots.len() as u32
    }
}

/// A free slot, which is a new one only where none is free.
fn free_slot(alloc: Global, links: &mut Links, slots: &mut Vec<NumList>) -> Result<u32, Memory>
    requires { IsPool links.old slots.old.items }
    ensures slots { IsPool links.new slots.new.items }
    ensures chains { links.new.chains ≡ links.old.chains }
    ensures front { KeepsFront slots.old.items slots.new.items }
    ensures free { IfOk result (λ slot. Contains links.new.free slot) }
    ensures count { IfOk result (λ slot. (links.old.free ≡ [] → length slots.new.items ≡ length slots.old.items + 1)) }
    ensures same { IfOk result (λ slot. 0 < length links.old.free → length slots.new.items ≡ length slots.old.items) }
    ensures links { OnErr result (links.new ≡ links.old) }
    ensures kept { OnErr result (slots.new.items ≡ slots.old.items) }
{
    match links.free() {
        Some(slot) => Ok(slot),
        None => new_slot(alloc, links, slots),
    }
}

/// A new slot.
fn new_slot(alloc: Global, links: &mut Links, slots: &mut Vec<NumList>) -> Result<u32, Memory>
    requires { IsPool links.old slots.old.items }
    ensures slots { IsPool links.new slots.new.items }
    ensures chains { links.new.chains ≡ links.old.chains }
    ensures more { IfOk result (λ slot. slots.new.items ≡ slots.old.items ++ [] ∷ []) }
    ensures free { IfOk result (λ slot. Contains links.new.free slot) }
    ensures links { OnErr result (links.new ≡ links.old) }
    ensures kept { OnErr result (slots.new.items ≡ slots.old.items) }
{
    if slots.len() >= MOST {
        return Err(Memory);
    }
    slots.push(NumList::new(alloc))?;
    match links.add_node() {
        Ok(slot) => Ok(slot),
        Err(Memory) => {
            slots.pop();
            Err(Memory)
        }
    }
}
