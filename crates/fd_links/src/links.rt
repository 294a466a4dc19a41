// Chains of slots.
ghost use Rattle.std.specs.Prelude.{◌≡◌, ℕ, ◌+◌, ◌-◌, ◌^◌, ◌<◌, [], ◌∷◌, ◌++◌, get_or, length, replicate, slice_get, Contains, IfOk, OnErr};
ghost use Rattle.fd_links.specs.Chains.{HasSlots, InChain, next_in, pushed, slots_of, unlinked};
ghost use Rattle.fd_links.specs.Rings.{Moves, StaysInside, before_of, behind_of, put, slot_of};

use fd_base::Memory;
use std::alloc::Global;
use std::marker::Model;

/// The places before and behind a place of a ring.
#[derive(Clone, Copy)]
struct Node {
    before: usize,
    behind: usize,
}

/// Chains of slots, and the chain of those that are free. Each slot stands in exactly one of them.
#[derive(Drop)]
pub struct Links {
    /// One for each chain, and the last for the free chain.
    heads: usize,
    /// The heads, and then the slots.
    nodes: Vec<Node>,
}

impl Model for Links {
    ghost use Rattle.fd_links.specs.Chains.{Chains, chains_code};

    ghost Value = { Chains };

    ghost coded = { chains_code };

    ghost use Rattle.fd_links.specs.Rings.{IsKept, chains_of};

    ghost view = { λ l. chains_of l.heads l.nodes.items };

    ghost invariant = { λ l. IsKept l.heads l.nodes.items };
}

impl Links {
    /// So many chains without slots.
    pub fn new(alloc: Global, chains: u32) -> Result<Links, Memory>
        ensures { IfOk result (λ links. links ≡ record { chains = replicate chains []; free = [] }) }
    {
        let heads = chains as usize + 1;
        let mut nodes = Vec::with_capacity(alloc, heads)?;
        for head in 0..heads {
            nodes.push(Node {
                before: head,
                behind: head,
            })?;
        }
        Ok(Links { heads, nodes })
    }

    /// Puts a new slot at the end of the free chain, and gives its number.
    pub fn add_node(&mut self) -> Result<u32, Memory>
        requires { length (slots_of self.old) < 2 ^ 32 - 1 }
        ensures number { IfOk result (λ slot. slot ≡ length (slots_of self.old)) }
        ensures ok { IfOk result (λ slot. self.new ≡ record { chains = self.old.chains; free = self.old.free ++ slot ∷ [] }) }
        ensures slots { IfOk result (λ slot. HasSlots self.new (slot + 1)) }
        ensures err { OnErr result (self.new ≡ self.old) }
    {
        let place = self.nodes.len();
        self.nodes.push(Node {
            before: place,
            behind: place,
        })?;
        append(&mut self.nodes, place, self.heads - 1);
        Ok((place - self.heads) as u32)
    }

    /// Moves a free slot to the end of a chain. All other chains stay as they are.
    pub fn push_back(&mut self, chain: u32, slot: u32)
        requires chain { chain < length self.old.chains }
        requires free { Contains self.old.free slot }
        ensures value { self.new ≡ pushed self.old chain slot }
        ensures slots { HasSlots self.new (length (slots_of self.old)) }
    {
        let place = self.heads + slot as usize;
        move_to(&mut self.nodes, place, chain as usize);
    }

    /// Moves a slot of a chain to the end of the free chain. All other chains stay as they are.
    pub fn unlink(&mut self, slot: u32)
        requires { InChain self.old slot }
        ensures value { self.new ≡ unlinked self.old slot }
        ensures slots { HasSlots self.new (length (slots_of self.old)) }
    {
        let place = self.heads + slot as usize;
        move_to(&mut self.nodes, place, self.heads - 1);
    }

    /// The first slot of a chain; None exactly where it has none.
    pub fn first(&self, chain: u32) -> Option<u32>
        requires { chain < length self.now.chains }
        ensures { result ≡ slice_get (get_or self.now.chains chain []) 0 }
    {
        slot_at(self.heads, self.nodes[chain as usize].behind)
    }

    /// The slot behind a slot in its chain; None exactly at the chain's end.
    pub fn next(&self, slot: u32) -> Option<u32>
        requires { slot < length (slots_of self.now) }
        ensures chains { (chain : ℕ) → chain < length self.now.chains → Contains (get_or self.now.chains chain []) slot
            → result ≡ next_in (get_or self.now.chains chain []) slot }
        ensures free { Contains self.now.free slot → result ≡ next_in self.now.free slot }
    {
        slot_at(self.heads, self.nodes[self.heads + slot as usize].behind)
    }

    /// The first free slot; None exactly where none is free.
    pub fn free(&self) -> Option<u32>
        ensures { result ≡ slice_get self.now.free 0 }
    {
        slot_at(self.heads, self.nodes[self.heads - 1].behind)
    }
}

/// The slot at a place; None where a head stands there.
fn slot_at(heads: usize, place: usize) -> Option<u32>
    requires { place - heads < 2 ^ 32 }
    ensures { result ≡ slot_of heads place }
{
    if place < heads {
        None
    } else {
        Some((place - heads) as u32)
    }
}

/// Moves a place to the end of the chain of a head.
fn move_to(nodes: &mut Vec<Node>, place: usize, head: usize)
    requires place { place < length nodes.old.items }
    requires head { head < length nodes.old.items }
    requires inside { StaysInside nodes.old.items }
    ensures { Moves nodes.old.items nodes.new.items place head }
{
    take_out(nodes, place);
    append(nodes, place, head);
}

/// Joins the neighbours of a place. What it says of its neighbours stays.
fn take_out(nodes: &mut Vec<Node>, place: usize)
    requires place { place < length nodes.old.items }
    requires before { before_of nodes.old.items place < length nodes.old.items }
    requires behind { behind_of nodes.old.items place < length nodes.old.items }
    ensures len { length nodes.new.items ≡ length nodes.old.items }
    ensures links { (x : ℕ) → behind_of nodes.new.items x
        ≡ put (behind_of nodes.old.items) (before_of nodes.old.items place) (behind_of nodes.old.items place) x }
    ensures back { (x : ℕ) → before_of nodes.new.items x
        ≡ put (before_of nodes.old.items) (behind_of nodes.old.items place) (before_of nodes.old.items place) x }
{
    let Node { before, behind } = nodes[place];
    nodes[before].behind = behind;
    nodes[behind].before = before;
}

/// Puts a place before the head of a ring, which is the end of its chain. What the place said of its neighbours is forgotten.
fn append(nodes: &mut Vec<Node>, place: usize, head: usize)
    requires place { place < length nodes.old.items }
    requires head { head < length nodes.old.items }
    requires last { before_of nodes.old.items head < length nodes.old.items }
    ensures len { length nodes.new.items ≡ length nodes.old.items }
    ensures links { (x : ℕ) → behind_of nodes.new.items x
        ≡ put (put (behind_of nodes.old.items) (before_of nodes.old.items head) place) place head x }
    ensures back { (x : ℕ) → before_of nodes.new.items x
        ≡ put (put (before_of nodes.old.items) place (before_of nodes.old.items head)) head place x }
{
    let last = nodes[head].before;
    nodes[last].behind = place;
    nodes[place] = Node {
        before: last,
        behind: head,
    };
    nodes[head].before = place;
}
