// The first uses of items, and how the one of an item is found.
ghost use Rattle.std.specs.Prelude.{◌≡◌, ◌≤◌, ◌<◌, ◌++◌, ◌∷◌, [], None, IfSome, OnOk, length, map, slice_get};
ghost use Rattle.std.specs.List.{position};
ghost use Rattle.std.specs.List.Sorted.{IsBinarySearchResult, IsSearchInRange};
ghost use Rattle.fd_prog.specs.Items.{is_same_item, item_order, linear_item_of};
ghost use Rattle.fd_prog.specs.Uses.{Use as TheUse};
ghost use Rattle.section_num.specs.Ordered.{AreBeside, IsOrderOf, item_in, stands};
ghost use Rattle.section_num.specs.Views.{use_of};

use crate::order::compare_items;
use fd_base::{Line, ListOf, Memory};
use fd_prog::Item;
use std::alloc::Global;
use std::cmp::Ordering;
use std::marker::Model;

/// A reference that makes an item: the line of its statement, its number, and the item.
#[derive(Drop)]
pub struct Use {
    pub line: Line,
    pub site: u32,
    pub item: Item,
}

/// First uses of different items in the order in which they come, and an index of them. Contracts see them as their list.
#[derive(Drop)]
pub struct FirstUses {
    uses: ListOf<Use>,
    /// The places of the uses, in the order of their items.
    order: Vec<u16>,
}

impl Model for FirstUses {
    ghost use Rattle.std.specs.Prelude.{List, map};
    ghost use Rattle.std.specs.Coded.{coded_list};
    ghost use Rattle.section_num.specs.contracts.firsts.Use as kept;
    ghost use Rattle.fd_prog.specs.Items.{item_order};
    ghost use Rattle.section_num.specs.declared.firsts.Use.{Use};
    ghost use Rattle.section_num.specs.Ordered.{IsOrderOf, item_in};

    ghost Value = { List Use };

    ghost coded = { coded_list kept.the_row.coded };

    ghost view = { λ s. s.uses };

    ghost invariant = { λ s. IsOrderOf item_order s.order.items (map item_in s.uses) };
}

/// How the item of the use at a place stands to an item. A place behind the last comes first.
fn compare_at(uses: &[Use], place: u16, item: &Item) -> Ordering
    ensures { result ≡ stands item_order (linear_item_of item.now) (slice_get (map item_in uses.now) place) }
{
    match uses.get(usize::from(place)) {
        None => Ordering::Less,
        Some(u) => compare_items(&u.item, item),
    }
}

/// Where among places in the order of their items the one of an item stands, or where it would stand.
fn search(uses: &[Use], order: &[u16], item: &Item) -> Result<usize, usize>
    ensures bound { IsSearchInRange result (length order.now) }
    ensures found { IsBinarySearchResult (λ place. stands item_order (linear_item_of item.now) (slice_get (map item_in uses.now) place)) order.now result }
{
    order.binary_search_by(|place| compare_at(uses, *place, item))
}

/// The place of the use of an item, by the order of their items.
fn place_in(uses: &[Use], order: &[u16], item: &Item) -> Option<usize>
    requires { IsOrderOf item_order order.now (map item_in uses.now) }
    ensures value { result ≡ position (λ (u : TheUse). is_same_item u.item (linear_item_of item.now)) (map use_of uses.now) }
    ensures below { IfSome result (λ k. k < length uses.now) }
{
    match search(uses, order, item) {
        Ok(at) => Some(usize::from(order[at])),
        Err(_) => None,
    }
}

/// Where the place of the use of a new item belongs among the places of the others.
fn place_for(uses: &[Use], order: &[u16], item: &Item) -> usize
    requires order { IsOrderOf item_order order.now (map item_in uses.now) }
    requires new { position (λ (u : TheUse). is_same_item u.item (linear_item_of item.now)) (map use_of uses.now) ≡ None }
    ensures within { result ≤ length order.now }
    ensures beside { AreBeside item_order order.now (map item_in uses.now) (linear_item_of item.now) result }
{
    match search(uses, order, item) {
        Ok(at) => at,
        Err(at) => at,
    }
}

impl FirstUses {
    pub fn new(alloc: Global) -> FirstUses
        ensures { result ≡ [] }
    {
        FirstUses {
            uses: ListOf::new(alloc),
            order: Vec::new(alloc),
        }
    }

    pub fn len(&self) -> usize
        ensures { result ≡ length self.now }
    {
        self.uses.len()
    }

    /// The place of the use of an item.
    pub fn place_of(&self, item: &Item) -> Option<usize>
        ensures value { result ≡ position (λ (u : TheUse). is_same_item u.item (linear_item_of item.now)) (map use_of self.now) }
        ensures below { IfSome result (λ k. k < length self.now) }
    {
        place_in(self.uses.as_slice(), &self.order, item)
    }

    /// Puts the use of a new item behind the others.
    pub fn push(&mut self, u: Use) -> Result<(), Memory>
        requires few { length self.old < 512 }
        requires new { position (λ (v : TheUse). is_same_item v.item (linear_item_of u.item)) (map use_of self.old) ≡ None }
        ensures ok { OnOk result (self.new ≡ self.old ++ u ∷ []) }
    {
        let place = self.uses.len() as u16;
        let at = place_for(self.uses.as_slice(), &self.order, &u.item);
        self.order.reserve(1)?;
        self.uses.push(u)?;
        self.order.insert(at, place).unwrap();
        Ok(())
    }

    pub fn into_uses(self) -> ListOf<Use>
        ensures { result ≡ self }
    {
        let FirstUses { uses, order: _ } = self;
        uses
    }
}
