// What is noted of a program's uses.
ghost use Rattle.std.specs.Prelude.{◌≡◌, ◌<◌, ◌≤◌, [], None, IfOk, IfSome, OnOk, length, map, nat_lt};
ghost use Rattle.std.specs.List.{position};
ghost use Rattle.fd_prog.specs.Items.{is_same_item, linear_item_of};
ghost use Rattle.fd_prog.specs.Uses.{Use as TheUse};
ghost use Rattle.section_num.specs.Noting.{at_start, closed, is_free, noted as the_noted, noted_new, with_number, with_site};
ghost use Rattle.section_num.specs.Views.{noted_of, numbers_of, use_of};

use crate::firsts::{FirstUses, Use};
use fd_base::{ItemNo, Line, ListOf, Memory};
use std::alloc::Global;
use std::mem::replace;

/// What is noted: the first use of each item, the item of each reference, the items that the node at hand takes, those that the nodes
/// before it take, and the line of the first item past the limit.
#[derive(Drop)]
pub struct Book {
    pub firsts: FirstUses,
    pub sites: ListOf<ItemNo>,
    pub row: ListOf<ItemNo>,
    pub rows: ListOf<ListOf<ItemNo>>,
    pub over: Option<Line>,
}

/// The most items of a program.
const MOST_ITEMS: usize = 512;

/// A reference has no number yet.
fn is_unset(sites: &ListOf<ItemNo>, site: u32) -> bool
    ensures { result ≡ is_free (numbers_of sites.now) site }
{
    match sites.get(site as usize) {
        Some(number) => number.0 == 0,
        None => false,
    }
}

/// Notes the number of the item of a reference, where it has none yet.
fn set_site(sites: &mut ListOf<ItemNo>, site: u32, number: u16)
    ensures { numbers_of sites.new ≡ with_site number site (numbers_of sites.old) }
{
    if is_unset(sites, site) {
        sites.set(site as usize, ItemNo(number));
    }
}

/// The book in which nothing is noted of a program with so many references.
pub fn new_book(alloc: Global, sites: u32) -> Result<Book, Memory>
    ensures noted { IfOk result (λ book. noted_of book ≡ at_start sites) }
    ensures empty { IfOk result (λ book. book.firsts ≡ []) }
{
    let unset = vec![in alloc; ItemNo(0); sites as usize]?;
    Ok(Book {
        firsts: FirstUses::new(alloc),
        sites: ListOf::from_vec(unset),
        row: ListOf::new(alloc),
        rows: ListOf::new(alloc),
        over: None,
    })
}

impl Book {
    /// Notes the number of an item for a reference and for the node at hand.
    fn put(&mut self, number: u16, site: u32) -> Result<(), Memory>
        ensures noted { OnOk result (noted_of self.new ≡ with_number number site (noted_of self.old)) }
        ensures count { OnOk result (length self.new.firsts ≡ length self.old.firsts) }
    {
        set_site(&mut self.sites, site, number);
        self.row.push(ItemNo(number))
    }

    /// Notes a use of an item that has no number yet.
    fn note_new(&mut self, u: Use) -> Result<(), Memory>
        requires count { length self.old.firsts ≤ 512 }
        requires new { position (λ (v : TheUse). is_same_item v.item (linear_item_of u.item)) (map use_of self.old.firsts) ≡ None }
        ensures count { OnOk result (length self.new.firsts ≤ 512) }
        ensures noted { OnOk result (noted_of self.new ≡ noted_new (nat_lt (length self.old.firsts) 512) (use_of u) (noted_of self.old)) }
    {
        let count = self.firsts.len();
        if count < MOST_ITEMS {
            let site = u.site;
            self.firsts.push(u)?;
            self.put(count as u16 + 1, site)
        } else {
            if self.over.is_none() {
                self.over = Some(u.line);
            }
            Ok(())
        }
    }

    /// Notes a use.
    pub fn note(&mut self, u: Use) -> Result<(), Memory>
        requires { length self.old.firsts ≤ 512 }
        ensures noted { OnOk result (noted_of self.new ≡ the_noted (use_of u) (noted_of self.old)) }
        ensures count { OnOk result (length self.new.firsts ≤ 512) }
    {
        match self.firsts.place_of(&u.item) {
            Some(place) => self.put(place as u16 + 1, u.site),
            None => self.note_new(u),
        }
    }

    /// The node at hand takes no more.
    pub fn close(&mut self, alloc: Global) -> Result<(), Memory>
        ensures noted { OnOk result (noted_of self.new ≡ closed (noted_of self.old)) }
        ensures count { OnOk result (self.new.firsts ≡ self.old.firsts) }
    {
        let row = replace(&mut self.row, ListOf::new(alloc));
        self.rows.push(row)
    }
}
