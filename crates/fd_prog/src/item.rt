// What is sent between ranks, and what happens to it along a path.
use crate::form::{Form, FormList, Home};
use fd_base::{ItemNo, ListOf};

/// A loop over which an item is widened, by the forms of its bounds and its step.
#[derive(Drop)]
pub struct Widened {
    pub first: Form,
    pub last: Form,
    pub step: Form,
}

pub type WidenedList = ListOf<Widened>;

/// The elements of an array that these subscripts give in the iterations of the loops, the outermost first, for the home's ranks.
#[derive(Drop)]
pub struct Item {
    pub array: u16,
    pub subs: FormList,
    pub loops: WidenedList,
    pub home: Home,
}

pub type ItemList = ListOf<Item>;

/// The item of each reference by the reference's number, and 0 where it has none.
pub type SiteList = ListOf<ItemNo>;

/// What happens to an item at a place of a path.
#[derive(Clone, Copy, PartialEq, Eq)]
pub enum Event {
    Send(ItemNo),
    Recv(ItemNo),
    Take(ItemNo),
    Steal(ItemNo),
    Hoist(ItemNo),
}
