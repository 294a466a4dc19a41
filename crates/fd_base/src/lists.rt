// Lists in memory, which contracts see as lists.
ghost use Rattle.std.specs.Prelude.{◌≡◌, ◌↔◌, ◌++◌, ◌∷◌, [], length, slice_get, IsTrue, Contains, OnOk, OnErr, IfOk, option_copied, ◌<◌, slice_set};

use crate::Memory;
use std::alloc::Global;
use std::marker::Model;

/// A list over a vector. It is made from a vector, and gives it back, without taking memory.
#[derive(Drop)]
pub struct ListOf<T> {
    items: Vec<T>,
}

impl<T> Model for ListOf<T> {
    ghost use Rattle.std.specs.Prelude.{List};

    ghost Value = { List T };

    ghost view = { λ s. s.items.items };
}

/// The bytes of a text.
pub type Bytes = ListOf<u8>;

/// Values of the language, as the numbers of an input.
pub type NumList = ListOf<i64>;

impl<T> ListOf<T> {
    pub fn new(alloc: Global) -> ListOf<T>
        ensures { result ≡ [] }
    {
        ListOf {
            items: Vec::new(alloc),
        }
    }

    pub fn from_vec(items: Vec<T>) -> ListOf<T>
        ensures { result ≡ items.items }
    {
        ListOf { items }
    }

    pub fn into_vec(self) -> Vec<T>
        ensures { result.items ≡ self }
    {
        let ListOf { items } = self;
        items
    }

    pub fn len(&self) -> usize
        ensures { result ≡ length self.now }
    {
        self.items.len()
    }

    pub fn is_empty(&self) -> bool
        ensures { IsTrue result ↔ (self.now ≡ []) }
    {
        self.items.is_empty()
    }

    pub fn as_slice(&self) -> &[T]
        ensures { result.now ≡ self.now }
    {
        self.items.as_slice()
    }

    pub fn get(&self, index: usize) -> Option<&T>
        ensures { option_copied result ≡ slice_get self.now index }
    {
        self.items.get(index)
    }
}

impl<T: Drop> ListOf<T> {
    /// Puts an item behind the others. After want of memory the list is as before.
    pub fn push(&mut self, item: T) -> Result<(), Memory>
        ensures ok { OnOk result (self.new ≡ self.old ++ item ∷ []) }
        ensures err { OnErr result (self.new ≡ self.old) }
    {
        self.items.push(item)?;
        Ok(())
    }
}

impl<T: Copy> ListOf<T> {
    pub fn from_slice(alloc: Global, items: &[T]) -> Result<ListOf<T>, Memory>
        ensures { IfOk result (λ made. made ≡ items.now) }
    {
        let items = Vec::from_slice(alloc, items)?;
        Ok(ListOf { items })
    }

    /// Puts an item in place of the one at the index.
    pub fn set(&mut self, index: usize, item: T)
        requires { index < length self.old }
        ensures { self.new ≡ slice_set self.old index item }
    {
        self.items[index] = item;
    }

    /// Puts items behind the others. After want of memory the list is as before.
    pub fn append(&mut self, more: &[T]) -> Result<(), Memory>
        ensures ok { OnOk result (self.new ≡ self.old ++ more.now) }
        ensures err { OnErr result (self.new ≡ self.old) }
    {
        self.items.extend_from_slice(more)?;
        Ok(())
    }
}

impl ListOf<u64> {
    pub fn contains(&self, number: u64) -> bool
        ensures { IsTrue result ↔ Contains self.now number }
    {
        self.items.contains(&number)
    }
}
