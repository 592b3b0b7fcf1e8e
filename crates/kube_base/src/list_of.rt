// A list that grows at its end.
ghost use Rattle.std.specs.Prelude.{◌≡◌, [], ◌∷◌, ◌++◌, IfOk, OnOk, OnErr};

use crate::NoMemory;
use std::alloc::Global;
use std::marker::Model;

/// Items in order, which contracts see as their list.
#[derive(Debug, Drop)]
pub struct ListOf<T> {
    alloc: Global,
    items: Vec<T>,
}

impl<T> Model for ListOf<T> {
    ghost use Rattle.std.specs.Prelude.{List};

    ghost Value = { List T };

    ghost view = { λ l. l.items.items };
}

impl<T> ListOf<T> {
    /// No items. Takes no memory.
    pub fn new(alloc: Global) -> ListOf<T>
        ensures { result ≡ [] }
    {
        ListOf {
            alloc,
            items: Vec::new(alloc),
        }
    }

    /// The allocator that the list was made with.
    pub fn allocator(&self) -> Global {
        self.alloc
    }

    /// The items in order.
    pub fn as_slice(&self) -> &[T]
        ensures { result.now ≡ self.now }
    {
        self.items.as_slice()
    }

    /// The allocator, and the items in order.
    pub(crate) fn into_items(self) -> (Global, Vec<T>)
        ensures { result.1.items ≡ self }
    {
        (self.alloc, self.items)
    }
}

impl<T: Drop> ListOf<T> {
    /// Adds an item at the end. What can't be added is dropped.
    pub fn push(&mut self, item: T) -> Result<(), NoMemory>
        ensures ok { OnOk result (self.new ≡ self.old ++ item ∷ []) }
        ensures err { OnErr result (self.new ≡ self.old) }
    {
        self.items.push(item)?;
        Ok(())
    }
}

impl<T: Copy + Drop> ListOf<T> {
    /// These items.
    pub fn of(alloc: Global, items: &[T]) -> Result<ListOf<T>, NoMemory>
        ensures { IfOk result (λ list. list ≡ items.now) }
    {
        let items = Vec::from_slice(alloc, items)?;
        Ok(ListOf { alloc, items })
    }

    /// A copy equals its source.
    pub fn copy(&self) -> Result<ListOf<T>, NoMemory>
        ensures { IfOk result (λ copy. copy ≡ self.now) }
    {
        let items = Vec::from_slice(self.alloc, self.items.as_slice())?;
        Ok(ListOf {
            alloc: self.alloc,
            items,
        })
    }

    /// Adds the other list's items at the end.
    pub fn append(&mut self, other: &ListOf<T>) -> Result<(), NoMemory>
        ensures ok { OnOk result (self.new ≡ self.old ++ other.now) }
        ensures err { OnErr result (self.new ≡ self.old) }
    {
        self.items.extend_from_slice(other.items.as_slice())?;
        Ok(())
    }
}
