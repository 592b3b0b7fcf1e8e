// A list that is kept once for all that have it.
ghost use Rattle.std.specs.Prelude.{◌≡◌, [], ◌∷◌, ◌++◌, IfOk, OnOk, OnErr};

use crate::{ListOf, NoMemory};
use std::alloc::Global;
use std::marker::Model;
use std::rc::RcSlice;

/// Items in order that stay as they are, which contracts see as their list. A copy has the items of its source: they are kept once.
#[derive(Debug, Drop)]
pub struct SharedList<T> {
    alloc: Global,
    items: Option<RcSlice<T>>,
}

impl<T> Model for SharedList<T> {
    ghost use Rattle.std.specs.Prelude.{List, []};
    ghost use Rattle.std.specs.Option.{option_map_or};
    ghost use Rattle.std.specs.Rc.{rc_slice_items};

    ghost Value = { List T };

    ghost view = { λ l. option_map_or rc_slice_items l.items [] };
}

impl<T> SharedList<T> {
    /// No items. Takes no memory.
    pub fn new(alloc: Global) -> SharedList<T>
        ensures { result ≡ [] }
    {
        SharedList { alloc, items: None }
    }

    /// The items in order.
    pub fn as_slice(&self) -> &[T]
        ensures { result.now ≡ self.now }
    {
        match &self.items {
            Some(items) => items.as_slice(),
            None => &[],
        }
    }
}

impl<T: Drop> SharedList<T> {
    /// The items of a list.
    pub fn of(list: ListOf<T>) -> Result<SharedList<T>, NoMemory>
        ensures { IfOk result (λ shared. shared ≡ list) }
    {
        let (alloc, items) = list.into_items();
        if items.is_empty() {
            return Ok(SharedList { alloc, items: None });
        }
        let items = RcSlice::from_vec(items)?;
        Ok(SharedList {
            alloc,
            items: Some(items),
        })
    }

    /// A copy equals its source.
    pub fn copy(&self) -> Result<SharedList<T>, NoMemory>
        ensures { IfOk result (λ copy. copy ≡ self.now) }
    {
        let items = match &self.items {
            Some(items) => Some(items.clone()?),
            None => None,
        };
        Ok(SharedList {
            alloc: self.alloc,
            items,
        })
    }
}

impl<T: Copy + Drop> SharedList<T> {
    /// Adds an item at the end. Whoever else has the list keeps it as it is, so this costs a copy: a `ListOf` is for making a long one.
    pub fn push(&mut self, item: T) -> Result<(), NoMemory>
        ensures ok { OnOk result (self.new ≡ self.old ++ item ∷ []) }
        ensures err { OnErr result (self.new ≡ self.old) }
    {
        let mut list = self.to_list()?;
        list.push(item)?;
        *self = SharedList::of(list)?;
        Ok(())
    }

    /// The items in a list of its own.
    pub fn to_list(&self) -> Result<ListOf<T>, NoMemory>
        ensures { IfOk result (λ list. list ≡ self.now) }
    {
        ListOf::of(self.alloc, self.as_slice())
    }
}
