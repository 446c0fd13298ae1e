// Lists that contracts see as mathematical lists, without what their memory looks like.
ghost use Rattle.std.specs.Prelude.{◌≡◌, ◌≤◌, ◌<◌, ◌↔◌, [], ◌∷◌, ◌++◌, length, insert, slice_set, slice_index_or, OnOk, OnErr, IsSome, IfSome};
ghost use Rattle.std.specs.Borrow.{sem};
ghost use Rattle.faim_base.specs.Lists.{LendsItem};

use crate::{Endpoint, Moment, NoMemory};
use std::alloc::Global;
use std::marker::Model;

/// A list that grows at its end.
#[derive(Debug, Drop)]
pub struct Items<T> {
    items: Vec<T>,
}

/// A list of bytes.
pub type Bytes = Items<u8>;

/// A list of places, each counted from 0, or of numbers of calls, each counted from 1.
pub type Places = Items<usize>;

/// A list of moments.
pub type Moments = Items<Moment>;

/// A list of endpoints.
pub type Endpoints = Items<Endpoint>;

impl<T> Model for Items<T> {
    ghost use Rattle.std.specs.Prelude.{List};
    ghost use Rattle.std.specs.Coded.{coded_list};

    ghost Value = { List T };

    ghost coded = { coded_list T.code };

    ghost view = { λ list. list.items.items };
}

impl<T> Items<T> {
    /// The empty list, which takes no memory.
    pub fn new(alloc: Global) -> Items<T>
        ensures { result ≡ [] }
    {
        Items {
            items: Vec::new(alloc),
        }
    }

    /// The items in order.
    pub fn as_slice(&self) -> &[T]
        ensures { result.now ≡ self.now }
    {
        self.items.as_slice()
    }

    /// The item at a place, for writing. None exactly where the list ends before it.
    pub fn get_mut(&mut self, at: usize) -> Option<&mut T>
        ensures* writes_back { sem 𝓛 (LendsItem T.row self.entry at result) }
        ensures there { IsSome result ↔ (at < length self.old) }
        ensures value { IfSome result (λ item. item.now ≡ slice_index_or self.old at item.now) }
    {
        self.items.get_mut(at)
    }
}

impl<T: Drop> Items<T> {
    /// Appends the item, or changes nothing.
    pub fn push(&mut self, item: T) -> Result<(), NoMemory>
        ensures ok { OnOk result (self.new ≡ self.old ++ item ∷ []) }
        ensures err { OnErr result (self.new ≡ self.old) }
    {
        self.items.push(item)?;
        Ok(())
    }

    /// Puts the item in at a place, before what stands there; or changes nothing.
    pub fn insert(&mut self, at: usize, item: T) -> Result<(), NoMemory>
        requires { at ≤ length self.old }
        ensures ok { OnOk result (self.new ≡ insert self.old at item) }
        ensures err { OnErr result (self.new ≡ self.old) }
    {
        self.items.insert(at, item)?;
        Ok(())
    }
}

impl<T: Copy> Items<T> {
    /// Appends the items in order, or changes nothing.
    pub fn extend(&mut self, more: &[T]) -> Result<(), NoMemory>
        ensures ok { OnOk result (self.new ≡ self.old ++ more.now) }
        ensures err { OnErr result (self.new ≡ self.old) }
    {
        self.items.extend_from_slice(more)?;
        Ok(())
    }
}
