//! Lists of items of any type.

ghost use Rattle.std.specs.Prelude.{◌≡◌, ◌<◌, ◌↔◌, [], ◌∷◌, ◌++◌, Some, length, take, slice_get, IfOk, IsOk, OnOk, OnErr, IsTrue};

use mpc_frac::NoMemory;
use std::alloc::Global;
use std::marker::Model;

/// A list of items.
#[derive(Drop)]
pub struct Seq<T> {
    items: Vec<T>,
}

impl<T> Model for Seq<T> {
    ghost use Rattle.std.specs.Prelude.{List};

    ghost Value = { List T };

    ghost view = { λ list. list.items.items };
}

impl<T: Drop> Seq<T> {
    /// The empty list, which takes no memory.
    pub fn new(alloc: Global) -> Self
        ensures { result ≡ [] }
    {
        Seq {
            items: Vec::new(alloc),
        }
    }

    /// The list of these items.
    pub fn of(items: Vec<T>) -> Self
        ensures { result ≡ items.items }
    {
        Seq { items }
    }

    /// The empty list, with room for so many items and no more.
    pub fn with_capacity(alloc: Global, count: usize) -> Result<Self, NoMemory>
        ensures empty { IfOk result (λ list. list ≡ []) }
        ensures none_needed { count ≡ 0 → IsOk result }
    {
        match Vec::with_capacity(alloc, count) {
            Ok(items) => Ok(Seq { items }),
            Err(_) => Err(NoMemory),
        }
    }

    /// How many items there are.
    pub fn len(&self) -> usize
        ensures { result ≡ length self.now }
    {
        self.items.len()
    }

    /// Whether there is no item.
    pub fn is_empty(&self) -> bool
        ensures { IsTrue result ↔ (self.now ≡ []) }
    {
        self.items.is_empty()
    }

    /// The item at the place, from 0.
    pub fn at(&self, place: usize) -> &T
        requires { place < length self.now }
        ensures { slice_get self.now place ≡ Some result.now }
    {
        &self.items[place]
    }

    /// The items, in their order.
    pub fn as_slice(&self) -> &[T]
        ensures { result.now ≡ self.now }
    {
        self.items.as_slice()
    }

    /// Puts one item behind the others. Without memory the list stays as it was, and the item is given up.
    pub fn push(&mut self, item: T) -> Result<(), NoMemory>
        ensures ok { OnOk result (self.new ≡ self.old ++ item ∷ []) }
        ensures err { OnErr result (self.new ≡ self.old) }
    {
        if self.items.push(item).is_err() {
            return Err(NoMemory);
        }
        Ok(())
    }

    /// Puts the items of another list behind the others, in their order. Without memory the list stays as it was, and the other is given up.
    pub fn append(&mut self, other: Seq<T>) -> Result<(), NoMemory>
        ensures ok { OnOk result (self.new ≡ self.old ++ other) }
        ensures err { OnErr result (self.new ≡ self.old) }
    {
        let Seq { mut items } = other;
        if self.items.append(&mut items).is_err() {
            return Err(NoMemory);
        }
        Ok(())
    }

    /// Keeps the first so many items and gives up the others.
    pub fn truncate(&mut self, count: usize)
        ensures { self.new ≡ take count self.old }
    {
        self.items.truncate(count);
    }

    /// Gives back the room that no item takes. The list stays as it is.
    pub fn shrink_to_fit(&mut self)
        ensures { self.new ≡ self.old }
    {
        self.items.shrink_to_fit();
    }
}
