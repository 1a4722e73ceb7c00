//! Lists of fractions and of integers.

ghost use Rattle.std.specs.Prelude.{◌≡◌, ◌≢◌, ◌<◌, [], ◌∷◌, ◌++◌, length, ℤ, pos, set, slice_index_or, IfOk, IsOk, OnOk, OnErr, IsTrue, ◌↔◌};
ghost use Rattle.mpc_exact.specs.Rational.{ℚ, int};

use mpc_frac::{Frac, NoMemory};
use std::alloc::Global;
use std::marker::Model;

/// A vector of fractions.
#[derive(Drop)]
pub struct Vector {
    items: Vec<Frac>,
}

impl Model for Vector {
    ghost use Rattle.std.specs.Prelude.{List};
    ghost use Rattle.std.specs.Coded.{coded_list};
    ghost use Rattle.mpc_exact.specs.Rational.{ℚ, coded_ℚ};

    ghost Value = { List ℚ };

    ghost coded = { coded_list coded_ℚ };

    ghost view = { λ v. v.items.items };
}

impl Vector {
    /// The empty vector, which takes no memory.
    pub fn new(alloc: Global) -> Self
        ensures { result ≡ [] }
    {
        Vector {
            items: Vec::new(alloc),
        }
    }

    /// The vector of these entries.
    pub fn of(items: Vec<Frac>) -> Self
        ensures { result ≡ items.items }
    {
        Vector { items }
    }

    /// The empty vector, with room for so many entries.
    pub fn with_capacity(alloc: Global, count: usize) -> Result<Self, NoMemory>
        ensures empty { IfOk result (λ v. v ≡ []) }
        ensures none_needed { count ≡ 0 → IsOk result }
    {
        match Vec::with_capacity(alloc, count) {
            Ok(items) => Ok(Vector { items }),
            Err(_) => Err(NoMemory),
        }
    }

    /// The vector of the entries of a slice.
    pub fn from_slice(alloc: Global, entries: &[Frac]) -> Result<Self, NoMemory>
        ensures { IfOk result (λ v. v ≡ entries.now) }
    {
        let mut copy = Vector::with_capacity(alloc, entries.len())?;
        for entry in entries {
            copy.push(*entry)?;
        }
        Ok(copy)
    }

    /// How many entries there are.
    pub fn len(&self) -> usize
        ensures { result ≡ length self.now }
    {
        self.items.len()
    }

    /// Whether there is no entry.
    pub fn is_empty(&self) -> bool
        ensures { IsTrue result ↔ (self.now ≡ []) }
    {
        self.items.is_empty()
    }

    /// The entry at the place, from 0.
    pub fn at(&self, place: usize) -> &Frac
        requires { place < length self.now }
        ensures { result.now ≡ slice_index_or self.now place (int (pos 0)) }
    {
        &self.items[place]
    }

    /// The entries, in their order.
    pub fn as_slice(&self) -> &[Frac]
        ensures { result.now ≡ self.now }
    {
        self.items.as_slice()
    }

    /// Puts one entry behind the others. Without memory the vector stays as it was.
    pub fn push(&mut self, item: Frac) -> Result<(), NoMemory>
        ensures ok { OnOk result (self.new ≡ self.old ++ item ∷ []) }
        ensures err { OnErr result (self.new ≡ self.old) }
    {
        if self.items.push(item).is_err() {
            return Err(NoMemory);
        }
        Ok(())
    }
}

/// A list of integers.
#[derive(Debug, Drop)]
pub struct Ints {
    items: Vec<i128>,
}

impl Model for Ints {
    ghost use Rattle.std.specs.Prelude.{List, ℤ};
    ghost use Rattle.std.specs.Coded.{coded_list, coded_ℤ};

    ghost Value = { List ℤ };

    ghost coded = { coded_list coded_ℤ };

    ghost view = { λ v. v.items.items };
}

impl Ints {
    /// The empty list, which takes no memory.
    pub fn new(alloc: Global) -> Self
        ensures { result ≡ [] }
    {
        Ints {
            items: Vec::new(alloc),
        }
    }

    /// The empty list, with room for so many integers.
    pub fn with_capacity(alloc: Global, count: usize) -> Result<Self, NoMemory>
        ensures empty { IfOk result (λ v. v ≡ []) }
        ensures none_needed { count ≡ 0 → IsOk result }
    {
        match Vec::with_capacity(alloc, count) {
            Ok(items) => Ok(Ints { items }),
            Err(_) => Err(NoMemory),
        }
    }

    /// How many integers there are.
    pub fn len(&self) -> usize
        ensures { result ≡ length self.now }
    {
        self.items.len()
    }

    /// Whether there is no integer.
    pub fn is_empty(&self) -> bool
        ensures { IsTrue result ↔ (self.now ≡ []) }
    {
        self.items.is_empty()
    }

    /// The integer at the place, from 0.
    pub fn at(&self, place: usize) -> &i128
        requires { place < length self.now }
        ensures { result.now ≡ slice_index_or self.now place (pos 0) }
    {
        &self.items[place]
    }

    /// The integers, in their order.
    pub fn as_slice(&self) -> &[i128]
        ensures { result.now ≡ self.now }
    {
        self.items.as_slice()
    }

    /// Puts another integer into the place, from 0.
    pub fn set(&mut self, place: usize, item: i128)
        requires { place < length self.old }
        ensures { self.new ≡ set self.old place item }
    {
        self.items[place] = item;
    }

    /// Puts one integer behind the others. Without memory the list stays as it was.
    pub fn push(&mut self, item: i128) -> Result<(), NoMemory>
        ensures ok { OnOk result (self.new ≡ self.old ++ item ∷ []) }
        ensures err { OnErr result (self.new ≡ self.old) }
    {
        if self.items.push(item).is_err() {
            return Err(NoMemory);
        }
        Ok(())
    }
}
