//! Lists of counts.

ghost use Rattle.std.specs.Prelude.{◌≡◌, ◌<◌, [], ◌∷◌, ◌++◌, length, slice_index, IfOk, OnOk, OnErr, IsTrue, ◌↔◌};

use mpc_frac::NoMemory;
use std::alloc::Global;
use std::marker::Model;

/// The number of steps along each coordinate of a box of states.
#[derive(Debug, Drop)]
pub struct Counts {
    items: Vec<u64>,
}

impl Model for Counts {
    ghost use Rattle.std.specs.Prelude.{ℕ, List};

    ghost Value = { List ℕ };

    ghost view = { λ counts. counts.items.items };
}

impl Counts {
    /// The empty list, which takes no memory.
    pub fn new(alloc: Global) -> Self
        ensures { result ≡ [] }
    {
        Counts {
            items: Vec::new(alloc),
        }
    }

    /// The same counts once more.
    pub fn copy(&self, alloc: Global) -> Result<Counts, NoMemory>
        ensures { IfOk result (λ counts. counts ≡ self.now) }
    {
        let Ok(items) = self.items.as_slice().to_vec(alloc) else {
            return Err(NoMemory);
        };
        Ok(Counts { items })
    }

    /// How many counts there are.
    pub fn len(&self) -> usize
        ensures { result ≡ length self.now }
    {
        self.items.len()
    }

    /// Whether there is no count.
    pub fn is_empty(&self) -> bool
        ensures { IsTrue result ↔ (self.now ≡ []) }
    {
        self.items.is_empty()
    }

    /// The count at the place, from 0.
    pub fn at(&self, place: usize) -> &u64
        requires { place < length self.now }
        ensures { result.now ≡ slice_index self.now place }
    {
        &self.items[place]
    }

    /// The counts, in their order.
    pub fn as_slice(&self) -> &[u64]
        ensures { result.now ≡ self.now }
    {
        self.items.as_slice()
    }

    /// Puts one count behind the others. Without memory the list stays as it was.
    pub fn push(&mut self, item: u64) -> Result<(), NoMemory>
        ensures ok { OnOk result (self.new ≡ self.old ++ item ∷ []) }
        ensures err { OnErr result (self.new ≡ self.old) }
    {
        if self.items.push(item).is_err() {
            return Err(NoMemory);
        }
        Ok(())
    }
}
