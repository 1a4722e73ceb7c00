//! What a search keeps from one node to the next.

ghost use Rattle.std.specs.Prelude.{◌≡◌, ◌<◌, ◌↔◌, IfOk, IsTrue, get_or, map, replicate, slice_set};
ghost use Rattle.mpc_tree.specs.Missed.{IsAnySearch, IsTurned, entry_within};

use crate::joints::Joints;
use crate::runs::shared_rows;
use mpc_frac::NoMemory;
use mpc_rows::Row;
use mpc_simplex::Workspace;
use std::alloc::Global;
use std::marker::Model;

/// The entry of a law of which nothing is known.
const UNKNOWN: usize = usize::MAX;

/// For each law, how many first rows of the cell are enough to show that its region doesn't meet the
/// cell, where that is known. A cell that begins with the same rows isn't met either.
#[derive(Drop)]
pub struct Missed {
    first: Vec<usize>,
}

impl Model for Missed {
    ghost use Rattle.std.specs.Prelude.{ℕ, List};

    ghost Value = { List ℕ };

    ghost view = { λ m. m.first.items };
}

/// The entry, if it is of rows among the first so many.
fn entry_within(shared: usize, rows: usize) -> usize
    ensures { result ≡ entry_within shared rows }
{
    if shared < rows { UNKNOWN } else { rows }
}

impl Missed {
    /// A table for so many laws, of which nothing is known.
    pub fn new(alloc: Global, laws: usize) -> Result<Self, NoMemory>
        ensures { IfOk result (λ missed. missed ≡ replicate laws UNKNOWN) }
    {
        let first = vec![in alloc; UNKNOWN; laws]?;
        Ok(Missed { first })
    }

    /// Whether the entry of the law at this place, from 0, is known.
    pub fn knows(&self, place: usize) -> bool
        ensures { IsTrue result ↔ (get_or self.now place UNKNOWN < UNKNOWN) }
    {
        place < self.first.len() && self.first[place] < UNKNOWN
    }

    /// Notes how many rows are enough for the law at this place. The table needn't have it.
    pub fn note(&mut self, place: usize, rows: usize)
        ensures { self.new ≡ slice_set self.old place rows }
    {
        if place < self.first.len() {
            self.first[place] = rows;
        }
    }

    /// Forgets what needs more than the first so many rows.
    pub fn forget(&mut self, shared: usize)
        ensures { self.new ≡ map (entry_within shared) self.old }
    {
        for place in 0..self.first.len() {
            self.first[place] = entry_within(shared, self.first[place]);
        }
    }
}

/// What is kept while cells are searched one after another: a workspace, what is known of the laws that the
/// cell with these rows misses, and the runs of the last leaf without a law.
pub struct Search {
    pub work: Workspace,
    pub rows: Vec<Row>,
    pub missed: Missed,
    pub joints: Joints,
}

/// It is dropped in some places, so the program has this once.
impl Drop for Search {
    #[inline(never)]
    fn drop(self) {
        let Search {
            work: _,
            rows: _,
            missed: _,
            joints: _,
        } = self;
    }
}

impl Search {
    /// Before any cell, for so many laws.
    pub fn new(alloc: Global, laws: usize) -> Result<Self, NoMemory>
        ensures { IfOk result IsAnySearch }
    {
        let missed = Missed::new(alloc, laws)?;
        Ok(Search {
            work: Workspace::new(alloc),
            rows: Vec::new(alloc),
            missed,
            joints: Joints::new(alloc),
        })
    }

    /// Turns to the cell with these rows: of what is known of the last one, that stays which needs only rows that
    /// both begin with. The rows themselves are left to the caller.
    pub fn turn_to(&mut self, rows: &[Row])
        ensures { IsTurned self.old rows.now self.new }
    {
        let shared = shared_rows(&self.rows, rows);
        self.missed.forget(shared);
    }
}
