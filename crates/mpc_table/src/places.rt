//! Lists of whole numbers that are kept once each, and named by their places.

ghost use Rattle.std.specs.Prelude.{◌≡◌, ℤ, List, [], ◌∷◌, IfOk, OnErr};
ghost use Rattle.mpc_table.specs.Places.{ArePlaces, IsPlaced};

use mpc_frac::NoMemory;
use std::alloc::Global;
use std::collections::BTreeMap;

/// The places, from 0, of the different lines of numbers that came, in the order in which they came first.
#[derive(Drop)]
pub struct Places {
    places: BTreeMap<Vec<i128>, usize>,
}

impl Places {
    /// No lines.
    pub fn new(alloc: Global) -> Places
        ensures { ArePlaces result [] }
    {
        Places {
            places: BTreeMap::new(alloc),
        }
    }

    /// The place of the line, which is put behind the others where it is new. Without memory the places stay
    /// as they were.
    pub fn place(&mut self, line: Vec<i128>) -> Result<usize, NoMemory>
        ensures placed { IfOk result (λ place. (lines : List (List ℤ)) → ArePlaces self.old lines
            → IsPlaced lines line.items place self.new) }
        ensures err { OnErr result (self.new.places.entries ≡ self.old.places.entries) }
    {
        if let Some(place) = self.places.get(&line) {
            return Ok(*place);
        }
        let place = self.places.len();
        self.places.insert(line, place)?;
        Ok(place)
    }
}

/// The line of the first number and the others.
pub fn line_of(alloc: Global, first: &i128, others: &[i128]) -> Result<Vec<i128>, NoMemory>
    ensures { IfOk result (λ line. line.items ≡ first.now ∷ others.now) }
{
    let mut line = Vec::new(alloc);
    line.push(*first)?;
    for number in others {
        line.push(*number)?;
    }
    Ok(line)
}
