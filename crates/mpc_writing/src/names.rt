//! Lines that are written once and named by their numbers.

ghost use Rattle.std.specs.Prelude.{◌≡◌, List, ℕ, [], IfOk, OnErr, length, take};
ghost use Rattle.mpc_writing.specs.Names.{AreNames, IsNamed};

use crate::words::{end_line, write_piece};
use mpc_frac::NoMemory;
use mpc_grammar::digest;
use std::alloc::Global;
use std::collections::BTreeMap;

/// The different lines that came, one below the other in the order in which they came first, and their
/// numbers, from 1. A line is sought behind its digest: two lines are compared byte by byte only where their
/// digests are equal.
#[derive(Drop)]
pub struct Names {
    numbers: BTreeMap<(u64, Vec<u8>), u64>,
    text: Vec<u8>,
}

impl Names {
    /// No lines.
    pub fn new(alloc: Global) -> Names
        ensures { AreNames result [] }
    {
        Names {
            numbers: BTreeMap::new(alloc),
            text: Vec::new(alloc),
        }
    }

    /// How many lines there are.
    pub fn len(&self) -> usize
        ensures { (lines : List (List ℕ)) → AreNames self.now lines → result ≡ length lines }
    {
        self.numbers.len()
    }

    /// The lines, each ended by a line feed.
    pub fn text(&self) -> &[u8]
        ensures { result.now ≡ self.now.text.items }
    {
        self.text.as_slice()
    }

    /// The number of the line, which is put behind the others where it is new. Without memory the numbers stay
    /// as they were, and the line may stand in the text without a number.
    pub fn number(&mut self, line: Vec<u8>) -> Result<u64, NoMemory>
        ensures named { IfOk result (λ k. (lines : List (List ℕ)) → AreNames self.old lines → IsNamed lines line.items k (AreNames self.new)) }
        ensures kept { take (length self.old.text.items) self.new.text.items ≡ self.old.text.items }
        ensures err { OnErr result (self.new.numbers.entries ≡ self.old.numbers.entries) }
    {
        let key = (digest(line.as_slice()), line);
        if let Some(number) = self.numbers.get(&key) {
            return Ok(*number);
        }
        let number = self.numbers.len() as u64 + 1;
        write_piece(key.1.as_slice(), &mut self.text)?;
        end_line(&mut self.text)?;
        self.numbers.insert(key, number)?;
        Ok(number)
    }
}
