//! Sets of lines of a text.

ghost use Rattle.std.specs.Prelude.{◌≡◌, ℕ, List, [], IfOk, OnOk, OnErr, ◌↔◌, ◌⊎◌, Contains, IsTrue};

use mpc_frac::NoMemory;
use mpc_grammar::digest;
use std::alloc::Global;
use std::collections::BTreeSet;
use std::marker::Model;

/// A set of lines, each behind its digest, by which they are in order: two lines are compared byte by byte only
/// where their digests are equal, so lines that are chosen to have one digest cost no more than without it.
#[derive(Drop)]
pub struct LineSet<'a> {
    lines: BTreeSet<(u64, &'a [u8])>,
}

impl<'a> Model for LineSet<'a> {
    ghost use Rattle.std.specs.Prelude.{◌≡◌, ℕ, List, map, All};
    ghost use Rattle.mpc_grammar.specs.Digests.{digest};

    ghost Value = { List (List ℕ) };

    ghost view = { λ s. map (λ key. key.1.now) s.lines.keys };

    ghost invariant = { λ s. All (λ key. key.0 ≡ digest key.1.now) s.lines.keys };
}

impl<'a> LineSet<'a> {
    /// The set without lines, which takes no memory.
    pub fn new(alloc: Global) -> LineSet<'a>
        ensures { result ≡ [] }
    {
        LineSet {
            lines: BTreeSet::new(alloc),
        }
    }

    /// Puts a line into the set, and answers whether it is new. Without memory the set stays as it was.
    pub fn insert(&mut self, line: &'a [u8]) -> Result<bool, NoMemory>
        ensures new { IfOk result (λ added. IsTrue added ↔ (¬ Contains self.old line.now)) }
        ensures lines { OnOk result ((other : List ℕ) → Contains self.new other ↔ (Contains self.old other ⊎ (other ≡ line.now))) }
        ensures err { OnErr result (self.new ≡ self.old) }
        ensures kept { (other : List ℕ) → Contains self.old other → Contains self.new other }
    {
        let Ok(added) = self.lines.insert((digest(line), line)) else {
            return Err(NoMemory);
        };
        Ok(added)
    }
}
