//! The depths at which nodes of a tree are owed.

ghost use Rattle.std.specs.Prelude.{◌≡◌, ◌+◌, ◌^◌, ◌<◌, [], ◌∷◌, IfOk, OnOk, OnErr, MatchOption};
ghost use Rattle.mpc_law_lines.specs.TreeReading.{owed_under};

use mpc_frac::NoMemory;
use mpc_rows::Node;
use std::alloc::Global;
use std::marker::Model;

/// The depths at which nodes are still owed, the next one first.
#[derive(Drop)]
pub(crate) struct Depths {
    items: Vec<u64>,
}

impl Model for Depths {
    ghost use Rattle.std.specs.Prelude.{ℕ, List, reverse};

    ghost Value = { List ℕ };

    ghost view = { λ depths. reverse depths.items.items };
}

impl Depths {
    /// One node is owed, at depth 0.
    pub(crate) fn of_root(alloc: Global) -> Result<Depths, NoMemory>
        ensures { IfOk result (λ depths. depths ≡ 0 ∷ []) }
    {
        let mut items = Vec::new(alloc);
        if items.push(0).is_err() {
            return Err(NoMemory);
        }
        Ok(Depths { items })
    }

    /// Takes the depth of the next node, if one is owed.
    pub(crate) fn next(&mut self) -> Option<u64>
        ensures { MatchOption result (self.old ≡ []) (λ depth. self.old ≡ depth ∷ self.new) }
    {
        self.items.pop()
    }

    /// Puts a depth in front of the others. Without memory the depths stay as they were.
    fn owe(&mut self, depth: u64) -> Result<(), NoMemory>
        ensures ok { OnOk result (self.new ≡ depth ∷ self.old) }
        ensures err { OnErr result (self.new ≡ self.old) }
    {
        if self.items.push(depth).is_err() {
            return Err(NoMemory);
        }
        Ok(())
    }

    /// Puts in front the depths that a node at a depth owes. Without memory the depths stay as they were.
    pub(crate) fn owe_under(&mut self, node: &Node, depth: u64) -> Result<(), NoMemory>
        requires { depth + 1 < 2 ^ 64 }
        ensures ok { OnOk result (self.new ≡ owed_under node.now depth self.old) }
        ensures err { OnErr result (self.new ≡ self.old) }
    {
        match node {
            Node::Split(_) => {
                self.owe(depth + 1)?;
                let Ok(()) = self.owe(depth + 1) else {
                    self.next();
                    return Err(NoMemory);
                };
                Ok(())
            }
            Node::Law { .. } | Node::NoMove { .. } => Ok(()),
        }
    }
}
