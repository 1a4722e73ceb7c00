//! The walk through a block from the root to a leaf.

ghost use Rattle.std.specs.Prelude.{◌≡◌, ℕ, ◌≤◌, ◌<◌, length, slice_index, IsSomeAnd};
ghost use Rattle.mpc_controller.specs.Parts.{Parts};
ghost use Rattle.mpc_block.specs.Block.{width_of};
ghost use Rattle.mpc_block.specs.Walks.{Serves, StandsAt, IsTurn, EndsIn};

use crate::lines::{LINE, Width, holds, line_size, part};

/// What the walk does at a node.
pub enum Turn {
    /// It goes on to the node whose line begins at this word.
    To(u64),
    /// It ends there.
    End,
    /// No controller's block has this node.
    Bad,
}

/// What the walk at these counts does at the node whose line begins at this word.
#[inline(always)]
fn turn_at(words: &[u64], counts: &[u64], start: u64, width: Width) -> Turn
    requires { length counts.now ≤ 4 }
    ensures { (parts : Parts) (s : Serves words.now counts.now parts) (place : ℕ) → width ≡ width_of parts
        → StandsAt parts place start → IsTurn words.now counts.now parts s.block place result }
{
    let size = line_size(width);
    let Some(node) = part(words, start, size) else {
        return Turn::Bad;
    };
    if node[0] == 0 {
        return Turn::End;
    }
    if holds(node, counts, width) {
        Turn::To(start + size as u64)
    } else {
        Turn::To(node[0])
    }
}

/// The word at which the line of the leaf begins to which the walk at these counts comes in fewer turns than these.
#[inline(always)]
pub fn leaf_start(words: &[u64], counts: &[u64], turns: u64, width: Width) -> Option<u64>
    requires { length counts.now ≤ 4 }
    ensures { (parts : Parts) → Serves words.now counts.now parts → width ≡ width_of parts
        → slice_index words.now 10 < turns → IsSomeAnd result (EndsIn words.now counts.now parts) }
{
    let mut start = LINE as u64;
    for _ in 0..turns {
        match turn_at(words, counts, start, width) {
            Turn::To(next) => start = next,
            Turn::End => return Some(start),
            Turn::Bad => return None,
        }
    }
    None
}
