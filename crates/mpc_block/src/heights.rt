//! The heights of the trees at a search tree's nodes.

ghost use Rattle.std.specs.Prelude.{◌+◌, ◌<◌, length, IfOk};
ghost use Rattle.mpc_table.specs.Steps.{AreNoSides};
ghost use Rattle.mpc_block.specs.Heights.{IsHeightBy, AreHeightsFrom};

use mpc_frac::NoMemory;
use mpc_rows::{Node, Tree};
use std::alloc::Global;

/// The height of the tree at a place, from those of the trees behind it.
fn height_at(tree: &Tree, sides: &[usize], heights: &[u64], place: usize) -> u64
    requires inside { place < length tree.now }
    requires sides { AreNoSides tree.now sides.now }
    requires behind { AreHeightsFrom tree.now sides.now (place + 1) heights.now }
    ensures value { IsHeightBy tree.now sides.now heights.now place result }
    ensures low { result + place < length tree.now }
{
    match tree.at(place) {
        Node::Split(_) => 1 + heights[place + 1].max(heights[sides[place]]),
        Node::Law { .. } | Node::NoMove { .. } => 0,
    }
}

/// The heights of the trees at all nodes: 0 at a leaf, and at a split one more than that of its higher side.
pub fn heights(alloc: Global, tree: &Tree, sides: &[usize]) -> Result<Vec<u64>, NoMemory>
    requires { AreNoSides tree.now sides.now }
    ensures { IfOk result (λ heights. AreHeightsFrom tree.now sides.now 0 heights.items) }
{
    let count = tree.len();
    let mut heights = vec![in alloc; 0; count]?;
    for i in 0..count {
        let place = count - 1 - i;
        heights[place] = height_at(tree, sides, heights.as_slice(), place);
    }
    Ok(heights)
}
