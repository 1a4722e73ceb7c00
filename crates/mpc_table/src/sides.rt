//! Where the no sides of a tree's splits begin, by one pass over its nodes in preorder.

ghost use Rattle.std.specs.Prelude.{◌≡◌, ◌+◌, ◌<◌, ◌↔◌, IfOk, OnOk, OnErr, IsTrue, length, take};
ghost use Rattle.mpc_controller.specs.Preorder.{IsTree};
ghost use Rattle.mpc_controller.specs.Walk.{IsLeaf};
ghost use Rattle.mpc_table.specs.Steps.{AreNoSides};
ghost use Rattle.mpc_table.specs.OpenSplits.{AreSidesTo};

use mpc_controller::preorder_theorems;
use mpc_frac::NoMemory;
use mpc_rows::{Node, Tree};
use std::alloc::Global;

/// Whether the node is a leaf.
fn is_leaf(node: &Node) -> bool
    ensures { IsTrue result ↔ IsLeaf node.now }
{
    match node {
        Node::Split(_) => false,
        Node::Law { .. } | Node::NoMove { .. } => true,
    }
}

/// Puts the next node's place behind those of the nodes before it. A leaf ends the yes side of the
/// innermost split whose yes side isn't ended. Without memory the next node's place may stand there, and the
/// others stay as they were.
fn add_side(
    sides: &mut Vec<usize>,
    pending: &mut Vec<usize>,
    tree: &Tree,
    place: usize,
) -> Result<(), NoMemory>
    requires inside { place < length tree.now }
    requires so_far { AreSidesTo tree.now place sides.old.items pending.old.items }
    ensures next { OnOk result (AreSidesTo tree.now (place + 1) sides.new.items pending.new.items) }
    ensures kept { OnErr result (take (length sides.old.items) sides.new.items ≡ sides.old.items) }
    ensures err { OnErr result (pending.new.items ≡ pending.old.items) }
{
    preorder_theorems();
    sides.push(0).map_err(|_| NoMemory)?;
    if !is_leaf(tree.at(place)) {
        pending.push(place).map_err(|_| NoMemory)?;
        return Ok(());
    }
    if let Some(split) = pending.pop() {
        sides[split] = place + 1;
    }
    Ok(())
}

/// For each split the place of its no side; 0 for a leaf.
pub fn no_sides(alloc: Global, tree: &Tree) -> Result<Vec<usize>, NoMemory>
    requires { IsTree tree.now }
    ensures { IfOk result (λ sides. AreNoSides tree.now sides.items) }
{
    let mut sides = Vec::new(alloc);
    let mut pending = Vec::new(alloc);
    for place in 0..tree.len() {
        add_side(&mut sides, &mut pending, tree, place)?;
    }
    Ok(sides)
}
