//! The way from the root of a search tree to each of its nodes in turn, kept as a stack.

ghost use Rattle.std.specs.Prelude.{◌+◌, ◌<◌, ◌≤◌, ◌↔◌, IsTrue, IfOk, OnOk, length};
ghost use Rattle.mpc_controller.specs.Preorder.{IsTree};
ghost use Rattle.mpc_controller.specs.Walk.{IsLeaf};
ghost use Rattle.mpc_controller.specs.Ways.{IsWay, EndsTree};

use crate::preorder_theorems;
use mpc_frac::NoMemory;
use mpc_rows::{Node, Tree};
use std::alloc::Global;

/// The side of a split that a way takes. The split's place is counted from 0.
#[derive(Clone, Copy, Debug, Drop)]
pub struct Turn {
    pub split: usize,
    pub yes: bool,
}

/// From a node whose tree is ended, the way to the next node, if there is one: the innermost yes side is left for its no side.
fn turn_over(way: &mut Vec<Turn>, tree: &Tree, end: usize) -> Result<(), NoMemory>
    requires tree { IsTree tree.now }
    requires ended { EndsTree tree.now way.old.items end }
    ensures { OnOk result (end < length tree.now → IsWay tree.now end way.new.items) }
{
    preorder_theorems();
    while let Some(turn) = way.pop() {
        if turn.yes {
            let other = Turn {
                split: turn.split,
                yes: false,
            };
            way.push(other).map_err(|_| NoMemory)?;
            return Ok(());
        }
    }
    Ok(())
}

/// Whether the node is a leaf.
fn is_leaf(node: &Node) -> bool
    ensures { IsTrue result ↔ IsLeaf node.now }
{
    match node {
        Node::Split(_) => false,
        Node::Law { .. } | Node::NoMove { .. } => true,
    }
}

/// From the way to a node, the way to the next node in preorder, if there is one.
pub fn go_on(way: &mut Vec<Turn>, tree: &Tree, place: usize) -> Result<(), NoMemory>
    requires tree { IsTree tree.now }
    requires way { IsWay tree.now place way.old.items }
    requires inside { place < length tree.now }
    ensures { OnOk result (place + 1 < length tree.now → IsWay tree.now (place + 1) way.new.items) }
{
    prove!(place < tree.len());
    if is_leaf(tree.at(place)) {
        return turn_over(way, tree, place + 1);
    }
    let first = Turn {
        split: place,
        yes: true,
    };
    way.push(first).map_err(|_| NoMemory)?;
    Ok(())
}

/// The way from the root to the node at a place, if there is one.
pub fn way_to(alloc: Global, tree: &Tree, place: usize) -> Result<Vec<Turn>, NoMemory>
    requires tree { IsTree tree.now }
    requires inside { place ≤ length tree.now }
    ensures { IfOk result (λ way. place < length tree.now → IsWay tree.now place way.items) }
{
    let mut way = Vec::new(alloc);
    for k in 0..place {
        go_on(&mut way, tree, k)?;
    }
    Ok(way)
}
