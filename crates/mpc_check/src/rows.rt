//! Rows of the systems that certificates refute, one by one.

ghost use Rattle.std.specs.Prelude.{◌≡◌, ◌+◌, ◌*◌, ◌<◌, ◌≤◌, All, IfOk, length, slice_index_or};
ghost use Rattle.mpc_rows.specs.LinearSystem.{no_row};
ghost use Rattle.mpc_systems.specs.Writing.{widened};
ghost use Rattle.mpc_controller.specs.Ways.{HasSplitRow, IsTurn, turn_row};
ghost use Rattle.mpc_check.specs.LeafSystems.{system_at};

use mpc_controller::Turn;
use mpc_frac::NoMemory;
use mpc_rows::{Node, Qp, Row, Tree};
use mpc_systems::{box_row, widened_broken_row, widened_whole_row};
use std::alloc::Global;

/// The cell of a node: the way through the tree that leads there.
#[derive(Clone, Copy, Drop)]
pub(crate) struct Cell<'a> {
    pub tree: &'a Tree,
    pub way: &'a [Turn],
}

/// The row that holds behind a turn, with as many more coefficients, which are 0.
fn turn_row(
    alloc: Global,
    tree: &Tree,
    turn: Turn,
    states: usize,
    more: u32,
) -> Result<Row, NoMemory>
    requires turn { IsTurn tree.now turn }
    requires splits { All (HasSplitRow states) tree.now }
    ensures { IfOk result (λ r. r ≡ widened more (turn_row tree.now turn)) }
{
    let Node::Split(row) = tree.at(turn.split) else {
        unreachable!()
    };
    if turn.yes {
        widened_whole_row(alloc, row, more)
    } else {
        widened_broken_row(alloc, row, more)
    }
}

/// The row at a place of a leaf's system, counted from 0: first those of the box, then those of the way, then the last ones.
pub fn system_row(
    alloc: Global,
    qp: &Qp,
    cell: &Cell,
    more: u32,
    last: &[Row],
    place: usize,
) -> Result<Row, NoMemory>
    requires way { All (IsTurn cell.now.tree.now) cell.now.way.now }
    requires splits { All (HasSplitRow (length qp.now.counts)) cell.now.tree.now }
    requires place { place < 2 * length qp.now.counts + length cell.now.way.now + length last.now }
    requires unknowns { more ≤ 6 }
    ensures { IfOk result (λ r. r ≡ slice_index_or (system_at qp.now cell.now.tree.now cell.now.way.now more last.now).rows place no_row) }
{
    let states = qp.counts.len();
    if place < 2 * states {
        return box_row(alloc, states + more as usize, &qp.counts, place);
    }
    let way = cell.way;
    let behind = place - 2 * states;
    if behind < way.len() {
        return turn_row(alloc, cell.tree, way[behind], states, more);
    }
    last[behind - way.len()].copy(alloc)
}
