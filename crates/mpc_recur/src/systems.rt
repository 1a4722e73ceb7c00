//! The systems of a leaf: the rows of the box and of the path to the leaf.

ghost use Rattle.std.specs.Prelude.{◌≡◌, ◌++◌, ◌≤◌, All, IfOk, length};
ghost use Rattle.mpc_rows.specs.SetRuns.{box_rows};
ghost use Rattle.mpc_controller.specs.Ways.{HasSplitRow, IsTurn, turn_row, way_rows};

use mpc_controller::Turn;
use mpc_frac::NoMemory;
use mpc_rows::{Counts, Node, Row, System, Tree};
use mpc_systems::{broken_row, push_box, whole_row};
use std::alloc::Global;

/// The row that holds behind a turn.
pub fn turn_row(alloc: Global, tree: &Tree, turn: Turn, states: usize) -> Result<Row, NoMemory>
    requires turn { IsTurn tree.now turn }
    requires splits { All (HasSplitRow states) tree.now }
    ensures row { IfOk result (λ r. r ≡ turn_row tree.now turn) }
    ensures size { IfOk result (λ r. length r.a ≡ states) }
{
    let Node::Split(row) = tree.at(turn.split) else {
        unreachable!()
    };
    if turn.yes {
        whole_row(alloc, row)
    } else {
        broken_row(alloc, row)
    }
}

/// The rows of the box and of the way, in the unknowns t.
pub fn leaf_system(
    alloc: Global,
    limits: &Counts,
    tree: &Tree,
    way: &[Turn],
) -> Result<System, NoMemory>
    requires few { length limits.now ≤ 4 }
    requires way { All (IsTurn tree.now) way.now }
    requires splits { All (HasSplitRow (length limits.now)) tree.now }
    ensures width { IfOk result (λ s. s.width ≡ length limits.now) }
    ensures rows { IfOk result (λ s. s.rows ≡ box_rows (length limits.now) limits.now ++ way_rows tree.now way.now) }
{
    let mut system = System::new(alloc, limits.len() as u32);
    push_box(alloc, &mut system, limits)?;
    for turn in way {
        system.push(turn_row(alloc, tree, *turn, limits.len())?)?;
    }
    Ok(system)
}
