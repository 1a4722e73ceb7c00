//! All rows that the turns of a tree ask of the point behind one step.

ghost use Rattle.std.specs.Prelude.{◌≡◌, ◌+◌, ◌<◌, ◌≤◌, ◌++◌, ◌∷◌, [], All, IsTrue, IfOk, IfSome, length};
ghost use Rattle.mpc_recur.specs.Asked.{AreAsked};
ghost use Rattle.mpc_recur.specs.Forms.{substituted, SubstitutedFits};
ghost use Rattle.mpc_controller.specs.Ways.{HasSplitRow, IsTurn, turn_row};

use crate::answers::StageError;
use crate::rows::substituted;
use crate::systems::turn_row;
use mpc_controller::Turn;
use mpc_frac::NoMemory;
use mpc_linear::Vector;
use mpc_rows::{Node, Tree};
use mpc_scaled::WholeSystem;
use std::alloc::Global;

/// Puts the row that a turn asks behind the others, if none of its numbers is too wide and it is small.
fn push_turn(
    alloc: Global,
    rows: &mut WholeSystem,
    tree: &Tree,
    forms: &[Vector],
    turn: Turn,
) -> Result<bool, NoMemory>
    requires few { length forms.now ≤ 4 }
    requires affine { All (λ form. length form ≡ length forms.now + 1) forms.now }
    requires width { rows.old.width ≡ length forms.now }
    requires turn { IsTurn tree.now turn }
    requires splits { All (HasSplitRow (length forms.now)) tree.now }
    ensures width { rows.new.width ≡ rows.old.width }
    ensures rows { IfOk result (λ done. IsTrue done → rows.new.rows ≡ rows.old.rows ++ substituted (length forms.now) forms.now (turn_row tree.now turn) ∷ []) }
    ensures fits { IfOk result (λ done. IsTrue done → SubstitutedFits (length forms.now) forms.now (turn_row tree.now turn)) }
{
    let row = turn_row(alloc, tree, turn, forms.len())?;
    match substituted(alloc, &row, forms) {
        Ok(asked) => {
            let done = rows.push(&asked)?;
            Ok(done)
        }
        Err(StageError::TooWide) => Ok(false),
        Err(StageError::OutOfMemory) => Err(NoMemory),
    }
}

/// Puts the rows that the two turns at a split ask behind the others, if the node at this place is one. Whether all are there.
fn push_turns(
    alloc: Global,
    rows: &mut WholeSystem,
    tree: &Tree,
    forms: &[Vector],
    split: usize,
) -> Result<bool, NoMemory>
    requires few { length forms.now ≤ 4 }
    requires affine { All (λ form. length form ≡ length forms.now + 1) forms.now }
    requires splits { All (HasSplitRow (length forms.now)) tree.now }
    requires inside { split < length tree.now }
    requires before { AreAsked tree.now forms.now split rows.old }
    ensures { IfOk result (λ done. IsTrue done → AreAsked tree.now forms.now (split + 1) rows.new) }
{
    let Node::Split(_) = tree.at(split) else {
        return Ok(true);
    };
    let yes = Turn { split, yes: true };
    if !push_turn(alloc, rows, tree, forms, yes)? {
        return Ok(false);
    }
    let no = Turn { split, yes: false };
    push_turn(alloc, rows, tree, forms, no)
}

/// The rows that all turns ask, if none of their numbers is too wide and each is small.
pub fn asked_rows(
    alloc: Global,
    tree: &Tree,
    forms: &[Vector],
) -> Result<Option<WholeSystem>, NoMemory>
    requires few { length forms.now ≤ 4 }
    requires affine { All (λ form. length form ≡ length forms.now + 1) forms.now }
    requires splits { All (HasSplitRow (length forms.now)) tree.now }
    ensures { IfOk result (λ o. IfSome o (AreAsked tree.now forms.now (length tree.now))) }
{
    let mut rows = WholeSystem::new(alloc, forms.len() as u32)?;
    for split in 0..tree.len() {
        if !push_turns(alloc, &mut rows, tree, forms, split)? {
            return Ok(None);
        }
    }
    Ok(Some(rows))
}
