//! The rows that a way asks of the point behind one step, kept from one way to the next.

ghost use Rattle.std.specs.Prelude.{◌≡◌, ◌+◌, ◌≤◌, [], All, IsTrue, IfOk, OnOk, MatchResult, length, take};
ghost use Rattle.mpc_recur.specs.Forms.{SubstitutedFits};
ghost use Rattle.mpc_recur.specs.Met.{AreMet};
ghost use Rattle.mpc_recur.specs.Stages.{IfTooWide};
ghost use Rattle.mpc_controller.specs.Ways.{HasSplitRow, IsTurn, way_rows};

use crate::answers::StageError;
use crate::bases::TargetRows;
use crate::rows::substituted;
use crate::systems::turn_row;
use mpc_controller::Turn;
use mpc_frac::NoMemory;
use mpc_linear::Vector;
use mpc_rows::Tree;
use mpc_simplex::Workspace;
use std::alloc::Global;

/// The point behind one step as forms, one a coordinate, and the rows of the last way with these in place of the coordinates.
#[derive(Drop)]
pub struct Met {
    pub forms: Vec<Vector>,
    pub turns: Vec<Turn>,
    pub rows: TargetRows,
    pub work: Workspace,
}

/// Whether the turns are the same.
fn is_same(first: Turn, second: Turn) -> bool
    ensures { IsTrue result → first ≡ second }
{
    first.split == second.split && first.yes == second.yes
}

/// The same way once more.
fn copied(alloc: Global, way: &[Turn]) -> Result<Vec<Turn>, NoMemory>
    ensures { IfOk result (λ copy. copy.items ≡ way.now) }
{
    let copy = way.to_vec(alloc)?;
    Ok(copy)
}

/// How many turns the two ways share from the root on.
fn shared(first: &[Turn], second: &[Turn]) -> usize
    ensures inside { result ≤ length second.now }
    ensures shared { take result first.now ≡ take result second.now }
{
    let most = first.len().min(second.len());
    for k in 0..most {
        if !is_same(first[k], second[k]) {
            return k;
        }
    }
    most
}

impl Met {
    /// The rows of the way from the root to the root.
    pub fn new(alloc: Global, forms: Vec<Vector>, work: Workspace) -> Result<Met, NoMemory>
        requires { length forms.items ≤ 4 }
        ensures forms { IfOk result (λ met. met.forms.items ≡ forms.items) }
        ensures turns { IfOk result (λ met. met.turns.items ≡ []) }
        ensures width { IfOk result (λ met. met.rows.width ≡ length forms.items) }
        ensures rows { IfOk result (λ met. met.rows.rows ≡ []) }
    {
        let rows = TargetRows::new(alloc, forms.len() as u32)?;
        Ok(Met {
            forms,
            turns: Vec::new(alloc),
            rows,
            work,
        })
    }

    /// Goes on to the rows of this way: those of the turns that it shares with the last one stay. With an error they are no longer of use.
    pub fn follow(&mut self, alloc: Global, tree: &Tree, way: &[Turn]) -> Result<(), StageError>
        requires few { length self.old.forms.items ≤ 4 }
        requires affine { All (λ form. length form ≡ length self.old.forms.items + 1) self.old.forms.items }
        requires met { AreMet tree.now self.old.forms.items self.old.turns.items self.old.rows }
        requires way { All (IsTurn tree.now) way.now }
        requires splits { All (HasSplitRow (length self.old.forms.items)) tree.now }
        ensures forms { OnOk result (self.new.forms.items ≡ self.old.forms.items) }
        ensures turns { OnOk result (self.new.turns.items ≡ way.now) }
        ensures met { OnOk result (AreMet tree.now self.old.forms.items way.now self.new.rows) }
        ensures wide { MatchResult result (λ _. All (SubstitutedFits (length self.old.forms.items) self.old.forms.items) (way_rows tree.now way.now))
            (IfTooWide (¬ All (SubstitutedFits (length self.old.forms.items) self.old.forms.items) (way_rows tree.now way.now))) }
    {
        let begin = shared(&self.turns, way);
        self.rows.truncate(alloc, begin)?;
        for k in begin..way.len() {
            let row = turn_row(alloc, tree, way[k], self.forms.len())?;
            match substituted(alloc, &row, &self.forms) {
                Ok(met) => self.rows.push(met)?,
                Err(error) => return Err(error),
            }
        }
        self.turns = copied(alloc, way)?;
        Ok(())
    }
}
