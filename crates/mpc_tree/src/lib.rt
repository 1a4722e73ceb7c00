//! The search tree over the states of a box that finds the law of a state, with a certificate of what is claimed at each leaf.
#![tactic(auto)]

ghost use Rattle.std.specs.Prelude.{All, IfOk, MatchResult};
ghost use Rattle.mpc_space.specs.Definite.{IsDefinite};
ghost use Rattle.mpc_space.specs.Matrix.{height};
ghost use Rattle.mpc_rows.specs.Candidates.{IsTable};
ghost use Rattle.mpc_rows.specs.SetRuns.{LawRowsFit};
ghost use Rattle.mpc_tree.specs.Causes.{IfWide};
ghost use Rattle.mpc_tree.specs.Certified.{IsCertified};
ghost use Rattle.mpc_tree.specs.LeafCerts.{HasItsCerts};
ghost use Rattle.mpc_tree.specs.NodeRuns.{IsFittingTree};
ghost use Rattle.mpc_tree.specs.Trees.{whole_box, IsTreeOf, IsTreeWhere, IsRightlyEmpty, AnySplit};
ghost use Rattle.mpc_tree.specs.WideRuns.{IsFirstWide};

mod borders;
mod certs;
mod errors;
mod frontier;
mod growth;
mod joints;
mod missed;
mod nodes;
mod refusals;
mod rows;
mod runs;
mod theorems;
mod threads;

use borders::all_borders;
pub use errors::TreeError;
use mpc_cover::cover_theorems;
use mpc_rows::{LawTable, Qp, Tree};
use mpc_sets::count_theorems;
use runs::{KeptCell, OpenCell};
use std::alloc::Global;
pub use theorems::{multipliers_are_cert, one_tree, table_theorems};
pub use threads::Grow;
use threads::grown_by;

/// The search tree of a table of laws over the box (Tøndel, Johansen and Bemporad, 2003): at each
/// cell the first law whose region meets it. The cell is a leaf where it lies in that region, and
/// else divided by the region's first row that fails on it; a cell that no region meets is a leaf
/// without a law. The nodes stand in preorder, the side where a row holds before the other.
///
/// At a leaf with a law there is one certificate for each row of the program, in their order: of
/// the box, the cell and the law's row negated and strict. At a leaf without one there is the
/// certificate of the box, the cell and all rows of the program. They are the multipliers at the
/// ends of the runs of the simplex method by least numbers that decide the leaf.
///
/// Where `by` has threads, cells of the upper part of a large tree are divided at once, and so are those
/// below it built. The tree is the same whether they are or not. Where one is refused, what comes after it in preorder is given up.
///
/// `Wide` names the first run, node by node in preorder, with a number that needs more than 128 bits.
pub fn build<G: Grow>(by: &G, alloc: Global, qp: &Qp, laws: &LawTable) -> Result<Tree, TreeError>
    requires definite { IsDefinite qp.now.h.rows }
    requires table { IsTable qp.now laws.now }
    requires rows_fit { All (λ law. LawRowsFit qp.now law (height qp.now.g)) laws.now }
    ensures tree { IfOk result (λ nodes. IsTreeOf qp.now laws.now whole_box nodes) }
    ensures certs { IfOk result (λ nodes. IsTreeWhere AnySplit (HasItsCerts qp.now laws.now) whole_box nodes) }
    ensures certified { IfOk result (λ nodes. IsCertified qp.now laws.now whole_box nodes) }
    ensures no_move { IfOk result (λ nodes. IsTreeWhere AnySplit (IsRightlyEmpty qp.now) whole_box nodes) }

    // The runs are those of the search in preorder.
    ensures wide { MatchResult result (λ nodes. IsFittingTree qp.now laws.now whole_box nodes)
        (λ e. IfWide e (IsFirstWide qp.now laws.now whole_box 1)) }
{
    cover_theorems();
    count_theorems();
    let borders = all_borders(alloc, qp, laws)?;
    let cell = KeptCell::of(alloc, qp, Vec::new(alloc))?;
    let root = OpenCell { cell, next: 0 };
    grown_by(by, alloc, qp, laws, &borders, root)
}
