//! Why plants and controllers are refused.

ghost use Rattle.mpc_theorem.specs.CheckTheorems.{FindsNotDefinite, FindsTooWide};
ghost use Rattle.mpc_theorem.specs.Stages.{PlantNotDefinite, PlantTooWide};
ghost use Rattle.mpc_theorem.specs.StateTheorems.{SolvesTooWide, TightensWideRow};

use mpc_condense::{one_program, place_theorems};
use mpc_rows::law_theorems;
use mpc_systems::cell_theorems;
use mpc_tree::{one_tree, table_theorems};

/// A plant on the way to its verdicts or its controller is refused for one of these causes: a pivot of its program, or a place that is too
/// wide of its program or of a stage behind it. The call does nothing: its clauses are the theorem.
pub fn plant_refusals()
    ensures not_definite { PlantNotDefinite }
    ensures too_wide { PlantTooWide }
{
    one_program();
    place_theorems();
    law_theorems();
    cell_theorems();
    table_theorems();
    one_tree();
}

/// What the checker finds of a controller's plant is why its program is refused. The call does nothing: its clauses are the theorem.
pub fn check_refusals()
    ensures not_definite { FindsNotDefinite }
    ensures too_wide { FindsTooWide }
{
    place_theorems();
}

/// Where the program of recorded states is refused, or a row that is tightened, it is for one of these causes. The call does nothing: its
/// clauses are the theorem.
pub fn state_refusals()
    ensures too_wide { SolvesTooWide }
    ensures row { TightensWideRow }
{
    place_theorems();
}
