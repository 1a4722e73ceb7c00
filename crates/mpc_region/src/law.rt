//! The law of an active set.

ghost use Rattle.std.specs.Prelude.{◌≡◌, ◌+◌, ◌≤◌, IfOk, IfSome, length};
ghost use Rattle.mpc_space.specs.Definite.{IsDefinite};
ghost use Rattle.mpc_space.specs.Matrix.{height};
ghost use Rattle.mpc_sets.specs.RowSet.{IsSetOfRows};
ghost use Rattle.mpc_linear.specs.Solution.{IsOnlySolution};
ghost use Rattle.mpc_rows.specs.Laws.{IsLaw};
ghost use Rattle.mpc_rows.specs.SetRuns.{law_matrix, law_right};
ghost use Rattle.mpc_systems.specs.Equations.{AreMemberPlaces};
ghost use Rattle.mpc_region.specs.LawEnd.{IsLawEnd};
ghost use Rattle.mpc_region.specs.Shared.{AreSidePlaces, IsKeptTable, IsSharedBySets};

use crate::matrices::{law_right, part};
use crate::shared::{Shared, form, side_places};
use mpc_bordered::{Kept, solve_part};
use mpc_frac::NoMemory;
use mpc_linear::{LinearError, Matrix, Solved, solve};
use mpc_rows::{Law, Qp, law_theorems};
use mpc_sets::ActiveSet;
use mpc_systems::{law_matrix, member_places};
use std::alloc::Global;

/// What is found of the law of an active set.
#[derive(Drop)]
pub enum LawEnd {
    /// The set's rows are dependent.
    Dependent,
    /// The elimination forms a number that needs more than 128 bits.
    Wide,
    /// The law.
    Found(Law),
}

/// The law whose forms are the rows of the solution.
fn law_from(alloc: Global, qp: &Qp, set: ActiveSet, solution: &Matrix) -> Result<Law, NoMemory>
    requires set_of_rows { IsSetOfRows (height qp.now.g) set }
    requires few { length set ≤ height qp.now.h }
    requires solution { IsOnlySolution (law_matrix qp.now set) (law_right qp.now set) solution.now }
    ensures set { IfOk result (λ law. law.set ≡ set) }
    ensures law { IfOk result (λ law. IsLaw qp.now law) }
{
    let unknowns = qp.h.rows();
    Ok(Law {
        set,
        moves: part(alloc, solution, 0, unknowns)?,
        mults: part(alloc, solution, unknowns, set.size())?,
    })
}

/// How the elimination of these equations, which are those of the active set, ends.
fn law_solved(
    alloc: Global,
    qp: &Qp,
    set: ActiveSet,
    matrix: &Matrix,
    right: &Matrix,
) -> Result<LawEnd, NoMemory>
    requires definite { IsDefinite qp.now.h.rows }
    requires set_of_rows { IsSetOfRows (height qp.now.g) set }
    requires few { length set ≤ height qp.now.h }
    requires matrix { matrix.now ≡ law_matrix qp.now set }
    requires right { right.now ≡ law_right qp.now set }
    ensures { IfOk result (IsLawEnd qp.now set) }
{
    match solve(alloc, matrix, right) {
        Ok(Solved::Unique(solution)) => Ok(LawEnd::Found(law_from(alloc, qp, set, &solution)?)),
        Ok(Solved::Dependent(_)) => Ok(LawEnd::Dependent),
        Err(LinearError::Wide(_)) => Ok(LawEnd::Wide),
        Err(LinearError::NoMemory) => Err(NoMemory),
    }
}

/// The law of an active set, by elimination of its equations.
fn law_anew(alloc: Global, qp: &Qp, set: ActiveSet) -> Result<LawEnd, NoMemory>
    requires definite { IsDefinite qp.now.h.rows }
    requires set_of_rows { IsSetOfRows (height qp.now.g) set }
    requires few { length set ≤ height qp.now.h }
    ensures { IfOk result (IsLawEnd qp.now set) }
{
    let matrix = law_matrix(alloc, qp, set)?;
    let right = law_right(alloc, qp, set)?;
    law_solved(alloc, qp, set, &matrix, &right)
}

/// How the elimination of a part of what is kept ends, at the places of the active set. Nothing where what is
/// kept isn't enough.
fn part_solved(
    alloc: Global,
    qp: &Qp,
    table: &Kept,
    set: ActiveSet,
    places: &[u32],
    sides: &[u32],
) -> Result<Option<LawEnd>, NoMemory>
    requires definite { IsDefinite qp.now.h.rows }
    requires table { IsKeptTable qp.now table.now }
    requires set_of_rows { IsSetOfRows (height qp.now.g) set }
    requires few { length set ≤ height qp.now.h }
    requires places { AreMemberPlaces (height qp.now.h) set places.now }
    requires sides { AreSidePlaces (height qp.now.h + height qp.now.g) (length qp.now.counts + 1) sides.now }
    ensures { IfOk result (λ o. IfSome o (IsLawEnd qp.now set)) }
{
    match solve_part(alloc, table, places, sides) {
        Ok(None) => Ok(None),
        Ok(Some(Solved::Unique(solution))) => Ok(Some(LawEnd::Found(law_from(
            alloc, qp, set, &solution,
        )?))),
        Ok(Some(Solved::Dependent(_))) => Ok(Some(LawEnd::Dependent)),
        Err(LinearError::Wide(_)) => Ok(Some(LawEnd::Wide)),
        Err(LinearError::NoMemory) => Err(NoMemory),
    }
}

/// The law of an active set, by what is kept for all sets of the program. Nothing where that isn't enough.
fn law_by_table(
    alloc: Global,
    qp: &Qp,
    table: &Kept,
    set: ActiveSet,
) -> Result<Option<LawEnd>, NoMemory>
    requires definite { IsDefinite qp.now.h.rows }
    requires table { IsKeptTable qp.now table.now }
    requires set_of_rows { IsSetOfRows (height qp.now.g) set }
    requires few { length set ≤ height qp.now.h }
    ensures { IfOk result (λ o. IfSome o (IsLawEnd qp.now set)) }
{
    law_theorems();
    let unknowns = qp.h.rows();
    let places = member_places(alloc, unknowns, set)?;
    let sides = side_places(alloc, unknowns + qp.g.rows(), qp.f.cols())?;
    part_solved(alloc, qp, table, set, &places, &sides)
}

/// The law of an active set, by an elimination in fractions: behind the columns of the Hessian, which are
/// eliminated once for all sets of the program, and where that isn't enough from nothing.
pub fn law_of(
    alloc: Global,
    qp: &Qp,
    shared: &mut Shared,
    set: ActiveSet,
) -> Result<LawEnd, NoMemory>
    requires definite { IsDefinite qp.now.h.rows }
    requires shared { IsSharedBySets qp.now shared.old }
    requires set_of_rows { IsSetOfRows (height qp.now.g) set }
    requires few { length set ≤ height qp.now.h }
    ensures shared { IsSharedBySets qp.now shared.new }
    ensures end { IfOk result (IsLawEnd qp.now set) }
{
    form(alloc, qp, shared)?;
    if let Some(table) = &shared.table {
        if let Some(end) = law_by_table(alloc, qp, table, set)? {
            return Ok(end);
        }
    }
    law_anew(alloc, qp, set)
}
