//! Solutions of the equations, and products with the extended counts.

ghost use Rattle.std.specs.Prelude.{◌≡◌, ◌+◌, ◌<◌, ◌≤◌, length, IfOk, IfSome, MatchResult};
ghost use Rattle.mpc_space.specs.Vector.{dot, listed, mat_vec};
ghost use Rattle.mpc_space.specs.Matrix.{height, entry};
ghost use Rattle.mpc_space.specs.Definite.{IsDefinite};
ghost use Rattle.mpc_sets.specs.RowSet.{IsSetOfRows};
ghost use Rattle.mpc_linear.specs.Dot.{DotFits};
ghost use Rattle.mpc_linear.specs.Solution.{IsOnlySolution};
ghost use Rattle.mpc_rows.specs.ActiveSets.{IsIndependentSet};
ghost use Rattle.mpc_rows.specs.SetRuns.{law_matrix};
ghost use Rattle.mpc_online.specs.Widths.{ProductsFit, EliminationFits};
ghost use Rattle.mpc_wholes.specs.Wholes.{IsOver};
ghost use Rattle.mpc_online.specs.Wholes.{AreRowsOver};
ghost use Rattle.mpc_online.specs.Answers.{IfStopWide};
ghost use Rattle.mpc_online.specs.declared.solutions.Stop.TheVariants.{Wide as wide_stop, NoMemory as no_memory};

use crate::wholes::dot_in_wholes;
use mpc_frac::{Frac, NoMemory, Wide};
use mpc_linear::{LinearError, Matrix, Solved, dot_from, solve};
use mpc_rows::Qp;
use mpc_sets::ActiveSet;
use mpc_systems::law_matrix;
use mpc_wholes::{Wholes, over_one_denominator};
use std::alloc::{AllocError, AllocFailed, Global};

/// Why a step isn't done.
#[derive(Clone, Copy, Debug, Drop)]
pub enum Stop {
    /// A number needs more than 128 bits.
    Wide,
    /// There is no more memory.
    NoMemory,
}

impl From<Wide> for Stop {
    ghost from_gives = { λ _ e. e ≡ wide_stop };

    fn from(_error: Wide) -> Stop {
        Stop::Wide
    }
}

impl From<NoMemory> for Stop {
    ghost from_gives = { λ _ e. e ≡ no_memory };

    fn from(_error: NoMemory) -> Stop {
        Stop::NoMemory
    }
}

impl From<AllocError> for Stop {
    ghost from_gives = { λ _ e. e ≡ no_memory };

    fn from(_error: AllocError) -> Stop {
        Stop::NoMemory
    }
}

impl<T: Drop> From<AllocFailed<T>> for Stop {
    ghost from_gives = { λ _ e. e ≡ no_memory };

    fn from(_error: AllocFailed<T>) -> Stop {
        Stop::NoMemory
    }
}

/// The dot of two lists: the products are added from left to right to 0.
pub fn dot_of(left: &[Frac], right: &[Frac]) -> Result<Frac, Wide>
    requires { length left.now ≡ length right.now }
    ensures value { IfOk result (λ v. v ≡ dot left.now right.now) }
    ensures wide { MatchResult result (λ _. DotFits left.now right.now) (λ _. ¬ DotFits left.now right.now) }
{
    dot_from(&Frac::whole(0), left, right)
}

/// The dot of a row and a list: in whole numbers, where these are small, and else in fractions.
fn row_dot(
    row: &[Frac],
    row_whole: &Option<Wholes>,
    list: &[Frac],
    list_whole: &Option<Wholes>,
) -> Result<Frac, Wide>
    requires few { length list.now ≤ 6 }
    requires size { length row.now ≡ length list.now }
    requires row_whole { IfSome row_whole.now (IsOver row.now) }
    requires list_whole { IfSome list_whole.now (IsOver list.now) }
    ensures value { IfOk result (λ v. v ≡ dot row.now list.now) }
    ensures wide { MatchResult result (λ _. DotFits row.now list.now) (λ _. ¬ DotFits row.now list.now) }
{
    if let Some(left) = row_whole {
        if let Some(right) = list_whole {
            if let Some(value) = dot_in_wholes(left, right, list.len()) {
                return Ok(value);
            }
        }
    }
    dot_of(row, list)
}

/// The dots of the rows of the matrix with the list.
pub fn products(
    alloc: Global,
    matrix: &Matrix,
    list: &[Frac],
    rows: &[Option<Wholes>],
) -> Result<Vec<Frac>, Stop>
    requires size { matrix.now.columns ≡ length list.now }
    requires few { length list.now ≤ 6 }
    requires rows { AreRowsOver matrix.now rows.now }
    ensures value { IfOk result (λ v. v.items ≡ mat_vec matrix.now.rows list.now) }
    ensures wide { MatchResult result (λ _. ProductsFit matrix.now list.now) (λ e. IfStopWide e (¬ ProductsFit matrix.now list.now)) }
{
    let _columns = matrix.cols();
    let whole = over_one_denominator(list);
    let mut out = Vec::with_capacity(alloc, matrix.rows() as usize)?;
    for index in 0..matrix.rows() {
        match row_dot(matrix.row(index), &rows[index as usize], list, &whole) {
            Ok(value) => out.push(value)?,
            Err(_) => return Err(Stop::Wide),
        }
    }
    Ok(out)
}

/// The one solution of the equations of an independent set with these right sides.
pub fn solution(alloc: Global, qp: &Qp, set: ActiveSet, right: &Matrix) -> Result<Matrix, Stop>
    requires definite { IsDefinite qp.now.h.rows }
    requires set_of_rows { IsSetOfRows (height qp.now.g) set }
    requires independent { IsIndependentSet qp.now set }
    requires rows { height right.now ≡ height qp.now.h + length set }
    ensures only { IfOk result (λ x. IsOnlySolution (law_matrix qp.now set) right.now x) }
    ensures wide { MatchResult result (λ _. EliminationFits (law_matrix qp.now set) right.now)
        (λ e. IfStopWide e (¬ EliminationFits (law_matrix qp.now set) right.now)) }
{
    let matrix = law_matrix(alloc, qp, set)?;
    match solve(alloc, &matrix, right) {
        Ok(Solved::Unique(solved)) => Ok(solved),
        Ok(Solved::Dependent(_)) => unreachable!(),
        Err(LinearError::Wide(_)) => Err(Stop::Wide),
        Err(LinearError::NoMemory) => Err(Stop::NoMemory),
    }
}

/// So many entries of the first column of the solution, from the row `first` on.
pub fn part(alloc: Global, solved: &Matrix, first: u32, count: u32) -> Result<Vec<Frac>, AllocError>
    requires rows { first + count ≤ height solved.now }
    requires column { 0 < solved.now.columns }
    ensures { IfOk result (λ v. v.items ≡ listed count (λ i. entry solved.now (first + i) 0)) }
{
    let _rows = solved.rows();
    let mut out = Vec::with_capacity(alloc, count as usize)?;
    for index in 0..count {
        out.push(solved.get(first + index, 0))?;
    }
    Ok(out)
}
