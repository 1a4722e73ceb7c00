//! Positive definiteness of a symmetric matrix, by pivots.
#![tactic(auto)]

ghost use Rattle.std.specs.Prelude.{◌≡◌, ◌≢◌, ◌+◌, ◌<◌, ◌≤◌, pos, IfOk, IfErr, OnOk, MatchResult};
ghost use Rattle.mpc_exact.specs.Rational.{int};
ghost use Rattle.mpc_space.specs.Vector.{IsSymmetric};
ghost use Rattle.mpc_space.specs.Matrix.{height, entry};
ghost use Rattle.mpc_space.specs.Definite.{IsDefinite};
ghost use Rattle.mpc_definite.specs.Pivots.{IsDecomposition, PassesBelow, RowFits, StepFits};
ghost use Rattle.mpc_definite.specs.Steps.{IsSquare, IsLowerOf, CopiesRow, EliminatesRow, EliminatesColumn};
ghost use Rattle.mpc_definite.specs.Causes.{IsCause, Disproves};
ghost use Rattle.mpc_definite.specs.declared.DefiniteError.TheVariants.{NoMemory as OutOfMemory};

mod theorems;

use mpc_frac::{Frac, NoMemory, Wide};
use mpc_linear::{Matrix, Vector, sub_product};
use std::alloc::Global;
pub use theorems::pivot_theorems;
use thiserror::Error;

/// A symmetric matrix as `l d l'`.
#[derive(Drop)]
pub struct Definite {
    /// Lower triangular, with ones on its diagonal.
    pub l: Matrix,
    /// The pivots, which are the entries of the diagonal matrix d; all of them are positive.
    pub d: Vector,
}

/// Why a matrix has no decomposition with positive pivots. Steps and pivots are counted from 1.
#[derive(Clone, Copy, Debug, PartialEq, Eq, Drop, Error)]
pub enum DefiniteError {
    /// This pivot is the first that isn't positive, so the matrix isn't positive definite.
    #[error("the matrix isn't positive definite: pivot {0} isn't positive")]
    NotDefinite(u32),
    /// This step is the first with a number of 2^127 or more in size.
    #[error("pivot step {0} needs numbers of more than 128 bits")]
    Wide(u32),
    /// There is no more memory.
    #[error("out of memory")]
    NoMemory,
}

impl From<NoMemory> for DefiniteError {
    ghost from_gives = { λ _ e. e ≡ OutOfMemory };

    fn from(_error: NoMemory) -> DefiniteError {
        DefiniteError::NoMemory
    }
}

/// Copies a row up to the diagonal.
fn copy_row(lower: &mut Matrix, matrix: &Matrix, row: u32)
    requires square { IsSquare matrix.now }
    requires same { IsSquare lower.old }
    requires height { height lower.old ≡ height matrix.now }
    requires row { row < height matrix.now }
    ensures { CopiesRow matrix.now lower.old lower.new row }
{
    prove!(row < matrix.rows());
    for k in 0..row + 1 {
        lower.set(row, k, matrix.get(row, k));
    }
}

/// The matrix on and below its diagonal, with zeros above.
fn lower_triangle(alloc: Global, matrix: &Matrix) -> Result<Matrix, NoMemory>
    requires { IsSquare matrix.now }
    ensures { IfOk result (IsLowerOf matrix.now) }
{
    let mut lower = Matrix::zero(alloc, matrix.rows(), matrix.cols())?;
    for row in 0..matrix.rows() {
        copy_row(&mut lower, matrix, row);
    }
    Ok(lower)
}

/// Takes the part of the row of the column's number that clears the column away from the row, up to the diagonal, and leaves the factor in its place.
fn eliminate_row(lower: &mut Matrix, column: u32, row: u32) -> Result<(), Wide>
    requires square { IsSquare lower.old }
    requires below { column < row }
    requires within { row < height lower.old }
    requires pivot { entry lower.old column column ≢ int (pos 0) }
    ensures ok { OnOk result (EliminatesRow lower.old lower.new column row) }
    ensures wide { MatchResult result (λ _. RowFits (entry lower.old) column row) (λ _. ¬ RowFits (entry lower.old) column row) }
{
    prove!(row < lower.rows());
    let factor = lower.get(row, column).div(&lower.get(column, column))?;
    for k in column + 1..row + 1 {
        let rest = sub_product(&lower.get(row, k), &factor, &lower.get(k, column))?;
        lower.set(row, k, rest);
    }
    lower.set(row, column, factor);
    Ok(())
}

/// Clears the column below the diagonal, last row first, since each row is cleared with entries of the column in the rows above it.
fn eliminate_column(lower: &mut Matrix, column: u32) -> Result<(), Wide>
    requires square { IsSquare lower.old }
    requires within { column < height lower.old }
    requires pivot { entry lower.old column column ≢ int (pos 0) }
    ensures ok { OnOk result (EliminatesColumn lower.old lower.new column) }
    ensures wide { MatchResult result (λ _. StepFits (entry lower.old) (height lower.old) column)
        (λ _. ¬ StepFits (entry lower.old) (height lower.old) column) }
{
    let rows = lower.rows();
    for row in (column + 1..rows).rev() {
        eliminate_row(lower, column, row)?;
    }
    Ok(())
}

/// The decomposition `matrix = l d l'` of a positive definite matrix (Gauss; Golub and Van Loan, 1996, 4.1).
///
/// Answers at the first step whose pivot isn't positive, as `NotDefinite`, or that has a number of 2^127 or more in size, as `Wide`.
pub fn pivots(alloc: Global, matrix: &Matrix) -> Result<Definite, DefiniteError>
    requires square { matrix.now.columns ≡ height matrix.now }
    requires symmetric { IsSymmetric matrix.now.rows }
    ensures decomposed { IfOk result (λ r. IsDecomposition matrix.now r.l r.d) }
    ensures definite { OnOk result (IsDefinite matrix.now.rows) }
    ensures passes { OnOk result (PassesBelow (entry matrix.now) (height matrix.now) (height matrix.now)) }

    ensures cause { IfErr result (IsCause (entry matrix.now) (height matrix.now)) }
    ensures not_definite { IfErr result (Disproves matrix.now.rows) }
{
    let rows = matrix.rows();
    let mut lower = lower_triangle(alloc, matrix)?;
    let mut diagonal = Vector::with_capacity(alloc, rows as usize)?;
    for column in 0..rows {
        let pivot = lower.get(column, column);
        if pivot.sign() <= 0 {
            return Err(DefiniteError::NotDefinite(column + 1));
        }
        let Ok(()) = eliminate_column(&mut lower, column) else {
            return Err(DefiniteError::Wide(column + 1));
        };
        diagonal.push(pivot)?;
        lower.set(column, column, Frac::whole(1));
    }
    Ok(Definite {
        l: lower,
        d: diagonal,
    })
}
