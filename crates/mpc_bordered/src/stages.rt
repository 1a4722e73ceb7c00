//! Further columns beside those whose elimination is kept.

ghost use Rattle.std.specs.Prelude.{◌≡◌, suc, ◌<◌, IfOk, IfSome, IsTrue};
ghost use Rattle.mpc_exact.specs.Rational.{neg_ℚ};
ghost use Rattle.mpc_space.specs.Matrix.{height, entry};
ghost use Rattle.mpc_linear.specs.Elimination.{Table};
ghost use Rattle.mpc_bordered.specs.Filling.{FillsRow};
ghost use Rattle.mpc_bordered.specs.Stages.{IsStage, IsOpposite, IsNextNumber, ColumnForms, CombinedAnswers};

use crate::Kept;
use crate::entries::{divided, next_entry};
use mpc_frac::{Frac, NoMemory};
use mpc_linear::{Matrix, elimination_theorems};
use std::alloc::Global;

/// Where the operations fit that eliminate the first columns and those that this makes of a combination of further columns, the combination of
/// what it makes of these is the one solution. The call does nothing: its contract is the theorem.
pub fn combined_theorems()
    ensures { CombinedAnswers }
{
    elimination_theorems();
}

/// Writes this row of the columns with the other sign.
fn write_opposite(out: &mut Matrix, columns: &Matrix, row: u32)
    requires row { row < height columns.now }
    requires rows { height out.old ≡ height columns.now }
    requires columns { out.old.columns ≡ columns.now.columns }
    ensures { FillsRow (IsOpposite columns.now row) out.old out.new row }
{
    let _sizes = (out.rows(), columns.rows());
    for column in 0..out.cols() {
        let number = columns.get(row, column).neg();
        let _fits = number.num();
        out.set(row, column, number);
    }
}

/// The columns with the other sign, as they are before any column is eliminated.
pub fn first_stage(alloc: Global, columns: &Matrix) -> Result<Matrix, NoMemory>
    ensures { IfOk result (λ s. (t : Table) → IsStage t (height columns.now) (λ i j. neg_ℚ (entry columns.now i j)) columns.now.columns 0 s) }
{
    let mut out = Matrix::zero(alloc, columns.rows(), columns.cols())?;
    for row in 0..columns.rows() {
        write_opposite(&mut out, columns, row);
    }
    Ok(out)
}

/// Whether each number of the column is kept, in the first rows.
fn is_kept(kept: &Kept, pivot_column: u32) -> bool
    requires { pivot_column < kept.now.front }
    ensures { IsTrue result → ColumnForms (entry kept.now.table) kept.now.front pivot_column }
{
    for row in 0..kept.front {
        let Some(_number) = kept.at(row, pivot_column) else {
            return false;
        };
    }
    true
}

/// The number in this row and column of further columns, once the pivot's column is eliminated too.
fn next_number(
    kept: &Kept,
    stage: &Matrix,
    pivot_column: u32,
    row: u32,
    column: u32,
) -> Option<Frac>
    requires column { pivot_column < kept.now.front }
    requires rows { height stage.now ≡ kept.now.front }
    requires row { row < kept.now.front }
    requires place { column < stage.now.columns }
    ensures { IfSome result (IsNextNumber (entry kept.now.table) kept.now.front stage.now pivot_column row column) }
{
    let _rows = stage.rows();
    let quotient = divided(
        Some(stage.get(pivot_column, column)),
        kept.at(pivot_column, pivot_column),
    );
    next_entry(
        row as usize,
        pivot_column as usize,
        Some(stage.get(row, column)),
        kept.at(row, pivot_column),
        &quotient,
    )
}

/// Writes this row of further columns once the pivot's column is eliminated too. Where a number on the way to one isn't kept or is too wide, it
/// says so.
fn write_next(out: &mut Matrix, kept: &Kept, stage: &Matrix, pivot_column: u32, row: u32) -> bool
    requires column { pivot_column < kept.now.front }
    requires rows { height stage.now ≡ kept.now.front }
    requires row { row < kept.now.front }
    requires height { height out.old ≡ kept.now.front }
    requires columns { out.old.columns ≡ stage.now.columns }
    ensures { IsTrue result → FillsRow (IsNextNumber (entry kept.now.table) kept.now.front stage.now pivot_column row) out.old out.new row }
{
    let _rows = out.rows();
    for column in 0..out.cols() {
        let Some(number) = next_number(kept, stage, pivot_column, row, column) else {
            return false;
        };
        out.set(row, column, number);
    }
    true
}

/// The further columns once the pivot's column is eliminated too, where all numbers on the way to them are kept and fit.
pub fn next_stage(
    alloc: Global,
    kept: &Kept,
    stage: &Matrix,
    pivot_column: u32,
) -> Result<Option<Matrix>, NoMemory>
    requires column { pivot_column < kept.now.front }
    requires rows { height stage.now ≡ kept.now.front }
    ensures stage { IfOk result (λ o. IfSome o (λ next. (f : Table) → IsStage (entry kept.now.table) kept.now.front f stage.now.columns pivot_column stage.now
        → IsStage (entry kept.now.table) kept.now.front f stage.now.columns (suc pivot_column) next)) }
    ensures column { IfOk result (λ o. IfSome o (λ _. ColumnForms (entry kept.now.table) kept.now.front pivot_column)) }
{
    if !is_kept(kept, pivot_column) {
        return Ok(None);
    }
    let mut out = Matrix::zero(alloc, kept.front, stage.cols())?;
    for row in 0..kept.front {
        if !write_next(&mut out, kept, stage, pivot_column, row) {
            return Ok(None);
        }
    }
    Ok(Some(out))
}
