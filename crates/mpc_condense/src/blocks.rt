//! Blocks of matrices, entry by entry.

ghost use Rattle.std.specs.Prelude.{◌≡◌, ◌+◌, ◌-◌, ◌<◌, ◌≤◌, length, IfOk, OnOk, MatchResult};
ghost use Rattle.mpc_exact.specs.Rational.{◌+ℚ◌, ◌-ℚ◌, neg_ℚ};
ghost use Rattle.mpc_frac.specs.Fits.{FitsSum};
ghost use Rattle.mpc_space.specs.Vector.{coordinate, dot};
ghost use Rattle.mpc_space.specs.Matrix.{height, entry};
ghost use Rattle.mpc_linear.specs.Dot.{DotFits};
ghost use Rattle.mpc_linear.specs.Entries.{zero_matrix};
ghost use Rattle.mpc_condense.specs.Blocks.{row_at, WritesBlock, AllInBlock};
ghost use Rattle.mpc_condense.specs.Causes.{IfTooWide};

use crate::errors::StageError;
use mpc_frac::{Frac, Wide};
use mpc_linear::{Matrix, dot_from};
use std::alloc::Global;

/// The dot of two slices.
pub fn dot_of(left: &[Frac], right: &[Frac]) -> Result<Frac, Wide>
    requires { length left.now ≡ length right.now }
    ensures value { IfOk result (λ v. v ≡ dot left.now right.now) }
    ensures wide { MatchResult result (λ _. DotFits left.now right.now) (λ _. ¬ DotFits left.now right.now) }
{
    dot_from(&Frac::whole(0), left, right)
}

/// Writes the dots of the first rows of a matrix with a vector into the first columns of a row.
pub fn write_dots(
    out: &mut Matrix,
    at_row: u32,
    matrix: &Matrix,
    count: u32,
    vector: &[Frac],
) -> Result<(), Wide>
    requires row { at_row < height out.old }
    requires columns { count ≤ out.old.columns }
    requires rows { count ≤ height matrix.now }
    requires size { length vector.now ≡ matrix.now.columns }
    ensures ok { OnOk result (WritesBlock out.old out.new at_row (at_row + 1) 0 count (λ _ b. dot (row_at matrix.now b) vector.now)) }
    ensures wide { MatchResult result (λ _. AllInBlock at_row (at_row + 1) 0 count (λ _ b. DotFits (row_at matrix.now b) vector.now))
        (λ _. ¬ AllInBlock at_row (at_row + 1) 0 count (λ _ b. DotFits (row_at matrix.now b) vector.now)) }
{
    prove!(count <= out.cols() && count <= matrix.rows());
    for column in 0..count {
        let value = dot_of(matrix.row(column), vector)?;
        out.set(at_row, column, value);
    }
    Ok(())
}

/// The matrix times the first rows of `vectors`, row by row; the other rows are 0.
pub fn images(
    alloc: Global,
    matrix: &Matrix,
    vectors: &Matrix,
    used: u32,
) -> Result<Matrix, StageError>
    requires rows { used ≤ height vectors.now }
    requires size { vectors.now.columns ≡ matrix.now.columns }
    ensures ok { IfOk result (λ out. WritesBlock (zero_matrix (height vectors.now) (height matrix.now)) out 0 used 0 (height matrix.now)
        (λ a b. dot (row_at matrix.now b) (row_at vectors.now a))) }
    ensures wide { MatchResult result (λ _. AllInBlock 0 used 0 (height matrix.now) (λ a b. DotFits (row_at matrix.now b) (row_at vectors.now a)))
        (IfTooWide (¬ AllInBlock 0 used 0 (height matrix.now) (λ a b. DotFits (row_at matrix.now b) (row_at vectors.now a)))) }
{
    let size = matrix.rows();
    let mut out = Matrix::zero(alloc, vectors.rows(), size)?;
    for at_row in 0..used {
        write_dots(&mut out, at_row, matrix, size, vectors.row(at_row))?;
    }
    Ok(out)
}

/// Adds the dots of a vector with the first rows of a matrix to the first entries of a row.
fn add_dots(
    out: &mut Matrix,
    at_row: u32,
    vector: &[Frac],
    matrix: &Matrix,
    count: u32,
) -> Result<(), Wide>
    requires row { at_row < height out.old }
    requires columns { count ≤ out.old.columns }
    requires rows { count ≤ height matrix.now }
    requires size { length vector.now ≡ matrix.now.columns }
    ensures ok { OnOk result (WritesBlock out.old out.new at_row (at_row + 1) 0 count
        (λ a b. entry out.old a b +ℚ dot vector.now (row_at matrix.now b))) }
    ensures wide { MatchResult result (λ _. AllInBlock at_row (at_row + 1) 0 count
        (λ a b. DotFits vector.now (row_at matrix.now b) × FitsSum (entry out.old a b) (dot vector.now (row_at matrix.now b))))
        (λ _. ¬ AllInBlock at_row (at_row + 1) 0 count
        (λ a b. DotFits vector.now (row_at matrix.now b) × FitsSum (entry out.old a b) (dot vector.now (row_at matrix.now b)))) }
{
    prove!(count <= out.cols() && count <= matrix.rows());
    for column in 0..count {
        let product = dot_of(vector, matrix.row(column))?;
        let sum = out.get(at_row, column).add(&product)?;
        out.set(at_row, column, sum);
    }
    Ok(())
}

/// Adds the dots of the first rows of `left` with the first rows of `right`.
pub fn add_products(
    out: &mut Matrix,
    left: &Matrix,
    rows: u32,
    right: &Matrix,
    count: u32,
) -> Result<(), Wide>
    requires rows { rows ≤ height out.old }
    requires columns { count ≤ out.old.columns }
    requires left_rows { rows ≤ height left.now }
    requires right_rows { count ≤ height right.now }
    requires size { left.now.columns ≡ right.now.columns }
    ensures ok { OnOk result (WritesBlock out.old out.new 0 rows 0 count
        (λ a b. entry out.old a b +ℚ dot (row_at left.now a) (row_at right.now b))) }
    ensures wide { MatchResult result (λ _. AllInBlock 0 rows 0 count
        (λ a b. DotFits (row_at left.now a) (row_at right.now b) × FitsSum (entry out.old a b) (dot (row_at left.now a) (row_at right.now b))))
        (λ _. ¬ AllInBlock 0 rows 0 count
        (λ a b. DotFits (row_at left.now a) (row_at right.now b) × FitsSum (entry out.old a b) (dot (row_at left.now a) (row_at right.now b)))) }
{
    prove!(rows <= out.rows() && rows <= left.rows());
    for at_row in 0..rows {
        add_dots(out, at_row, left.row(at_row), right, count)?;
    }
    Ok(())
}

/// Adds a row of the matrix to the row that is `first` further down, from column `first` on.
fn add_row(out: &mut Matrix, first: u32, matrix: &Matrix, at_row: u32) -> Result<(), Wide>
    requires row { at_row < height matrix.now }
    requires rows { first + height matrix.now ≤ height out.old }
    requires columns { first + matrix.now.columns ≤ out.old.columns }
    ensures ok { OnOk result (WritesBlock out.old out.new (first + at_row) (first + at_row + 1) first (first + matrix.now.columns)
        (λ a b. entry out.old a b +ℚ entry matrix.now (a - first) (b - first))) }
    ensures wide { MatchResult result (λ _. AllInBlock (first + at_row) (first + at_row + 1) first (first + matrix.now.columns)
        (λ a b. FitsSum (entry out.old a b) (entry matrix.now (a - first) (b - first))))
        (λ _. ¬ AllInBlock (first + at_row) (first + at_row + 1) first (first + matrix.now.columns)
        (λ a b. FitsSum (entry out.old a b) (entry matrix.now (a - first) (b - first)))) }
{
    let rows = out.rows();
    let cols = out.cols();
    prove!(first < rows && first <= cols && at_row < matrix.rows());
    for column in 0..matrix.cols() {
        let sum = out
            .get(first + at_row, first + column)
            .add(&matrix.get(at_row, column))?;
        out.set(first + at_row, first + column, sum);
    }
    Ok(())
}

/// Adds a matrix to the block on the diagonal that begins at row and column `first`.
pub fn add_block(out: &mut Matrix, first: u32, matrix: &Matrix) -> Result<(), Wide>
    requires rows { first + height matrix.now ≤ height out.old }
    requires columns { first + matrix.now.columns ≤ out.old.columns }
    ensures ok { OnOk result (WritesBlock out.old out.new first (first + height matrix.now) first (first + matrix.now.columns)
        (λ a b. entry out.old a b +ℚ entry matrix.now (a - first) (b - first))) }
    ensures wide { MatchResult result (λ _. AllInBlock first (first + height matrix.now) first (first + matrix.now.columns)
        (λ a b. FitsSum (entry out.old a b) (entry matrix.now (a - first) (b - first))))
        (λ _. ¬ AllInBlock first (first + height matrix.now) first (first + matrix.now.columns)
        (λ a b. FitsSum (entry out.old a b) (entry matrix.now (a - first) (b - first)))) }
{
    prove!(first <= out.rows());
    for at_row in 0..matrix.rows() {
        add_row(out, first, matrix, at_row)?;
    }
    Ok(())
}

/// Writes a column of the matrix into row `first + column`.
fn write_column(out: &mut Matrix, first: u32, matrix: &Matrix, column: u32)
    requires column { column < matrix.now.columns }
    requires rows { first + matrix.now.columns ≤ height out.old }
    requires columns { height matrix.now ≡ out.old.columns }
    ensures { WritesBlock out.old out.new (first + column) (first + column + 1) 0 (height matrix.now) (λ a b. entry matrix.now b (a - first)) }
{
    prove!(first < out.rows() && column < matrix.cols());
    prove!(out.cols() == matrix.rows());
    for at_row in 0..matrix.rows() {
        out.set(first + column, at_row, matrix.get(at_row, column));
    }
}

/// Writes the columns of a matrix into the rows from `first` on.
pub fn write_columns(out: &mut Matrix, first: u32, matrix: &Matrix)
    requires rows { first + matrix.now.columns ≤ height out.old }
    requires columns { height matrix.now ≡ out.old.columns }
    ensures { WritesBlock out.old out.new first (first + matrix.now.columns) 0 (height matrix.now) (λ a b. entry matrix.now b (a - first)) }
{
    prove!(out.cols() == matrix.rows());
    for column in 0..matrix.cols() {
        write_column(out, first, matrix, column);
    }
}

/// Adds a vector to the first entries of a row.
pub fn add_to_row(out: &mut Matrix, at_row: u32, vector: &[Frac]) -> Result<(), Wide>
    requires row { at_row < height out.old }
    requires columns { length vector.now ≤ out.old.columns }
    ensures ok { OnOk result (WritesBlock out.old out.new at_row (at_row + 1) 0 (length vector.now) (λ a b. entry out.old a b +ℚ coordinate vector.now b)) }
    ensures wide { MatchResult result (λ _. AllInBlock at_row (at_row + 1) 0 (length vector.now) (λ a b. FitsSum (entry out.old a b) (coordinate vector.now b)))
        (λ _. ¬ AllInBlock at_row (at_row + 1) 0 (length vector.now) (λ a b. FitsSum (entry out.old a b) (coordinate vector.now b))) }
{
    let cols = out.cols();
    prove!(vector.len() <= cols as usize);
    for column in 0..vector.len() {
        let sum = out.get(at_row, column as u32).add(&vector[column])?;
        out.set(at_row, column as u32, sum);
    }
    Ok(())
}

/// Takes a vector away from the first entries of a row.
pub fn take_from_row(out: &mut Matrix, at_row: u32, vector: &[Frac]) -> Result<(), Wide>
    requires row { at_row < height out.old }
    requires columns { length vector.now ≤ out.old.columns }
    ensures ok { OnOk result (WritesBlock out.old out.new at_row (at_row + 1) 0 (length vector.now) (λ a b. entry out.old a b -ℚ coordinate vector.now b)) }
    ensures wide { MatchResult result (λ _. AllInBlock at_row (at_row + 1) 0 (length vector.now) (λ a b. FitsSum (entry out.old a b) (neg_ℚ (coordinate vector.now b))))
        (λ _. ¬ AllInBlock at_row (at_row + 1) 0 (length vector.now) (λ a b. FitsSum (entry out.old a b) (neg_ℚ (coordinate vector.now b)))) }
{
    let cols = out.cols();
    prove!(vector.len() <= cols as usize);
    for column in 0..vector.len() {
        let difference = out.get(at_row, column as u32).sub(&vector[column])?;
        out.set(at_row, column as u32, difference);
    }
    Ok(())
}

/// Takes a vector away from the first column, from row `first` on.
pub fn take_from_column(out: &mut Matrix, first: u32, vector: &[Frac]) -> Result<(), Wide>
    requires rows { first + length vector.now ≤ height out.old }
    requires column { 0 < out.old.columns }
    ensures ok { OnOk result (WritesBlock out.old out.new first (first + length vector.now) 0 1 (λ a b. entry out.old a b -ℚ coordinate vector.now (a - first))) }
    ensures wide { MatchResult result (λ _. AllInBlock first (first + length vector.now) 0 1 (λ a b. FitsSum (entry out.old a b) (neg_ℚ (coordinate vector.now (a - first)))))
        (λ _. ¬ AllInBlock first (first + length vector.now) 0 1 (λ a b. FitsSum (entry out.old a b) (neg_ℚ (coordinate vector.now (a - first))))) }
{
    let rows = out.rows();
    prove!(first as usize + vector.len() <= rows as usize);
    for i in 0..vector.len() {
        let row = first + i as u32;
        let difference = out.get(row, 0).sub(&vector[i])?;
        out.set(row, 0, difference);
    }
    Ok(())
}

/// Adds a number to the first entry.
pub fn add_to_first(out: &mut Matrix, value: &Frac) -> Result<(), Wide>
    requires row { 0 < height out.old }
    requires column { 0 < out.old.columns }
    ensures ok { OnOk result (WritesBlock out.old out.new 0 1 0 1 (λ a b. entry out.old a b +ℚ value.now)) }
    ensures wide { MatchResult result (λ _. FitsSum (entry out.old 0 0) value.now) (λ _. ¬ FitsSum (entry out.old 0 0) value.now) }
{
    let rows = out.rows();
    prove!(0 < rows);
    let sum = out.get(0, 0).add(value)?;
    out.set(0, 0, sum);
    Ok(())
}
