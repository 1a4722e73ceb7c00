//! The solution of linear systems by elimination.

ghost use Rattle.std.specs.Prelude.{◌≡◌, ◌≢◌, ◌+◌, ◌*◌, ◌^◌, ◌<◌, ◌≤◌, IfOk, OnOk, MatchResult, MatchOption, length, pos, ⊤};
ghost use Rattle.mpc_exact.specs.Rational.{int};
ghost use Rattle.mpc_linear.specs.Elimination.{augmented, pivot_row, exchanged, reduced, ColumnFits};
ghost use Rattle.mpc_linear.specs.Stored.{stored, SameFrom, IsDivided, QuotientsFit, IsTaken, RowTakenFits, IsCleared, RowsTakenFit, EndsAt, IsWideAt, ShowsSolution};
ghost use Rattle.mpc_linear.specs.Answers.{IfWide};
ghost use Rattle.mpc_linear.specs.Solution.{IsAnswer, FitsTo, IsWideColumn};
ghost use Rattle.mpc_space.specs.Matrix.{height, tabled};

use crate::{LinearError, Matrix, sub_product};
use mpc_frac::{Frac, Wide};
use std::alloc::{AllocError, Global};

/// What becomes of a system `matrix X = rhs` with a square matrix.
#[derive(Drop)]
pub enum Solved {
    /// The one solution.
    Unique(Matrix),
    /// The matrix is singular: this column, counted from 1, is the first that depends on those before it. So no
    /// right side has a unique solution. Without right sides it is the answer too, although the matrix
    /// without columns is then the only solution.
    Dependent(u32),
}

/// The first row, from that of the column's number on, with an entry that isn't 0 in the column.
fn find_pivot(table: &[Frac], rows: usize, width: usize, column: usize) -> Option<usize>
    requires size { length table.now ≡ rows * width }
    requires row { column < rows }
    requires column { column < width }
    ensures value { result ≡ pivot_row rows (stored width table.now) column }
    ensures place { MatchOption result ⊤ (λ p. (column ≤ p) × (p < rows)) }
    ensures some { MatchOption result ⊤ (λ p. stored width table.now p column ≢ int (pos 0)) }
{
    for row in column..rows {
        if !table[row * width + column].is_zero() {
            return Some(row);
        }
    }
    None
}

/// Exchanges the row of the column's number and another, from that column on.
fn exchange_rows(table: &mut [Frac], rows: usize, width: usize, column: usize, row: usize)
    requires size { length table.old ≡ rows * width }
    requires c_below { column < rows }
    requires p_below { row < rows }
    ensures { SameFrom rows width column (stored width table.new) (exchanged column row (stored width table.old)) }
{
    for later in column..width {
        table.swap(column * width + later, row * width + later);
    }
}

/// Divides the row of the column's number by its entry in the column, to the right of that column.
fn divide_pivot_row(
    table: &mut [Frac],
    rows: usize,
    width: usize,
    column: usize,
) -> Result<(), Wide>
    requires size { length table.old ≡ rows * width }
    requires row { column < rows }
    requires column { column < width }
    requires pivot { stored width table.old column column ≢ int (pos 0) }
    ensures ok { OnOk result (IsDivided rows width column (stored width table.old) (stored width table.new)) }
    ensures wide { MatchResult result (λ _. QuotientsFit width column (stored width table.old))
        (λ _. ¬ QuotientsFit width column (stored width table.old)) }
{
    let pivot = table[column * width + column];
    for later in column + 1..width {
        let place = column * width + later;
        let entry = table[place];
        match entry.div(&pivot) {
            Ok(quotient) => table[place] = quotient,
            Err(wide) => return Err(wide),
        }
    }
    Ok(())
}

/// Takes the row of the column's number, times the other row's entry in the column, away from that other
/// row, to the right of the column.
fn take_pivot_row(
    table: &mut [Frac],
    rows: usize,
    width: usize,
    column: usize,
    row: usize,
) -> Result<(), Wide>
    requires size { length table.old ≡ rows * width }
    requires row { column < rows }
    requires other { row < rows }
    requires apart { row ≢ column }
    requires column { column < width }
    ensures ok { OnOk result (IsTaken rows width column row (stored width table.old) (stored width table.new)) }
    ensures wide { MatchResult result (λ _. RowTakenFits width column row (stored width table.old))
        (λ _. ¬ RowTakenFits width column row (stored width table.old)) }
{
    let factor = table[row * width + column];
    if factor.is_zero() {
        return Ok(());
    }
    for later in column + 1..width {
        let place = row * width + later;
        let entry = table[place];
        let taken = table[column * width + later];
        match sub_product(&entry, &factor, &taken) {
            Ok(rest) => table[place] = rest,
            Err(wide) => return Err(wide),
        }
    }
    Ok(())
}

/// Takes the row of the column's number away from each other row, so often that the column becomes 0
/// there; the entries to the right of that column are formed.
fn clear_column(table: &mut [Frac], rows: usize, width: usize, column: usize) -> Result<(), Wide>
    requires size { length table.old ≡ rows * width }
    requires row { column < rows }
    requires column { column < width }
    ensures ok { OnOk result (IsCleared rows width column (stored width table.old) (stored width table.new)) }
    ensures wide { MatchResult result (λ _. RowsTakenFit rows width column (stored width table.old))
        (λ _. ¬ RowsTakenFit rows width column (stored width table.old)) }
{
    for row in 0..rows {
        if row == column {
            continue;
        }
        match take_pivot_row(table, rows, width, column, row) {
            Ok(()) => {}
            Err(wide) => return Err(wide),
        }
    }
    Ok(())
}

/// The step of a column, whose pivot is in this row.
fn eliminate_column(
    table: &mut [Frac],
    rows: usize,
    width: usize,
    column: usize,
    row: usize,
) -> Result<(), Wide>
    requires size { length table.old ≡ rows * width }
    requires row { column < rows }
    requires column { column < width }
    requires pivot_row { row < rows }
    requires pivot { stored width table.old row column ≢ int (pos 0) }
    ensures ok { OnOk result (SameFrom rows width (column + 1) (stored width table.new) (reduced column (exchanged column row (stored width table.old)))) }
    ensures wide { MatchResult result (λ _. ColumnFits rows width column (exchanged column row (stored width table.old)))
        (λ _. ¬ ColumnFits rows width column (exchanged column row (stored width table.old))) }
{
    exchange_rows(table, rows, width, column, row);
    divide_pivot_row(table, rows, width, column)?;
    clear_column(table, rows, width, column)
}

/// Eliminates the first columns of the table, one a row. `Some` names the first column, from 1,
/// without a pivot; where all have one, the solution stands behind them.
fn eliminate(table: &mut [Frac], rows: usize, width: usize) -> Result<Option<u32>, LinearError>
    requires size { length table.old ≡ rows * width }
    requires square { rows ≤ width }
    requires small { rows < 2 ^ 32 }
    ensures ok { IfOk result (λ o. EndsAt rows width (stored width table.old) o) }
    ensures solution { IfOk result (λ o. ShowsSolution rows width (stored width table.old) (stored width table.new) o) }
    ensures wide { MatchResult result (λ _. ⊤) (λ e. IfWide e (λ column. IsWideAt rows width (stored width table.old) column)) }
{
    for column in 0..rows {
        let Some(row) = find_pivot(table, rows, width, column) else {
            return Ok(Some(column as u32 + 1));
        };
        match eliminate_column(table, rows, width, column, row) {
            Ok(()) => {}
            Err(_) => return Err(LinearError::Wide(column as u32 + 1)),
        }
    }
    Ok(None)
}

/// The rows of the matrix, each with that of rhs behind it.
fn augmented_table(alloc: Global, matrix: &Matrix, rhs: &Matrix) -> Result<Vec<Frac>, AllocError>
    requires { height rhs.now ≡ height matrix.now }
    ensures size { IfOk result (λ t. length t.items ≡ height matrix.now * (matrix.now.columns + rhs.now.columns)) }
    ensures table { IfOk result (λ t. SameFrom (height matrix.now) (matrix.now.columns + rhs.now.columns) 0 (stored (matrix.now.columns + rhs.now.columns) t.items) (augmented matrix.now rhs.now)) }
{
    let width = matrix.cols() as usize + rhs.cols() as usize;
    let mut table = Vec::with_capacity(alloc, width.saturating_mul(matrix.rows() as usize))?;
    for i in 0..matrix.rows() {
        table.extend_from_slice(matrix.row(i))?;
        table.extend_from_slice(rhs.row(i))?;
    }
    Ok(table)
}

/// The last columns of a table of this many rows, behind a square part.
fn solution(alloc: Global, table: &[Frac], rows: u32, cols: u32) -> Result<Matrix, AllocError>
    requires { length table.now ≡ rows * (rows + cols) }
    ensures { IfOk result (λ x. x ≡ tabled rows cols (λ row column. stored (rows + cols) table.now row (rows + column))) }
{
    let width = rows as usize + cols as usize;
    let mut entries = Vec::with_capacity(alloc, rows as usize * cols as usize)?;
    for row in 0..rows as usize {
        let start = row * width + rows as usize;
        entries.extend_from_slice(&table[start..start + cols as usize])?;
    }
    Ok(Matrix::from_entries(entries, rows, cols))
}

/// Solves `matrix X = rhs` for a square matrix and right sides of as many rows, by Gauss-Jordan elimination
/// (Clasen 1888, Jordan 1888) with the first pivot that isn't 0.
///
/// `Dependent` where the matrix is singular, also without right sides, and no column before the one that it
/// names has a number of 2^127 or more in size; `Wide` with the first such column, from 1.
pub fn solve(alloc: Global, matrix: &Matrix, rhs: &Matrix) -> Result<Solved, LinearError>
    requires square { height matrix.now ≡ matrix.now.columns }
    requires rows { height rhs.now ≡ height matrix.now }
    ensures answer { IfOk result (λ s. IsAnswer matrix.now rhs.now s) }
    ensures fits { IfOk result (λ s. FitsTo matrix.now rhs.now s) }
    ensures wide { MatchResult result (λ _. ⊤) (λ e. IfWide e (λ column. IsWideColumn matrix.now rhs.now column)) }
{
    let rows = matrix.rows();
    let cols = rhs.cols();
    let mut table = augmented_table(alloc, matrix, rhs)?;
    let dependent = eliminate(&mut table, rows as usize, rows as usize + cols as usize)?;
    let Some(column) = dependent else {
        let x = solution(alloc, &table, rows, cols)?;
        return Ok(Solved::Unique(x));
    };
    Ok(Solved::Dependent(column))
}
