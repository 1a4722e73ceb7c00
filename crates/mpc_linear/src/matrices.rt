//! Matrices of fractions.

ghost use Rattle.std.specs.Prelude.{◌≡◌, ◌+◌, ◌*◌, ◌<◌, ◌≤◌, [], ◌++◌, IfOk, OnOk, MatchResult, slice_index_or, length, take, drop};
ghost use Rattle.mpc_space.specs.Matrix.{RationalMatrix, height, IsRectangular, entry, mat_mul};
ghost use Rattle.mpc_space.specs.Vector.{dot, column};
ghost use Rattle.mpc_linear.specs.Grid.{grid};
ghost use Rattle.mpc_linear.specs.Dot.{DotFits};
ghost use Rattle.mpc_linear.specs.Product.{product_row, DotsFit, ProductFits, IsFirstWide};
ghost use Rattle.mpc_linear.specs.Answers.{IfWide};
ghost use Rattle.mpc_linear.specs.Entries.{with_entry, zero_matrix};

use crate::{LinearError, add_product};
use mpc_frac::{Frac, NoMemory, Wide};
use std::alloc::Global;
use std::marker::Model;

/// A matrix of fractions, stored row by row.
#[derive(Drop)]
pub struct Matrix {
    entries: Vec<Frac>,
    rows: u32,
    cols: u32,
}

impl Model for Matrix {
    ghost use Rattle.std.specs.Prelude.{◌≡◌, ◌*◌, length};
    ghost use Rattle.mpc_space.specs.Matrix.{RationalMatrix};
    ghost use Rattle.mpc_linear.specs.Grid.{grid};

    ghost Value = { RationalMatrix };

    ghost view = { λ m. grid m.rows m.cols m.entries.items };

    ghost invariant = { λ m. length m.entries.items ≡ m.rows * m.cols };
}

/// So many entries from a place on.
fn part(entries: &[Frac], start: usize, count: usize) -> &[Frac]
    requires { start + count ≤ length entries.now }
    ensures { result.now ≡ take count (drop start entries.now) }
{
    &entries[start..start + count]
}

/// The dot of a row with a column of a matrix of this width, stored row by row.
fn dot_with_column(
    row: &[Frac],
    entries: &[Frac],
    width: usize,
    at_column: usize,
) -> Result<Frac, Wide>
    requires size { length entries.now ≡ length row.now * width }
    requires place { at_column < width }
    ensures value { IfOk result (λ v. v ≡ dot row.now (column (grid (length row.now) width entries.now).rows at_column)) }
    ensures wide { MatchResult result (λ _. DotFits row.now (column (grid (length row.now) width entries.now).rows at_column))
        (λ _. ¬ DotFits row.now (column (grid (length row.now) width entries.now).rows at_column)) }
{
    let mut sum = Frac::whole(0);
    for k in 0..row.len() {
        match add_product(&sum, &row[k], &entries[k * width + at_column]) {
            Ok(next) => sum = next,
            Err(wide) => return Err(wide),
        }
    }
    Ok(sum)
}

/// Puts the products of a row with the columns of a matrix behind the entries.
/// `Wide` with this number where one of them is wide.
fn append_product(
    entries: &mut Vec<Frac>,
    row: &[Frac],
    other: &Matrix,
    number: u32,
) -> Result<(), LinearError>
    requires { length row.now ≡ height other.now }
    ensures ok { OnOk result (entries.new.items ≡ entries.old.items ++ product_row other.now row.now) }
    ensures wide { MatchResult result (λ _. DotsFit other.now row.now)
        (λ e. IfWide e (λ step. (step ≡ number) × (¬ DotsFit other.now row.now))) }
{
    for j in 0..other.cols {
        match dot_with_column(row, &other.entries, other.cols as usize, j as usize) {
            Ok(value) => entries.push(value)?,
            Err(_) => return Err(LinearError::Wide(number)),
        }
    }
    Ok(())
}

impl Matrix {
    /// The matrix of these entries, row by row.
    pub(crate) fn from_entries(entries: Vec<Frac>, rows: u32, cols: u32) -> Matrix
        requires { length entries.items ≡ rows * cols }
        ensures { result ≡ grid rows cols entries.items }
    {
        Matrix {
            entries,
            rows,
            cols,
        }
    }

    /// The matrix of zeros, `rows` times `cols`.
    pub fn zero(alloc: Global, rows: u32, cols: u32) -> Result<Matrix, NoMemory>
        ensures { IfOk result (λ m. m ≡ zero_matrix rows cols) }
    {
        let count = rows as usize * cols as usize;
        let Ok(entries) = vec![in alloc; Frac::whole(0); count] else {
            return Err(NoMemory);
        };
        Ok(Matrix {
            entries,
            rows,
            cols,
        })
    }

    /// The same matrix once more.
    pub fn copy(&self, alloc: Global) -> Result<Matrix, NoMemory>
        ensures { IfOk result (λ m. m ≡ self.now) }
    {
        let Ok(entries) = self.entries.as_slice().to_vec(alloc) else {
            return Err(NoMemory);
        };
        Ok(Matrix {
            entries,
            rows: self.rows,
            cols: self.cols,
        })
    }

    /// How many rows there are.
    pub fn rows(&self) -> u32
        ensures value { result ≡ height self.now }
        ensures rectangular { IsRectangular self.now }
    {
        self.rows
    }

    /// How many columns there are, also where there is no row.
    pub fn cols(&self) -> u32
        ensures value { result ≡ self.now.columns }
        ensures rectangular { IsRectangular self.now }
    {
        self.cols
    }

    /// The entry in the row and the column, counted from 0.
    pub fn get(&self, row: u32, column: u32) -> Frac
        requires row { row < height self.now }
        requires column { column < self.now.columns }
        ensures { result ≡ entry self.now row column }
    {
        self.entries[row as usize * self.cols as usize + column as usize]
    }

    /// A row, counted from 0.
    pub fn row(&self, at_row: u32) -> &[Frac]
        requires { at_row < height self.now }
        ensures { result.now ≡ slice_index_or self.now.rows at_row [] }
    {
        part(
            &self.entries,
            at_row as usize * self.cols as usize,
            self.cols as usize,
        )
    }

    /// Puts the value into the row and the column, counted from 0.
    pub fn set(&mut self, row: u32, column: u32, value: Frac)
        requires row { row < height self.old }
        requires column { column < self.old.columns }
        ensures { self.new ≡ with_entry self.old row column value }
    {
        let place = row as usize * self.cols as usize + column as usize;
        self.entries[place] = value;
    }

    /// The product with a matrix that has as many rows as this one has columns.
    ///
    /// `Wide` with the number, from 1, of the first row that has a wide dot with a column.
    pub fn times(&self, alloc: Global, other: &Matrix) -> Result<Matrix, LinearError>
        requires { self.now.columns ≡ height other.now }
        ensures value { IfOk result (λ m. m ≡ mat_mul self.now other.now) }
        ensures wide { MatchResult result (λ _. ProductFits self.now other.now)
            (λ e. IfWide e (λ row. IsFirstWide self.now other.now row)) }
    {
        let mut entries = Vec::with_capacity(alloc, self.rows as usize * other.cols as usize)?;
        for i in 0..self.rows {
            append_product(&mut entries, self.row(i), other, i + 1)?;
        }
        Ok(Matrix {
            entries,
            rows: self.rows,
            cols: other.cols,
        })
    }
}
