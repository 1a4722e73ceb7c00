//! The columns of a table, each eliminated with the first ones.

ghost use Rattle.std.specs.Prelude.{◌≡◌, ℕ, suc, ◌+◌, ◌*◌, ◌<◌, ◌≤◌, IfOk, length, min};
ghost use Rattle.mpc_space.specs.Matrix.{height, entry};
ghost use Rattle.mpc_linear.specs.Elimination.{Table};
ghost use Rattle.mpc_bordered.specs.Kept.{IsFormedColumn, AreFormed};

use crate::entries::{divided, next_entry};
use mpc_frac::Frac;
use mpc_linear::Matrix;
use std::alloc::{AllocError, Global};

/// Eliminates the pivot's column, whose entries are the factors, from another column.
fn clear(factors: &[Option<Frac>], column: &mut [Option<Frac>], pivot_column: usize)
    requires same { length factors.now ≡ length column.old }
    requires row { pivot_column < length column.old }
    ensures { (t : Table) (j : ℕ) → IsFormedColumn t pivot_column pivot_column factors.now → IsFormedColumn t pivot_column j column.old → IsFormedColumn t (suc pivot_column) j column.new }
{
    let quotient = divided(column[pivot_column], factors[pivot_column]);
    for row in 0..column.len() {
        column[row] = next_entry(row, pivot_column, column[row], factors[row], &quotient);
    }
}

/// Eliminates the first columns, so many of those that are done, from another column.
fn eliminate(done: &[Option<Frac>], column: &mut [Option<Frac>], count: usize)
    requires size { count * length column.old ≤ length done.now }
    requires square { count ≤ length column.old }
    ensures { (t : Table) (u j : ℕ) → count ≤ u → AreFormed t u (length column.old) count done.now → IsFormedColumn t 0 j column.old → IsFormedColumn t count j column.new }
{
    let rows = column.len();
    for pivot_column in 0..count {
        clear(
            &done[pivot_column * rows..pivot_column * rows + rows],
            column,
            pivot_column,
        );
    }
}

/// The column of this number as it is.
fn column_of(alloc: Global, table: &Matrix, at_column: u32) -> Result<Vec<Option<Frac>>, AllocError>
    requires { at_column < table.now.columns }
    ensures size { IfOk result (λ xs. length xs.items ≡ height table.now) }
    ensures formed { IfOk result (λ xs. IsFormedColumn (entry table.now) 0 at_column xs.items) }
{
    let mut column = Vec::with_capacity(alloc, table.rows() as usize)?;
    for row in 0..table.rows() {
        let value = table.get(row, at_column);
        let _fits = value.num();
        column.push(Some(value))?;
    }
    Ok(column)
}

/// The lesser of the two.
fn lesser(left: u32, right: u32) -> u32
    ensures { result ≡ min left right }
{
    if left < right { left } else { right }
}

/// All columns, one behind another: each of the first ones eliminated with those before it, and the others with all of the first ones.
pub fn columns(alloc: Global, table: &Matrix, front: u32) -> Result<Vec<Option<Frac>>, AllocError>
    requires { front ≤ height table.now }
    ensures size { IfOk result (λ xs. length xs.items ≡ table.now.columns * height table.now) }
    ensures formed { IfOk result (λ xs. AreFormed (entry table.now) front (height table.now) table.now.columns xs.items) }
{
    let rows = table.rows() as usize;
    let mut entries = Vec::with_capacity(alloc, table.cols() as usize * rows)?;
    for at_column in 0..table.cols() {
        let mut column = column_of(alloc, table, at_column)?;
        eliminate(&entries, &mut column, lesser(at_column, front) as usize);
        entries.extend_from_slice(&column)?;
    }
    Ok(entries)
}
