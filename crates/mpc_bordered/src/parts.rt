//! Parts of what is kept.

ghost use Rattle.std.specs.Prelude.{◌≡◌, ◌+◌, ◌^◌, ◌<◌, ◌≤◌, ◌++◌, IfOk, IfSome, IsTrue, length};
ghost use Rattle.mpc_space.specs.Matrix.{height, entry};
ghost use Rattle.mpc_space.specs.Total.{unit};
ghost use Rattle.mpc_bordered.specs.Parts.{place, part, ArePlaces, IsPicked, PicksRow, PicksTable};

use crate::Kept;
use mpc_frac::{Frac, NoMemory};
use mpc_linear::Matrix;
use std::alloc::Global;

/// Which row of the table stands in this row of the part.
fn row_place(front: u32, rows: &[u32], row: u32) -> u32
    requires { row < front + length rows.now }
    ensures { result ≡ place front rows.now row }
{
    if row < front {
        row
    } else {
        rows[(row - front) as usize]
    }
}

/// Which column of the table stands in this column of the part.
fn column_place(front: u32, rows: &[u32], rights: &[u32], column: u32) -> u32
    requires { column < front + length rows.now + length rights.now }
    ensures { result ≡ place front (rows.now ++ rights.now) column }
{
    if column < front {
        return column;
    }
    let behind = (column - front) as usize;
    if behind < rows.len() {
        rows[behind]
    } else {
        rights[behind - rows.len()]
    }
}

/// The entry of the unit matrix.
fn unit(row: u32, column: u32) -> Frac
    ensures { result ≡ unit row column }
{
    if row == column {
        return Frac::whole(1);
    }
    Frac::whole(0)
}

/// The number in this row and column of the part once its first columns are eliminated: those are columns of the unit matrix.
fn picked(kept: &Kept, rows: &[u32], rights: &[u32], row: u32, column: u32) -> Option<Frac>
    requires places { ArePlaces kept.now.table kept.now.front rows.now rights.now }
    requires row { row < kept.now.front + length rows.now }
    requires column { column < kept.now.front + length rows.now + length rights.now }
    ensures { IfSome result (IsPicked (part (entry kept.now.table) kept.now.front rows.now rights.now) kept.now.front row column) }
{
    let table_row = row_place(kept.front, rows, row);
    let table_column = column_place(kept.front, rows, rights, column);
    let Some(number) = kept.at(table_row, table_column) else {
        return None;
    };
    if kept.front <= column {
        return Some(number);
    }
    let entry = unit(row, column);
    let _fits = entry.num();
    Some(entry)
}

/// Writes this row of the part, from the column `first` on. Where a number isn't kept, it says so.
fn write_picked(
    out: &mut Matrix,
    kept: &Kept,
    rows: &[u32],
    rights: &[u32],
    row: u32,
    first: u32,
) -> bool
    requires places { ArePlaces kept.now.table kept.now.front rows.now rights.now }
    requires row { row < kept.now.front + length rows.now }
    requires row_within { row < height out.old }
    requires few { kept.now.front + length rows.now + length rights.now < 2 ^ 32 }
    requires columns { first + out.old.columns ≤ kept.now.front + length rows.now + length rights.now }
    ensures { IsTrue result → PicksRow (part (entry kept.now.table) kept.now.front rows.now rights.now) kept.now.front first out.old out.new row }
{
    let _rows = out.rows();
    for column in 0..out.cols() {
        let Some(number) = picked(kept, rows, rights, row, first + column) else {
            return false;
        };
        out.set(row, column, number);
    }
    true
}

/// The columns of the part, so many from the column `first` on, where all of their numbers are kept.
pub fn picked_columns(
    alloc: Global,
    kept: &Kept,
    rows: &[u32],
    rights: &[u32],
    first: u32,
    count: u32,
) -> Result<Option<Matrix>, NoMemory>
    requires places { ArePlaces kept.now.table kept.now.front rows.now rights.now }
    requires few { kept.now.front + length rows.now + length rights.now < 2 ^ 32 }
    requires columns { first + count ≤ kept.now.front + length rows.now + length rights.now }
    ensures { IfOk result (λ o. IfSome o (PicksTable (part (entry kept.now.table) kept.now.front rows.now rights.now) kept.now.front first (kept.now.front + length rows.now) count)) }
{
    let size = kept.front + rows.len() as u32;
    let mut out = Matrix::zero(alloc, size, count)?;
    for row in 0..size {
        if !write_picked(&mut out, kept, rows, rights, row, first) {
            return Ok(None);
        }
    }
    Ok(Some(out))
}
