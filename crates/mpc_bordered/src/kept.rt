//! What is kept of a table whose first columns are eliminated.

ghost use Rattle.std.specs.Prelude.{◌≡◌, ◌≢◌, ℕ, ◌+◌, ◌*◌, ◌<◌, ◌≤◌, None, Some, IfOk, IfSome, IsTrue, length, get_or, min};
ghost use Rattle.std.proofs.Props.{props};
ghost use Rattle.mpc_space.specs.Matrix.{height, entry};
ghost use Rattle.mpc_bordered.specs.Kept.{HasPivot, IsKept};

use crate::columns::columns;
use mpc_frac::Frac;
use mpc_linear::Matrix;
use std::alloc::{AllocError, Global};

/// A table and what the elimination of its first columns, each with its pivot in its own row, makes of its entries: of each the number,
/// where all numbers on the way to it fit 128 bits, and else nothing.
#[derive(Drop)]
pub struct Kept {
    pub table: Matrix,
    pub front: u32,
    entries: Vec<Option<Frac>>,
    ghost kept: { IsKept table front entries.items } by { Prim.hlevel props },
}

/// Whether each of the first columns has a pivot in its own row.
fn has_pivots(entries: &[Option<Frac>], rows: usize, front: usize) -> bool
    requires size { front * rows ≤ length entries.now }
    requires square { front ≤ rows }
    ensures { IsTrue result → (c : ℕ) → c < front → HasPivot (get_or entries.now (c * rows + c) None) }
{
    for pivot_column in 0..front {
        let Some(pivot) = entries[pivot_column * rows + pivot_column] else {
            return false;
        };
        if pivot.is_zero() {
            return false;
        }
    }
    true
}

/// What is kept of the table once so many of its first columns are eliminated: nothing where one of them has no pivot in its own row, or one
/// that is too wide. An error where there is no more memory.
pub fn keep(alloc: Global, table: Matrix, front: u32) -> Result<Option<Kept>, AllocError>
    requires rows { front ≤ height table }
    requires columns { front ≤ table.columns }
    ensures table { IfOk result (λ o. IfSome o (λ k. k.table ≡ table)) }
    ensures front { IfOk result (λ o. IfSome o (λ k. k.front ≡ front)) }
{
    let entries = columns(alloc, &table, front)?;
    if !has_pivots(&entries, table.rows() as usize, front as usize) {
        return Ok(None);
    }
    Ok(Some(Kept {
        table,
        front,
        entries,
    }))
}

impl Kept {
    ghost use Rattle.std.specs.Prelude.{◌<◌, min};
    ghost use Rattle.mpc_space.specs.Matrix.{height, entry};
    ghost use Rattle.mpc_bordered.specs.Kept.{IfFormed};

    /// The entry in this row and column, counted from 0: as the first columns leave it, or where it stands in one of these, as it was used.
    pub(crate) fn at(&self, row: u32, column: u32) -> Option<Frac>
        requires row { row < height self.now.table }
        requires column { column < self.now.table.columns }
        ensures { IfFormed (entry self.now.table) (min column self.now.front) row column result }
    {
        self.entries[column as usize * self.table.rows() as usize + row as usize]
    }
}
