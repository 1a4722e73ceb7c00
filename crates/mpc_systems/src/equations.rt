//! The equations of an active set as matrices or as places in a table of all rows, and matrices that are made entry by entry.

ghost use Rattle.std.specs.Prelude.{◌≡◌, ℕ, ◌+◌, ◌<◌, ◌≤◌, length, IfOk};
ghost use Rattle.mpc_space.specs.Vector.{cell};
ghost use Rattle.mpc_space.specs.Matrix.{height};
ghost use Rattle.mpc_sets.specs.RowSet.{IsSetOfRows};
ghost use Rattle.mpc_rows.specs.ActiveSets.{rows_of};
ghost use Rattle.mpc_rows.specs.SetRuns.{law_entry, law_matrix};
ghost use Rattle.mpc_systems.specs.Equations.{IsTabledBy, AreMemberPlaces};

use mpc_frac::{Frac, NoMemory};
use mpc_linear::Matrix;
use mpc_rows::{Qp, law_theorems};
use mpc_sets::ActiveSet;
use std::alloc::{AllocError, Global};

/// The matrix of so many rows and columns with the entries that the function gives.
#[inline]
pub fn matrix_of<F: Fn(u32, u32) -> Frac>(
    alloc: Global,
    rows: u32,
    columns: u32,
    entry: &F,
) -> Result<Matrix, NoMemory>
    requires { (i j : ℕ) → i < rows → j < columns → F.pre entry.now i j }
    ensures { IsTabledBy F.Fn entry.now rows columns result }
{
    let mut out = Matrix::zero(alloc, rows, columns)?;
    for row in 0..rows {
        for column in 0..columns {
            out.set(row, column, entry(row, column));
        }
    }
    Ok(out)
}

/// The entry in a column of the row of the member at an index, both counted from 0.
pub fn member_entry(matrix: &Matrix, set: ActiveSet, index: u32, column: u32) -> Frac
    requires set_of_rows { IsSetOfRows (height matrix.now) set }
    requires member { index < length set }
    requires column { column < matrix.now.columns }
    ensures { result ≡ cell (rows_of matrix.now.rows set) index column }
{
    law_theorems();
    prove!(index < set.size());
    matrix.get(set.member(index + 1) - 1, column)
}

/// The entry of `[[h, g_S'], [g_S, 0]]` in a row and a column.
fn law_entry(qp: &Qp, set: ActiveSet, row: u32, column: u32) -> Frac
    requires set_of_rows { IsSetOfRows (height qp.now.g) set }
    requires row { row < height qp.now.h + length set }
    requires column { column < height qp.now.h + length set }
    ensures { result ≡ law_entry qp.now set row column }
{
    let unknowns = qp.h.rows();
    if row < unknowns && column < unknowns {
        qp.h.get(row, column)
    } else if row < unknowns {
        member_entry(&qp.g, set, column - unknowns, row)
    } else if column < unknowns {
        member_entry(&qp.g, set, row - unknowns, column)
    } else {
        Frac::whole(0)
    }
}

/// The matrix `[[h, g_S'], [g_S, 0]]`.
pub fn law_matrix(alloc: Global, qp: &Qp, set: ActiveSet) -> Result<Matrix, NoMemory>
    requires set_of_rows { IsSetOfRows (height qp.now.g) set }
    ensures { IfOk result (λ m. m ≡ law_matrix qp.now set) }
{
    let size = qp.h.rows() + set.size();
    let entry = |row, column| law_entry(qp, set, row, column);
    matrix_of(alloc, size, size, &entry)
}

/// Where the members stand among the rows and the columns of a table whose first ones are those of the unknowns.
pub fn member_places(alloc: Global, unknowns: u32, set: ActiveSet) -> Result<Vec<u32>, AllocError>
    requires { unknowns ≤ 6 }
    ensures { IfOk result (λ places. AreMemberPlaces unknowns set places.items) }
{
    let mut places = Vec::with_capacity(alloc, set.size() as usize)?;
    for index in 0..set.size() {
        places.push(unknowns + (set.member(index + 1) - 1))?;
    }
    Ok(places)
}
