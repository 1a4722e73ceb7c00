//! The right sides of the equations of an active set, and parts of their solution.

ghost use Rattle.std.specs.Prelude.{◌≡◌, ◌+◌, ◌<◌, ◌≤◌, length, IfOk};
ghost use Rattle.mpc_space.specs.Matrix.{height, entry, tabled};
ghost use Rattle.mpc_sets.specs.RowSet.{IsSetOfRows};
ghost use Rattle.mpc_rows.specs.SetRuns.{law_side, law_right};

use mpc_frac::{Frac, NoMemory};
use mpc_linear::Matrix;
use mpc_rows::Qp;
use mpc_sets::ActiveSet;
use mpc_systems::{matrix_of, member_entry};
use std::alloc::Global;

/// The right side of a row, -f or w_S, in a column.
fn law_side(qp: &Qp, set: ActiveSet, row: u32, column: u32) -> Frac
    requires set_of_rows { IsSetOfRows (height qp.now.g) set }
    requires row { row < height qp.now.h + length set }
    requires column { column < length qp.now.counts + 1 }
    ensures { result ≡ law_side qp.now set row column }
{
    let unknowns = qp.h.rows();
    if row < unknowns {
        qp.f.get(row, column).neg()
    } else {
        member_entry(&qp.w, set, row - unknowns, column)
    }
}

/// The right sides, -f over w_S.
pub fn law_right(alloc: Global, qp: &Qp, set: ActiveSet) -> Result<Matrix, NoMemory>
    requires set_of_rows { IsSetOfRows (height qp.now.g) set }
    ensures { IfOk result (λ m. m ≡ law_right qp.now set) }
{
    let size = qp.h.rows() + set.size();
    let entry = |row, column| law_side(qp, set, row, column);
    matrix_of(alloc, size, qp.f.cols(), &entry)
}

/// So many rows of the solution, from the row `first` on.
pub fn part(alloc: Global, solution: &Matrix, first: u32, count: u32) -> Result<Matrix, NoMemory>
    requires { first + count ≤ height solution.now }
    ensures { IfOk result (λ m. m ≡ tabled count solution.now.columns (λ i j. entry solution.now (first + i) j)) }
{
    let _rows = solution.rows();
    let entry = |row, column| solution.get(first + row, column);
    matrix_of(alloc, count, solution.cols(), &entry)
}
