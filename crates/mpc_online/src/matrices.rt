//! The right sides of a step's equations as matrices.

ghost use Rattle.std.specs.Prelude.{◌≡◌, ◌<◌, ◌≤◌, [], length, IfOk};
ghost use Rattle.mpc_exact.specs.Rational.{neg_ℚ};
ghost use Rattle.mpc_space.specs.Vector.{coordinate};
ghost use Rattle.mpc_space.specs.Matrix.{height};
ghost use Rattle.mpc_online.specs.Positions.{right_matrix, step_side};

use mpc_frac::{Frac, NoMemory};
use mpc_linear::Matrix;
use mpc_rows::Qp;
use mpc_sets::ActiveSet;
use mpc_systems::matrix_of;
use std::alloc::Global;

/// The right side in a row for the row with this number, r: -g_r, and 0 below it.
fn step_side(qp: &Qp, row_number: u32, row: u32) -> Frac
    requires from_one { 1 ≤ row_number }
    requires to_last { row_number ≤ height qp.now.g }
    ensures { result ≡ step_side qp.now row_number row }
{
    if row < qp.h.rows() {
        qp.g.get(row_number - 1, row).neg()
    } else {
        Frac::whole(0)
    }
}

/// The right sides of a step towards the row with this number, one column beside the matrix.
pub fn step_right(
    alloc: Global,
    qp: &Qp,
    set: ActiveSet,
    row_number: u32,
) -> Result<Matrix, NoMemory>
    requires from_one { 1 ≤ row_number }
    requires to_last { row_number ≤ height qp.now.g }
    ensures { IfOk result (λ m. m ≡ right_matrix qp.now set (step_side qp.now row_number)) }
{
    let size = qp.h.rows() + set.size();
    let entry = |row, _column| step_side(qp, row_number, row);
    matrix_of(alloc, size, 1, &entry)
}

/// The right side of the first point in a row.
fn opening_side(costs: &[Frac], row: u32) -> Frac
    requires { row < length costs.now }
    ensures { result ≡ neg_ℚ (coordinate costs.now row) }
{
    costs[row as usize].neg()
}

/// The right sides of the first point: the negatives of these numbers.
pub fn opening_right(alloc: Global, qp: &Qp, costs: &[Frac]) -> Result<Matrix, NoMemory>
    requires { length costs.now ≡ height qp.now.h }
    ensures { IfOk result (λ m. m ≡ right_matrix qp.now [] (λ i. neg_ℚ (coordinate costs.now i))) }
{
    let entry = |row, _column| opening_side(costs, row);
    matrix_of(alloc, qp.h.rows(), 1, &entry)
}
