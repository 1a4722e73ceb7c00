//! Programs with one unknown and one count.

ghost use Rattle.std.specs.Prelude.{◌≡◌, ◌≤◌, IfOk, IsTrue, length, pos};
ghost use Rattle.mpc_exact.specs.Rational.{int, lt_ℚ};
ghost use Rattle.mpc_space.specs.Vector.{IsSymmetric};
ghost use Rattle.mpc_space.specs.Definite.{IsDefinite};
ghost use Rattle.mpc_space.specs.Matrix.{height};
ghost use Rattle.mpc_linear.specs.Shape.{HasShape};

use mpc_frac::{Frac, NoMemory};
use mpc_linear::Matrix;
use mpc_rows::{Counts, Qp};
use std::alloc::Global;

/// The matrix of one or two columns with these entries, where one column is the first of the two.
fn matrix(alloc: Global, cols: u32, rows: &[[i64; 2]]) -> Result<Matrix, NoMemory>
    requires some { 1 ≤ cols }
    requires few { cols ≤ 2 }
    requires few_rows { length rows.now ≤ 2 }
    ensures { IfOk result (λ matrix. HasShape matrix (length rows.now) cols) }
{
    let mut matrix = Matrix::zero(alloc, rows.len() as u32, cols)?;
    for row in 0..rows.len() {
        let [first, second] = rows[row];
        matrix.set(row as u32, cols - 1, Frac::whole(second));
        matrix.set(row as u32, 0, Frac::whole(first));
    }
    Ok(matrix)
}

/// The program with the cost `2 z² + 2 z (mixed_cost c)` and the rows `coefficients z <= bounds c`.
pub(crate) fn program(
    alloc: Global,
    mixed_cost: [i64; 2],
    count: u64,
    coefficients: &[[i64; 2]],
    bounds: &[[i64; 2]],
) -> Result<Qp, NoMemory>
    requires same { length bounds.now ≡ length coefficients.now }
    requires few { length coefficients.now ≤ 2 }
    ensures { IfOk result (λ qp. height qp.g ≡ length coefficients.now) }
{
    let mut counts = Counts::new(alloc);
    counts.push(count)?;
    Ok(Qp {
        h: matrix(alloc, 1, [[2, 0]].as_slice())?,
        f: matrix(alloc, 2, [mixed_cost].as_slice())?,
        y: matrix(alloc, 2, [[32, -8], [-8, 2]].as_slice())?,
        g: matrix(alloc, 1, coefficients)?,
        w: matrix(alloc, 2, bounds)?,
        counts,
    })
}

/// The program with the rows `z <= 1` and `-z <= 1`.
pub(crate) fn limited(alloc: Global) -> Result<Qp, NoMemory> {
    program(
        alloc,
        [-4, 1],
        8,
        [[1, 0], [-1, 0]].as_slice(),
        [[1, 0], [1, 0]].as_slice(),
    )
}

fn is_positive(number: &Frac) -> bool
    ensures { result ≡ lt_ℚ (int (pos 0)) number.now }
{
    Frac::whole(0).cmp(number).is_lt()
}

/// Whether the matrix is one positive number.
pub(crate) fn is_positive_number(matrix: &Matrix) -> bool
    ensures one { IsTrue result → height matrix.now ≡ 1 }
    ensures definite { IsTrue result → IsDefinite matrix.now.rows }
    ensures symmetric { IsTrue result → IsSymmetric matrix.now.rows }
{
    if matrix.rows() != 1 {
        return false;
    }
    if matrix.cols() != 1 {
        return false;
    }
    is_positive(&matrix.get(0, 0))
}
