ghost use Rattle.std.specs.Prelude.{◌≡◌, IfOk};
ghost use Rattle.mpc_space.specs.Vector.{IsSymmetric};
ghost use Rattle.mpc_space.specs.Matrix.{height};

use mpc_definite::pivots;
use mpc_frac::{Frac, NoMemory};
use mpc_linear::Matrix;
use std::alloc::Global;
use std::test::Fail;

/// The symmetric matrix with these entries on and below its diagonal, row by row.
fn symmetric(alloc: Global, entries: [Frac; 6]) -> Result<Matrix, NoMemory>
    ensures { IfOk result (λ matrix. (matrix.columns ≡ height matrix) × IsSymmetric matrix.rows) }
{
    let [a, b, c, d, e, f] = entries;
    let mut matrix = Matrix::zero(alloc, 3, 3)?;
    matrix.set(0, 0, a);
    matrix.set(1, 0, b);
    matrix.set(0, 1, b);
    matrix.set(1, 1, c);
    matrix.set(2, 0, d);
    matrix.set(0, 2, d);
    matrix.set(2, 1, e);
    matrix.set(1, 2, e);
    matrix.set(2, 2, f);
    Ok(matrix)
}

#[test]
fn tridiagonal(rt: HostRuntime) -> Result<(), Fail> {
    let entries = [2, -1, 2, 0, -1, 2].map(Frac::whole);
    let matrix = symmetric(rt.alloc(), entries)?;
    let found = pivots(rt.alloc(), &matrix)?;
    let expected = [Frac::whole(2), Frac::new(3, 2)?, Frac::new(4, 3)?];
    assert_eq!(rt; found.d.as_slice(), expected.as_slice());
    assert_eq!(rt; found.l.rows(), 3);
    assert_eq!(rt; found.l.cols(), 3);
    assert_eq!(rt; found.l.get(1, 0), Frac::new(-1, 2)?);
    assert_eq!(rt; found.l.get(2, 0), Frac::whole(0));
    assert_eq!(rt; found.l.get(2, 1), Frac::new(-2, 3)?);
    Ok(())
}
