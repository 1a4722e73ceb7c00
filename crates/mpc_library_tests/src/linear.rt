use mpc_frac::{Frac, NoMemory};
use mpc_linear::{LinearError, Matrix, Solved, Vector, solve};
use std::alloc::Global;
use std::process::Abort;
use std::test::Fail;

const LARGEST: i128 = i128::MAX;

fn frac(rt: &impl Abort, num: i128, den: i128) -> Frac {
    match Frac::new(num, den) {
        Ok(fraction) => fraction,
        Err(_) => panic!(rt; "{num}/{den} is refused"),
    }
}

/// The matrix of these entries, row by row.
fn matrix(
    rt: &impl Abort,
    alloc: Global,
    rows: u32,
    cols: u32,
    entries: &[Frac],
) -> Result<Matrix, NoMemory> {
    let mut matrix = Matrix::zero(alloc, rows, cols)?;
    let mut row = 0;
    let mut column = 0;
    for entry in entries {
        let height = matrix.rows();
        let width = matrix.cols();
        assert!(rt; row < height && column < width);
        matrix.set(row, column, *entry);
        column += 1;
        if column == width {
            column = 0;
            row += 1;
        }
    }
    Ok(matrix)
}

/// These whole numbers.
fn wholes(alloc: Global, entries: &[i64]) -> Result<Vector, NoMemory> {
    let mut fractions = Vector::new(alloc);
    for entry in entries {
        fractions.push(Frac::whole(*entry))?;
    }
    Ok(fractions)
}

fn whole_matrix(
    rt: &impl Abort,
    alloc: Global,
    rows: u32,
    cols: u32,
    entries: &[i64],
) -> Result<Matrix, NoMemory> {
    let fractions = wholes(alloc, entries)?;
    matrix(rt, alloc, rows, cols, fractions.as_slice())
}

/// Whether the entries are these integers, row by row.
fn is_matrix(rt: &impl Abort, matrix: &Matrix, entries: &[i64]) -> bool {
    let mut row = 0;
    let mut column = 0;
    for entry in entries {
        let height = matrix.rows();
        let width = matrix.cols();
        assert!(rt; row < height && column < width);
        if matrix.get(row, column) != Frac::whole(*entry) {
            return false;
        }
        column += 1;
        if column == width {
            column = 0;
            row += 1;
        }
    }
    true
}

/// The answer for the system of these entries, row by row, with so many right sides.
fn solved(
    rt: &impl Abort,
    alloc: Global,
    size: u32,
    entries: &[Frac],
    sides: u32,
    right: &[Frac],
) -> Result<Solved, LinearError> {
    let square = matrix(rt, alloc, size, size, entries)?;
    let rhs = matrix(rt, alloc, size, sides, right)?;
    let (rows, cols, height) = (square.rows(), square.cols(), rhs.rows());
    assert!(rt; rows == cols && height == rows);
    solve(alloc, &square, &rhs)
}

/// The same for whole numbers.
fn whole_solved(
    rt: &impl Abort,
    alloc: Global,
    size: u32,
    entries: &[i64],
    sides: u32,
    right: &[i64],
) -> Result<Solved, LinearError> {
    let left = wholes(alloc, entries)?;
    let others = wholes(alloc, right)?;
    solved(rt, alloc, size, left.as_slice(), sides, others.as_slice())
}

/// Whether this column of theirs depends on those before it.
fn is_dependent(
    rt: &impl Abort,
    alloc: Global,
    size: u32,
    entries: &[i64],
    sides: u32,
    right: &[i64],
    column: u32,
) -> Result<bool, LinearError> {
    match whole_solved(rt, alloc, size, entries, sides, right)? {
        Solved::Unique(_) => Ok(false),
        Solved::Dependent(found) => Ok(found == column),
    }
}

fn product(
    rt: &impl Abort,
    alloc: Global,
    left: &Matrix,
    right: &Matrix,
) -> Result<Matrix, LinearError> {
    let inner = left.cols();
    let rows = right.rows();
    assert!(rt; inner == rows);
    left.times(alloc, right)
}

/// Whether the product of two matrices of two rows and columns has these entries.
fn is_product(
    rt: &impl Abort,
    alloc: Global,
    left: &[i64],
    right: &[i64],
    wanted: &[i64],
) -> Result<bool, LinearError> {
    let left_matrix = whole_matrix(rt, alloc, 2, 2, left)?;
    let right_matrix = whole_matrix(rt, alloc, 2, 2, right)?;
    let found = product(rt, alloc, &left_matrix, &right_matrix)?;
    let rows = found.rows();
    assert!(rt; rows == 2);
    Ok(found.row(1).len() == 2 && is_matrix(rt, &found, wanted))
}

#[test]
fn multiplies(rt: HostRuntime) -> Result<(), Fail> {
    let alloc = rt.alloc();
    assert!(rt; is_product(&rt, alloc, &[1, 2, 3, 4], &[5, 6, 7, 8], &[19, 22, 43, 50])?);
    let tall = matrix(&rt, alloc, 2, 1, &[Frac::whole(1), frac(&rt, LARGEST, 1)])?;
    let two = whole_matrix(&rt, alloc, 1, 1, &[2])?;
    assert!(rt; matches!(product(&rt, alloc, &tall, &two), Err(LinearError::Wide(2))));
    Ok(())
}

#[test]
fn finds_dependent_columns(rt: HostRuntime) -> Result<(), Fail> {
    let alloc = rt.alloc();
    for (entries, column) in [
        ([0, 1, 0, 0, 0, 1, 0, 2, 3], 1),
        ([1, 2, 0, 2, 4, 1, 3, 6, 5], 2),
        ([1, 0, 1, 0, 1, 1, 1, 1, 2], 3),
    ] {
        assert!(rt;
            is_dependent(&rt, alloc, 3, &entries, 1, &[1, 2, 3], column)?,
            "column {column} depends on those before it"
        );
    }
    assert!(rt; is_dependent(&rt, alloc, 1, &[0], 0, &[], 1)?);
    Ok(())
}

#[test]
fn finds_wide_columns(rt: HostRuntime) {
    let (zero, one) = (Frac::whole(0), Frac::whole(1));
    let (largest, least) = (frac(&rt, LARGEST, 1), frac(&rt, 1, LARGEST));
    for (entries, right, column) in [
        ([one, largest, one, frac(&rt, -LARGEST, 1)], [zero, zero], 1),
        ([one, zero, zero, largest], [zero, least], 2),
    ] {
        let found = solved(&rt, rt.alloc(), 2, &entries, 1, &right);
        assert_eq!(rt; found.err(), Some(LinearError::Wide(column)));
    }
}
