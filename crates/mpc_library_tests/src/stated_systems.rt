//! Tests of systems and rows.

ghost use Rattle.std.specs.Prelude.{◌≡◌, IfOk};
ghost use Rattle.mpc_space.specs.Matrix.{height};
ghost use Rattle.mpc_linear.specs.Shape.{HasShape};

use mpc_frac::{Frac, NoMemory};
use mpc_linear::{Matrix, Vector, primitive};
use mpc_rows::{Counts, Qp, Row, System};
use mpc_sets::ActiveSet;
use mpc_systems::{broken_row, joint_system, reach_system, turned, widened_broken_row};
use std::alloc::Global;
use std::process::Abort;
use std::test::Fail;

/// The matrix of these entries, row by row, and of zeros behind them.
fn matrix(alloc: Global, rows: u32, cols: u32, entries: &[i64]) -> Result<Matrix, NoMemory>
    ensures { IfOk result (λ matrix. HasShape matrix rows cols) }
{
    let mut matrix = Matrix::zero(alloc, rows, cols)?;
    let mut rest = entries;
    for row in 0..rows {
        for column in 0..cols {
            if let Some((entry, later)) = rest.split_first() {
                matrix.set(row, column, Frac::whole(*entry));
                rest = later;
            }
        }
    }
    let _ = matrix.rows();
    Ok(matrix)
}

/// The rows z <= 1 + 2 t and -z <= 1, for t from 0 to 8.
fn program(alloc: Global) -> Result<Qp, NoMemory>
    ensures { IfOk result (λ qp. height qp.g ≡ 2) }
{
    let mut counts = Counts::new(alloc);
    counts.push(8)?;
    Ok(Qp {
        h: matrix(alloc, 1, 1, &[2])?,
        f: matrix(alloc, 1, 2, &[-4, 1])?,
        y: matrix(alloc, 2, 2, &[])?,
        g: matrix(alloc, 2, 1, &[1, -1])?,
        w: matrix(alloc, 2, 2, &[1, 2, 1, 0])?,
        counts,
    })
}

/// The row is `first t + second z <= bound`, or `<` where it is strict.
fn is_row(
    rt: &impl Abort,
    row: &Row,
    first: i64,
    second: i64,
    bound: i64,
    strict: bool,
) -> Result<(), Fail> {
    let sides = [Frac::whole(first), Frac::whole(second)];
    assert_eq!(rt; row.a.as_slice(), sides.as_slice());
    assert_eq!(rt; row.b, Frac::whole(bound));
    assert_eq!(rt; row.strict, strict);
    Ok(())
}

/// The rows of the system are `first t + second z <= bound`.
fn has_rows(rt: &impl Abort, system: &System, rows: &[(i64, i64, i64)]) -> Result<(), Fail> {
    assert_eq!(rt; system.rows.len(), rows.len());
    for (row, (first, second, bound)) in system.rows.as_slice().iter().zip(rows) {
        is_row(rt, row, *first, *second, *bound, false)?;
    }
    Ok(())
}

#[test]
fn systems_of_a_program(rt: HostRuntime) -> Result<(), Fail> {
    let alloc = rt.alloc();
    let qp = program(alloc)?;
    let reach = reach_system(alloc, &qp, ActiveSet::empty().with(1))?;
    has_rows(
        &rt,
        &reach,
        &[(-1, 0, 0), (1, 0, 8), (-2, 1, 1), (0, -1, 1), (2, -1, -1)],
    )?;
    let joint = joint_system(alloc, &qp, &[])?;
    has_rows(
        &rt,
        &joint,
        &[(-1, 0, 0), (1, 0, 8), (-2, 1, 1), (0, -1, 1)],
    )
}

#[test]
fn a_row_that_fails(rt: HostRuntime) -> Result<(), Fail> {
    let alloc = rt.alloc();
    let mut sides = Vector::new(alloc);
    sides.push(Frac::whole(2))?;
    let row = primitive(alloc, &sides, &Frac::whole(3))?;
    let broken = widened_broken_row(alloc, &row, 1)?;
    is_row(&rt, &broken, -2, 0, -3, true)?;
    is_row(&rt, &turned(alloc, &broken)?, 2, 0, 3, true)?;
    assert_eq!(rt; broken_row(alloc, &row)?.a.len(), 1);
    Ok(())
}
