//! The rows of systems, one by one.

ghost use Rattle.std.specs.Prelude.{◌≡◌, ◌+◌, ◌*◌, ◌^◌, ◌<◌, ◌≤◌, IfOk, length, false, slice_index_or, unsigned_abs};
ghost use Rattle.mpc_exact.specs.Rational.{int};
ghost use Rattle.mpc_space.specs.Matrix.{height};
ghost use Rattle.mpc_linear.specs.Whole.{AreSmall};
ghost use Rattle.mpc_rows.specs.LinearSystem.{no_row};
ghost use Rattle.mpc_rows.specs.LawRows.{whole_row, broken_row};
ghost use Rattle.mpc_rows.specs.SetRuns.{axis, box_rows, joint_row, turned};
ghost use Rattle.mpc_systems.specs.Writing.{widened};

use crate::entries::{
    axis, push_entries, push_negated_wholes, push_negatives, push_wholes, push_zeros,
};
use crate::numbers::whole;
use mpc_frac::{Frac, NoMemory};
use mpc_linear::{RowInt, Vector};
use mpc_rows::{Counts, Qp, Row};
use std::alloc::Global;

// ---- the rows of the box

/// The row `a · v <= b` of zeros and one value.
pub fn axis_row(
    alloc: Global,
    width: usize,
    coordinate: usize,
    value: i64,
    bound: Frac,
) -> Result<Row, NoMemory>
    ensures { IfOk result (λ r. r ≡ record { a = axis width coordinate (int value); b = bound; strict = false }) }
{
    let coefficients = axis(alloc, width, coordinate, &Frac::whole(value))?;
    Ok(Row {
        a: coefficients,
        b: bound,
        strict: false,
    })
}

/// The row at a place among those of the box: `-t_i <= 0` and `t_i <= count_i` for each coordinate,
/// in so many unknowns, of which the coordinates are the first.
pub fn box_row(alloc: Global, width: usize, counts: &Counts, place: usize) -> Result<Row, NoMemory>
    requires { place < 2 * length counts.now }
    ensures { IfOk result (λ r. r ≡ slice_index_or (box_rows width counts.now) place no_row) }
{
    let coordinate = place / 2;
    if place == coordinate + coordinate {
        axis_row(alloc, width, coordinate, -1, Frac::whole(0))
    } else {
        axis_row(
            alloc,
            width,
            coordinate,
            1,
            whole(*counts.at(coordinate) as i128),
        )
    }
}

// ---- rows in whole numbers

/// The row `a · v <= b` in fractions.
pub fn whole_row(alloc: Global, row: &RowInt) -> Result<Row, NoMemory>
    requires small { AreSmall row.now.a }
    requires b_small { unsigned_abs row.now.b < 2 ^ 127 }
    ensures { IfOk result (λ r. r ≡ whole_row row.now) }
{
    let mut coefficients = Vector::with_capacity(alloc, row.a.len())?;
    push_wholes(&mut coefficients, row.a.as_slice())?;
    Ok(Row {
        a: coefficients,
        b: whole(row.b),
        strict: false,
    })
}

/// The strict row `-a · v < -b`, which is met where the row fails.
pub fn broken_row(alloc: Global, row: &RowInt) -> Result<Row, NoMemory>
    requires small { AreSmall row.now.a }
    requires b_small { unsigned_abs row.now.b < 2 ^ 127 }
    ensures { IfOk result (λ r. r ≡ broken_row row.now) }
{
    let mut coefficients = Vector::with_capacity(alloc, row.a.len())?;
    push_negated_wholes(&mut coefficients, row.a.as_slice())?;
    Ok(Row {
        a: coefficients,
        b: whole(row.b).neg(),
        strict: true,
    })
}

/// The row in fractions with as many more coefficients, which are 0.
pub fn widened_whole_row(alloc: Global, row: &RowInt, more: u32) -> Result<Row, NoMemory>
    requires small { AreSmall row.now.a }
    requires b_small { unsigned_abs row.now.b < 2 ^ 127 }
    ensures { IfOk result (λ r. r ≡ widened more (whole_row row.now)) }
{
    let mut coefficients = Vector::with_capacity(alloc, row.a.len().saturating_add(more as usize))?;
    push_wholes(&mut coefficients, row.a.as_slice())?;
    push_zeros(&mut coefficients, more)?;
    Ok(Row {
        a: coefficients,
        b: whole(row.b),
        strict: false,
    })
}

/// The strict row that is met where the row fails, with as many more coefficients, which are 0.
pub fn widened_broken_row(alloc: Global, row: &RowInt, more: u32) -> Result<Row, NoMemory>
    requires small { AreSmall row.now.a }
    requires b_small { unsigned_abs row.now.b < 2 ^ 127 }
    ensures { IfOk result (λ r. r ≡ widened more (broken_row row.now)) }
{
    let mut coefficients = Vector::with_capacity(alloc, row.a.len().saturating_add(more as usize))?;
    push_negated_wholes(&mut coefficients, row.a.as_slice())?;
    push_zeros(&mut coefficients, more)?;
    Ok(Row {
        a: coefficients,
        b: whole(row.b).neg(),
        strict: true,
    })
}

// ---- the rows of the program

/// The row `g_i z - w_i t <= w_i0` in the unknowns (t, z). Rows are counted from 1.
pub fn joint_row(alloc: Global, qp: &Qp, at_row: u32) -> Result<Row, NoMemory>
    requires from_one { 1 ≤ at_row }
    requires to_last { at_row ≤ height qp.now.g }
    ensures row { IfOk result (λ r. r ≡ joint_row qp.now at_row) }
    ensures size { IfOk result (λ r. length r.a ≡ length qp.now.counts + height qp.now.h) }
{
    prove!(at_row <= qp.g.rows() && at_row <= qp.w.rows() && qp.w.cols() > 0);
    let right = qp.w.row(at_row - 1);
    let left = qp.g.row(at_row - 1);
    let mut coefficients = Vector::with_capacity(alloc, right.len().saturating_add(left.len()))?;
    push_negatives(&mut coefficients, &right[1..])?;
    push_entries(&mut coefficients, left)?;
    Ok(Row {
        a: coefficients,
        b: right[0],
        strict: false,
    })
}

// ---- any row

/// The row the other way round: `-a · v <= -b`, strict where the row is.
pub fn turned(alloc: Global, row: &Row) -> Result<Row, NoMemory>
    ensures row { IfOk result (λ r. r ≡ turned row.now) }
    ensures size { IfOk result (λ r. length r.a ≡ length row.now.a) }
{
    let mut coefficients = Vector::with_capacity(alloc, row.a.len())?;
    push_negatives(&mut coefficients, row.a.as_slice())?;
    Ok(Row {
        a: coefficients,
        b: row.b.neg(),
        strict: row.strict,
    })
}

/// The row with as many more coefficients, which are 0.
pub fn widened(alloc: Global, row: &Row, more: u32) -> Result<Row, NoMemory>
    ensures { IfOk result (λ r. r ≡ widened more row.now) }
{
    let mut coefficients = Vector::with_capacity(alloc, row.a.len().saturating_add(more as usize))?;
    push_entries(&mut coefficients, row.a.as_slice())?;
    push_zeros(&mut coefficients, more)?;
    Ok(Row {
        a: coefficients,
        b: row.b,
        strict: row.strict,
    })
}
