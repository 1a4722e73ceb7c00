//! The first row that a point doesn't meet.

ghost use Rattle.std.specs.Prelude.{◌≡◌, ◌-◌, ◌^◌, ◌≤◌, ◌↔◌, IfOk, IfSome, IsTrue, MatchResult, length};
ghost use Rattle.mpc_wholes.specs.Wholes.{AreRowsOver as AreOneScale};
ghost use Rattle.mpc_wholes.specs.Spans.{AreSpansOf};
ghost use Rattle.mpc_exact.specs.Rational.{◌-ℚ◌};
ghost use Rattle.mpc_space.specs.Matrix.{height};
ghost use Rattle.mpc_online.specs.StateRows.{level, side, IsViolated, IsFirstViolated};
ghost use Rattle.mpc_online.specs.Widths.{TestFits, TestsFit};
ghost use Rattle.mpc_online.specs.Wholes.{AreRowsOver, entries_of, first_of};
ghost use Rattle.mpc_online.specs.Evens.{sides_of, even_sides};
ghost use Rattle.mpc_online.specs.Shared.{IsPreparedFor};

use crate::evens::{excess_over_side, is_above_side, side_at};
use crate::numbers::is_positive;
use crate::points::{Point, point_dot};
use crate::prepared::Prepared;
use crate::sides::{EvenSides, Sides};
use crate::wholes::{difference_in_wholes, is_above};
use mpc_frac::{Frac, Wide};
use mpc_rows::Qp;
use mpc_wholes::{Span, Wholes};

/// The greatest size of the numbers of a point that is tested in whole numbers alone, 2^58.
const MOST: u128 = 0x400_0000_0000_0000;

/// By how much the point is above the row with this number, i: `g_i z - b_i`.
fn excess(qp: &Qp, sides: &Sides, point: &Point, row_number: u32) -> Result<Frac, Wide>
    requires sides { length (sides_of sides.now) ≡ height qp.now.g }
    requires point { length (entries_of point.now) ≡ height qp.now.h }
    requires from_one { 1 ≤ row_number }
    requires to_last { row_number ≤ height qp.now.g }
    ensures value { IfOk result (λ v. v ≡ level qp.now (entries_of point.now) row_number -ℚ side (sides_of sides.now) row_number) }
    ensures wide { MatchResult result (λ _. TestFits qp.now (sides_of sides.now) (entries_of point.now) row_number)
        (λ _. ¬ TestFits qp.now (sides_of sides.now) (entries_of point.now) row_number) }
{
    let _rows = qp.g.rows();
    let level = point_dot(qp.g.row(row_number - 1), point)?;
    level.sub(&side_at(sides, row_number as usize - 1))
}

/// The same, in whole numbers where these are small.
fn excess_by_rows(
    qp: &Qp,
    rows: &[Option<Wholes>],
    sides: &Sides,
    point: &Point,
    row_number: u32,
) -> Result<Frac, Wide>
    requires rows { AreRowsOver qp.now.g rows.now }
    requires sides { length (sides_of sides.now) ≡ height qp.now.g }
    requires point { length (entries_of point.now) ≡ height qp.now.h }
    requires from_one { 1 ≤ row_number }
    requires to_last { row_number ≤ height qp.now.g }
    ensures value { IfOk result (λ v. v ≡ level qp.now (entries_of point.now) row_number -ℚ side (sides_of sides.now) row_number) }
    ensures wide { MatchResult result (λ _. TestFits qp.now (sides_of sides.now) (entries_of point.now) row_number)
        (λ _. ¬ TestFits qp.now (sides_of sides.now) (entries_of point.now) row_number) }
{
    let place = row_number as usize - 1;
    if let Some(row) = &rows[place] {
        if let Point::Whole(numbers, count) = point {
            if let Some(above) = difference_in_wholes(
                row,
                numbers,
                *count,
                &side_at(sides, place),
            ) {
                return Ok(above);
            }
        }
    }
    excess(qp, sides, point, row_number)
}

/// The same, where all rows are over one denominator and no number is large.
fn excess_in_wholes(
    qp: &Qp,
    rows: &[Wholes],
    sides: &EvenSides,
    numbers: &Wholes,
    count: usize,
    row_number: u32,
) -> Option<Frac>
    requires rows { AreOneScale qp.now.g sides.now.den (2 ^ 44) rows.now }
    requires sides { length (even_sides sides.now) ≡ height qp.now.g }
    requires count { count ≡ height qp.now.h }
    requires few { count ≤ 6 }
    requires numbers { numbers.now.most ≤ 2 ^ 58 }
    requires from_one { 1 ≤ row_number }
    requires to_last { row_number ≤ height qp.now.g }
    ensures value { IfSome result
        (λ v. v ≡ level qp.now (first_of numbers.now count) row_number -ℚ side (even_sides sides.now) row_number) }
    ensures fits { IfSome result (λ _. TestFits qp.now (even_sides sides.now) (first_of numbers.now count) row_number) }
{
    let place = row_number as usize - 1;
    excess_over_side(&rows[place], numbers, count, sides.numerators[place])
}

/// The same, where it is known that they are.
fn excess_of_even(
    qp: &Qp,
    prepared: &Prepared,
    sides: &Sides,
    point: &Point,
    row_number: u32,
) -> Option<Frac>
    requires prepared { IsPreparedFor qp.now prepared.now }
    requires sides { length (sides_of sides.now) ≡ height qp.now.g }
    requires point { length (entries_of point.now) ≡ height qp.now.h }
    requires from_one { 1 ≤ row_number }
    requires to_last { row_number ≤ height qp.now.g }
    ensures value { IfSome result (λ v. v ≡ level qp.now (entries_of point.now) row_number -ℚ side (sides_of sides.now) row_number) }
    ensures fits { IfSome result (λ _. TestFits qp.now (sides_of sides.now) (entries_of point.now) row_number) }
{
    let Some(even) = &prepared.even else {
        return None;
    };
    let Sides::Even(right) = sides else {
        return None;
    };
    let Point::Whole(numbers, count) = point else {
        return None;
    };
    if right.den != even.den || numbers.most > MOST {
        return None;
    }
    excess_in_wholes(qp, &even.rows, right, numbers, *count, row_number)
}

/// The same, in whole numbers where these are small, over one denominator of all rows where that is known.
pub fn excess_at(
    qp: &Qp,
    prepared: &Prepared,
    sides: &Sides,
    point: &Point,
    row_number: u32,
) -> Result<Frac, Wide>
    requires prepared { IsPreparedFor qp.now prepared.now }
    requires sides { length (sides_of sides.now) ≡ height qp.now.g }
    requires point { length (entries_of point.now) ≡ height qp.now.h }
    requires from_one { 1 ≤ row_number }
    requires to_last { row_number ≤ height qp.now.g }
    ensures value { IfOk result (λ v. v ≡ level qp.now (entries_of point.now) row_number -ℚ side (sides_of sides.now) row_number) }
    ensures wide { MatchResult result (λ _. TestFits qp.now (sides_of sides.now) (entries_of point.now) row_number)
        (λ _. ¬ TestFits qp.now (sides_of sides.now) (entries_of point.now) row_number) }
{
    if let Some(above) = excess_of_even(qp, prepared, sides, point, row_number) {
        return Ok(above);
    }
    excess_by_rows(qp, &prepared.rows, sides, point, row_number)
}

/// Whether the point is above the row with this number: in whole numbers, where these are small, and else in fractions.
fn is_violated(
    qp: &Qp,
    rows: &[Option<Wholes>],
    sides: &Sides,
    point: &Point,
    row_number: u32,
) -> Result<bool, Wide>
    requires rows { AreRowsOver qp.now.g rows.now }
    requires sides { length (sides_of sides.now) ≡ height qp.now.g }
    requires point { length (entries_of point.now) ≡ height qp.now.h }
    requires from_one { 1 ≤ row_number }
    requires to_last { row_number ≤ height qp.now.g }
    ensures value { IfOk result (λ yes. IsTrue yes ↔ IsViolated qp.now (sides_of sides.now) (entries_of point.now) row_number) }
    ensures wide { MatchResult result (λ _. TestFits qp.now (sides_of sides.now) (entries_of point.now) row_number)
        (λ _. ¬ TestFits qp.now (sides_of sides.now) (entries_of point.now) row_number) }
{
    let place = row_number as usize - 1;
    if let Some(row) = &rows[place] {
        if let Point::Whole(numbers, count) = point {
            if let Some(yes) = is_above(row, numbers, *count, &side_at(sides, place)) {
                return Ok(yes);
            }
        }
    }
    let above = excess(qp, sides, point, row_number)?;
    Ok(is_positive(&above))
}

/// The first row that the point doesn't meet, if there is one, where all are over one denominator and no number is large.
fn first_in_wholes(
    qp: &Qp,
    rows: &[Wholes],
    spans: &[Span],
    sides: &EvenSides,
    numbers: &Wholes,
    count: usize,
) -> Option<u32>
    requires rows { AreOneScale qp.now.g sides.now.den (2 ^ 44) rows.now }
    requires sides { length (even_sides sides.now) ≡ height qp.now.g }
    requires count { count ≡ height qp.now.h }
    requires few { count ≤ 6 }
    requires numbers { numbers.now.most ≤ 2 ^ 58 }
    requires spans { AreSpansOf rows.now qp.now.g.columns spans.now }
    ensures first { IsFirstViolated qp.now (even_sides sides.now) (first_of numbers.now count) result }
    ensures fits { TestsFit qp.now (even_sides sides.now) (first_of numbers.now count) }
{
    for index in 0..rows.len() {
        if is_above_side(
            &rows[index],
            &spans[index],
            numbers,
            count,
            sides.numerators[index],
        ) {
            return Some(index as u32 + 1);
        }
    }
    None
}

/// The same, where it is known that they are.
fn first_of_even(qp: &Qp, prepared: &Prepared, sides: &Sides, point: &Point) -> Option<Option<u32>>
    requires prepared { IsPreparedFor qp.now prepared.now }
    requires sides { length (sides_of sides.now) ≡ height qp.now.g }
    requires point { length (entries_of point.now) ≡ height qp.now.h }
    ensures first { IfSome result (IsFirstViolated qp.now (sides_of sides.now) (entries_of point.now)) }
    ensures fits { IfSome result (λ _. TestsFit qp.now (sides_of sides.now) (entries_of point.now)) }
{
    let Some(even) = &prepared.even else {
        return None;
    };
    let Sides::Even(right) = sides else {
        return None;
    };
    let Point::Whole(numbers, count) = point else {
        return None;
    };
    if right.den != even.den || numbers.most > MOST {
        return None;
    }
    Some(first_in_wholes(qp, &even.rows, &even.row_spans, right, numbers, *count))
}

/// The first row that the point doesn't meet, if there is one.
pub fn first_violated(
    qp: &Qp,
    prepared: &Prepared,
    sides: &Sides,
    point: &Point,
) -> Result<Option<u32>, Wide>
    requires prepared { IsPreparedFor qp.now prepared.now }
    requires sides { length (sides_of sides.now) ≡ height qp.now.g }
    requires point { length (entries_of point.now) ≡ height qp.now.h }
    ensures value { IfOk result (λ o. IsFirstViolated qp.now (sides_of sides.now) (entries_of point.now) o) }
    ensures wide { MatchResult result (λ _. TestsFit qp.now (sides_of sides.now) (entries_of point.now))
        (λ _. ¬ TestsFit qp.now (sides_of sides.now) (entries_of point.now)) }
{
    if let Some(first) = first_of_even(qp, prepared, sides, point) {
        return Ok(first);
    }
    for index in 0..qp.g.rows() {
        let above = is_violated(qp, &prepared.rows, sides, point, index + 1)?;
        if above {
            return Ok(Some(index + 1));
        }
    }
    Ok(None)
}
