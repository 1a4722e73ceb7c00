//! The right sides of the rows at a state, over one denominator where the numbers are small.

ghost use Rattle.std.specs.Prelude.{◌≡◌, List, ◌*◌, ◌^◌, ◌<◌, ◌≤◌, ◌↔◌, IfOk, IfSome, IsTrue, MatchResult, length, unsigned_abs};
ghost use Rattle.mpc_exact.specs.Rational.{ℚ, frac, ◌-ℚ◌, ◌<ℚ◌, neg_ℚ};
ghost use Rattle.mpc_frac.specs.Fits.{FitsSum};
ghost use Rattle.mpc_space.specs.Vector.{coordinate, dot, mat_vec};
ghost use Rattle.mpc_space.specs.Matrix.{IsRectangular};
ghost use Rattle.mpc_linear.specs.Dot.{DotFits};
ghost use Rattle.mpc_wholes.specs.Wholes.{IsOver, AreRowsOver};
ghost use Rattle.mpc_wholes.specs.Spans.{IsSpanOf, AreSpansOf};
ghost use Rattle.mpc_online.specs.Widths.{ProductsFit};
ghost use Rattle.mpc_online.specs.Evens.{AreEvenRows, even_sides, sides_of};
ghost use Rattle.mpc_online.specs.Shared.{IsPreparedFor};
ghost use Rattle.mpc_online.specs.Answers.{IfStopWide};

use crate::prepared::{EvenRows, Prepared};
use crate::sides::{EvenSides, Sides};
use crate::solutions::{Stop, products};
use crate::wholes::{
    difference, dot_in_span, dot_of_numerators, fraction_over, is_above_whole, product,
};
use mpc_frac::{Frac, fit_theorems};
use mpc_linear::Matrix;
use mpc_rows::Qp;
use mpc_wholes::{Span, Wholes, common_of, over_theorems, rows_over, spans_of, wholes_over};
use std::alloc::{AllocError, Global};

/// The greatest size of the numbers of the rows, 2^44.
const MOST: u128 = 0x1000_0000_0000;

/// The greatest count, 2^20.
const MOST_COUNT: u128 = 0x10_0000;

/// The rows over one denominator, where the numbers are small. `None` also where there is no memory.
pub fn even_rows(alloc: Global, qp: &Qp) -> Option<EvenRows>
    ensures { IfSome result (AreEvenRows qp.now) }
{
    let den = common_of(common_of(1, &qp.g)?, &qp.w)?;
    if den > MOST {
        return None;
    }
    let rows = rows_over(alloc, &qp.g, den, MOST)?;
    let row_spans = spans_of(alloc, &rows, qp.g.cols() as usize).ok()?;
    let sides = rows_over(alloc, &qp.w, den, MOST)?;
    let side_spans = spans_of(alloc, &sides, qp.w.cols() as usize).ok()?;
    Some(EvenRows {
        den,
        rows,
        row_spans,
        sides,
        side_spans,
    })
}

/// The dots of rows over one denominator with counts.
fn even_products(
    alloc: Global,
    matrix: &Matrix,
    rows: &[Wholes],
    spans: &[Span],
    den: u128,
    counts: &Wholes,
    count: usize,
) -> Result<EvenSides, AllocError>
    requires some { 0 < den }
    requires den_small { den ≤ 2 ^ 44 }
    requires rows { AreRowsOver matrix.now den (2 ^ 44) rows.now }
    requires spans { AreSpansOf rows.now count spans.now }
    requires rectangular { IsRectangular matrix.now }
    requires count { count ≡ matrix.now.columns }
    requires few { count ≤ 6 }
    requires whole { counts.now.den ≡ 1 }
    requires counts { counts.now.most ≤ 2 ^ 20 }
    ensures value { IfOk result (λ s. (c : List ℚ) → IsOver c counts.now → length c ≡ count → even_sides s ≡ mat_vec matrix.now.rows c) }
    ensures fits { IfOk result (λ _. (c : List ℚ) → IsOver c counts.now → length c ≡ count → ProductsFit matrix.now c) }
{
    let mut numerators = Vec::with_capacity(alloc, rows.len())?;
    for index in 0..rows.len() {
        numerators.push(dot_in_span(&rows[index], counts, &spans[index], count))?;
    }
    Ok(EvenSides { numerators, den })
}

/// The right sides of all rows at a state.
pub fn right_sides(
    alloc: Global,
    qp: &Qp,
    prepared: &Prepared,
    extended_counts: &[Frac],
) -> Result<Sides, Stop>
    requires prepared { IsPreparedFor qp.now prepared.now }
    requires size { qp.now.w.columns ≡ length extended_counts.now }
    ensures value { IfOk result (λ s. sides_of s ≡ mat_vec qp.now.w.rows extended_counts.now) }
    ensures wide { MatchResult result (λ _. ProductsFit qp.now.w extended_counts.now) (λ e. IfStopWide e (¬ ProductsFit qp.now.w extended_counts.now)) }
{
    if let Some(even) = &prepared.even {
        if let Some(counts) = wholes_over(extended_counts, 1, MOST_COUNT) {
            let sides = even_products(
                alloc,
                &qp.w,
                &even.sides,
                &even.side_spans,
                even.den,
                &counts,
                extended_counts.len(),
            )?;
            return Ok(Sides::Even(sides));
        }
    }
    let fractions = products(alloc, &qp.w, extended_counts, &prepared.sides)?;
    Ok(Sides::Apart(fractions))
}

/// A right side as a fraction.
fn even_side(sides: &EvenSides, place: usize) -> Frac
    requires { place < length (even_sides sides.now) }
    ensures { result ≡ coordinate (even_sides sides.now) place }
{
    fit_theorems();
    let below = sides.den as i128;
    Frac::new(sides.numerators[place], below).unwrap()
}

/// The right side in a place, from 0.
pub fn side_at(sides: &Sides, place: usize) -> Frac
    requires { place < length (sides_of sides.now) }
    ensures { result ≡ coordinate (sides_of sides.now) place }
{
    match sides {
        Sides::Even(even) => even_side(even, place),
        Sides::Apart(fractions) => fractions[place],
    }
}

/// Whether the dot is above this numerator over the denominator of the row. No number on the way is large.
pub fn is_above_side(
    row: &Wholes,
    span: &Span,
    numbers: &Wholes,
    count: usize,
    numerator: i128,
) -> bool
    requires few { count ≤ 6 }
    requires span { IsSpanOf row.now.numerators count span.now }
    requires row { row.now.most ≤ 2 ^ 44 }
    requires numbers { numbers.now.most ≤ 2 ^ 58 }
    requires numerator { unsigned_abs numerator ≤ 6 * 2 ^ 64 }
    ensures value { (xs ys : List ℚ) → IsOver xs row.now → IsOver ys numbers.now → length xs ≡ count → length ys ≡ count
        → IsTrue result ↔ (frac numerator row.now.den <ℚ dot xs ys) }
    ensures fits { (xs ys : List ℚ) → IsOver xs row.now → IsOver ys numbers.now → length xs ≡ count → length ys ≡ count
        → DotFits xs ys × FitsSum (dot xs ys) (neg_ℚ (frac numerator row.now.den)) }
{
    over_theorems();
    let level = dot_in_span(row, numbers, span, count);
    is_above_whole(level, product(numerator, numbers.den as i128))
}

/// By how much the dot is above this numerator over the denominator of the row.
pub fn excess_over_side(
    row: &Wholes,
    numbers: &Wholes,
    count: usize,
    numerator: i128,
) -> Option<Frac>
    requires few { count ≤ 6 }
    requires row { row.now.most ≤ 2 ^ 44 }
    requires numbers { numbers.now.most ≤ 2 ^ 58 }
    requires numerator { unsigned_abs numerator ≤ 6 * 2 ^ 64 }
    ensures value { IfSome result
        (λ v. (xs ys : List ℚ) → IsOver xs row.now → IsOver ys numbers.now → length xs ≡ count → length ys ≡ count
        → v ≡ dot xs ys -ℚ frac numerator row.now.den) }
    ensures fits { IfSome result
        (λ _. (xs ys : List ℚ) → IsOver xs row.now → IsOver ys numbers.now → length xs ≡ count → length ys ≡ count
        → DotFits xs ys × FitsSum (dot xs ys) (neg_ℚ (frac numerator row.now.den))) }
{
    over_theorems();
    let level = dot_of_numerators(row, numbers, count);
    let above = difference(level, product(numerator, numbers.den as i128));
    fraction_over(above, row.den * numbers.den)
}
