//! Sums of products of fractions over one denominator, in whole numbers, where these are small.

ghost use Rattle.std.specs.Prelude.{◌≡◌, List, ◌+◌, ◌*◌, ◌^◌, ◌<◌, ◌≤◌, ◌↔◌, IfOk, IfSome, IsTrue, length, unsigned_abs, ◌-ℤ◌, ◌*ℤ◌, ◌<ℤ◌};
ghost use Rattle.mpc_exact.specs.Rational.{ℚ, frac, ◌-ℚ◌, ◌<ℚ◌, neg_ℚ};
ghost use Rattle.mpc_frac.specs.Fits.{FitsSum};
ghost use Rattle.mpc_space.specs.Vector.{dot, mat_vec};
ghost use Rattle.mpc_space.specs.Matrix.{height, IsRectangular};
ghost use Rattle.mpc_linear.specs.Dot.{DotFits};
ghost use Rattle.mpc_wholes.specs.Wholes.{IsDenominator, IsOver};
ghost use Rattle.mpc_wholes.specs.Spans.{IsSpanOf};
ghost use Rattle.mpc_online.specs.Wholes.{AreRowsOver};

use mpc_frac::Frac;
use mpc_linear::Matrix;
use mpc_wholes::{
    Span, Wholes, denominator, dot_from, dot_within, over_multiple, over_one_denominator,
    over_theorems,
};
use std::alloc::{AllocError, Global};

/// The greatest size of the numbers here and of a product of three of them, 2^124: seven such products are below 2^127.
const MOST: u128 = 0x1000_0000_0000_0000_0000_0000_0000_0000;

/// The cube root of `MOST`, rounded down to a power of two: three numbers up to it are seen to have a small product without a multiplication.
const SHORT: u128 = 0x200_0000_0000;

/// Whether the product is at most 2^124.
pub fn is_small(first: u128, second: u128, third: u128) -> bool
    ensures { IsTrue result → first * second * third ≤ 2 ^ 124 }
{
    if first <= SHORT && second <= SHORT && third <= SHORT {
        return true;
    }
    let Some(two) = first.checked_mul(second) else {
        return false;
    };
    match two.checked_mul(third) {
        Some(three) => three <= MOST,
        None => false,
    }
}

/// The size of a sum with one product more, where it is at most 2^124.
pub fn grown_size(total: u128, numerator: i128, count: u64) -> Option<u128>
    ensures value { IfSome result (λ t. t ≡ total + unsigned_abs numerator * count) }
    ensures small { IfSome result (λ t. t ≤ 2 ^ 124) }
{
    let more = numerator.unsigned_abs().checked_mul(count as u128)?;
    let sum = total.checked_add(more)?;
    if sum > MOST {
        return None;
    }
    Some(sum)
}

/// The dot of the first numerators.
pub fn dot_of_numerators(row: &Wholes, numbers: &Wholes, count: usize) -> i128
    requires few { count ≤ 6 }
    requires small { row.now.most * numbers.now.most ≤ 2 ^ 124 }
    ensures size { unsigned_abs result ≤ 6 * (row.now.most * numbers.now.most) }
    ensures value { (xs ys : List ℚ) → IsOver xs row.now → IsOver ys numbers.now → length xs ≡ count → length ys ≡ count
        → dot xs ys ≡ frac result (row.now.den * numbers.now.den) }
    ensures fits { (xs ys : List ℚ) → IsOver xs row.now → IsOver ys numbers.now → length xs ≡ count → length ys ≡ count
        → DotFits xs ys }
{
    dot_from(0, row, numbers, count)
}

/// The same, where the row's numerators outside of a span are 0.
pub fn dot_in_span(row: &Wholes, numbers: &Wholes, span: &Span, count: usize) -> i128
    requires few { count ≤ 6 }
    requires small { row.now.most * numbers.now.most ≤ 2 ^ 124 }
    requires span { IsSpanOf row.now.numerators count span.now }
    ensures size { unsigned_abs result ≤ 6 * (row.now.most * numbers.now.most) }
    ensures value { (xs ys : List ℚ) → IsOver xs row.now → IsOver ys numbers.now → length xs ≡ count → length ys ≡ count
        → dot xs ys ≡ frac result (row.now.den * numbers.now.den) }
    ensures fits { (xs ys : List ℚ) → IsOver xs row.now → IsOver ys numbers.now → length xs ≡ count → length ys ≡ count
        → DotFits xs ys }
{
    dot_within(0, row, numbers, span, count)
}

/// The product, which fits.
pub fn product(left: i128, right: i128) -> i128
    requires { unsigned_abs (left *ℤ right) < 2 ^ 127 }
    ensures { result ≡ left *ℤ right }
{
    left * right
}

/// The difference, which fits.
pub fn difference(left: i128, right: i128) -> i128
    requires { unsigned_abs (left -ℤ right) < 2 ^ 127 }
    ensures { result ≡ left -ℤ right }
{
    left - right
}

/// Whether the left number is above the right one.
pub fn is_above_whole(left: i128, right: i128) -> bool
    ensures { IsTrue result ↔ (right <ℤ left) }
{
    left > right
}

/// The greater one of the size of the numerator and the denominator.
fn size_of(number: &Frac) -> u128
    ensures numerator { unsigned_abs number.now.numer ≤ result }
    ensures denominator { number.now.denom ≤ result }
{
    number.num().unsigned_abs().max(denominator(number))
}

/// Whether the dot is above the side. `None` where the numbers aren't small enough to show that each operation on fractions on the way to
/// their difference fits.
pub fn is_above(row: &Wholes, numbers: &Wholes, count: usize, side: &Frac) -> Option<bool>
    requires { count ≤ 6 }
    ensures value { IfSome result
        (λ yes. (xs ys : List ℚ) → IsOver xs row.now → IsOver ys numbers.now → length xs ≡ count → length ys ≡ count
        → IsTrue yes ↔ (side.now <ℚ dot xs ys)) }
    ensures fits { IfSome result
        (λ _. (xs ys : List ℚ) → IsOver xs row.now → IsOver ys numbers.now → length xs ≡ count → length ys ≡ count
        → DotFits xs ys × FitsSum (dot xs ys) (neg_ℚ side.now)) }
{
    over_theorems();
    if !is_small(row.most, numbers.most, size_of(side)) {
        return None;
    }
    let level = dot_of_numerators(row, numbers, count);
    let left = product(level, side.den());
    let right = product(side.num(), (row.den * numbers.den) as i128);
    Some(is_above_whole(left, right))
}

/// By how much the dot is above the side. `None` where `is_above` is.
pub fn difference_in_wholes(
    row: &Wholes,
    numbers: &Wholes,
    count: usize,
    side: &Frac,
) -> Option<Frac>
    requires { count ≤ 6 }
    ensures value { IfSome result
        (λ v. (xs ys : List ℚ) → IsOver xs row.now → IsOver ys numbers.now → length xs ≡ count → length ys ≡ count
        → v ≡ dot xs ys -ℚ side.now) }
    ensures fits { IfSome result
        (λ _. (xs ys : List ℚ) → IsOver xs row.now → IsOver ys numbers.now → length xs ≡ count → length ys ≡ count
        → DotFits xs ys × FitsSum (dot xs ys) (neg_ℚ side.now)) }
{
    over_theorems();
    if !is_small(row.most, numbers.most, size_of(side)) {
        return None;
    }
    let level = dot_of_numerators(row, numbers, count);
    let left = product(level, side.den());
    let right = product(side.num(), (row.den * numbers.den) as i128);
    let above = difference(left, right);
    let below = product((row.den * numbers.den) as i128, side.den());
    let Ok(value) = Frac::new(above, below) else {
        return None;
    };
    Some(value)
}

/// The fraction of these parts, where it fits: nothing is reduced where it is whole.
pub fn fraction_over(numerator: i128, den: u128) -> Option<Frac>
    requires positive { 0 < den }
    requires small { den ≤ 2 ^ 124 }
    ensures { IfSome result (λ v. v ≡ frac numerator den) }
{
    if den == 1 {
        if let Ok(whole) = i64::try_from(numerator) {
            return Some(Frac::whole(whole));
        }
    }
    let Ok(value) = Frac::new(numerator, den as i128) else {
        return None;
    };
    Some(value)
}

/// The dot, where the numbers are small enough to show that each operation on fractions on the way to it fits.
pub fn dot_in_wholes(row: &Wholes, numbers: &Wholes, count: usize) -> Option<Frac>
    requires { count ≤ 6 }
    ensures value { IfSome result
        (λ v. (xs ys : List ℚ) → IsOver xs row.now → IsOver ys numbers.now → length xs ≡ count → length ys ≡ count
        → v ≡ dot xs ys) }
    ensures fits { IfSome result
        (λ _. (xs ys : List ℚ) → IsOver xs row.now → IsOver ys numbers.now → length xs ≡ count → length ys ≡ count
        → DotFits xs ys) }
{
    if !is_small(row.most, numbers.most, 1) {
        return None;
    }
    let total = dot_of_numerators(row, numbers, count);
    fraction_over(total, row.den * numbers.den)
}

/// The numerator over this denominator of the dot of a row and numbers, where the row is over it with them and small.
fn value_over(row: &Option<Wholes>, numbers: &Wholes, count: usize, den: u128) -> Option<i128>
    requires { count ≤ 6 }
    ensures value { IfSome result
        (λ z. (xs ys : List ℚ) → IfSome row.now (IsOver xs) → IsOver ys numbers.now → length xs ≡ count → length ys ≡ count
        → dot xs ys ≡ frac z den) }
    ensures small { IfSome result (λ z. unsigned_abs z ≤ 2 ^ 124) }
{
    let Some(whole) = row else {
        return None;
    };
    if !is_small(whole.most, numbers.most, 6) {
        return None;
    }
    if whole.den * numbers.den != den {
        return None;
    }
    Some(dot_of_numerators(whole, numbers, count))
}

/// The denominator of the dot of the first row and numbers, where it is at most 2^124.
fn first_denominator(rows: &[Option<Wholes>], numbers: &Wholes) -> Option<u128>
    ensures positive { IfSome result (λ d. 0 < d) }
    ensures small { IfSome result (λ d. d ≤ 2 ^ 124) }
{
    let Some(Some(first)) = rows.first() else {
        return None;
    };
    if !is_small(first.most, numbers.most, 1) {
        return None;
    }
    Some(first.den * numbers.den)
}

/// The dots of up to six rows and a list, where all are over one denominator and small.
pub fn products_in_wholes(matrix: &Matrix, rows: &[Option<Wholes>], list: &[Frac]) -> Option<Wholes>
    requires rectangular { IsRectangular matrix.now }
    requires size { matrix.now.columns ≡ length list.now }
    requires few { length list.now ≤ 6 }
    requires few_rows { height matrix.now ≤ 6 }
    requires rows { AreRowsOver matrix.now rows.now }
    ensures { IfSome result (IsOver (mat_vec matrix.now.rows list.now)) }
{
    let numbers = over_one_denominator(list)?;
    let den = first_denominator(rows, &numbers)?;
    let mut numerators = [0; 6];
    let mut most = den;
    for index in 0..rows.len() {
        let numerator = value_over(&rows[index], &numbers, list.len(), den)?;
        numerators[index] = numerator;
        most = most.max(numerator.unsigned_abs());
    }
    Some(Wholes {
        numerators,
        den,
        most,
    })
}

/// The rows of a matrix, each over one denominator, a multiple of the start, where it is small.
pub fn whole_rows(
    alloc: Global,
    matrix: &Matrix,
    start: u128,
) -> Result<Vec<Option<Wholes>>, AllocError>
    requires few { matrix.now.columns ≤ 6 }
    requires start { IsDenominator start }
    ensures { IfOk result (λ rows. AreRowsOver matrix.now rows.items) }
{
    let mut rows = Vec::with_capacity(alloc, matrix.rows() as usize)?;
    for index in 0..matrix.rows() {
        rows.push(over_multiple(start, matrix.row(index)))?;
    }
    Ok(rows)
}
