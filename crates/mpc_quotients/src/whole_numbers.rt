//! Sums and quotients of whole numbers.

ghost use Rattle.std.specs.Prelude.{◌≡◌, ℤ, pos, ◌+◌, ◌*◌, ◌<◌, ◌≤◌, ◌^◌, ◌+ℤ◌, ◌*ℤ◌, neg_ℤ, unsigned_abs, IfSome, true, length};
ghost use Rattle.mpc_quotients.specs.Sums.{are_short, are_of_four};
ghost use Rattle.mpc_runs.specs.WholeNumbers.{whole_total, HasRoom, turned};
ghost use Rattle.mpc_scaled.specs.Scaled.{whole_at, whole_cell, IsSmall};
ghost use Rattle.std.specs.Int.{w64, int_wrap};

use crate::divisors::Divisor;
use mpc_scaled::{narrow, negative, product, signed};

/// The number, if it is small.
#[inline]
pub fn small(number: i128) -> Option<i64>
    ensures value { IfSome result (λ y. y ≡ number) }
    ensures small { IfSome result (λ y. unsigned_abs y ≤ 2 ^ 62) }
{
    if number.unsigned_abs() <= 1 << 62 {
        Some(narrow(number))
    } else {
        None
    }
}

/// The number in 128 bits.
#[inline]
pub fn widened(number: i64) -> i128
    ensures { result ≡ number }
{
    number as i128
}

/// The sum, which fits where both are small.
#[inline]
pub fn sum(left: i128, right: i128) -> i128
    requires left { unsigned_abs left ≤ 2 ^ 125 }
    requires right { unsigned_abs right ≤ 2 ^ 126 }
    ensures { result ≡ left +ℤ right }
{
    left + right
}

/// Minus a number.
#[inline]
pub fn minus(number: u64) -> i64
    requires { number ≤ 2 ^ 40 }
    ensures value { result ≡ neg_ℤ (pos number) }
    ensures small { unsigned_abs result ≤ 2 ^ 40 }
{
    -(number as i64)
}

/// The number, with its sign changed where the pivot is negative.
#[inline]
pub fn turned(pivot: i64, number: i64) -> i64
    requires { unsigned_abs number ≤ 2 ^ 62 }
    ensures value { result ≡ turned pivot number }
    ensures small { unsigned_abs result ≤ unsigned_abs number }
{
    if pivot < 0 { -number } else { number }
}

/// The quotient, if it is whole and small.
#[inline]
pub fn small_quotient(number: i128, by: Divisor, most: u64) -> Option<i64>
    requires by_small { by.den ≤ 2 ^ 62 }
    requires most_small { most ≤ 2 ^ 62 }
    ensures value { IfSome result (λ q. q *ℤ pos by.den ≡ number) }
    ensures small { IfSome result (λ q. unsigned_abs q ≤ most) }
{
    let quotient = by.guess(number);
    if quotient.unsigned_abs() > most {
        return None;
    }
    let back = product(quotient, signed(by.den));
    if back == number { Some(quotient) } else { None }
}

/// `entry pivot - factor top`.
#[inline]
fn difference(entry: i64, factor: i64, top: i64, pivot: u64) -> i128
    requires v_small { unsigned_abs entry ≤ 2 ^ 62 }
    requires k_small { unsigned_abs factor ≤ 2 ^ 62 }
    requires x_small { unsigned_abs top ≤ 2 ^ 62 }
    requires q_small { pivot ≤ 2 ^ 62 }
    ensures value { result ≡ (entry *ℤ pos pivot) +ℤ neg_ℤ (factor *ℤ top) }
    ensures small { unsigned_abs result < 2 ^ 127 }
{
    let first = product(entry, signed(pivot));
    let second = product(negative(factor), top);
    sum(first, second)
}

/// `(entry pivot - factor top) / den`, the number of a column that stays after a pivot (Bareiss 1968), if it is
/// whole and small.
#[inline]
pub fn changed(entry: i64, factor: i64, top: i64, pivot: u64, by: Divisor, most: u64) -> Option<i64>
    requires den_some { 0 < by.den }
    requires den_small { by.den ≤ 2 ^ 62 }
    requires q_small { pivot ≤ 2 ^ 62 }
    requires v_small { unsigned_abs entry ≤ 2 ^ 62 }
    requires k_small { unsigned_abs factor ≤ 2 ^ 62 }
    requires x_small { unsigned_abs top ≤ 2 ^ 62 }
    requires most_small { most ≤ 2 ^ 62 }
    ensures value { IfSome result (λ z. z *ℤ pos by.den ≡ (entry *ℤ pos pivot) +ℤ neg_ℤ (factor *ℤ top)) }
    ensures small { IfSome result (λ z. unsigned_abs z ≤ most) }
{
    small_quotient(difference(entry, factor, top, pivot), by, most)
}

/// One more product, modulo 2^64.
#[inline]
fn wrapped(total: i64, left: i64, right: i64) -> i64
    ensures { result ≡ int_wrap w64 (total +ℤ (left *ℤ right)) }
{
    total.wrapping_add(left.wrapping_mul(right))
}

/// The row of the matrix times the numbers of a list, which fits 64 bits. The sums on the way may wrap.
#[inline]
fn short_row_times(matrix: &[i64], row: usize, vector: &[i64]) -> i64
    requires inside { row * length vector.now + length vector.now ≤ length matrix.now }
    requires result_small { unsigned_abs (whole_total (length vector.now) (λ j. whole_cell (length vector.now) matrix.now row j *ℤ whole_at vector.now j)) ≤ 2 ^ 62 }
    ensures { result ≡ whole_total (length vector.now) (λ j. whole_cell (length vector.now) matrix.now row j *ℤ whole_at vector.now j) }
{
    let from = row * vector.len();
    let mut total = 0;
    for place in 0..vector.len() {
        total = wrapped(total, matrix[from + place], vector[place]);
    }
    total
}

/// The row of the matrix times the four numbers of a list, which fits 64 bits. The sums on the way may wrap.
#[inline]
fn four_row_times(matrix: &[i64], row: usize, vector: &[i64]) -> i64
    requires four { length vector.now ≡ 4 }
    requires inside { row * length vector.now + length vector.now ≤ length matrix.now }
    requires result_small { unsigned_abs (whole_total (length vector.now) (λ j. whole_cell (length vector.now) matrix.now row j *ℤ whole_at vector.now j)) ≤ 2 ^ 62 }
    ensures { result ≡ whole_total (length vector.now) (λ j. whole_cell (length vector.now) matrix.now row j *ℤ whole_at vector.now j) }
{
    let from = row * 4;
    let one = wrapped(0, matrix[from], vector[0]);
    let two = wrapped(one, matrix[from + 1], vector[1]);
    let three = wrapped(two, matrix[from + 2], vector[2]);
    wrapped(three, matrix[from + 3], vector[3])
}

/// The row of the matrix times the numbers of a list, which need not fit 64 bits.
pub fn wide_row_times(matrix: &[i64], row: usize, vector: &[i64]) -> i128
    requires inside { row * length vector.now + length vector.now ≤ length matrix.now }
    requires room { HasRoom (length vector.now) (2 ^ 62) matrix.now }
    requires small { IsSmall (2 ^ 62) vector.now }
    ensures value { result ≡ whole_total (length vector.now) (λ j. whole_cell (length vector.now) matrix.now row j *ℤ whole_at vector.now j) }
    ensures small { unsigned_abs result ≤ 2 ^ 124 }
{
    let from = row * vector.len();
    let mut total = 0;
    for place in 0..vector.len() {
        total = sum(total, product(matrix[from + place], vector[place]));
    }
    total
}

/// How the products of a row with a list are summed up.
#[derive(Clone, Copy, Drop)]
pub enum Sums {
    /// In 128 bits.
    Wide,
    /// In 64 bits, which the sum fits.
    Short,
    /// In 64 bits, which the sum fits, for a list of four numbers. So few are summed up without a loop: the compiler
    /// makes one over vectors of it, which takes longer.
    Four,
}

/// The row of the matrix times the numbers of a list.
#[inline]
pub fn row_times(matrix: &[i64], row: usize, vector: &[i64], sums: Sums) -> i128
    requires inside { row * length vector.now + length vector.now ≤ length matrix.now }
    requires room { HasRoom (length vector.now) (2 ^ 62) matrix.now }
    requires small { IsSmall (2 ^ 62) vector.now }
    requires result_small { are_short sums ≡ true → unsigned_abs (whole_total (length vector.now) (λ j. whole_cell (length vector.now) matrix.now row j *ℤ whole_at vector.now j)) ≤ 2 ^ 62 }
    requires four { are_of_four sums ≡ true → length vector.now ≡ 4 }
    ensures value { result ≡ whole_total (length vector.now) (λ j. whole_cell (length vector.now) matrix.now row j *ℤ whole_at vector.now j) }
    ensures small { unsigned_abs result ≤ 2 ^ 124 }
{
    match sums {
        Sums::Wide => wide_row_times(matrix, row, vector),
        Sums::Short => widened(short_row_times(matrix, row, vector)),
        Sums::Four => widened(four_row_times(matrix, row, vector)),
    }
}

/// The row of the matrix times the column of the numbers, which fits 64 bits. The sums on the way may wrap.
#[inline]
pub fn row_times_column(
    matrix: &[i64],
    row: usize,
    numbers: &[i64],
    width: usize,
    column: usize,
) -> i64
    requires inside { row * width + width ≤ length matrix.now }
    requires square { length numbers.now ≡ width * width }
    requires column { column < width }
    requires result_small { unsigned_abs (whole_total width (λ j. whole_cell width matrix.now row j *ℤ whole_cell width numbers.now j column)) ≤ 2 ^ 62 }
    ensures { result ≡ whole_total width (λ j. whole_cell width matrix.now row j *ℤ whole_cell width numbers.now j column) }
{
    let from = row * width;
    let mut total = 0;
    for place in 0..width {
        total = wrapped(total, matrix[from + place], numbers[place * width + column]);
    }
    total
}

/// The same of four columns: so few products are summed up without a loop.
#[inline]
pub fn four_row_times_column(matrix: &[i64], row: usize, numbers: &[i64], column: usize) -> i64
    requires inside { row * 4 + 4 ≤ length matrix.now }
    requires square { length numbers.now ≡ 16 }
    requires column { column < 4 }
    requires result_small { unsigned_abs (whole_total 4 (λ j. whole_cell 4 matrix.now row j *ℤ whole_cell 4 numbers.now j column)) ≤ 2 ^ 62 }
    ensures { result ≡ whole_total 4 (λ j. whole_cell 4 matrix.now row j *ℤ whole_cell 4 numbers.now j column) }
{
    let from = row * 4;
    let one = wrapped(0, matrix[from], numbers[column]);
    let two = wrapped(one, matrix[from + 1], numbers[column + 4]);
    let three = wrapped(two, matrix[from + 2], numbers[column + 8]);
    wrapped(three, matrix[from + 3], numbers[column + 12])
}
