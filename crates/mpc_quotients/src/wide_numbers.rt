//! Sums, products and quotients of numbers of 128 bits, where they fit.

ghost use Rattle.std.specs.Prelude.{◌≡◌, ℕ, ℤ, pos, ◌+◌, ◌*◌, ◌<◌, ◌≤◌, ◌^◌, ◌+ℤ◌, ◌*ℤ◌, neg_ℤ, unsigned_abs, IfSome, IsTrue, length};
ghost use Rattle.mpc_runs.specs.WholeNumbers.{whole_total, HasRoom, turned};
ghost use Rattle.mpc_scaled.specs.Scaled.{whole_at, whole_cell, IsSmall};

use crate::divisors::Divisor;
use crate::whole_numbers::{small_quotient, sum, widened};
use mpc_scaled::{narrow, product};

/// A number that is not negative, as a signed one.
#[inline]
pub fn positive(number: u128) -> Option<i128>
    ensures { IfSome result (λ z. z ≡ pos number) }
{
    if number < 1 << 127 {
        Some(number.cast_signed())
    } else {
        None
    }
}

/// The product. Where both numbers have 64 bits it is one multiplication.
#[inline]
pub fn wide_product(left: i128, right: i128) -> Option<i128>
    ensures { IfSome result (λ z. z ≡ left *ℤ right) }
{
    if left.unsigned_abs() <= 1 << 62 && right.unsigned_abs() <= 1 << 62 {
        return Some(product(narrow(left), narrow(right)));
    }
    left.checked_mul(right)
}

/// The product of a coefficient and a number, which isn't tested where it is known to be short.
#[inline(always)]
pub fn product_with(left: i64, right: i128, short: bool) -> Option<i128>
    requires { IsTrue short → unsigned_abs right ≤ 2 ^ 62 }
    ensures { IfSome result (λ z. z ≡ left *ℤ right) }
{
    if short {
        return Some(product(left, narrow(right)));
    }
    wide_product(widened(left), right)
}

/// The product of two numbers, which aren't tested where they are known to be short.
#[inline(always)]
pub fn product_of(left: i128, right: i128, short: bool) -> Option<i128>
    requires left { IsTrue short → unsigned_abs left ≤ 2 ^ 62 }
    requires right { IsTrue short → unsigned_abs right ≤ 2 ^ 62 }
    ensures { IfSome result (λ z. z ≡ left *ℤ right) }
{
    if short {
        return Some(product(narrow(left), narrow(right)));
    }
    wide_product(left, right)
}

/// `entry pivot - factor top`, where the numbers aren't tested if they are known to be short.
#[inline(always)]
pub fn wide_difference(
    entry: i128,
    pivot: i128,
    factor: i128,
    top: i128,
    short: bool,
) -> Option<i128>
    requires v_short { IsTrue short → unsigned_abs entry ≤ 2 ^ 62 }
    requires q_short { IsTrue short → unsigned_abs pivot ≤ 2 ^ 62 }
    requires k_short { IsTrue short → unsigned_abs factor ≤ 2 ^ 62 }
    requires x_short { IsTrue short → unsigned_abs top ≤ 2 ^ 62 }
    ensures { IfSome result (λ z. z ≡ (entry *ℤ pivot) +ℤ neg_ℤ (factor *ℤ top)) }
{
    let first = product_of(entry, pivot, short)?;
    let second = product_of(factor, top, short)?;
    first.checked_sub(second)
}

/// Whether all numbers of a list are short: at most 2^62 in size.
pub fn are_short(list: &[i128]) -> bool
    ensures { IsTrue result → IsSmall (2 ^ 62) list.now }
{
    for place in 0..list.len() {
        if list[place].unsigned_abs() > 1 << 62 {
            return false;
        }
    }
    true
}

/// The number, with its sign changed where the pivot is negative.
#[inline]
pub fn wide_turned(pivot: i128, number: i128) -> Option<i128>
    ensures value { IfSome result (λ y. y ≡ turned pivot number) }
    ensures size { IfSome result (λ y. unsigned_abs y ≤ unsigned_abs number) }
{
    if pivot < 0 {
        0_i128.checked_sub(number)
    } else {
        Some(number)
    }
}

/// The row of the matrix times the numbers of a list, which are short: then the sum has room.
#[inline(always)]
fn short_row_value(matrix: &[i64], row: usize, vector: &[i128]) -> i128
    requires inside { row * length vector.now + length vector.now ≤ length matrix.now }
    requires room { HasRoom (length vector.now) (2 ^ 62) matrix.now }
    requires small { IsSmall (2 ^ 62) vector.now }
    ensures { result ≡ whole_total (length vector.now) (λ j. whole_cell (length vector.now) matrix.now row j *ℤ whole_at vector.now j) }
{
    let from = row * vector.len();
    let mut total = 0;
    for place in 0..vector.len() {
        let term = product(matrix[from + place], narrow(vector[place]));
        total = sum(total, term);
    }
    total
}

/// The row of the matrix times the numbers of a list, where neither they nor the sum are tested if they are known to be short.
#[inline(always)]
pub fn wide_row_value(matrix: &[i64], row: usize, vector: &[i128], short: bool) -> Option<i128>
    requires inside { row * length vector.now + length vector.now ≤ length matrix.now }
    requires room { IsTrue short → HasRoom (length vector.now) (2 ^ 62) matrix.now }
    requires short { IsTrue short → IsSmall (2 ^ 62) vector.now }
    ensures { IfSome result (λ z. z ≡ whole_total (length vector.now) (λ j. whole_cell (length vector.now) matrix.now row j *ℤ whole_at vector.now j)) }
{
    if short {
        return Some(short_row_value(matrix, row, vector));
    }
    let from = row * vector.len();
    let mut total: i128 = 0;
    for place in 0..vector.len() {
        let term = product_with(matrix[from + place], vector[place], false)?;
        total = total.checked_add(term)?;
    }
    Some(total)
}

/// The row of the matrix times the column of the numbers.
pub fn wide_side_cell(
    matrix: &[i64],
    row: usize,
    numbers: &[i128],
    width: usize,
    column: usize,
) -> Option<i128>
    requires inside { row * width + width ≤ length matrix.now }
    requires square { length numbers.now ≡ width * width }
    requires column { column < width }
    ensures { IfSome result (λ z. z ≡ whole_total width (λ j. whole_cell width matrix.now row j *ℤ whole_cell width numbers.now j column)) }
{
    column_value(matrix, row, numbers, width, column, false)
}

/// The row of the matrix times the column of the numbers, whose numbers are short: then the sum has room.
#[inline(always)]
fn short_column_value(
    matrix: &[i64],
    row: usize,
    numbers: &[i128],
    width: usize,
    column: usize,
) -> i128
    requires inside { row * width + width ≤ length matrix.now }
    requires square { length numbers.now ≡ width * width }
    requires column { column < width }
    requires room { HasRoom width (2 ^ 62) matrix.now }
    requires small { (j : ℕ) → unsigned_abs (whole_cell width numbers.now j column) ≤ 2 ^ 62 }
    ensures { result ≡ whole_total width (λ j. whole_cell width matrix.now row j *ℤ whole_cell width numbers.now j column) }
{
    let from = row * width;
    let mut total = 0;
    for place in 0..width {
        let term = product(
            matrix[from + place],
            narrow(numbers[place * width + column]),
        );
        total = sum(total, term);
    }
    total
}

/// The row of the matrix times the column of the numbers, where neither the column's numbers nor the sum are tested if they are known
/// to be short.
#[inline(always)]
pub fn column_value(
    matrix: &[i64],
    row: usize,
    numbers: &[i128],
    width: usize,
    column: usize,
    short: bool,
) -> Option<i128>
    requires inside { row * width + width ≤ length matrix.now }
    requires square { length numbers.now ≡ width * width }
    requires column { column < width }
    requires room { IsTrue short → HasRoom width (2 ^ 62) matrix.now }
    requires short { IsTrue short → (j : ℕ) → unsigned_abs (whole_cell width numbers.now j column) ≤ 2 ^ 62 }
    ensures { IfSome result (λ z. z ≡ whole_total width (λ j. whole_cell width matrix.now row j *ℤ whole_cell width numbers.now j column)) }
{
    if short {
        return Some(short_column_value(matrix, row, numbers, width, column));
    }
    let from = row * width;
    let mut total: i128 = 0;
    for place in 0..width {
        let term = product_with(matrix[from + place], numbers[place * width + column], false)?;
        total = total.checked_add(term)?;
    }
    Some(total)
}

/// A divisor of numbers of 128 bits, with what makes a division by it one multiplication where it has 62 bits.
#[derive(Clone, Copy, Drop)]
pub struct WideDivisor {
    /// The number itself.
    pub den: u128,
    short: Divisor,
}

impl WideDivisor {
    /// A number to divide by. By 0 nothing is divided.
    pub fn of(den: u128) -> Self
        ensures { result.den ≡ den }
    {
        let short = if den <= 1 << 62 { den as u64 } else { 0 };
        WideDivisor {
            den,
            short: Divisor::of(short),
        }
    }
}

/// The quotient, if it is whole.
#[inline]
pub fn wide_quotient(number: i128, by: WideDivisor) -> Option<i128>
    ensures { IfSome result (λ q. q *ℤ pos by.den ≡ number) }
{
    if let Some(quotient) = short_quotient(number, by) {
        return Some(widened(quotient));
    }
    long_quotient(number, by.den)
}

/// The quotient, if it is whole and it and the divisor have 62 bits.
#[inline]
fn short_quotient(number: i128, by: WideDivisor) -> Option<i64>
    ensures { IfSome result (λ q. q *ℤ pos by.den ≡ number) }
{
    if by.short.den as u128 != by.den || by.den > 1 << 62 {
        return None;
    }
    small_quotient(number, by.short, 1 << 62)
}

/// Whether a divisor goes into a number, as far as the sizes of both show it without a long division.
#[inline]
pub fn goes_into(by: WideDivisor, number: i128) -> bool {
    short_quotient(number, by).is_some()
}

/// The quotient, if it is whole, by a long division.
#[inline(never)]
fn long_quotient(number: i128, den: u128) -> Option<i128>
    ensures { IfSome result (λ q. q *ℤ pos den ≡ number) }
{
    let divisor = positive(den)?;
    let quotient = number.checked_div(divisor)?;
    let back = quotient.checked_mul(divisor)?;
    if back == number { Some(quotient) } else { None }
}

/// Divides each number of a list, if all quotients are whole. It gives the greatest size of one.
pub fn divide_all(list: &mut [i128], by: WideDivisor) -> Option<u128>
    ensures each { IfSome result (λ _. (k : ℕ) → whole_at list.new k *ℤ pos by.den ≡ whole_at list.old k) }
    ensures own { IfSome result (λ own. (k : ℕ) → unsigned_abs (whole_at list.new k) ≤ own) }
{
    let mut own: u128 = 0;
    for place in 0..list.len() {
        let quotient = wide_quotient(list[place], by)?;
        list[place] = quotient;
        own = own.max(quotient.unsigned_abs());
    }
    Some(own)
}
