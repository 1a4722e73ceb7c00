//! A pivot in whole numbers out of which a common divisor is taken.

ghost use Rattle.std.specs.Prelude.{◌≡◌, ℕ, ℤ, List, pos, ◌+◌, ◌*◌, ◌<◌, ◌≤◌, ◌⊎◌, ◌+ℤ◌, ◌*ℤ◌, ◌^◌, neg_ℤ, unsigned_abs, IfSome, IsTrue, length};
ghost use Rattle.mpc_whole.specs.Whole.{IsChanged};
ghost use Rattle.mpc_scaled.specs.Scaled.{whole_at, whole_cell, IsSmall};
ghost use Rattle.mpc_whole.specs.Judged.{IsTimes, IsReducedPivot};

use mpc_frac::greatest_common_divisor;
use mpc_quotients::{
    Divisor, WideDivisor, are_short, divide_all, goes_into, positive, product_of, small_quotient,
    wide_difference, wide_quotient, wide_turned, widened,
};

/// The largest number of 64 bits.
const LONGEST: u128 = u64::MAX as u128;

/// How the numbers of a row change: its number of the column that enters, the size of the pivot and the denominator
/// before it, and whether they and those of the row are known to be short.
#[derive(Clone, Copy, Drop)]
struct Change {
    factor: i128,
    size: i128,
    den: i128,
    short: bool,
}

/// The new number of a column in a row, over the denominator before the pivot times the size of the pivot.
#[inline(always)]
fn numerator(
    old: i128,
    number: i128,
    pivot_column: usize,
    column: usize,
    by: Change,
) -> Option<i128>
    requires old_short { IsTrue by.short → unsigned_abs old ≤ 2 ^ 62 }
    requires x_short { IsTrue by.short → unsigned_abs number ≤ 2 ^ 62 }
    requires factor_short { IsTrue by.short → unsigned_abs by.factor ≤ 2 ^ 62 }
    requires size_short { IsTrue by.short → unsigned_abs by.size ≤ 2 ^ 62 }
    requires den_short { IsTrue by.short → unsigned_abs by.den ≤ 2 ^ 62 }
    ensures entering { IfSome result (λ z. column ≡ pivot_column → z ≡ by.factor *ℤ by.den) }
    ensures other { IfSome result (λ z. (column ≡ pivot_column → ⊥) → z ≡ (old *ℤ by.size) +ℤ neg_ℤ (by.factor *ℤ number)) }
{
    if column == pivot_column {
        return product_of(by.factor, by.den, by.short);
    }
    wide_difference(old, by.size, by.factor, number, by.short)
}

/// Changes the row of an unknown, where a row leaves and the pivot column enters, to numbers over the denominator times
/// the size of the pivot. The numbers aren't tested where they are known to be short.
#[inline(always)]
fn raise_row(
    numbers: &mut [i128],
    row: &[i128],
    unknown: usize,
    pivot_column: usize,
    den: u128,
    short: bool,
) -> Option<()>
    requires square { length numbers.old ≡ length row.now * length row.now }
    requires row { unknown < length row.now }
    requires column { pivot_column < length row.now }
    requires numbers_short { IsTrue short → (column : ℕ) → column < length row.now → unsigned_abs (whole_cell (length row.now) numbers.old unknown column) ≤ 2 ^ 62 }
    requires row_short { IsTrue short → IsSmall (2 ^ 62) row.now }
    requires den_short { IsTrue short → den ≤ 2 ^ 62 }
    ensures cells { IfSome result (λ _. (column : ℕ) → column < length row.now → IsChanged (length row.now) 1 den numbers.old row.now unknown pivot_column column (whole_cell (length row.now) numbers.new unknown column)) }
    ensures others { IfSome result (λ _. (k : ℕ) → (k < unknown * length row.now) ⊎ (unknown * length row.now + length row.now ≤ k) → whole_at numbers.new k ≡ whole_at numbers.old k) }
{
    let pivot = row[pivot_column];
    let from = unknown * row.len();
    let factor = wide_turned(pivot, numbers[from + pivot_column])?;
    let size = positive(pivot.unsigned_abs())?;
    let before = positive(den)?;
    let by = Change {
        factor,
        size,
        den: before,
        short,
    };
    for column in 0..row.len() {
        let new = numerator(
            numbers[from + column],
            row[column],
            pivot_column,
            column,
            by,
        )?;
        numbers[from + column] = new;
    }
    Some(())
}

/// Changes all rows so.
#[inline(always)]
fn raise_rows(
    numbers: &mut [i128],
    row: &[i128],
    pivot_column: usize,
    den: u128,
    short: bool,
) -> Option<()>
    requires square { length numbers.old ≡ length row.now * length row.now }
    requires column { pivot_column < length row.now }
    requires numbers_short { IsTrue short → IsSmall (2 ^ 62) numbers.old }
    requires row_short { IsTrue short → IsSmall (2 ^ 62) row.now }
    requires den_short { IsTrue short → den ≤ 2 ^ 62 }
    ensures { IfSome result (λ _. (unknown column : ℕ) → unknown < length row.now → column < length row.now → IsChanged (length row.now) 1 den numbers.old row.now unknown pivot_column column (whole_cell (length row.now) numbers.new unknown column)) }
{
    for unknown in 0..row.len() {
        raise_row(numbers, row, unknown, pivot_column, den, short)?;
    }
    Some(())
}

/// Changes all rows so, where no number is above own before. The loop over the rows stands there once for short
/// numbers and once for others, so that they aren't tested again at each entry.
fn raise(
    numbers: &mut [i128],
    row: &[i128],
    pivot_column: usize,
    den: u128,
    own: u128,
) -> Option<()>
    requires square { length numbers.old ≡ length row.now * length row.now }
    requires column { pivot_column < length row.now }
    requires own { IsSmall own numbers.old }
    ensures { IfSome result (λ _. (unknown column : ℕ) → unknown < length row.now → column < length row.now → IsChanged (length row.now) 1 den numbers.old row.now unknown pivot_column column (whole_cell (length row.now) numbers.new unknown column)) }
{
    if own <= 1 << 62 && den <= 1 << 62 && are_short(row) {
        return raise_rows(numbers, row, pivot_column, den, true);
    }
    raise_rows(numbers, row, pivot_column, den, false)
}

/// What divides both a number and a divisor.
fn shared_with(number: i128, by: u128) -> u128
    requires { 0 < by }
    ensures { 0 < result }
{
    let size = number.unsigned_abs();
    if size > LONGEST || by > LONGEST {
        return greatest_common_divisor(size, by);
    }
    // A remainder is one step, and most of the greater number's bits are gone.
    let rest = size as u64 % by as u64;
    greatest_common_divisor(rest as u128, by)
}

/// What divides a number and all of a list.
pub(crate) fn shared_with_all(list: &[i128], before: u128) -> u128
    requires { 0 < before }
    ensures { 0 < result }
{
    let mut by = WideDivisor::of(before);
    for index in 0..list.len() {
        if by.den == 1 {
            return 1;
        }
        if !goes_into(by, list[index]) {
            by = WideDivisor::of(shared_with(list[index], by.den));
        }
    }
    by.den
}

/// The most that the numbers after a pivot can share with the denominator that they are over. This is a multiple of the
/// rest of the one before, and so is the first number in the column that enters: by what it was before the pivot.
fn most_shared(first: i128, over: u128, rest: u128) -> Option<u128>
    ensures { IfSome result (λ most. 0 < most) }
{
    let times = over.checked_div(rest)?;
    if times == 0 {
        return None;
    }
    let most = rest.checked_mul(shared_with(first, times))?;
    if most == 0 { None } else { Some(most) }
}

/// The quotient, if it is whole.
pub(crate) fn whole_share(number: u128, divisor: u128) -> Option<u128>
    requires { 0 < divisor }
    ensures { IfSome result (λ quotient. quotient * divisor ≡ number) }
{
    let quotient = number / divisor;
    let back = quotient.checked_mul(divisor)?;
    if back == number { Some(quotient) } else { None }
}

/// Divides the numbers of a list one after another, as far as the quotients are whole and short: how many are, and the
/// greatest size of one.
fn divide_first(list: &mut [i128], by: Divisor) -> (usize, u64)
    requires { by.den ≤ 2 ^ 62 }
    ensures done { (k : ℕ) → k < result.0 → whole_at list.new k *ℤ pos by.den ≡ whole_at list.old k }
    ensures kept { (k : ℕ) → result.0 ≤ k → whole_at list.new k ≡ whole_at list.old k }
    ensures own { (k : ℕ) → k < result.0 → unsigned_abs (whole_at list.new k) ≤ result.1 }
{
    let mut own: u64 = 0;
    for index in 0..list.len() {
        let Some(quotient) = small_quotient(list[index], by, 1 << 62) else {
            return (index, own);
        };
        list[index] = widened(quotient);
        own = own.max(quotient.unsigned_abs());
    }
    (list.len(), own)
}

/// Divides the numbers of a list from a place on, if all quotients are whole: the greatest size of one, or that of
/// those before.
fn divide_others(list: &mut [i128], by: WideDivisor, from: usize, before: u64) -> Option<u128>
    ensures done { IfSome result (λ _. (k : ℕ) → from ≤ k → whole_at list.new k *ℤ pos by.den ≡ whole_at list.old k) }
    ensures kept { IfSome result (λ _. (k : ℕ) → k < from → whole_at list.new k ≡ whole_at list.old k) }
    ensures own { IfSome result (λ own. (k : ℕ) → from ≤ k → unsigned_abs (whole_at list.new k) ≤ own) }
    ensures before { IfSome result (λ own. before ≤ own) }
{
    let mut own = before as u128;
    for index in from..list.len() {
        let quotient = wide_quotient(list[index], by)?;
        list[index] = quotient;
        own = own.max(quotient.unsigned_abs());
    }
    Some(own)
}

/// Divides each number of a list, if all quotients are whole. It gives the greatest size of one.
pub(crate) fn divide_numbers(list: &mut [i128], den: u128) -> Option<u128>
    ensures each { IfSome result (λ _. (k : ℕ) → whole_at list.new k *ℤ pos den ≡ whole_at list.old k) }
    ensures own { IfSome result (λ own. (k : ℕ) → unsigned_abs (whole_at list.new k) ≤ own) }
{
    if den > 1 << 62 {
        return divide_all(list, WideDivisor::of(den));
    }
    let (from, own) = divide_first(list, Divisor::of(den as u64));
    if from == list.len() {
        return Some(own as u128);
    }
    divide_others(list, WideDivisor::of(den), from, own)
}

/// What a reduced pivot leaves: the denominator, and the greatest size of a number.
#[derive(Clone, Copy, Drop)]
pub(crate) struct Reduced {
    pub den: u128,
    pub own: u128,
}

/// The pivot where a row leaves and the pivot column enters, in lowest terms. The row is given over a divisor of the
/// denominator, of which the rest is left. No number is above own before.
pub(crate) fn reduce(
    numbers: &mut [i128],
    divided_row: &[i128],
    pivot_column: usize,
    den: u128,
    rest: u128,
    own: u128,
) -> Option<Reduced>
    requires square { length numbers.old ≡ length divided_row.now * length divided_row.now }
    requires column { pivot_column < length divided_row.now }
    requires own { IsSmall own numbers.old }
    ensures pivot { IfSome result (λ r. (row : List ℤ) (divisor : ℕ) → 0 < divisor → divisor * rest ≡ den → IsTimes divisor divided_row.now row → IsReducedPivot (length divided_row.now) den numbers.old numbers.new row pivot_column r.den) }
    ensures own { IfSome result (λ r. IsSmall r.own numbers.new) }
{
    let over = divided_row[pivot_column].unsigned_abs().checked_mul(den)?;
    if over == 0 {
        return None;
    }
    let most = most_shared(numbers[pivot_column], over, rest)?;
    raise(numbers, divided_row, pivot_column, rest, own)?;
    let divisor = shared_with_all(numbers, most);
    let size = whole_share(over, divisor)?;
    let own = divide_numbers(numbers, divisor)?;
    Some(Reduced { den: size, own })
}
