//! The scales of rows, and whole numbers over them.

ghost use Rattle.std.specs.Prelude.{◌≡◌, ◌*◌, ◌<◌, ◌≤◌, ◌^◌, unsigned_abs, IfSome};
ghost use Rattle.mpc_exact.specs.Rational.{frac};
ghost use Rattle.mpc_scaled.specs.Scaled.{IsSmall};

use crate::numbers::{narrow, product, signed};
use mpc_frac::{Frac, greatest_common_divisor};
use mpc_rows::Row;

/// The greatest scale of a row.
const MOST_SCALE: u64 = 1 << 40;

/// The least common multiple of a scale and the denominator of a number, if it isn't above the greatest scale.
fn common_scale(scale: u64, number: &Frac) -> Option<u64>
    requires some { 0 < scale }
    requires small { scale ≤ 2 ^ 40 }
    ensures some { IfSome result (λ k. 0 < k) }
    ensures small { IfSome result (λ k. k ≤ 2 ^ 40) }
{
    if number.is_whole() {
        return Some(scale);
    }
    let den = number.den().unsigned_abs();
    if den > MOST_SCALE as u128 {
        return None;
    }
    let divisor = greatest_common_divisor(den, scale as u128);
    let product = den / divisor * scale as u128;
    if product == 0 {
        return None;
    }
    if product > MOST_SCALE as u128 {
        return None;
    }
    Some(product as u64)
}

/// The scale of a row: the least number that makes it whole, if it isn't above the greatest scale.
pub(crate) fn row_scale(row: &Row) -> Option<u64>
    ensures some { IfSome result (λ k. 0 < k) }
    ensures small { IfSome result (λ k. k ≤ 2 ^ 40) }
{
    let mut scale = common_scale(1, &row.b)?;
    for number in row.a.as_slice() {
        scale = common_scale(scale, number)?;
    }
    Some(scale)
}

/// How many times the denominator of a number goes into a scale, if it divides it.
fn factor(number: &Frac, scale: u64) -> Option<u64>
    requires small { scale ≤ 2 ^ 40 }
    ensures value { IfSome result (λ q. q * number.now.denom ≡ scale) }
    ensures small { IfSome result (λ q. q ≤ 2 ^ 40) }
{
    if number.is_whole() {
        return Some(scale);
    }
    let den = number.den().unsigned_abs();
    if den > scale as u128 {
        return None;
    }
    let by = den as u64;
    if by == 0 {
        return None;
    }
    let quotient = scale / by;
    if scale % by == 0 {
        Some(quotient)
    } else {
        None
    }
}

/// The number times a scale, if that is whole and small.
pub(crate) fn scaled(number: &Frac, scale: u64) -> Option<i64>
    requires some { 0 < scale }
    requires scale_small { scale ≤ 2 ^ 40 }
    ensures value { IfSome result (λ z. number.now ≡ frac z scale) }
    ensures small { IfSome result (λ z. unsigned_abs z ≤ 2 ^ 62) }
{
    let numerator = number.num();
    if numerator.unsigned_abs() > 1 << 62 {
        return None;
    }
    let times = factor(number, scale)?;
    let whole = product(narrow(numerator), signed(times));
    if whole.unsigned_abs() <= 1 << 62 {
        Some(narrow(whole))
    } else {
        None
    }
}

/// The greatest size of a number.
pub fn greatest(list: &[i64]) -> u64
    ensures { IsSmall result list.now }
{
    let mut most = 0;
    for place in 0..list.len() {
        let size = list[place].unsigned_abs();
        if most < size {
            most = size;
        }
    }
    most
}
