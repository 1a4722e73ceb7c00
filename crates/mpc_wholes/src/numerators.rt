//! Numerators over a denominator.

ghost use Rattle.std.specs.Prelude.{◌≡◌, ◌<◌, ◌≤◌, ◌^◌, IfSome, length, pos, unsigned_abs, ◌*ℤ◌};
ghost use Rattle.mpc_exact.specs.Rational.{frac};
ghost use Rattle.mpc_space.specs.Matrix.{height};
ghost use Rattle.mpc_space.specs.Vector.{column};
ghost use Rattle.mpc_wholes.specs.Wholes.{IsDenominator, IsOver, AreOver, AreRowsOver};

use crate::Wholes;
use crate::denominators::{common_in, denominator, times_into};
use mpc_frac::Frac;
use mpc_linear::Matrix;
use std::alloc::Global;

/// The greatest size of a numerator, 2^124.
const MOST: u128 = 0x1000_0000_0000_0000_0000_0000_0000_0000;

/// Two numbers up to this, 2^62, have a product of at most 2^124.
const HALF: u128 = 0x4000_0000_0000_0000;

/// The numerator, where it is at most 2^124 in size.
#[inline]
fn small_numerator(fraction: &Frac) -> Option<i128>
    ensures value { IfSome result (λ z. fraction.now ≡ frac z fraction.now.denom) }
    ensures small { IfSome result (λ z. unsigned_abs z ≤ 2 ^ 124) }
{
    let numerator = fraction.num();
    if numerator.unsigned_abs() > MOST {
        return None;
    }
    Some(numerator)
}

/// The product of numbers that fit 64 bits each.
#[inline]
pub fn short_product(left: i128, right: i128) -> i128
    requires x_short { unsigned_abs left < 2 ^ 63 }
    requires y_short { unsigned_abs right < 2 ^ 63 }
    ensures { result ≡ left *ℤ right }
{
    (left as i64) as i128 * (right as i64) as i128
}

/// So many times the numerator, where that is at most 2^124 in size.
#[inline]
fn scaled_numerator(fraction: &Frac, times: u128) -> Option<i128>
    requires { times ≤ 2 ^ 124 }
    ensures value { IfSome result (λ z. z ≡ fraction.now.numer *ℤ pos times) }
    ensures small { IfSome result (λ z. unsigned_abs z ≤ 2 ^ 124) }
{
    let numerator = fraction.num();
    if numerator.unsigned_abs() <= HALF && times <= HALF {
        return Some(short_product(numerator, times as i128));
    }
    let scaled = numerator.checked_mul(times as i128)?;
    if scaled.unsigned_abs() > MOST {
        return None;
    }
    Some(scaled)
}

/// The numerator of a fraction over this number, where it is a multiple of its denominator and the numerator at most 2^124 in size.
#[inline]
pub fn numerator_over(fraction: &Frac, all: u128) -> Option<i128>
    requires { IsDenominator all }
    ensures value { IfSome result (λ z. fraction.now ≡ frac z all) }
    ensures small { IfSome result (λ z. unsigned_abs z ≤ 2 ^ 124) }
{
    let below = denominator(fraction);
    if below == all {
        return small_numerator(fraction);
    }
    let times = times_into(all, below)?;
    let numerator = scaled_numerator(fraction, times)?;
    Some(numerator)
}

/// The fractions over this denominator, where that and the numerators are at most `limit` in size.
pub fn wholes_over(fractions: &[Frac], den: u128, limit: u128) -> Option<Wholes>
    requires few { length fractions.now ≤ 6 }
    requires denom { IsDenominator den }
    ensures { IfSome result (AreOver fractions.now den limit) }
{
    let mut numerators = [0; 6];
    let mut most = den;
    for k in 0..fractions.len() {
        let numerator = numerator_over(&fractions[k], den)?;
        numerators[k] = numerator;
        most = most.max(numerator.unsigned_abs());
    }
    if most > limit {
        return None;
    }
    Some(Wholes {
        numerators,
        den,
        most,
    })
}

/// The entries of a column over this denominator, where that and the numerators are at most `limit` in size.
pub fn column_over(matrix: &Matrix, at_column: u32, den: u128, limit: u128) -> Option<Wholes>
    requires few { height matrix.now ≤ 6 }
    requires column { at_column < matrix.now.columns }
    requires denom { IsDenominator den }
    ensures { IfSome result (AreOver (column matrix.now.rows at_column) den limit) }
{
    let mut numerators = [0; 6];
    let mut most = den;
    for k in 0..matrix.rows() {
        let numerator = numerator_over(&matrix.get(k, at_column), den)?;
        numerators[k as usize] = numerator;
        most = most.max(numerator.unsigned_abs());
    }
    if most > limit {
        return None;
    }
    Some(Wholes {
        numerators,
        den,
        most,
    })
}

/// The fractions over one denominator, a multiple of the start, where it and the numerators are small enough.
pub fn over_multiple(start: u128, fractions: &[Frac]) -> Option<Wholes>
    requires few { length fractions.now ≤ 6 }
    requires start { IsDenominator start }
    ensures { IfSome result (IsOver fractions.now) }
{
    let den = common_in(start, fractions)?;
    let numbers = wholes_over(fractions, den, MOST)?;
    Some(numbers)
}

/// The fractions over one denominator, where it and the numerators are small enough.
pub fn over_one_denominator(fractions: &[Frac]) -> Option<Wholes>
    requires { length fractions.now ≤ 6 }
    ensures { IfSome result (IsOver fractions.now) }
{
    over_multiple(1, fractions)
}

/// The rows over this denominator, where that and the numerators are at most `limit` in size. `None` also where there is no memory.
pub fn rows_over(alloc: Global, matrix: &Matrix, den: u128, limit: u128) -> Option<Vec<Wholes>>
    requires few { matrix.now.columns ≤ 6 }
    requires denom { IsDenominator den }
    ensures { IfSome result (λ rows. AreRowsOver matrix.now den limit rows.items) }
{
    let mut rows = Vec::new(alloc);
    for i in 0..matrix.rows() {
        let row = wholes_over(matrix.row(i), den, limit)?;
        if rows.push(row).is_err() {
            return None;
        }
    }
    Some(rows)
}
