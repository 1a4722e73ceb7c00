//! Products and quotients of numbers of at most 2^30 in size, whose products fit 64 bits.

ghost use Rattle.std.specs.Prelude.{◌≡◌, ◌≤◌, ◌^◌, pos, ◌+ℤ◌, ◌*ℤ◌, neg_ℤ, IfSome, unsigned_abs};

use crate::divisors::Divisor;
use mpc_scaled::signed;

/// The greatest such number.
const MOST: i64 = 1 << 30;

/// The product of two such numbers.
#[inline]
fn short_product(left: i64, right: i64) -> i64
    requires x_small { unsigned_abs left ≤ 2 ^ 30 }
    requires y_small { unsigned_abs right ≤ 2 ^ 30 }
    ensures value { result ≡ left *ℤ right }
    ensures small { unsigned_abs result ≤ 2 ^ 60 }
{
    left * right
}

/// `entry pivot - factor top`.
#[inline]
fn short_difference(entry: i64, factor: i64, top: i64, pivot: u64) -> i64
    requires v_small { unsigned_abs entry ≤ 2 ^ 30 }
    requires k_small { unsigned_abs factor ≤ 2 ^ 30 }
    requires x_small { unsigned_abs top ≤ 2 ^ 30 }
    requires q_small { pivot ≤ 2 ^ 30 }
    ensures { result ≡ (entry *ℤ pos pivot) +ℤ neg_ℤ (factor *ℤ top) }
{
    short_product(entry, signed(pivot)) - short_product(factor, top)
}

/// `(entry pivot - factor top) / den`, if it is whole and such a number.
#[inline]
pub fn short_changed(entry: i64, factor: i64, top: i64, pivot: u64, by: Divisor) -> Option<i64>
    requires v_small { unsigned_abs entry ≤ 2 ^ 30 }
    requires k_small { unsigned_abs factor ≤ 2 ^ 30 }
    requires x_small { unsigned_abs top ≤ 2 ^ 30 }
    requires q_small { pivot ≤ 2 ^ 30 }
    requires by_small { by.den ≤ 2 ^ 30 }
    ensures value { IfSome result (λ z. z *ℤ pos by.den ≡ (entry *ℤ pos pivot) +ℤ neg_ℤ (factor *ℤ top)) }
    ensures small { IfSome result (λ z. unsigned_abs z ≤ 2 ^ 30) }
{
    let number = short_difference(entry, factor, top, pivot);
    let quotient = by.short_guess(number);
    if quotient < -MOST || MOST < quotient {
        return None;
    }
    let back = short_product(quotient, signed(by.den));
    if back == number { Some(quotient) } else { None }
}
