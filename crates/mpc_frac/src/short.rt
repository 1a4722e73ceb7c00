//! Fractions whose parts fit 64 bits: their sums and products fit 128 bits, so nothing is tested.

ghost use Rattle.std.specs.Prelude.{◌≡◌, ◌^◌, ◌*◌, ◌/◌, ◌%◌, ◌<◌, ◌≤◌, pos, unsigned_abs, ◌+ℤ◌, ◌*ℤ◌};
ghost use Rattle.std.specs.Int.{◌∣◌};
ghost use Rattle.mpc_exact.specs.Gcd.{gcd};
ghost use Rattle.mpc_exact.specs.Rational.{frac, ◌+ℚ◌, ◌*ℚ◌, cmp_ℚ};
ghost use Rattle.mpc_frac.specs.Fits.{FitsFrac, FitsSum};

use crate::divisor::short_divisor;
use crate::{Frac, with_sign_of};
use std::cmp::Ordering;

/// The parts of a fraction in lowest terms.
#[derive(Clone, Copy)]
pub(crate) struct Short {
    pub(crate) num: i64,
    pub(crate) den: u64,
    ghost den_small: { den < 2 ^ 63 },
    ghost den_positive: { 0 < den },
    ghost coprime: { gcd (unsigned_abs num) den ≡ 1 },
}

/// The product of two numbers of 64 bits.
#[inline]
fn wide_product(left: u64, right: u64) -> u128
    ensures { result ≡ left * right }
{
    left as u128 * right as u128
}

/// The product of two whole numbers.
#[inline]
fn whole_product(left: i64, right: i64) -> Frac
    ensures value { result ≡ frac left 1 *ℚ frac right 1 }
    ensures fits { FitsFrac (frac left 1 *ℚ frac right 1) }
{
    Frac::lowest(left as i128 * right as i128, 1)
}

/// The product of a signed number and a denominator.
#[inline]
fn times(number: i64, den: u64) -> i128
    requires { den < 2 ^ 63 }
    ensures value { result ≡ number *ℤ pos den }
    ensures small { unsigned_abs result < 2 ^ 126 }
{
    number as i128 * den as i128
}

/// `left_num right_den + right_num left_den`.
#[inline]
fn cross_sum(left_num: i64, right_den: u64, right_num: i64, left_den: u64) -> i128
    requires q_small { right_den < 2 ^ 63 }
    requires p_small { left_den < 2 ^ 63 }
    ensures value { result ≡ left_num *ℤ pos right_den +ℤ right_num *ℤ pos left_den }
    ensures small { unsigned_abs result < 2 ^ 127 }
{
    times(left_num, right_den) + times(right_num, left_den)
}

/// The rest of a wide number by a short one.
#[inline]
fn rest(wide: u128, short: u64) -> u64
    requires { 0 < short }
    ensures { result ≡ wide % short }
{
    if wide <= u64::MAX as u128 {
        wide as u64 % short
    } else {
        (wide % short as u128) as u64
    }
}

/// A wide number divided by a short one.
#[inline]
fn over(wide: u128, short: u64) -> u128
    requires { 0 < short }
    ensures { result ≡ wide / short }
{
    if wide <= u64::MAX as u128 {
        (wide as u64 / short) as u128
    } else {
        wide / short as u128
    }
}

/// A number divided by a divisor that is often 1.
#[inline]
fn part(number: u64, divisor: u64) -> u64
    requires { 0 < divisor }
    ensures { result ≡ number / divisor }
{
    if divisor == 1 {
        number
    } else {
        number / divisor
    }
}

/// The fraction num/(den right), where only factors of the divisor can cancel.
fn cancelled(num: i128, den: u64, right: u64, divisor: u64) -> Frac
    requires num_fits { unsigned_abs num < 2 ^ 127 }
    requires den_small { den < 2 ^ 63 }
    requires den_positive { 0 < den }
    requires right_small { right < 2 ^ 63 }
    requires right_positive { 0 < right }
    requires divides { divisor ∣ den }
    requires shared { gcd (unsigned_abs num) (den * right) ≡ gcd (unsigned_abs num) divisor }
    ensures { result ≡ frac num (den * right) }
{
    let shared = short_divisor(rest(num.unsigned_abs(), divisor), divisor);
    if shared == 1 {
        return Frac::lowest(num, wide_product(den, right));
    }
    let size = over(num.unsigned_abs(), shared);
    Frac::lowest(
        with_sign_of(num, 1, size),
        wide_product(den / shared, right),
    )
}

impl Short {
    /// The sum. Only what the denominators share can cancel (Knuth, The Art of Computer
    /// Programming, volume 2, section 4.5.1).
    #[inline(never)]
    pub(crate) fn sum(self, other: Short) -> Frac
        ensures value { result ≡ frac self.num self.den +ℚ frac other.num other.den }
        ensures fits { FitsSum (frac self.num self.den) (frac other.num other.den) }
    {
        if self.den == other.den {
            return self.like_sum(other);
        }
        let divisor = short_divisor(self.den, other.den);
        if divisor == 1 {
            let num = cross_sum(self.num, other.den, other.num, self.den);
            return Frac::lowest(num, wide_product(self.den, other.den));
        }
        let right = other.den / divisor;
        let num = cross_sum(self.num, right, other.num, self.den / divisor);
        cancelled(num, self.den, right, divisor)
    }

    /// The sum over the denominator of both.
    #[inline]
    fn like_sum(self, other: Short) -> Frac
        requires { self.den ≡ other.den }
        ensures value { result ≡ frac self.num self.den +ℚ frac other.num other.den }
        ensures fits { FitsSum (frac self.num self.den) (frac other.num other.den) }
    {
        let num = self.num as i128 + other.num as i128;
        cancelled(num, self.den, 1, self.den)
    }

    /// The product.
    #[inline]
    pub(crate) fn product(self, other: Short) -> Frac
        ensures value { result ≡ frac self.num self.den *ℚ frac other.num other.den }
        ensures fits { FitsFrac (frac self.num self.den *ℚ frac other.num other.den) }
    {
        if self.den == 1 && other.den == 1 {
            return whole_product(self.num, other.num);
        }
        self.ratio_product(other)
    }

    /// The product of fractions. What can cancel does so crosswise.
    #[inline(never)]
    fn ratio_product(self, other: Short) -> Frac
        ensures value { result ≡ frac self.num self.den *ℚ frac other.num other.den }
        ensures fits { FitsFrac (frac self.num self.den *ℚ frac other.num other.den) }
    {
        let left = short_divisor(self.num.unsigned_abs(), other.den);
        let right = short_divisor(other.num.unsigned_abs(), self.den);
        let size = wide_product(
            part(self.num.unsigned_abs(), left),
            part(other.num.unsigned_abs(), right),
        );
        let den = wide_product(part(self.den, right), part(other.den, left));
        Frac::lowest(with_sign_of(self.num as i128, other.num as i128, size), den)
    }

    /// The order, by the cross products.
    #[inline]
    pub(crate) fn order(self, other: Short) -> Ordering
        ensures { result ≡ cmp_ℚ (frac self.num self.den) (frac other.num other.den) }
    {
        times(self.num, other.den).cmp(&times(other.num, self.den))
    }
}
