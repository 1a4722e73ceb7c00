//! Greatest common divisors by binary steps, which need no division of 128 bits by 128 bits.

ghost use Rattle.std.specs.Prelude.{◌≡◌, ◌%◌, ◌<◌};
ghost use Rattle.mpc_exact.specs.Gcd.{gcd};

/// The largest number of 64 bits.
pub(crate) const SHORT: u128 = u64::MAX as u128;

/// The greatest common divisor of two odd numbers, by the binary algorithm (Stein, 1967).
#[inline]
fn of_odd(mut left: u64, mut right: u64) -> u64
    requires x_odd { left % 2 ≡ 1 }
    requires y_odd { right % 2 ≡ 1 }
    ensures { result ≡ gcd left right }
{
    'steps: loop {
        let difference = left.abs_diff(right);
        if difference == 0 {
            return left;
        }
        right = left.min(right);
        left = difference >> difference.trailing_zeros();
    }
}

/// The same for wide numbers, in 64 bits as soon as both fit.
fn of_odd_wide(mut left: u128, mut right: u128) -> u128
    requires x_odd { left % 2 ≡ 1 }
    requires y_odd { right % 2 ≡ 1 }
    ensures { result ≡ gcd left right }
{
    'steps: while left > SHORT || right > SHORT {
        let difference = left.abs_diff(right);
        if difference == 0 {
            return left;
        }
        right = left.min(right);
        left = difference >> difference.trailing_zeros();
    }
    of_odd(left as u64, right as u64) as u128
}

/// The greatest common divisor of numbers of 64 bits.
#[inline]
pub(crate) fn short_divisor(left: u64, right: u64) -> u64
    ensures value { result ≡ gcd left right }
    ensures positive { 0 < right → 0 < result }
{
    if left == 0 {
        return right;
    }
    if right == 0 {
        return left;
    }
    if left == 1 || right == 1 {
        return 1;
    }
    let left_zeros = left.trailing_zeros();
    let right_zeros = right.trailing_zeros();
    of_odd(left >> left_zeros, right >> right_zeros) << left_zeros.min(right_zeros)
}

/// The greatest common divisor of numbers that are both too wide for 64 bits.
fn wide_divisor(left: u128, right: u128) -> u128
    requires a_some { 0 < left }
    requires b_some { 0 < right }
    ensures { result ≡ gcd left right }
{
    let left_zeros = left.trailing_zeros();
    let right_zeros = right.trailing_zeros();
    of_odd_wide(left >> left_zeros, right >> right_zeros) << left_zeros.min(right_zeros)
}

/// The greatest common divisor, which is the other number where one is 0.
pub fn greatest_common_divisor(left: u128, right: u128) -> u128
    ensures value { result ≡ gcd left right }
    ensures positive { 0 < right → 0 < result }
{
    if left <= SHORT && right <= SHORT {
        return short_divisor(left as u64, right as u64) as u128;
    }
    if right <= SHORT {
        return reduced_divisor(left, right as u64);
    }
    if left <= SHORT {
        return reduced_divisor(right, left as u64);
    }
    wide_divisor(left, right)
}

/// The greatest common divisor of a wide number and a short one, by one remainder.
fn reduced_divisor(wide: u128, short: u64) -> u128
    ensures { result ≡ gcd wide short }
{
    if short == 0 {
        return wide;
    }
    if short == 1 {
        return 1;
    }
    short_divisor(short, (wide % short as u128) as u64) as u128
}
