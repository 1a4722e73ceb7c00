//! Common denominators.

ghost use Rattle.std.specs.Prelude.{◌≡◌, ◌/◌, ◌%◌, ◌<◌, ◌≤◌, IfSome};
ghost use Rattle.std.specs.Int.{◌∣◌};
ghost use Rattle.mpc_wholes.specs.Wholes.{IsDenominator};

use mpc_frac::{Frac, greatest_common_divisor};
use mpc_linear::Matrix;

/// The greatest denominator, 2^124.
const MOST: u128 = 0x1000_0000_0000_0000_0000_0000_0000_0000;

/// The largest number of 64 bits, whose division takes one instruction.
const WORD: u128 = u64::MAX as u128;

/// The rest of the number by the divisor.
#[inline]
pub fn rest(number: u128, divisor: u128) -> u128
    requires { 0 < divisor }
    ensures { result ≡ number % divisor }
{
    if number <= WORD && divisor <= WORD {
        return (number as u64 % divisor as u64) as u128;
    }
    number % divisor
}

/// How often the divisor goes into the number.
#[inline]
pub fn part(number: u128, divisor: u128) -> u128
    requires { 0 < divisor }
    ensures { result ≡ number / divisor }
{
    if number <= WORD && divisor <= WORD {
        return (number as u64 / divisor as u64) as u128;
    }
    number / divisor
}

/// How often the divisor goes into the number, where it does.
#[inline]
pub fn times_into(number: u128, divisor: u128) -> Option<u128>
    requires { 0 < divisor }
    ensures divides { IfSome result (λ _. divisor ∣ number) }
    ensures value { IfSome result (λ t. t ≡ number / divisor) }
    ensures small { IfSome result (λ t. t ≤ number) }
{
    if rest(number, divisor) != 0 {
        return None;
    }
    Some(part(number, divisor))
}

/// The denominator.
#[inline]
pub fn denominator(fraction: &Frac) -> u128
    ensures value { result ≡ fraction.now.denom }
    ensures positive { 0 < result }
{
    fraction.den() as u128
}

/// A common multiple, where it is at most 2^124: the first number where it is one.
#[inline]
pub fn common_multiple(left: u128, right: u128) -> Option<u128>
    requires a { IsDenominator left }
    requires b_positive { 0 < right }
    ensures of_a { IfSome result (λ m. left ∣ m) }
    ensures of_b { IfSome result (λ m. right ∣ m) }
    ensures small { IfSome result IsDenominator }
{
    if left == right || rest(left, right) == 0 {
        return Some(left);
    }
    let multiple = part(left, greatest_common_divisor(left, right)).checked_mul(right)?;
    if multiple > MOST {
        return None;
    }
    Some(multiple)
}

/// A common multiple of a number and of denominators, where it is at most 2^124.
pub fn common_in(start: u128, fractions: &[Frac]) -> Option<u128>
    requires { IsDenominator start }
    ensures { IfSome result IsDenominator }
{
    let mut all = start;
    for fraction in fractions {
        all = common_multiple(all, denominator(fraction))?;
    }
    Some(all)
}

/// A common multiple of a number and of a matrix's denominators, where it is at most 2^124.
pub fn common_of(start: u128, matrix: &Matrix) -> Option<u128>
    requires { IsDenominator start }
    ensures { IfSome result IsDenominator }
{
    let mut all = start;
    for i in 0..matrix.rows() {
        all = common_in(all, matrix.row(i))?;
    }
    Some(all)
}
