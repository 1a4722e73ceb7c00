//! Moves of points in whole numbers.

ghost use Rattle.std.specs.Prelude.{◌≡◌, ℕ, List, ◌*◌, ◌+◌, ◌^◌, ◌<◌, ◌≤◌, IfSome, get_or, length, pos, unsigned_abs, ◌+ℤ◌, ◌*ℤ◌};
ghost use Rattle.std.specs.Int.{◌∣◌};
ghost use Rattle.mpc_exact.specs.Rational.{ℚ};
ghost use Rattle.mpc_space.specs.Vector.{vec_add, vec_scale};
ghost use Rattle.mpc_wholes.specs.Wholes.{IsOver};
ghost use Rattle.mpc_online.specs.Widths.{GrowsFit};

use crate::wholes::{is_small, product};
use mpc_frac::{Frac, greatest_common_divisor};
use mpc_wholes::{Wholes, common_multiple, denominator, over_theorems, part, rest};

/// A divisor of both, the greatest one: mostly the first number is.
fn shared_divisor(first: u128, second: u128) -> u128
    requires { 0 < first }
    ensures of_a { result ∣ first }
    ensures of_b { result ∣ second }
    ensures positive { 0 < result }
{
    if first == 1 {
        return 1;
    }
    if rest(second, first) == 0 {
        return first;
    }
    greatest_common_divisor(first, second)
}

/// What divides the denominator and the first numerators.
fn common_divisor(numbers: &Wholes, count: usize) -> u128
    requires { count ≤ 6 }
    ensures of_den { result ∣ numbers.now.den }
    ensures of_numerators { (k : ℕ) → k < count → result ∣ unsigned_abs (get_or numbers.now.numerators k (pos 0)) }
    ensures positive { 0 < result }
{
    let mut shared = numbers.den;
    for index in 0..count {
        shared = shared_divisor(shared, numbers.numerators[index].unsigned_abs());
    }
    shared
}

/// The number divided by a divisor of its size.
fn divided(numerator: i128, shared: u128) -> i128
    requires positive { 0 < shared }
    requires divides { shared ∣ unsigned_abs numerator }
    requires small { unsigned_abs numerator < 2 ^ 127 }
    ensures value { result *ℤ pos shared ≡ numerator }
    ensures size { unsigned_abs result ≤ unsigned_abs numerator }
    ensures small { unsigned_abs result < 2 ^ 127 }
{
    let size = part(numerator.unsigned_abs(), shared) as i128;
    if numerator < 0 { -size } else { size }
}

/// Numbers up to this, 2^48, aren't reduced: their products with those of a row and of a direction are small, and a divisor costs more than
/// it saves.
const SHORT: u128 = 0x1_0000_0000_0000;

/// The first numbers in lowest terms, or as they are where they are short.
pub fn lowest(numbers: Wholes, count: usize) -> Wholes
    requires { count ≤ 6 }
    ensures { (xs : List ℚ) → IsOver xs numbers → length xs ≡ count → IsOver xs result }
{
    if numbers.most <= SHORT {
        return numbers;
    }
    let shared = common_divisor(&numbers, count);
    if shared == 1 {
        return numbers;
    }
    let den = part(numbers.den, shared);
    let mut numerators = [0; 6];
    let mut most = den;
    for index in 0..count {
        let numerator = divided(numbers.numerators[index], shared);
        numerators[index] = numerator;
        most = most.max(numerator.unsigned_abs());
    }
    Wholes {
        numerators,
        den,
        most,
    }
}

/// The sum of two products, which fits.
fn combination(first: i128, left: i128, second: i128, right: i128) -> i128
    requires left_small { unsigned_abs (first *ℤ left) ≤ 2 ^ 124 }
    requires right_small { unsigned_abs (second *ℤ right) ≤ 2 ^ 124 }
    ensures value { result ≡ first *ℤ left +ℤ second *ℤ right }
    ensures small { unsigned_abs result ≤ 2 ^ 125 }
{
    first * left + second * right
}

/// The sums of multiples of the first numerators, over this denominator.
fn combined(
    point: &Wholes,
    left: i128,
    direction: &Wholes,
    right: i128,
    den: u128,
    count: usize,
) -> Wholes
    requires few { count ≤ 6 }
    requires left_small { point.now.most * unsigned_abs left ≤ 2 ^ 124 }
    requires right_small { direction.now.most * unsigned_abs right ≤ 2 ^ 124 }
    requires positive { 0 < den }
    requires den_small { den ≤ 2 ^ 124 }
    ensures den { result.den ≡ den }
    ensures size { length result.numerators ≡ 6 }
    ensures numerators { (k : ℕ) → k < count
        → get_or result.numerators k (pos 0) ≡ get_or point.now.numerators k (pos 0) *ℤ left +ℤ get_or direction.now.numerators k (pos 0) *ℤ right }
{
    let mut numerators = [0; 6];
    let mut most = den;
    for index in 0..count {
        let numerator = combination(
            point.numerators[index],
            left,
            direction.numerators[index],
            right,
        );
        numerators[index] = numerator;
        most = most.max(numerator.unsigned_abs());
    }
    Wholes {
        numerators,
        den,
        most,
    }
}

/// The point, so many times the direction further. `None` where the numbers aren't small enough to show that each operation on fractions
/// on the way to it fits.
pub fn moved_in_wholes(
    point: &Wholes,
    direction: &Wholes,
    step: &Frac,
    count: usize,
) -> Option<Wholes>
    requires { count ≤ 6 }
    ensures value { IfSome result
        (λ w. (xs ds : List ℚ) → IsOver xs point.now → IsOver ds direction.now → length xs ≡ count → length ds ≡ count
        → IsOver (vec_add xs (vec_scale step.now ds)) w) }
    ensures fits { IfSome result
        (λ _. (xs ds : List ℚ) → IsOver xs point.now → IsOver ds direction.now → length xs ≡ count → length ds ≡ count
        → GrowsFit xs step.now ds) }
{
    over_theorems();
    if !is_small(direction.den, denominator(step), 1) {
        return None;
    }
    let below = direction.den * denominator(step);
    let den = common_multiple(below, point.den)?;
    let left = part(den, point.den);
    let right = part(den, below);
    if !is_small(point.most, left, 1) {
        return None;
    }
    if !is_small(direction.most, right, step.num().unsigned_abs()) {
        return None;
    }
    let factor = product(step.num(), right as i128);
    Some(lowest(
        combined(point, left as i128, direction, factor, den, count),
        count,
    ))
}
