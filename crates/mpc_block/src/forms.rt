//! Affine forms in whole numbers.

ghost use Rattle.std.specs.Prelude.{◌≡◌, ◌^◌, ◌<◌, ◌≤◌, length, map, take, unsigned_abs};
ghost use Rattle.mpc_exact.specs.Gcd.{lcm};
ghost use Rattle.mpc_exact.specs.Denominator.{common_denom};
ghost use Rattle.mpc_linear.specs.Whole.{scaled, WholeFits};

use mpc_frac::{Frac, greatest_common_divisor};

/// The fraction's denominator.
fn denominator_of(fraction: &Frac) -> u128
    ensures value { result ≡ fraction.now.denom }
    ensures positive { 0 < result }
{
    fraction.den() as u128
}

/// The least common multiple of two numbers.
fn least_multiple(left: u128, right: u128) -> u128
    requires positive { 0 < right }
    requires small { lcm left right < 2 ^ 127 }
    ensures { result ≡ lcm left right }
{
    left / greatest_common_divisor(left, right) * right
}

/// The least common denominator.
pub fn denominator(form: &[Frac]) -> u128
    requires { common_denom form.now < 2 ^ 127 }
    ensures { result ≡ common_denom form.now }
{
    let mut all = 1;
    for fraction in form {
        all = least_multiple(all, denominator_of(fraction));
    }
    all
}

/// The numerator over a multiple of the denominator.
fn numerator(fraction: &Frac, all: u128) -> i128
    requires denominator { all < 2 ^ 127 }
    requires numerator { unsigned_abs (scaled all fraction.now) < 2 ^ 127 }
    ensures { result ≡ scaled all fraction.now }
{
    fraction.num() * (all / denominator_of(fraction)) as i128
}

/// The numerators over the least common denominator.
pub fn numerators(form: &[Frac], den: u128) -> [i128; 5]
    requires few { length form.now ≤ 5 }
    requires least { den ≡ common_denom form.now }
    requires fits { WholeFits form.now }
    ensures { take (length form.now) result ≡ map (scaled (common_denom form.now)) form.now }
{
    let mut numerators = [0; 5];
    for i in 0..form.len() {
        numerators[i] = numerator(&form[i], den);
    }
    numerators
}
