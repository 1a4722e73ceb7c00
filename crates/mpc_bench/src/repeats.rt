//! Passes over many fractions, to measure single operations.

ghost use Rattle.std.specs.Prelude.{◌≡◌, ℕ, ◌<◌, Some, slice_get};
ghost use Rattle.mpc_bench.specs.Digests.{low_of, number_of, number_at, mixed, digits_mixed, between, sum_digit, product_digit, order_digit, number_digit};

use crate::fractions::order_code;
use crate::parts::{Parts, read};
use mpc_frac::{Frac, Wide};

/// How many fractions a pass takes.
pub(crate) const COUNT: usize = 1024;

/// The weight of the high half of a number.
const HIGH: u128 = 1 << 64;

/// The fraction of these parts, or 0 where they make none.
fn fraction_of(parts: &Parts) -> Frac
    ensures { result ≡ number_of parts.now }
{
    read(parts).unwrap_or(Frac::whole(0))
}

/// The fraction at a place of a list, or 0.
fn fraction_at(parts: &[Parts], place: usize) -> Frac
    ensures { result ≡ number_at parts.now place }
{
    match parts.get(place) {
        Some(part) => fraction_of(part),
        None => Frac::whole(0),
    }
}

/// The first fractions of a list.
pub(crate) fn loaded(parts: &[Parts]) -> [Frac; COUNT]
    ensures { (place : ℕ) → place < COUNT → slice_get result place ≡ Some (number_at parts.now place) }
{
    let mut fractions = [Frac::whole(0); COUNT];
    for (place, fraction) in fractions.iter_mut().enumerate() {
        *fraction = fraction_at(parts, place);
    }
    fractions
}

/// A number's size modulo 2^64.
fn low(number: i128) -> u64
    ensures { result ≡ low_of number }
{
    (number.unsigned_abs() % HIGH) as u64
}

/// A number mixed into a digest.
fn mixed(digest: u64, digit: u64) -> u64
    ensures { result ≡ mixed digest digit }
{
    digest.rotate_left(1) ^ digit
}

fn sum_digit(left: &Frac, right: &Frac) -> u64
    ensures { result ≡ sum_digit left.now right.now }
{
    match left.add(right) {
        Ok(sum) => low(sum.num()),
        Err(Wide) => 0,
    }
}

fn product_digit(left: &Frac, right: &Frac) -> u64
    ensures { result ≡ product_digit left.now right.now }
{
    match left.mul(right) {
        Ok(product) => low(product.num()),
        Err(Wide) => 0,
    }
}

fn order_digit(left: &Frac, right: &Frac) -> u64
    ensures { result ≡ order_digit left.now right.now }
{
    low(order_code(left.cmp(right)) as i128)
}

fn number_digit(number: &Frac) -> u64
    ensures { result ≡ number_digit number.now }
{
    low(number.num())
}

/// All sums once, mixed into a digest.
pub(crate) fn sum_pass(left: &[Frac; COUNT], right: &[Frac; COUNT], mut digest: u64) -> u64
    ensures { result ≡ digits_mixed (between sum_digit left.now right.now) COUNT digest }
{
    for k in 0..COUNT {
        digest = mixed(digest, sum_digit(&left[k], &right[k]));
    }
    digest
}

/// All products once, mixed into a digest.
pub(crate) fn product_pass(left: &[Frac; COUNT], right: &[Frac; COUNT], mut digest: u64) -> u64
    ensures { result ≡ digits_mixed (between product_digit left.now right.now) COUNT digest }
{
    for k in 0..COUNT {
        digest = mixed(digest, product_digit(&left[k], &right[k]));
    }
    digest
}

/// All comparisons once, mixed into a digest.
pub(crate) fn order_pass(left: &[Frac; COUNT], right: &[Frac; COUNT], mut digest: u64) -> u64
    ensures { result ≡ digits_mixed (between order_digit left.now right.now) COUNT digest }
{
    for k in 0..COUNT {
        digest = mixed(digest, order_digit(&left[k], &right[k]));
    }
    digest
}

/// All fractions read once, and mixed into a digest.
pub(crate) fn read_pass(parts: &[Parts], mut digest: u64) -> u64
    ensures { result ≡ digits_mixed (λ place. number_digit (number_at parts.now place)) COUNT digest }
{
    for k in 0..COUNT {
        digest = mixed(digest, number_digit(&fraction_at(parts, k)));
    }
    digest
}
