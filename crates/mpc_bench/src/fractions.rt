//! The fractions of `mpc_frac` for a C caller: single operations on parts, and loops to measure them.

ghost use Rattle.std.specs.Prelude.{◌≡◌, ◌↔◌, pos, IsTrue};
ghost use Rattle.std.specs.Bool.{OnTrue, OnFalse};
ghost use Rattle.mpc_exact.specs.Rational.{◌+ℚ◌, ◌*ℚ◌, cmp_ℚ};
ghost use Rattle.mpc_frac.specs.Fits.{FitsFrac, FitsSum};
ghost use Rattle.mpc_bench.specs.Parts.{value_of, IsReadable, ArePartsOf};
ghost use Rattle.mpc_bench.specs.Orders.{code_of};
ghost use Rattle.mpc_bench.specs.Digests.{number_at, passes, paired, sum_digit, product_digit, order_digit, number_digit};

use crate::parts::{Parts, parts_of, read};
use crate::repeats::{loaded, order_pass, product_pass, read_pass, sum_pass};
use mpc_frac::Wide;
use std::cmp::Ordering;

/// Writes the sum, and answers whether both are fractions and the sum isn't wide. Where it answers
/// false it writes nothing.
#[unsafe(no_mangle)]
pub extern "C" fn mpc_frac_sum(left: &Parts, right: &Parts, out: &mut Parts) -> bool
    ensures answer { IsTrue result
        ↔ (IsReadable left.now × IsReadable right.now × FitsSum (value_of left.now) (value_of right.now)) }
    ensures value { OnTrue result (ArePartsOf out.new (value_of left.now +ℚ value_of right.now)) }
    ensures readable { OnTrue result (IsReadable out.new) }
    ensures unchanged { OnFalse result (out.new ≡ out.old) }
{
    let Some(left_number) = read(left) else {
        return false;
    };
    let Some(right_number) = read(right) else {
        return false;
    };
    match left_number.add(&right_number) {
        Ok(sum) => {
            *out = parts_of(&sum);
            true
        }
        Err(Wide) => false,
    }
}

/// Writes the product, and answers whether both are fractions and the product isn't wide. Where it
/// answers false it writes nothing.
#[unsafe(no_mangle)]
pub extern "C" fn mpc_frac_product(left: &Parts, right: &Parts, out: &mut Parts) -> bool
    ensures answer { IsTrue result
        ↔ (IsReadable left.now × IsReadable right.now × FitsFrac (value_of left.now *ℚ value_of right.now)) }
    ensures value { OnTrue result (ArePartsOf out.new (value_of left.now *ℚ value_of right.now)) }
    ensures readable { OnTrue result (IsReadable out.new) }
    ensures unchanged { OnFalse result (out.new ≡ out.old) }
{
    let Some(left_number) = read(left) else {
        return false;
    };
    let Some(right_number) = read(right) else {
        return false;
    };
    match left_number.mul(&right_number) {
        Ok(product) => {
            *out = parts_of(&product);
            true
        }
        Err(Wide) => false,
    }
}

/// -1, 0 or 1 by the order, and 0 where one of the two is no fraction.
#[unsafe(no_mangle)]
pub extern "C" fn mpc_frac_order(left: &Parts, right: &Parts) -> i32
    ensures order { IsReadable left.now → IsReadable right.now
        → result ≡ code_of (cmp_ℚ (value_of left.now) (value_of right.now)) }
    ensures unreadable { ¬ (IsReadable left.now × IsReadable right.now) → result ≡ pos 0 }
{
    let (Some(left_number), Some(right_number)) = (read(left), read(right)) else {
        return 0;
    };
    order_code(left_number.cmp(&right_number))
}

pub(crate) fn order_code(order: Ordering) -> i32
    ensures { result ≡ code_of order }
{
    match order {
        Ordering::Less => -1,
        Ordering::Equal => 0,
        Ordering::Greater => 1,
    }
}

/// Adds the first 1024 pairs of two lists again and again, and mixes the sums into a digest.
#[unsafe(no_mangle)]
pub extern "C" fn mpc_frac_repeat_sums(left: &[Parts], right: &[Parts], rounds: u32) -> u64
    ensures { result ≡ passes (paired sum_digit left.now right.now) rounds }
{
    let left_numbers = loaded(left);
    let right_numbers = loaded(right);
    let mut digest = 0;
    'rounds: for _ in 0..rounds {
        digest = sum_pass(&left_numbers, &right_numbers, digest);
    }
    digest
}

/// Multiplies the first 1024 pairs of two lists again and again.
#[unsafe(no_mangle)]
pub extern "C" fn mpc_frac_repeat_products(left: &[Parts], right: &[Parts], rounds: u32) -> u64
    ensures { result ≡ passes (paired product_digit left.now right.now) rounds }
{
    let left_numbers = loaded(left);
    let right_numbers = loaded(right);
    let mut digest = 0;
    'rounds: for _ in 0..rounds {
        digest = product_pass(&left_numbers, &right_numbers, digest);
    }
    digest
}

/// Compares the first 1024 pairs of two lists again and again.
#[unsafe(no_mangle)]
pub extern "C" fn mpc_frac_repeat_orders(left: &[Parts], right: &[Parts], rounds: u32) -> u64
    ensures { result ≡ passes (paired order_digit left.now right.now) rounds }
{
    let left_numbers = loaded(left);
    let right_numbers = loaded(right);
    let mut digest = 0;
    'rounds: for _ in 0..rounds {
        digest = order_pass(&left_numbers, &right_numbers, digest);
    }
    digest
}

/// Reads the first 1024 fractions of a list again and again.
#[unsafe(no_mangle)]
pub extern "C" fn mpc_frac_repeat_reads(parts: &[Parts], rounds: u32) -> u64
    ensures { result ≡ passes (λ place. number_digit (number_at parts.now place)) rounds }
{
    let mut digest = 0;
    'rounds: for _ in 0..rounds {
        digest = read_pass(parts, digest);
    }
    digest
}
