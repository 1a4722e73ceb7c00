//! Fractions as a C caller sends and takes them: by signs and halves.

ghost use Rattle.std.specs.Prelude.{◌≡◌, ◌+◌, ◌*◌, ◌^◌, ◌<◌, IsSome, IfSome, OnSome, pos, neg_ℤ, ◌≤ℤ◌, if◌then◌else◌};
ghost use Rattle.mpc_bench.specs.Parts.{value_of, IsReadable, ArePartsOf};

use mpc_frac::{Frac, FracError, fit_theorems};

/// The weight of the high half of a number.
const HIGH: u128 = 1 << 64;

/// A fraction by the sign and the halves of its numerator, and the halves of its denominator.
#[repr(C)]
#[derive(Clone, Copy, Drop)]
pub struct Parts {
    pub negative: bool,
    pub num_high: u64,
    pub num_low: u64,
    pub den_high: u64,
    pub den_low: u64,
}

/// A number from its halves, where it lies below 2^127.
fn joined(high: u64, low: u64) -> Option<i128>
    ensures value { IfSome result (λ n. n ≡ pos (high * 2 ^ 64 + low)) }
    ensures fits { high * 2 ^ 64 + low < 2 ^ 127 → IsSome result }
    ensures only_fitting { OnSome result (high * 2 ^ 64 + low < 2 ^ 127) }
{
    let size = high as u128 * HIGH + low as u128;
    if size <= i128::MAX as u128 {
        Some(size as i128)
    } else {
        None
    }
}

/// The number of this size and sign.
fn signed(negative: bool, size: i128) -> i128
    requires { pos 0 ≤ℤ size }
    ensures { result ≡ (if negative then neg_ℤ size else size) }
{
    if negative { -size } else { size }
}

/// The fraction, exactly where both parts are below 2^127 and the denominator isn't 0.
pub fn read(parts: &Parts) -> Option<Frac>
    ensures value { IfSome result (λ x. x ≡ value_of parts.now) }
    ensures readable { IsReadable parts.now → IsSome result }
    ensures only_readable { OnSome result (IsReadable parts.now) }
{
    fit_theorems();
    let size = joined(parts.num_high, parts.num_low)?;
    let den = joined(parts.den_high, parts.den_low)?;
    match Frac::new(signed(parts.negative, size), den) {
        Ok(fraction) => Some(fraction),
        Err(FracError::ZeroDenominator) => None,
        Err(FracError::Wide) => None,
    }
}

/// The parts of a fraction in lowest terms, which can be read.
pub fn parts_of(fraction: &Frac) -> Parts
    ensures value { value_of result ≡ fraction.now }
    ensures parts { ArePartsOf result fraction.now }
    ensures readable { IsReadable result }
{
    let size = fraction.num().unsigned_abs();
    let den = fraction.den().unsigned_abs();
    Parts {
        negative: fraction.num() < 0,
        num_high: (size / HIGH) as u64,
        num_low: (size % HIGH) as u64,
        den_high: (den / HIGH) as u64,
        den_low: (den % HIGH) as u64,
    }
}
