//! Whole numbers as fractions.

ghost use Rattle.std.specs.Prelude.{◌≡◌, ◌<◌, ◌^◌, unsigned_abs};
ghost use Rattle.mpc_exact.specs.Rational.{int};

use mpc_frac::Frac;

/// A whole number as a fraction.
pub fn whole(number: i128) -> Frac
    requires { unsigned_abs number < 2 ^ 127 }
    ensures { result ≡ int number }
{
    match Frac::new(number, 1) {
        Ok(value) => value,
        Err(_) => unreachable!(),
    }
}
