//! Comparisons of numbers.

ghost use Rattle.std.specs.Prelude.{◌≡◌, ◌↔◌, IsTrue, pos};
ghost use Rattle.mpc_exact.specs.Rational.{int, lt_ℚ, ◌<ℚ◌};

use mpc_frac::Frac;

/// Whether the left number is below the right one.
pub fn is_less(left: &Frac, right: &Frac) -> bool
    ensures { result ≡ lt_ℚ left.now right.now }
{
    left.cmp(right).is_lt()
}

/// Whether the number is above 0.
pub fn is_positive(number: &Frac) -> bool
    ensures { IsTrue result ↔ (int (pos 0) <ℚ number.now) }
{
    number.sign() > 0
}

/// Whether the number is below 0.
pub fn is_negative(number: &Frac) -> bool
    ensures { result ≡ lt_ℚ number.now (int (pos 0)) }
{
    number.sign() < 0
}
