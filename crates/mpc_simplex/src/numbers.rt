//! Numbers and pairs of numbers.

ghost use Rattle.std.specs.Prelude.{◌≡◌, ◌≢◌, pos};
ghost use Rattle.mpc_exact.specs.Rational.{int, inv_ℚ, lt_ℚ, le_ℚ};
ghost use Rattle.mpc_exact.specs.Pair.{is_below};
ghost use Rattle.mpc_rows.specs.Run.{is_zero};

use mpc_frac::{Frac, fit_theorems};
use mpc_runs::{Standing, zero};

fn is_less(left: &Frac, right: &Frac) -> bool
    ensures { result ≡ lt_ℚ left.now right.now }
{
    left.cmp(right).is_lt()
}

fn is_at_most(left: &Frac, right: &Frac) -> bool
    ensures { result ≡ le_ℚ left.now right.now }
{
    left.cmp(right).is_le()
}

pub(crate) fn is_zero(number: &Frac) -> bool
    ensures { result ≡ is_zero number.now }
{
    number.is_zero()
}

pub(crate) fn is_positive(number: &Frac) -> bool
    ensures { result ≡ lt_ℚ (int (pos 0)) number.now }
{
    is_less(&zero(), number)
}

/// One over the number, which always fits.
pub(crate) fn inverse(number: &Frac) -> Frac
    requires { number.now ≢ int (pos 0) }
    ensures { result ≡ inv_ℚ number.now }
{
    fit_theorems();
    match Frac::new(number.den(), number.num()) {
        Ok(v) => v,
        Err(_) => unreachable!(),
    }
}

pub(crate) fn is_below(left: &Standing, right: &Standing) -> bool
    ensures { result ≡ is_below (record { first = left.now.0; second = left.now.1 }) (record { first = right.now.0; second = right.now.1 }) }
{
    is_less(&left.0, &right.0) || (is_at_most(&left.0, &right.0) && is_less(&left.1, &right.1))
}
