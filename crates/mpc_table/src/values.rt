//! Values of affine forms and of rows at counts, in whole numbers.

ghost use Rattle.std.specs.Prelude.{◌≡◌, ◌+◌, ◌*◌, ◌^◌, ◌<◌, ◌≤◌, ◌↔◌, pos, ◌+ℤ◌, ◌*ℤ◌, ◌<ℤ◌, ◌≤ℤ◌, unsigned_abs, length, IsTrue};
ghost use Rattle.mpc_exact.specs.Rational.{quotient};
ghost use Rattle.mpc_plant.specs.Trajectory.{point_of};
ghost use Rattle.mpc_controller.specs.Bounds.{reach};
ghost use Rattle.mpc_controller.specs.Walk.{Satisfies};
ghost use Rattle.mpc_table.specs.Forms.{weighed, affine_value, IsBounded};

use mpc_frac::Frac;
use mpc_linear::{IntAffine, RowInt};

/// `sum + slope count`.
fn add_term(sum: i128, slope: i128, count: u64) -> i128
    requires { unsigned_abs sum + unsigned_abs slope * count < 2 ^ 127 }
    ensures value { result ≡ sum +ℤ slope *ℤ pos count }
    ensures fits { unsigned_abs result < 2 ^ 127 }
{
    sum + slope * i128::from(count)
}

/// `start + k_1 t_1 + .. + k_n t_n`.
pub fn weighted_sum(start: i128, slopes: &[i128], counts: &[u64]) -> i128
    requires sizes { length slopes.now ≡ length counts.now }
    requires within { unsigned_abs start + reach slopes.now counts.now < 2 ^ 127 }
    ensures value { result ≡ start +ℤ weighed slopes.now counts.now }
    ensures fits { unsigned_abs result < 2 ^ 127 }
{
    let mut sum = start;
    for i in 0..slopes.len() {
        sum = add_term(sum, slopes[i], counts[i]);
    }
    sum
}

/// The fraction of two numbers that fit.
fn divide(num: i128, den: i128) -> Frac
    requires num_fits { unsigned_abs num < 2 ^ 127 }
    requires positive { pos 0 <ℤ den }
    requires den_fits { unsigned_abs den < 2 ^ 127 }
    ensures { result ≡ quotient num den }
{
    match Frac::new(num, den) {
        Ok(fraction) => fraction,
        Err(_) => unreachable!(),
    }
}

/// The form's value at the counts.
pub fn value_at(form: &IntAffine, counts: &[u64]) -> Frac
    requires { IsBounded counts.now form.now }
    ensures { result ≡ affine_value form.now counts.now }
{
    let k = form.k.as_slice();
    divide(weighted_sum(k[0], &k[1..], counts), form.den)
}

/// Whether the sum is at most the bound.
fn is_at_most(sum: i128, bound: i128) -> bool
    ensures { IsTrue result ↔ (sum ≤ℤ bound) }
{
    sum <= bound
}

/// Whether the counts satisfy the row.
pub fn satisfies(row: &RowInt, counts: &[u64]) -> bool
    requires sizes { length row.now.a ≡ length counts.now }
    requires within { unsigned_abs row.now.b + reach row.now.a counts.now < 2 ^ 127 }
    ensures { IsTrue result ↔ Satisfies row.now (point_of counts.now) }
{
    is_at_most(weighted_sum(0, row.a.as_slice(), counts), row.b)
}
