//! The test whether multipliers refute a system.

ghost use Rattle.std.specs.Prelude.{◌≡◌, ◌<◌, ◌↔◌, IsTrue, IfOk, MatchResult, List, length, pos, true, IsErr};
ghost use Rattle.mpc_exact.specs.Rational.{ℚ, int, ◌<ℚ◌};
ghost use Rattle.mpc_space.specs.Vector.{dot, AllNonneg};
ghost use Rattle.mpc_linear.specs.Dot.{DotFits};
ghost use Rattle.mpc_rows.specs.LinearSystem.{IsPoint, IsPairPoint};
ghost use Rattle.mpc_rows.specs.Refutation.{coefficients_on, right_sides, ColumnsFit, CombinesToZero, WeighsStrict, Refutes, SumsFit};

use crate::{Multipliers, Row, System};
use mpc_frac::{Frac, Wide};
use mpc_linear::{add_product, sum_theorems};

/// Whether no multiplier is negative.
fn are_nonneg(multipliers: &[Frac]) -> bool
    ensures { IsTrue result ↔ AllNonneg multipliers.now }
{
    for m in multipliers {
        if m.sign() < 0 {
            return false;
        }
    }
    true
}

/// The dot of the multipliers with the coefficients on the unknown, counted from 0.
fn column_sum(system: &System, multipliers: &Multipliers, unknown: usize) -> Result<Frac, Wide>
    requires unknown { unknown < system.now.width }
    requires lengths { length multipliers.now ≡ length system.now.rows }
    ensures value { IfOk result (λ v. v ≡ dot multipliers.now (coefficients_on unknown system.now.rows)) }
    ensures wide { MatchResult result (λ _. DotFits multipliers.now (coefficients_on unknown system.now.rows))
        (λ _. ¬ DotFits multipliers.now (coefficients_on unknown system.now.rows)) }
{
    sum_theorems();
    let mut sum = Frac::whole(0);
    for i in 0..system.rows.len() {
        let row = system.rows.at(i);
        match add_product(&sum, multipliers.at(i), row.a.at(unknown)) {
            Ok(next) => sum = next,
            Err(wide) => return Err(wide),
        }
    }
    Ok(sum)
}

/// The dot of the multipliers with the right sides.
fn side_sum(system: &System, multipliers: &Multipliers) -> Result<Frac, Wide>
    requires { length multipliers.now ≡ length system.now.rows }
    ensures value { IfOk result (λ v. v ≡ dot multipliers.now (right_sides system.now.rows)) }
    ensures wide { MatchResult result (λ _. DotFits multipliers.now (right_sides system.now.rows))
        (λ _. ¬ DotFits multipliers.now (right_sides system.now.rows)) }
{
    sum_theorems();
    let mut sum = Frac::whole(0);
    for i in 0..system.rows.len() {
        let row = system.rows.at(i);
        match add_product(&sum, multipliers.at(i), &row.b) {
            Ok(next) => sum = next,
            Err(wide) => return Err(wide),
        }
    }
    Ok(sum)
}

/// Whether the combination of the left sides is 0. The sums of all unknowns are formed.
fn combines_to_zero(system: &System, multipliers: &Multipliers) -> Result<bool, Wide>
    requires { length multipliers.now ≡ length system.now.rows }
    ensures value { IfOk result (λ zero. IsTrue zero ↔ CombinesToZero system.now multipliers.now) }
    ensures wide { MatchResult result (λ _. ColumnsFit system.now multipliers.now)
        (λ _. ¬ ColumnsFit system.now multipliers.now) }
{
    let mut zero = true;
    for unknown in 0..system.width as usize {
        match column_sum(system, multipliers, unknown) {
            Ok(sum) => zero = zero && sum.is_zero(),
            Err(wide) => return Err(wide),
        }
    }
    Ok(zero)
}

/// Whether the row is strict and its multiplier positive.
fn is_strict_with(row: &Row, multiplier: &Frac) -> bool
    ensures { IsTrue result ↔ ((row.now.strict ≡ true) × (int (pos 0) <ℚ multiplier.now)) }
{
    row.strict && multiplier.sign() > 0
}

/// Whether a strict row has a positive multiplier.
fn weighs_strict(system: &System, multipliers: &Multipliers) -> bool
    requires { length multipliers.now ≡ length system.now.rows }
    ensures { IsTrue result ↔ WeighsStrict system.now.rows multipliers.now }
{
    for i in 0..system.rows.len() {
        if is_strict_with(system.rows.at(i), multipliers.at(i)) {
            return true;
        }
    }
    false
}

/// Whether the multipliers refute the system. Sums are formed only where no multiplier is negative.
fn is_refutation(system: &System, multipliers: &Multipliers) -> Result<bool, Wide>
    requires { length multipliers.now ≡ length system.now.rows }
    ensures answer { IfOk result (λ yes. IsTrue yes ↔ Refutes system.now multipliers.now) }
    ensures wide { IsErr result ↔ (AllNonneg multipliers.now × (¬ SumsFit system.now multipliers.now)) }
{
    if !are_nonneg(multipliers.as_slice()) {
        return Ok(false);
    }
    let zero = combines_to_zero(system, multipliers)?;
    let side = side_sum(system, multipliers)?;
    if !zero {
        return Ok(false);
    }
    if side.is_zero() {
        return Ok(weighs_strict(system, multipliers));
    }
    Ok(side.sign() < 0)
}

/// Whether the multipliers show that the system has no point.
///
/// That is so where all multipliers are at least 0, the left sides of the rows, each times its
/// multiplier, sum to 0, and the right sides sum below 0, or to 0 while a strict row has a
/// positive multiplier (Farkas 1902, Motzkin 1936).
///
/// A negative multiplier is found before any sum is formed; otherwise all sums are. `Wide` where
/// one of these has a number that doesn't fit.
pub fn refutes(system: &System, multipliers: &Multipliers) -> Result<bool, Wide>
    requires { length multipliers.now ≡ length system.now.rows }
    ensures answer { IfOk result (λ yes. IsTrue yes ↔ Refutes system.now multipliers.now) }
    ensures wide { IsErr result ↔ (AllNonneg multipliers.now × (¬ SumsFit system.now multipliers.now)) }

    // A system that is refuted has no point.
    ensures no_point { IfOk result (λ yes. IsTrue yes → (v : List ℚ) → ¬ IsPoint system.now v) }
    ensures no_pair_point { IfOk result
        (λ yes. IsTrue yes → (p : List (ℚ × ℚ)) → ¬ IsPairPoint system.now p) }
{
    let _ = &system.rows;
    is_refutation(system, multipliers)
}
