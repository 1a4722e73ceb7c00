//! One number of an elimination, where all numbers on the way to it fit.

ghost use Rattle.std.specs.Prelude.{◌≢◌, ℕ, suc};
ghost use Rattle.mpc_linear.specs.Elimination.{Table};
ghost use Rattle.mpc_bordered.specs.Kept.{IfFormed};

use mpc_frac::Frac;
use mpc_linear::sub_product;

/// The entry of the pivot's row, divided by the pivot.
pub fn divided(number: Option<Frac>, pivot: Option<Frac>) -> Option<Frac>
    ensures { (t : Table) (c j : ℕ) → IfFormed t c c c pivot → IfFormed t c c j number → IfFormed t (suc c) c j result }
{
    let Some(entry) = number else {
        return None;
    };
    let Some(divisor) = pivot else {
        return None;
    };
    if divisor.is_zero() {
        return None;
    }
    let Ok(quotient) = entry.div(&divisor) else {
        return None;
    };
    let _fits = quotient.num();
    Some(quotient)
}

/// The entry of another row, less the factor times the quotient of the pivot's row. A factor of 0 leaves it as it is.
fn taken(number: Option<Frac>, factor: Option<Frac>, quotient: &Option<Frac>) -> Option<Frac>
    ensures { (t : Table) (c i j : ℕ) → i ≢ c → IfFormed t c i c factor → IfFormed t (suc c) c j quotient.now → IfFormed t c i j number → IfFormed t (suc c) i j result }
{
    let Some(times) = factor else {
        return None;
    };
    if times.is_zero() {
        return number;
    }
    let Some(entry) = number else {
        return None;
    };
    let Some(unit) = quotient else {
        return None;
    };
    let Ok(rest) = sub_product(&entry, &times, unit) else {
        return None;
    };
    let _fits = rest.num();
    Some(rest)
}

/// The entry of the row once the pivot's column is eliminated.
pub fn next_entry(
    row: usize,
    pivot_column: usize,
    number: Option<Frac>,
    factor: Option<Frac>,
    quotient: &Option<Frac>,
) -> Option<Frac>
    ensures { (t : Table) (j : ℕ) → IfFormed t pivot_column row pivot_column factor → IfFormed t (suc pivot_column) pivot_column j quotient.now → IfFormed t pivot_column row j number → IfFormed t (suc pivot_column) row j result }
{
    if row == pivot_column {
        *quotient
    } else {
        taken(number, factor, quotient)
    }
}
