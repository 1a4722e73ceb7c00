//! Rows and affine forms in whole numbers.

ghost use Rattle.std.specs.Prelude.{◌≡◌, ◌*◌, ◌/◌, ◌^◌, ◌<◌, ◌≤◌, ◌↔◌, IfOk, MatchResult, MatchOption, map, unsigned_abs, pos, ◌*ℤ◌, int_div, ◌++◌, ◌∷◌, [], List};
ghost use Rattle.std.specs.Int.{◌∣◌};
ghost use Rattle.mpc_exact.specs.Gcd.{lcm};
ghost use Rattle.mpc_exact.specs.Rational.{ℚ, int, ◌≤ℚ◌, ◌<ℚ◌};
ghost use Rattle.mpc_exact.specs.Denominator.{common_denom};
ghost use Rattle.mpc_space.specs.Vector.{dot};
ghost use Rattle.mpc_linear.specs.Whole.{scaled, ScaledFit, WholeFits, IsLeastForm, IsScaledRow, IsShared, AreSmall, IsPrimitive};
ghost use Rattle.mpc_linear.specs.Answers.{IfWide};

use crate::{Ints, LinearError, Vector};
use mpc_frac::{Frac, NoMemory, greatest_common_divisor};
use std::alloc::Global;

/// The row `a · t ≤ b` in whole numbers.
#[derive(Debug, Drop)]
pub struct RowInt {
    pub a: Ints,
    pub b: i128,
}

impl RowInt {
    /// The same row once more.
    pub fn copy(&self, alloc: Global) -> Result<Self, NoMemory>
        ensures { IfOk result (λ row. row ≡ self.now) }
    {
        let mut coefficients = Ints::with_capacity(alloc, self.a.len())?;
        for number in self.a.as_slice() {
            coefficients.push(*number)?;
        }
        Ok(RowInt {
            a: coefficients,
            b: self.b,
        })
    }
}

/// The affine form `(k_0 + k_1 t_1 + .. + k_n t_n) / den`.
#[derive(Debug, Drop)]
pub struct IntAffine {
    pub den: i128,
    pub k: Ints,
}

/// The least common multiple, if it lies below 2^127.
fn least_multiple(left: u128, right: u128) -> Option<u128>
    requires a_positive { 0 < left }
    requires b_positive { 0 < right }
    ensures value { MatchOption result (2 ^ 127 ≤ lcm left right) (λ m. m ≡ lcm left right) }
    ensures small { MatchOption result (2 ^ 127 ≤ lcm left right) (λ m. m < 2 ^ 127) }
{
    let part = left / greatest_common_divisor(left, right);
    match part.checked_mul(right) {
        Some(multiple) => if multiple <= i128::MAX as u128 {
            Some(multiple)
        } else {
            None
        },
        None => None,
    }
}

/// The denominator.
fn denominator(fraction: &Frac) -> u128
    ensures value { result ≡ fraction.now.denom }
    ensures positive { 0 < result }
{
    fraction.den() as u128
}

/// The least common denominator, if it lies below 2^127.
fn common_denominator(fractions: &[Frac]) -> Option<u128>
    ensures value { MatchOption result (2 ^ 127 ≤ common_denom fractions.now) (λ l. l ≡ common_denom fractions.now) }
    ensures small { MatchOption result (2 ^ 127 ≤ common_denom fractions.now) (λ l. l < 2 ^ 127) }
{
    let mut all = 1;
    for fraction in fractions {
        match least_multiple(all, denominator(fraction)) {
            Some(multiple) => all = multiple,
            None => return None,
        }
    }
    Some(all)
}

/// The numerator of the fraction over a multiple of its denominator, if it lies below 2^127 in size.
fn numerator_over(fraction: &Frac, all: u128) -> Option<i128>
    requires positive { 0 < all }
    requires small { all < 2 ^ 127 }
    ensures value { MatchOption result (2 ^ 127 ≤ unsigned_abs (scaled all fraction.now)) (λ z. z ≡ scaled all fraction.now) }
    ensures small { MatchOption result (2 ^ 127 ≤ unsigned_abs (scaled all fraction.now)) (λ z. unsigned_abs z < 2 ^ 127) }
{
    let times = all / denominator(fraction);
    match fraction.num().checked_mul(times as i128) {
        Some(numerator) => if numerator == i128::MIN {
            None
        } else {
            Some(numerator)
        },
        None => None,
    }
}

/// The numerators over a multiple of all denominators. Wide where one of them is.
fn numerators_over(alloc: Global, fractions: &[Frac], all: u128) -> Result<Ints, LinearError>
    requires positive { 0 < all }
    requires small { all < 2 ^ 127 }
    ensures value { IfOk result (λ k. k ≡ map (scaled all) fractions.now) }
    ensures wide { MatchResult result (λ _. ScaledFit all fractions.now)
        (λ e. IfWide e (λ step. (step ≡ 0) × (¬ ScaledFit all fractions.now))) }
{
    let mut numerators = Ints::with_capacity(alloc, fractions.len())?;
    for fraction in fractions {
        let Some(numerator) = numerator_over(fraction, all) else {
            return Err(LinearError::Wide(0));
        };
        numerators.push(numerator)?;
    }
    Ok(numerators)
}

/// The affine form with these coefficients, the constant first, over their least common denominator.
///
/// `Wide(0)` where this denominator or one of the numerators over it doesn't fit.
pub fn common(alloc: Global, coefficients: &Vector) -> Result<IntAffine, LinearError>
    ensures form { IfOk result (λ f. IsLeastForm coefficients.now f.den f.k) }
    ensures denominator { IfOk result (λ f. f.den ≡ pos (common_denom coefficients.now)) }
    ensures numerators { IfOk result (λ f. f.k ≡ map (scaled (common_denom coefficients.now)) coefficients.now) }
    ensures wide { MatchResult result (λ _. WholeFits coefficients.now)
        (λ e. IfWide e (λ step. (step ≡ 0) × (¬ WholeFits coefficients.now))) }
{
    let entries = coefficients.as_slice();
    let Some(all) = common_denominator(entries) else {
        return Err(LinearError::Wide(0));
    };
    let numerators = numerators_over(alloc, entries, all)?;
    Ok(IntAffine {
        den: all as i128,
        k: numerators,
    })
}

/// The greatest common divisor of these integers and the bound; 0 where all are 0.
pub fn shared_divisor(row: &Ints, bound: i128) -> u128
    requires small { AreSmall row.now }
    requires b_small { unsigned_abs bound < 2 ^ 127 }
    ensures shared { IsShared result (row.now ++ bound ∷ []) }
    ensures small { result < 2 ^ 127 }
{
    let mut shared = bound.unsigned_abs();
    for integer in row.as_slice() {
        shared = greatest_common_divisor(shared, integer.unsigned_abs());
    }
    shared
}

/// The row `coefficients · t ≤ bound` over the least common denominator.
fn whole_row(alloc: Global, coefficients: &[Frac], bound: &Frac) -> Result<RowInt, LinearError>
    ensures scaled { IfOk result (λ r. IsScaledRow coefficients.now bound.now r.a r.b) }
    ensures small { IfOk result (λ r. AreSmall r.a) }
    ensures b_small { IfOk result (λ r. unsigned_abs r.b < 2 ^ 127) }
    ensures wide { MatchResult result (λ _. WholeFits (coefficients.now ++ bound.now ∷ []))
        (λ e. IfWide e (λ step. (step ≡ 0) × (¬ WholeFits (coefficients.now ++ bound.now ∷ [])))) }
{
    let Some(front) = common_denominator(coefficients) else {
        return Err(LinearError::Wide(0));
    };
    let Some(all) = least_multiple(front, denominator(bound)) else {
        return Err(LinearError::Wide(0));
    };
    let Some(side) = numerator_over(bound, all) else {
        return Err(LinearError::Wide(0));
    };
    let row = numerators_over(alloc, coefficients, all)?;
    Ok(RowInt { a: row, b: side })
}

/// The integer divided by a number, towards 0.
fn divided(integer: i128, by: u128) -> i128
    requires positive { 0 < by }
    requires by_small { by < 2 ^ 127 }
    requires small { unsigned_abs integer < 2 ^ 127 }
    ensures value { result ≡ int_div integer (pos by) }
    ensures small { unsigned_abs result < 2 ^ 127 }
{
    integer / by as i128
}

/// The integers, each divided by a number.
fn divided_row(alloc: Global, row: &Ints, by: u128) -> Result<Ints, NoMemory>
    requires positive { 0 < by }
    requires by_small { by < 2 ^ 127 }
    requires small { AreSmall row.now }
    ensures { IfOk result (λ r. r ≡ map (λ integer. int_div integer (pos by)) row.now) }
{
    let mut quotients = Ints::with_capacity(alloc, row.len())?;
    for integer in row.as_slice() {
        quotients.push(divided(*integer, by))?;
    }
    Ok(quotients)
}

/// The row without a common divisor; a row of zeros stays so.
pub fn without_divisor(alloc: Global, row: RowInt) -> Result<RowInt, NoMemory>
    requires small { AreSmall row.a }
    requires b_small { unsigned_abs row.b < 2 ^ 127 }
    ensures scaled { IfOk result (λ r. (coefficients : List ℚ) (bound : ℚ) → IsScaledRow coefficients bound row.a row.b → IsScaledRow coefficients bound r.a r.b) }
    ensures primitive { IfOk result (λ r. IsPrimitive (r.a ++ r.b ∷ [])) }
    ensures small { IfOk result (λ r. AreSmall r.a) }
    ensures b_small { IfOk result (λ r. unsigned_abs r.b < 2 ^ 127) }
{
    let shared = shared_divisor(&row.a, row.b);
    if shared <= 1 {
        return Ok(row);
    }
    let coefficients = divided_row(alloc, &row.a, shared)?;
    Ok(RowInt {
        a: coefficients,
        b: divided(row.b, shared),
    })
}

/// The row `coefficients · t ≤ bound` in whole numbers without a common divisor; a row of zeros stays so.
///
/// `Wide(0)` where the least common denominator of the coefficients and the bound, or one of the numerators over it, doesn't fit.
pub fn primitive(alloc: Global, coefficients: &Vector, bound: &Frac) -> Result<RowInt, LinearError>
    ensures scaled { IfOk result (λ r. IsScaledRow coefficients.now bound.now r.a r.b) }
    ensures primitive { IfOk result (λ r. IsPrimitive (r.a ++ r.b ∷ [])) }
    ensures small { IfOk result (λ r. AreSmall r.a) }
    ensures b_small { IfOk result (λ r. unsigned_abs r.b < 2 ^ 127) }
    ensures same_points { IfOk result (λ r. (t : List ℚ) → (dot coefficients.now t ≤ℚ bound.now) ↔ (dot (map int r.a) t ≤ℚ int r.b)) }
    ensures wide { MatchResult result (λ _. WholeFits (coefficients.now ++ bound.now ∷ []))
        (λ e. IfWide e (λ step. (step ≡ 0) × (¬ WholeFits (coefficients.now ++ bound.now ∷ [])))) }
{
    let row = whole_row(alloc, coefficients.as_slice(), bound)?;
    let reduced = without_divisor(alloc, row)?;
    Ok(reduced)
}
