//! Sums of products, exactly or not at all.

ghost use Rattle.std.specs.Prelude.{◌≡◌, IfOk, MatchResult, length};
ghost use Rattle.mpc_exact.specs.Rational.{◌+ℚ◌, ◌-ℚ◌, ◌*ℚ◌};
ghost use Rattle.mpc_space.specs.Vector.{dot};
ghost use Rattle.mpc_linear.specs.Dot.{TermFits, TakenFits, SumFits, DotFits};

use crate::Vector;
use mpc_frac::{Frac, Wide};

/// `sum + left right`. Adding to 0 and multiplying by 0 are never too wide.
pub fn add_product(sum: &Frac, left: &Frac, right: &Frac) -> Result<Frac, Wide>
    ensures value { IfOk result (λ v. v ≡ sum.now +ℚ left.now *ℚ right.now) }
    ensures wide { MatchResult result (λ _. TermFits sum.now left.now right.now)
        (λ _. ¬ TermFits sum.now left.now right.now) }
{
    let nothing = sum.is_zero();
    if left.is_zero() || right.is_zero() {
        return Ok(*sum);
    }
    if nothing {
        return left.mul(right);
    }
    match left.mul(right) {
        Ok(product) => sum.add(&product),
        Err(wide) => Err(wide),
    }
}

/// `sum - left right`. Taking away from 0 and multiplying by 0 are never too wide.
pub fn sub_product(sum: &Frac, left: &Frac, right: &Frac) -> Result<Frac, Wide>
    ensures value { IfOk result (λ v. v ≡ sum.now -ℚ left.now *ℚ right.now) }
    ensures wide { MatchResult result (λ _. TakenFits sum.now left.now right.now)
        (λ _. ¬ TakenFits sum.now left.now right.now) }
{
    let nothing = sum.is_zero();
    if left.is_zero() || right.is_zero() {
        return Ok(*sum);
    }
    if nothing {
        return match left.mul(right) {
            Ok(product) => Ok(product.neg()),
            Err(wide) => Err(wide),
        };
    }
    match left.mul(right) {
        Ok(product) => sum.sub(&product),
        Err(wide) => Err(wide),
    }
}

/// The start plus the products of the entries at the same places, added from left to right.
/// It is wide exactly where one of the products or of the sums on the way is.
pub fn dot_from(start: &Frac, left: &[Frac], right: &[Frac]) -> Result<Frac, Wide>
    requires { length left.now ≡ length right.now }
    ensures value { IfOk result (λ v. v ≡ start.now +ℚ dot left.now right.now) }
    ensures wide { MatchResult result (λ _. SumFits start.now left.now right.now)
        (λ _. ¬ SumFits start.now left.now right.now) }
{
    let mut sum = *start;
    for k in 0..left.len() {
        match add_product(&sum, &left[k], &right[k]) {
            Ok(next) => sum = next,
            Err(wide) => return Err(wide),
        }
    }
    Ok(sum)
}

/// The dot of two vectors: the products are added from left to right to 0.
pub fn dot(left: &Vector, right: &Vector) -> Result<Frac, Wide>
    requires { length left.now ≡ length right.now }
    ensures value { IfOk result (λ v. v ≡ dot left.now right.now) }
    ensures wide { MatchResult result (λ _. DotFits left.now right.now) (λ _. ¬ DotFits left.now right.now) }
{
    dot_from(&Frac::whole(0), left.as_slice(), right.as_slice())
}
