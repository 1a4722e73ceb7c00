//! Rows of numbers: carried through one step of the plant, and what a disturbance can do to them.

ghost use Rattle.std.specs.Prelude.{◌≡◌, ◌<◌, ◌↔◌, IsTrue, IfOk, MatchResult, length, pos};
ghost use Rattle.mpc_exact.specs.Rational.{int, abs_ℚ, ◌<ℚ◌};
ghost use Rattle.mpc_space.specs.Vector.{column, dot};
ghost use Rattle.mpc_space.specs.Matrix.{height};
ghost use Rattle.mpc_linear.specs.Dot.{DotFits};
ghost use Rattle.mpc_linear.specs.Product.{product_row, DotsFit};
ghost use Rattle.mpc_tight.specs.Disturbed.{sizes};
ghost use Rattle.mpc_tight.specs.Tightening.{IfTooWide};

use crate::errors::StepError;
use mpc_frac::{Frac, NoMemory, Wide};
use mpc_linear::{Matrix, Vector, add_product, sum_theorems};
use std::alloc::Global;

/// The dot of a row with a column of a matrix.
fn dot_with_column(row: &Vector, matrix: &Matrix, at_column: u32) -> Result<Frac, Wide>
    requires size { length row.now ≡ height matrix.now }
    requires column { at_column < matrix.now.columns }
    ensures value { IfOk result (λ v. v ≡ dot row.now (column matrix.now.rows at_column)) }
    ensures wide { MatchResult result (λ _. DotFits row.now (column matrix.now.rows at_column))
        (λ _. ¬ DotFits row.now (column matrix.now.rows at_column)) }
{
    sum_theorems();
    let mut sum = Frac::whole(0);
    for at_row in 0..matrix.rows() {
        let factor = row.at(at_row as usize);
        let entry = matrix.get(at_row, at_column);
        match add_product(&sum, factor, &entry) {
            Ok(next) => sum = next,
            Err(wide) => return Err(wide),
        }
    }
    Ok(sum)
}

/// A row times a matrix.
pub(crate) fn times(alloc: Global, row: &Vector, matrix: &Matrix) -> Result<Vector, StepError>
    requires { length row.now ≡ height matrix.now }
    ensures value { IfOk result (λ v. v ≡ product_row matrix.now row.now) }
    ensures wide { MatchResult result (λ _. DotsFit matrix.now row.now)
        (IfTooWide (¬ DotsFit matrix.now row.now)) }
{
    let mut product = Vector::new(alloc);
    for at_column in 0..matrix.cols() {
        let value = dot_with_column(row, matrix, at_column)?;
        product.push(value)?;
    }
    Ok(product)
}

/// Whether a number is below 0.
fn is_negative(number: &Frac) -> bool
    ensures { IsTrue result ↔ (number.now <ℚ int (pos 0)) }
{
    number.sign() < 0
}

/// The absolute value.
fn size_of(number: &Frac) -> Frac
    ensures { result ≡ abs_ℚ number.now }
{
    if is_negative(number) {
        number.neg()
    } else {
        *number
    }
}

/// The dot of a row's absolute values with the noise: the most that a disturbance within the noise adds to the row's dot with the state.
pub(crate) fn most_added(row: &Vector, noise: &Vector) -> Result<Frac, Wide>
    requires { length row.now ≡ length noise.now }
    ensures value { IfOk result (λ v. v ≡ dot (sizes row.now) noise.now) }
    ensures wide { MatchResult result (λ _. DotFits (sizes row.now) noise.now)
        (λ _. ¬ DotFits (sizes row.now) noise.now) }
{
    sum_theorems();
    let mut sum = Frac::whole(0);
    for place in 0..row.len() {
        let size = size_of(row.at(place));
        let factor = noise.at(place);
        match add_product(&sum, &size, factor) {
            Ok(next) => sum = next,
            Err(wide) => return Err(wide),
        }
    }
    Ok(sum)
}
