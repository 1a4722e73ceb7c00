//! Vectors and small matrices of whole numbers.

ghost use Rattle.std.specs.Prelude.{◌≡◌, [], ◌∷◌, pos, IfOk};
ghost use Rattle.mpc_trace.specs.DrillPlant.{matrix, vector};

use mpc_frac::{Frac, NoMemory};
use mpc_linear::{Matrix, Vector};
use std::alloc::Global;

/// The vector of one entry.
pub fn single(alloc: Global, first: i64) -> Result<Vector, NoMemory>
    ensures { IfOk result (λ v. v ≡ vector (first ∷ [])) }
{
    let mut entries = Vector::new(alloc);
    entries.push(Frac::whole(first))?;
    Ok(entries)
}

/// The vector of two entries.
pub fn pair(alloc: Global, first: i64, second: i64) -> Result<Vector, NoMemory>
    ensures { IfOk result (λ v. v ≡ vector (first ∷ second ∷ [])) }
{
    let mut entries = Vector::new(alloc);
    entries.push(Frac::whole(first))?;
    entries.push(Frac::whole(second))?;
    Ok(entries)
}

/// The matrix of one row and one column.
pub fn one_by_one(alloc: Global, entry: i64) -> Result<Matrix, NoMemory>
    ensures { IfOk result (λ m. m ≡ matrix 1 ((entry ∷ []) ∷ [])) }
{
    let mut entries = Matrix::zero(alloc, 1, 1)?;
    entries.set(0, 0, Frac::whole(entry));
    Ok(entries)
}

/// The matrix of two rows and one column.
pub fn two_by_one(alloc: Global, upper: i64, lower: i64) -> Result<Matrix, NoMemory>
    ensures { IfOk result (λ m. m ≡ matrix 1 ((upper ∷ []) ∷ (lower ∷ []) ∷ [])) }
{
    let mut entries = Matrix::zero(alloc, 2, 1)?;
    entries.set(0, 0, Frac::whole(upper));
    entries.set(1, 0, Frac::whole(lower));
    Ok(entries)
}

/// The matrix of two rows and two columns, whose second column has 1 below.
pub fn two_by_two(
    alloc: Global,
    upper_left: i64,
    upper_right: i64,
    lower_left: i64,
) -> Result<Matrix, NoMemory>
    ensures { IfOk result (λ m. m ≡ matrix 2 ((upper_left ∷ upper_right ∷ []) ∷ (lower_left ∷ pos 1 ∷ []) ∷ [])) }
{
    let mut entries = Matrix::zero(alloc, 2, 2)?;
    entries.set(0, 0, Frac::whole(upper_left));
    entries.set(0, 1, Frac::whole(upper_right));
    entries.set(1, 0, Frac::whole(lower_left));
    entries.set(1, 1, Frac::whole(1));
    Ok(entries)
}
