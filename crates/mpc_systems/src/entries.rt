//! The coefficients of rows, one behind the other.

ghost use Rattle.std.specs.Prelude.{◌≡◌, ◌++◌, cond, nat_lt, negsuc, pos, IfOk, OnOk, length, map, take};
ghost use Rattle.mpc_exact.specs.Rational.{int};
ghost use Rattle.mpc_space.specs.Vector.{vec_scale, zeros};
ghost use Rattle.mpc_linear.specs.Whole.{AreSmall};
ghost use Rattle.mpc_rows.specs.SetRuns.{axis};

use crate::numbers::whole;
use mpc_frac::{Frac, NoMemory};
use mpc_linear::Vector;
use std::alloc::Global;

/// Appends the entries. Without memory some of them stand there.
pub fn push_entries(out: &mut Vector, entries: &[Frac]) -> Result<(), NoMemory>
    ensures entries { OnOk result (out.new ≡ out.old ++ entries.now) }
    ensures kept { take (length out.old) out.new ≡ out.old }
{
    for x in entries {
        out.push(*x)?;
    }
    Ok(())
}

/// Appends the negatives of the entries. Without memory some of them stand there.
pub fn push_negatives(out: &mut Vector, entries: &[Frac]) -> Result<(), NoMemory>
    ensures entries { OnOk result (out.new ≡ out.old ++ vec_scale (int (negsuc 0)) entries.now) }
    ensures kept { take (length out.old) out.new ≡ out.old }
{
    for x in entries {
        out.push(x.neg())?;
    }
    Ok(())
}

/// Appends the numbers as fractions. Without memory some of them stand there.
pub fn push_wholes(out: &mut Vector, numbers: &[i128]) -> Result<(), NoMemory>
    requires { AreSmall numbers.now }
    ensures entries { OnOk result (out.new ≡ out.old ++ map int numbers.now) }
    ensures kept { take (length out.old) out.new ≡ out.old }
{
    for z in numbers {
        out.push(whole(*z))?;
    }
    Ok(())
}

/// Appends the negatives of the numbers as fractions. Without memory some of them stand there.
pub fn push_negated_wholes(out: &mut Vector, numbers: &[i128]) -> Result<(), NoMemory>
    requires { AreSmall numbers.now }
    ensures entries { OnOk result (out.new ≡ out.old ++ vec_scale (int (negsuc 0)) (map int numbers.now)) }
    ensures kept { take (length out.old) out.new ≡ out.old }
{
    for z in numbers {
        out.push(whole(*z).neg())?;
    }
    Ok(())
}

/// Appends as many zeros. Without memory some of them stand there.
pub fn push_zeros(out: &mut Vector, count: u32) -> Result<(), NoMemory>
    ensures entries { OnOk result (out.new ≡ out.old ++ zeros count) }
    ensures kept { take (length out.old) out.new ≡ out.old }
{
    for _k in 0..count {
        out.push(Frac::whole(0))?;
    }
    Ok(())
}

/// The entry at the place of the vector that is 0 but for the entry of the coordinate.
fn axis_entry(coordinate: usize, place: usize, value: &Frac) -> Frac
    ensures { result ≡ cond (nat_lt coordinate place) (int (pos 0)) (cond (nat_lt place coordinate) (int (pos 0)) value.now) }
{
    if coordinate < place || place < coordinate {
        Frac::whole(0)
    } else {
        *value
    }
}

/// The vector of so many entries that is 0 but for the entry of the coordinate.
pub fn axis(
    alloc: Global,
    width: usize,
    coordinate: usize,
    value: &Frac,
) -> Result<Vector, NoMemory>
    ensures { IfOk result (λ coefficients. coefficients ≡ axis width coordinate value.now) }
{
    let mut coefficients = Vector::with_capacity(alloc, width)?;
    for place in 0..width {
        coefficients.push(axis_entry(coordinate, place, value))?;
    }
    Ok(coefficients)
}
