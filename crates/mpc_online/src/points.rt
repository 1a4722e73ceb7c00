//! Points, in whole numbers where these are small.

ghost use Rattle.std.specs.Prelude.{◌≡◌, ◌<◌, ◌≤◌, IfOk, MatchResult, get_or, length, pos};
ghost use Rattle.mpc_exact.specs.Rational.{frac};
ghost use Rattle.mpc_space.specs.Vector.{dot};
ghost use Rattle.mpc_linear.specs.Dot.{DotFits};
ghost use Rattle.mpc_online.specs.Wholes.{first_of, entries_of};

use crate::solutions::dot_of;
use mpc_frac::{Frac, Wide, fit_theorems};
use mpc_linear::{add_product, sum_theorems};
use mpc_wholes::{Wholes, over_one_denominator};
use std::alloc::{AllocError, Global};

/// A point: so many numerators over one denominator, or its fractions.
#[derive(Drop)]
pub enum Point {
    Whole(Wholes, usize),
    Apart(Vec<Frac>),
}

/// The point with these entries: in whole numbers, where these are small.
pub fn point_of(entries: Vec<Frac>) -> Point
    requires { length entries.items ≤ 6 }
    ensures { entries_of result ≡ entries.items }
{
    match over_one_denominator(&entries) {
        Some(numbers) => Point::Whole(numbers, entries.len()),
        None => Point::Apart(entries),
    }
}

/// The entry in place k as a fraction.
fn entry(numbers: &Wholes, place: usize) -> Frac
    requires { place < 6 }
    ensures { result ≡ frac (get_or numbers.now.numerators place (pos 0)) numbers.now.den }
{
    fit_theorems();
    let numerator = numbers.numerators[place];
    let below = numbers.den as i128;
    Frac::new(numerator, below).unwrap()
}

/// The first entries as fractions.
fn entries(alloc: Global, numbers: &Wholes, count: usize) -> Result<Vec<Frac>, AllocError>
    requires { count ≤ 6 }
    ensures { IfOk result (λ v. v.items ≡ first_of numbers.now count) }
{
    let mut out = Vec::with_capacity(alloc, count)?;
    for place in 0..count {
        out.push(entry(numbers, place))?;
    }
    Ok(out)
}

/// The entries of a point as fractions.
pub fn fractions(alloc: Global, point: Point) -> Result<Vec<Frac>, AllocError>
    requires { length (entries_of point) ≤ 6 }
    ensures { IfOk result (λ v. v.items ≡ entries_of point) }
{
    match point {
        Point::Whole(numbers, count) => entries(alloc, &numbers, count),
        Point::Apart(fractions) => Ok(fractions),
    }
}

/// The dot of a row and numbers over one denominator, as `dot_of` makes it.
fn dot_of_entries(row: &[Frac], numbers: &Wholes, count: usize) -> Result<Frac, Wide>
    requires few { count ≤ 6 }
    requires size { length row.now ≡ count }
    ensures value { IfOk result (λ v. v ≡ dot row.now (first_of numbers.now count)) }
    ensures wide { MatchResult result (λ _. DotFits row.now (first_of numbers.now count))
        (λ _. ¬ DotFits row.now (first_of numbers.now count)) }
{
    sum_theorems();
    let mut sum = Frac::whole(0);
    for place in 0..row.len() {
        match add_product(&sum, &row[place], &entry(numbers, place)) {
            Ok(next) => sum = next,
            Err(wide) => return Err(wide),
        }
    }
    Ok(sum)
}

/// The dot of a row and a point, in fractions.
pub fn point_dot(row: &[Frac], point: &Point) -> Result<Frac, Wide>
    requires few { length row.now ≤ 6 }
    requires size { length row.now ≡ length (entries_of point.now) }
    ensures value { IfOk result (λ v. v ≡ dot row.now (entries_of point.now)) }
    ensures wide { MatchResult result (λ _. DotFits row.now (entries_of point.now)) (λ _. ¬ DotFits row.now (entries_of point.now)) }
{
    match point {
        Point::Whole(numbers, count) => dot_of_entries(row, numbers, *count),
        Point::Apart(fractions) => dot_of(row, fractions),
    }
}
