//! The rows of a target: what is asked of the point behind one step, as rows on the point before it.

ghost use Rattle.std.specs.Prelude.{◌≡◌, ◌+◌, ◌<◌, ◌≤◌, All, IfOk, MatchResult, length, negsuc};
ghost use Rattle.mpc_exact.specs.Rational.{int};
ghost use Rattle.mpc_space.specs.Vector.{column, dot, later_entries, vec_scale};
ghost use Rattle.mpc_linear.specs.Dot.{DotFits};
ghost use Rattle.mpc_recur.specs.Forms.{low_row, high_row, substituted_sides, substituted, HighFits, SidesFit, SubstitutedFits};
ghost use Rattle.mpc_recur.specs.Stages.{IfTooWide};

use crate::answers::StageError;
use mpc_frac::{Frac, NoMemory, Wide};
use mpc_linear::{Vector, add_product, sum_theorems};
use mpc_rows::Row;
use mpc_systems::whole;
use std::alloc::Global;

/// The coefficients of an affine form on t.
fn sides(alloc: Global, form: &Vector) -> Result<Vector, NoMemory>
    requires { 1 ≤ length form.now }
    ensures { IfOk result (λ v. v ≡ later_entries form.now) }
{
    let mut sides = Vector::new(alloc);
    for term in 1..form.len() {
        sides.push(*form.at(term))?;
    }
    Ok(sides)
}

/// The negatives of these coefficients.
fn negative_sides(alloc: Global, form: &Vector) -> Result<Vector, NoMemory>
    requires { 1 ≤ length form.now }
    ensures { IfOk result (λ v. v ≡ vec_scale (int (negsuc 0)) (later_entries form.now)) }
{
    let mut sides = Vector::new(alloc);
    for term in 1..form.len() {
        sides.push(form.at(term).neg())?;
    }
    Ok(sides)
}

/// The row `e < 0` of the affine form e: the coordinate lies below the box.
pub fn low_row(alloc: Global, form: &Vector) -> Result<Row, NoMemory>
    requires { 1 ≤ length form.now }
    ensures { IfOk result (λ r. r ≡ low_row form.now) }
{
    let coefficients = sides(alloc, form)?;
    Ok(Row {
        a: coefficients,
        b: form.at(0).neg(),
        strict: true,
    })
}

/// The row `-e < -count` of the affine form e: the coordinate lies above the box.
pub fn high_row(alloc: Global, form: &Vector, count: u64) -> Result<Row, StageError>
    requires { 1 ≤ length form.now }
    ensures value { IfOk result (λ r. r ≡ high_row form.now count) }
    ensures wide { MatchResult result (λ _. HighFits form.now count) (IfTooWide (¬ HighFits form.now count)) }
{
    let Ok(bound) = form.at(0).sub(&whole(count as i128)) else {
        return Err(StageError::TooWide);
    };
    let coefficients = negative_sides(alloc, form)?;
    Ok(Row {
        a: coefficients,
        b: bound,
        strict: true,
    })
}

/// The dot of a row's coefficients with the forms' coefficients on the extended count of a term.
fn dot_with_forms(coefficients: &[Frac], forms: &[Vector], term: usize) -> Result<Frac, Wide>
    requires sizes { length coefficients.now ≡ length forms.now }
    requires column { All (λ form. term < length form) forms.now }
    ensures value { IfOk result (λ x. x ≡ dot coefficients.now (column forms.now term)) }
    ensures wide { MatchResult result (λ _. DotFits coefficients.now (column forms.now term)) (λ _. ¬ DotFits coefficients.now (column forms.now term)) }
{
    sum_theorems();
    let mut sum = Frac::whole(0);
    for k in 0..coefficients.len() {
        match add_product(&sum, &coefficients[k], forms[k].at(term)) {
            Ok(next) => sum = next,
            Err(wide) => return Err(wide),
        }
    }
    Ok(sum)
}

/// The row's coefficients on t, with the forms in place of the coordinates.
fn substituted_sides(
    alloc: Global,
    coefficients: &[Frac],
    forms: &[Vector],
) -> Result<Vector, StageError>
    requires sizes { length coefficients.now ≡ length forms.now }
    requires few { length forms.now ≤ 4 }
    requires affine { All (λ form. length form ≡ length forms.now + 1) forms.now }
    ensures value { IfOk result (λ v. v ≡ substituted_sides (length forms.now) forms.now coefficients.now) }
    ensures wide { MatchResult result (λ _. SidesFit (length forms.now) forms.now coefficients.now)
        (IfTooWide (¬ SidesFit (length forms.now) forms.now coefficients.now)) }
{
    let mut sides = Vector::new(alloc);
    for j in 0..forms.len() {
        match dot_with_forms(coefficients, forms, j + 1) {
            Ok(x) => sides.push(x)?,
            Err(_) => return Err(StageError::TooWide),
        }
    }
    Ok(sides)
}

/// The row with the forms, one a coordinate, in place of the coordinates.
pub fn substituted(alloc: Global, row: &Row, forms: &[Vector]) -> Result<Row, StageError>
    requires few { length forms.now ≤ 4 }
    requires sizes { length row.now.a ≡ length forms.now }
    requires affine { All (λ form. length form ≡ length forms.now + 1) forms.now }
    ensures value { IfOk result (λ r. r ≡ substituted (length forms.now) forms.now row.now) }
    ensures wide { MatchResult result (λ _. SubstitutedFits (length forms.now) forms.now row.now)
        (IfTooWide (¬ SubstitutedFits (length forms.now) forms.now row.now)) }
{
    let Ok(constant) = dot_with_forms(row.a.as_slice(), forms, 0) else {
        return Err(StageError::TooWide);
    };
    let Ok(bound) = row.b.sub(&constant) else {
        return Err(StageError::TooWide);
    };
    match substituted_sides(alloc, row.a.as_slice(), forms) {
        Ok(coefficients) => Ok(Row {
            a: coefficients,
            b: bound,
            strict: row.strict,
        }),
        Err(error) => Err(error),
    }
}
