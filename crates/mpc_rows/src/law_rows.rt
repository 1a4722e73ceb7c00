//! The rows of a law.

ghost use Rattle.std.specs.Prelude.{◌≡◌, List, false, ◌<◌, ◌≤◌, ◌↔◌, ◌++◌, ◌∷◌, IfOk, MatchResult, length, unsigned_abs, ◌^◌};
ghost use Rattle.mpc_exact.specs.Rational.{ℚ};
ghost use Rattle.mpc_space.specs.Vector.{coordinate};
ghost use Rattle.mpc_space.specs.Matrix.{height};
ghost use Rattle.mpc_linear.specs.Answers.{IfWide};
ghost use Rattle.mpc_linear.specs.Whole.{AreSmall};
ghost use Rattle.mpc_rows.specs.LinearSystem.{MeetsRow};
ghost use Rattle.mpc_rows.specs.Laws.{HasLawShape};
ghost use Rattle.mpc_rows.specs.LawRows.{is_member, IsPlaceAmong, MeetsCondition, excess_form, law_form, law_sides, IsLawRow, CoefficientFits, SidesFit, LawRowFits, whole_row};

use crate::{Law, Qp};
use mpc_frac::{Frac, Wide};
use mpc_linear::{LinearError, RowInt, Vector, add_product, primitive, sum_theorems};
use mpc_sets::ActiveSet;
use std::alloc::Global;

/// The place of the row among the members, from 0, if it is one.
pub fn place_among(set: ActiveSet, row: u32) -> Option<u32>
    ensures { IsPlaceAmong set row result }
{
    for k in 0..set.size() {
        if set.member(k + 1) == row {
            return Some(k);
        }
    }
    None
}

/// The coefficient of `g z(t) - w c`, at this row of the program, on the extended count of the column.
fn excess_at(qp: &Qp, law: &Law, row: u32, column: u32) -> Result<Frac, Wide>
    requires from_one { 1 ≤ row }
    requires to_last { row ≤ height qp.now.g }
    requires shape { HasLawShape qp.now law.now }
    requires column { column < law.now.moves.columns }
    requires outside { is_member row law.now.set ≡ false }
    ensures value { IfOk result (λ x. x ≡ coordinate (excess_form qp.now law.now row) column) }
    ensures wide { MatchResult result (λ _. CoefficientFits qp.now law.now row column)
        (λ _. ¬ CoefficientFits qp.now law.now row column) }
{
    sum_theorems();
    let mut sum = qp.w.get(row - 1, column).neg();
    for k in 0..qp.g.cols() {
        match add_product(&sum, &qp.g.get(row - 1, k), &law.moves.get(k, column)) {
            Ok(next) => sum = next,
            Err(wide) => return Err(wide),
        }
    }
    Ok(sum)
}

/// The coefficient, on the extended count of the column, of the form that is at most 0 where the law's row holds.
fn form_at(qp: &Qp, law: &Law, row: u32, place: Option<u32>, column: u32) -> Result<Frac, Wide>
    requires from_one { 1 ≤ row }
    requires to_last { row ≤ height qp.now.g }
    requires shape { HasLawShape qp.now law.now }
    requires column { column < law.now.moves.columns }
    requires place { IsPlaceAmong law.now.set row place }
    ensures value { IfOk result (λ x. x ≡ coordinate (law_form qp.now law.now row) column) }
    ensures wide { MatchResult result (λ _. CoefficientFits qp.now law.now row column)
        (λ _. ¬ CoefficientFits qp.now law.now row column) }
{
    match place {
        Some(k) => Ok(law.mults.get(k, column).neg()),
        None => excess_at(qp, law, row, column),
    }
}

/// The coefficients of that form on t.
fn sides(
    alloc: Global,
    qp: &Qp,
    law: &Law,
    row: u32,
    place: Option<u32>,
) -> Result<Vector, LinearError>
    requires from_one { 1 ≤ row }
    requires to_last { row ≤ height qp.now.g }
    requires shape { HasLawShape qp.now law.now }
    requires place { IsPlaceAmong law.now.set row place }
    ensures value { IfOk result (λ v. v ≡ law_sides qp.now law.now row) }
    ensures wide { MatchResult result (λ _. SidesFit qp.now law.now row)
        (λ e. IfWide e (λ step. (step ≡ 0) × (¬ SidesFit qp.now law.now row))) }
{
    let mut sides = Vector::new(alloc);
    for column in 1..law.moves.cols() {
        match form_at(qp, law, row, place, column) {
            Ok(x) => sides.push(x)?,
            Err(_) => return Err(LinearError::Wide(0)),
        }
    }
    Ok(sides)
}

/// A row of a law, counted from 1, as a row in t: for a row of the program outside the law's set
/// that the law's unknowns satisfy it, for a member that its multiplier isn't negative (Bemporad,
/// Morari, Dua and Pistikopoulos, 2002). The row is in whole numbers without a common divisor.
///
/// `Wide(0)` where a number of the sums that form a coefficient doesn't fit, or one of those that
/// bring the row to whole numbers.
pub fn law_row(alloc: Global, qp: &Qp, law: &Law, row: u32) -> Result<RowInt, LinearError>
    requires from_one { 1 ≤ row }
    requires to_last { row ≤ height qp.now.g }
    requires shape { HasLawShape qp.now law.now }
    ensures row { IfOk result (λ r. IsLawRow qp.now law.now row r) }
    ensures size { IfOk result (λ r. length r.a ≡ length qp.now.counts) }
    ensures small { IfOk result (λ r. AreSmall r.a) }
    ensures b_small { IfOk result (λ r. unsigned_abs r.b < 2 ^ 127) }
    ensures points { IfOk result
        (λ r. (t : List ℚ) → length t ≡ length qp.now.counts → MeetsRow t (whole_row r) ↔ MeetsCondition qp.now law.now row t) }
    ensures wide { MatchResult result (λ _. LawRowFits qp.now law.now row)
        (λ e. IfWide e (λ step. (step ≡ 0) × (¬ LawRowFits qp.now law.now row))) }
{
    let place = place_among(law.set, row);
    let Ok(constant) = form_at(qp, law, row, place, 0) else {
        return Err(LinearError::Wide(0));
    };
    let sides = sides(alloc, qp, law, row, place)?;
    primitive(alloc, &sides, &constant.neg())
}
