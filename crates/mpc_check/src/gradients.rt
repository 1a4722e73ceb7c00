//! The conditions on a law, in fractions: the gradient of its Lagrangian is 0, and its members' rows hold with equality, at every state.

ghost use Rattle.std.specs.Prelude.{◌≡◌, [], ◌+◌, ◌-◌, ◌<◌, ◌≤◌, ◌↔◌, IfOk, IsTrue, MatchResult, length, slice_index_or};
ghost use Rattle.mpc_exact.specs.Rational.{◌+ℚ◌};
ghost use Rattle.mpc_space.specs.Vector.{column, dot};
ghost use Rattle.mpc_space.specs.Matrix.{height};
ghost use Rattle.mpc_linear.specs.Dot.{SumFits};
ghost use Rattle.mpc_rows.specs.ActiveSets.{rows_of};
ghost use Rattle.mpc_rows.specs.Laws.{HasLawShape};
ghost use Rattle.mpc_check.specs.Findings.{IsSearched};
ghost use Rattle.mpc_check.specs.LawConditions.{gradient_at, GradientFits, StationaryMet, StationaryFinds, LineMet, LineFinds, LinesMet, LinesFind, ActiveMet, ActiveFinds, RowMet, RowFinds, MembersMet, MembersFind, LawMet, LawFinds};

use crate::answers::{CheckError, Spot};
use mpc_frac::{Frac, Wide};
use mpc_linear::{Matrix, add_product, sum_theorems};
use mpc_rows::{Law, Place, Qp, law_theorems};

/// `start` plus the products of a row of the matrix with a column of the moves.
fn add_moves(
    start: &Frac,
    matrix: &Matrix,
    at_row: u32,
    moves: &Matrix,
    at_column: u32,
) -> Result<Frac, Wide>
    requires row { at_row < height matrix.now }
    requires size { matrix.now.columns ≡ height moves.now }
    requires column { at_column < moves.now.columns }
    ensures value { IfOk result (λ v. v ≡ start.now +ℚ dot (slice_index_or matrix.now.rows at_row []) (column moves.now.rows at_column)) }
    ensures wide { MatchResult result (λ _. SumFits start.now (slice_index_or matrix.now.rows at_row []) (column moves.now.rows at_column))
        (λ _. ¬ SumFits start.now (slice_index_or matrix.now.rows at_row []) (column moves.now.rows at_column)) }
{
    sum_theorems();
    let mut sum = *start;
    for place in 0..matrix.cols() {
        match add_product(
            &sum,
            &matrix.get(at_row, place),
            &moves.get(place, at_column),
        ) {
            Ok(next) => sum = next,
            Err(wide) => return Err(wide),
        }
    }
    Ok(sum)
}

/// `start` plus the products of the column of the members' rows for this line with a column of the multipliers.
fn add_mults(start: &Frac, qp: &Qp, law: &Law, line: u32, at_column: u32) -> Result<Frac, Wide>
    requires shape { HasLawShape qp.now law.now }
    requires line { line < height qp.now.h }
    requires column { at_column < length qp.now.counts + 1 }
    ensures value { IfOk result (λ v. v ≡ start.now +ℚ dot (column (rows_of qp.now.g.rows law.now.set) line) (column law.now.mults.rows at_column)) }
    ensures wide { MatchResult result (λ _. SumFits start.now (column (rows_of qp.now.g.rows law.now.set) line) (column law.now.mults.rows at_column))
        (λ _. ¬ SumFits start.now (column (rows_of qp.now.g.rows law.now.set) line) (column law.now.mults.rows at_column)) }
{
    sum_theorems();
    law_theorems();
    let mut sum = *start;
    for place in 0..law.set.size() {
        let row = law.set.member(place + 1) - 1;
        match add_product(&sum, &qp.g.get(row, line), &law.mults.get(place, at_column)) {
            Ok(next) => sum = next,
            Err(wide) => return Err(wide),
        }
    }
    Ok(sum)
}

/// The coefficient on an extended count in a line of `h z + f c + g'l`, both counted from 0.
fn gradient(qp: &Qp, law: &Law, line: u32, at_column: u32) -> Result<Frac, Wide>
    requires shape { HasLawShape qp.now law.now }
    requires line { line < height qp.now.h }
    requires column { at_column < length qp.now.counts + 1 }
    ensures value { IfOk result (λ v. v ≡ gradient_at qp.now law.now line at_column) }
    ensures wide { MatchResult result (λ _. GradientFits qp.now law.now line at_column) (λ _. ¬ GradientFits qp.now law.now line at_column) }
{
    let moved = add_moves(
        &qp.f.get(line, at_column),
        &qp.h,
        line,
        &law.moves,
        at_column,
    )?;
    add_mults(&moved, qp, law, line, at_column)
}

/// What is found of one coefficient of the gradient.
fn search_coefficient(
    qp: &Qp,
    number: u32,
    law: &Law,
    line: u32,
    at_column: u32,
) -> Result<Option<Spot>, CheckError>
    requires shape { HasLawShape qp.now law.now }
    requires line { line < height qp.now.h }
    requires column { at_column < length qp.now.counts + 1 }
    ensures { IsSearched (StationaryMet qp.now law.now line at_column) (StationaryFinds qp.now number law.now line at_column) result }
{
    let Ok(sum) = gradient(qp, law, line, at_column) else {
        return Err(CheckError::TooWide(Place::CheckLaw(number)));
    };
    if sum.is_zero() {
        return Ok(None);
    }
    Ok(Some(Spot::Stationary {
        law: number,
        line: line + 1,
    }))
}

/// What is found of a line of the gradient, coefficient by coefficient.
fn search_line(qp: &Qp, number: u32, law: &Law, line: u32) -> Result<Option<Spot>, CheckError>
    requires shape { HasLawShape qp.now law.now }
    requires line { line < height qp.now.h }
    ensures { IsSearched (LineMet qp.now law.now line) (LineFinds qp.now number law.now line) result }
{
    for at_column in 0..qp.f.cols() {
        match search_coefficient(qp, number, law, line, at_column) {
            Ok(None) => {}
            found => return found,
        }
    }
    Ok(None)
}

/// What is found of the gradient, line by line.
fn search_lines(qp: &Qp, number: u32, law: &Law) -> Result<Option<Spot>, CheckError>
    requires { HasLawShape qp.now law.now }
    ensures { IsSearched (LinesMet qp.now law.now) (LinesFind qp.now number law.now) result }
{
    for line in 0..qp.h.rows() {
        match search_line(qp, number, law, line) {
            Ok(None) => {}
            found => return found,
        }
    }
    Ok(None)
}

/// Whether the two numbers are equal.
fn are_equal(left: &Frac, right: &Frac) -> bool
    ensures { IsTrue result ↔ (left.now ≡ right.now) }
{
    *left == *right
}

/// What is found of one coefficient of a member's row, counted from 1, which is to hold with equality.
fn search_equality(
    qp: &Qp,
    number: u32,
    law: &Law,
    member: u32,
    at_column: u32,
) -> Result<Option<Spot>, CheckError>
    requires shape { HasLawShape qp.now law.now }
    requires from_one { 1 ≤ member }
    requires to_last { member ≤ height qp.now.g }
    requires column { at_column < length qp.now.counts + 1 }
    ensures { IsSearched (ActiveMet qp.now law.now member at_column) (ActiveFinds qp.now number law.now member at_column) result }
{
    let Ok(value) = add_moves(&Frac::whole(0), &qp.g, member - 1, &law.moves, at_column) else {
        return Err(CheckError::TooWide(Place::CheckLaw(number)));
    };
    if are_equal(&value, &qp.w.get(member - 1, at_column)) {
        return Ok(None);
    }
    Ok(Some(Spot::Active {
        law: number,
        row: member,
    }))
}

/// What is found of a member's row, coefficient by coefficient.
fn search_row(qp: &Qp, number: u32, law: &Law, member: u32) -> Result<Option<Spot>, CheckError>
    requires shape { HasLawShape qp.now law.now }
    requires from_one { 1 ≤ member }
    requires to_last { member ≤ height qp.now.g }
    ensures { IsSearched (RowMet qp.now law.now member) (RowFinds qp.now number law.now member) result }
{
    for at_column in 0..qp.w.cols() {
        match search_equality(qp, number, law, member, at_column) {
            Ok(None) => {}
            found => return found,
        }
    }
    Ok(None)
}

/// What is found of the members' rows, in rising order.
fn search_members(qp: &Qp, number: u32, law: &Law) -> Result<Option<Spot>, CheckError>
    requires { HasLawShape qp.now law.now }
    ensures { IsSearched (MembersMet qp.now law.now) (MembersFind qp.now number law.now) result }
{
    for place in 0..law.set.size() {
        match search_row(qp, number, law, law.set.member(place + 1)) {
            Ok(None) => {}
            found => return found,
        }
    }
    Ok(None)
}

/// What is found of a law with this number, line by line and then member by member.
pub fn search_in_fractions(qp: &Qp, number: u32, law: &Law) -> Result<Option<Spot>, CheckError>
    requires { HasLawShape qp.now law.now }
    ensures { IsSearched (LawMet qp.now law.now) (LawFinds qp.now number law.now) result }
{
    match search_lines(qp, number, law) {
        Ok(None) => search_members(qp, number, law),
        found => found,
    }
}
