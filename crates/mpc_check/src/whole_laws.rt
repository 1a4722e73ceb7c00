//! The test of a law's conditions in whole numbers: the program's over one denominator, and the law's over another. It gives up where a
//! number is too large for it, and says of a law only that its conditions are met.

ghost use Rattle.std.specs.Prelude.{◌≡◌, ◌+◌, ◌*◌, ◌^◌, ◌<◌, ◌≤◌, ◌↔◌, IfSome, IsTrue, length, pos, unsigned_abs, ◌*ℤ◌, slice_index};
ghost use Rattle.mpc_exact.specs.Rational.{frac};
ghost use Rattle.mpc_space.specs.Vector.{column};
ghost use Rattle.mpc_space.specs.Matrix.{height};
ghost use Rattle.mpc_wholes.specs.Wholes.{AreOver};
ghost use Rattle.mpc_rows.specs.ActiveSets.{rows_of};
ghost use Rattle.mpc_rows.specs.Laws.{HasLawShape};
ghost use Rattle.mpc_check.specs.Findings.{Each};
ghost use Rattle.mpc_check.specs.LawConditions.{gradient_at, GradientFits, StationaryMet, ActiveMet, LawMet};
ghost use Rattle.mpc_check.specs.WholeLaws.{IsSmallDenom, IsProgramOver, IsColumnOver, ColumnMet};

use crate::numbers::{LawColumn, WholeProgram};
use mpc_rows::{Law, Qp, law_theorems};
use mpc_wholes::{Wholes, column_over, common_of, dot_from, rows_over, short_product};
use std::alloc::Global;

/// The greatest size of the numbers, 2^61: thirteen products of two of them are below 2^126.
const MOST: u128 = 0x2000_0000_0000_0000;

// ---- the numbers

/// The denominator, where it is at most 2^61.
fn small_denominator(den: u128) -> Option<u128>
    requires { 0 < den }
    ensures value { IfSome result (λ d. d ≡ den) }
    ensures small { IfSome result IsSmallDenom }
{
    if den > MOST {
        return None;
    }
    Some(den)
}

/// The program in whole numbers, where they are small enough. `None` also where there is no memory.
pub fn whole_program(alloc: Global, qp: &Qp) -> Option<WholeProgram>
    ensures { IfSome result (IsProgramOver qp.now) }
{
    let of_costs = common_of(common_of(1, &qp.h)?, &qp.f)?;
    let of_all = common_of(common_of(of_costs, &qp.g)?, &qp.w)?;
    let den = small_denominator(of_all)?;
    let hessian = rows_over(alloc, &qp.h, den, MOST)?;
    let linear = rows_over(alloc, &qp.f, den, MOST)?;
    let rows = rows_over(alloc, &qp.g, den, MOST)?;
    let sides = rows_over(alloc, &qp.w, den, MOST)?;
    Some(WholeProgram {
        den,
        h: hessian,
        f: linear,
        g: rows,
        w: sides,
    })
}

/// A column of a law over this denominator, where its numbers are small enough.
fn law_column(qp: &Qp, law: &Law, at_column: u32, den: u128) -> Option<LawColumn>
    requires shape { HasLawShape qp.now law.now }
    requires column { at_column < length qp.now.counts + 1 }
    requires denom { IsSmallDenom den }
    ensures { IfSome result (IsColumnOver law.now at_column) }
{
    let moves = column_over(&law.moves, at_column, den, MOST)?;
    let mults = column_over(&law.mults, at_column, den, MOST)?;
    Some(LawColumn { den, moves, mults })
}

// ---- sums

/// The column of the members' rows for this line.
fn member_column(qp: &Qp, program: &WholeProgram, law: &Law, line: u32) -> Wholes
    requires program { IsProgramOver qp.now program.now }
    requires shape { HasLawShape qp.now law.now }
    requires line { line < height qp.now.h }
    ensures { AreOver (column (rows_of qp.now.g.rows law.now.set) line) program.now.den (2 ^ 61) result }
{
    law_theorems();
    let mut numerators = [0; 6];
    for place in 0..law.set.size() {
        let row = law.set.member(place + 1) - 1;
        numerators[place as usize] = program.g[row as usize].numerators[line as usize];
    }
    Wholes {
        numerators,
        den: program.den,
        most: MOST,
    }
}

/// The product of two of the numbers.
#[inline]
fn product(left: i128, right: u128) -> i128
    requires x_small { unsigned_abs left ≤ 2 ^ 61 }
    requires y_small { right ≤ 2 ^ 61 }
    ensures value { result ≡ left *ℤ pos right }
    ensures small { unsigned_abs result ≤ 2 ^ 122 }
{
    short_product(left, right as i128)
}

/// The numerator of the coefficient on an extended count in a line of `h z + f c + g'l`, over the product of the denominators.
fn gradient_over(
    qp: &Qp,
    program: &WholeProgram,
    law: &Law,
    column: &LawColumn,
    line: u32,
    at_column: u32,
) -> i128
    requires program { IsProgramOver qp.now program.now }
    requires shape { HasLawShape qp.now law.now }
    requires coefficients { IsColumnOver law.now at_column column.now }
    requires line { line < height qp.now.h }
    requires column { at_column < length qp.now.counts + 1 }
    ensures value { gradient_at qp.now law.now line at_column ≡ frac result (program.now.den * column.now.den) }
    ensures fits { GradientFits qp.now law.now line at_column }
{
    let start = product(
        program.f[line as usize].numerators[at_column as usize],
        column.den,
    );
    let count = qp.h.rows() as usize;
    let moved = dot_from(start, &program.h[line as usize], &column.moves, count);
    let members = member_column(qp, program, law, line);
    dot_from(moved, &members, &column.mults, law.set.size() as usize)
}

/// Whether the coefficient is seen to be 0.
fn is_stationary(
    qp: &Qp,
    program: &WholeProgram,
    law: &Law,
    column: &LawColumn,
    line: u32,
    at_column: u32,
) -> bool
    requires program { IsProgramOver qp.now program.now }
    requires shape { HasLawShape qp.now law.now }
    requires coefficients { IsColumnOver law.now at_column column.now }
    requires line { line < height qp.now.h }
    requires column { at_column < length qp.now.counts + 1 }
    ensures { IsTrue result → StationaryMet qp.now law.now line at_column }
{
    are_same(gradient_over(qp, program, law, column, line, at_column), 0)
}

/// Whether the numbers are equal.
fn are_same(left: i128, right: i128) -> bool
    ensures { IsTrue result ↔ (left ≡ right) }
{
    left == right
}

/// Whether the coefficient on an extended count in a member's row, counted from 1, is seen to hold with equality.
fn is_active(
    qp: &Qp,
    program: &WholeProgram,
    law: &Law,
    column: &LawColumn,
    member: u32,
    at_column: u32,
) -> bool
    requires program { IsProgramOver qp.now program.now }
    requires shape { HasLawShape qp.now law.now }
    requires coefficients { IsColumnOver law.now at_column column.now }
    requires from_one { 1 ≤ member }
    requires to_last { member ≤ height qp.now.g }
    requires column { at_column < length qp.now.counts + 1 }
    ensures { IsTrue result → ActiveMet qp.now law.now member at_column }
{
    let row = member as usize - 1;
    let side = product(program.w[row].numerators[at_column as usize], column.den);
    let total = dot_from(0, &program.g[row], &column.moves, qp.h.rows() as usize);
    are_same(total, side)
}

// ---- conditions

/// Whether the coefficients on an extended count are seen to be 0 in all lines.
fn are_stationary(
    qp: &Qp,
    program: &WholeProgram,
    law: &Law,
    column: &LawColumn,
    at_column: u32,
) -> bool
    requires program { IsProgramOver qp.now program.now }
    requires shape { HasLawShape qp.now law.now }
    requires coefficients { IsColumnOver law.now at_column column.now }
    requires column { at_column < length qp.now.counts + 1 }
    ensures { IsTrue result → Each (λ r. StationaryMet qp.now law.now r at_column) (height qp.now.h) }
{
    for line in 0..qp.h.rows() {
        if !is_stationary(qp, program, law, column, line, at_column) {
            return false;
        }
    }
    true
}

/// Whether those of all members' rows are seen to hold with equality.
fn are_active(
    qp: &Qp,
    program: &WholeProgram,
    law: &Law,
    column: &LawColumn,
    at_column: u32,
) -> bool
    requires program { IsProgramOver qp.now program.now }
    requires shape { HasLawShape qp.now law.now }
    requires coefficients { IsColumnOver law.now at_column column.now }
    requires column { at_column < length qp.now.counts + 1 }
    ensures { IsTrue result → Each (λ k. ActiveMet qp.now law.now (slice_index law.now.set k) at_column) (length law.now.set) }
{
    for place in 0..law.set.size() {
        if !is_active(
            qp,
            program,
            law,
            column,
            law.set.member(place + 1),
            at_column,
        ) {
            return false;
        }
    }
    true
}

/// Whether the conditions on the coefficients on an extended count are seen to be met.
fn is_column_met(qp: &Qp, program: &WholeProgram, law: &Law, at_column: u32, den: u128) -> bool
    requires program { IsProgramOver qp.now program.now }
    requires shape { HasLawShape qp.now law.now }
    requires column { at_column < length qp.now.counts + 1 }
    requires denom { IsSmallDenom den }
    ensures { IsTrue result → ColumnMet qp.now law.now at_column }
{
    let Some(column) = law_column(qp, law, at_column, den) else {
        return false;
    };
    if !are_stationary(qp, program, law, &column, at_column) {
        return false;
    }
    are_active(qp, program, law, &column, at_column)
}

/// A common multiple of a law's denominators, where it is at most 2^61.
fn law_denominator(law: &Law) -> Option<u128>
    ensures { IfSome result IsSmallDenom }
{
    let all = common_of(common_of(1, &law.moves)?, &law.mults)?;
    small_denominator(all)
}

/// Whether the conditions on a law are seen to be met.
pub fn is_met_in_wholes(qp: &Qp, program: &WholeProgram, law: &Law) -> bool
    requires program { IsProgramOver qp.now program.now }
    requires shape { HasLawShape qp.now law.now }
    ensures { IsTrue result → LawMet qp.now law.now }
{
    let Some(den) = law_denominator(law) else {
        return false;
    };
    for at_column in 0..qp.f.cols() {
        if !is_column_met(qp, program, law, at_column, den) {
            return false;
        }
    }
    true
}
