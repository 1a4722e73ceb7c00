//! Whether the stated operations of a pivot fit, row by row, where the greatest sizes of the columns don't show it.

ghost use Rattle.std.specs.Prelude.{◌≡◌, ◌≢◌, ℕ, pos, ◌+◌, ◌*◌, ◌<◌, ◌*ℤ◌, ◌⊎◌, IfSome, length, true};
ghost use Rattle.mpc_exact.specs.Rational.{frac, int};
ghost use Rattle.mpc_rows.specs.LinearSystem.{height};
ghost use Rattle.mpc_runs.specs.declared.variables.Seat.TheVariants.{Column};
ghost use Rattle.mpc_runs.specs.Table.{seat_at, in_row};
ghost use Rattle.mpc_scaled.specs.Scaled.{whole_at, IsSmall};
ghost use Rattle.mpc_whole.specs.Running.{HasNumbers};
ghost use Rattle.mpc_whole.specs.Judged.{HasSizes, row_cell, coefficient_of, IsPlaced, IsPivotThere, IsRowBelow, IsTermStated, IsRowStated, IsJudgedByRows, IsPivotJudged};

use crate::frames::JudgedFrame;
use crate::judge::{Factors, Here, ROOM, factor_at, judge, judge_end};
use mpc_frac::Frac;
use mpc_quotients::{positive, wide_product, wide_side_cell};
use mpc_runs::{column_of, is_basic};
use mpc_scaled::WholeSystem;

/// A pivot: the row of a variable leaves, over a rest of the denominator, and another enters.
#[derive(Clone, Copy, Drop)]
pub(crate) struct StatedPivot<'a> {
    pub row: &'a [i128],
    pub rest: u128,
    pub leaving: usize,
    pub entering: usize,
}

/// The coefficient of a number, with the scales of its column and of its row, if it has 128 bits.
fn coefficient(number: i128, scale: u64, den: u128, own: u64) -> Option<Frac>
    requires some { 0 < den }
    requires own { 0 < own }
    ensures { IfSome result (λ value. value ≡ frac (number *ℤ pos scale) (den * own)) }
{
    let factor = positive(scale as u128)?;
    let up = wide_product(number, factor)?;
    let down = den.checked_mul(own as u128)?;
    let over = positive(down)?;
    match Frac::new(up, over) {
        Ok(value) => Some(value),
        Err(_) => None,
    }
}

/// The number in a column of the row of a variable.
fn row_cell(
    system: &WholeSystem,
    entries: &[i64],
    numbers: &[i128],
    row_variable: usize,
    column: usize,
) -> Option<i128>
    requires below { row_variable < system.now.width + height system.now }
    requires entries { length entries.now ≡ height system.now * system.now.width }
    requires square { length numbers.now ≡ system.now.width * system.now.width }
    requires column { column < system.now.width }
    ensures { IfSome result (λ z. z ≡ row_cell system.now entries.now numbers.now row_variable column) }
{
    let width = system.unknowns();
    if row_variable < width {
        return Some(numbers[row_variable * width + column]);
    }
    wide_side_cell(entries, row_variable - width, numbers, width, column)
}

/// If the sizes of the numbers in the row of a variable show that no operation on it is wide.
fn is_row_below(
    here: &Here,
    system: &WholeSystem,
    frame: &JudgedFrame,
    by: Factors,
    row_variable: usize,
) -> Option<()>
    requires numbers { HasNumbers system.now frame.now.count frame.now.scales.now frame.now.a.now frame.now.b.now }
    requires here { IsPlaced system.now frame.now.count here.now.seats.now here.now.nonbasic.now here.now.den here.now.numbers.now }
    requires below { row_variable < frame.now.count }
    ensures { IfSome result (λ _. IsRowBelow system.now frame.now.count here.now.seats.now frame.now.scales.now frame.now.a.now here.now.den here.now.numbers.now by.enters by.top by.size row_variable) }
{
    let scaled = here.den.checked_mul(frame.scales[row_variable] as u128)?;
    let room = scaled.checked_mul(by.size)?;
    if room > ROOM {
        return None;
    }
    for column in 0..system.unknowns() {
        let column_variable = here.nonbasic[column];
        let cell = row_cell(system, frame.a, here.numbers, row_variable, column)?;
        let number = cell
            .unsigned_abs()
            .checked_mul(frame.scales[column_variable] as u128)?;
        let product = number.checked_mul(factor_at(by, column_variable))?;
        if product > ROOM {
            return None;
        }
    }
    Some(())
}

/// If the stated operations fit by which a row with this factor changes a coefficient, where the number is the one of
/// the row that leaves.
fn is_term_stated(old: &Frac, factor: &Frac, number: &Frac, pivot: &Frac) -> Option<()>
    requires { pivot.now ≢ int (pos 0) }
    ensures { IfSome result (λ _. IsTermStated old.now factor.now number.now pivot.now) }
{
    let Ok(quotient) = number.neg().div(pivot) else {
        return None;
    };
    let Ok(change) = factor.mul(&quotient) else {
        return None;
    };
    match old.add(&change) {
        Ok(_) => Some(()),
        Err(_) => None,
    }
}

/// If the stated operations on the row of a variable fit, in all columns but that of the variable that enters. The
/// factor is its coefficient there, and the pivot that of the row that leaves.
fn are_terms_stated(
    here: &Here,
    system: &WholeSystem,
    frame: &JudgedFrame,
    by: &StatedPivot,
    row_variable: usize,
    factor: &Frac,
    pivot: &Frac,
) -> Option<()>
    requires numbers { HasNumbers system.now frame.now.count frame.now.scales.now frame.now.a.now frame.now.b.now }
    requires here { IsPlaced system.now frame.now.count here.now.seats.now here.now.nonbasic.now here.now.den here.now.numbers.now }
    requires by { IsPivotThere system.now frame.now.count here.now.seats.now by.now.leaving by.now.entering by.now.rest by.now.row.now }
    requires below { row_variable < frame.now.count }
    requires pivot { pivot.now ≢ int (pos 0) }
    ensures { IfSome result (λ _. (column_variable d : ℕ) → column_variable < frame.now.count → (column_variable ≡ by.now.entering → ⊥) → seat_at here.now.seats.now column_variable ≡ Column d
        → IsTermStated (coefficient_of frame.now.scales.now here.now.den row_variable column_variable (row_cell system.now frame.now.a.now here.now.numbers.now row_variable d)) factor.now (coefficient_of frame.now.scales.now by.now.rest by.now.leaving column_variable (whole_at by.now.row.now d)) pivot.now) }
{
    for column in 0..system.unknowns() {
        let column_variable = here.nonbasic[column];
        if column_variable == by.entering {
            continue;
        }
        let cell = row_cell(system, frame.a, here.numbers, row_variable, column)?;
        let old = coefficient(
            cell,
            frame.scales[column_variable],
            here.den,
            frame.scales[row_variable],
        )?;
        let number = coefficient(
            by.row[column],
            frame.scales[column_variable],
            by.rest,
            frame.scales[by.leaving],
        )?;
        is_term_stated(&old, factor, &number, pivot)?;
    }
    Some(())
}

/// If the stated operations on the row of a variable fit, where the row with this pivot leaves.
fn is_row_stated(
    here: &Here,
    system: &WholeSystem,
    frame: &JudgedFrame,
    by: &StatedPivot,
    row_variable: usize,
    pivot: &Frac,
) -> Option<()>
    requires numbers { HasNumbers system.now frame.now.count frame.now.scales.now frame.now.a.now frame.now.b.now }
    requires here { IsPlaced system.now frame.now.count here.now.seats.now here.now.nonbasic.now here.now.den here.now.numbers.now }
    requires by { IsPivotThere system.now frame.now.count here.now.seats.now by.now.leaving by.now.entering by.now.rest by.now.row.now }
    requires below { row_variable < frame.now.count }
    requires pivot_some { pivot.now ≢ int (pos 0) }
    requires pivot { (column : ℕ) → seat_at here.now.seats.now by.now.entering ≡ Column column → pivot.now ≡ coefficient_of frame.now.scales.now by.now.rest by.now.leaving by.now.entering (whole_at by.now.row.now column) }
    ensures { IfSome result (λ _. IsRowStated system.now frame.now.count here.now.seats.now frame.now.scales.now frame.now.a.now here.now.den here.now.numbers.now by.now.leaving by.now.entering by.now.rest by.now.row.now row_variable) }
{
    let column = column_of(here.seats, by.entering);
    let cell = row_cell(system, frame.a, here.numbers, row_variable, column)?;
    let factor = coefficient(
        cell,
        frame.scales[by.entering],
        here.den,
        frame.scales[row_variable],
    )?;
    let Ok(_) = factor.div(pivot) else {
        return None;
    };
    are_terms_stated(here, system, frame, by, row_variable, &factor, pivot)
}

/// If each row is judged in one of these ways.
fn are_rows_judged(
    here: &Here,
    system: &WholeSystem,
    frame: &JudgedFrame,
    factors: Factors,
    by: &StatedPivot,
    pivot: &Frac,
) -> Option<()>
    requires numbers { HasNumbers system.now frame.now.count frame.now.scales.now frame.now.a.now frame.now.b.now }
    requires here { IsPlaced system.now frame.now.count here.now.seats.now here.now.nonbasic.now here.now.den here.now.numbers.now }
    requires by { IsPivotThere system.now frame.now.count here.now.seats.now by.now.leaving by.now.entering by.now.rest by.now.row.now }
    requires pivot_some { pivot.now ≢ int (pos 0) }
    requires pivot { (column : ℕ) → seat_at here.now.seats.now by.now.entering ≡ Column column → pivot.now ≡ coefficient_of frame.now.scales.now by.now.rest by.now.leaving by.now.entering (whole_at by.now.row.now column) }
    ensures { IfSome result (λ _. (row_variable : ℕ) → row_variable < frame.now.count → in_row (seat_at here.now.seats.now row_variable) ≡ true
        → IsRowBelow system.now frame.now.count here.now.seats.now frame.now.scales.now frame.now.a.now here.now.den here.now.numbers.now factors.enters factors.top factors.size row_variable
        ⊎ IsRowStated system.now frame.now.count here.now.seats.now frame.now.scales.now frame.now.a.now here.now.den here.now.numbers.now by.now.leaving by.now.entering by.now.rest by.now.row.now row_variable) }
{
    for row_variable in 0..frame.count {
        if !is_basic(here.seats, row_variable) {
            continue;
        }
        match is_row_below(here, system, frame, factors, row_variable) {
            Some(()) => {}
            None => is_row_stated(here, system, frame, by, row_variable, pivot)?,
        }
    }
    Some(())
}

/// If no operation at a position is wide where this pivot is made, as each row shows by itself.
fn judge_rows(
    here: &Here,
    system: &WholeSystem,
    frame: &JudgedFrame,
    factors: Factors,
    by: &StatedPivot,
) -> Option<()>
    requires numbers { HasNumbers system.now frame.now.count frame.now.scales.now frame.now.a.now frame.now.b.now }
    requires here { IsPlaced system.now frame.now.count here.now.seats.now here.now.nonbasic.now here.now.den here.now.numbers.now }
    requires by { IsPivotThere system.now frame.now.count here.now.seats.now by.now.leaving by.now.entering by.now.rest by.now.row.now }
    requires sizes { HasSizes system.now.width frame.now.scales.now frame.now.a.now frame.now.b.now frame.now.norm frame.now.most_scale frame.now.most_side }
    requires own { IsSmall here.now.own here.now.numbers.now }
    requires same { factors.enters ≡ by.now.entering }
    ensures { IfSome result (λ _. IsJudgedByRows system.now frame.now.count here.now.seats.now frame.now.scales.now frame.now.a.now frame.now.b.now here.now.den here.now.numbers.now by.now.leaving by.now.entering by.now.rest by.now.row.now factors.top factors.size) }
{
    judge_end(here, system, frame)?;
    let column = column_of(here.seats, by.entering);
    let pivot = coefficient(
        by.row[column],
        frame.scales[by.entering],
        by.rest,
        frame.scales[by.leaving],
    )?;
    if pivot.is_zero() {
        return None;
    }
    are_rows_judged(here, system, frame, factors, by, &pivot)
}

/// If no operation at a position is wide where this pivot is made: mostly the greatest sizes of the columns show it,
/// and where they don't, each row is judged by itself.
pub(crate) fn judge_pivot(
    here: &Here,
    system: &WholeSystem,
    frame: &JudgedFrame,
    factors: Factors,
    by: &StatedPivot,
) -> Option<()>
    requires numbers { HasNumbers system.now frame.now.count frame.now.scales.now frame.now.a.now frame.now.b.now }
    requires here { IsPlaced system.now frame.now.count here.now.seats.now here.now.nonbasic.now here.now.den here.now.numbers.now }
    requires by { IsPivotThere system.now frame.now.count here.now.seats.now by.now.leaving by.now.entering by.now.rest by.now.row.now }
    requires sizes { HasSizes system.now.width frame.now.scales.now frame.now.a.now frame.now.b.now frame.now.norm frame.now.most_scale frame.now.most_side }
    requires own { IsSmall here.now.own here.now.numbers.now }
    requires same { factors.enters ≡ by.now.entering }
    ensures { IfSome result (λ _. IsPivotJudged system.now frame.now.count here.now.seats.now frame.now.scales.now frame.now.a.now frame.now.b.now here.now.den here.now.numbers.now by.now.leaving by.now.entering by.now.rest by.now.row.now factors.top factors.size) }
{
    match judge(here, system, frame, factors) {
        Some(()) => Some(()),
        None => judge_rows(here, system, frame, factors, by),
    }
}
