//! What a run in whole numbers ends with.

ghost use Rattle.std.specs.Prelude.{◌≡◌, ℕ, List, pos, false, ◌+◌, ◌*◌, ◌<◌, ◌≤◌, ◌*ℤ◌, neg_ℤ, IfSome, length};
ghost use Rattle.mpc_exact.specs.Rational.{frac, quotient};
ghost use Rattle.mpc_space.specs.Vector.{zeros};
ghost use Rattle.mpc_rows.specs.LinearSystem.{height};
ghost use Rattle.mpc_rows.specs.Run.{Position, count, turn, is_refuted, last_position};
ghost use Rattle.mpc_runs.specs.declared.variables.Seat.{Seat};
ghost use Rattle.mpc_runs.specs.Table.{variable_at, IsSeated, AreNonbasic};
ghost use Rattle.mpc_runs.specs.RunEnd.{IsValues, IsMultipliers};
ghost use Rattle.mpc_whole.specs.Running.{IsRefuting, HasColumnMultipliers, AreUnused};
ghost use Rattle.mpc_runs.specs.WholeNumbers.{whole_total};
ghost use Rattle.mpc_whole.specs.Whole.{IsForm, HasBasis, IsRowOf, IsSideRow, AreValues, ArePairs};
ghost use Rattle.mpc_scaled.specs.Scaled.{whole_cell, AreScales, IsWholeSystem};

use crate::lists::{RunLists, WideLists};
use crate::wide_turn::divided_side_row;
use mpc_frac::Frac;
use mpc_quotients::{positive, wide_product, widened};
use mpc_runs::{Standing, zero};
use mpc_scaled::{WholeNumbers, WholeSystem, product};

/// The fraction `numerator / den`, if it has 128 bits.
fn quotient(numerator: i128, den: i128) -> Option<Frac>
    ensures { IfSome result (λ value. value ≡ quotient numerator den) }
{
    match Frac::new(numerator, den) {
        Ok(value) => Some(value),
        Err(_) => None,
    }
}

/// The fraction `numerator / den`.
fn fraction(numerator: i128, den: u128) -> Option<Frac>
    requires { 0 < den }
    ensures { IfSome result (λ value. value ≡ frac numerator den) }
{
    if numerator == 0 {
        return Some(zero());
    }
    let over = positive(den)?;
    quotient(numerator, over)
}

/// A value whose parts are these over the denominator.
fn standing(first: i128, second: i128, den: u128) -> Option<Standing>
    requires { 0 < den }
    ensures first { IfSome result (λ q. q.0 ≡ frac first den) }
    ensures second { IfSome result (λ q. q.1 ≡ frac second den) }
{
    Some((fraction(first, den)?, fraction(second, den)?))
}

/// The values of the unknowns.
fn point(values: &mut [Standing], firsts: &[i64], seconds: &[i64], den: u128) -> Option<()>
    requires room { length values.old ≡ length firsts.now }
    requires same { length seconds.now ≡ length firsts.now }
    requires some { 0 < den }
    ensures { IfSome result (λ _. ArePairs den firsts.now seconds.now values.new) }
{
    for unknown in 0..firsts.len() {
        let value = standing(widened(firsts[unknown]), widened(seconds[unknown]), den)?;
        values[unknown] = value;
    }
    Some(())
}

/// The values of the unknowns, from numbers of 128 bits.
fn wide_point(values: &mut [Standing], firsts: &[i128], seconds: &[i128], den: u128) -> Option<()>
    requires room { length values.old ≡ length firsts.now }
    requires same { length seconds.now ≡ length firsts.now }
    requires some { 0 < den }
    ensures { IfSome result (λ _. ArePairs den firsts.now seconds.now values.new) }
{
    for unknown in 0..firsts.len() {
        let value = standing(firsts[unknown], seconds[unknown], den)?;
        values[unknown] = value;
    }
    Some(())
}

/// The multiplier of a side that stands in a column of the row that refutes, where its number there is this one.
fn multiplier(number: i128, scale: u64, den: u128) -> Option<Frac>
    requires { 0 < den }
    ensures { IfSome result (λ m. m ≡ frac (neg_ℤ (number *ℤ pos scale)) den) }
{
    let negative = 0_i128.checked_sub(number)?;
    let numerator = wide_product(negative, positive(scale as u128)?)?;
    fraction(numerator, den)
}

/// The multipliers of the sides that stand in the columns, over a denominator, where the row refutes.
fn column_multipliers(
    list: &mut [Frac],
    system: &WholeSystem,
    scales: &[u64],
    nonbasic: &[usize],
    row: &[i128],
    den: u128,
) -> Option<()>
    requires zeros { list.old ≡ zeros (height system.now) }
    requires columns { length nonbasic.now ≡ system.now.width }
    requires below { (column : ℕ) → column < system.now.width → variable_at nonbasic.now column < count system.now }
    requires scales { AreScales system.now scales.now }
    requires row_size { length row.now ≡ system.now.width }
    requires some { 0 < den }
    ensures { IfSome result (λ _. HasColumnMultipliers system.now.width scales.now nonbasic.now row.now den system.now.width list.new) }
{
    let width = system.unknowns();
    for column in 0..width {
        let variable = nonbasic[column];
        if variable < width {
            continue;
        }
        let value = multiplier(row[column], scales[variable], den)?;
        list[variable - width] = value;
    }
    Some(())
}

/// The multipliers, where the row of the variable that leaves refutes. Only its own and those of the sides that stand
/// in the columns are not 0.
fn multipliers(
    list: &mut [Frac],
    system: &WholeSystem,
    scales: &[u64],
    nonbasic: &[usize],
    row: &[i128],
    den: u128,
    leaving: usize,
) -> Option<()>
    requires zeros { list.old ≡ zeros (height system.now) }
    requires row { IsRefuting system.now scales.now nonbasic.now row.now den leaving }
    ensures { IfSome result (λ _. (seats : List Seat) (p : Position) → IsSeated (height system.now) system.now.width (count system.now) seats → AreNonbasic system.now.width seats nonbasic.now → HasBasis (count system.now) seats p → IsRowOf (count system.now) seats scales.now p den leaving row.now
        → IsMultipliers system.now p leaving list.new) }
{
    let over = den.checked_mul(scales[leaving] as u128)?;
    column_multipliers(list, system, scales, nonbasic, row, over)?;
    list[leaving - system.unknowns()] = Frac::whole(1);
    Some(())
}

/// The row of a side times a column of the numbers.
fn side_cell(
    entries: &[i64],
    side: usize,
    numbers: &[i64],
    width: usize,
    column: usize,
) -> Option<i128>
    requires inside { side * width + width ≤ length entries.now }
    requires square { length numbers.now ≡ width * width }
    requires column { column < width }
    ensures { IfSome result (λ z. z ≡ whole_total width (λ unknown. whole_cell width entries.now side unknown *ℤ whole_cell width numbers.now unknown column)) }
{
    let from = side * width;
    let mut total: i128 = 0;
    for unknown in 0..width {
        total = total.checked_add(product(
            entries[from + unknown],
            numbers[unknown * width + column],
        ))?;
    }
    Some(total)
}

/// Whether the row of a side may have a number other than 0 in a column: it may where its number is too wide to be known.
fn may_have(entries: &[i64], side: usize, numbers: &[i64], width: usize, column: usize) -> bool
    requires inside { side * width + width ≤ length entries.now }
    requires square { length numbers.now ≡ width * width }
    requires column { column < width }
    ensures { result ≡ false → whole_total width (λ unknown. whole_cell width entries.now side unknown *ℤ whole_cell width numbers.now unknown column) ≡ pos 0 }
{
    match side_cell(entries, side, numbers, width, column) {
        Some(number) => number != 0,
        None => true,
    }
}

/// The row of a side, in numbers of 128 bits.
fn side_row(
    row: &mut [i128],
    system: &WholeSystem,
    entries: &[i64],
    numbers: &[i64],
    side: usize,
) -> Option<()>
    requires side { side < height system.now }
    requires entries { length entries.now ≡ height system.now * system.now.width }
    requires square { length numbers.now ≡ system.now.width * system.now.width }
    requires row_size { length row.old ≡ system.now.width }
    ensures { IfSome result (λ _. IsSideRow system.now entries.now numbers.now side row.new) }
{
    let width = system.unknowns();
    for column in 0..width {
        let cell = side_cell(entries, side, numbers, width, column)?;
        row[column] = cell;
    }
    Some(())
}

/// The values of the unknowns at the last position of a run, in fractions.
pub fn last_values(
    values: &mut [Standing],
    _system: &WholeSystem,
    firsts: &[i64],
    seconds: &[i64],
    den: u128,
) -> Option<()>
    requires room { length values.old ≡ _system.now.width }
    requires first_size { length firsts.now ≡ _system.now.width }
    requires second_size { length seconds.now ≡ _system.now.width }
    requires some { 0 < den }
    requires are { AreValues _system.now (last_position _system.now) den firsts.now seconds.now }
    ensures { IfSome result (λ _. IsValues _system.now (last_position _system.now) values.new) }
{
    point(values, firsts, seconds, den)
}

/// The values of the unknowns at the last position of a run in 128 bits, in fractions.
pub fn wide_last_values(
    values: &mut [Standing],
    _system: &WholeSystem,
    firsts: &[i128],
    seconds: &[i128],
    den: u128,
) -> Option<()>
    requires room { length values.old ≡ _system.now.width }
    requires first_size { length firsts.now ≡ _system.now.width }
    requires second_size { length seconds.now ≡ _system.now.width }
    requires some { 0 < den }
    requires are { AreValues _system.now (last_position _system.now) den firsts.now seconds.now }
    ensures { IfSome result (λ _. IsValues _system.now (last_position _system.now) values.new) }
{
    wide_point(values, firsts, seconds, den)
}

/// The multipliers at the last position of a run, where the row of the side that leaves refutes. The list has zeros
/// before, and keeps them where a multiplier is 0.
pub fn last_multipliers(
    list: &mut [Frac],
    row: &mut [i128],
    system: &WholeSystem,
    numbers: &WholeNumbers,
    lists: &RunLists,
    den: u128,
    leaving: usize,
) -> Option<()>
    requires zeros { list.old ≡ zeros (height system.now) }
    requires row_room { length row.old ≡ system.now.width }
    requires whole { IsWholeSystem system.now numbers.now.scales.now numbers.now.a.now numbers.now.b.now }
    requires seated { IsSeated (height system.now) system.now.width (count system.now) lists.now.seats.items }
    requires columns { AreNonbasic system.now.width lists.now.seats.items lists.now.nonbasic.items }
    requires square { length lists.now.numbers.items ≡ system.now.width * system.now.width }
    requires form { IsForm system.now (count system.now) lists.now.seats.items numbers.now.scales.now den lists.now.numbers.items (last_position system.now) }
    requires refuted { turn system.now (last_position system.now) ≡ is_refuted leaving }
    ensures { IfSome result (λ _. IsMultipliers system.now (last_position system.now) leaving list.new) }
{
    let side = leaving - system.unknowns();
    side_row(row, system, numbers.a, &lists.numbers, side)?;
    multipliers(
        list,
        system,
        numbers.scales,
        &lists.nonbasic,
        row,
        den,
        leaving,
    )
}

/// How many of the first rows, of so many, a refutation takes: one more than the number of the last of them whose
/// multiplier may be other than 0, where the row of the side that leaves refutes at the last position of a run.
pub fn bearing_rows(
    system: &WholeSystem,
    numbers: &WholeNumbers,
    lists: &RunLists,
    leaving: usize,
    first: usize,
) -> usize
    requires first { first ≤ height system.now }
    requires whole { IsWholeSystem system.now numbers.now.scales.now numbers.now.a.now numbers.now.b.now }
    requires seated { IsSeated (height system.now) system.now.width (count system.now) lists.now.seats.items }
    requires columns { AreNonbasic system.now.width lists.now.seats.items lists.now.nonbasic.items }
    requires square { length lists.now.numbers.items ≡ system.now.width * system.now.width }
    requires form { (den : ℕ) × IsForm system.now (count system.now) lists.now.seats.items numbers.now.scales.now den lists.now.numbers.items (last_position system.now) }
    requires refuted { turn system.now (last_position system.now) ≡ is_refuted leaving }
    ensures within { result ≤ first }
    ensures bearing { AreUnused system.now leaving result first }
{
    let width = system.unknowns();
    let side = leaving - width;
    let mut most = if side < first { side + 1 } else { 0 };
    for column in 0..width {
        let variable = lists.nonbasic[column];
        if variable < width {
            continue;
        }
        let row = variable - width;
        if row < most || first <= row {
            continue;
        }
        if may_have(numbers.a, side, &lists.numbers, width, column) {
            most = row + 1;
        }
    }
    most
}

/// The multipliers at the last position of a run in 128 bits, where the row of the side that leaves refutes. The list
/// has zeros before, and keeps them where a multiplier is 0.
pub fn wide_last_multipliers(
    list: &mut [Frac],
    row: &mut [i128],
    system: &WholeSystem,
    numbers: &WholeNumbers,
    lists: &WideLists,
    den: u128,
    leaving: usize,
) -> Option<()>
    requires zeros { list.old ≡ zeros (height system.now) }
    requires row_room { length row.old ≡ system.now.width }
    requires whole { IsWholeSystem system.now numbers.now.scales.now numbers.now.a.now numbers.now.b.now }
    requires seated { IsSeated (height system.now) system.now.width (count system.now) lists.now.seats.items }
    requires columns { AreNonbasic system.now.width lists.now.seats.items lists.now.nonbasic.items }
    requires square { length lists.now.numbers.items ≡ system.now.width * system.now.width }
    requires form { IsForm system.now (count system.now) lists.now.seats.items numbers.now.scales.now den lists.now.numbers.items (last_position system.now) }
    requires refuted { turn system.now (last_position system.now) ≡ is_refuted leaving }
    ensures { IfSome result (λ _. IsMultipliers system.now (last_position system.now) leaving list.new) }
{
    let side = leaving - system.unknowns();
    let divided = divided_side_row(row, system, numbers.a, &lists.numbers, side, den)?;
    multipliers(
        list,
        system,
        numbers.scales,
        &lists.nonbasic,
        row,
        divided.1,
        leaving,
    )
}
