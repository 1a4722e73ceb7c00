//! Whether the sizes of the numbers at a position show that no operation of the stated run there is wide.

ghost use Rattle.std.specs.Prelude.{◌≡◌, ℕ, ℤ, List, ◌+◌, ◌-◌, ◌*◌, ◌<◌, ◌≤◌, ◌^◌, ◌*ℤ◌, IfSome, IsTrue, unsigned_abs, length};
ghost use Rattle.mpc_rows.specs.LinearSystem.{height};
ghost use Rattle.mpc_runs.specs.declared.variables.Seat.{Seat};
ghost use Rattle.mpc_runs.specs.declared.variables.Seat.TheVariants.{Column};
ghost use Rattle.mpc_runs.specs.Table.{seat_at, variable_at, IsSeated, AreNonbasic};
ghost use Rattle.mpc_runs.specs.WholeNumbers.{HasRoom};
ghost use Rattle.mpc_whole.specs.Whole.{side_cell};
ghost use Rattle.mpc_scaled.specs.Scaled.{whole_at, whole_cell, scale_at, IsSmall};
ghost use Rattle.mpc_whole.specs.Running.{HasNumbers};
ghost use Rattle.mpc_whole.specs.Judged.{HasRoomAt, HasSizes, IsJudged, IsNorm, IsPlaced, IsRowWithin};

use crate::frames::JudgedFrame;
use mpc_quotients::column_value;
use mpc_runs::Seat;
use mpc_scaled::{WholeSystem, greatest};

/// What the products that are formed at a position may have.
pub(crate) const ROOM: u128 = 1 << 125;

/// A position of a run: where the variables stand, which of them stand in the columns, and the numbers of the unknowns
/// over a denominator, none of which is above own.
#[derive(Clone, Copy, Drop)]
pub(crate) struct Here<'a> {
    pub seats: &'a [Seat],
    pub nonbasic: &'a [usize],
    pub numbers: &'a [i128],
    pub den: u128,
    pub own: u128,
}

/// What the numbers of a position are multiplied by, at most: those in the column of the variable that enters by a
/// top, all others and the denominator by a size.
#[derive(Clone, Copy, Drop)]
pub(crate) struct Factors {
    pub enters: usize,
    pub top: u128,
    pub size: u128,
}

/// What a number in the column of a variable is multiplied by, at most.
#[inline]
pub(crate) fn factor_at(by: Factors, variable: usize) -> u128
    ensures entering { variable ≡ by.enters → result ≡ by.top }
    ensures other { (variable ≡ by.enters → ⊥) → result ≡ by.size }
{
    if variable == by.enters {
        by.top
    } else {
        by.size
    }
}

/// What a number in the column of a variable may have.
fn entry_limit(system: &WholeSystem, frame: &JudgedFrame, by: Factors, variable: usize) -> u128
    requires numbers { HasNumbers system.now frame.now.count frame.now.scales.now frame.now.a.now frame.now.b.now }
    requires below { variable < frame.now.count }
    ensures { (z : ℤ) → unsigned_abs z ≤ result → HasRoomAt system.now frame.now.scales.now frame.now.b.now by.enters by.top by.size variable z }
{
    let count = frame.count as u128;
    let factor = factor_at(by, variable);
    let scaled = ROOM / factor.max(count) / frame.scales[variable] as u128;
    let width = system.unknowns();
    if variable < width {
        return scaled;
    }
    let side = frame.b[variable - width].unsigned_abs();
    scaled.min(ROOM / count / side.max(1) as u128)
}

/// The size of the right side of a variable, or 0 for an unknown.
#[inline]
pub(crate) fn side_of(system: &WholeSystem, frame: &JudgedFrame, variable: usize) -> u128
    requires numbers { HasNumbers system.now frame.now.count frame.now.scales.now frame.now.a.now frame.now.b.now }
    requires below { variable < frame.now.count }
    ensures { system.now.width ≤ variable → result ≡ unsigned_abs (whole_at frame.now.b.now (variable - system.now.width)) }
{
    let width = system.unknowns();
    if variable < width {
        return 0;
    }
    frame.b[variable - width].unsigned_abs() as u128
}

/// If a product is within the room.
#[inline]
fn within_room(product: u128) -> Option<()>
    ensures { IfSome result (λ _. product ≤ 2 ^ 125) }
{
    if product > ROOM {
        return None;
    }
    Some(())
}

/// If the product of a size with a scale and a factor, and that with a side and a count, are within the room.
#[inline]
fn are_products_within(most: u128, scale: u128, factor: u128, side: u128, count: u128) -> Option<()>
    ensures scaled { IfSome result (λ _. (most * scale) * factor ≤ 2 ^ 125) }
    ensures sides { IfSome result (λ _. (most * side) * count ≤ 2 ^ 125) }
{
    let times = most.checked_mul(scale)?;
    let scaled = times.checked_mul(factor)?;
    let beside = most.checked_mul(side)?;
    let sides = beside.checked_mul(count)?;
    within_room(scaled)?;
    within_room(sides)
}

/// If products show that numbers in the column of a variable of at most such a size have room.
#[inline]
fn have_room(
    system: &WholeSystem,
    frame: &JudgedFrame,
    by: Factors,
    variable: usize,
    most: u128,
) -> Option<()>
    requires numbers { HasNumbers system.now frame.now.count frame.now.scales.now frame.now.a.now frame.now.b.now }
    requires below { variable < frame.now.count }
    ensures { IfSome result (λ _. (z : ℤ) → unsigned_abs z ≤ most → HasRoomAt system.now frame.now.scales.now frame.now.b.now by.enters by.top by.size variable z) }
{
    let count = frame.count as u128;
    let factor = factor_at(by, variable);
    let greater = factor.max(count);
    let scale = frame.scales[variable] as u128;
    let side = side_of(system, frame, variable);
    are_products_within(most, scale, greater, side, count)
}

/// If products of greatest sizes show that numbers have room in whichever column, where those of the unknowns are at
/// most such a size.
fn have_common_room(system: &WholeSystem, frame: &JudgedFrame, by: Factors, own: u128) -> Option<()>
    requires numbers { HasNumbers system.now frame.now.count frame.now.scales.now frame.now.a.now frame.now.b.now }
    requires sizes { HasSizes system.now.width frame.now.scales.now frame.now.a.now frame.now.b.now frame.now.norm frame.now.most_scale frame.now.most_side }
    ensures { IfSome result (λ _. (variable : ℕ) (z : ℤ) → unsigned_abs z ≤ own * frame.now.norm → HasRoomAt system.now frame.now.scales.now frame.now.b.now by.enters by.top by.size variable z) }
{
    let count = frame.count as u128;
    let factor = by.top.max(by.size);
    let greater = factor.max(count);
    let most = own.checked_mul(frame.norm)?;
    are_products_within(most, frame.most_scale, greater, frame.most_side, count)
}

/// If the denominator of a position has room, with the scale of each variable.
fn has_den_room(frame: &JudgedFrame, den: u128, by: Factors) -> Option<()>
    requires scales { (variable : ℕ) → scale_at frame.now.scales.now variable ≤ frame.now.most_scale }
    ensures each { IfSome result (λ _. (variable : ℕ) → (den * scale_at frame.now.scales.now variable) * by.size ≤ 2 ^ 125) }
    ensures whole { IfSome result (λ _. (variable : ℕ) → den * scale_at frame.now.scales.now variable ≤ 2 ^ 125) }
{
    let scaled = den.checked_mul(frame.most_scale)?;
    let room = scaled.checked_mul(by.size.max(1))?;
    within_room(room)
}

/// The greatest size of a number of an unknown's row in a column.
#[inline]
fn column_top(numbers: &[i128], width: usize, column: usize) -> u128
    requires square { length numbers.now ≡ width * width }
    requires column { column < width }
    ensures { (unknown : ℕ) → unknown < width → unsigned_abs (whole_cell width numbers.now unknown column) ≤ result }
{
    let mut top = 0;
    for unknown in 0..width {
        let size = numbers[unknown * width + column].unsigned_abs();
        if top < size {
            top = size;
        }
    }
    top
}

/// If no number of a side's row in a column is above a limit in size. The numbers of the column aren't tested where
/// they are known to be short.
fn are_sides_within(
    system: &WholeSystem,
    entries: &[i64],
    numbers: &[i128],
    column: usize,
    limit: u128,
    short: bool,
) -> Option<()>
    requires entries { length entries.now ≡ height system.now * system.now.width }
    requires square { length numbers.now ≡ system.now.width * system.now.width }
    requires column { column < system.now.width }
    requires short { IsTrue short → (unknown : ℕ) → unsigned_abs (whole_cell system.now.width numbers.now unknown column) ≤ 2 ^ 62 }
    requires room { IsTrue short → HasRoom system.now.width (2 ^ 62) entries.now }
    ensures { IfSome result (λ _. (side : ℕ) → side < height system.now → unsigned_abs (side_cell system.now entries.now numbers.now side column) ≤ limit) }
{
    let width = system.unknowns();
    for side in 0..system.height() {
        let cell = column_value(entries, side, numbers, width, column, short)?;
        if cell.unsigned_abs() > limit {
            return None;
        }
    }
    Some(())
}

/// By how many times more a number of a side's row may have than those of its column, at least 1.
pub(crate) fn norm_of(entries: &[i64], width: usize) -> u128
    ensures { IsNorm width entries.now result }
{
    let norm = width as u128 * greatest(entries) as u128;
    norm.max(1)
}

/// The greatest scale of a variable.
pub(crate) fn greatest_scale(scales: &[u64]) -> u64
    ensures { (variable : ℕ) → scale_at scales.now variable ≤ result }
{
    let mut most = 0;
    for variable in 0..scales.len() {
        if most < scales[variable] {
            most = scales[variable];
        }
    }
    most
}

/// If no number of any row in a column is above a limit in size, where those of the unknowns are at most a top. The rows
/// of the sides are formed only where their norm doesn't show it.
fn is_column_within(
    system: &WholeSystem,
    entries: &[i64],
    numbers: &[i128],
    column: usize,
    top: u128,
    limit: u128,
    norm: u128,
) -> Option<()>
    requires entries { length entries.now ≡ height system.now * system.now.width }
    requires square { length numbers.now ≡ system.now.width * system.now.width }
    requires column { column < system.now.width }
    requires top { (unknown : ℕ) → unknown < system.now.width → unsigned_abs (whole_cell system.now.width numbers.now unknown column) ≤ top }
    requires norm { IsNorm system.now.width entries.now norm }
    requires room { HasRoom system.now.width (2 ^ 62) entries.now }
    ensures unknowns { IfSome result (λ _. (unknown : ℕ) → unknown < system.now.width → unsigned_abs (whole_cell system.now.width numbers.now unknown column) ≤ limit) }
    ensures sides { IfSome result (λ _. (side : ℕ) → side < height system.now → unsigned_abs (side_cell system.now entries.now numbers.now side column) ≤ limit) }
{
    if top > limit {
        return None;
    }
    if top <= limit / norm {
        return Some(());
    }
    if top > 1 << 62 {
        return are_sides_within(system, entries, numbers, column, limit, false);
    }
    are_sides_within(system, entries, numbers, column, limit, true)
}

/// If products show that the numbers of all rows in the column of a variable have room, where those of the unknowns are
/// at most a top.
fn have_clear_room(
    system: &WholeSystem,
    frame: &JudgedFrame,
    by: Factors,
    variable: usize,
    top: u128,
) -> Option<()>
    requires numbers { HasNumbers system.now frame.now.count frame.now.scales.now frame.now.a.now frame.now.b.now }
    requires below { variable < frame.now.count }
    ensures { IfSome result (λ _. (z : ℤ) → unsigned_abs z ≤ top * frame.now.norm → HasRoomAt system.now frame.now.scales.now frame.now.b.now by.enters by.top by.size variable z) }
{
    let most = top.checked_mul(frame.norm)?;
    have_room(system, frame, by, variable, most)
}

/// If the numbers of all rows at a position have room, as each column shows by itself. Only where products don't show
/// it is it asked by divisions.
fn judge_columns(here: &Here, system: &WholeSystem, frame: &JudgedFrame, by: Factors) -> Option<()>
    requires numbers { HasNumbers system.now frame.now.count frame.now.scales.now frame.now.a.now frame.now.b.now }
    requires norm { IsNorm system.now.width frame.now.a.now frame.now.norm }
    requires here { IsPlaced system.now frame.now.count here.now.seats.now here.now.nonbasic.now here.now.den here.now.numbers.now }
    ensures unknowns { IfSome result (λ _. (unknown variable column : ℕ) → unknown < system.now.width → variable < frame.now.count → seat_at here.now.seats.now variable ≡ Column column → HasRoomAt system.now frame.now.scales.now frame.now.b.now by.enters by.top by.size variable (whole_cell system.now.width here.now.numbers.now unknown column)) }
    ensures sides { IfSome result (λ _. (side variable column : ℕ) → side < height system.now → variable < frame.now.count → seat_at here.now.seats.now variable ≡ Column column → HasRoomAt system.now frame.now.scales.now frame.now.b.now by.enters by.top by.size variable (side_cell system.now frame.now.a.now here.now.numbers.now side column)) }
{
    let width = system.unknowns();
    for column in 0..width {
        let variable = here.nonbasic[column];
        let top = column_top(here.numbers, width, column);
        if let Some(()) = have_clear_room(system, frame, by, variable, top) {
            continue;
        }
        let limit = entry_limit(system, frame, by, variable);
        is_column_within(
            system,
            frame.a,
            here.numbers,
            column,
            top,
            limit,
            frame.norm,
        )?;
    }
    Some(())
}

/// If the numbers of all rows at a position, and its denominator, leave room for products with numbers of such
/// sizes. No number of an unknown's row is above own: mostly this alone shows it, and the columns aren't looked at.
pub(crate) fn judge(
    here: &Here,
    system: &WholeSystem,
    frame: &JudgedFrame,
    by: Factors,
) -> Option<()>
    requires numbers { HasNumbers system.now frame.now.count frame.now.scales.now frame.now.a.now frame.now.b.now }
    requires sizes { HasSizes system.now.width frame.now.scales.now frame.now.a.now frame.now.b.now frame.now.norm frame.now.most_scale frame.now.most_side }
    requires here { IsPlaced system.now frame.now.count here.now.seats.now here.now.nonbasic.now here.now.den here.now.numbers.now }
    requires own { IsSmall here.now.own here.now.numbers.now }
    ensures { IfSome result (λ _. IsJudged system.now frame.now.count here.now.seats.now frame.now.scales.now frame.now.a.now frame.now.b.now here.now.den here.now.numbers.now by.enters by.top by.size) }
{
    has_den_room(frame, here.den, by)?;
    if let Some(()) = have_common_room(system, frame, by, here.own) {
        return Some(());
    }
    judge_columns(here, system, frame, by)
}

/// If the numbers of a position where no pivot is made, and its denominator, leave room for its values.
pub(crate) fn judge_end(here: &Here, system: &WholeSystem, frame: &JudgedFrame) -> Option<()>
    requires numbers { HasNumbers system.now frame.now.count frame.now.scales.now frame.now.a.now frame.now.b.now }
    requires sizes { HasSizes system.now.width frame.now.scales.now frame.now.a.now frame.now.b.now frame.now.norm frame.now.most_scale frame.now.most_side }
    requires here { IsPlaced system.now frame.now.count here.now.seats.now here.now.nonbasic.now here.now.den here.now.numbers.now }
    requires own { IsSmall here.now.own here.now.numbers.now }
    ensures { IfSome result (λ _. IsJudged system.now frame.now.count here.now.seats.now frame.now.scales.now frame.now.a.now frame.now.b.now here.now.den here.now.numbers.now 0 0 0) }
{
    let none = Factors {
        enters: 0,
        top: 0,
        size: 0,
    };
    judge(here, system, frame, none)
}

/// What the numbers of a position are multiplied by where the row of one variable leaves and another enters.
pub(crate) fn factors_of(
    nonbasic: &[usize],
    row: &[i128],
    scales: &[u64],
    leaving: usize,
    entering: usize,
) -> Option<Factors>
    requires leaves { leaving < length scales.now }
    requires columns { length nonbasic.now ≡ length row.now }
    requires below { (column : ℕ) → column < length row.now → variable_at nonbasic.now column < length scales.now }
    ensures enters { IfSome result (λ by. by.enters ≡ entering) }
    ensures row { IfSome result (λ by. (height n : ℕ) (seats : List Seat) → IsSeated height (length row.now) n seats → AreNonbasic (length row.now) seats nonbasic.now → IsRowWithin n seats scales.now leaving entering row.now by.top by.size) }
{
    let mut top = scales[leaving] as u128;
    let mut size: u128 = 0;
    for column in 0..row.len() {
        let variable = nonbasic[column];
        let product = row[column]
            .unsigned_abs()
            .checked_mul(scales[variable] as u128)?;
        if variable == entering {
            size = size.max(product);
        } else {
            top = top.max(product);
        }
    }
    Some(Factors {
        enters: entering,
        top,
        size,
    })
}
