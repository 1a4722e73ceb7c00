//! The values at a position in whole numbers.

ghost use Rattle.std.specs.Prelude.{◌≡◌, ℕ, List, pos, ◌+◌, ◌*◌, ◌<◌, ◌≤◌, ◌^◌, unsigned_abs, IfSome, IsTrue, length, true};
ghost use Rattle.mpc_exact.specs.Rational.{frac};
ghost use Rattle.mpc_rows.specs.LinearSystem.{height};
ghost use Rattle.mpc_rows.specs.Run.{bound};
ghost use Rattle.mpc_runs.specs.declared.variables.Seat.{Seat};
ghost use Rattle.mpc_runs.specs.Table.{variable_at, IsSeated, AreNonbasic};
ghost use Rattle.mpc_runs.specs.WholeNumbers.{HasRoom};
ghost use Rattle.mpc_scaled.specs.Scaled.{whole_at, scale_at, AreScales, IsSmall};
ghost use Rattle.mpc_whole.specs.Moved.{excess, IsMoved, AreMoved, IsValueAt, AreFormed, AreFollowed};
ghost use Rattle.mpc_whole.specs.Running.{HasNumbers, AreParts, IsPivot};

use crate::frames::Frame;
use mpc_quotients::{Divisor, changed, minus, small, sum, wide_row_times};
use mpc_scaled::{WholeSystem, negative, product, signed};

/// Writes 0 into each number.
pub fn clear(list: &mut [i64])
    ensures { (k : ℕ) → whole_at list.new k ≡ pos 0 }
{
    for index in 0..list.len() {
        list[index] = 0;
    }
}

/// Whether each number is 0.
fn are_zero(list: &[i64]) -> bool
    ensures { IsTrue result → (k : ℕ) → whole_at list.now k ≡ pos 0 }
{
    for index in 0..list.len() {
        if list[index] != 0 {
            return false;
        }
    }
    true
}

/// The second part of the bound of a side, times the scale of its row: minus the scale where the row is strict.
#[inline]
pub(crate) fn step_of(system: &WholeSystem, scales: &[u64], side: usize) -> i64
    requires side { side < height system.now }
    requires scales { AreScales system.now scales.now }
    ensures value { (bound system.now (system.now.width + side)).second ≡ frac result (scale_at scales.now (system.now.width + side)) }
    ensures small { unsigned_abs result ≤ 2 ^ 40 }
{
    if system.is_strict(side) {
        return minus(scales[system.unknowns() + side]);
    }
    0
}

/// A pivot: a side has left, and the variable of a column entered. The denominator before it is the divisor, and the
/// one after it the size.
#[derive(Clone, Copy, Drop)]
pub(crate) struct Pivot {
    pub side: usize,
    pub column: usize,
    pub by: Divisor,
    pub size: u64,
}

/// Both parts of the value of an unknown, where they are small. The sums on the way need not be.
fn value_of(
    system: &WholeSystem,
    frame: &Frame,
    nonbasic: &[usize],
    numbers: &[i64],
    unknown: usize,
) -> Option<(i64, i64)>
    requires numbers { HasNumbers system.now frame.now.count frame.now.scales.now frame.now.a.now frame.now.b.now }
    requires columns { length nonbasic.now ≡ system.now.width }
    requires below { (column : ℕ) → column < system.now.width → variable_at nonbasic.now column < frame.now.count }
    requires square { length numbers.now ≡ system.now.width * system.now.width }
    requires unknown { unknown < system.now.width }
    ensures value { IfSome result (λ z. IsValueAt system.now frame.now.count frame.now.scales.now frame.now.b.now nonbasic.now numbers.now unknown z.0 z.1) }
    ensures first_small { IfSome result (λ z. unsigned_abs z.0 ≤ 2 ^ 62) }
    ensures second_small { IfSome result (λ z. unsigned_abs z.1 ≤ 2 ^ 62) }
{
    let width = system.unknowns();
    let from = unknown * width;
    let mut first: i128 = 0;
    let mut second: i128 = 0;
    for column in 0..width {
        let variable = nonbasic[column];
        if variable < width {
            continue;
        }
        let side = variable - width;
        let factor = numbers[from + column];
        let step = step_of(system, frame.scales, side);
        first = first.checked_add(product(factor, frame.b[side]))?;
        second = second.checked_add(product(factor, step))?;
    }
    Some((small(first)?, small(second)?))
}

/// The values of the unknowns, where they are small.
pub(crate) fn stand(
    firsts: &mut [i64],
    seconds: &mut [i64],
    system: &WholeSystem,
    frame: &Frame,
    nonbasic: &[usize],
    numbers: &[i64],
) -> Option<()>
    requires numbers { HasNumbers system.now frame.now.count frame.now.scales.now frame.now.a.now frame.now.b.now }
    requires columns { length nonbasic.now ≡ system.now.width }
    requires below { (column : ℕ) → column < system.now.width → variable_at nonbasic.now column < frame.now.count }
    requires square { length numbers.now ≡ system.now.width * system.now.width }
    requires first_room { length firsts.old ≡ system.now.width }
    requires second_room { length seconds.old ≡ system.now.width }
    ensures values { IfSome result (λ _. (seats : List Seat) → IsSeated (height system.now) system.now.width frame.now.count seats → AreNonbasic system.now.width seats nonbasic.now
        → AreFormed system.now frame.now.count seats frame.now.scales.now frame.now.b.now numbers.now firsts.new seconds.new) }
    ensures parts { IfSome result (λ _. AreParts system.now.width firsts.new seconds.new) }
{
    for unknown in 0..system.unknowns() {
        let (first, second) = value_of(system, frame, nonbasic, numbers, unknown)?;
        firsts[unknown] = first;
        seconds[unknown] = second;
    }
    Some(())
}

/// By how much the value of a side is above its bound, over the denominator and the scale of its row, where that number
/// is small.
fn excess(entries: &[i64], side: usize, values: &[i64], limit: i64, den: u64) -> Option<i64>
    requires inside { side * length values.now + length values.now ≤ length entries.now }
    requires room { HasRoom (length values.now) (2 ^ 62) entries.now }
    requires small { IsSmall (2 ^ 62) values.now }
    requires den_small { den ≤ 2 ^ 62 }
    ensures value { IfSome result (λ z. z ≡ excess (length values.now) entries.now side limit den values.now) }
    ensures small { IfSome result (λ z. unsigned_abs z ≤ 2 ^ 62) }
{
    let at_bound = product(limit, negative(signed(den)));
    let over = sum(wide_row_times(entries, side, values), at_bound);
    small(over)
}

/// Moves one part of the values with a pivot, with the bound of the side that is given in that part, if all numbers are
/// whole and small. The numbers are those after the pivot. Where all of them and the bound are 0 they stay so, as the
/// second parts do while no strict row has left. A value whose row has 0 in the pivot's column stays where the
/// denominator does.
fn move_part(
    values: &mut [i64],
    entries: &[i64],
    limit: i64,
    numbers: &[i64],
    pivot: Pivot,
) -> Option<()>
    requires pivot { IsPivot (length values.old) entries.now numbers.now pivot.side pivot.column pivot.by.den pivot.size }
    requires small { IsSmall (2 ^ 62) values.old }
    ensures moved { IfSome result (λ _. IsMoved (length values.old) entries.now pivot.side limit numbers.now pivot.column pivot.by.den pivot.size values.old values.new) }
    ensures small { IfSome result (λ _. IsSmall (2 ^ 62) values.new) }
{
    if limit == 0 && are_zero(values) {
        return Some(());
    }
    let over = excess(entries, pivot.side, values, limit, pivot.by.den)?;
    let width = values.len();
    for unknown in 0..width {
        let factor = numbers[unknown * width + pivot.column];
        if factor == 0 && pivot.size == pivot.by.den {
            continue;
        }
        let new = changed(values[unknown], factor, over, pivot.size, pivot.by, 1 << 62)?;
        values[unknown] = new;
    }
    Some(())
}

/// Moves the values with a pivot, with the bound of the side, if all numbers are whole and small. The numbers are those
/// after the pivot.
fn move_values(
    firsts: &mut [i64],
    seconds: &mut [i64],
    entries: &[i64],
    limit: i64,
    step: i64,
    numbers: &[i64],
    pivot: Pivot,
) -> Option<()>
    requires pivot { IsPivot (length firsts.old) entries.now numbers.now pivot.side pivot.column pivot.by.den pivot.size }
    requires parts { AreParts (length firsts.old) firsts.old seconds.old }
    ensures moved { IfSome result (λ _. AreMoved (length firsts.old) entries.now pivot.side limit step numbers.now pivot.column pivot.by.den pivot.size firsts.old seconds.old firsts.new seconds.new) }
    ensures parts { IfSome result (λ _. AreParts (length firsts.old) firsts.new seconds.new) }
{
    move_part(firsts, entries, limit, numbers, pivot)?;
    move_part(seconds, entries, step, numbers, pivot)
}

/// The values of the unknowns after a pivot: moved from those before it, or formed anew where a number isn't whole and
/// small.
pub(crate) fn follow(
    firsts: &mut [i64],
    seconds: &mut [i64],
    system: &WholeSystem,
    frame: &Frame,
    nonbasic: &[usize],
    numbers: &[i64],
    pivot: Pivot,
) -> Option<()>
    requires numbers { HasNumbers system.now frame.now.count frame.now.scales.now frame.now.a.now frame.now.b.now }
    requires columns { length nonbasic.now ≡ system.now.width }
    requires below { (column : ℕ) → column < system.now.width → variable_at nonbasic.now column < frame.now.count }
    requires side { pivot.side < height system.now }
    requires pivot { IsPivot system.now.width frame.now.a.now numbers.now pivot.side pivot.column pivot.by.den pivot.size }
    requires parts { AreParts system.now.width firsts.old seconds.old }
    ensures values { IfSome result (λ _. (seats : List Seat) → IsSeated (height system.now) system.now.width frame.now.count seats → AreNonbasic system.now.width seats nonbasic.now
        → AreFollowed system.now frame.now.count seats frame.now.scales.now frame.now.a.now frame.now.b.now numbers.now pivot.side pivot.column pivot.by.den pivot.size firsts.old seconds.old firsts.new seconds.new) }
    ensures parts { IfSome result (λ _. AreParts system.now.width firsts.new seconds.new) }
{
    let step = step_of(system, frame.scales, pivot.side);
    let limit = frame.b[pivot.side];
    if let Some(()) = move_values(firsts, seconds, frame.a, limit, step, numbers, pivot) {
        return Some(());
    }
    stand(firsts, seconds, system, frame, nonbasic, numbers)
}
