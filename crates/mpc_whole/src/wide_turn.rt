//! Who leaves and who enters, in numbers of 128 bits.

ghost use Rattle.std.specs.Prelude.{◌≡◌, ℕ, List, pos, ◌+◌, ◌-◌, ◌*◌, ◌<◌, ◌≤◌, ◌*ℤ◌, ◌^◌, IfSome, IsTrue, length};
ghost use Rattle.mpc_rows.specs.LinearSystem.{height};
ghost use Rattle.mpc_rows.specs.Least.{least};
ghost use Rattle.mpc_rows.specs.Run.{Position, bound, value, may_leave, may_enter};
ghost use Rattle.mpc_exact.specs.Pair.{is_below};
ghost use Rattle.mpc_runs.specs.declared.variables.Seat.{Seat};
ghost use Rattle.mpc_runs.specs.declared.variables.Seat.TheVariants.{Column};
ghost use Rattle.mpc_runs.specs.Table.{seat_at, IsSeated, AreNonbasic};
ghost use Rattle.mpc_whole.specs.Judged.{IsDividedRow};
ghost use Rattle.mpc_runs.specs.Leaving.{StayBefore};
ghost use Rattle.mpc_whole.specs.Whole.{HasSideValues, HasBasis, IsRowOf, IsSideRow};
ghost use Rattle.mpc_runs.specs.WholeNumbers.{HasRoom};
ghost use Rattle.mpc_scaled.specs.Scaled.{whole_at, IsSmall, HasSides};
ghost use Rattle.mpc_whole.specs.Running.{HasNumbers};

use crate::frames::JudgedFrame;
use crate::judged::WidePlace;
use crate::reduced::{divide_numbers, shared_with_all, whole_share};
use crate::whole_values::step_of;
use mpc_quotients::{are_short, column_value, positive, product_with, wide_row_value};
use mpc_runs::{Seat, is_basic};
use mpc_scaled::WholeSystem;

/// Whether the value of a side is above its bound. The values of the unknowns and the denominator aren't tested where
/// they are known to be short.
#[inline(always)]
fn is_out(
    system: &WholeSystem,
    frame: &JudgedFrame,
    firsts: &[i128],
    seconds: &[i128],
    den: u128,
    short: bool,
    side: usize,
) -> Option<bool>
    requires side { side < height system.now }
    requires numbers { HasNumbers system.now frame.now.count frame.now.scales.now frame.now.a.now frame.now.b.now }
    requires first_size { length firsts.now ≡ system.now.width }
    requires second_size { length seconds.now ≡ system.now.width }
    requires first_short { IsTrue short → IsSmall (2 ^ 62) firsts.now }
    requires second_short { IsTrue short → IsSmall (2 ^ 62) seconds.now }
    requires den_short { IsTrue short → den ≤ 2 ^ 62 }
    ensures { IfSome result (λ yes. (p : Position) → 0 < den → HasSideValues system.now frame.now.scales.now frame.now.a.now p den firsts.now seconds.now → HasSides system.now frame.now.scales.now frame.now.b.now
        → yes ≡ is_below (bound system.now (system.now.width + side)) (value system.now p (system.now.width + side))) }
{
    let over = positive(den)?;
    let first = wide_row_value(frame.a, side, firsts, short)?;
    let limit = product_with(frame.b[side], over, short)?;
    if limit < first {
        return Some(true);
    }
    if first < limit {
        return Some(false);
    }
    let second = wide_row_value(frame.a, side, seconds, short)?;
    let step = step_of(system, frame.scales, side);
    let next = product_with(step, over, short)?;
    if next < second {
        return Some(true);
    }
    Some(false)
}

/// The variable that leaves, from the first on that may, where the numbers may be known to be short.
#[inline(always)]
fn first_out(
    system: &WholeSystem,
    frame: &JudgedFrame,
    seats: &[Seat],
    firsts: &[i128],
    seconds: &[i128],
    place: WidePlace,
    short: bool,
) -> Option<Option<usize>>
    requires side { system.now.width ≤ place.first }
    requires numbers { HasNumbers system.now frame.now.count frame.now.scales.now frame.now.a.now frame.now.b.now }
    requires seated { IsSeated (height system.now) system.now.width frame.now.count seats.now }
    requires first_size { length firsts.now ≡ system.now.width }
    requires second_size { length seconds.now ≡ system.now.width }
    requires first_short { IsTrue short → IsSmall (2 ^ 62) firsts.now }
    requires second_short { IsTrue short → IsSmall (2 ^ 62) seconds.now }
    requires den_short { IsTrue short → place.den ≤ 2 ^ 62 }
    ensures { IfSome result (λ l. (p : Position) → 0 < place.den → HasBasis frame.now.count seats.now p → HasSideValues system.now frame.now.scales.now frame.now.a.now p place.den firsts.now seconds.now → HasSides system.now frame.now.scales.now frame.now.b.now
        → StayBefore system.now p place.first → l ≡ least (may_leave system.now p) frame.now.count) }
{
    let width = system.unknowns();
    for variable in place.first..frame.count {
        if !is_basic(seats, variable) {
            continue;
        }
        let out = is_out(
            system,
            frame,
            firsts,
            seconds,
            place.den,
            short,
            variable - width,
        )?;
        if out {
            return Some(Some(variable));
        }
    }
    Some(None)
}

/// The variable that leaves, from the first on that may. The loop over the sides stands there once for short numbers
/// and once for others, so that they aren't tested again at each side.
pub(crate) fn wide_first_out(
    system: &WholeSystem,
    frame: &JudgedFrame,
    seats: &[Seat],
    firsts: &[i128],
    seconds: &[i128],
    place: WidePlace,
) -> Option<Option<usize>>
    requires side { system.now.width ≤ place.first }
    requires numbers { HasNumbers system.now frame.now.count frame.now.scales.now frame.now.a.now frame.now.b.now }
    requires seated { IsSeated (height system.now) system.now.width frame.now.count seats.now }
    requires first_size { length firsts.now ≡ system.now.width }
    requires second_size { length seconds.now ≡ system.now.width }
    ensures { IfSome result (λ l. (p : Position) → 0 < place.den → HasBasis frame.now.count seats.now p → HasSideValues system.now frame.now.scales.now frame.now.a.now p place.den firsts.now seconds.now → HasSides system.now frame.now.scales.now frame.now.b.now
        → StayBefore system.now p place.first → l ≡ least (may_leave system.now p) frame.now.count) }
{
    if place.den <= 1 << 62 && are_short(firsts) && are_short(seconds) {
        return first_out(system, frame, seats, firsts, seconds, place, true);
    }
    first_out(system, frame, seats, firsts, seconds, place, false)
}

/// The row of a side. The numbers aren't tested where they are known to be short.
fn wide_side_row(
    row: &mut [i128],
    system: &WholeSystem,
    entries: &[i64],
    numbers: &[i128],
    side: usize,
    short: bool,
) -> Option<()>
    requires side { side < height system.now }
    requires entries { length entries.now ≡ height system.now * system.now.width }
    requires square { length numbers.now ≡ system.now.width * system.now.width }
    requires row_size { length row.old ≡ system.now.width }
    requires short { IsTrue short → IsSmall (2 ^ 62) numbers.now }
    requires room { IsTrue short → HasRoom system.now.width (2 ^ 62) entries.now }
    ensures { IfSome result (λ _. IsSideRow system.now entries.now numbers.now side row.new) }
{
    let width = system.unknowns();
    for column in 0..width {
        let cell = column_value(entries, side, numbers, width, column, short)?;
        row[column] = cell;
    }
    Some(())
}

/// A row that leaves, over a divisor of its numbers and the denominator, and what is left of the denominator.
#[derive(Clone, Copy, Drop)]
pub(crate) struct DividedRow<'a> {
    pub numbers: &'a [i128],
    pub divisor: u128,
    pub rest: u128,
}

/// Divides a row by what divides it and the denominator: the divisor, and what is left of the denominator.
fn divide_row(row: &mut [i128], den: u128) -> Option<(u128, u128)>
    requires { 0 < den }
    ensures some { IfSome result (λ r. 0 < r.0) }
    ensures split { IfSome result (λ r. r.0 * r.1 ≡ den) }
    ensures cells { IfSome result (λ r. (c : ℕ) → whole_at row.new c *ℤ pos r.0 ≡ whole_at row.old c) }
{
    let divisor = shared_with_all(row, den);
    if divisor == 1 {
        return Some((1, den));
    }
    let rest = whole_share(den, divisor)?;
    divide_numbers(row, divisor)?;
    Some((divisor, rest))
}

/// The row of a side, over what divides it and the denominator: the divisor, and what is left of the denominator. The
/// numbers aren't tested where they are known to be short.
pub(crate) fn divided_row(
    row: &mut [i128],
    system: &WholeSystem,
    entries: &[i64],
    numbers: &[i128],
    side: usize,
    den: u128,
    short: bool,
) -> Option<(u128, u128)>
    requires side { side < height system.now }
    requires entries { length entries.now ≡ height system.now * system.now.width }
    requires square { length numbers.now ≡ system.now.width * system.now.width }
    requires row_size { length row.old ≡ system.now.width }
    requires den_some { 0 < den }
    requires short { IsTrue short → IsSmall (2 ^ 62) numbers.now }
    requires room { IsTrue short → HasRoom system.now.width (2 ^ 62) entries.now }
    ensures { IfSome result (λ r. IsDividedRow system.now entries.now numbers.now side den r.0 r.1 row.new) }
{
    wide_side_row(row, system, entries, numbers, side, short)?;
    divide_row(row, den)
}

/// The same, where nothing is known of the numbers.
pub(crate) fn divided_side_row(
    row: &mut [i128],
    system: &WholeSystem,
    entries: &[i64],
    numbers: &[i128],
    side: usize,
    den: u128,
) -> Option<(u128, u128)>
    requires side { side < height system.now }
    requires entries { length entries.now ≡ height system.now * system.now.width }
    requires square { length numbers.now ≡ system.now.width * system.now.width }
    requires row_size { length row.old ≡ system.now.width }
    requires den_some { 0 < den }
    ensures { IfSome result (λ r. IsDividedRow system.now entries.now numbers.now side den r.0 r.1 row.new) }
{
    divided_row(row, system, entries, numbers, side, den, false)
}

/// Whether the variable of a column may enter, by the row of the variable that leaves: an unknown if its coefficient
/// isn't 0, a side if it is positive.
fn enters(system: &WholeSystem, row: &[i128], column: usize, variable: usize) -> bool
    requires column { column < length row.now }
    ensures { (n : ℕ) (seats : List Seat) (p : Position) (k : List ℕ) (l d : ℕ) → 0 < d → variable < n → seat_at seats variable ≡ Column column → HasBasis n seats p → IsRowOf n seats k p d l row.now → result ≡ may_enter system.now p l variable }
{
    if 0 < row[column] {
        return true;
    }
    if row[column] == 0 {
        return false;
    }
    variable < system.unknowns()
}

/// The variable that enters, by the row of the variable that leaves: the first of those in the columns that may.
pub(crate) fn wide_entering(
    system: &WholeSystem,
    nonbasic: &[usize],
    row: &[i128],
    count: usize,
) -> Option<usize>
    requires columns { length nonbasic.now ≡ system.now.width }
    requires row_size { length row.now ≡ system.now.width }
    ensures { (seats : List Seat) (p : Position) (k : List ℕ) (l d : ℕ) → IsSeated (height system.now) system.now.width count seats → AreNonbasic system.now.width seats nonbasic.now → 0 < d → HasBasis count seats p → IsRowOf count seats k p d l row.now → result ≡ least (may_enter system.now p l) count }
{
    let mut first = count;
    for column in 0..system.unknowns() {
        let variable = nonbasic[column];
        if variable < first && enters(system, row, column, variable) {
            first = variable;
        }
    }
    if first < count { Some(first) } else { None }
}
