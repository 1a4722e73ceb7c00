//! Who leaves and who enters, in whole numbers.

ghost use Rattle.std.specs.Prelude.{◌≡◌, ℕ, ℤ, List, ◌+◌, ◌-◌, ◌*◌, ◌<◌, ◌≤◌, ◌^◌, ◌*ℤ◌, ◌≤ℤ◌, pos, IsTrue, unsigned_abs, length, true, false};
ghost use Rattle.mpc_rows.specs.LinearSystem.{height};
ghost use Rattle.mpc_rows.specs.Least.{least};
ghost use Rattle.mpc_rows.specs.Run.{Position, bound, value, may_leave, may_enter};
ghost use Rattle.mpc_exact.specs.Pair.{is_below};
ghost use Rattle.mpc_runs.specs.declared.variables.Seat.{Seat};
ghost use Rattle.mpc_runs.specs.declared.variables.Seat.TheVariants.{Column};
ghost use Rattle.mpc_runs.specs.Table.{seat_at, IsSeated, AreNonbasic};
ghost use Rattle.mpc_quotients.specs.Sums.{are_short, are_of_four};
ghost use Rattle.mpc_runs.specs.Leaving.{StayBefore};
ghost use Rattle.mpc_runs.specs.WholeNumbers.{whole_total};
ghost use Rattle.mpc_whole.specs.Whole.{HasSideValues, HasBasis, IsRowOf, IsSideRow, side_cell};
ghost use Rattle.mpc_scaled.specs.Scaled.{whole_at, whole_cell, IsSmall, HasSides};
ghost use Rattle.mpc_whole.specs.Running.{HasNumbers, IsFrame, AreParts, AreShort};

use crate::frames::Frame;
use crate::whole::Place;
use crate::whole_values::step_of;
use mpc_quotients::{Sums, four_row_times_column, row_times, row_times_column, wide_row_times};
use mpc_runs::{Seat, is_basic};
use mpc_scaled::{WholeSystem, product, signed};

/// Whether the value of a side is above its bound, where their first parts are the same. So few are that this isn't put into the loop
/// over the sides, which then keeps what it needs in registers.
#[inline(never)]
fn is_second_out(
    system: &WholeSystem,
    frame: &Frame,
    _firsts: &[i64],
    seconds: &[i64],
    den: u64,
    side: usize,
) -> bool
    requires side { side < height system.now }
    requires numbers { HasNumbers system.now frame.now.count frame.now.scales.now frame.now.a.now frame.now.b.now }
    requires parts { AreParts system.now.width _firsts.now seconds.now }
    requires den_small { den ≤ 2 ^ 62 }
    requires not_above { whole_total system.now.width (λ j. whole_cell system.now.width frame.now.a.now side j *ℤ whole_at _firsts.now j) ≤ℤ (whole_at frame.now.b.now side *ℤ pos den) }
    requires not_below { (whole_at frame.now.b.now side *ℤ pos den) ≤ℤ whole_total system.now.width (λ j. whole_cell system.now.width frame.now.a.now side j *ℤ whole_at _firsts.now j) }
    ensures { (p : Position) → 0 < den → HasSideValues system.now frame.now.scales.now frame.now.a.now p den _firsts.now seconds.now → HasSides system.now frame.now.scales.now frame.now.b.now
        → result ≡ is_below (bound system.now (system.now.width + side)) (value system.now p (system.now.width + side)) }
{
    let second = wide_row_times(frame.a, side, seconds);
    let step = step_of(system, frame.scales, side);
    let next = product(step, signed(den));
    if next < second {
        return true;
    }
    false
}

/// Whether the value of a side is above its bound.
#[inline(always)]
fn is_out(
    system: &WholeSystem,
    frame: &Frame,
    firsts: &[i64],
    seconds: &[i64],
    den: u64,
    sums: Sums,
    side: usize,
) -> bool
    requires side { side < height system.now }
    requires numbers { HasNumbers system.now frame.now.count frame.now.scales.now frame.now.a.now frame.now.b.now }
    requires parts { AreParts system.now.width firsts.now seconds.now }
    requires short { are_short sums ≡ true → AreShort system.now.width frame.now.a.now firsts.now seconds.now }
    requires four { are_of_four sums ≡ true → system.now.width ≡ 4 }
    requires den_small { den ≤ 2 ^ 62 }
    ensures { (p : Position) → 0 < den → HasSideValues system.now frame.now.scales.now frame.now.a.now p den firsts.now seconds.now → HasSides system.now frame.now.scales.now frame.now.b.now
        → result ≡ is_below (bound system.now (system.now.width + side)) (value system.now p (system.now.width + side)) }
{
    let first = row_times(frame.a, side, firsts, sums);
    let limit = product(frame.b[side], signed(den));
    if limit < first {
        return true;
    }
    if first < limit {
        return false;
    }
    is_second_out(system, frame, firsts, seconds, den, side)
}

/// Whether all numbers are at most so great in size.
fn is_within(list: &[i64], most: u64) -> bool
    ensures { IsTrue result → IsSmall most list.now }
{
    for index in 0..list.len() {
        if list[index].unsigned_abs() > most {
            return false;
        }
    }
    true
}

/// Whether all numbers of both lists are at most so great in size.
fn are_small(firsts: &[i64], seconds: &[i64], most: u64) -> bool
    ensures first { IsTrue result → IsSmall most firsts.now }
    ensures second { IsTrue result → IsSmall most seconds.now }
{
    is_within(firsts, most) && is_within(seconds, most)
}

/// The variable that leaves, from the first on that may, where the values of the sides are summed up so.
#[inline(always)]
pub(crate) fn first_out(
    system: &WholeSystem,
    frame: &Frame,
    seats: &[Seat],
    firsts: &[i64],
    seconds: &[i64],
    place: Place,
    sums: Sums,
) -> Option<usize>
    requires side { system.now.width ≤ place.first }
    requires numbers { HasNumbers system.now frame.now.count frame.now.scales.now frame.now.a.now frame.now.b.now }
    requires seated { IsSeated (height system.now) system.now.width frame.now.count seats.now }
    requires parts { AreParts system.now.width firsts.now seconds.now }
    requires short { are_short sums ≡ true → AreShort system.now.width frame.now.a.now firsts.now seconds.now }
    requires four { are_of_four sums ≡ true → system.now.width ≡ 4 }
    requires den_small { place.den ≤ 2 ^ 62 }
    ensures { (p : Position) → 0 < place.den → HasBasis frame.now.count seats.now p → HasSideValues system.now frame.now.scales.now frame.now.a.now p place.den firsts.now seconds.now → HasSides system.now frame.now.scales.now frame.now.b.now
        → StayBefore system.now p place.first → result ≡ least (may_leave system.now p) frame.now.count }
{
    let width = system.unknowns();
    for variable in place.first..frame.count {
        if !is_basic(seats, variable) {
            continue;
        }
        if is_out(
            system,
            frame,
            firsts,
            seconds,
            place.den,
            sums,
            variable - width,
        ) {
            return Some(variable);
        }
    }
    None
}

/// The variable that leaves, from the first on that may. The loop over the sides stands there once for each way of
/// summing up, so that it isn't chosen again at each side.
#[inline(never)]
pub(crate) fn leaving(
    system: &WholeSystem,
    frame: &Frame,
    seats: &[Seat],
    firsts: &[i64],
    seconds: &[i64],
    place: Place,
) -> Option<usize>
    requires side { system.now.width ≤ place.first }
    requires frame { IsFrame system.now frame.now.count frame.now.scales.now frame.now.a.now frame.now.b.now frame.now.most }
    requires seated { IsSeated (height system.now) system.now.width frame.now.count seats.now }
    requires parts { AreParts system.now.width firsts.now seconds.now }
    requires den_small { place.den ≤ 2 ^ 62 }
    ensures { (p : Position) → 0 < place.den → HasBasis frame.now.count seats.now p → HasSideValues system.now frame.now.scales.now frame.now.a.now p place.den firsts.now seconds.now → HasSides system.now frame.now.scales.now frame.now.b.now
        → StayBefore system.now p place.first → result ≡ least (may_leave system.now p) frame.now.count }
{
    if !are_small(firsts, seconds, frame.most) {
        return first_out(system, frame, seats, firsts, seconds, place, Sums::Wide);
    }
    if system.unknowns() == 4 {
        return first_out(system, frame, seats, firsts, seconds, place, Sums::Four);
    }
    first_out(system, frame, seats, firsts, seconds, place, Sums::Short)
}

/// The row of a side, where there are four unknowns.
fn four_side_row(row: &mut [i64], entries: &[i64], numbers: &[i64], side: usize)
    requires entries { side * 4 + 4 ≤ length entries.now }
    requires square { length numbers.now ≡ 16 }
    requires row_room { length row.old ≡ 4 }
    requires row_small { (column : ℕ) → column < 4 → unsigned_abs (whole_total 4 (λ unknown. whole_cell 4 entries.now side unknown *ℤ whole_cell 4 numbers.now unknown column)) ≤ 2 ^ 62 }
    ensures cells { (column : ℕ) → column < 4 → whole_at row.new column ≡ whole_total 4 (λ unknown. whole_cell 4 entries.now side unknown *ℤ whole_cell 4 numbers.now unknown column) }
{
    for column in 0..4 {
        row[column] = four_row_times_column(entries, side, numbers, column);
    }
}

/// The row of a side.
fn side_row(row: &mut [i64], system: &WholeSystem, entries: &[i64], numbers: &[i64], side: usize)
    requires side { side < height system.now }
    requires entries { length entries.now ≡ height system.now * system.now.width }
    requires square { length numbers.now ≡ system.now.width * system.now.width }
    requires row_room { length row.old ≡ system.now.width }
    requires row_small { (column : ℕ) → column < system.now.width → unsigned_abs (whole_total system.now.width (λ unknown. whole_cell system.now.width entries.now side unknown *ℤ whole_cell system.now.width numbers.now unknown column)) ≤ 2 ^ 62 }
    ensures cells { (column : ℕ) → column < system.now.width → whole_at row.new column ≡ whole_total system.now.width (λ unknown. whole_cell system.now.width entries.now side unknown *ℤ whole_cell system.now.width numbers.now unknown column) }
{
    let width = system.unknowns();
    if width == 4 {
        return four_side_row(row, entries, numbers, side);
    }
    for column in 0..width {
        row[column] = row_times_column(entries, side, numbers, width, column);
    }
}

/// The row of the variable that leaves, which is a side.
pub(crate) fn leaving_row(
    row: &mut [i64],
    system: &WholeSystem,
    entries: &[i64],
    numbers: &[i64],
    leaving: usize,
)
    requires from { system.now.width ≤ leaving }
    requires side { leaving - system.now.width < height system.now }
    requires entries { length entries.now ≡ height system.now * system.now.width }
    requires square { length numbers.now ≡ system.now.width * system.now.width }
    requires row_size { length row.old ≡ system.now.width }
    requires row_small { (column : ℕ) → column < system.now.width → unsigned_abs (side_cell system.now entries.now numbers.now (leaving - system.now.width) column) ≤ 2 ^ 62 }
    ensures row { IsSideRow system.now entries.now numbers.now (leaving - system.now.width) row.new }
    ensures small { IsSmall (2 ^ 62) row.new }
{
    side_row(row, system, entries, numbers, leaving - system.unknowns());
}

/// Whether the variable of a column may enter, by the row of the variable that leaves: an unknown if its coefficient
/// isn't 0, a side if it is positive.
fn enters(system: &WholeSystem, row: &[i64], column: usize, variable: usize) -> bool
    requires column { column < length row.now }
    requires row_small { IsSmall (2 ^ 62) row.now }
    ensures { (n : ℕ) (seats : List Seat) (p : Position) (k : List ℕ) (l d : ℕ) → 0 < d → variable < n → seat_at seats variable ≡ Column column → HasBasis n seats p → IsRowOf n seats k p d l row.now → result ≡ may_enter system.now p l variable }
{
    if 0 < row[column] {
        return true;
    }
    if row[column] == 0 {
        return false;
    }
    variable < system.unknowns()
}

/// The variable that enters, by the row of the variable that leaves: the first of those in the columns that may.
pub(crate) fn entering(
    system: &WholeSystem,
    nonbasic: &[usize],
    row: &[i64],
    count: usize,
) -> Option<usize>
    requires columns { length nonbasic.now ≡ system.now.width }
    requires row_size { length row.now ≡ system.now.width }
    requires row_small { IsSmall (2 ^ 62) row.now }
    ensures { (seats : List Seat) (p : Position) (k : List ℕ) (l d : ℕ) → IsSeated (height system.now) system.now.width count seats → AreNonbasic system.now.width seats nonbasic.now → 0 < d → HasBasis count seats p → IsRowOf count seats k p d l row.now → result ≡ least (may_enter system.now p l) count }
{
    let mut first = count;
    for column in 0..system.unknowns() {
        let variable = nonbasic[column];
        if variable < first && enters(system, row, column, variable) {
            first = variable;
        }
    }
    if first < count { Some(first) } else { None }
}
