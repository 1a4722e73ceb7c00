//! One sweep, row by row.

ghost use Rattle.std.specs.Prelude.{◌≡◌, ◌≢◌, ℕ, ◌+◌, ◌-◌, ◌*◌, ◌<◌, ◌≤◌, ◌^◌, ◌++◌, ◌∷◌, [], List, ℤ, IfOk, IfSome, IsTrue, length, get_or, pos, ◌+ℤ◌, ◌*ℤ◌, unsigned_abs};
ghost use Rattle.mpc_linear.specs.Elimination.{Table};
ghost use Rattle.mpc_runs.specs.WholeNumbers.{turned};
ghost use Rattle.mpc_scaled.specs.Scaled.{IsSmall};
ghost use Rattle.mpc_sweep.specs.Numbers.{IsSwept, IsTable, number, told_columns};
ghost use Rattle.mpc_sweep.specs.Steps.{IsNumber, IsOwn, IsScaled, IsChanged, AreWritten, AreRows, AreSweptRows};

use crate::Swept;
use crate::divisor::shared_divisor;
use crate::short::{SHORT, write_short_row};
use mpc_frac::NoMemory;
use mpc_quotients::{Divisor, changed, over_theorems, turned};
use mpc_scaled::greatest;

/// The greatest size of a number.
const MOST: u64 = 1 << 62;

/// One sweep: the number of its row and of its column, the denominator before it, what is taken out of the numbers after it, and how great these
/// may be.
#[derive(Clone, Copy, Drop)]
struct Step {
    pivot_place: usize,
    den: u64,
    by: Divisor,
    most: u64,
}

/// What the numbers of a sweep lie over, and a bound on it and on their sizes.
#[derive(Clone, Copy, Drop)]
struct Scale {
    den: u64,
    most: u64,
}

/// The number times a factor over what is taken out, if it is whole and small.
#[inline]
fn scaled(number: i64, factor: u64, by: Divisor, most: u64) -> Option<i64>
    requires x_small { unsigned_abs number ≤ most }
    requires most_small { most ≤ 2 ^ 62 }
    requires factor_small { factor ≤ 2 ^ 62 }
    requires by_some { 0 < by.den }
    requires by_small { by.den ≤ 2 ^ 62 }
    ensures value { IfSome result (λ z. z *ℤ pos by.den ≡ number *ℤ pos factor) }
    ensures small { IfSome result (λ z. unsigned_abs z ≤ most) }
{
    if by.den == factor || number == 0 {
        return Some(number);
    }
    changed(number, 0, 0, factor, by, most)
}

/// Writes the numbers of the row of the sweep, from the column `first` on, or some of them where one isn't small. With the pivot's sign they
/// lie over its size, and so they are taken from the denominator before to the new one.
fn write_pivot_row(out: &mut [i64], top: &[i64], step: Step, first: usize) -> bool
    requires size { length out.old ≡ length top.now }
    requires column { step.pivot_place < length top.now }
    requires small { IsSmall step.most top.now }
    requires most_small { step.most ≤ 2 ^ 62 }
    requires den_small { step.den ≤ step.most }
    requires by_some { 0 < step.by.den }
    requires by_small { step.by.den ≤ step.most }
    ensures { IsTrue result → AreWritten step.most first (length top.now) (IsOwn step.den step.by.den top.now step.pivot_place) out.old out.new }
{
    let pivot = top[step.pivot_place];
    for column in first..top.len() {
        let number = turned(pivot, top[column]);
        let Some(quotient) = scaled(number, step.den, step.by, step.most) else {
            return false;
        };
        out[column] = quotient;
    }
    true
}

/// Writes the numbers of a row that has nothing in the column of the sweep, from the column `first` on, or some of them where one isn't small.
/// Many of them are 0.
fn write_scaled_row(
    out: &mut [i64],
    row: &[i64],
    size: u64,
    by: Divisor,
    most: u64,
    first: usize,
) -> bool
    requires length { length out.old ≡ length row.now }
    requires small { IsSmall most row.now }
    requires most_small { most ≤ 2 ^ 62 }
    requires size_small { size ≤ 2 ^ 62 }
    requires by_some { 0 < by.den }
    requires by_small { by.den ≤ 2 ^ 62 }
    ensures { IsTrue result → AreWritten most first (length row.now) (IsScaled by.den size row.now) out.old out.new }
{
    for column in first..row.len() {
        let Some(quotient) = scaled(row[column], size, by, most) else {
            return false;
        };
        out[column] = quotient;
    }
    true
}

/// Writes the numbers of another row, from the column `first` on, or some of them where one isn't small.
fn write_changed_row(
    out: &mut [i64],
    row: &[i64],
    top: &[i64],
    by: Divisor,
    pivot_place: usize,
    first: usize,
) -> bool
    requires size { length out.old ≡ length row.now }
    requires top_size { length top.now ≡ length row.now }
    requires column { pivot_place < length row.now }
    requires small { IsSmall (2 ^ 62) row.now }
    requires top_small { IsSmall (2 ^ 62) top.now }
    requires by_some { 0 < by.den }
    requires by_small { by.den ≤ 2 ^ 62 }
    ensures { IsTrue result → AreWritten (2 ^ 62) first (length row.now) (IsChanged by.den row.now top.now pivot_place) out.old out.new }
{
    let pivot = top[pivot_place];
    let size = pivot.unsigned_abs();
    let factor = turned(pivot, row[pivot_place]);
    for column in first..row.len() {
        let Some(quotient) = changed(row[column], factor, top[column], size, by, MOST) else {
            return false;
        };
        out[column] = quotient;
    }
    true
}

/// Writes this row, from the column `first` on, or some of its numbers where one isn't small.
fn write_row(
    out: &mut [i64],
    table: &[i64],
    width: usize,
    step: Step,
    first: usize,
    at_row: usize,
) -> bool
    requires inside { at_row * width + length out.old ≤ length table.now }
    requires pivot_inside { step.pivot_place * width + length out.old ≤ length table.now }
    requires column { step.pivot_place < length out.old }
    requires small { IsSmall step.most table.now }
    requires most_small { step.most ≤ 2 ^ 62 }
    requires bound { step.most ≢ 2 ^ 30 → 2 ^ 62 ≤ step.most }
    requires den_small { step.den ≤ step.most }
    requires by_some { 0 < step.by.den }
    requires by_small { step.by.den ≤ step.most }
    ensures { IsTrue result → AreWritten step.most first (length out.old) (IsNumber width step.den step.by.den table.now step.pivot_place at_row) out.old out.new }
{
    let columns = out.len();
    let pivot_place = step.pivot_place;
    let top = &table[pivot_place * width..pivot_place * width + columns];
    if at_row == pivot_place {
        return write_pivot_row(out, top, step, first);
    }
    let row = &table[at_row * width..at_row * width + columns];
    if row[pivot_place] == 0 {
        let size = top[pivot_place].unsigned_abs();
        return write_scaled_row(out, row, size, step.by, step.most, first);
    }
    if step.most == SHORT {
        return write_short_row(out, row, top, step.by, pivot_place, first);
    }
    write_changed_row(out, row, top, step.by, pivot_place, first)
}

/// Writes all rows, in the columns from `first` on, behind a zero for each column before; or some of them
/// where a number isn't whole, or above the bound, once so much is taken out.
fn write_rows(
    numbers: &mut [i64],
    from: &Swept,
    pivot_place: usize,
    first: usize,
    taken: u64,
    most: u64,
) -> bool
    requires table { IsTable from.now }
    requires row { pivot_place < from.now.rows }
    requires column { pivot_place < from.now.columns }
    requires first { first ≤ from.now.columns }
    requires size { length numbers.old ≡ first + from.now.rows * (from.now.columns - first) }
    requires taken_some { 0 < taken }
    requires taken_small { taken ≤ most }
    requires fits { from.now.most ≤ most }
    requires most_small { most ≤ 2 ^ 62 }
    requires bound { most ≢ 2 ^ 30 → 2 ^ 62 ≤ most }
    ensures { IsTrue result → AreRows most (told_columns from.now) from.now.den taken from.now.numbers.items pivot_place first (from.now.columns - first) from.now.rows numbers.new }
{
    let by = Divisor::of(taken);
    let step = Step {
        pivot_place,
        den: from.den,
        by,
        most,
    };
    let table = from.numbers.as_slice();
    let columns = from.columns;
    let width = columns - from.first;
    let told = columns - first;
    numbers[..first].fill(0);
    for at_row in 0..from.rows {
        let out = &mut numbers[at_row * told..at_row * told + columns];
        if !write_row(out, table, width, step, first, at_row) {
            return false;
        }
    }
    true
}

/// The quotient, if it is whole and small.
fn whole_quotient(over: u128, by: u64) -> Option<u64>
    requires { 0 < by }
    ensures value { IfSome result (λ q. q * by ≡ over) }
    ensures small { IfSome result (λ q. q ≤ 2 ^ 62) }
{
    let quotient = over / by as u128;
    if quotient > 1 << 62 {
        return None;
    }
    let small = quotient as u64;
    if small as u128 * by as u128 == over {
        Some(small)
    } else {
        None
    }
}

/// A bound on small numbers and on what they lie over: that of short ones, if they are short.
pub fn bound_of(numbers: &[i64], den: u64) -> u64
    requires small { IsSmall (2 ^ 62) numbers.now }
    requires den_small { den ≤ 2 ^ 62 }
    ensures numbers { IsSmall result numbers.now }
    ensures den { den ≤ result }
    ensures small { result ≤ 2 ^ 62 }
{
    let most = greatest(numbers);
    if most <= SHORT && den <= SHORT {
        SHORT
    } else {
        MOST
    }
}

/// Writes all rows in lowest terms, and tells what they lie over; or some of them where a number isn't small.
fn write_reduced_rows(
    numbers: &mut [i64],
    from: &Swept,
    pivot_place: usize,
    first: usize,
) -> Option<Scale>
    requires table { IsTable from.now }
    requires row { pivot_place < from.now.rows }
    requires column { pivot_place < from.now.columns }
    requires pivot { number from.now pivot_place pivot_place ≢ pos 0 }
    requires told { from.now.first ≤ pivot_place }
    requires first_told { from.now.first ≤ first }
    requires first { first ≤ from.now.columns }
    requires size { length numbers.old ≡ first + from.now.rows * (from.now.columns - first) }
    ensures { IfSome result (λ s. AreSweptRows from.now pivot_place first s.den s.most numbers.new) }
{
    let size = from.at(pivot_place, pivot_place).unsigned_abs();
    let over = from.den as u128 * size as u128;
    let shared = shared_divisor(from, pivot_place, first, over);
    if shared == 0 || shared > 1 << 62 {
        return None;
    }
    let taken = shared as u64;
    let Some(den) = whole_quotient(over, taken) else {
        return None;
    };
    if !write_rows(numbers, from, pivot_place, first, taken, MOST) {
        return None;
    }
    let most = bound_of(numbers, den);
    Some(Scale { den, most })
}

/// Writes all rows, and tells what they lie over: the size of the pivot where the numbers over it are short, or else
/// small, and else the least one.
fn write_swept_rows(
    numbers: &mut [i64],
    from: &Swept,
    pivot_place: usize,
    first: usize,
) -> Option<Scale>
    requires table { IsTable from.now }
    requires row { pivot_place < from.now.rows }
    requires column { pivot_place < from.now.columns }
    requires pivot { number from.now pivot_place pivot_place ≢ pos 0 }
    requires told { from.now.first ≤ pivot_place }
    requires first_told { from.now.first ≤ first }
    requires first { first ≤ from.now.columns }
    requires size { length numbers.old ≡ first + from.now.rows * (from.now.columns - first) }
    ensures { IfSome result (λ s. AreSweptRows from.now pivot_place first s.den s.most numbers.new) }
{
    let den = from.at(pivot_place, pivot_place).unsigned_abs();
    if from.most <= SHORT && write_rows(numbers, from, pivot_place, first, from.den, SHORT) {
        return Some(Scale { den, most: SHORT });
    }
    if write_rows(numbers, from, pivot_place, first, from.den, MOST) {
        return Some(Scale { den, most: MOST });
    }
    write_reduced_rows(numbers, from, pivot_place, first)
}

/// Sweeps the table at the pivot's row into another one, in the columns from `first` on. It is `false` where a
/// number isn't small, or a column that the sweep reads isn't told.
pub fn sweep_rows(
    from: &Swept,
    out: &mut Swept,
    pivot_place: usize,
    first: usize,
) -> Result<bool, NoMemory>
    requires table { IsTable from.now }
    requires row { pivot_place < from.now.rows }
    requires column { pivot_place < from.now.columns }
    requires pivot { number from.now pivot_place pivot_place ≢ pos 0 }
    requires first { first ≤ from.now.columns }
    ensures { IfOk result (λ done. IsTrue done → (t : Table) (ps : List ℕ) (rows columns before : ℕ) → IsSwept t ps rows columns before from.now
        → before ≤ pivot_place → pivot_place < first → ((k : ℕ) → k < length ps → get_or ps k 0 < pivot_place) → IsSwept t (ps ++ pivot_place ∷ []) rows columns first out.new) }
{
    over_theorems();
    if pivot_place < from.first || first < from.first {
        return Ok(false);
    }
    let count = first + from.rows * (from.columns - first);
    out.numbers.resize(count, 0)?;
    let Some(scale) = write_swept_rows(out.numbers.as_mut_slice(), from, pivot_place, first) else {
        return Ok(false);
    };
    out.rows = from.rows;
    out.columns = from.columns;
    out.first = first;
    out.den = scale.den;
    out.most = scale.most;
    Ok(true)
}
