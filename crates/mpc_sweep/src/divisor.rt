//! What divides all numbers that a sweep would leave. No clause says so: whoever divides by it multiplies back,
//! which shows it.

ghost use Rattle.std.specs.Prelude.{◌≡◌, ◌<◌, length};
ghost use Rattle.mpc_sweep.specs.Numbers.{IsTable};

use crate::Swept;
use mpc_frac::greatest_common_divisor;

/// What divides both.
#[inline]
fn shared_with(shared: u128, number: u128) -> u128 {
    if shared != 0 && number % shared == 0 {
        shared
    } else {
        greatest_common_divisor(number, shared)
    }
}

/// The size of `entry pivot - factor top`.
#[inline]
fn difference_size(entry: i64, factor: i64, top: i64, pivot: u64) -> u128 {
    let first = (entry as i128).wrapping_mul(pivot as i128);
    let second = (factor as i128).wrapping_mul(top as i128);
    first.wrapping_sub(second).unsigned_abs()
}

/// What divides a number and those that a sweep leaves in another row, from the column `first` on.
fn shared_with_row(row: &[i64], top: &[i64], pivot_place: usize, first: usize, before: u128) -> u128
    requires top_size { length top.now ≡ length row.now }
    requires column { pivot_place < length row.now }
{
    let pivot = top[pivot_place];
    let size = pivot.unsigned_abs();
    let factor = if pivot < 0 {
        row[pivot_place].wrapping_neg()
    } else {
        row[pivot_place]
    };
    let mut shared = before;
    for column in first..row.len() {
        shared = shared_with(
            shared,
            difference_size(row[column], factor, top[column], size),
        );
    }
    shared
}

/// What divides a number and those of the row of the sweep, from the column `first` on, over the denominator
/// before times the pivot.
fn shared_with_pivot_row(top: &[i64], den: u64, first: usize, before: u128) -> u128 {
    let mut shared = before;
    for column in first..top.len() {
        let number = top[column].unsigned_abs() as u128 * den as u128;
        shared = shared_with(shared, number);
    }
    shared
}

/// What divides a number and all that a sweep at the pivot's row leaves, from the column `first` on.
pub fn shared_divisor(from: &Swept, pivot_place: usize, first: usize, over: u128) -> u128
    requires table { IsTable from.now }
    requires row { pivot_place < from.now.rows }
    requires column { pivot_place < from.now.columns }
{
    let width = from.columns - from.first;
    let table = from.numbers.as_slice();
    let top = &table[pivot_place * width..pivot_place * width + from.columns];
    let mut shared = shared_with_pivot_row(top, from.den, first, over);
    for at_row in 0..from.rows {
        if at_row != pivot_place {
            let row = &table[at_row * width..at_row * width + from.columns];
            shared = shared_with_row(row, top, pivot_place, first, shared);
        }
    }
    shared
}
