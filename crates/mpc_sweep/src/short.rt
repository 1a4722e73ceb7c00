//! Sweeps of numbers of at most 2^30 in size, whose products fit 64 bits.

ghost use Rattle.std.specs.Prelude.{◌≡◌, ◌<◌, ◌≤◌, ◌^◌, IsTrue, length};
ghost use Rattle.mpc_scaled.specs.Scaled.{IsSmall};
ghost use Rattle.mpc_sweep.specs.Steps.{AreWritten, IsChanged};

use mpc_quotients::{Divisor, short_changed, turned};

/// The greatest size of such a number.
pub const SHORT: u64 = 1 << 30;

/// Writes the numbers of a row other than that of the sweep, from the column `first` on, or some of them where one
/// isn't such a number.
pub fn write_short_row(
    out: &mut [i64],
    row: &[i64],
    top: &[i64],
    by: Divisor,
    pivot_place: usize,
    first: usize,
) -> bool
    requires size { length out.old ≡ length row.now }
    requires top_size { length top.now ≡ length row.now }
    requires column { pivot_place < length row.now }
    requires small { IsSmall (2 ^ 30) row.now }
    requires top_small { IsSmall (2 ^ 30) top.now }
    requires by_small { by.den ≤ 2 ^ 30 }
    ensures { IsTrue result → AreWritten (2 ^ 30) first (length row.now) (IsChanged by.den row.now top.now pivot_place) out.old out.new }
{
    let pivot = top[pivot_place];
    let size = pivot.unsigned_abs();
    let factor = turned(pivot, row[pivot_place]);
    for column in first..row.len() {
        let Some(quotient) = short_changed(row[column], factor, top[column], size, by) else {
            return false;
        };
        out[column] = quotient;
    }
    true
}
