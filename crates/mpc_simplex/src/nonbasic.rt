//! The nonbasic sides at a position of a run.

ghost use Rattle.std.specs.Prelude.{◌≡◌, ◌≤◌, length, take};
ghost use Rattle.mpc_rows.specs.LinearSystem.{height};
ghost use Rattle.mpc_runs.specs.Table.{IsSeated};
ghost use Rattle.mpc_simplex.specs.Nonbasic.{AreNonbasicSides};

use mpc_rows::System;
use mpc_runs::{Seat, is_basic};

/// Writes the nonbasic sides into the list, in rising order, and answers how many they are: at most
/// as many as there are columns.
pub(crate) fn nonbasic_sides(
    list: &mut [usize],
    system: &System,
    seats: &[Seat],
    variables: usize,
) -> usize
    requires room { length list.old ≡ system.now.width }
    requires seated { IsSeated (height system.now) system.now.width variables seats.now }
    ensures within { result ≤ length list.new }
    ensures sides { AreNonbasicSides system.now.width variables seats.now (take result list.new) }
{
    let mut count = 0;
    for side in system.unknowns()..variables {
        if is_basic(seats, side) {
            continue;
        }
        list[count] = side;
        count += 1;
    }
    count
}
