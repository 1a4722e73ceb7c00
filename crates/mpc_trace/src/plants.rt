//! The plants of the drills.

ghost use Rattle.std.specs.Prelude.{◌≡◌, pos, ◌+ℤ◌, IfOk};
ghost use Rattle.mpc_trace.specs.DrillPlant.{IsDrillPlant, input_bound as bound_of, input_digit, turn_of, weight_digit};

use crate::entries::{one_by_one, pair, single, two_by_one, two_by_two};
use crate::limits::{grid, rows, terminal};
use mpc_frac::NoMemory;
use mpc_plant::Plant;
use std::alloc::Global;

/// The greatest input, whichever its sign is.
fn input_bound(number: u32) -> i64
    ensures { result ≡ bound_of number }
{
    i64::from(number % 8) - 1
}

/// The rate of the second coordinate by the first.
fn turn(number: u32) -> i64
    ensures { result ≡ turn_of number }
{
    i64::from(number / 8 % 3) - 1
}

/// Whether the input moves the first coordinate too, as 0 or 1.
fn input(number: u32) -> i64
    ensures { result ≡ pos (input_digit number) }
{
    i64::from(number / 24 % 2)
}

/// The weight of the first coordinate.
fn weight(number: u32) -> i64
    ensures { result ≡ pos 1 +ℤ pos (weight_digit number) }
{
    1 + i64::from(number / 48 % 2)
}

/// The plant of the drill with this number: two coordinates and one input over three steps.
///
/// The number's digits, of which there are eight, three, two and two, choose the greatest input, the rate of the second coordinate by the
/// first, whether the input moves the first coordinate too, and the weight of the first coordinate.
pub fn drill_plant(alloc: Global, number: u32) -> Result<Plant, NoMemory>
    ensures { IfOk result (IsDrillPlant number) }
{
    let state_matrix = two_by_two(alloc, 1, 1, turn(number))?;
    let input_matrix = two_by_one(alloc, input(number), 1)?;
    let state_costs = two_by_two(alloc, weight(number), 0, 0)?;
    let input_costs = one_by_one(alloc, 1)?;
    let last = two_by_two(alloc, 1, 0, 0)?;
    let drift = pair(alloc, 0, 0)?;
    let xgoal = pair(alloc, 0, 0)?;
    let ugoal = single(alloc, 0)?;
    let rows = rows(alloc, input_bound(number))?;
    let terminal = terminal(alloc)?;
    let grid = grid(alloc)?;
    Ok(Plant {
        n: 2,
        p: 1,
        horizon: 3,
        a: state_matrix,
        b: input_matrix,
        q: state_costs,
        r: input_costs,
        last,
        drift,
        xgoal,
        ugoal,
        rows,
        terminal,
        grid,
    })
}
