//! The variables of a system, by number: its unknowns, then the left sides of its rows.

ghost use Rattle.std.specs.Prelude.{◌≡◌, ◌+◌, ◌<◌, ◌≤◌, ◌&&◌, not, ltb};
ghost use Rattle.mpc_exact.specs.Pair.{is_below};
ghost use Rattle.mpc_rows.specs.LinearSystem.{height};
ghost use Rattle.mpc_rows.specs.Least.{or_at};
ghost use Rattle.mpc_rows.specs.Run.{is_unknown, bound, rest};

use crate::numbers::is_below;
use mpc_frac::Frac;
use mpc_rows::System;
use mpc_runs::{Standing, is_unknown, zero};

/// The bound of a side.
fn bound(system: &System, side: usize) -> Standing
    requires from { system.now.width ≤ side }
    requires below { side < system.now.width + height system.now }
    ensures first { result.0 ≡ (bound system.now side).first }
    ensures second { result.1 ≡ (bound system.now side).second }
{
    let row = system.row(side - system.unknowns());
    let second = if row.strict { Frac::whole(-1) } else { zero() };
    (row.b, second)
}

/// Where a variable stands while it is not basic.
pub(crate) fn rest(system: &System, variable: usize) -> Standing
    requires { variable < system.now.width + height system.now }
    ensures first { result.0 ≡ (rest system.now variable).first }
    ensures second { result.1 ≡ (rest system.now variable).second }
{
    if is_unknown(system, variable) {
        (zero(), zero())
    } else {
        bound(system, variable)
    }
}

/// The first of the variables above their bounds, where this one with its value comes after those before.
pub(crate) fn earlier(
    system: &System,
    out: Option<usize>,
    variable: usize,
    value: &Standing,
) -> Option<usize>
    requires { variable < system.now.width + height system.now }
    ensures { result ≡ or_at out (not (ltb variable system.now.width) && is_below (bound system.now variable) (record { first = value.now.0; second = value.now.1 })) variable }
{
    match out {
        Some(before) => Some(before),
        None => if is_unknown(system, variable) {
            None
        } else if is_below(&bound(system, variable), value) {
            Some(variable)
        } else {
            None
        },
    }
}
