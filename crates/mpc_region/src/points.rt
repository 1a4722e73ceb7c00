//! Whether a system has a point, where whole numbers don't serve.

ghost use Rattle.std.specs.Prelude.{IsTrue, ◌↔◌, IfOk, MatchResult};
ghost use Rattle.mpc_rows.specs.RunWidth.{RunFits};
ghost use Rattle.mpc_simplex.specs.Answer.{HasPoint, IfWide};

use mpc_rows::System;
use mpc_simplex::{Decision, SimplexError, decide_in_fractions};
use std::alloc::Global;

/// Whether the system has a point, by a run in fractions: what asks this has tried whole numbers before.
pub fn has_point(alloc: Global, system: &System) -> Result<bool, SimplexError>
    ensures answer { IfOk result (λ yes. IsTrue yes ↔ HasPoint system.now) }
    ensures wide { MatchResult result (λ _. RunFits system.now) (λ e. IfWide e (¬ RunFits system.now)) }
{
    match decide_in_fractions(alloc, system) {
        Ok(Decision::Point(_)) => Ok(true),
        Ok(Decision::Refuted(_)) => Ok(false),
        Err(error) => Err(error),
    }
}
