//! Whether a system of linear rows, some of them strict, has a point: the simplex method with the rule of least numbers.
#![tactic(auto)]

ghost use Rattle.std.specs.Prelude.{IfOk, MatchResult};
ghost use Rattle.mpc_rows.specs.LinearSystem.{IsPairPoint};
ghost use Rattle.mpc_rows.specs.Refutation.{Refutes};
ghost use Rattle.mpc_rows.specs.RunWidth.{RunFits};
ghost use Rattle.mpc_simplex.specs.Answer.{IfPoint, IfRefuted, IfWide, HasPoint, IsRunEnd};

mod beginnings;
mod nonbasic;
mod numbers;
mod run;
mod sides;
mod tableau;
mod theorems;

pub use beginnings::{Beginning, Broken};
pub use mpc_beginnings::{Meeting, Workspace};
use mpc_rows::{Multipliers, PairPoint, System, system_theorems};
use run::{fraction_end, run_end};
use std::alloc::Global;
pub use theorems::{run_theorems, zero_test};
use thiserror::Error;

/// What a system is found to have.
#[derive(Drop)]
pub enum Decision {
    /// A point `q + d r` at every small enough positive d.
    Point(PairPoint),
    /// No point, as these multipliers show.
    Refuted(Multipliers),
}

/// Why a system isn't decided.
#[derive(Clone, Copy, Debug, PartialEq, Eq, Drop, Error)]
pub enum SimplexError {
    /// The run forms a number that needs more than 128 bits.
    #[error("a number is too wide for 128 bits")]
    Wide,
    /// There is no more memory.
    #[error("out of memory")]
    NoMemory,
}

/// Whether the system has a point, by the simplex method with the rule of least numbers (Bland
/// 1977), strict rows in pairs of fractions.
///
/// A system is run in whole numbers as long as they stay small, each row times a scale that makes it
/// whole, and in fractions elsewhere. Each of the two takes all its memory before its first step.
/// `Wide` where the run forms a number that doesn't fit.
pub fn decide(alloc: Global, system: &System) -> Result<Decision, SimplexError>
    ensures point { IfOk result (λ d. IfPoint d (IsPairPoint system.now)) }
    ensures has_point { IfOk result (λ d. IfPoint d (λ _. HasPoint system.now)) }
    ensures refuted { IfOk result (λ d. IfRefuted d (Refutes system.now)) }
    ensures no_point { IfOk result (λ d. IfRefuted d (λ _. ¬ HasPoint system.now)) }

    // The answer is that of the stated run.
    ensures end { IfOk result (λ d. IsRunEnd system.now d) }
    ensures wide { MatchResult result (λ _. RunFits system.now) (λ e. IfWide e (¬ RunFits system.now)) }
{
    let _ = &system.rows;
    system_theorems();
    run_end(alloc, system)
}

/// The same as [`decide`], by a run in fractions alone: for a system whose run in whole numbers was tried before and didn't serve.
pub fn decide_in_fractions(alloc: Global, system: &System) -> Result<Decision, SimplexError>
    ensures point { IfOk result (λ d. IfPoint d (IsPairPoint system.now)) }
    ensures has_point { IfOk result (λ d. IfPoint d (λ _. HasPoint system.now)) }
    ensures refuted { IfOk result (λ d. IfRefuted d (Refutes system.now)) }
    ensures no_point { IfOk result (λ d. IfRefuted d (λ _. ¬ HasPoint system.now)) }

    // The answer is that of the stated run.
    ensures end { IfOk result (λ d. IsRunEnd system.now d) }
    ensures wide { MatchResult result (λ _. RunFits system.now) (λ e. IfWide e (¬ RunFits system.now)) }
{
    let _ = &system.rows;
    system_theorems();
    fraction_end(alloc, system)
}
