//! The cheapest admissible choice at one state, by a dual active-set method.
#![tactic(auto)]

ghost use Rattle.std.specs.Prelude.{◌≡◌, List, IfOk, MatchResult, length, ⊤};
ghost use Rattle.mpc_exact.specs.Rational.{ℚ};
ghost use Rattle.mpc_space.specs.Vector.{IsSymmetric};
ghost use Rattle.mpc_space.specs.Matrix.{height};
ghost use Rattle.mpc_space.specs.Definite.{IsDefinite};
ghost use Rattle.mpc_rows.specs.ActiveSets.{IsInBox, IsFeasible};
ghost use Rattle.mpc_rows.specs.Refutation.{Refutes};
ghost use Rattle.mpc_cover.specs.Cheapest.{IsCheapest};
ghost use Rattle.mpc_online.specs.StateRows.{point_of, state_system};
ghost use Rattle.mpc_online.specs.OnlineRun.{IsRunEnd, answered, wide_in};
ghost use Rattle.mpc_online.specs.Shared.{IsPreparedFor};
ghost use Rattle.mpc_online.specs.Answers.{IfBest, IfRefuted, IfWide};

mod counts;
mod directions;
mod evens;
mod matrices;
mod moves;
mod numbers;
mod opening;
mod points;
mod prepared;
mod refuting;
mod run;
mod shared;
mod sides;
mod solutions;
mod tests_of_rows;
mod theorems;
mod turns;
mod whole_moves;
mod wholes;

pub use directions::prepare;
use directions::prepared_with;
use mpc_cover::cheapest_theorems;
use mpc_linear::Vector;
use mpc_rows::{Multipliers, Qp, system_theorems};
pub use prepared::Prepared;
use run::answer;
use std::alloc::Global;
pub use theorems::run_theorems;
use thiserror::Error;

/// What is found at a state.
#[derive(Drop)]
pub enum Online {
    /// The cheapest admissible choice: all unknowns, in their order.
    Best(Vector),
    /// No choice is admissible, as these multipliers show, one for each row.
    Refuted(Multipliers),
}

/// Why nothing is found at a state.
#[derive(Clone, Copy, Debug, PartialEq, Eq, Drop, Error)]
pub enum OnlineError {
    /// The run forms a number that needs more than 128 bits, in this step for the first time.
    #[error("step {0} needs numbers of more than 128 bits")]
    Wide(u64),
    /// There is no more memory.
    #[error("out of memory")]
    NoMemory,
}

/// What `solve_at` says, by what all states of the program share: its Hessian isn't eliminated anew in each step.
pub fn solve_prepared(
    alloc: Global,
    qp: &Qp,
    prepared: &mut Prepared,
    counts: &[u64],
) -> Result<Online, OnlineError>
    requires definite { IsDefinite qp.now.h.rows }
    requires symmetric { IsSymmetric qp.now.h.rows }
    requires prepared { IsPreparedFor qp.now prepared.old }
    requires in_box { IsInBox qp.now.counts (point_of counts.now) }

    // What is shared stays that of the program, whatever is found.
    ensures prepared { IsPreparedFor qp.now prepared.new }

    // The choice is admissible, and every other admissible choice costs more.
    ensures best { IfOk result (λ o. IfBest o (IsCheapest qp.now (point_of counts.now))) }

    // The multipliers refute the rows at the state, so no choice is admissible.
    ensures refuted { IfOk result (λ o. IfRefuted o (Refutes (state_system qp.now (point_of counts.now)))) }
    ensures one_each { IfOk result (λ o. IfRefuted o (λ m. length m ≡ height qp.now.g)) }
    ensures infeasible { IfOk result (λ o. IfRefuted o (λ _. (z : List ℚ) → ¬ IsFeasible qp.now (point_of counts.now) z)) }

    // The answer is the end of the stated run, which has one end.
    ensures end { IfOk result (λ o. IsRunEnd qp.now (point_of counts.now) (answered o)) }
    ensures wide { MatchResult result (λ _. ⊤) (λ e. IfWide e (λ step. IsRunEnd qp.now (point_of counts.now) (wide_in step))) }
{
    cheapest_theorems();
    system_theorems();
    answer(alloc, qp, prepared, counts)
}

/// The cheapest admissible choice of the program's unknowns at the counts, or multipliers that show that there is none, by a dual active-set
/// method (Goldfarb and Idnani, 1983).
///
/// It begins with the cheapest choice without rows, as step 0. Each further step moves towards the first row that isn't met, along which the
/// members of the active set hold with equality, until a member's multiplier is 0 and it leaves, or the row holds too and joins. The cost
/// of the relaxed problem rises with each row that joins, so no active set comes twice, and the run ends.
pub fn solve_at(alloc: Global, qp: &Qp, counts: &[u64]) -> Result<Online, OnlineError>
    requires definite { IsDefinite qp.now.h.rows }
    requires symmetric { IsSymmetric qp.now.h.rows }
    requires in_box { IsInBox qp.now.counts (point_of counts.now) }

    // The choice is admissible, and every other admissible choice costs more.
    ensures best { IfOk result (λ o. IfBest o (IsCheapest qp.now (point_of counts.now))) }

    // The multipliers refute the rows at the state, so no choice is admissible.
    ensures refuted { IfOk result (λ o. IfRefuted o (Refutes (state_system qp.now (point_of counts.now)))) }
    ensures one_each { IfOk result (λ o. IfRefuted o (λ m. length m ≡ height qp.now.g)) }
    ensures infeasible { IfOk result (λ o. IfRefuted o (λ _. (z : List ℚ) → ¬ IsFeasible qp.now (point_of counts.now) z)) }

    // The answer is the end of the stated run, which has one end.
    ensures end { IfOk result (λ o. IsRunEnd qp.now (point_of counts.now) (answered o)) }
    ensures wide { MatchResult result (λ _. ⊤) (λ e. IfWide e (λ step. IsRunEnd qp.now (point_of counts.now) (wide_in step))) }
{
    let Ok(mut alone) = prepared_with(alloc, qp, None) else {
        return Err(OnlineError::NoMemory);
    };
    solve_prepared(alloc, qp, &mut alone, counts)
}
