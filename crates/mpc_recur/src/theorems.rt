//! What holds of the steps of every controller.

ghost use Rattle.mpc_recur.specs.SafetyTheorems.{OneOutcome, RuledOutWhereSafe, FoundLeadsAway, LeadsAwayNotSafe, SafeIsAnswered, SafeIsDecided};
ghost use Rattle.mpc_recur.specs.ClosedLoop.{SafeGoesOn};

use mpc_controller::{one_leaf, one_path, replies_everywhere};
use mpc_rows::{region_theorems, system_theorems};
use mpc_systems::cell_theorems;

/// Of a controller at most one outcome is due: that each target is ruled out, or what is found of the first that isn't. The call does nothing:
/// its contract is the theorem.
pub fn one_outcome()
    ensures { OneOutcome }
{
    one_path();
    system_theorems();
}

/// Each target is ruled out exactly where the controller is safe and no target's forming or run is too wide. Where one is found to be reached,
/// the controller leads there from a state of the box, and then it isn't safe. The call does nothing: its clauses are the theorem.
pub fn ruled_out_where_safe()
    ensures ruled_out { RuledOutWhereSafe }
    ensures leads { FoundLeadsAway }
    ensures not_safe { LeadsAwayNotSafe }
{
    one_leaf();
    replies_everywhere();
    region_theorems();
    cell_theorems();
}

/// A safe controller, of which no target's forming or run is too wide, is answered as safe, and nothing but want of memory hinders that. The
/// call does nothing: its clauses are the theorem.
pub fn safe_is_answered()
    ensures answered { SafeIsAnswered }
    ensures decided { SafeIsDecided }
{
    one_outcome();
    ruled_out_where_safe();
}

/// Where a safe controller has a move, it has one after any number of steps: the closed loop stays in the box. The call does nothing: its
/// contract is the theorem.
pub fn safe_goes_on()
    ensures { SafeGoesOn }
{}
