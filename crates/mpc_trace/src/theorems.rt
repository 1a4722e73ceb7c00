//! What holds of every finished history.

ghost use Rattle.mpc_trace.specs.Histories.{ClaimsEachOnce};
ghost use Rattle.mpc_trace.specs.Drills.{OneDrill};

use mpc_claim::{history_theorems, legal_theorems};
use mpc_synthesis::one_outcome;

/// A finished history claims each candidate of its program once and delivers each once. The call does nothing: its clause is the theorem.
pub fn finished_histories()
    ensures { ClaimsEachOnce }
{
    legal_theorems();
    history_theorems();
}

/// A drill's number has one plant, and at most one outcome is that of a drill. The call does nothing: its clause is the theorem.
pub fn one_drill()
    ensures { OneDrill }
{
    one_outcome();
}
