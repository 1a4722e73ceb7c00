//! What holds of runs that begin alike.

ghost use Rattle.mpc_beginnings.specs.Beginnings.{StandAlike, TurnAlike, RunLonger, RefuteAlike, FormLate, FitInParts, FitRefuted, FitTurned};

use mpc_frac::fit_theorems;

/// A system with further rows behind its own runs as the shorter one does up to its last position:
/// the further sides have the greatest numbers.
///
/// Positions and turns agree; a refuted beginning refutes the whole, with the multiplier 0 for each
/// further row; and what must fit of the longer run falls into what must fit of the shorter one, what
/// the further rows add, and what comes from there on. The call does nothing: its contract is the theorems.
pub fn shared_beginning()
    ensures stand { StandAlike }
    ensures turn { TurnAlike }
    ensures steps { RunLonger }
    ensures refute { RefuteAlike }
    ensures form { FormLate }
    ensures fit { FitInParts }
    ensures fit_refuted { FitRefuted }
    ensures fit_turned { FitTurned }
{
    fit_theorems();
}
