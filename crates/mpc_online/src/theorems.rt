//! What holds of every run.

ghost use Rattle.mpc_online.specs.OnlineRun.{OneRunEnd};

/// A run ends in one way only: so a run that ends with an answer has no number that is too wide, and at most one step is the first with such
/// a number. The call does nothing: its contract is the theorem.
pub fn run_theorems()
    ensures { OneRunEnd }
{}
