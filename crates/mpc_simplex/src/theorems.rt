//! What holds of every least-number run.

ghost use Rattle.mpc_simplex.specs.RunTheorems.{NoBasisTwice, GoesOnBefore, StopsAtTheEnd, HasFewSteps, ZeroTest};

/// That no basis stands at two positions of a run (Bland 1977); that a run goes on before its
/// stated number of steps and is at its end after it; that it takes fewer steps than there are sets
/// of variables. The call does nothing: its contract is the theorems.
pub fn run_theorems()
    ensures no_basis_twice { NoBasisTwice }
    ensures goes_on { GoesOnBefore }
    ensures stops { StopsAtTheEnd }
    ensures few_steps { HasFewSteps }
{}

/// That the test for 0 is passed by 0 alone. The call does nothing: its contract is the theorem.
pub fn zero_test()
    ensures { ZeroTest }
{}
