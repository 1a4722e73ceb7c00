//! What a swept table says of systems. The call does nothing: its contract is the theorems.

ghost use Rattle.mpc_sweep.specs.Theorems.{PartIsSolved, PartIsDependent, RowIsReduced, NextSweepFits};

use mpc_linear::elimination_theorems;
use mpc_quotients::over_theorems;

/// A table that is swept at the rows of a part shows the solution of the part's system, or that its last
/// column depends on those before it; and in the other rows what is left of them. The numbers
/// of its next sweep fit.
#[inline]
pub fn sweep_theorems()
    ensures solved { PartIsSolved }
    ensures dependent { PartIsDependent }
    ensures reduced { RowIsReduced }
    ensures next { NextSweepFits }
{
    elimination_theorems();
    over_theorems();
}
