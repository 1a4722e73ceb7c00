//! What the pivots of every symmetric matrix tell.

ghost use Rattle.mpc_definite.specs.PivotTheorems.{DefiniteByPivots, NotDefiniteByPivot};

/// A symmetric matrix is positive definite exactly where all its pivots are positive (Golub and Van
/// Loan, 1996, 4.2). The call does nothing: its contract is the theorem.
pub fn pivot_theorems()
    ensures definite { DefiniteByPivots }
    ensures not_definite { NotDefiniteByPivot }
{}
