//! What holds of whole numbers that stand for a position of a run. The call does nothing: its contract is the theorems.

ghost use Rattle.mpc_whole.specs.PositionTheorems.{PositionTheorems};

/// Whole numbers that stand for a position of a run, and which sizes show that no operation there is wide.
#[inline]
pub fn position_theorems()
    ensures { PositionTheorems }
{}
