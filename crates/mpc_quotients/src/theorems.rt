//! What holds of whole numbers over one denominator. The call does nothing: its contract is the theorems.

ghost use Rattle.mpc_quotients.specs.OverTheorems.{OverTheorems};

/// Whole numbers over one denominator, their sums and quotients, and which of them fit 128 bits.
#[inline]
pub fn over_theorems()
    ensures { OverTheorems }
{}
