//! What holds of all fractions over a denominator. The call does nothing: its contract is the theorem.

ghost use Rattle.mpc_wholes.specs.OverTheorems.{OverTheorems};

/// A sum of products over a common denominator is the fraction of the sum of the numerators, and each operation on the way fits where the
/// numerators and the denominator are small.
#[inline]
pub fn over_theorems()
    ensures { OverTheorems }
{}
