//! What holds of all numbers that fit a fraction. The call does nothing: its contract is the theorems.

ghost use Rattle.mpc_frac.specs.FitTheorems.{FitTheorems};

/// Whole numbers and quotients of numbers below 2^127 in size fit; so do the negative and the inverse
/// of a number that fits, its sum with 0, and each sum that isn't too wide.
pub fn fit_theorems()
    ensures { FitTheorems }
{}
