//! What holds of all sets of rows. The calls do nothing: their contracts are the theorems.

ghost use Rattle.mpc_sets.specs.SetTheorems.{MemberTheorems, OrderTheorems, CountTheorems, GivenWithoutOne};

/// What a set's members are, and the set with a greater row behind them or without one of them.
pub fn member_theorems()
    ensures { MemberTheorems }
{}

/// The order of sets is total, by the number of members first.
pub fn order_theorems()
    ensures { OrderTheorems }
{}

/// Of the rows 1 to 40 there are at most 4,598,479 sets of at most six members; of the rows 1 to 60
/// at most 523,686 of at most four members and 56,049,058 of at most six.
pub fn count_theorems()
    ensures { CountTheorems }
{}

/// Without any of its members a set of the next level is one of the given sets.
pub fn level_theorem()
    ensures { GivenWithoutOne }
{}
