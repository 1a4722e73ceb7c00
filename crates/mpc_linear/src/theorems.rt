//! What holds of all stored matrices, of all sums of products, of all eliminations, and of all rows in
//! whole numbers. The calls do nothing: their contracts are the theorems.

ghost use Rattle.mpc_linear.specs.GridTheorems.{GridTheorems};
ghost use Rattle.mpc_linear.specs.SumTheorems.{SumTheorems};
ghost use Rattle.mpc_linear.specs.ZeroTheorems.{ZeroTheorems};
ghost use Rattle.mpc_linear.specs.EliminationTheorems.{EliminationAnswers};
ghost use Rattle.mpc_linear.specs.PrimitiveRows.{OnePrimitiveRow, SmallPrimitiveRow};

/// A list that holds the entries row by row is a matrix of its counts, and setting an entry of the
/// matrix is setting it in the list.
#[inline]
pub fn grid_theorems()
    ensures { GridTheorems }
{}

/// A sum of products is formed product by product, and fits where each of them and each sum on the
/// way does.
#[inline]
pub fn sum_theorems()
    ensures { SumTheorems }
{}

/// Adding 0 and multiplying by 0 are never too wide.
#[inline]
pub fn zero_theorems()
    ensures { ZeroTheorems }
{}

/// A row has at most one multiple in whole numbers without a common divisor, and that one is small
/// where the numbers fit that bring the row to whole numbers.
#[inline]
pub fn primitive_theorems()
    ensures one { OnePrimitiveRow }
    ensures small { SmallPrimitiveRow }
{}

/// Where the operations of an elimination fit, it answers for the system: with what stands in the last
/// columns once all are eliminated, or with the first column without a pivot.
#[inline]
pub fn elimination_theorems()
    ensures { EliminationAnswers }
{}
