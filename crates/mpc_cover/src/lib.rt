//! The regions of a program's laws cover its feasible points: where h is positive definite, each point of the box at which some choice of the
//! unknowns satisfies all rows lies in the region of a law of the table.
//!
//! The crate has no code that computes. Each function below does nothing, and its clauses are the theorems that it is named after.
#![tactic(auto)]

ghost use Rattle.std.specs.Prelude.{◌≡◌, ℕ, ◌≤◌, false, List, length};
ghost use Rattle.mpc_exact.specs.Rational.{ℚ};
ghost use Rattle.mpc_space.specs.Vector.{IsSymmetric};
ghost use Rattle.mpc_space.specs.Matrix.{height};
ghost use Rattle.mpc_space.specs.Definite.{IsDefinite};
ghost use Rattle.mpc_sets.specs.RowSet.{IsSetOfRows};
ghost use Rattle.mpc_rows.specs.declared.programs.Qp.{Qp};
ghost use Rattle.mpc_rows.specs.declared.laws.Law.{Law};
ghost use Rattle.mpc_rows.specs.declared.systems.Row.{Row};
ghost use Rattle.mpc_rows.specs.ActiveSets.{IsFeasible, IsIndependentSet};
ghost use Rattle.mpc_rows.specs.Laws.{IsLaw, IsInRegion, moves_at, mults_at};
ghost use Rattle.mpc_rows.specs.LinearSystem.{LinearSystem, IsPoint};
ghost use Rattle.mpc_cover.specs.Cheapest.{IsCheapest, HasMultipliers};
ghost use Rattle.mpc_cover.specs.Implied.{IsClosedSystem, Implies, IsCarried};
ghost use Rattle.mpc_cover.specs.CoverTheorems.{RegionsCover, TablesCover, OneRightVerdict};

/// Each point of the box with an admissible choice lies in the region of a law of the table (active sets: Bemporad, Morari, Dua and
/// Pistikopoulos, 2002; their pruning: Gupta, Bhartiya and Nataraj, 2011).
pub fn cover_theorems()
    ensures covered { RegionsCover }
    ensures of_every_table { TablesCover }
{}

/// The cheapest admissible choice (Karush, 1939; Kuhn and Tucker, 1951): it exists wherever there is an admissible one, with multipliers on
/// independent rows. It is the only choice with multipliers, and what a law gives in its region; so laws agree where their regions meet.
pub fn cheapest_theorems()
    ensures exists { (qp : Qp) → IsSymmetric qp.h.rows → IsDefinite qp.h.rows → (t y : List ℚ) → IsFeasible qp t y → (z : List ℚ) × IsCheapest qp t z × HasMultipliers qp t z }
    ensures single { (qp : Qp) (t x z : List ℚ) → IsCheapest qp t x → IsCheapest qp t z → x ≡ z }
    ensures by_multipliers { (qp : Qp) → IsSymmetric qp.h.rows → IsDefinite qp.h.rows → (t z : List ℚ) → IsFeasible qp t z → HasMultipliers qp t z → IsCheapest qp t z }
    ensures in_its_region { (qp : Qp) (law : Law) → IsSymmetric qp.h.rows → IsDefinite qp.h.rows → IsLaw qp law → (t : List ℚ) → IsInRegion qp law t → IsCheapest qp t (moves_at law t) }
    ensures agree { (qp : Qp) (law other : Law) → IsSymmetric qp.h.rows → IsDefinite qp.h.rows → IsLaw qp law → IsLaw qp other → (t : List ℚ) → IsInRegion qp law t → IsInRegion qp other t → moves_at law t ≡ moves_at other t }
{}

/// Where h is positive definite, an independent set has a law, and laws of one set agree at every point. It has no more members than there are
/// unknowns.
pub fn set_theorems()
    ensures few { (qp : Qp) (s : List ℕ) → IsIndependentSet qp s → length s ≤ height qp.h }
    ensures has_law { (qp : Qp) (s : List ℕ) → IsDefinite qp.h.rows → IsSetOfRows (height qp.g) s → IsIndependentSet qp s → (law : Law) × (law.set ≡ s) × IsLaw qp law }
    ensures same_moves { (qp : Qp) (law other : Law) → IsDefinite qp.h.rows → IsLaw qp law → IsLaw qp other → law.set ≡ other.set → (t : List ℚ) → length t ≡ length qp.counts → moves_at law t ≡ moves_at other t }
    ensures same_multipliers { (qp : Qp) (law other : Law) → IsDefinite qp.h.rows → IsLaw qp law → IsLaw qp other → law.set ≡ other.set → IsIndependentSet qp law.set → (t : List ℚ) → length t ≡ length qp.counts → mults_at law t ≡ mults_at other t }
{}

/// Farkas' lemma (1902) with an independent carrier (Carathéodory, 1911): a system without strict rows that has a point implies exactly the
/// rows that are carried by independent rows of it.
pub fn farkas_theorems()
    ensures carried { (s : LinearSystem) (r : Row) → IsClosedSystem s → length r.a ≡ s.width → (v : List ℚ) → IsPoint s v → Implies s r → IsCarried s r }
    ensures implied { (s : LinearSystem) (r : Row) → IsClosedSystem s → r.strict ≡ false → IsCarried s r → Implies s r }
{}

/// At most one verdict on a set is right.
pub fn one_verdict()
    ensures { OneRightVerdict }
{
    mpc_rows::law_theorems();
}
