//! What holds of every system, region and law, for those who prove something of them. The calls do nothing: their contracts are the theorems.

ghost use Rattle.mpc_rows.specs.LawTheorems.{FormTheorems, LawTheorems};
ghost use Rattle.mpc_rows.specs.RegionTheorems.{RegionTheorems};
ghost use Rattle.mpc_rows.specs.SystemTheorems.{SystemTheorems};

use mpc_linear::primitive_theorems;

/// Refuted systems have no point, and those with a pair point have one (Farkas 1902, Motzkin 1936); points and multipliers by the numbers of
/// their unknowns and rows.
pub fn system_theorems()
    ensures { SystemTheorems }
{}

/// Which points meet the rows of a box, of a program and of a law, and the systems that decide whether a set can be reached and whether its
/// law has a region.
pub fn region_theorems()
    ensures { RegionTheorems }
{}

/// An independent set has one law, and a law one list of rows.
pub fn law_theorems()
    ensures { LawTheorems }
{
    primitive_theorems();
}

/// The form of a row of a law, and its coefficients on t.
pub fn form_theorems()
    ensures { FormTheorems }
{}
