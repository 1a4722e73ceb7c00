//! What holds of the systems of every cell. The call does nothing: its contract is the theorems.

ghost use Rattle.mpc_systems.specs.CellTheorems.{CellTheorems};

use mpc_rows::region_theorems;

/// Which points the systems of a cell have: the cell's states in the region of a law, those where a row fails, and those with admissible
/// unknowns. Each of their rows has one coefficient for each unknown.
pub fn cell_theorems()
    ensures { CellTheorems }
{
    region_theorems();
}
