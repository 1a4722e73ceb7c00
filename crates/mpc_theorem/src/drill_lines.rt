//! What is written of a drill.

ghost use Rattle.mpc_theorem.specs.DrillLines.{DrilledIsLine};

use mpc_synthesis::right_controller;

/// What the library counts of a drill is what its line means. The call does nothing: its clause is the theorem.
pub fn drill_line_theorems()
    ensures { DrilledIsLine }
{
    right_controller();
}
