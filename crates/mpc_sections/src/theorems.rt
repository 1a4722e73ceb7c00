//! What holds of every section.

ghost use Rattle.mpc_sections.specs.Alone.{OneAlone, OneText};
ghost use Rattle.mpc_sections.specs.Outcomes.{OneFleetOutcome};

use mpc_plant::one_reading;
use mpc_synthesis::{one_controller, one_outcome};

/// A section by itself has one status and one text, whoever makes them, and so sections have one text under their headings. The call does
/// nothing: its clauses are the theorem.
pub fn one_answer()
    ensures alone { OneAlone }
    ensures text { OneText }
    ensures outcome { OneFleetOutcome }
{
    one_reading();
    one_controller();
    one_outcome();
    mpc_file::one_text();
}
