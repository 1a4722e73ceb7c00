//! What holds of every input, and of every program's replies.

ghost use Rattle.mpc_states.specs.Outcomes.{OneSolveOutcome, OneRobustOutcome};
ghost use Rattle.mpc_states.specs.StateTheorems.{ProgramIsRight, RobustProgramIsRight, SolveIsComplete, RobustIsComplete};

use mpc_condense::{one_program, one_program_outcome, program_theorems};
use mpc_plant::one_reading;
use mpc_tight::tight_theorems;

/// The cheapest choice of a plant's program begins with the first move of the best sequence, and where there is no choice, no sequence is
/// admissible; so it is with a tightened program, the robustly best sequence and the robustly admissible ones. The call does nothing: its
/// clauses are the theorem.
pub fn right_programs()
    ensures plain { ProgramIsRight }
    ensures robust { RobustProgramIsRight }
{
    program_theorems();
}

/// At most one outcome is that of an input of `solve`, and one that of an input of `robust`. The call does nothing: its clauses are the theorem.
pub fn one_outcome()
    ensures solve { OneSolveOutcome }
    ensures robust { OneRobustOutcome }
{
    one_reading();
    one_program();
    one_program_outcome();
    tight_theorems();
}

/// An input of whose plant, noise and rows nothing is refused has replies. The call does nothing: its clauses are the theorem.
pub fn complete_inputs()
    ensures solve { SolveIsComplete }
    ensures robust { RobustIsComplete }
{
    one_reading();
}
