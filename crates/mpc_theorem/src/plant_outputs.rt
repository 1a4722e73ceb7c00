//! What `run`, `solve` and `robust` write.

ghost use Rattle.mpc_theorem.specs.PlantOutputs.{RepliesAreLines, OneReplies, SolvedByRun, RobustlySolvedByRun, ExactIsSolved, ExactIsRobustlySolved};

use crate::plant_files::plant_texts;
use mpc_plant::one_right_reply;

/// The replies of a plant are a line for each line of counts, with the reply at each state that is right, and an input has one such output.
/// What is solved state by state is such lines too, of which some may say that a number of the state's run is too wide. The call does
/// nothing: its clauses are the theorem.
pub fn output_lines()
    ensures replies { RepliesAreLines }
    ensures one { OneReplies }
    ensures solve { SolvedByRun }
    ensures robust { RobustlySolvedByRun }
    ensures solved { ExactIsSolved }
    ensures robustly_solved { ExactIsRobustlySolved }
{
    plant_texts();
    one_right_reply();
}
