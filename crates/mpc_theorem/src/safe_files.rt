//! What holds of the files of controllers whose closed loop is followed.

ghost use Rattle.mpc_theorem.specs.SafeFiles.{DueIsFound, OneSafetyDue, AnswerIsDue, SafeIsForever};

use mpc_check::accepted_replies;
use mpc_file::each_text;
use mpc_files::one_safety_answer;
use mpc_recur::ruled_out_where_safe;

/// What is due to such a file is what the tests of the targets find: where the closed loop leaves, the checker accepts the controller, and the
/// loop comes from a state with an admissible sequence to one outside the box or without a move; and a file is safe exactly where each target
/// is ruled out. At most one thing is due. What is answered is due, and what is answered as safe is right forever. The call does nothing: its clauses are the theorem.
pub fn safe_file_theorems()
    ensures due { DueIsFound }
    ensures one { OneSafetyDue }
    ensures answered { AnswerIsDue }
    ensures forever { SafeIsForever }
{
    accepted_replies();
    each_text();
    ruled_out_where_safe();
    one_safety_answer();
}
