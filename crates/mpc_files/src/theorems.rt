//! What holds of every file.

ghost use Rattle.mpc_files.specs.FileOutcomes.{OneFileReading, OneFileOutcome};
ghost use Rattle.mpc_files.specs.FileTheorems.{OneReplyText, OneConversion, ThreeIsKept};
ghost use Rattle.mpc_files.specs.RightForever.{SafeStaysRight};
ghost use Rattle.mpc_files.specs.SafetyOutcomes.{OneSafetyOutcome, AnswerIsOutcome, CauseIsOutcome};

use mpc_check::{accepted_replies, one_finding};
use mpc_controller::replies_everywhere;
use mpc_file::one_reading;
use mpc_plant::one_right_reply;
use mpc_recur::{one_outcome, safe_goes_on};

/// Of bytes at most one answer is due. Where they are read, they fail at one line for one reason, or they spell one controller. Where
/// they are checked too, they fail at a line, or one thing is found of the controller: a spot, a place with a number that is too wide,
/// or a pivot that isn't positive; or it is accepted. The call does nothing: its clauses are the theorem.
pub fn one_file_answer()
    ensures reading { OneFileReading }
    ensures outcome { OneFileOutcome }
{
    one_reading();
    one_finding();
}

/// A file has one text of replies to given lines, and one text in version 3, which is its own where it is of that version. The call does
/// nothing: its clauses are the theorem.
pub fn one_file_text()
    ensures replies { OneReplyText }
    ensures conversion { OneConversion }
    ensures kept { ThreeIsKept }
{
    one_reading();
    mpc_file::one_text();
    mpc_table::one_text();
}

/// Where a controller is accepted and safe, the closed loop from every state of the box with an admissible sequence stays in the box for every
/// number of steps, and the reply is the first move of the cheapest admissible sequence each time. The call does nothing: its contract is the
/// law.
pub fn safe_stays_right()
    ensures { SafeStaysRight }
{
    accepted_replies();
    replies_everywhere();
    one_right_reply();
    safe_goes_on();
}

/// Of bytes at most one outcome is due: they fail at a line, or one thing is found of the controller or of its steps, or it is safe. Each answer,
/// and each error but want of memory, states an outcome that is due. The call does nothing: its clauses are the theorem.
pub fn one_safety_answer()
    ensures one { OneSafetyOutcome }
    ensures answered { AnswerIsOutcome }
    ensures caused { CauseIsOutcome }
{
    one_reading();
    one_finding();
    one_outcome();
}
