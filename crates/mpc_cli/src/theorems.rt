//! What holds of every run of the command.

ghost use Rattle.mpc_cli.specs.Answers.{OneStatus, PassingIsDone, PassingRefusesNothing};
ghost use Rattle.mpc_cli.specs.Statuses.{DueIsWhatComes};

use mpc_files::one_file_answer;
use mpc_plant::one_reading;
use mpc_states::{complete_inputs, one_outcome as one_state_outcome};
use mpc_synthesis::one_outcome;
use mpc_theorem::{
    check_refusals, plant_refusals, plant_texts, safe_file_theorems, state_refusals,
};
use mpc_trace::one_drill;
use mpc_words::whole_line_theorems;

/// A status is due to a command just where an outcome of its library has that status. The call does nothing: its clause is the theorem.
pub fn due_statuses()
    ensures { DueIsWhatComes }
{
    plant_texts();
    plant_refusals();
    check_refusals();
    state_refusals();
}

/// For words and an input at most one status is due, by devices that don't fail, and `Done` where no refusal is. None is where the plant's
/// program has a positive definite Hessian and nothing is too wide, or where the controller's file passes. The call does nothing: its
/// clauses are the theorem.
pub fn one_status()
    ensures one { OneStatus }
    ensures passing { PassingIsDone }
    ensures refuses_nothing { PassingRefusesNothing }
{
    due_statuses();
    one_reading();
    one_outcome();
    one_file_answer();
    one_drill();
    safe_file_theorems();
    one_state_outcome();
    complete_inputs();
    whole_line_theorems();
}
