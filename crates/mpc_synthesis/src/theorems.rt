//! What holds of every plant and its controller.

ghost use Rattle.mpc_synthesis.specs.Controllers.{ControllerIsRight, ControllerReplies, OneController};
ghost use Rattle.mpc_synthesis.specs.Outcomes.{OneOutcome};

use crate::one_table;
use mpc_check::{accepted_replies, one_finding};
use mpc_condense::{one_program, one_program_outcome};
use mpc_controller::{bound_theorems, replies_everywhere};
use mpc_cover::one_verdict;
use mpc_definite::pivot_theorems;
use mpc_sets::order_theorems;
use mpc_tree::one_tree;

/// At every state of the plant's box, also between those of the grid, its controller replies, and what it replies is right: the first
/// move of the unique cheapest admissible sequence, and `infeasible` only where no sequence is admissible. The call does nothing: its
/// clauses are the theorem.
pub fn right_controller()
    ensures right { ControllerIsRight }
    ensures replies { ControllerReplies }
{
    accepted_replies();
    replies_everywhere();
}

/// A plant has one controller. The call does nothing: its clause is the theorem.
pub fn one_controller()
    ensures { OneController }
{
    order_theorems();
    pivot_theorems();
    one_program();
    one_program_outcome();
    one_verdict();
    one_tree();
    one_table();
    bound_theorems();
    one_finding();
}

/// At most one outcome is that of a plant: one pivot that isn't positive, one first place with a number that is too wide, or what was
/// asked for. The call does nothing: its clause is the theorem.
pub fn one_outcome()
    ensures { OneOutcome }
{
    order_theorems();
    pivot_theorems();
    one_program();
    one_program_outcome();
    one_verdict();
    one_tree();
    one_table();
    bound_theorems();
    one_finding();
}
