//! Explicit model predictive control from a plant to its controller: the convex program, the verdicts on its active sets, and the
//! controller with its table of laws and its search tree, which the independent checker has accepted.
#![tactic(auto)]

mod answers;
mod controllers;
mod parts;
mod theorems;
mod verdicts;

pub use controllers::{Alone, controller, controller_in_threads, controller_of};
pub use theorems::{one_controller, one_outcome, right_controller};
/// Why a plant is refused. `TooWide` names the first place of all that the plant goes through.
pub use answers::{
    compiled_accepted, grid_points, one_table, right_replies, table_sizes, tree_shapes,
};
pub use mpc_condense::ProgramError as SynthesisError;
pub use verdicts::{decided, decided_in_threads};
