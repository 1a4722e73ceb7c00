//! Whether a controller is recursively feasible: whether from every state at which it has a move, that move leads to a state of the box at which
//! it has one again (Kerrigan and Maciejowski, 2000).
#![tactic(auto)]

mod answers;
mod asked;
mod bases;
mod forms;
mod leaves;
mod met;
mod rows;
mod search;
mod systems;
mod targets;
mod theorems;

pub use answers::{Next, Recur, RecurError, Target};
pub use search::recur;
pub use theorems::{one_outcome, ruled_out_where_safe, safe_goes_on, safe_is_answered};
