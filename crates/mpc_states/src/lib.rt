//! The inputs of `solve` and `robust`: a plant and lines of counts, each of which is answered by one run of the dual active-set method, on
//! the plant's program or on the one with room for disturbances.
#![tactic(auto)]

mod errors;
mod inputs;
mod lines;
mod theorems;

pub use errors::{RobustError, SolveError};
pub use inputs::{robust_input, solve_input};
pub use theorems::{complete_inputs, one_outcome, right_programs};
