//! The quadratic program of a plant, and whether it is convex.
#![tactic(auto)]

mod blocks;
mod convex;
mod costs;
mod errors;
mod limits;
mod motions;
mod programs;
mod theorems;

pub use convex::{ProgramError, convex_program, one_program_outcome};
pub use errors::CondenseError;
pub use programs::condense;
pub use theorems::{best_replies, one_program, place_theorems, program_theorems};
