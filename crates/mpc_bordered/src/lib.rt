//! Linear systems that begin with the same columns: these are eliminated once.
#![tactic(auto)]

mod columns;
mod entries;
mod kept;
mod parts;
mod solutions;
mod stages;

pub use kept::{Kept, keep};
pub use solutions::solve_part;
pub use stages::{combined_theorems, first_stage, next_stage};
