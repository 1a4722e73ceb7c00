//! The independent checker of a controller: it trusts neither the laws nor the tree, and tests the conditions of optimality and the
//! certificates themselves.
#![tactic(auto)]

mod answers;
mod borders;
mod certs;
mod checks;
mod gradients;
mod laws;
mod leaves;
mod numbers;
mod rows;
mod search;
mod stretches;
mod theorems;
mod trees;
mod whole_laws;
mod whole_sums;

pub use answers::{Answer, CheckError, Spot};
pub use checks::check;
pub use search::Search;
pub use theorems::{accepted_replies, law_conditions, one_finding, stretch_theorems};
