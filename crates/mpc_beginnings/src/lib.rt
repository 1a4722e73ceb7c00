//! Runs of the simplex method that begin alike: a system with further rows behind its own goes on from where the shorter one ends.
#![tactic(auto)]

mod kept;
mod lists;
mod theorems;

pub use kept::{Broken, KeptRun, Meeting, Workspace, whole_end};
pub use theorems::shared_beginning;
