//! The command `mpc` as a call: from its words and the bytes of a source to the bytes of a sink and a status.
#![tactic(auto)]

mod answer;
mod calls;
mod commands;
mod drill_answers;
mod file_answers;
mod fleet_answers;
mod inputs;
mod plant_answers;
mod respond;
mod state_answers;
mod theorems;

pub use calls::{run, run_alone, waits};
pub use theorems::{due_statuses, one_status};
