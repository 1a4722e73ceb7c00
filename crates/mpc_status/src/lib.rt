//! What the command ends with: a status, its exit code, and the line that is written at it.
#![tactic(auto)]

mod late;
mod names;
mod spots;
mod status;

pub use late::LatePlace;
pub use status::Status;
