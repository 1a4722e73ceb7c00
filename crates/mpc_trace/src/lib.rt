//! The history in which a plant's active sets are claimed and decided, as a text, and drills: built-in plants with the counts of what
//! is made for them.
#![tactic(auto)]

mod counts;
mod drills;
mod entries;
mod histories;
mod limits;
mod plants;
mod theorems;
mod tracing;

pub use drills::{Drilled, drill};
pub use plants::drill_plant;
pub use theorems::{finished_histories, one_drill};
pub use tracing::trace;
