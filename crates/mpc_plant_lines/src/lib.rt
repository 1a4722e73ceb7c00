//! The first lines of a controller's text: its version and its plant, read.
#![tactic(auto)]

mod limit_lines;
mod plant_lines;
mod plants;

pub use plants::{read_plant_lines, read_version};
