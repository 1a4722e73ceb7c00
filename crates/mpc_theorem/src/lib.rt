//! What the command's answers mean, in definitions that are short enough to be read, and that they follow from what the libraries prove.
#![tactic(auto)]

mod controller_files;
mod drill_lines;
mod file_outputs;
mod plant_files;
mod plant_outputs;
mod refusals;
mod safe_files;
mod traces;

pub use controller_files::controller_file;
pub use drill_lines::drill_line_theorems;
pub use file_outputs::file_output_theorems;
pub use plant_files::plant_texts;
pub use plant_outputs::output_lines;
pub use refusals::{check_refusals, plant_refusals, state_refusals};
pub use safe_files::safe_file_theorems;
pub use traces::trace_theorems;
