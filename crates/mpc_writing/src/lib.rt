//! The text of a controller, written in version 3, and the texts that controllers have in each version.
#![tactic(auto)]

mod law_lines;
mod names;
mod plant_lines;
mod theorems;
mod tree_lines;
mod words;
mod writing;

pub use theorems::written_texts;
pub use writing::write_file;
