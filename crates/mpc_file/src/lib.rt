//! The file of a controller: three versions of its text are read, one is written.
#![tactic(auto)]

mod reading;
mod theorems;

pub use mpc_controller::{Controller, SealError};
pub use mpc_grammar::{FileError, FileKind, Version};
pub use mpc_writing::write_file;
pub use reading::read_file;
pub use theorems::{each_text, no_prefix, one_reading, one_text};
