//! What a controller's file is answered with: reply lines, its text in version 3, what the independent
//! checker finds of it, or whether the closed loop stays in the box for ever.
#![tactic(auto)]

mod answers;
mod checks;
mod errors;
mod safety;
mod texts;
mod theorems;

pub use answers::{Safety, SafetyError};
pub use checks::check_file;
pub use errors::CheckFileError;
pub use mpc_check::{Answer as Checked, Spot};
pub use mpc_file::{FileError, FileKind};
pub use mpc_recur::{Next, Target};
pub use safety::safe_file;
pub use texts::{convert, reply_to};
pub use theorems::{one_file_answer, one_file_text, one_safety_answer, safe_stays_right};
