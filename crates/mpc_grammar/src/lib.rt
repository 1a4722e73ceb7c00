//! The grammar of a controller's text: its lines, what they may state, and how one follows another.
#![tactic(auto)]

mod digests;
mod errors;
mod line_theorems;
mod lines;
mod plant_parts;
mod spelling;
mod versions;

pub use digests::digest;
pub use errors::{FileError, FileKind};
pub use line_theorems::{one_fractions, one_integers, one_number, word_theorems};
pub use lines::{Lines, stated};
pub use plant_parts::{Dynamics, Limits, Offsets, Sizes, Weights};
pub use spelling::{fractions_into, fractions_of, integers_of, number_of};
pub use versions::Version;
