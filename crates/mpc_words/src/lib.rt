//! Texts cut into lines and words, numbers read in their one spelling, and texts that grow at their end.
//!
//! What reads takes no memory: it answers a part of what was passed, or a number.
#![tactic(auto)]

mod fractions;
mod integers;
mod lines;
mod naturals;
mod texts;
mod theorems;
mod whole_lines;

pub use fractions::read_fraction;
pub use integers::read_integer;
pub use lines::{next_line, split_word};
pub use naturals::{Natural, read_natural};
pub use texts::{add_number, add_text};
pub use theorems::{
    cut_theorems, fraction_theorems, integer_theorems, line_theorems, natural_theorems,
    whole_line_theorems,
};
pub use whole_lines::cut_at_line;
