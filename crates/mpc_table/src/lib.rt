//! The table-driven controller: replies to counts by one walk through the search tree, without memory, and to lines of counts.
#![tactic(auto)]

mod answers;
mod counts;
mod forms;
mod input;
mod places;
mod reply_lines;
mod rows;
mod sides;
mod steps;
mod tables;
mod theorems;
mod values;

pub use answers::Reply;
pub use counts::read_counts;
pub use forms::whole_form;
pub use input::{Sections, cut, first_line};
pub use reply_lines::replies;
pub use sides::no_sides;
pub use tables::{Table, find_outside};
pub use theorems::{one_text, right_replies, table_theorems};
pub use values::weighted_sum;
