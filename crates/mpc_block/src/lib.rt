//! A controller laid out in words, in memory of the caller's, and replies from these words alone.
#![tactic(auto)]

mod forms;
mod heights;
mod layouts;
mod lines;
mod replies;
mod walks;
mod widths;
mod words;

pub use layouts::{LayoutError, block_size, lay_out};
pub use lines::LAYOUT;
pub use replies::{BlockReply, Move, reply_in};
pub use words::words_of;
