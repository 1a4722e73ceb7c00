//! Where bytes come from and go to, with counts of faults.
//!
//! A [`Source`] and a [`Sink`] may fail at any call. Each keeps a count of its faults, and
//! answers a failure only where that count rose, so a caller who finds the count unchanged knows
//! that nothing failed. Each also keeps what passed, as a ghost: clauses can say which bytes a
//! call was given and what was taken of it, also where nobody knows what is left.
//! [`read_all`] and [`write_all`] go through them whole.
#![tactic(auto)]

mod history;
mod host;
mod input;
mod memory;
mod output;
mod quiet;

pub use host::{HostSink, HostSource};
pub use input::{Failed, ReadError, Source, read_all};
pub use memory::{MemorySink, MemorySource};
pub use output::{Sink, SinkError, write_all};
pub use quiet::{QuietSink, QuietSource};
