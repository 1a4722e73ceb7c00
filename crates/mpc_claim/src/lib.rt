//! The registry of active sets: a pure machine of claims and deliveries.
#![tactic(auto)]

mod candidates;
mod entries;
mod events;
mod levels;
mod moves;
mod registry;
mod theorems;
mod tickets;
mod worlds;

pub use candidates::{Candidate, Slot};
use entries::{Entry, Mark};
pub use events::{Event, EventKind, Phase, Tag};
pub use moves::{Action, Played};
pub use registry::Registry;
pub use theorems::{claim_theorems, history_theorems, legal_theorems};
pub use tickets::{Ahead, Claimed, Delivery, Ticket};
pub use worlds::World;
