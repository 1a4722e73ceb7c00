//! A ticket lock round a registry. Each call of a pass stands in one history.
#![tactic(auto)]

mod lock;
mod passes;
mod theorems;
mod view;

pub use lock::Turn;
pub use passes::Pass;
pub use theorems::hand_theorems;
