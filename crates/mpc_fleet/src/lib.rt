//! Several programs in one pool of workers, at most as many as a fleet has.
#![tactic(auto)]

mod errors;
mod pool;

pub use errors::FleetError;
pub use pool::enumerate_fleet;
