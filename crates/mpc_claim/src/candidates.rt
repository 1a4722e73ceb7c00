//! The candidates of a registry, as contracts see them.

use mpc_rows::Verdict;
use mpc_sets::ActiveSet;

/// Where a candidate stands.
#[derive(Drop)]
pub enum Slot {
    Waiting,
    /// Given out by the claim of this number.
    Claimed(u32),
    Done(Verdict),
    Dropped,
}

/// A set of a level with its slot.
#[derive(Drop)]
pub struct Candidate {
    pub set: ActiveSet,
    pub slot: Slot,
}
