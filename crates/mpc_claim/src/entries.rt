//! What a registry keeps of its candidates, in few bytes each.

use mpc_sets::ActiveSet;

/// What is noted of a candidate.
#[derive(Drop)]
pub(crate) enum Mark {
    Waiting,
    /// Given out by the claim of this number.
    Claimed(u32),
    Dependent,
    Unreachable,
    Hollow,
    /// Its verdict has a law or a place, and stands here in the list of these verdicts.
    Kept(u32),
    Dropped,
}

/// A set of a level with its mark.
#[derive(Drop)]
pub(crate) struct Entry {
    pub(crate) set: ActiveSet,
    pub(crate) mark: Mark,
}
