//! What happens to the candidates of a registry.

use mpc_sets::ActiveSet;

/// The verdict of a delivery, without its law or place.
#[derive(Clone, Copy, Debug, PartialEq, Eq)]
pub enum Tag {
    Dependent,
    Unreachable,
    Hollow,
    Region,
    Wide,
}

/// What an event does.
#[derive(Clone, Copy, Debug, PartialEq, Eq)]
pub enum EventKind {
    /// A worker takes the set.
    Claim,
    /// It delivers a verdict on it.
    Done(Tag),
    /// It gives the set up.
    Drop,
}

/// One entry of a registry's history.
#[derive(Clone, Copy, Debug, PartialEq, Eq)]
pub struct Event {
    pub set: ActiveSet,
    pub worker: u32,
    pub kind: EventKind,
}

/// Whether there is more to do.
#[derive(Clone, Copy, Debug, PartialEq, Eq)]
pub enum Phase {
    Working,
    /// All candidates have verdicts, and none of them is wide.
    Finished,
    /// A set was given up, or a level ended with a wide verdict.
    Stopped,
}
