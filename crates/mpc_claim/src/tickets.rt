//! The right to deliver what was claimed.

ghost use Rattle.std.specs.Prelude.{◌≡◌};

use mpc_sets::ActiveSet;

/// The right to deliver a verdict on a claimed set, or to give the set up: the one use that a
/// ticket has. It can be neither copied nor dropped.
pub struct Ticket {
    pub(crate) number: u32,
    pub(crate) worker: u32,
    pub(crate) set: ActiveSet,
}

impl Ticket {
    /// The number of the claim, counted from 1 over all claims of the registry.
    pub fn number(&self) -> u32
        ensures { result ≡ self.now.number }
    {
        self.number
    }

    /// The worker that claimed the set.
    pub fn worker(&self) -> u32
        ensures { result ≡ self.now.worker }
    {
        self.worker
    }

    /// The set.
    pub fn set(&self) -> ActiveSet
        ensures { result ≡ self.now.set }
    {
        self.set
    }
}

/// What a claim answers.
pub enum Claimed {
    /// A set to examine.
    Job(Ticket),
    /// All sets of the level are claimed, and some aren't delivered yet.
    Idle,
    /// There is no further candidate.
    Finished,
    /// No further set is given out.
    Stopped,
}

/// What a delivery or an abandonment answers.
#[derive(Clone, Copy, Debug, PartialEq, Eq)]
pub enum Delivery {
    Taken,
}

/// Candidates to be examined before they are claimed.
#[derive(Drop)]
pub struct Ahead {
    /// The place of the first one among all candidates, from 0.
    pub first: usize,
    /// The place of the candidate that is claimed next.
    pub next: usize,
    /// The place behind the last candidate.
    pub end: usize,
    /// Their sets, in order.
    pub sets: Vec<ActiveSet>,
}
