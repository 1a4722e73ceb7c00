//! Which of the cells that are built at once is refused.

ghost use Rattle.std.specs.Prelude.{IsTrue, IsSome};

use std::sync::atomic::{AtomicU64, Ordering};

/// The place of the first piece of a tree whose cell is known to be refused, or else 2^64 - 1. All
/// threads share it: that refusal is the answer whatever the pieces behind it say.
#[derive(Drop)]
pub struct Refusals {
    first: AtomicU64,
}

impl Refusals {
    /// No piece is refused yet.
    pub fn none() -> Self {
        Refusals {
            first: AtomicU64::new(u64::MAX),
        }
    }

    /// Calls off what comes behind a piece that is refused.
    pub fn note(&self, piece: usize) {
        self.first.fetch_min(piece as u64, Ordering::SeqCst);
    }

    /// Whether the piece is called off.
    fn call_off(&self, piece: usize) -> bool {
        self.first.load(Ordering::SeqCst) < piece as u64
    }
}

/// The piece that is built, and the refusals that call it off.
#[derive(Clone, Copy, Drop)]
pub struct Watch<'a> {
    pub piece: usize,
    pub refusals: &'a Refusals,
}

/// Whether what is watched is called off. A tree that isn't watched never is.
pub fn is_called_off(watch: &Option<Watch>) -> bool
    ensures { IsTrue result → IsSome watch.now }
{
    match watch {
        Some(watch) => watch.refusals.call_off(watch.piece),
        None => false,
    }
}
