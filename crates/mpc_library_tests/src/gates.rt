//! Gates that hold workers.

use mpc_workers::Gate;
use std::sync::atomic::{AtomicBool, AtomicU64, Ordering};
use std::thread;
use std::time::{Clock, Duration};

/// How often whoever waits for another lets other threads run, before it goes on alone.
const TURNS: u32 = 10_000_000;

/// Where each waits until another has come, but not for ever.
#[derive(Drop)]
pub(crate) struct Meeting {
    arrivals: AtomicU64,
    in_vain: AtomicBool,
}

impl Meeting {
    pub(crate) fn new() -> Meeting {
        Meeting {
            arrivals: AtomicU64::new(0),
            in_vain: AtomicBool::new(false),
        }
    }

    /// Waits until two have come.
    pub(crate) fn wait(&self) {
        self.arrivals.fetch_add(1, Ordering::SeqCst);
        for _ in 0..TURNS {
            if self.arrivals.load(Ordering::SeqCst) > 1 {
                return;
            }
            thread::yield_now();
        }
        self.in_vain.store(true, Ordering::SeqCst);
    }

    /// Whether two came, and nobody waited in vain.
    pub(crate) fn has_met(&self) -> bool {
        self.arrivals.load(Ordering::SeqCst) > 1 && !self.in_vain.load(Ordering::SeqCst)
    }
}

impl Gate for Meeting {
    fn between(&self, _worker: u32, _mask: u64) {
        self.wait();
    }
}

/// A gate that holds the set without members until the other workers sleep, and each other set until
/// another worker has come.
#[derive(Drop)]
pub(crate) struct LongOpening<C: Clock> {
    pub(crate) clock: C,
    pub(crate) meeting: Meeting,
}

impl<C: Clock> Gate for LongOpening<C> {
    fn between(&self, _worker: u32, mask: u64) {
        if mask == 0 {
            thread::sleep(&self.clock, Duration::from_millis(100));
        } else {
            self.meeting.wait();
        }
    }
}
