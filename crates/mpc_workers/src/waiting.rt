//! How workers wait and are woken, and how many work at once.

ghost use Rattle.std.specs.Prelude.{◌<◌, ◌≤◌};

use mpc_rows::Qp;
use std::sync::Wait;
use std::sync::atomic::{AtomicBool, AtomicU64, Ordering};
use std::thread;
use std::thread::Threads;

/// How often a worker with nothing to do lets other threads run before it sleeps. That many take
/// less than one set mostly does, and a sleep and its end take the system longer.
const PAUSES: u32 = 100;

/// What the workers of a pool tell each other. No clause speaks of it.
#[derive(Drop)]
pub(crate) struct News {
    /// How often there was news: a worker's first set of a program's level, or a worker's end.
    count: AtomicU64,
    called_off: AtomicBool,
}

impl News {
    pub(crate) fn new() -> News {
        News {
            count: AtomicU64::new(0),
            called_off: AtomicBool::new(false),
        }
    }

    /// How often there was news so far.
    pub(crate) fn count(&self) -> u64 {
        self.count.load(Ordering::SeqCst)
    }

    /// Whether a worker was refused memory, after which there is nothing to work for.
    pub(crate) fn is_called_off(&self) -> bool {
        self.called_off.load(Ordering::SeqCst)
    }

    /// A worker was refused memory. It ends, which wakes all.
    pub(crate) fn call_off(&self) {
        self.called_off.store(true, Ordering::SeqCst);
    }

    /// Wakes two of those who sleep.
    pub(crate) fn wake_two(&self) {
        self.count.fetch_add(1, Ordering::SeqCst);
        self.count.wake_one();
        self.count.wake_one();
    }

    /// Wakes all who sleep.
    pub(crate) fn wake_all(&self) {
        self.count.fetch_add(1, Ordering::SeqCst);
        self.count.wake_all();
    }

    /// Waits for news after so much of it: at first by letting other threads run, then asleep. It
    /// may also return without any.
    pub(crate) fn wait<T: Wait>(&self, rt: &T, heard: u64) {
        for _ in 0..PAUSES {
            if self.count() != heard {
                return;
            }
            thread::yield_now();
        }
        self.count.park(rt, (heard & 0xffff_ffff) as u32);
    }
}

/// How many sets of a program can be worked on at once on its first two levels: as many as it has
/// rows or pairs of rows, and the one without members.
fn sets_at_once(qp: &Qp) -> usize {
    let rows = qp.g.rows() as usize;
    let pairs = rows.saturating_mul(rows.saturating_sub(1)) / 2;
    pairs.max(rows).max(1)
}

/// How many of so many seats work at once: no more than the machine runs at once, or as many as there
/// are where it can't tell, and no more than there can be sets. Two aren't too many on any machine.
pub(crate) fn seats_at_once<T: Threads>(rt: &T, seats: usize, programs: &[Qp]) -> usize
    requires { 0 < seats }
    ensures some { 0 < result }
    ensures few { result ≤ seats }
{
    let mut sets: usize = 0;
    for qp in programs {
        sets = sets.saturating_add(sets_at_once(qp));
    }
    let useful = seats.min(sets).max(1);
    match thread::available_parallelism(rt) {
        Ok(processors) => useful.min(processors.get().max(2)),
        Err(_) => useful,
    }
}
