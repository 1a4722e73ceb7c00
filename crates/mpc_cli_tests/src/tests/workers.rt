//! Commands with a number of workers, who meet at a gate.
use super::{LIMITED, split_words};
use mpc_cli::run;
use mpc_port::{QuietSink, QuietSource};
use mpc_sets::ActiveSet;
use mpc_workers::Gate;
use std::alloc::Global;
use std::process::Abort;
use std::sync::atomic::{AtomicU64, Ordering};
use std::sync::{Mutex, Wait};
use std::test::Fail;
use std::thread;

/// One call of a gate.
#[derive(Clone, Copy)]
struct Passage {
    worker: u32,
    mask: u64,
}

/// A gate that holds the first call with a row until a second has come, for a thousand million turns at most, and keeps whether
/// one came and who passed with what.
#[derive(Drop)]
struct Meeting<R: Wait> {
    rt: R,
    calls: AtomicU64,
    met: AtomicU64,
    passages: Mutex<Vec<Passage>>,
}

impl<R: Wait> Meeting<R> {
    fn new(rt: R, alloc: Global) -> Meeting<R> {
        Meeting {
            rt,
            calls: AtomicU64::new(0),
            met: AtomicU64::new(0),
            passages: Mutex::new(Vec::new(alloc)),
        }
    }

    fn meet(&self) {
        if self.calls.fetch_add(1, Ordering::SeqCst) > 0 {
            return;
        }
        for _ in 0..1_000_000_000 {
            if self.calls.load(Ordering::SeqCst) > 1 {
                self.met.store(1, Ordering::SeqCst);
                return;
            }
            thread::yield_now();
        }
    }
}

impl<R: Wait> Gate for Meeting<R> {
    fn between(&self, worker: u32, mask: u64) {
        if mask != 0 {
            self.meet();
        }
        let mut passages = self.passages.lock(&self.rt);
        let _ = passages.push(Passage { worker, mask });
    }
}

/// The worker of the one call with this set.
fn worker_with<R: Abort>(rt: &R, passages: &[Passage], set: ActiveSet) -> u32 {
    let mut worker = 0;
    for passage in passages {
        if passage.mask == set.mask() {
            assert_eq!(rt; worker, 0);
            worker = passage.worker;
        }
    }
    worker
}

#[test]
fn traces_two_workers_at_once(rt: HostRuntime) -> Result<(), Fail> {
    let alloc = rt.alloc();
    let gate = Meeting::new(rt, alloc);
    let words = split_words(alloc, "trace --workers 2")?;
    let mut source = QuietSource::new(LIMITED.to_vec(alloc)?);
    let mut sink = QuietSink::new(alloc);
    let status = run(&rt, alloc, &words, &mut source, &mut sink, &gate);
    assert_eq!(rt; status.code(), 0);
    assert_eq!(rt; gate.met.load(Ordering::SeqCst), 1);
    let passages = gate.passages.into_inner();
    assert_eq!(rt; passages.len(), 3);
    let none = worker_with(&rt, &passages, ActiveSet::empty());
    let one = worker_with(&rt, &passages, ActiveSet::empty().with(1));
    let two = worker_with(&rt, &passages, ActiveSet::empty().with(2));
    assert!(rt; one != two);
    let claims = format!(in alloc;
        "claim {none} {{}}\ndone {none} {{}} region\nclaim {one} {{1}}\nclaim {two} {{2}}\n"
    )?;
    let first = format!(in alloc; "{claims}done {one} {{1}} region\ndone {two} {{2}} region\n")?;
    let second = format!(in alloc; "{claims}done {two} {{2}} region\ndone {one} {{1}} region\n")?;
    let bytes = sink.bytes();
    assert!(rt; bytes == first.as_bytes() || bytes == second.as_bytes());
    Ok(())
}

#[test]
fn works_two_at_once(rt: HostRuntime) -> Result<(), Fail> {
    let alloc = rt.alloc();
    for line in ["compile --workers 2", "fleet --workers 2", "drill 3"] {
        let gate = Meeting::new(rt, alloc);
        let words = split_words(alloc, line)?;
        let mut source = QuietSource::new(LIMITED.to_vec(alloc)?);
        let mut sink = QuietSink::new(alloc);
        let status = run(&rt, alloc, &words, &mut source, &mut sink, &gate);
        assert_eq!(rt; status.code(), 0);
        assert_eq!(rt; gate.met.load(Ordering::SeqCst), 1, "{line}");
    }
    Ok(())
}
