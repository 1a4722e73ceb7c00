//! Tests of workers on one program.

ghost use Rattle.std.specs.Prelude.{◌≡◌, ◌≤◌, [], length};
ghost use Rattle.mpc_space.specs.Definite.{IsDefinite};
ghost use Rattle.mpc_turn.specs.Views.{hand_of};

use crate::gates::{LongOpening, Meeting};
use crate::programs::{is_positive_number, limited};
use mpc_claim::{Action, Claimed, EventKind, Phase, Played, Registry, World};
use mpc_region::examine;
use mpc_rows::Qp;
use mpc_sets::ActiveSet;
use mpc_turn::{Pass, Turn, hand_theorems};
use mpc_workers::{Gate, OpenGate, WorkError, enumerate, enumerate_alone};
use std::alloc::Global;
use std::process::Abort;
use std::sync::{Mutex, Wait};
use std::test::Fail;

#[test]
fn alone(rt: HostRuntime) -> Result<(), Fail> {
    let qp = limited(rt.alloc())?;
    assert!(rt; is_positive_number(&qp.h));
    let registry = enumerate_alone(rt.alloc(), &qp, &OpenGate)?;
    assert!(rt; matches!(registry.phase(), Phase::Finished));
    assert_eq!(rt; registry.history().len(), 6);
    let laws = registry.into_laws(rt.alloc())?;
    assert_eq!(rt; laws.len(), 3);
    Ok(())
}

/// One call of a gate.
#[derive(Clone, Copy)]
struct Passage {
    worker: u32,
    mask: u64,
}

/// A gate that keeps each of its calls in order.
#[derive(Drop)]
struct GateBook {
    passages: Mutex<Vec<Passage>>,
}

impl Gate for GateBook {
    fn between(&self, worker: u32, mask: u64) {
        if let Some(mut passages) = self.passages.try_lock() {
            let _ = passages.push(Passage { worker, mask });
        }
    }
}

#[test]
fn passes_the_gate(rt: HostRuntime) -> Result<(), Fail> {
    let qp = limited(rt.alloc())?;
    assert!(rt; is_positive_number(&qp.h));
    let gate = GateBook {
        passages: Mutex::new(Vec::new(rt.alloc())),
    };
    let _ = enumerate_alone(rt.alloc(), &qp, &gate)?;
    let passages = gate.passages.into_inner();
    let sets = [
        ActiveSet::empty(),
        ActiveSet::empty().with(1),
        ActiveSet::empty().with(2),
    ];
    assert_eq!(rt; passages.len(), sets.len());
    for (passage, set) in passages.iter().zip(sets) {
        assert_eq!(rt; passage.worker, 1);
        assert_eq!(rt; passage.mask, set.mask());
    }
    Ok(())
}

/// A gate that holds each worker with a set of one member until another has come as far, and keeps its calls.
#[derive(Drop)]
struct MeetingBook<R: Wait> {
    rt: R,
    meeting: Meeting,
    passages: Mutex<Vec<Passage>>,
}

impl<R: Wait> Gate for MeetingBook<R> {
    fn between(&self, worker: u32, mask: u64) {
        if mask != 0 {
            self.meeting.wait();
        }
        let mut passages = self.passages.lock(&self.rt);
        let _ = passages.push(Passage { worker, mask });
    }
}

#[test]
fn two_workers_at_once(rt: HostRuntime) -> Result<(), Fail> {
    let qp = limited(rt.alloc())?;
    assert!(rt; is_positive_number(&qp.h));
    let gate = MeetingBook {
        rt,
        meeting: Meeting::new(),
        passages: Mutex::new(Vec::new(rt.alloc())),
    };
    let registry = enumerate(&rt, rt.alloc(), &qp, 2, &gate).expect(&rt, "memory");
    assert!(rt; gate.meeting.has_met());
    let history = registry.history();
    assert_eq!(rt; history.len(), 6);
    assert_eq!(rt; history[2].kind, EventKind::Claim);
    assert_eq!(rt; history[3].kind, EventKind::Claim);
    assert!(rt; history[2].worker != history[3].worker);
    let passages = gate.passages.into_inner();
    assert_eq!(rt; passages.len(), 3);
    for passage in passages.iter() {
        let claims = history.iter().filter(|event| {
            event.kind == EventKind::Claim
                && event.set.mask() == passage.mask
                && event.worker == passage.worker
        });
        assert_eq!(rt; claims.count(), 1);
    }
    Ok(())
}

#[test]
fn a_sleeper_is_woken(rt: HostRuntime) -> Result<(), Fail> {
    let qp = limited(rt.alloc())?;
    assert!(rt; is_positive_number(&qp.h));
    let gate = LongOpening {
        clock: rt,
        meeting: Meeting::new(),
    };
    let _ = enumerate(&rt, rt.alloc(), &qp, 2, &gate).expect(&rt, "memory");
    assert!(rt; gate.meeting.has_met());
    Ok(())
}

/// Whether a claim by the pass, which has an empty hand, finds all sets claimed. A set that it is
/// given is given up.
fn finds_idle<T: Wait>(rt: &T, turn: &Turn, pass: &mut Pass) -> bool
    requires turn { pass.old.turn ≡ turn.now }
    requires empty { hand_of pass.old.calls ≡ [] }
{
    hand_theorems();
    match turn.claim_as(rt, pass) {
        Ok(Claimed::Job(ticket)) => {
            let _ = turn.abandon_as(rt, pass, ticket);
            false
        }
        Ok(Claimed::Idle) => true,
        Ok(Claimed::Finished) => false,
        Ok(Claimed::Stopped) => false,
        Err(_) => false,
    }
}

/// The set that a claim by the first pass is given, where a claim by the other then finds all sets
/// claimed. The set is given up afterwards.
fn held_alone<T: Wait>(rt: &T, turn: &Turn, first: &mut Pass, other: &mut Pass) -> Option<u64>
    requires turn { (first.old.turn ≡ turn.now) × (other.old.turn ≡ turn.now) }
    requires empty { (hand_of first.old.calls ≡ []) × (hand_of other.old.calls ≡ []) }
{
    hand_theorems();
    match turn.claim_as(rt, first) {
        Ok(Claimed::Job(ticket)) => {
            let mask = ticket.set().mask();
            let idle = finds_idle(rt, turn, other);
            let _ = turn.abandon_as(rt, first, ticket);
            if idle { Some(mask) } else { None }
        }
        Ok(Claimed::Idle) => None,
        Ok(Claimed::Finished) => None,
        Ok(Claimed::Stopped) => None,
        Err(_) => None,
    }
}

#[test]
fn second_pass_waits(rt: HostRuntime) -> Result<(), Fail> {
    let qp = limited(rt.alloc())?;
    assert!(rt; is_positive_number(&qp.h));
    let registry = Registry::begin(rt.alloc(), &qp)?;
    let (turn, mut first) = Turn::over(rt.alloc(), registry)?;
    let mut other = turn.split_pass(&mut first, 1);
    let mask = held_alone(&rt, &turn, &mut first, &mut other);
    assert_eq!(rt; mask, Some(ActiveSet::empty().mask()));
    Ok(())
}

#[test]
fn many_workers(rt: HostRuntime) -> Result<(), Fail> {
    let qp = limited(rt.alloc())?;
    assert!(rt; is_positive_number(&qp.h));
    let registry = enumerate(&rt, rt.alloc(), &qp, 32, &OpenGate).expect(&rt, "memory");
    assert!(rt; matches!(registry.phase(), Phase::Finished));
    let laws = registry.into_laws(rt.alloc())?;
    assert_eq!(rt; laws.len(), 3);
    for workers in [0, 33] {
        let refused = enumerate(&rt, rt.alloc(), &qp, workers, &OpenGate);
        assert!(rt; matches!(refused, Err(WorkError::BadWorkers)));
    }
    Ok(())
}

/// A claim by the worker.
fn claim<R: Abort>(rt: &R, world: &mut World, worker: u32) -> Played
    requires from_one { 1 ≤ worker }
    requires to_last { worker ≤ length world.old.hands }
    ensures { length world.new.hands ≡ length world.old.hands }
{
    world.play(worker, Action::Claim).expect(rt, "memory")
}

/// The worker's delivery of the verdict on the set of this row, for 0 on that without members.
fn deliver<R: Abort>(rt: &R, alloc: Global, world: &mut World, worker: u32, row: u32) -> Played
    requires from_one { 1 ≤ worker }
    requires to_last { worker ≤ length world.old.hands }
    ensures { length world.new.hands ≡ length world.old.hands }
{
    let program = world.registry().program();
    assert!(rt; row <= program.g.rows());
    let set = match row {
        0 => ActiveSet::empty(),
        _ => ActiveSet::empty().with(row),
    };
    let judged = examine(alloc, program, set).expect(rt, "memory");
    world
        .play(worker, Action::Deliver(judged))
        .expect(rt, "memory")
}

/// Both workers on the program with rows `z <= 1` and `-z <= 1`, up to where worker 1 has
/// delivered the set of row 2 and worker 2 has that of row 1.
fn up_to_last<R: Abort>(rt: &R, alloc: Global, qp: &Qp) -> World
    requires { IsDefinite qp.now.h.rows }
    ensures { length result.hands ≡ 2 }
{
    let mut world = World::begin(alloc, qp, 2).expect(rt, "memory");
    assert_eq!(rt; claim(rt, &mut world, 1), Played::Got);
    assert_eq!(rt; claim(rt, &mut world, 2), Played::Idle);
    assert_eq!(rt; deliver(rt, alloc, &mut world, 1, 0), Played::Delivered);
    assert_eq!(rt; claim(rt, &mut world, 2), Played::Got);
    assert_eq!(rt; claim(rt, &mut world, 1), Played::Got);
    assert_eq!(rt; deliver(rt, alloc, &mut world, 1, 1), Played::Skipped);
    assert_eq!(rt; deliver(rt, alloc, &mut world, 1, 2), Played::Delivered);
    assert_eq!(rt; claim(rt, &mut world, 1), Played::Idle);
    world
}

#[test]
fn two_workers(rt: HostRuntime) -> Result<(), Fail> {
    let qp = limited(rt.alloc())?;
    assert!(rt; is_positive_number(&qp.h));
    let mut world = up_to_last(&rt, rt.alloc(), &qp);
    assert_eq!(rt;
        deliver(&rt, rt.alloc(), &mut world, 2, 1),
        Played::Delivered
    );
    assert_eq!(rt; claim(&rt, &mut world, 1), Played::Finished);
    let registry = world.into_registry();
    assert_eq!(rt; registry.history().len(), 6);
    Ok(())
}

#[test]
fn given_up(rt: HostRuntime) -> Result<(), Fail> {
    let qp = limited(rt.alloc())?;
    assert!(rt; is_positive_number(&qp.h));
    let mut world = up_to_last(&rt, rt.alloc(), &qp);
    let given_up = world.play(2, Action::Abandon).expect(&rt, "memory");
    assert_eq!(rt; given_up, Played::Dropped);
    assert_eq!(rt; claim(&rt, &mut world, 1), Played::Stopped);
    let registry = world.into_registry();
    assert!(rt; registry.first_bad().is_none());
    Ok(())
}
