//! Verdicts that a worker finds before the claims of their sets.

ghost use Rattle.std.specs.Prelude.{◌≡◌, ◌≤◌, [], All, IfOk, IfSome, length};
ghost use Rattle.mpc_space.specs.Definite.{IsDefinite};
ghost use Rattle.mpc_space.specs.Matrix.{height};
ghost use Rattle.mpc_sets.specs.RowSet.{IsSetOfRows};
ghost use Rattle.mpc_rows.specs.declared.programs.Qp.{Qp as Program};
ghost use Rattle.mpc_rows.specs.Candidates.{IsCandidate};
ghost use Rattle.mpc_rows.specs.Verdicts.{IsRight};
ghost use Rattle.mpc_workers.specs.Ahead.{AreKnown};

use mpc_claim::{Ahead, claim_theorems};
use mpc_frac::NoMemory;
use mpc_region::Examiner;
use mpc_rows::{Judged, Qp};
use mpc_sets::ActiveSet;
use std::alloc::Global;
use std::collections::VecDeque;
use std::marker::Model;

/// No place of a candidate.
pub const NOWHERE: usize = usize::MAX;

/// Lets an outlook go, by a call of `drop`. At the end of a function all that it holds would be taken apart
/// in place, which is dear to prove.
pub fn discard(outlook: Option<Outlook>) {
    drop(outlook);
}

/// A verdict, and the place of its set among all candidates, from 0.
#[derive(Drop)]
pub struct Known {
    pub place: usize,
    pub judged: Judged,
}

/// The place of the first verdict's set, if there is one, and else none that a set has.
fn first_place(known: &VecDeque<Known>) -> usize {
    match known.front() {
        Some(first) => first.place,
        None => NOWHERE,
    }
}

/// Lets the verdicts go whose sets stand before this place: others have claimed these sets.
fn forget_before(known: &mut VecDeque<Known>, place: usize)
    ensures { (qp : Program) → AreKnown qp known.old.items → AreKnown qp known.new.items }
{
    for _ in 0..known.len() {
        if first_place(known) >= place {
            return;
        }
        drop(known.pop_front());
    }
}

/// The verdict on the set at this place, where it is known.
fn recall(known: &mut VecDeque<Known>, place: usize, set: ActiveSet) -> Option<Judged>
    ensures known { (qp : Program) → AreKnown qp known.old.items → AreKnown qp known.new.items }
    ensures set { IfSome result (λ j. j.set ≡ set) }
    ensures right { IfSome result (λ j. (qp : Program) → AreKnown qp known.old.items → IsRight qp set j.verdict) }
{
    forget_before(known, place);
    if first_place(known) != place {
        return None;
    }
    let Known { place: _, judged } = known.pop_front()?;
    if judged.set() == set {
        return Some(judged);
    }
    drop(judged);
    None
}

/// No candidate.
fn no_candidates(alloc: Global) -> Ahead
    ensures { result.sets.items ≡ [] }
{
    Ahead {
        first: 0,
        next: 0,
        end: 0,
        sets: Vec::new(alloc),
    }
}

/// Gives verdicts on the sets of one program, some of them found before the claims of their sets.
/// Contracts see the program.
#[derive(Drop)]
pub struct Outlook<'a> {
    examiner: Examiner<'a>,
    /// The verdicts that were found ahead, in the order of their places.
    known: VecDeque<Known>,
    /// The last stretch of candidates to be examined ahead.
    ahead: Ahead,
    /// How many of them are done with.
    done: usize,
}

impl<'a> Model for Outlook<'a> {
    ghost use Rattle.mpc_rows.specs.declared.programs.Qp.{Qp};

    ghost Value = { Qp };

    ghost view = { λ o. o.examiner };

    ghost use Rattle.std.specs.Prelude.{All};
    ghost use Rattle.mpc_rows.specs.Candidates.{IsCandidate};
    ghost use Rattle.mpc_workers.specs.Ahead.{AreKnown};

    ghost invariant = { λ o. AreKnown o.examiner o.known.items × All (IsCandidate o.examiner) o.ahead.sets.items };
}

impl<'a> Outlook<'a> {
    /// Before the program's first set.
    pub fn begin(alloc: Global, qp: &'a Qp) -> Result<Outlook<'a>, NoMemory>
        ensures { IfOk result (λ outlook. outlook ≡ qp.now) }
    {
        Ok(Outlook {
            examiner: Examiner::begin(alloc, qp)?,
            known: VecDeque::new(alloc),
            ahead: no_candidates(alloc),
            done: 0,
        })
    }

    /// The place of the first set, from this one on, whose verdict is known, if there is one, and else none that a
    /// set has. Verdicts before it are let go: others have claimed their sets.
    pub fn first_known(&mut self, from: usize) -> usize
        ensures { self.new ≡ self.old }
    {
        forget_before(&mut self.known, from);
        first_place(&self.known)
    }

    /// How many verdicts are known.
    pub fn count_known(&self) -> usize {
        self.known.len()
    }

    /// The verdict on the set at this place.
    pub fn examine(
        &mut self,
        alloc: Global,
        place: usize,
        set: ActiveSet,
    ) -> Result<Judged, NoMemory>
        requires definite { IsDefinite self.old.h.rows }
        requires set_of_rows { IsSetOfRows (height self.old.g) set }
        requires few { length set ≤ height self.old.h }
        ensures program { self.new ≡ self.old }
        ensures set { IfOk result (λ j. j.set ≡ set) }
        ensures right { IfOk result (λ j. IsRight self.old set j.verdict) }
    {
        match recall(&mut self.known, place, set) {
            Some(judged) => Ok(judged),
            None => self.examiner.examine(alloc, set),
        }
    }

    /// Finds the verdict on the set at this place, and keeps it.
    fn foresee(&mut self, alloc: Global, place: usize, set: ActiveSet) -> Result<(), NoMemory>
        requires definite { IsDefinite self.old.h.rows }
        requires set_of_rows { IsSetOfRows (height self.old.g) set }
        requires few { length set ≤ height self.old.h }
        ensures program { self.new ≡ self.old }
    {
        let Ok(()) = self.known.reserve(1) else {
            return Err(NoMemory);
        };
        let judged = self.examiner.examine(alloc, set)?;
        self.known.push_back_reserved(Known { place, judged });
        Ok(())
    }

    /// Takes a stretch of candidates to be examined ahead, in place of the last one.
    pub fn take_stretch(&mut self, ahead: Ahead)
        requires { All (IsCandidate self.old) ahead.sets.items }
        ensures { self.new ≡ self.old }
    {
        self.ahead = ahead;
        self.done = 0;
    }

    /// Finds the verdict on the next candidate of the stretch, unless it stands before this place, where others
    /// have claimed it. Whether there was one.
    pub fn examine_next(&mut self, alloc: Global, from: usize) -> Result<bool, NoMemory>
        requires definite { IsDefinite self.old.h.rows }
        ensures program { self.new ≡ self.old }
    {
        claim_theorems();
        if self.done >= self.ahead.sets.len() {
            return Ok(false);
        }
        let place = self.ahead.first.wrapping_add(self.done);
        let set = self.ahead.sets[self.done];
        self.done += 1;
        if place >= from {
            self.foresee(alloc, place, set)?;
        }
        Ok(true)
    }
}
