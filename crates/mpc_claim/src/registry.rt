//! The registry of a program's candidates.

ghost use Rattle.std.specs.Prelude.{◌≡◌, ◌≢◌, ℕ, ◌<◌, ◌⊎◌, true, false, length, IfOk, IfNone, IfSome, MatchOption, All, Any};
ghost use Rattle.mpc_space.specs.Definite.{IsDefinite};
ghost use Rattle.mpc_space.specs.Matrix.{height};
ghost use Rattle.mpc_rows.specs.declared.verdicts.Verdict.TheVariants.{Wide};
ghost use Rattle.mpc_rows.specs.Verdicts.{IsRight};
ghost use Rattle.mpc_rows.specs.Candidates.{IsCandidate, IsTable};
ghost use Rattle.mpc_rows.specs.SetRuns.{LawRowsFit};
ghost use Rattle.mpc_claim.specs.declared.events.Phase.TheVariants.{Working, Finished, Stopped};
ghost use Rattle.mpc_claim.specs.declared.candidates.Slot.TheVariants.{Waiting};
ghost use Rattle.mpc_claim.specs.Board.{at, opening};
ghost use Rattle.mpc_claim.specs.History.{has_drop, IsOpen};
ghost use Rattle.mpc_claim.specs.Books.{is_bad, is_done, IsQuiet, IsSound};
ghost use Rattle.mpc_claim.specs.Answers.{Claims, IsFirstBad, IsLeastBad, abandoned, delivered};

use crate::levels::{
    append_waiting, collect_laws, find_bad, keep, next_candidates, note_claim, reserve_claims,
    sets_between, share_of, tag,
};
use crate::{Ahead, Claimed, Delivery, Entry, Event, EventKind, Mark, Phase, Ticket};
use mpc_frac::NoMemory;
use mpc_rows::{Judged, LawTable, Place, Qp, Verdict, law_theorems};
use mpc_sets::{ActiveSet, count_theorems, member_theorems};
use std::alloc::Global;
use std::marker::Model;

/// The candidates of a quadratic program, level by level, with what is found of them.
#[derive(Drop)]
pub struct Registry {
    alloc: Global,
    program: Qp,
    entries: Vec<Entry>,
    verdicts: Vec<Verdict>,
    settled: usize,
    claims: usize,
    /// Up to which place candidates were looked at ahead. No clause speaks of it.
    looked: usize,
    pending: usize,
    size: u32,
    phase: Phase,
    history: Vec<Event>,
}

impl Model for Registry {
    ghost use Rattle.std.specs.Prelude.{vec_capacity};
    ghost use Rattle.mpc_claim.specs.Board.{Board};
    ghost use Rattle.mpc_claim.specs.Books.{IsKept};
    ghost use Rattle.mpc_claim.specs.Entries.{HasVerdicts, seen};

    ghost Value = { Board };

    ghost view = { λ r. record { program = r.program; candidates = seen r.verdicts.items r.entries.items; settled = r.settled; phase = r.phase; history = r.history.items } };

    ghost invariant = { λ r. IsKept r.program (seen r.verdicts.items r.entries.items) r.settled r.claims r.pending r.size r.phase r.history.items (vec_capacity r.history) × HasVerdicts r.entries.items r.verdicts.items r.claims r.pending (vec_capacity r.verdicts) };
}

impl Registry {
    /// A registry with the one candidate without members.
    #[tactic(auto, unfolding(crate::specs::History::IsLegal))]
    pub fn begin(alloc: Global, qp: &Qp) -> Result<Registry, NoMemory>
        requires { IsDefinite qp.now.h.rows }
        ensures { IfOk result (λ registry. registry ≡ opening qp.now) }
    {
        let program = qp.copy(alloc)?;
        let mut entries = Vec::new(alloc);
        append_waiting(&mut entries, &[ActiveSet::empty()])?;
        Ok(Registry {
            alloc,
            program,
            entries,
            verdicts: Vec::new(alloc),
            settled: 0,
            claims: 0,
            looked: 0,
            pending: 0,
            size: 0,
            phase: Phase::Working,
            history: Vec::new(alloc),
        })
    }

    /// The program.
    pub fn program(&self) -> &Qp
        ensures value { result.now ≡ self.now.program }
        ensures sound { IsSound self.now }
    {
        &self.program
    }

    /// Whether there is more to do.
    pub fn phase(&self) -> Phase
        ensures value { result ≡ self.now.phase }
        ensures sound { IsSound self.now }
    {
        self.phase
    }

    /// All claims, deliveries and abandonments so far.
    pub fn history(&self) -> &[Event]
        ensures value { result.now ≡ self.now.history }
        ensures sound { IsSound self.now }
    {
        self.history.as_slice()
    }

    /// Gives the first waiting candidate out.
    fn claim_waiting(&mut self, worker: u32) -> Result<Claimed, NoMemory>
        requires working { self.old.phase ≡ Working }
        requires waiting { Any (λ c. c.slot ≡ Waiting) self.old.candidates }
        ensures { Claims self.old worker result self.new }
    {
        count_theorems();
        reserve_claims(&mut self.history, &mut self.verdicts, self.pending, 1)?;
        let place = self.claims;
        let ticket = note_claim(&mut self.entries, &mut self.history, place, worker);
        self.claims += 1;
        self.pending += 1;
        Ok(Claimed::Job(ticket))
    }

    /// Begins the next level and gives its first candidate out, if there is one.
    fn claim_in_next_level(&mut self, worker: u32) -> Result<Claimed, NoMemory>
        requires working { self.old.phase ≡ Working }
        requires quiet { (i : ℕ) → i < length self.old.candidates → IsQuiet (at self.old.candidates i).slot }
        ensures { Claims self.old worker result self.new }
    {
        member_theorems();
        count_theorems();
        let level = &self.entries[self.settled..];
        let sets = next_candidates(self.alloc, &self.program, level, &self.verdicts, self.size)?;
        if sets.is_empty() {
            self.phase = Phase::Finished;
            return Ok(Claimed::Finished);
        }
        reserve_claims(
            &mut self.history,
            &mut self.verdicts,
            self.pending,
            sets.len(),
        )?;
        let place = self.entries.len();
        append_waiting(&mut self.entries, &sets)?;
        let ticket = note_claim(&mut self.entries, &mut self.history, place, worker);
        self.settled = place;
        self.size += 1;
        self.claims += 1;
        self.pending += 1;
        Ok(Claimed::Job(ticket))
    }

    /// Ends the level, where each of its candidates has a verdict.
    fn end_level(&mut self, worker: u32) -> Result<Claimed, NoMemory>
        requires working { self.old.phase ≡ Working }
        requires done { (i : ℕ) → i < length self.old.candidates → is_done (at self.old.candidates i).slot ≡ true }
        ensures { Claims self.old worker result self.new }
    {
        match find_bad(&self.entries, &self.verdicts, self.settled) {
            Some(_) => {
                self.phase = Phase::Stopped;
                Ok(Claimed::Stopped)
            }
            None => self.claim_in_next_level(worker),
        }
    }

    /// Gives out the least candidate that waits, beginning the next level where all of this one
    /// have verdicts and none of them is wide.
    ///
    /// `Idle` where none waits and some aren't delivered, `Finished` where all candidates have
    /// verdicts, `Stopped` once a set is given up or a level ended with a wide verdict. Memory is
    /// wanted only where a set is given out or the next level is formed; without it the registry
    /// stays as it was.
    pub fn claim(&mut self, worker: u32) -> Result<Claimed, NoMemory>
        ensures { Claims self.old worker result self.new }
    {
        match self.phase {
            Phase::Finished => return Ok(Claimed::Finished),
            Phase::Stopped => return Ok(Claimed::Stopped),
            Phase::Working => {}
        }
        if self.claims < self.entries.len() {
            return self.claim_waiting(worker);
        }
        if self.pending > 0 {
            return Ok(Claimed::Idle);
        }
        self.end_level(worker)
    }

    /// Candidates of the level to be examined before they are claimed: the next ones that were neither
    /// claimed nor given out by this call, one in so many parts of these, and no more than the most. None
    /// where the candidate at the place that the caller knows is claimed next. Each can be claimed by
    /// anyone, as if nobody had looked at it. Refused memory is the only error.
    pub fn look_ahead(&mut self, known: usize, parts: usize, most: usize) -> Result<Ahead, NoMemory>
        ensures same { self.new ≡ self.old }
        ensures candidates { IfOk result (λ ahead. All (IsCandidate self.old.program) ahead.sets.items) }
    {
        let end = self.entries.len();
        let most = if known == self.claims { 0 } else { most };
        let first = self.looked.max(self.claims).min(end);
        let to = first + share_of(end - first, parts, most);
        let sets = sets_between(self.alloc, &self.program, &self.entries, first, to)?;
        self.looked = to;
        Ok(Ahead {
            first,
            next: self.claims,
            end,
            sets,
        })
    }

    /// Takes the verdict on a claimed set. It takes no memory.
    pub fn deliver(&mut self, ticket: Ticket, judged: Judged) -> Delivery
        requires open_still { IsOpen self.old.history ticket }
        requires set { judged.set ≡ ticket.set }
        requires right { IsRight self.old.program ticket.set judged.verdict }
        ensures { self.new ≡ delivered self.old ticket judged.verdict }
    {
        let Ticket {
            number,
            worker,
            set,
        } = ticket;
        count_theorems();
        let verdict = judged.into_verdict();
        let kind = EventKind::Done(tag(&verdict));
        let mark = keep(&mut self.verdicts, verdict);
        self.entries[(number - 1) as usize] = Entry { set, mark };
        self.history.push_reserved(Event { set, worker, kind });
        self.pending -= 1;
        Delivery::Taken
    }

    /// Gives a claimed set up, after which no further set is given out. It takes no memory.
    pub fn abandon(&mut self, ticket: Ticket) -> Delivery
        requires { IsOpen self.old.history ticket }
        ensures { self.new ≡ abandoned self.old ticket }
    {
        let Ticket {
            number,
            worker,
            set,
        } = ticket;
        self.entries[number as usize - 1] = Entry {
            set,
            mark: Mark::Dropped,
        };
        self.history.push_reserved(Event {
            set,
            worker,
            kind: EventKind::Drop,
        });
        self.pending -= 1;
        self.phase = Phase::Stopped;
        Delivery::Taken
    }

    /// The wide verdict on the least set that has one.
    pub fn first_bad(&self) -> Option<&Verdict>
        ensures none { IfNone result ((i : ℕ) → i < length self.now.candidates → is_bad (at self.now.candidates i).slot ≡ false) }
        ensures least { IfSome result (λ verdict. IsLeastBad self.now verdict.now) }
        // where the last level ended with a wide verdict
        ensures stopped { self.now.phase ≡ Stopped → has_drop self.now.history ≡ false →
            MatchOption result ⊥ (λ verdict. IsFirstBad self.now.program verdict.now) }
    {
        let place = find_bad(&self.entries, &self.verdicts, self.settled)?;
        match &self.entries[place].mark {
            Mark::Kept(kept) => Some(&self.verdicts[*kept as usize]),
            _ => None,
        }
    }

    /// The place that is too wide, by the verdict on the least set that has such a verdict, where the workers came to one.
    pub fn first_wide(&self) -> Option<Place>
        requires { self.now.phase ≡ Stopped → has_drop self.now.history ≡ false }
        ensures { MatchOption result (self.now.phase ≢ Stopped)
            (λ place. IsFirstBad self.now.program (Wide place)) }
    {
        match self.phase {
            Phase::Working | Phase::Finished => None,
            Phase::Stopped => match self.first_bad() {
                Some(Verdict::Wide(place)) => Some(*place),
                Some(_) | None => unreachable!(),
            },
        }
    }

    /// The laws of all candidates that have a region, in the order of their sets. The numbers of
    /// all their rows fit. Without memory the registry is given up.
    pub fn into_laws(self, alloc: Global) -> Result<LawTable, NoMemory>
        requires { self.phase ≡ Finished }
        ensures table { IfOk result (λ laws. IsTable self.program laws) }
        ensures rows_fit { IfOk result (λ laws. All (λ law. LawRowsFit self.program law (height self.program.g)) laws) }
    {
        law_theorems();
        let verdicts = self.verdicts;
        let laws = collect_laws(alloc, &self.entries, verdicts)?;
        Ok(laws)
    }
}
