//! Steps on the lists of a registry.

ghost use Rattle.std.specs.Prelude.{◌≡◌, ℕ, suc, ◌+◌, ◌*◌, ◌^◌, ◌<◌, ◌≤◌, [], ◌∷◌, ◌++◌, true, false, map, length, slice_set, vec_len, vec_capacity, IfOk, OnOk, OnErr, IfSome, IfNone, MatchOption, All};
ghost use Rattle.mpc_sets.specs.NextLevel.{IsLevel};
ghost use Rattle.mpc_rows.specs.Candidates.{IsCandidate};
ghost use Rattle.mpc_claim.specs.declared.events.EventKind.TheVariants.{Claim};
ghost use Rattle.mpc_claim.specs.declared.entries.Mark.TheVariants.{Claimed};
ghost use Rattle.mpc_claim.specs.Board.{at, event, sets_of, tag_of};
ghost use Rattle.mpc_claim.specs.Entries.{IsWithin, entry, entry_at, kept_of, mark_of, seen, slot_of, unclaimed, without_law};
ghost use Rattle.mpc_claim.specs.Books.{is_bad};
ghost use Rattle.mpc_claim.specs.Levels.{HoldsCandidates, HoldsGrown, IsFirstBadPlace, StandOnce, grown_of, law_in, laws_in, laws_of, slot_grows};

use crate::{Entry, Event, EventKind, Mark, Tag, Ticket};
use mpc_frac::NoMemory;
use mpc_rows::{Law, LawTable, Qp, Verdict};
use mpc_sets::{ActiveSet, level_theorem, member_theorems, next_level};
use std::alloc::Global;
use std::mem;

/// The tag of a verdict.
pub(crate) fn tag(verdict: &Verdict) -> Tag
    ensures { result ≡ tag_of verdict.now }
{
    match verdict {
        Verdict::Dependent => Tag::Dependent,
        Verdict::Unreachable => Tag::Unreachable,
        Verdict::Hollow => Tag::Hollow,
        Verdict::Region(_) => Tag::Region,
        Verdict::Wide(_) => Tag::Wide,
    }
}

/// Keeps the verdict, where it has a law or a place, and gives its mark.
pub(crate) fn keep(verdicts: &mut Vec<Verdict>, verdict: Verdict) -> Mark
    requires number { vec_len verdicts.old < 2 ^ 32 }
    requires room { vec_len verdicts.old < vec_capacity verdicts.old }
    ensures mark { result ≡ mark_of (vec_len verdicts.old) verdict }
    ensures verdicts { verdicts.new.items ≡ verdicts.old.items ++ kept_of verdict }
    ensures capacity { vec_capacity verdicts.new ≡ vec_capacity verdicts.old }
{
    let place = verdicts.len() as u32;
    match verdict {
        Verdict::Dependent => Mark::Dependent,
        Verdict::Unreachable => Mark::Unreachable,
        Verdict::Hollow => Mark::Hollow,
        kept => {
            verdicts.push_reserved(kept);
            Mark::Kept(place)
        }
    }
}

/// Whether the mark's verdict is wide.
fn has_wide(mark: &Mark, verdicts: &[Verdict]) -> bool
    ensures { result ≡ is_bad (slot_of verdicts.now mark.now) }
{
    match mark {
        Mark::Kept(place) => matches!(verdicts.get(*place as usize), Some(Verdict::Wide(_))),
        _ => false,
    }
}

/// Whether the mark has a verdict with which a set can grow by a row.
fn grows(mark: &Mark, verdicts: &[Verdict]) -> bool
    ensures { result ≡ slot_grows (slot_of verdicts.now mark.now) }
{
    match mark {
        Mark::Hollow => true,
        Mark::Kept(place) => {
            matches!(
                verdicts.get(*place as usize),
                Some(Verdict::Hollow | Verdict::Region(_))
            )
        }
        _ => false,
    }
}

/// The first place, from `from` on, of a wide verdict.
pub(crate) fn find_bad(entries: &[Entry], verdicts: &[Verdict], from: usize) -> Option<usize>
    ensures none { IfNone result ((i : ℕ) → from ≤ i → i < length entries.now → is_bad (at (seen verdicts.now entries.now) i).slot ≡ false) }
    ensures first { IfSome result (λ place. IsFirstBadPlace (seen verdicts.now entries.now) from place) }
{
    for place in from..entries.len() {
        if has_wide(&entries[place].mark, verdicts) {
            return Some(place);
        }
    }
    None
}

/// How many of so many candidates are looked at together: one in so many parts of them, but at least
/// one, where there is any, and no more than the most.
pub(crate) fn share_of(left: usize, parts: usize, most: usize) -> usize
    ensures { result ≤ left }
{
    (left / parts.max(1)).max(1).min(most).min(left)
}

/// The sets of the candidates from this place on, up to that one.
pub(crate) fn sets_between(
    alloc: Global,
    _qp: &Qp,
    entries: &[Entry],
    from: usize,
    to: usize,
) -> Result<Vec<ActiveSet>, NoMemory>
    requires within { to ≤ length entries.now }
    requires candidates { (i : ℕ) → i < length entries.now → IsCandidate _qp.now (entry_at entries.now i).set }
    ensures { IfOk result (λ sets. All (IsCandidate _qp.now) sets.items) }
{
    let mut sets = Vec::new(alloc);
    let Ok(()) = sets.reserve(to.saturating_sub(from)) else {
        return Err(NoMemory);
    };
    for place in from..to {
        let Ok(()) = sets.push(entries[place].set) else {
            return Err(NoMemory);
        };
    }
    Ok(sets)
}

/// The sets of a level that can grow by a row.
fn grown_sets(
    alloc: Global,
    level: &[Entry],
    verdicts: &[Verdict],
) -> Result<Vec<ActiveSet>, NoMemory>
    ensures { IfOk result (λ sets. sets.items ≡ grown_of (seen verdicts.now level.now)) }
{
    let mut sets = Vec::new(alloc);
    for candidate in level {
        if grows(&candidate.mark, verdicts) {
            let Ok(()) = sets.push(candidate.set) else {
                return Err(NoMemory);
            };
        }
    }
    Ok(sets)
}

/// The candidates of the next level: the sets, with no more members than there are unknowns, whose
/// every subset with one member fewer is one of the level that can grow.
pub(crate) fn next_candidates(
    alloc: Global,
    qp: &Qp,
    level: &[Entry],
    verdicts: &[Verdict],
    size: u32,
) -> Result<Vec<ActiveSet>, NoMemory>
    requires level { IsLevel (sets_of (seen verdicts.now level.now)) }
    requires grown { HoldsGrown qp.now size (grown_of (seen verdicts.now level.now)) }
    ensures { IfOk result (λ sets. HoldsCandidates qp.now (suc size) sets.items) }
{
    member_theorems();
    level_theorem();
    if size >= qp.h.rows() {
        return Ok(Vec::new(alloc));
    }
    let grown = grown_sets(alloc, level, verdicts)?;
    let sets = next_level(alloc, &grown, qp.g.rows())?;
    Ok(sets)
}

/// Puts sets behind the candidates. Without memory these stay as they were.
pub(crate) fn append_waiting(entries: &mut Vec<Entry>, sets: &[ActiveSet]) -> Result<(), NoMemory>
    ensures ok { OnOk result (entries.new.items ≡ entries.old.items ++ map unclaimed sets.now) }
    ensures err { OnErr result (entries.new.items ≡ entries.old.items) }
{
    if entries.reserve_exact(sets.len()).is_err() {
        return Err(NoMemory);
    }
    for set in sets {
        entries.push_reserved(Entry {
            set: *set,
            mark: Mark::Waiting,
        });
    }
    Ok(())
}

/// Makes room for so many claims with their ends, and for the verdicts of one of them and of all
/// that are pending. Without memory the lists stay as they were.
pub(crate) fn reserve_claims(
    history: &mut Vec<Event>,
    verdicts: &mut Vec<Verdict>,
    pending: usize,
    claims: usize,
) -> Result<(), NoMemory>
    requires { pending + 2 * claims < 2 ^ 64 }
    ensures history { history.new.items ≡ history.old.items }
    ensures verdicts { verdicts.new.items ≡ verdicts.old.items }
    ensures history_room { vec_capacity history.old ≤ vec_capacity history.new }
    ensures verdicts_room { vec_capacity verdicts.old ≤ vec_capacity verdicts.new }
    ensures events_fit { OnOk result (vec_len history.new + (pending + 2 * claims) ≤ vec_capacity history.new) }
    ensures verdicts_fit { OnOk result (vec_len verdicts.new + (pending + 1) ≤ vec_capacity verdicts.new) }
{
    let Ok(()) = history.reserve_exact(pending + 2 * claims) else {
        return Err(NoMemory);
    };
    let Ok(()) = verdicts.reserve(pending + 1) else {
        return Err(NoMemory);
    };
    Ok(())
}

/// Gives the candidate at this place out, for which the history has room.
pub(crate) fn note_claim(
    entries: &mut Vec<Entry>,
    history: &mut Vec<Event>,
    place: usize,
    worker: u32,
) -> Ticket
    requires in_range { place < vec_len entries.old }
    requires number { place + 1 < 2 ^ 32 }
    requires room { vec_len history.old < vec_capacity history.old }
    ensures number_is { result.number ≡ place + 1 }
    ensures worker_is { result.worker ≡ worker }
    ensures set_is { result.set ≡ (entry_at entries.old.items place).set }
    ensures mark { entries.new.items ≡ slice_set entries.old.items place (entry (entry_at entries.old.items place).set (Claimed (place + 1))) }
    ensures event { history.new.items ≡ history.old.items ++ event worker (entry_at entries.old.items place).set Claim ∷ [] }
    ensures capacity { vec_capacity history.new ≡ vec_capacity history.old }
{
    let number = place as u32 + 1;
    let set = entries[place].set;
    entries[place] = Entry {
        set,
        mark: Mark::Claimed(number),
    };
    history.push_reserved(Event {
        set,
        worker,
        kind: EventKind::Claim,
    });
    Ticket {
        number,
        worker,
        set,
    }
}

/// The law of the verdict, if it has one.
fn law(verdict: Verdict) -> Option<Law>
    ensures { MatchOption result (laws_in verdict ≡ []) (λ law. laws_in verdict ≡ law ∷ []) }
{
    match verdict {
        Verdict::Region(law) => Some(law),
        Verdict::Dependent => None,
        Verdict::Unreachable => None,
        Verdict::Hollow => None,
        Verdict::Wide(_) => None,
    }
}

/// Takes the law of the mark's verdict out, if it has one.
fn take_law(verdicts: &mut Vec<Verdict>, mark: &Mark) -> Option<Law>
    requires { IsWithin (length verdicts.old.items) mark.now }
    ensures law { MatchOption result (law_in (slot_of verdicts.old.items mark.now) ≡ []) (λ law. law_in (slot_of verdicts.old.items mark.now) ≡ law ∷ []) }
    ensures rest { verdicts.new.items ≡ without_law verdicts.old.items mark.now }
{
    match mark {
        Mark::Kept(place) => {
            let verdict = mem::replace(&mut verdicts[*place as usize], Verdict::Hollow);
            law(verdict)
        }
        _ => None,
    }
}

/// The laws of the verdicts that have one, in the order of the candidates.
pub(crate) fn collect_laws(
    alloc: Global,
    entries: &[Entry],
    mut verdicts: Vec<Verdict>,
) -> Result<LawTable, NoMemory>
    requires within { (i : ℕ) → IsWithin (length verdicts.items) (entry_at entries.now i).mark }
    requires once { StandOnce (seen verdicts.items entries.now) }
    ensures { IfOk result (λ laws. laws ≡ laws_of (seen verdicts.items entries.now)) }
{
    let mut laws = LawTable::new(alloc);
    for candidate in entries {
        match take_law(&mut verdicts, &candidate.mark) {
            Some(law) => laws.push(law)?,
            None => {}
        }
    }
    Ok(laws)
}
