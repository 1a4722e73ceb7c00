//! What workers do.

ghost use Rattle.std.specs.Prelude.{◌≡◌, ◌+◌, ◌<◌, ◌≤◌, true, false, None, Ok, length, IfOk, IfSome, OnErr, All, slice_index_or};
ghost use Rattle.mpc_space.specs.Definite.{IsDefinite};
ghost use Rattle.mpc_space.specs.Matrix.{height};
ghost use Rattle.mpc_sets.specs.RowSet.{IsSetOfRows};
ghost use Rattle.mpc_rows.specs.declared.programs.Qp.{Qp as Program};
ghost use Rattle.mpc_rows.specs.Candidates.{IsCandidate};
ghost use Rattle.mpc_rows.specs.Verdicts.{IsRight};
ghost use Rattle.mpc_workers.specs.Posts.{after, AtEach, CallsOnlyAt, ComesFirst, GivesNoJob, HasNothing, IsAnswered, IsAtProgram, IsBusy, IsPost};
ghost use Rattle.mpc_workers.specs.Seats.{IsSeat, KeepWorkers};

use crate::ahead::{NOWHERE, Outlook, discard};
use crate::delivery::Gate;
use crate::seats::{Post, Seat};
use crate::waiting::{News, seats_at_once};
use mpc_claim::{Ahead, Claimed, Ticket, claim_theorems};
use mpc_frac::NoMemory;
use mpc_rows::{Judged, Qp};
use mpc_turn::{Turn, hand_theorems};
use std::alloc::Global;
use std::sync::Wait;
use std::thread::Threads;
use std::{hint, thread};

/// How many candidates a worker looks at ahead at once, at most.
const MOST_AHEAD: usize = 16;

/// With so many verdicts at hand a worker looks no further ahead.
const MOST_KNOWN: usize = 128;

/// Of the candidates left of a level, a worker looks at one in so many times the number of workers, so that
/// all come to the level's end together.
const PARTS: usize = 4;

/// A level with fewer sets than these is narrow: what a look ahead takes would be more than it saves.
const NARROW: usize = 256;

/// How often a worker lets a moment pass where another's stretch comes next. Together these take about as long as
/// a stretch.
const PATIENCE: u32 = 64;

/// How long such a moment is, in steps of a few processor cycles each.
const PAUSE: u32 = 32;

/// What the workers of a pool share.
#[derive(Drop)]
pub struct Pool<'a, T, G> {
    pub rt: &'a T,
    pub alloc: Global,
    /// How many workers there are.
    pub workers: u32,
    pub turns: &'a [Turn],
    pub programs: &'a [Qp],
    pub gate: &'a G,
    pub news: &'a News,
}

/// What a worker keeps from one set to the next.
#[derive(Drop)]
pub struct Worker<'a> {
    /// The program of its last set, at first the first one.
    pub program: usize,
    /// How many members that set had, 0 before the first one.
    pub level: u32,
    /// Up to which place sets are claimed one after the other, without looking ahead.
    pub plain_until: usize,
    /// The place behind the last candidate of the level, as the worker last saw it.
    pub end: usize,
    /// How often it still lets a moment pass where another's stretch comes next.
    pub patience: u32,
    /// With so many sets left of a level it leaves them to all workers. The most that there can be where it
    /// doesn't work alone.
    pub shares_from: usize,
    /// Whether it left a level to all.
    pub shares: bool,
    /// The examiner of that program, with the verdicts that it found ahead.
    pub examiner: Option<Outlook<'a>>,
}

impl<'a> Worker<'a> {
    fn new(shares_from: usize) -> Worker<'a>
        ensures program { result.program ≡ 0 }
        ensures examiner { result.examiner ≡ None }
    {
        Worker {
            program: 0,
            level: 0,
            plain_until: 0,
            end: 0,
            patience: PATIENCE,
            shares_from,
            shares: false,
            examiner: None,
        }
    }

    /// The worker turns to this program. It leaves a program only where all sets of the level are
    /// claimed, so its next one there is its first of a level.
    fn turn_to(&mut self, program: usize, _qp: &Qp)
        requires { self.old.program ≡ program → IfSome self.old.examiner (λ q. q ≡ _qp.now) }
        ensures program { self.new.program ≡ program }
        ensures examiner { IfSome self.new.examiner (λ q. q ≡ _qp.now) }
    {
        if program != self.program {
            self.program = program;
            self.level = 0;
            discard(self.examiner.take());
        }
    }

    /// The worker has claimed a set of so many members. Where it is the worker's first of the level,
    /// two sleepers are woken, since there may be more of them. The one set of a level without members
    /// is no news.
    fn report(&mut self, members: u32, news: &News)
        ensures { self.new ≡ record self.old { level = members } }
    {
        if members != self.level {
            self.level = members;
            news.wake_two();
        }
    }

    /// The examiner of the program, which begins at the worker's first set there.
    fn take_examiner(&mut self, alloc: Global, qp: &'a Qp) -> Result<Outlook<'a>, NoMemory>
        requires { IfSome self.old.examiner (λ q. q ≡ qp.now) }
        ensures program { self.new.program ≡ self.old.program }
        ensures taken { self.new.examiner ≡ None }
        ensures examiner { IfOk result (λ q. q ≡ qp.now) }
    {
        match self.examiner.take() {
            Some(examiner) => Ok(examiner),
            None => Outlook::begin(alloc, qp),
        }
    }

    /// The verdict on a claimed set.
    fn examine(&mut self, alloc: Global, qp: &'a Qp, ticket: &Ticket) -> Result<Judged, NoMemory>
        requires definite { IsDefinite qp.now.h.rows }
        requires set_of_rows { IsSetOfRows (height qp.now.g) ticket.now.set }
        requires few { length ticket.now.set ≤ height qp.now.h }
        requires examiner { IfSome self.old.examiner (λ q. q ≡ qp.now) }
        ensures program { self.new.program ≡ self.old.program }
        ensures examiner { IfSome self.new.examiner (λ q. q ≡ qp.now) }
        ensures set { IfOk result (λ j. j.set ≡ ticket.now.set) }
        ensures right { IfOk result (λ j. IsRight qp.now ticket.now.set j.verdict) }
    {
        let place = (ticket.number() as usize).wrapping_sub(1);
        let mut examiner = self.take_examiner(alloc, qp)?;
        let judged = examiner.examine(alloc, place, ticket.set());
        discard(self.examiner.replace(examiner));
        judged
    }

    /// Takes a stretch of candidates to be examined ahead.
    fn take_stretch(&mut self, _qp: &Qp, ahead: Ahead)
        requires candidates { All (IsCandidate _qp.now) ahead.sets.items }
        requires examiner { IfSome self.old.examiner (λ q. q ≡ _qp.now) }
        ensures program { self.new.program ≡ self.old.program }
        ensures examiner { IfSome self.new.examiner (λ q. q ≡ _qp.now) }
    {
        if let Some(examiner) = &mut self.examiner {
            examiner.take_stretch(ahead);
        }
    }

    /// Finds the verdict on the next candidate of the stretch, unless it stands before this place. Whether there
    /// was one.
    fn examine_next(&mut self, alloc: Global, _qp: &Qp, from: usize) -> Result<bool, NoMemory>
        requires definite { IsDefinite _qp.now.h.rows }
        requires examiner { IfSome self.old.examiner (λ q. q ≡ _qp.now) }
        ensures program { self.new.program ≡ self.old.program }
        ensures examiner { IfSome self.new.examiner (λ q. q ≡ _qp.now) }
    {
        match &mut self.examiner {
            Some(examiner) => examiner.examine_next(alloc, from),
            None => Ok(false),
        }
    }

    /// The place of the first set, from this one on, whose verdict is known, if there is one, and else none that a
    /// set has.
    fn first_known(&mut self, _qp: &Qp, from: usize) -> usize
        requires { IfSome self.old.examiner (λ q. q ≡ _qp.now) }
        ensures program { self.new.program ≡ self.old.program }
        ensures examiner { IfSome self.new.examiner (λ q. q ≡ _qp.now) }
    {
        match &mut self.examiner {
            Some(examiner) => examiner.first_known(from),
            None => NOWHERE,
        }
    }

    /// How many candidates to look at ahead at most: none once as many verdicts are known as are of use, or
    /// while the worker works alone.
    fn most_ahead(&self) -> usize {
        match &self.examiner {
            _ if self.shares_from < usize::MAX => 0,
            Some(examiner) if examiner.count_known() >= MOST_KNOWN => 0,
            _ => MOST_AHEAD,
        }
    }

    /// Whether to look no further ahead: nothing is left of the level, or it is a narrow one, as the worker's
    /// first look at it shows, or one that is left to all.
    fn has_seen_enough(&mut self, ahead: &Ahead) -> bool
        ensures program { self.new.program ≡ self.old.program }
        ensures examiner { self.new.examiner ≡ self.old.examiner }
    {
        let left = ahead.end.saturating_sub(ahead.next);
        if ahead.end != self.end && left < NARROW {
            self.plain_until = ahead.end;
        }
        self.end = ahead.end;
        self.shares = left >= self.shares_from;
        self.shares || left == 0 || self.plain_until == ahead.end
    }

    /// Whether the set at this place is one to be claimed at once.
    fn has_next(&mut self, qp: &Qp, next: usize) -> bool
        requires { IfSome self.old.examiner (λ q. q ≡ qp.now) }
        ensures program { self.new.program ≡ self.old.program }
        ensures examiner { IfSome self.new.examiner (λ q. q ≡ qp.now) }
    {
        next < self.plain_until || self.first_known(qp, next) == next
    }

    /// Lets a moment pass, unless that was done too often since the worker came to a stretch of its own.
    /// Whether it was.
    fn is_patient(&mut self) -> bool
        ensures { self.new ≡ record self.old { patience = self.new.patience } }
    {
        if self.patience == 0 {
            return false;
        }
        self.patience -= 1;
        for _ in 0..PAUSE {
            hint::spin_loop();
        }
        true
    }
}

/// What a claim gave a post: a set, or nothing.
fn taken(
    _turn: &Turn,
    _qp: &Qp,
    _number: u32,
    post: &mut Post,
    answer: Result<Claimed, NoMemory>,
) -> Result<Option<Ticket>, NoMemory>
    requires working { post.old.saw_end ≡ false }
    requires answered { IsAnswered _number _turn.now _qp.now answer post.old }
    ensures pass { post.new.pass ≡ post.old.pass }
    ensures some { IfOk result (λ found. IfSome found (λ t. IsBusy _number _turn.now _qp.now t post.new)) }
    ensures none { result ≡ Ok None → IsPost _number _turn.now _qp.now post.new }
    ensures nothing { result ≡ Ok None → HasNothing _qp.now post.new.pass.seen }
    ensures no_job { result ≡ Ok None → GivesNoJob answer }
    ensures err { OnErr result (IsPost _number _turn.now _qp.now post.new) }
{
    match answer {
        Ok(Claimed::Job(ticket)) => Ok(Some(ticket)),
        Ok(Claimed::Idle) => Ok(None),
        Ok(Claimed::Finished) => {
            post.saw_end = true;
            Ok(None)
        }
        Ok(Claimed::Stopped) => {
            post.saw_end = true;
            Ok(None)
        }
        Err(refused) => Err(refused),
    }
}

/// Claims a set of a program.
fn claim<T: Wait>(
    rt: &T,
    turn: &Turn,
    qp: &Qp,
    number: u32,
    post: &mut Post,
) -> Result<Option<Ticket>, NoMemory>
    requires working { post.old.saw_end ≡ false }
    requires post { IsPost number turn.now qp.now post.old }
    ensures calls { result ≡ Ok None → post.new.pass.calls ≡ post.old.pass.calls }
    ensures some { IfOk result (λ found. IfSome found (λ t. IsBusy number turn.now qp.now t post.new)) }
    ensures none { result ≡ Ok None → IsPost number turn.now qp.now post.new }
    ensures nothing { result ≡ Ok None → HasNothing qp.now post.new.pass.seen }
    ensures err { OnErr result (IsPost number turn.now qp.now post.new) }
{
    let answer = turn.claim_as(rt, &mut post.pass);
    taken(turn, qp, number, post, answer)
}

/// Delivers the verdict on a set in hand.
fn deliver<T: Wait>(
    rt: &T,
    turn: &Turn,
    _qp: &Qp,
    number: u32,
    post: &mut Post,
    ticket: Ticket,
    judged: Judged,
)
    requires post { IsBusy number turn.now _qp.now ticket post.old }
    requires set { judged.set ≡ ticket.set }
    requires right { IsRight _qp.now ticket.set judged.verdict }
    ensures post { IsPost number turn.now _qp.now post.new }
    ensures working { post.new.saw_end ≡ false }
{
    hand_theorems();
    let _ = turn.deliver_as(rt, &mut post.pass, ticket, judged);
}

/// Takes a further stretch of candidates to be examined ahead, or else has some patience with others'
/// stretches. Whether there may be more of use: not where the next set to be claimed is known, none of the
/// level is left, or all that are left are left to all workers.
fn look_further<'a, T: Wait, G: Gate>(
    pool: &Pool<'a, T, G>,
    turn: &Turn,
    qp: &'a Qp,
    number: u32,
    worker: &mut Worker<'a>,
    post: &mut Post,
) -> Result<bool, NoMemory>
    requires definite { IsDefinite qp.now.h.rows }
    requires working { post.old.saw_end ≡ false }
    requires examiner { IfSome worker.old.examiner (λ q. q ≡ qp.now) }
    requires post { IsPost number turn.now qp.now post.old }
    ensures program { worker.new.program ≡ worker.old.program }
    ensures examiner { IfSome worker.new.examiner (λ q. q ≡ qp.now) }
    ensures post { IsPost number turn.now qp.now post.new }
    ensures working { post.new.saw_end ≡ false }
{
    let parts = (pool.workers as usize).saturating_mul(PARTS);
    let known = worker.first_known(qp, turn.next_place() as usize);
    let most = worker.most_ahead();
    let ahead = turn.look_ahead_as(pool.rt, &mut post.pass, known, parts, most)?;
    if ahead.next == known || worker.has_seen_enough(&ahead) {
        return Ok(false);
    }
    if ahead.sets.is_empty() {
        return Ok(worker.is_patient());
    }
    worker.take_stretch(qp, ahead);
    Ok(true)
}

/// One step of looking ahead: examines a candidate of the worker's stretch before its claim, or looks further.
/// Whether there may be more of use.
fn step_ahead<'a, T: Wait, G: Gate>(
    pool: &Pool<'a, T, G>,
    turn: &Turn,
    qp: &'a Qp,
    number: u32,
    worker: &mut Worker<'a>,
    post: &mut Post,
) -> Result<bool, NoMemory>
    requires definite { IsDefinite qp.now.h.rows }
    requires working { post.old.saw_end ≡ false }
    requires examiner { IfSome worker.old.examiner (λ q. q ≡ qp.now) }
    requires post { IsPost number turn.now qp.now post.old }
    ensures program { worker.new.program ≡ worker.old.program }
    ensures examiner { IfSome worker.new.examiner (λ q. q ≡ qp.now) }
    ensures post { IsPost number turn.now qp.now post.new }
    ensures working { post.new.saw_end ≡ false }
{
    let next = turn.next_place() as usize;
    if worker.first_known(qp, next) == next {
        worker.patience = PATIENCE;
        return Ok(false);
    }
    if worker.examine_next(pool.alloc, qp, next)? {
        return Ok(true);
    }
    look_further(pool, turn, qp, number, worker, post)
}

/// Examines stretches of candidates before they are claimed, while that is of use.
///
/// A stretch has neighbours, which mostly begin alike. So their beginnings are worked out by one worker, and
/// once, though each set is claimed by itself and in order. As soon as the next set is one whose verdict
/// is known, the worker claims. Where another's stretch comes next, and no further one is of use, the worker looks again some times and then claims all the same, and examines that
/// set anew: whoever has the stretch may be off its processor. It looks again as often only once it has come to
/// a stretch of its own.
fn look_ahead<'a, T: Wait, G: Gate>(
    pool: &Pool<'a, T, G>,
    turn: &Turn,
    qp: &'a Qp,
    number: u32,
    worker: &mut Worker<'a>,
    post: &mut Post,
) -> Result<(), NoMemory>
    requires definite { IsDefinite qp.now.h.rows }
    requires working { post.old.saw_end ≡ false }
    requires examiner { IfSome worker.old.examiner (λ q. q ≡ qp.now) }
    requires post { IsPost number turn.now qp.now post.old }
    ensures program { worker.new.program ≡ worker.old.program }
    ensures examiner { IfSome worker.new.examiner (λ q. q ≡ qp.now) }
    ensures post { IsPost number turn.now qp.now post.new }
    ensures working { post.new.saw_end ≡ false }
{
    for _ in pool.rt.forever() {
        if !step_ahead(pool, turn, qp, number, worker, post)? {
            return Ok(());
        }
    }
    unreachable!()
}

/// Examines a set in hand, passes the gate, delivers the verdict and claims the next set of the program:
/// in one turn where that one's verdict is known, and else once it has looked ahead. Without memory for its
/// verdict the set is given up. Once the work is called off, or the level is left to all, there is no next one.
fn finish_set<'a, T: Wait, G: Gate>(
    pool: &Pool<'a, T, G>,
    turn: &Turn,
    qp: &'a Qp,
    number: u32,
    worker: &mut Worker<'a>,
    post: &mut Post,
    ticket: Ticket,
) -> Result<Option<Ticket>, NoMemory>
    requires definite { IsDefinite qp.now.h.rows }
    requires examiner { IfSome worker.old.examiner (λ q. q ≡ qp.now) }
    requires post { IsBusy number turn.now qp.now ticket post.old }
    ensures program { worker.new.program ≡ worker.old.program }
    ensures examiner { IfSome worker.new.examiner (λ q. q ≡ qp.now) }
    ensures some { IfOk result (λ found. IfSome found (λ t. IsBusy number turn.now qp.now t post.new)) }
    ensures none { result ≡ Ok None → IsPost number turn.now qp.now post.new }
    ensures err { OnErr result (IsPost number turn.now qp.now post.new) }
{
    hand_theorems();
    claim_theorems();
    worker.report(ticket.set().size(), pool.news);
    let next = ticket.number() as usize;
    let judged = match worker.examine(pool.alloc, qp, &ticket) {
        Ok(judged) => judged,
        Err(refused) => {
            post.gave_up = true;
            let _ = turn.abandon_as(pool.rt, &mut post.pass, ticket);
            return Err(refused);
        }
    };
    pool.gate.between(ticket.worker(), ticket.set().mask());
    if worker.has_next(qp, next) && !pool.news.is_called_off() {
        let answer = turn.deliver_then_claim_as(pool.rt, &mut post.pass, ticket, judged);
        return taken(turn, qp, number, post, answer);
    }
    deliver(pool.rt, turn, qp, number, post, ticket, judged);
    if pool.news.is_called_off() {
        return Err(NoMemory);
    }
    look_ahead(pool, turn, qp, number, worker, post)?;
    if worker.shares {
        return Ok(None);
    }
    claim(pool.rt, turn, qp, number, post)
}

/// Works on sets of a program from the one in hand on, until the program has none to claim, or leaves them to all.
fn finish_sets<'a, T: Wait, G: Gate>(
    pool: &Pool<'a, T, G>,
    turn: &Turn,
    qp: &'a Qp,
    number: u32,
    worker: &mut Worker<'a>,
    post: &mut Post,
    mut ticket: Ticket,
) -> Result<(), NoMemory>
    requires definite { IsDefinite qp.now.h.rows }
    requires examiner { IfSome worker.old.examiner (λ q. q ≡ qp.now) }
    requires post { IsBusy number turn.now qp.now ticket post.old }
    ensures program { worker.new.program ≡ worker.old.program }
    ensures examiner { IfSome worker.new.examiner (λ q. q ≡ qp.now) }
    ensures post { IsPost number turn.now qp.now post.new }
{
    for _ in pool.rt.forever() {
        match finish_set(pool, turn, qp, number, worker, post, ticket) {
            Ok(Some(next)) => ticket = next,
            Ok(None) => return Ok(()),
            Err(refused) => return Err(refused),
        }
    }
    unreachable!()
}

/// Works at the program at a place, from 0, while it has sets to claim. Whether it had one.
fn work_at<'a, T: Wait, G: Gate>(
    pool: &Pool<'a, T, G>,
    turn: &Turn,
    qp: &'a Qp,
    place: usize,
    number: u32,
    worker: &mut Worker<'a>,
    post: &mut Post,
) -> Result<bool, NoMemory>
    requires definite { IsDefinite qp.now.h.rows }
    requires within { place < length pool.now.programs.now }
    requires program { qp.now ≡ slice_index_or pool.now.programs.now place qp.now }
    requires worker { IsAtProgram pool.now.programs.now worker.old }
    requires post { IsPost number turn.now qp.now post.old }
    ensures worker { IsAtProgram pool.now.programs.now worker.new }
    ensures post { IsPost number turn.now qp.now post.new }
    ensures turned { result ≡ Ok true → worker.new.program ≡ place }
    ensures same { result ≡ Ok false → worker.new ≡ worker.old }
    ensures no_calls { result ≡ Ok false → post.new.pass.calls ≡ post.old.pass.calls }
    ensures nothing { result ≡ Ok false → HasNothing qp.now post.new.pass.seen }
{
    if post.saw_end {
        return Ok(false);
    }
    match claim(pool.rt, turn, qp, number, post) {
        Ok(Some(ticket)) => {
            worker.turn_to(place, qp);
            match finish_sets(pool, turn, qp, number, worker, post, ticket) {
                Ok(()) => Ok(true),
                Err(refused) => Err(refused),
            }
        }
        Ok(None) => Ok(false),
        Err(refused) => Err(refused),
    }
}

/// The number of the program that comes so many places after this one, of so many and round.
fn place_after(from: usize, steps: usize, count: usize) -> usize
    requires from { from < count }
    requires steps { steps < count }
    ensures place { result ≡ after from steps count }
    ensures within { result < count }
{
    if steps < count - from {
        from + steps
    } else {
        steps - (count - from)
    }
}

/// Works at the first program, from that of the worker's last set on and round, that has a set to
/// claim, while it has. Whether there was one.
fn work_at_next<'a, T: Wait, G: Gate>(
    pool: &Pool<'a, T, G>,
    worker: &mut Worker<'a>,
    number: u32,
    posts: &mut [Post],
) -> Result<bool, NoMemory>
    requires definite { All (λ (qp : Program). IsDefinite qp.h.rows) pool.now.programs.now }
    requires worker { IsAtProgram pool.now.programs.now worker.old }
    requires posts { AtEach (IsPost number) pool.now.turns.now pool.now.programs.now posts.old }
    ensures worker { IsAtProgram pool.now.programs.now worker.new }
    ensures posts { AtEach (IsPost number) pool.now.turns.now pool.now.programs.now posts.new }
    ensures first { result ≡ Ok true → ComesFirst pool.now.programs.now posts.new worker.old.program worker.new.program }
    ensures only { result ≡ Ok true → CallsOnlyAt worker.new.program posts.old posts.new }
{
    let from = worker.program;
    for steps in 0..posts.len() {
        let place = place_after(from, steps, posts.len());
        match work_at(
            pool,
            &pool.turns[place],
            &pool.programs[place],
            place,
            number,
            worker,
            &mut posts[place],
        ) {
            Ok(took) => {
                if took {
                    return Ok(true);
                }
            }
            Err(refused) => return Err(refused),
        }
    }
    Ok(false)
}

/// Works at the next program that has a set to claim, or else waits for news. Whether there may be more to
/// do: not once all programs have come to their end, or the work is called off or left to all.
fn work_on<'a, T: Wait, G: Gate>(
    pool: &Pool<'a, T, G>,
    worker: &mut Worker<'a>,
    number: u32,
    posts: &mut [Post],
) -> bool
    requires definite { All (λ (qp : Program). IsDefinite qp.h.rows) pool.now.programs.now }
    requires worker { IsAtProgram pool.now.programs.now worker.old }
    requires posts { AtEach (IsPost number) pool.now.turns.now pool.now.programs.now posts.old }
    ensures worker { IsAtProgram pool.now.programs.now worker.new }
    ensures posts { AtEach (IsPost number) pool.now.turns.now pool.now.programs.now posts.new }
{
    let heard = pool.news.count();
    if pool.news.is_called_off() {
        return false;
    }
    match work_at_next(pool, worker, number, posts) {
        Ok(true) => !worker.shares,
        Ok(false) => {
            let has_ended = posts.iter().all(|post| post.saw_end);
            if !has_ended {
                pool.news.wait(pool.rt, heard);
            }
            !has_ended
        }
        Err(_) => {
            pool.news.call_off();
            false
        }
    }
}

/// Works until all programs have come to their end, or until the work is called off or left to all.
///
/// Where no program has a set to claim, the worker waits for news. A worker that was woken has found
/// its last program without a set before, so the next set that it claims is its first of a level, and
/// it wakes two others: so the workers of a level double until all are at it or its sets are claimed.
///
/// Nobody sleeps for ever. Where a program has come to no end and has no set to claim, another worker
/// holds one of its sets, is awake, and claims there again as it delivers it; so until the end somebody
/// is awake. Whoever ends, at the end or called off, wakes all and raises the count of the news, on
/// which a sleep that begins later ends at once, since the count that it waits on was read before the
/// worker looked whether the work is called off, and before its claims. A worker alone has delivered each set
/// before it claims, so it finds a set or the end, and never sleeps; what it leaves to all, nobody holds.
fn work<'a, T: Wait, G: Gate>(
    pool: &Pool<'a, T, G>,
    worker: &mut Worker<'a>,
    number: u32,
    posts: &mut [Post],
)
    requires definite { All (λ (qp : Program). IsDefinite qp.h.rows) pool.now.programs.now }
    requires worker { IsAtProgram pool.now.programs.now worker.old }
    requires posts { AtEach (IsPost number) pool.now.turns.now pool.now.programs.now posts.old }
    ensures { AtEach (IsPost number) pool.now.turns.now pool.now.programs.now posts.new }
{
    for _ in pool.rt.forever() {
        if !work_on(pool, worker, number, posts) {
            return;
        }
    }
    unreachable!()
}

/// Works to the end, or to a level with so many sets left, and wakes the others there, who end too.
fn work_and_wake<'a, T: Wait, G: Gate>(pool: &Pool<'a, T, G>, seat: &mut Seat, shares_from: usize)
    requires definite { All (λ (qp : Program). IsDefinite qp.h.rows) pool.now.programs.now }
    requires seat { IsSeat pool.now.turns.now pool.now.programs.now pool.now.workers seat.old }
    ensures seat { IsSeat pool.now.turns.now pool.now.programs.now pool.now.workers seat.new }
    ensures same { seat.new.worker ≡ seat.old.worker }
{
    let mut worker = Worker::new(shares_from);
    work(pool, &mut worker, seat.worker, seat.posts.as_mut_slice());
    let Worker {
        program: _,
        level: _,
        plain_until: _,
        end: _,
        patience: _,
        shares_from: _,
        shares: _,
        examiner,
    } = worker;
    discard(examiner);
    pool.news.wake_all();
}

/// The work of these seats, in so many threads, to the end or to a level with so many sets left.
fn walk<'a, T: Threads + Wait + Sync, G: Gate + Sync>(
    pool: &Pool<'a, T, G>,
    seats: &mut [Seat],
    threads: usize,
    shares_from: usize,
)
    requires definite { All (λ (qp : Program). IsDefinite qp.h.rows) pool.now.programs.now }
    requires threads { 0 < threads }
    requires seats { All (IsSeat pool.now.turns.now pool.now.programs.now pool.now.workers) seats.old }
    ensures seats { All (IsSeat pool.now.turns.now pool.now.programs.now pool.now.workers) seats.new }
    ensures workers { KeepWorkers seats.old seats.new }
{
    thread::for_each_mut(
        pool.rt,
        seats,
        threads,
        &|_, seat| work_and_wake(pool, seat, shares_from),
    );
}

/// The work of the first seat alone, on the caller's thread: to the end, or to a level with so many sets left that
/// the gate has all workers started. Several programs it would work at one after the other, so these aren't begun.
fn work_alone<'a, T: Threads + Wait + Sync, G: Gate + Sync>(
    pool: &Pool<'a, T, G>,
    seats: &mut [Seat],
)
    requires definite { All (λ (qp : Program). IsDefinite qp.h.rows) pool.now.programs.now }
    requires some { 0 < length seats.old }
    requires seats { All (IsSeat pool.now.turns.now pool.now.programs.now pool.now.workers) seats.old }
    ensures seats { All (IsSeat pool.now.turns.now pool.now.programs.now pool.now.workers) seats.new }
    ensures workers { KeepWorkers seats.old seats.new }
{
    let shares_from = pool.gate.shares_from();
    let count = if shares_from > 0 && pool.programs.len() == 1 {
        1
    } else {
        0
    };
    let (first, _) = seats.split_at_mut(count);
    walk(pool, first, 1, shares_from);
}

/// How many seats work in threads beside each other: one where nothing is left to be done.
fn seats_in_threads<'a, T: Threads, G>(pool: &Pool<'a, T, G>, seats: &[Seat]) -> usize
    requires { 0 < length seats.now }
    ensures some { 0 < result }
    ensures few { result ≤ length seats.now }
{
    if pool.news.is_called_off() || seats[0].posts.iter().all(|post| post.saw_end) {
        return 1;
    }
    seats_at_once(pool.rt, seats.len(), pool.programs)
}

/// The work of all seats: of the first one alone, then of as many as are of use in threads beside each other, and
/// then of the rest, who find the end.
pub(crate) fn work_all<'a, T: Threads + Wait + Sync, G: Gate + Sync>(
    pool: &Pool<'a, T, G>,
    seats: &mut [Seat],
)
    requires definite { All (λ (qp : Program). IsDefinite qp.h.rows) pool.now.programs.now }
    requires seats { All (IsSeat pool.now.turns.now pool.now.programs.now pool.now.workers) seats.old }
    ensures seats { All (IsSeat pool.now.turns.now pool.now.programs.now pool.now.workers) seats.new }
    ensures workers { KeepWorkers seats.old seats.new }
{
    if seats.is_empty() {
        return;
    }
    work_alone(pool, seats);
    let threads = seats_in_threads(pool, seats);
    let (first, rest) = seats.split_at_mut(threads);
    walk(pool, first, threads, usize::MAX);
    walk(pool, rest, 1, usize::MAX);
}
