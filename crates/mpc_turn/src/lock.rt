//! The lock.

ghost use Rattle.std.specs.Prelude.{◌≡◌, ◌<◌, ◌+◌, ◌-◌, [], ◌∷◌, ◌++◌, true, false, IfOk, MatchOption, All};
ghost use Rattle.mpc_rows.specs.Candidates.{IsCandidate};
ghost use Rattle.mpc_rows.specs.Verdicts.{IsRight};
ghost use Rattle.mpc_claim.specs.declared.events.EventKind.TheVariants.{Done, Drop};
ghost use Rattle.mpc_claim.specs.Board.{tag_of};
ghost use Rattle.mpc_claim.specs.History.{IsOpen};
ghost use Rattle.mpc_turn.specs.Views.{Starts, served, longer};
ghost use Rattle.mpc_turn.specs.Lock.{Draws, IsOutside};
ghost use Rattle.mpc_turn.specs.Known.{first_pass, ClaimedAs, EndedAs, EndedThenClaimed, InHand, HasTurn, Holds, IsDue, MayDeliver, ClaimsBy, EndsBy, Looks, LooksAt, Closed};

use crate::passes::{Pass, Seat};
use crate::view::{Compare, Draw, Law, Lend, Look, Serve, View};
use atomic_table::Table;
use mpc_claim::{Ahead, Claimed, Delivery, Registry, Ticket, history_theorems, legal_theorems};
use mpc_frac::NoMemory;
use mpc_rows::Judged;
use std::alloc::Global;
use std::hint;
use std::marker::Model;
use std::snapshot::Snapshot;
use std::sync::Wait;
use std::sync::atomic::{AtomicU64, Ordering};

/// The word whose count is the number that the next turn will have.
const TICKET: usize = 0;

/// The word whose count is the number that has the turn.
const SERVING: usize = 1;

/// How often whoever waits looks before it sleeps. That many looks take about as long as a sleep
/// and its end take the system, and a turn mostly takes less, so no wait costs much more than the
/// better of both.
const QUICK_LOOKS: u32 = 100;

/// A registry that passes take turns at. Whoever calls waits until nobody has the turn, draws the
/// number that is served, has the registry alone meanwhile, and then serves the next. Contracts see
/// its identity.
///
/// Nobody queues: a number is drawn only by whoever is served at once, so a waiter that is off its
/// processor stops nobody. It costs one wake, since it sleeps on the number that is served.
///
/// No wake is lost. Who sleeps is counted first, and then parks only on the number that is served
/// while another has that turn. So the end of that turn comes later: it raises the number, then reads
/// the count, and wakes one. Whoever is woken takes the turn, or finds that another has it; either
/// way a turn ends later, and wakes the next. All these steps have one order. That anybody is ever
/// served isn't proved.
#[derive(Drop)]
pub struct Turn {
    table: Table<Registry, View, Snapshot<Registry>, Law, Global>,
    sleepers: AtomicU64,
    /// The place of the candidate that is claimed next, as the last claim left it.
    next: AtomicU64,
}

impl Model for Turn {
    ghost use Rattle.std.specs.Prelude.{◌≡◌};
    ghost use Rattle.atomic_table.specs.Seated.{TableId, table_id_coded};

    ghost Value = { TableId };

    ghost coded = { table_id_coded };

    ghost view = { λ t. t.table.shared.table_id };

    ghost invariant = { λ t. (t.table.shared.table_id.words ≡ 2) × (t.table.shared.table_id.slots ≡ 1) };
}

impl Turn {
    /// Draws the number that is served, where nobody has the turn.
    fn try_draw(&self, seat: &mut Seat) -> Option<u64>
        requires turn { seat.old.table_id ≡ self.now }
        requires idle { (seat.old.me.0.number ≡ None) × (0 < seat.old.me.0.parts) }
        ensures turn { seat.new.table_id ≡ self.now }
        ensures drawn { MatchOption result (seat.new.me ≡ seat.old.me) (λ n. Draws seat.old.me n seat.new.me) }
    {
        let served = self.table.shared.peek(SERVING);
        if self.table.shared.peek(TICKET) != served {
            return None;
        }
        let next = served.wrapping_add(1);
        let found = self
            .table
            .shared
            .compare_exchange::<Draw>(seat, TICKET, served, next);
        if found == served { Some(served) } else { None }
    }

    /// Sleeps while somebody has the turn, until one ends. It parks on the low half of the number,
    /// which comes again after 2^32 turns.
    fn sleep<T: Wait>(&self, rt: &T) {
        self.sleepers.fetch_add(1, Ordering::SeqCst);
        let served = self.table.shared.peek(SERVING);
        if self.table.shared.peek(TICKET) != served {
            let low = (served & 0xffff_ffff) as u32;
            self.table.shared.park(rt, SERVING, low);
        }
        self.sleepers.fetch_sub(1, Ordering::SeqCst);
    }

    /// Wakes one who sleeps, if there is any.
    fn wake(&self) {
        if self.sleepers.load(Ordering::SeqCst) != 0 {
            self.table.shared.wake_one(SERVING);
        }
    }

    /// Waits until nobody has the turn, and draws the number that is served.
    fn draw<T: Wait>(&self, rt: &T, seat: &mut Seat) -> u64
        requires turn { seat.old.table_id ≡ self.now }
        requires idle { (seat.old.me.0.number ≡ None) × (0 < seat.old.me.0.parts) }
        ensures turn { seat.new.table_id ≡ self.now }
        ensures drawn { Draws seat.old.me result seat.new.me }
    {
        let mut looks = 0;
        for _ in rt.forever() {
            if let Some(mine) = self.try_draw(seat) {
                return mine;
            }
            if looks < QUICK_LOOKS {
                looks += 1;
                hint::spin_loop();
            } else {
                looks = 0;
                self.sleep(rt);
            }
        }
        unreachable!()
    }

    /// Waits for the turn. The number that was drawn is found at once, which no proof needs to know.
    fn take<T: Wait>(&self, rt: &T, seat: &mut Seat)
        requires turn { seat.old.table_id ≡ self.now }
        requires idle { IsOutside seat.old.me.0 × (seat.old.me.1 ≡ []) × (0 < seat.old.me.0.parts) }
        ensures turn { seat.new.table_id ≡ self.now }
        ensures taken { HasTurn seat.old.me.0 seat.new.me }
    {
        let mine = self.draw(rt, seat);
        for _ in rt.forever() {
            let now = self.table.shared.load::<Look>(seat, SERVING);
            if now == mine {
                return;
            }
        }
        unreachable!()
    }

    /// Gives the registry back, and the turn to whoever comes next.
    fn serve(&self, seat: &mut Seat)
        requires turn { seat.old.table_id ≡ self.now }
        requires taken { IsDue seat.old.me }
        ensures turn { seat.new.table_id ≡ self.now }
        ensures gave { Holds seat.old.me.1 (λ r. seat.new.me ≡ (served seat.old.me.0 r.history, [])) }
    {
        self.table.shared.fetch_add::<Serve>(seat, SERVING, 1);
        self.wake();
    }

    /// Notes which candidate is claimed next, where the answer gives one out.
    fn note_next(&self, answer: &Result<Claimed, NoMemory>) {
        if let Ok(Claimed::Job(ticket)) = answer {
            self.next.store(ticket.number() as u64, Ordering::SeqCst);
        }
    }

    /// A claim on the registry that is out with the seat.
    fn claim_in(&self, seat: &mut Seat, worker: u32) -> Result<Claimed, NoMemory>
        requires turn { seat.old.table_id ≡ self.now }
        requires taken { Holds seat.old.me.1 (λ r. r ≡ r) }
        ensures turn { seat.new.table_id ≡ self.now }
        ensures view { seat.new.me.0 ≡ seat.old.me.0 }
        ensures claimed { Holds seat.old.me.1 (λ r. Holds seat.new.me.1 (ClaimsBy worker result r)) }
    {
        let registry = seat.slot_mut(&self.table.shared, 0);
        let answer = registry.claim(worker);
        let _history = registry.history();
        self.note_next(&answer);
        answer
    }

    /// The place of the candidate that is claimed next, from 0, as it may have been a moment ago. No
    /// clause speaks of it.
    pub fn next_place(&self) -> u64 {
        self.next.load(Ordering::SeqCst)
    }

    /// A look ahead on the registry that is out with the seat.
    fn look_ahead_in(
        &self,
        seat: &mut Seat,
        known: usize,
        parts: usize,
        most: usize,
    ) -> Result<Ahead, NoMemory>
        requires turn { seat.old.table_id ≡ self.now }
        requires taken { Holds seat.old.me.1 (λ r. r ≡ r) }
        ensures turn { seat.new.table_id ≡ self.now }
        ensures view { seat.new.me.0 ≡ seat.old.me.0 }
        ensures looked { Holds seat.old.me.1 (λ r. Holds seat.new.me.1 (LooksAt result r)) }
    {
        let registry = seat.slot_mut(&self.table.shared, 0);
        let answer = registry.look_ahead(known, parts, most);
        let _history = registry.history();
        answer
    }

    /// A delivery on the registry that is out with the seat.
    fn deliver_in(&self, seat: &mut Seat, ticket: Ticket, judged: Judged) -> Delivery
        requires turn { seat.old.table_id ≡ self.now }
        requires set { judged.set ≡ ticket.set }
        requires taken { Holds seat.old.me.1 (MayDeliver ticket judged.verdict) }
        ensures turn { seat.new.table_id ≡ self.now }
        ensures view { seat.new.me.0 ≡ seat.old.me.0 }
        ensures ended { Holds seat.old.me.1 (λ r. Holds seat.new.me.1 (EndsBy ticket (Done (tag_of judged.verdict)) r)) }
    {
        let registry = seat.slot_mut(&self.table.shared, 0);
        let answer = registry.deliver(ticket, judged);
        let _history = registry.history();
        answer
    }

    /// A set is given up on the registry that is out with the seat.
    fn abandon_in(&self, seat: &mut Seat, ticket: Ticket) -> Delivery
        requires turn { seat.old.table_id ≡ self.now }
        requires taken { Holds seat.old.me.1 (λ r. IsOpen r.history ticket) }
        ensures turn { seat.new.table_id ≡ self.now }
        ensures view { seat.new.me.0 ≡ seat.old.me.0 }
        ensures ended { Holds seat.old.me.1 (λ r. Holds seat.new.me.1 (EndsBy ticket Drop r)) }
    {
        let registry = seat.slot_mut(&self.table.shared, 0);
        let answer = registry.abandon(ticket);
        let _history = registry.history();
        answer
    }

    /// A turn over the registry, and its first pass, whose worker has the number 0. A refusal gives
    /// up the registry.
    pub fn over(alloc: Global, registry: Registry) -> Result<(Turn, Pass), NoMemory>
        ensures { IfOk result (λ t. t.1 ≡ first_pass t.0 registry) }
    {
        let _history = registry.history();
        let about = Snapshot::of(&registry);
        let mut slots = Vec::new(alloc);
        let Ok(()) = slots.push(registry) else {
            return Err(NoMemory);
        };
        let Ok((table, seat)) = Table::new(alloc, &[0, 0], slots, &about) else {
            return Err(NoMemory);
        };
        let sleepers = AtomicU64::new(0);
        let next = AtomicU64::new(0);
        Ok((
            Turn {
                table,
                sleepers,
                next,
            },
            Pass { seat, worker: 0 },
        ))
    }

    /// Waits for the turn and claims. Afterwards, also without memory, the pass has seen a history
    /// that begins with what it had seen, and in which the answer has its cause.
    pub fn claim_as<T: Wait>(&self, rt: &T, pass: &mut Pass) -> Result<Claimed, NoMemory>
        requires { pass.old.turn ≡ self.now }
        ensures { ClaimedAs pass.old result pass.new }
    {
        self.take(rt, &mut pass.seat);
        let answer = self.claim_in(&mut pass.seat, pass.worker);
        self.serve(&mut pass.seat);
        answer
    }

    /// Waits for the turn and looks at candidates that may be claimed later, as the registry's
    /// `look_ahead` gives them out. Nothing is claimed or ended.
    pub fn look_ahead_as<T: Wait>(
        &self,
        rt: &T,
        pass: &mut Pass,
        known: usize,
        parts: usize,
        most: usize,
    ) -> Result<Ahead, NoMemory>
        requires { pass.old.turn ≡ self.now }
        ensures looked { Looks pass.old pass.new }
        ensures candidates { IfOk result (λ ahead. All (IsCandidate pass.old.program) ahead.sets.items) }
    {
        self.take(rt, &mut pass.seat);
        let answer = self.look_ahead_in(&mut pass.seat, known, parts, most);
        self.serve(&mut pass.seat);
        answer
    }

    /// Waits for the turn and delivers the verdict on a set that is in the pass's hand.
    pub fn deliver_as<T: Wait>(
        &self,
        rt: &T,
        pass: &mut Pass,
        ticket: Ticket,
        judged: Judged,
    ) -> Delivery
        requires turn { pass.old.turn ≡ self.now }
        requires hand { InHand ticket pass.old }
        requires set { judged.set ≡ ticket.set }
        requires right { IsRight pass.old.program ticket.set judged.verdict }
        ensures { EndedAs pass.old ticket (Done (tag_of judged.verdict)) pass.new }
    {
        legal_theorems();
        self.take(rt, &mut pass.seat);
        let answer = self.deliver_in(&mut pass.seat, ticket, judged);
        self.serve(&mut pass.seat);
        answer
    }

    /// Waits for the turn, delivers the verdict on a set that is in the pass's hand, and claims the
    /// next one in the same turn.
    pub fn deliver_then_claim_as<T: Wait>(
        &self,
        rt: &T,
        pass: &mut Pass,
        ticket: Ticket,
        judged: Judged,
    ) -> Result<Claimed, NoMemory>
        requires turn { pass.old.turn ≡ self.now }
        requires hand { InHand ticket pass.old }
        requires set { judged.set ≡ ticket.set }
        requires right { IsRight pass.old.program ticket.set judged.verdict }
        ensures { EndedThenClaimed pass.old ticket (Done (tag_of judged.verdict)) result pass.new }
    {
        legal_theorems();
        self.take(rt, &mut pass.seat);
        let _ = self.deliver_in(&mut pass.seat, ticket, judged);
        let claimed = self.claim_in(&mut pass.seat, pass.worker);
        self.serve(&mut pass.seat);
        claimed
    }

    /// Waits for the turn and gives up a set that is in the pass's hand.
    pub fn abandon_as<T: Wait>(&self, rt: &T, pass: &mut Pass, ticket: Ticket) -> Delivery
        requires turn { pass.old.turn ≡ self.now }
        requires hand { InHand ticket pass.old }
        ensures { EndedAs pass.old ticket Drop pass.new }
    {
        legal_theorems();
        self.take(rt, &mut pass.seat);
        let answer = self.abandon_in(&mut pass.seat, ticket);
        self.serve(&mut pass.seat);
        answer
    }

    /// A pass for a worker, which has seen what the first one has. It takes no memory.
    pub fn split_pass(&self, first: &mut Pass, worker: u32) -> Pass
        requires turn { first.old.turn ≡ self.now }
        requires first { first.old.first ≡ true }
        requires room { first.old.lent < 32 }
        ensures kept { first.new ≡ record first.old { lent = first.old.lent + 1 } }
        ensures given { result ≡ record first.old { first = false; lent = 0; worker = worker; calls = []; ended = [] } }
    {
        let seat = self.table.shared.split_seat::<Lend>(&mut first.seat);
        Pass { seat, worker }
    }

    /// Takes a pass back. The first one has then seen the longer of both histories, and keeps the
    /// other's calls as those of an ended pass.
    pub fn join_pass(&self, first: &mut Pass, other: Pass)
        requires turn { (first.old.turn ≡ self.now) × (other.turn ≡ self.now) }
        requires first { first.old.first ≡ true }
        ensures other { other.first ≡ false }
        ensures joined { first.new ≡ record first.old { lent = first.old.lent - 1; seen = longer first.old.seen other.seen; ended = first.old.ended ++ other.calls ∷ other.ended } }
        ensures lent { 0 < first.old.lent }
        ensures seen { Starts first.new.seen first.old.seen × Starts first.new.seen other.seen }
    {
        history_theorems();
        let Pass { seat, worker: _ } = other;
        self.table.shared.join_seat::<Lend>(&mut first.seat, seat);
        self.table.shared.load::<Compare>(&mut first.seat, TICKET);
    }

    /// The registry, once all passes are back.
    pub fn close(self, first: Pass) -> Registry
        requires turn { first.turn ≡ self }
        requires first { first.first ≡ true }
        requires none_lent { first.lent ≡ 0 }
        ensures { Closed first result }
    {
        legal_theorems();
        let Turn {
            table,
            sleepers: _,
            next: _,
        } = self;
        let Pass { seat, worker: _ } = first;
        let mut closed = table.close_with(seat);
        let registry = closed.take(0);
        closed.free();
        let _history = registry.history();
        registry
    }
}
