//! The moves of a worker, which has a hand for one ticket.

ghost use Rattle.std.specs.Prelude.{◌≡◌, ◌↔◌, IsTrue};
ghost use Rattle.mpc_rows.specs.Verdicts.{IsRight};
ghost use Rattle.mpc_claim.specs.declared.tickets.Ticket.{Ticket};
ghost use Rattle.mpc_claim.specs.History.{IsOpen};
ghost use Rattle.mpc_claim.specs.Moves.{AbandonmentMoves, ClaimMoves, DeliveryMoves, HoldsSet};

use crate::{Claimed, Registry, Ticket};
use mpc_frac::NoMemory;
use mpc_rows::Judged;
use mpc_sets::ActiveSet;

/// What a worker does.
#[derive(Drop)]
pub enum Action {
    /// It claims a set.
    Claim,
    /// It delivers a verdict on the set in its hand.
    Deliver(Judged),
    /// It gives the set in its hand up.
    Abandon,
}

/// What came of an action.
#[derive(Clone, Copy, Debug, PartialEq, Eq)]
pub enum Played {
    /// The hand holds the ticket of a set.
    Got,
    /// All sets of the level are claimed, and some aren't delivered yet.
    Idle,
    /// There is no further candidate.
    Finished,
    /// No further set is given out.
    Stopped,
    /// The verdict is delivered.
    Delivered,
    /// The set is given up.
    Dropped,
    /// The hand doesn't suit the action.
    Skipped,
}

/// Puts the ticket into an empty hand.
fn fill(hand: &mut Option<Ticket>, ticket: Ticket)
    requires { hand.old ≡ None }
    ensures { hand.new ≡ Some ticket }
{
    match hand.replace(ticket) {
        None => {}
        Some(
            Ticket {
                number: _,
                worker: _,
                set: _,
            },
        ) => unreachable!(),
    }
}

/// Whether the hand has the ticket of this set.
fn holds(hand: &Option<Ticket>, set: ActiveSet) -> bool
    ensures { IsTrue result ↔ HoldsSet hand.now set }
{
    match hand {
        Some(ticket) => ticket.set == set,
        None => false,
    }
}

/// A claim, which an empty hand can make.
pub(crate) fn play_claim(
    registry: &mut Registry,
    hand: &mut Option<Ticket>,
    worker: u32,
) -> Result<Played, NoMemory>
    ensures { ClaimMoves worker result registry.old hand.old registry.new hand.new }
{
    if hand.is_some() {
        return Ok(Played::Skipped);
    }
    match registry.claim(worker)? {
        Claimed::Job(ticket) => {
            fill(hand, ticket);
            Ok(Played::Got)
        }
        Claimed::Idle => Ok(Played::Idle),
        Claimed::Finished => Ok(Played::Finished),
        Claimed::Stopped => Ok(Played::Stopped),
    }
}

/// A delivery, which a hand with the ticket of the judged set can make.
pub(crate) fn play_delivery(
    registry: &mut Registry,
    hand: &mut Option<Ticket>,
    judged: Judged,
) -> Played
    requires open_still { (ticket : Ticket) → hand.old ≡ Some ticket → IsOpen registry.old.history ticket }
    requires right { IsRight registry.old.program judged.set judged.verdict }
    ensures { DeliveryMoves judged result registry.old hand.old registry.new hand.new }
{
    if !holds(hand, judged.set()) {
        return Played::Skipped;
    }
    let Some(ticket) = hand.take() else {
        return Played::Skipped;
    };
    let _ = registry.deliver(ticket, judged);
    Played::Delivered
}

/// An abandonment, which a hand with a ticket can make.
pub(crate) fn play_abandonment(registry: &mut Registry, hand: &mut Option<Ticket>) -> Played
    requires { (ticket : Ticket) → hand.old ≡ Some ticket → IsOpen registry.old.history ticket }
    ensures { AbandonmentMoves result registry.old hand.old registry.new hand.new }
{
    let Some(ticket) = hand.take() else {
        return Played::Skipped;
    };
    let _ = registry.abandon(ticket);
    Played::Dropped
}
