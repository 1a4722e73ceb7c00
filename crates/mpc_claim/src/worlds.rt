//! Any number of workers over one registry, without threads.

ghost use Rattle.std.specs.Prelude.{◌≡◌, ◌-◌, ◌≤◌, length, slice_set, replicate, IfOk, OnErr};
ghost use Rattle.mpc_space.specs.Definite.{IsDefinite};
ghost use Rattle.mpc_claim.specs.declared.moves.Played.TheVariants.{Skipped};
ghost use Rattle.mpc_claim.specs.Board.{opening};
ghost use Rattle.mpc_claim.specs.Answers.{IsRefused};
ghost use Rattle.mpc_claim.specs.Moves.{IsRightAction, Moves};
ghost use Rattle.mpc_claim.specs.Hands.{IsReached, emptied, hand_at};

use crate::moves::{play_abandonment, play_claim, play_delivery};
use crate::{Action, Played, Registry, Ticket};
use mpc_frac::NoMemory;
use mpc_rows::Qp;
use std::alloc::Global;
use std::marker::Model;

/// A registry and the hands of its workers, each with room for one ticket. Every order in which
/// workers can come to the registry is a list of moves. It can't be dropped: `into_registry` ends
/// it.
pub struct World {
    registry: Registry,
    hands: Vec<Option<Ticket>>,
}

impl Model for World {
    ghost use Rattle.mpc_claim.specs.Hands.{HoldsOpen, Workplace};

    ghost Value = { Workplace };

    ghost view = { λ w. record { registry = w.registry; hands = w.hands.items } };

    ghost invariant = { λ w. HoldsOpen w.registry.program w.registry.history w.hands.items };
}

/// So many empty hands.
fn empty_hands(alloc: Global, workers: u32) -> Result<Vec<Option<Ticket>>, NoMemory>
    ensures { IfOk result (λ hands. hands.items ≡ replicate workers None) }
{
    let mut hands = Vec::new(alloc);
    if hands.reserve_exact(workers as usize).is_err() {
        hands.destroy_empty();
        return Err(NoMemory);
    }
    for _ in 0..workers {
        hands.push_reserved(None);
    }
    Ok(hands)
}

impl World {
    /// So many workers with empty hands, numbered from 1, over a new registry of the program.
    #[tactic(auto, unfolding(crate::specs::History::IsLegal))]
    pub fn begin(alloc: Global, qp: &Qp, workers: u32) -> Result<World, NoMemory>
        requires { IsDefinite qp.now.h.rows }
        ensures registry { IfOk result (λ world. world.registry ≡ opening qp.now) }
        ensures hands { IfOk result (λ world. world.hands ≡ replicate workers None) }
    {
        let registry = Registry::begin(alloc, qp)?;
        let hands = empty_hands(alloc, workers)?;
        Ok(World { registry, hands })
    }

    /// The registry.
    pub fn registry(&self) -> &Registry
        ensures value { result.now ≡ self.now.registry }
        ensures reached { IsReached self.now }
    {
        let _history = self.registry.history();
        &self.registry
    }

    /// One move of one worker.
    ///
    /// `Skipped` where a claim finds the hand full, a delivery or an abandonment finds it empty, or
    /// the judged set isn't that of the hand's ticket: then nothing changes. Only a claim can be
    /// refused memory, where a set is given out or the next level is formed; this leaves all as it
    /// was.
    pub fn play(&mut self, worker: u32, action: Action) -> Result<Played, NoMemory>
        requires from_one { 1 ≤ worker }
        requires to_last { worker ≤ length self.old.hands }
        requires right { IsRightAction self.old.registry.program action }
        ensures moves { Moves action worker result self.old.registry (hand_at self.old.hands (worker - 1)) self.new.registry (hand_at self.new.hands (worker - 1)) }
        ensures other_hands { self.new.hands ≡ slice_set self.old.hands (worker - 1) (hand_at self.new.hands (worker - 1)) }
        ensures workers { length self.new.hands ≡ length self.old.hands }
        ensures program { self.new.registry.program ≡ self.old.registry.program }
        ensures skipped { result ≡ Ok Skipped → self.new ≡ self.old }
        ensures refused { OnErr result ((self.new ≡ self.old) × IsRefused self.old.registry) }
    {
        let hand = &mut self.hands[(worker - 1) as usize];
        match action {
            Action::Claim => play_claim(&mut self.registry, hand, worker),
            Action::Deliver(judged) => Ok(play_delivery(&mut self.registry, hand, judged)),
            Action::Abandon => Ok(play_abandonment(&mut self.registry, hand)),
        }
    }

    /// The registry, after the sets in the hands are given up.
    pub fn into_registry(self) -> Registry
        ensures { result ≡ emptied self.registry self.hands }
    {
        let World {
            mut registry,
            mut hands,
        } = self;
        'hands: while let Some(hand) = hands.pop() {
            match hand {
                Some(ticket) => {
                    let _ = registry.abandon(ticket);
                }
                None => {}
            }
        }
        hands.destroy_empty();
        registry
    }
}
