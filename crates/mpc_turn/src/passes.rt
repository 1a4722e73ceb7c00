//! Passes: the right to call, and what their holders know.

ghost use Rattle.mpc_turn.specs.Known.{Facts};

use crate::view::View;
use mpc_claim::Registry;
use std::marker::Model;

pub(crate) type Seat = atomic_table::Seat<Registry, View>;

/// The right to call a turn, of one worker. It has no bytes beside the worker's number.
///
/// Contracts see the turn, the program of its registry, the history with which the turn was made,
/// the worker, the history that the pass has seen, and its own calls, each with its position in that
/// history. The first pass also has the number of passes lent, and the calls of each ended pass.
#[derive(Drop)]
pub struct Pass {
    pub(crate) seat: Seat,
    pub(crate) worker: u32,
}

impl Model for Pass {
    ghost use Rattle.mpc_turn.specs.Known.{Known, known, IsPass};

    ghost Value = { Known };

    ghost view = { λ p. known p.seat.table_id p.worker p.seat.me.0 };

    ghost invariant = { λ p. IsPass p.worker p.seat.me };
}

impl Pass {
    /// What holds of every pass: what it has seen is a legal history, which begins with that of the
    /// opening, and its calls are its worker's and stand there after the opening.
    pub fn facts(&self)
        ensures { Facts self.now }
    {
        let _ = &self.worker;
    }
}
