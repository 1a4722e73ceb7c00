//! What a pass knows, the rule of the lock, and the steps.

use atomic_table::{Join, Play, Split, TableRule};
use mpc_claim::{Event, Registry};
use mpc_rows::Qp;
use std::collections::LinkedList;
use std::snapshot::Snapshot;

/// What a thread knows of the lock. It exists in proofs alone: no value of it is made.
///
/// The first pass begins with 33 parts, one for each pass that can be, and lends one with each of
/// them. `beside` is what a pass that was just joined has seen, until the two are compared.
pub struct View {
    pub first: bool,
    pub firsts: u64,
    pub parts: u64,
    pub program: Qp,
    pub before: LinkedList<Event>,
    pub number: Option<u64>,
    pub turn: bool,
    pub seen: LinkedList<Event>,
    pub beside: LinkedList<Event>,
    pub calls: LinkedList<(u64, Event)>,
    pub ended: LinkedList<LinkedList<(u64, Event)>>,
}

/// The rule of the lock.
pub struct Law;

impl TableRule<Registry, View, Snapshot<Registry>> for Law {
    ghost use Rattle.mpc_turn.specs.Views.{first_view};
    ghost use Rattle.mpc_turn.specs.Lock.{Kept};

    ghost holds = { λ _. Kept };

    ghost first = { λ k. first_view k.value };
}

/// A number is drawn, where the word is as expected.
pub(crate) struct Draw;

impl Play<Registry, View> for Draw {
    ghost use Rattle.mpc_turn.specs.Lock.{drew};

    ghost then = { drew };
}

/// The number that is served is looked at; at one's own the slot is taken.
pub(crate) struct Look;

impl Play<Registry, View> for Look {
    ghost use Rattle.mpc_turn.specs.Lock.{looked};

    ghost then = { looked };
}

/// The slot is given back, and the next number is served.
pub(crate) struct Serve;

impl Play<Registry, View> for Serve {
    ghost use Rattle.mpc_turn.specs.Lock.{gave};

    ghost then = { gave };
}

/// A pass is lent, or taken back.
pub(crate) struct Lend;

impl Split<View> for Lend {
    ghost use Rattle.mpc_turn.specs.Views.{left_of, right_of};

    ghost left = { left_of };

    ghost right = { right_of };
}

impl Join<View> for Lend {
    ghost use Rattle.mpc_turn.specs.Views.{both_of, nobody};

    ghost both = { both_of };

    ghost spent = { nobody };
}

/// What two passes have seen is compared.
pub(crate) struct Compare;

impl Play<Registry, View> for Compare {
    ghost use Rattle.mpc_turn.specs.Lock.{compared};

    ghost then = { compared };
}
