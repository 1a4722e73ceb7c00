//! Workers that claim the candidates of a program, examine them and deliver their verdicts, with the
//! gate before a delivery.
#![tactic(auto)]

ghost use Rattle.std.specs.Prelude.{◌≡◌, ◌≤◌, IfOk, OnOk, OnErr, length};
ghost use Rattle.mpc_space.specs.Definite.{IsDefinite};
ghost use Rattle.mpc_space.specs.Matrix.{height};
ghost use Rattle.mpc_sets.specs.RowSet.{IsSetOfRows};
ghost use Rattle.mpc_claim.specs.Answers.{abandoned};
ghost use Rattle.mpc_claim.specs.Board.{opening};
ghost use Rattle.mpc_claim.specs.History.{IsOpen};
ghost use Rattle.mpc_workers.specs.Alone.{Delivers, IsDoneAlone};

mod ahead;
mod delivery;
mod joining;
mod pool;
mod seats;
mod waiting;
mod working;

pub use delivery::{Gate, OpenGate};
use mpc_claim::{Claimed, Registry, Ticket, claim_theorems, legal_theorems};
use mpc_frac::NoMemory;
use mpc_region::Examiner;
use mpc_rows::Qp;
pub use pool::{WorkError, enumerate, enumerate_each};
use std::alloc::Global;

/// Lets an examiner go, by a call of `drop`. At the end of a function all that it holds would be taken
/// apart in place, which is dear to prove.
fn discard(examiner: Examiner) {
    drop(examiner);
}

/// Examines a claimed set, passes the gate and delivers the verdict. Without memory the set is
/// given up.
fn take_turn<G: Gate>(
    alloc: Global,
    registry: &mut Registry,
    examiner: &mut Examiner,
    ticket: Ticket,
    gate: &G,
) -> Result<(), NoMemory>
    requires examiner { examiner.old ≡ registry.old.program }
    requires definite { IsDefinite registry.old.program.h.rows }
    requires open_still { IsOpen registry.old.history ticket }
    requires set_of_rows { IsSetOfRows (height registry.old.program.g) ticket.set }
    requires few { length ticket.set ≤ height registry.old.program.h }
    ensures examiner { examiner.new ≡ examiner.old }
    ensures ok { OnOk result (Delivers registry.old ticket registry.new) }
    ensures err { OnErr result (registry.new ≡ abandoned registry.old ticket) }
{
    let judged = match examiner.examine(alloc, ticket.set()) {
        Ok(judged) => judged,
        Err(refused) => {
            let _ = registry.abandon(ticket);
            return Err(refused);
        }
    };
    gate.between(ticket.worker(), ticket.set().mask());
    let _ = registry.deliver(ticket, judged);
    Ok(())
}

/// Examines the candidates of a new registry one after the other, until there is none.
fn take_turns<G: Gate>(
    alloc: Global,
    _qp: &Qp,
    registry: &mut Registry,
    examiner: &mut Examiner,
    gate: &G,
) -> Result<(), NoMemory>
    requires definite { IsDefinite _qp.now.h.rows }
    requires registry { registry.old ≡ opening _qp.now }
    requires examiner { examiner.old ≡ _qp.now }
    ensures { OnOk result (IsDoneAlone _qp.now registry.new) }
{
    legal_theorems();
    claim_theorems();
    'turns: loop {
        match registry.claim(1)? {
            Claimed::Job(ticket) => take_turn(alloc, registry, examiner, ticket, gate)?,
            Claimed::Idle => return Ok(()),
            Claimed::Finished => return Ok(()),
            Claimed::Stopped => return Ok(()),
        }
    }
}

/// Examines the candidates of a new registry by one examiner.
fn examine_all<G: Gate>(
    alloc: Global,
    qp: &Qp,
    registry: &mut Registry,
    gate: &G,
) -> Result<(), NoMemory>
    requires definite { IsDefinite qp.now.h.rows }
    requires registry { registry.old ≡ opening qp.now }
    ensures { OnOk result (IsDoneAlone qp.now registry.new) }
{
    let mut examiner = Examiner::begin(alloc, qp)?;
    let answer = take_turns(alloc, qp, registry, &mut examiner, gate);
    discard(examiner);
    answer
}

/// Examines the candidates of the program one after the other, as worker number 1.
///
/// The registry is finished, or stopped by a wide verdict. The gate is passed between each verdict
/// and its delivery. Refused memory is the only error.
pub fn enumerate_alone<G: Gate>(alloc: Global, qp: &Qp, gate: &G) -> Result<Registry, NoMemory>
    requires { IsDefinite qp.now.h.rows }
    ensures { IfOk result (λ registry. IsDoneAlone qp.now registry) }
{
    let mut registry = Registry::begin(alloc, qp)?;
    let Ok(()) = examine_all(alloc, qp, &mut registry, gate) else {
        drop(registry);
        return Err(NoMemory);
    };
    Ok(registry)
}
