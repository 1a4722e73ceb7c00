//! The controller of a plant: its laws, their search tree and the bounds on their numbers, accepted by the independent checker.

ghost use Rattle.std.specs.Prelude.{ℕ, ◌≤◌, IfOk, IfErr};
ghost use Rattle.mpc_rows.specs.declared.programs.Qp.{Qp};
ghost use Rattle.mpc_synthesis.specs.Programs.{IsDecidedBy};
ghost use Rattle.mpc_synthesis.specs.Controllers.{IsController};
ghost use Rattle.mpc_synthesis.specs.Refusals.{controller, ExplainsSynthesisError};

use crate::SynthesisError;
use crate::parts::{accepted, sealed, table_of};
use crate::verdicts::{decided, decided_in_threads};
use mpc_check::{Search, check};
use mpc_claim::Registry;
use mpc_controller::Controller;
use mpc_plant::Plant;
use mpc_tree::{Grow, build};
use mpc_workers::Gate;
use std::alloc::Global;
use std::sync::Wait;
use std::thread::Threads;

/// The caller's thread alone, for whom starts no others, as a static library.
#[derive(Clone, Copy, Debug, Drop)]
pub struct Alone;

impl Grow for Alone {}

impl Search for Alone {}

/// The controller of a plant whose candidates are decided in this registry. Whoever decided them, it is the same, by
/// [`one_controller`](crate::one_controller). Where `by` has threads, parts of the tree are built, and stretches of it checked, side by
/// side, as far as threads can be started; it waits for no lock.
///
/// `TooWide` names the first place with a number of more than 128 bits: of the tree, the bounds, and the checker's sums.
pub fn controller_of<B: Grow + Search>(
    by: &B,
    alloc: Global,
    plant: Plant,
    registry: Registry,
) -> Result<Controller, SynthesisError>
    requires { (workers : ℕ) × IsDecidedBy workers plant registry }
    ensures controller { IfOk result (λ parts. (qp : Qp) × IsController plant qp parts) }
    ensures refused { IfErr result (ExplainsSynthesisError controller plant) }
{
    let Ok(table) = table_of(alloc, registry) else {
        return Err(SynthesisError::NoMemory);
    };
    let tree = build(by, alloc, &table.program, &table.laws);
    let parts = match sealed(alloc, plant, table, tree) {
        Ok(parts) => parts,
        Err(error) => return Err(error),
    };
    let found = check(by, alloc, &parts);
    accepted(parts, found)
}

/// The controller of a plant, which holds its table of laws and the table's search tree (Bemporad, Morari, Dua and Pistikopoulos, 2002;
/// Tøndel, Johansen and Bemporad, 2003), and which the independent checker accepts. One worker decides the plant's active sets: it starts no
/// thread and waits for nobody.
///
/// `NotDefinite` names the first pivot that isn't positive. `TooWide` names the first place with a number of more than 128 bits: of
/// condensing, the pivots, the active sets, the tree, the bounds, and the checker's sums.
pub fn controller<G: Gate>(
    alloc: Global,
    plant: Plant,
    gate: &G,
) -> Result<Controller, SynthesisError>
    ensures controller { IfOk result (λ parts. (qp : Qp) × IsController plant qp parts) }
    ensures refused { IfErr result (ExplainsSynthesisError controller plant) }
{
    match decided(alloc, &plant, gate) {
        Ok(registry) => controller_of(&Alone, alloc, plant, registry),
        Err(error) => Err(error),
    }
}

/// What [`controller`] gives, where so many workers decide the active sets, in as many threads as the machine runs at once, and
/// the tree is built and checked in threads.
pub fn controller_in_threads<T: Threads + Wait + Sync, G: Gate + Sync>(
    rt: &T,
    alloc: Global,
    plant: Plant,
    workers: u32,
    gate: &G,
) -> Result<Controller, SynthesisError>
    requires from_one { 1 ≤ workers }
    requires to_last { workers ≤ 32 }
    ensures controller { IfOk result (λ parts. (qp : Qp) × IsController plant qp parts) }
    ensures refused { IfErr result (ExplainsSynthesisError controller plant) }
{
    match decided_in_threads(rt, alloc, &plant, workers, gate) {
        Ok(registry) => controller_of(rt, alloc, plant, registry),
        Err(error) => Err(error),
    }
}
