//! The verdicts on all candidates of a program.

ghost use Rattle.std.specs.Prelude.{◌≡◌, ℕ, ◌≤◌, IfOk, IfErr};
ghost use Rattle.mpc_space.specs.Definite.{IsDefinite};
ghost use Rattle.mpc_rows.specs.declared.programs.Qp.{Qp};
ghost use Rattle.mpc_claim.specs.declared.events.Phase.TheVariants.{Finished};
ghost use Rattle.mpc_synthesis.specs.Crews.{HasEnded};
ghost use Rattle.mpc_synthesis.specs.Programs.{IsDecidedBy};
ghost use Rattle.mpc_synthesis.specs.Refusals.{Extent, ExplainsSetError, ExplainsSynthesisError};

use crate::SynthesisError;
use mpc_claim::{Registry, legal_theorems};
use mpc_condense::convex_program;
use mpc_plant::Plant;
use mpc_rows::Qp;
use mpc_workers::{Gate, WorkError, enumerate, enumerate_alone};
use std::alloc::Global;
use std::sync::Wait;
use std::thread::Threads;

/// The registry at its end, where no candidate is too wide.
fn all_decided(registry: Registry) -> Result<Registry, SynthesisError>
    requires { (workers : ℕ) × (qp : Qp) × HasEnded workers qp registry }
    ensures same { IfOk result (λ r. r ≡ registry) }
    ensures finished { IfOk result (λ r. r.phase ≡ Finished) }
    ensures refused { IfErr result (ExplainsSetError registry.program) }
{
    match registry.first_wide() {
        Some(place) => Err(SynthesisError::TooWide(place)),
        None => Ok(registry),
    }
}

/// The registry of a program's candidates, all decided by one worker.
fn decide_alone<G: Gate>(alloc: Global, program: &Qp, gate: &G) -> Result<Registry, SynthesisError>
    requires { IsDefinite program.now.h.rows }
    ensures done { IfOk result (HasEnded 1 program.now) }
    ensures finished { IfOk result (λ registry. registry.phase ≡ Finished) }
    ensures refused { IfErr result (ExplainsSetError program.now) }
{
    let Ok(registry) = enumerate_alone(alloc, program, gate) else {
        return Err(SynthesisError::NoMemory);
    };
    all_decided(registry)
}

/// The registry of a program's candidates, all decided by two or more workers, in as many threads as the machine runs at once.
fn decide_together<T: Threads + Wait + Sync, G: Gate + Sync>(
    rt: &T,
    alloc: Global,
    program: &Qp,
    workers: u32,
    gate: &G,
) -> Result<Registry, SynthesisError>
    requires definite { IsDefinite program.now.h.rows }
    requires from_two { 2 ≤ workers }
    requires to_last { workers ≤ 32 }
    ensures done { IfOk result (HasEnded workers program.now) }
    ensures finished { IfOk result (λ registry. registry.phase ≡ Finished) }
    ensures refused { IfErr result (ExplainsSetError program.now) }
{
    match enumerate(rt, alloc, program, workers, gate) {
        Ok(registry) => all_decided(registry),
        Err(WorkError::NoMemory) => Err(SynthesisError::NoMemory),
        Err(WorkError::BadWorkers) => unreachable!(),
    }
}

/// The registry of a plant's candidates, all decided by one worker, who starts no thread and waits for nobody.
///
/// `NotDefinite` names the first pivot that isn't positive, `TooWide` the first place of condensing, the pivots or the active sets with a
/// number of more than 128 bits.
pub fn decided<G: Gate>(alloc: Global, plant: &Plant, gate: &G) -> Result<Registry, SynthesisError>
    ensures decided { IfOk result (IsDecidedBy 1 plant.now) }
    ensures refused { IfErr result (λ e. (extent : Extent) → ExplainsSynthesisError extent plant.now e) }
{
    let program = match convex_program(alloc, plant) {
        Ok(program) => program,
        Err(error) => return Err(error),
    };
    legal_theorems();
    let registry = match decide_alone(alloc, &program, gate) {
        Ok(registry) => registry,
        Err(error) => return Err(error),
    };
    Ok(registry)
}

/// What [`decided`] gives, by so many workers, in as many threads as the machine runs at once.
pub fn decided_in_threads<T: Threads + Wait + Sync, G: Gate + Sync>(
    rt: &T,
    alloc: Global,
    plant: &Plant,
    workers: u32,
    gate: &G,
) -> Result<Registry, SynthesisError>
    requires from_one { 1 ≤ workers }
    requires to_last { workers ≤ 32 }
    ensures decided { IfOk result (IsDecidedBy workers plant.now) }
    ensures refused { IfErr result (λ e. (extent : Extent) → ExplainsSynthesisError extent plant.now e) }
{
    if workers == 1 {
        return decided(alloc, plant, gate);
    }
    let program = match convex_program(alloc, plant) {
        Ok(program) => program,
        Err(error) => return Err(error),
    };
    legal_theorems();
    let registry = match decide_together(rt, alloc, &program, workers, gate) {
        Ok(registry) => registry,
        Err(error) => return Err(error),
    };
    Ok(registry)
}
