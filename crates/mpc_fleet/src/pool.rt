//! The pool.

ghost use Rattle.std.specs.Prelude.{◌≡◌, ◌<◌, ◌≤◌, ◌⊎◌, ◌↔◌, length, IfOk, IfErr, All};
ghost use Rattle.std.specs.List.{AllZip};
ghost use Rattle.mpc_space.specs.Definite.{IsDefinite};
ghost use Rattle.mpc_rows.specs.declared.programs.Qp.{Qp as Program};
ghost use Rattle.mpc_workers.specs.Seats.{IsDone};
ghost use Rattle.mpc_fleet.specs.declared.errors.FleetError.TheVariants.{BadWorkers};

use crate::errors::FleetError;
use mpc_claim::Registry;
use mpc_rows::Qp;
use mpc_workers::{Gate, WorkError, enumerate_each};
use std::alloc::Global;
use std::sync::Wait;
use std::thread::Threads;

/// Examines the candidates of the programs with so many workers, each of whom turns to another program where one has no set to claim. As many of
/// them work beside each other as the machine runs at once.
///
/// Of each program, in order, the registry is finished, or stopped by a wide verdict, and no set in it is open or given up. Each worker holds
/// one set of a program at a time. The gate is passed between each verdict and its delivery, with the number of the worker, from 1.
/// `BadWorkers` where there aren't from 1 to 32 of them. Refused memory is the only other error: a worker that meets it gives up its set, if it
/// holds one, and the others end once they have delivered theirs.
pub fn enumerate_fleet<T: Threads + Wait + Sync, G: Gate + Sync>(
    rt: &T,
    alloc: Global,
    programs: &[Qp],
    workers: u32,
    gate: &G,
) -> Result<Vec<Registry>, FleetError>
    requires few { length programs.now ≤ 8 }
    requires definite { All (λ (qp : Program). IsDefinite qp.h.rows) programs.now }
    ensures done { IfOk result (λ v. AllZip (λ qp registry. IsDone qp workers registry) programs.now v.items) }
    ensures workers { IfOk result (λ v. (0 < workers) × (workers ≤ 32)) }
    ensures bad_workers { IfErr result (λ e. (e ≡ BadWorkers) ↔ ((workers ≡ 0) ⊎ (32 < workers))) }
{
    match enumerate_each(rt, alloc, programs, workers, gate) {
        Ok(registries) => Ok(registries),
        Err(WorkError::NoMemory) => Err(FleetError::NoMemory),
        Err(WorkError::BadWorkers) => Err(FleetError::BadWorkers),
    }
}
