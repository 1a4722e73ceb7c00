//! The pool.

ghost use Rattle.std.specs.Prelude.{◌≡◌, ◌<◌, ◌≤◌, ◌⊎◌, ◌↔◌, IfOk, IfErr, OnOk, All};
ghost use Rattle.std.specs.List.{AllZip};
ghost use Rattle.mpc_space.specs.Definite.{IsDefinite};
ghost use Rattle.mpc_rows.specs.declared.programs.Qp.{Qp as Program};
ghost use Rattle.mpc_workers.specs.declared.pool.WorkError.TheVariants.{BadWorkers};
ghost use Rattle.mpc_workers.specs.Joined.{IsJoining};
ghost use Rattle.mpc_workers.specs.Posts.{AtEach, IsOpening};
ghost use Rattle.mpc_workers.specs.Seats.{IsDone};

use crate::delivery::Gate;
use crate::joining::{close_all, join_all};
use crate::seats::{Opened, Post, open_turns, seats_of};
use crate::waiting::News;
use crate::working::{Pool, work_all};
use mpc_claim::Registry;
use mpc_frac::NoMemory;
use mpc_rows::Qp;
use mpc_turn::Turn;
use std::alloc::Global;
use std::slice;
use std::sync::Wait;
use std::thread::Threads;
use thiserror::Error;

/// The most workers of a pool.
const MOST_WORKERS: u32 = 32;

/// Why a pool has no registry.
#[derive(Clone, Copy, Debug, PartialEq, Eq, Drop, Error)]
pub enum WorkError {
    #[error("out of memory")]
    NoMemory,
    /// A pool has from 1 to 32 workers.
    #[error("a pool has from 1 to 32 workers")]
    BadWorkers,
}

impl From<NoMemory> for WorkError {
    ghost use Rattle.std.specs.Prelude.{◌≡◌};
    ghost use Rattle.mpc_workers.specs.declared.pool.WorkError.TheVariants.{NoMemory as OutOfMemory};

    ghost from_gives = { λ _ e. e ≡ OutOfMemory };

    fn from(_refused: NoMemory) -> WorkError {
        WorkError::NoMemory
    }
}

/// The work of so many workers, until all have come to an end and their passes are back.
fn work_through<T: Threads + Wait + Sync, G: Gate + Sync>(
    rt: &T,
    alloc: Global,
    turns: &[Turn],
    programs: &[Qp],
    firsts: &mut [Post],
    workers: u32,
    gate: &G,
) -> Result<(), NoMemory>
    requires definite { All (λ (qp : Program). IsDefinite qp.h.rows) programs.now }
    requires few { workers ≤ 32 }
    requires firsts { AtEach (IsOpening 0) turns.now programs.now firsts.old }
    ensures { OnOk result (AtEach (IsJoining workers 0) turns.now programs.now firsts.new) }
{
    let mut seats = seats_of(alloc, turns, programs, firsts, workers)?;
    let pool = Pool {
        rt,
        alloc,
        workers,
        turns,
        programs,
        gate,
        news: &News::new(),
    };
    work_all(&pool, &mut seats);
    join_all(turns, programs, workers, firsts, seats);
    Ok(())
}

/// Examines the candidates of the programs with so many workers, each of whom turns to another program
/// where one has no set to claim. As many of them work beside each other as the machine runs at once.
///
/// Of each program, in order, the registry is finished, or stopped by a wide verdict, and no set in it is
/// open or given up. Each worker holds one set of a program at a time. The gate is passed between each
/// verdict and its delivery, with the number of the worker, from 1.
/// `BadWorkers` where there aren't from 1 to 32 of them. Refused memory is the only other error: a
/// worker that meets it gives up its set, if it holds one, and the others end once they have delivered theirs.
pub fn enumerate_each<T: Threads + Wait + Sync, G: Gate + Sync>(
    rt: &T,
    alloc: Global,
    programs: &[Qp],
    workers: u32,
    gate: &G,
) -> Result<Vec<Registry>, WorkError>
    requires { All (λ (qp : Program). IsDefinite qp.h.rows) programs.now }
    ensures done { IfOk result (λ v. AllZip (λ qp registry. IsDone qp workers registry) programs.now v.items) }
    ensures workers { IfOk result (λ v. (0 < workers) × (workers ≤ 32)) }
    ensures bad_workers { IfErr result (λ e. (e ≡ BadWorkers) ↔ ((workers ≡ 0) ⊎ (32 < workers))) }
{
    if workers == 0 || workers > MOST_WORKERS {
        return Err(WorkError::BadWorkers);
    }
    let Opened { turns, mut firsts } = open_turns(alloc, programs)?;
    let Ok(()) = work_through(rt, alloc, &turns, programs, &mut firsts, workers, gate) else {
        drop(turns);
        drop(firsts);
        return Err(WorkError::NoMemory);
    };
    match close_all(alloc, turns, firsts, programs, workers) {
        Ok(registries) => Ok(registries),
        Err(_) => Err(WorkError::NoMemory),
    }
}

/// Examines the candidates of the program with so many workers beside each other.
///
/// The registry is finished, or stopped by a wide verdict, and no set in it is open or given up. Each
/// worker holds one set at a time. The gate is passed between each verdict and its delivery, with
/// the number of the worker, from 1.
/// `BadWorkers` where there aren't from 1 to 32 of them. Refused memory is the only other error, as
/// with [`enumerate_each`].
pub fn enumerate<T: Threads + Wait + Sync, G: Gate + Sync>(
    rt: &T,
    alloc: Global,
    qp: &Qp,
    workers: u32,
    gate: &G,
) -> Result<Registry, WorkError>
    requires { IsDefinite qp.now.h.rows }
    ensures done { IfOk result (IsDone qp.now workers) }
    ensures workers { IfOk result (λ registry. (0 < workers) × (workers ≤ 32)) }
    ensures bad_workers { IfErr result (λ e. (e ≡ BadWorkers) ↔ ((workers ≡ 0) ⊎ (32 < workers))) }
{
    let mut registries = enumerate_each(rt, alloc, slice::from_ref(qp), workers, gate)?;
    match registries.pop() {
        Some(registry) => Ok(registry),
        None => unreachable!(),
    }
}
