//! Work that is shared out among threads by forks and joins alone. As in std, but that what starts the threads never leaves the caller's, so
//! that it needn't be one that threads may share.
#![tactic(auto)]

ghost use denote.Param.Send.{IsSync, IsSend};
ghost use Rattle.std.specs.Fork.{AcceptsJobs, GivesEach, GivesJobs};
ghost use Rattle.std.specs.Fork.Halves.{GivesFor};
ghost use Rattle.std.specs.Prelude.{ℕ, ◌<◌, ◌≡◌, IfOk, vec_len};

use std::alloc::{AllocError, Global};
use std::thread::{Threads, join};

/// What a function gives for each number below a count, in their order: each call but the first in a thread of its own where one can be
/// started, and else by the caller. It waits for no lock.
#[cycle(indices)]
pub fn map_indices<T: Threads, X: Send + Drop, F: Fn(usize) -> X + Sync>(
    rt: &T,
    alloc: Global,
    count: usize,
    give: &F,
) -> Result<Vec<X>, AllocError>
    requires { (i : ℕ) → i < count → F.pre give.now i }
    ensures len { IfOk result (λ v. vec_len v ≡ count) }
    ensures each { IfOk result (λ v. GivesEach F.Fn give.now count v.items) }
{
    let mut all = Vec::new(alloc);
    if count == 0 {
        return Ok(all);
    }
    let last = count - 1;
    if last == 0 {
        all.push(give(0))?;
        return Ok(all);
    }
    let theirs = move || -> X
        requires { F.pre give.now last }
        ensures { F.post give.entry.now last result }
    { give(last) };
    let ours = move || -> Result<Vec<X>, AllocError>
        requires { IsSync F.row × IsSend X.row × ((i : ℕ) → i < last → F.pre give.now i) }
        ensures { IfOk result (λ v. GivesEach F.Fn give.entry.now last v.items × (vec_len v ≡ last)) }
    { map_indices(rt, alloc, last, give) };
    let (one, before) = join(rt, theirs, ours);
    let mut all = before?;
    all.push(one)?;
    Ok(all)
}

/// What a function gives for each job, in their order, as [`map_indices`] does.
pub fn map_vec<T: Threads, J: Send + Drop, X: Send + Drop, F: Fn(J) -> X + Sync>(
    rt: &T,
    jobs: Vec<J>,
    give: &F,
) -> Result<Vec<X>, AllocError>
    requires { AcceptsJobs F.Fn give.now jobs.items }
    ensures len { IfOk result (λ v. vec_len v ≡ vec_len jobs) }
    ensures each { IfOk result (λ v. GivesJobs F.Fn give.now jobs.items v.items) }
{
    run_jobs(rt, jobs, give)
}

#[cycle(jobs)]
fn run_jobs<T: Threads, J: Send + Drop, X: Send + Drop, F: Fn(J) -> X + Sync>(
    rt: &T,
    mut jobs: Vec<J>,
    give: &F,
) -> Result<Vec<X>, AllocError>
    requires { AcceptsJobs F.Fn give.now jobs.items }
    ensures { IfOk result (λ v. GivesFor F.Fn give.now jobs.items v.items) }
{
    let mut all = Vec::new(*jobs.allocator());
    let Some(last) = jobs.pop() else {
        return Ok(all);
    };
    if jobs.is_empty() {
        all.push(give(last))?;
        return Ok(all);
    }
    let theirs = move || -> X
        requires { F.pre give.now last }
        ensures { F.post give.entry.now last result }
    { give(last) };
    let ours = move || -> Result<Vec<X>, AllocError>
        requires { IsSync F.row × IsSend X.row × AcceptsJobs F.Fn give.now jobs.items }
        ensures { IfOk result (λ v. GivesFor F.Fn give.entry.now jobs.items v.items) }
    { run_jobs(rt, jobs, give) };
    let (one, before) = join(rt, theirs, ours);
    let mut all = before?;
    all.push(one)?;
    Ok(all)
}
