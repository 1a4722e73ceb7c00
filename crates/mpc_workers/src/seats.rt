//! The turns of the programs, and the seats of the workers.

ghost use Rattle.std.specs.Prelude.{◌≡◌, ◌+◌, ◌<◌, ◌≤◌, false, vec_len, IfOk, OnOk, All};
ghost use Rattle.mpc_space.specs.Definite.{IsDefinite};
ghost use Rattle.mpc_rows.specs.declared.programs.Qp.{Qp as Program};
ghost use Rattle.mpc_workers.specs.Posts.{AtEach, IsOpening, IsPost, OpensOne};
ghost use Rattle.mpc_workers.specs.Seats.{AreNumbered, IsSeat};

use mpc_claim::Registry;
use mpc_frac::NoMemory;
use mpc_rows::Qp;
use mpc_turn::{Pass, Turn};
use std::alloc::Global;

/// A pass of a program's turn, whether a set was given up by it, and whether it saw the program's end.
#[derive(Drop)]
pub struct Post {
    pub pass: Pass,
    pub gave_up: bool,
    pub saw_end: bool,
}

/// The turn of each program, and the post with its first pass.
#[derive(Drop)]
pub struct Opened {
    pub turns: Vec<Turn>,
    pub firsts: Vec<Post>,
}

/// A worker's number and its posts, one a program.
#[derive(Drop)]
pub struct Seat {
    pub worker: u32,
    pub posts: Vec<Post>,
}

/// A post with nothing done or seen.
fn post_of(pass: Pass) -> Post
    ensures { result ≡ record { pass = pass; gave_up = false; saw_end = false } }
{
    Post {
        pass,
        gave_up: false,
        saw_end: false,
    }
}

/// Opens a turn over a new registry of the program, behind the others. Without memory, part of it may be
/// missing.
fn open_turn(alloc: Global, qp: &Qp, opened: &mut Opened) -> Result<(), NoMemory>
    requires { IsDefinite qp.now.h.rows }
    ensures { OnOk result (OpensOne qp.now opened.old opened.new) }
{
    let registry = Registry::begin(alloc, qp)?;
    let (turn, first) = Turn::over(alloc, registry)?;
    let Ok(()) = opened.turns.push(turn) else {
        drop(first);
        return Err(NoMemory);
    };
    let Ok(()) = opened.firsts.push(post_of(first)) else {
        return Err(NoMemory);
    };
    Ok(())
}

/// Turns over new registries of the programs, in order.
pub(crate) fn open_turns(alloc: Global, programs: &[Qp]) -> Result<Opened, NoMemory>
    requires { All (λ (qp : Program). IsDefinite qp.h.rows) programs.now }
    ensures { IfOk result (λ o. AtEach (IsOpening 0) o.turns.items programs.now o.firsts.items) }
{
    let mut opened = Opened {
        turns: Vec::new(alloc),
        firsts: Vec::new(alloc),
    };
    for qp in programs {
        open_turn(alloc, qp, &mut opened)?;
    }
    Ok(opened)
}

/// A worker's post at a program, after so many.
fn split_post(turn: &Turn, _qp: &Qp, first: &mut Post, before: u32) -> Post
    requires few { before < 32 }
    requires first { IsOpening before turn.now _qp.now first.old }
    ensures first { IsOpening (before + 1) turn.now _qp.now first.new }
    ensures post { IsPost (before + 1) turn.now _qp.now result }
{
    post_of(turn.split_pass(&mut first.pass, before + 1))
}

/// The seat of the worker that comes after so many.
fn seat_of(
    alloc: Global,
    turns: &[Turn],
    programs: &[Qp],
    firsts: &mut [Post],
    before: u32,
    _workers: u32,
) -> Result<Seat, NoMemory>
    requires room { before < _workers }
    requires few { _workers ≤ 32 }
    requires firsts { AtEach (IsOpening before) turns.now programs.now firsts.old }
    ensures firsts { IfOk result (λ s. AtEach (IsOpening (before + 1)) turns.now programs.now firsts.new) }
    ensures seat { IfOk result (IsSeat turns.now programs.now _workers) }
    ensures worker { IfOk result (λ s. s.worker ≡ before + 1) }
{
    let mut posts = Vec::new(alloc);
    let Ok(()) = posts.reserve(turns.len()) else {
        return Err(NoMemory);
    };
    for place in 0..turns.len() {
        let post = split_post(&turns[place], &programs[place], &mut firsts[place], before);
        posts.push_reserved(post);
    }
    Ok(Seat {
        worker: before + 1,
        posts,
    })
}

/// A seat for each worker, numbered from 1.
pub(crate) fn seats_of(
    alloc: Global,
    turns: &[Turn],
    programs: &[Qp],
    firsts: &mut [Post],
    workers: u32,
) -> Result<Vec<Seat>, NoMemory>
    requires few { workers ≤ 32 }
    requires firsts { AtEach (IsOpening 0) turns.now programs.now firsts.old }
    ensures firsts { IfOk result (λ v. AtEach (IsOpening workers) turns.now programs.now firsts.new) }
    ensures count { IfOk result (λ v. vec_len v ≡ workers) }
    ensures seats { IfOk result (λ v. All (IsSeat turns.now programs.now workers) v.items) }
    ensures numbered { IfOk result (λ v. AreNumbered v.items) }
{
    let mut seats = Vec::new(alloc);
    let Ok(()) = seats.reserve(workers as usize) else {
        return Err(NoMemory);
    };
    for i in 0..workers {
        let seat = seat_of(alloc, turns, programs, firsts, i, workers)?;
        seats.push_reserved(seat);
    }
    Ok(seats)
}
