//! Passes are taken back, and turns are closed.

ghost use Rattle.std.specs.Prelude.{◌≡◌, ◌-◌, ◌<◌, ◌∷◌, vec_len, IfOk, OnOk, All};
ghost use Rattle.std.specs.List.{AllZip};
ghost use Rattle.mpc_claim.specs.Board.{Board};
ghost use Rattle.mpc_workers.specs.Posts.{AtEach, IsOpening, IsPost};
ghost use Rattle.mpc_workers.specs.Joined.{IsJoining, IsLeft};
ghost use Rattle.mpc_workers.specs.Seats.{AreNumbered, IsDone, IsSeat, IsWorker};

use crate::seats::{Post, Seat};
use mpc_claim::{Claimed, Registry, claim_theorems, history_theorems, legal_theorems};
use mpc_frac::NoMemory;
use mpc_rows::Qp;
use mpc_turn::Turn;
use std::alloc::Global;

/// Takes a post of this worker back into the first one of its program.
fn join_post(turn: &Turn, _qp: &Qp, _workers: u32, _worker: u32, first: &mut Post, post: Post)
    requires worker { IsWorker _workers _worker }
    requires post { IsPost _worker turn.now _qp.now post }
    requires first { IsJoining _workers _worker turn.now _qp.now first.old }
    ensures { IsJoining _workers (_worker - 1) turn.now _qp.now first.new }
{
    let Post {
        pass,
        gave_up,
        saw_end,
    } = post;
    pass.facts();
    turn.join_pass(&mut first.pass, pass);
    first.gave_up = first.gave_up || gave_up;
    first.saw_end = first.saw_end || saw_end;
}

/// Takes a worker's posts back.
fn join_seat(turns: &[Turn], programs: &[Qp], workers: u32, firsts: &mut [Post], seat: Seat)
    requires seat { IsSeat turns.now programs.now workers seat }
    requires firsts { AtEach (IsJoining workers seat.worker) turns.now programs.now firsts.old }
    ensures { AtEach (IsJoining workers (seat.worker - 1)) turns.now programs.now firsts.new }
{
    let Seat { worker, mut posts } = seat;
    while let Some(post) = posts.pop() {
        let place = posts.len();
        join_post(
            &turns[place],
            &programs[place],
            workers,
            worker,
            &mut firsts[place],
            post,
        );
    }
}

/// Takes all posts back.
pub(crate) fn join_all(
    turns: &[Turn],
    programs: &[Qp],
    workers: u32,
    firsts: &mut [Post],
    mut seats: Vec<Seat>,
)
    requires count { vec_len seats ≡ workers }
    requires seats { All (IsSeat turns.now programs.now workers) seats.items }
    requires numbered { AreNumbered seats.items }
    requires firsts { AtEach (IsOpening workers) turns.now programs.now firsts.old }
    ensures { AtEach (IsJoining workers 0) turns.now programs.now firsts.new }
{
    while let Some(seat) = seats.pop() {
        join_seat(turns, programs, workers, firsts, seat);
    }
}

/// The last claim, which finds the end that a worker saw.
fn settle(registry: &mut Registry, _qp: &Qp, _workers: u32) -> Result<(), NoMemory>
    requires { IsLeft _qp.now _workers registry.old }
    ensures { OnOk result (IsDone _qp.now _workers registry.new) }
{
    claim_theorems();
    match registry.claim(1)? {
        Claimed::Job(ticket) => {
            let _ = registry.abandon(ticket);
            unreachable!()
        }
        Claimed::Idle => unreachable!(),
        Claimed::Finished => {
            let _history = registry.history();
            Ok(())
        }
        Claimed::Stopped => {
            let _history = registry.history();
            Ok(())
        }
    }
}

/// The registry of one program, once all its passes are back, where none of its sets was given up and
/// some worker saw its end.
fn close_one(turn: Turn, first: Post, qp: &Qp, workers: u32) -> Result<Registry, NoMemory>
    requires { IsJoining workers 0 turn qp.now first }
    ensures { IfOk result (IsDone qp.now workers) }
{
    history_theorems();
    legal_theorems();
    let Post {
        pass,
        gave_up,
        saw_end,
    } = first;
    if gave_up || !saw_end {
        drop(pass);
        drop(turn);
        return Err(NoMemory);
    }
    let mut registry = turn.close(pass);
    settle(&mut registry, qp, workers)?;
    Ok(registry)
}

/// Puts the registry of one program before those of the later ones.
fn close_into(
    registries: &mut Vec<Registry>,
    turn: Turn,
    first: Post,
    qp: &Qp,
    workers: u32,
) -> Result<(), NoMemory>
    requires { IsJoining workers 0 turn qp.now first }
    ensures { OnOk result ((r : Board) × (registries.new.items ≡ r ∷ registries.old.items) × IsDone qp.now workers r) }
{
    let registry = close_one(turn, first, qp, workers)?;
    let Ok(()) = registries.insert(0, registry) else {
        return Err(NoMemory);
    };
    Ok(())
}

/// The registries, once all passes are back, in the order of the programs.
pub(crate) fn close_all(
    alloc: Global,
    mut turns: Vec<Turn>,
    mut firsts: Vec<Post>,
    programs: &[Qp],
    workers: u32,
) -> Result<Vec<Registry>, NoMemory>
    requires { AtEach (IsJoining workers 0) turns.items programs.now firsts.items }
    ensures { IfOk result (λ v. AllZip (λ qp registry. IsDone qp workers registry) programs.now v.items) }
{
    let mut registries = Vec::new(alloc);
    while let Some(turn) = turns.pop() {
        let place = turns.len();
        let Some(first) = firsts.pop() else {
            unreachable!()
        };
        close_into(&mut registries, turn, first, &programs[place], workers)?;
    }
    Ok(registries)
}
