//! A table's reply, with the moves in numbers.

ghost use Rattle.std.specs.Prelude.{◌≡◌, ◌≤◌, length, map};
ghost use Rattle.mpc_bench.specs.Parts.{value_of};
ghost use Rattle.mpc_controller.specs.Parts.{Parts as ControllerParts};
ghost use Rattle.mpc_table.specs.TableReplies.{CanMove};
ghost use Rattle.mpc_bench.specs.Answers.{IsMoveOf, HoldsFor, RepliesBy};

use crate::parts::{Parts, parts_of};
use mpc_table::{Reply, Table, table_theorems};

/// What is replied to counts.
#[derive(Clone, Copy, Drop)]
pub(crate) enum Answer {
    /// The first move, which is written.
    Moved,
    /// No sequence of moves is admissible.
    Infeasible,
    /// A count is above its limit.
    Outside,
}

/// Writes the first move of a law, one number an input.
fn put_moves(table: &Table, law: u32, counts: &[u64], moves: &mut [Parts])
    requires can_move { CanMove table.now counts.now law }
    requires room { length moves.old ≡ table.now.inputs }
    requires few { length moves.old ≤ 3 }
    ensures { (parts : ControllerParts) → HoldsFor parts table.now
        → IsMoveOf parts counts.now law (map value_of moves.new) }
{
    table_theorems();
    for i in 0..moves.len() {
        moves[i] = parts_of(&table.move_at(law, counts, i as u32 + 1));
    }
}

/// The reply to counts, one a state, and the move where there is one.
fn reply(table: &Table, counts: &[u64], moves: &mut [Parts]) -> Answer
    requires counts { length counts.now ≡ length table.now.limits }
    requires room { length moves.old ≡ table.now.inputs }
    requires few { length moves.old ≤ 3 }
    ensures { (parts : ControllerParts) → HoldsFor parts table.now
        → RepliesBy parts counts.now (map value_of moves.new) result }
{
    match table.reply_at(counts) {
        Reply::Move { law, .. } => {
            put_moves(table, law, counts, moves);
            Answer::Moved
        }
        Reply::Infeasible { .. } => Answer::Infeasible,
        Reply::Outside { .. } => Answer::Outside,
    }
}

/// The reply to counts, made `rounds` times, and at least once.
pub(crate) fn replies(table: &Table, counts: &[u64], rounds: u32, moves: &mut [Parts]) -> Answer
    requires counts { length counts.now ≡ length table.now.limits }
    requires room { length moves.old ≡ table.now.inputs }
    requires few { length moves.old ≤ 3 }
    ensures { (parts : ControllerParts) → HoldsFor parts table.now
        → RepliesBy parts counts.now (map value_of moves.new) result }
{
    for _ in 1..rounds {
        let _ = reply(table, counts, moves);
    }
    reply(table, counts, moves)
}
