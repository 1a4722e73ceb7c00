//! A controller of a file as a table at rest.

ghost use Rattle.std.specs.Prelude.{◌≡◌, ◌≢◌, ◌≤◌, ◌⊎◌, ℕ, length, IfOk, IfErr, OnErr};
ghost use Rattle.mpc_controller.specs.Parts.{Parts};
ghost use Rattle.mpc_check.specs.Acceptance.{Accepts};
ghost use Rattle.mpc_files.specs.FileAnswers.{HasController};
ghost use Rattle.mpc_block.specs.Block.{HasHead};
ghost use Rattle.mpc_block.specs.BlockReplies.{Suits};
ghost use Rattle.mpc_c.specs.Findings.{IsRefusal};
ghost use Rattle.mpc_c.specs.Tables.{word_of, command_of, IsMeasured, HasMoves, HasNoMoves, IsOutside};

use crate::codes::{BAD_BLOCK, DONE, INFEASIBLE, OUTSIDE};
use crate::files::{accepted, given};
use mpc_block::{BlockReply, Move, block_size, reply_in};
use mpc_check::accepted_replies;
use mpc_controller::Controller;
use mpc_status::Status;
use mpc_synthesis::grid_points;
use std::alloc::Global;

/// The number as a word, and the greatest word for a number that is greater.
fn word_of(number: u128) -> u64
    ensures { result ≡ word_of number }
{
    number.min(u128::from(u64::MAX)) as u64
}

/// The controller of a file, if it is checked where that is asked for.
fn read(alloc: Global, file: &[u8], check: u32) -> Result<Controller, Status>
    ensures given { IfOk result (HasController file.now) }
    ensures accepted { check ≢ 0 → IfOk result Accepts }
    ensures refused { IfErr result (IsRefusal (command_of check) file.now) }
{
    if check == 0 {
        given(alloc, file)
    } else {
        accepted(alloc, file)
    }
}

/// The controller of a file, with the words of its block.
pub(crate) fn measured(
    alloc: Global,
    file: &[u8],
    check: u32,
    words: &mut u64,
) -> Result<Controller, Status>
    ensures measured { IfOk result (IsMeasured file.now check words.new) }
    ensures refused { IfErr result (IsRefusal (command_of check) file.now) }
    ensures none { OnErr result (words.new ≡ 0) }
{
    *words = 0;
    let controller = match read(alloc, file, check) {
        Ok(controller) => controller,
        Err(status) => return Err(status),
    };
    *words = word_of(block_size(&controller));
    Ok(controller)
}

/// Makes the words no block.
pub(crate) fn spoil(words: &mut [u64])
    ensures { (n p : ℕ) → ¬ HasHead words.new n p }
{
    if !words.is_empty() {
        words[0] = 0;
    }
}

/// The code of a block's reply to counts, with its moves written.
///
/// (It stands by itself, so that it has the addresses in registers of their own, and not as C gives them, which may be null.)
#[inline(never)]
pub(crate) fn reply(block: &[u64], counts: &[u64], moves: &mut [Move]) -> u32
    ensures moved { result ≡ 0 → (parts : Parts) → Suits block.now counts.now (length moves.old) parts
        → HasMoves parts counts.now moves.new }
    ensures infeasible { result ≡ 33 → (parts : Parts) → Suits block.now counts.now (length moves.old) parts
        → HasNoMoves parts counts.now }
    ensures outside { result ≡ 34 → (parts : Parts) → Suits block.now counts.now (length moves.old) parts
        → IsOutside parts counts.now }
    ensures bad_block { result ≡ 35 → (parts : Parts) → ¬ Suits block.now counts.now (length moves.old) parts }
    ensures no_head { ¬ HasHead block.now (length counts.now) (length moves.old) → result ≡ 35 }
    ensures codes { (result ≡ 0) ⊎ ((33 ≤ result) × (result ≤ 35)) }
    ensures kept { result ≢ 0 → moves.new ≡ moves.old }
{
    accepted_replies();
    grid_points();
    match reply_in(block, counts, moves) {
        BlockReply::Moves { .. } => DONE,
        BlockReply::Infeasible { .. } => INFEASIBLE,
        BlockReply::Outside { .. } => OUTSIDE,
        BlockReply::BadBlock => BAD_BLOCK,
    }
}
