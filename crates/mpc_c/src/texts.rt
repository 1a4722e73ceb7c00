//! Outcomes as numbers and texts.

ghost use Rattle.std.specs.Prelude.{◌≡◌, ◌≤◌, ◌<◌, ℕ, List, length, take, drop, Err, IfSome, MatchBool};
ghost use Rattle.std.specs.Bool.{OnFalse};
ghost use Rattle.mpc_cli.specs.declared.commands.Command.{Command};
ghost use Rattle.mpc_cli.specs.Commands.{Names};
ghost use Rattle.mpc_cli.specs.Outcomes.{IsAnswerFor};
ghost use Rattle.mpc_c.specs.Texts.{OutcomeOf, IsTextOf, CallAnswers};

use crate::codes::{NO_MEMORY, TOO_SMALL};
use mpc_cli::one_status;
use mpc_status::Status;
use std::alloc::Global;

/// The exit code of want of memory.
const OUT_OF_MEMORY: u8 = 11;

/// Writes a text to the front of `room`, if there is room for it. Else `room` stays as it was.
fn put(text: &[u8], room: &mut [u8]) -> bool
    ensures written { MatchBool result ((take (length text.now) room.new ≡ text.now) × (length text.now ≤ length room.new))
        (length room.old < length text.now) }
    ensures behind { drop (length text.now) room.new ≡ drop (length text.now) room.old }
    ensures kept { OnFalse result (room.new ≡ room.old) }
{
    if room.len() < text.len() {
        return false;
    }
    room[..text.len()].copy_from_slice(text);
    true
}

/// The exit code of a status, and its line, unless memory ran out.
fn line_of(alloc: Global, status: &Status) -> Option<(u8, Vec<u8>)>
    ensures { (c : Command) (input : List ℕ) → OutcomeOf (IsAnswerFor c input) (Err status.now)
        → IfSome result (λ found. IsTextOf c input found.0 found.1.items) }
{
    let code = status.code();
    if code == OUT_OF_MEMORY {
        return None;
    }
    match status.line(alloc) {
        Ok(line) => Some((code, line)),
        Err(_) => None,
    }
}

/// The exit code of an outcome's status, and its text, unless memory ran out.
fn text_of(alloc: Global, outcome: Result<Vec<u8>, Status>) -> Option<(u8, Vec<u8>)>
    ensures { (c : Command) (input : List ℕ) → OutcomeOf (IsAnswerFor c input) outcome
        → IfSome result (λ found. IsTextOf c input found.0 found.1.items) }
{
    match outcome {
        Ok(text) => Some((Status::Done.code(), text)),
        Err(status) => line_of(alloc, &status),
    }
}

/// The answer of a call: an outcome's text goes to the front of `room`, its size to `size`.
pub(crate) fn tell(
    alloc: Global,
    outcome: Result<Vec<u8>, Status>,
    room: &mut [u8],
    size: &mut u64,
) -> u32
    ensures { (c : Command) (words : List (List ℕ)) (input : List ℕ) → Names c words
        → OutcomeOf (IsAnswerFor c input) outcome
        → CallAnswers c input result size.new room.old room.new }
{
    one_status();
    *size = 0;
    let Some((code, text)) = text_of(alloc, outcome) else {
        return NO_MEMORY;
    };
    *size = text.len() as u64;
    if put(text.as_slice(), room) {
        u32::from(code)
    } else {
        TOO_SMALL
    }
}
