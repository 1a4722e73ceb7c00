//! The library for C callers, whose header `mpc.h` stands beside this folder: the commands as calls with texts, a table at rest, and one
//! state without a table.
#![tactic(auto)]

ghost use Rattle.std.specs.Prelude.{◌≡◌, ◌≢◌, ◌≤◌, ◌⊎◌, ℕ, length};
ghost use Rattle.mpc_plant.specs.Reply.{infeasible};
ghost use Rattle.mpc_controller.specs.Parts.{Parts};
ghost use Rattle.mpc_block.specs.Block.{HasHead};
ghost use Rattle.mpc_block.specs.BlockReplies.{Suits};
ghost use Rattle.mpc_block.specs.declared.lines.TheConstants.{LAYOUT as LAYOUT_WORD};
ghost use Rattle.mpc_cli.specs.declared.commands.Command.TheVariants.{OfPlant, OfFile};
ghost use Rattle.mpc_cli.specs.declared.commands.FileCommand.TheVariants.{Check, Safe};
ghost use Rattle.mpc_cli.specs.declared.commands.PlantCommand.TheVariants.{Compile};
ghost use Rattle.mpc_cli.specs.Commands.{IsWorkerCount};
ghost use Rattle.mpc_cli.specs.Statuses.{ReadsWith};
ghost use Rattle.mpc_c.specs.Texts.{CallAnswers};
ghost use Rattle.mpc_c.specs.Tables.{IsMeasured, IsLoaded, IsTooLarge, IsRefusedWith, IsRightAt, HasMoves, HasNoMoves, IsOutside};
ghost use Rattle.mpc_c.specs.States.{IsSolvedBy, IsOutsideOf, IsWideAt, IsNoPlant, IsIndefinite, IsWidePlant, HasOtherSizes};

mod codes;
mod files;
mod fractions;
mod states;
mod tables;
#[cfg(test)]
mod tests;
mod texts;

use codes::{
    BAD_PLANT, DONE, INFEASIBLE, NO_MEMORY, NOT_DEFINITE, OTHER_SIZES, OUTSIDE, TOO_SMALL,
    TOO_WIDE, USAGE, WIDE_STATE,
};
use files::{checked, compiled, stayed};
use mpc_block::{LAYOUT, LayoutError, Move, lay_out};
use states::{Solved, solve};
use std::alloc::Global;
use tables::{measured, reply, spoil};
use texts::tell;

/// The version of these calls.
const VERSION: u32 = 1;

/// The most workers that can be asked for.
const MOST_WORKERS: u32 = 32;

/// The version of these calls.
#[unsafe(no_mangle)]
pub extern "C" fn mpc_version() -> u32
    ensures { result ≡ 1 }
{
    VERSION
}

/// The first word of each block: the layout's name and version.
#[unsafe(no_mangle)]
pub extern "C" fn mpc_layout_version() -> u64
    ensures { result ≡ LAYOUT_WORD }
{
    LAYOUT
}

/// Makes the file of a plant's controller, as the command `compile` with so many workers. It is the same for every number of workers, and
/// the caller's thread does the work of all.
///
/// Answers the exit code of the command's status, and writes its text to the front of `text`; or 32, where there is no room for it. The
/// text's size is written in any case. For no number of workers from 1 to 32 it answers 2, and there is no text.
#[unsafe(no_mangle)]
pub extern "C" fn mpc_compile(
    alloc: Global,
    plant: &[u8],
    workers: u32,
    text: &mut [u8],
    size: &mut u64,
) -> u32
    ensures answers { IsWorkerCount workers
        → CallAnswers (OfPlant (Compile workers)) plant.now result size.new text.old text.new }
    ensures usage { (¬ IsWorkerCount workers) → result ≡ 2 }
    ensures no_text { (¬ IsWorkerCount workers) → (size.new ≡ 0) × (text.new ≡ text.old) }
{
    if workers < 1 || workers > MOST_WORKERS {
        *size = 0;
        return USAGE;
    }
    tell(alloc, compiled(alloc, plant), text, size)
}

/// Checks the file of a controller, as the command `check`. Answers and writes as [`mpc_compile`].
#[unsafe(no_mangle)]
pub extern "C" fn mpc_check(alloc: Global, file: &[u8], text: &mut [u8], size: &mut u64) -> u32
    ensures { CallAnswers (OfFile Check) file.now result size.new text.old text.new }
{
    tell(alloc, checked(alloc, file), text, size)
}

/// Checks the file of a controller, and where its closed loop goes, as the command `safe`. Answers and writes as [`mpc_compile`].
#[unsafe(no_mangle)]
pub extern "C" fn mpc_safe(alloc: Global, file: &[u8], text: &mut [u8], size: &mut u64) -> u32
    ensures { CallAnswers (OfFile Safe) file.now result size.new text.old text.new }
{
    tell(alloc, stayed(alloc, file), text, size)
}

/// How many words the block of a file's controller has.
///
/// Answers 0 and writes it, or the exit code of the status at which the file is refused; then it writes 0.
#[unsafe(no_mangle)]
pub extern "C" fn mpc_table_size(alloc: Global, file: &[u8], words: &mut u64) -> u32
    ensures measured { result ≡ 0 → (parts : Parts) × IsMeasured file.now 0 words.new parts }
    ensures refused { result ≢ 0 → result ≢ 11 → IsRefusedWith file.now 0 result }
    ensures none { result ≢ 0 → words.new ≡ 0 }
{
    match measured(alloc, file, 0, words) {
        Ok(_) => DONE,
        Err(status) => u32::from(status.code()),
    }
}

/// Lays the controller of a file out in words, for `mpc_reply`; where `check` isn't 0 it is checked before, as by the command `check`.
///
/// Answers 0 and writes the block and the number of its words; 32, and writes that number alone, where there is no room; or the exit code
/// of the status at which the file is refused, and writes 0 for that number. Without memory, 11, a part of the block may be written,
/// which is no block then.
#[unsafe(no_mangle)]
pub extern "C" fn mpc_table_load(
    alloc: Global,
    file: &[u8],
    check: u32,
    block: &mut [u64],
    words: &mut u64,
) -> u32
    ensures loaded { result ≡ 0 → IsLoaded file.now check words.new block.new }
    ensures too_small { result ≡ 32 → IsTooLarge file.now check words.new (length block.old) }
    ensures refused { result ≢ 0 → result ≢ 32 → result ≢ 11 → IsRefusedWith file.now check result }
    ensures none { result ≢ 0 → result ≢ 32 → words.new ≡ 0 }
    ensures kept { result ≢ 0 → result ≢ 11 → block.new ≡ block.old }
    ensures no_block { result ≡ 11 → (block.new ≡ block.old) ⊎ ((n p : ℕ) → ¬ HasHead block.new n p) }
{
    let controller = match measured(alloc, file, check, words) {
        Ok(controller) => controller,
        Err(status) => return u32::from(status.code()),
    };
    match lay_out(alloc, &controller, block) {
        Ok(()) => DONE,
        Err(LayoutError::NoRoom(_)) => TOO_SMALL,
        Err(LayoutError::NoMemory) => {
            *words = 0;
            spoil(block);
            NO_MEMORY
        }
    }
}

/// Replies from a block to counts, one for each coordinate, with one move for each input.
///
/// Answers 0 and writes the moves; 33 where no sequence of moves is admissible; 34 where a count is above its limit; and 35 where the words
/// are no block, or none of a controller with so many coordinates and inputs. It takes no memory and waits for nobody.
#[unsafe(no_mangle)]
pub extern "C" fn mpc_reply(block: &[u64], counts: &[u64], moves: &mut [Move]) -> u32
    ensures moved { result ≡ 0 → (parts : Parts) → Suits block.now counts.now (length moves.old) parts
        → HasMoves parts counts.now moves.new }
    ensures infeasible { result ≡ 33 → (parts : Parts) → Suits block.now counts.now (length moves.old) parts
        → HasNoMoves parts counts.now }
    ensures outside { result ≡ 34 → (parts : Parts) → Suits block.now counts.now (length moves.old) parts
        → IsOutside parts counts.now }
    ensures bad_block { result ≡ 35 → (parts : Parts) → ¬ Suits block.now counts.now (length moves.old) parts }
    ensures no_head { ¬ HasHead block.now (length counts.now) (length moves.old) → result ≡ 35 }
    ensures codes { (result ≡ 0) ⊎ ((33 ≤ result) × (result ≤ 35)) }
    ensures kept { result ≢ 0 → moves.new ≡ moves.old }
{
    reply(block, counts, moves)
}

/// Replies to a state of a plant by its counts, one for each coordinate, with one move for each input: by one run of the dual active-set
/// method, without a table.
///
/// Answers 0 and writes the moves, in lowest terms; 33 where no sequence of moves is admissible; 34 where a count is above its limit; 36
/// where a number of the run needs more than 128 bits; 3, 4 or 5 where the plant is refused, as by the command `solve`; 37 for other
/// numbers of counts or moves; and 11 without memory.
#[unsafe(no_mangle)]
pub extern "C" fn mpc_solve(alloc: Global, plant: &[u8], counts: &[u64], moves: &mut [Move]) -> u32
    ensures moved { result ≡ 0 → ReadsWith plant.now (λ p. IsSolvedBy p counts.now moves.new) }
    ensures infeasible { result ≡ 33 → ReadsWith plant.now (λ p. IsRightAt p counts.now infeasible) }
    ensures outside { result ≡ 34 → ReadsWith plant.now (λ p. IsOutsideOf p counts.now) }
    ensures wide_state { result ≡ 36 → ReadsWith plant.now (λ p. IsWideAt p counts.now) }
    ensures bad_plant { result ≡ 3 → IsNoPlant plant.now }
    ensures not_definite { result ≡ 4 → ReadsWith plant.now IsIndefinite }
    ensures too_wide { result ≡ 5 → ReadsWith plant.now IsWidePlant }
    ensures other_sizes { result ≡ 37 → ReadsWith plant.now (HasOtherSizes (length counts.now) (length moves.old)) }
    ensures codes { result ≤ 37 }
    ensures kept { result ≢ 0 → moves.new ≡ moves.old }
{
    match solve(alloc, plant, counts, moves) {
        Solved::Moved => DONE,
        Solved::Infeasible => INFEASIBLE,
        Solved::Outside => OUTSIDE,
        Solved::WideState => WIDE_STATE,
        Solved::BadPlant => BAD_PLANT,
        Solved::NotDefinite => NOT_DEFINITE,
        Solved::TooWide => TOO_WIDE,
        Solved::NoMemory => NO_MEMORY,
        Solved::OtherSizes => OTHER_SIZES,
    }
}
