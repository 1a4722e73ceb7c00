//! The way from a plant file to a reply, for C callers who time its phases.

ghost use Rattle.std.specs.Prelude.{◌≡◌, ◌≤◌, length, map};
ghost use Rattle.mpc_bench.specs.Parts.{value_of};
ghost use Rattle.mpc_bench.specs.declared.replies.Answer.TheVariants.{Moved, Infeasible, Outside};
ghost use Rattle.mpc_bench.specs.Runs.{IsFileOf, IsAnswered, IsNoPlant, IsIndefinite, IsTooWide, HasOtherSizes};

use crate::parts::Parts;
use crate::phases::{Phase, Stop};
use crate::replies::Answer;
use crate::runs::answer_to;
use std::alloc::Global;

const MOVED: u32 = 0;

const INFEASIBLE: u32 = 1;

const OUTSIDE: u32 = 2;

const ASKED: u32 = 3;

const BAD_PLANT: u32 = 4;

const NOT_DEFINITE: u32 = 5;

const TOO_WIDE: u32 = 6;

const NO_MEMORY: u32 = 7;

const OTHER_SIZES: u32 = 8;

/// How large the parts of a controller are.
#[repr(C)]
#[derive(Clone, Copy, Drop)]
pub struct Sizes {
    /// The active sets that were decided.
    pub candidates: u64,
    /// Those of them that have a law.
    pub laws: u64,
    /// The nodes of the search tree.
    pub nodes: u64,
}

/// Makes the controller of a plant file and its reply to counts, one a state, phase by phase: 1 reads the plant, 2 condenses it and
/// decides its active sets, 3 makes the controller and has it checked, 4 lays out its table, and 5 replies, `rounds` times, and at least
/// once. Behind the phase with the number `last` it ends, and for other numbers with the reply.
///
/// Answers 0 and writes the first move of the cheapest admissible sequence, one number an input; 1 where no sequence is admissible; 2
/// where a count is above its limit; 3 behind the last phase that was asked for; 4 where the bytes are no plant file; 5 where the
/// Hessian of the plant's program isn't positive definite; 6 where a number is too wide; 7 without memory; 8 where there isn't a count for each state or
/// room for each input. The sizes are written as they become known.
#[unsafe(no_mangle)]
pub extern "C" fn mpc_compile_reply(
    alloc: Global,
    file: &[u8],
    counts: &[u64],
    last: u32,
    rounds: u32,
    sizes: &mut Sizes,
    moves: &mut [Parts],
) -> u32
    ensures moved { result ≡ 0 → IsAnswered file.now counts.now sizes.new (map value_of moves.new) Moved }
    ensures infeasible { result ≡ 1 → IsAnswered file.now counts.now sizes.new (map value_of moves.new) Infeasible }
    ensures outside { result ≡ 2 → IsAnswered file.now counts.now sizes.new (map value_of moves.new) Outside }
    ensures asked { result ≡ 3 → last ≤ 4 }
    ensures bad_plant { result ≡ 4 → IsNoPlant file.now }
    ensures not_definite { result ≡ 5 → IsFileOf file.now IsIndefinite }
    ensures too_wide { result ≡ 6 → IsFileOf file.now IsTooWide }
    ensures other_sizes { result ≡ 8 → IsFileOf file.now (HasOtherSizes (length counts.now) (length moves.old)) }
    ensures codes { result ≤ 8 }

    // Without a reply no move is written.
    ensures no_moves { 3 ≤ result → moves.new ≡ moves.old }
{
    let phase = Phase::numbered(last);
    match answer_to(alloc, file, counts, phase, rounds, sizes, moves) {
        Ok(Answer::Moved) => MOVED,
        Ok(Answer::Infeasible) => INFEASIBLE,
        Ok(Answer::Outside) => OUTSIDE,
        Err(Stop::Asked) => ASKED,
        Err(Stop::BadPlant) => BAD_PLANT,
        Err(Stop::NotDefinite) => NOT_DEFINITE,
        Err(Stop::TooWide) => TOO_WIDE,
        Err(Stop::NoMemory) => NO_MEMORY,
        Err(Stop::OtherSizes) => OTHER_SIZES,
    }
}
