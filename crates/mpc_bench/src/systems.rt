//! Decisions of systems of linear rows for a C caller: one decision on parts, a run that goes on, and a loop to measure decisions.

ghost use Rattle.std.specs.Prelude.{◌≡◌, ◌≢◌, ◌<◌, ◌≤◌, map, length};
ghost use Rattle.mpc_bench.specs.Parts.{value_of};
ghost use Rattle.mpc_rows.specs.LinearSystem.{IsPairPoint};
ghost use Rattle.mpc_rows.specs.Refutation.{Refutes};
ghost use Rattle.mpc_rows.specs.RunWidth.{RunFits};
ghost use Rattle.mpc_simplex.specs.Answer.{HasPoint, EndsWithPoint, EndsRefuted};
ghost use Rattle.mpc_bench.specs.Sent.{sent_system, pair_of, IsSent, IsSentFrom};

use crate::going_on::{Course, go_on};
use crate::parts::Parts;
use crate::passing::{SentError, put_multipliers, put_point, read_system};
use mpc_rows::{Multipliers, PairPoint};
use mpc_simplex::{Decision, SimplexError, decide};
use std::alloc::Global;

/// The weight of the high half of a number.
const HIGH: u128 = 1 << 64;

const POINT: u32 = 0;

const REFUTED: u32 = 1;

const WIDE: u32 = 2;

const NO_MEMORY: u32 = 3;

const UNREADABLE: u32 = 4;

const NOT_BEGUN: u32 = 5;

const LOST: u32 = 6;

/// The right side of a row, and whether the row is strict.
#[repr(C)]
#[derive(Clone, Copy, Drop)]
pub struct Side {
    pub bound: Parts,
    pub strict: bool,
}

/// One coordinate of a point: `first + d second` for every small enough positive d.
#[repr(C)]
#[derive(Clone, Copy, Drop)]
pub struct Pair {
    pub first: Parts,
    pub second: Parts,
}

/// Decides the system of `sides.len()` rows with `width` coefficients each, row by row.
///
/// Answers 0 where the system has a point, and writes one, a pair for each unknown; 1 where it has none, and writes multipliers that
/// refute it, one for each row; 2 where a number is too wide; 4 where a part is no fraction or a length isn't as stated. Where there is
/// no memory it answers 3 instead.
#[unsafe(no_mangle)]
pub extern "C" fn mpc_simplex_decide(
    alloc: Global,
    width: u32,
    coefficients: &[Parts],
    sides: &[Side],
    point: &mut [Pair],
    multipliers: &mut [Parts],
) -> u32
    ensures point { result ≡ 0 → IsPairPoint (sent_system width coefficients.now sides.now) (map pair_of point.new) }
    ensures has_point { result ≡ 0 → HasPoint (sent_system width coefficients.now sides.now) }
    ensures refuted { result ≡ 1 → Refutes (sent_system width coefficients.now sides.now) (map value_of multipliers.new) }
    ensures no_point { result ≡ 1 → ¬ HasPoint (sent_system width coefficients.now sides.now) }

    // The answer is that of the stated run.
    ensures ends_with_point { result ≡ 0 → EndsWithPoint (sent_system width coefficients.now sides.now) (map pair_of point.new) }
    ensures ends_refuted { result ≡ 1 → EndsRefuted (sent_system width coefficients.now sides.now) (map value_of multipliers.new) }
    ensures fits { result ≤ 1 → RunFits (sent_system width coefficients.now sides.now) }
    ensures wide { result ≡ 2 → ¬ RunFits (sent_system width coefficients.now sides.now) }

    // What is sent is refused exactly where it can't be read.
    ensures sent { result ≤ 2 → IsSent width coefficients.now sides.now point.old multipliers.old }
    ensures unreadable { result ≡ 4 → ¬ IsSent width coefficients.now sides.now point.old multipliers.old }
    ensures codes { result ≤ 4 }

    // What isn't the answer's isn't written.
    ensures point_kept { result ≢ 0 → point.new ≡ point.old }
    ensures multipliers_kept { result ≢ 1 → multipliers.new ≡ multipliers.old }
{
    if point.len() != width as usize || multipliers.len() != sides.len() {
        return UNREADABLE;
    }
    let system = match read_system(alloc, width, coefficients, sides) {
        Ok(system) => system,
        Err(SentError::Unreadable) => return UNREADABLE,
        Err(SentError::NoMemory) => return NO_MEMORY,
    };
    match decide(alloc, &system) {
        Ok(Decision::Point(found)) => {
            put_point(&found, point);
            POINT
        }
        Ok(Decision::Refuted(found)) => {
            put_multipliers(&found, multipliers);
            REFUTED
        }
        Err(SimplexError::Wide) => WIDE,
        Err(SimplexError::NoMemory) => NO_MEMORY,
    }
}

/// Runs the first rows of the system in whole numbers, and goes on from where that run ends by the others, one after another. The system is
/// sent as to `mpc_simplex_decide`.
///
/// Answers 0 where the run of the whole system is kept and has a point, and 1 where it is kept and has none; 5 where that of the first rows
/// isn't kept; 6 where one isn't kept with a further row; 4 where a part is no fraction, a length isn't as stated or there are fewer rows
/// than the first ones. Where there is no memory it answers 3 instead. Where the run of the first rows is kept, and there is memory, it
/// writes how many rows the last run has that is kept.
#[unsafe(no_mangle)]
pub extern "C" fn mpc_simplex_go_on(
    alloc: Global,
    width: u32,
    coefficients: &[Parts],
    sides: &[Side],
    first: usize,
    kept: &mut usize,
) -> u32
    ensures has_point { result ≡ 0 → HasPoint (sent_system width coefficients.now sides.now) }
    ensures no_point { result ≡ 1 → ¬ HasPoint (sent_system width coefficients.now sides.now) }
    ensures fits { result ≤ 1 → RunFits (sent_system width coefficients.now sides.now) }

    // How many rows the last run has that is kept.
    ensures all_kept { result ≤ 1 → kept.new ≡ length sides.now }
    ensures not_before { result ≡ 6 → first ≤ kept.new }
    ensures some_left { result ≡ 6 → kept.new < length sides.now }

    // What is sent is refused exactly where it can't be read.
    ensures sent { result ≢ 3 → result ≢ 4 → IsSentFrom width coefficients.now sides.now first }
    ensures unreadable { result ≡ 4 → ¬ IsSentFrom width coefficients.now sides.now first }
    ensures codes { result ≤ 6 }
    ensures not_wide { result ≢ 2 }

    // What isn't known isn't written.
    ensures count_kept { 2 ≤ result → result ≤ 5 → kept.new ≡ kept.old }
{
    if sides.len() < first {
        return UNREADABLE;
    }
    let system = match read_system(alloc, width, coefficients, sides) {
        Ok(system) => system,
        Err(SentError::Unreadable) => return UNREADABLE,
        Err(SentError::NoMemory) => return NO_MEMORY,
    };
    match go_on(alloc, &system, first) {
        Ok(Course::NotBegun) => NOT_BEGUN,
        Ok(Course::Lost(count)) => {
            *kept = count;
            LOST
        }
        Ok(Course::Kept(has_point)) => {
            *kept = sides.len();
            if has_point { POINT } else { REFUTED }
        }
        Err(_) => NO_MEMORY,
    }
}

/// A number mixed into a digest.
fn mixed(digest: u64, num: i128) -> u64 {
    digest.rotate_left(1) ^ (num.unsigned_abs() % HIGH) as u64
}

fn mixed_point(found: &PairPoint, mut digest: u64) -> u64 {
    for j in 0..found.len() {
        let pair = found.at(j);
        digest = mixed(mixed(digest, pair.0.num()), pair.1.num());
    }
    digest
}

fn mixed_multipliers(found: &Multipliers, mut digest: u64) -> u64 {
    for multiplier in found.as_slice() {
        digest = mixed(digest, multiplier.num());
    }
    digest
}

/// An answer mixed into a digest.
fn mixed_answer(answer: &Result<Decision, SimplexError>, digest: u64) -> u64 {
    match answer {
        Ok(Decision::Point(found)) => mixed_point(found, digest),
        Ok(Decision::Refuted(found)) => mixed_multipliers(found, digest),
        Err(_) => digest.rotate_left(1),
    }
}

/// Decides the system again and again, and mixes the answers into a digest.
#[unsafe(no_mangle)]
pub extern "C" fn mpc_simplex_repeat(
    alloc: Global,
    width: u32,
    coefficients: &[Parts],
    sides: &[Side],
    rounds: u32,
) -> u64 {
    let Ok(system) = read_system(alloc, width, coefficients, sides) else {
        return 0;
    };
    let mut digest = 0;
    for _ in 0..rounds {
        digest = mixed_answer(&decide(alloc, &system), digest);
    }
    digest
}
