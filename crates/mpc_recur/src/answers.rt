//! What a test of recursive feasibility answers.

ghost use Rattle.std.specs.Prelude.{◌≡◌, ◌++◌, OnOk, OnErr, decimal};
ghost use Rattle.mpc_recur.specs.NextText.{next_text};
ghost use Rattle.mpc_recur.specs.declared.answers.RecurError.TheVariants.{NoMemory as NoMoreMemory};
ghost use Rattle.mpc_recur.specs.declared.answers.Stop.TheVariants.{NoMemory as NoMemoryLeft};
ghost use Rattle.mpc_recur.specs.declared.answers.StageError.TheVariants.{TooWide, OutOfMemory};

use itoa::Buffer;
use mpc_frac::{NoMemory, Wide};
use mpc_rows::PairPoint;
use thiserror::Error;

/// Where a step of a safe controller doesn't lead. Coordinates and nodes are counted from 1.
#[derive(Clone, Copy, Debug, PartialEq, Eq, Drop)]
pub enum Target {
    /// Below this coordinate of the box.
    Low(u32),
    /// Above this coordinate of the box.
    High(u32),
    /// To a state at which the search ends at this leaf, which has no law.
    NoMove(u64),
}

/// A step from the states of a leaf with a law, counted from 1 among the nodes, to a target.
#[derive(Clone, Copy, Debug, PartialEq, Eq, Drop)]
pub struct Next {
    pub leaf: u64,
    pub target: Target,
}

/// What is found of a controller.
#[derive(Drop)]
pub enum Recur {
    /// Each step leads to a state of the box at which there is a move.
    Safe,
    /// This step is taken from the state `q + d r` at every small enough positive d.
    Unsafe(Next, PairPoint),
}

/// Why nothing is found of a controller.
#[derive(Clone, Copy, Debug, Drop, Error)]
pub enum RecurError {
    /// Whether this step is taken can't be decided in 128 bits, and the steps before it aren't taken.
    #[error("a number needs more than 128 bits")]
    Wide(Next),
    /// There is no more memory.
    #[error("out of memory")]
    NoMemory,
}

impl From<NoMemory> for RecurError {
    ghost from_gives = { λ _ e. e ≡ NoMoreMemory };

    fn from(_error: NoMemory) -> RecurError {
        RecurError::NoMemory
    }
}

/// Why a search stops.
#[derive(Drop)]
pub enum Stop {
    /// This step is taken from this state.
    Reached(Next, PairPoint),
    /// Whether this step is taken can't be decided in 128 bits.
    Wide(Next),
    /// There is no more memory.
    NoMemory,
}

impl From<NoMemory> for Stop {
    ghost from_gives = { λ _ stop. stop ≡ NoMemoryLeft };

    fn from(_error: NoMemory) -> Stop {
        Stop::NoMemory
    }
}

/// Why one part of the test has no answer.
#[derive(Clone, Copy, Debug, Drop)]
pub enum StageError {
    TooWide,
    OutOfMemory,
}

impl From<Wide> for StageError {
    ghost from_gives = { λ _ e. e ≡ TooWide };

    fn from(_error: Wide) -> StageError {
        StageError::TooWide
    }
}

impl From<NoMemory> for StageError {
    ghost from_gives = { λ _ e. e ≡ OutOfMemory };

    fn from(_error: NoMemory) -> StageError {
        StageError::OutOfMemory
    }
}

/// Appends the number, the word and the other number.
fn write_words(number: u64, word: &[u8], other: u64, out: &mut Vec<u8>) -> Result<(), NoMemory>
    ensures ok { OnOk result (out.new.items ≡ out.old.items ++ (decimal number ++ (word.now ++ decimal other))) }
    ensures err { OnErr result (out.new.items ≡ out.old.items) }
{
    let mut first = Buffer::new();
    let mut second = Buffer::new();
    let digits = first.format(number).as_bytes();
    let others = second.format(other).as_bytes();
    out.reserve(digits.len() + word.len() + others.len())
        .map_err(|_| NoMemory)?;
    out.extend_from_slice(digits).map_err(|_| NoMemory)?;
    out.extend_from_slice(word).map_err(|_| NoMemory)?;
    out.extend_from_slice(others).map_err(|_| NoMemory)?;
    Ok(())
}

impl Next {
    /// Appends the leaf's number and the target, as `4 high 1`. Without memory `out` stays as it was.
    pub fn write(&self, out: &mut Vec<u8>) -> Result<(), NoMemory>
        ensures ok { OnOk result (out.new.items ≡ out.old.items ++ next_text self.now) }
        ensures err { OnErr result (out.new.items ≡ out.old.items) }
    {
        match self.target {
            Target::Low(i) => write_words(self.leaf, b" low ", i.into(), out),
            Target::High(i) => write_words(self.leaf, b" high ", i.into(), out),
            Target::NoMove(number) => write_words(self.leaf, b" none ", number, out),
        }
    }
}
