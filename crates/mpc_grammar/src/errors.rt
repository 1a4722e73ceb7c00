//! Why bytes aren't the file of a controller.

ghost use Rattle.std.specs.Prelude.{◌≡◌};
ghost use Rattle.mpc_grammar.specs.declared.errors.FileError.TheVariants.{NoMemory as NoMoreMemory};

use mpc_frac::NoMemory;
use thiserror::Error;

/// What is wrong with a line of a controller's file.
#[derive(Clone, Copy, Debug, PartialEq, Eq, Drop)]
pub enum FileKind {
    /// The line isn't what the tables of the format demand behind the lines before it.
    BadLine,
    /// A line is needed, and no line feed follows.
    Truncated,
    /// A byte follows the last line.
    TailAfterEnd,
    /// The line is well spelled, and names no law or no plane, or its row is 0 or has a common divisor.
    BadNode,
    /// A number of the line is too great at the greatest counts.
    OverBound,
}

/// Why a controller's file can't be read.
#[derive(Clone, Copy, Debug, PartialEq, Eq, Drop, Error)]
pub enum FileError {
    /// The line with this number, from 1, is the first that fails.
    #[error("line {1} isn't that of a controller's file")]
    Bad(FileKind, u64),
    /// There is no more memory.
    #[error("out of memory")]
    NoMemory,
}

impl From<NoMemory> for FileError {
    ghost from_gives = { λ _ e. e ≡ NoMoreMemory };

    fn from(_error: NoMemory) -> FileError {
        FileError::NoMemory
    }
}
