//! What the test of a controller's file answers.

ghost use Rattle.std.specs.Prelude.{◌≡◌};
ghost use Rattle.mpc_files.specs.SafetyAnswers.{of_reader};

use mpc_check::Spot;
use mpc_file::{FileError, FileKind};
use mpc_recur::Next;
use mpc_rows::{PairPoint, Place};
use thiserror::Error;

/// What is found of a controller's file.
#[derive(Drop)]
pub enum Safety {
    /// The checker accepts the controller, and each step leads to a state of the box at which there is a move.
    Safe,
    /// The first condition of the checker that isn't met fails here.
    Refused(Spot),
    /// The checker accepts the controller, and this step is taken from the state `q + d r` at every small enough positive d.
    Unsafe(Next, PairPoint),
}

/// Why nothing is found of a controller's file.
#[derive(Clone, Copy, Debug, Drop, Error)]
pub enum SafetyError {
    /// The line with this number, from 1, is the first that fails.
    #[error("line {1} isn't that of a controller's file")]
    BadFile(FileKind, u64),
    /// The cost isn't positive definite: this pivot is the first that isn't positive.
    #[error("the cost isn't positive definite: pivot {0} isn't positive")]
    NotDefinite(u32),
    /// The first condition of the checker that isn't met needs more than 128 bits, at this place.
    #[error("a number of the check needs more than 128 bits")]
    TooWide(Place),
    /// The checker accepts the controller. Whether this step is taken can't be decided in 128 bits, and the steps before it aren't taken.
    #[error("a number of a step needs more than 128 bits")]
    WideLater(Next),
    /// There is no more memory.
    #[error("out of memory")]
    NoMemory,
}

impl From<FileError> for SafetyError {
    ghost from_gives = { λ error e. e ≡ of_reader error };

    fn from(error: FileError) -> SafetyError {
        match error {
            FileError::Bad(kind, number) => SafetyError::BadFile(kind, number),
            FileError::NoMemory => SafetyError::NoMemory,
        }
    }
}
