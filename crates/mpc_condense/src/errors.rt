//! Why a plant has no program.

ghost use Rattle.std.specs.Prelude.{◌≡◌};
ghost use Rattle.mpc_condense.specs.declared.errors.CondenseError.TheVariants.{NoMemory as NoMoreMemory};
ghost use Rattle.mpc_condense.specs.declared.errors.StageError.TheVariants.{TooWide, OutOfMemory};

use mpc_frac::{NoMemory, Wide};
use mpc_rows::Place;
use thiserror::Error;

/// Why a plant has no program.
#[derive(Clone, Copy, Debug, Drop, Error)]
pub enum CondenseError {
    /// The place is the first where a number needs more than 128 bits: a state, a cost or a row.
    #[error("a number of the program needs more than 128 bits")]
    Wide(Place),
    /// There is no more memory.
    #[error("out of memory")]
    NoMemory,
}

impl From<NoMemory> for CondenseError {
    ghost from_gives = { λ _ e. e ≡ NoMoreMemory };

    fn from(_error: NoMemory) -> CondenseError {
        CondenseError::NoMemory
    }
}

/// Why one stage has no answer.
#[derive(Clone, Copy, Debug, Drop)]
pub enum StageError {
    TooWide,
    OutOfMemory,
}

impl From<Wide> for StageError {
    ghost from_gives = { λ _ e. e ≡ TooWide };

    fn from(_error: Wide) -> StageError {
        StageError::TooWide
    }
}

impl From<NoMemory> for StageError {
    ghost from_gives = { λ _ e. e ≡ OutOfMemory };

    fn from(_error: NoMemory) -> StageError {
        StageError::OutOfMemory
    }
}
