//! Why there is no noise, or no tightened program.

ghost use Rattle.std.specs.Prelude.{◌≡◌};
ghost use Rattle.mpc_tight.specs.declared.errors.NoiseError.TheVariants.{NoMemory as NoNoiseMemory};
ghost use Rattle.mpc_tight.specs.declared.errors.TightError.TheVariants.{NoMemory as NoTightMemory};
ghost use Rattle.mpc_tight.specs.declared.errors.StepError.TheVariants.{TooWide, OutOfMemory};

use mpc_frac::{NoMemory, Wide};
use thiserror::Error;

/// Why bytes give no noise.
#[derive(Clone, Copy, Debug, PartialEq, Eq, Drop, Error)]
pub enum NoiseError {
    /// They aren't one line of as many numbers as the plant has states.
    #[error("the noise isn't one number for each state")]
    BadNoise,
    /// There is no more memory.
    #[error("out of memory")]
    NoMemory,
}

impl From<NoMemory> for NoiseError {
    ghost from_gives = { λ _ e. e ≡ NoNoiseMemory };

    fn from(_error: NoMemory) -> NoiseError {
        NoiseError::NoMemory
    }
}

/// Why a program isn't tightened.
#[derive(Clone, Copy, Debug, PartialEq, Eq, Drop, Error)]
pub enum TightError {
    /// The row, from 1, is the first whose tightening needs more than 128 bits.
    #[error("the tightening of row {0} needs more than 128 bits")]
    Wide(u32),
    /// There is no more memory.
    #[error("out of memory")]
    NoMemory,
}

impl From<NoMemory> for TightError {
    ghost from_gives = { λ _ e. e ≡ NoTightMemory };

    fn from(_error: NoMemory) -> TightError {
        TightError::NoMemory
    }
}

/// Why one row isn't tightened.
#[derive(Clone, Copy, Debug, Drop)]
pub enum StepError {
    TooWide,
    OutOfMemory,
}

impl From<Wide> for StepError {
    ghost from_gives = { λ _ e. e ≡ TooWide };

    fn from(_error: Wide) -> StepError {
        StepError::TooWide
    }
}

impl From<NoMemory> for StepError {
    ghost from_gives = { λ _ e. e ≡ OutOfMemory };

    fn from(_error: NoMemory) -> StepError {
        StepError::OutOfMemory
    }
}
