//! Why a call has no answer.

ghost use Rattle.std.specs.Prelude.{◌≡◌};
ghost use Rattle.mpc_linear.specs.declared.errors.LinearError.TheVariants.{NoMemory as no_memory};

use mpc_frac::NoMemory;
use std::alloc::{AllocError, AllocFailed};
use thiserror::Error;

/// Why a call on vectors and matrices has no answer.
#[derive(Clone, Copy, Debug, PartialEq, Eq, Drop, Error)]
pub enum LinearError {
    /// A number of this step is 2^127 or more in size. Each call says what it counts as its steps; 0
    /// where it has none.
    #[error("step {0} needs numbers of more than 128 bits")]
    Wide(u32),
    /// There is no more memory.
    #[error("out of memory")]
    NoMemory,
}

impl From<NoMemory> for LinearError {
    ghost from_gives = { λ _ e. e ≡ no_memory };

    fn from(_error: NoMemory) -> LinearError {
        LinearError::NoMemory
    }
}

impl From<AllocError> for LinearError {
    ghost from_gives = { λ _ e. e ≡ no_memory };

    fn from(_error: AllocError) -> LinearError {
        LinearError::NoMemory
    }
}

impl<T: Drop> From<AllocFailed<T>> for LinearError {
    ghost from_gives = { λ _ e. e ≡ no_memory };

    fn from(_error: AllocFailed<T>) -> LinearError {
        LinearError::NoMemory
    }
}
