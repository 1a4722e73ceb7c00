//! Why parts make no controller.

ghost use Rattle.std.specs.Prelude.{◌≡◌};
ghost use Rattle.mpc_controller.specs.declared.errors.SealError.TheVariants.{NoMemory as NoMoreMemory};

use mpc_frac::NoMemory;
use mpc_rows::Place;
use thiserror::Error;

/// Why parts make no controller.
#[derive(Clone, Copy, Debug, Drop, Error)]
pub enum SealError {
    /// The place is the first bound that is broken, of a law's input or of a node.
    #[error("a number of the controller needs more than 128 bits")]
    Wide(Place),
    /// There is no more memory.
    #[error("out of memory")]
    NoMemory,
}

impl From<NoMemory> for SealError {
    ghost from_gives = { λ _ e. e ≡ NoMoreMemory };

    fn from(_error: NoMemory) -> SealError {
        SealError::NoMemory
    }
}
