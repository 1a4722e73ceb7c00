//! Why an input has no answer.

use mpc_frac::NoMemory;
use thiserror::Error;

/// Why an input has no answer.
#[derive(Clone, Copy, Debug, PartialEq, Eq, Drop, Error)]
pub enum SectionsError {
    /// The input has more than 8 sections.
    #[error("too many plants")]
    TooManyPlants,
    #[error("out of memory")]
    NoMemory,
}

impl From<NoMemory> for SectionsError {
    ghost use Rattle.std.specs.Prelude.{◌≡◌};
    ghost use Rattle.mpc_sections.specs.declared.errors.SectionsError.TheVariants.{NoMemory as OutOfMemory};

    ghost from_gives = { λ _ e. e ≡ OutOfMemory };

    fn from(_refused: NoMemory) -> SectionsError {
        SectionsError::NoMemory
    }
}
