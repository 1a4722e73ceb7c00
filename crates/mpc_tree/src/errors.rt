//! Why a tree isn't built.

ghost use Rattle.std.specs.Prelude.{◌≡◌};
ghost use Rattle.mpc_tree.specs.declared.errors.Stop.TheVariants.{Refused};
ghost use Rattle.mpc_tree.specs.declared.errors.TreeError.TheVariants.{NoMemory as NoMoreMemory};

use mpc_frac::NoMemory;
use mpc_rows::Place;
use thiserror::Error;

/// Why a tree isn't built.
#[derive(Clone, Copy, Debug, Drop, Error)]
pub enum TreeError {
    /// The place is the first in preorder where a number needs more than 128 bits.
    #[error("a number of the search needs more than 128 bits")]
    Wide(Place),
    /// There is no more memory.
    #[error("out of memory")]
    NoMemory,
}

impl From<NoMemory> for TreeError {
    ghost from_gives = { λ _ e. e ≡ NoMoreMemory };

    fn from(_error: NoMemory) -> TreeError {
        TreeError::NoMemory
    }
}

/// Why a part of a tree isn't built.
#[derive(Clone, Copy, Drop)]
pub enum Stop {
    /// It is refused.
    Refused(TreeError),
    /// It isn't needed, since a part before it is refused.
    GivenUp,
}

impl From<NoMemory> for Stop {
    ghost from_gives = { λ _ stop. stop ≡ Refused NoMoreMemory };

    fn from(_error: NoMemory) -> Stop {
        Stop::Refused(TreeError::NoMemory)
    }
}
