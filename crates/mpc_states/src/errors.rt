//! Why an input has no replies.

ghost use Rattle.std.specs.Prelude.{◌≡◌};
ghost use Rattle.mpc_states.specs.declared.errors.RobustError.TheVariants.{NoMemory as NoRobustMemory};
ghost use Rattle.mpc_states.specs.declared.errors.SolveError.TheVariants.{NoMemory as NoSolveMemory};

use mpc_frac::NoMemory;
use mpc_plant::{Path, PlantKind};
use mpc_rows::Place;

/// Why an input of `solve` has no replies.
#[derive(Drop)]
pub enum SolveError {
    /// A check of the plant's file fails: the first one, and its place in the file.
    BadPlant(PlantKind, Path),
    /// The Hessian of the plant's program isn't positive definite: this pivot, from 1, is the first that isn't positive.
    NotDefinite(u32),
    /// This place is the first whose numbers need more than 128 bits.
    TooWide(Place),
    /// There is no more memory.
    NoMemory,
}

/// Why an input of `robust` has no replies.
#[derive(Drop)]
pub enum RobustError {
    /// A check of the plant's file fails: the first one, and its place in the file.
    BadPlant(PlantKind, Path),
    /// There is no line `noise`, or what stands behind it isn't one number for each state.
    BadNoise,
    /// The Hessian of the plant's program isn't positive definite: this pivot, from 1, is the first that isn't positive.
    NotDefinite(u32),
    /// This place is the first whose numbers need more than 128 bits.
    TooWide(Place),
    /// This row, from 1, is the first whose tightening needs more than 128 bits.
    WideRow(u32),
    /// There is no more memory.
    NoMemory,
}

impl From<NoMemory> for SolveError {
    ghost from_gives = { λ _ e. e ≡ NoSolveMemory };

    fn from(_error: NoMemory) -> SolveError {
        SolveError::NoMemory
    }
}

impl From<NoMemory> for RobustError {
    ghost from_gives = { λ _ e. e ≡ NoRobustMemory };

    fn from(_error: NoMemory) -> RobustError {
        RobustError::NoMemory
    }
}
