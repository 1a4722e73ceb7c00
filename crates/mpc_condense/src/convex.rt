//! The convex program of a plant, or why there is none.

ghost use Rattle.std.specs.Prelude.{◌≡◌, IfOk, IfErr};
ghost use Rattle.mpc_condense.specs.Convex.{IsConvexProgram};
ghost use Rattle.mpc_condense.specs.Refusals.{IsProgramCause};
ghost use Rattle.mpc_condense.specs.Outcomes.{OneProgramOutcome};
ghost use Rattle.mpc_condense.specs.declared.convex.ProgramError.TheVariants.{NoMemory as OutOfMemory};

use crate::{CondenseError, condense, one_program, place_theorems};
use mpc_definite::{DefiniteError, pivots};
use mpc_frac::NoMemory;
use mpc_plant::Plant;
use mpc_rows::{Place, Qp};
use std::alloc::Global;
use thiserror::Error;

/// Why a plant has no convex program, or nothing that rests on one.
#[derive(Clone, Copy, Debug, Drop, Error)]
pub enum ProgramError {
    /// The Hessian isn't positive definite: this pivot, from 1, is the first that isn't positive.
    #[error("the cost isn't positive definite: pivot {0} isn't positive")]
    NotDefinite(u32),
    /// This place is the first whose numbers need more than 128 bits.
    #[error("a number needs more than 128 bits")]
    TooWide(Place),
    /// There is no more memory.
    #[error("out of memory")]
    NoMemory,
}

impl From<NoMemory> for ProgramError {
    ghost from_gives = { λ _ e. e ≡ OutOfMemory };

    fn from(_error: NoMemory) -> ProgramError {
        ProgramError::NoMemory
    }
}

/// The plant's quadratic program, whose Hessian is positive definite.
///
/// `NotDefinite` names the first pivot that isn't positive, `TooWide` the first place of condensing or the pivots with a number of
/// more than 128 bits.
pub fn convex_program(alloc: Global, plant: &Plant) -> Result<Qp, ProgramError>
    ensures program { IfOk result (IsConvexProgram plant.now) }
    ensures cause { IfErr result (IsProgramCause plant.now) }
{
    let program = match condense(alloc, plant) {
        Ok(program) => program,
        Err(CondenseError::Wide(place)) => return Err(ProgramError::TooWide(place)),
        Err(CondenseError::NoMemory) => return Err(ProgramError::NoMemory),
    };
    match pivots(alloc, &program.h) {
        Ok(_) => Ok(program),
        Err(DefiniteError::NotDefinite(j)) => Err(ProgramError::NotDefinite(j)),
        Err(DefiniteError::Wide(j)) => Err(ProgramError::TooWide(Place::Pivot(j))),
        Err(DefiniteError::NoMemory) => Err(ProgramError::NoMemory),
    }
}

/// At most one outcome is that of a plant: one pivot that isn't positive, one first place with a number that is too wide, or its convex
/// program. The call does nothing: its clause is the theorem.
pub fn one_program_outcome()
    ensures { OneProgramOutcome }
{
    one_program();
    place_theorems();
}
