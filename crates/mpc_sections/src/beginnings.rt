//! The plants of sections, and their programs.

ghost use Rattle.std.specs.Prelude.{IfOk};
ghost use Rattle.mpc_rows.specs.declared.programs.Qp.{Qp as Program};
ghost use Rattle.mpc_condense.specs.Convex.{IsConvexProgram};
ghost use Rattle.mpc_sections.specs.Sections.{sections_of};
ghost use Rattle.mpc_sections.specs.Steps.{AreBegun, BeginsAs, IsFaultOf};

use crate::sections::split_section;
use mpc_condense::{ProgramError, convex_program};
use mpc_frac::NoMemory;
use mpc_plant::{Plant, PlantError, read_plant};
use mpc_rows::Qp;
use mpc_status::Status;
use std::alloc::Global;

/// What comes of a section before the candidates of any program are examined.
#[derive(Drop)]
pub enum Begun {
    /// It is refused.
    Refused(Status),
    /// Its plant, whose program is convex.
    Convex(Plant),
}

/// What came of all sections, in order, and the programs of those that have one.
#[derive(Drop)]
pub struct Beginnings {
    pub begun: Vec<Begun>,
    pub programs: Vec<Qp>,
}

/// Why a section is refused that is no plant's file.
fn fault_of(error: PlantError) -> Result<Begun, NoMemory>
    ensures { IfOk result (IsFaultOf error) }
{
    match error {
        PlantError::Bad(kind, path) => Ok(Begun::Refused(Status::BadPlant(kind, path))),
        PlantError::NoMemory => Err(NoMemory),
    }
}

/// Reads a section as a plant. The plant's program is put behind the others, where it is convex.
fn begin(alloc: Global, section: &[u8], programs: &mut Vec<Qp>) -> Result<Begun, NoMemory>
    ensures { IfOk result (λ begun. BeginsAs section.now begun programs.old.items programs.new.items) }
{
    let plant = match read_plant(alloc, section) {
        Ok(plant) => plant,
        Err(error) => return fault_of(error),
    };
    match convex_program(alloc, &plant) {
        Ok(program) => {
            let Ok(()) = programs.push(program) else {
                return Err(NoMemory);
            };
            Ok(Begun::Convex(plant))
        }
        Err(ProgramError::NotDefinite(pivot)) => Ok(Begun::Refused(Status::NotDefinite(pivot))),
        Err(ProgramError::TooWide(place)) => Ok(Begun::Refused(Status::TooWide(place))),
        Err(ProgramError::NoMemory) => Err(NoMemory),
    }
}

/// Reads all sections of an input.
pub(crate) fn begin_all(alloc: Global, input: &[u8]) -> Result<Beginnings, NoMemory>
    ensures { IfOk result (λ b. AreBegun Program IsConvexProgram (sections_of input.now) b.begun.items b.programs.items) }
{
    let mut begun = Vec::new(alloc);
    let mut programs = Vec::new(alloc);
    let mut rest = input;
    'sections: loop {
        let (section, behind) = split_section(rest);
        let Ok(()) = begun.push(begin(alloc, section, &mut programs)?) else {
            return Err(NoMemory);
        };
        match behind {
            Some(after) => rest = after,
            None => return Ok(Beginnings { begun, programs }),
        }
    }
}
