//! The answers to whole inputs.

ghost use Rattle.std.specs.Prelude.{◌≡◌, Some, None, IfOk, IfErr, OnOk, option_map};
ghost use Rattle.mpc_tight.specs.Noise.{IsNoise, IfBadNoise};
ghost use Rattle.mpc_states.specs.NoisePart.{noise_from};
ghost use Rattle.mpc_condense.specs.Outcomes.{convex};
ghost use Rattle.mpc_states.specs.Outcomes.{of_program, IsSolveOutcome, robust_replies, IsOutcomeOf, IsRobustOutcome};
ghost use Rattle.mpc_states.specs.Inputs.{IsSolvedFor, IsSolved, IsSolveCauseFor, IsSolveCause, IsRobustlySolvedFor, IsRobustlySolved, IsRobustCauseFor, IsRobustCause};

use crate::errors::{RobustError, SolveError};
use crate::lines::state_lines;
use crate::theorems::right_programs;
use mpc_condense::{ProgramError, convex_program};
use mpc_linear::Vector;
use mpc_plant::{Plant, PlantError, read_plant};
use mpc_table::cut;
use mpc_tight::{NoiseError, TightError, read_noise, tighten};
use mpc_words::cut_at_line;
use std::alloc::Global;

/// The reply lines of a plant to lines of counts.
fn solve_for(alloc: Global, plant: &Plant, counts: &[u8]) -> Result<Vec<u8>, SolveError>
    ensures text { IfOk result (λ text. IsSolvedFor plant.now counts.now text.items) }
    ensures cause { IfErr result (IsSolveCauseFor plant.now) }
{
    right_programs();
    let program = match convex_program(alloc, plant) {
        Ok(program) => program,
        Err(ProgramError::NotDefinite(pivot)) => return Err(SolveError::NotDefinite(pivot)),
        Err(ProgramError::TooWide(place)) => return Err(SolveError::TooWide(place)),
        Err(ProgramError::NoMemory) => return Err(SolveError::NoMemory),
    };
    let text = state_lines(alloc, &program, plant.p as usize, counts)?;
    Ok(text)
}

/// Answers an input of `solve`: the file of a plant, a line `states`, and lines of counts, each of which gets one reply line.
///
/// Nothing is compiled: at each grid state one run of the dual active-set method finds the cheapest admissible sequence, whose first move is
/// the reply, or that there is none (Goldfarb and Idnani, 1983). Where a number of the run needs more than 128 bits, the line is `too wide`.
pub fn solve_input(alloc: Global, input: &[u8]) -> Result<Vec<u8>, SolveError>
    ensures text { IfOk result (λ text. IsSolved input.now text.items) }
    ensures replied { OnOk result (IsSolveOutcome input.now (of_program convex)) }
    ensures cause { IfErr result (IsSolveCause input.now) }
{
    let sections = cut(input);
    match read_plant(alloc, sections.head) {
        Ok(plant) => solve_for(alloc, &plant, sections.counts),
        Err(PlantError::Bad(kind, path)) => Err(SolveError::BadPlant(kind, path)),
        Err(PlantError::NoMemory) => Err(SolveError::NoMemory),
    }
}

/// The noise of an input for n states.
fn noise_of_input(
    alloc: Global,
    part: Option<&[u8]>,
    coordinates: u32,
) -> Result<Vector, NoiseError>
    ensures value { IfOk result (λ noise. noise_from (option_map (λ text. text.now) part.entry) coordinates ≡ Some noise) }
    ensures noise { IfOk result (λ noise. IsNoise noise coordinates) }
    ensures bad { IfErr result (IfBadNoise (noise_from (option_map (λ text. text.now) part.entry) coordinates ≡ None)) }
{
    match part {
        Some(text) => read_noise(alloc, text, coordinates),
        None => Err(NoiseError::BadNoise),
    }
}

/// The reply lines of a plant to lines of counts, under the noise that the part spells.
fn robust_for(
    alloc: Global,
    plant: &Plant,
    part: Option<&[u8]>,
    counts: &[u8],
) -> Result<Vec<u8>, RobustError>
    ensures text { IfOk result (λ text. IsRobustlySolvedFor (option_map (λ bytes. bytes.now) part.entry) plant.now counts.now text.items) }
    ensures replied { OnOk result (IsOutcomeOf (option_map (λ bytes. bytes.now) part.entry) plant.now robust_replies) }
    ensures cause { IfErr result (IsRobustCauseFor (option_map (λ bytes. bytes.now) part.entry) plant.now) }
{
    right_programs();
    let noise = match noise_of_input(alloc, part, plant.n) {
        Ok(noise) => noise,
        Err(NoiseError::BadNoise) => return Err(RobustError::BadNoise),
        Err(NoiseError::NoMemory) => return Err(RobustError::NoMemory),
    };
    let program = match convex_program(alloc, plant) {
        Ok(program) => program,
        Err(ProgramError::NotDefinite(pivot)) => return Err(RobustError::NotDefinite(pivot)),
        Err(ProgramError::TooWide(place)) => return Err(RobustError::TooWide(place)),
        Err(ProgramError::NoMemory) => return Err(RobustError::NoMemory),
    };
    let tight = match tighten(alloc, plant, &noise, program) {
        Ok(tight) => tight,
        Err(TightError::Wide(row)) => return Err(RobustError::WideRow(row)),
        Err(TightError::NoMemory) => return Err(RobustError::NoMemory),
    };
    let text = state_lines(alloc, &tight, plant.p as usize, counts)?;
    Ok(text)
}

/// Answers an input of `robust`: the file of a plant, a line `noise`, the most that a disturbance moves each coordinate of the state in one
/// step, a line `states`, and lines of counts, each of which gets one reply line.
///
/// The plant's program is tightened, and each grid state is answered as for `solve`: with the first move of the cheapest sequence of those
/// that keep the plant's rows whatever the disturbance is.
pub fn robust_input(alloc: Global, input: &[u8]) -> Result<Vec<u8>, RobustError>
    ensures text { IfOk result (λ text. IsRobustlySolved input.now text.items) }
    ensures replied { OnOk result (IsRobustOutcome input.now robust_replies) }
    ensures cause { IfErr result (IsRobustCause input.now) }
{
    let sections = cut(input);
    let (file, noise) = cut_at_line(sections.head, b"noise".as_slice());
    match read_plant(alloc, file) {
        Ok(plant) => robust_for(alloc, &plant, noise, sections.counts),
        Err(PlantError::Bad(kind, path)) => Err(RobustError::BadPlant(kind, path)),
        Err(PlantError::NoMemory) => Err(RobustError::NoMemory),
    }
}
