//! The version of a controller's text, and its plant.

ghost use Rattle.std.specs.Prelude.{◌≡◌, ◌≢◌, MatchOption};
ghost use Rattle.mpc_grammar.specs.Reading.{Outcome, one_line};
ghost use Rattle.mpc_grammar.specs.declared.versions.Version.{Version as Edition};
ghost use Rattle.mpc_grammar.specs.Versions.{number_of};
ghost use Rattle.mpc_grammar.specs.PlantGrammar.{plain_rule, plant};
ghost use Rattle.mpc_grammar.specs.FileGrammar.{IsVersion};

use crate::limit_lines::read_limits;
use crate::plant_lines::{read_dynamics, read_offsets, read_sizes, read_weights};
use mpc_grammar::{FileError, FileKind, Lines, Version, number_of, one_number};
use mpc_plant::Plant;
use mpc_words::Natural;
use std::alloc::Global;

/// The version with a number.
fn version_with(number: u64) -> Option<Version>
    ensures { MatchOption result ((version : Edition) → number ≢ number_of version)
        (λ version. number ≡ number_of version) }
{
    match number {
        1 => Some(Version::One),
        2 => Some(Version::Two),
        3 => Some(Version::Three),
        _ => None,
    }
}

/// The version that a line states.
fn version_in(text: &[u8]) -> Option<Version>
    ensures { MatchOption result
        ((version : Edition) → ¬ IsVersion text.now version)
        (λ version. IsVersion text.now version) }
{
    one_number();
    match number_of(text, b"mpc") {
        Natural::Small(number) => version_with(number),
        Natural::Large | Natural::Misspelled => None,
    }
}

/// Reads the line of the version.
pub fn read_version(lines: &mut Lines) -> Result<Version, FileError>
    ensures { Outcome (one_line (plain_rule IsVersion)) lines.old lines.new result }
{
    let number = lines.number();
    let line = lines.take()?;
    match version_in(line) {
        Some(version) => Ok(version),
        None => Err(FileError::Bad(FileKind::BadLine, number)),
    }
}

/// Reads the lines of a plant.
pub fn read_plant_lines(
    alloc: Global,
    lines: &mut Lines,
    version: Version,
) -> Result<Plant, FileError>
    ensures { Outcome (plant version) lines.old lines.new result }
{
    let sizes = read_sizes(alloc, lines)?;
    let dynamics = read_dynamics(alloc, lines, &sizes)?;
    let weights = read_weights(alloc, lines, &sizes)?;
    let offsets = read_offsets(alloc, lines, version, &sizes)?;
    let limits = read_limits(alloc, lines, version, &sizes)?;
    Ok(Plant {
        n: sizes.states,
        p: sizes.inputs,
        horizon: sizes.steps,
        a: dynamics.a,
        b: dynamics.b,
        q: weights.q,
        r: weights.r,
        last: weights.last,
        drift: offsets.drift,
        xgoal: offsets.xgoal,
        ugoal: offsets.ugoal,
        rows: limits.rows,
        terminal: limits.terminal,
        grid: limits.axes,
    })
}
