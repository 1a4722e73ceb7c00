//! The lines of a plant's rows and of its grid.

ghost use Rattle.std.specs.Prelude.{◌*◌, ◌≤◌, ◌≡◌, ◌≢◌, ◌+◌, ◌^◌, ◌<◌, ℕ, length, MatchOption, MatchBool, IfOk};
ghost use Rattle.mpc_exact.specs.Rational.{IsPositive};
ghost use Rattle.mpc_plant.specs.declared.lists.PlantRow.{PlantRow as Row};
ghost use Rattle.mpc_plant.specs.declared.lists.Coordinate.{Coordinate as Axis};
ghost use Rattle.mpc_grammar.specs.Reading.{Outcome, one_line};
ghost use Rattle.mpc_grammar.specs.Versions.{greatest_rows as most_rows};
ghost use Rattle.mpc_grammar.specs.PlantGrammar.{plain_rule, so_many, IsRow, IsAxis, row_list, last_list, limits, IsNumber};
ghost use Rattle.mpc_plant_lines.specs.LimitNumbers.{StatesRow, StatesAxis, IsStepCount};

use mpc_frac::{Frac, NoMemory};
use mpc_grammar::{
    FileError, FileKind, Limits, Lines, Sizes, Version, fractions_of, number_of, one_fractions,
    one_number, stated,
};
use mpc_linear::Vector;
use mpc_plant::{Coordinate, Coordinates, PlantRow, PlantRows};
use mpc_words::Natural;
use std::alloc::Global;
use std::cmp::Ordering;

/// The most steps that a coordinate may have.
const GREATEST_COUNT: i128 = 1_000_000;

/// The most rows of a program of so many unknowns.
fn greatest_rows(version: Version, unknowns: u64) -> u64
    ensures { result ≡ most_rows version unknowns }
{
    match version {
        Version::One | Version::Two => 40,
        Version::Three => if unknowns <= 4 { 60 } else { 40 },
    }
}

/// The number of rows that a line states behind its name, if they, each counted `each` times, and the others are at most `most`.
fn count_in(text: &[u8], name: &[u8], each: u32, others: u128, most: u64) -> Option<u64>
    requires some { 0 < each }
    requires others { others < 2 ^ 96 }
    ensures { MatchOption result
        ((count : ℕ) → ¬ IsNumber name.now (λ number. each * number + others ≤ most) text.now count)
        (λ count. IsNumber name.now (λ number. each * number + others ≤ most) text.now count) }
{
    one_number();
    match number_of(text, name) {
        Natural::Small(count) => if each as u128 * count as u128 + others <= most as u128 {
            Some(count)
        } else {
            None
        },
        Natural::Large => None,
        Natural::Misspelled => None,
    }
}

/// Reads the line of the number of rows.
fn read_count(
    lines: &mut Lines,
    name: &[u8],
    each: u32,
    others: u128,
    most: u64,
) -> Result<u64, FileError>
    requires some { 0 < each }
    requires others { others < 2 ^ 96 }
    ensures { Outcome (one_line (plain_rule (IsNumber name.now (λ number. each * number + others ≤ most)))) lines.old lines.new result }
{
    let number = lines.number();
    let line = lines.take()?;
    match count_in(line, name, each, others, most) {
        Some(count) => Ok(count),
        None => Err(FileError::Bad(FileKind::BadLine, number)),
    }
}

/// The row that numbers state: first the state's coefficients, then the move's, at last the bound.
fn row_of(
    alloc: Global,
    numbers: &[Frac],
    states: u32,
    inputs: u32,
) -> Result<Option<PlantRow>, NoMemory>
    ensures { IfOk result (λ found. MatchOption found
        (length numbers.now ≢ states + inputs + 1)
        (λ row. StatesRow states inputs numbers.now row)) }
{
    let end = states as usize + inputs as usize;
    if numbers.len() != end + 1 {
        return Ok(None);
    }
    let on_state = Vector::from_slice(alloc, &numbers[..states as usize])?;
    let on_input = Vector::from_slice(alloc, &numbers[states as usize..end])?;
    Ok(Some(PlantRow {
        x: on_state,
        u: on_input,
        max: numbers[end],
    }))
}

/// The row that a line states behind its name.
fn row_in(
    alloc: Global,
    text: &[u8],
    name: &[u8],
    states: u32,
    inputs: u32,
) -> Result<Option<PlantRow>, NoMemory>
    ensures { IfOk result (λ found. MatchOption found
        ((row : Row) → ¬ IsRow name.now states inputs text.now row)
        (λ row. IsRow name.now states inputs text.now row)) }
{
    one_fractions();
    match fractions_of(alloc, text, name)? {
        Some(numbers) => row_of(alloc, numbers.as_slice(), states, inputs),
        None => Ok(None),
    }
}

/// The number of steps that a fraction is, if a coordinate may have so many.
fn steps_of(number: &Frac) -> Option<u64>
    ensures { MatchOption result
        ((count : ℕ) → ¬ IsStepCount number.now count)
        (λ count. IsStepCount number.now count) }
{
    let count = number.num();
    if number.den() == 1 && 0 <= count && count <= GREATEST_COUNT {
        Some(count as u64)
    } else {
        None
    }
}

/// Whether the number is above 0.
fn is_positive(number: &Frac) -> bool
    ensures { MatchBool result (IsPositive number.now) (¬ IsPositive number.now) }
{
    Frac::whole(0).cmp(number) == Ordering::Less
}

/// The coordinate that three numbers state.
fn axis_of(numbers: &[Frac]) -> Option<Coordinate>
    ensures { MatchOption result
        ((axis : Axis) → ¬ StatesAxis numbers.now axis)
        (λ axis. StatesAxis numbers.now axis) }
{
    if numbers.len() != 3 {
        return None;
    }
    let step = numbers[1];
    if !is_positive(&step) {
        return None;
    }
    let count = steps_of(&numbers[2])?;
    Some(Coordinate {
        low: numbers[0],
        step,
        count,
    })
}

/// The coordinate that a line states.
fn axis_in(alloc: Global, text: &[u8]) -> Result<Option<Coordinate>, NoMemory>
    ensures { IfOk result (λ found. MatchOption found
        ((axis : Axis) → ¬ IsAxis text.now axis)
        (λ axis. IsAxis text.now axis)) }
{
    one_fractions();
    match fractions_of(alloc, text, b"grid")? {
        Some(numbers) => Ok(axis_of(numbers.as_slice())),
        None => Ok(None),
    }
}

/// Reads the line of a row.
fn read_row(
    alloc: Global,
    lines: &mut Lines,
    name: &[u8],
    states: u32,
    inputs: u32,
) -> Result<PlantRow, FileError>
    ensures { Outcome (one_line (plain_rule (IsRow name.now states inputs))) lines.old lines.new result }
{
    let number = lines.number();
    let line = lines.take()?;
    stated(row_in(alloc, line, name, states, inputs), number)
}

/// Reads the line of a coordinate.
fn read_axis(alloc: Global, lines: &mut Lines) -> Result<Coordinate, FileError>
    ensures { Outcome (one_line (plain_rule IsAxis)) lines.old lines.new result }
{
    let number = lines.number();
    let line = lines.take()?;
    stated(axis_in(alloc, line), number)
}

/// Reads the lines of so many rows.
fn read_row_lines(
    alloc: Global,
    lines: &mut Lines,
    name: &[u8],
    states: u32,
    inputs: u32,
    count: u64,
) -> Result<PlantRows, FileError>
    ensures { Outcome (so_many count (plain_rule (IsRow name.now states inputs))) lines.old lines.new result }
{
    let mut rows = PlantRows::new(alloc);
    for _ in 0..count {
        let row = read_row(alloc, lines, name, states, inputs)?;
        rows.push(row)?;
    }
    Ok(rows)
}

/// Reads the rows of each step before the end.
pub(crate) fn read_rows(
    alloc: Global,
    lines: &mut Lines,
    version: Version,
    sizes: &Sizes,
) -> Result<PlantRows, FileError>
    requires { 0 < sizes.now.steps }
    ensures { Outcome (row_list version sizes.now) lines.old lines.new result }
{
    let most = greatest_rows(version, sizes.inputs as u64 * sizes.steps as u64);
    let count = read_count(lines, b"rows", sizes.steps, 0, most)?;
    read_row_lines(alloc, lines, b"row", sizes.states, sizes.inputs, count)
}

/// Reads the rows of the end, behind those of the steps.
pub(crate) fn read_terminal(
    alloc: Global,
    lines: &mut Lines,
    version: Version,
    sizes: &Sizes,
    rows: &PlantRows,
) -> Result<PlantRows, FileError>
    ensures { Outcome (last_list version sizes.now rows.now) lines.old lines.new result }
{
    let most = greatest_rows(version, sizes.inputs as u64 * sizes.steps as u64);
    let others = sizes.steps as u128 * rows.len() as u128;
    let count = read_count(lines, b"terminal", 1, others, most)?;
    read_row_lines(alloc, lines, b"last", sizes.states, 0, count)
}

/// Reads the coordinates of the grid.
pub(crate) fn read_grid(
    alloc: Global,
    lines: &mut Lines,
    sizes: &Sizes,
) -> Result<Coordinates, FileError>
    ensures { Outcome (so_many sizes.now.states (plain_rule IsAxis)) lines.old lines.new result }
{
    let mut axes = Coordinates::new(alloc);
    for _ in 0..sizes.states {
        let axis = read_axis(alloc, lines)?;
        axes.push(axis)?;
    }
    Ok(axes)
}

/// Reads the rows and the grid.
pub(crate) fn read_limits(
    alloc: Global,
    lines: &mut Lines,
    version: Version,
    sizes: &Sizes,
) -> Result<Limits, FileError>
    requires { 0 < sizes.now.steps }
    ensures { Outcome (limits version sizes.now) lines.old lines.new result }
{
    let rows = read_rows(alloc, lines, version, sizes)?;
    let terminal = read_terminal(alloc, lines, version, sizes, &rows)?;
    let axes = read_grid(alloc, lines, sizes)?;
    Ok(Limits {
        rows,
        terminal,
        axes,
    })
}
