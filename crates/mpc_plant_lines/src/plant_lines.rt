//! The lines of a plant before its rows: its sizes, its matrices, its drift and its targets.

ghost use Rattle.std.specs.Prelude.{◌≡◌, ◌≢◌, ◌+◌, ◌*◌, ◌<◌, ℕ, List, IfOk, MatchOption, MatchBool, IsTrue, ◌↔◌, length, codes};
ghost use Rattle.mpc_exact.specs.Rational.{ℚ};
ghost use Rattle.mpc_space.specs.Vector.{IsSymmetric, zeros};
ghost use Rattle.mpc_space.specs.Matrix.{RationalMatrix, height};
ghost use Rattle.mpc_linear.specs.Grid.{grid};
ghost use Rattle.mpc_linear.specs.Shape.{HasShape};
ghost use Rattle.mpc_grammar.specs.Reading.{Outcome, one_line};
ghost use Rattle.mpc_grammar.specs.PlantGrammar.{AreSizes, IsMatrix, IsWeightLine, IsGoal, AreZero, MayHave, plain_rule, offsets_with, matrix as matrix_grammar, weight as weight_grammar, dynamics as dynamics_grammar, weights as weights_grammar, offsets as offsets_grammar, offset_lines, AreNumbers};
ghost use Rattle.mpc_plant_lines.specs.PlantNumbers.{IsBetween, AreSizeNumbers, filled, IsMirroredRow};
ghost use Rattle.mpc_grammar.specs.declared.plant_parts.Sizes.{Sizes as SizesStated};

use mpc_frac::{Frac, NoMemory};
use mpc_grammar::{
    Dynamics, FileError, Lines, Offsets, Sizes, Version, Weights, fractions_of, integers_of,
    one_fractions, one_integers, stated,
};
use mpc_linear::{Matrix, Vector, grid_theorems};
use std::alloc::Global;
use std::cmp::Ordering;

/// The whole number, if it is from `low` to `high`.
fn between(low: u32, high: u32, number: i128) -> Option<u32>
    ensures { MatchOption result ((k : ℕ) → ¬ IsBetween low high number k)
        (λ k. IsBetween low high number k) }
{
    if number < low as i128 || number > high as i128 {
        return None;
    }
    Some(number as u32)
}

/// The sizes that whole numbers are.
fn sizes_of(numbers: &[i128]) -> Option<Sizes>
    ensures { MatchOption result ((s : SizesStated) → ¬ AreSizeNumbers numbers.now s)
        (λ s. AreSizeNumbers numbers.now s) }
{
    if numbers.len() != 3 {
        return None;
    }
    let states = between(1, 4, numbers[0])?;
    let inputs = between(1, 3, numbers[1])?;
    let steps = between(1, 6, numbers[2])?;
    if inputs * steps > 6 {
        return None;
    }
    Some(Sizes {
        states,
        inputs,
        steps,
    })
}

/// The sizes that a line states.
fn sizes_in(alloc: Global, text: &[u8]) -> Result<Option<Sizes>, NoMemory>
    ensures { IfOk result (λ found. MatchOption found
        ((s : SizesStated) → ¬ AreSizes text.now s)
        (λ s. AreSizes text.now s)) }
{
    one_integers();
    match integers_of(alloc, text, b"size")? {
        Some(numbers) => Ok(sizes_of(numbers.as_slice())),
        None => Ok(None),
    }
}

/// Reads the line of the sizes.
pub(crate) fn read_sizes(alloc: Global, lines: &mut Lines) -> Result<Sizes, FileError>
    ensures { Outcome (one_line (plain_rule AreSizes)) lines.old lines.new result }
{
    let number = lines.number();
    let line = lines.take()?;
    stated(sizes_in(alloc, line), number)
}

/// Writes the entries of one row, behind those of the rows before it.
fn write_row(matrix: &mut Matrix, row: u32, entries: &Vector)
    requires row { row < height matrix.old }
    requires size { length entries.now ≡ height matrix.old * matrix.old.columns }
    requires before { matrix.old ≡ filled (height matrix.old) matrix.old.columns (row * matrix.old.columns) entries.now }
    ensures { matrix.new ≡ filled (height matrix.old) matrix.old.columns ((row + 1) * matrix.old.columns) entries.now }
{
    grid_theorems();
    let columns = matrix.cols();
    for column in 0..columns {
        let place = row as usize * columns as usize + column as usize;
        matrix.set(row, column, *entries.at(place));
    }
}

/// The matrix of these entries, row by row.
fn matrix_with(alloc: Global, entries: &Vector, rows: u32, columns: u32) -> Result<Matrix, NoMemory>
    requires { length entries.now ≡ rows * columns }
    ensures { IfOk result (λ m. m ≡ grid rows columns entries.now) }
{
    grid_theorems();
    let mut matrix = Matrix::zero(alloc, rows, columns)?;
    for row in 0..rows {
        write_row(&mut matrix, row, entries);
    }
    Ok(matrix)
}

/// The matrix of so many rows and columns that a line states behind its name.
fn matrix_in(
    alloc: Global,
    text: &[u8],
    name: &[u8],
    rows: u32,
    columns: u32,
) -> Result<Option<Matrix>, NoMemory>
    ensures { IfOk result (λ found. MatchOption found
        ((m : RationalMatrix) → ¬ IsMatrix name.now rows columns text.now m)
        (λ m. IsMatrix name.now rows columns text.now m)) }
{
    one_fractions();
    grid_theorems();
    let Some(entries) = fractions_of(alloc, text, name)? else {
        return Ok(None);
    };
    if entries.len() != rows as usize * columns as usize {
        return Ok(None);
    }
    let matrix = matrix_with(alloc, &entries, rows, columns)?;
    Ok(Some(matrix))
}

/// Reads the line of a matrix of so many rows and columns.
pub(crate) fn read_matrix(
    alloc: Global,
    lines: &mut Lines,
    name: &[u8],
    rows: u32,
    columns: u32,
) -> Result<Matrix, FileError>
    ensures { Outcome (matrix_grammar name.now rows columns) lines.old lines.new result }
{
    let number = lines.number();
    let line = lines.take()?;
    stated(matrix_in(alloc, line, name, rows, columns), number)
}

/// Whether two numbers are equal.
fn are_equal(left: &Frac, right: &Frac) -> bool
    ensures { MatchBool result (left.now ≡ right.now) (left.now ≢ right.now) }
{
    match left.cmp(right) {
        Ordering::Equal => true,
        Ordering::Less | Ordering::Greater => false,
    }
}

/// Whether a row is the column of the same number, as far as the diagonal.
fn is_mirrored_row(matrix: &Matrix, size: u32, row: u32) -> bool
    requires shape { HasShape matrix.now size size }
    requires row { row < size }
    ensures { MatchBool result (IsMirroredRow matrix.now row) (¬ IsMirroredRow matrix.now row) }
{
    for column in 0..row {
        if !are_equal(&matrix.get(row, column), &matrix.get(column, row)) {
            return false;
        }
    }
    true
}

/// Whether a square matrix is its mirror image.
fn is_symmetric(matrix: &Matrix, size: u32) -> bool
    requires { HasShape matrix.now size size }
    ensures { MatchBool result (IsSymmetric matrix.now.rows) (¬ IsSymmetric matrix.now.rows) }
{
    for row in 0..size {
        if !is_mirrored_row(matrix, size, row) {
            return false;
        }
    }
    true
}

/// The symmetric matrix of this size that a line states behind its name.
fn weight_in(alloc: Global, text: &[u8], name: &[u8], size: u32) -> Result<Option<Matrix>, NoMemory>
    ensures { IfOk result (λ found. MatchOption found
        ((m : RationalMatrix) → ¬ IsWeightLine name.now size text.now m)
        (λ m. IsWeightLine name.now size text.now m)) }
{
    one_fractions();
    let Some(matrix) = matrix_in(alloc, text, name, size, size)? else {
        return Ok(None);
    };
    if !is_symmetric(&matrix, size) {
        return Ok(None);
    }
    Ok(Some(matrix))
}

/// Reads the line of a symmetric matrix of this size.
pub(crate) fn read_weight(
    alloc: Global,
    lines: &mut Lines,
    name: &[u8],
    size: u32,
) -> Result<Matrix, FileError>
    ensures { Outcome (weight_grammar name.now size) lines.old lines.new result }
{
    let number = lines.number();
    let line = lines.take()?;
    stated(weight_in(alloc, line, name, size), number)
}

/// Reads the lines of A and B.
pub(crate) fn read_dynamics(
    alloc: Global,
    lines: &mut Lines,
    sizes: &Sizes,
) -> Result<Dynamics, FileError>
    ensures { Outcome (dynamics_grammar sizes.now) lines.old lines.new result }
{
    let of_state = read_matrix(alloc, lines, b"A", sizes.states, sizes.states)?;
    let of_input = read_matrix(alloc, lines, b"B", sizes.states, sizes.inputs)?;
    Ok(Dynamics {
        a: of_state,
        b: of_input,
    })
}

/// Reads the lines of Q, R and P.
pub(crate) fn read_weights(
    alloc: Global,
    lines: &mut Lines,
    sizes: &Sizes,
) -> Result<Weights, FileError>
    ensures { Outcome (weights_grammar sizes.now) lines.old lines.new result }
{
    let of_state = read_weight(alloc, lines, b"Q", sizes.states)?;
    let of_input = read_weight(alloc, lines, b"R", sizes.inputs)?;
    let last = read_weight(alloc, lines, b"P", sizes.states)?;
    Ok(Weights {
        q: of_state,
        r: of_input,
        last,
    })
}

/// The so many fractions that a line states behind its name.
fn numbers_in(
    alloc: Global,
    text: &[u8],
    name: &[u8],
    count: usize,
) -> Result<Option<Vector>, NoMemory>
    ensures { IfOk result (λ found. MatchOption found
        ((xs : List ℚ) → ¬ AreNumbers name.now count text.now xs)
        (λ xs. AreNumbers name.now count text.now xs)) }
{
    one_fractions();
    let Some(numbers) = fractions_of(alloc, text, name)? else {
        return Ok(None);
    };
    if numbers.len() != count {
        return Ok(None);
    }
    Ok(Some(numbers))
}

/// Reads the line of the drift.
fn read_drift(alloc: Global, lines: &mut Lines, states: u32) -> Result<Vector, FileError>
    ensures { Outcome (one_line (plain_rule (AreNumbers (codes "drift") states))) lines.old lines.new result }
{
    let number = lines.number();
    let line = lines.take()?;
    stated(numbers_in(alloc, line, b"drift", states as usize), number)
}

/// Whether each entry is 0.
fn are_zero(entries: &Vector) -> bool
    ensures { IsTrue result ↔ AreZero entries.now }
{
    entries.as_slice().iter().all(|entry| entry.is_zero())
}

/// Whether a text of this version may state this drift and these targets.
fn are_allowed(version: Version, drift: &Vector, goal: &Vector) -> bool
    ensures { MatchBool result (MayHave version drift.now goal.now)
        (¬ MayHave version drift.now goal.now) }
{
    let no_offset = are_zero(drift) && are_zero(goal);
    match version {
        Version::One => no_offset,
        Version::Two => !no_offset,
        Version::Three => true,
    }
}

/// The targets that a line states, where a text of this version may state them beside this drift.
fn goal_in(
    alloc: Global,
    text: &[u8],
    version: Version,
    sizes: &Sizes,
    drift: &Vector,
) -> Result<Option<Vector>, NoMemory>
    ensures { IfOk result (λ found. MatchOption found
        ((goal : List ℚ) → ¬ IsGoal version sizes.now drift.now text.now goal)
        (λ goal. IsGoal version sizes.now drift.now text.now goal)) }
{
    one_fractions();
    let count = sizes.states as usize + sizes.inputs as usize;
    let Some(goal) = numbers_in(alloc, text, b"goal", count)? else {
        return Ok(None);
    };
    if !are_allowed(version, drift, &goal) {
        return Ok(None);
    }
    Ok(Some(goal))
}

/// Reads the line of the targets.
fn read_goal(
    alloc: Global,
    lines: &mut Lines,
    version: Version,
    sizes: &Sizes,
    drift: &Vector,
) -> Result<Vector, FileError>
    ensures { Outcome (one_line (plain_rule (IsGoal version sizes.now drift.now))) lines.old lines.new result }
{
    let number = lines.number();
    let line = lines.take()?;
    stated(goal_in(alloc, line, version, sizes, drift), number)
}

/// The offsets of this drift and these targets.
fn offsets_of(
    alloc: Global,
    sizes: &Sizes,
    drift: Vector,
    goal: &Vector,
) -> Result<Offsets, NoMemory>
    requires { length goal.now ≡ sizes.now.states + sizes.now.inputs }
    ensures { IfOk result (λ o. o ≡ offsets_with sizes.now drift goal.now) }
{
    let states = sizes.states as usize;
    let xgoal = Vector::from_slice(alloc, &goal.as_slice()[..states])?;
    let ugoal = Vector::from_slice(alloc, &goal.as_slice()[states..])?;
    Ok(Offsets {
        drift,
        xgoal,
        ugoal,
    })
}

/// So many zeros.
fn zero_vector(alloc: Global, count: u32) -> Result<Vector, NoMemory>
    ensures { IfOk result (λ xs. xs ≡ zeros count) }
{
    let mut entries = Vector::with_capacity(alloc, count as usize)?;
    for _ in 0..count {
        entries.push(Frac::whole(0))?;
    }
    Ok(entries)
}

/// The offsets that a text of version 1 has: none.
fn zero_offsets(alloc: Global, sizes: &Sizes) -> Result<Offsets, NoMemory>
    ensures { IfOk result (λ o. o ≡ (record { drift = zeros sizes.now.states; xgoal = zeros sizes.now.states; ugoal = zeros sizes.now.inputs })) }
{
    Ok(Offsets {
        drift: zero_vector(alloc, sizes.states)?,
        xgoal: zero_vector(alloc, sizes.states)?,
        ugoal: zero_vector(alloc, sizes.inputs)?,
    })
}

/// Reads the lines of the drift and the targets.
fn read_offset_lines(
    alloc: Global,
    lines: &mut Lines,
    version: Version,
    sizes: &Sizes,
) -> Result<Offsets, FileError>
    ensures { Outcome (offset_lines version sizes.now) lines.old lines.new result }
{
    let drift = read_drift(alloc, lines, sizes.states)?;
    let goal = read_goal(alloc, lines, version, sizes, &drift)?;
    let offsets = offsets_of(alloc, sizes, drift, &goal)?;
    Ok(offsets)
}

/// Reads the drift and the targets as a text of this version states them.
pub(crate) fn read_offsets(
    alloc: Global,
    lines: &mut Lines,
    version: Version,
    sizes: &Sizes,
) -> Result<Offsets, FileError>
    ensures { Outcome (offsets_grammar version sizes.now) lines.old lines.new result }
{
    match version {
        Version::One => {
            let offsets = zero_offsets(alloc, sizes)?;
            Ok(offsets)
        }
        Version::Two | Version::Three => read_offset_lines(alloc, lines, version, sizes),
    }
}
