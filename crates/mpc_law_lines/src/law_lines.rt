//! The lines of laws: what both forms of them share, and those whose affine forms are written out.

ghost use Rattle.std.specs.Prelude.{◌≡◌, ◌≢◌, ℕ, ◌+◌, ◌*◌, ◌<◌, ◌≤◌, ◌↔◌, List, length, map, IsTrue, IfOk, MatchOption, codes, pos};
ghost use Rattle.mpc_exact.specs.Rational.{ℚ};
ghost use Rattle.mpc_linear.specs.Whole.{AreSmall};
ghost use Rattle.mpc_plant.specs.Limits.{IsFromTo};
ghost use Rattle.mpc_sets.specs.RowSet.{IsSetOfRows};
ghost use Rattle.mpc_controller.specs.Parts.{limits_of, row_count};
ghost use Rattle.mpc_controller.specs.Bounds.{FormFits};
ghost use Rattle.mpc_grammar.specs.Reading.{Outcome, one_line};
ghost use Rattle.mpc_grammar.specs.PlantGrammar.{plain_rule, AreNumbers, IsNumber};
ghost use Rattle.mpc_grammar.specs.LawGrammar.{IsLawLine, move_rule, moves, mults, written_law, law_count, written_laws};

use crate::forms::{Forms, matrix_of};
use mpc_controller::{form_fits, limits};
use mpc_frac::NoMemory;
use mpc_grammar::{
    FileError, FileKind, Lines, fractions_into, integers_of, number_of, one_fractions,
    one_integers, one_number, stated,
};
use mpc_linear::Vector;
use mpc_plant::Plant;
use mpc_rows::{Law, LawTable};
use mpc_sets::{ActiveSet, member_theorems};
use mpc_words::Natural;
use std::alloc::Global;

/// The most laws of a controller.
const MOST_LAWS: u64 = 4598479;

/// The number of rows of the plant's program.
fn row_count(plant: &Plant) -> u32
    ensures value { result ≡ row_count plant.now }
    ensures few { result ≤ 60 }
{
    plant.horizon * plant.rows.len() as u32 + plant.terminal.len() as u32
}

/// The whole number as a natural number from `low` to `high`.
pub fn natural_in(number: i128, low: u64, high: u64) -> Option<u64>
    ensures { MatchOption result ((k : ℕ) → IsFromTo low high k → number ≢ pos k)
        (λ k. IsFromTo low high k × (number ≡ pos k)) }
{
    if number < 0 {
        return None;
    }
    let size = number.unsigned_abs();
    if size >= u128::from(low) && size <= u128::from(high) {
        Some(size as u64)
    } else {
        None
    }
}

/// The set of these row numbers, if they rise from 1 on to no more than `rows`.
fn set_of(numbers: &[i128], rows: u32) -> Option<ActiveSet>
    requires few { rows ≤ 60 }
    requires small { AreSmall numbers.now }
    ensures { MatchOption result
        ((set : List ℕ) → IsSetOfRows rows set → map pos set ≢ numbers.now)
        (λ set. IsSetOfRows rows set × (map pos set ≡ numbers.now)) }
{
    member_theorems();
    let mut set = ActiveSet::empty();
    let mut last = 0;
    for number in numbers {
        let Some(row) = natural_in(*number, last + 1, u64::from(rows)) else {
            return None;
        };
        set = set.with(row as u32);
        last = row;
    }
    Some(set)
}

/// The set that the line of a law states.
pub fn set_in(alloc: Global, text: &[u8], plant: &Plant) -> Result<Option<ActiveSet>, NoMemory>
    ensures { IfOk result (λ found. MatchOption found
        ((set : List ℕ) → ¬ IsLawLine plant.now text.now set)
        (λ set. IsLawLine plant.now text.now set)) }
{
    one_integers();
    let rows = row_count(plant);
    let Some(numbers) = integers_of(alloc, text, b"law")? else {
        return Ok(None);
    };
    if numbers.len() > (plant.p * plant.horizon) as usize {
        return Ok(None);
    }
    Ok(set_of(numbers.as_slice(), rows))
}

/// Reads the line of a law's set.
pub fn read_set(alloc: Global, lines: &mut Lines, plant: &Plant) -> Result<ActiveSet, FileError>
    ensures { Outcome (one_line (plain_rule (IsLawLine plant.now))) lines.old lines.new result }
{
    let number = lines.number();
    let text = lines.take()?;
    stated(set_in(alloc, text, plant), number)
}

/// The affine form of so many states that a line states behind its first word.
pub fn form_in(
    alloc: Global,
    text: &[u8],
    name: &[u8],
    states: u32,
) -> Result<Option<Vector>, NoMemory>
    ensures { IfOk result (λ found. MatchOption found
        ((form : List ℚ) → ¬ AreNumbers name.now (states + 1) text.now form)
        (λ form. AreNumbers name.now (states + 1) text.now form)) }
{
    one_fractions();
    let size = states as usize + 1;
    let room = Vector::with_capacity(alloc, size)?;
    let Some(form) = fractions_into(room, text, name)? else {
        return Ok(None);
    };
    if form.len() != size {
        return Ok(None);
    }
    Ok(Some(form))
}

/// Whether the form of the unknown with this index, from 0, is one of the first step and doesn't fit.
fn is_over(
    alloc: Global,
    form: &Vector,
    index: u32,
    inputs: u32,
    counts: &[u64],
) -> Result<bool, NoMemory>
    requires { length form.now ≡ length counts.now + 1 }
    ensures { IfOk result (λ over. IsTrue over ↔ ((index < inputs) × (¬ FormFits counts.now form.now))) }
{
    if index >= inputs {
        return Ok(false);
    }
    let fits = form_fits(alloc, form, counts)?;
    Ok(!fits)
}

/// Reads the line of the form of the unknown with this index, from 0.
fn read_move(
    alloc: Global,
    lines: &mut Lines,
    plant: &Plant,
    counts: &[u64],
    index: u32,
) -> Result<Vector, FileError>
    requires { counts.now ≡ limits_of plant.now }
    ensures { Outcome (one_line (move_rule plant.now index)) lines.old lines.new result }
{
    let number = lines.number();
    let text = lines.take()?;
    let Some(form) = form_in(alloc, text, b"move", plant.n)? else {
        return Err(FileError::Bad(FileKind::BadLine, number));
    };
    if is_over(alloc, &form, index, plant.p, counts)? {
        return Err(FileError::Bad(FileKind::OverBound, number));
    }
    Ok(form)
}

/// Reads the lines of the unknowns' forms.
fn read_moves(
    alloc: Global,
    lines: &mut Lines,
    plant: &Plant,
    counts: &[u64],
) -> Result<Forms, FileError>
    requires { counts.now ≡ limits_of plant.now }
    ensures { Outcome (moves plant.now) lines.old lines.new result }
{
    let mut forms = Forms::new(alloc);
    for index in 0..plant.p * plant.horizon {
        let form = read_move(alloc, lines, plant, counts, index)?;
        forms.push(form)?;
    }
    Ok(forms)
}

/// Reads the line of a multiplier's form.
fn read_mult(alloc: Global, lines: &mut Lines, plant: &Plant) -> Result<Vector, FileError>
    ensures { Outcome (one_line (plain_rule (AreNumbers (codes "mult") (plant.now.n + 1)))) lines.old lines.new result }
{
    let number = lines.number();
    let text = lines.take()?;
    stated(form_in(alloc, text, b"mult", plant.n), number)
}

/// Reads the lines of the members' forms.
fn read_mults(
    alloc: Global,
    lines: &mut Lines,
    plant: &Plant,
    members: u32,
) -> Result<Forms, FileError>
    ensures { Outcome (mults plant.now members) lines.old lines.new result }
{
    let mut forms = Forms::new(alloc);
    for _ in 0..members {
        let form = read_mult(alloc, lines, plant)?;
        forms.push(form)?;
    }
    Ok(forms)
}

/// Reads the lines of a law whose forms are written out.
fn read_written_law(
    alloc: Global,
    lines: &mut Lines,
    plant: &Plant,
    counts: &[u64],
) -> Result<Law, FileError>
    requires { counts.now ≡ limits_of plant.now }
    ensures { Outcome (written_law plant.now) lines.old lines.new result }
{
    let set = read_set(alloc, lines, plant)?;
    let moves = read_moves(alloc, lines, plant, counts)?;
    let mults = read_mults(alloc, lines, plant, set.size())?;
    let moves = matrix_of(alloc, &moves, plant.n + 1)?;
    let mults = matrix_of(alloc, &mults, plant.n + 1)?;
    Ok(Law { set, moves, mults })
}

/// The number of laws that a line states.
fn law_count_in(text: &[u8]) -> Option<u64>
    ensures { MatchOption result ((count : ℕ) → ¬ IsNumber (codes "laws") (λ number. number ≤ 4598479) text.now count) (IsNumber (codes "laws") (λ number. number ≤ 4598479) text.now) }
{
    one_number();
    match number_of(text, b"laws") {
        Natural::Small(count) if count <= MOST_LAWS => Some(count),
        _ => None,
    }
}

/// Reads the line of the number of laws.
pub fn read_law_count(lines: &mut Lines) -> Result<u64, FileError>
    ensures { Outcome law_count lines.old lines.new result }
{
    let number = lines.number();
    let text = lines.take()?;
    match law_count_in(text) {
        Some(count) => Ok(count),
        None => Err(FileError::Bad(FileKind::BadLine, number)),
    }
}

/// Reads the lines of laws whose forms are written out.
pub fn read_written_laws(
    alloc: Global,
    lines: &mut Lines,
    plant: &Plant,
) -> Result<LawTable, FileError>
    ensures { Outcome (written_laws plant.now) lines.old lines.new result }
{
    let counts = limits(alloc, plant)?;
    let count = read_law_count(lines)?;
    let mut laws = LawTable::new(alloc);
    for _ in 0..count {
        let law = read_written_law(alloc, lines, plant, counts.as_slice())?;
        laws.push(law)?;
    }
    Ok(laws)
}
