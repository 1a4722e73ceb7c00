//! The lines of affine forms that laws name, and those of such laws.

ghost use Rattle.std.specs.Prelude.{◌≡◌, ◌≢◌, ℕ, ◌+◌, ◌^◌, ◌<◌, ◌≤◌, ◌↔◌, List, [], ◌∷◌, ◌++◌, length, map, cond, nat_lt, All, Contains, IsTrue, IfOk, MatchOption, codes, pos};
ghost use Rattle.mpc_exact.specs.Rational.{ℚ};
ghost use Rattle.mpc_linear.specs.Whole.{AreSmall};
ghost use Rattle.mpc_controller.specs.Parts.{limits_of};
ghost use Rattle.mpc_controller.specs.Bounds.{FormFits};
ghost use Rattle.mpc_grammar.specs.Reading.{Outcome, one_line};
ghost use Rattle.mpc_grammar.specs.PlantGrammar.{plain_rule, IsNumber, AreNumbers, StatesNew};
ghost use Rattle.mpc_grammar.specs.LawGrammar.{unknowns, forms, NameForms, used_behind, form_named, AreFormNumbers, named_moves_rule, named_mults};
ghost use Rattle.mpc_law_lines.specs.FormLists.{matrix_with, NamesAll, HasLinesOf, ReadsLaw, ReadsLaws};

use crate::forms::{Forms, fill_row};
use crate::law_lines::{form_in, natural_in, read_law_count, read_set};
use crate::line_sets::LineSet;
use mpc_controller::{form_fits, limits};
use mpc_frac::NoMemory;
use mpc_grammar::{
    FileError, FileKind, Lines, integers_of, number_of, one_fractions, one_integers, one_number,
};
use mpc_linear::{Matrix, Vector};
use mpc_plant::Plant;
use mpc_rows::{Counts, Law, LawTable};
use mpc_sets::ActiveSet;
use mpc_words::Natural;
use std::alloc::Global;

/// The numbers of at most 18 digits lie below this one.
const SHORT: u64 = 1_000_000_000_000_000_000;

/// The number of at most 18 digits that a line states behind its first word.
pub fn short_count_in(text: &[u8], name: &[u8]) -> Option<u64>
    ensures { MatchOption result ((count : ℕ) → ¬ IsNumber name.now (λ number. number < 10 ^ 18) text.now count)
        (IsNumber name.now (λ number. number < 10 ^ 18) text.now) }
{
    one_number();
    match number_of(text, name) {
        Natural::Small(count) if count < SHORT => Some(count),
        _ => None,
    }
}

/// Reads the line of the number of forms.
fn read_form_count(lines: &mut Lines) -> Result<u64, FileError>
    ensures { Outcome (one_line (plain_rule (IsNumber (codes "forms") (λ number. number < 10 ^ 18)))) lines.old lines.new result }
{
    let number = lines.number();
    let text = lines.take()?;
    match short_count_in(text, b"forms") {
        Some(count) => Ok(count),
        None => Err(FileError::Bad(FileKind::BadLine, number)),
    }
}

/// Reads the line of a form that isn't among those before it, whose lines are known; its own line is known
/// then too. On an error it may be known, and those that were known still are.
fn read_new_form<'a>(
    alloc: Global,
    lines: &mut Lines<'a>,
    plant: &Plant,
    known: &mut LineSet<'a>,
    before: &Forms,
) -> Result<Vector, FileError>
    requires { HasLinesOf known.old before.now }
    ensures outcome { Outcome (one_line (plain_rule (StatesNew before.now (AreNumbers (codes "form") (plant.now.n + 1))))) lines.old lines.new result }
    ensures known { IfOk result (λ form. HasLinesOf known.new (before.now ++ form ∷ [])) }
    ensures kept { (line : List ℕ) → Contains known.old line → Contains known.new line }
{
    one_fractions();
    let number = lines.number();
    let text = lines.take()?;
    let Some(form) = form_in(alloc, text, b"form", plant.n)? else {
        return Err(FileError::Bad(FileKind::BadLine, number));
    };
    if !known.insert(text)? {
        return Err(FileError::Bad(FileKind::BadLine, number));
    }
    Ok(form)
}

/// Reads the lines of the forms, of which no two are equal.
pub fn read_forms(alloc: Global, lines: &mut Lines, plant: &Plant) -> Result<Forms, FileError>
    ensures outcome { Outcome (forms plant.now) lines.old lines.new result }
    ensures sizes { IfOk result (λ fs. All (λ form. length form ≡ plant.now.n + 1) fs) }
{
    let count = read_form_count(lines)?;
    let mut forms = Forms::new(alloc);
    let mut known = LineSet::new(alloc);
    for _ in 0..count {
        let form = read_new_form(alloc, lines, plant, &mut known, &forms)?;
        forms.push(form)?;
    }
    Ok(forms)
}

/// The numbers of forms that a line states behind its first word, where so many are used before.
fn numbers_in(
    alloc: Global,
    text: &[u8],
    name: &[u8],
    all: u64,
    used: u64,
    count: u32,
) -> Result<Option<Counts>, NoMemory>
    ensures { IfOk result (λ found. MatchOption found
        ((numbers : List ℕ) → ¬ AreFormNumbers name.now all used count text.now numbers)
        (λ numbers. AreFormNumbers name.now all used count text.now numbers)) }
{
    one_integers();
    let Some(integers) = integers_of(alloc, text, name)? else {
        return Ok(None);
    };
    if integers.len() != count as usize {
        return Ok(None);
    }
    named_by(alloc, integers.as_slice(), all, used)
}

/// The greatest number that a form may have where so many are used before.
fn greatest_number(all: u64, used: u64) -> u64
    ensures within { result ≤ all }
    ensures next { result ≤ used + 1 }
    ensures greatest { (k : ℕ) → k ≤ all → k ≤ used + 1 → k ≤ result }
{
    if used < all { used + 1 } else { all }
}

/// How many forms are used behind one number more.
fn used_now(used: u64, number: u64) -> u64
    ensures { result ≡ cond (nat_lt used number) number used }
{
    if used < number { number } else { used }
}

/// These numbers, if they name forms, where so many are used before.
fn named_by(
    alloc: Global,
    integers: &[i128],
    all: u64,
    used: u64,
) -> Result<Option<Counts>, NoMemory>
    requires { AreSmall integers.now }
    ensures { IfOk result (λ found. MatchOption found
        ((numbers : List ℕ) → NameForms all used numbers → map pos numbers ≢ integers.now)
        (λ numbers. NameForms all used numbers × (map pos numbers ≡ integers.now))) }
{
    let mut numbers = Counts::new(alloc);
    let mut last = used;
    for integer in integers {
        let Some(number) = natural_in(*integer, 1, greatest_number(all, last)) else {
            return Ok(None);
        };
        numbers.push(number)?;
        last = used_now(last, number);
    }
    Ok(Some(numbers))
}

/// How many forms are used behind these numbers, too.
fn used_with(used: u64, numbers: &[u64]) -> u64
    ensures { result ≡ used_behind used numbers.now }
{
    let mut last = used;
    for number in numbers {
        last = used_now(last, *number);
    }
    last
}

/// Whether the forms that the first numbers name fit.
fn named_fit(
    alloc: Global,
    forms: &Forms,
    numbers: &[u64],
    counts: &[u64],
) -> Result<bool, NoMemory>
    requires numbers { NamesAll (length forms.now) numbers.now }
    requires sizes { All (λ form. length form ≡ length counts.now + 1) forms.now }
    ensures { IfOk result (λ fit. IsTrue fit ↔ All (λ k. FormFits counts.now (form_named forms.now k)) numbers.now) }
{
    for number in numbers {
        if !form_fits(alloc, forms.at(*number as usize - 1), counts)? {
            return Ok(false);
        }
    }
    Ok(true)
}

/// The matrix of the forms that these numbers name.
fn named_matrix(
    alloc: Global,
    forms: &Forms,
    numbers: &[u64],
    columns: u32,
) -> Result<Matrix, NoMemory>
    requires numbers { NamesAll (length forms.now) numbers.now }
    requires few { length numbers.now < 2 ^ 32 }
    requires sizes { All (λ form. length form ≡ columns) forms.now }
    ensures { IfOk result (λ m. m ≡ matrix_with (map (form_named forms.now) numbers.now) columns) }
{
    let mut matrix = Matrix::zero(alloc, numbers.len() as u32, columns)?;
    for i in 0..numbers.len() {
        fill_row(&mut matrix, i as u32, forms.at(numbers[i] as usize - 1));
    }
    Ok(matrix)
}

/// Reads the line of the numbers of the unknowns' forms.
fn read_named_moves(
    alloc: Global,
    lines: &mut Lines,
    plant: &Plant,
    forms: &Forms,
    used: u64,
    counts: &[u64],
) -> Result<Counts, FileError>
    requires counts { counts.now ≡ limits_of plant.now }
    requires sizes { All (λ form. length form ≡ plant.now.n + 1) forms.now }
    ensures { Outcome (one_line (named_moves_rule plant.now forms.now used)) lines.old lines.new result }
{
    let number = lines.number();
    let text = lines.take()?;
    let all = forms.len() as u64;
    let unknowns = plant.p * plant.horizon;
    let Some(numbers) = numbers_in(alloc, text, b"move", all, used, unknowns)? else {
        return Err(FileError::Bad(FileKind::BadLine, number));
    };
    if !named_fit(
        alloc,
        forms,
        &numbers.as_slice()[..plant.p as usize],
        counts,
    )? {
        return Err(FileError::Bad(FileKind::OverBound, number));
    }
    Ok(numbers)
}

/// Reads the line of the numbers of the members' forms, which a law of the empty set hasn't.
fn read_named_mults(
    alloc: Global,
    lines: &mut Lines,
    all: u64,
    used: u64,
    set: ActiveSet,
) -> Result<Counts, FileError>
    ensures { (fs : List (List ℚ)) → length fs ≡ all → Outcome (named_mults fs used set) lines.old lines.new result }
{
    if set.size() == 0 {
        return Ok(Counts::new(alloc));
    }
    let number = lines.number();
    let text = lines.take()?;
    match numbers_in(alloc, text, b"mult", all, used, set.size())? {
        Some(numbers) => Ok(numbers),
        None => Err(FileError::Bad(FileKind::BadLine, number)),
    }
}

/// Reads the lines of a law whose forms are named, where so many are used before. Behind it so many are.
fn read_named_law(
    alloc: Global,
    lines: &mut Lines,
    plant: &Plant,
    forms: &Forms,
    used: u64,
    counts: &[u64],
) -> Result<(Law, u64), FileError>
    requires counts { counts.now ≡ limits_of plant.now }
    requires sizes { All (λ form. length form ≡ plant.now.n + 1) forms.now }
    ensures { ReadsLaw plant.now forms.now used lines.old lines.new result }
{
    let set = read_set(alloc, lines, plant)?;
    let move_numbers = read_named_moves(alloc, lines, plant, forms, used, counts)?;
    let used = used_with(used, move_numbers.as_slice());
    let mult_numbers = read_named_mults(alloc, lines, forms.len() as u64, used, set)?;
    let used = used_with(used, mult_numbers.as_slice());
    let moves = named_matrix(alloc, forms, move_numbers.as_slice(), plant.n + 1)?;
    let mults = named_matrix(alloc, forms, mult_numbers.as_slice(), plant.n + 1)?;
    Ok((Law { set, moves, mults }, used))
}

/// Reads the lines of laws whose forms are named, and how many forms they use.
pub fn read_named_laws(
    alloc: Global,
    lines: &mut Lines,
    plant: &Plant,
    forms: &Forms,
) -> Result<(LawTable, u64), FileError>
    requires { All (λ form. length form ≡ plant.now.n + 1) forms.now }
    ensures { ReadsLaws plant.now forms.now lines.old lines.new result }
{
    let counts = limits(alloc, plant)?;
    let count = read_law_count(lines)?;
    let mut laws = LawTable::new(alloc);
    let mut used = 0;
    for _ in 0..count {
        let (law, used_now) = read_named_law(alloc, lines, plant, forms, used, counts.as_slice())?;
        laws.push(law)?;
        used = used_now;
    }
    Ok((laws, used))
}
