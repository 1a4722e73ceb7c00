//! The lines of laws, whose forms are named by their numbers.

ghost use Rattle.std.specs.Prelude.{◌≡◌, ◌++◌, List, map, codes, decimal, OnOk, IfOk, [], length, take};
ghost use Rattle.mpc_exact.specs.Rational.{ℚ};
ghost use Rattle.mpc_words.specs.Words.{line, behind_blanks};
ghost use Rattle.mpc_grammar.specs.PlantGrammar.{AllFit};
ghost use Rattle.mpc_writing.specs.Writing.{ended};
ghost use Rattle.mpc_writing.specs.Names.{AreNames};
ghost use Rattle.mpc_writing.specs.FormNames.{form_line, AreForms, AreNumbered, IsLawNumbered, AreLawsNumbered, IsTableWritten};

use crate::names::Names;
use crate::words::{end_line, write_count, write_count_line, write_fractions, write_piece};
use mpc_frac::{Frac, NoMemory};
use mpc_grammar::one_fractions;
use mpc_linear::Matrix;
use mpc_rows::{Law, LawTable};
use mpc_sets::ActiveSet;
use std::alloc::Global;

/// The line of a form.
fn form_line(alloc: Global, form: &[Frac]) -> Result<Vec<u8>, NoMemory>
    ensures text { IfOk result (λ text. text.items ≡ form_line form.now) }
    ensures fits { OnOk result (AllFit form.now) }
{
    let mut text = Vec::new(alloc);
    write_piece(b"form", &mut text)?;
    write_fractions(form, &mut text)?;
    Ok(text)
}

/// Appends the numbers of the matrix's rows, each behind a blank. Without memory some of them stand there.
fn write_numbers(
    alloc: Global,
    matrix: &Matrix,
    names: &mut Names,
    out: &mut Vec<u8>,
) -> Result<(), NoMemory>
    ensures numbered { OnOk result ((forms : List (List ℚ)) → AreForms (AreNames names.old) forms
        → AreNumbered forms matrix.now.rows out.old.items out.new.items (AreNames names.new)) }
    ensures kept { take (length out.old.items) out.new.items ≡ out.old.items }
    ensures names_kept { take (length names.old.text.items) names.new.text.items ≡ names.old.text.items }
{
    one_fractions();
    for i in 0..matrix.rows() {
        let text = form_line(alloc, matrix.row(i))?;
        let number = names.number(text)?;
        write_count(number, out)?;
    }
    Ok(())
}

/// Appends the members in rising order, each behind a blank. Without memory some of them stand there.
fn write_members(set: ActiveSet, out: &mut Vec<u8>) -> Result<(), NoMemory>
    ensures text { OnOk result (out.new.items ≡ out.old.items ++ behind_blanks (map decimal set)) }
    ensures kept { take (length out.old.items) out.new.items ≡ out.old.items }
{
    for k in 1..set.size() + 1 {
        write_count(set.member(k).into(), out)?;
    }
    Ok(())
}

/// Appends the line of the law's set. Without memory some of it stands there.
fn write_set(set: ActiveSet, out: &mut Vec<u8>) -> Result<(), NoMemory>
    ensures text { OnOk result (out.new.items ≡ out.old.items ++ ended (line (codes "law") (map decimal set))) }
    ensures kept { take (length out.old.items) out.new.items ≡ out.old.items }
{
    write_piece(b"law", out)?;
    write_members(set, out)?;
    end_line(out)
}

/// Appends the lines of the law. Without memory some of them stand there.
fn write_law(alloc: Global, law: &Law, names: &mut Names, out: &mut Vec<u8>) -> Result<(), NoMemory>
    ensures numbered { OnOk result ((forms : List (List ℚ)) → AreForms (AreNames names.old) forms
        → IsLawNumbered forms law.now out.old.items out.new.items (AreNames names.new)) }
    ensures kept { take (length out.old.items) out.new.items ≡ out.old.items }
    ensures names_kept { take (length names.old.text.items) names.new.text.items ≡ names.old.text.items }
{
    write_set(law.set, out)?;
    write_piece(b"move", out)?;
    write_numbers(alloc, &law.moves, names, out)?;
    end_line(out)?;
    if law.mults.rows() == 0 {
        return Ok(());
    }
    write_piece(b"mult", out)?;
    write_numbers(alloc, &law.mults, names, out)?;
    end_line(out)
}

/// Appends the lines of the laws. Without memory some of them stand there.
pub fn write_laws(
    alloc: Global,
    laws: &LawTable,
    names: &mut Names,
    out: &mut Vec<u8>,
) -> Result<(), NoMemory>
    ensures numbered { OnOk result (AreForms (AreNames names.old) [] → AreLawsNumbered laws.now out.old.items out.new.items (AreNames names.new)) }
    ensures kept { take (length out.old.items) out.new.items ≡ out.old.items }
    ensures names_kept { take (length names.old.text.items) names.new.text.items ≡ names.old.text.items }
{
    for j in 0..laws.len() {
        write_law(alloc, laws.at(j), names, out)?;
    }
    Ok(())
}

/// Appends the lines of the different forms, and those of the laws that name them. Without memory some of
/// them stand there.
pub fn write_table(alloc: Global, laws: &LawTable, out: &mut Vec<u8>) -> Result<(), NoMemory>
    ensures written { OnOk result (IsTableWritten laws.now out.old.items out.new.items) }
    ensures kept { take (length out.old.items) out.new.items ≡ out.old.items }
{
    let mut names = Names::new(alloc);
    let mut text = Vec::new(alloc);
    write_laws(alloc, laws, &mut names, &mut text)?;
    write_count_line(b"forms", names.len() as u64, out)?;
    write_piece(names.text(), out)?;
    write_count_line(b"laws", laws.len() as u64, out)?;
    write_piece(text.as_slice(), out)
}
