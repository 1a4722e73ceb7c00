//! The first moves of laws as affine forms in whole numbers, and their values as text.

ghost use Rattle.std.specs.Prelude.{◌≡◌, ◌+◌, ◌≤◌, ◌∷◌, ◌++◌, All, length, map, take, IfOk, OnOk, OnErr, MatchBool};
ghost use Rattle.std.specs.List.{join_with_byte};
ghost use Rattle.mpc_frac.specs.Text.{text_of};
ghost use Rattle.mpc_space.specs.Matrix.{height};
ghost use Rattle.mpc_controller.specs.Bounds.{FormFits, InputsFit, LawFits};
ghost use Rattle.mpc_controller.specs.Parts.{limits_of, IsLawFor};
ghost use Rattle.mpc_table.specs.Places.{ArePlaces, IsKept};
ghost use Rattle.mpc_table.specs.Forms.{IsBounded, IsFormOf, affine_values};
ghost use Rattle.mpc_table.specs.SharedForms.{form_line, forms_at, AreBelow, AreFormPlaces, AreLawPlaces};

use crate::places::{Places, line_of};
use crate::values::value_at;
use mpc_frac::{Frac, NoMemory};
use mpc_linear::{IntAffine, LinearError, Seq, Vector, common};
use mpc_plant::Plant;
use mpc_rows::{Law, LawTable};
use std::alloc::Global;

/// The places of a law's forms.
pub type FormPlaces = Seq<usize>;

/// The forms of laws' first moves, and for each law the places of its forms: equal forms are kept once.
#[derive(Drop)]
pub struct LawForms {
    pub forms: Vec<IntAffine>,
    pub laws: Vec<FormPlaces>,
}

/// The affine form with these coefficients, the constant first, over its least common denominator.
pub fn whole_form(alloc: Global, row: &[Frac], counts: &[u64]) -> Result<IntAffine, NoMemory>
    requires size { length row.now ≡ length counts.now + 1 }
    requires fits { FormFits counts.now row.now }
    ensures value { IfOk result (IsFormOf row.now) }
    ensures bounded { IfOk result (IsBounded counts.now) }
{
    let coefficients = Vector::from_slice(alloc, row)?;
    match common(alloc, &coefficients) {
        Ok(form) => Ok(form),
        Err(LinearError::Wide(_)) => unreachable!(),
        Err(LinearError::NoMemory) => Err(NoMemory),
    }
}

/// The place of the form among the forms, behind which it is put where it is new. Without memory the forms
/// stay as they were, and the places are given up: they may hold the line of a form that isn't there.
fn keep_form(
    alloc: Global,
    form: IntAffine,
    forms: &mut Vec<IntAffine>,
    lines: &mut Places,
) -> Result<usize, NoMemory>
    requires { ArePlaces lines.old (map form_line forms.old.items) }
    ensures place { IfOk result (IsKept form_line form forms.old.items forms.new.items lines.new) }
    ensures err { OnErr result (forms.new.items ≡ forms.old.items) }
    ensures kept { take (length forms.old.items) forms.new.items ≡ forms.old.items }
{
    let line = line_of(alloc, &form.den, form.k.as_slice())?;
    let place = lines.place(line)?;
    if place < forms.len() {
        return Ok(place);
    }
    forms.push(form)?;
    Ok(place)
}

/// The places of the forms of the law's first rows, which are kept with the other forms. Without memory some
/// of them stand behind the others, and the places of lines are given up.
fn forms_of(
    alloc: Global,
    law: &Law,
    inputs: u32,
    counts: &[u64],
    forms: &mut Vec<IntAffine>,
    lines: &mut Places,
) -> Result<FormPlaces, NoMemory>
    requires inputs { inputs ≤ height law.now.moves }
    requires columns { law.now.moves.columns ≡ length counts.now + 1 }
    requires fits { InputsFit counts.now law.now inputs }
    requires kept { ArePlaces lines.old (map form_line forms.old.items) }
    ensures places { IfOk result (AreFormPlaces counts.now (take inputs law.now.moves.rows) inputs
        forms.old.items forms.new.items lines.new) }
    ensures forms_kept { take (length forms.old.items) forms.new.items ≡ forms.old.items }
{
    prove!(law.moves.cols() as usize == counts.len() + 1);
    let mut places = FormPlaces::new(alloc);
    for i in 0..inputs {
        let form = whole_form(alloc, law.moves.row(i), counts)?;
        let place = keep_form(alloc, form, forms, lines)?;
        places.push(place)?;
    }
    Ok(places)
}

/// The forms of each law's first move.
pub fn law_forms(
    alloc: Global,
    plant: &Plant,
    laws: &LawTable,
    counts: &[u64],
) -> Result<LawForms, NoMemory>
    requires counts { counts.now ≡ limits_of plant.now }
    requires shapes { All (IsLawFor plant.now) laws.now }
    requires fits { All (LawFits plant.now) laws.now }
    ensures { IfOk result (λ all. AreLawPlaces counts.now plant.now.p laws.now all.forms.items all.laws.items) }
{
    let mut forms = Vec::new(alloc);
    let mut lines = Places::new(alloc);
    let mut all = Vec::new(alloc);
    for j in 0..laws.len() {
        let places = forms_of(alloc, laws.at(j), plant.p, counts, &mut forms, &mut lines)?;
        all.push(places).map_err(|_| NoMemory)?;
    }
    Ok(LawForms { forms, laws: all })
}

/// Appends the fraction's text, behind a blank unless it is the first. Without memory `out` stays as it
/// was.
fn write_next(value: &Frac, first: bool, out: &mut Vec<u8>) -> Result<(), NoMemory>
    ensures ok { OnOk result (MatchBool first (out.new.items ≡ out.old.items ++ text_of value.now)
        (out.new.items ≡ out.old.items ++ 32 ∷ text_of value.now)) }
    ensures err { OnErr result (out.new.items ≡ out.old.items) }
{
    if first {
        return value.write(out);
    }
    let start = out.len();
    out.push(b' ').map_err(|_| NoMemory)?;
    let Ok(()) = value.write(out) else {
        out.truncate(start);
        return Err(NoMemory);
    };
    Ok(())
}

/// Appends the values of the forms at these places at the counts, with one blank between two. Without
/// memory `out` stays as it was.
pub fn write_values(
    forms: &[IntAffine],
    places: &[usize],
    counts: &[u64],
    out: &mut Vec<u8>,
) -> Result<(), NoMemory>
    requires below { AreBelow (length forms.now) places.now }
    requires bounded { All (IsBounded counts.now) (forms_at forms.now places.now) }
    ensures ok { OnOk result (out.new.items ≡ out.old.items
        ++ join_with_byte 32 (map text_of (affine_values (forms_at forms.now places.now) counts.now))) }
    ensures err { OnErr result (out.new.items ≡ out.old.items) }
{
    let start = out.len();
    for i in 0..places.len() {
        let form = &forms[places[i]];
        let Ok(()) = write_next(&value_at(form, counts), i == 0, out) else {
            out.truncate(start);
            return Err(NoMemory);
        };
    }
    Ok(())
}
