//! The point behind one step as affine forms of the point before it.

ghost use Rattle.std.specs.Prelude.{◌≡◌, ◌+◌, ◌<◌, [], IfOk, MatchResult, slice_index_or};
ghost use Rattle.mpc_exact.specs.Rational.{◌+ℚ◌};
ghost use Rattle.mpc_space.specs.Vector.{coordinate, column, dot};
ghost use Rattle.mpc_linear.specs.Dot.{DotFits, SumFits};
ghost use Rattle.mpc_controller.specs.Parts.{IsLawFor};
ghost use Rattle.mpc_recur.specs.Forms.{state_forms, shifted, next_coefficient, next_form, next_forms, ShiftFits, CoefficientFits, FormFits, FormsFit};
ghost use Rattle.mpc_recur.specs.Stages.{IfTooWide};

use crate::answers::StageError;
use mpc_frac::{Frac, NoMemory, Wide};
use mpc_linear::{Vector, add_product, sum_theorems};
use mpc_plant::Plant;
use mpc_rows::Law;
use std::alloc::Global;

/// The coefficient of a coordinate of the state, by its index from 0, on the extended count of a term.
fn state_coefficient(plant: &Plant, index: u32, term: u32) -> Frac
    requires coordinate { index < plant.now.n }
    requires column { term < plant.now.n + 1 }
    ensures { result ≡ coordinate (column (state_forms plant.now) term) index }
{
    let axis = plant.grid.at(index as usize);
    if term == 0 {
        axis.low
    } else if term == index + 1 {
        axis.step
    } else {
        Frac::whole(0)
    }
}

/// The coefficient of a coordinate of `A x` on the extended count of a term.
fn from_state(plant: &Plant, index: u32, term: u32) -> Result<Frac, Wide>
    requires coordinate { index < plant.now.n }
    requires column { term < plant.now.n + 1 }
    ensures value { IfOk result (λ x. x ≡ dot (slice_index_or plant.now.a.rows index []) (column (state_forms plant.now) term)) }
    ensures wide { MatchResult result
        (λ _. DotFits (slice_index_or plant.now.a.rows index []) (column (state_forms plant.now) term))
        (λ _. ¬ DotFits (slice_index_or plant.now.a.rows index []) (column (state_forms plant.now) term)) }
{
    sum_theorems();
    let mut sum = Frac::whole(0);
    for source in 0..plant.n {
        match add_product(
            &sum,
            &plant.a.get(index, source),
            &state_coefficient(plant, source, term),
        ) {
            Ok(next) => sum = next,
            Err(wide) => return Err(wide),
        }
    }
    Ok(sum)
}

/// The start, and the coefficient of a coordinate of `B u` on the extended count of a term added to it.
fn with_moves(plant: &Plant, law: &Law, index: u32, term: u32, start: &Frac) -> Result<Frac, Wide>
    requires law { IsLawFor plant.now law.now }
    requires coordinate { index < plant.now.n }
    requires column { term < plant.now.n + 1 }
    ensures value { IfOk result (λ x. x ≡ start.now +ℚ dot (slice_index_or plant.now.b.rows index []) (column law.now.moves.rows term)) }
    ensures wide { MatchResult result
        (λ _. SumFits start.now (slice_index_or plant.now.b.rows index []) (column law.now.moves.rows term))
        (λ _. ¬ SumFits start.now (slice_index_or plant.now.b.rows index []) (column law.now.moves.rows term)) }
{
    sum_theorems();
    let mut sum = *start;
    for q in 0..plant.p {
        match add_product(&sum, &plant.b.get(index, q), &law.moves.get(q, term)) {
            Ok(next) => sum = next,
            Err(wide) => return Err(wide),
        }
    }
    Ok(sum)
}

/// The first coefficient of a coordinate, with the drift and without the low.
fn origin(plant: &Plant, index: u32, sum: &Frac) -> Result<Frac, Wide>
    requires { index < plant.now.n }
    ensures value { IfOk result (λ x. x ≡ shifted plant.now index sum.now) }
    ensures wide { MatchResult result (λ _. ShiftFits plant.now index sum.now) (λ _. ¬ ShiftFits plant.now index sum.now) }
{
    match sum.add(plant.drift.at(index as usize)) {
        Ok(drifted) => drifted.sub(&plant.grid.at(index as usize).low),
        Err(wide) => Err(wide),
    }
}

/// The coefficient of a coordinate of the point behind one step on the extended count of a term.
fn next_coefficient(plant: &Plant, law: &Law, index: u32, term: u32) -> Result<Frac, Wide>
    requires law { IsLawFor plant.now law.now }
    requires coordinate { index < plant.now.n }
    requires column { term < plant.now.n + 1 }
    ensures value { IfOk result (λ x. x ≡ next_coefficient plant.now law.now index term) }
    ensures wide { MatchResult result (λ _. CoefficientFits plant.now law.now index term)
        (λ _. ¬ CoefficientFits plant.now law.now index term) }
{
    let state = from_state(plant, index, term)?;
    let moved = with_moves(plant, law, index, term, &state)?;
    let axis = plant.grid.at(index as usize);
    if term > 0 {
        return moved.div(&axis.step);
    }
    let placed = origin(plant, index, &moved)?;
    placed.div(&axis.step)
}

/// A coordinate of the point behind one step under the law's first move.
fn next_form(alloc: Global, plant: &Plant, law: &Law, index: u32) -> Result<Vector, StageError>
    requires law { IsLawFor plant.now law.now }
    requires coordinate { index < plant.now.n }
    ensures value { IfOk result (λ v. v ≡ next_form plant.now law.now index) }
    ensures wide { MatchResult result (λ _. FormFits plant.now law.now index)
        (IfTooWide (¬ FormFits plant.now law.now index)) }
{
    let mut form = Vector::new(alloc);
    for term in 0..plant.n + 1 {
        match next_coefficient(plant, law, index, term) {
            Ok(x) => form.push(x)?,
            Err(_) => return Err(StageError::TooWide),
        }
    }
    Ok(form)
}

/// The coordinates of the point behind one step under the law's first move, each as an affine form of the extended counts.
pub fn next_forms(alloc: Global, plant: &Plant, law: &Law) -> Result<Vec<Vector>, StageError>
    requires { IsLawFor plant.now law.now }
    ensures value { IfOk result (λ forms. forms.items ≡ next_forms plant.now law.now) }
    ensures wide { MatchResult result (λ _. FormsFit plant.now law.now)
        (IfTooWide (¬ FormsFit plant.now law.now)) }
{
    let mut forms = Vec::new(alloc);
    for index in 0..plant.n {
        match next_form(alloc, plant, law, index) {
            Ok(form) => forms.push(form).map_err(|_| NoMemory)?,
            Err(error) => return Err(error),
        }
    }
    Ok(forms)
}
