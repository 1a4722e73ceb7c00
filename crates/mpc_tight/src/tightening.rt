//! The rows of a program, one after another, with what disturbances can add taken away from their right sides.

ghost use Rattle.std.specs.Prelude.{◌≡◌, ◌+◌, ◌<◌, length, IfOk, IfErr, OnOk, MatchResult};
ghost use Rattle.mpc_exact.specs.Rational.{◌+ℚ◌, ◌-ℚ◌};
ghost use Rattle.mpc_linear.specs.Shape.{HasShape};
ghost use Rattle.mpc_space.specs.Vector.{dot};
ghost use Rattle.mpc_condense.specs.Condensed.{stage_row};
ghost use Rattle.mpc_condense.specs.Causes.{row_count};
ghost use Rattle.mpc_tight.specs.Disturbed.{sizes};
ghost use Rattle.mpc_tight.specs.Tightening.{tightening, AddedFits, TighteningFits, RowFits, RowsFit, IfTooWide, IsCause};
ghost use Rattle.mpc_tight.specs.Tightened.{RowsTightened};

use crate::errors::{StepError, TightError};
use crate::vectors::{most_added, times};
use mpc_frac::{Frac, Wide};
use mpc_linear::{Matrix, Vector};
use mpc_plant::{Plant, PlantRow};
use std::alloc::Global;

/// The sum with the effect of one more step: of the disturbance whose row is `carried`.
fn add_effect(sum: &Frac, carried: &Vector, noise: &Vector) -> Result<Frac, Wide>
    requires { length carried.now ≡ length noise.now }
    ensures value { IfOk result (λ v. v ≡ sum.now +ℚ dot (sizes carried.now) noise.now) }
    ensures wide { MatchResult result (λ _. AddedFits sum.now carried.now noise.now)
        (λ _. ¬ AddedFits sum.now carried.now noise.now) }
{
    match most_added(carried, noise) {
        Ok(most) => sum.add(&most),
        Err(wide) => Err(wide),
    }
}

/// The most that the disturbances of the steps before this one add to the row's dot with the state at this step.
fn tightening_of(
    alloc: Global,
    plant: &Plant,
    noise: &Vector,
    row: &Vector,
    step: u32,
) -> Result<Frac, StepError>
    requires size { length row.now ≡ plant.now.n }
    requires noise { length noise.now ≡ plant.now.n }
    ensures value { IfOk result (λ v. v ≡ tightening plant.now noise.now row.now step) }
    ensures wide { MatchResult result (λ _. TighteningFits plant.now noise.now row.now step)
        (IfTooWide (¬ TighteningFits plant.now noise.now row.now step)) }
{
    let mut sum = Frac::whole(0);
    if step == 0 {
        return Ok(sum);
    }
    let mut carried = Vector::from_slice(alloc, row.as_slice())?;
    for earlier in 0..step - 1 {
        sum = add_effect(&sum, &carried, noise)?;
        carried = times(alloc, &carried, &plant.a)?;
    }
    let whole = add_effect(&sum, &carried, noise)?;
    Ok(whole)
}

/// What is left of the right side of a row of the plant at a step.
fn side_left(
    alloc: Global,
    plant: &Plant,
    noise: &Vector,
    row: &PlantRow,
    step: u32,
    side: &Frac,
) -> Result<Frac, StepError>
    requires size { length row.now.x ≡ plant.now.n }
    requires noise { length noise.now ≡ plant.now.n }
    ensures value { IfOk result (λ v. v ≡ side.now -ℚ tightening plant.now noise.now row.now.x step) }
    ensures wide { MatchResult result (λ _. RowFits plant.now noise.now side.now row.now.x step)
        (IfTooWide (¬ RowFits plant.now noise.now side.now row.now.x step)) }
{
    let most = match tightening_of(alloc, plant, noise, &row.x, step) {
        Ok(most) => most,
        Err(error) => return Err(error),
    };
    let rest = side.sub(&most)?;
    Ok(rest)
}

/// Tightens the stage rows of a step, which follow those of the steps before.
fn tighten_stage(
    alloc: Global,
    plant: &Plant,
    noise: &Vector,
    old: &Matrix,
    sides: &mut Matrix,
    step: u32,
) -> Result<(), TightError>
    requires noise { length noise.now ≡ plant.now.n }
    requires step { step < plant.now.horizon }
    requires shape { HasShape old.now (row_count plant.now) (plant.now.n + 1) }
    requires done { RowsTightened plant.now noise.now old.now sides.old (stage_row plant.now step 0) }
    requires fits { RowsFit plant.now noise.now old.now (stage_row plant.now step 0) }
    ensures done { OnOk result (RowsTightened plant.now noise.now old.now sides.new (stage_row plant.now (step + 1) 0)) }
    ensures fits { OnOk result (RowsFit plant.now noise.now old.now (stage_row plant.now (step + 1) 0)) }
    ensures cause { IfErr result (IsCause plant.now noise.now old.now) }
{
    let count = plant.rows.len();
    for place in 0..count {
        let at_row = (step as usize * count + place) as u32;
        let side = old.get(at_row, 0);
        match side_left(alloc, plant, noise, plant.rows.at(place), step, &side) {
            Ok(rest) => sides.set(at_row, 0, rest),
            Err(StepError::TooWide) => return Err(TightError::Wide(at_row + 1)),
            Err(StepError::OutOfMemory) => return Err(TightError::NoMemory),
        }
    }
    Ok(())
}

/// Tightens the terminal rows, which follow all stage rows.
fn tighten_end(
    alloc: Global,
    plant: &Plant,
    noise: &Vector,
    old: &Matrix,
    sides: &mut Matrix,
) -> Result<(), TightError>
    requires noise { length noise.now ≡ plant.now.n }
    requires shape { HasShape old.now (row_count plant.now) (plant.now.n + 1) }
    requires done { RowsTightened plant.now noise.now old.now sides.old (stage_row plant.now plant.now.horizon 0) }
    requires fits { RowsFit plant.now noise.now old.now (stage_row plant.now plant.now.horizon 0) }
    ensures done { OnOk result (RowsTightened plant.now noise.now old.now sides.new (row_count plant.now)) }
    ensures fits { OnOk result (RowsFit plant.now noise.now old.now (row_count plant.now)) }
    ensures cause { IfErr result (IsCause plant.now noise.now old.now) }
{
    let first = plant.horizon as usize * plant.rows.len();
    let step = plant.horizon;
    for place in 0..plant.terminal.len() {
        let at_row = (first + place) as u32;
        let side = old.get(at_row, 0);
        match side_left(alloc, plant, noise, plant.terminal.at(place), step, &side) {
            Ok(rest) => sides.set(at_row, 0, rest),
            Err(StepError::TooWide) => return Err(TightError::Wide(at_row + 1)),
            Err(StepError::OutOfMemory) => return Err(TightError::NoMemory),
        }
    }
    Ok(())
}

/// The right sides of all rows, tightened: the stage rows step by step, then the terminal rows.
pub(crate) fn tightened(
    alloc: Global,
    plant: &Plant,
    noise: &Vector,
    old: &Matrix,
) -> Result<Matrix, TightError>
    requires noise { length noise.now ≡ plant.now.n }
    requires shape { HasShape old.now (row_count plant.now) (plant.now.n + 1) }
    ensures done { IfOk result (λ w. RowsTightened plant.now noise.now old.now w (row_count plant.now)) }
    ensures fits { OnOk result (RowsFit plant.now noise.now old.now (row_count plant.now)) }
    ensures cause { IfErr result (IsCause plant.now noise.now old.now) }
{
    let mut sides = old.copy(alloc)?;
    for step in 0..plant.horizon {
        tighten_stage(alloc, plant, noise, old, &mut sides, step)?;
    }
    tighten_end(alloc, plant, noise, old, &mut sides)?;
    Ok(sides)
}
