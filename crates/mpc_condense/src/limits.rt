//! The rows of a plant as rows on the moves.

ghost use Rattle.std.specs.Prelude.{◌≡◌, ℕ, ◌+◌, ◌-◌, ◌*◌, ◌<◌, ◌≤◌, length, pos, IfOk, IfErr, OnOk, MatchResult};
ghost use Rattle.mpc_exact.specs.Rational.{int, ◌-ℚ◌, neg_ℚ};
ghost use Rattle.mpc_frac.specs.Fits.{FitsSum};
ghost use Rattle.mpc_linear.specs.Dot.{DotFits};
ghost use Rattle.mpc_space.specs.Vector.{coordinate, dot};
ghost use Rattle.mpc_space.specs.Matrix.{height, entry};
ghost use Rattle.mpc_condense.specs.Blocks.{row_at, WritesBlock, AllInBlock};
ghost use Rattle.mpc_condense.specs.Condensed.{stage_row};
ghost use Rattle.mpc_condense.specs.Motion.{bound_of, RowFits};
ghost use Rattle.mpc_condense.specs.MotionList.{AreMotions};
ghost use Rattle.mpc_condense.specs.Rows.{AddsRow, RowsDone};
ghost use Rattle.mpc_condense.specs.Stages.{IsMotion};
ghost use Rattle.mpc_condense.specs.Causes.{IsCause, StatesFit, CostsFit, RowsFit, row_count};

use crate::blocks::{dot_of, write_dots};
use crate::errors::CondenseError;
use crate::motions::Motion;
use mpc_frac::{Frac, NoMemory, Wide};
use mpc_linear::Matrix;
use mpc_plant::{Plant, PlantRow};
use mpc_rows::Place;
use std::alloc::Global;

/// The rows `g z <= w c`.
#[derive(Drop)]
pub struct Limits {
    pub g: Matrix,
    pub w: Matrix,
}

/// What a column of a row's right side starts from: the bound in the first, and 0 in the other columns.
fn bound(row: &PlantRow, column: u32) -> Frac
    ensures { result ≡ bound_of row.now column }
{
    if column == 0 { row.max } else { Frac::whole(0) }
}

/// Writes the right side of a row.
fn write_right(
    out: &mut Matrix,
    at_row: u32,
    row: &PlantRow,
    from_counts: &Matrix,
) -> Result<(), Wide>
    requires row { at_row < height out.old }
    requires columns { height from_counts.now ≤ out.old.columns }
    requires size { length row.now.x ≡ from_counts.now.columns }
    ensures ok { OnOk result (WritesBlock out.old out.new at_row (at_row + 1) 0 (height from_counts.now) (λ _ b. bound_of row.now b -ℚ dot (row_at from_counts.now b) row.now.x)) }
    ensures wide { MatchResult result (λ _. AllInBlock at_row (at_row + 1) 0 (height from_counts.now)
        (λ _ b. DotFits (row_at from_counts.now b) row.now.x × FitsSum (bound_of row.now b) (neg_ℚ (dot (row_at from_counts.now b) row.now.x))))
        (λ _. ¬ AllInBlock at_row (at_row + 1) 0 (height from_counts.now)
        (λ _ b. DotFits (row_at from_counts.now b) row.now.x × FitsSum (bound_of row.now b) (neg_ℚ (dot (row_at from_counts.now b) row.now.x)))) }
{
    let count = from_counts.rows();
    prove!(count <= out.cols());
    for column in 0..count {
        let product = dot_of(from_counts.row(column), row.x.as_slice())?;
        let value = bound(row, column).sub(&product)?;
        out.set(at_row, column, value);
    }
    Ok(())
}

/// Writes the coefficients of a row's own move, from column `first` on.
fn write_move(out: &mut Matrix, at_row: u32, first: u32, row: &PlantRow)
    requires row { at_row < height out.old }
    requires columns { first + length row.now.u ≤ out.old.columns }
    ensures { WritesBlock out.old out.new at_row (at_row + 1) first (first + length row.now.u) (λ _ b. coordinate row.now.u (b - first)) }
{
    let cols = out.cols();
    prove!(first <= cols);
    for place in 0..row.u.len() {
        out.set(at_row, first + place as u32, *row.u.at(place));
    }
}

/// Writes a row of the program, which is a row of the plant at a step.
fn write_row(
    limits: &mut Limits,
    at_row: u32,
    plant: &Plant,
    row: &PlantRow,
    motion: &Motion,
    step: u32,
) -> Result<(), Wide>
    requires motion { IsMotion plant.now step motion.now.x motion.now.z }
    requires step { step ≤ plant.now.horizon }
    requires g_row { at_row < height limits.old.g }
    requires w_row { at_row < height limits.old.w }
    requires g_columns { limits.old.g.columns ≡ plant.now.p * plant.now.horizon }
    requires w_columns { limits.old.w.columns ≡ plant.now.n + 1 }
    requires x_size { length row.now.x ≡ plant.now.n }
    requires u_size { length row.now.u ≤ plant.now.p }
    requires u_place { plant.now.p * step + length row.now.u ≤ plant.now.p * plant.now.horizon }
    requires empty { (j : ℕ) → entry limits.old.g at_row j ≡ int (pos 0) }
    ensures ok { OnOk result (AddsRow plant.now step row.now at_row limits.old.g limits.old.w limits.new.g limits.new.w) }
    ensures wide { MatchResult result (λ _. RowFits plant.now step row.now) (λ _. ¬ RowFits plant.now step row.now) }
{
    let first = plant.p * step;
    write_dots(&mut limits.g, at_row, &motion.z, first, row.x.as_slice())?;
    write_move(&mut limits.g, at_row, first, row);
    write_right(&mut limits.w, at_row, row, &motion.x)
}

/// Writes the stage rows of a step, which follow those of the steps before.
fn write_stage(
    limits: &mut Limits,
    plant: &Plant,
    motion: &Motion,
    step: u32,
) -> Result<(), CondenseError>
    requires motion { IsMotion plant.now step motion.now.x motion.now.z }
    requires step { step < plant.now.horizon }
    requires done { RowsDone plant.now limits.old.g limits.old.w (stage_row plant.now step 0) }
    requires states { StatesFit plant.now plant.now.horizon }
    requires costs { CostsFit plant.now (plant.now.horizon + 1) }
    requires rows { RowsFit plant.now (stage_row plant.now step 0) }
    ensures done { OnOk result (RowsDone plant.now limits.new.g limits.new.w (stage_row plant.now (step + 1) 0)) }
    ensures fits { OnOk result (RowsFit plant.now (stage_row plant.now (step + 1) 0)) }
    ensures cause { IfErr result (IsCause plant.now) }
{
    let count = plant.rows.len();
    for place in 0..count {
        let at_row = (step as usize * count + place) as u32;
        let Ok(()) = write_row(limits, at_row, plant, plant.rows.at(place), motion, step) else {
            return Err(CondenseError::Wide(Place::Row(at_row + 1)));
        };
    }
    Ok(())
}

/// Writes the terminal rows, which follow all stage rows.
fn write_end(limits: &mut Limits, plant: &Plant, motion: &Motion) -> Result<(), CondenseError>
    requires motion { IsMotion plant.now plant.now.horizon motion.now.x motion.now.z }
    requires done { RowsDone plant.now limits.old.g limits.old.w (stage_row plant.now plant.now.horizon 0) }
    requires states { StatesFit plant.now plant.now.horizon }
    requires costs { CostsFit plant.now (plant.now.horizon + 1) }
    requires rows { RowsFit plant.now (stage_row plant.now plant.now.horizon 0) }
    ensures done { OnOk result (RowsDone plant.now limits.new.g limits.new.w (row_count plant.now)) }
    ensures fits { OnOk result (RowsFit plant.now (row_count plant.now)) }
    ensures cause { IfErr result (IsCause plant.now) }
{
    let first = plant.horizon as usize * plant.rows.len();
    for place in 0..plant.terminal.len() {
        let at_row = (first + place) as u32;
        let Ok(()) = write_row(
            limits,
            at_row,
            plant,
            plant.terminal.at(place),
            motion,
            plant.horizon,
        ) else {
            return Err(CondenseError::Wide(Place::Row(at_row + 1)));
        };
    }
    Ok(())
}

/// No row yet, with room for all of them.
fn no_limits(alloc: Global, plant: &Plant) -> Result<Limits, NoMemory>
    ensures { IfOk result (λ l. RowsDone plant.now l.g l.w (stage_row plant.now 0 0)) }
{
    let count = plant.horizon as usize * plant.rows.len() + plant.terminal.len();
    let g = Matrix::zero(alloc, count as u32, plant.p * plant.horizon)?;
    let w = Matrix::zero(alloc, count as u32, plant.n + 1)?;
    Ok(Limits { g, w })
}

/// All rows, from the states at all steps: the stage rows step by step, then the terminal rows.
pub fn all_limits(alloc: Global, plant: &Plant, motions: &[Motion]) -> Result<Limits, CondenseError>
    requires motions { AreMotions plant.now motions.now (plant.now.horizon + 1) }
    requires states { StatesFit plant.now plant.now.horizon }
    requires costs { CostsFit plant.now (plant.now.horizon + 1) }
    ensures done { IfOk result (λ l. RowsDone plant.now l.g l.w (row_count plant.now)) }
    ensures fits { OnOk result (RowsFit plant.now (row_count plant.now)) }
    ensures cause { IfErr result (IsCause plant.now) }
{
    let mut limits = no_limits(alloc, plant)?;
    for step in 0..plant.horizon {
        write_stage(&mut limits, plant, &motions[step as usize], step)?;
    }
    write_end(&mut limits, plant, &motions[plant.horizon as usize])?;
    Ok(limits)
}
