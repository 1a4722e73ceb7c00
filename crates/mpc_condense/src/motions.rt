//! The states of a plant as combinations of columns.

ghost use Rattle.std.specs.Prelude.{◌+◌, ◌<◌, IfOk, IfErr, OnOk, MatchResult};
ghost use Rattle.mpc_condense.specs.Motion.{StateFits};
ghost use Rattle.mpc_condense.specs.Causes.{IfTooWide, IsCause, StatesFit};
ghost use Rattle.mpc_condense.specs.Stages.{IsMotion};
ghost use Rattle.mpc_condense.specs.MotionList.{AreMotions};

use crate::blocks::{add_to_row, images, write_columns};
use crate::errors::{CondenseError, StageError};
use mpc_frac::NoMemory;
use mpc_linear::Matrix;
use mpc_plant::Plant;
use mpc_rows::Place;
use std::alloc::Global;

/// The state at one step as the sum of columns: row j of `x` is the column of the extended count j, and row j of `z` that of entry j of the
/// moves.
#[derive(Drop)]
pub struct Motion {
    pub x: Matrix,
    pub z: Matrix,
}

/// The first state: the lows, and the steps on the diagonal behind them.
pub fn start(alloc: Global, plant: &Plant) -> Result<Motion, NoMemory>
    ensures { IfOk result (λ m. IsMotion plant.now 0 m.x m.z) }
{
    let mut from_counts = Matrix::zero(alloc, plant.n + 1, plant.n)?;
    let from_moves = Matrix::zero(alloc, plant.p * plant.horizon, plant.n)?;
    for column in 0..plant.n {
        let axis = plant.grid.at(column as usize);
        from_counts.set(0, column, axis.low);
        from_counts.set(column + 1, column, axis.step);
    }
    Ok(Motion {
        x: from_counts,
        z: from_moves,
    })
}

/// The state at the step behind this one, from that at this step.
pub fn advance(
    alloc: Global,
    plant: &Plant,
    motion: &Motion,
    step: u32,
) -> Result<Motion, StageError>
    requires motion { IsMotion plant.now step motion.now.x motion.now.z }
    requires step { step < plant.now.horizon }
    ensures next { IfOk result (λ m. IsMotion plant.now (step + 1) m.x m.z) }
    ensures wide { MatchResult result (λ _. StateFits plant.now step) (IfTooWide (¬ StateFits plant.now step)) }
{
    let first = plant.p * step;
    let mut from_counts = images(alloc, &plant.a, &motion.x, plant.n + 1)?;
    add_to_row(&mut from_counts, 0, plant.drift.as_slice())?;
    let mut from_moves = images(alloc, &plant.a, &motion.z, first)?;
    write_columns(&mut from_moves, first, &plant.b);
    Ok(Motion {
        x: from_counts,
        z: from_moves,
    })
}

/// The states at all steps, from the first to that at the horizon.
pub fn motions(alloc: Global, plant: &Plant) -> Result<Vec<Motion>, CondenseError>
    ensures all { IfOk result (λ v. AreMotions plant.now v.items (plant.now.horizon + 1)) }
    ensures fits { OnOk result (StatesFit plant.now plant.now.horizon) }
    ensures cause { IfErr result (IsCause plant.now) }
{
    let mut all = Vec::new(alloc);
    let first = start(alloc, plant)?;
    let Ok(()) = all.push(first) else {
        return Err(CondenseError::NoMemory);
    };
    for step in 0..plant.horizon {
        let next = match advance(alloc, plant, &all[step as usize], step) {
            Ok(next) => next,
            Err(StageError::TooWide) => return Err(CondenseError::Wide(Place::State(step + 1))),
            Err(StageError::OutOfMemory) => return Err(CondenseError::NoMemory),
        };
        let Ok(()) = all.push(next) else {
            return Err(CondenseError::NoMemory);
        };
    }
    Ok(all)
}
