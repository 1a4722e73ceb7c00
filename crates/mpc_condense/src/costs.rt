//! The cost of a plant as a form in the extended counts and the moves.

ghost use Rattle.std.specs.Prelude.{◌≡◌, ◌+◌, ◌<◌, ◌≤◌, IfOk, IfErr, OnOk, MatchResult};
ghost use Rattle.mpc_condense.specs.Motion.{weight_at, kernel, kernel_with, DistanceFits, WeightsFit, SumsFit, GoalFits, MovesFit};
ghost use Rattle.mpc_condense.specs.Stages.{IsMotion, IsDistance, IsWeighted, IsGoal, HoldsSums};
ghost use Rattle.mpc_condense.specs.MotionList.{AreMotions};
ghost use Rattle.mpc_condense.specs.Causes.{IfTooWide, IsCause, StatesFit, CostsFit};

use crate::blocks::{
    add_block, add_products, add_to_first, dot_of, images, take_from_column, take_from_row,
    write_dots,
};
use crate::errors::{CondenseError, StageError};
use crate::motions::Motion;
use mpc_frac::{Frac, NoMemory, Wide};
use mpc_linear::Matrix;
use mpc_plant::Plant;
use mpc_rows::Place;
use std::alloc::Global;

/// The matrices of the cost `z'h z + 2 z'f c + c'y c`, as far as it is summed.
#[derive(Drop)]
pub struct Cost {
    pub h: Matrix,
    pub f: Matrix,
    pub y: Matrix,
}

/// The target of the moves: R times it, as the only row of a matrix, and its dot with that.
#[derive(Drop)]
struct Goal {
    weighted: Matrix,
    square: Frac,
}

/// The cost of no step.
fn no_cost(alloc: Global, plant: &Plant) -> Result<Cost, NoMemory>
    ensures { IfOk result (λ c. HoldsSums plant.now (kernel plant.now 0) c.h c.f c.y) }
{
    let unknowns = plant.p * plant.horizon;
    let hessian = Matrix::zero(alloc, unknowns, unknowns)?;
    let linear = Matrix::zero(alloc, unknowns, plant.n + 1)?;
    let constant = Matrix::zero(alloc, plant.n + 1, plant.n + 1)?;
    Ok(Cost {
        h: hessian,
        f: linear,
        y: constant,
    })
}

/// R times the target of the moves.
fn weigh_goal(alloc: Global, plant: &Plant) -> Result<Goal, StageError>
    ensures goal { IfOk result (λ g. IsGoal plant.now g.weighted g.square) }
    ensures wide { MatchResult result (λ _. GoalFits plant.now) (IfTooWide (¬ GoalFits plant.now)) }
{
    let target = plant.ugoal.as_slice();
    let mut weighted = Matrix::zero(alloc, 1, plant.p)?;
    write_dots(&mut weighted, 0, &plant.r, plant.p, target)?;
    let square = dot_of(target, weighted.row(0))?;
    Ok(Goal { weighted, square })
}

/// The columns of the state's distance from its target, from those of the state at a step.
fn distance_of(
    alloc: Global,
    plant: &Plant,
    motion: &Motion,
    step: u32,
) -> Result<Motion, StageError>
    requires motion { IsMotion plant.now step motion.now.x motion.now.z }
    ensures distance { IfOk result (λ d. IsDistance plant.now step d.x d.z) }
    ensures wide { MatchResult result (λ _. DistanceFits plant.now step) (IfTooWide (¬ DistanceFits plant.now step)) }
{
    let mut from_counts = motion.x.copy(alloc)?;
    take_from_row(&mut from_counts, 0, plant.xgoal.as_slice())?;
    let from_moves = motion.z.copy(alloc)?;
    Ok(Motion {
        x: from_counts,
        z: from_moves,
    })
}

/// The weight of the state at a step.
fn weight_of(plant: &Plant, step: u32) -> &Matrix
    ensures { result.now ≡ weight_at plant.now step }
{
    if step < plant.horizon {
        &plant.q
    } else {
        &plant.last
    }
}

/// The weight times the columns of the state's distance at a step.
fn weigh(alloc: Global, plant: &Plant, distance: &Motion, step: u32) -> Result<Motion, StageError>
    requires distance { IsDistance plant.now step distance.now.x distance.now.z }
    requires step { step ≤ plant.now.horizon }
    ensures weighted { IfOk result (λ m. IsWeighted plant.now step m.x m.z) }
    ensures wide { MatchResult result (λ _. WeightsFit plant.now step) (IfTooWide (¬ WeightsFit plant.now step)) }
{
    let weight = weight_of(plant, step);
    let from_counts = images(alloc, weight, &distance.x, plant.n + 1)?;
    let from_moves = images(alloc, weight, &distance.z, plant.p * step)?;
    Ok(Motion {
        x: from_counts,
        z: from_moves,
    })
}

/// Adds the cost of the state at a step.
fn add_state(
    cost: &mut Cost,
    plant: &Plant,
    distance: &Motion,
    weighted: &Motion,
    step: u32,
) -> Result<(), Wide>
    requires distance { IsDistance plant.now step distance.now.x distance.now.z }
    requires weighted { IsWeighted plant.now step weighted.now.x weighted.now.z }
    requires step { step ≤ plant.now.horizon }
    requires sums { HoldsSums plant.now (kernel plant.now step) cost.old.h cost.old.f cost.old.y }
    ensures ok { OnOk result (HoldsSums plant.now (kernel_with plant.now step) cost.new.h cost.new.f cost.new.y) }
    ensures wide { MatchResult result (λ _. SumsFit plant.now step) (λ _. ¬ SumsFit plant.now step) }
{
    let first = plant.p * step;
    add_products(&mut cost.h, &distance.z, first, &weighted.z, first)?;
    add_products(&mut cost.f, &distance.z, first, &weighted.x, plant.n + 1)?;
    add_products(
        &mut cost.y,
        &distance.x,
        plant.n + 1,
        &weighted.x,
        plant.n + 1,
    )
}

/// Adds the cost of the move at a step.
fn add_move(cost: &mut Cost, plant: &Plant, goal: &Goal, step: u32) -> Result<(), Wide>
    requires step { step < plant.now.horizon }
    requires goal { IsGoal plant.now goal.now.weighted goal.now.square }
    requires sums { HoldsSums plant.now (kernel_with plant.now step) cost.old.h cost.old.f cost.old.y }
    ensures ok { OnOk result (HoldsSums plant.now (kernel plant.now (step + 1)) cost.new.h cost.new.f cost.new.y) }
    ensures wide { MatchResult result (λ _. MovesFit plant.now step) (λ _. ¬ MovesFit plant.now step) }
{
    let first = plant.p * step;
    add_block(&mut cost.h, first, &plant.r)?;
    take_from_column(&mut cost.f, first, goal.weighted.row(0))?;
    add_to_first(&mut cost.y, &goal.square)
}

/// Adds the cost of the state at a step, from its columns.
fn add_stage(
    alloc: Global,
    cost: &mut Cost,
    plant: &Plant,
    motion: &Motion,
    step: u32,
) -> Result<(), StageError>
    requires motion { IsMotion plant.now step motion.now.x motion.now.z }
    requires step { step ≤ plant.now.horizon }
    requires sums { HoldsSums plant.now (kernel plant.now step) cost.old.h cost.old.f cost.old.y }
    ensures ok { OnOk result (HoldsSums plant.now (kernel_with plant.now step) cost.new.h cost.new.f cost.new.y) }
    ensures wide { MatchResult result (λ _. DistanceFits plant.now step × WeightsFit plant.now step × SumsFit plant.now step)
        (IfTooWide (¬ (DistanceFits plant.now step × WeightsFit plant.now step × SumsFit plant.now step))) }
{
    let distance = distance_of(alloc, plant, motion, step)?;
    let weighted = weigh(alloc, plant, &distance, step)?;
    add_state(cost, plant, &distance, &weighted, step)?;
    Ok(())
}

/// The cost over all steps, from the states at them.
pub fn costs(alloc: Global, plant: &Plant, motions: &[Motion]) -> Result<Cost, CondenseError>
    requires motions { AreMotions plant.now motions.now (plant.now.horizon + 1) }
    requires states { StatesFit plant.now plant.now.horizon }
    ensures sums { IfOk result (λ c. HoldsSums plant.now (kernel_with plant.now plant.now.horizon) c.h c.f c.y) }
    ensures fits { OnOk result (CostsFit plant.now (plant.now.horizon + 1)) }
    ensures cause { IfErr result (IsCause plant.now) }
{
    let mut cost = no_cost(alloc, plant)?;
    let goal = match weigh_goal(alloc, plant) {
        Ok(goal) => goal,
        Err(StageError::TooWide) => return Err(CondenseError::Wide(Place::Cost(0))),
        Err(StageError::OutOfMemory) => return Err(CondenseError::NoMemory),
    };
    for step in 0..plant.horizon {
        match add_stage(alloc, &mut cost, plant, &motions[step as usize], step) {
            Ok(()) => {}
            Err(StageError::TooWide) => return Err(CondenseError::Wide(Place::Cost(step))),
            Err(StageError::OutOfMemory) => return Err(CondenseError::NoMemory),
        }
        let Ok(()) = add_move(&mut cost, plant, &goal, step) else {
            return Err(CondenseError::Wide(Place::Cost(step)));
        };
    }
    let last = plant.horizon;
    match add_stage(alloc, &mut cost, plant, &motions[last as usize], last) {
        Ok(()) => Ok(cost),
        Err(StageError::TooWide) => Err(CondenseError::Wide(Place::Cost(last))),
        Err(StageError::OutOfMemory) => Err(CondenseError::NoMemory),
    }
}
