//! The cost of a motion of a plant.

ghost use Rattle.std.specs.Prelude.{◌≡◌, IfOk, MatchResult, length};
ghost use Rattle.mpc_exact.specs.Rational.{◌+ℚ◌};
ghost use Rattle.mpc_frac.specs.Fits.{FitsSum};
ghost use Rattle.mpc_space.specs.Vector.{dot, vec_sub, mat_vec, quadratic};
ghost use Rattle.mpc_space.specs.Matrix.{height};
ghost use Rattle.mpc_linear.specs.Dot.{DotFits};
ghost use Rattle.mpc_linear.specs.Answers.{IfWide};
ghost use Rattle.mpc_plant.specs.Trajectory.{IsInBox, IsSequence, point_of, cost};
ghost use Rattle.mpc_plant.specs.CostWidth.{ImageFits, FormFits, GapFits, TargetFits, StageFits, StepsFit, IsFirstWideStep};

use crate::plants::Plant;
use crate::rolling::{dot_of, next_state, state_at_counts};
use mpc_frac::{Frac, Wide};
use mpc_linear::{LinearError, Matrix, Vector};
use std::alloc::Global;

/// The product of a matrix and a vector. `Wide` with this step where one of its dots is wide.
fn image(alloc: Global, matrix: &Matrix, vector: &[Frac], step: u32) -> Result<Vector, LinearError>
    requires { length vector.now ≡ matrix.now.columns }
    ensures value { IfOk result (λ y. y ≡ mat_vec matrix.now.rows vector.now) }
    ensures wide { MatchResult result (λ _. ImageFits matrix.now vector.now)
        (λ e. IfWide e (λ k. (k ≡ step) × (¬ ImageFits matrix.now vector.now))) }
{
    let mut entries = Vector::new(alloc);
    for i in 0..matrix.rows() {
        match dot_of(matrix.row(i), vector) {
            Ok(value) => entries.push(value)?,
            Err(_) => return Err(LinearError::Wide(step)),
        }
    }
    Ok(entries)
}

/// The sum with the dot of two slices.
fn add_dot(sum: &Frac, left: &[Frac], right: &[Frac]) -> Result<Frac, Wide>
    requires { length left.now ≡ length right.now }
    ensures value { IfOk result (λ s. s ≡ sum.now +ℚ dot left.now right.now) }
    ensures wide { MatchResult result (λ _. DotFits left.now right.now × FitsSum sum.now (dot left.now right.now))
        (λ _. ¬ (DotFits left.now right.now × FitsSum sum.now (dot left.now right.now))) }
{
    let product = dot_of(left, right)?;
    sum.add(&product)
}

/// The sum with the quadratic form of a matrix at a vector x, `x'(M x)`. `Wide` with this step where a number on the way is wide.
fn add_form(
    alloc: Global,
    sum: &Frac,
    matrix: &Matrix,
    vector: &[Frac],
    step: u32,
) -> Result<Frac, LinearError>
    requires columns { length vector.now ≡ matrix.now.columns }
    requires rows { length vector.now ≡ height matrix.now }
    ensures value { IfOk result (λ s. s ≡ sum.now +ℚ quadratic matrix.now.rows vector.now) }
    ensures wide { MatchResult result (λ _. FormFits sum.now matrix.now vector.now)
        (λ e. IfWide e (λ k. (k ≡ step) × (¬ FormFits sum.now matrix.now vector.now))) }
{
    let weighted = image(alloc, matrix, vector, step)?;
    match add_dot(sum, vector, weighted.as_slice()) {
        Ok(next) => Ok(next),
        Err(_) => Err(LinearError::Wide(step)),
    }
}

/// How far a vector is from a goal: the vector less the goal. `Wide` with this step where one of its entries is wide.
fn gap(alloc: Global, vector: &[Frac], goal: &Vector, step: u32) -> Result<Vector, LinearError>
    requires { length vector.now ≡ length goal.now }
    ensures value { IfOk result (λ d. d ≡ vec_sub vector.now goal.now) }
    ensures wide { MatchResult result (λ _. GapFits vector.now goal.now)
        (λ e. IfWide e (λ k. (k ≡ step) × (¬ GapFits vector.now goal.now))) }
{
    let mut entries = Vector::new(alloc);
    for i in 0..vector.len() {
        match vector[i].sub(goal.at(i)) {
            Ok(entry) => entries.push(entry)?,
            Err(_) => return Err(LinearError::Wide(step)),
        }
    }
    Ok(entries)
}

/// The sum with `d'(M d)`, where M is the matrix and d how far the vector is from the goal. `Wide` with this step where a number on the way
/// is wide.
fn add_target(
    alloc: Global,
    sum: &Frac,
    matrix: &Matrix,
    vector: &[Frac],
    goal: &Vector,
    step: u32,
) -> Result<Frac, LinearError>
    requires goal { length vector.now ≡ length goal.now }
    requires columns { length vector.now ≡ matrix.now.columns }
    requires rows { length vector.now ≡ height matrix.now }
    ensures value { IfOk result (λ s. s ≡ sum.now +ℚ quadratic matrix.now.rows (vec_sub vector.now goal.now)) }
    ensures wide { MatchResult result (λ _. TargetFits sum.now matrix.now vector.now goal.now)
        (λ e. IfWide e (λ k. (k ≡ step) × (¬ TargetFits sum.now matrix.now vector.now goal.now))) }
{
    let distance = gap(alloc, vector, goal, step)?;
    add_form(alloc, sum, matrix, distance.as_slice(), step)
}

/// The sum with the cost of a step before the end, `d'(Q d)` with d = x - xgoal and then `e'(R e)` with e = u - ugoal.
fn add_stage(
    alloc: Global,
    sum: &Frac,
    plant: &Plant,
    state: &[Frac],
    input: &[Frac],
    step: u32,
) -> Result<Frac, LinearError>
    requires state { length state.now ≡ plant.now.n }
    requires inputs { length input.now ≡ plant.now.p }
    ensures value { IfOk result
        (λ s. s ≡ (sum.now +ℚ quadratic plant.now.q.rows (vec_sub state.now plant.now.xgoal))
        +ℚ quadratic plant.now.r.rows (vec_sub input.now plant.now.ugoal)) }
    ensures wide { MatchResult result (λ _. StageFits plant.now sum.now state.now input.now)
        (λ e. IfWide e (λ k. (k ≡ step) × (¬ StageFits plant.now sum.now state.now input.now))) }
{
    let with_state = add_target(alloc, sum, &plant.q, state, &plant.xgoal, step)?;
    add_target(alloc, &with_state, &plant.r, input, &plant.ugoal, step)
}

/// The cost of the moves from the counts on: `d'Q d + e'R e` summed over the N steps, plus `d'P d` at the end, where d is the state's
/// distance `x - xgoal` from its target and e the move's distance `u - ugoal`.
///
/// There are n counts inside the box, and N rows of p moves. At each step comes the state first, and then the cost, with the differences
/// before the products: `Wide` with the first step, from 0, the end being step N, at which one of them needs a number of more than 128
/// bits.
pub fn cost(
    alloc: Global,
    plant: &Plant,
    counts: &[u64],
    moves: &Matrix,
) -> Result<Frac, LinearError>
    requires inside { IsInBox plant.now (point_of counts.now) }
    requires moves { IsSequence plant.now moves.now.rows }
    ensures value { IfOk result (λ sum. sum ≡ cost plant.now (point_of counts.now) moves.now.rows) }
    ensures wide { MatchResult result (λ _. StepsFit plant.now (point_of counts.now) moves.now.rows)
        (λ e. IfWide e (IsFirstWideStep plant.now (point_of counts.now) moves.now.rows)) }
{
    let mut state = state_at_counts(alloc, plant, counts)?;
    let mut sum = Frac::whole(0);
    for step in 0..plant.horizon {
        let current = state.as_slice();
        let input = moves.row(step);
        sum = add_stage(alloc, &sum, plant, current, input, step)?;
        state = next_state(alloc, plant, current, input, step + 1)?;
    }
    let end = state.as_slice();
    add_target(alloc, &sum, &plant.last, end, &plant.xgoal, plant.horizon)
}
