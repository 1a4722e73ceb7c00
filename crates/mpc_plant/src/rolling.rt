//! The motion of a plant from a state of its grid.

ghost use Rattle.std.specs.Prelude.{◌≡◌, ◌<◌, ◌≤◌, IfOk, MatchResult, length, pos};
ghost use Rattle.mpc_exact.specs.Rational.{int, ◌+ℚ◌, ◌*ℚ◌};
ghost use Rattle.mpc_space.specs.Vector.{dot};
ghost use Rattle.mpc_linear.specs.Dot.{TermFits, DotFits};
ghost use Rattle.mpc_linear.specs.Answers.{IfWide};
ghost use Rattle.mpc_plant.specs.Limits.{greatest_count};
ghost use Rattle.mpc_plant.specs.Trajectory.{IsInBox, IsSequence, point_of, state_of, rolled};
ghost use Rattle.mpc_plant.specs.RollWidth.{AxesFit, next_of, next_entry, EntryFits, NextFits, StatesFit, IsFirstWideState};

use crate::lists::Coordinate;
use crate::matrices::write_row;
use crate::plants::Plant;
use mpc_frac::{Frac, Wide};
use mpc_linear::{LinearError, Matrix, Vector, add_product, dot_from};
use std::alloc::Global;

/// The dot of two slices.
pub(crate) fn dot_of(left: &[Frac], right: &[Frac]) -> Result<Frac, Wide>
    requires { length left.now ≡ length right.now }
    ensures value { IfOk result (λ v. v ≡ dot left.now right.now) }
    ensures wide { MatchResult result (λ _. DotFits left.now right.now) (λ _. ¬ DotFits left.now right.now) }
{
    dot_from(&Frac::whole(0), left, right)
}

/// The value of a coordinate at a count.
fn value_at(axis: &Coordinate, count: u64) -> Result<Frac, Wide>
    requires { count ≤ greatest_count }
    ensures value { IfOk result (λ x. x ≡ axis.now.low +ℚ axis.now.step *ℚ int (pos count)) }
    ensures wide { MatchResult result (λ _. TermFits axis.now.low axis.now.step (int (pos count)))
        (λ _. ¬ TermFits axis.now.low axis.now.step (int (pos count))) }
{
    add_product(&axis.low, &axis.step, &Frac::whole(count as i64))
}

/// The state at these counts. `Wide(0)` where one of its numbers is wide.
pub(crate) fn state_at_counts(
    alloc: Global,
    plant: &Plant,
    counts: &[u64],
) -> Result<Vector, LinearError>
    requires { IsInBox plant.now (point_of counts.now) }
    ensures value { IfOk result (λ x. x ≡ state_of plant.now (point_of counts.now)) }
    ensures wide { MatchResult result (λ _. AxesFit plant.now.grid (point_of counts.now))
        (λ e. IfWide e (λ step. (step ≡ 0) × (¬ AxesFit plant.now.grid (point_of counts.now)))) }
{
    let mut state = Vector::new(alloc);
    for i in 0..counts.len() {
        match value_at(plant.grid.at(i), counts[i]) {
            Ok(value) => state.push(value)?,
            Err(_) => return Err(LinearError::Wide(0)),
        }
    }
    Ok(state)
}

/// One entry of `A x + B u + drift`, where x is the state and u the input; the drift comes last.
fn entry_of_next(plant: &Plant, state: &[Frac], input: &[Frac], place: u32) -> Result<Frac, Wide>
    requires entry { place < plant.now.n }
    requires state { length state.now ≡ plant.now.n }
    requires inputs { length input.now ≡ plant.now.p }
    ensures value { IfOk result (λ v. v ≡ next_entry plant.now state.now input.now place) }
    ensures wide { MatchResult result (λ _. EntryFits plant.now state.now input.now place)
        (λ _. ¬ EntryFits plant.now state.now input.now place) }
{
    let from_state = dot_of(plant.a.row(place), state)?;
    let from_move = dot_of(plant.b.row(place), input)?;
    let moved = from_state.add(&from_move)?;
    moved.add(plant.drift.at(place as usize))
}

/// The state `A x + B u + drift` that follows the state x under the input u. `Wide` with this step where one of its numbers is wide.
pub(crate) fn next_state(
    alloc: Global,
    plant: &Plant,
    state: &[Frac],
    input: &[Frac],
    step: u32,
) -> Result<Vector, LinearError>
    requires state { length state.now ≡ plant.now.n }
    requires inputs { length input.now ≡ plant.now.p }
    ensures value { IfOk result (λ y. y ≡ next_of plant.now state.now input.now) }
    ensures wide { MatchResult result (λ _. NextFits plant.now state.now input.now)
        (λ e. IfWide e (λ k. (k ≡ step) × (¬ NextFits plant.now state.now input.now))) }
{
    let mut entries = Vector::new(alloc);
    for i in 0..plant.n {
        match entry_of_next(plant, state, input, i) {
            Ok(value) => entries.push(value)?,
            Err(_) => return Err(LinearError::Wide(step)),
        }
    }
    Ok(entries)
}

/// The states of the plant under the moves, from the counts on, a row for each step, from 0 to the horizon.
///
/// There are n counts inside the box, and N rows of p moves. `Wide` with the first step whose state has a number of more than 128 bits on
/// the way; the state at the counts is that of step 0, and the last one that of step N. On the way are for step 0 the products of step and
/// count and their sums with the low, for each later step the dots of the rows of A and of B, the sums of the two, and last the sums with
/// the drift (Bemporad, Morari, Dua and Pistikopoulos, 2002).
pub fn roll(
    alloc: Global,
    plant: &Plant,
    counts: &[u64],
    moves: &Matrix,
) -> Result<Matrix, LinearError>
    requires inside { IsInBox plant.now (point_of counts.now) }
    requires moves { IsSequence plant.now moves.now.rows }
    ensures states { IfOk result (λ m. m.rows ≡ rolled plant.now (point_of counts.now) moves.now.rows) }
    ensures columns { IfOk result (λ m. m.columns ≡ plant.now.n) }
    ensures wide { MatchResult result (λ _. StatesFit plant.now (point_of counts.now) moves.now.rows)
        (λ e. IfWide e (IsFirstWideState plant.now (point_of counts.now) moves.now.rows)) }
{
    let mut states = Matrix::zero(alloc, plant.horizon + 1, plant.n)?;
    let mut state = state_at_counts(alloc, plant, counts)?;
    write_row(&mut states, 0, &state);
    for step in 0..plant.horizon {
        state = next_state(alloc, plant, state.as_slice(), moves.row(step), step + 1)?;
        write_row(&mut states, step + 1, &state);
    }
    Ok(states)
}
