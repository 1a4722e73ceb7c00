//! The run of the method, step by step.

ghost use Rattle.std.specs.Prelude.{◌≡◌, ◌≤◌, IfOk, IfSome, MatchResult, length, ⊤};
ghost use Rattle.mpc_space.specs.Vector.{IsSymmetric};
ghost use Rattle.mpc_space.specs.Matrix.{height};
ghost use Rattle.mpc_space.specs.Definite.{IsDefinite};
ghost use Rattle.mpc_online.specs.StateRows.{point_of};
ghost use Rattle.mpc_online.specs.Positions.{continued};
ghost use Rattle.mpc_online.specs.Turns.{IsTurn};
ghost use Rattle.mpc_online.specs.Widths.{StepFits, FirstFits, TurnFits};
ghost use Rattle.mpc_online.specs.OnlineRun.{IsStep, IsOpening, IsRunEnd, LeadsTo, answered, wide_in};
ghost use Rattle.mpc_online.specs.Standing.{IsPosition, IsAnswer};
ghost use Rattle.mpc_online.specs.Shared.{IsPreparedFor};
ghost use Rattle.mpc_wholes.specs.Wholes.{IsOver};
ghost use Rattle.mpc_online.specs.Wholes.{entries_of};
ghost use Rattle.mpc_online.specs.Evens.{sides_of};
ghost use Rattle.mpc_online.specs.Openings.{AreExtendedCounts};
ghost use Rattle.mpc_online.specs.Answers.{IfWide, IfStopWide, position_of, step_of};
ghost use Rattle.mpc_rows.specs.ActiveSets.{IsInBox};

use crate::counts::extended;
use crate::directions::direction_place;
use crate::evens::right_sides;
use crate::moves::{Iterate, dropped, moved, row_joined};
use crate::opening::first_point;
use crate::points::fractions;
use crate::prepared::{Direction, Prepared};
use crate::refuting::row_multipliers;
use crate::sides::Sides;
use crate::solutions::Stop;
use crate::tests_of_rows::first_violated;
use crate::turns::{Turn, turn_of};
use crate::{Online, OnlineError};
use mpc_cover::set_theorems;
use mpc_frac::{Frac, NoMemory};
use mpc_linear::Vector;
use mpc_rows::Qp;
use mpc_sets::{ActiveSet, count_theorems};
use std::alloc::Global;

/// What follows a step.
#[derive(Drop)]
pub enum Next {
    /// Another step from here.
    Goes(Iterate),
    /// The answer.
    Ends(Online),
}

/// The entries as a vector.
fn vector(alloc: Global, entries: &[Frac]) -> Result<Vector, NoMemory>
    ensures { IfOk result (λ v. v ≡ entries.now) }
{
    let mut out = Vector::with_capacity(alloc, entries.len())?;
    for entry in entries {
        out.push(*entry)?;
    }
    Ok(out)
}

/// The step that follows where this row is the first that the point doesn't meet.
fn continued(alloc: Global, mut it: Iterate, first: Option<u32>) -> Result<Next, NoMemory>
    requires { length (entries_of it.point) ≤ 6 }
    ensures { IfOk result (λ next. step_of next ≡ continued (position_of it) first) }
{
    let Some(row) = first else {
        let entries = fractions(alloc, it.point)?;
        return Ok(Next::Ends(Online::Best(vector(alloc, &entries)?)));
    };
    it.row = row;
    it.weight = Frac::whole(0);
    Ok(Next::Goes(it))
}

/// Step 0: the first point, and the first row that it doesn't meet.
fn open(
    alloc: Global,
    qp: &Qp,
    extended_counts: &[Frac],
    sides: &Sides,
    prepared: &Prepared,
) -> Result<Next, Stop>
    requires definite { IsDefinite qp.now.h.rows }
    requires prepared { IsPreparedFor qp.now prepared.now }
    requires extended { AreExtendedCounts qp.now extended_counts.now }
    requires sides { length (sides_of sides.now) ≡ height qp.now.g }
    ensures opens { IfOk result (λ next. IsOpening qp.now (sides_of sides.now) extended_counts.now (step_of next)) }
    ensures wide { MatchResult result (λ _. FirstFits qp.now (sides_of sides.now) extended_counts.now)
        (λ stop. IfStopWide stop (¬ FirstFits qp.now (sides_of sides.now) extended_counts.now)) }
{
    let point = first_point(
        alloc,
        qp,
        extended_counts,
        &prepared.costs,
        &prepared.opening,
    )?;
    let first = first_violated(qp, prepared, sides, &point)?;
    let it = Iterate {
        point,
        set: ActiveSet::empty(),
        multipliers: Vec::new(alloc),
        row: 0,
        weight: Frac::whole(0),
    };
    Ok(continued(alloc, it, first)?)
}

/// What the turn makes of the position.
fn take_turn(
    alloc: Global,
    qp: &Qp,
    prepared: &Prepared,
    sides: &Sides,
    it: Iterate,
    direction: &Direction,
    turn: Turn,
) -> Result<Next, Stop>
    requires prepared { IsPreparedFor qp.now prepared.now }
    requires position { IsPosition qp.now (position_of it) }
    requires sides { length (sides_of sides.now) ≡ height qp.now.g }
    requires direction { length direction.now.point.items ≡ height qp.now.h }
    requires whole { IfSome direction.now.whole (IsOver direction.now.point.items) }
    requires multipliers { length direction.now.multipliers.items ≡ length it.set }
    requires turn { IsTurn qp.now (sides_of sides.now) (position_of it) direction.now.point.items direction.now.multipliers.items turn }
    ensures leads { IfOk result (λ next. LeadsTo qp.now (sides_of sides.now) (position_of it) direction.now.point.items direction.now.multipliers.items turn (step_of next)) }
    ensures wide { MatchResult result (λ _. TurnFits qp.now (sides_of sides.now) (position_of it) direction.now.point.items direction.now.multipliers.items turn)
        (λ stop. IfStopWide stop (¬ TurnFits qp.now (sides_of sides.now) (position_of it) direction.now.point.items direction.now.multipliers.items turn)) }
{
    match turn {
        Turn::Refuted => {
            let multipliers = row_multipliers(alloc, qp, &it, &direction.multipliers)?;
            Ok(Next::Ends(Online::Refuted(multipliers)))
        }
        Turn::Drops(place, length) => {
            let after = moved(alloc, it, direction, &length)?;
            Ok(Next::Goes(dropped(after, place)))
        }
        Turn::Joins(length) => {
            let after = moved(alloc, it, direction, &length)?;
            let first = first_violated(qp, prepared, sides, &after.point)?;
            let together = row_joined(after)?;
            Ok(continued(alloc, together, first)?)
        }
    }
}

/// One step.
fn advance(
    alloc: Global,
    qp: &Qp,
    prepared: &mut Prepared,
    sides: &Sides,
    it: Iterate,
) -> Result<Next, Stop>
    requires definite { IsDefinite qp.now.h.rows }
    requires prepared { IsPreparedFor qp.now prepared.old }
    requires position { IsPosition qp.now (position_of it) }
    requires sides { length (sides_of sides.now) ≡ height qp.now.g }
    ensures prepared { IsPreparedFor qp.now prepared.new }
    ensures steps { IfOk result (λ next. IsStep qp.now (sides_of sides.now) (position_of it) (step_of next)) }
    ensures wide { MatchResult result (λ _. StepFits qp.now (sides_of sides.now) (position_of it))
        (λ stop. IfStopWide stop (¬ StepFits qp.now (sides_of sides.now) (position_of it))) }
{
    let place = direction_place(alloc, qp, prepared, it.set, it.row)?;
    let kept: &Prepared = prepared;
    let Some(direction) = &kept.directions[place].direction else {
        return Err(Stop::Wide);
    };
    let turn = turn_of(qp, kept, sides, &it, direction)?;
    take_turn(alloc, qp, kept, sides, it, direction, turn)
}

/// The run from step 0 to its end.
pub fn answer(
    alloc: Global,
    qp: &Qp,
    prepared: &mut Prepared,
    counts: &[u64],
) -> Result<Online, OnlineError>
    requires definite { IsDefinite qp.now.h.rows }
    requires symmetric { IsSymmetric qp.now.h.rows }
    requires prepared { IsPreparedFor qp.now prepared.old }
    requires in_box { IsInBox qp.now.counts (point_of counts.now) }
    ensures prepared { IsPreparedFor qp.now prepared.new }
    ensures answer { IfOk result (λ o. IsAnswer qp.now (point_of counts.now) o) }
    ensures end { IfOk result (λ o. IsRunEnd qp.now (point_of counts.now) (answered o)) }
    ensures wide { MatchResult result (λ _. ⊤) (λ e. IfWide e (λ step. IsRunEnd qp.now (point_of counts.now) (wide_in step))) }
{
    set_theorems();
    count_theorems();
    let Ok(extended_counts) = extended(alloc, counts) else {
        return Err(OnlineError::NoMemory);
    };
    let sides = match right_sides(alloc, qp, prepared, &extended_counts) {
        Ok(found) => found,
        Err(Stop::Wide) => return Err(OnlineError::Wide(0)),
        Err(Stop::NoMemory) => return Err(OnlineError::NoMemory),
    };
    let mut it = match open(alloc, qp, &extended_counts, &sides, prepared) {
        Ok(Next::Goes(it)) => it,
        Ok(Next::Ends(online)) => return Ok(online),
        Err(Stop::Wide) => return Err(OnlineError::Wide(0)),
        Err(Stop::NoMemory) => return Err(OnlineError::NoMemory),
    };
    let mut step: u64 = 1;
    'steps: loop {
        match advance(alloc, qp, prepared, &sides, it) {
            Ok(Next::Goes(next)) => it = next,
            Ok(Next::Ends(online)) => return Ok(online),
            Err(Stop::Wide) => return Err(OnlineError::Wide(step)),
            Err(Stop::NoMemory) => return Err(OnlineError::NoMemory),
        }
        step += 1;
    }
}
