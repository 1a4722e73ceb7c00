//! How far a step goes.

ghost use Rattle.std.specs.Prelude.{◌≡◌, ◌≢◌, ◌<◌, ◌↔◌, IsTrue, IfOk, MatchResult, length, pos};
ghost use Rattle.mpc_exact.specs.Rational.{int};
ghost use Rattle.mpc_space.specs.Vector.{IsZero};
ghost use Rattle.mpc_space.specs.Matrix.{height};
ghost use Rattle.mpc_online.specs.StateRows.{level};
ghost use Rattle.mpc_online.specs.Turns.{shorter_of, IsShortestWith, full_length, IsTurn};
ghost use Rattle.mpc_online.specs.Widths.{QuotientsFit, FullFits, LengthsFit};
ghost use Rattle.mpc_online.specs.Standing.{IsPosition};
ghost use Rattle.mpc_online.specs.Answers.{position_of};
ghost use Rattle.mpc_online.specs.Shared.{IsSlopeOf, IsPreparedFor};
ghost use Rattle.mpc_online.specs.Evens.{sides_of};

use crate::moves::Iterate;
use crate::numbers::{is_less, is_negative};
use crate::prepared::{Direction, Prepared};
use crate::sides::Sides;
use crate::tests_of_rows::excess_at;
use mpc_frac::{Frac, Wide};
use mpc_rows::Qp;

/// What ends a step.
#[derive(Drop)]
pub enum Turn {
    /// The members and the row on its way refute the rows.
    Refuted,
    /// The multiplier of the member in this place, from 0, is 0 at this length.
    Drops(usize, Frac),
    /// The row on its way holds with equality at this length.
    Joins(Frac),
}

/// A place and the length at which its multiplier is 0.
#[derive(Clone, Copy, Drop)]
pub struct Partial {
    pub place: usize,
    pub length: Frac,
}

/// The one with the lesser length: the one found before, unless the new one is less.
fn shorter(best: Option<Partial>, next: Partial) -> Option<Partial>
    ensures { result ≡ shorter_of best next }
{
    let Some(earlier) = best else {
        return Some(next);
    };
    if is_less(&next.length, &earlier.length) {
        return Some(next);
    }
    Some(earlier)
}

/// The place of the multiplier that is first 0 along the changes, and the length at which it is.
fn shortest(multipliers: &[Frac], changes: &[Frac]) -> Result<Option<Partial>, Wide>
    requires { length changes.now ≡ length multipliers.now }
    ensures value { IfOk result (λ o. IsShortestWith multipliers.now changes.now o) }
    ensures wide { MatchResult result (λ _. QuotientsFit multipliers.now changes.now)
        (λ _. ¬ QuotientsFit multipliers.now changes.now) }
{
    let mut best = None;
    for place in 0..changes.len() {
        if !is_negative(&changes[place]) {
            continue;
        }
        let length = multipliers[place].div(&changes[place].neg())?;
        best = shorter(best, Partial { place, length });
    }
    Ok(best)
}

/// Whether all entries are 0.
fn is_zero(entries: &[Frac]) -> bool
    ensures { IsTrue result ↔ IsZero entries.now }
{
    entries.iter().all(|x| x.is_zero())
}

/// The length at which the row on its way holds with equality.
fn full_length(
    qp: &Qp,
    prepared: &Prepared,
    sides: &Sides,
    it: &Iterate,
    direction: &Direction,
) -> Result<Frac, Wide>
    requires prepared { IsPreparedFor qp.now prepared.now }
    requires position { IsPosition qp.now (position_of it.now) }
    requires sides { length (sides_of sides.now) ≡ height qp.now.g }
    requires direction { length direction.now.point.items ≡ height qp.now.h }
    requires slope_is { IsSlopeOf qp.now it.now.row direction.now.point.items direction.now.slope }
    requires slope { level qp.now direction.now.point.items it.now.row ≢ int (pos 0) }
    ensures value { IfOk result (λ v. v ≡ full_length qp.now (sides_of sides.now) (position_of it.now) direction.now.point.items) }
    ensures wide { MatchResult result (λ _. FullFits qp.now (sides_of sides.now) (position_of it.now) direction.now.point.items)
        (λ _. ¬ FullFits qp.now (sides_of sides.now) (position_of it.now) direction.now.point.items) }
{
    let above = excess_at(qp, prepared, sides, &it.point, it.row)?;
    let Some(slope) = &direction.slope else {
        return Err(Wide);
    };
    above.div(&slope.neg())
}

/// What ends the step in this direction.
pub fn turn_of(
    qp: &Qp,
    prepared: &Prepared,
    sides: &Sides,
    it: &Iterate,
    direction: &Direction,
) -> Result<Turn, Wide>
    requires prepared { IsPreparedFor qp.now prepared.now }
    requires position { IsPosition qp.now (position_of it.now) }
    requires sides { length (sides_of sides.now) ≡ height qp.now.g }
    requires direction { length direction.now.point.items ≡ height qp.now.h }
    requires slope_is { IsSlopeOf qp.now it.now.row direction.now.point.items direction.now.slope }
    requires multipliers { length direction.now.multipliers.items ≡ length it.now.set }
    requires slope { ¬ IsZero direction.now.point.items → level qp.now direction.now.point.items it.now.row ≢ int (pos 0) }
    ensures value { IfOk result (λ turn. IsTurn qp.now (sides_of sides.now) (position_of it.now) direction.now.point.items direction.now.multipliers.items turn) }
    ensures wide { MatchResult result (λ _. LengthsFit qp.now (sides_of sides.now) (position_of it.now) direction.now.point.items direction.now.multipliers.items)
        (λ _. ¬ LengthsFit qp.now (sides_of sides.now) (position_of it.now) direction.now.point.items direction.now.multipliers.items) }
{
    let partial = shortest(&it.multipliers, &direction.multipliers)?;
    if is_zero(&direction.point) {
        let Some(drop) = partial else {
            return Ok(Turn::Refuted);
        };
        return Ok(Turn::Drops(drop.place, drop.length));
    }
    let full = full_length(qp, prepared, sides, it, direction)?;
    let Some(drop) = partial else {
        return Ok(Turn::Joins(full));
    };
    if is_less(&drop.length, &full) {
        return Ok(Turn::Drops(drop.place, drop.length));
    }
    Ok(Turn::Joins(full))
}
