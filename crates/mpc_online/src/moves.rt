//! Where the method stands, and its moves.

ghost use Rattle.std.specs.Prelude.{◌≡◌, ◌≤◌, ◌<◌, IfOk, IfSome, OnOk, MatchResult, length};
ghost use Rattle.mpc_space.specs.Vector.{vec_add, vec_scale};
ghost use Rattle.mpc_online.specs.Positions.{along, without_place, joined, place_of};
ghost use Rattle.mpc_online.specs.Widths.{GrowsFit, MoveFits};
ghost use Rattle.mpc_wholes.specs.Wholes.{IsOver};
ghost use Rattle.mpc_online.specs.Wholes.{entries_of};
ghost use Rattle.mpc_online.specs.Answers.{IfStopWide, position_of};

use crate::points::{Point, fractions, point_of};
use crate::prepared::Direction;
use crate::solutions::Stop;
use crate::whole_moves::moved_in_wholes;
use mpc_frac::{Frac, Wide};
use mpc_linear::add_product;
use mpc_sets::ActiveSet;
use std::alloc::{AllocFailed, Global};

/// The point; the rows that hold with equality, with a multiplier for each member in rising order; the row, from 1, that is on its way to
/// join them, with its multiplier.
#[derive(Drop)]
pub struct Iterate {
    pub point: Point,
    pub set: ActiveSet,
    pub multipliers: Vec<Frac>,
    pub row: u32,
    pub weight: Frac,
}

/// Adds the changes times the scale to the entries.
fn grow(entries: &mut [Frac], scale: &Frac, changes: &[Frac]) -> Result<(), Wide>
    requires { length changes.now ≡ length entries.old }
    ensures ok { OnOk result (entries.new ≡ vec_add entries.old (vec_scale scale.now changes.now)) }
    ensures wide { MatchResult result (λ _. GrowsFit entries.old scale.now changes.now) (λ _. ¬ GrowsFit entries.old scale.now changes.now) }
{
    for index in 0..entries.len() {
        let entry = entries[index];
        match add_product(&entry, scale, &changes[index]) {
            Ok(next) => entries[index] = next,
            Err(wide) => return Err(wide),
        }
    }
    Ok(())
}

/// The point, the scale times the direction further: in whole numbers, where these are small, and else in fractions.
fn moved_point(
    alloc: Global,
    point: Point,
    direction: &Direction,
    scale: &Frac,
) -> Result<Point, Stop>
    requires few { length (entries_of point) ≤ 6 }
    requires direction { length direction.now.point.items ≡ length (entries_of point) }
    requires whole { IfSome direction.now.whole (IsOver direction.now.point.items) }
    ensures value { IfOk result (λ next. entries_of next ≡ vec_add (entries_of point) (vec_scale scale.now direction.now.point.items)) }
    ensures wide { MatchResult result (λ _. GrowsFit (entries_of point) scale.now direction.now.point.items)
        (λ stop. IfStopWide stop (¬ GrowsFit (entries_of point) scale.now direction.now.point.items)) }
{
    if let Point::Whole(numbers, count) = &point {
        if let Some(step) = &direction.whole {
            if let Some(next) = moved_in_wholes(numbers, step, scale, *count) {
                return Ok(Point::Whole(next, *count));
            }
        }
    }
    let mut entries = fractions(alloc, point)?;
    grow(&mut entries, scale, &direction.point)?;
    Ok(point_of(entries))
}

/// The scale times the direction further.
pub fn moved(
    alloc: Global,
    it: Iterate,
    direction: &Direction,
    scale: &Frac,
) -> Result<Iterate, Stop>
    requires few { length (entries_of it.point) ≤ 6 }
    requires direction { length direction.now.point.items ≡ length (entries_of it.point) }
    requires whole { IfSome direction.now.whole (IsOver direction.now.point.items) }
    requires multipliers { length direction.now.multipliers.items ≡ length it.multipliers.items }
    ensures value { IfOk result (λ next. position_of next ≡ along (position_of it) direction.now.point.items direction.now.multipliers.items scale.now) }
    ensures wide { MatchResult result (λ _. MoveFits (position_of it) direction.now.point.items direction.now.multipliers.items scale.now)
        (λ stop. IfStopWide stop (¬ MoveFits (position_of it) direction.now.point.items direction.now.multipliers.items scale.now)) }
{
    let Iterate {
        point,
        set,
        mut multipliers,
        row,
        weight,
    } = it;
    let point = moved_point(alloc, point, direction, scale)?;
    grow(&mut multipliers, scale, &direction.multipliers)?;
    let weight = weight.add(scale)?;
    Ok(Iterate {
        point,
        set,
        multipliers,
        row,
        weight,
    })
}

/// The member in this place, from 0, leaves.
pub fn dropped(mut it: Iterate, place: usize) -> Iterate
    requires member { place < length it.set }
    requires one_each { length it.multipliers.items ≡ length it.set }
    ensures { position_of result ≡ without_place (position_of it) place }
{
    let _size = it.set.size();
    let row = it.set.member(place as u32 + 1);
    it.set = it.set.without(row);
    let _gone = it.multipliers.remove(place);
    it
}

/// Where the row stands among the members, from 0.
fn place_of(set: ActiveSet, row: u32) -> usize
    ensures value { result ≡ place_of row set }
    ensures within { result ≤ length set }
{
    for index in 0..set.size() {
        if set.member(index + 1) >= row {
            return index as usize;
        }
    }
    set.size() as usize
}

/// The row on its way joins the members.
pub fn row_joined(mut it: Iterate) -> Result<Iterate, AllocFailed<Frac>>
    requires from_one { 1 ≤ it.row }
    requires to_last { it.row ≤ 60 }
    requires one_each { length it.multipliers.items ≡ length it.set }
    ensures { IfOk result (λ next. position_of next ≡ joined (position_of it)) }
{
    let place = place_of(it.set, it.row);
    it.set = it.set.with(it.row);
    it.multipliers.insert(place, it.weight)?;
    Ok(it)
}
