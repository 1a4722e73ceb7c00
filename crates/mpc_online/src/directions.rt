//! The solution of the equations of a step.

ghost use Rattle.std.specs.Prelude.{◌≡◌, ◌+◌, ◌≤◌, IfOk, All, IfErr, IfSome, IsTrue, MatchResult, length};
ghost use Rattle.mpc_space.specs.Matrix.{height};
ghost use Rattle.mpc_space.specs.Definite.{IsDefinite};
ghost use Rattle.mpc_sets.specs.RowSet.{IsSetOfRows};
ghost use Rattle.mpc_linear.specs.Solution.{IsOnlySolution};
ghost use Rattle.mpc_rows.specs.ActiveSets.{IsIndependentSet};
ghost use Rattle.mpc_rows.specs.SetRuns.{law_matrix};
ghost use Rattle.mpc_rows.specs.declared.programs.Qp.{Qp};
ghost use Rattle.mpc_systems.specs.Equations.{AreMemberPlaces};
ghost use Rattle.mpc_online.specs.Positions.{right_matrix, step_side};
ghost use Rattle.mpc_online.specs.Widths.{EliminationFits};
ghost use Rattle.mpc_online.specs.Answers.{IfStopWide};
ghost use Rattle.mpc_online.specs.declared.solutions.Stop.TheVariants.{NoMemory as no_memory};
ghost use Rattle.mpc_online.specs.Shared.{IsKeptOf, IsSlopeOf, IsKeptDirection, IsKeptAt, IsPreparedFor};

use crate::evens::even_rows;
use crate::matrices::step_right;
use crate::opening::opening_of;
use crate::prepared::{Direction, IndexEntry, KeptDirection, Prepared};
use crate::shared::shared_table;
use crate::solutions::{Stop, dot_of, part, solution};
use crate::wholes::whole_rows;
use mpc_bordered::{Kept, keep, solve_part};
use mpc_frac::{Frac, NoMemory};
use mpc_linear::{LinearError, Matrix, Solved};
use mpc_rows::{Qp, law_theorems};
use mpc_sets::ActiveSet;
use mpc_systems::member_places;
use mpc_wholes::over_one_denominator;
use std::alloc::Global;

/// So many directions are kept at most. One takes some 700 bytes, so all take at most 3 MB. A million random states of the plant with the most
/// laws in `bench/online` meet 950.
const MOST_DIRECTIONS: usize = 4096;

/// So many slots say where a direction may stand: few of the directions that a plant's states meet share one.
const SLOTS: usize = 4096;

/// 2^64 by the golden ratio, rounded to an odd number: the first bits of its multiples are spread (Knuth, 1973).
const MIX: u64 = 0x9E37_79B9_7F4A_7C15;

/// What all states of the program share, with what is kept of the elimination of its Hessian, and no direction yet.
pub fn prepared_with(alloc: Global, qp: &Qp, kept: Option<Kept>) -> Result<Prepared, NoMemory>
    requires { IfSome kept (IsKeptOf qp.now) }
    ensures { IfOk result (IsPreparedFor qp.now) }
{
    let rows = whole_rows(alloc, &qp.g, 1)?;
    let sides = whole_rows(alloc, &qp.w, 1)?;
    let costs = whole_rows(alloc, &qp.f, 1)?;
    let even = even_rows(alloc, qp);
    let opening = opening_of(alloc, qp, &kept)?;
    Ok(Prepared {
        rows,
        sides,
        costs,
        even,
        kept,
        opening,
        directions: Vec::new(alloc),
        index: Vec::new(alloc),
        slots: Vec::new(alloc),
    })
}

/// What all states of the program share.
pub fn prepare(alloc: Global, qp: &Qp) -> Result<Prepared, NoMemory>
    ensures { IfOk result (IsPreparedFor qp.now) }
{
    let table = shared_table(alloc, qp)?;
    let Ok(kept) = keep(alloc, table, qp.h.rows()) else {
        return Err(NoMemory);
    };
    prepared_with(alloc, qp, kept)
}

/// The solution by what is kept, where that is enough.
fn kept_solution(
    alloc: Global,
    qp: &Qp,
    kept: &Kept,
    set: ActiveSet,
    row: u32,
) -> Result<Option<Matrix>, Stop>
    requires definite { IsDefinite qp.now.h.rows }
    requires kept { IsKeptOf qp.now kept.now }
    requires set_of_rows { IsSetOfRows (height qp.now.g) set }
    requires independent { IsIndependentSet qp.now set }
    requires from_one { 1 ≤ row }
    requires to_last { row ≤ height qp.now.g }
    ensures only { IfOk result (λ o. IfSome o (IsOnlySolution (law_matrix qp.now set) (right_matrix qp.now set (step_side qp.now row)))) }
    ensures wide { MatchResult result (λ o. IfSome o (λ _. EliminationFits (law_matrix qp.now set) (right_matrix qp.now set (step_side qp.now row))))
        (λ e. IfStopWide e (¬ EliminationFits (law_matrix qp.now set) (right_matrix qp.now set (step_side qp.now row)))) }
{
    law_theorems();
    let _size = set.size();
    let unknowns = qp.h.rows();
    let places = member_places(alloc, unknowns, set)?;
    let right = [unknowns + qp.g.rows() + (row - 1)];
    match solve_part(alloc, kept, &places, &right) {
        Ok(None) => Ok(None),
        Ok(Some(Solved::Unique(x))) => Ok(Some(x)),
        Ok(Some(Solved::Dependent(_))) => unreachable!(),
        Err(LinearError::Wide(_)) => Err(Stop::Wide),
        Err(LinearError::NoMemory) => Err(Stop::NoMemory),
    }
}

/// The one solution of the equations of a step towards the row: by what is kept, and where that isn't enough by an elimination of its own.
fn step_solution(
    alloc: Global,
    qp: &Qp,
    shared: &Option<Kept>,
    set: ActiveSet,
    row: u32,
) -> Result<Matrix, Stop>
    requires definite { IsDefinite qp.now.h.rows }
    requires kept { IfSome shared.now (IsKeptOf qp.now) }
    requires set_of_rows { IsSetOfRows (height qp.now.g) set }
    requires independent { IsIndependentSet qp.now set }
    requires from_one { 1 ≤ row }
    requires to_last { row ≤ height qp.now.g }
    ensures only { IfOk result (IsOnlySolution (law_matrix qp.now set) (right_matrix qp.now set (step_side qp.now row))) }
    ensures wide { MatchResult result (λ _. EliminationFits (law_matrix qp.now set) (right_matrix qp.now set (step_side qp.now row)))
        (λ e. IfStopWide e (¬ EliminationFits (law_matrix qp.now set) (right_matrix qp.now set (step_side qp.now row)))) }
{
    if let Some(kept) = shared {
        if let Some(x) = kept_solution(alloc, qp, kept, set, row)? {
            return Ok(x);
        }
    }
    let right = step_right(alloc, qp, set, row)?;
    solution(alloc, qp, set, &right)
}

/// How the row grows along the direction of the point. `None` where a number on the way to this needs more than 128 bits.
fn slope_of(qp: &Qp, point: &[Frac], row: u32) -> Option<Frac>
    requires point { length point.now ≡ height qp.now.h }
    requires from_one { 1 ≤ row }
    requires to_last { row ≤ height qp.now.g }
    ensures { IsSlopeOf qp.now row point.now result }
{
    let _rows = qp.g.rows();
    match dot_of(qp.g.row(row - 1), point) {
        Ok(slope) => Some(slope),
        Err(_) => None,
    }
}

/// The direction of a step towards the row.
fn found_direction(
    alloc: Global,
    qp: &Qp,
    shared: &Option<Kept>,
    set: ActiveSet,
    row: u32,
) -> Result<KeptDirection, Stop>
    requires definite { IsDefinite qp.now.h.rows }
    requires kept { IfSome shared.now (IsKeptOf qp.now) }
    requires set_of_rows { IsSetOfRows (height qp.now.g) set }
    requires independent { IsIndependentSet qp.now set }
    requires from_one { 1 ≤ row }
    requires to_last { row ≤ height qp.now.g }
    ensures direction { IfOk result (IsKeptDirection qp.now) }
    ensures set { IfOk result (λ k. k.set ≡ set) }
    ensures row { IfOk result (λ k. k.row ≡ row) }
    ensures memory { IfErr result (λ e. e ≡ no_memory) }
{
    let solved = match step_solution(alloc, qp, shared, set, row) {
        Ok(solved) => solved,
        Err(Stop::Wide) => {
            return Ok(KeptDirection {
                set,
                row,
                direction: None,
            });
        }
        Err(Stop::NoMemory) => return Err(Stop::NoMemory),
    };
    let point = part(alloc, &solved, 0, qp.h.rows())?;
    let whole = over_one_denominator(&point);
    let multipliers = part(alloc, &solved, qp.h.rows(), set.size())?;
    let slope = slope_of(qp, &point, row);
    Ok(KeptDirection {
        set,
        row,
        direction: Some(Direction {
            point,
            whole,
            multipliers,
            slope,
        }),
    })
}

/// Where the entry of a mask and a row stands, or would stand, among those in their order.
fn place_among(index: &[IndexEntry], mask: u64, row: u32) -> usize
    ensures { result ≤ length index.now }
{
    let mut from = 0;
    let mut to = index.len();
    while from < to {
        let middle = from + (to - from) / 2;
        let other = &index[middle];
        if other.row < row || other.row == row && other.mask < mask {
            from = middle + 1;
        } else {
            to = middle;
        }
    }
    from
}

/// Whether the direction of this set and this row stands in this place.
fn stands_at(directions: &[KeptDirection], place: usize, set: ActiveSet, row: u32) -> bool
    ensures { IsTrue result → IsKeptAt set row directions.now place }
{
    let Some(there) = directions.get(place) else {
        return false;
    };
    there.set == set && there.row == row
}

/// Where the direction of this set and this row is kept, if this entry of the index is its own.
fn place_by(
    directions: &[KeptDirection],
    index: &[IndexEntry],
    at: usize,
    set: ActiveSet,
    row: u32,
) -> Option<usize>
    ensures { IfSome result (IsKeptAt set row directions.now) }
{
    let place = index.get(at)?.place;
    if !stands_at(directions, place, set, row) {
        return None;
    }
    Some(place)
}

/// The slot of a mask and a row.
fn slot_of(mask: u64, row: u32) -> usize {
    let mixed = mask.wrapping_add((row as u64) << 58).wrapping_mul(MIX);
    (mixed >> 52) as usize
}

/// Where the direction of this set and this row is kept, if its slot says so.
fn place_in_slot(
    directions: &[KeptDirection],
    slots: &[u32],
    slot: usize,
    set: ActiveSet,
    row: u32,
) -> Option<usize>
    ensures { IfSome result (IsKeptAt set row directions.now) }
{
    let place = *slots.get(slot)? as usize;
    if !stands_at(directions, place, set, row) {
        return None;
    }
    Some(place)
}

/// Gives up all directions where they are too many for one more; where its entry comes in the index then.
fn room_at(directions: &mut Vec<KeptDirection>, index: &mut Vec<IndexEntry>, at: usize) -> usize
    requires { at ≤ length index.old.items }
    ensures kept { (qp : Qp) → All (IsKeptDirection qp) directions.old.items → All (IsKeptDirection qp) directions.new.items }
    ensures within { result ≤ length index.new.items }
{
    if directions.len() < MOST_DIRECTIONS {
        return at;
    }
    directions.clear();
    index.clear();
    0
}

/// Keeps a direction with this entry of the index, alone where there were too many; where it stands then.
fn keep_direction(
    directions: &mut Vec<KeptDirection>,
    index: &mut Vec<IndexEntry>,
    at: usize,
    found: KeptDirection,
) -> Result<usize, Stop>
    requires { at ≤ length index.old.items }
    ensures kept { (qp : Qp) → All (IsKeptDirection qp) directions.old.items → IsKeptDirection qp found → All (IsKeptDirection qp) directions.new.items }
    ensures place { IfOk result (IsKeptAt found.set found.row directions.new.items) }
    ensures memory { IfErr result (λ e. e ≡ no_memory) }
{
    let at = room_at(directions, index, at);
    let place = directions.len();
    let entry = IndexEntry {
        row: found.row,
        mask: found.set.mask(),
        place,
    };
    directions.push(found)?;
    index.insert(at, entry)?;
    Ok(place)
}

/// The place in which the direction of a step towards the row is kept: where it wasn't yet, it is found first. Beyond a number of
/// directions those of before are given up.
fn indexed_place(
    alloc: Global,
    qp: &Qp,
    prepared: &mut Prepared,
    set: ActiveSet,
    row: u32,
) -> Result<usize, Stop>
    requires definite { IsDefinite qp.now.h.rows }
    requires prepared { IsPreparedFor qp.now prepared.old }
    requires set_of_rows { IsSetOfRows (height qp.now.g) set }
    requires independent { IsIndependentSet qp.now set }
    requires from_one { 1 ≤ row }
    requires to_last { row ≤ height qp.now.g }
    ensures prepared { IsPreparedFor qp.now prepared.new }
    ensures place { IfOk result (IsKeptAt set row prepared.new.directions.items) }
    ensures memory { IfErr result (λ e. e ≡ no_memory) }
{
    let at = place_among(&prepared.index, set.mask(), row);
    if let Some(place) = place_by(&prepared.directions, &prepared.index, at, set, row) {
        return Ok(place);
    }
    let found = found_direction(alloc, qp, &prepared.kept, set, row)?;
    let there = keep_direction(&mut prepared.directions, &mut prepared.index, at, found)?;
    Ok(there)
}

/// Writes a place in a slot.
fn remember(slots: &mut [u32], slot: usize, place: u32) {
    if slot < slots.len() {
        slots[slot] = place;
    }
}

/// Makes the slots, where there are none yet and a direction is met again.
fn make_slots(slots: &mut Vec<u32>, again: bool) -> Result<(), Stop>
    ensures memory { IfErr result (λ e. e ≡ no_memory) }
{
    if again && slots.is_empty() {
        slots.resize(SLOTS, 0)?;
    }
    Ok(())
}

/// The same: where its slot says so, the index isn't searched. The slots are made when a direction is first met again, so that one
/// state alone needn't clear them.
pub fn direction_place(
    alloc: Global,
    qp: &Qp,
    prepared: &mut Prepared,
    set: ActiveSet,
    row: u32,
) -> Result<usize, Stop>
    requires definite { IsDefinite qp.now.h.rows }
    requires prepared { IsPreparedFor qp.now prepared.old }
    requires set_of_rows { IsSetOfRows (height qp.now.g) set }
    requires independent { IsIndependentSet qp.now set }
    requires from_one { 1 ≤ row }
    requires to_last { row ≤ height qp.now.g }
    ensures prepared { IsPreparedFor qp.now prepared.new }
    ensures place { IfOk result (IsKeptAt set row prepared.new.directions.items) }
    ensures memory { IfErr result (λ e. e ≡ no_memory) }
{
    let slot = slot_of(set.mask(), row);
    if let Some(place) = place_in_slot(&prepared.directions, &prepared.slots, slot, set, row) {
        return Ok(place);
    }
    let known = prepared.directions.len();
    let place = indexed_place(alloc, qp, prepared, set, row)?;
    make_slots(&mut prepared.slots, place < known)?;
    if let Ok(short) = u32::try_from(place) {
        remember(&mut prepared.slots, slot, short);
    }
    Ok(place)
}
