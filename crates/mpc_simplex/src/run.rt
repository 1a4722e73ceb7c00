//! The run of the simplex method by least numbers.

ghost use Rattle.std.specs.Prelude.{◌≡◌, ◌+◌, ◌*◌, ◌<◌, IfOk, MatchResult, MatchOption, length, ⊤, true, false};
ghost use Rattle.mpc_rows.specs.LinearSystem.{height};
ghost use Rattle.mpc_rows.specs.Least.{least};
ghost use Rattle.mpc_rows.specs.Run.{value, multiplier, may_leave, may_enter, opening};
ghost use Rattle.mpc_rows.specs.RunWidth.{ValueFits, ValuesFit, RunFits};
ghost use Rattle.mpc_runs.specs.Table.{seat_at, in_row, IsTable, position_of, IsOpeningEntries};
ghost use Rattle.mpc_simplex.specs.Nonbasic.{AreNonbasicSides};
ghost use Rattle.mpc_simplex.specs.Room.{HasRoom};
ghost use Rattle.mpc_simplex.specs.Answer.{IsValues, IsMultipliers, IsRunEnd, IfWide};

use crate::nonbasic::nonbasic_sides;
use crate::numbers::{is_positive, is_zero};
use crate::sides::{earlier, rest};
use crate::tableau::{cell, exchange};
use crate::{Decision, SimplexError};
use mpc_beginnings::whole_end;
use mpc_frac::{Frac, Wide};
use mpc_linear::{add_product, zero_theorems};
use mpc_rows::{Multipliers, PairPoint, System};
use mpc_runs::{
    End, Seat, Standing, column_of, is_basic, is_unknown, opening_seats, row_of, zero, zero_pairs,
    zeros,
};
use std::alloc::{AllocError, Global};

/// The coefficient of a nonbasic variable in the row of a basic one.
fn coefficient(
    system: &System,
    seats: &[Seat],
    entries: &[Frac],
    variables: usize,
    basic: usize,
    nonbasic: usize,
) -> Frac
    requires table { IsTable system.now variables seats.now entries.now }
    requires basic_below { basic < variables }
    requires x_basic { in_row (seat_at seats.now basic) ≡ true }
    requires y_below { nonbasic < variables }
    requires y_free { in_row (seat_at seats.now nonbasic) ≡ false }
    ensures { result ≡ (position_of system.now.width seats.now entries.now).coefficient basic nonbasic }
{
    let row = row_of(seats, basic);
    let column = column_of(seats, nonbasic);
    cell(entries, system.height(), system.unknowns(), row, column)
}

/// The value of a basic variable, from the nonbasic sides. An unknown rests at 0 while it is
/// nonbasic, so that only sides add to it.
fn value(
    system: &System,
    seats: &[Seat],
    entries: &[Frac],
    sides: &[usize],
    variables: usize,
    basic: usize,
) -> Result<Standing, Wide>
    requires table { IsTable system.now variables seats.now entries.now }
    requires sides { AreNonbasicSides system.now.width variables seats.now sides.now }
    requires basic_below { basic < variables }
    requires x_basic { in_row (seat_at seats.now basic) ≡ true }
    ensures first { IfOk result (λ v. v.0 ≡ (value system.now (position_of system.now.width seats.now entries.now) basic).first) }
    ensures second { IfOk result (λ v. v.1 ≡ (value system.now (position_of system.now.width seats.now entries.now) basic).second) }
    ensures wide { MatchResult result (λ _. ValueFits system.now variables (position_of system.now.width seats.now entries.now) basic)
        (λ _. ¬ ValueFits system.now variables (position_of system.now.width seats.now entries.now) basic) }
{
    zero_theorems();
    let mut first = zero();
    let mut second = zero();
    for side in sides {
        let nonbasic = *side;
        let factor = coefficient(system, seats, entries, variables, basic, nonbasic);
        let stand = rest(system, nonbasic);
        first = add_product(&first, &factor, &stand.0)?;
        second = add_product(&second, &factor, &stand.1)?;
    }
    Ok((first, second))
}

/// The variable that leaves. The values of all basic variables are formed, with room for the list of
/// the nonbasic sides.
fn leaving(
    list: &mut [usize],
    system: &System,
    seats: &[Seat],
    entries: &[Frac],
    variables: usize,
) -> Result<Option<usize>, Wide>
    requires room { length list.old ≡ system.now.width }
    requires table { IsTable system.now variables seats.now entries.now }
    ensures least { IfOk result (λ o. o ≡ least (may_leave system.now (position_of system.now.width seats.now entries.now)) variables) }
    ensures below { IfOk result (λ o. MatchOption o ⊤ (λ l. l < variables)) }
    ensures wide { MatchResult result (λ _. ValuesFit system.now variables (position_of system.now.width seats.now entries.now))
        (λ _. ¬ ValuesFit system.now variables (position_of system.now.width seats.now entries.now)) }
{
    let count = nonbasic_sides(list, system, seats, variables);
    let sides = &list[..count];
    let mut out = None;
    for variable in 0..variables {
        if !is_basic(seats, variable) {
            continue;
        }
        let standing = value(system, seats, entries, sides, variables, variable)?;
        out = earlier(system, out, variable, &standing);
    }
    Ok(out)
}

/// Whether a variable may enter where a basic one leaves.
fn may_enter(
    system: &System,
    seats: &[Seat],
    entries: &[Frac],
    variables: usize,
    leaving: usize,
    entering: usize,
) -> bool
    requires table { IsTable system.now variables seats.now entries.now }
    requires l_below { leaving < variables }
    requires l_basic { in_row (seat_at seats.now leaving) ≡ true }
    requires y_below { entering < variables }
    ensures { result ≡ may_enter system.now (position_of system.now.width seats.now entries.now) leaving entering }
{
    if is_basic(seats, entering) {
        return false;
    }
    let factor = coefficient(system, seats, entries, variables, leaving, entering);
    if is_unknown(system, entering) {
        !is_zero(&factor)
    } else {
        is_positive(&factor)
    }
}

/// The variable that enters where a basic one leaves.
fn entering(
    system: &System,
    seats: &[Seat],
    entries: &[Frac],
    variables: usize,
    leaving: usize,
) -> Option<usize>
    requires table { IsTable system.now variables seats.now entries.now }
    requires l_below { leaving < variables }
    requires l_basic { in_row (seat_at seats.now leaving) ≡ true }
    ensures least { result ≡ least (may_enter system.now (position_of system.now.width seats.now entries.now) leaving) variables }
    ensures below { MatchOption result ⊤ (λ e. e < variables) }
{
    for variable in 0..variables {
        if may_enter(system, seats, entries, variables, leaving, variable) {
            return Some(variable);
        }
    }
    None
}

/// The value of an unknown.
fn standing(
    system: &System,
    seats: &[Seat],
    entries: &[Frac],
    sides: &[usize],
    variables: usize,
    unknown: usize,
) -> Result<Standing, Wide>
    requires table { IsTable system.now variables seats.now entries.now }
    requires sides { AreNonbasicSides system.now.width variables seats.now sides.now }
    requires j_below { unknown < variables }
    ensures first { IfOk result (λ v. v.0 ≡ (value system.now (position_of system.now.width seats.now entries.now) unknown).first) }
    ensures second { IfOk result (λ v. v.1 ≡ (value system.now (position_of system.now.width seats.now entries.now) unknown).second) }
    ensures wide { MatchResult result (λ _. ⊤) (λ _. ¬ ValuesFit system.now variables (position_of system.now.width seats.now entries.now)) }
{
    if !is_basic(seats, unknown) {
        return Ok(rest(system, unknown));
    }
    let stand = value(system, seats, entries, sides, variables, unknown)?;
    Ok(stand)
}

/// The values of the unknowns, with room for the list of the nonbasic sides.
fn point(
    values: &mut [Standing],
    list: &mut [usize],
    system: &System,
    seats: &[Seat],
    entries: &[Frac],
    variables: usize,
) -> Result<(), Wide>
    requires room { length values.old ≡ system.now.width }
    requires list_room { length list.old ≡ system.now.width }
    requires table { IsTable system.now variables seats.now entries.now }
    ensures values { IfOk result (λ _. IsValues system.now (position_of system.now.width seats.now entries.now) values.new) }
    ensures wide { MatchResult result (λ _. ⊤) (λ _. ¬ ValuesFit system.now variables (position_of system.now.width seats.now entries.now)) }
{
    let count = nonbasic_sides(list, system, seats, variables);
    let sides = &list[..count];
    for unknown in 0..system.unknowns() {
        let value = standing(system, seats, entries, sides, variables, unknown)?;
        values[unknown] = value;
    }
    Ok(())
}

/// The multiplier of a row where the row of the variable that would leave refutes.
fn multiplier(
    system: &System,
    seats: &[Seat],
    entries: &[Frac],
    variables: usize,
    leaving: usize,
    row: usize,
) -> Frac
    requires table { IsTable system.now variables seats.now entries.now }
    requires l_below { leaving < variables }
    requires l_basic { in_row (seat_at seats.now leaving) ≡ true }
    requires i_below { row < height system.now }
    ensures { result ≡ multiplier system.now (position_of system.now.width seats.now entries.now) leaving row }
{
    let side = system.unknowns() + row;
    if side == leaving {
        return Frac::whole(1);
    }
    if is_basic(seats, side) {
        return zero();
    }
    coefficient(system, seats, entries, variables, leaving, side).neg()
}

/// The multipliers where the row of the variable that would leave refutes.
fn multipliers(
    list: &mut [Frac],
    system: &System,
    seats: &[Seat],
    entries: &[Frac],
    variables: usize,
    leaving: usize,
)
    requires room { length list.old ≡ height system.now }
    requires table { IsTable system.now variables seats.now entries.now }
    requires l_below { leaving < variables }
    requires l_basic { in_row (seat_at seats.now leaving) ≡ true }
    ensures { IsMultipliers system.now (position_of system.now.width seats.now entries.now) leaving list.new }
{
    for row in 0..system.height() {
        let value = multiplier(system, seats, entries, variables, leaving, row);
        list[row] = value;
    }
}

/// Room for a row of coefficients, the nonbasic sides, the values of the unknowns and the multipliers
/// of the rows.
#[derive(Drop)]
struct Room {
    row: Vec<Frac>,
    sides: Vec<usize>,
    values: Vec<Standing>,
    multipliers: Vec<Frac>,
}

impl Room {
    /// Room for the run of a system.
    fn new(alloc: Global, system: &System) -> Result<Self, AllocError>
        ensures { IfOk result (HasRoom system.now) }
    {
        Ok(Self {
            row: zeros(alloc, system.unknowns())?,
            sides: vec![in alloc; 0; system.unknowns()]?,
            values: zero_pairs(alloc, system.unknowns())?,
            multipliers: zeros(alloc, system.height())?,
        })
    }
}

/// The run from the opening to its end, which takes no memory.
fn run(
    system: &System,
    mut seats: Vec<Seat>,
    mut entries: Vec<Frac>,
    room: Room,
    variables: usize,
) -> Result<Decision, Wide>
    requires table { IsTable system.now variables seats.items entries.items }
    requires room { HasRoom system.now room }
    requires opens { position_of system.now.width seats.items entries.items ≡ opening system.now }
    ensures end { IfOk result (λ d. IsRunEnd system.now d) }
    ensures wide { MatchResult result (λ _. RunFits system.now) (λ _. ¬ RunFits system.now) }
{
    let Room {
        mut row,
        mut sides,
        mut values,
        multipliers: mut list,
    } = room;
    let height = system.height();
    let width = system.unknowns();
    'steps: loop {
        let out = leaving(&mut sides, system, &seats, &entries, variables)?;
        let Some(left) = out else {
            point(&mut values, &mut sides, system, &seats, &entries, variables)?;
            return Ok(Decision::Point(PairPoint::of(values)));
        };
        let Some(entered) = entering(system, &seats, &entries, variables, left) else {
            multipliers(&mut list, system, &seats, &entries, variables, left);
            return Ok(Decision::Refuted(Multipliers::of(list)));
        };
        let row_left = row_of(&seats, left);
        let column = column_of(&seats, entered);
        exchange(&mut entries, &mut row, height, width, row_left, column)?;
        seats[left] = Seat::Column(column);
        seats[entered] = Seat::Row(row_left);
    }
}

/// The coefficients of the system, row by row.
fn opening_entries(alloc: Global, system: &System) -> Result<Vec<Frac>, AllocError>
    ensures { IfOk result (λ t. IsOpeningEntries system.now t.items) }
{
    let mut entries = Vec::new(alloc);
    for i in 0..system.height() {
        entries.extend_from_slice(system.row(i).a.as_slice())?;
    }
    Ok(entries)
}

/// The run's end, in fractions, which take all their memory before the first step.
///
/// More entries than a list can hold are more than there is memory for.
pub(crate) fn fraction_end(alloc: Global, system: &System) -> Result<Decision, SimplexError>
    ensures end { IfOk result (λ d. IsRunEnd system.now d) }
    ensures wide { MatchResult result (λ _. RunFits system.now) (λ e. IfWide e (¬ RunFits system.now)) }
{
    let Some(variables) = system.unknowns().checked_add(system.height()) else {
        return Err(SimplexError::NoMemory);
    };
    let Some(_) = system.unknowns().checked_mul(system.height()) else {
        return Err(SimplexError::NoMemory);
    };
    let Ok(seats) = opening_seats(alloc, system, variables) else {
        return Err(SimplexError::NoMemory);
    };
    let Ok(entries) = opening_entries(alloc, system) else {
        return Err(SimplexError::NoMemory);
    };
    let Ok(room) = Room::new(alloc, system) else {
        return Err(SimplexError::NoMemory);
    };
    match run(system, seats, entries, room, variables) {
        Ok(decision) => Ok(decision),
        Err(_) => Err(SimplexError::Wide),
    }
}

/// The run's end: in whole numbers where they serve for it, else in fractions. Each takes its memory
/// before its first step.
pub(crate) fn run_end(alloc: Global, system: &System) -> Result<Decision, SimplexError>
    ensures end { IfOk result (λ d. IsRunEnd system.now d) }
    ensures wide { MatchResult result (λ _. RunFits system.now) (λ e. IfWide e (¬ RunFits system.now)) }
{
    match whole_end(alloc, system) {
        Ok(Some(End::Point(point))) => Ok(Decision::Point(point)),
        Ok(Some(End::Refuted(multipliers))) => Ok(Decision::Refuted(multipliers)),
        Ok(None) => fraction_end(alloc, system),
        Err(_) => Err(SimplexError::NoMemory),
    }
}
