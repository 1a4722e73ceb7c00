//! The run of the simplex method by least numbers, on whole numbers.

ghost use Rattle.std.specs.Prelude.{◌≡◌, ℕ, ◌*◌, ◌<◌, ◌≤◌, ◌^◌, unsigned_abs, IfSome, List, length, true, ◌-◌};
ghost use Rattle.mpc_rows.specs.LinearSystem.{height};
ghost use Rattle.mpc_rows.specs.Run.{Position, count, may_enter};
ghost use Rattle.mpc_rows.specs.Least.{least};
ghost use Rattle.mpc_runs.specs.declared.variables.Seat.{Seat};
ghost use Rattle.mpc_runs.specs.declared.variables.Seat.TheVariants.{Column};
ghost use Rattle.mpc_runs.specs.Table.{seat_at, in_row, IsSeated, AreNonbasic};
ghost use Rattle.mpc_whole.specs.Found.{IfEnded, IfNext};
ghost use Rattle.mpc_whole.specs.Lists.{AreListsOf, of_short};
ghost use Rattle.mpc_whole.specs.Held.{AreHeld, AreUnderway, AreTurning, HaveEnded};
ghost use Rattle.mpc_whole.specs.Running.{HasNumbers, IsFrame};
ghost use Rattle.mpc_whole.specs.Whole.{HasBasis, IsRowOf, side_cell, IsSideRow, IsSwapped};
ghost use Rattle.mpc_scaled.specs.Scaled.{IsSmall};

use crate::frames::Frame;
use crate::lists::RunLists;
use crate::whole_pivot::exchange;
use crate::whole_turn::{entering, leaving, leaving_row};
use crate::whole_values::{Pivot, follow};
use mpc_quotients::Divisor;
use mpc_runs::{Seat, column_of, row_of};
use mpc_scaled::{WholeNumbers, WholeSystem};

/// Exchanges the seats of two variables, so that the one that leaves has the other's column.
pub(crate) fn swap(
    seats: &mut [Seat],
    nonbasic: &mut [usize],
    leaving: usize,
    entering: usize,
    column: usize,
)
    requires leaves_below { leaving < length seats.old }
    requires enters_below { entering < length seats.old }
    requires column_below { column < length nonbasic.old }
    requires leaves { in_row (seat_at seats.old leaving) ≡ true }
    requires enters { seat_at seats.old entering ≡ Column column }
    ensures seats { IsSwapped seats.old seats.new leaving entering }
    ensures columns { (width : ℕ) → AreNonbasic width seats.old nonbasic.old → AreNonbasic width seats.new nonbasic.new }
{
    let row = row_of(seats, leaving);
    nonbasic[column] = leaving;
    seats[leaving] = Seat::Column(column);
    seats[entering] = Seat::Row(row);
}

/// The row of the side that leaves, and the variable that enters.
fn pick(
    row: &mut [i64],
    system: &WholeSystem,
    frame: &Frame,
    nonbasic: &[usize],
    numbers: &[i64],
    leaving: usize,
) -> Option<usize>
    requires numbers { HasNumbers system.now frame.now.count frame.now.scales.now frame.now.a.now frame.now.b.now }
    requires columns { length nonbasic.now ≡ system.now.width }
    requires square { length numbers.now ≡ system.now.width * system.now.width }
    requires row_size { length row.old ≡ system.now.width }
    requires from { system.now.width ≤ leaving }
    requires below { leaving < frame.now.count }
    requires row_small { (column : ℕ) → column < system.now.width → unsigned_abs (side_cell system.now frame.now.a.now numbers.now (leaving - system.now.width) column) ≤ 2 ^ 62 }
    ensures row { IsSideRow system.now frame.now.a.now numbers.now (leaving - system.now.width) row.new }
    ensures small { IsSmall (2 ^ 62) row.new }
    ensures least { (seats : List Seat) (p : Position) (k : List ℕ) (d : ℕ) → IsSeated (height system.now) system.now.width frame.now.count seats → AreNonbasic system.now.width seats nonbasic.now
        → 0 < d → HasBasis frame.now.count seats p → IsRowOf frame.now.count seats k p d leaving row.new → result ≡ least (may_enter system.now p leaving) frame.now.count }
{
    leaving_row(row, system, frame.a, numbers, leaving);
    entering(system, nonbasic, row, frame.count)
}

/// What a run ends with.
#[derive(Clone, Copy, Drop)]
pub enum Ending {
    /// A point.
    Point,
    /// No point, as the row of this side shows.
    Refuted(usize),
}

/// Where a run stands: its denominator, a bound of the sizes of the numbers there, which is at most the greatest size up
/// to there, the greatest number and the greatest denominator of the positions before, and the first variable that may
/// leave.
#[derive(Clone, Copy, Drop)]
pub struct Place {
    pub den: u64,
    pub own: u64,
    pub greatest: u64,
    pub greatest_den: u64,
    pub first: usize,
}

/// What one turn of the run finds.
pub(crate) enum Found {
    Ended(Ending),
    /// A pivot, and where the run stands after it.
    Next(Place),
}

/// The greater of two numbers.
pub(crate) fn greater(left: u64, right: u64) -> u64
    ensures first { left ≤ result }
    ensures second { right ≤ result }
{
    if left < right { right } else { left }
}

/// The pivot where the row of a side leaves and a variable enters, with the values of the unknowns after it.
fn advance(
    lists: &mut RunLists,
    row: &[i64],
    system: &WholeSystem,
    frame: &Frame,
    place: Place,
    leaving: usize,
    entering: usize,
) -> Option<Place>
    requires frame { IsFrame system.now frame.now.count frame.now.scales.now frame.now.a.now frame.now.b.now frame.now.most }
    requires lists { AreListsOf system.now place.own (of_short lists.old) }
    requires held { AreHeld system.now frame.now.scales.now frame.now.a.now frame.now.most place.den (of_short lists.old) }
    requires row { IsSideRow system.now frame.now.a.now lists.old.numbers.items (leaving - system.now.width) row.now }
    requires row_small { IsSmall (2 ^ 62) row.now }
    requires turns { AreTurning system.now frame.now.scales.now (of_short lists.old) place leaving entering }
    ensures lists { IfSome result (λ p. AreListsOf system.now p.own (of_short lists.new)) }
    ensures held { IfSome result (λ p. AreHeld system.now frame.now.scales.now frame.now.a.now frame.now.most p.den (of_short lists.new)) }
    ensures underway { IfSome result (λ p. AreUnderway system.now frame.now.scales.now (of_short lists.new) p) }
{
    let column = column_of(&lists.seats, entering);
    let by = Divisor::of(place.den);
    let own = exchange(&mut lists.numbers, row, column, by, frame.most, place.own)?;
    swap(
        &mut lists.seats,
        &mut lists.nonbasic,
        leaving,
        entering,
        column,
    );
    let width = system.unknowns();
    let size = row[column].unsigned_abs();
    let pivot = Pivot {
        side: leaving - width,
        column,
        by,
        size,
    };
    follow(
        &mut lists.firsts,
        &mut lists.seconds,
        system,
        frame,
        &lists.nonbasic,
        &lists.numbers,
        pivot,
    )?;
    Some(Place {
        den: size,
        own,
        greatest: greater(place.greatest, place.own),
        greatest_den: greater(place.greatest_den, place.den),
        first: width,
    })
}

/// One turn of the run. The values of the unknowns move with the pivot.
fn step(
    lists: &mut RunLists,
    row: &mut [i64],
    system: &WholeSystem,
    frame: &Frame,
    place: Place,
) -> Option<Found>
    requires frame { IsFrame system.now frame.now.count frame.now.scales.now frame.now.a.now frame.now.b.now frame.now.most }
    requires lists { AreListsOf system.now place.own (of_short lists.old) }
    requires held { AreHeld system.now frame.now.scales.now frame.now.a.now frame.now.most place.den (of_short lists.old) }
    requires row_size { length row.old ≡ system.now.width }
    requires underway { AreUnderway system.now frame.now.scales.now (of_short lists.old) place }
    ensures same { IfSome result (λ f. IfEnded f (λ _. lists.new ≡ lists.old)) }
    ensures end { IfSome result (λ f. IfEnded f (λ e. HaveEnded system.now frame.now.scales.now (of_short lists.old) place e)) }
    ensures lists { IfSome result (λ f. IfNext f (λ p. AreListsOf system.now p.own (of_short lists.new))) }
    ensures held { IfSome result (λ f. IfNext f (λ p. AreHeld system.now frame.now.scales.now frame.now.a.now frame.now.most p.den (of_short lists.new))) }
    ensures underway { IfSome result (λ f. IfNext f (λ p. AreUnderway system.now frame.now.scales.now (of_short lists.new) p)) }
{
    let Some(leaving_variable) = leaving(
        system,
        frame,
        &lists.seats,
        &lists.firsts,
        &lists.seconds,
        place,
    ) else {
        return Some(Found::Ended(Ending::Point));
    };
    let Some(entering) = pick(
        row,
        system,
        frame,
        &lists.nonbasic,
        &lists.numbers,
        leaving_variable,
    ) else {
        return Some(Found::Ended(Ending::Refuted(leaving_variable)));
    };
    let next = advance(lists, row, system, frame, place, leaving_variable, entering)?;
    Some(Found::Next(next))
}

/// The most steps that are made on whole numbers.
pub(crate) const STEPS: u32 = 1_000_000;

/// The run from a position to its end: where it stands there, and what it ends with. The lists have the
/// values of the unknowns at the position, and at the end those there.
pub fn whole_run(
    lists: &mut RunLists,
    row: &mut [i64],
    system: &WholeSystem,
    numbers: &WholeNumbers,
    from: Place,
    most: u64,
) -> Option<(Place, Ending)>
    requires frame { IsFrame system.now (count system.now) numbers.now.scales.now numbers.now.a.now numbers.now.b.now most }
    requires lists { AreListsOf system.now from.own (of_short lists.old) }
    requires held { AreHeld system.now numbers.now.scales.now numbers.now.a.now most from.den (of_short lists.old) }
    requires row_size { length row.old ≡ system.now.width }
    requires underway { AreUnderway system.now numbers.now.scales.now (of_short lists.old) from }
    ensures end { IfSome result (λ t. HaveEnded system.now numbers.now.scales.now (of_short lists.new) t.0 t.1) }
    ensures lists { IfSome result (λ t. AreListsOf system.now t.0.own (of_short lists.new)) }
    ensures held { IfSome result (λ t. AreHeld system.now numbers.now.scales.now numbers.now.a.now most t.0.den (of_short lists.new)) }
{
    let frame = Frame {
        scales: numbers.scales,
        a: numbers.a,
        b: numbers.b,
        count: lists.seats.len(),
        most,
    };
    let mut place = from;
    'steps: for _ in 0..STEPS {
        let found = step(lists, row, system, &frame, place)?;
        match found {
            Found::Ended(end) => return Some((place, end)),
            Found::Next(next) => place = next,
        }
    }
    None
}
