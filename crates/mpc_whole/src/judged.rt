//! The run of the simplex method by least numbers, on numbers of 128 bits out of which common divisors are taken.

ghost use Rattle.std.specs.Prelude.{◌≡◌, ◌-◌, ◌<◌, ◌≤◌, ◌^◌, IfSome, length};
ghost use Rattle.mpc_rows.specs.Run.{count, steps};
ghost use Rattle.mpc_whole.specs.Lists.{AreListsOf, of_wide, weights_of};
ghost use Rattle.mpc_whole.specs.Underway.{HasEnded};
ghost use Rattle.mpc_whole.specs.Judged.{IsDividedRow, AreMildBefore, IsMildlyUnderway, IsGoingOn, IsPositionKept, HasSizes, IsJudged};
ghost use Rattle.mpc_whole.specs.Found.{IfJudgedEnd, IfJudgedNext};
ghost use Rattle.mpc_whole.specs.Running.{HasNumbers};
ghost use Rattle.mpc_runs.specs.WholeNumbers.{HasRoom};
ghost use Rattle.mpc_scaled.specs.Scaled.{IsWholeSystem};

use crate::frames::JudgedFrame;
use crate::judge::{Factors, Here, factors_of, greatest_scale, judge_end, norm_of};
use crate::lists::WideLists;
use crate::reduced::reduce;
use crate::stated::{StatedPivot, judge_pivot};
use crate::weights::kept_product;
use crate::whole::{Ending, STEPS, swap};
use crate::wide_turn::{DividedRow, divided_row, wide_entering, wide_first_out};
use crate::wide_values::wide_stand;
use mpc_runs::column_of;
use mpc_scaled::{WholeNumbers, WholeSystem, greatest};

/// Where a run stands, in numbers of 128 bits: its denominator, the greatest size of a number there, the greatest
/// number and the greatest denominator of the positions before, the greatest product of a denominator there with the
/// size of the pivot, and the first variable that may leave. Where the product is 2^127 or more, nothing is known of
/// what those positions' numbers weigh.
#[derive(Clone, Copy, Drop)]
pub struct WidePlace {
    pub den: u128,
    pub own: u128,
    pub greatest: u128,
    pub greatest_den: u128,
    pub product: u128,
    pub first: usize,
}

/// What one turn of the run finds.
pub(crate) enum JudgedTurn {
    Ends(Ending),
    /// A pivot, and where the run stands after it.
    Moves(WidePlace),
}

/// Judges the pivot where the row of a side leaves and a variable enters, and keeps the position: where the run stands
/// once it is one of those before.
fn keep_position(
    lists: &mut WideLists,
    row: DividedRow,
    system: &WholeSystem,
    frame: &JudgedFrame,
    place: WidePlace,
    leaving: usize,
    entering: usize,
) -> Option<WidePlace>
    requires numbers { HasNumbers system.now frame.now.count frame.now.scales.now frame.now.a.now frame.now.b.now }
    requires sizes { HasSizes system.now.width frame.now.scales.now frame.now.a.now frame.now.b.now frame.now.norm frame.now.most_scale frame.now.most_side }
    requires lists { AreListsOf system.now place.own (of_wide lists.old) }
    requires row { IsDividedRow system.now frame.now.a.now lists.old.numbers.items (leaving - system.now.width) place.den row.divisor row.rest row.numbers.now }
    requires goes { IsGoingOn system.now (count system.now) lists.old.seats.items frame.now.scales.now place.den lists.old.numbers.items lists.old.firsts.items lists.old.seconds.items place.greatest place.greatest_den (weights_of lists.old) place.product place.first leaving entering }
    ensures lists { IfSome result (λ p. AreListsOf system.now p.own (of_wide lists.new)) }
    ensures row { IfSome result (λ p. IsDividedRow system.now frame.now.a.now lists.new.numbers.items (leaving - system.now.width) p.den row.entry.divisor row.entry.rest row.entry.numbers.now) }
    ensures kept { IfSome result (λ p. IsPositionKept system.now (count system.now) lists.new.seats.items frame.now.scales.now p.den lists.new.numbers.items p.greatest p.greatest_den (weights_of lists.new) p.product leaving entering) }
{
    let by = factors_of(
        &lists.nonbasic,
        row.numbers,
        frame.scales,
        leaving,
        entering,
    )?;
    let here = Here {
        seats: &lists.seats,
        nonbasic: &lists.nonbasic,
        numbers: &lists.numbers,
        den: place.den,
        own: place.own,
    };
    let pivot = StatedPivot {
        row: row.numbers,
        rest: row.rest,
        leaving,
        entering,
    };
    judge_pivot(&here, system, frame, by, &pivot)?;
    let product = kept_product(&mut lists.weights, &here, system, frame, by, place);
    Some(WidePlace {
        greatest: place.greatest.max(place.own),
        greatest_den: place.greatest_den.max(place.den),
        product,
        ..place
    })
}

/// The pivot where the row of a side leaves and a variable enters, with the values of the unknowns after it.
fn make_pivot(
    lists: &mut WideLists,
    row: DividedRow,
    system: &WholeSystem,
    frame: &JudgedFrame,
    place: WidePlace,
    leaving: usize,
    entering: usize,
) -> Option<WidePlace>
    requires numbers { HasNumbers system.now frame.now.count frame.now.scales.now frame.now.a.now frame.now.b.now }
    requires lists { AreListsOf system.now place.own (of_wide lists.old) }
    requires row { IsDividedRow system.now frame.now.a.now lists.old.numbers.items (leaving - system.now.width) place.den row.divisor row.rest row.numbers.now }
    requires kept { IsPositionKept system.now (count system.now) lists.old.seats.items frame.now.scales.now place.den lists.old.numbers.items place.greatest place.greatest_den (weights_of lists.old) place.product leaving entering }
    ensures lists { IfSome result (λ p. AreListsOf system.now p.own (of_wide lists.new)) }
    ensures underway { IfSome result (λ p. IsMildlyUnderway system.now (count system.now) lists.new.seats.items frame.now.scales.now p.den lists.new.numbers.items lists.new.firsts.items lists.new.seconds.items p.greatest p.greatest_den (weights_of lists.new) p.product p.first) }
{
    let column = column_of(&lists.seats, entering);
    let after = reduce(
        &mut lists.numbers,
        row.numbers,
        column,
        place.den,
        row.rest,
        place.own,
    )?;
    swap(
        &mut lists.seats,
        &mut lists.nonbasic,
        leaving,
        entering,
        column,
    );
    wide_stand(
        &mut lists.firsts,
        &mut lists.seconds,
        system,
        frame,
        &lists.nonbasic,
        &lists.numbers,
        after.own,
    )?;
    Some(WidePlace {
        den: after.den,
        own: after.own,
        first: system.unknowns(),
        ..place
    })
}

/// If the numbers of a position where no pivot is made leave room for its values.
fn judge_last(
    lists: &WideLists,
    system: &WholeSystem,
    frame: &JudgedFrame,
    place: WidePlace,
) -> Option<()>
    requires numbers { HasNumbers system.now frame.now.count frame.now.scales.now frame.now.a.now frame.now.b.now }
    requires sizes { HasSizes system.now.width frame.now.scales.now frame.now.a.now frame.now.b.now frame.now.norm frame.now.most_scale frame.now.most_side }
    requires lists { AreListsOf system.now place.own (of_wide lists.now) }
    requires some { 0 < place.den }
    ensures { IfSome result (λ _. IsJudged system.now (count system.now) lists.now.seats.items frame.now.scales.now frame.now.a.now frame.now.b.now place.den lists.now.numbers.items 0 0 0) }
{
    let here = Here {
        seats: &lists.seats,
        nonbasic: &lists.nonbasic,
        numbers: &lists.numbers,
        den: place.den,
        own: place.own,
    };
    judge_end(&here, system, frame)
}

/// One turn of the run.
fn judged_step(
    lists: &mut WideLists,
    row: &mut [i128],
    system: &WholeSystem,
    frame: &JudgedFrame,
    place: WidePlace,
) -> Option<JudgedTurn>
    requires numbers { HasNumbers system.now frame.now.count frame.now.scales.now frame.now.a.now frame.now.b.now }
    requires sizes { HasSizes system.now.width frame.now.scales.now frame.now.a.now frame.now.b.now frame.now.norm frame.now.most_scale frame.now.most_side }
    requires lists { AreListsOf system.now place.own (of_wide lists.old) }
    requires row_size { length row.old ≡ system.now.width }
    requires underway { IsMildlyUnderway system.now (count system.now) lists.old.seats.items frame.now.scales.now place.den lists.old.numbers.items lists.old.firsts.items lists.old.seconds.items place.greatest place.greatest_den (weights_of lists.old) place.product place.first }
    ensures same { IfSome result (λ t. IfJudgedEnd t (λ _. lists.new ≡ lists.old)) }
    ensures end { IfSome result (λ t. IfJudgedEnd t (λ e. HasEnded system.now (count system.now) lists.old.seats.items frame.now.scales.now place.den lists.old.numbers.items lists.old.firsts.items lists.old.seconds.items place.greatest place.greatest_den e)) }
    ensures before { IfSome result (λ t. IfJudgedEnd t (λ _. place.product < 2 ^ 127 → AreMildBefore system.now frame.now.scales.now (steps system.now) place.greatest place.greatest_den (weights_of lists.old) place.product)) }
    ensures lists { IfSome result (λ t. IfJudgedNext t (λ p. AreListsOf system.now p.own (of_wide lists.new))) }
    ensures underway { IfSome result (λ t. IfJudgedNext t (λ p. IsMildlyUnderway system.now (count system.now) lists.new.seats.items frame.now.scales.now p.den lists.new.numbers.items lists.new.firsts.items lists.new.seconds.items p.greatest p.greatest_den (weights_of lists.new) p.product p.first)) }
{
    let out = wide_first_out(
        system,
        frame,
        &lists.seats,
        &lists.firsts,
        &lists.seconds,
        place,
    )?;
    let Some(leaving) = out else {
        judge_last(lists, system, frame, place)?;
        return Some(JudgedTurn::Ends(Ending::Point));
    };
    let side = leaving - system.unknowns();
    let short = place.own <= 1 << 62;
    let (divisor, rest) = divided_row(
        row,
        system,
        frame.a,
        &lists.numbers,
        side,
        place.den,
        short,
    )?;
    let Some(entering) = wide_entering(system, &lists.nonbasic, row, frame.count) else {
        judge_last(lists, system, frame, place)?;
        return Some(JudgedTurn::Ends(Ending::Refuted(leaving)));
    };
    let divided = DividedRow {
        numbers: row,
        divisor,
        rest,
    };
    let kept = keep_position(lists, divided, system, frame, place, leaving, entering)?;
    let next = make_pivot(lists, divided, system, frame, kept, leaving, entering)?;
    Some(JudgedTurn::Moves(next))
}

/// The run from a position to its end: where it stands there, and what it ends with. It goes on where the
/// numbers outgrow what one limit for all rows allows: common divisors are taken out of a position's numbers, and
/// each row is judged by its own. `None` where a number doesn't fit 128 bits or a row leaves too little room, which
/// says nothing of the stated run.
pub fn judged_run(
    lists: &mut WideLists,
    row: &mut [i128],
    system: &WholeSystem,
    numbers: &WholeNumbers,
    from: WidePlace,
) -> Option<(WidePlace, Ending)>
    requires whole { IsWholeSystem system.now numbers.now.scales.now numbers.now.a.now numbers.now.b.now }
    requires room { HasRoom system.now.width (2 ^ 62) numbers.now.a.now }
    requires lists { AreListsOf system.now from.own (of_wide lists.old) }
    requires row_size { length row.old ≡ system.now.width }
    requires underway { IsMildlyUnderway system.now (count system.now) lists.old.seats.items numbers.now.scales.now from.den lists.old.numbers.items lists.old.firsts.items lists.old.seconds.items from.greatest from.greatest_den (weights_of lists.old) from.product from.first }
    ensures lists { IfSome result (λ t. AreListsOf system.now t.0.own (of_wide lists.new)) }
    ensures end { IfSome result (λ t. HasEnded system.now (count system.now) lists.new.seats.items numbers.now.scales.now t.0.den lists.new.numbers.items lists.new.firsts.items lists.new.seconds.items t.0.greatest t.0.greatest_den t.1) }
    ensures before { IfSome result (λ t. t.0.product < 2 ^ 127 → AreMildBefore system.now numbers.now.scales.now (steps system.now) t.0.greatest t.0.greatest_den (weights_of lists.new) t.0.product) }
{
    let frame = JudgedFrame {
        scales: numbers.scales,
        a: numbers.a,
        b: numbers.b,
        count: lists.seats.len(),
        norm: norm_of(numbers.a, system.unknowns()),
        most_scale: greatest_scale(numbers.scales) as u128,
        most_side: greatest(numbers.b) as u128,
    };
    let mut place = from;
    'steps: for _ in 0..STEPS {
        let turn = judged_step(lists, row, system, &frame, place)?;
        match turn {
            JudgedTurn::Ends(end) => return Some((place, end)),
            JudgedTurn::Moves(next) => place = next,
        }
    }
    None
}
