//! Runs in whole numbers that are kept where they end.

ghost use Rattle.std.specs.Prelude.{◌≡◌, ℕ, ◌*◌, ◌<◌, ◌≤◌, ◌^◌, [], ◌∷◌, Contains, IsTrue, IfSome, IfOk, None, length, true, false};
ghost use Rattle.mpc_space.specs.Vector.{zeros};
ghost use Rattle.mpc_rows.specs.LinearSystem.{LinearSystem, height, row_at};
ghost use Rattle.mpc_rows.specs.Run.{count, has_point, is_refuted, turn, last_position};
ghost use Rattle.mpc_rows.specs.RunWidth.{RunFits};
ghost use Rattle.mpc_linear.specs.declared.integers.RowInt.{RowInt};
ghost use Rattle.mpc_rows.specs.LawRows.{whole_row, broken_row};
ghost use Rattle.mpc_rows.specs.SetRuns.{turned};
ghost use Rattle.mpc_whole.specs.Lists.{AreListsOf, of_short};
ghost use Rattle.mpc_runs.specs.RunEnd.{IsEnd, IsMultipliers, IsValues, EndsRefuted};
ghost use Rattle.mpc_runs.specs.WholeNumbers.{HasRoom};
ghost use Rattle.mpc_scaled.specs.Scaled.{whole_cell, IsSmall};
ghost use Rattle.mpc_whole.specs.Underway.{turn_of, HasEnded};
ghost use Rattle.mpc_whole.specs.Judged.{most_variables};
ghost use Rattle.mpc_beginnings.specs.Beginnings.{lengthened};
ghost use Rattle.mpc_beginnings.specs.Broken.{IsRefutedEnd, IsBroken, IsBrokenEnd};
ghost use Rattle.mpc_beginnings.specs.Limit.{IsLimit};
ghost use Rattle.mpc_beginnings.specs.Meetings.{IsMeeting, IsMeetingEnd};
ghost use Rattle.mpc_beginnings.specs.RunLists.{lists_of, weight_of, HaveShortValues};
ghost use Rattle.mpc_beginnings.specs.Open.{IsOpenFor};
ghost use Rattle.mpc_beginnings.specs.Kept.{AreNumbers, IsSamePlace, IsNormProduct, row_weight, IsLightRow, HasRoomBefore, AreKept, IsFirstLater, IsLonger, IsUnderwayWithin, IsUnderwayWithRoom, IsRefuted, IsMet};

use crate::lists::{
    KeptLists, begins_with, lengthen, lengthen_wide, no_lists, push, push_turned, put_copies,
    reserve_seats, set_lists, set_opening, set_wide_lists, sizes, top_weight, variables, weight_at,
    widen,
};
use mpc_frac::Frac;
use mpc_linear::RowInt;
use mpc_minors::always_fits;
use mpc_rows::{Multipliers, PairPoint, Row, System};
use mpc_runs::{End, Standing, zero, zero_pairs};
use mpc_scaled::{WholeNumbers, WholeSystem};
use mpc_whole::{
    Ending, MOST_VARIABLES, Place, RunLists, WidePlace, bearing_rows, judged_run, last_multipliers,
    last_values, limit, position_theorems, whole_run, wide_last_multipliers, wide_last_values,
};
use std::alloc::{AllocError, Global};
use std::marker::Model;

/// The numbers of the rows times their scales, with bounds of their sizes.
fn numbers_of(system: &WholeSystem) -> WholeNumbers
    ensures { AreNumbers system.now result }
{
    system.numbers()
}

/// What the numbers of a position may have, if the sizes that are kept of those that stand and of those
/// before are within that.
fn limit_of(system: &WholeSystem, numbers: &WholeNumbers, from: WidePlace) -> Option<u64>
    requires numbers { AreNumbers system.now numbers.now }
    ensures { IfSome result (IsLimit system.now numbers.now from) }
{
    position_theorems();
    let width = system.unknowns();
    let variables = width.checked_add(system.height())?;
    let most = limit(
        width,
        variables,
        numbers.most_entry,
        numbers.most_side,
        numbers.most_scale,
    )?;
    if from.own.max(from.greatest) > most as u128 {
        return None;
    }
    let dens = from.den.max(from.greatest_den);
    let scaled = dens.checked_mul(numbers.most_scale as u128)?;
    if scaled > 1 << 62 {
        return None;
    }
    Some(most)
}

/// What the numbers of a position may have, where those of the lists have 64 bits and are within that.
fn short_limit(
    lists: &KeptLists,
    system: &WholeSystem,
    numbers: &WholeNumbers,
    from: WidePlace,
) -> Option<u64>
    requires numbers { AreNumbers system.now numbers.now }
    ensures { IfSome result (IsLimit system.now numbers.now from) }
{
    if lists.is_wide {
        return None;
    }
    limit_of(system, numbers, from)
}

/// By how many times more a row may have than a number of a position: at least 1.
fn row_norm(width: usize, numbers: &WholeNumbers) -> Option<u64>
    requires entries { IsSmall numbers.now.most_entry numbers.now.a.now }
    ensures some { IfSome result (λ t. 1 ≤ t) }
    ensures norm { IfSome result (λ t. width * numbers.now.most_entry ≤ t) }
    ensures small { IfSome result (λ t. t ≤ 2 ^ 62) }
    ensures room { IfSome result (λ _. HasRoom width (2 ^ 62) numbers.now.a.now) }
{
    let norm = width as u128 * numbers.most_entry as u128;
    if norm > 1 << 62 {
        return None;
    }
    Some(norm.max(1) as u64)
}

/// At least what the numbers and denominators of positions of such sizes weigh.
fn norm_product(width: usize, numbers: &WholeNumbers, place: WidePlace) -> Option<u128>
    requires entries { IsSmall numbers.now.most_entry numbers.now.a.now }
    ensures { IfSome result (IsNormProduct width numbers.now place) }
{
    let norm = row_norm(width, numbers)? as u128;
    let scale = numbers.most_scale as u128;
    let most = place.greatest.max(place.greatest_den);
    let top = norm.checked_mul(most)?.max(1).checked_mul(scale)?;
    let pivots = most.checked_mul(scale)?.checked_mul(top)?;
    let term = most.checked_mul(scale.max(numbers.most_side as u128))?;
    let terms = term.checked_mul(MOST_VARIABLES)?;
    Some(pivots.max(terms))
}

/// The product that is kept of positions with these sizes: the greatest of its type where it isn't known, or where none
/// is to be kept.
fn kept_product(width: usize, numbers: &WholeNumbers, place: WidePlace, keeps: bool) -> u128
    requires entries { IsSmall numbers.now.most_entry numbers.now.a.now }
    ensures { result < 2 ^ 127 → IsNormProduct width numbers.now place result }
{
    if !keeps {
        return u128::MAX;
    }
    match norm_product(width, numbers, place) {
        Some(product) => product,
        None => u128::MAX,
    }
}

/// A size, if it is small.
fn small_size(size: u128) -> Option<u64>
    ensures { IfSome result (λ m. m ≡ size) }
{
    if size > 1 << 62 {
        return None;
    }
    Some(size as u64)
}

/// Where a run stands, if its sizes are small.
fn short_place(place: WidePlace) -> Option<Place>
    ensures { IfSome result (IsSamePlace place) }
{
    Some(Place {
        den: small_size(place.den)?,
        own: small_size(place.own)?,
        greatest: small_size(place.greatest)?,
        greatest_den: small_size(place.greatest_den)?,
        first: place.first,
    })
}

/// Where a run stands, whose product isn't known.
fn wide_place(place: Place) -> WidePlace
    ensures { IsSamePlace result place }
{
    WidePlace {
        den: place.den as u128,
        own: place.own as u128,
        greatest: place.greatest as u128,
        greatest_den: place.greatest_den as u128,
        product: u128::MAX,
        first: place.first,
    }
}

/// The run from a position to its end, where one limit serves for all rows.
fn short_run(
    lists: &mut RunLists,
    row: &mut [i64],
    system: &WholeSystem,
    numbers: &WholeNumbers,
    from: WidePlace,
    most: u64,
) -> Option<(WidePlace, Ending)>
    requires limit { IsLimit system.now numbers.now from most }
    requires numbers { AreNumbers system.now numbers.now }
    requires lists { AreListsOf system.now from.own (of_short lists.old) }
    requires first_small { IsSmall (2 ^ 62) lists.old.firsts.items }
    requires second_small { IsSmall (2 ^ 62) lists.old.seconds.items }
    requires row_size { length row.old ≡ system.now.width }
    requires start { IsUnderwayWithin system.now numbers.now (of_short lists.old) from }
    ensures lists { IfSome result (λ t. AreListsOf system.now t.0.own (of_short lists.new)) }
    ensures small { IfSome result (λ _. IsSmall (2 ^ 62) lists.new.firsts.items × IsSmall (2 ^ 62) lists.new.seconds.items) }
    ensures end { IfSome result (λ t. HasEnded system.now (count system.now) lists.new.seats.items numbers.now.scales.now t.0.den lists.new.numbers.items lists.new.firsts.items lists.new.seconds.items t.0.greatest t.0.greatest_den t.1) }
{
    let start = short_place(from)?;
    let (place, end) = whole_run(lists, row, system, numbers, start, most)?;
    Some((wide_place(place), end))
}

/// The run from a position to its end, where its numbers have 64 bits and one limit serves for all rows.
fn limited_run(
    lists: &mut KeptLists,
    row: &mut [i64],
    system: &WholeSystem,
    numbers: &WholeNumbers,
    from: WidePlace,
    most: u64,
) -> Option<(WidePlace, Ending)>
    requires limit { IsLimit system.now numbers.now from most }
    requires numbers { AreNumbers system.now numbers.now }
    requires lists { AreListsOf system.now from.own (lists_of lists.old) }
    requires short { HaveShortValues lists.old }
    requires row_size { length row.old ≡ system.now.width }
    requires start { IsUnderwayWithin system.now numbers.now (lists_of lists.old) from }
    ensures lists { IfSome result (λ t. AreListsOf system.now t.0.own (lists_of lists.new)) }
    ensures narrow { IfSome result (λ _. lists.new.is_wide ≡ false) }
    ensures short { IfSome result (λ _. HaveShortValues lists.new) }
    ensures end { IfSome result (λ t. HasEnded system.now (count system.now) (lists_of lists.new).seats numbers.now.scales.now t.0.den (lists_of lists.new).numbers (lists_of lists.new).firsts (lists_of lists.new).seconds t.0.greatest t.0.greatest_den t.1) }
{
    if lists.is_wide {
        return None;
    }
    short_run(&mut lists.short, row, system, numbers, from, most)
}

/// The run from a position to its end, where one limit serves for all rows, with what is kept of it. Where no run is
/// to go on from there, nothing is kept of what its positions weigh.
fn run_on(
    lists: &mut KeptLists,
    work: &mut Vec<i64>,
    system: &WholeSystem,
    numbers: &WholeNumbers,
    from: WidePlace,
    most: u64,
    keeps: bool,
) -> Result<Option<(WidePlace, Ending)>, AllocError>
    requires limit { IsLimit system.now numbers.now from most }
    requires numbers { AreNumbers system.now numbers.now }
    requires lists { AreListsOf system.now from.own (lists_of lists.old) }
    requires short { HaveShortValues lists.old }
    requires start { IsUnderwayWithin system.now numbers.now (lists_of lists.old) from }
    ensures { IfOk result (λ o. IfSome o (λ t. AreKept system.now numbers.now.scales.now lists.new t.0 t.1)) }
{
    position_theorems();
    let width = system.unknowns();
    lengthen(work, width)?;
    let (row, _) = work.split_at_mut(width);
    match limited_run(lists, row, system, numbers, from, most) {
        Some((place, end)) => {
            let product = kept_product(width, numbers, place, keeps);
            Ok(Some((WidePlace { product, ..place }, end)))
        }
        None => Ok(None),
    }
}

/// The product, if it is at most 2^125.
fn small_product(left: u128, right: u128) -> Option<u128>
    ensures value { IfSome result (λ z. z ≡ left * right) }
    ensures small { IfSome result (λ z. z ≤ 2 ^ 125) }
{
    let product = left.checked_mul(right)?;
    if product > 1 << 125 {
        return None;
    }
    Some(product)
}

/// What a row weighs at the positions before, if that fits.
fn row_weight(
    lists: &KeptLists,
    system: &WholeSystem,
    numbers: &WholeNumbers,
    product: u128,
    row: usize,
) -> Option<u128>
    requires numbers { AreNumbers system.now numbers.now }
    requires row { row < height system.now }
    ensures { IfSome result (λ weight. weight ≡ row_weight (weight_of lists.now product) (whole_cell system.now.width numbers.now.a.now row) system.now.width) }
{
    let width = system.unknowns();
    let mut sum: u128 = 0;
    for unknown in 0..width {
        let size = numbers.a[row * width + unknown].unsigned_abs() as u128;
        let term = size.checked_mul(weight_at(lists, product, unknown))?;
        sum = sum.checked_add(term)?;
    }
    Some(sum)
}

/// If a row has room at the positions before.
fn is_light(
    lists: &KeptLists,
    system: &WholeSystem,
    numbers: &WholeNumbers,
    from: WidePlace,
    row: usize,
) -> Option<()>
    requires numbers { AreNumbers system.now numbers.now }
    requires few { count system.now ≤ most_variables }
    requires row { row < height system.now }
    ensures { IfSome result (λ _. IsLightRow system.now numbers.now (weight_of lists.now from.product) from row) }
{
    let width = system.unknowns();
    let scale = numbers.scales[width + row] as u128;
    let _ = small_product(from.greatest_den, scale)?;
    let _ = small_product(from.product, scale)?;
    let weight = row_weight(lists, system, numbers, from.product, row)?;
    let _ = small_product(weight, 1)?;
    Some(())
}

/// If the greatest sizes of the system's numbers show that all its rows have room at the positions before.
fn are_all_light(
    lists: &KeptLists,
    system: &WholeSystem,
    numbers: &WholeNumbers,
    from: WidePlace,
    norm: u64,
) -> Option<()>
    requires numbers { AreNumbers system.now numbers.now }
    requires few { count system.now ≤ most_variables }
    requires norm { system.now.width * numbers.now.most_entry ≤ norm }
    ensures { IfSome result (λ _. (i : ℕ) → i < height system.now → IsLightRow system.now numbers.now (weight_of lists.now from.product) from i) }
{
    let width = system.unknowns();
    let scale = numbers.most_scale as u128;
    let _ = small_product(from.greatest_den, scale)?;
    let _ = small_product(from.product, scale)?;
    let _ = small_product(top_weight(lists, from.product, width), norm as u128)?;
    Some(())
}

/// If the rows of the system from this one on have room at the positions before, which is known of the others. Mostly
/// the greatest sizes show it, and the rows aren't looked at.
fn room_before(
    lists: &KeptLists,
    system: &WholeSystem,
    numbers: &WholeNumbers,
    from: WidePlace,
    first: usize,
) -> Option<()>
    requires { AreNumbers system.now numbers.now }
    ensures room { IfSome result (λ _. HasRoom system.now.width (2 ^ 62) numbers.now.a.now) }
    ensures before { IfSome result (λ _. HasRoomBefore system.now numbers.now (weight_of lists.now from.product) from first) }
{
    let width = system.unknowns();
    let norm = row_norm(width, numbers)?;
    let variables = width.checked_add(system.height())?;
    if variables as u128 > MOST_VARIABLES {
        return None;
    }
    if from.product > i128::MAX as u128 {
        return None;
    }
    if let Some(()) = are_all_light(lists, system, numbers, from, norm) {
        return Some(());
    }
    for row in first..system.height() {
        is_light(lists, system, numbers, from, row)?;
    }
    Some(())
}

/// The run from a position to its end, where each row is judged by its own numbers. The rows from the first on that
/// is given weren't there at the positions before. Where no run is to go on from its end, nothing is kept of what its
/// positions weigh.
fn judge_on(
    lists: &mut KeptLists,
    work: &mut Vec<i128>,
    system: &WholeSystem,
    numbers: &WholeNumbers,
    from: WidePlace,
    first: usize,
    keeps: bool,
) -> Result<Option<(WidePlace, Ending)>, AllocError>
    requires numbers { AreNumbers system.now numbers.now }
    requires lists { AreListsOf system.now from.own (lists_of lists.old) }
    requires start { IsUnderwayWithRoom system.now numbers.now (lists_of lists.old) (weight_of lists.old from.product) from first }
    ensures { IfOk result (λ o. IfSome o (λ t. AreKept system.now numbers.now.scales.now lists.new t.0 t.1)) }
{
    let width = system.unknowns();
    lengthen_wide(work, width)?;
    let Some(()) = room_before(lists, system, numbers, from, first) else {
        return Ok(None);
    };
    widen(lists, from.product)?;
    let (row, _) = work.split_at_mut(width);
    let product = if keeps { from.product } else { u128::MAX };
    let start = WidePlace { product, ..from };
    match judged_run(&mut lists.wide, row, system, numbers, start) {
        Some(found) => Ok(Some(found)),
        None => Ok(None),
    }
}

/// Writes the multipliers that aren't 0 at the last position, where the row of this side refutes.
fn put_multipliers(
    list: &mut [Frac],
    row: &mut [i128],
    system: &WholeSystem,
    numbers: &WholeNumbers,
    lists: &KeptLists,
    place: WidePlace,
    side: usize,
) -> Option<()>
    requires zeros { list.old ≡ zeros (height system.now) }
    requires row_room { length row.old ≡ system.now.width }
    requires numbers { AreNumbers system.now numbers.now }
    requires kept { AreKept system.now numbers.now.scales.now lists.now place (Ending.Refuted side) }
    ensures { IfSome result (λ _. IsMultipliers system.now (last_position system.now) side list.new) }
{
    if lists.is_wide {
        return wide_last_multipliers(list, row, system, numbers, &lists.wide, place.den, side);
    }
    last_multipliers(list, row, system, numbers, &lists.short, place.den, side)
}

/// So many zeros.
fn zeros(alloc: Global, count: usize) -> Result<Vec<Frac>, AllocError>
    ensures { IfOk result (λ list. list.items ≡ zeros count) }
{
    vec![in alloc; zero(); count]
}

/// The multipliers at the last position, where the row of this side refutes.
fn multipliers_of(
    alloc: Global,
    work: &mut Vec<i128>,
    system: &WholeSystem,
    numbers: &WholeNumbers,
    lists: &KeptLists,
    place: WidePlace,
    side: usize,
) -> Result<Option<Multipliers>, AllocError>
    requires numbers { AreNumbers system.now numbers.now }
    requires kept { AreKept system.now numbers.now.scales.now lists.now place (Ending.Refuted side) }
    ensures { IfOk result (λ o. IfSome o (EndsRefuted system.now)) }
{
    let width = system.unknowns();
    lengthen_wide(work, width)?;
    let mut list = zeros(alloc, system.height())?;
    let (row, _) = work.split_at_mut(width);
    match put_multipliers(&mut list, row, system, numbers, lists, place, side) {
        Some(()) => Ok(Some(Multipliers::of(list))),
        None => Ok(None),
    }
}

/// Whether the run ends with a point.
fn is_point(end: Ending) -> bool
    ensures point { IsTrue result → turn_of end ≡ has_point }
    ensures refuted { result ≡ false → (l : ℕ) × (turn_of end ≡ is_refuted l) }
{
    match end {
        Ending::Point => true,
        Ending::Refuted(_) => false,
    }
}

/// The variable whose row refutes, where the run ends without a point.
fn refuting_side(end: Ending) -> Option<usize> {
    match end {
        Ending::Point => None,
        Ending::Refuted(side) => Some(side),
    }
}

/// What is needed only during a run: a row, with numbers of 64 bits and with those of 128.
#[derive(Drop)]
struct Rows {
    short: Vec<i64>,
    wide: Vec<i128>,
}

/// Lists that runs use, one after the other.
pub struct Workspace {
    rows: Rows,
    /// The system that further rows are put behind, one run after the other.
    system: Option<WholeSystem>,
    /// Where the run of the longer system stands.
    lists: KeptLists,
    /// The variable whose row showed last that a longer system has no point.
    refuting: Option<usize>,
}

/// It is dropped in many places, so the program has this once.
impl Drop for Workspace {
    #[inline(never)]
    fn drop(self) {
        let Workspace {
            rows: _,
            system: _,
            lists: _,
            refuting: _,
        } = self;
    }
}

impl Workspace {
    /// Lists that take no memory before the first run.
    pub fn new(alloc: Global) -> Self {
        Workspace {
            rows: Rows {
                short: Vec::new(alloc),
                wide: Vec::new(alloc),
            },
            system: None,
            lists: no_lists(alloc),
            refuting: None,
        }
    }

    /// The row at this place, from 0, among those on which the last meeting that was missed hangs: one for each column of
    /// its last position, then the one that refutes there. Nothing where an unknown stands in the column. No clause
    /// says so: whoever takes these rows tests them.
    pub fn bearing_row(&self, place: usize) -> Option<usize> {
        let side = self.refuting?;
        let columns = if self.lists.is_wide {
            self.lists.wide.nonbasic.as_slice()
        } else {
            self.lists.short.nonbasic.as_slice()
        };
        let variable = if place < columns.len() {
            columns[place]
        } else {
            side
        };
        variable.checked_sub(columns.len())
    }
}

/// The end of a run.
#[derive(Drop)]
struct Ended {
    /// The scales that the numbers are by: 1 for each unknown, then one for each row.
    scales: Vec<u64>,
    /// The lists at the last position.
    lists: KeptLists,
    place: WidePlace,
    end: Ending,
}

/// Writes the values of the unknowns where a run has ended.
fn put_values(values: &mut [Standing], system: &WholeSystem, last: &Ended) -> Option<()>
    requires room { length values.old ≡ system.now.width }
    requires kept { AreKept system.now last.now.scales.items last.now.lists last.now.place last.now.end }
    ensures { IfSome result (λ _. IsValues system.now (last_position system.now) values.new) }
{
    let lists = &last.lists;
    let den = last.place.den;
    if lists.is_wide {
        return wide_last_values(values, system, &lists.wide.firsts, &lists.wide.seconds, den);
    }
    last_values(
        values,
        system,
        &lists.short.firsts,
        &lists.short.seconds,
        den,
    )
}

/// The end of a run that stands in these lists, with a copy of the scales.
fn kept_end(
    alloc: Global,
    scales: &[u64],
    lists: KeptLists,
    place: WidePlace,
    end: Ending,
) -> Result<Ended, AllocError>
    ensures { IfOk result (λ e. (s : LinearSystem) → AreKept s scales.now lists place end → AreKept s e.scales.items e.lists e.place e.end) }
{
    let scales = scales.to_vec(alloc)?;
    Ok(Ended {
        scales,
        lists,
        place,
        end,
    })
}

/// A system whose run in whole numbers is kept where it ends. The end lies in memory of its own, so that what may have
/// a run is small: mostly there is none.
pub struct KeptRun {
    system: WholeSystem,
    last: Box<Ended>,
}

/// It is dropped in many places, so the program has this once.
impl Drop for KeptRun {
    #[inline(never)]
    fn drop(self) {
        let KeptRun { system: _, last: _ } = self;
    }
}

impl Model for KeptRun {
    ghost use Rattle.mpc_rows.specs.LinearSystem.{LinearSystem};

    ghost Value = { LinearSystem };

    ghost use Rattle.mpc_beginnings.specs.Kept.{AreKept};

    ghost view = { λ r. r.system };

    ghost invariant = { λ r. AreKept r.system r.last.value.scales.items r.last.value.lists r.last.value.place r.last.value.end };
}

/// The run of a system from its opening to its end, where whole numbers serve for it. It keeps what its positions weigh
/// where a run is to go on from its end.
fn first_run(
    lists: &mut KeptLists,
    work: &mut Rows,
    system: &WholeSystem,
    numbers: &WholeNumbers,
    keeps: bool,
) -> Result<Option<(WidePlace, Ending)>, AllocError>
    requires numbers { AreNumbers system.now numbers.now }
    ensures { IfOk result (λ o. IfSome o (λ t. AreKept system.now numbers.now.scales.now lists.new t.0 t.1)) }
{
    position_theorems();
    let width = system.unknowns();
    let height = system.height();
    let Some((variables, square)) = sizes(height, width) else {
        return Ok(None);
    };
    let from = WidePlace {
        den: 1,
        own: 1,
        greatest: 0,
        greatest_den: 0,
        product: 0,
        first: width,
    };
    if let Some(most) = limit_of(system, numbers, from) {
        set_opening(lists, system, variables, square)?;
        if let Some(found) = run_on(lists, &mut work.short, system, numbers, from, most, keeps)? {
            return Ok(Some(found));
        }
    }
    set_opening(lists, system, variables, square)?;
    judge_on(lists, &mut work.wide, system, numbers, from, height, keeps)
}

/// The end of the run of a system from its opening, where whole numbers serve for it.
fn first_end(
    alloc: Global,
    work: &mut Rows,
    system: &WholeSystem,
) -> Result<Option<Ended>, AllocError>
    ensures { IfOk result (λ o. IfSome o (λ e. AreKept system.now e.scales.items e.lists e.place e.end)) }
{
    let mut lists = no_lists(alloc);
    let numbers = numbers_of(system);
    match first_run(&mut lists, work, system, &numbers, true)? {
        Some((place, end)) => {
            let last = kept_end(alloc, numbers.scales, lists, place, end)?;
            Ok(Some(last))
        }
        None => Ok(None),
    }
}

/// The run of a system that has this end.
fn kept_run(alloc: Global, system: WholeSystem, last: Ended) -> Result<KeptRun, AllocError>
    requires { AreKept system last.scales.items last.lists last.place last.end }
    ensures { IfOk result (λ r. r ≡ system) }
{
    let last = Box::new(alloc, last)?;
    Ok(KeptRun { system, last })
}

/// What is kept of a run that stands at its end in these lists, in lists of its own.
fn kept_copy(
    alloc: Global,
    system: &WholeSystem,
    scales: &[u64],
    lists: &KeptLists,
    place: WidePlace,
    end: Ending,
) -> Result<KeptRun, AllocError>
    requires { AreKept system.now scales.now lists.now place end }
    ensures { IfOk result (λ r. r ≡ system.now) }
{
    let own = system.copy_with_room(alloc, 0)?;
    let mut copies = no_lists(alloc);
    put_copies(&mut copies, lists)?;
    let last = kept_end(alloc, scales, copies, place, end)?;
    kept_run(alloc, own, last)
}

/// Whether no bound of the first numbers is above twice that of the others.
fn are_near(longer: &WholeNumbers, own: &WholeNumbers) -> bool {
    longer.most_entry / 2 <= own.most_entry
        && longer.most_side / 2 <= own.most_side
        && longer.most_scale / 2 <= own.most_scale
}

/// What the run of a system with a row behind that is met where another fails ends with.
#[derive(Drop)]
pub enum Broken {
    /// A point, where the other row fails. The run comes with it, kept where it ends.
    Point(KeptRun),
    /// No point, as these multipliers show.
    Refuted(Multipliers),
}

/// What the run of a system with further rows behind ends with.
#[derive(Clone, Copy, Drop)]
pub enum Meeting {
    /// A point.
    Point,
    /// No point, as the further rows show with no more than so many of the first ones.
    Missed(usize),
}

/// What a run that ended so tells of its system, where so many of the rows are the first ones. Where its numbers are
/// wide they all count.
fn meeting_of(
    system: &WholeSystem,
    numbers: &WholeNumbers,
    lists: &KeptLists,
    found: (WidePlace, Ending),
    first: usize,
) -> Meeting
    requires numbers { AreNumbers system.now numbers.now }
    requires kept { AreKept system.now numbers.now.scales.now lists.now found.0 found.1 }
    requires first { first ≤ height system.now }
    ensures { IsMeetingEnd system.now first result }
{
    match found.1 {
        Ending::Point => Meeting::Point,
        Ending::Refuted(_) if lists.is_wide => Meeting::Missed(first),
        Ending::Refuted(side) => {
            Meeting::Missed(bearing_rows(system, numbers, &lists.short, side, first))
        }
    }
}

/// Whether it is a point.
fn is_met(meeting: Option<Meeting>) -> Option<bool>
    ensures { (s : LinearSystem) (h : ℕ) → IfSome meeting (IsMeetingEnd s h) → IfSome result (IsMet s) }
{
    match meeting {
        Some(Meeting::Point) => Some(true),
        Some(Meeting::Missed(_)) => Some(false),
        None => None,
    }
}

impl KeptRun {
    /// The run of the system, kept where it ends. `None` where whole numbers don't serve for it.
    pub fn begin(
        alloc: Global,
        work: &mut Workspace,
        system: WholeSystem,
    ) -> Result<Option<KeptRun>, AllocError>
        ensures { IfOk result (λ o. IfSome o (λ r. r ≡ system)) }
    {
        match first_end(alloc, &mut work.rows, &system)? {
            Some(last) => Ok(Some(kept_run(alloc, system, last)?)),
            None => Ok(None),
        }
    }

    /// The run of the system with one more row, from where this one ends on or anew. `None` where whole
    /// numbers don't serve for it.
    pub fn extend(
        &self,
        alloc: Global,
        work: &mut Workspace,
        row: &Row,
    ) -> Result<Option<KeptRun>, AllocError>
        requires { length row.now.a ≡ self.now.width }
        ensures { IfOk result (λ o. IfSome o (λ r. r ≡ lengthened self.now (row.now ∷ []))) }
    {
        let mut longer = self.system.copy_with_room(alloc, 1)?;
        if push(&mut longer, row)? {
            self.kept_longer(alloc, work, longer)
        } else {
            Ok(None)
        }
    }

    /// The run of the system with its row at the index, from 0, the other way round behind its own, from where
    /// this one ends on or anew. `None` where whole numbers don't serve for it.
    pub fn extend_turned(
        &self,
        alloc: Global,
        work: &mut Workspace,
        index: usize,
    ) -> Result<Option<KeptRun>, AllocError>
        requires { index < height self.now }
        ensures { IfOk result (λ o. IfSome o (λ r. r ≡ lengthened self.now (turned (row_at self.now index) ∷ []))) }
    {
        let mut longer = self.system.copy_with_room(alloc, 1)?;
        if push_turned(&mut longer, index)? {
            self.kept_longer(alloc, work, longer)
        } else {
            Ok(None)
        }
    }

    /// The run of a system with further rows behind this one's, in lists of its own.
    fn kept_longer(
        &self,
        alloc: Global,
        work: &mut Workspace,
        system: WholeSystem,
    ) -> Result<Option<KeptRun>, AllocError>
        requires { IsLonger self.now system }
        ensures { IfOk result (λ o. IfSome o (λ r. r ≡ system)) }
    {
        match self.longer_end(alloc, &mut work.rows, &system)? {
            Some(last) => Ok(Some(kept_run(alloc, system, last)?)),
            None => Ok(None),
        }
    }

    /// The end of the run of a system with further rows behind this one's, in lists of its own.
    fn longer_end(
        &self,
        alloc: Global,
        work: &mut Rows,
        longer: &WholeSystem,
    ) -> Result<Option<Ended>, AllocError>
        requires { IsLonger self.now longer.now }
        ensures { IfOk result (λ o. IfSome o (λ e. AreKept longer.now e.scales.items e.lists e.place e.end)) }
    {
        let seats = longer.unknowns().saturating_add(longer.height());
        let mut lists = no_lists(alloc);
        reserve_seats(&mut lists, &self.last().lists, seats)?;
        let numbers = numbers_of(longer);
        match self.run_longer(&mut lists, work, longer, &numbers, true)? {
            Some((place, end)) => {
                let last = kept_end(alloc, numbers.scales, lists, place, end)?;
                Ok(Some(last))
            }
            None => Ok(None),
        }
    }

    /// Where the run ends.
    fn last(&self) -> &Ended
        ensures { AreKept self.now result.now.scales.items result.now.lists result.now.place result.now.end }
    {
        &self.last
    }

    /// Whether the run ends with a point. No number that it forms is wide.
    pub fn has_point(&self) -> bool
        ensures point { IsTrue result → turn self.now (last_position self.now) ≡ has_point }
        ensures refuted { result ≡ false → IsRefuted self.now }
        ensures fits { RunFits self.now }
    {
        is_point(self.last().end)
    }

    /// The first variable that may leave where the run ends, with whatever rows behind: where it ends
    /// with a point, the side of the first further row.
    fn first_later(&self) -> usize
        ensures { IsFirstLater self.now result }
    {
        let last = self.last();
        match last.end {
            Ending::Point => variables(&last.lists),
            Ending::Refuted(_) => self.system.unknowns(),
        }
    }

    /// The run of a system with further rows behind this one's, from where this one ends on.
    fn go_on(
        &self,
        lists: &mut KeptLists,
        work: &mut Rows,
        longer: &WholeSystem,
        numbers: &WholeNumbers,
        keeps: bool,
    ) -> Result<Option<(WidePlace, Ending)>, AllocError>
        requires longer { IsLonger self.now longer.now }
        requires numbers { AreNumbers longer.now numbers.now }
        ensures { IfOk result (λ o. IfSome o (λ t. AreKept longer.now numbers.now.scales.now lists.new t.0 t.1)) }
    {
        position_theorems();
        let last = self.last();
        if !begins_with(numbers.scales, &last.scales) {
            return Ok(None);
        }
        let from = WidePlace {
            first: self.first_later(),
            ..last.place
        };
        let height = self.system.height();
        if let Some(most) = short_limit(&last.lists, longer, numbers, from) {
            set_lists(lists, &last.lists, height, longer.height())?;
            if let Some(found) = run_on(
                lists,
                &mut work.short,
                longer,
                numbers,
                from,
                most,
                keeps,
            )? {
                return Ok(Some(found));
            }
        }
        set_wide_lists(lists, &last.lists, height, longer.height(), from.product)?;
        judge_on(lists, &mut work.wide, longer, numbers, from, height, keeps)
    }

    /// Whether the longer run, where it fails from here on, fails anew too: nothing divides all numbers that stand
    /// here and their denominator, and the sizes that are kept leave it room at the positions before.
    fn fails_alike(&self, longer: &WholeSystem, numbers: &WholeNumbers) -> bool
        requires { AreNumbers longer.now numbers.now }
    {
        let last = self.last();
        let is_reduced = last.lists.is_wide || last.place.den == 1;
        let first = self.system.height();
        is_reduced && room_before(&last.lists, longer, numbers, last.place, first).is_some()
    }

    /// The run of a system with further rows behind this one's: from where this one ends on, or else
    /// anew, where the rows are judged more closely at positions that are formed again.
    fn run_longer(
        &self,
        lists: &mut KeptLists,
        work: &mut Rows,
        longer: &WholeSystem,
        numbers: &WholeNumbers,
        keeps: bool,
    ) -> Result<Option<(WidePlace, Ending)>, AllocError>
        requires longer { IsLonger self.now longer.now }
        requires numbers { AreNumbers longer.now numbers.now }
        ensures { IfOk result (λ o. IfSome o (λ t. AreKept longer.now numbers.now.scales.now lists.new t.0 t.1)) }
    {
        if let Some(found) = self.go_on(lists, work, longer, numbers, keeps)? {
            return Ok(Some(found));
        }
        if self.fails_alike(longer, numbers) {
            return Ok(None);
        }
        first_run(lists, work, longer, numbers, keeps)
    }

    /// What the run of a system with further rows behind this one's ends with.
    fn meeting_longer(
        &self,
        work: &mut Workspace,
        longer: &WholeSystem,
    ) -> Result<Option<Meeting>, AllocError>
        requires { IsLonger self.now longer.now }
        ensures { IfOk result (λ o. IfSome o (IsMeetingEnd longer.now (height self.now))) }
    {
        let numbers = numbers_of(longer);
        let first = self.system.height();
        match self.run_longer(&mut work.lists, &mut work.rows, longer, &numbers, false)? {
            Some(found) => {
                work.refuting = refuting_side(found.1);
                Ok(Some(meeting_of(longer, &numbers, &work.lists, found, first)))
            }
            None => Ok(None),
        }
    }

    /// The multipliers at the end of the run of a system with further rows behind this one's, where it ends refuted.
    fn longer_multipliers(
        &self,
        alloc: Global,
        work: &mut Workspace,
        longer: &WholeSystem,
    ) -> Result<Option<Multipliers>, AllocError>
        requires { IsLonger self.now longer.now }
        ensures { IfOk result (λ o. IfSome o (IsRefutedEnd longer.now)) }
    {
        let numbers = numbers_of(longer);
        match self.run_longer(&mut work.lists, &mut work.rows, longer, &numbers, false)? {
            Some((place, Ending::Refuted(side))) => {
                let wide = &mut work.rows.wide;
                multipliers_of(alloc, wide, longer, &numbers, &work.lists, place, side)
            }
            Some((_, Ending::Point)) => Ok(None),
            None => Ok(None),
        }
    }

    /// What the run of a system with a row behind this one's ends with.
    fn longer_broken(
        &self,
        alloc: Global,
        work: &mut Workspace,
        longer: &WholeSystem,
    ) -> Result<Option<Broken>, AllocError>
        requires { IsLonger self.now longer.now }
        ensures { IfOk result (λ o. IfSome o (IsBrokenEnd longer.now)) }
    {
        let numbers = numbers_of(longer);
        match self.run_longer(&mut work.lists, &mut work.rows, longer, &numbers, true)? {
            Some((place, Ending::Point)) => {
                let end = Ending::Point;
                let run = kept_copy(alloc, longer, numbers.scales, &work.lists, place, end)?;
                Ok(Some(Broken::Point(run)))
            }
            Some((place, Ending::Refuted(side))) => {
                let wide = &mut work.rows.wide;
                match multipliers_of(alloc, wide, longer, &numbers, &work.lists, place, side)? {
                    Some(multipliers) => Ok(Some(Broken::Refuted(multipliers))),
                    None => Ok(None),
                }
            }
            None => Ok(None),
        }
    }

    /// A copy of this run's system, in lists that the workspace has or in new ones.
    fn scratch(&self, alloc: Global, work: &mut Workspace) -> Result<WholeSystem, AllocError>
        ensures system { IfOk result (λ s. s ≡ self.now) }
        ensures none { work.new.system ≡ None }
    {
        let mut system = match work.system.take() {
            Some(system) => system,
            None => WholeSystem::new(alloc, 0)?,
        };
        system.set_to(&self.system)?;
        Ok(system)
    }

    /// Opens the workspace for runs with further rows behind this one's: its system becomes a copy of
    /// this run's.
    pub fn open(&self, alloc: Global, work: &mut Workspace) -> Result<(), AllocError>
        ensures { IsOpenFor self.now work.new }
    {
        let system = self.scratch(alloc, work)?;
        work.system = Some(system);
        Ok(())
    }

    /// The system of a workspace that is open for this run, or a new copy where it has none.
    fn opened(&self, alloc: Global, work: &mut Workspace) -> Result<WholeSystem, AllocError>
        requires { IsOpenFor self.now work.old }
        ensures system { IfOk result (λ s. s ≡ self.now) }
        ensures none { work.new.system ≡ None }
    {
        match work.system.take() {
            Some(system) => Ok(system),
            None => self.scratch(alloc, work),
        }
    }

    /// Sets a longer system back to this run's; says whether it is that. Where the rows behind this run's have more
    /// than doubled its bounds, of which the limits of runs are formed, it is copied anew.
    fn set_back(&self, longer: &mut WholeSystem) -> bool
        requires { IsLonger self.now longer.old }
        ensures { IsTrue result → longer.new ≡ self.now }
    {
        if are_near(&longer.numbers(), &self.system.numbers()) {
            longer.truncate(self.system.height());
            return true;
        }
        longer.set_to(&self.system).is_ok()
    }

    /// Puts the system back into the workspace, without the rows behind this run's.
    fn close(&self, work: &mut Workspace, mut longer: WholeSystem)
        requires { IsLonger self.now longer }
        ensures { IsOpenFor self.now work.new }
    {
        work.system = None;
        if self.set_back(&mut longer) {
            work.system = Some(longer);
        }
    }

    /// What the run of the system with these rows behind its own ends with, where the system given is this one. It
    /// becomes the longer one.
    fn meeting_with(
        &self,
        work: &mut Workspace,
        longer: &mut WholeSystem,
        rows: &WholeSystem,
    ) -> Result<Option<Meeting>, AllocError>
        requires same { longer.old ≡ self.now }
        requires rows { rows.now.width ≡ self.now.width }
        ensures longer { IsLonger self.now longer.new }
        ensures met { IfOk result (λ o. IfSome o (IsMeetingEnd (lengthened self.now rows.now.rows) (height self.now))) }
    {
        longer.append(rows)?;
        self.meeting_longer(work, longer)
    }

    /// The multipliers at the end of the run of the system with these rows behind its own, where it ends refuted and the
    /// system given is this one. It becomes the longer one.
    fn multipliers_with(
        &self,
        alloc: Global,
        work: &mut Workspace,
        longer: &mut WholeSystem,
        rows: &WholeSystem,
    ) -> Result<Option<Multipliers>, AllocError>
        requires same { longer.old ≡ self.now }
        requires rows { rows.now.width ≡ self.now.width }
        ensures longer { IsLonger self.now longer.new }
        ensures end { IfOk result (λ o. IfSome o (IsRefutedEnd (lengthened self.now rows.now.rows))) }
    {
        longer.append(rows)?;
        self.longer_multipliers(alloc, work, longer)
    }

    /// Whether the run of the system with its row at the index, from 0, the other way round behind its own ends with
    /// a point, where the system given is this one. It may become the longer one.
    fn meets_with_turned(
        &self,
        work: &mut Workspace,
        longer: &mut WholeSystem,
        index: usize,
    ) -> Result<Option<bool>, AllocError>
        requires same { longer.old ≡ self.now }
        requires row { index < height self.now }
        ensures { IfOk result (λ o. IfSome o (IsMet (lengthened self.now (turned (row_at self.now index) ∷ [])))) }
    {
        if push_turned(longer, index)? {
            let meeting = self.meeting_longer(work, longer)?;
            Ok(is_met(meeting))
        } else {
            Ok(None)
        }
    }

    /// What the run of the system with the row behind its own that is met where this row fails ends
    /// with, where the system given is this one. It may become the longer one.
    fn end_broken(
        &self,
        alloc: Global,
        work: &mut Workspace,
        longer: &mut WholeSystem,
        row: &RowInt,
    ) -> Result<Option<Broken>, AllocError>
        requires same { longer.old ≡ self.now }
        requires row { length row.now.a ≡ self.now.width }
        ensures longer { IsLonger self.now longer.new }
        ensures end { IfOk result (λ o. IfSome o (IsBrokenEnd (lengthened self.now (broken_row row.now ∷ [])))) }
    {
        if longer.push_broken(row)? {
            self.longer_broken(alloc, work, longer)
        } else {
            Ok(None)
        }
    }

    /// What the run of the system with these rows behind its own ends with, from where this one ends on
    /// or anew, in a workspace that is open for this run and stays so. `None` where whole numbers don't
    /// serve for it, and else no number that it forms is wide.
    ///
    /// It takes no memory where the lists of the workspace are long enough.
    pub fn meeting(
        &self,
        alloc: Global,
        work: &mut Workspace,
        rows: &WholeSystem,
    ) -> Result<Option<Meeting>, AllocError>
        requires width { rows.now.width ≡ self.now.width }
        requires open { IsOpenFor self.now work.old }
        ensures open { IsOpenFor self.now work.new }
        ensures meeting { IfOk result (λ o. IfSome o (IsMeeting (lengthened self.now rows.now.rows) (height self.now))) }
        ensures fits { IfOk result (λ o. IfSome o (λ _. RunFits (lengthened self.now rows.now.rows))) }
    {
        let mut system = self.opened(alloc, work)?;
        let meeting = self.meeting_with(work, &mut system, rows);
        self.close(work, system);
        meeting
    }

    /// The multipliers at the end of the run of the system with these rows behind its own, from where this one ends on or
    /// anew, in a workspace that is open for this run and stays so. `None` where that run ends with a point or whole numbers
    /// don't serve for it, and else no number that it forms is wide.
    pub fn refute(
        &self,
        alloc: Global,
        work: &mut Workspace,
        rows: &WholeSystem,
    ) -> Result<Option<Multipliers>, AllocError>
        requires width { rows.now.width ≡ self.now.width }
        requires open { IsOpenFor self.now work.old }
        ensures open { IsOpenFor self.now work.new }
        ensures end { IfOk result (λ o. IfSome o (EndsRefuted (lengthened self.now rows.now.rows))) }
        ensures fits { IfOk result (λ o. IfSome o (λ _. RunFits (lengthened self.now rows.now.rows))) }
    {
        let mut system = self.opened(alloc, work)?;
        let multipliers = self.multipliers_with(alloc, work, &mut system, rows);
        self.close(work, system);
        multipliers
    }

    /// Whether the sizes of the numbers show that the run of the system with these rows behind its own forms no number
    /// that is wide, nor that with the strict row alone that is met where one of them fails. No run is made.
    pub fn fits_with(&self, rows: &WholeSystem) -> bool
        requires { rows.now.width ≡ self.now.width }
        ensures all { IsTrue result → RunFits (lengthened self.now rows.now.rows) }
        ensures broken { IsTrue result → (row : RowInt) → Contains rows.now.rows (whole_row row) → RunFits (lengthened self.now (broken_row row ∷ [])) }
    {
        always_fits(&self.system, rows)
    }

    /// Whether the run of the system with these rows behind its own ends with a point, from where
    /// this one ends on or anew, in a workspace that is open for this run and stays so. `None` where
    /// whole numbers don't serve for it, and else no number that it forms is wide.
    ///
    /// It takes no memory where the lists of the workspace are long enough.
    pub fn meets(
        &self,
        alloc: Global,
        work: &mut Workspace,
        rows: &WholeSystem,
    ) -> Result<Option<bool>, AllocError>
        requires width { rows.now.width ≡ self.now.width }
        requires open { IsOpenFor self.now work.old }
        ensures open { IsOpenFor self.now work.new }
        ensures point { IfOk result (λ o. IfSome o (λ yes. IsTrue yes → turn (lengthened self.now rows.now.rows) (last_position (lengthened self.now rows.now.rows)) ≡ has_point)) }
        ensures refuted { IfOk result (λ o. IfSome o (λ yes. yes ≡ false → IsRefuted (lengthened self.now rows.now.rows))) }
        ensures fits { IfOk result (λ o. IfSome o (λ _. RunFits (lengthened self.now rows.now.rows))) }
    {
        let meeting = self.meeting(alloc, work, rows)?;
        Ok(is_met(meeting))
    }

    /// Whether the run of the system with its row at the index, from 0, the other way round behind its own ends with
    /// a point, from where this one ends on or anew. `None` where whole numbers don't serve for it, and
    /// else no number that it forms is wide.
    ///
    /// It takes no memory where the lists of the workspace are long enough.
    pub fn meets_turned(
        &self,
        alloc: Global,
        work: &mut Workspace,
        index: usize,
    ) -> Result<Option<bool>, AllocError>
        requires { index < height self.now }
        ensures point { IfOk result (λ o. IfSome o (λ yes. IsTrue yes → turn (lengthened self.now (turned (row_at self.now index) ∷ [])) (last_position (lengthened self.now (turned (row_at self.now index) ∷ []))) ≡ has_point)) }
        ensures refuted { IfOk result (λ o. IfSome o (λ yes. yes ≡ false → IsRefuted (lengthened self.now (turned (row_at self.now index) ∷ [])))) }
        ensures fits { IfOk result (λ o. IfSome o (λ _. RunFits (lengthened self.now (turned (row_at self.now index) ∷ [])))) }
    {
        let mut system = self.scratch(alloc, work)?;
        let met = self.meets_with_turned(work, &mut system, index);
        work.system = Some(system);
        met
    }

    /// What the run of the system with the strict row behind its own that is met where this row fails
    /// ends with, from where this one ends on or anew, in a workspace that is open for this run and stays
    /// so. `None` where whole numbers don't serve for it, and else no number that it forms is wide.
    ///
    /// Where the row fails nowhere it takes no memory but for the multipliers, if the lists of the
    /// workspace are long enough.
    pub fn breaks(
        &self,
        alloc: Global,
        work: &mut Workspace,
        row: &RowInt,
    ) -> Result<Option<Broken>, AllocError>
        requires width { length row.now.a ≡ self.now.width }
        requires open { IsOpenFor self.now work.old }
        ensures open { IsOpenFor self.now work.new }
        ensures end { IfOk result (λ o. IfSome o (IsBroken (lengthened self.now (broken_row row.now ∷ [])))) }
        ensures fits { IfOk result (λ o. IfSome o (λ _. RunFits (lengthened self.now (broken_row row.now ∷ [])))) }
    {
        let mut system = self.opened(alloc, work)?;
        let end = self.end_broken(alloc, work, &mut system, row);
        self.close(work, system);
        end
    }

    /// The values of the unknowns at the last position.
    fn point(&self, alloc: Global) -> Result<Option<PairPoint>, AllocError>
        ensures { IfOk result (λ o. IfSome o (λ p. IsValues self.now (last_position self.now) p)) }
    {
        let mut values = zero_pairs(alloc, self.system.unknowns())?;
        match put_values(&mut values, &self.system, self.last()) {
            Some(()) => Ok(Some(PairPoint::of(values))),
            None => Ok(None),
        }
    }

    /// The multipliers at the last position, where the row of this side refutes.
    fn multipliers(
        &self,
        alloc: Global,
        work: &mut Vec<i128>,
        side: usize,
    ) -> Result<Option<Multipliers>, AllocError>
        requires { turn self.now (last_position self.now) ≡ is_refuted side }
        ensures { IfOk result (λ o. IfSome o (EndsRefuted self.now)) }
    {
        let Ended {
            scales,
            lists,
            place,
            ..
        } = self.last();
        let numbers = numbers_of(&self.system);
        if numbers.scales != scales.as_slice() {
            return Ok(None);
        }
        multipliers_of(alloc, work, &self.system, &numbers, lists, *place, side)
    }

    /// What the run ends with, in fractions. `None` where a fraction is too wide.
    pub fn end(&self, alloc: Global, work: &mut Workspace) -> Result<Option<End>, AllocError>
        ensures { IfOk result (λ o. IfSome o (λ d. IsEnd self.now d)) }
    {
        match self.last().end {
            Ending::Point => match self.point(alloc)? {
                Some(point) => Ok(Some(End::Point(point))),
                None => Ok(None),
            },
            Ending::Refuted(side) => match self.multipliers(alloc, &mut work.rows.wide, side)? {
                Some(multipliers) => Ok(Some(End::Refuted(multipliers))),
                None => Ok(None),
            },
        }
    }
}

/// The run's end, where whole numbers serve for it, and then no operation of the run is wide.
fn end_of(
    alloc: Global,
    work: &mut Workspace,
    system: WholeSystem,
) -> Result<Option<End>, AllocError>
    ensures end { IfOk result (λ o. IfSome o (λ d. IsEnd system d)) }
    ensures fits { IfOk result (λ o. IfSome o (λ _. RunFits system)) }
{
    let Some(run) = KeptRun::begin(alloc, work, system)? else {
        return Ok(None);
    };
    let _ = run.has_point();
    let end = run.end(alloc, work)?;
    Ok(end)
}

/// The run's end, where whole numbers serve for it, and then no operation of the run is wide. `None`
/// elsewhere.
pub fn whole_end(alloc: Global, system: &System) -> Result<Option<End>, AllocError>
    ensures end { IfOk result (λ o. IfSome o (λ d. IsEnd system.now d)) }
    ensures fits { IfOk result (λ o. IfSome o (λ _. RunFits system.now)) }
{
    let Some(whole) = WholeSystem::read(alloc, system)? else {
        return Ok(None);
    };
    let mut work = Workspace::new(alloc);
    end_of(alloc, &mut work, whole)
}
