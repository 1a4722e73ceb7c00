//! The lists of a run.

ghost use Rattle.std.specs.Prelude.{◌≡◌, ℕ, pos, ◌+◌, ◌-◌, ◌*◌, ◌<◌, ◌≤◌, [], ◌∷◌, IsTrue, IfSome, IfOk, OnOk, length, get_or, true};
ghost use Rattle.mpc_rows.specs.LinearSystem.{LinearSystem, height, row_at};
ghost use Rattle.mpc_rows.specs.Run.{count};
ghost use Rattle.mpc_rows.specs.SetRuns.{turned};
ghost use Rattle.mpc_runs.specs.Table.{IsSeated, IsOpeningSeats, opening_seat, variable_at};
ghost use Rattle.mpc_whole.specs.Whole.{IsUnit};
ghost use Rattle.mpc_scaled.specs.Scaled.{whole_at, scale_at, IsSmall};
ghost use Rattle.mpc_beginnings.specs.Beginnings.{lengthened};
ghost use Rattle.mpc_beginnings.specs.LongerSeats.{AreLongerSeats};
ghost use Rattle.mpc_whole.specs.Lists.{of_short, of_wide, weights_of};
ghost use Rattle.mpc_beginnings.specs.RunLists.{lists_of, weight_of, HaveShortValues, AreLonger, AreOpening};

use mpc_rows::Row;
use mpc_runs::Seat;
use mpc_scaled::WholeSystem;
use mpc_whole::{RunLists, WideLists, clear, put_units};
use std::alloc::{AllocError, Global};

/// The lists of a run that is kept: with numbers of 64 bits, or of 128.
#[derive(Drop)]
pub(crate) struct KeptLists {
    pub is_wide: bool,
    /// What they have where they aren't wide.
    pub short: RunLists,
    /// What they have where they are.
    pub wide: WideLists,
}

/// Makes the list at least so long.
pub(crate) fn lengthen(list: &mut Vec<i64>, size: usize) -> Result<(), AllocError>
    ensures { OnOk result (size ≤ length list.new.items) }
{
    for k in list.len()..size {
        let _ = k;
        list.push(0)?;
    }
    Ok(())
}

/// Makes the list at least so long, where its numbers have 128 bits.
pub(crate) fn lengthen_wide(list: &mut Vec<i128>, size: usize) -> Result<(), AllocError>
    ensures { OnOk result (size ≤ length list.new.items) }
{
    for k in list.len()..size {
        let _ = k;
        list.push(0)?;
    }
    Ok(())
}

/// How many variables there are, and how many numbers the rows of the unknowns have.
pub(crate) fn sizes(height: usize, width: usize) -> Option<(usize, usize)>
    ensures count { IfSome result (λ t. t.0 ≡ width + height) }
    ensures square { IfSome result (λ t. t.1 ≡ width * width) }
{
    let variables = width.checked_add(height)?;
    let square = width.checked_mul(width)?;
    Some((variables, square))
}

/// Where the variable stands at first.
fn first_seat(width: usize, variable: usize) -> Seat
    ensures { (s : LinearSystem) → s.width ≡ width → result ≡ opening_seat s variable }
{
    if variable < width {
        Seat::Column(variable)
    } else {
        Seat::Row(variable - width)
    }
}

/// Writes where each variable stands at first.
fn put_first_seats(
    seats: &mut Vec<Seat>,
    system: &WholeSystem,
    variables: usize,
) -> Result<(), AllocError>
    ensures { OnOk result (IsOpeningSeats system.now variables seats.new.items) }
{
    seats.clear();
    seats.reserve(variables)?;
    for variable in 0..variables {
        let seat = first_seat(system.unknowns(), variable);
        seats.push(seat)?;
    }
    Ok(())
}

/// Writes the variables of the columns at first: the unknowns.
fn put_unknowns(nonbasic: &mut Vec<usize>, width: usize) -> Result<(), AllocError>
    ensures size { OnOk result (length nonbasic.new.items ≡ width) }
    ensures own { OnOk result ((c : ℕ) → c < width → variable_at nonbasic.new.items c ≡ c) }
{
    nonbasic.clear();
    nonbasic.reserve(width)?;
    for variable in 0..width {
        nonbasic.push(variable)?;
    }
    Ok(())
}

/// Writes so many zeros in place of other numbers.
fn put_zeros(list: &mut Vec<i64>, size: usize) -> Result<(), AllocError>
    ensures size { OnOk result (length list.new.items ≡ size) }
    ensures zero { OnOk result ((k : ℕ) → whole_at list.new.items k ≡ pos 0) }
{
    list.resize(size, 0)?;
    clear(list);
    Ok(())
}

/// Writes the numbers of the unknowns at first.
fn put_first_numbers(numbers: &mut Vec<i64>, width: usize, square: usize) -> Result<(), AllocError>
    requires { square ≡ width * width }
    ensures size { OnOk result (length numbers.new.items ≡ width * width) }
    ensures unit { OnOk result (IsUnit width numbers.new.items) }
    ensures small { OnOk result (IsSmall 1 numbers.new.items) }
{
    put_zeros(numbers, square)?;
    put_units(numbers, width);
    Ok(())
}

/// Writes the seats of the sides of further rows behind others, in the rows from the height of the
/// system on.
fn push_sides(seats: &mut Vec<Seat>, height: usize, longer: usize) -> Result<(), AllocError>
    requires { height ≤ longer }
    ensures seated { OnOk result ((w n : ℕ) → IsSeated height w n seats.old.items → IsSeated longer w (n + (longer - height)) seats.new.items) }
    ensures grown { OnOk result ((w n : ℕ) → IsSeated height w n seats.old.items → AreLongerSeats n seats.old.items seats.new.items) }
{
    for r in height..longer {
        seats.push(Seat::Row(r))?;
    }
    Ok(())
}

/// Writes other items in place of those of a list.
fn put<T: Copy + Drop>(list: &mut Vec<T>, others: &Vec<T>) -> Result<(), AllocError>
    ensures { OnOk result (list.new.items ≡ others.now.items) }
{
    list.clear();
    list.extend_from_slice(others)?;
    Ok(())
}

/// The number, in 128 bits.
fn widened(number: i64) -> i128
    ensures { result ≡ number }
{
    number as i128
}

/// Writes numbers of 64 bits in place of others of 128.
fn put_widened(list: &mut Vec<i128>, numbers: &[i64]) -> Result<(), AllocError>
    ensures { OnOk result (list.new.items ≡ numbers.now) }
{
    list.clear();
    list.reserve(numbers.len())?;
    for j in 0..numbers.len() {
        list.push(widened(numbers[j]))?;
    }
    Ok(())
}

/// Writes the same weight so many times in place of others.
fn put_same_weights(list: &mut Vec<u128>, size: usize, weight: u128) -> Result<(), AllocError>
    ensures { OnOk result ((j : ℕ) → j < size → get_or list.new.items j 0 ≡ weight) }
{
    list.clear();
    list.resize(size, weight)?;
    Ok(())
}

/// Lists that take no memory.
pub(crate) fn no_lists(alloc: Global) -> KeptLists {
    KeptLists {
        is_wide: false,
        short: RunLists {
            seats: Vec::new(alloc),
            nonbasic: Vec::new(alloc),
            numbers: Vec::new(alloc),
            firsts: Vec::new(alloc),
            seconds: Vec::new(alloc),
        },
        wide: WideLists {
            seats: Vec::new(alloc),
            nonbasic: Vec::new(alloc),
            numbers: Vec::new(alloc),
            firsts: Vec::new(alloc),
            seconds: Vec::new(alloc),
            weights: Vec::new(alloc),
        },
    }
}

/// Makes room for so many seats, in the width that the other lists have.
pub(crate) fn reserve_seats(
    lists: &mut KeptLists,
    others: &KeptLists,
    seats: usize,
) -> Result<(), AllocError> {
    if others.is_wide {
        lists.wide.seats.reserve(seats)
    } else {
        lists.short.seats.reserve(seats)
    }
}

/// Writes the lists of the first position. The values of the unknowns are 0 there, since no side is
/// nonbasic.
fn put_opening(
    lists: &mut RunLists,
    system: &WholeSystem,
    variables: usize,
    square: usize,
) -> Result<(), AllocError>
    requires count { variables ≡ count system.now }
    requires square { square ≡ system.now.width * system.now.width }
    ensures { OnOk result (AreOpening system.now (of_short lists.new)) }
{
    let width = system.unknowns();
    put_first_seats(&mut lists.seats, system, variables)?;
    put_unknowns(&mut lists.nonbasic, width)?;
    put_first_numbers(&mut lists.numbers, width, square)?;
    put_zeros(&mut lists.firsts, width)?;
    put_zeros(&mut lists.seconds, width)?;
    Ok(())
}

/// Writes the lists of the first position.
pub(crate) fn set_opening(
    lists: &mut KeptLists,
    system: &WholeSystem,
    variables: usize,
    square: usize,
) -> Result<(), AllocError>
    requires count { variables ≡ count system.now }
    requires square { square ≡ system.now.width * system.now.width }
    ensures opening { OnOk result (AreOpening system.now (lists_of lists.new)) }
    ensures small { OnOk result (HaveShortValues lists.new) }
{
    put_opening(&mut lists.short, system, variables, square)?;
    lists.is_wide = false;
    Ok(())
}

/// Writes other lists in place of these.
fn put_short(lists: &mut RunLists, other: &RunLists) -> Result<(), AllocError>
    ensures { OnOk result (of_short lists.new ≡ of_short other.now) }
{
    put(&mut lists.seats, &other.seats)?;
    put(&mut lists.nonbasic, &other.nonbasic)?;
    put(&mut lists.numbers, &other.numbers)?;
    put(&mut lists.firsts, &other.firsts)?;
    put(&mut lists.seconds, &other.seconds)?;
    Ok(())
}

/// Writes other lists of 128 bits in place of these.
fn put_wide_lists(lists: &mut WideLists, other: &WideLists) -> Result<(), AllocError>
    ensures same { OnOk result (of_wide lists.new ≡ of_wide other.now) }
    ensures weights { OnOk result ((j : ℕ) → weights_of lists.new j ≡ weights_of other.now j) }
{
    put(&mut lists.seats, &other.seats)?;
    put(&mut lists.nonbasic, &other.nonbasic)?;
    put(&mut lists.numbers, &other.numbers)?;
    put(&mut lists.firsts, &other.firsts)?;
    put(&mut lists.seconds, &other.seconds)?;
    put(&mut lists.weights, &other.weights)?;
    Ok(())
}

/// Writes other lists of 64 bits in place of these, with this weight for each unknown.
fn put_widened_lists(
    lists: &mut WideLists,
    other: &RunLists,
    weight: u128,
) -> Result<(), AllocError>
    ensures same { OnOk result (of_wide lists.new ≡ of_short other.now) }
    ensures weights { OnOk result ((j : ℕ) → j < length other.now.firsts.items → weights_of lists.new j ≡ weight) }
{
    put(&mut lists.seats, &other.seats)?;
    put(&mut lists.nonbasic, &other.nonbasic)?;
    put_widened(&mut lists.numbers, &other.numbers)?;
    put_widened(&mut lists.firsts, &other.firsts)?;
    put_widened(&mut lists.seconds, &other.seconds)?;
    put_same_weights(&mut lists.weights, other.firsts.len(), weight)?;
    Ok(())
}

/// Makes the lists wide, with the numbers that they have and the product for each unknown's weight.
pub(crate) fn widen(lists: &mut KeptLists, product: u128) -> Result<(), AllocError>
    ensures wide { OnOk result (lists.new.is_wide ≡ true) }
    ensures same { OnOk result (of_wide lists.new.wide ≡ lists_of lists.old) }
    ensures weights { OnOk result ((j : ℕ) → j < length (lists_of lists.old).firsts → weights_of lists.new.wide j ≡ weight_of lists.old product j) }
{
    if lists.is_wide {
        return Ok(());
    }
    put_widened_lists(&mut lists.wide, &lists.short, product)?;
    lists.is_wide = true;
    Ok(())
}

/// Writes other lists in place of these.
pub(crate) fn put_copies(lists: &mut KeptLists, other: &KeptLists) -> Result<(), AllocError>
    ensures same { OnOk result (lists_of lists.new ≡ lists_of other.now) }
    ensures weights { OnOk result ((product j : ℕ) → weight_of lists.new product j ≡ weight_of other.now product j) }
    ensures small { OnOk result (HaveShortValues other.now → HaveShortValues lists.new) }
{
    lists.is_wide = other.is_wide;
    if other.is_wide {
        put_wide_lists(&mut lists.wide, &other.wide)?;
        return Ok(());
    }
    put_short(&mut lists.short, &other.short)?;
    Ok(())
}

/// Writes other lists in place of these, wide, where the product is that of theirs.
fn put_wide_copies(
    lists: &mut KeptLists,
    other: &KeptLists,
    product: u128,
) -> Result<(), AllocError>
    ensures wide { OnOk result (lists.new.is_wide ≡ true) }
    ensures same { OnOk result (of_wide lists.new.wide ≡ lists_of other.now) }
    ensures weights { OnOk result ((j : ℕ) → j < length (lists_of other.now).firsts → weights_of lists.new.wide j ≡ weight_of other.now product j) }
{
    lists.is_wide = true;
    if other.is_wide {
        put_wide_lists(&mut lists.wide, &other.wide)?;
        return Ok(());
    }
    put_widened_lists(&mut lists.wide, &other.short, product)?;
    Ok(())
}

/// What the numbers of an unknown weigh at the positions before, where the product is that of the lists.
#[inline]
pub(crate) fn weight_at(lists: &KeptLists, product: u128, unknown: usize) -> u128
    ensures { result ≡ weight_of lists.now product unknown }
{
    if !lists.is_wide {
        return product;
    }
    match lists.wide.weights.get(unknown) {
        Some(weight) => *weight,
        None => 0,
    }
}

/// The greatest of what the numbers of so many unknowns weigh at the positions before.
pub(crate) fn top_weight(lists: &KeptLists, product: u128, width: usize) -> u128
    ensures { (j : ℕ) → j < width → weight_of lists.now product j ≤ result }
{
    let mut top = 0;
    for unknown in 0..width {
        top = weight_at(lists, product, unknown).max(top);
    }
    top
}

/// How many variables there are, where the lists stand.
pub(crate) fn variables(lists: &KeptLists) -> usize
    ensures { result ≡ length (lists_of lists.now).seats }
{
    if lists.is_wide {
        return lists.wide.seats.len();
    }
    lists.short.seats.len()
}

/// Writes other lists in place of these, and the seats of further sides behind theirs, in the rows from
/// the height of the system on.
pub(crate) fn set_lists(
    lists: &mut KeptLists,
    other: &KeptLists,
    height: usize,
    longer: usize,
) -> Result<(), AllocError>
    requires { height ≤ longer }
    ensures longer { OnOk result (AreLonger height longer (lists_of other.now) (lists_of lists.new)) }
    ensures weights { OnOk result ((product j : ℕ) → weight_of lists.new product j ≡ weight_of other.now product j) }
    ensures small { OnOk result (HaveShortValues other.now → HaveShortValues lists.new) }
{
    put_copies(lists, other)?;
    if lists.is_wide {
        push_sides(&mut lists.wide.seats, height, longer)?;
        return Ok(());
    }
    push_sides(&mut lists.short.seats, height, longer)?;
    Ok(())
}

/// Writes other lists in place of these, wide, and the seats of further sides behind theirs, in the rows from
/// the height of the system on. The product is that of the others.
pub(crate) fn set_wide_lists(
    lists: &mut KeptLists,
    other: &KeptLists,
    height: usize,
    longer: usize,
    product: u128,
) -> Result<(), AllocError>
    requires { height ≤ longer }
    ensures longer { OnOk result (AreLonger height longer (lists_of other.now) (lists_of lists.new)) }
    ensures weights { OnOk result ((j : ℕ) → j < length (lists_of other.now).firsts → weight_of lists.new product j ≡ weight_of other.now product j) }
{
    put_wide_copies(lists, other, product)?;
    push_sides(&mut lists.wide.seats, height, longer)?;
    Ok(())
}

/// Whether the first scales are these.
pub(crate) fn begins_with(scales: &[u64], first: &[u64]) -> bool
    requires { length first.now ≤ length scales.now }
    ensures { IsTrue result → (x : ℕ) → x < length first.now → scale_at scales.now x ≡ scale_at first.now x }
{
    &scales[..first.len()] == first
}

/// Puts the row behind the others, if it is whole times a small scale; says whether it stands there.
pub(crate) fn push(system: &mut WholeSystem, row: &Row) -> Result<bool, AllocError>
    requires { length row.now.a ≡ system.old.width }
    ensures { IfOk result (λ done. IsTrue done → system.new ≡ lengthened system.old (row.now ∷ [])) }
{
    let done = system.push(row)?;
    Ok(done)
}

/// Puts the row at the index, from 0, the other way round behind the others; says whether it stands there.
pub(crate) fn push_turned(system: &mut WholeSystem, index: usize) -> Result<bool, AllocError>
    requires { index < height system.old }
    ensures { IfOk result (λ done. IsTrue done → system.new ≡ lengthened system.old (turned (row_at system.old index) ∷ [])) }
{
    let done = system.push_turned(index)?;
    Ok(done)
}
