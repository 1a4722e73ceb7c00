//! The test of a certificate in whole numbers, over one denominator of all its multipliers. It needs no memory, and gives up where a number
//! is too large for it.

ghost use Rattle.std.specs.Prelude.{◌≡◌, ℕ, ◌+◌, ◌*◌, ◌^◌, ◌<◌, ◌≤◌, ◌↔◌, All, IfSome, IsTrue, List, cond, false, length, nat_lt, pos, slice_index_or, true, unsigned_abs, ◌+ℤ◌, ◌*ℤ◌, ◌<ℤ◌};
ghost use Rattle.mpc_exact.specs.Rational.{frac, int, IsNonneg, ◌<ℚ◌};
ghost use Rattle.mpc_space.specs.Vector.{AllNonneg, dot};
ghost use Rattle.mpc_linear.specs.Dot.{DotFits};
ghost use Rattle.mpc_linear.specs.declared.integers.RowInt.{RowInt};
ghost use Rattle.mpc_wholes.specs.Wholes.{IsDenominator};
ghost use Rattle.mpc_rows.specs.declared.trees.Node.{Node};
ghost use Rattle.mpc_rows.specs.LawRows.{whole_row};
ghost use Rattle.mpc_rows.specs.LinearSystem.{height, no_row};
ghost use Rattle.mpc_rows.specs.Refutation.{ColumnsFit, CombinesToZero, Refutes, SumsFit, WeighsStrict};
ghost use Rattle.mpc_rows.specs.SetRuns.{axis, box_rows};
ghost use Rattle.mpc_systems.specs.Systems.{hold_system};
ghost use Rattle.mpc_systems.specs.Writing.{IsOfSize};
ghost use Rattle.mpc_check.specs.Certs.{HasPositionsIn};
ghost use Rattle.mpc_check.specs.Columns.{number_in, IsColumnOf, picked_column};
ghost use Rattle.mpc_check.specs.Picks.{picked_rows, picked_system, weights, AreWeightsOver};
ghost use Rattle.mpc_controller.specs.Ways.{HasSplitRow, IsTurn, side_row, turn_row, way_rows};

use mpc_controller::Turn;
use mpc_frac::Frac;
use mpc_linear::{RowInt, sum_theorems};
use mpc_rows::{Cert, Counts, Node, Qp, Tree};
use mpc_wholes::{common_multiple, denominator, numerator_over, over_theorems};

/// The greatest size of the numbers that are multiplied, 2^62.
const MOST: u128 = 0x4000_0000_0000_0000;

/// A certificate of more pairs isn't tested here. Those of the tree have at most one more than there are states.
const MOST_PAIRS: usize = 16;

/// The greatest size of a sum of products, 2^126.
const MOST_IN_SUM: u128 = 0x4000_0000_0000_0000_0000_0000_0000_0000;

/// The numbers of rows that are added up.
#[derive(Clone, Copy, Debug, Drop)]
pub(crate) enum Column {
    /// The coefficients on this unknown, counted from 0.
    Unknown(usize),
    /// The right sides.
    Sides,
}

// ---- the numbers of the rows

/// The entry for this unknown of the vector that is 0 but for the entry of this state.
fn axis_number(state: usize, unknown: usize, value: i128) -> i128
    ensures { result ≡ cond (nat_lt state unknown) (pos 0) (cond (nat_lt unknown state) (pos 0) value) }
{
    if state < unknown || unknown < state {
        0
    } else {
        value
    }
}

/// The number in a column of the row `value t_i <= side`, where t_i is the count of this state.
fn axis_row_number(state: usize, value: i128, side: i128, column: Column) -> i128
    ensures { (width : ℕ) → IsColumnOf width column
        → int result ≡ number_in column (record { a = axis width state (int value); b = int side; strict = false }) }
{
    match column {
        Column::Unknown(unknown) => axis_number(state, unknown, value),
        Column::Sides => side,
    }
}

/// The number in a column of the row at a place among those of the box.
fn box_number(counts: &Counts, place: usize, column: Column) -> i128
    requires place { place < 2 * length counts.now }
    requires column { IsColumnOf (length counts.now) column }
    ensures { int result ≡ number_in column (slice_index_or (box_rows (length counts.now) counts.now) place no_row) }
{
    let state = place / 2;
    if place == state + state {
        axis_row_number(state, -1, 0, column)
    } else {
        axis_row_number(state, 1, *counts.at(state) as i128, column)
    }
}

/// The number in a column of the row.
fn row_number(row: &RowInt, column: Column) -> i128
    requires size { IsOfSize (length row.now.a) row.now }
    requires column { IsColumnOf (length row.now.a) column }
    ensures number { int result ≡ number_in column (whole_row row.now) }
    ensures small { unsigned_abs result < 2 ^ 127 }
{
    match column {
        Column::Unknown(unknown) => *row.a.at(unknown),
        Column::Sides => row.b,
    }
}

/// The number in a column of the row, or of the row negated.
fn side_row_number(row: &RowInt, yes: bool, column: Column) -> i128
    requires size { IsOfSize (length row.now.a) row.now }
    requires column { IsColumnOf (length row.now.a) column }
    ensures { int result ≡ number_in column (side_row yes row.now) }
{
    let number = row_number(row, column);
    if yes { number } else { -number }
}

/// The number in a column of the row that holds behind a turn.
fn turn_number(tree: &Tree, turn: Turn, states: usize, column: Column) -> i128
    requires turn { IsTurn tree.now turn }
    requires splits { All (HasSplitRow states) tree.now }
    requires column { IsColumnOf states column }
    ensures { int result ≡ number_in column (turn_row tree.now turn) }
{
    let Node::Split(row) = tree.at(turn.split) else {
        unreachable!()
    };
    side_row_number(row, turn.yes, column)
}

/// The number in a column of the row at a place of a leaf's system, counted from 0: first those of the box, then those of the way, then the
/// row that is broken.
fn number_at(qp: &Qp, tree: &Tree, way: &[Turn], row: &RowInt, place: usize, column: Column) -> i128
    requires way { All (IsTurn tree.now) way.now }
    requires splits { All (HasSplitRow (length qp.now.counts)) tree.now }
    requires size { IsOfSize (length qp.now.counts) row.now }
    requires place { place < 2 * length qp.now.counts + length way.now + 1 }
    requires column { IsColumnOf (length qp.now.counts) column }
    ensures { int result ≡ number_in column (slice_index_or (hold_system qp.now (way_rows tree.now way.now) row.now).rows place no_row) }
{
    let states = qp.counts.len();
    if place < 2 * states {
        return box_number(&qp.counts, place, column);
    }
    let behind = place - 2 * states;
    if behind < way.len() {
        return turn_number(tree, way[behind], states, column);
    }
    side_row_number(row, false, column)
}

/// Whether the row at a place of a leaf's system is strict.
fn is_strict_at(qp: &Qp, way: &[Turn], place: usize) -> bool
    requires { place < 2 * length qp.now.counts + length way.now + 1 }
    ensures { (nodes : List Node) (row : RowInt)
        → result ≡ (slice_index_or (hold_system qp.now (way_rows nodes way.now) row).rows place no_row).strict }
{
    let states = qp.counts.len();
    if place < 2 * states {
        return false;
    }
    let behind = place - 2 * states;
    if behind < way.len() {
        return !way[behind].yes;
    }
    true
}

// ---- one denominator

/// A common multiple of the denominators of a certificate's multipliers, where it is at most 2^124.
fn common_denominator(cert: &Cert) -> Option<u128>
    ensures { IfSome result IsDenominator }
{
    let mut all = 1;
    let entries = cert.as_slice();
    for at_entry in 0..entries.len() {
        all = common_multiple(all, denominator(&entries[at_entry].1))?;
    }
    Some(all)
}

// ---- small numbers

/// The number in 64 bits.
fn narrow(number: i128) -> i64
    requires { unsigned_abs number ≤ 2 ^ 62 }
    ensures { result ≡ number }
{
    number as i64
}

/// The number, where it is at most 2^62 in size.
fn small(number: i128) -> Option<i64>
    ensures value { IfSome result (λ s. s ≡ number) }
    ensures small { IfSome result (λ s. unsigned_abs s ≤ 2 ^ 62) }
{
    if number.unsigned_abs() <= MOST {
        Some(narrow(number))
    } else {
        None
    }
}

/// The product, which fits twice the width.
fn product(left: i64, right: i64) -> i128
    ensures { result ≡ left *ℤ right }
{
    left as i128 * right as i128
}

/// Whether the fraction is below 0.
fn is_negative(fraction: &Frac) -> bool
    ensures { IsTrue result ↔ (fraction.now <ℚ int (pos 0)) }
{
    fraction.sign() < 0
}

/// Whether the fraction is above 0.
fn is_positive(fraction: &Frac) -> bool
    ensures { IsTrue result ↔ (int (pos 0) <ℚ fraction.now) }
{
    fraction.sign() > 0
}

/// The numerator of a fraction over a multiple of its denominator, where the fraction isn't negative and the numerator at most 2^62.
fn weight_over(fraction: &Frac, all: u128) -> Option<i64>
    requires { IsDenominator all }
    ensures value { IfSome result (λ w. fraction.now ≡ frac w all) }
    ensures nonneg { IfSome result (λ _. IsNonneg fraction.now) }
    ensures small { IfSome result (λ w. unsigned_abs w ≤ 2 ^ 62) }
{
    if is_negative(fraction) {
        return None;
    }
    let numerator = numerator_over(fraction, all)?;
    small(numerator)
}

/// The sum, which fits.
fn sum(left: i128, right: i128) -> i128
    requires left { unsigned_abs left ≤ 2 ^ 126 }
    requires right { unsigned_abs right ≤ 2 ^ 125 }
    ensures { result ≡ left +ℤ right }
{
    left + right
}

/// The sum with one product more, where it is at most 2^126 in size.
fn add_term(old: i128, weight: i64, number: i64) -> Option<i128>
    requires old { unsigned_abs old ≤ 2 ^ 126 }
    requires weight { unsigned_abs weight ≤ 2 ^ 62 }
    requires number { unsigned_abs number ≤ 2 ^ 62 }
    ensures value { IfSome result (λ next. next ≡ old +ℤ (weight *ℤ number)) }
    ensures small { IfSome result (λ next. unsigned_abs next ≤ 2 ^ 126) }
{
    let next = sum(old, product(weight, number));
    if next.unsigned_abs() <= MOST_IN_SUM {
        Some(next)
    } else {
        None
    }
}

/// Whether this sum is 0, and those before it are.
fn stays_zero(zero: bool, sum: i128) -> bool
    ensures { IsTrue result ↔ (IsTrue zero × (sum ≡ pos 0)) }
{
    zero && sum == 0
}

/// Whether the sum is 0.
fn is_zero(sum: i128) -> bool
    ensures { IsTrue result ↔ (sum ≡ pos 0) }
{
    sum == 0
}

/// Whether the sum is below 0.
fn is_below_zero(sum: i128) -> bool
    ensures { IsTrue result ↔ (sum <ℤ pos 0) }
{
    sum < 0
}

/// The numerators of a certificate's multipliers over a common denominator.
#[derive(Clone, Copy, Drop)]
struct Numerators<'a> {
    list: &'a [i64],
    all: u128,
}

/// Writes the numerators of a certificate's multipliers over a multiple of their denominators, where none is negative and each at most 2^62.
fn put_weights(list: &mut [i64], cert: &Cert, all: u128) -> Option<()>
    requires denom { IsDenominator all }
    requires room { length cert.now ≤ length list.old }
    ensures { IfSome result (λ _. AreWeightsOver cert.now all list.new) }
{
    let entries = cert.as_slice();
    for at_entry in 0..entries.len() {
        let weight = weight_over(&entries[at_entry].1, all)?;
        list[at_entry] = weight;
    }
    Some(())
}

// ---- the sums of columns

/// The sum of a column of the rows that the certificate names, each times its multiplier, over a common denominator.
fn column_sum(
    qp: &Qp,
    tree: &Tree,
    way: &[Turn],
    row: &RowInt,
    cert: &Cert,
    numerators: Numerators,
    column: Column,
) -> Option<i128>
    requires way { All (IsTurn tree.now) way.now }
    requires splits { All (HasSplitRow (length qp.now.counts)) tree.now }
    requires size { IsOfSize (length qp.now.counts) row.now }
    requires positions { HasPositionsIn (height (hold_system qp.now (way_rows tree.now way.now) row.now)) cert.now }
    requires column { IsColumnOf (length qp.now.counts) column }
    requires denom { IsDenominator numerators.all }
    requires numerators { AreWeightsOver cert.now numerators.all numerators.list.now }
    ensures value { IfSome result
        (λ sum. dot (weights cert.now) (picked_column column (hold_system qp.now (way_rows tree.now way.now) row.now) cert.now) ≡ frac sum numerators.entry.all) }
    ensures fits { IfSome result
        (λ _. DotFits (weights cert.now) (picked_column column (hold_system qp.now (way_rows tree.now way.now) row.now) cert.now)) }
    ensures size { IfSome result (λ sum. unsigned_abs sum ≤ 2 ^ 126) }
    ensures nonneg { IfSome result (λ _. AllNonneg (weights cert.now)) }
{
    sum_theorems();
    over_theorems();
    let mut total: i128 = 0;
    let entries = cert.as_slice();
    for at_entry in 0..entries.len() {
        let place = entries[at_entry].0 as usize - 1;
        let number = small(number_at(qp, tree, way, row, place, column))?;
        let weight = numerators.list[at_entry];
        total = add_term(total, weight, number)?;
    }
    Some(total)
}

/// Whether the left sides, each times its multiplier, sum to 0. The sums of all unknowns are formed.
fn combines_to_zero(
    qp: &Qp,
    tree: &Tree,
    way: &[Turn],
    row: &RowInt,
    cert: &Cert,
    numerators: Numerators,
) -> Option<bool>
    requires way { All (IsTurn tree.now) way.now }
    requires splits { All (HasSplitRow (length qp.now.counts)) tree.now }
    requires size { IsOfSize (length qp.now.counts) row.now }
    requires positions { HasPositionsIn (height (hold_system qp.now (way_rows tree.now way.now) row.now)) cert.now }
    requires denom { IsDenominator numerators.all }
    requires numerators { AreWeightsOver cert.now numerators.all numerators.list.now }
    ensures value { IfSome result
        (λ zero. IsTrue zero ↔ CombinesToZero (picked_system (hold_system qp.now (way_rows tree.now way.now) row.now) cert.now) (weights cert.now)) }
    ensures fits { IfSome result
        (λ _. ColumnsFit (picked_system (hold_system qp.now (way_rows tree.now way.now) row.now) cert.now) (weights cert.now)) }
{
    let mut zero = true;
    for unknown in 0..qp.counts.len() {
        let sum = column_sum(
            qp,
            tree,
            way,
            row,
            cert,
            numerators,
            Column::Unknown(unknown),
        )?;
        zero = stays_zero(zero, sum);
    }
    Some(zero)
}

/// Whether the row at a place of a leaf's system is strict and the multiplier positive.
fn counts_as_strict(qp: &Qp, way: &[Turn], place: usize, multiplier: &Frac) -> bool
    requires { place < 2 * length qp.now.counts + length way.now + 1 }
    ensures { (nodes : List Node) (row : RowInt)
        → IsTrue result
        ↔ (((slice_index_or (hold_system qp.now (way_rows nodes way.now) row).rows place no_row).strict ≡ true) × (int (pos 0) <ℚ multiplier.now)) }
{
    is_strict_at(qp, way, place) && is_positive(multiplier)
}

/// Whether a strict row has a positive multiplier.
fn weighs_strict(qp: &Qp, tree: &Tree, way: &[Turn], row: &RowInt, cert: &Cert) -> bool
    requires positions { HasPositionsIn (height (hold_system qp.now (way_rows tree.now way.now) row.now)) cert.now }
    ensures { IsTrue result
        ↔ WeighsStrict (picked_rows (hold_system qp.now (way_rows tree.now way.now) row.now).rows cert.now) (weights cert.now) }
{
    let entries = cert.as_slice();
    for at_entry in 0..entries.len() {
        let place = entries[at_entry].0 as usize - 1;
        if counts_as_strict(qp, way, place, &entries[at_entry].1) {
            return true;
        }
    }
    false
}

/// Whether the certificate refutes the system of a leaf in which a row of its law is broken. `None` where a number of the test is too large
/// for it, or a multiplier is negative.
pub fn is_refuted_in_wholes(
    qp: &Qp,
    tree: &Tree,
    way: &[Turn],
    row: &RowInt,
    cert: &Cert,
) -> Option<bool>
    requires way { All (IsTurn tree.now) way.now }
    requires splits { All (HasSplitRow (length qp.now.counts)) tree.now }
    requires size { IsOfSize (length qp.now.counts) row.now }
    requires positions { HasPositionsIn (height (hold_system qp.now (way_rows tree.now way.now) row.now)) cert.now }
    ensures answer { IfSome result
        (λ yes. IsTrue yes ↔ Refutes (picked_system (hold_system qp.now (way_rows tree.now way.now) row.now) cert.now) (weights cert.now)) }
    ensures fits { IfSome result
        (λ _. SumsFit (picked_system (hold_system qp.now (way_rows tree.now way.now) row.now) cert.now) (weights cert.now)) }
{
    if cert.len() > MOST_PAIRS {
        return None;
    }
    let all = common_denominator(cert)?;
    let mut list = [0; MOST_PAIRS];
    put_weights(&mut list, cert, all)?;
    let numerators = Numerators { list: &list, all };
    let zero = combines_to_zero(qp, tree, way, row, cert, numerators)?;
    let side = column_sum(qp, tree, way, row, cert, numerators, Column::Sides)?;
    if !zero {
        return Some(false);
    }
    if is_zero(side) {
        return Some(weighs_strict(qp, tree, way, row, cert));
    }
    Some(is_below_zero(side))
}
