//! A pivot in whole numbers.

ghost use Rattle.std.specs.Prelude.{◌≡◌, ℕ, ◌+◌, ◌*◌, ◌<◌, ◌≤◌, ◌^◌, ◌⊎◌, unsigned_abs, IfSome, length};
ghost use Rattle.mpc_whole.specs.Changes.{IsSmallChange, IsChangedBy};
ghost use Rattle.mpc_whole.specs.Whole.{IsChanged, IsWholePivot};
ghost use Rattle.mpc_scaled.specs.Scaled.{whole_at, whole_cell, IsSmall};

use mpc_quotients::{Divisor, changed, turned};

/// What a pivot divides by, what a number may have at most after it, and a bound of the sizes of the numbers before it.
#[derive(Clone, Copy, Drop)]
struct Terms {
    by: Divisor,
    most: u64,
    top: u64,
}

/// What a row's numbers change by: the number that its pivot column has then, the size of the pivot, the divisor, and
/// what a number may have at most.
#[derive(Clone, Copy, Drop)]
struct Change {
    factor: i64,
    size: u64,
    by: Divisor,
    most: u64,
}

/// Changes the numbers of the row from a place on, in the columns from the first up to the end, of which none is the
/// pivot's. A bound of the numbers before becomes one of these too.
#[inline]
fn change_columns(
    numbers: &mut [i64],
    row: &[i64],
    from: usize,
    first: usize,
    end: usize,
    change: Change,
    before: u64,
) -> Option<u64>
    requires inside { from + length row.now ≤ length numbers.old }
    requires order { first ≤ end }
    requires end { end ≤ length row.now }
    requires change { IsSmallChange change }
    requires small { IsSmall change.most numbers.old }
    requires row_small { IsSmall (2 ^ 62) row.now }
    requires before { (index : ℕ) → index < from + first → unsigned_abs (whole_at numbers.old index) ≤ before }
    ensures cells { IfSome result (λ _. (column : ℕ) → first ≤ column → column < end → IsChangedBy change (whole_at numbers.old (from + column)) (whole_at row.now column) (whole_at numbers.new (from + column))) }
    ensures others { IfSome result (λ _. (index : ℕ) → (index < from + first) ⊎ (from + end ≤ index) → whole_at numbers.new index ≡ whole_at numbers.old index) }
    ensures small { IfSome result (λ _. IsSmall change.most numbers.new) }
    ensures own { IfSome result (λ own. (index : ℕ) → index < from + end → unsigned_abs (whole_at numbers.new index) ≤ own) }
{
    let mut own = before;
    for column in first..end {
        let new = changed(
            numbers[from + column],
            change.factor,
            row[column],
            change.size,
            change.by,
            change.most,
        )?;
        numbers[from + column] = new;
        own = own.max(new.unsigned_abs());
    }
    Some(own)
}

/// Changes the row of an unknown, where a row leaves and the pivot column enters. A bound of the numbers of the rows
/// before becomes one of those of this row too. A row that has 0 in the pivot's column stays where the denominator does,
/// and is within the bound of the numbers before the pivot.
fn change_row(
    numbers: &mut [i64],
    row: &[i64],
    unknown: usize,
    pivot_column: usize,
    terms: Terms,
    before: u64,
) -> Option<u64>
    requires square { length numbers.old ≡ length row.now * length row.now }
    requires row { unknown < length row.now }
    requires column { pivot_column < length row.now }
    requires den_some { 0 < terms.by.den }
    requires den_small { terms.by.den ≤ 2 ^ 62 }
    requires most_small { terms.most ≤ 2 ^ 62 }
    requires small { IsSmall terms.most numbers.old }
    requires row_small { IsSmall (2 ^ 62) row.now }
    requires top { (index : ℕ) → unknown * length row.now ≤ index → unsigned_abs (whole_at numbers.old index) ≤ terms.top }
    requires before { (index : ℕ) → index < unknown * length row.now → unsigned_abs (whole_at numbers.old index) ≤ before }
    ensures cells { IfSome result (λ _. (column : ℕ) → column < length row.now → IsChanged (length row.now) terms.by.den terms.by.den numbers.old row.now unknown pivot_column column (whole_cell (length row.now) numbers.new unknown column)) }
    ensures others { IfSome result (λ _. (index : ℕ) → (index < unknown * length row.now) ⊎ (unknown * length row.now + length row.now ≤ index) → whole_at numbers.new index ≡ whole_at numbers.old index) }
    ensures small { IfSome result (λ _. IsSmall terms.most numbers.new) }
    ensures own { IfSome result (λ own. (index : ℕ) → index < unknown * length row.now + length row.now → unsigned_abs (whole_at numbers.new index) ≤ own) }
{
    let pivot = row[pivot_column];
    let from = unknown * row.len();
    let change = Change {
        factor: turned(pivot, numbers[from + pivot_column]),
        size: pivot.unsigned_abs(),
        by: terms.by,
        most: terms.most,
    };
    if change.factor == 0 && change.size == terms.by.den {
        return Some(before.max(terms.top));
    }
    let own = change_columns(numbers, row, from, 0, pivot_column, change, before)?;
    numbers[from + pivot_column] = change.factor;
    let own = own.max(change.factor.unsigned_abs());
    change_columns(numbers, row, from, pivot_column + 1, row.len(), change, own)
}

/// The pivot where a row leaves and the pivot column enters, if all numbers are whole and small. A bound of the
/// numbers before becomes one of those after it.
pub(crate) fn exchange(
    numbers: &mut [i64],
    row: &[i64],
    pivot_column: usize,
    by: Divisor,
    most: u64,
    top: u64,
) -> Option<u64>
    requires square { length numbers.old ≡ length row.now * length row.now }
    requires column { pivot_column < length row.now }
    requires den_some { 0 < by.den }
    requires den_small { by.den ≤ 2 ^ 62 }
    requires most_small { most ≤ 2 ^ 62 }
    requires small { IsSmall most numbers.old }
    requires before { IsSmall top numbers.old }
    requires row_small { IsSmall (2 ^ 62) row.now }
    ensures pivot { IfSome result (λ _. IsWholePivot (length row.now) by.den numbers.old numbers.new row.now pivot_column) }
    ensures small { IfSome result (λ _. IsSmall most numbers.new) }
    ensures own { IfSome result (λ own. IsSmall own numbers.new) }
{
    let terms = Terms { by, most, top };
    let mut own = 0;
    for unknown in 0..row.len() {
        own = change_row(numbers, row, unknown, pivot_column, terms, own)?;
    }
    Some(own)
}
