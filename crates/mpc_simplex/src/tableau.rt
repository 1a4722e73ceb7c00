//! A tableau in one flat list, and a pivot on it.

ghost use Rattle.std.specs.Prelude.{◌≡◌, ◌≢◌, ◌+◌, ◌*◌, ◌<◌, ◌^◌, IfOk, MatchResult, length, pos};
ghost use Rattle.mpc_exact.specs.Rational.{int, inv_ℚ};
ghost use Rattle.mpc_runs.specs.Table.{cell_at, HasShape};
ghost use Rattle.mpc_runs.specs.Exchange.{own_cell, row_at, IsOwnRow, ChangesRow, ChangesRows, PutsRow, IsExchanged, OwnFits, QuotientFits, changed, ChangeFits, ChangesFit, ExchangeFits, EntryFits};

use crate::numbers::inverse;
use mpc_frac::{Frac, Wide};
use mpc_linear::add_product;

/// Where the entry of a row and a column is stored.
pub(crate) fn place(height: usize, width: usize, row: usize, column: usize) -> usize
    requires row { row < height }
    requires column { column < width }
    requires fits { height * width < 2 ^ 64 }
    ensures value { result ≡ row * width + column }
    ensures below { result < height * width }
{
    row * width + column
}

/// The entry of a row and a column.
pub(crate) fn cell(entries: &[Frac], height: usize, width: usize, row: usize, column: usize) -> Frac
    requires shape { HasShape height width entries.now }
    requires row { row < height }
    requires column { column < width }
    ensures { result ≡ cell_at width entries.now row column }
{
    let here = place(height, width, row, column);
    entries[here]
}

/// The entry of a column in the new pivot row.
fn own_entry(
    entries: &[Frac],
    height: usize,
    width: usize,
    pivot_row: usize,
    pivot_column: usize,
    over_pivot: &Frac,
    column: usize,
) -> Result<Frac, Wide>
    requires shape { HasShape height width entries.now }
    requires row { pivot_row < height }
    requires column { column < width }
    requires inverse { over_pivot.now ≡ inv_ℚ (cell_at width entries.now pivot_row pivot_column) }
    ensures value { IfOk result (λ v. v ≡ own_cell width entries.now pivot_row pivot_column column) }
    ensures wide { MatchResult result (λ _. (column ≡ pivot_column → ⊥) → QuotientFits width entries.now pivot_row pivot_column column)
        (λ _. (column ≡ pivot_column → ⊥) × (¬ QuotientFits width entries.now pivot_row pivot_column column)) }
{
    if column == pivot_column {
        return Ok(*over_pivot);
    }
    let negative = cell(entries, height, width, pivot_row, column).neg();
    match negative.mul(over_pivot) {
        Ok(entry) => Ok(entry),
        Err(wide) => Err(wide),
    }
}

/// The new pivot row.
fn own_row(
    row: &mut [Frac],
    entries: &[Frac],
    height: usize,
    width: usize,
    pivot_row: usize,
    pivot_column: usize,
) -> Result<(), Wide>
    requires room { length row.old ≡ width }
    requires shape { HasShape height width entries.now }
    requires row { pivot_row < height }
    requires column { pivot_column < width }
    requires some { cell_at width entries.now pivot_row pivot_column ≢ int (pos 0) }
    ensures cells { IfOk result (λ _. IsOwnRow width entries.now pivot_row pivot_column row.new) }
    ensures wide { MatchResult result (λ _. OwnFits width entries.now pivot_row pivot_column)
        (λ _. ¬ OwnFits width entries.now pivot_row pivot_column) }
{
    let pivot = cell(entries, height, width, pivot_row, pivot_column);
    let over_pivot = inverse(&pivot);
    for column in 0..width {
        match own_entry(
            entries,
            height,
            width,
            pivot_row,
            pivot_column,
            &over_pivot,
            column,
        ) {
            Ok(entry) => row[column] = entry,
            Err(wide) => return Err(wide),
        }
    }
    Ok(())
}

/// The new entry of a row in a column, from its old one, where the factor is that row's entry in the pivot column.
fn changed_entry(
    old: &Frac,
    factor: &Frac,
    own: &Frac,
    pivot_column: usize,
    column: usize,
) -> Result<Frac, Wide>
    ensures value { IfOk result (λ v. v ≡ changed factor.now old.now own.now pivot_column column) }
    ensures wide { MatchResult result (λ _. EntryFits factor.now old.now own.now pivot_column column)
        (λ _. ¬ EntryFits factor.now old.now own.now pivot_column column) }
{
    if column == pivot_column {
        return factor.mul(own);
    }
    add_product(old, factor, own)
}

/// Changes a row, where the factor is its entry in the pivot column.
fn change_row(
    entries: &mut [Frac],
    row: &[Frac],
    height: usize,
    width: usize,
    target: usize,
    pivot_column: usize,
    factor: &Frac,
) -> Result<(), Wide>
    requires shape { HasShape height width entries.old }
    requires room { length row.now ≡ width }
    requires row { target < height }
    requires column { pivot_column < width }
    requires factor { factor.now ≡ cell_at width entries.old target pivot_column }
    ensures changed { IfOk result (λ _. ChangesRow width entries.old entries.new (row_at row.now) pivot_column target) }
    ensures wide { MatchResult result (λ _. ChangeFits width entries.old (row_at row.now) pivot_column target)
        (λ _. ¬ ChangeFits width entries.old (row_at row.now) pivot_column target) }
{
    for column in 0..width {
        let here = place(height, width, target, column);
        let old = entries[here];
        match changed_entry(&old, factor, &row[column], pivot_column, column) {
            Ok(entry) => entries[here] = entry,
            Err(wide) => return Err(wide),
        }
    }
    Ok(())
}

/// Changes each row but that of the pivot.
fn change_rows(
    entries: &mut [Frac],
    row: &[Frac],
    height: usize,
    width: usize,
    pivot_row: usize,
    pivot_column: usize,
) -> Result<(), Wide>
    requires shape { HasShape height width entries.old }
    requires room { length row.now ≡ width }
    requires row { pivot_row < height }
    requires column { pivot_column < width }
    ensures changed { IfOk result (λ _. ChangesRows height width entries.old entries.new (row_at row.now) pivot_row pivot_column) }
    ensures wide { MatchResult result (λ _. ChangesFit height width entries.old (row_at row.now) pivot_row pivot_column)
        (λ _. ¬ ChangesFit height width entries.old (row_at row.now) pivot_row pivot_column) }
{
    for target in 0..height {
        if target == pivot_row {
            continue;
        }
        let factor = cell(entries, height, width, target, pivot_column);
        if factor.is_zero() {
            continue;
        }
        match change_row(entries, row, height, width, target, pivot_column, &factor) {
            Ok(()) => {}
            Err(wide) => return Err(wide),
        }
    }
    Ok(())
}

/// Puts the new pivot row in place.
fn put_row(entries: &mut [Frac], row: &[Frac], height: usize, width: usize, pivot_row: usize)
    requires shape { HasShape height width entries.old }
    requires room { length row.now ≡ width }
    requires row { pivot_row < height }
    ensures { PutsRow width entries.old entries.new row.now pivot_row }
{
    for column in 0..width {
        let here = place(height, width, pivot_row, column);
        entries[here] = row[column];
    }
}

/// The pivot in a row and a column, where the room of one row is used.
pub(crate) fn exchange(
    entries: &mut [Frac],
    row: &mut [Frac],
    height: usize,
    width: usize,
    pivot_row: usize,
    pivot_column: usize,
) -> Result<(), Wide>
    requires shape { HasShape height width entries.old }
    requires room { length row.old ≡ width }
    requires row { pivot_row < height }
    requires column { pivot_column < width }
    requires some { cell_at width entries.old pivot_row pivot_column ≢ int (pos 0) }
    ensures exchanged { IfOk result (λ _. IsExchanged height width entries.old entries.new pivot_row pivot_column) }
    ensures wide { MatchResult result (λ _. ExchangeFits height width entries.old pivot_row pivot_column)
        (λ _. ¬ ExchangeFits height width entries.old pivot_row pivot_column) }
{
    match own_row(row, entries, height, width, pivot_row, pivot_column) {
        Ok(()) => {}
        Err(wide) => return Err(wide),
    }
    match change_rows(entries, row, height, width, pivot_row, pivot_column) {
        Ok(()) => {}
        Err(wide) => return Err(wide),
    }
    put_row(entries, row, height, width, pivot_row);
    Ok(())
}
