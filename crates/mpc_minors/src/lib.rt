//! Systems whose numbers are so small that every run over their rows fits, or that minors tell whether few rows have a point.
#![tactic(auto)]

ghost use Rattle.std.specs.Prelude.{◌≡◌, ◌+◌, ◌*◌, ◌≤◌, ◌^◌, ◌++◌, ◌∷◌, [], Contains, IsTrue, IfSome};
ghost use Rattle.mpc_linear.specs.declared.integers.RowInt.{RowInt};
ghost use Rattle.mpc_rows.specs.LawRows.{whole_row, broken_row};
ghost use Rattle.mpc_rows.specs.LinearSystem.{LinearSystem, height};
ghost use Rattle.mpc_rows.specs.RunWidth.{RunFits};
ghost use Rattle.mpc_minors.specs.Sizes.{LeaveRoom, most_determinant};
ghost use Rattle.mpc_minors.specs.SmallRows.{HasSmallRows};

mod lines;
#[cfg(test)]
mod tests;

pub use lines::{have_no_point, most_coefficient};
use mpc_scaled::WholeSystem;
use mpc_whole::position_theorems;

/// At least the determinant of so many rows of entries up to a size, if that fits: as many products of an entry with a minor of one row
/// less as there are rows.
fn determinant_bound(width: usize, entry: u64) -> Option<u64>
    ensures { IfSome result (λ size. size ≡ most_determinant width entry) }
{
    let mut size: u64 = 1;
    for row in 0..width {
        let products = entry.checked_mul(size)?;
        size = products.checked_mul(row as u64 + 1)?;
    }
    Some(size)
}

/// Whether the determinants of so many rows of entries up to a size, times a scale, are at most 2^62.
fn have_room(width: usize, entry: u64, scale: u64) -> bool
    ensures { IsTrue result → most_determinant width entry * scale ≤ 2 ^ 62 }
{
    match determinant_bound(width, entry) {
        Some(size) => size as u128 * scale as u128 <= 1 << 62,
        None => false,
    }
}

/// Whether sums of so many sides up to a size are at most 2^62.
fn have_side_room(count: usize, side: u64) -> bool
    ensures { IsTrue result → count * side ≤ 2 ^ 62 }
{
    count as u128 * side as u128 <= 1 << 62
}

/// Whether no operation of a run in so many unknowns is wide over numbers of at most these sizes, where unknowns and rows are so many
/// variables. That is tested in one to four unknowns alone.
fn leave_room(width: usize, variables: usize, entry: u64, side: u64, scale: u64) -> bool
    ensures { IsTrue result → LeaveRoom width variables entry side scale }
{
    1 <= width && width <= 4 && have_room(width, entry, scale) && have_side_room(variables, side)
}

/// Whether the sizes of the numbers of both show that no operation of the stated run over all their rows is wide, whatever pivots it
/// makes, nor one of the run over the first rows and the strict row that is met where one of the others fails. That is tested in one to
/// four unknowns alone, where the numbers of each position are minors, over a determinant of as many rows as there are unknowns (Cramer's
/// rule; Bareiss 1968). With entries of at most E a determinant of n rows is at most n! E^n, as the sum of its n! products: 2 E² in two
/// unknowns, 6 E³ in three and 24 E⁴ in four, where E is at most 20,936. In other systems it says no.
pub fn always_fits(own: &WholeSystem, more: &WholeSystem) -> bool
    requires { more.now.width ≡ own.now.width }
    ensures all { IsTrue result → RunFits (record { width = own.now.width; rows = own.now.rows ++ more.now.rows }) }
    ensures broken { IsTrue result → (row : RowInt) → Contains more.now.rows (whole_row row) → RunFits (record { width = own.now.width; rows = own.now.rows ++ broken_row row ∷ [] }) }
{
    position_theorems();
    let first = own.numbers();
    let second = more.numbers();
    let width = own.unknowns();
    let Some(rows) = own.height().checked_add(more.height()) else {
        return false;
    };
    let Some(variables) = width.checked_add(rows) else {
        return false;
    };
    let entry = first.most_entry.max(second.most_entry).max(1);
    let side = first.most_side.max(second.most_side);
    let scale = first.most_scale.max(second.most_scale);
    leave_room(width, variables, entry, side, scale)
}

/// Whether no operation of the stated run is wide over any rows of whole numbers of at most these sizes, where there are at most so many,
/// in so many unknowns. That is tested as for rows that are there.
pub fn fits_within(width: usize, rows: usize, entry: u64, side: u64) -> bool
    ensures { IsTrue result → (s : LinearSystem) → s.width ≡ width → height s ≤ rows → HasSmallRows entry side s → RunFits s }
{
    position_theorems();
    let Some(variables) = width.checked_add(rows) else {
        return false;
    };
    leave_room(width, variables, entry.max(1), side.max(1), 1)
}
