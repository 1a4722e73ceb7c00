//! The matrices in a plant file.

ghost use Rattle.std.specs.Prelude.{◌≡◌, ◌<◌, ℕ, List, IfOk, Ok, Err, Some, None, not};
ghost use Rattle.serde_json.specs.View.{view};
ghost use Rattle.std.specs.Ordering.{is_eq};
ghost use Rattle.mpc_exact.specs.Rational.{cmp_ℚ};
ghost use Rattle.mpc_space.specs.Matrix.{height};
ghost use Rattle.mpc_plant.specs.declared.faults.PlantKind.{PlantKind as Kind};
ghost use Rattle.mpc_plant.specs.Limits.{IsFromTo};
ghost use Rattle.mpc_linear.specs.Shape.{HasShape};
ghost use Rattle.mpc_plant.specs.CheckedPlant.{row_difference, difference_from, weight_of, square_of, width_of, side_of, no_difference};

use crate::entries::{list_between, list_with_len};
use crate::faults::{PlantError, PlantKind, under_item};
use crate::matrices::matrix_with_rows;
use itoa::Buffer;
use mpc_frac::Frac;
use mpc_linear::Matrix;
use serde_json::Value;
use std::alloc::Global;
use std::cmp::Ordering;

/// Whether two numbers differ.
fn differ(left: &Frac, right: &Frac) -> bool
    ensures { result ≡ not (is_eq (cmp_ℚ left.now right.now)) }
{
    left.cmp(right) != Ordering::Equal
}

/// The first entry right of the diagonal in one row that is not its mirror image.
fn difference_in_row(matrix: &Matrix, size: u32, row: u32) -> Option<u32>
    requires shape { HasShape matrix.now size size }
    requires row { row < size }
    ensures { result ≡ row_difference matrix.now.rows size row }
{
    for column in row + 1..size {
        if differ(&matrix.get(row, column), &matrix.get(column, row)) {
            return Some(column);
        }
    }
    None
}

/// The first entry right of the diagonal that is not its mirror image, row by row.
fn difference(matrix: &Matrix, size: u32) -> Option<(u32, u32)>
    requires { HasShape matrix.now size size }
    ensures { result ≡ difference_from matrix.now.rows size 0 size }
{
    for row in 0..size {
        if let Some(column) = difference_in_row(matrix, size, row) {
            return Some((row, column));
        }
    }
    None
}

/// The fault of an entry that is not its mirror image.
fn not_symmetric(alloc: Global, row: u32, column: u32) -> PlantError
    ensures { (kind : Kind) (path : List ℕ) → result ≡ PlantError.Bad kind path
        → no_difference (Some (row, column)) ≡ Err (kind, path) }
{
    let mut row_buffer = Buffer::new();
    let mut column_buffer = Buffer::new();
    PlantError::here(alloc, PlantKind::NotSymmetric)
        .under(alloc, column_buffer.format(column).as_bytes())
        .under(alloc, row_buffer.format(row).as_bytes())
}

/// The symmetric matrix of this size that a value states.
pub(crate) fn weight(alloc: Global, size: u32, value: &Value) -> Result<Matrix, PlantError>
    ensures ok { IfOk result (λ m. weight_of size (view value.now) ≡ Ok m.rows) }
    ensures shape { IfOk result (λ m. HasShape m size size) }
    ensures mirrored { IfOk result (λ m. difference_from m.rows size 0 size ≡ None) }
    ensures bad { (kind : Kind) (path : List ℕ) → result ≡ Err (PlantError.Bad kind path)
        → weight_of size (view value.now) ≡ Err (kind, path) }
{
    let items = list_with_len(alloc, size as usize, value)?;
    let matrix = matrix_with_rows(alloc, size, items)?;
    if let Some((row, column)) = difference(&matrix, size) {
        return Err(not_symmetric(alloc, row, column));
    }
    Ok(matrix)
}

/// The square matrix of one to four rows that a value states.
pub(crate) fn square(alloc: Global, value: &Value) -> Result<Matrix, PlantError>
    ensures ok { IfOk result (λ m. square_of (view value.now) ≡ Ok m.rows) }
    ensures size { IfOk result (λ m. IsFromTo 1 4 (height m)) }
    ensures shape { IfOk result (λ m. HasShape m (height m) (height m)) }
    ensures bad { (kind : Kind) (path : List ℕ) → result ≡ Err (PlantError.Bad kind path)
        → square_of (view value.now) ≡ Err (kind, path) }
{
    let items = list_between(alloc, 1, 4, value)?;
    matrix_with_rows(alloc, items.len() as u32, items)
}

/// The length of a first row, which has one to three entries.
fn first_len(alloc: Global, value: &Value) -> Result<u32, PlantError>
    ensures ok { IfOk result (λ k. width_of (view value.now) ≡ Ok k) }
    ensures size { IfOk result (IsFromTo 1 3) }
    ensures bad { (kind : Kind) (path : List ℕ) → result ≡ Err (PlantError.Bad kind path)
        → width_of (view value.now) ≡ Err (kind, path) }
{
    let entries = list_between(alloc, 1, 3, value)?;
    Ok(entries.len() as u32)
}

/// The matrix of so many rows that a value states, each as long as the first one.
pub(crate) fn side(alloc: Global, rows: u32, value: &Value) -> Result<Matrix, PlantError>
    requires { 0 < rows }
    ensures ok { IfOk result (λ m. side_of rows (view value.now) ≡ Ok m.rows) }
    ensures size { IfOk result (λ m. IsFromTo 1 3 m.columns) }
    ensures shape { IfOk result (λ m. HasShape m rows m.columns) }
    ensures bad { (kind : Kind) (path : List ℕ) → result ≡ Err (PlantError.Bad kind path)
        → side_of rows (view value.now) ≡ Err (kind, path) }
{
    let items = list_with_len(alloc, rows as usize, value)?;
    let columns = under_item(alloc, 0, first_len(alloc, &items[0]))?;
    matrix_with_rows(alloc, columns, items)
}
