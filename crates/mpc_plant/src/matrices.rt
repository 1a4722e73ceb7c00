//! Matrices in a plant file.

ghost use Rattle.std.specs.Prelude.{◌≡◌, ◌<◌, ◌^◌, ℕ, List, IfOk, Ok, Err, length, slice_set};
ghost use Rattle.serde_json.specs.View.{items_view};
ghost use Rattle.mpc_space.specs.Matrix.{height, IsRectangular};
ghost use Rattle.mpc_plant.specs.declared.faults.PlantKind.{PlantKind as Kind};
ghost use Rattle.mpc_plant.specs.CheckedEntries.{rows_of};
ghost use Rattle.mpc_linear.specs.Shape.{HasShape};

use crate::entries::vector;
use crate::faults::{PlantError, under_item};
use mpc_linear::{Matrix, Vector};
use serde_json::Value;
use std::alloc::Global;

/// Writes one row.
pub(crate) fn write_row(matrix: &mut Matrix, at_row: u32, row: &Vector)
    requires row_in { at_row < height matrix.old }
    requires rectangular { IsRectangular matrix.old }
    requires width { length row.now ≡ matrix.old.columns }
    ensures rows { matrix.new.rows ≡ slice_set matrix.old.rows at_row row.now }
    ensures columns { matrix.new.columns ≡ matrix.old.columns }
{
    for column in 0..matrix.cols() {
        matrix.set(at_row, column, *row.at(column as usize));
    }
}

/// The matrix whose rows a list has, each with so many entries.
pub(crate) fn matrix_with_rows(
    alloc: Global,
    columns: u32,
    items: &[Value],
) -> Result<Matrix, PlantError>
    requires { length items.now < 2 ^ 32 }
    ensures ok { IfOk result (λ m. rows_of columns (items_view items.now) ≡ Ok m.rows) }
    ensures shape { IfOk result (λ m. HasShape m (length items.now) columns) }
    ensures bad { (kind : Kind) (path : List ℕ) → result ≡ Err (PlantError.Bad kind path)
        → rows_of columns (items_view items.now) ≡ Err (kind, path) }
{
    let mut matrix = Matrix::zero(alloc, items.len() as u32, columns)?;
    for (i, value) in items.iter().enumerate() {
        let row = under_item(alloc, i, vector(alloc, columns as usize, value))?;
        write_row(&mut matrix, i as u32, &row);
    }
    Ok(matrix)
}
