//! The rows of a drill's plant, and the box of its states.

ghost use Rattle.std.specs.Prelude.{◌≡◌, [], ◌∷◌, IfOk};
ghost use Rattle.mpc_trace.specs.DrillPlant.{axis, end_rows, row_of, stage_rows};

use crate::entries::{pair, single};
use mpc_frac::{Frac, NoMemory};
use mpc_linear::Vector;
use mpc_plant::{Coordinate, Coordinates, PlantRow, PlantRows};
use std::alloc::Global;

/// The row of a step with these weights of the coordinates and of the input.
fn stage_row(
    alloc: Global,
    first: i64,
    second: i64,
    input: i64,
    max: i64,
) -> Result<PlantRow, NoMemory>
    ensures { IfOk result (λ row. row ≡ row_of (first ∷ second ∷ []) (input ∷ []) max) }
{
    let state_weights = pair(alloc, first, second)?;
    let input_weights = single(alloc, input)?;
    Ok(PlantRow {
        x: state_weights,
        u: input_weights,
        max: Frac::whole(max),
    })
}

/// The row of the end with these weights of the coordinates.
fn end_row(alloc: Global, first: i64, second: i64, max: i64) -> Result<PlantRow, NoMemory>
    ensures { IfOk result (λ row. row ≡ row_of (first ∷ second ∷ []) [] max) }
{
    let state_weights = pair(alloc, first, second)?;
    Ok(PlantRow {
        x: state_weights,
        u: Vector::new(alloc),
        max: Frac::whole(max),
    })
}

/// The rows of each step, where the input's size is at most the bound.
pub fn rows(alloc: Global, bound: i64) -> Result<PlantRows, NoMemory>
    ensures { IfOk result (λ rows. rows ≡ stage_rows bound) }
{
    let mut rows = PlantRows::new(alloc);
    rows.push(stage_row(alloc, 0, 0, 1, bound)?)?;
    rows.push(stage_row(alloc, 0, 0, -1, bound)?)?;
    rows.push(stage_row(alloc, 0, 1, 0, 3)?)?;
    rows.push(stage_row(alloc, 0, -1, 0, 3)?)?;
    Ok(rows)
}

/// The rows of the end.
pub fn terminal(alloc: Global) -> Result<PlantRows, NoMemory>
    ensures { IfOk result (λ rows. rows ≡ end_rows) }
{
    let mut rows = PlantRows::new(alloc);
    rows.push(end_row(alloc, 1, 0, 4)?)?;
    rows.push(end_row(alloc, -1, 0, 4)?)?;
    rows.push(end_row(alloc, 0, 1, 2)?)?;
    rows.push(end_row(alloc, 0, -1, 2)?)?;
    rows.push(end_row(alloc, 1, 1, 5)?)?;
    rows.push(end_row(alloc, -1, -1, 5)?)?;
    Ok(rows)
}

/// The values of a coordinate: from -5 to 5.
fn values() -> Coordinate
    ensures { result ≡ axis }
{
    Coordinate {
        low: Frac::whole(-5),
        step: Frac::whole(1),
        count: 10,
    }
}

/// The values of both coordinates.
pub fn grid(alloc: Global) -> Result<Coordinates, NoMemory>
    ensures { IfOk result (λ grid. grid ≡ axis ∷ axis ∷ []) }
{
    let mut grid = Coordinates::new(alloc);
    grid.push(values())?;
    grid.push(values())?;
    Ok(grid)
}
