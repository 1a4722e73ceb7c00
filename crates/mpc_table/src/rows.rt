//! Rows that are kept once each.

ghost use Rattle.std.specs.Prelude.{◌≡◌, map, IfOk, OnErr};
ghost use Rattle.mpc_table.specs.Places.{ArePlaces, IsKept};
ghost use Rattle.mpc_table.specs.SharedSteps.{row_line};

use crate::places::{Places, line_of};
use mpc_frac::NoMemory;
use mpc_linear::RowInt;
use std::alloc::Global;

/// The place of the row among the rows, behind which it is put where it is new. Without memory the rows stay
/// as they were, and the places are given up: they may hold the line of a row that isn't there.
pub fn keep_row(
    alloc: Global,
    row: &RowInt,
    rows: &mut Vec<RowInt>,
    places: &mut Places,
) -> Result<usize, NoMemory>
    requires { ArePlaces places.old (map row_line rows.old.items) }
    ensures kept { IfOk result (IsKept row_line row.now rows.old.items rows.new.items places.new) }
    ensures err { OnErr result (rows.new.items ≡ rows.old.items) }
{
    let line = line_of(alloc, &row.b, row.a.as_slice())?;
    let place = places.place(line)?;
    if place < rows.len() {
        return Ok(place);
    }
    let copy = row.copy(alloc)?;
    rows.push(copy)?;
    Ok(place)
}
