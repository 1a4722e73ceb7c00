//! The rows and the coordinates in a plant file.

ghost use Rattle.std.specs.Prelude.{◌≡◌, ◌<◌, ◌^◌, ℕ, List, IfOk, Ok, Err, Some, replicate, length, pos, All, ◌≤◌};
ghost use Rattle.serde_json.specs.View.{view, items_view};
ghost use Rattle.serde_json.specs.Find.{get};
ghost use Rattle.mpc_exact.specs.Rational.{int, IsPositive};
ghost use Rattle.mpc_plant.specs.declared.faults.PlantKind.{PlantKind as Kind};
ghost use Rattle.mpc_plant.specs.Limits.{FitsRow, IsCoordinate, greatest_count};
ghost use Rattle.mpc_plant.specs.Faults.{each};
ghost use Rattle.mpc_plant.specs.CheckedRows.{vector_or_zeros, stage_row_of, terminal_row_of, step_of, count_of, axis_of};

use crate::entries::{number, vector, whole_number};
use crate::faults::{PlantError, PlantKind, under_item, under_key};
use crate::lists::{Coordinate, Coordinates, PlantRow, PlantRows};
use crate::objects::{check_object, needed_in};
use mpc_frac::{Frac, NoMemory};
use mpc_linear::Vector;
use serde_json::Value;
use std::alloc::Global;
use std::cmp::Ordering;

/// The keys of a row that holds before the end.
const ROW_KEYS: [&str; 3] = ["x", "u", "max"];

/// The keys of a row that holds at the end.
const TERMINAL_ROW_KEYS: [&str; 2] = ["x", "max"];

/// The keys of a coordinate.
const AXIS_KEYS: [&str; 3] = ["low", "step", "count"];

/// The greatest count of a coordinate.
const GREATEST_COUNT: i64 = 1_000_000;

/// A vector of zeros.
fn zeros(alloc: Global, size: usize) -> Result<Vector, NoMemory>
    ensures { IfOk result (λ entries. entries ≡ replicate size (int (pos 0))) }
{
    let mut entries = Vector::new(alloc);
    for _ in 0..size {
        entries.push(Frac::whole(0))?;
    }
    Ok(entries)
}

/// The vector at a key, or zeros where the key is absent.
#[inline(never)]
pub(crate) fn vector_in(
    alloc: Global,
    size: usize,
    value: &Value,
    key: &str,
) -> Result<Vector, PlantError>
    ensures ok { IfOk result
        (λ entries. vector_or_zeros key.now size (get key.now (view value.now)) ≡ Ok entries) }
    ensures len { IfOk result (λ entries. length entries ≡ size) }
    ensures bad { (kind : Kind) (path : List ℕ) → result ≡ Err (PlantError.Bad kind path)
        → vector_or_zeros key.now size (get key.now (view value.now)) ≡ Err (kind, path) }
{
    match value.get(key) {
        Some(found) => under_key(alloc, key, vector(alloc, size, found)),
        None => match zeros(alloc, size) {
            Ok(entries) => Ok(entries),
            Err(NoMemory) => Err(PlantError::NoMemory),
        },
    }
}

/// The row that an object states, for each step before the end.
fn stage_row(
    alloc: Global,
    states: usize,
    inputs: usize,
    value: &Value,
) -> Result<PlantRow, PlantError>
    ensures ok { IfOk result (λ row. stage_row_of states inputs (view value.now) ≡ Ok row) }
    ensures fits { IfOk result (FitsRow states inputs) }
    ensures bad { (kind : Kind) (path : List ℕ) → result ≡ Err (PlantError.Bad kind path)
        → stage_row_of states inputs (view value.now) ≡ Err (kind, path) }
{
    check_object(alloc, value, &ROW_KEYS)?;
    let top = needed_in(alloc, value, "max")?;
    let on_state = vector_in(alloc, states, value, "x")?;
    let on_input = vector_in(alloc, inputs, value, "u")?;
    let max = under_key(alloc, "max", number(alloc, top))?;
    Ok(PlantRow {
        x: on_state,
        u: on_input,
        max,
    })
}

/// The row that an object states, for the end.
fn terminal_row(alloc: Global, states: usize, value: &Value) -> Result<PlantRow, PlantError>
    ensures ok { IfOk result (λ row. terminal_row_of states (view value.now) ≡ Ok row) }
    ensures fits { IfOk result (FitsRow states 0) }
    ensures bad { (kind : Kind) (path : List ℕ) → result ≡ Err (PlantError.Bad kind path)
        → terminal_row_of states (view value.now) ≡ Err (kind, path) }
{
    check_object(alloc, value, &TERMINAL_ROW_KEYS)?;
    let side = needed_in(alloc, value, "x")?;
    let top = needed_in(alloc, value, "max")?;
    let on_state = under_key(alloc, "x", vector(alloc, states, side))?;
    let max = under_key(alloc, "max", number(alloc, top))?;
    Ok(PlantRow {
        x: on_state,
        u: Vector::new(alloc),
        max,
    })
}

/// A step above 0.
fn step(alloc: Global, value: &Value) -> Result<Frac, PlantError>
    ensures ok { IfOk result (λ x. step_of (view value.now) ≡ Ok x) }
    ensures positive { IfOk result IsPositive }
    ensures bad { (kind : Kind) (path : List ℕ) → result ≡ Err (PlantError.Bad kind path)
        → step_of (view value.now) ≡ Err (kind, path) }
{
    let step = number(alloc, value)?;
    if Frac::whole(0).cmp(&step) != Ordering::Less {
        return Err(PlantError::here(alloc, PlantKind::StepNotPositive));
    }
    Ok(step)
}

/// A count from 0 to the limit.
fn count(alloc: Global, value: &Value) -> Result<u64, PlantError>
    ensures ok { IfOk result (λ k. count_of (view value.now) ≡ Ok k) }
    ensures small { IfOk result (λ k. k ≤ greatest_count) }
    ensures bad { (kind : Kind) (path : List ℕ) → result ≡ Err (PlantError.Bad kind path)
        → count_of (view value.now) ≡ Err (kind, path) }
{
    let count = whole_number(alloc, value)?;
    if 0 <= count && count <= GREATEST_COUNT {
        Ok(count as u64)
    } else {
        Err(PlantError::here(alloc, PlantKind::OverLimit))
    }
}

/// The coordinate that an object states.
fn axis(alloc: Global, value: &Value) -> Result<Coordinate, PlantError>
    ensures ok { IfOk result (λ found. axis_of (view value.now) ≡ Ok found) }
    ensures fits { IfOk result IsCoordinate }
    ensures bad { (kind : Kind) (path : List ℕ) → result ≡ Err (PlantError.Bad kind path)
        → axis_of (view value.now) ≡ Err (kind, path) }
{
    check_object(alloc, value, &AXIS_KEYS)?;
    let low = needed_in(alloc, value, "low")?;
    let up = needed_in(alloc, value, "step")?;
    let most = needed_in(alloc, value, "count")?;
    let low = under_key(alloc, "low", number(alloc, low))?;
    let step = under_key(alloc, "step", step(alloc, up))?;
    let count = under_key(alloc, "count", count(alloc, most))?;
    Ok(Coordinate { low, step, count })
}

/// The rows that a list states, for each step before the end.
pub(crate) fn stage_rows(
    alloc: Global,
    states: usize,
    inputs: usize,
    items: &[Value],
) -> Result<PlantRows, PlantError>
    ensures ok { IfOk result (λ rows. each (stage_row_of states inputs) 0 (items_view items.now) ≡ Ok rows) }
    ensures len { IfOk result (λ rows. length rows ≡ length items.now) }
    ensures fit { IfOk result (All (FitsRow states inputs)) }
    ensures bad { (kind : Kind) (path : List ℕ) → result ≡ Err (PlantError.Bad kind path)
        → each (stage_row_of states inputs) 0 (items_view items.now) ≡ Err (kind, path) }
{
    let mut rows = PlantRows::new(alloc);
    for (i, value) in items.iter().enumerate() {
        let row = under_item(alloc, i, stage_row(alloc, states, inputs, value))?;
        rows.push(row)?;
    }
    Ok(rows)
}

/// The rows that a list states, for the end.
pub(crate) fn terminal_rows(
    alloc: Global,
    states: usize,
    items: &[Value],
) -> Result<PlantRows, PlantError>
    ensures ok { IfOk result (λ rows. each (terminal_row_of states) 0 (items_view items.now) ≡ Ok rows) }
    ensures len { IfOk result (λ rows. length rows ≡ length items.now) }
    ensures fit { IfOk result (All (FitsRow states 0)) }
    ensures bad { (kind : Kind) (path : List ℕ) → result ≡ Err (PlantError.Bad kind path)
        → each (terminal_row_of states) 0 (items_view items.now) ≡ Err (kind, path) }
{
    let mut rows = PlantRows::new(alloc);
    for (i, value) in items.iter().enumerate() {
        let row = under_item(alloc, i, terminal_row(alloc, states, value))?;
        rows.push(row)?;
    }
    Ok(rows)
}

/// The coordinates that a list states.
pub(crate) fn axes(alloc: Global, items: &[Value]) -> Result<Coordinates, PlantError>
    ensures ok { IfOk result (λ grid. each axis_of 0 (items_view items.now) ≡ Ok grid) }
    ensures len { IfOk result (λ grid. length grid ≡ length items.now) }
    ensures fit { IfOk result (All IsCoordinate) }
    ensures bad { (kind : Kind) (path : List ℕ) → result ≡ Err (PlantError.Bad kind path)
        → each axis_of 0 (items_view items.now) ≡ Err (kind, path) }
{
    let mut grid = Coordinates::new(alloc);
    for (i, value) in items.iter().enumerate() {
        let found = under_item(alloc, i, axis(alloc, value))?;
        grid.push(found)?;
    }
    Ok(grid)
}
