//! The reader of a plant file.

ghost use Rattle.std.specs.Prelude.{◌≡◌, ◌*◌, ◌+◌, ◌≤◌, ℕ, List, IfOk, OnOk, Ok, Err, length, All, nat_le};
ghost use Rattle.serde_json.specs.View.{view, items_view};
ghost use Rattle.serde_json.specs.Find.{get};
ghost use Rattle.mpc_space.specs.Matrix.{height};
ghost use Rattle.mpc_plant.specs.declared.faults.PlantKind.{PlantKind as Kind};
ghost use Rattle.mpc_plant.specs.Limits.{IsFromTo, IsWeight, IsCoordinate, FitsRow, row_limit as most_rows};
ghost use Rattle.mpc_linear.specs.Shape.{HasShape};
ghost use Rattle.mpc_plant.specs.CheckedPlant.{keys_of, version_of, absent, plain_of, edition_of, horizon_of, at_key, weight_of, list_or_none, grid_of};
ghost use Rattle.mpc_plant.specs.WholePlant.{head_of, dynamics_of, weights_of, targets_of, row_lists_of, few_rows, parts_of, stated_by, ReadsAsPlant, IsFirstFault};

use crate::entries::{list, list_with_len, whole_number};
use crate::faults::{PlantError, PlantKind, under_key};
use crate::lists::{Coordinates, PlantRows};
use crate::objects::{check_object, needed_in};
use crate::plants::Plant;
use crate::rows::{axes, stage_rows, terminal_rows, vector_in};
use crate::weights::{side, square, weight};
use mpc_linear::{Matrix, Vector};
use serde_json::Value;
use std::alloc::Global;

/// The keys of the whole; the last three are those of version 2 alone.
const PLANT_KEYS: [&str; 13] = [
    "version", "horizon", "A", "B", "Q", "R", "P", "rows", "terminal", "grid", "drift", "xgoal",
    "ugoal",
];

/// Whether the keys of the whole are there, and no other ones.
fn check_keys(alloc: Global, value: &Value) -> Result<(), PlantError>
    ensures ok { OnOk result (keys_of (view value.now) ≡ Ok tt) }
    ensures bad { (kind : Kind) (path : List ℕ) → result ≡ Err (PlantError.Bad kind path)
        → keys_of (view value.now) ≡ Err (kind, path) }
{
    check_object(alloc, value, &PLANT_KEYS)?;
    needed_in(alloc, value, "version")?;
    needed_in(alloc, value, "horizon")?;
    needed_in(alloc, value, "A")?;
    needed_in(alloc, value, "B")?;
    needed_in(alloc, value, "Q")?;
    needed_in(alloc, value, "R")?;
    needed_in(alloc, value, "P")?;
    needed_in(alloc, value, "grid")?;
    Ok(())
}

/// The version that a value is: 1 or 2.
fn version(alloc: Global, value: &Value) -> Result<i64, PlantError>
    ensures ok { IfOk result (λ z. version_of (view value.now) ≡ Ok z) }
    ensures bad { (kind : Kind) (path : List ℕ) → result ≡ Err (PlantError.Bad kind path)
        → version_of (view value.now) ≡ Err (kind, path) }
{
    let version = whole_number(alloc, value)?;
    if version != 1 && version != 2 {
        return Err(PlantError::here(alloc, PlantKind::BadVersion));
    }
    Ok(version)
}

/// Whether nothing stands at a key.
fn check_absent(alloc: Global, value: &Value, key: &str) -> Result<(), PlantError>
    ensures ok { OnOk result (absent key.now (get key.now (view value.now)) ≡ Ok tt) }
    ensures bad { (kind : Kind) (path : List ℕ) → result ≡ Err (PlantError.Bad kind path)
        → absent key.now (get key.now (view value.now)) ≡ Err (kind, path) }
{
    match value.get(key) {
        Some(_) => under_key(
            alloc,
            key,
            Err(PlantError::here(alloc, PlantKind::UnknownKey)),
        ),
        None => Ok(()),
    }
}

/// Whether none of the keys is there that version 2 adds.
fn check_plain(alloc: Global, value: &Value) -> Result<(), PlantError>
    ensures ok { OnOk result (plain_of (view value.now) ≡ Ok tt) }
    ensures bad { (kind : Kind) (path : List ℕ) → result ≡ Err (PlantError.Bad kind path)
        → plain_of (view value.now) ≡ Err (kind, path) }
{
    check_absent(alloc, value, "drift")?;
    check_absent(alloc, value, "xgoal")?;
    check_absent(alloc, value, "ugoal")
}

/// Whether the version is one that is read, and has the keys that are there.
fn check_edition(alloc: Global, value: &Value) -> Result<(), PlantError>
    ensures ok { OnOk result (edition_of (view value.now) ≡ Ok tt) }
    ensures bad { (kind : Kind) (path : List ℕ) → result ≡ Err (PlantError.Bad kind path)
        → edition_of (view value.now) ≡ Err (kind, path) }
{
    let found = needed_in(alloc, value, "version")?;
    let version = under_key(alloc, "version", version(alloc, found))?;
    if version == 1 {
        return check_plain(alloc, value);
    }
    Ok(())
}

/// The horizon that a value is: one to six steps.
fn horizon(alloc: Global, value: &Value) -> Result<u32, PlantError>
    ensures ok { IfOk result (λ steps. horizon_of (view value.now) ≡ Ok steps) }
    ensures size { IfOk result (IsFromTo 1 6) }
    ensures bad { (kind : Kind) (path : List ℕ) → result ≡ Err (PlantError.Bad kind path)
        → horizon_of (view value.now) ≡ Err (kind, path) }
{
    let steps = whole_number(alloc, value)?;
    if 1 <= steps && steps <= 6 {
        Ok(steps as u32)
    } else {
        Err(PlantError::here(alloc, PlantKind::OverLimit))
    }
}

/// The horizon, once the keys and the version are right.
fn head(alloc: Global, value: &Value) -> Result<u32, PlantError>
    ensures ok { IfOk result (λ steps. head_of (view value.now) ≡ Ok steps) }
    ensures size { IfOk result (IsFromTo 1 6) }
    ensures bad { (kind : Kind) (path : List ℕ) → result ≡ Err (PlantError.Bad kind path)
        → head_of (view value.now) ≡ Err (kind, path) }
{
    check_keys(alloc, value)?;
    check_edition(alloc, value)?;
    let steps = needed_in(alloc, value, "horizon")?;
    under_key(alloc, "horizon", horizon(alloc, steps))
}

/// The list at a key, or an empty one where the key is absent.
fn list_at<'v>(alloc: Global, value: &'v Value, key: &str) -> Result<&'v [Value], PlantError>
    ensures ok { IfOk result
        (λ items. list_or_none key.now (get key.now (view value.now)) ≡ Ok (items_view items.now)) }
    ensures bad { (kind : Kind) (path : List ℕ) → result ≡ Err (PlantError.Bad kind path)
        → list_or_none key.now (get key.now (view value.now)) ≡ Err (kind, path) }
{
    match value.get(key) {
        Some(found) => under_key(alloc, key, list(alloc, found)),
        None => Ok(&[]),
    }
}

/// A and B of a plant.
#[derive(Drop)]
struct Dynamics {
    a: Matrix,
    b: Matrix,
}

/// The weights of a plant.
#[derive(Drop)]
struct Weights {
    q: Matrix,
    r: Matrix,
    last: Matrix,
}

/// The drift of a plant, and where its state and its moves are to be.
#[derive(Drop)]
struct Targets {
    drift: Vector,
    xgoal: Vector,
    ugoal: Vector,
}

/// The rows of a plant.
#[derive(Drop)]
struct RowLists {
    rows: PlantRows,
    terminal: PlantRows,
}

/// A and B, with sizes inside the limits.
fn read_dynamics(alloc: Global, steps: u32, value: &Value) -> Result<Dynamics, PlantError>
    requires { IsFromTo 1 6 steps }
    ensures ok { IfOk result (λ m. dynamics_of steps (view value.now)
        ≡ Ok (record { a = m.a.rows; b = m.b.rows })) }
    ensures states { IfOk result (λ m. IsFromTo 1 4 (height m.a)) }
    ensures inputs { IfOk result (λ m. IsFromTo 1 3 m.b.columns) }
    ensures moves { IfOk result (λ m. m.b.columns * steps ≤ 6) }
    ensures a_shape { IfOk result (λ m. HasShape m.a (height m.a) (height m.a)) }
    ensures b_shape { IfOk result (λ m. HasShape m.b (height m.a) m.b.columns) }
    ensures bad { (kind : Kind) (path : List ℕ) → result ≡ Err (PlantError.Bad kind path)
        → dynamics_of steps (view value.now) ≡ Err (kind, path) }
{
    let found = needed_in(alloc, value, "A")?;
    let of_state = under_key(alloc, "A", square(alloc, found))?;
    let found = needed_in(alloc, value, "B")?;
    let of_input = under_key(alloc, "B", side(alloc, of_state.rows(), found))?;
    if of_input.cols() * steps > 6 {
        return under_key(
            alloc,
            "horizon",
            Err(PlantError::here(alloc, PlantKind::OverLimit)),
        );
    }
    Ok(Dynamics {
        a: of_state,
        b: of_input,
    })
}

/// The symmetric matrix of this size at a key.
#[inline(never)]
fn weight_in(alloc: Global, size: u32, value: &Value, key: &str) -> Result<Matrix, PlantError>
    ensures ok { IfOk result (λ m. at_key key.now (weight_of size) (view value.now) ≡ Ok m.rows) }
    ensures weight { IfOk result (λ m. IsWeight m size) }
    ensures bad { (kind : Kind) (path : List ℕ) → result ≡ Err (PlantError.Bad kind path)
        → at_key key.now (weight_of size) (view value.now) ≡ Err (kind, path) }
{
    let found = needed_in(alloc, value, key)?;
    under_key(alloc, key, weight(alloc, size, found))
}

/// The weights, for so many states and inputs.
fn read_weights(
    alloc: Global,
    states: u32,
    inputs: u32,
    value: &Value,
) -> Result<Weights, PlantError>
    ensures ok { IfOk result (λ m. weights_of states inputs (view value.now)
        ≡ Ok (record { q = m.q.rows; r = m.r.rows; last = m.last.rows })) }
    ensures q { IfOk result (λ m. IsWeight m.q states) }
    ensures r { IfOk result (λ m. IsWeight m.r inputs) }
    ensures last { IfOk result (λ m. IsWeight m.last states) }
    ensures bad { (kind : Kind) (path : List ℕ) → result ≡ Err (PlantError.Bad kind path)
        → weights_of states inputs (view value.now) ≡ Err (kind, path) }
{
    let of_state = weight_in(alloc, states, value, "Q")?;
    let of_input = weight_in(alloc, inputs, value, "R")?;
    let last = weight_in(alloc, states, value, "P")?;
    Ok(Weights {
        q: of_state,
        r: of_input,
        last,
    })
}

/// The drift and the targets, for so many states and inputs, with zeros where a key is absent.
fn read_targets(
    alloc: Global,
    states: u32,
    inputs: u32,
    value: &Value,
) -> Result<Targets, PlantError>
    ensures ok { IfOk result (λ found. targets_of states inputs (view value.now)
        ≡ Ok (record { drift = found.drift; xgoal = found.xgoal; ugoal = found.ugoal })) }
    ensures drift { IfOk result (λ found. length found.drift ≡ states) }
    ensures xgoal { IfOk result (λ found. length found.xgoal ≡ states) }
    ensures ugoal { IfOk result (λ found. length found.ugoal ≡ inputs) }
    ensures bad { (kind : Kind) (path : List ℕ) → result ≡ Err (PlantError.Bad kind path)
        → targets_of states inputs (view value.now) ≡ Err (kind, path) }
{
    let drift = vector_in(alloc, states as usize, value, "drift")?;
    let xgoal = vector_in(alloc, states as usize, value, "xgoal")?;
    let ugoal = vector_in(alloc, inputs as usize, value, "ugoal")?;
    Ok(Targets {
        drift,
        xgoal,
        ugoal,
    })
}

/// The most rows that a program of so many unknowns may have.
fn row_limit(unknowns: u32) -> usize
    ensures limit { result ≡ most_rows unknowns }
    ensures most { result ≤ 60 }
{
    if unknowns <= 4 { 60 } else { 40 }
}

/// Whether the rows over all steps and the end are within the limit.
fn are_few(limit: usize, steps: u32, rows: usize, terminal: usize) -> bool
    requires steps { IsFromTo 1 6 steps }
    requires limit { limit ≤ 60 }
    ensures { result ≡ nat_le (steps * rows + terminal) limit }
{
    rows <= limit && terminal <= limit && steps as usize * rows + terminal <= limit
}

/// Whether two lists of rows are short enough for the horizon and so many inputs.
fn check_few(
    alloc: Global,
    steps: u32,
    inputs: u32,
    stage: &[Value],
    end: &[Value],
) -> Result<(), PlantError>
    requires steps { IsFromTo 1 6 steps }
    requires moves { inputs * steps ≤ 6 }
    ensures ok { OnOk result (few_rows steps inputs (items_view stage.now) (items_view end.now) ≡ Ok tt) }
    ensures few { OnOk result (steps * length stage.now + length end.now ≤ most_rows (inputs * steps)) }
    ensures bad { (kind : Kind) (path : List ℕ) → result ≡ Err (PlantError.Bad kind path)
        → few_rows steps inputs (items_view stage.now) (items_view end.now) ≡ Err (kind, path) }
{
    let limit = row_limit(inputs * steps);
    if !are_few(limit, steps, stage.len(), end.len()) {
        return Err(PlantError::here(alloc, PlantKind::OverLimit));
    }
    Ok(())
}

/// The rows, for a horizon and so many states and inputs.
fn read_row_lists(
    alloc: Global,
    steps: u32,
    states: u32,
    inputs: u32,
    value: &Value,
) -> Result<RowLists, PlantError>
    requires steps { IsFromTo 1 6 steps }
    requires moves { inputs * steps ≤ 6 }
    ensures ok { IfOk result (λ lists. row_lists_of steps states inputs (view value.now)
        ≡ Ok (record { rows = lists.rows; terminal = lists.terminal })) }
    ensures few { IfOk result (λ lists. steps * length lists.rows + length lists.terminal ≤ most_rows (inputs * steps)) }
    ensures rows { IfOk result (λ lists. All (FitsRow states inputs) lists.rows) }
    ensures terminal { IfOk result (λ lists. All (FitsRow states 0) lists.terminal) }
    ensures bad { (kind : Kind) (path : List ℕ) → result ≡ Err (PlantError.Bad kind path)
        → row_lists_of steps states inputs (view value.now) ≡ Err (kind, path) }
{
    let stage = list_at(alloc, value, "rows")?;
    let end = list_at(alloc, value, "terminal")?;
    under_key(alloc, "rows", check_few(alloc, steps, inputs, stage, end))?;
    let rows = under_key(
        alloc,
        "rows",
        stage_rows(alloc, states as usize, inputs as usize, stage),
    )?;
    let terminal = under_key(
        alloc,
        "terminal",
        terminal_rows(alloc, states as usize, end),
    )?;
    Ok(RowLists { rows, terminal })
}

/// The grid of so many coordinates that a value states.
fn grid(alloc: Global, size: u32, value: &Value) -> Result<Coordinates, PlantError>
    ensures ok { IfOk result (λ axes. grid_of size (view value.now) ≡ Ok axes) }
    ensures len { IfOk result (λ axes. length axes ≡ size) }
    ensures fit { IfOk result (All IsCoordinate) }
    ensures bad { (kind : Kind) (path : List ℕ) → result ≡ Err (PlantError.Bad kind path)
        → grid_of size (view value.now) ≡ Err (kind, path) }
{
    let items = list_with_len(alloc, size as usize, value)?;
    axes(alloc, items)
}

/// The plant that a JSON value states.
fn plant_in(alloc: Global, value: &Value) -> Result<Plant, PlantError>
    ensures ok { IfOk result (λ plant. parts_of (view value.now) ≡ Ok (stated_by plant)) }
    ensures bad { (kind : Kind) (path : List ℕ) → result ≡ Err (PlantError.Bad kind path)
        → parts_of (view value.now) ≡ Err (kind, path) }
{
    let horizon = head(alloc, value)?;
    let Dynamics { a, b } = read_dynamics(alloc, horizon, value)?;
    let states = a.rows();
    let inputs = b.cols();
    let Weights { q, r, last } = read_weights(alloc, states, inputs, value)?;
    let Targets {
        drift,
        xgoal,
        ugoal,
    } = read_targets(alloc, states, inputs, value)?;
    let RowLists { rows, terminal } = read_row_lists(alloc, horizon, states, inputs, value)?;
    let axes = needed_in(alloc, value, "grid")?;
    let grid = under_key(alloc, "grid", grid(alloc, states, axes))?;
    Ok(Plant {
        n: states,
        p: inputs,
        horizon,
        a,
        b,
        q,
        r,
        last,
        drift,
        xgoal,
        ugoal,
        rows,
        terminal,
        grid,
    })
}

/// The plant whose file these bytes are.
///
/// `Bad` names the first check of the file that fails and its place; `docs/file_formats.md` has the checks in their order.
pub fn read_plant(alloc: Global, bytes: &[u8]) -> Result<Plant, PlantError>
    ensures ok { IfOk result (ReadsAsPlant bytes.now) }
    ensures bad { (kind : Kind) (path : List ℕ) → result ≡ Err (PlantError.Bad kind path)
        → IsFirstFault bytes.now kind path }
{
    match Value::from_slice(alloc, bytes) {
        Ok(value) => plant_in(alloc, &value),
        Err(refusal) if refusal.is_memory() => Err(PlantError::NoMemory),
        Err(_) => Err(PlantError::here(alloc, PlantKind::NotJson)),
    }
}
