//! Lists of numbers: vectors and matrices.

ghost use Rattle.std.specs.Prelude.{◌≡◌, ◌<◌, ◌∷◌, ℕ, List, IfOk, Ok, Err, length};
ghost use Rattle.serde_json.specs.View.{view, items_view};
ghost use Rattle.mpc_plant.specs.declared.faults.PlantKind.{PlantKind as Kind};
ghost use Rattle.mpc_plant.specs.Limits.{IsFromTo};
ghost use Rattle.mpc_plant.specs.Faults.{each};
ghost use Rattle.mpc_plant.specs.CheckedEntries.{number_of, whole_number_of, list_of, list_of_length, list_between as checked_between, vector_of};

use crate::faults::{PlantError, PlantKind, under_item};
use crate::numerals::number_in;
use crate::values::integer;
use mpc_frac::Frac;
use mpc_linear::Vector;
use serde_json::Value;
use std::alloc::Global;

/// The number that a value is.
#[inline(never)]
pub(crate) fn number(alloc: Global, value: &Value) -> Result<Frac, PlantError>
    ensures ok { IfOk result (λ x. number_of (view value.now) ≡ Ok x) }
    ensures bad { (kind : Kind) (path : List ℕ) → result ≡ Err (PlantError.Bad kind path)
        → number_of (view value.now) ≡ Err (kind, path) }
{
    if let Some(text) = value.as_str() {
        return number_in(text.as_bytes()).ok_or(PlantError::here(alloc, PlantKind::BadNumber));
    }
    if !value.is_number() {
        return Err(PlantError::here(alloc, PlantKind::WrongKind));
    }
    match integer(value) {
        Some(given) => Ok(Frac::whole(given)),
        None => Err(PlantError::here(alloc, PlantKind::BadNumber)),
    }
}

/// The integer that a value is.
pub(crate) fn whole_number(alloc: Global, value: &Value) -> Result<i64, PlantError>
    ensures ok { IfOk result (λ given. whole_number_of (view value.now) ≡ Ok given) }
    ensures bad { (kind : Kind) (path : List ℕ) → result ≡ Err (PlantError.Bad kind path)
        → whole_number_of (view value.now) ≡ Err (kind, path) }
{
    match integer(value) {
        Some(given) => Ok(given),
        None => Err(PlantError::here(alloc, PlantKind::WrongKind)),
    }
}

/// The list that a value is.
pub(crate) fn list(alloc: Global, value: &Value) -> Result<&[Value], PlantError>
    ensures ok { IfOk result (λ items. list_of (view value.now) ≡ Ok (items_view items.now)) }
    ensures bad { (kind : Kind) (path : List ℕ) → result ≡ Err (PlantError.Bad kind path)
        → list_of (view value.now) ≡ Err (kind, path) }
{
    match value.as_array() {
        Some(items) => Ok(items.as_slice()),
        None => Err(PlantError::here(alloc, PlantKind::WrongKind)),
    }
}

/// The list of so many items that a value is.
pub(crate) fn list_with_len(
    alloc: Global,
    size: usize,
    value: &Value,
) -> Result<&[Value], PlantError>
    ensures ok { IfOk result
        (λ items. list_of_length size (view value.now) ≡ Ok (items_view items.now)) }
    ensures size { IfOk result (λ items. length items.now ≡ size) }
    ensures bad { (kind : Kind) (path : List ℕ) → result ≡ Err (PlantError.Bad kind path)
        → list_of_length size (view value.now) ≡ Err (kind, path) }
{
    let items = list(alloc, value)?;
    if items.len() != size {
        return Err(PlantError::here(alloc, PlantKind::WrongShape));
    }
    Ok(items)
}

/// The list of `low` to `high` items that a value is.
pub(crate) fn list_between(
    alloc: Global,
    low: usize,
    high: usize,
    value: &Value,
) -> Result<&[Value], PlantError>
    ensures ok { IfOk result
        (λ items. checked_between low high (view value.now) ≡ Ok (items_view items.now)) }
    ensures size { IfOk result (λ items. IsFromTo low high (length items.now)) }
    ensures bad { (kind : Kind) (path : List ℕ) → result ≡ Err (PlantError.Bad kind path)
        → checked_between low high (view value.now) ≡ Err (kind, path) }
{
    let items = list(alloc, value)?;
    if items.len() < low {
        return Err(PlantError::here(alloc, PlantKind::OverLimit));
    }
    if items.len() > high {
        return Err(PlantError::here(alloc, PlantKind::OverLimit));
    }
    Ok(items)
}

/// The numbers of a list, in their order.
fn numbers(alloc: Global, items: &[Value]) -> Result<Vector, PlantError>
    ensures ok { IfOk result (λ entries. each number_of 0 (items_view items.now) ≡ Ok entries) }
    ensures len { IfOk result (λ entries. length entries ≡ length items.now) }
    ensures bad { (kind : Kind) (path : List ℕ) → result ≡ Err (PlantError.Bad kind path)
        → each number_of 0 (items_view items.now) ≡ Err (kind, path) }
{
    let mut entries = Vector::new(alloc);
    for (i, value) in items.iter().enumerate() {
        let entry = under_item(alloc, i, number(alloc, value))?;
        entries.push(entry)?;
    }
    Ok(entries)
}

/// The vector of so many numbers that a value is.
#[inline(never)]
pub(crate) fn vector(alloc: Global, size: usize, value: &Value) -> Result<Vector, PlantError>
    ensures ok { IfOk result (λ entries. vector_of size (view value.now) ≡ Ok entries) }
    ensures len { IfOk result (λ entries. length entries ≡ size) }
    ensures bad { (kind : Kind) (path : List ℕ) → result ≡ Err (PlantError.Bad kind path)
        → vector_of size (view value.now) ≡ Err (kind, path) }
{
    let items = list_with_len(alloc, size, value)?;
    numbers(alloc, items)
}
