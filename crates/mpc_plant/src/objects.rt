//! Objects in a plant file.

ghost use Rattle.std.specs.Prelude.{◌≡◌, ℕ, List, IfOk, OnOk, Ok, Err, Some, map, if◌then◌else◌};
ghost use Rattle.serde_json.specs.View.{view};
ghost use Rattle.mpc_plant.specs.declared.faults.PlantKind.{PlantKind as Kind};
ghost use Rattle.mpc_plant.specs.CheckedObjects.{shown_key, object_with, needed, is_plain, unknown};

use crate::faults::{PlantError, PlantKind, under_key};
use crate::values::other_key;
use serde_json::Value;
use std::alloc::{AllocError, Global};

/// How many characters of an unknown key a path shows.
const SHOWN: usize = 32;

/// What stands at a key that is needed. The program has this once, and not at each key.
#[inline(never)]
pub(crate) fn needed_in<'v>(
    alloc: Global,
    value: &'v Value,
    key: &str,
) -> Result<&'v Value, PlantError>
    ensures ok { IfOk result (λ found. needed key.now (view value.now) ≡ Ok (view found.now)) }
    ensures bad { (kind : Kind) (path : List ℕ) → result ≡ Err (PlantError.Bad kind path)
        → needed key.now (view value.now) ≡ Err (kind, path) }
{
    match value.get(key) {
        Some(found) => Ok(found),
        None => under_key(
            alloc,
            key,
            Err(PlantError::here(alloc, PlantKind::MissingKey)),
        ),
    }
}

/// A character of an unknown key as a path shows it.
fn shown(character: char) -> u8
    ensures { result ≡ (if is_plain character then character else 63) }
{
    match character {
        '0'..='9' | 'A'..='Z' | 'a'..='z' | '_' | '-' => character as u8,
        _ => b'?',
    }
}

/// An unknown key as a path shows it.
fn shown_text(alloc: Global, key: &str) -> Result<Vec<u8>, AllocError>
    ensures { IfOk result (λ text. text.items ≡ shown_key key.now) }
{
    key.chars().take(SHOWN).map(shown).collect(alloc)
}

/// The fault of an unknown key.
fn unknown_key(alloc: Global, key: &str) -> PlantError
    ensures { (kind : Kind) (path : List ℕ) → result ≡ PlantError.Bad kind path
        → unknown (Some key.now) ≡ Err (kind, path) }
{
    match shown_text(alloc, key) {
        Ok(text) => PlantError::here(alloc, PlantKind::UnknownKey).under(alloc, text.as_slice()),
        Err(_) => PlantError::NoMemory,
    }
}

/// Whether the value is an object with no key but these.
pub(crate) fn check_object(alloc: Global, value: &Value, names: &[&str]) -> Result<(), PlantError>
    ensures ok { OnOk result (object_with (map (λ n. n.now) names.now) (view value.now) ≡ Ok tt) }
    ensures bad { (kind : Kind) (path : List ℕ) → result ≡ Err (PlantError.Bad kind path)
        → object_with (map (λ n. n.now) names.now) (view value.now) ≡ Err (kind, path) }
{
    match value.as_object() {
        Some(members) => match other_key(members, names) {
            Some(key) => Err(unknown_key(alloc, key.as_str())),
            None => Ok(()),
        },
        None => Err(PlantError::here(alloc, PlantKind::NotObject)),
    }
}
