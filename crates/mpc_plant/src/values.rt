//! The JSON values that a plant file is made of.

ghost use Rattle.std.specs.Prelude.{◌≡◌, ◌↔◌, IsTrue, Contains, option_map, map, string_bytes};
ghost use Rattle.serde_json.specs.View.{view, members_view};
ghost use Rattle.mpc_plant.specs.Keys.{first_other};
ghost use Rattle.mpc_plant.specs.Numbers.{integer_of};

use serde_json::{Map, Value};

/// The largest size of an integer in a plant file: 18 digits.
const LARGEST: u64 = 999_999_999_999_999_999;

/// The integer that a value is, if it has at most 18 digits.
pub(crate) fn integer(value: &Value) -> Option<i64>
    ensures { result ≡ integer_of (view value.now) }
{
    match value.as_i64() {
        Some(z) if z.unsigned_abs() <= LARGEST => Some(z),
        _ => None,
    }
}

/// Whether the name is one of these.
fn is_among(name: &str, names: &[&str]) -> bool
    ensures { IsTrue result ↔ Contains (map (λ n. n.now) names.now) name.now }
{
    names.contains(&name)
}

/// The first key of an object that is none of these.
pub(crate) fn other_key<'v>(members: &'v Map<String, Value>, names: &[&str]) -> Option<&'v String>
    ensures { option_map (λ key. string_bytes key.now) result
        ≡ first_other (map (λ n. n.now) names.now) (members_view members.now.entries) }
{
    for (key, _) in members {
        if !is_among(key.as_str(), names) {
            return Some(key);
        }
    }
    None
}
