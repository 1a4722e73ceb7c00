//! Stretches of neighbouring places of a list, each of which may be taken by a thread of its own.

ghost use Rattle.std.specs.Prelude.{◌<◌, ◌≤◌, All, IfOk, vec_len};
ghost use Rattle.mpc_check.specs.Stretches.{IsStretchOf, AreNeighbours};

use mpc_frac::NoMemory;
use std::alloc::Global;

/// The most stretches of a list, each of which may take a thread.
const MOST_STRETCHES: usize = 16;

/// The fewest nodes for which a thread of their own is worth its start: they take a millisecond and more.
pub const FEWEST_NODES: usize = 512;

/// The fewest laws for which a thread of their own is worth its start: they take half a millisecond and more.
pub const FEWEST_LAWS: usize = 32;

/// Neighbouring places of a list: those `from`, counted from 0, to before `to`.
#[derive(Clone, Copy, Debug, Drop)]
pub(crate) struct Stretch {
    pub from: usize,
    pub to: usize,
}

/// So many places cut into neighbouring stretches of nearly the same length, at least of the fewest that are worth a thread: into one where
/// there are few.
pub(crate) fn stretches(
    alloc: Global,
    places: usize,
    fewest: usize,
) -> Result<Vec<Stretch>, NoMemory>
    requires fewest { 0 < fewest }
    ensures whole { IfOk result (λ v. AreNeighbours 0 places v.items) }
    ensures each { IfOk result (λ v. All (IsStretchOf places) v.items) }
    ensures few { IfOk result (λ v. vec_len v ≤ 16) }
{
    let count = (places / fewest).clamp(1, MOST_STRETCHES);
    let mut stretches = Vec::new(alloc);
    let mut from = 0;
    for k in 0..count {
        let to = from + (places - from) / (count - k);
        stretches.push(Stretch { from, to }).map_err(|_| NoMemory)?;
        from = to;
    }
    Ok(stretches)
}
