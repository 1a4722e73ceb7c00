//! The history in which a plant's active sets are claimed and decided.

ghost use Rattle.std.specs.Prelude.{◌≡◌, ℕ, IfOk};
ghost use Rattle.mpc_plant.specs.declared.plants.Plant.{Plant};
ghost use Rattle.mpc_synthesis.specs.Programs.{IsDecidedBy};
ghost use Rattle.mpc_trace.specs.Histories.{IsTraceOf, history_text};

use crate::histories::history_lines;
use mpc_claim::{Registry, history_theorems, legal_theorems};
use mpc_frac::NoMemory;
use std::alloc::Global;

/// The text of a registry's own history. Where the registry decided a plant's candidates, it is a trace of that plant.
pub fn trace(alloc: Global, registry: &Registry) -> Result<Vec<u8>, NoMemory>
    ensures own { IfOk result (λ text. text.items ≡ history_text registry.now.history) }
    ensures trace { IfOk result (λ text. (workers : ℕ) (plant : Plant) → IsDecidedBy workers plant registry.now
        → IsTraceOf workers plant text.items) }
{
    legal_theorems();
    history_theorems();
    let text = history_lines(alloc, registry.history())?;
    Ok(text)
}
