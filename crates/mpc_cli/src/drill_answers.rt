//! The answer of the command `drill`.

ghost use Rattle.std.specs.Prelude.{IfOk, List, ℕ};
ghost use Rattle.mpc_trace.specs.Drills.{ExplainsDrillError};
ghost use Rattle.mpc_cli.specs.declared.commands.Command.TheVariants.{Drill};
ghost use Rattle.mpc_cli.specs.Outcomes.{IsAnswerTo};

use crate::answer::{Answer, output, refusal};
use mpc_frac::NoMemory;
use mpc_status::Status;
use mpc_synthesis::SynthesisError;
use mpc_theorem::drill_line_theorems;
use mpc_trace::drill;
use mpc_workers::Gate;
use std::alloc::Global;
use std::sync::Wait;
use std::thread::Threads;

/// The answer to a drill whose plant is refused, where the cause holds of it.
fn drill_refusal(alloc: Global, error: SynthesisError) -> Result<Answer, NoMemory>
    ensures { IfOk result (λ answer. (number : ℕ) (input : List ℕ) → ExplainsDrillError number error
        → IsAnswerTo (Drill number) input answer.status answer.text.items) }
{
    match error {
        SynthesisError::NotDefinite(pivot) => refusal(alloc, Status::NotDefinite(pivot)),
        SynthesisError::TooWide(place) => refusal(alloc, Status::TooWide(place)),
        SynthesisError::NoMemory => Err(NoMemory),
    }
}

/// The answer of the command `drill`, which reads nothing.
pub fn drill_answer<T: Threads + Wait + Sync, G: Gate + Sync>(
    rt: &T,
    alloc: Global,
    number: u32,
    gate: &G,
) -> Result<Answer, NoMemory>
    ensures { IfOk result (λ answer. (input : List ℕ)
        → IsAnswerTo (Drill number) input answer.status answer.text.items) }
{
    drill_line_theorems();
    match drill(rt, alloc, number, gate) {
        Ok(drilled) => {
            let line = drilled.line(alloc)?;
            Ok(output(line))
        }
        Err(error) => drill_refusal(alloc, error),
    }
}
