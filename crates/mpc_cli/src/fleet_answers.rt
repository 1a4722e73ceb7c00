//! The answer of the command `fleet`.

ghost use Rattle.std.specs.Prelude.{IfOk};
ghost use Rattle.mpc_cli.specs.declared.commands.Command.TheVariants.{Fleet};
ghost use Rattle.mpc_cli.specs.Commands.{IsWorkerCount};
ghost use Rattle.mpc_cli.specs.Outcomes.{IsAnswerTo};

use crate::answer::{Answer, output, refusal};
use crate::theorems::due_statuses;
use mpc_frac::NoMemory;
use mpc_sections::{SectionsError, fleet};
use mpc_status::Status;
use mpc_theorem::{file_output_theorems, plant_texts};
use mpc_workers::Gate;
use std::alloc::Global;
use std::sync::Wait;
use std::thread::Threads;

/// The answer of the command `fleet`, by so many workers.
pub fn fleet_answer<T: Threads + Wait + Sync, G: Gate + Sync>(
    rt: &T,
    alloc: Global,
    workers: u32,
    input: &[u8],
    gate: &G,
) -> Result<Answer, NoMemory>
    requires { IsWorkerCount workers }
    ensures { IfOk result (λ answer. IsAnswerTo (Fleet workers) input.now answer.status answer.text.items) }
{
    due_statuses();
    plant_texts();
    file_output_theorems();
    match fleet(rt, alloc, input, workers, gate) {
        Ok(text) => Ok(output(text)),
        Err(SectionsError::TooManyPlants) => refusal(alloc, Status::TooManyPlants),
        Err(SectionsError::NoMemory) => Err(NoMemory),
    }
}
