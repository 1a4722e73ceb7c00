//! The answers of the commands on a plant.

ghost use Rattle.std.specs.Prelude.{◌≡◌, IfOk, IfErr, List, ℕ};
ghost use Rattle.mpc_plant.specs.declared.plants.Plant.{Plant};
ghost use Rattle.mpc_table.specs.Cut.{tail_of};
ghost use Rattle.mpc_synthesis.specs.Programs.{IsDecidedBy};
ghost use Rattle.mpc_synthesis.specs.Refusals.{Extent, ExplainsSynthesisError};
ghost use Rattle.mpc_cli.specs.declared.commands.Command.TheVariants.{OfPlant};
ghost use Rattle.mpc_cli.specs.declared.commands.PlantCommand.{PlantCommand};
ghost use Rattle.mpc_cli.specs.declared.commands.PlantCommand.TheVariants.{Run, Compile, Trace};
ghost use Rattle.mpc_cli.specs.Commands.{IsWorkerCount, plant_text, workers_of};
ghost use Rattle.mpc_cli.specs.Extents.{extent_of};
ghost use Rattle.mpc_cli.specs.Outcomes.{IsAnswerTo, IsPlantAnswer, IsPlantRefusal};

use crate::answer::{Answer, output, refusal};
use crate::commands::PlantCommand;
use mpc_claim::Registry;
use mpc_file::{one_text, write_file};
use mpc_frac::NoMemory;
use mpc_plant::{Plant, PlantError, read_plant};
use mpc_status::Status;
use mpc_synthesis::{
    SynthesisError, controller_of, decided, decided_in_threads, one_controller, right_controller,
};
use mpc_table::{Sections, cut, replies, right_replies};
use mpc_theorem::{file_output_theorems, output_lines, plant_texts, trace_theorems};
use mpc_trace::trace;
use mpc_workers::Gate;
use std::alloc::Global;
use std::sync::Wait;
use std::thread::Threads;

/// The file of the plant in the input of a command, and the lines of counts behind it.
fn plant_sections(command: PlantCommand, input: &[u8]) -> Sections<'_>
    ensures head { result.head.now ≡ plant_text command input.now }
    ensures counts { result.counts.now ≡ tail_of input.now }
{
    let sections = cut(input);
    match command {
        PlantCommand::Run => sections,
        PlantCommand::Compile(_) | PlantCommand::Trace(_) => Sections {
            head: input,
            counts: sections.counts,
        },
    }
}

/// The answer where no plant is read, unless memory ran out.
fn plant_error_refusal(alloc: Global, error: PlantError) -> Result<Answer, NoMemory>
    ensures { IfOk result (λ answer. IsPlantRefusal error answer.status answer.text.items) }
{
    match error {
        PlantError::Bad(kind, path) => refusal(alloc, Status::BadPlant(kind, path)),
        PlantError::NoMemory => Err(NoMemory),
    }
}

/// The answer to a plant that is refused, where the cause holds of it.
fn plant_refusal(alloc: Global, error: SynthesisError) -> Result<Answer, NoMemory>
    ensures { IfOk result (λ answer. (c : PlantCommand) (plant : Plant) (counts : List ℕ)
        → ExplainsSynthesisError (extent_of c) plant error
        → IsPlantAnswer c plant counts answer.status answer.text.items) }
{
    match error {
        SynthesisError::NotDefinite(pivot) => refusal(alloc, Status::NotDefinite(pivot)),
        SynthesisError::TooWide(place) => refusal(alloc, Status::TooWide(place)),
        SynthesisError::NoMemory => Err(NoMemory),
    }
}

/// The answer of the command `run` to a plant whose active sets are decided, and the text of its lines of counts.
fn run_answer<T: Threads + Sync>(
    rt: &T,
    alloc: Global,
    plant: Plant,
    counts: &[u8],
    registry: Registry,
) -> Result<Answer, NoMemory>
    requires { (workers : ℕ) × IsDecidedBy workers plant registry }
    ensures { IfOk result (λ answer. IsPlantAnswer Run plant counts.now answer.status answer.text.items) }
{
    right_controller();
    right_replies();
    match controller_of(rt, alloc, plant, registry) {
        Ok(parts) => {
            let text = replies(alloc, &parts, counts)?;
            Ok(output(text))
        }
        Err(error) => plant_refusal(alloc, error),
    }
}

/// The answer of the command `compile` to a plant whose active sets are decided. It is the same for every number of workers.
fn compile_answer<T: Threads + Sync>(
    rt: &T,
    alloc: Global,
    plant: Plant,
    registry: Registry,
) -> Result<Answer, NoMemory>
    requires { (workers : ℕ) × IsDecidedBy workers plant registry }
    ensures { IfOk result (λ answer. (workers : ℕ) (counts : List ℕ)
        → IsPlantAnswer (Compile workers) plant counts answer.status answer.text.items) }
{
    right_controller();
    one_controller();
    one_text();
    match controller_of(rt, alloc, plant, registry) {
        Ok(parts) => {
            let text = write_file(alloc, &parts)?;
            Ok(output(text))
        }
        Err(error) => plant_refusal(alloc, error),
    }
}

/// The answer of the command `trace` to a plant whose active sets are decided.
fn trace_answer(alloc: Global, registry: &Registry) -> Result<Answer, NoMemory>
    ensures { IfOk result (λ answer. (workers : ℕ) (plant : Plant) (counts : List ℕ)
        → IsDecidedBy workers plant registry.now
        → IsPlantAnswer (Trace workers) plant counts answer.status answer.text.items) }
{
    let text = trace(alloc, registry)?;
    Ok(output(text))
}

/// The answer to a plant whose active sets are decided, and the text of its lines of counts.
fn decided_answer<T: Threads + Sync>(
    rt: &T,
    alloc: Global,
    command: PlantCommand,
    counts: &[u8],
    plant: Plant,
    registry: Registry,
) -> Result<Answer, NoMemory>
    requires { IsDecidedBy (workers_of command) plant registry }
    ensures { IfOk result (λ answer. IsPlantAnswer command plant counts.now answer.status answer.text.items) }
{
    match command {
        PlantCommand::Run => run_answer(rt, alloc, plant, counts, registry),
        PlantCommand::Compile(_) => compile_answer(rt, alloc, plant, registry),
        PlantCommand::Trace(_) => trace_answer(alloc, &registry),
    }
}

/// The answer to a plant, by what came of its active sets: they are decided, or the plant is refused for a cause.
fn outcome_answer<T: Threads + Sync>(
    rt: &T,
    alloc: Global,
    command: PlantCommand,
    counts: &[u8],
    plant: Plant,
    outcome: Result<Registry, SynthesisError>,
) -> Result<Answer, NoMemory>
    requires decided { IfOk outcome (IsDecidedBy (workers_of command) plant) }
    requires refused { IfErr outcome (λ e. (extent : Extent) → ExplainsSynthesisError extent plant e) }
    ensures { IfOk result (λ answer. IsPlantAnswer command plant counts.now answer.status answer.text.items) }
{
    match outcome {
        Ok(registry) => decided_answer(rt, alloc, command, counts, plant, registry),
        Err(error) => plant_refusal(alloc, error),
    }
}

/// The answer of a command on a plant, by one worker.
pub fn plant_answer_alone<T: Threads + Sync, G: Gate>(
    rt: &T,
    alloc: Global,
    command: PlantCommand,
    input: &[u8],
    gate: &G,
) -> Result<Answer, NoMemory>
    requires { workers_of command ≡ 1 }
    ensures { IfOk result (λ answer. IsAnswerTo (OfPlant command) input.now answer.status answer.text.items) }
{
    plant_texts();
    output_lines();
    file_output_theorems();
    trace_theorems();
    let sections = plant_sections(command, input);
    match read_plant(alloc, sections.head) {
        Ok(plant) => {
            let outcome = decided(alloc, &plant, gate);
            outcome_answer(rt, alloc, command, sections.counts, plant, outcome)
        }
        Err(error) => plant_error_refusal(alloc, error),
    }
}

/// The answer of a command on a plant, by as many workers as it has, in threads.
pub fn plant_answer_in_threads<T: Threads + Wait + Sync, G: Gate + Sync>(
    rt: &T,
    alloc: Global,
    command: PlantCommand,
    input: &[u8],
    gate: &G,
) -> Result<Answer, NoMemory>
    requires { IsWorkerCount (workers_of command) }
    ensures { IfOk result (λ answer. IsAnswerTo (OfPlant command) input.now answer.status answer.text.items) }
{
    plant_texts();
    output_lines();
    file_output_theorems();
    trace_theorems();
    let sections = plant_sections(command, input);
    match read_plant(alloc, sections.head) {
        Ok(plant) => {
            let outcome = decided_in_threads(rt, alloc, &plant, command.workers(), gate);
            outcome_answer(rt, alloc, command, sections.counts, plant, outcome)
        }
        Err(error) => plant_error_refusal(alloc, error),
    }
}
