//! What is made of a plant's file, and what is found of a controller's.

ghost use Rattle.std.specs.Prelude.{◌≡◌, ℕ, List, IfOk, IfErr, OnOk};
ghost use Rattle.mpc_check.specs.Acceptance.{Accepts};
ghost use Rattle.mpc_files.specs.FileAnswers.{HasController};
ghost use Rattle.mpc_recur.specs.Outcomes.{IsSafeOutcome};
ghost use Rattle.mpc_status.specs.declared.status.Status.TheVariants.{NoMemory as OutOfMemory};
ghost use Rattle.mpc_cli.specs.declared.commands.Command.TheVariants.{OfPlant, OfFile};
ghost use Rattle.mpc_cli.specs.declared.commands.FileCommand.TheVariants.{Check, Convert, Safe};
ghost use Rattle.mpc_cli.specs.declared.commands.PlantCommand.TheVariants.{Compile};
ghost use Rattle.mpc_cli.specs.Outcomes.{IsAnswerFor, IsPlantAnswer};
ghost use Rattle.mpc_c.specs.Texts.{OutcomeOf};
ghost use Rattle.mpc_c.specs.Findings.{IsPlantStatus, IsRefusal, IsCheckRefusal, IsFinding, IsStepFinding};

use mpc_check::{Answer, CheckError, accepted_replies, check};
use mpc_cli::due_statuses;
use mpc_controller::{Controller, replies_everywhere};
use mpc_file::{FileError, one_text, read_file, write_file};
use mpc_files::safe_stays_right;
use mpc_frac::NoMemory;
use mpc_plant::{Plant, PlantError, read_plant};
use mpc_recur::{Recur, RecurError, recur};
use mpc_status::{LatePlace, Status};
use mpc_synthesis::{Alone, SynthesisError, controller, one_controller, right_controller};
use mpc_theorem::{file_output_theorems, plant_texts, safe_file_theorems};
use mpc_words::add_text;
use mpc_workers::OpenGate;
use std::alloc::Global;

/// The most bytes that an input has.
const INPUT_LIMIT: usize = 16_777_216;

/// A text of these bytes.
fn text_of(alloc: Global, bytes: &[u8]) -> Result<Vec<u8>, Status>
    ensures text { IfOk result (λ text. text.items ≡ bytes.now) }
    ensures memory { IfErr result (λ status. status ≡ OutOfMemory) }
{
    let mut text = Vec::new(alloc);
    match add_text(&mut text, bytes) {
        Ok(()) => Ok(text),
        Err(NoMemory) => Err(Status::NoMemory),
    }
}

/// The status of a plant's file that isn't read.
fn plant_status(error: PlantError) -> Status
    ensures { IsPlantStatus error result }
{
    match error {
        PlantError::Bad(kind, path) => Status::BadPlant(kind, path),
        PlantError::NoMemory => Status::NoMemory,
    }
}

/// The file of a plant's controller, or the status of the plant's refusal.
fn compiled_plant(alloc: Global, plant: Plant) -> Result<Vec<u8>, Status>
    ensures { (workers : ℕ) (counts : List ℕ) → OutcomeOf (IsPlantAnswer (Compile workers) plant counts) result }
{
    right_controller();
    one_controller();
    one_text();
    let parts = match controller(alloc, plant, &OpenGate) {
        Ok(parts) => parts,
        Err(SynthesisError::NotDefinite(pivot)) => return Err(Status::NotDefinite(pivot)),
        Err(SynthesisError::TooWide(place)) => return Err(Status::TooWide(place)),
        Err(SynthesisError::NoMemory) => return Err(Status::NoMemory),
    };
    match write_file(alloc, &parts) {
        Ok(text) => Ok(text),
        Err(NoMemory) => Err(Status::NoMemory),
    }
}

/// The file of the controller of a plant's file, or the status of its refusal. It is the same for every number of workers.
pub(crate) fn compiled(alloc: Global, file: &[u8]) -> Result<Vec<u8>, Status>
    ensures { (workers : ℕ) → OutcomeOf (IsAnswerFor (OfPlant (Compile workers)) file.now) result }
{
    if file.len() > INPUT_LIMIT {
        return Err(Status::TooLong);
    }
    plant_texts();
    file_output_theorems();
    due_statuses();
    match read_plant(alloc, file) {
        Ok(plant) => compiled_plant(alloc, plant),
        Err(error) => Err(plant_status(error)),
    }
}

/// The controller of a file, which needn't be right.
pub(crate) fn given(alloc: Global, file: &[u8]) -> Result<Controller, Status>
    ensures given { IfOk result (HasController file.now) }
    ensures refused { IfErr result (IsRefusal Convert file.now) }
{
    match read_file(alloc, file) {
        Ok(controller) => Ok(controller),
        Err(FileError::Bad(kind, number)) => Err(Status::BadFile(kind, number)),
        Err(FileError::NoMemory) => Err(Status::NoMemory),
    }
}

/// Goes on where the checker accepts a controller.
fn accept(alloc: Global, controller: &Controller) -> Result<(), Status>
    ensures accepted { OnOk result (Accepts controller.now) }
    ensures refused { IfErr result (IsFinding controller.now) }
{
    match check(&Alone, alloc, controller) {
        Ok(Answer::Accepted) => Ok(()),
        Ok(Answer::Refused(spot)) => Err(Status::Refused(spot)),
        Err(CheckError::TooWide(place)) => Err(Status::TooWide(place)),
        Err(CheckError::NotDefinite(pivot)) => Err(Status::NotDefinite(pivot)),
        Err(CheckError::NoMemory) => Err(Status::NoMemory),
    }
}

/// The controller of a file, if the checker accepts it.
pub(crate) fn accepted(alloc: Global, file: &[u8]) -> Result<Controller, Status>
    ensures given { IfOk result (HasController file.now) }
    ensures accepted { IfOk result Accepts }
    ensures refused { IfErr result (IsCheckRefusal file.now) }
{
    let controller = match given(alloc, file) {
        Ok(controller) => controller,
        Err(status) => return Err(status),
    };
    match accept(alloc, &controller) {
        Ok(()) => Ok(controller),
        Err(status) => Err(status),
    }
}

/// Goes on where no step of a controller leads elsewhere.
fn stay(alloc: Global, controller: &Controller) -> Result<(), Status>
    ensures safe { OnOk result (IsSafeOutcome controller.now) }
    ensures refused { IfErr result (IsStepFinding controller.now) }
{
    match recur(alloc, controller) {
        Ok(Recur::Safe) => Ok(()),
        Ok(Recur::Unsafe(one, point)) => Err(Status::Unsafe(one, point)),
        Err(RecurError::Wide(one)) => Err(Status::WideLater(LatePlace::Next(one))),
        Err(RecurError::NoMemory) => Err(Status::NoMemory),
    }
}

/// That the controller of a file is accepted, or the status of its refusal.
pub(crate) fn checked(alloc: Global, file: &[u8]) -> Result<Vec<u8>, Status>
    ensures { OutcomeOf (IsAnswerFor (OfFile Check) file.now) result }
{
    replies_everywhere();
    accepted_replies();
    file_output_theorems();
    due_statuses();
    if file.len() > INPUT_LIMIT {
        return Err(Status::TooLong);
    }
    let _controller = match accepted(alloc, file) {
        Ok(controller) => controller,
        Err(status) => return Err(status),
    };
    text_of(alloc, b"accepted\n")
}

/// That the controller of a file is safe, or the status of its refusal.
pub(crate) fn stayed(alloc: Global, file: &[u8]) -> Result<Vec<u8>, Status>
    ensures { OutcomeOf (IsAnswerFor (OfFile Safe) file.now) result }
{
    safe_stays_right();
    safe_file_theorems();
    due_statuses();
    if file.len() > INPUT_LIMIT {
        return Err(Status::TooLong);
    }
    let controller = match accepted(alloc, file) {
        Ok(controller) => controller,
        Err(status) => return Err(status),
    };
    match stay(alloc, &controller) {
        Ok(()) => {}
        Err(status) => return Err(status),
    }
    text_of(alloc, b"safe\n")
}
