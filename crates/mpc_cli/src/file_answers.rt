//! The answers of the commands on a controller's file.

ghost use Rattle.std.specs.Prelude.{◌≡◌, ◌^◌, ◌<◌, IfOk, List, ℕ, codes, length};
ghost use Rattle.mpc_grammar.specs.FileGrammar.{ExplainsFileError};
ghost use Rattle.mpc_files.specs.FileAnswers.{IsFileCause};
ghost use Rattle.mpc_files.specs.SafetyOutcomes.{IsCausedBy};
ghost use Rattle.mpc_table.specs.Cut.{head_of};
ghost use Rattle.mpc_cli.specs.declared.commands.Command.TheVariants.{OfFile};
ghost use Rattle.mpc_cli.specs.declared.commands.FileCommand.TheVariants.{Check, Reply, Convert, Safe};
ghost use Rattle.mpc_cli.specs.Outcomes.{IsAnswerTo};

use crate::answer::{Answer, output, refusal};
use crate::commands::FileCommand;
use mpc_files::{
    CheckFileError, Checked, FileError, Safety, SafetyError, check_file, convert,
    one_safety_answer, reply_to, safe_file,
};
use mpc_frac::NoMemory;
use mpc_status::{LatePlace, Status};
use mpc_table::cut;
use mpc_theorem::{file_output_theorems, safe_file_theorems};
use mpc_words::add_text;
use std::alloc::Global;
use std::thread::Threads;

/// The answer where bytes aren't the file of a controller, unless memory ran out.
fn file_refusal(alloc: Global, error: FileError) -> Result<Answer, NoMemory>
    ensures reply { IfOk result (λ answer. (input : List ℕ) → ExplainsFileError (head_of input) error
        → IsAnswerTo (OfFile Reply) input answer.status answer.text.items) }
    ensures convert { IfOk result (λ answer. (input : List ℕ) → ExplainsFileError input error
        → IsAnswerTo (OfFile Convert) input answer.status answer.text.items) }
{
    match error {
        FileError::Bad(kind, number) => refusal(alloc, Status::BadFile(kind, number)),
        FileError::NoMemory => Err(NoMemory),
    }
}

/// A slice has fewer than 2^64 bytes. The call does nothing: its clause is the theorem.
fn few_bytes(bytes: &[u8])
    ensures { length bytes.now < 2 ^ 64 }
{
    let _count = bytes.len();
}

/// The answer of the command `reply`.
fn reply_answer(alloc: Global, input: &[u8]) -> Result<Answer, NoMemory>
    ensures { IfOk result (λ answer. IsAnswerTo (OfFile Reply) input.now answer.status answer.text.items) }
{
    file_output_theorems();
    let sections = cut(input);
    few_bytes(sections.head);
    match reply_to(alloc, sections.head, sections.counts) {
        Ok(text) => Ok(output(text)),
        Err(error) => file_refusal(alloc, error),
    }
}

/// The answer of the command `convert`.
fn convert_answer(alloc: Global, input: &[u8]) -> Result<Answer, NoMemory>
    ensures { IfOk result (λ answer. IsAnswerTo (OfFile Convert) input.now answer.status answer.text.items) }
{
    file_output_theorems();
    few_bytes(input);
    match convert(alloc, input) {
        Ok(text) => Ok(output(text)),
        Err(error) => file_refusal(alloc, error),
    }
}

/// What is written of a controller that is accepted.
fn accepted(alloc: Global) -> Result<Answer, NoMemory>
    ensures status { IfOk result (λ answer. answer.status ≡ Status.Done) }
    ensures text { IfOk result (λ answer. answer.text.items ≡ codes "accepted\n") }
{
    let mut text = Vec::new(alloc);
    add_text(&mut text, b"accepted\n")?;
    Ok(output(text))
}

/// The answer where nothing is found of a controller, unless memory ran out.
fn check_refusal(alloc: Global, error: CheckFileError) -> Result<Answer, NoMemory>
    ensures { IfOk result (λ answer. (input : List ℕ) → IsFileCause input error
        → IsAnswerTo (OfFile Check) input answer.status answer.text.items) }
{
    match error {
        CheckFileError::BadFile(kind, number) => refusal(alloc, Status::BadFile(kind, number)),
        CheckFileError::NotDefinite(pivot) => refusal(alloc, Status::NotDefinite(pivot)),
        CheckFileError::TooWide(place) => refusal(alloc, Status::TooWide(place)),
        CheckFileError::NoMemory => Err(NoMemory),
    }
}

/// The answer of the command `check`.
fn check_answer<T: Threads + Sync>(rt: &T, alloc: Global, input: &[u8]) -> Result<Answer, NoMemory>
    ensures { IfOk result (λ answer. IsAnswerTo (OfFile Check) input.now answer.status answer.text.items) }
{
    file_output_theorems();
    few_bytes(input);
    match check_file(rt, alloc, input) {
        Ok(Checked::Accepted) => accepted(alloc),
        Ok(Checked::Refused(spot)) => refusal(alloc, Status::Refused(spot)),
        Err(error) => check_refusal(alloc, error),
    }
}

/// What is written of a controller that is safe.
fn safe(alloc: Global) -> Result<Answer, NoMemory>
    ensures status { IfOk result (λ answer. answer.status ≡ Status.Done) }
    ensures text { IfOk result (λ answer. answer.text.items ≡ codes "safe\n") }
{
    let mut text = Vec::new(alloc);
    add_text(&mut text, b"safe\n")?;
    Ok(output(text))
}

/// The answer where nothing is found of a controller and its closed loop, unless memory ran out.
fn safety_refusal(alloc: Global, error: SafetyError) -> Result<Answer, NoMemory>
    ensures { IfOk result (λ answer. (input : List ℕ) → IsCausedBy input error
        → IsAnswerTo (OfFile Safe) input answer.status answer.text.items) }
{
    match error {
        SafetyError::BadFile(kind, number) => refusal(alloc, Status::BadFile(kind, number)),
        SafetyError::NotDefinite(pivot) => refusal(alloc, Status::NotDefinite(pivot)),
        SafetyError::TooWide(place) => refusal(alloc, Status::TooWide(place)),
        SafetyError::WideLater(next) => refusal(alloc, Status::WideLater(LatePlace::Next(next))),
        SafetyError::NoMemory => Err(NoMemory),
    }
}

/// The answer of the command `safe`.
fn safe_answer<T: Threads + Sync>(rt: &T, alloc: Global, input: &[u8]) -> Result<Answer, NoMemory>
    ensures { IfOk result (λ answer. IsAnswerTo (OfFile Safe) input.now answer.status answer.text.items) }
{
    one_safety_answer();
    safe_file_theorems();
    match safe_file(rt, alloc, input) {
        Ok(Safety::Safe) => safe(alloc),
        Ok(Safety::Refused(spot)) => refusal(alloc, Status::Refused(spot)),
        Ok(Safety::Unsafe(next, point)) => refusal(alloc, Status::Unsafe(next, point)),
        Err(error) => safety_refusal(alloc, error),
    }
}

/// The answer of a command on a controller's file.
pub fn file_answer<T: Threads + Sync>(
    rt: &T,
    alloc: Global,
    command: FileCommand,
    input: &[u8],
) -> Result<Answer, NoMemory>
    ensures { IfOk result (λ answer. IsAnswerTo (OfFile command) input.now answer.status answer.text.items) }
{
    match command {
        FileCommand::Check => check_answer(rt, alloc, input),
        FileCommand::Reply => reply_answer(alloc, input),
        FileCommand::Convert => convert_answer(alloc, input),
        FileCommand::Safe => safe_answer(rt, alloc, input),
    }
}
