//! From a command and its input to the answer.

ghost use Rattle.std.specs.Prelude.{◌≡◌, ◌≢◌, IfOk, IfErr, Ok, Err};
ghost use Rattle.mpc_port.specs.Passing.{IsDrawn};
ghost use Rattle.mpc_status.specs.StatusText.{line_of};
ghost use Rattle.mpc_cli.specs.Commands.{CommandReads, CommandWaits, HasCount};
ghost use Rattle.mpc_cli.specs.Outcomes.{ExplainsHalt, IsAnswerTo, IsSomeAnswerFor};

use crate::answer::{Answer, refusal};
use crate::commands::Command;
use crate::drill_answers::drill_answer;
use crate::file_answers::file_answer;
use crate::fleet_answers::fleet_answer;
use crate::inputs::{Halt, Input, read_input};
use crate::plant_answers::{plant_answer_alone, plant_answer_in_threads};
use crate::state_answers::state_answer;
use crate::theorems::due_statuses;
use mpc_frac::NoMemory;
use mpc_port::Source;
use mpc_status::Status;
use mpc_workers::Gate;
use std::alloc::Global;
use std::sync::Wait;
use std::thread::Threads;

/// An answer, where memory suffices.
fn or_halt(answer: Result<Answer, NoMemory>) -> Result<Answer, Halt>
    ensures same { IfOk result (λ given. answer ≡ Ok given) }
    ensures halt { result ≢ Err Halt.SourceFailed }
{
    match answer {
        Ok(answer) => Ok(answer),
        Err(NoMemory) => Err(Halt::OutOfMemory),
    }
}

/// A status with its line, where memory suffices.
pub fn refused(alloc: Global, status: Status) -> Result<Answer, Halt>
    ensures status { IfOk result (λ answer. answer.status ≡ status) }
    ensures text { IfOk result (λ answer. answer.text.items ≡ line_of status) }
    ensures halt { result ≢ Err Halt.SourceFailed }
{
    match refusal(alloc, status) {
        Ok(answer) => Ok(answer),
        Err(NoMemory) => Err(Halt::OutOfMemory),
    }
}

/// The answer of a command that waits for nobody to an input that isn't too long.
fn command_answer_alone<T: Threads + Sync, G: Gate>(
    rt: &T,
    alloc: Global,
    command: Command,
    input: &[u8],
    gate: &G,
) -> Result<Answer, NoMemory>
    requires count { HasCount command }
    requires alone { ¬ CommandWaits command }
    ensures { IfOk result (λ answer. IsAnswerTo command input.now answer.status answer.text.items) }
{
    match command {
        Command::OfPlant(command) => plant_answer_alone(rt, alloc, command, input, gate),
        Command::OfFile(command) => file_answer(rt, alloc, command, input),
        Command::OfStates(command) => state_answer(alloc, command, input),
        Command::Drill(_) | Command::Fleet(_) => unreachable!(),
    }
}

/// The answer of a command to an input that isn't too long, by as many workers as it has.
fn command_answer_in_threads<T: Threads + Wait + Sync, G: Gate + Sync>(
    rt: &T,
    alloc: Global,
    command: Command,
    input: &[u8],
    gate: &G,
) -> Result<Answer, NoMemory>
    requires { HasCount command }
    ensures { IfOk result (λ answer. IsAnswerTo command input.now answer.status answer.text.items) }
{
    match command {
        Command::OfPlant(command) => plant_answer_in_threads(rt, alloc, command, input, gate),
        Command::OfFile(command) => file_answer(rt, alloc, command, input),
        Command::OfStates(command) => state_answer(alloc, command, input),
        Command::Drill(number) => drill_answer(rt, alloc, number, gate),
        Command::Fleet(workers) => fleet_answer(rt, alloc, workers, input, gate),
    }
}

/// The answer of a command that waits for nobody.
pub fn answer_alone<T: Threads + Sync, S: Source, G: Gate>(
    rt: &T,
    alloc: Global,
    command: Command,
    source: &mut S,
    gate: &G,
) -> Result<Answer, Halt>
    requires count { HasCount command }
    requires alone { ¬ CommandWaits command }
    ensures some { IfOk result (λ answer. IsSomeAnswerFor command
        (S.given source.old) (S.given source.new) answer.status answer.text.items) }
    ensures halt { IfErr result (ExplainsHalt command
        (S.given source.old) (S.given source.new) (S.faults source.old) (S.faults source.new)) }
    ensures drawn { IsDrawn (S.left source.old) (S.left source.new) (S.given source.old) (S.given source.new) }
    ensures unread { (¬ CommandReads command) → source.new ≡ source.old }
{
    due_statuses();
    match read_input(alloc, command, source) {
        Ok(Input::Whole(input)) => or_halt(command_answer_alone(rt, alloc, command, &input, gate)),
        Ok(Input::TooLong) => refused(alloc, Status::TooLong),
        Err(halt) => Err(halt),
    }
}

/// The answer of a command, by as many workers as it has.
pub fn answer_in_threads<T: Threads + Wait + Sync, S: Source, G: Gate + Sync>(
    rt: &T,
    alloc: Global,
    command: Command,
    source: &mut S,
    gate: &G,
) -> Result<Answer, Halt>
    requires { HasCount command }
    ensures some { IfOk result (λ answer. IsSomeAnswerFor command
        (S.given source.old) (S.given source.new) answer.status answer.text.items) }
    ensures halt { IfErr result (ExplainsHalt command
        (S.given source.old) (S.given source.new) (S.faults source.old) (S.faults source.new)) }
    ensures drawn { IsDrawn (S.left source.old) (S.left source.new) (S.given source.old) (S.given source.new) }
    ensures unread { (¬ CommandReads command) → source.new ≡ source.old }
{
    due_statuses();
    match read_input(alloc, command, source) {
        Ok(Input::Whole(input)) => or_halt(command_answer_in_threads(
            rt, alloc, command, &input, gate,
        )),
        Ok(Input::TooLong) => refused(alloc, Status::TooLong),
        Err(halt) => Err(halt),
    }
}
