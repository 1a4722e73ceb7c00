//! The answers of the commands on recorded states.

ghost use Rattle.std.specs.Prelude.{IfOk, List, ℕ};
ghost use Rattle.mpc_states.specs.Inputs.{IsSolveCause, IsRobustCause};
ghost use Rattle.mpc_cli.specs.declared.commands.Command.TheVariants.{OfStates};
ghost use Rattle.mpc_cli.specs.declared.commands.StateCommand.TheVariants.{Solve, Robust};
ghost use Rattle.mpc_cli.specs.Outcomes.{IsAnswerTo};

use crate::answer::{Answer, output, refusal};
use crate::commands::StateCommand;
use mpc_frac::NoMemory;
use mpc_states::{RobustError, SolveError, robust_input, solve_input};
use mpc_status::{LatePlace, Status};
use mpc_theorem::output_lines;
use std::alloc::Global;

/// The answer to an input of `solve` that is refused, where the cause holds of it.
fn solve_refusal(alloc: Global, error: SolveError) -> Result<Answer, NoMemory>
    ensures { IfOk result (λ answer. (input : List ℕ) → IsSolveCause input error
        → IsAnswerTo (OfStates Solve) input answer.status answer.text.items) }
{
    match error {
        SolveError::BadPlant(kind, path) => refusal(alloc, Status::BadPlant(kind, path)),
        SolveError::NotDefinite(pivot) => refusal(alloc, Status::NotDefinite(pivot)),
        SolveError::TooWide(place) => refusal(alloc, Status::TooWide(place)),
        SolveError::NoMemory => Err(NoMemory),
    }
}

/// The answer of the command `solve`.
fn solve_answer(alloc: Global, input: &[u8]) -> Result<Answer, NoMemory>
    ensures { IfOk result (λ answer. IsAnswerTo (OfStates Solve) input.now answer.status answer.text.items) }
{
    output_lines();
    match solve_input(alloc, input) {
        Ok(text) => Ok(output(text)),
        Err(error) => solve_refusal(alloc, error),
    }
}

/// The answer to an input of `robust` that is refused, where the cause holds of it.
fn robust_refusal(alloc: Global, error: RobustError) -> Result<Answer, NoMemory>
    ensures { IfOk result (λ answer. (input : List ℕ) → IsRobustCause input error
        → IsAnswerTo (OfStates Robust) input answer.status answer.text.items) }
{
    match error {
        RobustError::BadPlant(kind, path) => refusal(alloc, Status::BadPlant(kind, path)),
        RobustError::BadNoise => refusal(alloc, Status::BadNoise),
        RobustError::NotDefinite(pivot) => refusal(alloc, Status::NotDefinite(pivot)),
        RobustError::TooWide(place) => refusal(alloc, Status::TooWide(place)),
        RobustError::WideRow(row) => refusal(alloc, Status::WideLater(LatePlace::Tight(row))),
        RobustError::NoMemory => Err(NoMemory),
    }
}

/// The answer of the command `robust`.
fn robust_answer(alloc: Global, input: &[u8]) -> Result<Answer, NoMemory>
    ensures { IfOk result (λ answer. IsAnswerTo (OfStates Robust) input.now answer.status answer.text.items) }
{
    output_lines();
    match robust_input(alloc, input) {
        Ok(text) => Ok(output(text)),
        Err(error) => robust_refusal(alloc, error),
    }
}

/// The answer of a command on recorded states.
pub fn state_answer(alloc: Global, command: StateCommand, input: &[u8]) -> Result<Answer, NoMemory>
    ensures { IfOk result (λ answer. IsAnswerTo (OfStates command) input.now answer.status answer.text.items) }
{
    match command {
        StateCommand::Solve => solve_answer(alloc, input),
        StateCommand::Robust => robust_answer(alloc, input),
    }
}
