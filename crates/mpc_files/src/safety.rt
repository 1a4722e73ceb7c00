//! The test of a controller's file.

ghost use Rattle.std.specs.Prelude.{IfOk, IfErr};
ghost use Rattle.mpc_check.specs.Acceptance.{Accepts};
ghost use Rattle.mpc_files.specs.SafetyAnswers.{IsSafety, IsSafetyCause, IsAnswerToFile, IsFileCause};

use crate::answers::{Safety, SafetyError};
use crate::theorems::safe_stays_right;
use mpc_check::{Answer, CheckError, check};
use mpc_controller::Controller;
use mpc_file::read_file;
use mpc_recur::{Recur, RecurError, recur};
use std::alloc::Global;
use std::thread::Threads;

/// What is found of the steps of a controller that the checker accepts.
fn test_steps(alloc: Global, controller: &Controller) -> Result<Safety, SafetyError>
    requires { Accepts controller.now }
    ensures answer { IfOk result (IsSafety controller.now) }
    ensures cause { IfErr result (IsSafetyCause controller.now) }
{
    safe_stays_right();
    let _ = controller.plant();
    match recur(alloc, controller) {
        Ok(Recur::Safe) => Ok(Safety::Safe),
        Ok(Recur::Unsafe(one, point)) => Ok(Safety::Unsafe(one, point)),
        Err(RecurError::Wide(one)) => Err(SafetyError::WideLater(one)),
        Err(RecurError::NoMemory) => Err(SafetyError::NoMemory),
    }
}

/// What is found of a controller.
fn test_controller<T: Threads + Sync>(
    rt: &T,
    alloc: Global,
    controller: &Controller,
) -> Result<Safety, SafetyError>
    ensures answer { IfOk result (IsSafety controller.now) }
    ensures cause { IfErr result (IsSafetyCause controller.now) }
{
    match check(rt, alloc, controller) {
        Ok(Answer::Accepted) => test_steps(alloc, controller),
        Ok(Answer::Refused(spot)) => Ok(Safety::Refused(spot)),
        Err(CheckError::NotDefinite(pivot)) => Err(SafetyError::NotDefinite(pivot)),
        Err(CheckError::TooWide(place)) => Err(SafetyError::TooWide(place)),
        Err(CheckError::NoMemory) => Err(SafetyError::NoMemory),
    }
}

/// Reads a controller's file, checks the controller, and tests whether it is recursively feasible.
///
/// `Safe` where the checker accepts it and each step leads to a state of the box at which it has a move: then from every state of the box with
/// an admissible sequence, also between the states of the grid, and after any number of steps, it replies the first move of the cheapest
/// admissible sequence. Otherwise the first line that fails, the first condition that isn't met, or the first step that isn't ruled out
/// answers.
pub fn safe_file<T: Threads + Sync>(
    rt: &T,
    alloc: Global,
    bytes: &[u8],
) -> Result<Safety, SafetyError>
    ensures answer { IfOk result (IsAnswerToFile bytes.now) }
    ensures cause { IfErr result (IsFileCause bytes.now) }
{
    let controller = read_file(alloc, bytes)?;
    let _ = controller.plant();
    test_controller(rt, alloc, &controller)
}
