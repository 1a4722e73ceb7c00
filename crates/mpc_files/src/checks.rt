//! The check of a controller's file.

ghost use Rattle.std.specs.Prelude.{IfOk, IfErr};
ghost use Rattle.mpc_files.specs.FileAnswers.{IsAnswerToFile, IsFileCause};

use crate::errors::CheckFileError;
use mpc_check::{Answer, accepted_replies, check};
use mpc_controller::replies_everywhere;
use mpc_file::read_file;
use std::alloc::Global;
use std::thread::Threads;

/// Reads a controller's file and checks the controller.
///
/// `Accepted` where all conditions are met: then at every point of the plant's box, also between the states of the grid, the tree
/// replies, and what it replies is right. Otherwise the first line that fails or the first condition that isn't met answers.
pub fn check_file<T: Threads + Sync>(
    rt: &T,
    alloc: Global,
    bytes: &[u8],
) -> Result<Answer, CheckFileError>
    ensures answer { IfOk result (IsAnswerToFile bytes.now) }
    ensures cause { IfErr result (IsFileCause bytes.now) }
{
    replies_everywhere();
    accepted_replies();
    let controller = read_file(alloc, bytes)?;
    let _ = controller.plant();
    let answer = check(rt, alloc, &controller)?;
    Ok(answer)
}
