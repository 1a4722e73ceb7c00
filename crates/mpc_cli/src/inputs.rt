//! The input of a command.

ghost use Rattle.std.specs.Prelude.{◌≡◌, IfOk, IfErr};
ghost use Rattle.mpc_port.specs.Passing.{IsDrawn};
ghost use Rattle.mpc_cli.specs.Commands.{CommandReads};
ghost use Rattle.mpc_cli.specs.Outcomes.{ExplainsHalt, IsInput};

use crate::commands::Command;
use mpc_port::{ReadError, Source, read_all};
use std::alloc::Global;

/// The most bytes that an input has.
const INPUT_LIMIT: usize = 16_777_216;

/// What came of the source.
#[derive(Drop)]
pub enum Input {
    /// All its bytes; none for a command that reads nothing.
    Whole(Vec<u8>),
    /// More bytes than the limit.
    TooLong,
}

/// Why nothing is written.
#[derive(Clone, Copy, Debug, PartialEq, Eq)]
pub enum Halt {
    SourceFailed,
    OutOfMemory,
}

/// The input of a command. A command without one leaves the source as it is.
pub fn read_input<S: Source>(alloc: Global, command: Command, source: &mut S) -> Result<Input, Halt>
    ensures came { IfOk result (IsInput command (S.given source.old) (S.given source.new)) }
    ensures halt { IfErr result (ExplainsHalt command
        (S.given source.old) (S.given source.new) (S.faults source.old) (S.faults source.new)) }
    ensures drawn { IsDrawn (S.left source.old) (S.left source.new) (S.given source.old) (S.given source.new) }
    ensures unread { (¬ CommandReads command) → source.new ≡ source.old }
{
    if !command.reads() {
        return Ok(Input::Whole(Vec::new(alloc)));
    }
    match read_all(alloc, source, INPUT_LIMIT) {
        Ok(input) => Ok(Input::Whole(input)),
        Err(ReadError::TooLong) => Ok(Input::TooLong),
        Err(ReadError::ReadFault) => Err(Halt::SourceFailed),
        Err(ReadError::NoMemory) => Err(Halt::OutOfMemory),
    }
}
