//! An answer: its status and what is written.

ghost use Rattle.std.specs.Prelude.{◌≡◌, IfOk};
ghost use Rattle.mpc_status.specs.StatusText.{line_of};

use mpc_frac::NoMemory;
use mpc_status::Status;
use std::alloc::Global;

/// A status, and the output or line that is to be written.
#[derive(Drop)]
pub struct Answer {
    pub status: Status,
    pub text: Vec<u8>,
}

/// A status with its line. It stands once in the program, and not at each of its many calls.
#[inline(never)]
pub fn refusal(alloc: Global, status: Status) -> Result<Answer, NoMemory>
    ensures status { IfOk result (λ answer. answer.status ≡ status) }
    ensures text { IfOk result (λ answer. answer.text.items ≡ line_of status) }
{
    let text = status.line(alloc)?;
    Ok(Answer { status, text })
}

/// The output.
pub fn output(text: Vec<u8>) -> Answer
    ensures status { result.status ≡ Status.Done }
    ensures text { result.text.items ≡ text.items }
{
    Answer {
        status: Status::Done,
        text,
    }
}
