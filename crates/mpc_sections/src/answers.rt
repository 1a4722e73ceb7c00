//! The answer to a section by itself.

ghost use Rattle.std.specs.Prelude.{◌≡◌, ◌++◌, IfOk, IfErr, OnOk};
ghost use Rattle.mpc_rows.specs.declared.programs.Qp.{Qp};
ghost use Rattle.mpc_synthesis.specs.Controllers.{IsController};
ghost use Rattle.mpc_synthesis.specs.Refusals.{controller, ExplainsSynthesisError};
ghost use Rattle.mpc_status.specs.StatusText.{line_of};
ghost use Rattle.mpc_sections.specs.Alone.{IsPlantAnswer, heading};
ghost use Rattle.mpc_sections.specs.Steps.{IsExamined};

use mpc_claim::{Registry, legal_theorems};
use mpc_controller::Controller;
use mpc_file::write_file;
use mpc_frac::NoMemory;
use mpc_plant::Plant;
use mpc_status::Status;
use mpc_synthesis::{SynthesisError, controller_of};
use mpc_words::{add_number, add_text};
use std::alloc::Global;
use std::thread::Threads;

/// A status, and the file or the line that is to be written.
#[derive(Drop)]
pub struct Answer {
    pub status: Status,
    pub text: Vec<u8>,
}

/// A status with its line.
pub(crate) fn refusal(alloc: Global, status: Status) -> Result<Answer, NoMemory>
    ensures status { IfOk result (λ answer. answer.status ≡ status) }
    ensures text { IfOk result (λ answer. answer.text.items ≡ line_of status) }
{
    let text = status.line(alloc)?;
    Ok(Answer { status, text })
}

/// The controller of a plant whose candidates are examined.
fn controller_from<T: Threads + Sync>(
    rt: &T,
    alloc: Global,
    plant: Plant,
    registry: Registry,
) -> Result<Controller, SynthesisError>
    requires { IsExamined plant registry }
    ensures controller { IfOk result (λ parts. (qp : Qp) × IsController plant qp parts) }
    ensures refused { IfErr result (ExplainsSynthesisError controller plant) }
{
    legal_theorems();
    match registry.first_wide() {
        Some(place) => Err(SynthesisError::TooWide(place)),
        None => controller_of(rt, alloc, plant, registry),
    }
}

/// The answer to a plant whose candidates are examined: the file of its controller, or why it has none.
pub(crate) fn compiled<T: Threads + Sync>(
    rt: &T,
    alloc: Global,
    plant: Plant,
    registry: Registry,
) -> Result<Answer, NoMemory>
    requires { IsExamined plant registry }
    ensures { IfOk result (λ answer. IsPlantAnswer plant answer.status answer.text.items) }
{
    match controller_from(rt, alloc, plant, registry) {
        Ok(parts) => {
            let text = write_file(alloc, &parts)?;
            Ok(Answer {
                status: Status::Done,
                text,
            })
        }
        Err(SynthesisError::NotDefinite(pivot)) => refusal(alloc, Status::NotDefinite(pivot)),
        Err(SynthesisError::TooWide(place)) => refusal(alloc, Status::TooWide(place)),
        Err(SynthesisError::NoMemory) => Err(NoMemory),
    }
}

/// Puts the answer to the section with this number under its heading behind the text.
pub(crate) fn add_answer(text: &mut Vec<u8>, number: u64, answer: &Answer) -> Result<(), NoMemory>
    ensures { OnOk result (text.new.items ≡ text.old.items ++ (heading number answer.now.status ++ answer.now.text.items)) }
{
    add_text(text, b"plant ")?;
    add_number(text, number)?;
    add_text(text, b" ")?;
    add_number(text, u64::from(answer.status.code()))?;
    add_text(text, b"\n")?;
    add_text(text, &answer.text)
}
