//! The answers to all sections of an input.

ghost use Rattle.std.specs.Prelude.{◌≡◌, ◌<◌, ◌≤◌, IfOk, IfErr, length};
ghost use Rattle.mpc_claim.specs.Board.{Board};
ghost use Rattle.mpc_sections.specs.declared.errors.SectionsError.TheVariants.{TooManyPlants};
ghost use Rattle.mpc_sections.specs.Sections.{sections_of};
ghost use Rattle.mpc_sections.specs.Alone.{AreAnswered};
ghost use Rattle.mpc_sections.specs.Steps.{AreBegun, IsExamined, HasRegistry, IsAnswered};

use crate::answers::{Answer, add_answer, compiled, refusal};
use crate::beginnings::{Beginnings, Begun, begin_all};
use crate::errors::SectionsError;
use crate::sections::are_few;
use mpc_claim::Registry;
use mpc_fleet::{FleetError, enumerate_fleet};
use mpc_frac::NoMemory;
use mpc_workers::Gate;
use std::alloc::Global;
use std::sync::Wait;
use std::thread::Threads;

/// The answer to one section. The registry of its plant is the first, and is taken.
fn answer_one<T: Threads + Sync>(
    rt: &T,
    alloc: Global,
    begun: Begun,
    registries: &mut Vec<Registry>,
) -> Result<Answer, NoMemory>
    requires { HasRegistry begun registries.old.items }
    ensures { IfOk result (λ answer. IsAnswered begun registries.old.items answer.status answer.text.items registries.new.items) }
{
    match begun {
        Begun::Refused(status) => refusal(alloc, status),
        Begun::Convex(plant) => {
            let registry = registries.remove(0);
            compiled(rt, alloc, plant, registry)
        }
    }
}

/// The text of all sections, where the registries of those with a program come in their order.
fn answer_all<T: Threads + Sync>(
    rt: &T,
    alloc: Global,
    _input: &[u8],
    mut begun: Vec<Begun>,
    mut registries: Vec<Registry>,
) -> Result<Vec<u8>, NoMemory>
    requires few { length (sections_of _input.now) ≤ 8 }
    requires begun { AreBegun Board IsExamined (sections_of _input.now) begun.items registries.items }
    ensures { IfOk result (λ text. AreAnswered 1 (sections_of _input.now) text.items) }
{
    let mut text = Vec::new(alloc);
    let mut number = 1;
    'sections: while !begun.is_empty() {
        let first = begun.remove(0);
        let answer = answer_one(rt, alloc, first, &mut registries)?;
        add_answer(&mut text, number, &answer)?;
        number += 1;
    }
    Ok(text)
}

/// Compiles the plants of all sections of an input, which are separated by lines that are exactly `next`, in one pool of so many workers.
///
/// The text has of each section, in order, the line `plant K CODE` and then what that section by itself is answered with: its controller's
/// file and the code 0, or the line of why it has none and its code. A section that is refused hinders no other.
/// `TooManyPlants` exactly where the input has more than 8 sections, which takes no memory. Refused memory is the only other error.
pub fn fleet<T: Threads + Wait + Sync, G: Gate + Sync>(
    rt: &T,
    alloc: Global,
    input: &[u8],
    workers: u32,
    gate: &G,
) -> Result<Vec<u8>, SectionsError>
    requires from_one { 1 ≤ workers }
    requires to_last { workers ≤ 32 }
    ensures few { IfOk result (λ text. length (sections_of input.now) ≤ 8) }
    ensures answered { IfOk result (λ text. AreAnswered 1 (sections_of input.now) text.items) }
    ensures too_many { IfErr result (λ e. e ≡ TooManyPlants → 8 < length (sections_of input.now)) }
    ensures before_memory { IfErr result (λ e. 8 < length (sections_of input.now) → e ≡ TooManyPlants) }
{
    if !are_few(input) {
        return Err(SectionsError::TooManyPlants);
    }
    let Beginnings { begun, programs } = begin_all(alloc, input)?;
    let registries = match enumerate_fleet(rt, alloc, &programs, workers, gate) {
        Ok(registries) => registries,
        Err(FleetError::NoMemory) => return Err(SectionsError::NoMemory),
        Err(FleetError::BadWorkers) => unreachable!(),
    };
    match answer_all(rt, alloc, input, begun, registries) {
        Ok(text) => Ok(text),
        Err(_) => Err(SectionsError::NoMemory),
    }
}
