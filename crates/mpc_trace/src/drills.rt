//! A drill: from its number to the counts of what was made.

ghost use Rattle.std.specs.Prelude.{◌≡◌, ◌++◌, IfOk, IfErr, OnOk, length};
ghost use Rattle.mpc_synthesis.specs.Refusals.{controller, ExplainsSynthesisError};
ghost use Rattle.mpc_trace.specs.SearchTree.{IsTreeOf};
ghost use Rattle.mpc_trace.specs.Drills.{HasCounts, IsDrilled, ExplainsDrillError, counted_text, drill_text};

use crate::counts::{TreeSize, claim_count, tree_size};
use crate::finished_histories;
use crate::plants::drill_plant;
use mpc_condense::one_program;
use mpc_controller::Controller;
use mpc_frac::NoMemory;
use mpc_plant::Plant;
use mpc_synthesis::{SynthesisError, controller_of, decided_in_threads};
use mpc_words::{add_number, add_text};
use mpc_workers::Gate;
use std::alloc::Global;
use std::sync::Wait;
use std::thread::Threads;

/// How many workers decide the active sets of a drill's plant.
const WORKERS: u32 = 4;

/// The counts of what was made for a plant.
#[derive(Clone, Copy, Debug, PartialEq, Eq)]
pub struct Drilled {
    /// The active sets that were decided: the candidates of the plant's program.
    pub candidates: u64,
    /// The laws of its table, one for each candidate with a region.
    pub regions: u64,
    /// The leaves of its search tree.
    pub leaves: u64,
    /// The greatest number of splits above a leaf.
    pub depth: u64,
}

/// Puts a word and a number behind the text.
fn add_counted(text: &mut Vec<u8>, word: &[u8], number: u64) -> Result<(), NoMemory>
    ensures { OnOk result (text.new.items ≡ text.old.items ++ counted_text word.now number) }
{
    add_text(text, word)?;
    add_number(text, number)
}

impl Drilled {
    /// Puts the line of the counts behind the text.
    fn write(&self, text: &mut Vec<u8>) -> Result<(), NoMemory>
        ensures { OnOk result (text.new.items ≡ text.old.items ++ drill_text self.now) }
    {
        add_counted(text, b"candidates ", self.candidates)?;
        add_counted(text, b" regions ", self.regions)?;
        add_counted(text, b" leaves ", self.leaves)?;
        add_counted(text, b" depth ", self.depth)?;
        add_text(text, b"\n")
    }

    /// The line of the counts.
    pub fn line(&self, alloc: Global) -> Result<Vec<u8>, NoMemory>
        ensures { IfOk result (λ line. line.items ≡ drill_text self.now) }
    {
        let mut line = Vec::new(alloc);
        self.write(&mut line)?;
        Ok(line)
    }
}

/// The counts of a controller whose plant has so many candidates.
fn counted(alloc: Global, candidates: u64, parts: &Controller) -> Result<Drilled, NoMemory>
    ensures counts { IfOk result (λ drilled. drilled.candidates ≡ candidates) }
    ensures regions { IfOk result (λ drilled. length parts.now.laws ≡ drilled.regions) }
    ensures tree { IfOk result (λ drilled. IsTreeOf parts.now.tree drilled.leaves drilled.depth) }
{
    let TreeSize { leaves, depth } = tree_size(alloc, parts.tree())?;
    Ok(Drilled {
        candidates,
        regions: parts.laws().len() as u64,
        leaves,
        depth,
    })
}

/// Makes the controller of a plant, has it accepted by the independent checker, and counts.
fn drill_of<T: Threads + Wait + Sync, G: Gate + Sync>(
    rt: &T,
    alloc: Global,
    plant: Plant,
    gate: &G,
) -> Result<Drilled, SynthesisError>
    ensures counts { IfOk result (HasCounts plant) }
    ensures refused { IfErr result (ExplainsSynthesisError controller plant) }
{
    one_program();
    finished_histories();
    let registry = match decided_in_threads(rt, alloc, &plant, WORKERS, gate) {
        Ok(registry) => registry,
        Err(error) => return Err(error),
    };
    let candidates = claim_count(registry.history());
    let parts = match controller_of(rt, alloc, plant, registry) {
        Ok(parts) => parts,
        Err(error) => return Err(error),
    };
    match counted(alloc, candidates, &parts) {
        Ok(drilled) => Ok(drilled),
        Err(NoMemory) => Err(SynthesisError::NoMemory),
    }
}

/// Makes the controller of the plant with this number, has it accepted by the independent checker, and counts what was made. Four workers
/// decide the active sets, in as many threads as the machine runs at once.
///
/// `NotDefinite` names the first pivot that isn't positive, `TooWide` the first place with a number of more than 128 bits, as they do
/// where the controller of any other plant is made.
pub fn drill<T: Threads + Wait + Sync, G: Gate + Sync>(
    rt: &T,
    alloc: Global,
    number: u32,
    gate: &G,
) -> Result<Drilled, SynthesisError>
    ensures drilled { IfOk result (IsDrilled number) }
    ensures refused { IfErr result (ExplainsDrillError number) }
{
    match drill_plant(alloc, number) {
        Ok(plant) => drill_of(rt, alloc, plant, gate),
        Err(NoMemory) => Err(SynthesisError::NoMemory),
    }
}
