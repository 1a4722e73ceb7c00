//! A run: from a plant file to a reply.

ghost use Rattle.std.specs.Prelude.{◌≡◌, IfOk, IfErr, OnErr, length, map};
ghost use Rattle.mpc_bench.specs.Parts.{value_of};
ghost use Rattle.mpc_rows.specs.declared.programs.Qp.{Qp};
ghost use Rattle.mpc_synthesis.specs.Controllers.{IsController};
ghost use Rattle.mpc_bench.specs.Answers.{HaveSizes, IsAnsweredFor};
ghost use Rattle.mpc_bench.specs.Runs.{IsAnswered, ExplainsStop, ExplainsEnd};

use crate::controllers::Sizes;
use crate::parts::Parts;
use crate::phases::{Phase, Stop};
use crate::replies::{Answer, replies};
use mpc_controller::Controller;
use mpc_plant::{Plant, PlantError, read_plant};
use mpc_synthesis::{Alone, controller_of, decided, grid_points, right_controller};
use mpc_table::Table;
use mpc_workers::OpenGate;
use std::alloc::Global;

/// The controller of a plant, with its sizes.
fn compiled(alloc: Global, plant: Plant, last: Phase, sizes: &mut Sizes) -> Result<Controller, Stop>
    ensures controller { IfOk result (λ parts. (qp : Qp) × IsController plant qp parts) }
    ensures sizes { IfOk result (HaveSizes sizes.new) }
    ensures stops { IfErr result (ExplainsStop plant last) }
{
    let registry = decided(alloc, &plant, &OpenGate)?;
    sizes.candidates = registry.history().len() as u64 / 2;
    if last == Phase::Deciding {
        return Err(Stop::Asked);
    }
    let controller = controller_of(&Alone, alloc, plant, registry)?;
    sizes.laws = controller.laws().len() as u64;
    sizes.nodes = controller.tree().len() as u64;
    if last == Phase::Compiling {
        return Err(Stop::Asked);
    }
    Ok(controller)
}

/// The reply of a plant's controller to counts, one a state, with room for a number for each input.
fn reply_of(
    alloc: Global,
    plant: Plant,
    counts: &[u64],
    last: Phase,
    rounds: u32,
    sizes: &mut Sizes,
    moves: &mut [Parts],
) -> Result<Answer, Stop>
    requires counts { length counts.now ≡ plant.n }
    requires room { length moves.old ≡ plant.p }
    ensures answered { IfOk result (IsAnsweredFor plant counts.now sizes.new (map value_of moves.new)) }
    ensures stops { IfErr result (ExplainsStop plant last) }
    ensures kept { OnErr result (moves.new ≡ moves.old) }
{
    right_controller();
    grid_points();
    let controller = match compiled(alloc, plant, last, sizes) {
        Ok(controller) => controller,
        Err(stop) => return Err(stop),
    };
    let Ok(table) = Table::of(alloc, &controller) else {
        return Err(Stop::NoMemory);
    };
    if last == Phase::LayingOut {
        return Err(Stop::Asked);
    }
    Ok(replies(&table, counts, rounds, moves))
}

/// The reply of the controller of a plant file to counts, one a state, with room for a number for each input.
pub(crate) fn answer_to(
    alloc: Global,
    file: &[u8],
    counts: &[u64],
    last: Phase,
    rounds: u32,
    sizes: &mut Sizes,
    moves: &mut [Parts],
) -> Result<Answer, Stop>
    ensures answered { IfOk result (IsAnswered file.now counts.now sizes.new (map value_of moves.new)) }
    ensures stops { IfErr result (ExplainsEnd file.now (length counts.now) (length moves.old) last) }
    ensures kept { OnErr result (moves.new ≡ moves.old) }
{
    let plant = match read_plant(alloc, file) {
        Ok(plant) => plant,
        Err(PlantError::Bad(_, _)) => return Err(Stop::BadPlant),
        Err(PlantError::NoMemory) => return Err(Stop::NoMemory),
    };
    if counts.len() != plant.n as usize {
        return Err(Stop::OtherSizes);
    }
    if moves.len() != plant.p as usize {
        return Err(Stop::OtherSizes);
    }
    if last == Phase::Reading {
        return Err(Stop::Asked);
    }
    let answer = match reply_of(alloc, plant, counts, last, rounds, sizes, moves) {
        Ok(answer) => answer,
        Err(stop) => return Err(stop),
    };
    Ok(answer)
}
