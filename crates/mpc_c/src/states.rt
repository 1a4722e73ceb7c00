//! One state of a plant, without a table.

ghost use Rattle.std.specs.Prelude.{◌≡◌, ◌≢◌, ◌≤◌, ℕ, List, length, None};
ghost use Rattle.mpc_space.specs.Vector.{IsSymmetric};
ghost use Rattle.mpc_space.specs.Definite.{IsDefinite};
ghost use Rattle.mpc_space.specs.Matrix.{height};
ghost use Rattle.mpc_plant.specs.declared.plants.Plant.{Plant};
ghost use Rattle.mpc_plant.specs.Trajectory.{point_of};
ghost use Rattle.mpc_plant.specs.WholePlant.{ReadsAsPlant};
ghost use Rattle.mpc_rows.specs.ActiveSets.{IsInBox};
ghost use Rattle.mpc_condense.specs.Condensed.{IsCondensed};
ghost use Rattle.mpc_controller.specs.Parts.{limits_of};
ghost use Rattle.mpc_controller.specs.Replies.{first_outside};
ghost use Rattle.mpc_c.specs.States.{Says};

use crate::fractions::put_numbers;
use mpc_block::Move;
use mpc_condense::{ProgramError, convex_program};
use mpc_online::{Online, OnlineError, solve_at};
use mpc_plant::{Plant, PlantError, read_plant};
use mpc_rows::Qp;
use mpc_states::right_programs;
use mpc_synthesis::grid_points;
use mpc_table::find_outside;
use std::alloc::Global;

/// What is answered to a plant's file and counts.
#[derive(Clone, Copy, Drop)]
pub(crate) enum Solved {
    /// The first move of the cheapest admissible sequence, which is written.
    Moved,
    /// No sequence of moves is admissible.
    Infeasible,
    /// A count is above its limit.
    Outside,
    /// A number of the run at this state is too wide.
    WideState,
    /// The plant's file fails a check.
    BadPlant,
    /// The Hessian of the plant's program isn't positive definite.
    NotDefinite,
    /// A number of the plant's program is too wide.
    TooWide,
    /// Memory ran out.
    NoMemory,
    /// There isn't one count for each coordinate, or not one move for each input.
    OtherSizes,
}

/// The answer to counts, none above its limit, by the program of a plant.
fn solve_program(alloc: Global, program: &Qp, counts: &[u64], moves: &mut [Move]) -> Solved
    requires definite { IsDefinite program.now.h.rows }
    requires symmetric { IsSymmetric program.now.h.rows }
    requires in_box { IsInBox program.now.counts (point_of counts.now) }
    requires inputs { length moves.old ≤ height program.now.h }
    ensures says { (plant : Plant) (file : List ℕ) → ReadsAsPlant file plant → IsCondensed program.now plant
        → first_outside (limits_of plant) counts.now ≡ None → length moves.old ≡ plant.p
        → Says file counts.now moves.new result }
    ensures kept { result ≢ Solved.Moved → moves.new ≡ moves.old }
{
    right_programs();
    match solve_at(alloc, program, counts) {
        Ok(Online::Best(best)) => {
            put_numbers(best.as_slice(), moves);
            Solved::Moved
        }
        Ok(Online::Refuted(_)) => Solved::Infeasible,
        Err(OnlineError::Wide(_)) => Solved::WideState,
        Err(OnlineError::NoMemory) => Solved::NoMemory,
    }
}

/// The answer of a plant to counts.
fn solve_plant(alloc: Global, plant: &Plant, counts: &[u64], moves: &mut [Move]) -> Solved
    requires counts { length counts.now ≡ plant.now.n }
    requires moves { length moves.old ≡ plant.now.p }
    ensures says { (file : List ℕ) → ReadsAsPlant file plant.now → Says file counts.now moves.new result }
    ensures kept { result ≢ Solved.Moved → moves.new ≡ moves.old }
{
    grid_points();
    let program = match convex_program(alloc, plant) {
        Ok(program) => program,
        Err(ProgramError::NotDefinite(_)) => return Solved::NotDefinite,
        Err(ProgramError::TooWide(_)) => return Solved::TooWide,
        Err(ProgramError::NoMemory) => return Solved::NoMemory,
    };
    match find_outside(program.counts.as_slice(), counts) {
        Some(_) => Solved::Outside,
        None => solve_program(alloc, &program, counts, moves),
    }
}

/// The answer of a plant's file to counts, one for each coordinate; the moves, one for each input, are written where it is `Moved`.
pub(crate) fn solve(alloc: Global, file: &[u8], counts: &[u64], moves: &mut [Move]) -> Solved
    ensures says { Says file.now counts.now moves.new result }
    ensures kept { result ≢ Solved.Moved → moves.new ≡ moves.old }
{
    let plant = match read_plant(alloc, file) {
        Ok(plant) => plant,
        Err(PlantError::Bad(_, _)) => return Solved::BadPlant,
        Err(PlantError::NoMemory) => return Solved::NoMemory,
    };
    if counts.len() != plant.n as usize {
        return Solved::OtherSizes;
    }
    if moves.len() != plant.p as usize {
        return Solved::OtherSizes;
    }
    solve_plant(alloc, &plant, counts, moves)
}
