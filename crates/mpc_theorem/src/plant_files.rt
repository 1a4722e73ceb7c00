//! What a plant file says, and its first fault.

ghost use Rattle.mpc_theorem.specs.PlantFaults.{FaultsAreFirst};
ghost use Rattle.mpc_theorem.specs.PlantFile.{PlantTextsAreRead, OnePlantText};

use mpc_plant::one_reading;

/// What passes all checks of a plant's file is just what has the plant's parts at its keys, and it has those of one plant; and the first check
/// that fails is the first fault of the file. The call does nothing: its clauses are the theorem.
pub fn plant_texts()
    ensures read { PlantTextsAreRead }
    ensures one { OnePlantText }
    ensures faults { FaultsAreFirst }
{
    one_reading();
}
