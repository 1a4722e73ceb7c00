//! What lies between decided candidates and a controller: the table of laws, the sealed parts, and what the checker says of them.

ghost use Rattle.std.specs.Prelude.{◌≡◌, IfOk, IfErr, OnOk, MatchResult};
ghost use Rattle.mpc_rows.specs.declared.programs.Qp.{Qp};
ghost use Rattle.mpc_claim.specs.declared.events.Phase.TheVariants.{Finished};
ghost use Rattle.mpc_tree.specs.Causes.{IfWide};
ghost use Rattle.mpc_tree.specs.NodeRuns.{IsFittingTree};
ghost use Rattle.mpc_tree.specs.WideRuns.{IsFirstWide};
ghost use Rattle.mpc_tree.specs.Trees.{whole_box};
ghost use Rattle.mpc_tree.specs.Certified.{IsCertified};
ghost use Rattle.mpc_check.specs.Acceptance.{Accepts, IsAnswer, IsCause};
ghost use Rattle.mpc_synthesis.specs.Compiled.{IsCompiled};
ghost use Rattle.mpc_synthesis.specs.Tables.{IsTabledBy, HasTable};
ghost use Rattle.mpc_synthesis.specs.Controllers.{IsSealed};
ghost use Rattle.mpc_synthesis.specs.Refusals.{controller, ExplainsSynthesisError, ExplainsCheckError, refusal_of};

use crate::{SynthesisError, compiled_accepted, tree_shapes};
use mpc_check::{Answer, CheckError};
use mpc_claim::Registry;
use mpc_controller::{Controller, SealError};
use mpc_frac::NoMemory;
use mpc_plant::Plant;
use mpc_rows::{LawTable, Qp, Tree};
use mpc_tree::TreeError;
use std::alloc::Global;

/// A program with the table of its laws.
#[derive(Drop)]
pub(crate) struct Tabled {
    pub program: Qp,
    pub laws: LawTable,
}

/// The program of a registry that has decided all its candidates, with their laws.
pub(crate) fn table_of(alloc: Global, registry: Registry) -> Result<Tabled, NoMemory>
    requires { registry.phase ≡ Finished }
    ensures { IfOk result (IsTabledBy registry) }
{
    let program = registry.program().copy(alloc)?;
    let laws = registry.into_laws(alloc)?;
    Ok(Tabled { program, laws })
}

/// Why a plant whose tree isn't built is refused.
fn without_tree(error: TreeError) -> SynthesisError
    ensures { result ≡ refusal_of error }
{
    match error {
        TreeError::Wide(place) => SynthesisError::TooWide(place),
        TreeError::NoMemory => SynthesisError::NoMemory,
    }
}

/// The controller with the plant's table of laws and what was built of its search tree, all bounds kept.
pub(crate) fn sealed(
    alloc: Global,
    plant: Plant,
    table: Tabled,
    built: Result<Tree, TreeError>,
) -> Result<Controller, SynthesisError>
    requires table { HasTable plant table }
    requires certified { IfOk built (IsCertified table.program table.laws whole_box) }
    requires wide { MatchResult built (IsFittingTree table.program table.laws whole_box)
        (λ e. IfWide e (IsFirstWide table.program table.laws whole_box 1)) }
    ensures parts { IfOk result (IsSealed plant table.program) }
    ensures refused { IfErr result (ExplainsSynthesisError controller plant) }
{
    let tree = match built {
        Ok(tree) => tree,
        Err(error) => return Err(without_tree(error)),
    };
    tree_shapes();
    match Controller::seal(alloc, plant, table.laws, tree) {
        Ok(controller) => Ok(controller),
        Err(SealError::Wide(place)) => Err(SynthesisError::TooWide(place)),
        Err(SealError::NoMemory) => Err(SynthesisError::NoMemory),
    }
}

/// The controller, where the checker accepts it. What is compiled it refuses for a number of its own sums that is too wide alone.
pub(crate) fn accepted(
    parts: Controller,
    found: Result<Answer, CheckError>,
) -> Result<Controller, SynthesisError>
    requires compiled { (qp : Qp) × IsCompiled qp parts }
    requires answer { IfOk found (IsAnswer parts) }
    requires cause { IfErr found (IsCause parts) }
    ensures same { IfOk result (λ p. p ≡ parts) }
    ensures accepted { OnOk result (Accepts parts) }
    ensures refused { IfErr result (ExplainsCheckError parts) }
{
    compiled_accepted();
    match found {
        Ok(Answer::Accepted) => Ok(parts),
        Ok(Answer::Refused(_)) => unreachable!(),
        Err(CheckError::TooWide(place)) => Err(SynthesisError::TooWide(place)),
        Err(CheckError::NotDefinite(_)) => unreachable!(),
        Err(CheckError::NoMemory) => Err(SynthesisError::NoMemory),
    }
}
