//! Controllers: a plant, its laws and its search tree, none of whose numbers is too wide on the way to a reply.

ghost use Rattle.std.specs.Prelude.{◌≡◌, IfOk, OnOk, IfErr};
ghost use Rattle.mpc_controller.specs.Parts.{HaveShapes};
ghost use Rattle.mpc_controller.specs.Bounds.{KeepBounds, IsController, ExplainsSealError};

use crate::bounds::{first_broken, limits};
use crate::errors::SealError;
use mpc_plant::Plant;
use mpc_rows::{LawTable, Tree};
use std::alloc::Global;
use std::marker::Model;

/// A plant, the laws of its active sets, and the search tree whose leaves name them by their numbers
/// (Tøndel, Johansen and Bemporad, 2003).
///
/// The laws and the tree have the plant's shapes, each leaf has its certificates, over the rows of its
/// system, and no number on the way to a reply needs more than 128 bits.
pub struct Controller {
    plant: Plant,
    laws: LawTable,
    tree: Tree,
}

/// It is dropped in many places, so the program has this once.
impl Drop for Controller {
    #[inline(never)]
    fn drop(self) {
        let Controller {
            plant: _,
            laws: _,
            tree: _,
        } = self;
    }
}

impl Model for Controller {
    ghost use Rattle.mpc_controller.specs.Parts.{Parts};
    ghost use Rattle.mpc_controller.specs.Bounds.{IsController};

    ghost Value = { Parts };

    ghost view = { λ c. record { plant = c.plant; laws = c.laws; tree = c.tree } };

    ghost invariant = { λ c. IsController c.plant c.laws c.tree };
}

impl Controller {
    /// The controller of these parts.
    ///
    /// `Wide` with the first bound that is broken: law by law, and in a law input by input, the first
    /// move's affine form over its least common denominator and the sizes of its terms at the greatest
    /// counts; then, split by split in preorder, the sizes of the row's terms there and of its bound. A
    /// refusal gives up the three parts.
    pub fn seal(
        alloc: Global,
        plant: Plant,
        laws: LawTable,
        tree: Tree,
    ) -> Result<Controller, SealError>
        requires { HaveShapes plant laws tree }
        ensures ok { IfOk result (λ c. c ≡ record { plant = plant; laws = laws; tree = tree }) }
        ensures bounds { OnOk result (KeepBounds plant laws tree) }
        ensures refused { IfErr result (ExplainsSealError plant laws tree) }
    {
        let counts = limits(alloc, &plant)?;
        if let Some(place) = first_broken(alloc, &plant, counts.as_slice(), &laws, &tree)? {
            return Err(SealError::Wide(place));
        }
        Ok(Controller { plant, laws, tree })
    }

    /// The plant.
    pub fn plant(&self) -> &Plant
        ensures value { result.now ≡ self.now.plant }
        ensures controller { IsController self.now.plant self.now.laws self.now.tree }
    {
        &self.plant
    }

    /// The laws, whose numbers are their places from 1.
    pub fn laws(&self) -> &LawTable
        ensures value { result.now ≡ self.now.laws }
        ensures controller { IsController self.now.plant self.now.laws self.now.tree }
    {
        &self.laws
    }

    /// The search tree.
    pub fn tree(&self) -> &Tree
        ensures value { result.now ≡ self.now.tree }
        ensures controller { IsController self.now.plant self.now.laws self.now.tree }
    {
        &self.tree
    }
}
