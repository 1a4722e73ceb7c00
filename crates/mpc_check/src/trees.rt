//! The conditions on the nodes of the tree. Each stretch of neighbouring nodes is checked for itself, from its first place to before its
//! last.

ghost use Rattle.std.specs.Prelude.{◌≡◌, ◌<◌, ◌≤◌, ◌↔◌, Ok, None, IsTrue, length};
ghost use Rattle.mpc_check.specs.Borders.{AreBorders};
ghost use Rattle.mpc_check.specs.Findings.{IsSearched};
ghost use Rattle.mpc_check.specs.LeafConditions.{NodeAtMet, NodeAtFinds, StretchMet, StretchFinds, TreeMet, TreeFinds};
ghost use Rattle.mpc_check.specs.Stretches.{HaveProgramShapes, IsStretchOf, AnswersAsOne};
ghost use Rattle.mpc_controller.specs.Ways.{IsWay};

use crate::answers::{CheckError, Spot};
use crate::borders::Formed;
use crate::leaves::search_node;
use crate::rows::Cell;
use crate::stretches::Stretch;
use mpc_controller::{Turn, go_on, one_path, way_theorems, way_to};
use mpc_rows::{LawTable, Qp, Tree};
use std::alloc::Global;

/// What is found of the node at a place, counted from 0, to which this way leads.
fn search_place(
    alloc: Global,
    qp: &Qp,
    laws: &LawTable,
    borders: &[Vec<Formed>],
    tree: &Tree,
    way: &[Turn],
    place: usize,
) -> Result<Option<Spot>, CheckError>
    requires shapes { HaveProgramShapes qp.now laws.now tree.now }
    requires borders { AreBorders qp.now laws.now borders.now }
    requires way { IsWay tree.now place way.now }
    requires inside { place < length tree.now }
    ensures { IsSearched (NodeAtMet qp.now laws.now tree.now place) (NodeAtFinds qp.now laws.now tree.now place) result }
{
    one_path();
    way_theorems();
    prove!(place < tree.len());
    let number = place as u64 + 1;
    let cell = Cell { tree, way };
    search_node(alloc, qp, laws, borders, &cell, tree.at(place), number)
}

/// What is found of a stretch of the tree, node by node in preorder. It begins with its own copy of the way from the root to its first node.
pub fn search_stretch(
    alloc: Global,
    qp: &Qp,
    laws: &LawTable,
    borders: &[Vec<Formed>],
    tree: &Tree,
    stretch: Stretch,
) -> Result<Option<Spot>, CheckError>
    requires shapes { HaveProgramShapes qp.now laws.now tree.now }
    requires borders { AreBorders qp.now laws.now borders.now }
    requires stretch { IsStretchOf (length tree.now) stretch }
    ensures { IsSearched (StretchMet qp.now laws.now tree.now stretch.from stretch.to) (StretchFinds qp.now laws.now tree.now stretch.from stretch.to) result }
{
    let mut way = way_to(alloc, tree, stretch.from)?;
    for place in stretch.from..stretch.to {
        match search_place(alloc, qp, laws, borders, tree, way.as_slice(), place) {
            Ok(None) => {}
            Ok(Some(spot)) => return Ok(Some(spot)),
            Err(error) => return Err(error),
        }
        go_on(&mut way, tree, place)?;
    }
    Ok(None)
}

/// Whether the answer is that all conditions are met.
fn is_met(answer: Result<Option<Spot>, CheckError>) -> bool
    ensures { IsTrue result ↔ (answer ≡ Ok None) }
{
    match answer {
        Ok(None) => true,
        Ok(Some(_)) | Err(_) => false,
    }
}

/// What is found of neighbouring stretches as one, from what is found of each: of the answers in their order the first that isn't that all
/// conditions are met.
pub fn first_answer(
    answers: &[Result<Option<Spot>, CheckError>],
) -> Result<Option<Spot>, CheckError>
    ensures { AnswersAsOne answers.now result }
{
    for answer in answers {
        if !is_met(*answer) {
            return *answer;
        }
    }
    Ok(None)
}
