//! The test of recursive feasibility.

ghost use Rattle.std.specs.Prelude.{◌≡◌, ◌<◌, ◌≤◌, IfOk, IfErr, MatchResult, length};
ghost use Rattle.mpc_controller.specs.Parts.{limits_of};
ghost use Rattle.mpc_recur.specs.Findings.{IsStop};
ghost use Rattle.mpc_recur.specs.Outcomes.{IsAnswer, IsCause};
ghost use Rattle.mpc_recur.specs.Targets.{NodeAtMet, NodeAtFinds, AllRuledOut, IsFound};
ghost use Rattle.mpc_controller.specs.Ways.{IsWay};
ghost use Rattle.mpc_recur.specs.Empties.{EmptiesBefore};

use crate::answers::{Recur, RecurError, Stop};
use crate::leaves::rule_out_targets;
use crate::theorems::ruled_out_where_safe;
use mpc_controller::{Controller, Turn, go_on, limits, one_path, way_theorems};
use mpc_rows::{Counts, Node, Tree};
use std::alloc::Global;

/// The place behind the last leaf without a law, 0 where each leaf has one.
fn empties_end(tree: &Tree) -> usize
    ensures inside { result ≤ length tree.now }
    ensures behind { EmptiesBefore tree.now result }
{
    let mut end = 0;
    for place in 0..tree.len() {
        if let Node::NoMove { .. } = tree.at(place) {
            end = place + 1;
        }
    }
    end
}

/// Goes on where no step leads from the node at a place, counted from 0, to a target. The way leads to the node.
fn rule_out_place(
    alloc: Global,
    controller: &Controller,
    limits: &Counts,
    way: &[Turn],
    place: usize,
    end: usize,
) -> Result<(), Stop>
    requires limits { limits.now ≡ limits_of controller.now.plant }
    requires way { IsWay controller.now.tree place way.now }
    requires inside { place < length controller.now.tree }
    requires end { end ≤ length controller.now.tree }
    requires empties { EmptiesBefore controller.now.tree end }
    ensures { MatchResult result (λ _. NodeAtMet controller.now place) (IsStop (NodeAtFinds controller.now place)) }
{
    one_path();
    way_theorems();
    let tree = controller.tree();
    prove!(place < tree.len());
    let Node::Law { law, .. } = tree.at(place) else {
        return Ok(());
    };
    let of_leaf = controller.laws().at(*law as usize - 1);
    let number = place as u64 + 1;
    rule_out_targets(alloc, controller, limits, way, of_leaf, number, end)
}

/// Goes on where no step leads to a target, node by node in preorder.
fn rule_out_all(alloc: Global, controller: &Controller) -> Result<(), Stop>
    ensures { MatchResult result (λ _. AllRuledOut controller.now) (IsStop (IsFound controller.now)) }
{
    let limits = limits(alloc, controller.plant())?;
    let tree = controller.tree();
    let end = empties_end(tree);
    let mut way = Vec::new(alloc);
    for place in 0..tree.len() {
        match rule_out_place(alloc, controller, &limits, way.as_slice(), place, end) {
            Ok(()) => {}
            Err(stop) => return Err(stop),
        }
        go_on(&mut way, tree, place)?;
    }
    Ok(())
}

/// Tests whether a controller is safe: whether from each state of the box at which it has a move, that move leads to a state of the box at
/// which it has one again, so that it has one forever. Also states between those of the grid are meant.
///
/// The leaves with a law come in preorder, and for each leaf the steps below and above each coordinate of the box and then those to each leaf
/// without a law. Each such step is decided by a system of rows on the state before it. `Safe` where none is taken. Otherwise the first that
/// isn't ruled out answers: as `Unsafe` with a state from which it is taken, or as `Wide` where a number on the way to its system, or of the
/// decision, needs more than 128 bits.
pub fn recur(alloc: Global, controller: &Controller) -> Result<Recur, RecurError>
    ensures answer { IfOk result (IsAnswer controller.now) }
    ensures cause { IfErr result (IsCause controller.now) }
{
    ruled_out_where_safe();
    let _ = controller.plant();
    match rule_out_all(alloc, controller) {
        Ok(()) => Ok(Recur::Safe),
        Err(Stop::Reached(one, point)) => Ok(Recur::Unsafe(one, point)),
        Err(Stop::Wide(one)) => Err(RecurError::Wide(one)),
        Err(Stop::NoMemory) => Err(RecurError::NoMemory),
    }
}
