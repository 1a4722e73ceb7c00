//! A search tree laid out for walks, and the walk from its root to a leaf.

ghost use Rattle.std.specs.Prelude.{◌≡◌, ◌<◌, length, map, All, IfOk, OnErr, MatchOption};
ghost use Rattle.mpc_table.specs.Places.{ArePlaces};
ghost use Rattle.mpc_table.specs.Steps.{AreSafe, IsLastAt, LeadsTo, WalksTo};
ghost use Rattle.mpc_table.specs.SharedSteps.{row_line, actions_at, NamesRow, IsStepFor, AreStepsOf};

use crate::places::Places;
use crate::rows::keep_row;
use crate::values::satisfies;
use mpc_frac::NoMemory;
use mpc_linear::RowInt;
use mpc_rows::{Node, Tree};
use std::alloc::Global;

/// What is done at a node of a search tree.
#[derive(Drop)]
pub enum Step {
    /// Go on to the yes side where the row at this place holds, and else to the no side.
    Branch(usize),
    /// Apply the law with this number, from 1.
    Apply(u32),
    /// No move is admissible.
    Stop,
}

/// What is done at each node, and the rows that the steps name by their places: equal rows are kept once.
#[derive(Drop)]
pub struct Steps {
    pub rows: Vec<RowInt>,
    pub steps: Vec<Step>,
}

/// What is done at the node, whose row is kept with the others. Without memory the rows stay as they were,
/// and the places are given up.
fn step_at(
    alloc: Global,
    node: &Node,
    rows: &mut Vec<RowInt>,
    places: &mut Places,
) -> Result<Step, NoMemory>
    requires { ArePlaces places.old (map row_line rows.old.items) }
    ensures step { IfOk result (IsStepFor node.now rows.old.items rows.new.items places.new) }
    ensures err { OnErr result (rows.new.items ≡ rows.old.items) }
{
    match node {
        Node::Split(row) => Ok(Step::Branch(keep_row(alloc, row, rows, places)?)),
        Node::Law { law, .. } => Ok(Step::Apply(*law)),
        Node::NoMove { .. } => Ok(Step::Stop),
    }
}

/// What is done at each node.
pub fn all_steps(alloc: Global, tree: &Tree) -> Result<Steps, NoMemory>
    ensures { IfOk result (λ all. AreStepsOf tree.now all.rows.items all.steps.items) }
{
    let mut rows = Vec::new(alloc);
    let mut places = Places::new(alloc);
    let mut steps = Vec::new(alloc);
    for k in 0..tree.len() {
        let step = step_at(alloc, tree.at(k), &mut rows, &mut places)?;
        steps.push(step).map_err(|_| NoMemory)?;
    }
    Ok(Steps { rows, steps })
}

/// Where the walk goes on behind a place; none at a leaf.
fn next_place(
    rows: &[RowInt],
    steps: &[Step],
    sides: &[usize],
    counts: &[u64],
    place: usize,
) -> Option<usize>
    requires inside { place < length steps.now }
    requires named { All (NamesRow (length rows.now)) steps.now }
    requires safe { AreSafe counts.now (actions_at rows.now steps.now) sides.now }
    ensures { MatchOption result (IsLastAt (actions_at rows.now steps.now) place)
        (LeadsTo (actions_at rows.now steps.now) sides.now counts.now place) }
{
    let Step::Branch(row) = &steps[place] else {
        return None;
    };
    if satisfies(&rows[*row], counts) {
        Some(place + 1)
    } else {
        Some(sides[place])
    }
}

/// The place of the leaf at which the walk from the root ends.
pub fn leaf_place(rows: &[RowInt], steps: &[Step], sides: &[usize], counts: &[u64]) -> usize
    requires root { 0 < length steps.now }
    requires named { All (NamesRow (length rows.now)) steps.now }
    requires safe { AreSafe counts.now (actions_at rows.now steps.now) sides.now }
    ensures { WalksTo (actions_at rows.now steps.now) sides.now counts.now result }
{
    let mut place = 0;
    while let Some(next) = next_place(rows, steps, sides, counts, place) {
        place = next;
    }
    place
}
