//! Tables: what a controller's replies need, and the replies.

ghost use Rattle.std.specs.Prelude.{◌≡◌, ◌≤◌, ◌-◌, ◌++◌, codes, decimal, length, IfOk, OnOk, OnErr};
ghost use Rattle.mpc_space.specs.Vector.{dot};
ghost use Rattle.mpc_plant.specs.Trajectory.{point_of};
ghost use Rattle.mpc_rows.specs.ActiveSets.{extended};
ghost use Rattle.mpc_rows.specs.declared.laws.Law.{Law};
ghost use Rattle.mpc_controller.specs.Parts.{Parts};
ghost use Rattle.mpc_controller.specs.Bounds.{first_move_form};
ghost use Rattle.mpc_controller.specs.Replies.{first_outside, IsLawNumbered};
ghost use Rattle.mpc_table.specs.Forms.{AreUpTo};
ghost use Rattle.mpc_table.specs.Lookup.{IsTableOf};
ghost use Rattle.mpc_table.specs.TableReplies.{IsReply, IsWritable, AddsAnswer};

use crate::answers::Reply;
use crate::forms::{FormPlaces, LawForms, law_forms, write_values};
use crate::sides::no_sides;
use crate::steps::{Step, Steps, all_steps, leaf_place};
use crate::values::value_at;
use mpc_controller::{Controller, limits};
use mpc_frac::{Frac, NoMemory};
use mpc_linear::{IntAffine, RowInt};
use mpc_rows::Counts;
use mpc_words::{add_number, add_text};
use std::alloc::Global;
use std::marker::Model;

/// A controller without its certificates, laid out for replies: the first move of each law over common
/// denominators, and for each split of the tree the place of its no side. Equal forms of moves and equal
/// rows of splits are kept once, and the laws and the steps name them by their places.
#[derive(Drop)]
pub struct Table {
    limits: Counts,
    inputs: u32,
    forms: Vec<IntAffine>,
    laws: Vec<FormPlaces>,
    rows: Vec<RowInt>,
    steps: Vec<Step>,
    sides: Vec<usize>,
}

impl Model for Table {
    ghost use Rattle.mpc_table.specs.Lookup.{Lookup};
    ghost use Rattle.mpc_table.specs.SharedLookup.{lookup_of, IsShared};

    ghost Value = { Lookup };

    ghost view = { λ t. lookup_of t.limits t.inputs t.forms.items t.laws.items t.rows.items t.steps.items t.sides.items };

    ghost invariant = { λ t. IsShared t.limits t.inputs t.forms.items t.laws.items t.rows.items t.steps.items t.sides.items };
}

/// The number, from 1, of the first count above its limit.
pub fn find_outside(limits: &[u64], counts: &[u64]) -> Option<u32>
    requires sizes { length counts.now ≡ length limits.now }
    requires few { length limits.now ≤ 4 }
    ensures { result ≡ first_outside limits.now counts.now }
{
    for i in 0..limits.len() {
        if counts[i] > limits[i] {
            return Some(i as u32 + 1);
        }
    }
    None
}

/// Appends `outside` and the number. Without memory `out` stays as it was.
fn write_outside(coordinate: u32, out: &mut Vec<u8>) -> Result<(), NoMemory>
    ensures ok { OnOk result (out.new.items
        ≡ out.old.items ++ (codes "outside " ++ decimal coordinate)) }
    ensures err { OnErr result (out.new.items ≡ out.old.items) }
{
    let start = out.len();
    add_text(out, b"outside ")?;
    let Ok(()) = add_number(out, coordinate as u64) else {
        out.truncate(start);
        return Err(NoMemory);
    };
    Ok(())
}

impl Table {
    /// The table of a controller.
    pub fn of(alloc: Global, controller: &Controller) -> Result<Table, NoMemory>
        ensures { IfOk result (IsTableOf controller.now) }
    {
        let plant = controller.plant();
        let limits = limits(alloc, plant)?;
        let LawForms { forms, laws } = law_forms(
            alloc,
            plant,
            controller.laws(),
            limits.as_slice(),
        )?;
        let Steps { rows, steps } = all_steps(alloc, controller.tree())?;
        let sides = no_sides(alloc, controller.tree())?;
        Ok(Table {
            limits,
            inputs: plant.p,
            forms,
            laws,
            rows,
            steps,
            sides,
        })
    }

    /// The reply to counts, one a coordinate: by a walk from the root of the tree to a leaf.
    pub fn reply_at(&self, counts: &[u64]) -> Reply
        requires { length counts.now ≡ length self.now.limits }
        ensures reply { (parts : Parts) → IsTableOf parts self.now → IsReply parts counts.now result }
        ensures writable { IsWritable self.now counts.now result }
    {
        if let Some(coordinate) = find_outside(self.limits.as_slice(), counts) {
            return Reply::Outside { coordinate };
        }
        let place = leaf_place(
            self.rows.as_slice(),
            self.steps.as_slice(),
            self.sides.as_slice(),
            counts,
        );
        let node = place as u64 + 1;
        match &self.steps[place] {
            Step::Branch(_) => unreachable!(),
            Step::Apply(law) => Reply::Move { node, law: *law },
            Step::Stop => Reply::Infeasible { node },
        }
    }

    /// What a law's first move gives an input at counts up to the limits. The law and the input are
    /// counted from 1.
    pub fn move_at(&self, law: u32, counts: &[u64], input: u32) -> Frac
        requires from_first_law { 1 ≤ law }
        requires to_last_law { law ≤ length self.now.laws }
        requires from_first_input { 1 ≤ input }
        requires to_last_input { input ≤ self.now.inputs }
        requires inside { AreUpTo counts.now self.now.limits }
        ensures { (parts : Parts) (of_set : Law) → IsTableOf parts self.now
            → IsLawNumbered parts.laws law of_set
            → result ≡ dot (first_move_form of_set (input - 1)) (extended (point_of counts.now)) }
    {
        let places = self.laws[law as usize - 1].as_slice();
        value_at(&self.forms[places[input as usize - 1]], counts)
    }

    /// Appends the text of a reply to counts: the moves with one blank between two, `infeasible`, or
    /// `outside` and the coordinate. Without memory `out` stays as it was.
    pub fn write_reply(
        &self,
        counts: &[u64],
        reply: &Reply,
        out: &mut Vec<u8>,
    ) -> Result<(), NoMemory>
        requires { IsWritable self.now counts.now reply.now }
        ensures ok { OnOk result ((parts : Parts) → IsTableOf parts self.now
            → IsReply parts counts.now reply.now
            → AddsAnswer parts counts.now out.old.items out.new.items) }
        ensures err { OnErr result (out.new.items ≡ out.old.items) }
    {
        match *reply {
            Reply::Move { law, .. } => {
                let places = self.laws[law as usize - 1].as_slice();
                write_values(self.forms.as_slice(), places, counts, out)
            }
            Reply::Infeasible { .. } => add_text(out, b"infeasible"),
            Reply::Outside { coordinate } => write_outside(coordinate, out),
        }
    }
}
