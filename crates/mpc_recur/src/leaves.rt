//! The targets of one leaf with a law, one after another.

ghost use Rattle.std.specs.Prelude.{◌≡◌, ℕ, ◌+◌, ◌<◌, ◌≤◌, List, All, IsTrue, IfOk, OnOk, MatchResult, length, map, Some};
ghost use Rattle.mpc_plant.specs.declared.plants.Plant.{Plant};
ghost use Rattle.mpc_rows.specs.declared.laws.Law.{Law};
ghost use Rattle.mpc_rows.specs.declared.systems.Row.{Row};
ghost use Rattle.mpc_controller.specs.Parts.{limits_of, IsLawFor};
ghost use Rattle.mpc_recur.specs.Forms.{next_form, next_forms, substituted, SubstitutedFits};
ghost use Rattle.mpc_recur.specs.Findings.{IsRuledOut, IsStop};
ghost use Rattle.mpc_recur.specs.Met.{AreMet};
ghost use Rattle.mpc_recur.specs.Targets.{count_at, with_rows, IsBaseOf, SideMet, SideFinds, SidesMet, SidesFind, EmptyMet, EmptyFinds, EmptiesMet, EmptiesFind, TargetsMet, TargetsFind};
ghost use Rattle.mpc_controller.specs.Paths.{PathTo};
ghost use Rattle.mpc_controller.specs.Ways.{HasSplitRow, IsTurn, IsWay, way_rows};
ghost use Rattle.mpc_recur.specs.Empties.{EmptiesBefore};

use crate::answers::{Next, StageError, Stop, Target};
use crate::asked::asked_rows;
use crate::bases::Base;
use crate::forms::next_forms;
use crate::met::Met;
use crate::systems::leaf_system;
use crate::targets::{rule_out_high, rule_out_leaf, rule_out_low};
use mpc_controller::{Controller, Turn, go_on, one_path, way_theorems};
use mpc_frac::NoMemory;
use mpc_linear::Vector;
use mpc_rows::{Counts, Law, Node, Tree};
use mpc_simplex::Workspace;
use std::alloc::Global;

/// Goes on where no step leads below or above the coordinate of the box at an index, counted from 0.
fn rule_out_sides_of(
    alloc: Global,
    work: &mut Workspace,
    base: &Base,
    form: &Vector,
    count: u64,
    leaf: u64,
    index: u32,
) -> Result<(), Stop>
    requires size { length form.now ≡ base.now.width + 1 }
    requires coordinate { index < 4 }
    ensures { (plant : Plant) (law : Law) (path : List Row) → IsBaseOf plant path base.now
        → form.now ≡ next_form plant law index → count ≡ count_at plant index
        → MatchResult result (λ _. SideMet plant law path index) (IsStop (SideFinds plant law path leaf index)) }
{
    let low = Next {
        leaf,
        target: Target::Low(index + 1),
    };
    let high = Next {
        leaf,
        target: Target::High(index + 1),
    };
    match rule_out_low(alloc, work, base, form, low) {
        Ok(()) => rule_out_high(alloc, work, base, form, count, high),
        Err(stop) => Err(stop),
    }
}

/// Goes on where no step leads below or above a coordinate of the box.
fn rule_out_sides(
    alloc: Global,
    work: &mut Workspace,
    base: &Base,
    limits: &Counts,
    forms: &[Vector],
    leaf: u64,
) -> Result<(), Stop>
    requires few { length limits.now ≤ 4 }
    requires sizes { length forms.now ≡ length limits.now }
    requires affine { All (λ form. length form ≡ base.now.width + 1) forms.now }
    ensures { (plant : Plant) (law : Law) (path : List Row) → IsBaseOf plant path base.now
        → forms.now ≡ next_forms plant law → limits.now ≡ limits_of plant
        → MatchResult result (λ _. SidesMet plant law path) (IsStop (SidesFind plant law path leaf)) }
{
    for index in 0..limits.len() {
        match rule_out_sides_of(
            alloc,
            work,
            base,
            &forms[index],
            *limits.at(index),
            leaf,
            index as u32,
        ) {
            Ok(()) => {}
            Err(stop) => return Err(stop),
        }
    }
    Ok(())
}

/// Goes on where no step leads to the node at a place, if it is a leaf without a law, to which this way leads.
fn rule_out_node(
    alloc: Global,
    controller: &Controller,
    base: &Base,
    met: &mut Met,
    way: &[Turn],
    leaf: u64,
    place: usize,
) -> Result<(), Stop>
    requires inside { place < length controller.now.tree }
    requires way { IsWay controller.now.tree place way.now }
    requires sizes { length met.old.forms.items ≡ controller.now.plant.n }
    requires width { base.now.width ≡ controller.now.plant.n }
    requires affine { All (λ form. length form ≡ length met.old.forms.items + 1) met.old.forms.items }
    requires met { AreMet controller.now.tree met.old.forms.items met.old.turns.items met.old.rows }
    ensures forms { OnOk result (met.new.forms.items ≡ met.old.forms.items) }
    ensures met { OnOk result (AreMet controller.now.tree met.old.forms.items met.new.turns.items met.new.rows) }
    ensures found { (law : Law) (path : List Row) → IsBaseOf controller.now.plant path base.now
        → met.old.forms.items ≡ next_forms controller.now.plant law
        → MatchResult result (λ _. EmptyMet controller.now.plant controller.now.tree law path place)
        (IsStop (EmptyFinds controller.now.plant controller.now.tree law path leaf place)) }
{
    one_path();
    way_theorems();
    let tree = controller.tree();
    prove!(place < tree.len());
    let Node::NoMove { .. } = tree.at(place) else {
        return Ok(());
    };
    let one = Next {
        leaf,
        target: Target::NoMove(place as u64 + 1),
    };
    rule_out_leaf(alloc, base, met, tree, way, one)
}

/// Whether no point is in the leaf, and nothing is too wide of any target that is a leaf without a law.
fn is_empty(alloc: Global, tree: &Tree, base: &Base, forms: &[Vector]) -> Result<bool, NoMemory>
    requires few { length forms.now ≤ 4 }
    requires width { base.now.width ≡ length forms.now }
    requires affine { All (λ form. length form ≡ length forms.now + 1) forms.now }
    requires splits { All (HasSplitRow (length forms.now)) tree.now }
    ensures { IfOk result (λ yes. IsTrue yes → (k : ℕ) (other : List Row) → PathTo tree.now k other
        → IsRuledOut (All (SubstitutedFits (length forms.now) forms.now) other) (with_rows base.now (map (substituted (length forms.now) forms.now) other))) }
{
    if !base.is_empty() {
        return Ok(false);
    }
    match asked_rows(alloc, tree, forms)? {
        Some(rows) => base.rules_out_all(alloc, &rows),
        None => Ok(false),
    }
}

/// Goes on where no step leads to a leaf without a law. Each of these stands before the place `end`.
fn rule_out_empties(
    alloc: Global,
    controller: &Controller,
    base: &Base,
    mut met: Met,
    leaf: u64,
    end: usize,
) -> Result<(), Stop>
    requires end { end ≤ length controller.now.tree }
    requires empties { EmptiesBefore controller.now.tree end }
    requires sizes { length met.forms.items ≡ controller.now.plant.n }
    requires width { base.now.width ≡ controller.now.plant.n }
    requires affine { All (λ form. length form ≡ length met.forms.items + 1) met.forms.items }
    requires met { AreMet controller.now.tree met.forms.items met.turns.items met.rows }
    ensures { (law : Law) (path : List Row) → IsBaseOf controller.now.plant path base.now
        → met.forms.items ≡ next_forms controller.now.plant law
        → MatchResult result (λ _. EmptiesMet controller.now.plant controller.now.tree law path)
        (IsStop (EmptiesFind controller.now.plant controller.now.tree law path leaf)) }
{
    if is_empty(alloc, controller.tree(), base, &met.forms)? {
        return Ok(());
    }
    let mut way = Vec::new(alloc);
    for place in 0..end {
        match rule_out_node(
            alloc,
            controller,
            base,
            &mut met,
            way.as_slice(),
            leaf,
            place,
        ) {
            Ok(()) => {}
            Err(stop) => return Err(stop),
        }
        go_on(&mut way, controller.tree(), place)?;
    }
    Ok(())
}

/// Goes on where no step leads from the leaf with this number, from 1, to a target. The way leads to the leaf, whose law this is.
pub fn rule_out_targets(
    alloc: Global,
    controller: &Controller,
    limits: &Counts,
    way: &[Turn],
    law: &Law,
    leaf: u64,
    end: usize,
) -> Result<(), Stop>
    requires limits { limits.now ≡ limits_of controller.now.plant }
    requires way { All (IsTurn controller.now.tree) way.now }
    requires law { IsLawFor controller.now.plant law.now }
    requires end { end ≤ length controller.now.tree }
    requires empties { EmptiesBefore controller.now.tree end }
    ensures { MatchResult result
        (λ _. TargetsMet controller.now.plant controller.now.tree law.now (way_rows controller.now.tree way.now))
        (IsStop (TargetsFind controller.now.plant controller.now.tree law.now (way_rows controller.now.tree way.now) leaf)) }
{
    let forms = match next_forms(alloc, controller.plant(), law) {
        Ok(forms) => forms,
        Err(StageError::TooWide) => {
            return Err(Stop::Wide(Next {
                leaf,
                target: Target::Low(1),
            }));
        }
        Err(StageError::OutOfMemory) => return Err(Stop::NoMemory),
    };
    let system = leaf_system(alloc, limits, controller.tree(), way)?;
    let base = Base::of(alloc, system)?;
    let mut work = Workspace::new(alloc);
    match rule_out_sides(alloc, &mut work, &base, limits, forms.as_slice(), leaf) {
        Ok(()) => {
            let met = Met::new(alloc, forms, work)?;
            rule_out_empties(alloc, controller, &base, met, leaf, end)
        }
        Err(stop) => Err(stop),
    }
}
