//! The test whether a step leads to a target.

ghost use Rattle.std.specs.Prelude.{◌≡◌, ◌+◌, ◌∷◌, [], ◌≤◌, All, MatchResult, OnOk, length, map};
ghost use Rattle.mpc_recur.specs.Forms.{low_row, high_row, substituted, HighFits, SubstitutedFits};
ghost use Rattle.mpc_recur.specs.Findings.{IsRuledOut, TargetFinds, IsStop};
ghost use Rattle.mpc_recur.specs.Met.{AreMet};
ghost use Rattle.mpc_recur.specs.Targets.{with_rows};
ghost use Rattle.mpc_controller.specs.Ways.{HasSplitRow, IsTurn, way_rows};

use crate::answers::{Next, StageError, Stop};
use crate::bases::{Base, TargetRows};
use crate::met::Met;
use crate::rows::{high_row, low_row};
use mpc_controller::Turn;
use mpc_linear::Vector;
use mpc_rows::{Row, Tree};
use mpc_simplex::{Decision, SimplexError, Workspace, decide};
use std::alloc::Global;

/// Goes on where no point of the leaf meets the target's rows.
fn rule_out(
    alloc: Global,
    work: &mut Workspace,
    base: &Base,
    rows: &TargetRows,
    one: Next,
) -> Result<(), Stop>
    requires { rows.now.width ≡ base.now.width }
    ensures { MatchResult result (λ _. IsRuledOut (Unit {0}) (with_rows base.now rows.now.rows))
        (IsStop (TargetFinds (Unit {0}) (with_rows base.now rows.now.rows) one)) }
{
    if base.rules_out(alloc, work, rows)? {
        return Ok(());
    }
    let system = base.with(alloc, rows)?;
    match decide(alloc, &system) {
        Ok(Decision::Refuted(_)) => Ok(()),
        Ok(Decision::Point(point)) => Err(Stop::Reached(one, point)),
        Err(SimplexError::Wide) => Err(Stop::Wide(one)),
        Err(SimplexError::NoMemory) => Err(Stop::NoMemory),
    }
}

/// Goes on where no point of the leaf meets the row.
fn rule_out_row(
    alloc: Global,
    work: &mut Workspace,
    base: &Base,
    row: Row,
    one: Next,
) -> Result<(), Stop>
    requires { length row.a ≡ base.now.width }
    ensures { MatchResult result (λ _. IsRuledOut (Unit {0}) (with_rows base.now (row ∷ [])))
        (IsStop (TargetFinds (Unit {0}) (with_rows base.now (row ∷ [])) one)) }
{
    let mut rows = TargetRows::new(alloc, base.width())?;
    rows.push(row)?;
    rule_out(alloc, work, base, &rows, one)
}

/// Goes on where no step leads below a coordinate of the box, whose form this is.
pub fn rule_out_low(
    alloc: Global,
    work: &mut Workspace,
    base: &Base,
    form: &Vector,
    one: Next,
) -> Result<(), Stop>
    requires { length form.now ≡ base.now.width + 1 }
    ensures { MatchResult result (λ _. IsRuledOut (Unit {0}) (with_rows base.now (low_row form.now ∷ [])))
        (IsStop (TargetFinds (Unit {0}) (with_rows base.now (low_row form.now ∷ [])) one)) }
{
    let row = low_row(alloc, form)?;
    rule_out_row(alloc, work, base, row, one)
}

/// Goes on where no step leads above a coordinate of the box, whose form and count these are.
pub fn rule_out_high(
    alloc: Global,
    work: &mut Workspace,
    base: &Base,
    form: &Vector,
    count: u64,
    one: Next,
) -> Result<(), Stop>
    requires { length form.now ≡ base.now.width + 1 }
    ensures { MatchResult result (λ _. IsRuledOut (HighFits form.now count) (with_rows base.now (high_row form.now count ∷ [])))
        (IsStop (TargetFinds (HighFits form.now count) (with_rows base.now (high_row form.now count ∷ [])) one)) }
{
    match high_row(alloc, form, count) {
        Ok(row) => rule_out_row(alloc, work, base, row, one),
        Err(StageError::TooWide) => Err(Stop::Wide(one)),
        Err(StageError::OutOfMemory) => Err(Stop::NoMemory),
    }
}

/// Goes on where no step leads to a leaf without a law, to which this way leads.
pub fn rule_out_leaf(
    alloc: Global,
    base: &Base,
    met: &mut Met,
    tree: &Tree,
    way: &[Turn],
    one: Next,
) -> Result<(), Stop>
    requires few { length met.old.forms.items ≤ 4 }
    requires width { base.now.width ≡ length met.old.forms.items }
    requires affine { All (λ form. length form ≡ length met.old.forms.items + 1) met.old.forms.items }
    requires met { AreMet tree.now met.old.forms.items met.old.turns.items met.old.rows }
    requires way { All (IsTurn tree.now) way.now }
    requires splits { All (HasSplitRow (length met.old.forms.items)) tree.now }
    ensures forms { OnOk result (met.new.forms.items ≡ met.old.forms.items) }
    ensures met { OnOk result (AreMet tree.now met.old.forms.items met.new.turns.items met.new.rows) }
    ensures found { let forms = met.old.forms.items in
        let forming = All (SubstitutedFits (length forms) forms) (way_rows tree.now way.now) in
        let s = with_rows base.now (map (substituted (length forms) forms) (way_rows tree.now way.now)) in
        MatchResult result (λ _. IsRuledOut forming s) (IsStop (TargetFinds forming s one)) }
{
    match met.follow(alloc, tree, way) {
        Ok(()) => rule_out(alloc, &mut met.work, base, &met.rows, one),
        Err(StageError::TooWide) => Err(Stop::Wide(one)),
        Err(StageError::OutOfMemory) => Err(Stop::NoMemory),
    }
}
