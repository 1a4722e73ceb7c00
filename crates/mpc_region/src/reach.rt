//! Whether a set can be reached.

ghost use Rattle.std.specs.Prelude.{◌-◌, ◌<◌, IsTrue, ◌↔◌, IfOk, IfSome, MatchResult, length, take};
ghost use Rattle.mpc_space.specs.Matrix.{height};
ghost use Rattle.mpc_sets.specs.RowSet.{IsSetOfRows};
ghost use Rattle.mpc_rows.specs.RunWidth.{RunFits};
ghost use Rattle.mpc_rows.specs.ActiveSets.{IsReachable};
ghost use Rattle.mpc_rows.specs.SetRuns.{reach_system};
ghost use Rattle.mpc_simplex.specs.Answer.{HasPoint, IfWide};
ghost use Rattle.mpc_region.specs.Kept.{IsKept, IsReachRun};

use crate::kept::{Kept, joint_place, turn_to};
use crate::points::has_point;
use mpc_frac::NoMemory;
use mpc_rows::{Qp, law_theorems, region_theorems};
use mpc_sets::ActiveSet;
use mpc_simplex::{Beginning, SimplexError, Workspace};
use mpc_systems::reach_system;
use std::alloc::Global;

/// Whether the set's system has a point, by a run of its own.
fn is_reachable_anew(alloc: Global, qp: &Qp, set: ActiveSet) -> Result<bool, SimplexError>
    requires { IsSetOfRows (height qp.now.g) set }
    ensures answer { IfOk result (λ yes. IsTrue yes ↔ IsReachable qp.now set) }
    ensures wide { MatchResult result (λ _. RunFits (reach_system qp.now set)) (λ e. IfWide e (¬ RunFits (reach_system qp.now set))) }
{
    region_theorems();
    let Ok(system) = reach_system(alloc, qp, set) else {
        return Err(SimplexError::NoMemory);
    };
    has_point(alloc, &system)
}

/// The same of the set without members by the run that is kept for it, and where none is, by a run of its
/// own.
fn is_reachable_by(
    alloc: Global,
    qp: &Qp,
    set: ActiveSet,
    run: &Option<Beginning>,
) -> Result<bool, SimplexError>
    requires set_of_rows { IsSetOfRows (height qp.now.g) set }
    requires run { IsReachRun qp.now set run.now }
    ensures answer { IfOk result (λ yes. IsTrue yes ↔ IsReachable qp.now set) }
    ensures wide { MatchResult result (λ _. RunFits (reach_system qp.now set)) (λ e. IfWide e (¬ RunFits (reach_system qp.now set))) }
{
    region_theorems();
    match run {
        Some(run) => Ok(run.has_point()),
        None => is_reachable_anew(alloc, qp, set),
    }
}

/// Whether the set's system has a point, by the run that is kept for the set without its last member.
/// Nothing where that doesn't serve.
fn last_meets(
    alloc: Global,
    qp: &Qp,
    work: &mut Workspace,
    set: ActiveSet,
    before: &Option<Beginning>,
) -> Result<Option<bool>, NoMemory>
    requires set_of_rows { IsSetOfRows (height qp.now.g) set }
    requires some { 0 < length set }
    requires before { IsReachRun qp.now (take (length set - 1) set) before.now }
    ensures answer { IfOk result (λ o. IfSome o (λ yes. IsTrue yes ↔ HasPoint (reach_system qp.now set))) }
    ensures fits { IfOk result (λ o. IfSome o (λ _. RunFits (reach_system qp.now set))) }
{
    law_theorems();
    prove!(0 < set.size());
    let Some(run) = before else {
        return Ok(None);
    };
    let place = joint_place(qp, set.member(set.size()));
    run.meets_turned(alloc, work, place)
}

/// Whether the set can be reached, by the run that is kept for the set without its last member, and where
/// that doesn't serve by a run of its own.
fn is_reachable_from(
    alloc: Global,
    qp: &Qp,
    work: &mut Workspace,
    set: ActiveSet,
    before: &Option<Beginning>,
) -> Result<bool, SimplexError>
    requires set_of_rows { IsSetOfRows (height qp.now.g) set }
    requires some { 0 < length set }
    requires before { IsReachRun qp.now (take (length set - 1) set) before.now }
    ensures answer { IfOk result (λ yes. IsTrue yes ↔ IsReachable qp.now set) }
    ensures wide { MatchResult result (λ _. RunFits (reach_system qp.now set)) (λ e. IfWide e (¬ RunFits (reach_system qp.now set))) }
{
    region_theorems();
    match last_meets(alloc, qp, work, set, before) {
        Ok(Some(yes)) => Ok(yes),
        Ok(None) => is_reachable_anew(alloc, qp, set),
        Err(NoMemory) => Err(SimplexError::NoMemory),
    }
}

/// Whether some state of the box and some unknowns satisfy all rows, those of the set with equality.
pub fn is_reachable(
    alloc: Global,
    qp: &Qp,
    kept: &mut Kept,
    set: ActiveSet,
) -> Result<bool, SimplexError>
    requires set_of_rows { IsSetOfRows (height qp.now.g) set }
    requires kept { IsKept qp.now kept.old }
    ensures kept { IsKept qp.now kept.new }
    ensures answer { IfOk result (λ yes. IsTrue yes ↔ IsReachable qp.now set) }
    ensures wide { MatchResult result (λ _. RunFits (reach_system qp.now set)) (λ e. IfWide e (¬ RunFits (reach_system qp.now set))) }
{
    let Ok(()) = turn_to(alloc, qp, kept, set) else {
        return Err(SimplexError::NoMemory);
    };
    let size = set.size() as usize;
    if size == 0 {
        return is_reachable_by(alloc, qp, set, &kept.reaches[0]);
    }
    is_reachable_from(alloc, qp, &mut kept.work, set, &kept.reaches[size - 1])
}
