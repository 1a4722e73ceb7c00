//! Whether the region of a law has a state of the box.

ghost use Rattle.std.specs.Prelude.{◌≡◌, [], IsTrue, ◌↔◌, IfOk, IfSome, MatchResult, length};
ghost use Rattle.mpc_space.specs.Matrix.{height};
ghost use Rattle.mpc_linear.specs.Answers.{IfWide as IfWideStep};
ghost use Rattle.mpc_rows.specs.Laws.{HasLawShape, IsLaw, HasRegion};
ghost use Rattle.mpc_rows.specs.LawRows.{AreLawRows};
ghost use Rattle.mpc_rows.specs.RunWidth.{RunFits};
ghost use Rattle.mpc_rows.specs.SetRuns.{RegionFits, LawRowsFit, region_system};
ghost use Rattle.mpc_rows.specs.Verdicts.{IsFirstWideRow};
ghost use Rattle.mpc_beginnings.specs.Beginnings.{lengthened};
ghost use Rattle.mpc_simplex.specs.Answer.{IfWide, HasPoint};
ghost use Rattle.mpc_region.specs.Kept.{IsKept};
ghost use Rattle.mpc_systems.specs.Writing.{AreOfSize};

use crate::kept::Kept;
use crate::points::has_point;
use mpc_frac::NoMemory;
use mpc_linear::{LinearError, RowInt};
use mpc_rows::{Law, Qp, law_row, law_theorems, region_theorems};
use mpc_scaled::WholeSystem;
use mpc_simplex::SimplexError;
use mpc_systems::region_system;
use std::alloc::Global;

/// All rows of a law, in their order. `Wide` with the number, from 1, of the first row with a
/// number that needs more than 128 bits.
pub fn law_rows(alloc: Global, qp: &Qp, law: &Law) -> Result<Vec<RowInt>, LinearError>
    requires { HasLawShape qp.now law.now }
    ensures rows { IfOk result (λ rows. AreLawRows qp.now law.now rows.items) }
    ensures size { IfOk result (λ rows. AreOfSize (length qp.now.counts) rows.items) }
    ensures wide { MatchResult result (λ _. LawRowsFit qp.now law.now (height qp.now.g))
        (λ e. IfWideStep e (λ i. IsFirstWideRow qp.now i law.now)) }
{
    let mut rows = Vec::new(alloc);
    for number in 1..qp.g.rows() + 1 {
        match law_row(alloc, qp, law, number) {
            Ok(row) => rows.push(row)?,
            Err(LinearError::Wide(_)) => return Err(LinearError::Wide(number)),
            Err(LinearError::NoMemory) => return Err(LinearError::NoMemory),
        }
    }
    Ok(rows)
}

/// Whether the law's region has a state of the box, by a run of its own.
pub fn has_region_anew(
    alloc: Global,
    qp: &Qp,
    law: &Law,
    rows: &[RowInt],
) -> Result<bool, SimplexError>
    requires law { IsLaw qp.now law.now }
    requires rows { AreLawRows qp.now law.now rows.now }
    requires size { AreOfSize (length qp.now.counts) rows.now }
    ensures answer { IfOk result (λ yes. IsTrue yes ↔ HasRegion qp.now law.now) }
    ensures wide { MatchResult result (λ _. RegionFits qp.now law.now) (λ e. IfWide e (¬ RegionFits qp.now law.now)) }
{
    region_theorems();
    law_theorems();
    let Ok(system) = region_system(alloc, qp, rows) else {
        return Err(SimplexError::NoMemory);
    };
    has_point(alloc, &system)
}

/// Whether the rows of a system have a point in the box, by the run of the box that is kept. Nothing
/// where that doesn't serve.
pub fn meets_box(
    alloc: Global,
    _qp: &Qp,
    kept: &mut Kept,
    rows: &WholeSystem,
) -> Result<Option<bool>, NoMemory>
    requires kept { IsKept _qp.now kept.old }
    requires width { rows.now.width ≡ length _qp.now.counts }
    ensures kept { IsKept _qp.now kept.new }
    ensures answer { IfOk result (λ o. IfSome o (λ yes. IsTrue yes ↔ HasPoint (lengthened (region_system _qp.now []) rows.now.rows))) }
    ensures fits { IfOk result (λ o. IfSome o (λ _. RunFits (lengthened (region_system _qp.now []) rows.now.rows))) }
{
    match &kept.states {
        Some(run) => {
            run.open(alloc, &mut kept.work)?;
            run.meets(alloc, &mut kept.work, rows)
        }
        None => Ok(None),
    }
}

/// Whether the rows have a point in the box, by the run of the box that is kept. Nothing where that
/// doesn't serve.
pub fn rows_meet_box(
    alloc: Global,
    qp: &Qp,
    kept: &mut Kept,
    rows: &[RowInt],
) -> Result<Option<bool>, NoMemory>
    requires kept { IsKept qp.now kept.old }
    requires size { AreOfSize (length qp.now.counts) rows.now }
    ensures kept { IsKept qp.now kept.new }
    ensures answer { IfOk result (λ o. IfSome o (λ yes. IsTrue yes ↔ HasPoint (region_system qp.now rows.now))) }
    ensures fits { IfOk result (λ o. IfSome o (λ _. RunFits (region_system qp.now rows.now))) }
{
    match WholeSystem::of_rows(alloc, qp.counts.len() as u32, rows)? {
        Some(whole) => {
            let met = meets_box(alloc, qp, kept, &whole);
            drop(whole);
            met
        }
        None => Ok(None),
    }
}
