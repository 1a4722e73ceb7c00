//! The verdict on one active set.

ghost use Rattle.std.specs.Prelude.{◌≤◌, IfOk, length};
ghost use Rattle.mpc_space.specs.Definite.{IsDefinite};
ghost use Rattle.mpc_space.specs.Matrix.{height};
ghost use Rattle.mpc_sets.specs.RowSet.{IsSetOfRows};
ghost use Rattle.mpc_rows.specs.Candidates.{CanGrow};
ghost use Rattle.mpc_rows.specs.LawRows.{AreLawRows};
ghost use Rattle.mpc_rows.specs.Laws.{IsLaw};
ghost use Rattle.mpc_rows.specs.SetRuns.{LawRowsFit};
ghost use Rattle.mpc_rows.specs.Verdicts.{IsRight, ReachFits};
ghost use Rattle.mpc_region.specs.Asked.{IsAsked, AreTablesFor, IsReached};
ghost use Rattle.mpc_region.specs.Kept.{IsKept};
ghost use Rattle.mpc_region.specs.LawEnd.{IsLawOfSet};
ghost use Rattle.mpc_region.specs.Shared.{IsSharedBySets};
ghost use Rattle.mpc_region.specs.Sweeps.{IsTableOf, rights, swept_law};
ghost use Rattle.mpc_region.specs.SweptSets.{AreSweeps};
ghost use Rattle.mpc_systems.specs.Writing.{AreOfSize};

use crate::kept::Kept;
use crate::law::{LawEnd, law_of};
use crate::reach::is_reachable;
use crate::region::{has_region_anew, law_rows, meets_box, rows_meet_box};
use crate::rows::{LawLines, fill_rows, law_of_table};
use crate::shared::Shared;
use crate::sweeps::{Sweeps, SweptEnd, last_table, swept_end};
use mpc_frac::NoMemory;
use mpc_linear::{LinearError, RowInt};
use mpc_rows::{Law, Place, Qp, Verdict, law_theorems, region_theorems};
use mpc_sets::ActiveSet;
use mpc_simplex::SimplexError;
use mpc_sweep::Swept;
use std::alloc::Global;

/// The verdict on a set that can grow, by a run of its own for the region of its law.
fn by_run(alloc: Global, qp: &Qp, law: Law, rows: &[RowInt]) -> Result<Verdict, NoMemory>
    requires law { IsLaw qp.now law }
    requires grows { CanGrow qp.now law.set }
    requires reach_fits { ReachFits qp.now law.set }
    requires rows_fit { LawRowsFit qp.now law (height qp.now.g) }
    requires rows { AreLawRows qp.now law rows.now }
    requires size { AreOfSize (length qp.now.counts) rows.now }
    ensures { IfOk result (IsRight qp.now law.set) }
{
    match has_region_anew(alloc, qp, &law, rows) {
        Ok(true) => Ok(Verdict::Region(law)),
        Ok(false) => Ok(Verdict::Hollow),
        Err(SimplexError::Wide) => Ok(Verdict::Wide(Place::Region(law.set))),
        Err(SimplexError::NoMemory) => Err(NoMemory),
    }
}

/// The verdict on a set that can grow, by a run of its own for the region of its law, of whose rows
/// none is too wide.
fn by_rows(alloc: Global, qp: &Qp, law: Law) -> Result<Verdict, NoMemory>
    requires law { IsLaw qp.now law }
    requires grows { CanGrow qp.now law.set }
    requires reach_fits { ReachFits qp.now law.set }
    requires rows_fit { LawRowsFit qp.now law (height qp.now.g) }
    ensures { IfOk result (IsRight qp.now law.set) }
{
    match law_rows(alloc, qp, &law) {
        Ok(rows) => by_run(alloc, qp, law, &rows),
        Err(LinearError::Wide(_)) => unreachable!(),
        Err(LinearError::NoMemory) => Err(NoMemory),
    }
}

/// The verdict on a set that can grow, by the rows of its law.
fn by_region(
    alloc: Global,
    qp: &Qp,
    kept: &mut Kept,
    law: Law,
    rows: &[RowInt],
) -> Result<Verdict, NoMemory>
    requires law { IsLaw qp.now law }
    requires grows { CanGrow qp.now law.set }
    requires reach_fits { ReachFits qp.now law.set }
    requires rows_fit { LawRowsFit qp.now law (height qp.now.g) }
    requires rows { AreLawRows qp.now law rows.now }
    requires size { AreOfSize (length qp.now.counts) rows.now }
    requires kept { IsKept qp.now kept.old }
    ensures kept { IsKept qp.now kept.new }
    ensures right { IfOk result (IsRight qp.now law.set) }
{
    region_theorems();
    law_theorems();
    match rows_meet_box(alloc, qp, kept, rows)? {
        Some(true) => Ok(Verdict::Region(law)),
        Some(false) => Ok(Verdict::Hollow),
        None => by_run(alloc, qp, law, rows),
    }
}

/// The verdict on a set that can grow, by its law.
fn by_law(alloc: Global, qp: &Qp, kept: &mut Kept, law: Law) -> Result<Verdict, NoMemory>
    requires law { IsLaw qp.now law }
    requires grows { CanGrow qp.now law.set }
    requires reach_fits { ReachFits qp.now law.set }
    requires kept { IsKept qp.now kept.old }
    ensures kept { IsKept qp.now kept.new }
    ensures right { IfOk result (IsRight qp.now law.set) }
{
    match law_rows(alloc, qp, &law) {
        Ok(rows) => {
            let verdict = by_region(alloc, qp, kept, law, &rows);
            drop(rows);
            verdict
        }
        Err(LinearError::Wide(i)) => Ok(Verdict::Wide(Place::Border(law.set, i))),
        Err(LinearError::NoMemory) => Err(NoMemory),
    }
}

/// The verdict on an independent set, by its law.
fn by_reach(alloc: Global, qp: &Qp, kept: &mut Kept, law: Law) -> Result<Verdict, NoMemory>
    requires law { IsLawOfSet qp.now law.set law }
    requires kept { IsKept qp.now kept.old }
    ensures kept { IsKept qp.now kept.new }
    ensures right { IfOk result (IsRight qp.now law.set) }
{
    match is_reachable(alloc, qp, kept, law.set) {
        Ok(true) => by_law(alloc, qp, kept, law),
        Ok(false) => Ok(Verdict::Unreachable),
        Err(SimplexError::Wide) => Ok(Verdict::Wide(Place::Reach(law.set))),
        Err(SimplexError::NoMemory) => Err(NoMemory),
    }
}

/// The verdict on a set, by an elimination of its equations in fractions.
fn by_fractions(
    alloc: Global,
    qp: &Qp,
    shared: &mut Shared,
    kept: &mut Kept,
    set: ActiveSet,
) -> Result<Verdict, NoMemory>
    requires definite { IsDefinite qp.now.h.rows }
    requires shared { IsSharedBySets qp.now shared.old }
    requires set_of_rows { IsSetOfRows (height qp.now.g) set }
    requires few { length set ≤ height qp.now.h }
    requires kept { IsKept qp.now kept.old }
    ensures shared { IsSharedBySets qp.now shared.new }
    ensures kept { IsKept qp.now kept.new }
    ensures right { IfOk result (IsRight qp.now set) }
{
    match law_of(alloc, qp, shared, set)? {
        LawEnd::Dependent => Ok(Verdict::Dependent),
        LawEnd::Wide => Ok(Verdict::Wide(Place::Law(set))),
        LawEnd::Found(law) => by_reach(alloc, qp, kept, law),
    }
}

/// The verdict on a set that can grow, by the table that shows its law. Only a law that has a region is
/// written out.
fn by_table(
    alloc: Global,
    qp: &Qp,
    table: &Swept,
    lines: &mut LawLines,
    kept: &mut Kept,
    set: ActiveSet,
) -> Result<Verdict, NoMemory>
    requires set_of_rows { IsSetOfRows (height qp.now.g) set }
    requires table { IsTableOf qp.now set (rights qp.now) table.now }
    requires law { IsLaw qp.now (swept_law qp.now set) }
    requires grows { CanGrow qp.now set }
    requires reach_fits { ReachFits qp.now set }
    requires kept { IsKept qp.now kept.old }
    ensures kept { IsKept qp.now kept.new }
    ensures right { IfOk result (IsRight qp.now set) }
{
    region_theorems();
    law_theorems();
    if kept.refuters.refute(qp, table, set) {
        return Ok(Verdict::Hollow);
    }
    fill_rows(qp, table, set, lines)?;
    match meets_box(alloc, qp, kept, &lines.rows)? {
        Some(true) => Ok(Verdict::Region(law_of_table(alloc, qp, table, set)?)),
        Some(false) => {
            kept.refuters.note(&kept.work, qp.counts.len())?;
            Ok(Verdict::Hollow)
        }
        None => by_rows(alloc, qp, law_of_table(alloc, qp, table, set)?),
    }
}

/// The verdict on a set that can grow, by an elimination of its equations in fractions, which gives its law.
fn by_law_anew(
    alloc: Global,
    qp: &Qp,
    shared: &mut Shared,
    kept: &mut Kept,
    set: ActiveSet,
) -> Result<Verdict, NoMemory>
    requires definite { IsDefinite qp.now.h.rows }
    requires shared { IsSharedBySets qp.now shared.old }
    requires set_of_rows { IsSetOfRows (height qp.now.g) set }
    requires few { length set ≤ height qp.now.h }
    requires grows { CanGrow qp.now set }
    requires reach_fits { ReachFits qp.now set }
    requires kept { IsKept qp.now kept.old }
    ensures shared { IsSharedBySets qp.now shared.new }
    ensures kept { IsKept qp.now kept.new }
    ensures right { IfOk result (IsRight qp.now set) }
{
    match law_of(alloc, qp, shared, set)? {
        LawEnd::Found(law) => by_law(alloc, qp, kept, law),
        LawEnd::Dependent => unreachable!(),
        LawEnd::Wide => unreachable!(),
    }
}

/// The verdict on a set that can grow, by the table of the whole set, and where whole numbers don't serve for that, in fractions.
fn by_whole_table(
    alloc: Global,
    qp: &Qp,
    sweeps: &mut Sweeps,
    shared: &mut Shared,
    kept: &mut Kept,
    set: ActiveSet,
) -> Result<Verdict, NoMemory>
    requires asked { IsAsked qp.now set }
    requires tables { AreTablesFor qp.now set sweeps.old }
    requires shared { IsSharedBySets qp.now shared.old }
    requires reached { IsReached qp.now set }
    requires kept { IsKept qp.now kept.old }
    ensures sweeps { AreSweeps qp.now sweeps.new }
    ensures shared { IsSharedBySets qp.now shared.new }
    ensures kept { IsKept qp.now kept.new }
    ensures right { IfOk result (IsRight qp.now set) }
{
    if set.size() == 0 {
        return by_table(alloc, qp, &sweeps.tables[0], &mut sweeps.lines, kept, set);
    }
    if last_table(qp, sweeps)? {
        by_table(alloc, qp, &sweeps.last, &mut sweeps.lines, kept, set)
    } else {
        by_law_anew(alloc, qp, shared, kept, set)
    }
}

/// The verdict on an independent set whose law the tables show. Its own table is formed only if the set can be reached.
fn by_tables(
    alloc: Global,
    qp: &Qp,
    sweeps: &mut Sweeps,
    shared: &mut Shared,
    kept: &mut Kept,
    set: ActiveSet,
) -> Result<Verdict, NoMemory>
    requires asked { IsAsked qp.now set }
    requires tables { AreTablesFor qp.now set sweeps.old }
    requires shared { IsSharedBySets qp.now shared.old }
    requires law { IsLawOfSet qp.now set (swept_law qp.now set) }
    requires kept { IsKept qp.now kept.old }
    ensures sweeps { AreSweeps qp.now sweeps.new }
    ensures shared { IsSharedBySets qp.now shared.new }
    ensures kept { IsKept qp.now kept.new }
    ensures right { IfOk result (IsRight qp.now set) }
{
    match is_reachable(alloc, qp, kept, set) {
        Ok(true) => by_whole_table(alloc, qp, sweeps, shared, kept, set),
        Ok(false) => Ok(Verdict::Unreachable),
        Err(SimplexError::Wide) => Ok(Verdict::Wide(Place::Reach(set))),
        Err(SimplexError::NoMemory) => Err(NoMemory),
    }
}

/// The verdict on a set. Its runs stand in the order law, reach, rows of the law, region; none
/// begins after the first that decides or is wide.
pub fn verdict_on(
    alloc: Global,
    qp: &Qp,
    sweeps: &mut Sweeps,
    shared: &mut Shared,
    kept: &mut Kept,
    set: ActiveSet,
) -> Result<Verdict, NoMemory>
    requires definite { IsDefinite qp.now.h.rows }
    requires sweeps { AreSweeps qp.now sweeps.old }
    requires shared { IsSharedBySets qp.now shared.old }
    requires set_of_rows { IsSetOfRows (height qp.now.g) set }
    requires few { length set ≤ height qp.now.h }
    requires kept { IsKept qp.now kept.old }
    ensures sweeps { AreSweeps qp.now sweeps.new }
    ensures shared { IsSharedBySets qp.now shared.new }
    ensures kept { IsKept qp.now kept.new }
    ensures right { IfOk result (IsRight qp.now set) }
{
    match swept_end(alloc, qp, sweeps, set)? {
        Some(SweptEnd::Dependent) => Ok(Verdict::Dependent),
        Some(SweptEnd::Law) => by_tables(alloc, qp, sweeps, shared, kept, set),
        None => by_fractions(alloc, qp, shared, kept, set),
    }
}
