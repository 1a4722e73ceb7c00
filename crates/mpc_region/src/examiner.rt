//! Sets of one program, one after another.

ghost use Rattle.std.specs.Prelude.{◌≡◌, ◌≤◌, IfOk, length};
ghost use Rattle.mpc_space.specs.Definite.{IsDefinite};
ghost use Rattle.mpc_space.specs.Matrix.{height};
ghost use Rattle.mpc_sets.specs.RowSet.{IsSetOfRows};
ghost use Rattle.mpc_rows.specs.Verdicts.{IsRight};

use crate::kept::{Kept, kept_of};
use crate::shared::Shared;
use crate::sweeps::{Sweeps, begin, no_sweeps};
use crate::verdicts::verdict_on;
use mpc_frac::NoMemory;
use mpc_rows::{Judged, Qp};
use mpc_sets::ActiveSet;
use std::alloc::Global;
use std::marker::Model;

/// Gives verdicts on the sets of one program. Contracts see the program.
///
/// It keeps the swept tables and the runs of the last set's beginnings, so a set that begins as the last
/// one did takes the steps of its further members alone. In any other order of sets the verdicts are the
/// same.
#[derive(Drop)]
pub struct Examiner<'a> {
    qp: &'a Qp,
    sweeps: Sweeps,
    shared: Shared,
    kept: Kept,
}

impl<'a> Model for Examiner<'a> {
    ghost use Rattle.mpc_rows.specs.declared.programs.Qp.{Qp};

    ghost Value = { Qp };

    ghost view = { λ e. e.qp.now };

    ghost use Rattle.mpc_region.specs.Kept.{IsKept};
    ghost use Rattle.mpc_region.specs.Shared.{IsSharedBySets};
    ghost use Rattle.mpc_region.specs.SweptSets.{AreSweeps};

    ghost invariant = { λ e. AreSweeps e.qp.now e.sweeps × IsSharedBySets e.qp.now e.shared × IsKept e.qp.now e.kept };
}

impl<'a> Examiner<'a> {
    /// An examiner of the program, before its first set. Refused memory is the only error.
    pub fn begin(alloc: Global, qp: &'a Qp) -> Result<Examiner<'a>, NoMemory>
        ensures { IfOk result (λ examiner. examiner ≡ qp.now) }
    {
        let sweeps = begin(alloc, qp)?;
        let kept = kept_of(alloc, qp)?;
        let shared = Shared {
            table: None,
            is_formed: false,
        };
        Ok(Examiner {
            qp,
            sweeps,
            shared,
            kept,
        })
    }

    /// An examiner for one set, which makes no table. Refused memory is the only error.
    pub(crate) fn once(alloc: Global, qp: &'a Qp) -> Result<Examiner<'a>, NoMemory>
        ensures { IfOk result (λ examiner. examiner ≡ qp.now) }
    {
        let kept = kept_of(alloc, qp)?;
        Ok(Examiner {
            qp,
            sweeps: no_sweeps(alloc),
            shared: Shared {
                table: None,
                is_formed: true,
            },
            kept,
        })
    }

    /// The verdict on an active set of the program, as [`examine`](crate::examine) gives it. Refused
    /// memory is the only error, and the examiner serves on after it.
    pub fn examine(&mut self, alloc: Global, set: ActiveSet) -> Result<Judged, NoMemory>
        requires definite { IsDefinite self.old.h.rows }
        requires set_of_rows { IsSetOfRows (height self.old.g) set }
        requires few { length set ≤ height self.old.h }
        ensures program { self.new ≡ self.old }
        ensures set { IfOk result (λ j. j.set ≡ set) }
        ensures right { IfOk result (λ j. IsRight self.old set j.verdict) }
    {
        let verdict = verdict_on(
            alloc,
            self.qp,
            &mut self.sweeps,
            &mut self.shared,
            &mut self.kept,
            set,
        )?;
        Ok(Judged::of(set, verdict))
    }
}
