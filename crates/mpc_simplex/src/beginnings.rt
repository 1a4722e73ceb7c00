//! Runs that are kept where they end, for systems with further rows.

ghost use Rattle.std.specs.Prelude.{◌≡◌, ◌<◌, ◌↔◌, ◌∷◌, [], Contains, IsTrue, IfOk, IfSome, length};
ghost use Rattle.mpc_linear.specs.declared.integers.RowInt.{RowInt};
ghost use Rattle.mpc_rows.specs.LinearSystem.{IsPairPoint, height, row_at};
ghost use Rattle.mpc_rows.specs.LawRows.{whole_row, broken_row};
ghost use Rattle.mpc_rows.specs.SetRuns.{turned};
ghost use Rattle.mpc_rows.specs.Refutation.{Refutes};
ghost use Rattle.mpc_rows.specs.RunWidth.{RunFits};
ghost use Rattle.mpc_runs.specs.RunEnd.{IsEnd};
ghost use Rattle.mpc_simplex.specs.Answer.{IfPoint, IfRefuted, HasPoint, IsRunEnd, EndsRefuted};
ghost use Rattle.mpc_simplex.specs.Broken.{IfBroken, IfUnbroken};
ghost use Rattle.mpc_simplex.specs.Misses.{IfMet, IfMissed, MissesFrom};
ghost use Rattle.mpc_beginnings.specs.Beginnings.{lengthened};
ghost use Rattle.mpc_beginnings.specs.Open.{IsOpenFor};

use crate::Decision;
use mpc_beginnings::{Broken as KeptBroken, KeptRun, Meeting, Workspace};
use mpc_frac::NoMemory;
use mpc_linear::RowInt;
use mpc_rows::{Multipliers, Row, System, system_theorems};
use mpc_runs::End;
use mpc_scaled::WholeSystem;
use std::alloc::Global;
use std::marker::Model;

/// A system whose run in whole numbers is kept where it ends: the run of a system with further rows
/// behind its own goes on from there.
#[derive(Drop)]
pub struct Beginning {
    run: KeptRun,
}

impl Model for Beginning {
    ghost use Rattle.mpc_rows.specs.LinearSystem.{LinearSystem, HasWidth};

    ghost Value = { LinearSystem };

    ghost view = { λ b. b.run };

    ghost invariant = { λ b. HasWidth b.run.width b.run.rows };
}

/// What a system with a row behind that is met where another fails is found to have.
#[derive(Drop)]
pub enum Broken {
    /// A point, where the other row fails. The run comes with it, kept where it ends.
    Point(Beginning),
    /// No point, as these multipliers show.
    Refuted(Multipliers),
}

impl Beginning {
    /// The run of the system, kept where it ends. Nothing where whole numbers don't serve for it.
    pub fn begin(alloc: Global, system: &System) -> Result<Option<Beginning>, NoMemory>
        ensures { IfOk result (λ o. IfSome o (λ b. b ≡ system.now)) }
    {
        let _ = &system.rows;
        let Some(whole) = WholeSystem::read(alloc, system)? else {
            return Ok(None);
        };
        let mut work = Workspace::new(alloc);
        match KeptRun::begin(alloc, &mut work, whole)? {
            Some(run) => Ok(Some(Beginning { run })),
            None => Ok(None),
        }
    }

    /// The run of the system with one more row, kept where it ends. It goes on from where this one
    /// ended. Nothing where whole numbers don't serve for it.
    pub fn extend(&self, alloc: Global, row: &Row) -> Result<Option<Beginning>, NoMemory>
        requires { length row.now.a ≡ self.now.width }
        ensures { IfOk result (λ o. IfSome o (λ b. b ≡ lengthened self.now (row.now ∷ []))) }
    {
        let mut work = Workspace::new(alloc);
        self.extend_in(alloc, &mut work, row)
    }

    /// The same in lists that the workspace has.
    fn extend_in(
        &self,
        alloc: Global,
        work: &mut Workspace,
        row: &Row,
    ) -> Result<Option<Beginning>, NoMemory>
        requires { length row.now.a ≡ self.now.width }
        ensures { IfOk result (λ o. IfSome o (λ b. b ≡ lengthened self.now (row.now ∷ []))) }
    {
        match self.run.extend(alloc, work, row)? {
            Some(run) => Ok(Some(Beginning { run })),
            None => Ok(None),
        }
    }

    /// The run of the system with its row at the index, from 0, the other way round behind its own, kept where it
    /// ends. It goes on from where this one ended, and no fraction is read. Nothing where whole numbers
    /// don't serve for it.
    pub fn extend_turned(
        &self,
        alloc: Global,
        work: &mut Workspace,
        index: usize,
    ) -> Result<Option<Beginning>, NoMemory>
        requires { index < height self.now }
        ensures { IfOk result (λ o. IfSome o (λ b. b ≡ lengthened self.now (turned (row_at self.now index) ∷ []))) }
    {
        match self.run.extend_turned(alloc, work, index)? {
            Some(run) => Ok(Some(Beginning { run })),
            None => Ok(None),
        }
    }

    /// Whether the system with its row at the index, from 0, the other way round behind its own has a point. No
    /// fraction is read, and nothing is kept. Nothing where whole numbers don't serve for its run, and
    /// else no number of that is too wide.
    pub fn meets_turned(
        &self,
        alloc: Global,
        work: &mut Workspace,
        index: usize,
    ) -> Result<Option<bool>, NoMemory>
        requires { index < height self.now }
        ensures answer { IfOk result (λ o. IfSome o (λ yes. IsTrue yes ↔ HasPoint (lengthened self.now (turned (row_at self.now index) ∷ [])))) }
        ensures fits { IfOk result (λ o. IfSome o (λ _. RunFits (lengthened self.now (turned (row_at self.now index) ∷ [])))) }
    {
        system_theorems();
        let answer = self.run.meets_turned(alloc, work, index)?;
        Ok(answer)
    }

    /// Whether the system has a point. No number of its run is too wide.
    pub fn has_point(&self) -> bool
        ensures answer { IsTrue result ↔ HasPoint self.now }
        ensures fits { RunFits self.now }
    {
        system_theorems();
        self.run.has_point()
    }

    /// What the run ends with. Nothing where a fraction is too wide.
    fn end(&self, alloc: Global) -> Result<Option<End>, NoMemory>
        ensures { IfOk result (λ o. IfSome o (λ d. IsEnd self.now d)) }
    {
        let mut work = Workspace::new(alloc);
        let end = self.run.end(alloc, &mut work)?;
        Ok(end)
    }

    /// What the run's end says of the system, as `decide` answers it. Nothing where whole numbers
    /// don't serve for it.
    pub fn decision(&self, alloc: Global) -> Result<Option<Decision>, NoMemory>
        ensures point { IfOk result (λ o. IfSome o (λ d. IfPoint d (IsPairPoint self.now))) }
        ensures has_point { IfOk result (λ o. IfSome o (λ d. IfPoint d (λ _. HasPoint self.now))) }
        ensures refuted { IfOk result (λ o. IfSome o (λ d. IfRefuted d (Refutes self.now))) }
        ensures no_point { IfOk result (λ o. IfSome o (λ d. IfRefuted d (λ _. ¬ HasPoint self.now))) }
        ensures end { IfOk result (λ o. IfSome o (IsRunEnd self.now)) }
        ensures fits { RunFits self.now }
    {
        system_theorems();
        let _ = self.run.has_point();
        match self.end(alloc)? {
            Some(End::Point(point)) => Ok(Some(Decision::Point(point))),
            Some(End::Refuted(multipliers)) => Ok(Some(Decision::Refuted(multipliers))),
            None => Ok(None),
        }
    }

    /// Opens the workspace for this run: the system is copied once for all rows that come behind it.
    pub fn open(&self, alloc: Global, work: &mut Workspace) -> Result<(), NoMemory>
        ensures { IsOpenFor self.now work.new }
    {
        self.run.open(alloc, work)?;
        Ok(())
    }

    /// Whether the system with these rows behind its own has a point, in a workspace that is open for
    /// this run and stays so. Nothing where whole numbers don't serve for its run, and else no number of
    /// that is too wide.
    pub fn meets(
        &self,
        alloc: Global,
        work: &mut Workspace,
        rows: &WholeSystem,
    ) -> Result<Option<bool>, NoMemory>
        requires width { rows.now.width ≡ self.now.width }
        requires open { IsOpenFor self.now work.old }
        ensures open { IsOpenFor self.now work.new }
        ensures answer { IfOk result (λ o. IfSome o (λ yes. IsTrue yes ↔ HasPoint (lengthened self.now rows.now.rows))) }
        ensures fits { IfOk result (λ o. IfSome o (λ _. RunFits (lengthened self.now rows.now.rows))) }
    {
        system_theorems();
        rows.has_width();
        let answer = self.run.meets(alloc, work, rows)?;
        Ok(answer)
    }

    /// The same as `meets`, and where there is no point, how many of the system's first rows suffice for
    /// that: these rows with the further ones behind have none, whatever rows of the system come between.
    pub fn meeting(
        &self,
        alloc: Global,
        work: &mut Workspace,
        rows: &WholeSystem,
    ) -> Result<Option<Meeting>, NoMemory>
        requires width { rows.now.width ≡ self.now.width }
        requires open { IsOpenFor self.now work.old }
        ensures open { IsOpenFor self.now work.new }
        ensures point { IfOk result (λ o. IfSome o (λ m. IfMet m (HasPoint (lengthened self.now rows.now.rows)))) }
        ensures missed { IfOk result (λ o. IfSome o (λ m. IfMissed m (λ k. MissesFrom self.now k rows.now.rows))) }
        ensures fits { IfOk result (λ o. IfSome o (λ _. RunFits (lengthened self.now rows.now.rows))) }
    {
        system_theorems();
        rows.has_width();
        let found = self.run.meeting(alloc, work, rows)?;
        Ok(found)
    }

    /// The multipliers that refute the system with these rows behind its own, in a workspace that is open for this run
    /// and stays so. Nothing where that system has a point, or whole numbers don't serve for its run.
    pub fn refute(
        &self,
        alloc: Global,
        work: &mut Workspace,
        rows: &WholeSystem,
    ) -> Result<Option<Multipliers>, NoMemory>
        requires width { rows.now.width ≡ self.now.width }
        requires open { IsOpenFor self.now work.old }
        ensures open { IsOpenFor self.now work.new }
        ensures refuted { IfOk result (λ o. IfSome o (Refutes (lengthened self.now rows.now.rows))) }
        ensures no_point { IfOk result (λ o. IfSome o (λ _. ¬ HasPoint (lengthened self.now rows.now.rows))) }
        ensures end { IfOk result (λ o. IfSome o (EndsRefuted (lengthened self.now rows.now.rows))) }
        ensures fits { IfOk result (λ o. IfSome o (λ _. RunFits (lengthened self.now rows.now.rows))) }
    {
        system_theorems();
        rows.has_width();
        let multipliers = self.run.refute(alloc, work, rows)?;
        Ok(multipliers)
    }

    /// Whether the sizes of the system's numbers and of these rows' show that no number of the run of the
    /// system with the rows behind its own is too wide, nor of that with the strict row alone that is met
    /// where one of them fails. No run is made.
    pub fn fits_with(&self, rows: &WholeSystem) -> bool
        requires { rows.now.width ≡ self.now.width }
        ensures all { IsTrue result → RunFits (lengthened self.now rows.now.rows) }
        ensures broken { IsTrue result → (row : RowInt) → Contains rows.now.rows (whole_row row) → RunFits (lengthened self.now (broken_row row ∷ [])) }
    {
        self.run.fits_with(rows)
    }

    /// Whether the system with the strict row behind its own that is met where this row fails has a
    /// point, in a workspace that is open for this run and stays so. Nothing where whole numbers don't
    /// serve for its run, and else no number of that is too wide.
    ///
    /// Where it has one, the answer is as of `extend`. Elsewhere nothing is copied.
    pub fn breaks(
        &self,
        alloc: Global,
        work: &mut Workspace,
        row: &RowInt,
    ) -> Result<Option<Broken>, NoMemory>
        requires width { length row.now.a ≡ self.now.width }
        requires open { IsOpenFor self.now work.old }
        ensures open { IsOpenFor self.now work.new }
        ensures point { IfOk result (λ o. IfSome o (λ b. IfBroken b (λ run. (run ≡ lengthened self.now (broken_row row.now ∷ [])) × HasPoint (lengthened self.now (broken_row row.now ∷ []))))) }
        ensures refuted { IfOk result (λ o. IfSome o (λ b. IfUnbroken b (Refutes (lengthened self.now (broken_row row.now ∷ []))))) }
        ensures no_point { IfOk result (λ o. IfSome o (λ b. IfUnbroken b (λ _. ¬ HasPoint (lengthened self.now (broken_row row.now ∷ []))))) }
        ensures end { IfOk result (λ o. IfSome o (λ b. IfUnbroken b (EndsRefuted (lengthened self.now (broken_row row.now ∷ []))))) }
        ensures fits { IfOk result (λ o. IfSome o (λ _. RunFits (lengthened self.now (broken_row row.now ∷ [])))) }
    {
        system_theorems();
        match self.run.breaks(alloc, work, row)? {
            Some(KeptBroken::Point(run)) => Ok(Some(Broken::Point(Beginning { run }))),
            Some(KeptBroken::Refuted(multipliers)) => Ok(Some(Broken::Refuted(multipliers))),
            None => Ok(None),
        }
    }
}
