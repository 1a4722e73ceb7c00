//! The system of a leaf, with the run of its own rows, and the rows of a target behind them.

ghost use Rattle.std.specs.Prelude.{◌≡◌, ◌++◌, ◌∷◌, [], List, IsTrue, IfOk, IfSome, OnOk, Some, length, take};
ghost use Rattle.mpc_rows.specs.LinearSystem.{LinearSystem};
ghost use Rattle.mpc_rows.specs.declared.systems.Row.{Row};
ghost use Rattle.mpc_recur.specs.Asked.{AreAmong};
ghost use Rattle.mpc_recur.specs.Findings.{IsRuledOut};
ghost use Rattle.mpc_recur.specs.Targets.{with_rows};

use mpc_beginnings::shared_beginning;
use mpc_frac::NoMemory;
use mpc_rows::{Row, System};
use mpc_scaled::WholeSystem;
use mpc_simplex::{Beginning, Decision, Workspace};
use std::alloc::Global;
use std::marker::Model;

/// The rows of a target.
#[derive(Drop)]
pub struct TargetRows {
    system: System,
    /// The same rows in whole numbers. Nothing where a number isn't small.
    whole: Option<WholeSystem>,
}

impl Model for TargetRows {
    ghost use Rattle.std.specs.Prelude.{◌≡◌, IfSome};
    ghost use Rattle.mpc_rows.specs.LinearSystem.{LinearSystem};

    ghost Value = { LinearSystem };

    ghost view = { λ r. r.system };

    ghost invariant = { λ r. IfSome r.whole (λ whole. whole ≡ r.system) };
}

/// The longer rows, if these are given and the row is whole times a small scale.
fn with_whole(whole: Option<WholeSystem>, row: &Row) -> Result<Option<WholeSystem>, NoMemory>
    requires { IfSome whole (λ s. length row.now.a ≡ s.width) }
    ensures { IfOk result (λ o. IfSome o (λ longer. (s : LinearSystem) × (whole ≡ Some s) × (longer ≡ with_rows s (row.now ∷ [])))) }
{
    let Some(mut longer) = whole else {
        return Ok(None);
    };
    if longer.push(row)? {
        Ok(Some(longer))
    } else {
        Ok(None)
    }
}

impl TargetRows {
    /// No row, in so many unknowns.
    pub fn new(alloc: Global, width: u32) -> Result<TargetRows, NoMemory>
        ensures width { IfOk result (λ r. r.width ≡ width) }
        ensures rows { IfOk result (λ r. r.rows ≡ []) }
    {
        let whole = WholeSystem::new(alloc, width)?;
        Ok(TargetRows {
            system: System::new(alloc, width),
            whole: Some(whole),
        })
    }

    /// Puts one row behind the others. Without memory the rows are no longer of use.
    pub fn push(&mut self, row: Row) -> Result<(), NoMemory>
        requires { length row.a ≡ self.old.width }
        ensures width { OnOk result (self.new.width ≡ self.old.width) }
        ensures rows { OnOk result (self.new.rows ≡ self.old.rows ++ row ∷ []) }
    {
        let whole = with_whole(self.whole.take(), &row)?;
        self.system.push(row)?;
        self.whole = whole;
        Ok(())
    }

    /// Keeps the first so many rows and gives up the others.
    pub fn truncate(&mut self, alloc: Global, count: usize) -> Result<(), NoMemory>
        ensures width { OnOk result (self.new.width ≡ self.old.width) }
        ensures rows { OnOk result (self.new.rows ≡ take count self.old.rows) }
    {
        self.system.truncate(count);
        match &mut self.whole {
            Some(whole) => whole.truncate(count),
            None => self.whole = WholeSystem::read(alloc, &self.system)?,
        }
        Ok(())
    }
}

/// The rows of the box and of the path to a leaf, and the run of these, where whole numbers serve for it: the runs of the targets go on from
/// there.
#[derive(Drop)]
pub struct Base {
    system: System,
    run: Option<Beginning>,
}

impl Model for Base {
    ghost use Rattle.std.specs.Prelude.{◌≡◌, IfSome};
    ghost use Rattle.mpc_rows.specs.LinearSystem.{LinearSystem};

    ghost Value = { LinearSystem };

    ghost view = { λ b. b.system };

    ghost invariant = { λ b. IfSome b.run (λ run. run ≡ b.system) };
}

impl Base {
    /// The system, with its run.
    pub fn of(alloc: Global, system: System) -> Result<Base, NoMemory>
        ensures { IfOk result (λ b. b ≡ system) }
    {
        let run = Beginning::begin(alloc, &system)?;
        Ok(Base { system, run })
    }

    /// How many unknowns there are.
    pub fn width(&self) -> u32
        ensures { result ≡ self.now.width }
    {
        self.system.width
    }

    /// Whether the run shows that no point meets the target's rows too. Nothing is said where whole numbers don't serve.
    pub fn rules_out(
        &self,
        alloc: Global,
        work: &mut Workspace,
        rows: &TargetRows,
    ) -> Result<bool, NoMemory>
        requires { rows.now.width ≡ self.now.width }
        ensures { IfOk result (λ yes. IsTrue yes → IsRuledOut (Unit {0}) (with_rows self.now rows.now.rows)) }
    {
        let (Some(run), Some(whole)) = (&self.run, &rows.whole) else {
            return Ok(false);
        };
        run.open(alloc, work)?;
        match run.meets(alloc, work, whole)? {
            Some(met) => Ok(!met),
            None => Ok(false),
        }
    }

    /// Whether the run shows that no point meets the leaf's own rows. Nothing is said where whole numbers don't serve.
    pub fn is_empty(&self) -> bool
        ensures { IsTrue result → IsRuledOut (Unit {0}) self.now }
    {
        match &self.run {
            Some(run) => !run.has_point(),
            None => false,
        }
    }

    /// Whether the run shows that no point meets the leaf's own rows, and that no number is too wide with whichever of these rows behind.
    /// Nothing is said where whole numbers don't serve.
    pub fn rules_out_all(&self, alloc: Global, rows: &WholeSystem) -> Result<bool, NoMemory>
        requires { rows.now.width ≡ self.now.width }
        ensures { IfOk result (λ yes. IsTrue yes → (more : List Row) → AreAmong rows.now more → IsRuledOut (Unit {0}) (with_rows self.now more)) }
    {
        shared_beginning();
        let Some(run) = &self.run else {
            return Ok(false);
        };
        let Some(Decision::Refuted(_)) = run.decision(alloc)? else {
            return Ok(false);
        };
        let mut work = Workspace::new(alloc);
        run.open(alloc, &mut work)?;
        let met = run.meets(alloc, &mut work, rows)?;
        Ok(met.is_some())
    }

    /// The leaf's rows, and behind them the target's.
    pub fn with(&self, alloc: Global, rows: &TargetRows) -> Result<System, NoMemory>
        requires { rows.now.width ≡ self.now.width }
        ensures { IfOk result (λ s. s ≡ with_rows self.now rows.now.rows) }
    {
        let mut system = System::new(alloc, self.system.width);
        push_rows(alloc, &mut system, &self.system)?;
        push_rows(alloc, &mut system, &rows.system)?;
        Ok(system)
    }
}

/// Puts copies of the other system's rows behind the rows.
fn push_rows(alloc: Global, system: &mut System, other: &System) -> Result<(), NoMemory>
    requires { other.now.width ≡ system.old.width }
    ensures width { system.new.width ≡ system.old.width }
    ensures rows { OnOk result (system.new.rows ≡ system.old.rows ++ other.now.rows) }
{
    for i in 0..other.height() {
        system.push(other.row(i).copy(alloc)?)?;
    }
    Ok(())
}
