//! Certificates of leaves without a law, from runs that are kept from one such leaf to the next.

ghost use Rattle.std.specs.Prelude.{◌≡◌, ◌++◌, ◌∷◌, [], IfOk, IfSome, OnOk, length, take};
ghost use Rattle.mpc_rows.specs.RunWidth.{RunFits};
ghost use Rattle.mpc_rows.specs.declared.programs.Qp.{Qp};
ghost use Rattle.mpc_systems.specs.Systems.{joint_system};
ghost use Rattle.mpc_systems.specs.Writing.{HasBoxWidth};
ghost use Rattle.mpc_tree.specs.Joints.{AreJoints, AreProgramRows, HasRunForEach, IsCutBack, IsJointRun};
ghost use Rattle.mpc_tree.specs.LeafCerts.{IsCertOf};

use crate::certs::refuted_cert;
use crate::runs::{longer, shared_rows};
use mpc_frac::NoMemory;
use mpc_rows::{Cert, Qp, Row, System};
use mpc_scaled::WholeSystem;
use mpc_simplex::{Beginning, Workspace};
use mpc_systems::{push_box, push_joint_rows, widened};
use std::alloc::Global;

/// What is kept from one leaf without a law to the next, in the unknowns (t, z): the runs of the box and of each of
/// the first rows of the last leaf's cell, and the program's rows, which come behind them.
#[derive(Drop)]
pub struct Joints {
    /// The program's rows, once they were formed.
    rows: Option<WholeSystem>,
    /// The rows of the last leaf's cell.
    cell: Vec<Row>,
    /// The run at a place, from 0, is that of the box and so many first rows. There is none before the first leaf.
    runs: Vec<Option<Beginning>>,
    work: Workspace,
}

/// The rows of the program in whole numbers. Nothing where these don't serve.
fn program_rows(alloc: Global, qp: &Qp) -> Result<Option<WholeSystem>, NoMemory>
    ensures { IfOk result (AreProgramRows qp.now) }
{
    let mut system = System::new(alloc, qp.counts.len() as u32 + qp.h.rows());
    push_joint_rows(alloc, &mut system, qp)?;
    let rows = WholeSystem::read(alloc, &system)?;
    Ok(rows)
}

/// The run of the box alone. Nothing where whole numbers don't serve.
fn box_run(alloc: Global, qp: &Qp) -> Result<Option<Beginning>, NoMemory>
    ensures { IfOk result (IsJointRun qp.now []) }
{
    let mut system = System::new(alloc, qp.counts.len() as u32 + qp.h.rows());
    push_box(alloc, &mut system, &qp.counts)?;
    Beginning::begin(alloc, &system)
}

impl Joints {
    /// Nothing is kept as yet.
    pub fn new(alloc: Global) -> Self
        ensures { (qp : Qp) → AreJoints qp result }
    {
        Joints {
            rows: None,
            cell: Vec::new(alloc),
            runs: Vec::new(alloc),
            work: Workspace::new(alloc),
        }
    }

    /// Keeps the first rows of the last cell that this one has too, as far as they have runs, with these.
    fn go_back(&mut self, cell: &[Row])
        ensures joints { (qp : Qp) → AreJoints qp self.old → AreJoints qp self.new }
        ensures first { self.new.cell.items ≡ take (length self.new.cell.items) cell.now }
        ensures cut_back { IsCutBack self.new }
    {
        let most = self.runs.len().saturating_sub(1);
        let shared = shared_rows(self.cell.as_slice(), cell).min(most);
        self.cell.truncate(shared);
        self.runs.truncate(shared + 1);
    }

    /// Makes the run of the box, if there is none.
    fn begin(&mut self, alloc: Global, qp: &Qp) -> Result<(), NoMemory>
        requires joints { AreJoints qp.now self.old }
        requires cut_back { IsCutBack self.old }
        ensures joints { AreJoints qp.now self.new }
        ensures cell { self.new.cell.items ≡ self.old.cell.items }
        ensures runs { OnOk result (HasRunForEach self.new) }
    {
        if self.runs.is_empty() {
            let run = box_run(alloc, qp)?;
            let Ok(()) = self.runs.push(run) else {
                return Err(NoMemory);
            };
        }
        Ok(())
    }

    /// Puts the row behind those of the cell, with its run.
    fn push(&mut self, alloc: Global, qp: &Qp, row: &Row) -> Result<(), NoMemory>
        requires joints { AreJoints qp.now self.old }
        requires runs { HasRunForEach self.old }
        requires width { length row.now.a ≡ length qp.now.counts }
        ensures joints { AreJoints qp.now self.new }
        ensures cell { OnOk result (self.new.cell.items ≡ self.old.cell.items ++ row.now ∷ []) }
        ensures runs { OnOk result (HasRunForEach self.new) }
    {
        let wide = widened(alloc, row, qp.h.rows())?;
        let run = longer(alloc, &self.runs[self.cell.len()], &wide)?;
        let Ok(()) = self.cell.push(row.copy(alloc)?) else {
            return Err(NoMemory);
        };
        let Ok(()) = self.runs.push(run) else {
            return Err(NoMemory);
        };
        Ok(())
    }

    /// Puts the further rows of the cell behind those that are kept.
    fn go_on(&mut self, alloc: Global, qp: &Qp, cell: &[Row]) -> Result<(), NoMemory>
        requires joints { AreJoints qp.now self.old }
        requires cut_back { IsCutBack self.old }
        requires first { self.old.cell.items ≡ take (length self.old.cell.items) cell.now }
        requires width { HasBoxWidth qp.now cell.now }
        ensures joints { AreJoints qp.now self.new }
        ensures cell { OnOk result (self.new.cell.items ≡ cell.now) }
        ensures runs { OnOk result (HasRunForEach self.new) }
    {
        self.begin(alloc, qp)?;
        for place in self.cell.len()..cell.len() {
            self.push(alloc, qp, &cell[place])?;
        }
        Ok(())
    }

    /// Forms the program's rows, if they aren't kept.
    fn form_rows(&mut self, alloc: Global, qp: &Qp) -> Result<(), NoMemory>
        requires { AreJoints qp.now self.old }
        ensures { AreJoints qp.now self.new }
    {
        if self.rows.is_none() {
            self.rows = program_rows(alloc, qp)?;
        }
        Ok(())
    }

    /// The certificate that no state of the cell has admissible unknowns. Nothing where whole numbers don't serve.
    /// Its run goes on from that of the first rows that the last cell has too.
    pub fn cert(&mut self, alloc: Global, qp: &Qp, cell: &[Row]) -> Result<Option<Cert>, NoMemory>
        requires joints { AreJoints qp.now self.old }
        requires cell { HasBoxWidth qp.now cell.now }
        ensures joints { AreJoints qp.now self.new }
        ensures cert { IfOk result (λ o. IfSome o (IsCertOf (joint_system qp.now cell.now))) }
        ensures fits { IfOk result (λ o. IfSome o (λ _. RunFits (joint_system qp.now cell.now))) }
    {
        self.form_rows(alloc, qp)?;
        self.go_back(cell);
        self.go_on(alloc, qp, cell)?;
        let Some(rows) = &self.rows else {
            return Ok(None);
        };
        let Some(run) = &self.runs[cell.len()] else {
            return Ok(None);
        };
        run.open(alloc, &mut self.work)?;
        refuted_cert(alloc, &mut self.work, run, rows)
    }
}
