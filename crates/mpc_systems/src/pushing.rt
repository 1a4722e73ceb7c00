//! Rows put behind those of a system.

ghost use Rattle.std.specs.Prelude.{◌≡◌, ◌+◌, ◌++◌, All, IfOk, OnOk, OnErr, length, map, take};
ghost use Rattle.mpc_space.specs.Matrix.{height};
ghost use Rattle.mpc_sets.specs.RowSet.{IsSetOfRows};
ghost use Rattle.mpc_rows.specs.LawRows.{whole_row};
ghost use Rattle.mpc_rows.specs.SetRuns.{box_rows, joint_row, joint_rows, turned};
ghost use Rattle.mpc_systems.specs.Writing.{AreOfSize, widened};

use crate::numbers::whole;
use crate::single_rows::{axis_row, joint_row, turned, whole_row, widened};
use mpc_frac::{Frac, NoMemory};
use mpc_linear::RowInt;
use mpc_rows::{Counts, Qp, Row, Rows, System, law_theorems};
use mpc_sets::ActiveSet;
use std::alloc::Global;

/// The rows of the box behind the others. Without memory some of them stand there.
fn add_box(alloc: Global, system: &mut System, counts: &Counts) -> Result<(), NoMemory>
    ensures width { system.new.width ≡ system.old.width }
    ensures rows { OnOk result (system.new.rows ≡ system.old.rows ++ box_rows system.old.width counts.now) }
    ensures kept { take (length system.old.rows) system.new.rows ≡ system.old.rows }
{
    let width = system.unknowns();
    for coordinate in 0..counts.len() {
        let count = whole(*counts.at(coordinate) as i128);
        system.push(axis_row(alloc, width, coordinate, -1, Frac::whole(0))?)?;
        system.push(axis_row(alloc, width, coordinate, 1, count)?)?;
    }
    Ok(())
}

/// Puts the rows `-t_i <= 0` and `t_i <= count_i` of each coordinate of a box behind the others, the
/// coordinates being the first unknowns. Without memory the
/// system stays as it was.
pub fn push_box(alloc: Global, system: &mut System, counts: &Counts) -> Result<(), NoMemory>
    ensures width { system.new.width ≡ system.old.width }
    ensures rows { OnOk result (system.new.rows ≡ system.old.rows ++ box_rows system.old.width counts.now) }
    ensures err { OnErr result (system.new.rows ≡ system.old.rows) }
{
    let height = system.height();
    let Ok(()) = add_box(alloc, system, counts) else {
        system.truncate(height);
        return Err(NoMemory);
    };
    Ok(())
}

/// The rows of the program behind the others. Without memory some of them stand there.
fn add_joint_rows(alloc: Global, system: &mut System, qp: &Qp) -> Result<(), NoMemory>
    requires { system.old.width ≡ length qp.now.counts + height qp.now.h }
    ensures width { system.new.width ≡ system.old.width }
    ensures rows { OnOk result (system.new.rows ≡ system.old.rows ++ joint_rows qp.now) }
    ensures kept { take (length system.old.rows) system.new.rows ≡ system.old.rows }
{
    for at_row in 1..qp.g.rows() + 1 {
        system.push(joint_row(alloc, qp, at_row)?)?;
    }
    Ok(())
}

/// Puts the row `g_i z - w_i t <= w_i0` of each row of the program behind the others. Without memory the
/// system stays as it was.
pub fn push_joint_rows(alloc: Global, system: &mut System, qp: &Qp) -> Result<(), NoMemory>
    requires { system.old.width ≡ length qp.now.counts + height qp.now.h }
    ensures width { system.new.width ≡ system.old.width }
    ensures rows { OnOk result (system.new.rows ≡ system.old.rows ++ joint_rows qp.now) }
    ensures err { OnErr result (system.new.rows ≡ system.old.rows) }
{
    let height = system.height();
    let Ok(()) = add_joint_rows(alloc, system, qp) else {
        system.truncate(height);
        return Err(NoMemory);
    };
    Ok(())
}

/// The members' rows, the other way round, behind the others. Without memory some of them stand there.
fn add_members(alloc: Global, system: &mut System, qp: &Qp, set: ActiveSet) -> Result<(), NoMemory>
    requires width { system.old.width ≡ length qp.now.counts + height qp.now.h }
    requires set_of_rows { IsSetOfRows (height qp.now.g) set }
    ensures width { system.new.width ≡ system.old.width }
    ensures rows { OnOk result (system.new.rows ≡ system.old.rows ++ map (λ i. turned (joint_row qp.now i)) set) }
    ensures kept { take (length system.old.rows) system.new.rows ≡ system.old.rows }
{
    law_theorems();
    for k in 1..set.size() + 1 {
        let row = joint_row(alloc, qp, set.member(k))?;
        system.push(turned(alloc, &row)?)?;
    }
    Ok(())
}

/// Puts the row of each member, the other way round, behind the others. Without memory the
/// system stays as it was.
pub fn push_members(
    alloc: Global,
    system: &mut System,
    qp: &Qp,
    set: ActiveSet,
) -> Result<(), NoMemory>
    requires width { system.old.width ≡ length qp.now.counts + height qp.now.h }
    requires set_of_rows { IsSetOfRows (height qp.now.g) set }
    ensures width { system.new.width ≡ system.old.width }
    ensures rows { OnOk result (system.new.rows ≡ system.old.rows ++ map (λ i. turned (joint_row qp.now i)) set) }
    ensures err { OnErr result (system.new.rows ≡ system.old.rows) }
{
    let height = system.height();
    let Ok(()) = add_members(alloc, system, qp, set) else {
        system.truncate(height);
        return Err(NoMemory);
    };
    Ok(())
}

/// The rows, in fractions, behind the others. Without memory some of them stand there.
fn add_rows(alloc: Global, system: &mut System, rows: &[RowInt]) -> Result<(), NoMemory>
    requires { AreOfSize system.old.width rows.now }
    ensures width { system.new.width ≡ system.old.width }
    ensures rows { OnOk result (system.new.rows ≡ system.old.rows ++ map whole_row rows.now) }
    ensures kept { take (length system.old.rows) system.new.rows ≡ system.old.rows }
{
    for row in rows {
        system.push(whole_row(alloc, row)?)?;
    }
    Ok(())
}

/// Puts the rows, in fractions, behind the others. Without memory the
/// system stays as it was.
pub fn push_rows(alloc: Global, system: &mut System, rows: &[RowInt]) -> Result<(), NoMemory>
    requires { AreOfSize system.old.width rows.now }
    ensures width { system.new.width ≡ system.old.width }
    ensures rows { OnOk result (system.new.rows ≡ system.old.rows ++ map whole_row rows.now) }
    ensures err { OnErr result (system.new.rows ≡ system.old.rows) }
{
    let height = system.height();
    let Ok(()) = add_rows(alloc, system, rows) else {
        system.truncate(height);
        return Err(NoMemory);
    };
    Ok(())
}

/// The rows of a cell, widened, behind the others. Without memory some of them stand there.
fn add_cell(alloc: Global, system: &mut System, cell: &[Row], more: u32) -> Result<(), NoMemory>
    requires { All (λ r. length r.a + more ≡ system.old.width) cell.now }
    ensures width { system.new.width ≡ system.old.width }
    ensures rows { OnOk result (system.new.rows ≡ system.old.rows ++ map (widened more) cell.now) }
    ensures kept { take (length system.old.rows) system.new.rows ≡ system.old.rows }
{
    for row in cell {
        system.push(widened(alloc, row, more)?)?;
    }
    Ok(())
}

/// Puts the rows of a cell, each with as many more coefficients, behind the others. Without memory the
/// system stays as it was.
pub fn push_cell(
    alloc: Global,
    system: &mut System,
    cell: &[Row],
    more: u32,
) -> Result<(), NoMemory>
    requires { All (λ r. length r.a + more ≡ system.old.width) cell.now }
    ensures width { system.new.width ≡ system.old.width }
    ensures rows { OnOk result (system.new.rows ≡ system.old.rows ++ map (widened more) cell.now) }
    ensures err { OnErr result (system.new.rows ≡ system.old.rows) }
{
    let height = system.height();
    let Ok(()) = add_cell(alloc, system, cell, more) else {
        system.truncate(height);
        return Err(NoMemory);
    };
    Ok(())
}

/// The rows of the program in the unknowns (t, z).
pub fn joint_rows(alloc: Global, qp: &Qp) -> Result<Rows, NoMemory>
    ensures { IfOk result (λ rows. rows ≡ joint_rows qp.now) }
{
    let mut rows = Rows::new(alloc);
    for at_row in 1..qp.g.rows() + 1 {
        rows.push(joint_row(alloc, qp, at_row)?)?;
    }
    Ok(rows)
}
