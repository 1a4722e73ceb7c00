//! The systems that decide an active set, and those that decide a cell of the box.

ghost use Rattle.std.specs.Prelude.{◌≡◌, ◌++◌, IfOk, length};
ghost use Rattle.mpc_space.specs.Matrix.{height};
ghost use Rattle.mpc_sets.specs.RowSet.{IsSetOfRows};
ghost use Rattle.mpc_rows.specs.SetRuns.{box_rows, reach_system, region_system};
ghost use Rattle.mpc_systems.specs.Writing.{HasBoxWidth, IsOfSize, AreOfSize};
ghost use Rattle.mpc_systems.specs.Systems.{meet_system, hold_system, joint_system};

use crate::pushing::{push_box, push_cell, push_joint_rows, push_members, push_rows};
use crate::single_rows::broken_row;
use mpc_frac::NoMemory;
use mpc_linear::RowInt;
use mpc_rows::{Qp, Row, System};
use mpc_sets::ActiveSet;
use std::alloc::Global;

// ---- active sets

/// The system whose points are the states and the unknowns that satisfy all rows, those of the set
/// with equality.
pub fn reach_system(alloc: Global, qp: &Qp, set: ActiveSet) -> Result<System, NoMemory>
    requires { IsSetOfRows (height qp.now.g) set }
    ensures { IfOk result (λ s. s ≡ reach_system qp.now set) }
{
    let mut system = System::new(alloc, qp.counts.len() as u32 + qp.h.rows());
    push_box(alloc, &mut system, &qp.counts)?;
    push_joint_rows(alloc, &mut system, qp)?;
    push_members(alloc, &mut system, qp, set)?;
    Ok(system)
}

/// The system whose points are the states of a region: the rows of the box and those of the law.
pub fn region_system(alloc: Global, qp: &Qp, rows: &[RowInt]) -> Result<System, NoMemory>
    requires { AreOfSize (length qp.now.counts) rows.now }
    ensures { IfOk result (λ s. s ≡ region_system qp.now rows.now) }
{
    let mut system = System::new(alloc, qp.counts.len() as u32);
    push_box(alloc, &mut system, &qp.counts)?;
    push_rows(alloc, &mut system, rows)?;
    Ok(system)
}

// ---- cells

/// The box and the cell, in the unknowns t.
fn boxed_cell(alloc: Global, qp: &Qp, cell: &[Row]) -> Result<System, NoMemory>
    requires { HasBoxWidth qp.now cell.now }
    ensures width { IfOk result (λ s. s.width ≡ length qp.now.counts) }
    ensures rows { IfOk result (λ s. s.rows ≡ box_rows (length qp.now.counts) qp.now.counts ++ cell.now) }
{
    let mut system = System::new(alloc, qp.counts.len() as u32);
    push_box(alloc, &mut system, &qp.counts)?;
    push_cell(alloc, &mut system, cell, 0)?;
    Ok(system)
}

/// The system of the states of the cell in the region with these rows.
pub fn meet_system(
    alloc: Global,
    qp: &Qp,
    cell: &[Row],
    rows: &[RowInt],
) -> Result<System, NoMemory>
    requires cell { HasBoxWidth qp.now cell.now }
    requires plain { AreOfSize (length qp.now.counts) rows.now }
    ensures { IfOk result (λ s. s ≡ meet_system qp.now cell.now rows.now) }
{
    let mut system = boxed_cell(alloc, qp, cell)?;
    push_rows(alloc, &mut system, rows)?;
    Ok(system)
}

/// The system of the states of the cell where the row fails.
pub fn hold_system(alloc: Global, qp: &Qp, cell: &[Row], row: &RowInt) -> Result<System, NoMemory>
    requires cell { HasBoxWidth qp.now cell.now }
    requires plain { IsOfSize (length qp.now.counts) row.now }
    ensures { IfOk result (λ s. s ≡ hold_system qp.now cell.now row.now) }
{
    let mut system = boxed_cell(alloc, qp, cell)?;
    system.push(broken_row(alloc, row)?)?;
    Ok(system)
}

/// The system of the states of the cell with unknowns that satisfy all rows.
pub fn joint_system(alloc: Global, qp: &Qp, cell: &[Row]) -> Result<System, NoMemory>
    requires { HasBoxWidth qp.now cell.now }
    ensures { IfOk result (λ s. s ≡ joint_system qp.now cell.now) }
{
    let unknowns = qp.h.rows();
    let mut system = System::new(alloc, qp.counts.len() as u32 + unknowns);
    push_box(alloc, &mut system, &qp.counts)?;
    push_cell(alloc, &mut system, cell, unknowns)?;
    push_joint_rows(alloc, &mut system, qp)?;
    Ok(system)
}
