//! The test whether a certificate refutes the system of a leaf. Only the rows that it names are formed.

ghost use Rattle.std.specs.Prelude.{◌≡◌, ◌+◌, ◌≤◌, ◌↔◌, All, IfOk, IsTrue, length};
ghost use Rattle.mpc_rows.specs.LinearSystem.{height};
ghost use Rattle.mpc_space.specs.Vector.{AllNonneg};
ghost use Rattle.mpc_rows.specs.Certificates.{IsCert};
ghost use Rattle.mpc_rows.specs.Refutation.{Refutes, SumsFit};
ghost use Rattle.mpc_check.specs.Certs.{HasPositionsIn, CertFits, CertRefutes};
ghost use Rattle.mpc_check.specs.Findings.{IsDecided};
ghost use Rattle.mpc_check.specs.Picks.{picked_system, weights};
ghost use Rattle.mpc_systems.specs.Systems.{hold_system};
ghost use Rattle.mpc_systems.specs.Writing.{IsOfSize};
ghost use Rattle.mpc_controller.specs.Ways.{HasSplitRow, IsTurn, way_rows};
ghost use Rattle.mpc_check.specs.LeafSystems.{system_at};
ghost use Rattle.mpc_check.specs.Widths.{IsOfWidth};

use crate::answers::CheckError;
use crate::rows::{Cell, system_row};
use crate::whole_sums::is_refuted_in_wholes;
use mpc_frac::{NoMemory, fit_theorems};
use mpc_linear::{RowInt, zero_theorems};
use mpc_rows::{Cert, Multipliers, Place, Qp, Row, Rows, System, refutes};
use mpc_systems::broken_row;
use std::alloc::Global;

/// Whether each position that the certificate names is that of one of so many rows.
pub(crate) fn has_positions_in(cert: &Cert, rows: u128) -> bool
    ensures within { IsTrue result ↔ HasPositionsIn rows cert.now }
    ensures rises { IsCert cert.now }
{
    let entries = cert.as_slice();
    for i in 0..entries.len() {
        if u128::from(entries[i].0) > rows {
            return false;
        }
    }
    true
}

/// The multipliers that the certificate names.
fn named_multipliers(alloc: Global, cert: &Cert) -> Result<Multipliers, NoMemory>
    ensures { IfOk result (λ m. m ≡ weights cert.now) }
{
    let mut multipliers = Multipliers::new(alloc);
    let entries = cert.as_slice();
    for i in 0..entries.len() {
        multipliers.push(entries[i].1)?;
    }
    Ok(multipliers)
}

/// The rows of a leaf's system that the certificate names.
fn named_system(
    alloc: Global,
    qp: &Qp,
    cell: &Cell,
    more: u32,
    last: &[Row],
    cert: &Cert,
) -> Result<System, NoMemory>
    requires way { All (IsTurn cell.now.tree.now) cell.now.way.now }
    requires splits { All (HasSplitRow (length qp.now.counts)) cell.now.tree.now }
    requires last { All (IsOfWidth (length qp.now.counts + more)) last.now }
    requires unknowns { more ≤ 6 }
    requires positions { HasPositionsIn (height (system_at qp.now cell.now.tree.now cell.now.way.now more last.now)) cert.now }
    ensures { IfOk result (λ s. s ≡ picked_system (system_at qp.now cell.now.tree.now cell.now.way.now more last.now) cert.now) }
{
    let mut system = System::new(alloc, qp.counts.len() as u32 + more);
    let entries = cert.as_slice();
    for i in 0..entries.len() {
        let place = entries[i].0 as usize - 1;
        let row = system_row(alloc, qp, cell, more, last, place)?;
        system.push(row)?;
    }
    Ok(system)
}

/// Whether the multipliers refute the system.
fn is_refutation(
    system: &System,
    multipliers: &Multipliers,
    place: Place,
) -> Result<bool, CheckError>
    requires { length multipliers.now ≡ length system.now.rows }
    ensures { IsDecided (AllNonneg multipliers.now → SumsFit system.now multipliers.now)
        (Refutes system.now multipliers.now) place result }
{
    match refutes(system, multipliers) {
        Ok(yes) => Ok(yes),
        Err(_) => Err(CheckError::TooWide(place)),
    }
}

/// Whether the certificate refutes the system of a leaf, in which the last rows follow those of the box and the way. `TooWide` at this place
/// where a number of the sums doesn't fit.
pub fn is_refuted(
    alloc: Global,
    qp: &Qp,
    cell: &Cell,
    more: u32,
    last: &[Row],
    cert: &Cert,
    place: Place,
) -> Result<bool, CheckError>
    requires way { All (IsTurn cell.now.tree.now) cell.now.way.now }
    requires splits { All (HasSplitRow (length qp.now.counts)) cell.now.tree.now }
    requires last { All (IsOfWidth (length qp.now.counts + more)) last.now }
    requires unknowns { more ≤ 6 }
    ensures { IsDecided (CertFits (system_at qp.now cell.now.tree.now cell.now.way.now more last.now) cert.now)
        (CertRefutes (system_at qp.now cell.now.tree.now cell.now.way.now more last.now) cert.now) place result }
{
    zero_theorems();
    fit_theorems();
    let rows = 2 * qp.counts.len() as u128 + cell.way.len() as u128 + last.len() as u128;
    if !has_positions_in(cert, rows) {
        return Ok(false);
    }
    let system = named_system(alloc, qp, cell, more, last, cert)?;
    let multipliers = named_multipliers(alloc, cert)?;
    is_refutation(&system, &multipliers, place)
}

/// Whether the certificate refutes the system of a leaf, in which a row of its law, broken, follows those of the box and the way. It is tested
/// in whole numbers where their size allows. `TooWide` at this place where a number of the sums doesn't fit.
pub fn is_broken_refuted(
    alloc: Global,
    qp: &Qp,
    cell: &Cell,
    row: &RowInt,
    cert: &Cert,
    place: Place,
) -> Result<bool, CheckError>
    requires way { All (IsTurn cell.now.tree.now) cell.now.way.now }
    requires splits { All (HasSplitRow (length qp.now.counts)) cell.now.tree.now }
    requires size { IsOfSize (length qp.now.counts) row.now }
    ensures { IsDecided (CertFits (hold_system qp.now (way_rows cell.now.tree.now cell.now.way.now) row.now) cert.now)
        (CertRefutes (hold_system qp.now (way_rows cell.now.tree.now cell.now.way.now) row.now) cert.now) place result }
{
    zero_theorems();
    fit_theorems();
    let rows = 2 * qp.counts.len() as u128 + cell.way.len() as u128 + 1;
    if !has_positions_in(cert, rows) {
        return Ok(false);
    }
    if let Some(yes) = is_refuted_in_wholes(qp, cell.tree, cell.way, row, cert) {
        return Ok(yes);
    }
    let mut last = Rows::new(alloc);
    last.push(broken_row(alloc, row)?)?;
    is_refuted(alloc, qp, cell, 0, last.as_slice(), cert, place)
}
