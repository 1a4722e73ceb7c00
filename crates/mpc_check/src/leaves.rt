//! The conditions on the leaves of the tree: that each certificate refutes what it claims to have no point.

ghost use Rattle.std.specs.Prelude.{◌≡◌, ◌+◌, ◌<◌, ◌≤◌, All, IfSome, Some, length, slice_get};
ghost use Rattle.std.specs.Global.{Vec};
ghost use Rattle.mpc_space.specs.Matrix.{height};
ghost use Rattle.mpc_rows.specs.Laws.{HasLawShape};
ghost use Rattle.mpc_rows.specs.declared.laws.Law.{Law};
ghost use Rattle.mpc_rows.specs.declared.places.Place.TheVariants.{CheckLeaf};
ghost use Rattle.mpc_systems.specs.Systems.{joint_system};
ghost use Rattle.mpc_check.specs.Borders.{IsFormed, IsFormedOfSize, AreFormed, AreBorders};
ghost use Rattle.mpc_check.specs.Certs.{CertFits, CertRefutes};
ghost use Rattle.mpc_check.specs.declared.borders.Formed.{Formed};
ghost use Rattle.mpc_check.specs.Findings.{IsSearched, IsDecided};
ghost use Rattle.mpc_check.specs.LeafConditions.{RowFits, RowHolds, LawLeafMet, LawLeafFinds, EmptyLeafMet, EmptyLeafFinds, NodeMet, NodeFinds};
ghost use Rattle.mpc_controller.specs.Ways.{HasSplitRow, IsTurn, way_rows};
ghost use Rattle.mpc_check.specs.LeafSystems.{NamesLaw};

use crate::answers::{CheckError, Spot};
use crate::borders::{Formed, form_rows};
use crate::certs::{is_broken_refuted, is_refuted};
use crate::rows::Cell;
use mpc_rows::{Cert, Certs, LawTable, Node, Place, Qp, law_theorems};
use mpc_systems::{cell_theorems, joint_rows};
use std::alloc::Global;

/// Whether a row of the leaf's law, counted from 0, has a certificate that it holds on the leaf's cell.
fn is_row_refuted(
    alloc: Global,
    qp: &Qp,
    cell: &Cell,
    formed: &Formed,
    certs: &Certs,
    number: u64,
    at_row: u32,
) -> Result<bool, CheckError>
    requires row { at_row < height qp.now.g }
    requires size { IsFormedOfSize (length qp.now.counts) formed.now }
    requires way { All (IsTurn cell.now.tree.now) cell.now.way.now }
    requires splits { All (HasSplitRow (length qp.now.counts)) cell.now.tree.now }
    ensures { (law : Law) → IsFormed qp.now law at_row formed.now
        → IsDecided (RowFits qp.now (way_rows cell.now.tree.now cell.now.way.now) law certs.now at_row)
        (RowHolds qp.now (way_rows cell.now.tree.now cell.now.way.now) law certs.now at_row) (CheckLeaf number (at_row + 1)) result }
{
    law_theorems();
    let place = Place::CheckLeaf(number, at_row + 1);
    let row = match formed {
        Formed::Row(row) => row,
        Formed::Wide => return Err(CheckError::TooWide(place)),
    };
    if at_row as usize >= certs.len() {
        return Ok(false);
    }
    is_broken_refuted(alloc, qp, cell, row, certs.at(at_row as usize), place)
}

/// What is found of a leaf with the law of these rows, row by row.
fn search_law_leaf(
    alloc: Global,
    qp: &Qp,
    cell: &Cell,
    rows: &[Formed],
    certs: &Certs,
    number: u64,
) -> Result<Option<Spot>, CheckError>
    requires one_each { height qp.now.g ≤ length rows.now }
    requires sizes { All (IsFormedOfSize (length qp.now.counts)) rows.now }
    requires way { All (IsTurn cell.now.tree.now) cell.now.way.now }
    requires splits { All (HasSplitRow (length qp.now.counts)) cell.now.tree.now }
    ensures { (law : Law) → AreFormed qp.now law rows.now
        → IsSearched (LawLeafMet qp.now (way_rows cell.now.tree.now cell.now.way.now) law certs.now)
        (LawLeafFinds qp.now (way_rows cell.now.tree.now cell.now.way.now) number law certs.now) result }
{
    for at_row in 0..qp.g.rows() {
        match is_row_refuted(
            alloc,
            qp,
            cell,
            &rows[at_row as usize],
            certs,
            number,
            at_row,
        ) {
            Ok(true) => {}
            Ok(false) => {
                return Ok(Some(Spot::LeafRow {
                    node: number,
                    row: at_row + 1,
                }));
            }
            Err(error) => return Err(error),
        }
    }
    Ok(None)
}

/// Whether the certificate of a leaf without a law shows that the leaf's cell has no admissible moves.
fn is_cell_refuted(
    alloc: Global,
    qp: &Qp,
    cell: &Cell,
    cert: &Cert,
    number: u64,
) -> Result<bool, CheckError>
    requires way { All (IsTurn cell.now.tree.now) cell.now.way.now }
    requires splits { All (HasSplitRow (length qp.now.counts)) cell.now.tree.now }
    ensures { IsDecided (CertFits (joint_system qp.now (way_rows cell.now.tree.now cell.now.way.now)) cert.now)
        (CertRefutes (joint_system qp.now (way_rows cell.now.tree.now cell.now.way.now)) cert.now) (CheckLeaf number 0) result }
{
    cell_theorems();
    let last = joint_rows(alloc, qp)?;
    let unknowns = qp.h.rows();
    let place = Place::CheckLeaf(number, 0);
    is_refuted(alloc, qp, cell, unknowns, last.as_slice(), cert, place)
}

/// What is found of a leaf without a law.
fn search_empty_leaf(
    alloc: Global,
    qp: &Qp,
    cell: &Cell,
    cert: &Cert,
    number: u64,
) -> Result<Option<Spot>, CheckError>
    requires way { All (IsTurn cell.now.tree.now) cell.now.way.now }
    requires splits { All (HasSplitRow (length qp.now.counts)) cell.now.tree.now }
    ensures { IsSearched (EmptyLeafMet qp.now (way_rows cell.now.tree.now cell.now.way.now) cert.now)
        (EmptyLeafFinds qp.now (way_rows cell.now.tree.now cell.now.way.now) number cert.now) result }
{
    match is_cell_refuted(alloc, qp, cell, cert, number) {
        Ok(true) => Ok(None),
        Ok(false) => Ok(Some(Spot::Leaf { node: number })),
        Err(error) => Err(error),
    }
}

/// The rows of the law at a place, counted from 0, where all of them are formed.
fn rows_at(borders: &[Vec<Formed>], place: usize, count: usize) -> Option<&[Formed]>
    ensures at { IfSome result (λ r. (rows : Vec Formed) × (slice_get borders.now place ≡ Some rows) × (r.now ≡ rows.items)) }
    ensures count { IfSome result (λ r. count ≤ length r.now) }
{
    let rows = borders.get(place)?.as_slice();
    if rows.len() < count {
        return None;
    }
    Some(rows)
}

/// What is found of a node with this number, at the end of this way. Where the rows of a leaf's law aren't formed yet, they are formed here.
pub(crate) fn search_node(
    alloc: Global,
    qp: &Qp,
    laws: &LawTable,
    borders: &[Vec<Formed>],
    cell: &Cell,
    node: &Node,
    number: u64,
) -> Result<Option<Spot>, CheckError>
    requires shapes { All (HasLawShape qp.now) laws.now }
    requires borders { AreBorders qp.now laws.now borders.now }
    requires named { NamesLaw (length laws.now) node.now }
    requires way { All (IsTurn cell.now.tree.now) cell.now.way.now }
    requires splits { All (HasSplitRow (length qp.now.counts)) cell.now.tree.now }
    ensures { IsSearched (NodeMet qp.now laws.now (way_rows cell.now.tree.now cell.now.way.now) node.now)
        (NodeFinds qp.now laws.now (way_rows cell.now.tree.now cell.now.way.now) number node.now) result }
{
    match node {
        Node::Split(_) => Ok(None),
        Node::Law { law, certs } => {
            let of_leaf = laws.at(*law as usize - 1);
            match rows_at(borders, *law as usize - 1, qp.g.rows() as usize) {
                Some(rows) => search_law_leaf(alloc, qp, cell, rows, certs, number),
                None => {
                    let rows = form_rows(alloc, qp, of_leaf)?;
                    search_law_leaf(alloc, qp, cell, rows.as_slice(), certs, number)
                }
            }
        }
        Node::NoMove { cert } => search_empty_leaf(alloc, qp, cell, cert, number),
    }
}
