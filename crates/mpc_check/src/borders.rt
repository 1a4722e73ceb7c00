//! The rows of the laws that leaves name: they are formed once, before the leaves are searched.

ghost use Rattle.std.specs.Prelude.{◌≡◌, ◌<◌, All, IfOk, length, vec_len};
ghost use Rattle.mpc_space.specs.Matrix.{height};
ghost use Rattle.mpc_rows.specs.Laws.{HasLawShape};
ghost use Rattle.mpc_check.specs.Borders.{IsFormed, AreFormed, AreBorders, AreBordersOf, AreJoined};
ghost use Rattle.mpc_check.specs.LeafSystems.{NamesLaw};
ghost use Rattle.mpc_check.specs.Stretches.{IsStretchOf};

use crate::stretches::Stretch;
use mpc_frac::NoMemory;
use mpc_linear::{LinearError, RowInt};
use mpc_rows::{Law, LawTable, Node, Qp, Tree, law_row};
use std::alloc::Global;

/// A row of a law, as it was formed.
#[derive(Drop)]
pub enum Formed {
    /// The row.
    Row(RowInt),
    /// One of the numbers that form the row needs more than 128 bits.
    Wide,
}

/// The row of the law at this place, counted from 0.
fn form_row(alloc: Global, qp: &Qp, law: &Law, at_row: u32) -> Result<Formed, NoMemory>
    requires shape { HasLawShape qp.now law.now }
    requires row { at_row < height qp.now.g }
    ensures { IfOk result (IsFormed qp.now law.now at_row) }
{
    match law_row(alloc, qp, law, at_row + 1) {
        Ok(row) => Ok(Formed::Row(row)),
        Err(LinearError::Wide(_)) => Ok(Formed::Wide),
        Err(LinearError::NoMemory) => Err(NoMemory),
    }
}

/// The rows of the law, one for each row of the program.
pub fn form_rows(alloc: Global, qp: &Qp, law: &Law) -> Result<Vec<Formed>, NoMemory>
    requires { HasLawShape qp.now law.now }
    ensures rows { IfOk result (λ v. AreFormed qp.now law.now v.items) }
    ensures one_each { IfOk result (λ v. vec_len v ≡ height qp.now.g) }
{
    let mut rows = Vec::new(alloc);
    for at_row in 0..qp.g.rows() {
        let row = form_row(alloc, qp, law, at_row)?;
        rows.push(row).map_err(|_| NoMemory)?;
    }
    Ok(rows)
}

/// Which of so many laws are named by a leaf.
pub fn named_laws(alloc: Global, count: usize, tree: &Tree) -> Result<Vec<bool>, NoMemory>
    requires { All (NamesLaw count) tree.now }
    ensures { IfOk result (λ v. vec_len v ≡ count) }
{
    let Ok(mut named) = vec![in alloc; false; count] else {
        return Err(NoMemory);
    };
    for node in tree.as_slice() {
        if let Node::Law { law, .. } = node {
            named[*law as usize - 1] = true;
        }
    }
    Ok(named)
}

/// The rows of the law where it is named, and else none.
fn rows_where(alloc: Global, qp: &Qp, law: &Law, named: bool) -> Result<Vec<Formed>, NoMemory>
    requires { HasLawShape qp.now law.now }
    ensures { IfOk result (λ v. AreFormed qp.now law.now v.items) }
{
    if named {
        form_rows(alloc, qp, law)
    } else {
        Ok(Vec::new(alloc))
    }
}

/// The rows of each law of a stretch that is named, and none of the other laws.
pub fn form_stretch(
    alloc: Global,
    qp: &Qp,
    laws: &LawTable,
    named: &[bool],
    stretch: Stretch,
) -> Result<Vec<Vec<Formed>>, NoMemory>
    requires shapes { All (HasLawShape qp.now) laws.now }
    requires named { length named.now ≡ length laws.now }
    requires stretch { IsStretchOf (length laws.now) stretch }
    ensures { IfOk result (λ v. AreBordersOf qp.now laws.now stretch v.items) }
{
    let mut borders = Vec::new(alloc);
    for place in stretch.from..stretch.to {
        let rows = rows_where(alloc, qp, laws.at(place), named[place])?;
        borders.push(rows).map_err(|_| NoMemory)?;
    }
    Ok(borders)
}

/// The rows of stretches of laws as one list, one stretch behind the other.
pub fn joined(
    alloc: Global,
    parts: Vec<Result<Vec<Vec<Formed>>, NoMemory>>,
) -> Result<Vec<Vec<Formed>>, NoMemory>
    ensures { IfOk result (λ v. AreJoined parts.items v.items) }
{
    let mut borders = Vec::new(alloc);
    for part in parts {
        let mut more = part?;
        borders.append(&mut more).map_err(|_| NoMemory)?;
    }
    Ok(borders)
}
