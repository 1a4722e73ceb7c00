//! The rows of the laws of a table, which bound their regions.

ghost use Rattle.std.specs.Prelude.{◌≡◌, ◌<◌, All, IfOk, IfSome, length, map};
ghost use Rattle.mpc_space.specs.Matrix.{height};
ghost use Rattle.mpc_rows.specs.LawRows.{whole_row};
ghost use Rattle.mpc_rows.specs.Laws.{IsLaw};
ghost use Rattle.mpc_rows.specs.SetRuns.{LawRowsFit};
ghost use Rattle.mpc_tree.specs.Borders.{IsBorder, AreBorders};
ghost use Rattle.mpc_tree.specs.WholeRows.{AreRowNumbers};

use crate::rows::{RowNumbers, row_numbers, rows_of};
use mpc_frac::NoMemory;
use mpc_linear::RowInt;
use mpc_rows::{Law, LawTable, Qp};
use mpc_scaled::WholeSystem;
use std::alloc::Global;
use std::marker::Model;

/// The rows of a law, in the order of the program's rows.
#[derive(Drop)]
pub struct Border {
    items: Vec<RowInt>,
    /// The same rows as a system in whole numbers, which is put behind that of a cell at once. Nothing where a number isn't small.
    whole: Option<WholeSystem>,
}

impl Model for Border {
    ghost use Rattle.std.specs.Prelude.{List};
    ghost use Rattle.mpc_linear.specs.declared.integers.RowInt.{RowInt};

    ghost Value = { List RowInt };

    ghost use Rattle.mpc_tree.specs.Borders.{AreWhole};

    ghost view = { λ v. v.items.items };

    ghost invariant = { λ v. AreWhole v.items.items v.whole };
}

impl Border {
    /// The list of these rows, in so many unknowns.
    pub fn of(alloc: Global, width: u32, items: Vec<RowInt>) -> Result<Self, NoMemory>
        requires { All (λ r. length r.a ≡ width) items.items }
        ensures { IfOk result (λ border. border ≡ items.items) }
    {
        let whole = WholeSystem::of_rows(alloc, width, &items)?;
        Ok(Border { items, whole })
    }

    /// The rows, in their order.
    pub fn as_slice(&self) -> &[RowInt]
        ensures { result.now ≡ self.now }
    {
        self.items.as_slice()
    }

    /// The rows as a system of so many unknowns in whole numbers, if they are kept as one.
    pub fn whole(&self, width: usize) -> Option<&WholeSystem>
        ensures { IfSome result (λ s. s.now ≡ record { width = width; rows = map whole_row self.now }) }
    {
        match &self.whole {
            Some(rows) => if rows.unknowns() == width {
                Some(rows)
            } else {
                None
            },
            None => None,
        }
    }
}

/// The rows of a law of which none is too wide.
fn border_of(
    alloc: Global,
    qp: &Qp,
    law: &Law,
    numbers: &Option<RowNumbers>,
) -> Result<Border, NoMemory>
    requires is_law { IsLaw qp.now law.now }
    requires fits { LawRowsFit qp.now law.now (height qp.now.g) }
    requires numbers { IfSome numbers.now (AreRowNumbers qp.now) }
    ensures { IfOk result (λ rows. IsBorder qp.now law.now rows) }
{
    let rows = rows_of(alloc, qp, law, numbers)?;
    Border::of(alloc, qp.counts.len() as u32, rows)
}

/// The rows of all laws, from the numbers of the program's rows where they serve.
fn borders_from(
    alloc: Global,
    qp: &Qp,
    laws: &LawTable,
    numbers: &Option<RowNumbers>,
) -> Result<Vec<Border>, NoMemory>
    requires are_laws { All (IsLaw qp.now) laws.now }
    requires fits { All (λ law. LawRowsFit qp.now law (height qp.now.g)) laws.now }
    requires numbers { IfSome numbers.now (AreRowNumbers qp.now) }
    ensures { IfOk result (λ borders. AreBorders qp.now laws.now borders.items) }
{
    let mut borders = Vec::new(alloc);
    for i in 0..laws.len() {
        let rows = border_of(alloc, qp, laws.at(i), numbers)?;
        let Ok(()) = borders.push(rows) else {
            return Err(NoMemory);
        };
    }
    Ok(borders)
}

/// The rows of all laws.
pub fn all_borders(alloc: Global, qp: &Qp, laws: &LawTable) -> Result<Vec<Border>, NoMemory>
    requires are_laws { All (IsLaw qp.now) laws.now }
    requires fits { All (λ law. LawRowsFit qp.now law (height qp.now.g)) laws.now }
    ensures { IfOk result (λ borders. AreBorders qp.now laws.now borders.items) }
{
    let numbers = row_numbers(alloc, qp)?;
    borders_from(alloc, qp, laws, &numbers)
}
