//! The growth of the tree, node by node in preorder.

ghost use Rattle.std.specs.Prelude.{◌≡◌, ◌+◌, ◌<◌, ◌≤◌, ◌^◌, ◌++◌, ◌∷◌, [], IfOk, IfErr, IfSome, IsSome, OnOk, length, take, unsigned_abs};
ghost use Rattle.mpc_linear.specs.Whole.{AreSmall};
ghost use Rattle.mpc_rows.specs.LawRows.{whole_row, broken_row};
ghost use Rattle.mpc_tree.specs.Borders.{AreBorders};
ghost use Rattle.mpc_tree.specs.Causes.{IfWide, IfRefused, IfGivenUp};
ghost use Rattle.mpc_tree.specs.CellRuns.{IsRunWith};
ghost use Rattle.mpc_tree.specs.Growth.{IsOpenCell, RegionsCover, IsBuilt, cell_of};
ghost use Rattle.mpc_tree.specs.Missed.{IsSearch, IsSearchOf};
ghost use Rattle.mpc_tree.specs.WideRuns.{IsFirstWide};

use crate::borders::Border;
use crate::errors::{Stop, TreeError};
use crate::missed::Search;
use crate::nodes::{Placed, Visit, place_node};
use crate::refusals::{Watch, is_called_off};
use crate::runs::{KeptCell, OpenCell};
use mpc_frac::NoMemory;
use mpc_linear::RowInt;
use mpc_rows::{LawTable, Node, Qp, Row, Tree};
use mpc_simplex::Beginning;
use mpc_systems::{broken_row, cell_theorems, whole_row};
use std::alloc::Global;
use std::mem::swap;

/// The no side of a split whose yes side comes first: how many rows its cell shares with the split's,
/// its last row, the run of its cell, if it is kept, and the place of the law with which its search
/// goes on.
#[derive(Drop)]
pub struct OpenSide {
    pub shared: usize,
    pub row: Row,
    pub run: Option<Beginning>,
    pub next: usize,
}

/// Puts a split behind the nodes, its no side, with the run of where the row fails, on the stack, and
/// its row behind the cell's.
fn open_split(
    alloc: Global,
    tree: &mut Tree,
    cell: &mut KeptCell,
    sides: &mut Vec<OpenSide>,
    row: &RowInt,
    broken: Option<Beginning>,
    place: usize,
) -> Result<(), NoMemory>
    requires small { AreSmall row.now.a }
    requires b_small { unsigned_abs row.now.b < 2 ^ 127 }
    requires width { IfSome cell.old.run (λ run. length row.now.a ≡ run.width) }
    requires room { place < 2 ^ 32 }
    ensures tree { OnOk result (tree.new ≡ tree.old ++ Node.Split row.now ∷ []) }
    ensures cell { OnOk result (cell.new.rows.items ≡ cell.old.rows.items ++ whole_row row.now ∷ []) }
    ensures run { OnOk result (IsRunWith cell.old.run (whole_row row.now) cell.new.run) }
    ensures sides { OnOk result (sides.new.items ≡ sides.old.items ++ record { shared = length cell.old.rows.items; row = broken_row row.now; run = broken; next = place + 1 } ∷ []) }
{
    let side = OpenSide {
        shared: cell.rows.len(),
        row: broken_row(alloc, row)?,
        run: broken,
        next: place + 1,
    };
    if sides.push(side).is_err() {
        return Err(NoMemory);
    }
    cell.narrow(alloc, whole_row(alloc, row)?)?;
    tree.push(Node::Split(row.copy(alloc)?))
}

/// Makes the cell that of the side, and answers with the place of the law with which its search
/// goes on.
fn enter(cell: &mut KeptCell, side: OpenSide) -> Result<usize, NoMemory>
    requires { side.shared ≤ length cell.old.rows.items }
    ensures cell { OnOk result (cell.new.rows.items ≡ take side.shared cell.old.rows.items ++ side.row ∷ []) }
    ensures run { OnOk result (cell.new.run ≡ side.run) }
    ensures next { IfOk result (λ next. next ≡ side.next) }
{
    let OpenSide {
        shared,
        row,
        run,
        next,
    } = side;
    cell.rows.truncate(shared);
    if cell.rows.push(row).is_err() {
        return Err(NoMemory);
    }
    cell.run = run;
    Ok(next)
}

/// A tree that grows: its nodes so far, the cell of the next one with the place of the law with which its search
/// goes on, and the no sides that are still to come, as a stack.
///
/// `held` counts first rows of that law that hold on the cell since the search was split by the last of
/// them: the next split is by a later one, so the search ends. Where there are any, the law is known to meet the cell.
#[derive(Drop)]
struct Growth {
    tree: Tree,
    cell: KeptCell,
    sides: Vec<OpenSide>,
    next: usize,
    held: usize,
}

impl Growth {
    /// Grows the tree to its end from its first node on, node by node in preorder. `Wide` numbers the nodes from 1. A
    /// tree that is watched is given up once it is called off.
    fn finish(
        &mut self,
        alloc: Global,
        kept: &mut Search,
        qp: &Qp,
        laws: &LawTable,
        borders: &[Border],
        watch: Option<Watch>,
    ) -> Result<(), Stop>
        requires few { length laws.now < 2 ^ 32 }
        requires borders { AreBorders qp.now laws.now borders.now }
        requires cover { RegionsCover qp.now laws.now }
        requires tree { self.old.tree ≡ [] }
        requires sides { self.old.sides.items ≡ [] }
        requires held { self.old.held ≡ 0 }
        requires root { IsOpenCell qp.now laws.now (record { cell = self.old.cell; next = self.old.next }) }
        requires kept { IsSearchOf qp.now borders.now self.old.cell.rows.items kept.old }
        ensures built { OnOk result (IsBuilt qp.now laws.now (record { rows = self.old.cell.rows.items; next = self.old.next }) self.new.tree) }
        ensures wide { IfErr result (λ e. IfRefused e (IsFirstWide qp.now laws.now (record { rows = self.old.cell.rows.items; next = self.old.next }) 1)) }
        ensures given_up { IfErr result (λ e. IfGivenUp e (IsSome watch.entry)) }
        ensures kept { OnOk result (IsSearchOf qp.now borders.now self.new.cell.rows.items kept.new) }
    {
        cell_theorems();
        'nodes: loop {
            if is_called_off(&watch) {
                return Err(Stop::GivenUp);
            }
            let at = Visit {
                next: self.next,
                held: self.held,
                node: self.tree.as_slice().len() as u64 + 1,
            };
            match place_node(alloc, kept, qp, laws, borders, &self.cell, at) {
                Ok(Placed::Split { place, row, run }) => {
                    let rows = borders[place].as_slice();
                    open_split(
                        alloc,
                        &mut self.tree,
                        &mut self.cell,
                        &mut self.sides,
                        &rows[row],
                        run,
                        place,
                    )?;
                    self.next = place;
                    self.held = row + 1;
                }
                Ok(Placed::Leaf(leaf)) => {
                    self.tree.push(leaf)?;
                    match self.sides.pop() {
                        Some(side) => {
                            kept.missed.forget(side.shared);
                            self.next = enter(&mut self.cell, side)?;
                        }
                        None => return Ok(()),
                    }
                    self.held = 0;
                }
                Err(error) => return Err(Stop::Refused(error)),
            }
        }
    }
}

/// The tree of an open cell, node by node in preorder. `Wide` numbers the nodes from 1. A tree that is watched is
/// given up once it is called off. Its list has no more room than its nodes need. The search turns to the cell, and
/// is left where the tree ends.
pub fn grown(
    alloc: Global,
    kept: &mut Search,
    qp: &Qp,
    laws: &LawTable,
    borders: &[Border],
    root: OpenCell,
    watch: Option<Watch>,
) -> Result<Tree, Stop>
    requires few { length laws.now < 2 ^ 32 }
    requires borders { AreBorders qp.now laws.now borders.now }
    requires cover { RegionsCover qp.now laws.now }
    requires root { IsOpenCell qp.now laws.now root }
    requires kept { IsSearch qp.now borders.now kept.old }
    ensures built { IfOk result (IsBuilt qp.now laws.now (cell_of root)) }
    ensures wide { IfErr result (λ e. IfRefused e (IsFirstWide qp.now laws.now (cell_of root) 1)) }
    ensures given_up { IfErr result (λ e. IfGivenUp e (IsSome watch.entry)) }
    ensures kept { OnOk result (IsSearch qp.now borders.now kept.new) }
{
    kept.turn_to(&root.cell.rows);
    let OpenCell { cell, next } = root;
    let mut growth = Growth {
        tree: Tree::new(alloc),
        cell,
        sides: Vec::new(alloc),
        next,
        held: 0,
    };
    growth.finish(alloc, kept, qp, laws, borders, watch)?;
    swap(&mut kept.rows, &mut growth.cell.rows);
    let mut tree = growth.tree;
    tree.shrink_to_fit();
    Ok(tree)
}

/// The same tree where nothing calls it off, by a search of its own.
pub fn grown_alone(
    alloc: Global,
    qp: &Qp,
    laws: &LawTable,
    borders: &[Border],
    root: OpenCell,
) -> Result<Tree, TreeError>
    requires few { length laws.now < 2 ^ 32 }
    requires borders { AreBorders qp.now laws.now borders.now }
    requires cover { RegionsCover qp.now laws.now }
    requires root { IsOpenCell qp.now laws.now root }
    ensures built { IfOk result (IsBuilt qp.now laws.now (cell_of root)) }
    ensures wide { IfErr result (λ e. IfWide e (IsFirstWide qp.now laws.now (cell_of root) 1)) }
{
    let mut kept = Search::new(alloc, laws.len())?;
    let end = grown(alloc, &mut kept, qp, laws, borders, root, None);
    drop(kept);
    match end {
        Ok(tree) => Ok(tree),
        Err(Stop::Refused(error)) => Err(error),
        Err(Stop::GivenUp) => unreachable!(),
    }
}
