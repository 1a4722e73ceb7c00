//! The upper part of the tree, which is grown in preorder at first and then breadth-first, with the cells that are left open below.

ghost use Rattle.std.specs.Prelude.{◌≡◌, ◌<◌, ◌≤◌, ◌^◌, ◌∷◌, [], All, IfOk, IfSome, IsTrue, OnOk, length, unsigned_abs};
ghost use Rattle.mpc_linear.specs.Whole.{AreSmall};
ghost use Rattle.mpc_tree.specs.Borders.{AreBorders};
ghost use Rattle.mpc_tree.specs.Growth.{IsOpenCell, RegionsCover};
ghost use Rattle.mpc_tree.specs.Missed.{IsSearch};
ghost use Rattle.mpc_tree.specs.Pieces.{AreSides, AreJoined, EndsRefused, IsOpen, IsFiner, all_of};

use crate::borders::Border;
use crate::errors::TreeError;
use crate::missed::Search;
use crate::nodes::{Placed, Visit, place_node};
use crate::runs::{KeptCell, OpenCell, copied_rows};
use crate::threads::Grow;
use mpc_frac::NoMemory;
use mpc_linear::RowInt;
use mpc_rows::{LawTable, Node, Place, Qp, Tree};
use mpc_simplex::Beginning;
use mpc_systems::{broken_row, cell_theorems, whole_row};
use std::alloc::Global;

/// How many open cells are enough: of fewer, one may take most of the time on four threads, and more would leave
/// more of the tree to rounds, each of which takes as long as its slowest group.
const ENOUGH: usize = 40;

/// So many nodes are grown first, one after another in preorder: where one of them is refused, no cell
/// behind it was opened in vain.
const FIRST_NODES: usize = 20;

/// After so many rounds the cells stay open, however few they are.
const MOST_ROUNDS: usize = 52;

/// A piece of a tree in preorder.
#[derive(Drop)]
pub enum Piece {
    /// Neighbouring nodes.
    Closed(Tree),
    /// A cell whose tree isn't built.
    Open(OpenCell),
    /// A cell whose tree is refused at this place, its nodes numbered from 1.
    Refused(Place),
}

/// A list of one piece.
fn one(alloc: Global, piece: Piece) -> Result<Vec<Piece>, NoMemory>
    ensures { IfOk result (λ pieces. pieces.items ≡ piece ∷ []) }
{
    let mut pieces = Vec::with_capacity(alloc, 1)?;
    pieces.push(piece)?;
    Ok(pieces)
}

/// One node as a piece.
fn closed(alloc: Global, node: Node) -> Result<Piece, NoMemory>
    ensures { IfOk result (λ piece. piece ≡ Piece.Closed (node ∷ [])) }
{
    let mut nodes = Tree::with_capacity(alloc, 1)?;
    nodes.push(node)?;
    Ok(Piece::Closed(nodes))
}

/// A cell that is divided by a row of the law at this place: the split and both sides, each with rows of
/// its own, the no side with the run of where the row fails.
fn split(
    alloc: Global,
    parent: OpenCell,
    row: &RowInt,
    broken: Option<Beginning>,
    place: usize,
) -> Result<Vec<Piece>, NoMemory>
    requires small { AreSmall row.now.a }
    requires b_small { unsigned_abs row.now.b < 2 ^ 127 }
    requires width { IfSome parent.cell.run (λ run. length row.now.a ≡ run.width) }
    requires room { place < 2 ^ 32 }
    ensures { IfOk result (λ pieces. AreSides parent row.now broken place pieces.items) }
{
    let mut rows = copied_rows(alloc, &parent.cell.rows)?;
    rows.push(broken_row(alloc, row)?)?;
    let no = OpenCell {
        cell: KeptCell { rows, run: broken },
        next: place + 1,
    };
    let mut yes = parent;
    yes.cell.narrow(alloc, whole_row(alloc, row)?)?;
    yes.next = place;
    let mut pieces = Vec::with_capacity(alloc, 3)?;
    pieces.push(closed(alloc, Node::Split(row.copy(alloc)?))?)?;
    pieces.push(Piece::Open(yes))?;
    pieces.push(Piece::Open(no))?;
    Ok(pieces)
}

/// The pieces that a cell is divided into: a leaf, a split with both sides open, or a refusal. The search
/// turns to the cell.
fn divided_cell(
    alloc: Global,
    kept: &mut Search,
    qp: &Qp,
    laws: &LawTable,
    borders: &[Border],
    parent: OpenCell,
) -> Result<Vec<Piece>, NoMemory>
    requires few { length laws.now < 2 ^ 32 }
    requires borders { AreBorders qp.now laws.now borders.now }
    requires cover { RegionsCover qp.now laws.now }
    requires parent { IsOpenCell qp.now laws.now parent }
    requires kept { IsSearch qp.now borders.now kept.old }
    ensures open { IfOk result (λ pieces. All (IsOpen qp.now laws.now) pieces.items) }
    ensures finer { IfOk result (λ pieces. IsFiner qp.now laws.now (Piece.Open parent ∷ []) pieces.items) }
    ensures kept { OnOk result (IsSearch qp.now borders.now kept.new) }
{
    cell_theorems();
    kept.turn_to(&parent.cell.rows);
    let at = Visit {
        next: parent.next,
        held: 0,
        node: 1,
    };
    let placed = place_node(alloc, kept, qp, laws, borders, &parent.cell, at);
    kept.rows = copied_rows(alloc, &parent.cell.rows)?;
    match placed {
        Ok(Placed::Split { place, row, run }) => {
            let row = &borders[place].as_slice()[row];
            split(alloc, parent, row, run, place)
        }
        Ok(Placed::Leaf(leaf)) => one(alloc, closed(alloc, leaf)?),
        Err(TreeError::Wide(place)) => one(alloc, Piece::Refused(place)),
        Err(TreeError::NoMemory) => Err(NoMemory),
    }
}

/// Whether the last of the pieces is a refused cell.
fn ends_refused(pieces: &[Piece]) -> bool
    ensures { IsTrue result → EndsRefused pieces.now }
{
    match pieces.last() {
        Some(Piece::Refused(_)) => true,
        _ => false,
    }
}

/// The pieces that a piece is divided into: those of an open cell while there are divisions left, or
/// else itself.
fn divided(
    alloc: Global,
    kept: &mut Search,
    qp: &Qp,
    laws: &LawTable,
    borders: &[Border],
    piece: Piece,
    left: &mut usize,
) -> Result<Vec<Piece>, NoMemory>
    requires few { length laws.now < 2 ^ 32 }
    requires borders { AreBorders qp.now laws.now borders.now }
    requires cover { RegionsCover qp.now laws.now }
    requires open { IsOpen qp.now laws.now piece }
    requires kept { IsSearch qp.now borders.now kept.old }
    ensures open { IfOk result (λ pieces. All (IsOpen qp.now laws.now) pieces.items) }
    ensures finer { IfOk result (λ pieces. IsFiner qp.now laws.now (piece ∷ []) pieces.items) }
    ensures kept { OnOk result (IsSearch qp.now borders.now kept.new) }
{
    if *left == 0 {
        return one(alloc, piece);
    }
    match piece {
        Piece::Open(parent) => {
            *left -= 1;
            divided_cell(alloc, kept, qp, laws, borders, parent)
        }
        other => one(alloc, other),
    }
}

/// The pieces with the first open cells divided, at most so many, in the same order. What comes behind a
/// refused cell is left out: whatever it says, what stands before it answers.
fn finer(
    alloc: Global,
    kept: &mut Search,
    qp: &Qp,
    laws: &LawTable,
    borders: &[Border],
    pieces: Vec<Piece>,
    most: usize,
) -> Result<Vec<Piece>, NoMemory>
    requires few { length laws.now < 2 ^ 32 }
    requires borders { AreBorders qp.now laws.now borders.now }
    requires cover { RegionsCover qp.now laws.now }
    requires open { All (IsOpen qp.now laws.now) pieces.items }
    requires kept { IsSearch qp.now borders.now kept.old }
    ensures open { IfOk result (λ finer. All (IsOpen qp.now laws.now) finer.items) }
    ensures finer { IfOk result (λ finer. IsFiner qp.now laws.now pieces.items finer.items) }
    ensures kept { OnOk result (IsSearch qp.now borders.now kept.new) }
{
    let mut finer = Vec::new(alloc);
    let mut left = most;
    for piece in pieces {
        let mut new = divided(alloc, kept, qp, laws, borders, piece, &mut left)?;
        finer.append(&mut new)?;
        if ends_refused(&finer) {
            return Ok(finer);
        }
    }
    Ok(finer)
}

/// The pieces with each open cell divided, in the same order, as far as a refused cell.
pub fn all_divided(
    alloc: Global,
    qp: &Qp,
    laws: &LawTable,
    borders: &[Border],
    pieces: Vec<Piece>,
) -> Result<Vec<Piece>, NoMemory>
    requires few { length laws.now < 2 ^ 32 }
    requires borders { AreBorders qp.now laws.now borders.now }
    requires cover { RegionsCover qp.now laws.now }
    requires open { All (IsOpen qp.now laws.now) pieces.items }
    ensures open { IfOk result (λ finer. All (IsOpen qp.now laws.now) finer.items) }
    ensures finer { IfOk result (λ finer. IsFiner qp.now laws.now pieces.items finer.items) }
{
    let mut kept = Search::new(alloc, laws.len())?;
    finer(alloc, &mut kept, qp, laws, borders, pieces, usize::MAX)
}

/// Whether the piece is an open cell.
fn is_open(piece: &Piece) -> bool {
    match piece {
        Piece::Open(_) => true,
        _ => false,
    }
}

/// How many of the pieces are open cells.
pub fn open_cells(pieces: &[Piece]) -> usize {
    pieces.iter().filter(|piece| is_open(piece)).count()
}

/// How many pieces there are as far as the first so many open cells.
fn pieces_up_to(pieces: &[Piece], cells: usize) -> usize
    ensures { result ≤ length pieces.now }
{
    let mut left = cells;
    for place in 0..pieces.len() {
        if left == 0 {
            return place;
        }
        if is_open(&pieces[place]) {
            left -= 1;
        }
    }
    pieces.len()
}

/// The pieces cut into so many groups of neighbours, at least one, with about as many open cells each.
pub fn groups(
    alloc: Global,
    mut pieces: Vec<Piece>,
    count: usize,
) -> Result<Vec<Vec<Piece>>, NoMemory>
    ensures { IfOk result (λ groups. all_of groups.items ≡ pieces.items) }
{
    let mut groups = Vec::new(alloc);
    for behind in (1..count).rev() {
        let cells = open_cells(&pieces) / (behind + 1);
        let front = pieces_up_to(&pieces, cells);
        let rest = pieces.split_off(front)?;
        groups.push(pieces)?;
        pieces = rest;
    }
    groups.push(pieces)?;
    Ok(groups)
}

/// The groups of pieces as one list, one behind the other, as far as a refused cell.
pub fn joined_groups(
    alloc: Global,
    groups: Vec<Result<Vec<Piece>, NoMemory>>,
) -> Result<Vec<Piece>, NoMemory>
    ensures { IfOk result (λ pieces. AreJoined groups.items pieces.items) }
{
    let mut pieces = Vec::new(alloc);
    for group in groups {
        let mut new = group?;
        let refused = ends_refused(&new);
        pieces.append(&mut new)?;
        if refused {
            return Ok(pieces);
        }
    }
    Ok(pieces)
}

/// The tree of an open cell in pieces, by a search before its first cell.
fn pieces_in<G: Grow>(
    by: &G,
    alloc: Global,
    kept: &mut Search,
    qp: &Qp,
    laws: &LawTable,
    borders: &[Border],
    root: OpenCell,
) -> Result<Vec<Piece>, NoMemory>
    requires few { length laws.now < 2 ^ 32 }
    requires borders { AreBorders qp.now laws.now borders.now }
    requires cover { RegionsCover qp.now laws.now }
    requires kept { IsSearch qp.now borders.now kept.old }
    requires root { IsOpenCell qp.now laws.now root }
    ensures open { IfOk result (λ pieces. All (IsOpen qp.now laws.now) pieces.items) }
    ensures finer { IfOk result (λ pieces. IsFiner qp.now laws.now (Piece.Open root ∷ []) pieces.items) }
{
    let mut pieces = Vec::new(alloc);
    pieces.push(Piece::Open(root))?;
    for round in 0..MOST_ROUNDS {
        let open = open_cells(&pieces);
        if open == 0 || ENOUGH <= open {
            break;
        }
        pieces = if round < FIRST_NODES {
            finer(alloc, kept, qp, laws, borders, pieces, 1)?
        } else {
            by.all_finer(alloc, qp, laws, borders, pieces)?
        };
    }
    Ok(pieces)
}

/// The tree of an open cell in pieces, as far as the first cell that is refused: divided in preorder by
/// the caller at first, and then breadth-first, until enough cells are open, or none.
pub fn pieces_of<G: Grow>(
    by: &G,
    alloc: Global,
    qp: &Qp,
    laws: &LawTable,
    borders: &[Border],
    root: OpenCell,
) -> Result<Vec<Piece>, NoMemory>
    requires few { length laws.now < 2 ^ 32 }
    requires borders { AreBorders qp.now laws.now borders.now }
    requires cover { RegionsCover qp.now laws.now }
    requires root { IsOpenCell qp.now laws.now root }
    ensures open { IfOk result (λ pieces. All (IsOpen qp.now laws.now) pieces.items) }
    ensures finer { IfOk result (λ pieces. IsFiner qp.now laws.now (Piece.Open root ∷ []) pieces.items) }
{
    let mut kept = Search::new(alloc, laws.len())?;
    pieces_in(by, alloc, &mut kept, qp, laws, borders, root)
}
