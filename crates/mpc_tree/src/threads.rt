//! A tree whose open cells are built at once.

ghost use Rattle.std.specs.Prelude.{◌≡◌, ◌<◌, ◌^◌, All, IfOk, IfErr, IfSome, OnOk, length, slice_set};
ghost use Rattle.mpc_tree.specs.Borders.{AreBorders};
ghost use Rattle.mpc_tree.specs.Causes.{IfRefused, IfWide};
ghost use Rattle.mpc_tree.specs.Growth.{IsOpenCell, RegionsCover, IsBuilt, cell_of};
ghost use Rattle.mpc_tree.specs.Missed.{IsSearch};
ghost use Rattle.mpc_tree.specs.Pieces.{IsOpen, IsOfPiece, IsWideIn, AreFilled, IsWideAmong, IsDrawn, IsFiner, with_drawn};
ghost use Rattle.mpc_tree.specs.Joins.{place_behind, IsWideBehind};
ghost use Rattle.mpc_tree.specs.WideRuns.{IsFirstWide};

use crate::borders::Border;
use crate::errors::{Stop, TreeError};
use crate::frontier::{Piece, all_divided, groups, joined_groups, open_cells, pieces_of};
use crate::growth::{grown, grown_alone};
use crate::missed::Search;
use crate::refusals::{Refusals, Watch, is_called_off};
use crate::runs::{KeptCell, OpenCell, copied_rows};
use mpc_forks::{map_indices, map_vec};
use mpc_frac::NoMemory;
use mpc_rows::{LawTable, Place, Qp, Tree};
use std::alloc::Global;
use std::sync::atomic::{AtomicU64, Ordering};
use std::thread::{Threads, available_parallelism};

/// From how many laws on a tree is cut into pieces. That of fewer is built sooner than a few threads
/// are started.
const MANY_LAWS: usize = 60;

/// How many open cells there are for a thread at least: of fewer, one may take most of the time.
const CELLS_A_THREAD: usize = 4;

/// How many neighbouring pieces, open or not, a thread draws at once: what a search keeps of one cell serves for the next.
const STRETCH: u64 = 4;

/// How many open cells of the upper part there are for a thread in a round at least: one alone isn't worth its start.
const DIVIDED_A_THREAD: usize = 2;

/// What the open cell at a place among the pieces has become: its tree, or its refusal.
#[derive(Drop)]
pub struct Drawn {
    pub piece: usize,
    pub built: Piece,
}

/// The tree of an open cell that others read too, whose run is begun anew, unless it is called off.
fn drawn_cell(
    alloc: Global,
    kept: &mut Search,
    qp: &Qp,
    laws: &LawTable,
    borders: &[Border],
    root: &OpenCell,
    watch: Watch,
) -> Result<Tree, Stop>
    requires few { length laws.now < 2 ^ 32 }
    requires borders { AreBorders qp.now laws.now borders.now }
    requires cover { RegionsCover qp.now laws.now }
    requires root { IsOpenCell qp.now laws.now root.now }
    requires kept { IsSearch qp.now borders.now kept.old }
    ensures built { IfOk result (IsBuilt qp.now laws.now (cell_of root.now)) }
    ensures wide { IfErr result (λ e. IfRefused e (IsFirstWide qp.now laws.now (cell_of root.now) 1)) }
    ensures kept { OnOk result (IsSearch qp.now borders.now kept.new) }
{
    if is_called_off(&Some(watch)) {
        return Err(Stop::GivenUp);
    }
    let rows = copied_rows(alloc, &root.cell.rows)?;
    let own = OpenCell {
        cell: KeptCell::of(alloc, qp, rows)?,
        next: root.next,
    };
    grown(alloc, kept, qp, laws, borders, own, Some(watch))
}

/// What threads that build open cells share beside the pieces: the first of those that none has drawn, and the refusals.
#[derive(Clone, Copy, Drop)]
struct Share<'a, 'b> {
    next: &'a AtomicU64,
    refusals: &'b Refusals,
}

/// Draws the next pieces, and answers with the place of their first.
fn draw_stretch(share: Share) -> u64 {
    share.next.fetch_add(STRETCH, Ordering::SeqCst)
}

/// The place behind this one, if it was drawn with it, or else that of a piece that is drawn now.
fn next_place(share: Share, place: u64) -> u64 {
    match place.checked_add(1) {
        Some(next) if next % STRETCH != 0 => next,
        _ => draw_stretch(share),
    }
}

/// What becomes of the open cells that one thread draws, some neighbours after others by a number that all threads
/// share, until none is left or one is refused or called off: all that come later are, too.
fn drawn_cells(
    alloc: Global,
    kept: &mut Search,
    qp: &Qp,
    laws: &LawTable,
    borders: &[Border],
    pieces: &[Piece],
    share: Share,
) -> Result<Vec<Drawn>, NoMemory>
    requires few { length laws.now < 2 ^ 32 }
    requires borders { AreBorders qp.now laws.now borders.now }
    requires cover { RegionsCover qp.now laws.now }
    requires kept { IsSearch qp.now borders.now kept.old }
    requires open { All (IsOpen qp.now laws.now) pieces.now }
    ensures { IfOk result (λ drawn. All (IsDrawn qp.now laws.now pieces.now) drawn.items) }
{
    let refusals = share.refusals;
    let mut drawn = Vec::new(alloc);
    let mut place = draw_stretch(share);
    for _draw in 0..pieces.len() {
        let piece = place as usize;
        if pieces.len() <= piece {
            break;
        }
        place = next_place(share, place);
        let Piece::Open(root) = &pieces[piece] else {
            continue;
        };
        let watch = Watch { piece, refusals };
        let built = match drawn_cell(alloc, kept, qp, laws, borders, root, watch) {
            Ok(tree) => Piece::Closed(tree),
            Err(Stop::Refused(TreeError::Wide(place))) => {
                refusals.note(piece);
                let built = Piece::Refused(place);
                drawn.push(Drawn { piece, built })?;
                break;
            }
            Err(Stop::Refused(TreeError::NoMemory)) => return Err(NoMemory),
            Err(Stop::GivenUp) => break,
        };
        drawn.push(Drawn { piece, built })?;
    }
    Ok(drawn)
}

/// The same by a search of its own.
fn draw(
    alloc: Global,
    qp: &Qp,
    laws: &LawTable,
    borders: &[Border],
    pieces: &[Piece],
    share: Share,
) -> Result<Vec<Drawn>, NoMemory>
    requires few { length laws.now < 2 ^ 32 }
    requires borders { AreBorders qp.now laws.now borders.now }
    requires cover { RegionsCover qp.now laws.now }
    requires open { All (IsOpen qp.now laws.now) pieces.now }
    ensures { IfOk result (λ drawn. All (IsDrawn qp.now laws.now pieces.now) drawn.items) }
{
    let mut kept = Search::new(alloc, laws.len())?;
    drawn_cells(alloc, &mut kept, qp, laws, borders, pieces, share)
}

/// How the upper part of a tree is divided and the cells that are open below it are built. The bodies that stand here leave them to the
/// caller; what has [`Threads`] shares them out.
pub trait Grow {
    /// How many threads may build cells at once.
    fn threads_at_once(&self) -> usize {
        1
    }

    /// The pieces with each open cell divided, in the same order, as far as a refused cell.
    fn all_finer(
        &self,
        alloc: Global,
        qp: &Qp,
        laws: &LawTable,
        borders: &[Border],
        pieces: Vec<Piece>,
    ) -> Result<Vec<Piece>, NoMemory>
        requires few { length laws.now < 2 ^ 32 }
        requires borders { AreBorders qp.now laws.now borders.now }
        requires cover { RegionsCover qp.now laws.now }
        requires open { All (IsOpen qp.now laws.now) pieces.items }
        ensures open { IfOk result (λ finer. All (IsOpen qp.now laws.now) finer.items) }
        ensures finer { IfOk result (λ finer. IsFiner qp.now laws.now pieces.items finer.items) }
    {
        all_divided(alloc, qp, laws, borders, pieces)
    }

    /// What becomes of the open cells among the pieces, by the threads that have drawn them, at most so
    /// many. Those that are left to the caller, or called off, are lacking.
    fn all_drawn(
        &self,
        alloc: Global,
        qp: &Qp,
        laws: &LawTable,
        borders: &[Border],
        pieces: &[Piece],
        most: usize,
    ) -> Result<Vec<Result<Vec<Drawn>, NoMemory>>, NoMemory>
        requires few { length laws.now < 2 ^ 32 }
        requires borders { AreBorders qp.now laws.now borders.now }
        requires cover { RegionsCover qp.now laws.now }
        requires open { All (IsOpen qp.now laws.now) pieces.now }
        ensures { IfOk result (λ hands. All (λ hand. IfOk hand (λ drawn. All (IsDrawn qp.now laws.now pieces.now) drawn.items)) hands.items) }
    {
        Ok(Vec::new(alloc))
    }
}

/// As many threads as the machine runs at once divide groups of neighbouring cells, and draw those that are open below.
impl<T: Threads> Grow for T {
    fn threads_at_once(&self) -> usize {
        match available_parallelism(self) {
            Ok(at_once) => at_once.get(),
            Err(_) => 1,
        }
    }

    fn all_finer(
        &self,
        alloc: Global,
        qp: &Qp,
        laws: &LawTable,
        borders: &[Border],
        pieces: Vec<Piece>,
    ) -> Result<Vec<Piece>, NoMemory> {
        let count = self
            .threads_at_once()
            .min(open_cells(&pieces) / DIVIDED_A_THREAD);
        let groups = groups(alloc, pieces, count)?;
        let divide = |group: Vec<Piece>| all_divided(alloc, qp, laws, borders, group);
        match map_vec(self, groups, &divide) {
            Ok(groups) => joined_groups(alloc, groups),
            Err(_) => Err(NoMemory),
        }
    }

    fn all_drawn(
        &self,
        alloc: Global,
        qp: &Qp,
        laws: &LawTable,
        borders: &[Border],
        pieces: &[Piece],
        most: usize,
    ) -> Result<Vec<Result<Vec<Drawn>, NoMemory>>, NoMemory> {
        let draws = AtomicU64::new(0);
        let refusals = Refusals::none();
        let threads = most.min(open_cells(pieces) / CELLS_A_THREAD);
        let share = Share {
            next: &draws,
            refusals: &refusals,
        };
        let hand = |_| draw(alloc, qp, laws, borders, pieces, share);
        match map_indices(self, alloc, threads, &hand) {
            Ok(hands) => Ok(hands),
            Err(_) => Err(NoMemory),
        }
    }
}

/// Puts what an open cell has become in its place.
fn lay(pieces: &mut Vec<Piece>, drawn: Drawn)
    requires { drawn.piece < length pieces.old.items }
    ensures { pieces.new.items ≡ slice_set pieces.old.items drawn.piece drawn.built }
{
    pieces[drawn.piece] = drawn.built;
}

/// Puts what each of these open cells has become in its place.
fn lay_all(pieces: &mut Vec<Piece>, drawn: Vec<Drawn>)
    requires { All (λ d. d.piece < length pieces.old.items) drawn.items }
    ensures { pieces.new.items ≡ with_drawn pieces.old.items drawn.items }
{
    for one in drawn {
        lay(pieces, one);
    }
}

/// The nodes of a piece. An open cell is built, with `Wide` numbering its nodes from 1.
fn nodes_of(
    alloc: Global,
    qp: &Qp,
    laws: &LawTable,
    borders: &[Border],
    piece: Piece,
) -> Result<Tree, TreeError>
    requires few { length laws.now < 2 ^ 32 }
    requires borders { AreBorders qp.now laws.now borders.now }
    requires cover { RegionsCover qp.now laws.now }
    requires open { IsOpen qp.now laws.now piece }
    ensures built { IfOk result (IsOfPiece qp.now laws.now piece) }
    ensures wide { IfErr result (λ e. IfWide e (IsWideIn qp.now laws.now piece 1)) }
{
    match piece {
        Piece::Closed(nodes) => Ok(nodes),
        Piece::Open(root) => grown_alone(alloc, qp, laws, borders, root),
        Piece::Refused(place) => Err(TreeError::Wide(place)),
    }
}

/// The place of a run at a node, where so many nodes stand before those that were counted. Nothing
/// where the node has no number.
fn moved(place: Place, before: u64) -> Option<Place>
    ensures { IfSome result (λ moved. moved ≡ place_behind before place) }
{
    match place {
        Place::Meet(node, law) => Some(Place::Meet(node.checked_add(before)?, law)),
        Place::Holds(node, law, row) => Some(Place::Holds(node.checked_add(before)?, law, row)),
        Place::Joint(node) => Some(Place::Joint(node.checked_add(before)?)),
        other => Some(other),
    }
}

/// Why a piece isn't built, before whose nodes so many stand.
fn behind(error: TreeError, before: u64) -> TreeError
    ensures { IfWide result (IsWideBehind before error) }
{
    let TreeError::Wide(place) = error else {
        return TreeError::NoMemory;
    };
    match moved(place, before) {
        Some(place) => TreeError::Wide(place),
        None => TreeError::NoMemory,
    }
}

/// The tree of the pieces, one behind the other, or the refusal of the first that isn't built. Open
/// cells are built by the caller. The list has no more room than its nodes need.
fn joined(
    alloc: Global,
    qp: &Qp,
    laws: &LawTable,
    borders: &[Border],
    pieces: Vec<Piece>,
) -> Result<Tree, TreeError>
    requires few { length laws.now < 2 ^ 32 }
    requires borders { AreBorders qp.now laws.now borders.now }
    requires cover { RegionsCover qp.now laws.now }
    requires open { All (IsOpen qp.now laws.now) pieces.items }
    ensures filled { IfOk result (AreFilled qp.now laws.now pieces.items) }
    ensures wide { IfErr result (λ e. IfWide e (IsWideAmong qp.now laws.now pieces.items 1)) }
{
    let mut tree = Tree::new(alloc);
    for piece in pieces {
        match nodes_of(alloc, qp, laws, borders, piece) {
            Ok(nodes) => tree.append(nodes)?,
            Err(error) => return Err(behind(error, tree.len() as u64)),
        }
    }
    tree.shrink_to_fit();
    Ok(tree)
}

/// The tree of an open cell. The cells of its upper part are divided and those that are open below are
/// built by as many threads as there may be at once. Where that is one, nothing is cut. `Wide` numbers the
/// nodes from 1.
pub fn grown_by<G: Grow>(
    by: &G,
    alloc: Global,
    qp: &Qp,
    laws: &LawTable,
    borders: &[Border],
    root: OpenCell,
) -> Result<Tree, TreeError>
    requires few { length laws.now < 2 ^ 32 }
    requires borders { AreBorders qp.now laws.now borders.now }
    requires cover { RegionsCover qp.now laws.now }
    requires root { IsOpenCell qp.now laws.now root }
    ensures built { IfOk result (IsBuilt qp.now laws.now (cell_of root)) }
    ensures wide { IfErr result (λ e. IfWide e (IsFirstWide qp.now laws.now (cell_of root) 1)) }
{
    let most = by.threads_at_once();
    if most < 2 || laws.len() < MANY_LAWS {
        return grown_alone(alloc, qp, laws, borders, root);
    }
    let mut pieces = pieces_of(by, alloc, qp, laws, borders, root)?;
    let hands = by.all_drawn(alloc, qp, laws, borders, &pieces, most)?;
    for hand in hands {
        lay_all(&mut pieces, hand?);
    }
    joined(alloc, qp, laws, borders, pieces)
}
