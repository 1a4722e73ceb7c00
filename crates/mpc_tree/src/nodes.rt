//! What stands at one node of the tree.

ghost use Rattle.std.specs.Prelude.{◌≡◌, ◌+◌, ◌<◌, ◌≤◌, ◌^◌, Some, All, IsTrue, IfOk, IfErr, IfSome, MatchResult, length};
ghost use Rattle.mpc_rows.specs.RunWidth.{RunFits};
ghost use Rattle.mpc_simplex.specs.Answer.{HasPoint, IfWide as IfRunWide};
ghost use Rattle.mpc_systems.specs.Writing.{HasBoxWidth, IsOfSize, AreOfSize};
ghost use Rattle.mpc_tree.specs.Borders.{AreBorders};
ghost use Rattle.mpc_tree.specs.Causes.{IfWide};
ghost use Rattle.mpc_tree.specs.CellRuns.{IsOpenAt, IsRunOf};
ghost use Rattle.mpc_tree.specs.Cells.{NoneMeetsBefore};
ghost use Rattle.mpc_tree.specs.Ends.{IsEndOf};
ghost use Rattle.mpc_tree.specs.Growth.{RegionsCover, NextFits, MeetsNext, HoldFirst, AreLeftOut, IsLeftOutOf, IsFirstMeeting, IsHeldBehind, IsHeld, NamesWideRow, IsPlaced};
ghost use Rattle.mpc_tree.specs.Joints.{AreJoints};
ghost use Rattle.mpc_tree.specs.LeafCerts.{IsCertOf, AreCertsOf};
ghost use Rattle.mpc_tree.specs.Missed.{IsRegion, IsSearchOf};
ghost use Rattle.mpc_tree.specs.NodeRuns.{HoldsFit};
ghost use Rattle.mpc_systems.specs.Systems.{meet_system, hold_system, joint_system};
ghost use Rattle.mpc_tree.specs.WideRuns.{IsWideAt};

use crate::borders::Border;
use crate::certs::{End, broken_end, plain_end};
use crate::errors::TreeError;
use crate::joints::Joints;
use crate::missed::Search;
use crate::runs::KeptCell;
use mpc_frac::NoMemory;
use mpc_linear::RowInt;
use mpc_region::has_point;
use mpc_rows::{Cert, Certs, LawTable, Node, Place, Qp, Row};
use mpc_simplex::{Beginning, Meeting, SimplexError, Workspace};
use mpc_systems::{cell_theorems, hold_system, joint_system, meet_system};
use std::alloc::Global;

/// A visit to a node: the place of the law, from 0, with which its search goes on, how many first rows of this
/// law are known to hold on the cell, and the node's number. Where there are such rows, the law is known to
/// meet the cell.
#[derive(Clone, Copy, Drop)]
pub struct Visit {
    pub next: usize,
    pub held: usize,
    pub node: u64,
}

/// A law that meets a cell: its place, from 0, and how many of its first rows are known to hold on the cell, and
/// their runs to fit, though none was made.
#[derive(Clone, Copy, Drop)]
pub struct Met {
    pub place: usize,
    pub held: usize,
}

/// Whether the rows of a law hold on a cell.
#[derive(Drop)]
pub enum Held {
    /// The row at this place, from 0, is the first that fails at a state of the cell. The run of where
    /// it fails comes with it, if it is kept.
    Fails {
        place: usize,
        run: Option<Beginning>,
    },
    /// All rows hold, as these certificates show.
    Holds(Certs),
}

/// Where a region lies to a cell.
#[derive(Clone, Copy, Drop)]
pub enum Region {
    /// It meets the cell.
    Met,
    /// It doesn't, as so many first rows of the cell are enough to show.
    Missed(usize),
}

/// What stands at a node.
#[derive(Drop)]
pub enum Placed {
    /// A split by a row of a law, both at their places, from 0, with the run of the no side's cell, if
    /// it is kept.
    Split {
        place: usize,
        row: usize,
        run: Option<Beginning>,
    },
    /// A leaf.
    Leaf(Node),
}

/// Whether the region with these rows meets the cell, by the run that is kept of the cell. Nothing where none is, or where whole numbers
/// don't serve. The first rows of the run are those of the box, two for each count.
fn kept_answer(
    alloc: Global,
    work: &mut Workspace,
    qp: &Qp,
    cell: &KeptCell,
    border: &Border,
) -> Result<Option<Region>, NoMemory>
    requires run { IsRunOf qp.now cell.now.rows.items cell.now.run }
    requires open { IsOpenAt cell.now.run work.old }
    ensures open { IsOpenAt cell.now.run work.new }
    ensures answer { IfOk result (λ o. IfSome o (IsRegion qp.now cell.now.rows.items border.now)) }
    ensures fits { IfOk result (λ o. IfSome o (λ _. RunFits (meet_system qp.now cell.now.rows.items border.now))) }
{
    let Some(run) = &cell.run else {
        return Ok(None);
    };
    let Some(rows) = border.whole(qp.counts.len()) else {
        return Ok(None);
    };
    match run.meeting(alloc, work, rows)? {
        Some(Meeting::Point) => Ok(Some(Region::Met)),
        Some(Meeting::Missed(first)) => {
            let own = first.saturating_sub(2 * qp.counts.len());
            Ok(Some(Region::Missed(own)))
        }
        None => Ok(None),
    }
}

/// Whether the region with these rows meets the cell.
fn region_meets(
    alloc: Global,
    work: &mut Workspace,
    qp: &Qp,
    cell: &KeptCell,
    border: &Border,
) -> Result<Region, SimplexError>
    requires cell { HasBoxWidth qp.now cell.now.rows.items }
    requires run { IsRunOf qp.now cell.now.rows.items cell.now.run }
    requires open { IsOpenAt cell.now.run work.old }
    requires plain { AreOfSize (length qp.now.counts) border.now }
    ensures open { IsOpenAt cell.now.run work.new }
    ensures answer { IfOk result (IsRegion qp.now cell.now.rows.items border.now) }
    ensures wide { MatchResult result (λ _. RunFits (meet_system qp.now cell.now.rows.items border.now))
        (λ e. IfRunWide e (¬ RunFits (meet_system qp.now cell.now.rows.items border.now))) }
{
    match kept_answer(alloc, work, qp, cell, border) {
        Ok(Some(region)) => return Ok(region),
        Ok(None) => {}
        Err(NoMemory) => return Err(SimplexError::NoMemory),
    }
    let Ok(system) = meet_system(alloc, qp, &cell.rows, border.as_slice()) else {
        return Err(SimplexError::NoMemory);
    };
    match has_point(alloc, &system) {
        Ok(true) => Ok(Region::Met),
        Ok(false) => Ok(Region::Missed(cell.rows.len())),
        Err(error) => Err(error),
    }
}

/// Whether it is seen without a run that the one that asks for a point of the cell in the region with
/// these rows fits, and so each that asks for a point of the cell where one of the rows fails.
fn fits_behind(qp: &Qp, cell: &KeptCell, border: &Border) -> bool
    requires { IsRunOf qp.now cell.now.rows.items cell.now.run }
    ensures meets { IsTrue result → RunFits (meet_system qp.now cell.now.rows.items border.now) }
    ensures holds { IsTrue result → HoldsFit qp.now cell.now.rows.items border.now (length border.now) }
{
    let Some(run) = &cell.run else {
        return false;
    };
    match border.whole(qp.counts.len()) {
        Some(rows) => run.fits_with(rows),
        None => false,
    }
}

/// Whether first rows of the law with which the search goes on are known to hold on the cell, and so the law to
/// meet it, and it is seen without a run that those that would find this fit.
fn meets_next(qp: &Qp, cell: &KeptCell, borders: &[Border], at: Visit) -> bool
    requires run { IsRunOf qp.now cell.now.rows.items cell.now.run }
    requires within { 0 < at.held → at.next < length borders.now }
    ensures { IsTrue result → (0 < at.held) × NextFits qp.now borders.now (record { rows = cell.now.rows.items; next = at.next }) }
{
    0 < at.held && fits_behind(qp, cell, &borders[at.next])
}

/// A certificate that the row holds on the cell, or else that it fails at a state of the cell.
fn hold_end(
    alloc: Global,
    work: &mut Workspace,
    qp: &Qp,
    cell: &KeptCell,
    row: &RowInt,
) -> Result<End, SimplexError>
    requires cell { HasBoxWidth qp.now cell.now.rows.items }
    requires run { IsRunOf qp.now cell.now.rows.items cell.now.run }
    requires open { IsOpenAt cell.now.run work.old }
    requires plain { IsOfSize (length qp.now.counts) row.now }
    ensures open { IsOpenAt cell.now.run work.new }
    ensures end { IfOk result (IsEndOf (hold_system qp.now cell.now.rows.items row.now)) }
    ensures wide { MatchResult result (λ _. RunFits (hold_system qp.now cell.now.rows.items row.now))
        (λ e. IfRunWide e (¬ RunFits (hold_system qp.now cell.now.rows.items row.now))) }
{
    if let Some(run) = &cell.run {
        match broken_end(alloc, work, run, row) {
            Ok(Some(end)) => return Ok(end),
            Ok(None) => {}
            Err(NoMemory) => return Err(SimplexError::NoMemory),
        }
    }
    let Ok(system) = hold_system(alloc, qp, &cell.rows, row) else {
        return Err(SimplexError::NoMemory);
    };
    plain_end(alloc, &system)
}

/// The first law, from the next one on, whose region meets the cell of the node. A law that is known to be
/// missed is passed over where its run is seen to fit, so no refusal is lost; and so one that is known to be
/// met is found, with its rows that are known to hold.
fn first_meeting(
    alloc: Global,
    kept: &mut Search,
    qp: &Qp,
    laws: &LawTable,
    borders: &[Border],
    cell: &KeptCell,
    at: Visit,
) -> Result<Option<Met>, TreeError>
    requires few { length laws.now < 2 ^ 32 }
    requires borders { AreBorders qp.now laws.now borders.now }
    requires cell { HasBoxWidth qp.now cell.now.rows.items }
    requires run { IsRunOf qp.now cell.now.rows.items cell.now.run }
    requires open { IsOpenAt cell.now.run kept.old.work }
    requires kept { IsSearchOf qp.now borders.now cell.now.rows.items kept.old }
    requires before { NoneMeetsBefore qp.now laws.now cell.now.rows.items at.next }
    requires known { 0 < at.held → MeetsNext qp.now laws.now (record { rows = cell.now.rows.items; next = at.next }) }
    requires held { 0 < at.held → HoldFirst qp.now borders.now (record { rows = cell.now.rows.items; next = at.next }) at.held }
    ensures open { IsOpenAt cell.now.run kept.new.work }
    ensures kept { IsSearchOf qp.now borders.now cell.now.rows.items kept.new }
    ensures first { IfOk result (λ o. IsFirstMeeting qp.now laws.now (record { rows = cell.now.rows.items; next = at.next }) o) }
    ensures left_out { IfOk result (λ o. IfSome o (λ met. IsLeftOutOf qp.now borders.now (record { rows = cell.now.rows.items; next = met.place }) met.held)) }
    ensures below { IfOk result (λ o. IfSome o (λ met. (at.next ≤ met.place) × (met.place < length laws.now))) }
    ensures wide { IfErr result (λ e. IfWide e (IsWideAt qp.now laws.now (record { rows = cell.now.rows.items; next = at.next }) at.node)) }
{
    cell_theorems();
    if meets_next(qp, cell, borders, at) {
        return Ok(Some(Met {
            place: at.next,
            held: at.held,
        }));
    }
    for place in at.next..laws.len() {
        let border = &borders[place];
        if kept.missed.knows(place) && fits_behind(qp, cell, border) {
            continue;
        }
        match region_meets(alloc, &mut kept.work, qp, cell, border) {
            Ok(Region::Met) => return Ok(Some(Met { place, held: 0 })),
            Ok(Region::Missed(rows)) => kept.missed.note(place, rows),
            Err(SimplexError::Wide) => {
                return Err(TreeError::Wide(Place::Meet(at.node, place as u32 + 1)));
            }
            Err(SimplexError::NoMemory) => return Err(TreeError::NoMemory),
        }
    }
    Ok(None)
}

/// Whether the rows of the law that meets the cell of the node hold on it, behind those that are known to hold,
/// with the certificates of these further rows, or the first row that fails.
fn further_rows(
    alloc: Global,
    work: &mut Workspace,
    qp: &Qp,
    rows: &[RowInt],
    cell: &KeptCell,
    node: u64,
    met: Met,
) -> Result<Held, TreeError>
    requires few { length rows.now < 2 ^ 32 }
    requires few_laws { met.place + 1 < 2 ^ 32 }
    requires plain { AreOfSize (length qp.now.counts) rows.now }
    requires cell { HasBoxWidth qp.now cell.now.rows.items }
    requires run { IsRunOf qp.now cell.now.rows.items cell.now.run }
    requires open { IsOpenAt cell.now.run work.old }
    requires left_out { AreLeftOut qp.now cell.now.rows.items rows.now met.held }
    ensures open { IsOpenAt cell.now.run work.new }
    ensures held { IfOk result (λ h. IsHeldBehind qp.now cell.now.rows.items rows.now met.held h) }
    ensures wide { IfErr result (λ e. IfWide e (NamesWideRow qp.now cell.now.rows.items rows.now node (met.place + 1))) }
{
    cell_theorems();
    let mut certs = Certs::new(alloc);
    for place in met.held..rows.len() {
        match hold_end(alloc, work, qp, cell, &rows[place]) {
            Ok(End::Refuted(cert)) => certs.push(cert)?,
            Ok(End::Point(run)) => return Ok(Held::Fails { place, run }),
            Err(SimplexError::Wide) => {
                let wide = Place::Holds(node, met.place as u32 + 1, place as u32 + 1);
                return Err(TreeError::Wide(wide));
            }
            Err(SimplexError::NoMemory) => return Err(TreeError::NoMemory),
        }
    }
    Ok(Held::Holds(certs))
}

/// The certificates of the first so many rows, which are known to hold on the cell, and their runs to fit. The
/// list has room for those of the other rows.
fn first_certs(
    alloc: Global,
    work: &mut Workspace,
    qp: &Qp,
    rows: &[RowInt],
    cell: &KeptCell,
    count: usize,
) -> Result<Certs, NoMemory>
    requires plain { AreOfSize (length qp.now.counts) rows.now }
    requires cell { HasBoxWidth qp.now cell.now.rows.items }
    requires run { IsRunOf qp.now cell.now.rows.items cell.now.run }
    requires open { IsOpenAt cell.now.run work.old }
    requires left_out { AreLeftOut qp.now cell.now.rows.items rows.now count }
    ensures { IfOk result (AreCertsOf qp.now cell.now.rows.items rows.now count) }
{
    cell_theorems();
    let mut certs = Certs::with_capacity(alloc, rows.len())?;
    for place in 0..count {
        match hold_end(alloc, work, qp, cell, &rows[place]) {
            Ok(End::Refuted(cert)) => certs.push(cert)?,
            Ok(End::Point(_)) => unreachable!(),
            Err(SimplexError::Wide) => unreachable!(),
            Err(SimplexError::NoMemory) => return Err(NoMemory),
        }
    }
    Ok(certs)
}

/// Whether the rows of the law that meets the cell of the node hold on it, with the certificates or the first
/// row that fails. Those that are known to hold are left out at first, as their runs are known to fit: they are
/// run where no other row fails, for their certificates.
fn first_failing(
    alloc: Global,
    work: &mut Workspace,
    qp: &Qp,
    rows: &[RowInt],
    cell: &KeptCell,
    node: u64,
    met: Met,
) -> Result<Held, TreeError>
    requires few { length rows.now < 2 ^ 32 }
    requires few_laws { met.place + 1 < 2 ^ 32 }
    requires plain { AreOfSize (length qp.now.counts) rows.now }
    requires cell { HasBoxWidth qp.now cell.now.rows.items }
    requires run { IsRunOf qp.now cell.now.rows.items cell.now.run }
    requires open { IsOpenAt cell.now.run work.old }
    requires left_out { AreLeftOut qp.now cell.now.rows.items rows.now met.held }
    ensures held { IfOk result (λ h. IsHeld qp.now cell.now.rows.items rows.now h) }
    ensures wide { IfErr result (λ e. IfWide e (NamesWideRow qp.now cell.now.rows.items rows.now node (met.place + 1))) }
{
    match further_rows(alloc, work, qp, rows, cell, node, met)? {
        Held::Fails { place, run } => Ok(Held::Fails { place, run }),
        Held::Holds(further) => {
            let mut certs = first_certs(alloc, work, qp, rows, cell, met.held)?;
            certs.append(further)?;
            Ok(Held::Holds(certs))
        }
    }
}

/// The certificate that no state of the cell has admissible unknowns.
fn joint_cert(
    alloc: Global,
    joints: &mut Joints,
    qp: &Qp,
    cell: &[Row],
    node: u64,
) -> Result<Cert, TreeError>
    requires joints { AreJoints qp.now joints.old }
    requires cell { HasBoxWidth qp.now cell.now }
    requires no_point { ¬ HasPoint (joint_system qp.now cell.now) }
    ensures joints { AreJoints qp.now joints.new }
    ensures cert { IfOk result (λ cert. IsCertOf (joint_system qp.now cell.now) cert) }
    ensures fits { IfOk result (λ _. RunFits (joint_system qp.now cell.now)) }
    ensures wide { IfErr result (λ e. IfWide e (λ place. (place ≡ Place.Joint node) × (¬ RunFits (joint_system qp.now cell.now)))) }
{
    if let Some(cert) = joints.cert(alloc, qp, cell)? {
        return Ok(cert);
    }
    let system = joint_system(alloc, qp, cell)?;
    match plain_end(alloc, &system) {
        Ok(End::Refuted(cert)) => Ok(cert),
        Ok(End::Point(_)) => unreachable!(),
        Err(SimplexError::Wide) => Err(TreeError::Wide(Place::Joint(node))),
        Err(SimplexError::NoMemory) => Err(TreeError::NoMemory),
    }
}

/// What stands at the node of the cell. It is most of the code of its two callers, so the program has it once.
#[inline(never)]
pub fn place_node(
    alloc: Global,
    kept: &mut Search,
    qp: &Qp,
    laws: &LawTable,
    borders: &[Border],
    cell: &KeptCell,
    at: Visit,
) -> Result<Placed, TreeError>
    requires few { length laws.now < 2 ^ 32 }
    requires borders { AreBorders qp.now laws.now borders.now }
    requires cell { HasBoxWidth qp.now cell.now.rows.items }
    requires run { IsRunOf qp.now cell.now.rows.items cell.now.run }
    requires cover { RegionsCover qp.now laws.now }
    requires kept { IsSearchOf qp.now borders.now cell.now.rows.items kept.old }
    requires before { NoneMeetsBefore qp.now laws.now cell.now.rows.items at.next }
    requires known { 0 < at.held → MeetsNext qp.now laws.now (record { rows = cell.now.rows.items; next = at.next }) }
    requires held { 0 < at.held → HoldFirst qp.now borders.now (record { rows = cell.now.rows.items; next = at.next }) at.held }
    ensures kept { IsSearchOf qp.now borders.now cell.now.rows.items kept.new }
    ensures placed { IfOk result (λ p. IsPlaced qp.now laws.now borders.now (record { rows = cell.now.rows.items; next = at.next }) p) }
    ensures wide { IfErr result (λ e. IfWide e (IsWideAt qp.now laws.now (record { rows = cell.now.rows.items; next = at.next }) at.node)) }
{
    cell_theorems();
    cell.open(alloc, &mut kept.work)?;
    match first_meeting(alloc, kept, qp, laws, borders, cell, at)? {
        None => {
            let cert = joint_cert(alloc, &mut kept.joints, qp, &cell.rows, at.node)?;
            Ok(Placed::Leaf(Node::NoMove { cert }))
        }
        Some(met) => {
            let place = met.place;
            let rows = borders[place].as_slice();
            match first_failing(alloc, &mut kept.work, qp, rows, cell, at.node, met) {
                Ok(Held::Fails { place: row, run }) => Ok(Placed::Split { place, row, run }),
                Ok(Held::Holds(certs)) => {
                    let law = place as u32 + 1;
                    Ok(Placed::Leaf(Node::Law { law, certs }))
                }
                Err(error) => Err(error),
            }
        }
    }
}
