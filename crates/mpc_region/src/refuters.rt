//! Rows that showed of earlier laws that their regions are empty: mostly those at the same places show it of the next ones.

ghost use Rattle.std.specs.Prelude.{◌≡◌, ℕ, ◌+◌, ◌*◌, ◌<◌, ◌≤◌, ◌^◌, IsTrue, length, slice_index, unsigned_abs, vec_len};
ghost use Rattle.mpc_space.specs.Matrix.{height};
ghost use Rattle.mpc_sets.specs.RowSet.{IsSetOfRows};
ghost use Rattle.mpc_rows.specs.Laws.{IsLaw, HasRegion};
ghost use Rattle.mpc_rows.specs.SetRuns.{RegionFits, LawRowsFit};
ghost use Rattle.mpc_minors.specs.Lines.{most_coefficient};
ghost use Rattle.mpc_region.specs.Refuters.{IsTableFor, box_number, law_number, region_rows, IsLine, AreLines, ShowsNone, AreSmallCounts, IsSmallRow, AreSmallNumbers, HasRoom};
ghost use Rattle.mpc_region.specs.Sweeps.{IsTableOf, swept_law, rights};

use mpc_frac::NoMemory;
use mpc_minors::{fits_within, have_no_point, most_coefficient};
use mpc_quotients::over_theorems;
use mpc_rows::{Qp, law_theorems, region_theorems};
use mpc_scaled::negative;
use mpc_sets::ActiveSet;
use mpc_simplex::Workspace;
use mpc_sweep::{Swept, sweep_theorems};
use std::alloc::Global;

/// How many refuters are kept.
const MOST_KEPT: usize = 32;

/// The greatest size of a right side of which rows are asked for a point.
const MOST_SIDE: u64 = 1 << 50;

/// Places of rows of a region's system, from 0: two rows for each state's bounds in the box, then the law's rows. There is one more
/// of them than there are states, of which there are two or three.
#[derive(Clone, Copy, Drop)]
struct Refuter {
    rows: [usize; 4],
}

/// The refuters of the last regions that were found empty, those that served last in front. No clause says that they
/// serve: what they show is shown each time.
#[derive(Drop)]
pub struct Refuters {
    items: Vec<Refuter>,
}

/// The number of a row of the box in a column, of which there is one for each state, and then the right side.
fn box_number(qp: &Qp, row: usize, column: usize) -> i64
    requires row { row < 2 * length qp.now.counts }
    requires counts { AreSmallCounts qp.now.counts }
    ensures { result ≡ box_number qp.now.counts row column }
{
    let state = row / 2;
    let is_least = row % 2 == 0;
    if column == qp.counts.len() {
        if is_least {
            0
        } else {
            *qp.counts.at(state) as i64
        }
    } else if column != state {
        0
    } else if is_least {
        -1
    } else {
        1
    }
}

/// The number of a row of the law in such a column, times a factor that all numbers of the row have.
fn law_number(qp: &Qp, table: &Swept, row: usize, column: usize) -> i64
    requires table { IsTableFor qp.now table.now }
    requires row { row < height qp.now.g }
    requires column { column ≤ length qp.now.counts }
    ensures value { result ≡ law_number qp.now table.now row column }
    ensures small { unsigned_abs result ≤ 2 ^ 62 }
{
    let unknowns = qp.h.rows() as usize;
    let first = unknowns + qp.g.rows() as usize;
    if column == qp.counts.len() {
        table.at(unknowns + row, first)
    } else {
        negative(table.at(unknowns + row, first + (column + 1)))
    }
}

/// Writes the numbers of a row of the region's system.
fn put_line(line: &mut [i64], qp: &Qp, table: &Swept, row: usize)
    requires table { IsTableFor qp.now table.now }
    requires row { row < region_rows qp.now }
    requires size { length line.old ≡ length qp.now.counts + 1 }
    requires counts { AreSmallCounts qp.now.counts }
    ensures { IsLine qp.now table.now row (length qp.now.counts + 1) line.new }
{
    let of_box = 2 * qp.counts.len();
    for column in 0..line.len() {
        line[column] = if row < of_box {
            box_number(qp, row, column)
        } else {
            law_number(qp, table, row - of_box, column)
        };
    }
}

/// Writes the numbers of so many rows at these places, one behind the other.
fn put_lines(lines: &mut [i64], qp: &Qp, table: &Swept, rows: &[usize])
    requires table { IsTableFor qp.now table.now }
    requires rows { (k : ℕ) → k < length rows.now → slice_index rows.now k < region_rows qp.now }
    requires size { length lines.old ≡ length rows.now * (length qp.now.counts + 1) }
    requires counts { AreSmallCounts qp.now.counts }
    ensures { AreLines qp.now table.now rows.now (length rows.now) lines.new }
{
    let columns = qp.counts.len() + 1;
    for index in 0..rows.len() {
        let line = &mut lines[index * columns..index * columns + columns];
        put_line(line, qp, table, rows[index]);
    }
}

/// Whether all of the places are of rows of the region's system.
fn are_rows(qp: &Qp, rows: &[usize]) -> bool
    ensures { IsTrue result → (k : ℕ) → k < length rows.now → slice_index rows.now k < region_rows qp.now }
{
    let count = 2 * qp.counts.len() + qp.g.rows() as usize;
    for row in rows {
        if *row >= count {
            return false;
        }
    }
    true
}

/// Whether the rows at the refuter's places show that the region is empty.
fn refutes(refuter: &Refuter, qp: &Qp, table: &Swept) -> bool
    requires few { length qp.now.counts ≤ 3 }
    requires table { IsTableFor qp.now table.now }
    requires small { AreSmallNumbers qp.now table.now }
    ensures { IsTrue result → ShowsNone qp.now table.now }
{
    let states = qp.counts.len();
    let rows = &refuter.rows[..states + 1];
    if !are_rows(qp, rows) {
        return false;
    }
    let mut lines = [0; 16];
    let used = &mut lines[..(states + 1) * (states + 1)];
    put_lines(used, qp, table, rows);
    have_no_point(states, used)
}

/// Whether the coefficients of a row of the law on the states, and its right side, are small.
fn is_small_row(qp: &Qp, table: &Swept, row: usize, most: u64) -> bool
    requires table { IsTableFor qp.now table.now }
    requires row { row < height qp.now.g }
    requires most { most ≡ most_coefficient (length qp.now.counts) }
    ensures { IsTrue result → IsSmallRow qp.now table.now row }
{
    let states = qp.counts.len();
    for column in 0..states {
        if law_number(qp, table, row, column).unsigned_abs() > most {
            return false;
        }
    }
    law_number(qp, table, row, states).unsigned_abs() <= MOST_SIDE
}

/// Whether that is so of all rows of the law.
fn are_small_rows(qp: &Qp, table: &Swept) -> bool
    requires { IsTableFor qp.now table.now }
    ensures { IsTrue result → (row : ℕ) → row < height qp.now.g → IsSmallRow qp.now table.now row }
{
    let most = most_coefficient(qp.counts.len());
    for row in 0..qp.g.rows() as usize {
        if !is_small_row(qp, table, row, most) {
            return false;
        }
    }
    true
}

/// Whether no count is above the greatest right side.
fn are_small_counts(qp: &Qp) -> bool
    ensures { IsTrue result → AreSmallCounts qp.now.counts }
{
    for count in qp.counts.as_slice() {
        if *count > MOST_SIDE {
            return false;
        }
    }
    true
}

/// Whether the sizes of the numbers show that the run of the region forms none that is wide, and that minors of its rows fit.
fn has_room(qp: &Qp, table: &Swept) -> bool
    requires { IsTableFor qp.now table.now }
    ensures { IsTrue result → HasRoom qp.now table.now }
{
    let states = qp.counts.len();
    let rows = 2 * states + qp.g.rows() as usize;
    let most = most_coefficient(states);
    fits_within(states, rows, most, MOST_SIDE) && are_small_counts(qp) && are_small_rows(qp, table)
}

/// Whether rows of so many states are asked for a point by their minors.
fn are_few(states: usize) -> bool
    ensures { IsTrue result → states ≤ 3 }
{
    states == 2 || states == 3
}

impl Refuters {
    /// None, which takes no memory.
    pub fn new(alloc: Global) -> Self {
        Refuters {
            items: Vec::new(alloc),
        }
    }

    /// Moves the refuter at the place to the front.
    fn bring(&mut self, place: usize)
        requires { place < vec_len self.old.items }
    {
        self.items[..place + 1].rotate_right(1);
    }

    /// Whether one of the refuters shows that the region of the set's law, which the table shows, is empty, where no
    /// number of its rows, nor of the run that asks for a point of it, is too wide.
    pub fn refute(&mut self, qp: &Qp, table: &Swept, set: ActiveSet) -> bool
        requires set_of_rows { IsSetOfRows (height qp.now.g) set }
        requires table { IsTableOf qp.now set (rights qp.now) table.now }
        requires law { IsLaw qp.now (swept_law qp.now set) }
        ensures empty { IsTrue result → ¬ HasRegion qp.now (swept_law qp.now set) }
        ensures rows_fit { IsTrue result → LawRowsFit qp.now (swept_law qp.now set) (height qp.now.g) }
        ensures region_fits { IsTrue result → RegionFits qp.now (swept_law qp.now set) }
    {
        law_theorems();
        region_theorems();
        sweep_theorems();
        over_theorems();
        let _ = set;
        let states = qp.counts.len();
        if !are_few(states) || !has_room(qp, table) {
            return false;
        }
        for place in 0..self.items.len() {
            if refutes(&self.items[place], qp, table) {
                self.bring(place);
                return true;
            }
        }
        false
    }

    /// Keeps the rows on which the last meeting of a region's rows hangs, which was missed, in the front. Where there are as many as
    /// are kept, the last one goes.
    pub fn note(&mut self, work: &Workspace, states: usize) -> Result<(), NoMemory> {
        if !are_few(states) {
            return Ok(());
        }
        let mut rows = [0; 4];
        for place in 0..states + 1 {
            let Some(row) = work.bearing_row(place) else {
                return Ok(());
            };
            rows[place] = row;
        }
        self.items.truncate(MOST_KEPT - 1);
        if self.items.insert(0, Refuter { rows }).is_err() {
            return Err(NoMemory);
        }
        Ok(())
    }
}
