//! Cells with the runs that are kept of them.

ghost use Rattle.std.specs.Prelude.{◌≡◌, ◌≤◌, ◌++◌, ◌∷◌, [], IfOk, IfSome, IsTrue, OnOk, length, take};
ghost use Rattle.mpc_systems.specs.Writing.{HasBoxWidth};
ghost use Rattle.mpc_tree.specs.CellRuns.{IsOpenAt, IsRunOf, IsRunWith};

use mpc_frac::NoMemory;
use mpc_rows::{Qp, Row};
use mpc_simplex::{Beginning, Workspace};
use mpc_systems::meet_system;
use std::alloc::Global;

/// A cell of the search by its rows, and the run of the box and these rows, where one is kept: those
/// of its node and of its sides go on from there.
pub struct KeptCell {
    pub rows: Vec<Row>,
    pub run: Option<Beginning>,
}

/// It is dropped in many places, so the program has this once.
impl Drop for KeptCell {
    #[inline(never)]
    fn drop(self) {
        let KeptCell { rows: _, run: _ } = self;
    }
}

/// A cell whose tree isn't built, and the place of the law with which its search goes on.
#[derive(Drop)]
pub struct OpenCell {
    pub cell: KeptCell,
    pub next: usize,
}

/// The same rows once more.
pub fn copied_rows(alloc: Global, rows: &[Row]) -> Result<Vec<Row>, NoMemory>
    ensures { IfOk result (λ copy. copy.items ≡ rows.now) }
{
    let mut copy = Vec::new(alloc);
    for row in rows {
        let Ok(()) = copy.push(row.copy(alloc)?) else {
            return Err(NoMemory);
        };
    }
    Ok(copy)
}

/// Whether both rows are the same.
fn is_same(one: &Row, other: &Row) -> bool
    ensures { IsTrue result → one.now ≡ other.now }
{
    one.strict == other.strict && one.b == other.b && one.a.as_slice() == other.a.as_slice()
}

/// How many first rows the two lists have in common.
pub fn shared_rows(one: &[Row], other: &[Row]) -> usize
    ensures within { (result ≤ length one.now) × (result ≤ length other.now) }
    ensures alike { take result one.now ≡ take result other.now }
{
    let most = one.len().min(other.len());
    for place in 0..most {
        if !is_same(&one[place], &other[place]) {
            return place;
        }
    }
    most
}

/// The run with one more row. Nothing where there is none, or where whole numbers don't serve.
pub fn longer(
    alloc: Global,
    run: &Option<Beginning>,
    row: &Row,
) -> Result<Option<Beginning>, NoMemory>
    requires { IfSome run.now (λ run. length row.now.a ≡ run.width) }
    ensures { IfOk result (IsRunWith run.now row.now) }
{
    match run {
        Some(run) => run.extend(alloc, row),
        None => Ok(None),
    }
}

impl KeptCell {
    /// The cell with these rows, whose run is begun anew.
    pub fn of(alloc: Global, qp: &Qp, rows: Vec<Row>) -> Result<Self, NoMemory>
        requires { HasBoxWidth qp.now rows.items }
        ensures rows { IfOk result (λ cell. cell.rows.items ≡ rows.items) }
        ensures run { IfOk result (λ cell. IsRunOf qp.now cell.rows.items cell.run) }
    {
        let system = meet_system(alloc, qp, &rows, &[])?;
        let run = Beginning::begin(alloc, &system)?;
        Ok(KeptCell { rows, run })
    }

    /// Opens the workspace for the cell's run, if it is kept.
    pub fn open(&self, alloc: Global, work: &mut Workspace) -> Result<(), NoMemory>
        ensures { IsOpenAt self.now.run work.new }
    {
        match &self.run {
            Some(run) => run.open(alloc, work),
            None => Ok(()),
        }
    }

    /// Puts a row behind the cell's. The run goes on by that row, and is given up where whole numbers
    /// don't serve. Without memory the cell is no longer of use.
    pub fn narrow(&mut self, alloc: Global, row: Row) -> Result<(), NoMemory>
        requires { IfSome self.old.run (λ run. length row.a ≡ run.width) }
        ensures rows { OnOk result (self.new.rows.items ≡ self.old.rows.items ++ row ∷ []) }
        ensures run { OnOk result (IsRunWith self.old.run row self.new.run) }
    {
        self.run = longer(alloc, &self.run, &row)?;
        if self.rows.push(row).is_err() {
            return Err(NoMemory);
        }
        Ok(())
    }
}
