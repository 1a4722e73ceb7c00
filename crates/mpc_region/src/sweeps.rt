//! What is kept of a program from one of its sets to the next: the swept tables of the beginnings of the last set.

ghost use Rattle.std.specs.Prelude.{◌≡◌, ℕ, ◌+◌, ◌-◌, ◌<◌, ◌≤◌, ◌++◌, ◌∷◌, [], List, IfOk, OnOk, IfSome, IsTrue, length, get_or};
ghost use Rattle.std.specs.List.{range_with_len};
ghost use Rattle.mpc_space.specs.Definite.{IsDefinite};
ghost use Rattle.mpc_space.specs.Matrix.{height};
ghost use Rattle.mpc_sets.specs.RowSet.{IsSetOfRows};
ghost use Rattle.mpc_linear.specs.Elimination.{Table};
ghost use Rattle.mpc_rows.specs.declared.programs.Qp.{Qp};
ghost use Rattle.mpc_sweep.specs.Numbers.{IsSwept, IsTable};
ghost use Rattle.mpc_region.specs.Shared.{shared_entry};
ghost use Rattle.mpc_region.specs.Sweeps.{rights, all_columns, IsTableOf};
ghost use Rattle.mpc_region.specs.SweptSets.{AreSweeps, IsSweptEnd};

use crate::kept::shared_members;
use crate::rows::{LawLines, no_lines};
use crate::shared::shared_table;
use mpc_frac::NoMemory;
use mpc_rows::Qp;
use mpc_sets::ActiveSet;
use mpc_sweep::{Swept, sweep_theorems};
use std::alloc::Global;
use std::mem::swap;

/// What is kept of a program from one of its sets to the next.
#[derive(Drop)]
pub struct Sweeps {
    /// The last set whose law was to be found.
    pub set: ActiveSet,
    /// In place k the table of the first k members of the set, for each k below the count. Behind these is
    /// room for more.
    pub tables: Vec<Swept>,
    /// How many tables there are: none where whole numbers don't serve.
    pub count: usize,
    /// The table of the whole set, in the right sides, once it is formed.
    pub last: Swept,
    /// The rows of the last law.
    pub lines: LawLines,
}

/// What the tables tell of the law of an active set.
#[derive(Drop)]
pub enum SweptEnd {
    /// The set's rows are dependent.
    Dependent,
    /// There is a law. The table of the whole set would show it.
    Law,
}

/// No table is kept, and none will be.
pub fn no_sweeps(alloc: Global) -> Sweeps
    ensures { (qp : Qp) → AreSweeps qp result }
{
    Sweeps {
        set: ActiveSet::empty(),
        tables: Vec::new(alloc),
        count: 0,
        last: Swept::empty(alloc),
        lines: no_lines(alloc),
    }
}

/// Sweeps the table at one more row, if its number on the diagonal isn't 0.
fn sweep_into(table: &Swept, out: &mut Swept, pivot: usize, first: usize) -> Result<bool, NoMemory>
    requires table { IsTable table.now }
    requires row { pivot < table.now.rows }
    requires column { pivot < table.now.columns }
    requires first { first ≤ table.now.columns }
    ensures { IfOk result (λ done. IsTrue done → (t : Table) (ps : List ℕ) (rows columns from : ℕ) → IsSwept t ps rows columns from table.now
        → from ≤ pivot → pivot < first → ((k : ℕ) → k < length ps → get_or ps k 0 < pivot) → IsSwept t (ps ++ pivot ∷ []) rows columns first out.new) }
{
    if table.at(pivot, pivot) == 0 {
        return Ok(false);
    }
    table.sweep(out, pivot, first)
}

/// The table once it is swept at the rows of h.
fn swept_at_unknowns(alloc: Global, qp: &Qp, whole: Swept) -> Result<Option<Swept>, NoMemory>
    requires { IsSwept (shared_entry qp.now) [] (rights qp.now) (all_columns qp.now) 0 whole }
    ensures { IfOk result (λ o. IfSome o (IsSwept (shared_entry qp.now) (range_with_len 0 (height qp.now.h)) (rights qp.now) (all_columns qp.now) (height qp.now.h))) }
{
    let mut table = whole;
    for pivot in 0..qp.h.rows() as usize {
        let mut next = Swept::empty(alloc);
        if !sweep_into(&table, &mut next, pivot, pivot + 1)? {
            return Ok(None);
        }
        table = next;
    }
    Ok(Some(table))
}

/// The table of no member. Nothing where whole numbers don't serve.
fn first_table(alloc: Global, qp: &Qp) -> Result<Option<Swept>, NoMemory>
    ensures { IfOk result (λ o. IfSome o (IsSwept (shared_entry qp.now) (range_with_len 0 (height qp.now.h)) (rights qp.now) (all_columns qp.now) (height qp.now.h))) }
{
    let table = shared_table(alloc, qp)?;
    match Swept::read(alloc, &table)? {
        Some(whole) => swept_at_unknowns(alloc, qp, whole),
        None => Ok(None),
    }
}

/// The tables before the first set, where this is that of no member.
fn sweeps_from(alloc: Global, _qp: &Qp, first: Swept) -> Result<Sweeps, NoMemory>
    requires { IsSwept (shared_entry _qp.now) (range_with_len 0 (height _qp.now.h)) (rights _qp.now) (all_columns _qp.now) (height _qp.now.h) first }
    ensures { IfOk result (AreSweeps _qp.now) }
{
    let mut tables = Vec::new(alloc);
    let Ok(()) = tables.push(first) else {
        return Err(NoMemory);
    };
    Ok(Sweeps {
        set: ActiveSet::empty(),
        tables,
        count: 1,
        last: Swept::empty(alloc),
        lines: no_lines(alloc),
    })
}

/// The tables before the first set: that of no member, where whole numbers serve.
pub fn begin(alloc: Global, qp: &Qp) -> Result<Sweeps, NoMemory>
    ensures { IfOk result (AreSweeps qp.now) }
{
    match first_table(alloc, qp)? {
        Some(first) => sweeps_from(alloc, qp, first),
        None => Ok(no_sweeps(alloc)),
    }
}

/// Where the member of the set at an index, counted from 1, stands among the rows and the columns of the table.
fn member_place(qp: &Qp, set: ActiveSet, index: u32) -> usize
    requires from_one { 1 ≤ index }
    requires member { index ≤ length set }
    ensures { result ≡ height qp.now.h + (get_or set (index - 1) 0 - 1) }
{
    qp.h.rows() as usize + (set.member(index) as usize - 1)
}

/// Room for one more table.
fn make_room(alloc: Global, qp: &Qp, sweeps: &mut Sweeps) -> Result<(), NoMemory>
    requires sweeps { AreSweeps qp.now sweeps.old }
    ensures sweeps { AreSweeps qp.now sweeps.new }
    ensures set { sweeps.new.set ≡ sweeps.old.set }
    ensures count { sweeps.new.count ≡ sweeps.old.count }
    ensures room { OnOk result (sweeps.new.count < length sweeps.new.tables.items) }
{
    if sweeps.tables.len() > sweeps.count {
        return Ok(());
    }
    let Ok(()) = sweeps.tables.push(Swept::empty(alloc)) else {
        return Err(NoMemory);
    };
    Ok(())
}

/// The table of one more member of the set, by that of those before. It is `false` where that doesn't
/// serve.
fn next_table(alloc: Global, qp: &Qp, sweeps: &mut Sweeps) -> Result<bool, NoMemory>
    requires sweeps { AreSweeps qp.now sweeps.old }
    requires set_of_rows { IsSetOfRows (height qp.now.g) sweeps.old.set }
    requires some { 0 < sweeps.old.count }
    requires member { sweeps.old.count ≤ length sweeps.old.set }
    ensures sweeps { AreSweeps qp.now sweeps.new }
    ensures set { sweeps.new.set ≡ sweeps.old.set }
    ensures one_more { IfOk result (λ done. IsTrue done → sweeps.new.count ≡ sweeps.old.count + 1) }
{
    make_room(alloc, qp, sweeps)?;
    let count = sweeps.count;
    prove!(count <= sweeps.set.size() as usize);
    let pivot = member_place(qp, sweeps.set, count as u32);
    if !sweep_into(
        &sweeps.tables[count - 1],
        &mut sweeps.last,
        pivot,
        pivot + 1,
    )? {
        return Ok(false);
    }
    swap(&mut sweeps.last, &mut sweeps.tables[count]);
    sweeps.count = count + 1;
    Ok(true)
}

/// Goes on to a set: the tables of the members with which the last set and this one begin alike stay,
/// and each further member's but the last one's comes behind, as long as they serve.
fn turn_to(alloc: Global, qp: &Qp, sweeps: &mut Sweeps, set: ActiveSet) -> Result<(), NoMemory>
    requires sweeps { AreSweeps qp.now sweeps.old }
    requires set_of_rows { IsSetOfRows (height qp.now.g) set }
    ensures sweeps { AreSweeps qp.now sweeps.new }
    ensures set { sweeps.new.set ≡ set }
{
    let shared = shared_members(sweeps.set, set);
    sweeps.count = sweeps.count.min(shared as usize + 1);
    sweeps.set = set;
    if sweeps.count == 0 {
        return Ok(());
    }
    for _count in sweeps.count..set.size() as usize {
        if !next_table(alloc, qp, sweeps)? {
            return Ok(());
        }
    }
    Ok(())
}

/// What the number of the set's last member on the diagonal tells, in the table of those before it.
fn last_end(qp: &Qp, sweeps: &Sweeps) -> SweptEnd
    requires definite { IsDefinite qp.now.h.rows }
    requires sweeps { AreSweeps qp.now sweeps.now }
    requires set_of_rows { IsSetOfRows (height qp.now.g) sweeps.now.set }
    requires few { length sweeps.now.set ≤ height qp.now.h }
    requires some { 0 < length sweeps.now.set }
    requires served { length sweeps.now.set ≤ sweeps.now.count }
    ensures { IsSweptEnd qp.now sweeps.now.set result }
{
    sweep_theorems();
    let size = sweeps.set.size();
    let pivot = member_place(qp, sweeps.set, size);
    let before = &sweeps.tables[size as usize - 1];
    if before.at(pivot, pivot) == 0 {
        return SweptEnd::Dependent;
    }
    SweptEnd::Law
}

/// Forms the table of a whole set that has members, in the right sides. It is `false` where whole numbers don't serve.
pub fn last_table(qp: &Qp, sweeps: &mut Sweeps) -> Result<bool, NoMemory>
    requires sweeps { AreSweeps qp.now sweeps.old }
    requires set_of_rows { IsSetOfRows (height qp.now.g) sweeps.old.set }
    requires some { 0 < length sweeps.old.set }
    requires served { length sweeps.old.set ≤ sweeps.old.count }
    ensures sweeps { AreSweeps qp.now sweeps.new }
    ensures table { IfOk result (λ done. IsTrue done → IsTableOf qp.now sweeps.old.set (rights qp.now) sweeps.new.last) }
{
    let size = sweeps.set.size();
    let pivot = member_place(qp, sweeps.set, size);
    let first = (qp.h.rows() + qp.g.rows()) as usize;
    sweep_into(
        &sweeps.tables[size as usize - 1],
        &mut sweeps.last,
        pivot,
        first,
    )
}

/// What the tables tell of the law of an active set. Nothing where whole numbers don't serve.
pub fn swept_end(
    alloc: Global,
    qp: &Qp,
    sweeps: &mut Sweeps,
    set: ActiveSet,
) -> Result<Option<SweptEnd>, NoMemory>
    requires definite { IsDefinite qp.now.h.rows }
    requires sweeps { AreSweeps qp.now sweeps.old }
    requires set_of_rows { IsSetOfRows (height qp.now.g) set }
    requires few { length set ≤ height qp.now.h }
    ensures sweeps { AreSweeps qp.now sweeps.new }
    ensures set { sweeps.new.set ≡ set }
    ensures some { IfOk result (λ o. IfSome o (λ _. 0 < sweeps.new.count)) }
    ensures served { IfOk result (λ o. IfSome o (λ _. length set ≤ sweeps.new.count)) }
    ensures end { IfOk result (λ o. IfSome o (IsSweptEnd qp.now set)) }
{
    sweep_theorems();
    turn_to(alloc, qp, sweeps, set)?;
    let size = set.size() as usize;
    if sweeps.count == 0 || sweeps.count < size {
        return Ok(None);
    }
    if size == 0 {
        return Ok(Some(SweptEnd::Law));
    }
    Ok(Some(last_end(qp, sweeps)))
}
