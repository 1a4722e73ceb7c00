//! The law of an active set and the rows of the law, read from a table that is swept for the set.

ghost use Rattle.std.specs.Prelude.{◌≡◌, ◌+◌, ◌-◌, ◌<◌, ◌≤◌, ◌^◌, IfOk, OnOk, length, get_or, unsigned_abs, pos, ◌*ℤ◌, neg_ℤ};
ghost use Rattle.std.specs.Int.{◌∣◌};
ghost use Rattle.mpc_exact.specs.Gcd.{gcd};
ghost use Rattle.mpc_exact.specs.Rational.{frac};
ghost use Rattle.mpc_space.specs.Matrix.{height};
ghost use Rattle.mpc_sets.specs.RowSet.{IsSetOfRows};
ghost use Rattle.mpc_rows.specs.SetRuns.{LawRowsFit};
ghost use Rattle.mpc_sweep.specs.Numbers.{IsTable, number};
ghost use Rattle.mpc_sweep.specs.Sweeps.{swept};
ghost use Rattle.mpc_region.specs.Shared.{shared_entry};
ghost use Rattle.mpc_region.specs.Sweeps.{sweeps_of, rights, IsTableOf, swept_law};
ghost use Rattle.mpc_region.specs.SweptRows.{number_from, DividesEach, IsSharedBy, AreSides, IsRowFrom, AreRowsOf};

use mpc_frac::{Frac, NoMemory, fit_theorems, greatest_common_divisor};
use mpc_linear::Matrix;
use mpc_quotients::{over_theorems, turned};
use mpc_rows::{Law, Qp, law_theorems};
use mpc_scaled::WholeSystem;
use mpc_sets::ActiveSet;
use mpc_sweep::{Swept, sweep_theorems};
use mpc_systems::matrix_of;
use std::alloc::Global;

/// The greatest common divisor of two numbers, of which the first is often a divisor of the second.
#[inline]
fn shared_with(shared: u64, size: u64) -> u64
    ensures { result ≡ gcd shared size }
{
    if shared == 0 {
        return size;
    }
    if shared == 1 {
        return 1;
    }
    let rest = size % shared;
    if rest == 0 {
        return shared;
    }
    greatest_common_divisor(rest as u128, shared as u128) as u64
}

/// The greatest common divisor of so many numbers of a row, from the column `first` on; 0 where all are 0.
fn shared_divisor(table: &Swept, row: usize, first: usize, count: usize) -> u64
    requires table { IsTable table.now }
    requires row { row < table.now.rows }
    requires columns { first + count ≤ table.now.columns }
    ensures shared { IsSharedBy (number_from table.now row first) count result }
    ensures small { result ≤ 2 ^ 62 }
{
    let mut shared = 0;
    for index in 0..count {
        shared = shared_with(shared, table.at(row, first + index).unsigned_abs());
        if shared == 1 {
            return 1;
        }
    }
    shared
}

/// The greatest common divisor of the bound of a row, which stands in the column `first`, and of its sides behind that. It begins with
/// the sides: they share more, and the bound is the largest.
fn row_divisor(table: &Swept, row: usize, first: usize, sides: usize) -> u64
    requires table { IsTable table.now }
    requires row { row < table.now.rows }
    requires columns { first + (sides + 1) ≤ table.now.columns }
    ensures shared { IsSharedBy (number_from table.now row first) (sides + 1) result }
    ensures small { result ≤ 2 ^ 62 }
{
    let shared = shared_divisor(table, row, first + 1, sides);
    shared_with(shared, table.at(row, first).unsigned_abs())
}

/// The dividend over one of its divisors. The sizes are divided: where they fit 32 bits, the processor does that in a part of the time.
#[inline]
fn quotient(dividend: i64, by: u64) -> i64
    requires small { unsigned_abs dividend ≤ 2 ^ 62 }
    requires positive { 0 < by }
    requires divides { by ∣ unsigned_abs dividend }
    ensures value { result *ℤ pos by ≡ dividend }
    ensures small { unsigned_abs result ≤ 2 ^ 62 }
{
    if by == 1 {
        return dividend;
    }
    let size = dividend.unsigned_abs() / by;
    turned(dividend, size as i64)
}

/// Minus a number.
#[inline]
fn negated(value: i64) -> i64
    requires { unsigned_abs value ≤ 2 ^ 62 }
    ensures value { result ≡ neg_ℤ value }
    ensures small { unsigned_abs result ≤ 2 ^ 62 }
{
    -value
}

/// Writes the negatives of the numbers of a row behind the column `first`, each over a divisor of all.
fn write_sides(sides: &mut [i64], table: &Swept, row: usize, first: usize, by: u64)
    requires table { IsTable table.now }
    requires row { row < table.now.rows }
    requires columns { first + (length sides.old + 1) ≤ table.now.columns }
    requires positive { 0 < by }
    requires divides { DividesEach by (number_from table.now row first) (length sides.old + 1) }
    ensures size { length sides.new ≡ length sides.old }
    ensures sides { AreSides (number_from table.now row first) by sides.new }
{
    for index in 0..sides.len() {
        let side = quotient(table.at(row, first + (index + 1)), by);
        sides[index] = negated(side);
    }
}

/// Writes the sides of the row in t that a row of the table shows, without a common divisor. The result is its bound.
fn write_row(sides: &mut [i64], table: &Swept, row: usize, first: usize) -> i64
    requires table { IsTable table.now }
    requires row { row < table.now.rows }
    requires columns { first + (length sides.old + 1) ≤ table.now.columns }
    ensures { IsRowFrom (number_from table.now row first) (length sides.old) (record { a = sides.new; b = result }) }
{
    let shared = row_divisor(table, row, first, sides.len());
    let by = shared.max(1);
    write_sides(sides, table, row, first, by);
    quotient(table.at(row, first), by)
}

/// The rows of a law as a system in the unknowns t, in whole numbers, with room for the sides of the row that is formed.
#[derive(Drop)]
pub struct LawLines {
    pub rows: WholeSystem,
    sides: Vec<i64>,
}

/// No rows, which take no memory.
pub fn no_lines(alloc: Global) -> LawLines {
    LawLines {
        rows: WholeSystem::empty(alloc),
        sides: Vec::new(alloc),
    }
}

/// Makes the list so long.
fn make_sides(sides: &mut Vec<i64>, width: usize) -> Result<(), NoMemory>
    ensures { OnOk result (length sides.new.items ≡ width) }
{
    if sides.len() == width {
        return Ok(());
    }
    sides.clear();
    for _ in 0..width {
        sides.push(0)?;
    }
    Ok(())
}

/// The rows of the law that the table shows, in their order, in the room of other rows.
pub fn fill_rows(
    qp: &Qp,
    table: &Swept,
    set: ActiveSet,
    lines: &mut LawLines,
) -> Result<(), NoMemory>
    requires set_of_rows { IsSetOfRows (height qp.now.g) set }
    requires table { IsTableOf qp.now set (rights qp.now) table.now }
    ensures rows { OnOk result (AreRowsOf qp.now (swept_law qp.now set) lines.new.rows) }
    ensures fit { LawRowsFit qp.now (swept_law qp.now set) (height qp.now.g) }
{
    sweep_theorems();
    over_theorems();
    let _ = set;
    let unknowns = qp.h.rows() as usize;
    let count = qp.g.rows() as usize;
    lines.rows.restart(qp.counts.len())?;
    make_sides(&mut lines.sides, qp.counts.len())?;
    for row in 0..count {
        let bound = write_row(&mut lines.sides, table, unknowns + row, unknowns + count);
        lines.rows.push_small(&lines.sides, bound)?;
    }
    Ok(())
}

/// The entry in a row and a column of the table.
fn table_entry(table: &Swept, row: u32, column: u32) -> Frac
    requires table { IsTable table.now }
    requires row { row < table.now.rows }
    requires column { column < table.now.columns }
    ensures { result ≡ frac (number table.now row column) table.now.den }
{
    fit_theorems();
    let number = table.at(row as usize, column as usize);
    let below = table.den();
    match Frac::new(number as i128, below as i128) {
        Ok(x) => x,
        Err(_) => unreachable!(),
    }
}

/// The unknowns of the law that the table shows.
fn table_moves(alloc: Global, qp: &Qp, table: &Swept, set: ActiveSet) -> Result<Matrix, NoMemory>
    requires set_of_rows { IsSetOfRows (height qp.now.g) set }
    requires table { IsTableOf qp.now set (rights qp.now) table.now }
    ensures { IfOk result (λ m. m ≡ (swept_law qp.now set).moves) }
{
    let _ = set;
    let unknowns = qp.h.rows();
    let first = unknowns + qp.g.rows();
    let entry = |row, column| table_entry(table, row, first + column);
    matrix_of(alloc, unknowns, qp.f.cols(), &entry)
}

/// The entry in a column of the multiplier of the member at an index, both counted from 0.
fn mult_entry(qp: &Qp, table: &Swept, set: ActiveSet, index: u32, column: u32) -> Frac
    requires set_of_rows { IsSetOfRows (height qp.now.g) set }
    requires table { IsTableOf qp.now set (rights qp.now) table.now }
    requires member { index < length set }
    requires column { column < length qp.now.counts + 1 }
    ensures { result ≡ swept (shared_entry qp.now) (sweeps_of qp.now set) (height qp.now.h + (get_or set index 0 - 1)) (rights qp.now + column) }
{
    law_theorems();
    prove!(index < set.size());
    let unknowns = qp.h.rows();
    let first = unknowns + qp.g.rows();
    let member = set.member(index + 1);
    table_entry(table, unknowns + (member - 1), first + column)
}

/// The members' multipliers of the law that the table shows.
fn table_mults(alloc: Global, qp: &Qp, table: &Swept, set: ActiveSet) -> Result<Matrix, NoMemory>
    requires set_of_rows { IsSetOfRows (height qp.now.g) set }
    requires table { IsTableOf qp.now set (rights qp.now) table.now }
    ensures { IfOk result (λ m. m ≡ (swept_law qp.now set).mults) }
{
    let entry = |index, column| mult_entry(qp, table, set, index, column);
    matrix_of(alloc, set.size(), qp.f.cols(), &entry)
}

/// The law that the table shows.
pub fn law_of_table(alloc: Global, qp: &Qp, table: &Swept, set: ActiveSet) -> Result<Law, NoMemory>
    requires set_of_rows { IsSetOfRows (height qp.now.g) set }
    requires table { IsTableOf qp.now set (rights qp.now) table.now }
    ensures { IfOk result (λ law. law ≡ swept_law qp.now set) }
{
    Ok(Law {
        set,
        moves: table_moves(alloc, qp, table, set)?,
        mults: table_mults(alloc, qp, table, set)?,
    })
}
