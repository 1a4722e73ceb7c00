//! A swept table in whole numbers.

ghost use Rattle.std.specs.Prelude.{◌≡◌, ◌≢◌, ℕ, ◌+◌, ◌<◌, ◌≤◌, ◌^◌, ◌++◌, ◌∷◌, [], List, IfOk, IfSome, IsTrue, length, get_or, pos};
ghost use Rattle.mpc_space.specs.Matrix.{height, entry};
ghost use Rattle.mpc_linear.specs.Elimination.{Table};
ghost use Rattle.mpc_sweep.specs.Numbers.{IsSwept, IsTable, number};

use crate::reading::whole_table;
use crate::rows::sweep_rows;
use mpc_frac::NoMemory;
use mpc_linear::Matrix;
use std::alloc::Global;

/// A table that is swept at some of its rows, in whole numbers over one denominator. Only some of its last
/// columns may be told, and the others take no room in the rows.
#[derive(Drop)]
pub struct Swept {
    pub(crate) rows: usize,
    pub(crate) columns: usize,
    /// The first column that is told.
    pub(crate) first: usize,
    pub(crate) den: u64,
    /// No number, nor what they lie over, is greater in size.
    pub(crate) most: u64,
    /// The numbers of the columns that are told, row by row, behind one place for each column that isn't: so
    /// the number in row i and column j stands at i times the columns that are told, and j.
    pub(crate) numbers: Vec<i64>,
}

impl Swept {
    /// Room for a table, which takes no memory yet.
    pub fn empty(alloc: Global) -> Swept {
        Swept {
            rows: 0,
            columns: 0,
            first: 0,
            den: 1,
            most: 1,
            numbers: Vec::new(alloc),
        }
    }

    /// The table before its first sweep, if it is whole times a scale of at most 2^62, with numbers of at most
    /// 2^58 in size.
    pub fn read(alloc: Global, table: &Matrix) -> Result<Option<Swept>, NoMemory>
        ensures { IfOk result (λ o. IfSome o (IsSwept (entry table.now) [] (height table.now) table.now.columns 0)) }
    {
        whole_table(alloc, table)
    }

    /// The number in this row and column, counted from 0. It says nothing where the column isn't told.
    #[inline]
    pub fn at(&self, row: usize, column: usize) -> i64
        requires table { IsTable self.now }
        requires row { row < self.now.rows }
        requires column { column < self.now.columns }
        ensures { result ≡ number self.now row column }
    {
        self.numbers[row * (self.columns - self.first) + column]
    }

    /// What the numbers lie over.
    #[inline]
    pub fn den(&self) -> u64
        ensures { result ≡ self.now.den }
    {
        self.den
    }

    /// Sweeps the table at one more row, the pivot's, which lies behind those before, into the room of another one, in
    /// the columns from `first` on. It is `false` where a number of it isn't small in lowest terms either, or where the
    /// pivot's column or `first` is a column that isn't told; the room holds no table then, as where memory is refused.
    pub fn sweep(&self, out: &mut Swept, pivot_place: usize, first: usize) -> Result<bool, NoMemory>
        requires table { IsTable self.now }
        requires row { pivot_place < self.now.rows }
        requires column { pivot_place < self.now.columns }
        requires pivot { number self.now pivot_place pivot_place ≢ pos 0 }
        requires first { first ≤ self.now.columns }
        ensures { IfOk result (λ done. IsTrue done → (t : Table) (ps : List ℕ) (rows columns from : ℕ) → IsSwept t ps rows columns from self.now
            → from ≤ pivot_place → pivot_place < first → ((k : ℕ) → k < length ps → get_or ps k 0 < pivot_place) → IsSwept t (ps ++ pivot_place ∷ []) rows columns first out.new) }
    {
        sweep_rows(self, out, pivot_place, first)
    }
}
