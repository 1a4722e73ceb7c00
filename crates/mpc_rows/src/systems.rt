//! Systems of linear rows, some of them strict, with points and multipliers.

ghost use Rattle.std.specs.Prelude.{◌≡◌, ◌<◌, [], ◌∷◌, ◌++◌, IfOk, OnOk, OnErr, length, take};

use mpc_frac::{Frac, NoMemory};
use mpc_linear::{Seq, Vector};
use std::alloc::Global;
use std::marker::Model;

/// The row `a · v ≤ b`, or `a · v < b` where it is strict.
#[derive(Drop)]
pub struct Row {
    pub a: Vector,
    pub b: Frac,
    pub strict: bool,
}

impl Row {
    /// The same row once more.
    pub fn copy(&self, alloc: Global) -> Result<Row, NoMemory>
        ensures { IfOk result (λ row. row ≡ self.now) }
    {
        let a = Vector::from_slice(alloc, self.a.as_slice())?;
        Ok(Row {
            a,
            b: self.b,
            strict: self.strict,
        })
    }
}

/// A list of rows.
pub type Rows = Seq<Row>;

/// Rows in the unknowns `v_1` to `v_width`: each row has one coefficient for each unknown.
#[derive(Drop)]
pub struct System {
    pub width: u32,
    pub rows: Rows,
}

impl Model for System {
    ghost use Rattle.mpc_rows.specs.LinearSystem.{LinearSystem, HasWidth};

    ghost Value = { LinearSystem };

    ghost view = { λ s. record { width = s.width; rows = s.rows } };

    ghost invariant = { λ s. HasWidth s.width s.rows };
}

impl System {
    ghost use Rattle.mpc_rows.specs.LinearSystem.{height, row_at};

    /// The system without rows, which takes no memory.
    pub fn new(alloc: Global, width: u32) -> Self
        ensures width { result.width ≡ width }
        ensures rows { result.rows ≡ [] }
    {
        System {
            width,
            rows: Rows::new(alloc),
        }
    }

    /// Puts one row behind the others. Without memory the system stays as it was.
    pub fn push(&mut self, row: Row) -> Result<(), NoMemory>
        requires { length row.a ≡ self.old.width }
        ensures width { self.new.width ≡ self.old.width }
        ensures ok { OnOk result (self.new.rows ≡ self.old.rows ++ row ∷ []) }
        ensures err { OnErr result (self.new.rows ≡ self.old.rows) }
    {
        self.rows.push(row)
    }

    /// Keeps the first so many rows and gives up the others.
    pub fn truncate(&mut self, count: usize)
        ensures width { self.new.width ≡ self.old.width }
        ensures rows { self.new.rows ≡ take count self.old.rows }
    {
        self.rows.truncate(count);
    }

    /// How many unknowns there are.
    pub fn unknowns(&self) -> usize
        ensures { result ≡ self.now.width }
    {
        self.width as usize
    }

    /// How many rows there are.
    pub fn height(&self) -> usize
        ensures { result ≡ height self.now }
    {
        self.rows.len()
    }

    /// A row, from 0.
    pub fn row(&self, at_row: usize) -> &Row
        requires { at_row < height self.now }
        ensures value { result.now ≡ row_at self.now at_row }
        ensures width { length result.now.a ≡ self.now.width }
    {
        self.rows.at(at_row)
    }
}

/// One multiplier for each row of a system.
pub type Multipliers = Vector;

/// A pair (q, r) for each unknown, which stands for `q + d r` at every small enough positive d.
pub type PairPoint = Seq<(Frac, Frac)>;
