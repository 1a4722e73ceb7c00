//! The table whose parts are the equations of all active sets of a program.

ghost use Rattle.std.specs.Prelude.{◌≡◌, ◌+◌, ◌<◌, IfOk};
ghost use Rattle.mpc_space.specs.Matrix.{height};
ghost use Rattle.mpc_online.specs.Shared.{upper_entry, shared_entry, shared_table};

use mpc_frac::{Frac, NoMemory};
use mpc_linear::Matrix;
use mpc_rows::Qp;
use mpc_systems::matrix_of;
use std::alloc::Global;

/// The entry of `[h, g', -g']` in a row and a column.
fn upper_entry(qp: &Qp, row: u32, column: u32) -> Frac
    requires row { row < height qp.now.h }
    requires column { column < height qp.now.h + height qp.now.g + height qp.now.g }
    ensures { result ≡ upper_entry qp.now row column }
{
    let unknowns = qp.h.rows();
    let rows = qp.g.rows();
    if column < unknowns {
        qp.h.get(row, column)
    } else if column < unknowns + rows {
        qp.g.get(column - unknowns, row)
    } else {
        qp.g.get(column - unknowns - rows, row).neg()
    }
}

/// The entry of `[[h, g', -g'], [g, 0, 0]]` in a row and a column.
fn shared_entry(qp: &Qp, row: u32, column: u32) -> Frac
    requires row { row < height qp.now.h + height qp.now.g }
    requires column { column < height qp.now.h + height qp.now.g + height qp.now.g }
    ensures { result ≡ shared_entry qp.now row column }
{
    let unknowns = qp.h.rows();
    let _rows = qp.g.rows();
    if row < unknowns {
        upper_entry(qp, row, column)
    } else if column < unknowns {
        qp.g.get(row - unknowns, column)
    } else {
        Frac::whole(0)
    }
}

/// The table `[[h, g', -g'], [g, 0, 0]]`.
pub fn shared_table(alloc: Global, qp: &Qp) -> Result<Matrix, NoMemory>
    ensures { IfOk result (λ m. m ≡ shared_table qp.now) }
{
    let size = qp.h.rows() + qp.g.rows();
    let entry = |row, column| shared_entry(qp, row, column);
    matrix_of(alloc, size, size + qp.g.rows(), &entry)
}
