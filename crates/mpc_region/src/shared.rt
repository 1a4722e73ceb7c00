//! The table whose parts are the equations of the laws of all sets of a program.

ghost use Rattle.std.specs.Prelude.{◌≡◌, ◌+◌, ◌<◌, ◌≤◌, ◌^◌, IfOk, length};
ghost use Rattle.mpc_space.specs.Matrix.{height};
ghost use Rattle.mpc_region.specs.Shared.{upper_entry, lower_entry, shared_entry, shared_table, AreSidePlaces, IsSharedBySets};

use mpc_bordered::{Kept, keep};
use mpc_frac::{Frac, NoMemory};
use mpc_linear::Matrix;
use mpc_rows::Qp;
use mpc_sets::ActiveSet;
use mpc_systems::matrix_of;
use std::alloc::{AllocError, Global};

/// What the laws of all sets of a program share where no table is swept: the elimination of its Hessian in
/// their equations, where it is kept. It is formed for the first such law.
#[derive(Drop)]
pub struct Shared {
    pub table: Option<Kept>,
    /// Whether it was formed, or isn't to be.
    pub is_formed: bool,
}

/// The entry of `[h, g', -f]` in a row and a column.
fn upper_entry(qp: &Qp, row: u32, column: u32) -> Frac
    requires row { row < height qp.now.h }
    requires column { column < height qp.now.h + height qp.now.g + (length qp.now.counts + 1) }
    ensures { result ≡ upper_entry qp.now row column }
{
    let unknowns = qp.h.rows();
    let rows = qp.g.rows();
    if column < unknowns {
        qp.h.get(row, column)
    } else if column < unknowns + rows {
        qp.g.get(column - unknowns, row)
    } else {
        qp.f.get(row, column - unknowns - rows).neg()
    }
}

/// The entry of `[g, 0, w]` in a row and a column.
fn lower_entry(qp: &Qp, row: u32, column: u32) -> Frac
    requires row { row < height qp.now.g }
    requires column { column < height qp.now.h + height qp.now.g + (length qp.now.counts + 1) }
    ensures { result ≡ lower_entry qp.now row column }
{
    let unknowns = qp.h.rows();
    let rows = qp.g.rows();
    if column < unknowns {
        qp.g.get(row, column)
    } else if column < unknowns + rows {
        Frac::whole(0)
    } else {
        qp.w.get(row, column - unknowns - rows)
    }
}

/// The entry of `[[h, g', -f], [g, 0, w]]` in a row and a column.
fn shared_entry(qp: &Qp, row: u32, column: u32) -> Frac
    requires row { row < height qp.now.h + height qp.now.g }
    requires column { column < height qp.now.h + height qp.now.g + (length qp.now.counts + 1) }
    ensures { result ≡ shared_entry qp.now row column }
{
    let unknowns = qp.h.rows();
    if row < unknowns {
        upper_entry(qp, row, column)
    } else {
        lower_entry(qp, row - unknowns, column)
    }
}

/// The table `[[h, g', -f], [g, 0, w]]`.
pub fn shared_table(alloc: Global, qp: &Qp) -> Result<Matrix, NoMemory>
    ensures { IfOk result (λ m. m ≡ shared_table qp.now) }
{
    let size = qp.h.rows() + qp.g.rows();
    let entry = |row, column| shared_entry(qp, row, column);
    matrix_of(alloc, size, size + qp.f.cols(), &entry)
}

/// Forms what the laws of all sets of the program share, once.
pub fn form(alloc: Global, qp: &Qp, shared: &mut Shared) -> Result<(), NoMemory>
    requires { IsSharedBySets qp.now shared.old }
    ensures { IsSharedBySets qp.now shared.new }
{
    if shared.is_formed {
        return Ok(());
    }
    let table = shared_table(alloc, qp)?;
    let Ok(table) = keep(alloc, table, qp.h.rows()) else {
        return Err(NoMemory);
    };
    shared.table = table;
    shared.is_formed = true;
    Ok(())
}

/// So many columns of the table, from this one on.
pub fn side_places(alloc: Global, first: u32, count: u32) -> Result<Vec<u32>, AllocError>
    requires { first + count < 2 ^ 32 }
    ensures { IfOk result (λ places. AreSidePlaces first count places.items) }
{
    let mut places = Vec::with_capacity(alloc, count as usize)?;
    for index in 0..count {
        places.push(first + index)?;
    }
    Ok(places)
}
