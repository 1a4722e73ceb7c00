//! The multipliers of the rows where they are refuted.

ghost use Rattle.std.specs.Prelude.{◌≡◌, ◌+◌, IfOk, length};
ghost use Rattle.mpc_online.specs.Positions.{member_multiplier, row_multiplier, row_multipliers};
ghost use Rattle.mpc_online.specs.Answers.{position_of};

use crate::moves::Iterate;
use mpc_frac::Frac;
use mpc_rows::{Multipliers, Qp};
use mpc_sets::ActiveSet;
use std::alloc::{AllocError, Global};

/// The multiplier of the row with this number among the members, 0 where it is none.
fn member_multiplier(set: ActiveSet, changes: &[Frac], row_number: u32) -> Frac
    requires { length changes.now ≡ length set }
    ensures { result ≡ member_multiplier set changes.now row_number }
{
    for index in 0..set.size() {
        if set.member(index + 1) == row_number {
            return changes[index as usize];
        }
    }
    Frac::whole(0)
}

/// The multiplier of the row with this number: 1 for the row on its way, and that of a member.
fn row_multiplier(it: &Iterate, changes: &[Frac], row_number: u32) -> Frac
    requires { length changes.now ≡ length it.now.set }
    ensures { result ≡ row_multiplier (position_of it.now) changes.now row_number }
{
    if row_number == it.row {
        return Frac::whole(1);
    }
    member_multiplier(it.set, changes, row_number)
}

/// The multipliers of all rows.
pub fn row_multipliers(
    alloc: Global,
    qp: &Qp,
    it: &Iterate,
    changes: &[Frac],
) -> Result<Multipliers, AllocError>
    requires { length changes.now ≡ length it.now.set }
    ensures { IfOk result (λ m. m ≡ row_multipliers qp.now (position_of it.now) changes.now) }
{
    let mut out = Vec::with_capacity(alloc, qp.g.rows() as usize)?;
    for index in 0..qp.g.rows() {
        out.push(row_multiplier(it, changes, index + 1))?;
    }
    Ok(Multipliers::of(out))
}
