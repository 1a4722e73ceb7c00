//! Systems of parts of a table.

ghost use Rattle.std.specs.Prelude.{◌+◌, ◌^◌, ◌<◌, IfOk, MatchResult, length, ⊤};
ghost use Rattle.mpc_linear.specs.Answers.{IfWide};
ghost use Rattle.mpc_linear.specs.Solution.{IsAnswer, FitsTo, IsWideColumn};
ghost use Rattle.mpc_bordered.specs.Parts.{ArePlaces, IfSolved, ForPart};

use crate::Kept;
use crate::parts::picked_columns;
use mpc_linear::{LinearError, Solved, solve};
use std::alloc::Global;

/// Solves the system of a part of the table: its first rows and those of these numbers, the columns of the same numbers, and these columns
/// as right sides. What `solve` says of that system is said, but the first columns aren't eliminated anew.
///
/// `None` where a number of the part isn't kept. `Wide` as from `solve`.
pub fn solve_part(
    alloc: Global,
    kept: &Kept,
    rows: &[u32],
    rights: &[u32],
) -> Result<Option<Solved>, LinearError>
    requires places { ArePlaces kept.now.table kept.now.front rows.now rights.now }
    requires few { kept.now.front + length rows.now + length rights.now < 2 ^ 32 }
    ensures answer { IfOk result (λ o. IfSolved kept.now.table kept.now.front rows.now rights.now o IsAnswer) }
    ensures fits { IfOk result (λ o. IfSolved kept.now.table kept.now.front rows.now rights.now o FitsTo) }
    ensures wide { MatchResult result (λ _. ⊤)
        (λ e. IfWide e (λ column. ForPart kept.now.table kept.now.front rows.now rights.now (λ m rhs. IsWideColumn m rhs column))) }
{
    let size = kept.front + rows.len() as u32;
    let Some(matrix) = picked_columns(alloc, kept, rows, rights, 0, size)? else {
        return Ok(None);
    };
    let Some(rhs) = picked_columns(alloc, kept, rows, rights, size, rights.len() as u32)? else {
        return Ok(None);
    };
    match solve(alloc, &matrix, &rhs) {
        Ok(solved) => Ok(Some(solved)),
        Err(error) => Err(error),
    }
}
