//! The verdict on one active set of a quadratic program with a parameter.
#![tactic(auto)]

ghost use Rattle.std.specs.Prelude.{◌≡◌, ◌≤◌, IfOk, length};
ghost use Rattle.mpc_space.specs.Definite.{IsDefinite};
ghost use Rattle.mpc_space.specs.Matrix.{height};
ghost use Rattle.mpc_sets.specs.RowSet.{IsSetOfRows};
ghost use Rattle.mpc_rows.specs.Verdicts.{IsRight};

mod examiner;
mod kept;
mod law;
mod matrices;
mod points;
mod reach;
mod refuters;
mod region;
mod rows;
mod shared;
mod sweeps;
mod verdicts;

pub use examiner::Examiner;
use mpc_frac::NoMemory;
use mpc_rows::{Judged, Qp};
use mpc_sets::ActiveSet;
pub use points::has_point;
pub use region::law_rows;
use std::alloc::Global;

/// The verdict on an active set of the program (Bemporad, Morari, Dua and Pistikopoulos, 2002;
/// Gupta, Bhartiya and Nataraj, 2011).
///
/// Its law is found by elimination, a state that reaches it and a point of its region by the
/// simplex method with the rule of least numbers. The first of these runs that decides ends the
/// search, and so does the first with a number that needs more than 128 bits: the verdict is then
/// `Wide` with the place of that run. Refused memory is the only error. Several sets of one program
/// are examined faster by one [`Examiner`].
pub fn examine(alloc: Global, qp: &Qp, set: ActiveSet) -> Result<Judged, NoMemory>
    requires definite { IsDefinite qp.now.h.rows }
    requires set_of_rows { IsSetOfRows (height qp.now.g) set }
    requires few { length set ≤ height qp.now.h }
    ensures set { IfOk result (λ j. j.set ≡ set) }
    ensures right { IfOk result (λ j. IsRight qp.now set j.verdict) }
{
    let mut examiner = Examiner::once(alloc, qp)?;
    examiner.examine(alloc, set)
}
