//! The check of a controller.

ghost use Rattle.std.specs.Prelude.{IfOk, IfErr};
ghost use Rattle.mpc_condense.specs.Convex.{HasProgram};
ghost use Rattle.mpc_check.specs.Acceptance.{BehindMet, BehindFinds, IsAnswer, IsCause};
ghost use Rattle.mpc_check.specs.Findings.{IsSearched};

use crate::answers::{Answer, CheckError, Spot};
use crate::search::Search;
use mpc_condense::convex_program;
use mpc_controller::Controller;
use mpc_rows::Qp;
use std::alloc::Global;

/// What is found of the laws and of the leaves.
fn search<S: Search>(
    by: &S,
    alloc: Global,
    qp: &Qp,
    controller: &Controller,
) -> Result<Option<Spot>, CheckError>
    requires { HasProgram controller.now.plant qp.now }
    ensures { IsSearched (BehindMet qp.now controller.now) (BehindFinds qp.now controller.now) result }
{
    match by.search_laws(alloc, qp, controller.laws()) {
        Ok(None) => by.search_tree(alloc, qp, controller.laws(), controller.tree()),
        Ok(Some(spot)) => Ok(Some(spot)),
        Err(error) => Err(error),
    }
}

/// Checks a controller independently of how it was made.
///
/// `Accepted` exactly where every condition is met: the plant's program is positive definite; each law meets the conditions of Karush,
/// Kuhn and Tucker at every state, as equalities of affine forms, coefficient by coefficient; and at each leaf the certificates refute
/// what they claim to have no point (Farkas 1902, Motzkin 1936): the leaf's cell with a row of its law negated and strict, for each row of
/// the law, or the leaf's cell with all rows of the program, where the leaf has no law. A certificate that is missing, or names a row
/// that its system doesn't have, refutes nothing.
///
/// The conditions come in the order of condensing, the pivots, the laws with their lines and members, and the leaves in preorder with
/// their rows. The first that isn't met answers: as `Refused` with its spot, as `TooWide` with its place where one of its numbers needs
/// more than 128 bits, or as `NotDefinite` with the first pivot that isn't positive.
///
/// Where `by` has threads, the laws are asked side by side, their rows are formed so, and then the leaves are checked so: each in as many as
/// 16 stretches of neighbours, each stretch in a thread of its own where one can be started. Laws that aren't all seen to meet their
/// conditions in whole numbers are searched by the caller, one after another. It waits for no lock.
pub fn check<S: Search>(
    by: &S,
    alloc: Global,
    controller: &Controller,
) -> Result<Answer, CheckError>
    ensures answer { IfOk result (IsAnswer controller.now) }
    ensures cause { IfErr result (IsCause controller.now) }
{
    let qp = match convex_program(alloc, controller.plant()) {
        Ok(qp) => qp,
        Err(error) => return Err(error),
    };
    match search(by, alloc, &qp, controller) {
        Ok(None) => Ok(Answer::Accepted),
        Ok(Some(spot)) => Ok(Answer::Refused(spot)),
        Err(error) => Err(error),
    }
}
