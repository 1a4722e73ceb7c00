//! What acceptance means, and what the conditions say.

ghost use Rattle.mpc_check.specs.Acceptance.{AcceptedIsRight, NothingFound, NoProgramFinding, OneFinding};
ghost use Rattle.mpc_check.specs.LawConditions.{LawIsStationary, LawIsActive, MeetingIsLaw};
ghost use Rattle.mpc_check.specs.LeafConditions.{StretchesAreMet, StretchesFind};

use mpc_condense::{best_replies, one_program, one_program_outcome};
use mpc_controller::one_path;
use mpc_rows::{law_theorems, region_theorems, system_theorems};
use mpc_systems::cell_theorems;

/// At every point of the plant's box, also between the states of the grid, the reply of an accepted controller is right: the first move of
/// the unique cheapest admissible sequence, and `infeasible` only where no sequence is admissible (Karush 1939, Kuhn and Tucker 1951). The
/// call does nothing: its contract is the theorem.
pub fn accepted_replies()
    ensures { AcceptedIsRight }
{
    system_theorems();
    cell_theorems();
    region_theorems();
    law_theorems();
    best_replies();
}

/// An accepted controller has no finding, nor has a program whose numbers fit and whose pivots are positive, and of any controller at most
/// one thing is found, so that each answer of a check but want of memory comes exactly where its cause holds. The call does nothing: its
/// clauses are the theorem.
pub fn one_finding()
    ensures accepted { NothingFound }
    ensures program { NoProgramFinding }
    ensures one { OneFinding }
{
    one_path();
    one_program();
    one_program_outcome();
}

/// A law is that of its set exactly where it meets the conditions coefficient by coefficient. The call does nothing: its clauses are the
/// theorems.
pub fn law_conditions()
    ensures stationary { LawIsStationary }
    ensures active { LawIsActive }
    ensures of_set { MeetingIsLaw }
{
    law_theorems();
}

/// Two neighbouring stretches of a search tree are one: what is found of it is what is found of the first stretch, or else of the second. The
/// call does nothing: its clauses are the theorem.
pub fn stretch_theorems()
    ensures met { StretchesAreMet }
    ensures finds { StretchesFind }
{}
