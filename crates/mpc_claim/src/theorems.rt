//! What holds of every history. The calls do nothing: their contracts are the theorems.

ghost use Rattle.mpc_claim.specs.HistoryTheorems.{AnswerTheorems, AppendTheorems, CandidateTheorems, ClaimTheorems, CountedTickets, EndedIsWhole, EndsWideIsLast, FinishedIsLast, LegalBeginnings, LegalTheorems, OpenClaims, OpenListTheorems, StandingTickets};

use mpc_sets::count_theorems;

/// How the open claims change with one event more; that a beginning of a legal history is legal;
/// that nothing may follow a finished one, nor one that ended with a wide verdict; that a ticket's
/// number is the count of claims up to its own, and stands for its set as the history grows.
pub fn history_theorems()
    ensures open_claims { OpenClaims }
    ensures legal_beginnings { LegalBeginnings }
    ensures finished_is_last { FinishedIsLast }
    ensures ends_wide_is_last { EndsWideIsLast }
    ensures ended_is_whole { EndedIsWhole }
    ensures counted_tickets { CountedTickets }
    ensures standing_tickets { StandingTickets }
{}

/// Legal histories event by event, their claims, and the list of what is open in them.
pub fn legal_theorems()
    ensures legal { LegalTheorems }
    ensures claims { ClaimTheorems }
    ensures open_list { OpenListTheorems }
    ensures appended { AppendTheorems }
{
    count_theorems();
}

/// What candidates have, and that no two answers of a claim have their causes together.
pub fn claim_theorems()
    ensures candidates { CandidateTheorems }
    ensures answers { AnswerTheorems }
{}
