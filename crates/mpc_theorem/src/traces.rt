//! What holds of the histories that are written.

ghost use Rattle.mpc_theorem.specs.Traces.{TraceIsText, TextIsTrace};

use mpc_claim::{history_theorems, legal_theorems};
use mpc_condense::one_program;
use mpc_definite::pivot_theorems;
use mpc_rows::law_theorems;
use mpc_trace::finished_histories;

/// The text of a registry's finished history is that of workers who claim and deliver the candidates. Where no number of the plant is too wide,
/// each such text is that of a registry's: each tag is that of the verdict to which the stated runs come. The call does nothing: its clauses are
/// the theorem.
pub fn trace_theorems()
    ensures text { TraceIsText }
    ensures trace { TextIsTrace }
{
    legal_theorems();
    history_theorems();
    finished_histories();
    one_program();
    pivot_theorems();
    law_theorems();
}
