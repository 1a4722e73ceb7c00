//! What holds of every tightened program.

ghost use Rattle.mpc_tight.specs.TightTheorems.{OneTightened, OneWideRow, NoWideRow, TightenedIsRobust};

/// A program is tightened to one program, at most one row is the first that is too wide, and none where all rows fit. The rows of a
/// tightened program hold exactly for the sequences that keep the plant's rows under every disturbance. The call does nothing: its clauses
/// are the theorem.
pub fn tight_theorems()
    ensures tightened { OneTightened }
    ensures wide { OneWideRow }
    ensures none { NoWideRow }
    ensures robust { TightenedIsRobust }
{}
