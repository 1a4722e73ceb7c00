//! What holds of every program of a plant.

ghost use Rattle.mpc_condense.specs.BestReplies.{LawIsRight, InfeasibleIsRight, OneProgram};
ghost use Rattle.mpc_condense.specs.ProgramTheorems.{SameSequences, SameCosts, NoWidePlace, OneWidePlace, RowsWithin};

/// A sequence is admissible exactly where the program's rows hold, and it costs what the program's objective says and a number that the
/// state alone determines. The call does nothing: its contract is the theorems.
pub fn program_theorems()
    ensures sequences { SameSequences }
    ensures costs { SameCosts }
{}

/// At most one place of condensing is the first that is too wide, and none where every number fits; each row of the plant at a step is a
/// row of the program. The call does nothing: its contract is the theorems.
pub fn place_theorems()
    ensures none { NoWidePlace }
    ensures one { OneWidePlace }
    ensures rows { RowsWithin }
{}

/// What a law gives in its region is the first move of the unique cheapest admissible sequence (Karush 1939, Kuhn and Tucker 1951), and
/// where the program's rows have no solution, no sequence is admissible. The call does nothing: its contract is the theorems.
pub fn best_replies()
    ensures law { LawIsRight }
    ensures infeasible { InfeasibleIsRight }
{
    program_theorems();
}

/// The costs and the rows of a plant determine its program. The call does nothing: its contract is the theorem.
pub fn one_program()
    ensures { OneProgram }
{}
