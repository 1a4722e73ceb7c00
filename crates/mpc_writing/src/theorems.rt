//! What holds of every controller. The call does nothing: its contract is the theorem.

ghost use Rattle.mpc_grammar.specs.TextTheorems.{EachText};

use mpc_grammar::{one_fractions, one_integers, word_theorems};

/// Each version has a text for each controller that it can state.
pub fn written_texts()
    ensures { EachText }
{
    word_theorems();
    one_fractions();
    one_integers();
}
