//! What holds of every text. The calls do nothing: their contracts are the theorems.

ghost use Rattle.mpc_grammar.specs.TextTheorems.{OneVersion, OneController, SpelledNeverFails, OneLine, OneReason, NoPrefix, EachText, StatedCanBe, OneText};

use mpc_controller::preorder_theorems;
use mpc_grammar::word_theorems;
use mpc_words::cut_theorems;
use mpc_writing::written_texts;

/// A text spells one controller in one version at most. It fails at one line at most, for one reason,
/// and at none where it spells a controller.
pub fn one_reading()
    ensures one_version { OneVersion }
    ensures one_controller { OneController }
    ensures spelled_never_fails { SpelledNeverFails }
    ensures one_line { OneLine }
    ensures one_reason { OneReason }
{
    cut_theorems();
    word_theorems();
}

/// No text of a controller begins with another's.
pub fn no_prefix()
    ensures { NoPrefix }
{
    cut_theorems();
    word_theorems();
}

/// Each version has a text for each controller that it can state: version 1 for those of at most 40 rows
/// whose drift and targets are 0, version 2 for those of at most 40 rows whose aren't, and version 3 for
/// all. It has none for any other.
pub fn each_text()
    ensures each { EachText }
    ensures no_other { StatedCanBe }
{
    written_texts();
    preorder_theorems();
}

/// A controller has one text in each version. The call does nothing: its contract is the theorem.
pub fn one_text()
    ensures { OneText }
{}
