//! The file of a controller.

ghost use Rattle.mpc_theorem.specs.FileTheorems.{SpelledIsFile, FileIsSpelled};

use mpc_file::each_text;
use mpc_words::{fraction_theorems, integer_theorems, line_theorems};

/// A text spells a controller in a version exactly where it is the file of that controller in that version. The call does nothing: its
/// clauses are the theorem.
pub fn controller_file()
    ensures file { SpelledIsFile }
    ensures spelled { FileIsSpelled }
{
    each_text();
    line_theorems();
    fraction_theorems();
    integer_theorems();
}
