//! Texts that come of a controller's file.

ghost use Rattle.std.specs.Prelude.{IfOk, IfErr};
ghost use Rattle.std.specs.Str.Lines.{lines};
ghost use Rattle.mpc_grammar.specs.FileGrammar.{ExplainsFileError};
ghost use Rattle.mpc_files.specs.FileAnswers.{Converts, FileReplies};

use mpc_file::{FileError, read_file, write_file};
use mpc_table::replies;
use std::alloc::Global;

/// One reply line for each line of counts, of the controller whose file the head is. The controller needn't have been checked: the
/// replies are those of its tree, right or not.
pub fn reply_to(alloc: Global, head: &[u8], counts: &[u8]) -> Result<Vec<u8>, FileError>
    ensures ok { IfOk result (λ text. FileReplies head.now (lines counts.now) text.items) }
    ensures err { IfErr result (ExplainsFileError head.now) }
{
    let controller = read_file(alloc, head)?;
    let _ = controller.plant();
    let text = replies(alloc, &controller, counts)?;
    Ok(text)
}

/// The file of the same controller in version 3. The controller needn't have been checked.
pub fn convert(alloc: Global, bytes: &[u8]) -> Result<Vec<u8>, FileError>
    ensures ok { IfOk result (λ text. Converts bytes.now text.items) }
    ensures err { IfErr result (ExplainsFileError bytes.now) }
{
    let controller = read_file(alloc, bytes)?;
    let text = write_file(alloc, &controller)?;
    Ok(text)
}
