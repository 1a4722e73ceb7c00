//! A controller's file in version 3.

ghost use Rattle.std.specs.Prelude.{◌≡◌, ◌≤◌, ◌<◌, length, take, IfOk, IfErr, MatchBool};
ghost use Rattle.std.specs.Bool.{OnFalse};
ghost use Rattle.mpc_grammar.specs.FileGrammar.{ExplainsFileError};
ghost use Rattle.mpc_bench.specs.Texts.{IsConverted};

use mpc_file::{FileError, read_file, write_file};
use std::alloc::Global;

/// The file of the same controller in version 3.
pub(crate) fn third_text(alloc: Global, bytes: &[u8]) -> Result<Vec<u8>, FileError>
    ensures ok { IfOk result (λ text. IsConverted bytes.now text.items) }
    ensures err { IfErr result (ExplainsFileError bytes.now) }
{
    let controller = read_file(alloc, bytes)?;
    let text = write_file(alloc, &controller)?;
    Ok(text)
}

/// Writes a text to the front of `out`, if there is room for it. Else `out` stays as it was.
pub(crate) fn put(text: &[u8], out: &mut [u8]) -> bool
    ensures written { MatchBool result ((take (length text.now) out.new ≡ text.now) × (length text.now ≤ length out.new))
        (length out.old < length text.now) }
    ensures kept { OnFalse result (out.new ≡ out.old) }
{
    if out.len() < text.len() {
        return false;
    }
    out[..text.len()].copy_from_slice(text);
    true
}
