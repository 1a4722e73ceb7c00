//! The file of a controller for C callers: it is read, or written again in version 3.

ghost use Rattle.std.specs.Prelude.{◌≡◌, ◌≤◌, ◌<◌, length, take};
ghost use Rattle.mpc_grammar.specs.declared.errors.FileKind.TheVariants.{BadLine, Truncated, TailAfterEnd, BadNode, OverBound};
ghost use Rattle.mpc_grammar.specs.FileGrammar.{FailsAt};
ghost use Rattle.mpc_bench.specs.Texts.{IsFile, IsConverted, IsTextOfSize};

use crate::codes::{READ, TOO_SHORT, code_of};
use crate::texts::{put, third_text};
use mpc_file::read_file;
use std::alloc::Global;

/// Reads the file of a controller, in any of the three versions of its text.
///
/// Answers 0 where the bytes are one. Otherwise the number, from 1, of the first line that fails is written, and the answer is 1 where the
/// line isn't what the format demands, 2 where no line feed ends it, 3 where a byte follows the last line, 4 where it names or states
/// no node, and 5 where a number is too great at the greatest counts. Without memory it is 6, and nothing is written.
#[unsafe(no_mangle)]
pub extern "C" fn mpc_file_read(alloc: Global, bytes: &[u8], line: &mut u64) -> u32
    ensures read { result ≡ 0 → IsFile bytes.now }
    ensures bad_line { result ≡ 1 → FailsAt bytes.now BadLine line.new }
    ensures truncated { result ≡ 2 → FailsAt bytes.now Truncated line.new }
    ensures tail { result ≡ 3 → FailsAt bytes.now TailAfterEnd line.new }
    ensures bad_node { result ≡ 4 → FailsAt bytes.now BadNode line.new }
    ensures over_bound { result ≡ 5 → FailsAt bytes.now OverBound line.new }
    ensures codes { result ≤ 6 }
    ensures no_line { result ≡ 6 → line.new ≡ line.old }
{
    let _controller = match read_file(alloc, bytes) {
        Ok(controller) => controller,
        Err(error) => return code_of(error, line),
    };
    READ
}

/// Reads the file of a controller, and writes it in version 3 to the front of `out`.
///
/// Answers 0 where the bytes are such a file, and its text in version 3 is written with its length; 7 where `out` is too short for that
/// text, whose length is written; and 1 to 6 as `mpc_file_read`. Nothing else is written.
#[unsafe(no_mangle)]
pub extern "C" fn mpc_file_convert(
    alloc: Global,
    bytes: &[u8],
    out: &mut [u8],
    size: &mut u64,
    line: &mut u64,
) -> u32
    ensures converted { result ≡ 0 → IsConverted bytes.now (take size.new out.new) }
    ensures size { result ≡ 0 → size.new ≤ length out.new }
    ensures bad_line { result ≡ 1 → FailsAt bytes.now BadLine line.new }
    ensures truncated { result ≡ 2 → FailsAt bytes.now Truncated line.new }
    ensures tail { result ≡ 3 → FailsAt bytes.now TailAfterEnd line.new }
    ensures bad_node { result ≡ 4 → FailsAt bytes.now BadNode line.new }
    ensures over_bound { result ≡ 5 → FailsAt bytes.now OverBound line.new }
    ensures text { result ≡ 7 → IsTextOfSize bytes.now size.new }
    ensures too_short { result ≡ 7 → length out.old < size.new }
    ensures codes { result ≤ 7 }

    // Where nothing is said of what is written, it is left as it was.
    ensures no_text { 1 ≤ result → out.new ≡ out.old }
    ensures no_size { 1 ≤ result → result ≤ 6 → size.new ≡ size.old }
    ensures no_line { 6 ≤ result → line.new ≡ line.old }
{
    let text = match third_text(alloc, bytes) {
        Ok(text) => text,
        Err(error) => return code_of(error, line),
    };
    *size = text.len() as u64;
    if put(text.as_slice(), out) {
        READ
    } else {
        TOO_SHORT
    }
}
