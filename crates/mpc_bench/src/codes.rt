//! The codes of what is answered.

ghost use Rattle.std.specs.Prelude.{◌≡◌, ◌≤◌};
ghost use Rattle.mpc_grammar.specs.declared.errors.FileError.TheVariants.{Bad, NoMemory};
ghost use Rattle.mpc_grammar.specs.declared.errors.FileKind.TheVariants.{BadLine, Truncated, TailAfterEnd, BadNode, OverBound};

use mpc_file::{FileError, FileKind};

pub(crate) const READ: u32 = 0;

const BAD_LINE: u32 = 1;

const TRUNCATED: u32 = 2;

const TAIL_AFTER_END: u32 = 3;

const BAD_NODE: u32 = 4;

const OVER_BOUND: u32 = 5;

const NO_MEMORY: u32 = 6;

pub(crate) const TOO_SHORT: u32 = 7;

/// The code of what is wrong with a line.
fn code_of_kind(kind: FileKind) -> u32
    ensures bad_line { result ≡ 1 → kind ≡ BadLine }
    ensures truncated { result ≡ 2 → kind ≡ Truncated }
    ensures tail { result ≡ 3 → kind ≡ TailAfterEnd }
    ensures bad_node { result ≡ 4 → kind ≡ BadNode }
    ensures over_bound { result ≡ 5 → kind ≡ OverBound }
    ensures from { 1 ≤ result }
    ensures to { result ≤ 5 }
{
    match kind {
        FileKind::BadLine => BAD_LINE,
        FileKind::Truncated => TRUNCATED,
        FileKind::TailAfterEnd => TAIL_AFTER_END,
        FileKind::BadNode => BAD_NODE,
        FileKind::OverBound => OVER_BOUND,
    }
}

/// The code of an error. The number of a line that fails is written.
pub(crate) fn code_of(error: FileError, line: &mut u64) -> u32
    ensures bad_line { result ≡ 1 → error ≡ Bad BadLine line.new }
    ensures truncated { result ≡ 2 → error ≡ Bad Truncated line.new }
    ensures tail { result ≡ 3 → error ≡ Bad TailAfterEnd line.new }
    ensures bad_node { result ≡ 4 → error ≡ Bad BadNode line.new }
    ensures over_bound { result ≡ 5 → error ≡ Bad OverBound line.new }
    ensures no_memory { result ≡ 6 → error ≡ NoMemory }
    ensures kept { result ≡ 6 → line.new ≡ line.old }
    ensures from { 1 ≤ result }
    ensures to { result ≤ 6 }
{
    match error {
        FileError::Bad(kind, number) => {
            *line = number;
            code_of_kind(kind)
        }
        FileError::NoMemory => NO_MEMORY,
    }
}
