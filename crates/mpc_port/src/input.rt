//! Bytes that come in.
ghost use Rattle.std.specs.Prelude.{◌≡◌, ◌≢◌, ◌↔◌, ℕ, List, Option, ◌+◌, ◌<◌, ◌≤◌, [], ◌∷◌, ◌++◌, length, take, drop, vec_len, IfOk, IfErr, OnOk, OnErr, IsErrOf};
ghost use Rattle.mpc_port.specs.Faults.{Rose};
ghost use Rattle.mpc_port.specs.Passing.{IsDrawn, Passed, PassedToEnd};
ghost use Rattle.mpc_port.specs.ReadError.{ExplainsReadError};

use std::alloc::Global;
use std::error::Error;
use std::fmt;

/// A source or a sink failed.
#[derive(Clone, Copy, Debug, PartialEq, Eq)]
pub struct Failed;

impl fmt::Display for Failed {
    fn fmt<W: fmt::Write>(&self, f: &mut fmt::Formatter<W>) -> fmt::Result {
        write!(f, "a source or a sink failed")
    }
}

impl Error for Failed {}

/// Where bytes come from.
pub trait Source {
    // The history of what was given: for each read into a buffer with room its bytes, in order. An
    // empty piece says that nothing is left.
    ghost given: { Self → List (List ℕ) };

    // The bytes that are left, where the source tells them.
    ghost left: { Self → Option (List ℕ) };

    // How many faults there have been.
    ghost faults: { Self → ℕ };

    /// Reads some of the bytes that are left into the front of `buf`, and says how many. Of a
    /// `buf` that isn't empty, 0 says that nothing is left.
    ///
    /// # Errors
    ///
    /// [`Failed`] only where the count of faults rose. Nothing is read then.
    fn read(&mut self, buf: &mut [u8]) -> Result<usize, Failed>
        ensures count { IfOk result (λ k. k ≤ length buf.new) }

        // Just the bytes read are added to the history, and nothing at an error or without room.
        ensures piece { IfOk result (λ k. 0 < length buf.old
            → given self.new ≡ given self.old ++ take k buf.new ∷ []) }
        ensures no_room { length buf.old ≡ 0 → given self.new ≡ given self.old }
        ensures refused { OnErr result (given self.new ≡ given self.old) }

        // They were the first of those that were left.
        ensures drawn { IsDrawn (left self.old) (left self.new) (given self.old) (given self.new) }

        ensures quiet { OnOk result (faults self.new ≡ faults self.old) }
        ensures failed { OnErr result (Rose (faults self.old) (faults self.new)) }
        ensures lasting { faults self.old ≤ faults self.new };
}

/// Why reading to the end is refused.
#[derive(Clone, Copy, Debug, PartialEq, Eq)]
pub enum ReadError {
    /// The source failed.
    ReadFault,
    /// More bytes came than the limit allows.
    TooLong,
    /// Memory ran out.
    NoMemory,
}

impl fmt::Display for ReadError {
    fn fmt<W: fmt::Write>(&self, f: &mut fmt::Formatter<W>) -> fmt::Result {
        match self {
            ReadError::ReadFault => write!(f, "the source failed"),
            ReadError::TooLong => write!(f, "the input is too long"),
            ReadError::NoMemory => write!(f, "memory ran out"),
        }
    }
}

impl Error for ReadError {}

// The least number of bytes that the buffer grows by.
const LEAST_GROWTH: usize = 64 * 1024;

/// Reads `source` to its end. The bytes are at most `limit`.
///
/// # Errors
///
/// [`ReadError::ReadFault`] only where the source's count of faults rose, and
/// [`ReadError::TooLong`] exactly where more than `limit` bytes came before a failure. What was
/// read before an error is lost. No more than `limit` + 1 bytes are ever read.
pub fn read_all<S: Source>(
    alloc: Global,
    source: &mut S,
    limit: usize,
) -> Result<Vec<u8>, ReadError>
    // The answer is all that the source gave before it said that nothing is left.
    ensures to_end { IfOk result (λ bytes. PassedToEnd (S.given source.old) (S.given source.new) bytes.items) }
    ensures within { IfOk result (λ bytes. vec_len bytes ≤ limit) }

    // At each answer some bytes passed.
    ensures passed { (bytes : List ℕ) × Passed (S.given source.old) (S.given source.new) bytes
        × (length bytes ≤ limit + 1) × (IsErrOf result ReadError.TooLong ↔ (limit < length bytes)) }
    ensures drawn { IsDrawn (S.left source.old) (S.left source.new) (S.given source.old) (S.given source.new) }

    ensures quiet { OnOk result (S.faults source.new ≡ S.faults source.old) }
    ensures cause { IfErr result (ExplainsReadError (S.faults source.old) (S.faults source.new)) }
    ensures lasting { S.faults source.old ≤ S.faults source.new }
{
    let mut bytes = Vec::new(alloc);
    let mut filled = 0;
    while filled <= limit {
        let count = read_more(source, &mut bytes, filled, limit)?;
        if count == 0 {
            bytes.truncate(filled);
            return Ok(bytes);
        }
        filled += count;
    }
    Err(ReadError::TooLong)
}

// One read into `bytes` behind the first `filled`, of no more bytes than one above `limit`.
fn read_more<S: Source>(
    source: &mut S,
    bytes: &mut Vec<u8>,
    filled: usize,
    limit: usize,
) -> Result<usize, ReadError>
    requires filled { filled ≤ vec_len bytes.old }
    requires below { filled ≤ limit }
    ensures front { take filled bytes.new.items ≡ take filled bytes.old.items }
    ensures held { IfOk result (λ k. filled + k ≤ vec_len bytes.new) }
    ensures within { IfOk result (λ k. filled + k ≤ limit + 1) }
    ensures piece { IfOk result (λ k. S.given source.new
        ≡ S.given source.old ++ take k (drop filled bytes.new.items) ∷ []) }
    ensures refused { OnErr result (S.given source.new ≡ S.given source.old) }
    ensures drawn { IsDrawn (S.left source.old) (S.left source.new) (S.given source.old) (S.given source.new) }
    ensures quiet { OnOk result (S.faults source.new ≡ S.faults source.old) }
    ensures cause { IfErr result (ExplainsReadError (S.faults source.old) (S.faults source.new)) }
    ensures no_long { result ≢ Err ReadError.TooLong }
    ensures lasting { S.faults source.old ≤ S.faults source.new }
{
    let most = limit.saturating_add(1);
    make_room(bytes, filled, most)?;
    let end = bytes.len().min(most);
    read_into(source, &mut bytes[filled..end])
}

// One read of a part that isn't empty.
fn read_into<S: Source>(source: &mut S, part: &mut [u8]) -> Result<usize, ReadError>
    requires { 0 < length part.old }
    ensures held { IfOk result (λ k. k ≤ length part.new) }
    ensures piece { IfOk result (λ k. S.given source.new ≡ S.given source.old ++ take k part.new ∷ []) }
    ensures refused { OnErr result (S.given source.new ≡ S.given source.old) }
    ensures drawn { IsDrawn (S.left source.old) (S.left source.new) (S.given source.old) (S.given source.new) }
    ensures quiet { OnOk result (S.faults source.new ≡ S.faults source.old) }
    ensures cause { IfErr result (ExplainsReadError (S.faults source.old) (S.faults source.new)) }
    ensures no_long { result ≢ Err ReadError.TooLong }
    ensures lasting { S.faults source.old ≤ S.faults source.new }
{
    match source.read(part) {
        Ok(count) => Ok(count),
        Err(Failed) => Err(ReadError::ReadFault),
    }
}

// Makes `bytes` longer than `filled`, and no longer than it was or than `most`. It doubles, so
// that all growths together move no more bytes than there are in the end.
fn make_room(bytes: &mut Vec<u8>, filled: usize, most: usize) -> Result<(), ReadError>
    requires filled { filled ≤ vec_len bytes.old }
    requires below { filled < most }
    ensures front { take filled bytes.new.items ≡ take filled bytes.old.items }
    ensures room { OnOk result (filled < vec_len bytes.new) }
    ensures no_memory { IfErr result (λ error. error ≡ ReadError.NoMemory) }
{
    if filled < bytes.len() {
        return Ok(());
    }
    let longer = filled.saturating_add(filled.max(LEAST_GROWTH));
    match bytes.resize(longer.min(most), 0) {
        Ok(()) => Ok(()),
        Err(_) => Err(ReadError::NoMemory),
    }
}
