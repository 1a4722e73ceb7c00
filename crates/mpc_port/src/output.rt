//! Bytes that go out.
ghost use Rattle.std.specs.Prelude.{◌≡◌, ℕ, List, ◌++◌, ◌<◌, ◌≤◌, length, take, IfOk, IfErr, OnOk, OnErr};
ghost use Rattle.mpc_port.specs.Passing.{TookFront};
ghost use Rattle.mpc_port.specs.SinkError.{ExplainsSinkError};

use std::error::Error;
use std::fmt;

/// Why a sink refuses bytes.
#[derive(Clone, Copy, Debug, PartialEq, Eq)]
pub enum SinkError {
    /// The sink failed.
    Failed,
    /// Memory ran out.
    NoMemory,
}

impl fmt::Display for SinkError {
    fn fmt<W: fmt::Write>(&self, f: &mut fmt::Formatter<W>) -> fmt::Result {
        match self {
            SinkError::Failed => write!(f, "the sink failed"),
            SinkError::NoMemory => write!(f, "memory ran out"),
        }
    }
}

impl Error for SinkError {}

/// Where bytes go to.
pub trait Sink {
    // The bytes that were taken, in order.
    ghost taken: { Self → List ℕ };

    // How many faults there have been.
    ghost faults: { Self → ℕ };

    /// Takes some bytes from the front of `piece`, and says how many: of a piece that isn't
    /// empty, at least one.
    ///
    /// # Errors
    ///
    /// [`SinkError::Failed`] only where the count of faults rose. At an error some first bytes may
    /// be taken, as where a flush fails behind them.
    fn write(&mut self, piece: &[u8]) -> Result<usize, SinkError>
        ensures count { IfOk result (λ k. k ≤ length piece.now) }
        ensures some { IfOk result (λ k. 0 < length piece.now → 0 < k) }
        ensures given { IfOk result (λ k. taken self.new ≡ taken self.old ++ take k piece.now) }
        ensures quiet { OnOk result (faults self.new ≡ faults self.old) }

        ensures cause { IfErr result (ExplainsSinkError (faults self.old) (faults self.new)) }
        ensures refused { OnErr result (TookFront (taken self.old) (taken self.new) piece.now) }
        ensures lasting { faults self.old ≤ faults self.new };
}

/// Writes all of `bytes` to `sink`, in order.
///
/// # Errors
///
/// [`SinkError::Failed`] only where the sink's count of faults rose. At either error the sink has
/// taken just some first bytes.
pub fn write_all<K: Sink>(sink: &mut K, bytes: &[u8]) -> Result<(), SinkError>
    ensures whole { OnOk result (K.taken sink.new ≡ K.taken sink.old ++ bytes.now) }
    ensures quiet { OnOk result (K.faults sink.new ≡ K.faults sink.old) }
    ensures part { OnErr result (TookFront (K.taken sink.old) (K.taken sink.new) bytes.now) }
    ensures cause { IfErr result (ExplainsSinkError (K.faults sink.old) (K.faults sink.new)) }
    ensures lasting { K.faults sink.old ≤ K.faults sink.new }
{
    let mut sent = 0;
    while sent < bytes.len() {
        sent += sink.write(&bytes[sent..])?;
    }
    Ok(())
}
