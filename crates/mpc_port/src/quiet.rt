//! A source and a sink in memory that never fail.
ghost use Rattle.std.specs.Prelude.{◌≡◌, ◌<◌, ◌∷◌, ◌++◌, [], Ok, Some, min, length, take, drop, IfOk, IfErr};
ghost use Rattle.mpc_port.specs.Passing.{IsDrawn};

use crate::history::History;
use crate::input::{Failed, Source};
use crate::output::{Sink, SinkError};
use std::alloc::Global;
use std::marker::Model;

/// Bytes in memory, read without a fault.
#[derive(Drop)]
pub struct QuietSource {
    bytes: Vec<u8>,
    next: usize,
    history: History,
}

impl Model for QuietSource {
    ghost use Rattle.std.specs.Prelude.{List, ℕ, ◌≤◌, drop, length};
    ghost use Rattle.mpc_port.specs.Passing.{Giving};

    ghost Value = { Giving (List ℕ) };

    ghost view = { λ source. record {
      device = drop source.next source.bytes.items;
      given = source.history.pieces;
    } };

    ghost invariant = { λ source. source.next ≤ length source.bytes.items };
}

impl QuietSource {
    /// A source with all of `bytes` left.
    pub fn new(bytes: Vec<u8>) -> QuietSource
        ensures { result ≡ record { device = bytes.items; given = [] } }
    {
        QuietSource {
            bytes,
            next: 0,
            history: History::new(),
        }
    }
}

impl Source for QuietSource {
    ghost use Rattle.std.specs.Prelude.{Some};

    ghost given = { λ source. source.given };

    ghost left = { λ source. Some source.device };

    ghost faults = { λ _. 0 };

    fn read(&mut self, buf: &mut [u8]) -> Result<usize, Failed>
        ensures value { result ≡ Ok (min (length buf.old) (length self.old.device)) }
        ensures bytes { IfOk result (λ k. take k buf.new ≡ take k self.old.device) }
        ensures rest { IfOk result (λ k. self.new.device ≡ drop k self.old.device) }
        ensures piece { IfOk result (λ k. 0 < length buf.old
            → self.new.given ≡ self.old.given ++ take k buf.new ∷ []) }
        ensures no_room { length buf.old ≡ 0 → self.new.given ≡ self.old.given }
        ensures drawn { IsDrawn (Some self.old.device) (Some self.new.device) self.old.given self.new.given }
    {
        let count = buf.len().min(self.bytes.len() - self.next);
        let end = self.next + count;
        buf[..count].copy_from_slice(&self.bytes[self.next..end]);
        self.next = end;
        if !buf.is_empty() {
            self.history.note(&buf[..count]);
        }
        Ok(count)
    }
}

/// Takes bytes into memory, without a fault.
#[derive(Drop)]
pub struct QuietSink {
    bytes: Vec<u8>,
}

impl Model for QuietSink {
    ghost use Rattle.std.specs.Prelude.{List, ℕ};

    ghost Value = { List ℕ };

    ghost view = { λ sink. sink.bytes.items };
}

impl QuietSink {
    /// A sink that has taken nothing.
    pub fn new(alloc: Global) -> QuietSink
        ensures { result ≡ [] }
    {
        QuietSink {
            bytes: Vec::new(alloc),
        }
    }

    /// The bytes that were taken, in order.
    pub fn bytes(&self) -> &[u8]
        ensures { result.now ≡ self.now }
    {
        self.bytes.as_slice()
    }
}

impl Sink for QuietSink {
    ghost taken = { λ bytes. bytes };

    ghost faults = { λ _. 0 };

    fn write(&mut self, piece: &[u8]) -> Result<usize, SinkError>
        ensures ok { IfOk result (λ k. (k ≡ length piece.now) × (self.new ≡ self.old ++ piece.now)) }
        ensures err { IfErr result (λ error. (error ≡ SinkError.NoMemory) × (self.new ≡ self.old)) }
    {
        match self.bytes.extend_from_slice(piece) {
            Ok(()) => Ok(piece.len()),
            Err(_) => Err(SinkError::NoMemory),
        }
    }
}
