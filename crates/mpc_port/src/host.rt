//! A reader and a writer of std as a source and a sink.
ghost use Rattle.std.specs.Prelude.{◌≡◌, ◌<◌, ◌≤◌, [], ◌∷◌, ◌++◌, length, take, IfOk, IfErr, IfSome, OnOk, OnErr};
ghost use Rattle.mpc_port.specs.Faults.{next_count};
ghost use Rattle.mpc_port.specs.Passing.{IsDrawn, TookFront, TookThrough};
ghost use Rattle.mpc_port.specs.SinkError.{ExplainsSinkError};

use crate::history::History;
use crate::input::{Failed, Source};
use crate::output::{Sink, SinkError};
use std::io::{Read, Write};
use std::marker::Model;

/// A reader of std, whose errors are counted. Its history has each piece that the reader gave.
/// What is left is the reader's word; of a file or a terminal nobody can tell it.
#[derive(Drop)]
pub struct HostSource<R> {
    reader: R,
    errors: u64,
    history: History,
}

impl<R> Model for HostSource<R> {
    ghost use Rattle.mpc_port.specs.Passing.{HostInput};

    ghost Value = { HostInput R };

    ghost view = { λ source. record {
      reader = source.reader;
      faults = source.errors;
      given = source.history.pieces;
    } };
}

impl<R: Read> HostSource<R> {
    /// A source over `reader`, with no fault so far, that gave nothing yet.
    pub fn new(reader: R) -> HostSource<R>
        ensures { result ≡ record { reader = reader; faults = 0; given = [] } }
    {
        HostSource {
            reader,
            errors: 0,
            history: History::new(),
        }
    }
}

impl<R: Read> Source for HostSource<R> {
    ghost given = { λ source. source.given };

    ghost left = { λ source. R.remaining source.reader };

    ghost faults = { λ source. source.faults };

    fn read(&mut self, buf: &mut [u8]) -> Result<usize, Failed>
        ensures count { IfOk result (λ k. k ≤ length buf.new) }
        ensures piece { IfOk result (λ k. 0 < length buf.old
            → self.new.given ≡ self.old.given ++ take k buf.new ∷ []) }
        ensures no_room { length buf.old ≡ 0 → self.new.given ≡ self.old.given }
        ensures refused { OnErr result (self.new.given ≡ self.old.given) }
        ensures drawn { IsDrawn (R.remaining self.old.reader) (R.remaining self.new.reader)
            self.old.given self.new.given }
        ensures quiet { OnOk result (self.new.faults ≡ self.old.faults) }
        ensures failed { OnErr result (self.new.faults ≡ next_count self.old.faults) }
        ensures lasting { self.old.faults ≤ self.new.faults }
    {
        match self.reader.read(buf) {
            Ok(count) => {
                if !buf.is_empty() {
                    self.history.note(&buf[..count]);
                }
                Ok(count)
            }
            Err(_) => {
                self.errors = self.errors.saturating_add(1);
                Err(Failed)
            }
        }
    }
}

/// A writer of std, whose errors are counted. Its history has each piece that the writer took.
#[derive(Drop)]
pub struct HostSink<W> {
    writer: W,
    errors: u64,
    history: History,
}

impl<W> Model for HostSink<W> {
    ghost use Rattle.mpc_port.specs.Passing.{HostOutput};
    ghost use Rattle.std.specs.List.{concat};

    ghost Value = { HostOutput W };

    ghost view = { λ sink. record {
      writer = sink.writer;
      faults = sink.errors;
      taken = concat sink.history.pieces;
    } };
}

impl<W: Write> HostSink<W> {
    /// A sink over `writer`, with no fault so far, that took nothing yet.
    pub fn new(writer: W) -> HostSink<W>
        ensures { result ≡ record { writer = writer; faults = 0; taken = [] } }
    {
        HostSink {
            writer,
            errors: 0,
            history: History::new(),
        }
    }

    // Writes and flushes. `None` is an error of either, or a write of nothing.
    #[tactic(auto, using(crate::proofs::Passing::concat_one_more))]
    fn write_through(&mut self, piece: &[u8]) -> Option<usize>
        ensures count { IfSome result (λ k. k ≤ length piece.now) }
        ensures some { IfSome result (λ k. 0 < length piece.now → 0 < k) }
        ensures given { IfSome result (λ k. self.new.taken ≡ self.old.taken ++ take k piece.now) }
        ensures took { TookThrough (W.contents self.old.writer) (W.contents self.new.writer)
            self.old.taken self.new.taken piece.now }
        ensures faults { self.new.faults ≡ self.old.faults }
    {
        let Ok(count) = self.writer.write(piece) else {
            return None;
        };
        self.history.note(&piece[..count]);
        if self.writer.flush().is_err() || count == 0 && !piece.is_empty() {
            return None;
        }
        Some(count)
    }
}

impl<W: Write> Sink for HostSink<W> {
    ghost taken = { λ sink. sink.taken };

    ghost faults = { λ sink. sink.faults };

    fn write(&mut self, piece: &[u8]) -> Result<usize, SinkError>
        ensures count { IfOk result (λ k. k ≤ length piece.now) }
        ensures some { IfOk result (λ k. 0 < length piece.now → 0 < k) }
        ensures given { IfOk result (λ k. self.new.taken ≡ self.old.taken ++ take k piece.now) }

        // What goes into the history is what the writer took.
        ensures took { TookThrough (W.contents self.old.writer) (W.contents self.new.writer)
            self.old.taken self.new.taken piece.now }

        ensures quiet { OnOk result (self.new.faults ≡ self.old.faults) }
        ensures failed { OnErr result (self.new.faults ≡ next_count self.old.faults) }
        ensures cause { IfErr result (ExplainsSinkError self.old.faults self.new.faults) }
        ensures refused { OnErr result (TookFront self.old.taken self.new.taken piece.now) }
        ensures lasting { self.old.faults ≤ self.new.faults }
    {
        match self.write_through(piece) {
            Some(count) => Ok(count),
            None => {
                self.errors = self.errors.saturating_add(1);
                Err(SinkError::Failed)
            }
        }
    }
}
