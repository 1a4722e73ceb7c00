//! A source and a sink in memory that fail by plan.
ghost use Rattle.std.specs.Prelude.{◌≡◌, ◌↔◌, ◌<◌, ◌≤◌, ◌∷◌, ◌++◌, [], Some, min, length, take, drop, Contains, IsTrue, IsErr, IfOk, OnErr, IsErrOf, if◌then◌else◌};
ghost use Rattle.mpc_port.specs.Faults.{next_count};
ghost use Rattle.mpc_port.specs.Device.{new_device, NextFails, after_failure, after_call};
ghost use Rattle.mpc_port.specs.Passing.{IsDrawn};

use crate::input::{Failed, Source};
use crate::output::{Sink, SinkError};
use crate::quiet::{QuietSink, QuietSource};
use std::alloc::Global;
use std::marker::Model;

// Which calls fail, and the counts of calls and of faults so far. Both counts stop at `u64::MAX`.
#[derive(Drop)]
struct FaultPlan {
    fails: Vec<u64>,
    calls: u64,
    faults: u64,
}

impl FaultPlan {
    fn new(fails: Vec<u64>) -> FaultPlan
        ensures { result ≡ record { fails = fails; calls = 0; faults = 0 } }
    {
        FaultPlan {
            fails,
            calls: 0,
            faults: 0,
        }
    }

    // Counts a call, and says whether it fails.
    fn next_fails(&mut self) -> bool
        ensures answer { IsTrue result ↔ Contains self.old.fails.items (next_count self.old.calls) }
        ensures fails { self.new.fails.items ≡ self.old.fails.items }
        ensures calls { self.new.calls ≡ next_count self.old.calls }
        ensures faults { self.new.faults
            ≡ (if result then next_count self.old.faults else self.old.faults) }
    {
        self.calls = self.calls.saturating_add(1);
        let fails = self.fails.contains(&self.calls);
        if fails {
            self.faults = self.faults.saturating_add(1);
        }
        fails
    }
}

/// Bytes in memory, read in small pieces, with faults at chosen calls.
#[derive(Drop)]
pub struct MemorySource {
    source: QuietSource,
    piece: usize,
    plan: FaultPlan,
}

impl Model for MemorySource {
    ghost use Rattle.std.specs.Prelude.{◌<◌};
    ghost use Rattle.mpc_port.specs.Device.{Device};
    ghost use Rattle.mpc_port.specs.Passing.{Giving};

    ghost Value = { Giving Device };

    ghost view = { λ s. record {
      device = record {
        bytes = s.source.device;
        piece = s.piece;
        fails = s.plan.fails.items;
        calls = s.plan.calls;
        faults = s.plan.faults;
      };
      given = s.source.given;
    } };

    ghost invariant = { λ s. 0 < s.piece };
}

impl MemorySource {
    /// A source with all of `bytes` left, of which at most `piece` go through one call. The calls
    /// are numbered from 1, and all from the one numbered `u64::MAX` on have that number. A call
    /// fails exactly where its number is in `fails`.
    pub fn new(bytes: Vec<u8>, piece: usize, fails: Vec<u64>) -> MemorySource
        requires { 0 < piece }
        ensures { result ≡ record { device = new_device bytes.items piece fails.items; given = [] } }
    {
        MemorySource {
            source: QuietSource::new(bytes),
            piece,
            plan: FaultPlan::new(fails),
        }
    }
}

impl Source for MemorySource {
    ghost use Rattle.std.specs.Prelude.{Some};

    ghost given = { λ source. source.given };

    ghost left = { λ source. Some source.device.bytes };

    ghost faults = { λ source. source.device.faults };

    fn read(&mut self, buf: &mut [u8]) -> Result<usize, Failed>
        ensures fails { IsErr result ↔ NextFails self.old.device }
        ensures value { IfOk result (λ k. k ≡ min (min (length buf.old) self.old.device.piece) (length self.old.device.bytes)) }
        ensures bytes { IfOk result (λ k. take k buf.new ≡ take k self.old.device.bytes) }
        ensures rest { IfOk result (λ k. self.new.device ≡ after_call self.old.device (drop k self.old.device.bytes)) }
        ensures piece { IfOk result (λ k. 0 < length buf.old
            → self.new.given ≡ self.old.given ++ take k buf.new ∷ []) }
        ensures no_room { length buf.old ≡ 0 → self.new.given ≡ self.old.given }
        ensures drawn { IsDrawn (Some self.old.device.bytes) (Some self.new.device.bytes) self.old.given self.new.given }
        ensures err { OnErr result (self.new ≡ record self.old { device = after_failure self.old.device }) }
        ensures lasting { self.old.device.faults ≤ self.new.device.faults }
    {
        if self.plan.next_fails() {
            return Err(Failed);
        }
        let most = buf.len().min(self.piece);
        self.source.read(&mut buf[..most])
    }
}

/// Takes bytes into memory in small pieces, with faults at chosen calls.
#[derive(Drop)]
pub struct MemorySink {
    sink: QuietSink,
    piece: usize,
    plan: FaultPlan,
}

impl Model for MemorySink {
    ghost use Rattle.std.specs.Prelude.{◌<◌};
    ghost use Rattle.mpc_port.specs.Device.{Device};

    ghost Value = { Device };

    ghost view = { λ s. record {
      bytes = s.sink;
      piece = s.piece;
      fails = s.plan.fails.items;
      calls = s.plan.calls;
      faults = s.plan.faults;
    } };

    ghost invariant = { λ s. 0 < s.piece };
}

impl MemorySink {
    /// A sink that has taken nothing, and of which a call takes at most `piece` bytes. The calls
    /// are numbered from 1, and all from the one numbered `u64::MAX` on have that number. A call
    /// fails exactly where its number is in `fails`.
    pub fn new(alloc: Global, piece: usize, fails: Vec<u64>) -> MemorySink
        requires { 0 < piece }
        ensures { result ≡ new_device [] piece fails.items }
    {
        MemorySink {
            sink: QuietSink::new(alloc),
            piece,
            plan: FaultPlan::new(fails),
        }
    }

    /// The bytes that were taken, in order.
    pub fn bytes(&self) -> &[u8]
        ensures { result.now ≡ self.now.bytes }
    {
        self.sink.bytes()
    }
}

impl Sink for MemorySink {
    ghost taken = { λ device. device.bytes };

    ghost faults = { λ device. device.faults };

    fn write(&mut self, piece: &[u8]) -> Result<usize, SinkError>
        ensures fails { IsErrOf result SinkError.Failed ↔ NextFails self.old }
        ensures value { IfOk result (λ k. k ≡ min (length piece.now) self.old.piece) }
        ensures bytes { IfOk result (λ k.
            self.new ≡ after_call self.old (self.old.bytes ++ take k piece.now)) }
        ensures failed { IsErrOf result SinkError.Failed → self.new ≡ after_failure self.old }
        ensures no_memory { IsErrOf result SinkError.NoMemory
            → self.new ≡ after_call self.old self.old.bytes }
        ensures some { IfOk result (λ k. 0 < length piece.now → 0 < k) }
        ensures lasting { self.old.faults ≤ self.new.faults }
    {
        if self.plan.next_fails() {
            return Err(SinkError::Failed);
        }
        let most = piece.len().min(self.piece);
        self.sink.write(&piece[..most])
    }
}
