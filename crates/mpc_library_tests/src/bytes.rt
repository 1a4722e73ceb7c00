//! What no clause says: that the calls succeed, and what the adapters do at the edge.
ghost use Rattle.std.specs.Prelude.{◌≤◌, IfOk};

use mpc_port::{
    Failed, HostSink, HostSource, MemorySink, MemorySource, QuietSink, QuietSource, ReadError,
    Sink, SinkError, Source, read_all, write_all,
};
use std::alloc::Global;
use std::io;
use std::io::{ErrorKind, Read, Write};
use std::process::Abort;
use std::test::Fail;

const TEXT: &[u8] = b"0123456789ab";

/// Reads pieces of so many bytes, with a fault at one call. Each read but the last gives a piece, and the last finds the end.
/// A fault at any of them is answered, and what it left can still be read.
fn read_with_a_fault(
    rt: &impl Abort,
    alloc: Global,
    piece: usize,
    reads: u64,
    failing: u64,
) -> Result<(), Fail> {
    assert!(rt; 0 < piece && piece <= 40 && 0 < failing);
    let fails = vec![in alloc; failing]?;
    let mut source = MemorySource::new(TEXT.to_vec(alloc)?, piece, fails);
    let answer = read_all(alloc, &mut source, 12);
    if failing > reads {
        assert_eq!(rt; answer?.as_slice(), TEXT);
        return Ok(());
    }
    assert_eq!(rt; answer.err(), Some(ReadError::ReadFault));
    let rest = read_all(alloc, &mut source, 12)?;
    assert!(rt; TEXT.ends_with(rest.as_slice()));
    let read = (failing as usize - 1).min(TEXT.len()) * piece;
    assert_eq!(rt;
        rest.len(),
        TEXT.len().saturating_sub(read),
        "{piece} {failing}"
    );
    Ok(())
}

#[test]
fn reads_with_a_fault_at_each_call(rt: HostRuntime) -> Result<(), Fail> {
    for (piece, reads) in [(1, 13), (2, 7), (5, 4), (10, 3), (12, 2), (40, 2)] {
        for failing in 1..reads + 2 {
            read_with_a_fault(&rt, rt.alloc(), piece, reads, failing)?;
        }
    }
    Ok(())
}

#[test]
fn reads_up_to_the_limit(rt: HostRuntime) -> Result<(), Fail> {
    for (length, limit, answer) in [
        (0, 0, None),
        (1, 0, Some(ReadError::TooLong)),
        (12, 12, None),
        (12, 11, Some(ReadError::TooLong)),
        (12, usize::MAX, None),
        (300_000, 300_000, None),
        (300_000, 299_999, Some(ReadError::TooLong)),
    ] {
        let mut source = QuietSource::new(vec![in rt.alloc(); 7u8; length]?);
        match read_all(rt.alloc(), &mut source, limit) {
            Ok(bytes) => {
                assert_eq!(rt; bytes.len(), length);
                assert_eq!(rt; answer, None);
            }
            Err(error) => assert_eq!(rt; Some(error), answer),
        }
    }
    Ok(())
}

/// Writes pieces of so many bytes, with a fault at one call.
fn write_with_a_fault(
    rt: &impl Abort,
    alloc: Global,
    piece: usize,
    writes: u64,
    failing: u64,
) -> Result<(), Fail> {
    assert!(rt; 0 < piece && piece <= 40 && 0 < failing);
    let fails = vec![in alloc; failing]?;
    let mut sink = MemorySink::new(alloc, piece, fails);
    let answer = write_all(&mut sink, TEXT);
    if failing > writes {
        assert_eq!(rt; answer, Ok(()));
        assert_eq!(rt; sink.bytes(), TEXT);
        return Ok(());
    }
    let sent = (failing as usize - 1).min(TEXT.len()) * piece;
    assert_eq!(rt; answer, Err(SinkError::Failed));
    assert_eq!(rt; sink.bytes().len(), sent);
    assert!(rt; TEXT.starts_with(sink.bytes()));
    Ok(())
}

#[test]
fn writes_with_a_fault_at_each_call(rt: HostRuntime) -> Result<(), Fail> {
    for (piece, writes) in [(1, 12), (2, 6), (5, 3), (10, 2), (12, 1), (40, 1)] {
        for failing in 1..writes + 2 {
            write_with_a_fault(&rt, rt.alloc(), piece, writes, failing)?;
        }
    }
    let mut sink = QuietSink::new(rt.alloc());
    write_all(&mut sink, TEXT)?;
    write_all(&mut sink, b"")?;
    assert_eq!(rt; sink.bytes(), TEXT);
    Ok(())
}

// A device that gives or takes up to `most` bytes a call, fails at call number `failing`, and
// fails to flush after call number `unflushed`.
#[derive(Drop)]
struct Wire {
    most: usize,
    failing: u32,
    unflushed: u32,
    calls: u32,
}

impl Wire {
    fn new(most: usize, failing: u32, unflushed: u32) -> Wire {
        Wire {
            most,
            failing,
            unflushed,
            calls: 0,
        }
    }

    fn call(&mut self, length: usize) -> io::Result<usize>
        ensures { IfOk result (λ k. k ≤ length) }
    {
        self.calls = self.calls.saturating_add(1);
        if self.calls == self.failing {
            return Err(ErrorKind::BrokenPipe.into());
        }
        Ok(length.min(self.most))
    }
}

impl Read for Wire {
    fn read(&mut self, buf: &mut [u8]) -> io::Result<usize> {
        let count = self.call(buf.len())?;
        buf[..count].fill(b'w');
        Ok(count)
    }
}

impl Write for Wire {
    fn write(&mut self, buf: &[u8]) -> io::Result<usize> {
        self.call(buf.len())
    }

    fn flush(&mut self) -> io::Result<()> {
        if self.calls == self.unflushed {
            return Err(ErrorKind::BrokenPipe.into());
        }
        Ok(())
    }
}

#[test]
fn reads_through_a_reader_of_std(rt: HostRuntime) -> Result<(), Fail> {
    let mut source = HostSource::new(TEXT);
    let bytes = read_all(rt.alloc(), &mut source, 12)?;
    assert_eq!(rt; bytes.as_slice(), TEXT);

    for (most, failing, answer) in [
        (5, 1, ReadError::ReadFault),
        (5, 3, ReadError::ReadFault),
        (5, 4, ReadError::TooLong),
    ] {
        let mut source = HostSource::new(Wire::new(most, failing, 0));
        assert_eq!(rt; read_all(rt.alloc(), &mut source, 12).err(), Some(answer));
    }
    Ok(())
}

#[test]
fn writes_through_a_writer_of_std(rt: HostRuntime) -> Result<(), Fail> {
    let mut taken = Vec::new(rt.alloc());
    write_all(&mut HostSink::new(&mut taken), TEXT)?;
    assert_eq!(rt; taken.as_slice(), TEXT);

    for (most, failing, unflushed, answer) in [
        (5, 4, 4, Ok(())),
        (5, 1, 0, Err(SinkError::Failed)),
        (5, 3, 0, Err(SinkError::Failed)),
        (5, 0, 2, Err(SinkError::Failed)),
        (0, 0, 0, Err(SinkError::Failed)),
    ] {
        let mut sink = HostSink::new(Wire::new(most, failing, unflushed));
        assert_eq!(rt; write_all(&mut sink, TEXT), answer);
    }
    Ok(())
}

/// Whether a text is this message.
fn says(text: String, message: &str) -> bool {
    text.as_str() == message
}

#[test]
fn errors_say_what_happened(rt: HostRuntime) -> Result<(), Fail> {
    let alloc = rt.alloc();
    let failed = format!(in alloc; "{Failed}")?;
    assert!(rt; says(failed, "a source or a sink failed"));
    let long = format!(in alloc; "{}", ReadError::TooLong)?;
    assert!(rt; says(long, "the input is too long"));
    let memory = format!(in alloc; "{}", SinkError::NoMemory)?;
    assert!(rt; says(memory, "memory ran out"));
    let fault = format!(in alloc; "{}", SinkError::Failed)?;
    assert!(rt; says(fault, "the sink failed"));
    Ok(())
}
