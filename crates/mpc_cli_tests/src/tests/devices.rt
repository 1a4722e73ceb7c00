//! Devices that fail at one of their calls.

ghost use Rattle.std.specs.Prelude.{◌<◌};

use super::{LIMITED, TANK, split_words};
use mpc_cli::run;
use mpc_port::{MemorySink, MemorySource, QuietSink, QuietSource};
use mpc_status::Status;
use mpc_workers::OpenGate;
use std::alloc::Global;
use std::sync::Wait;
use std::test::Fail;
use std::thread::Threads;

/// How many reads of ten bytes take the whole of [`TANK`], with the one that says that nothing is left.
const READS: u64 = 14;

/// What `run` answers for the tank where this one of the reads fails, of ten bytes each.
fn run_failing_read<T: Threads + Wait + Sync>(
    rt: &T,
    alloc: Global,
    call: u64,
) -> Result<(Status, QuietSink), Fail> {
    let words = split_words(alloc, "run")?;
    let fails = vec![in alloc; call]?;
    let mut source = MemorySource::new(TANK.to_vec(alloc)?, 10, fails);
    let mut sink = QuietSink::new(alloc);
    let status = run(rt, alloc, &words, &mut source, &mut sink, &OpenGate);
    Ok((status, sink))
}

/// What the words answer where this one of the writes fails, each of a piece of so many bytes.
fn run_failing_write<T: Threads + Wait + Sync>(
    rt: &T,
    alloc: Global,
    line: &str,
    input: &[u8],
    piece: usize,
    call: u64,
) -> Result<(Status, MemorySink), Fail>
    requires { 0 < piece }
{
    let words = split_words(alloc, line)?;
    let fails = vec![in alloc; call]?;
    let mut source = QuietSource::new(input.to_vec(alloc)?);
    let mut sink = MemorySink::new(alloc, piece, fails);
    let status = run(rt, alloc, &words, &mut source, &mut sink, &OpenGate);
    Ok((status, sink))
}

#[test]
fn tells_each_failing_read(rt: HostRuntime) -> Result<(), Fail> {
    for call in 1..=READS {
        let (status, sink) = run_failing_read(&rt, rt.alloc(), call)?;
        assert_eq!(rt; status.code(), 8);
        assert_eq!(rt; sink.bytes(), b"".as_slice());
    }
    Ok(())
}

#[test]
fn tells_each_failing_write(rt: HostRuntime) -> Result<(), Fail> {
    let input =
        b"{\"version\":1,\"horizon\":1,\"A\":[[1]],\"B\":[[1]],\"Q\":[[1]],\"R\":[[1]],\"P\":[[1]],\"rows\":[{\"u\":[1],\"max\":1},{\"u\":[-1],\"max\":1}],\"terminal\":[{\"x\":[1],\"max\":1},{\"x\":[-1],\"max\":1}],\"grid\":[{\"low\":-4,\"step\":1,\"count\":8}]}\nstates\n1\n2\n6\n7\n";
    let output = b"infeasible\n1\n-1\ninfeasible\n".as_slice();
    for sent in 0..output.len() {
        let (status, sink) = run_failing_write(&rt, rt.alloc(), "run", input, 1, sent as u64 + 1)?;
        assert_eq!(rt; status.code(), 9);
        assert_eq!(rt; sink.bytes(), &output[..sent]);
    }
    Ok(())
}

#[test]
fn tells_a_failing_write_of_two_bytes(rt: HostRuntime) -> Result<(), Fail> {
    let (status, sink) = run_failing_write(&rt, rt.alloc(), "run", TANK, 2, 2)?;
    assert_eq!(rt; status.code(), 9);
    assert_eq!(rt; sink.bytes(), b"2\n".as_slice());
    Ok(())
}

#[test]
fn tells_a_failing_write_of_a_controller(rt: HostRuntime) -> Result<(), Fail> {
    let (status, sink) = run_failing_write(&rt, rt.alloc(), "compile", LIMITED, 10, 2)?;
    assert_eq!(rt; status.code(), 9);
    assert_eq!(rt; sink.bytes(), b"mpc 3\nsize".as_slice());
    Ok(())
}

#[test]
fn tells_a_failing_write_of_a_refusal(rt: HostRuntime) -> Result<(), Fail> {
    let input =
        b"{\"version\":1,\"horizon\":1,\"A\":[[1]],\"B\":[[1]],\"Q\":[[1]],\"R\":[[0]],\"P\":[[0]],\"grid\":[{\"low\":-4,\"step\":1,\"count\":8}]}";
    let (status, sink) = run_failing_write(&rt, rt.alloc(), "compile", input, 1, 1)?;
    assert_eq!(rt; status.code(), 9);
    assert_eq!(rt; sink.bytes(), b"".as_slice());
    Ok(())
}
