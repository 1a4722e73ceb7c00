//! The command `mpc`: an explicit model predictive control compiler whose every answer is proved.
//!
//! It runs the command that its words name over standard input and output. What each command reads and
//! writes stands at `run` of `mpc_cli`.
#![tactic(auto)]

ghost use Rattle.std.specs.Prelude.{map, string_bytes};
ghost use Rattle.mpc_cli.specs.Answers.{RunAnswers};
ghost use Rattle.mpc_cli.specs.StatedOutputs.{StatesOutput};

use mpc_cli::{run, run_alone, waits};
use mpc_port::{HostSink, HostSource};
use mpc_status::Status;
use mpc_workers::OpenGate;
use std::alloc::Global;
use std::io::{Read, Write};
use std::process::ExitCode;
use std::rt::Env;
use std::sync::Wait;
use std::thread::Threads;
use std::{env, io};

/// The exit code where the program's words can't be had, or aren't UTF-8.
const NO_WORDS: u8 = 19;

/// The words behind the program's name.
fn words(rt: &(impl Env + AllocGlobal)) -> io::Result<Vec<String>> {
    let alloc: Global = rt.alloc();
    let mut words = Vec::new(alloc);
    for word in env::args(rt)?.skip(1) {
        words.push(word)?;
    }
    Ok(words)
}

/// The command over a reader and a writer of std: by the bytes that they gave and took in this call. Words
/// that wait for nobody go to [`run_alone`], which returns.
pub fn run_at_host<T: Threads + Wait + Sync, R: Read, W: Write>(
    rt: &T,
    alloc: Global,
    words: &[String],
    source: &mut HostSource<R>,
    sink: &mut HostSink<W>,
) -> Status
    ensures answers { RunAnswers (map string_bytes words.now)
        (record {
          given = source.old.given;
          given_after = source.new.given;
          read_faults = source.old.faults;
          read_faults_after = source.new.faults;
          taken = sink.old.taken;
          taken_after = sink.new.taken;
          write_faults = sink.old.faults;
          write_faults_after = sink.new.faults;
        }) result }
    ensures stated { StatesOutput (map string_bytes words.now)
        source.old.given source.new.given sink.old.taken sink.new.taken result }
{
    if waits(words) {
        run(rt, alloc, words, source, sink, &OpenGate)
    } else {
        run_alone(rt, alloc, words, source, sink, &OpenGate)
    }
}

fn main(rt: HostRuntime) -> ExitCode {
    let Ok(words) = words(&rt) else {
        return ExitCode::from(NO_WORDS);
    };
    let mut source = HostSource::new(rt.reader());
    let mut sink = HostSink::new(rt.stdout());
    let status = run_at_host(&rt, rt.alloc(), &words, &mut source, &mut sink);
    ExitCode::from(status.code())
}
