//! The top call: from the words and the bytes of the source to the bytes of the sink and a status.

ghost use Rattle.std.specs.Prelude.{◌≡◌, map, string_bytes, IfOk, IfErr, MatchOption, Err, ◌↔◌, IsTrue};
ghost use Rattle.mpc_cli.specs.Commands.{Names, Reads, Waits, CommandWaits};
ghost use Rattle.mpc_cli.specs.Answers.{RunAnswers};
ghost use Rattle.mpc_cli.specs.StatedOutputs.{StatesOutput};
ghost use Rattle.mpc_port.specs.Passing.{IsDrawn};
ghost use Rattle.mpc_cli.specs.Outcomes.{Closes, ExplainsRunHalt, Finishes, IsSomeAnswer};

use crate::answer::Answer;
use crate::commands::{Command, named_command};
use crate::inputs::Halt;
use crate::respond::{answer_alone, answer_in_threads, refused};
use crate::theorems::one_status;
use mpc_port::{Sink, SinkError, Source, write_all};
use mpc_status::Status;
use mpc_workers::Gate;
use std::alloc::Global;
use std::sync::Wait;
use std::thread::Threads;

/// Runs the command that the words name: reads its input from `source` and writes its output, or the
/// status's line, to `sink`.
///
/// `run`: from the file of a plant, a line `states` and lines of counts it writes one reply line a line of
/// counts, the exact first move of the cheapest admissible input sequence from that state, or `infeasible`
/// where there is none.
///
/// `compile`: from the file of a plant it writes the file of its controller.
///
/// `trace`: from the file of a plant it writes the history in which the active sets of its program are
/// claimed and decided.
///
/// `check`: of the file of a controller it writes `accepted` where the controller meets all conditions of
/// optimality, and else the first that it doesn't meet.
///
/// `reply`: from the file of a controller, a line `states` and lines of counts it writes one reply line a
/// line of counts, those of the controller, whether anybody has checked it or not.
///
/// `convert`: from the file of a controller it writes the file of the same controller in the newest version.
///
/// `solve`: from the input of `run` it writes one reply line a line of counts, the same replies as `run`, or `too wide`, and compiles nothing.
///
/// `robust`: from the file of a plant, a line `noise` with how far a disturbance may go in each coordinate, a line `states` and lines of counts
/// it writes the replies that are right whatever disturbances come.
///
/// `safe`: of the file of a controller it writes `safe` where the checker accepts the controller and its closed loop goes on forever, and else the
/// first condition that it doesn't meet, or the first step that leads elsewhere.
///
/// `fleet`: from up to eight files of plants, with lines `next` between them, it writes what each is answered with by itself, under its number and its
/// exit code.
///
/// `drill S`, with a number S from 0 to 95 in decimal, reads nothing: it makes the controller of one plant of a family, checks it, and writes
/// how many active sets, laws and leaves it has, and how deep its tree is.
///
/// `compile`, `trace` and `fleet` take `--workers W` with a number W from 1 to 32 in decimal: so many workers decide
/// the active sets, in as many threads as the machine runs at once. The file of a controller is the same for
/// every number.
pub fn run<T: Threads + Wait + Sync, S: Source, K: Sink, G: Gate + Sync>(
    rt: &T,
    alloc: Global,
    words: &[String],
    source: &mut S,
    sink: &mut K,
    gate: &G,
) -> Status
    ensures answers { RunAnswers (map string_bytes words.now)
        (record {
          given = S.given source.old;
          given_after = S.given source.new;
          read_faults = S.faults source.old;
          read_faults_after = S.faults source.new;
          taken = K.taken sink.old;
          taken_after = K.taken sink.new;
          write_faults = K.faults sink.old;
          write_faults_after = K.faults sink.new;
        }) result }
    ensures stated { StatesOutput (map string_bytes words.now)
        (S.given source.old) (S.given source.new) (K.taken sink.old) (K.taken sink.new) result }
    ensures drawn { IsDrawn (S.left source.old) (S.left source.new) (S.given source.old) (S.given source.new) }
    ensures unread { (¬ Reads (map string_bytes words.now)) → source.new ≡ source.old }
{
    match waiting_command(words) {
        Some(command) => {
            one_status();
            let outcome = answer_in_threads(rt, alloc, command, source, gate);
            close(sink, outcome)
        }
        None => run_alone(rt, alloc, words, source, sink, gate),
    }
}

/// What [`run`] does where the words don't name a command that waits: it waits for nobody.
pub fn run_alone<T: Threads + Sync, S: Source, K: Sink, G: Gate>(
    rt: &T,
    alloc: Global,
    words: &[String],
    source: &mut S,
    sink: &mut K,
    gate: &G,
) -> Status
    requires { ¬ Waits (map string_bytes words.now) }
    ensures answers { RunAnswers (map string_bytes words.now)
        (record {
          given = S.given source.old;
          given_after = S.given source.new;
          read_faults = S.faults source.old;
          read_faults_after = S.faults source.new;
          taken = K.taken sink.old;
          taken_after = K.taken sink.new;
          write_faults = K.faults sink.old;
          write_faults_after = K.faults sink.new;
        }) result }
    ensures stated { StatesOutput (map string_bytes words.now)
        (S.given source.old) (S.given source.new) (K.taken sink.old) (K.taken sink.new) result }
    ensures drawn { IsDrawn (S.left source.old) (S.left source.new) (S.given source.old) (S.given source.new) }
    ensures unread { (¬ Reads (map string_bytes words.now)) → source.new ≡ source.old }
{
    one_status();
    let outcome = words_answer(rt, alloc, words, source, gate);
    close(sink, outcome)
}

/// Whether the words name a command that waits.
pub fn waits(words: &[String]) -> bool
    ensures { IsTrue result ↔ Waits (map string_bytes words.now) }
{
    waiting_command(words).is_some()
}

/// The command that the words name, where it waits.
fn waiting_command(words: &[String]) -> Option<Command>
    ensures { MatchOption result (¬ Waits (map string_bytes words.now))
        (λ c. Names c (map string_bytes words.now) × CommandWaits c) }
{
    let command = named_command(words)?;
    if command.waits() {
        return Some(command);
    }
    None
}

/// The answer to words that name no command that waits.
fn words_answer<T: Threads + Sync, S: Source, G: Gate>(
    rt: &T,
    alloc: Global,
    words: &[String],
    source: &mut S,
    gate: &G,
) -> Result<Answer, Halt>
    requires { ¬ Waits (map string_bytes words.now) }
    ensures some { IfOk result (λ answer. IsSomeAnswer (map string_bytes words.now)
        (S.given source.old) (S.given source.new) answer.status answer.text.items) }
    ensures halt { IfErr result (ExplainsRunHalt (map string_bytes words.now)
        (S.given source.old) (S.given source.new) (S.faults source.old) (S.faults source.new)) }
    ensures drawn { IsDrawn (S.left source.old) (S.left source.new) (S.given source.old) (S.given source.new) }
    ensures unread { (¬ Reads (map string_bytes words.now)) → source.new ≡ source.old }
{
    match named_command(words) {
        Some(command) => answer_alone(rt, alloc, command, source, gate),
        None => refused(alloc, Status::Usage),
    }
}

/// Writes the answer where there is one, and gives the status of the run.
fn close<K: Sink>(sink: &mut K, outcome: Result<Answer, Halt>) -> Status
    ensures { Closes outcome (K.taken sink.old) (K.taken sink.new) (K.faults sink.old) (K.faults sink.new) result }
{
    match outcome {
        Ok(answer) => finish(sink, answer),
        Err(halt) => halt_status(halt),
    }
}

/// The status of a run that writes nothing.
fn halt_status(halt: Halt) -> Status
    ensures source { halt ≡ Halt.SourceFailed → result ≡ Status.ReadFault }
    ensures memory { halt ≡ Halt.OutOfMemory → result ≡ Status.NoMemory }
{
    match halt {
        Halt::SourceFailed => Status::ReadFault,
        Halt::OutOfMemory => Status::NoMemory,
    }
}

/// Writes the answer's text, and gives its status where the sink takes all of it.
fn finish<K: Sink>(sink: &mut K, answer: Answer) -> Status
    ensures { Finishes answer.status answer.text.items (K.taken sink.old) (K.taken sink.new)
        (K.faults sink.old) (K.faults sink.new) result }
{
    match write_all(sink, &answer.text) {
        Ok(()) => answer.status,
        Err(SinkError::Failed) => Status::WriteFault,
        Err(SinkError::NoMemory) => Status::NoMemory,
    }
}
