//! The whole program, with threads: `work` for arguments, `exit` for a process.

ghost use Rattle.std.specs.Prelude.{map, string_bytes};
ghost use Rattle.std.specs.Process.{exit_status};
ghost use Rattle.jc_program.specs.Commands.{IsThreadsOrder};
ghost use Rattle.jc_program.specs.Promise.{Promise, All, ProcessPromise, files_of, world};

use crate::alone::work_alone;
use crate::fault::end;
use crate::files::Files;
use crate::threads::threads;
use crate::words::{explain, refuse_words};
use jc_cli::{Task, order_of};
use jc_io::{Sink, Source};
use std::io;
use std::process::ExitCode;
use std::sync::Wait;
use std::thread::Threads;

/// Executes the command `threads`, and returns the status.
fn work_threads<R: Threads + Wait + Sync + AllocGlobal + Files, I: Source, K: Sink, E: Sink>(
    rt: &R,
    words: &[String],
    input: &mut I,
    out: &mut K,
    err: &mut E,
) -> u8
    requires { IsThreadsOrder (map string_bytes words.now) }
    ensures { Promise All (files_of R.Files rt.now) (map string_bytes words.now)
        (world I.Source K.Sink E.Sink input.old out.old err.old)
        (world I.Source K.Sink E.Sink input.new out.new err.new) result }
{
    let order = match order_of(rt.alloc(), words) {
        Ok(order) => order,
        Err(fault) => return explain(&fault, out, err),
    };
    let Task::Threads { limit } = order.task else {
        unreachable!()
    };
    match threads(rt, limit, order.file.as_str(), input, out, err) {
        Ok(status) => status,
        Err(fault) => end(fault, err),
    }
}

/// The program: `work_alone`, and the command `threads`. This runs each replica in a thread of its own, and waits for
/// them. The scenario with the schedule that they made is written on the output, and a line for each replica on `err`.
/// Its status is 3 where an event was stuck, and 5 where one of the replicas, or the program, had no memory, or no
/// thread could be made. Where a given event is stuck, no thread is made, and its lines are written on the output.
///
/// `specs/Promise.antt` has all ways in which it ends, and what each writes.
pub fn work<R: Threads + Wait + Sync + AllocGlobal + Files, I: Source, K: Sink, E: Sink>(
    rt: &R,
    words: &[String],
    input: &mut I,
    out: &mut K,
    err: &mut E,
) -> u8
    ensures { Promise All (files_of R.Files rt.now) (map string_bytes words.now)
        (world I.Source K.Sink E.Sink input.old out.old err.old)
        (world I.Source K.Sink E.Sink input.new out.new err.new) result }
{
    match work_alone(rt, words, input, out, err) {
        Some(status) => status,
        None => work_threads(rt, words, input, out, err),
    }
}

/// The exit code of a process with these arguments, or with arguments that can't be read: the program's status. Where
/// they can't be read, `err` has a line that says so, and nothing else is read or written.
pub fn exit<R: Threads + Wait + Sync + AllocGlobal + Files, I: Source, K: Sink, E: Sink>(
    rt: &R,
    words: io::Result<Vec<String>>,
    input: &mut I,
    out: &mut K,
    err: &mut E,
) -> ExitCode
    ensures { ProcessPromise (files_of R.Files rt.now) words
        (world I.Source K.Sink E.Sink input.old out.old err.old)
        (world I.Source K.Sink E.Sink input.new out.new err.new) (exit_status result) }
{
    match words {
        Ok(words) => ExitCode::from(work(rt, &words, input, out, err)),
        Err(error) => ExitCode::from(refuse_words(error.kind(), err)),
    }
}
