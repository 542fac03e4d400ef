//! The process: its streams, and its exit code. `main` ends by `run`.

ghost use Rattle.std.specs.Prelude.{◌≡◌};
ghost use Rattle.std.specs.Process.{exit_status};
ghost use Rattle.jc_program.specs.Promise.{ProcessPromise, files_of, world};

use jc_io::{FromRead, Sink, Source, ToWrite};
use jc_program::{Files, exit};
use std::io;
use std::io::Eprint;
use std::process::{ExitCode, Termination};
use std::rt::{Stderr, Stdin, Stdout};
use std::sync::Wait;
use std::thread::Threads;

/// The end of the process. Nothing but `run` makes one, so `main` ends by `run`.
#[derive(Drop)]
pub struct Ended {
    status: ExitCode,
}

impl Termination for Ended {
    fn report<R: Eprint>(self, _rt: &R) -> ExitCode
        ensures { result ≡ self.status }
    {
        self.status
    }
}

/// Calls `exit` with the process's standard streams. Each has a type of its own, so none can be exchanged for another.
pub fn run<R: Threads + Wait + Sync + AllocGlobal + Files>(
    rt: &R,
    words: io::Result<Vec<String>>,
    input: &mut FromRead<Stdin>,
    out: &mut ToWrite<Stdout>,
    err: &mut ToWrite<Stderr>,
) -> Ended
    ensures { ProcessPromise (files_of R.Files rt.now) words
        (world ⟦<FromRead<Stdin> as Source>⟧ ⟦<ToWrite<Stdout> as Sink>⟧ ⟦<ToWrite<Stderr> as Sink>⟧
        input.old out.old err.old)
        (world ⟦<FromRead<Stdin> as Source>⟧ ⟦<ToWrite<Stdout> as Sink>⟧ ⟦<ToWrite<Stderr> as Sink>⟧
        input.new out.new err.new)
        (exit_status result.status) }
{
    Ended {
        status: exit(rt, words, input, out, err),
    }
}
