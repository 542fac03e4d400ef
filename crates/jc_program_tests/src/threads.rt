//! Tests of `work`: the command `threads`, and the whole program.

ghost use Rattle.std.specs.Prelude.{None, true};

use super::commands::said;
use super::holds;
use super::whole_runs::{ONE, ONE_DUMP};
use jc_fakes::{Bytes, FailsAt, Taken, TakesUpTo, Then};
use jc_io::{ReadFault, Sink, Source};
use jc_program::{Files, work};
use std::alloc::Global;
use std::process::Abort;
use std::sync::Wait;
use std::thread::Threads;

/// A runtime without files.
#[derive(Drop)]
struct NoFiles<R> {
    rt: R,
}

impl<R: Threads> Threads for NoFiles<R> {}

impl<R: Wait> Wait for NoFiles<R> {}

impl<R: Alloc> Alloc for NoFiles<R> {
    type A = R::A;

    fn alloc(&self) -> R::A {
        self.rt.alloc()
    }
}

impl<R> Files for NoFiles<R> {
    ghost texts = { λ _ _. None };

    ghost may_fail = { λ _ _. true };

    fn read_file(&self, _alloc: Global, _name: &str, _most: usize) -> Result<Vec<u8>, ReadFault> {
        Err(ReadFault::Failed)
    }
}

/// The program's status for these arguments.
fn status<R: Threads + Wait + Sync + AllocGlobal + Abort, I: Source, K: Sink, E: Sink>(
    rt: &R,
    words: &[&str],
    input: &mut I,
    out: &mut K,
    err: &mut E,
) -> u8 {
    let Ok(words) = said(rt.alloc(), words) else {
        panic!(rt; "no memory for the words")
    };
    work(&NoFiles { rt }, &words, input, out, err)
}

const RECORDED: &str =
    "jsoncrdt 1\nreplica a {\n  doc.get(\"a\") := 1;\n}\nschedule {\n  a.exec;\n}\n";

const UNBEGUN: &str = "jsoncrdt 1\nreplica a {\n  doc.get(\"a\") := 1;\n}\nschedule {\n}\n";

const YIELDS: &str =
    "jsoncrdt 1\nreplica a {\n  doc := 1;\n  yield;\n}\nschedule {\n  a.exec;\n  a.send;\n  a.done;\n}\n";

const NO_MAP: &str = "jsoncrdt 1\nreplica a {\n  let s = doc.keys;\n}\nschedule {\n}\n";

/// Arguments, the text of standard input, what is written on the output and on the error, and the status.
const RUNS: &[(&[&str], &str, &str, &str, u8)] = &[
    (&["threads", "-"], ONE, RECORDED, "a made 1 finished\n", 0),
    (
        &["threads", "--limit", "1", "-"],
        ONE,
        RECORDED,
        "a made 1 limit\n",
        0,
    ),
    (
        &["threads", "--limit", "0", "-"],
        ONE,
        UNBEGUN,
        "a made 0 limit\n",
        0,
    ),
    (
        &["threads", "-"],
        "jsoncrdt 1 replica a { doc := 1; yield } schedule { a.done }",
        YIELDS,
        "a made 3 finished\n",
        0,
    ),
    (
        &["threads", "-"],
        "jsoncrdt 1 replica a { let s = doc.keys }",
        NO_MAP,
        "a made 0 stuck 27 NoMap a.exec\n",
        3,
    ),
    (
        &["threads", "-"],
        "jsoncrdt 2 replica a { yield } given { a.send; a.exec }",
        "refused 44 GivenStuck at 2\nstuck 31 AtYield a.exec\n",
        "",
        3,
    ),
    (&["threads", "-"], "", "refused 14 NoHeader at 0\n", "", 1),
    (&["threads", "/no/such/file"], ONE, "", "read failed\n", 4),
    (
        &["check", "-"],
        ONE,
        "replicas 1 commands 1 events 1\n",
        "",
        0,
    ),
    (&["run", "-"], ONE, ONE_DUMP, "", 0),
];

/// Expects what is written, and the status.
fn expect_run<R: Threads + Wait + Sync + AllocGlobal + Abort>(
    rt: &R,
    words: &[&str],
    text: &str,
    shown: &str,
    told: &str,
    want: u8,
) {
    let mut out = Taken::new(rt.alloc());
    let mut err = Taken::new(rt.alloc());
    let got = status(
        rt,
        words,
        &mut Bytes::new(text.as_bytes()),
        &mut out,
        &mut err,
    );
    holds(rt, got == want);
    holds(rt, out.as_slice() == shown.as_bytes());
    holds(rt, err.as_slice() == told.as_bytes());
}

#[test]
fn runs_by_threads(rt: HostRuntime) {
    for (words, text, shown, told, want) in RUNS {
        expect_run(&rt, words, text, shown, told, *want);
    }
}

/// Two replicas that send their operations to each other.
const TWO: &str =
    "jsoncrdt 1 replica a { doc.get(\"a\") := 1; yield } replica b { doc.get(\"b\") := 2; yield }";

/// What two replicas made in threads of their own.
fn made_of_two<R: Threads + Wait + Sync + AllocGlobal + Abort>(rt: &R) -> Taken {
    let mut out = Taken::new(rt.alloc());
    let mut err = Taken::new(rt.alloc());
    let got = status(
        rt,
        &["threads", "-"],
        &mut Bytes::new(TWO.as_bytes()),
        &mut out,
        &mut err,
    );
    holds(rt, got == 0);
    holds(rt, err.as_slice().starts_with(b"a made "));
    out
}

#[test]
fn what_threads_made_runs(rt: HostRuntime) {
    let recorded = made_of_two(&rt);
    let mut out = Taken::new(rt.alloc());
    let mut err = Taken::new(rt.alloc());
    let got = status(
        &rt,
        &["run", "-"],
        &mut Bytes::new(recorded.as_slice()),
        &mut out,
        &mut err,
    );
    holds(&rt, got == 0);
    holds(
        &rt,
        out.as_slice()
            .starts_with(b"{\"acted\":false,\"left\":0,\"name\":\"a\","),
    );
    holds(&rt, err.as_slice().is_empty());
}

#[test]
fn what_threads_made_is_not_written(rt: HostRuntime) {
    let mut out = TakesUpTo::new(Taken::new(rt.alloc()), 10, Then::Fails);
    let mut err = Taken::new(rt.alloc());
    let got = status(
        &rt,
        &["threads", "-"],
        &mut Bytes::new(ONE.as_bytes()),
        &mut out,
        &mut err,
    );
    holds(&rt, got == 4);
    holds(&rt, err.as_slice() == b"write failed\n".as_slice());
}

/// Nothing is lost on an error's sink that takes nothing.
#[test]
fn lines_that_are_not_written(rt: HostRuntime) {
    let mut out = Taken::new(rt.alloc());
    let mut err = TakesUpTo::new(Taken::new(rt.alloc()), 0, Then::Fails);
    let got = status(
        &rt,
        &["threads", "-"],
        &mut Bytes::new(ONE.as_bytes()),
        &mut out,
        &mut err,
    );
    holds(&rt, got == 0);
    holds(&rt, out.as_slice() == RECORDED.as_bytes());
}

#[test]
fn text_that_is_not_read(rt: HostRuntime) {
    let mut out = Taken::new(rt.alloc());
    let mut err = Taken::new(rt.alloc());
    let got = status(
        &rt,
        &["threads", "-"],
        &mut FailsAt::new(Bytes::new(ONE.as_bytes()), 0),
        &mut out,
        &mut err,
    );
    holds(&rt, got == 4);
    holds(&rt, out.as_slice().is_empty());
    holds(&rt, err.as_slice() == b"read failed\n".as_slice());
}
