//! Tests of `work_alone`: commands, files, wrong arguments and help.

ghost use Rattle.std.specs.Prelude.{None, true};

use super::holds;
use super::whole_runs::{FIRST_BLOCK, ONE, ONE_DUMP, ends, expect_text};
use jc_fakes::{Bytes, Taken, TakesUpTo, Then};
use jc_io::{ReadFault, Source, read_up_to};
use jc_program::{Files, work_alone};
use std::alloc::{AllocError, Global};
use std::process::Abort;

/// Files in memory: the name and the bytes of each.
#[derive(Drop)]
pub(super) struct Shelf<'a> {
    pub alloc: Global,
    pub files: &'a [(&'a str, &'a [u8])],
}

impl Alloc for Shelf<'_> {
    type A = Global;

    fn alloc(&self) -> Global {
        self.alloc
    }
}

impl Files for Shelf<'_> {
    ghost texts = { λ _ _. None };

    ghost may_fail = { λ _ _. true };

    fn read_file(&self, alloc: Global, name: &str, most: usize) -> Result<Vec<u8>, ReadFault> {
        for (held, text) in self.files {
            if *held == name {
                return read_up_to(alloc, &mut Bytes::new(text), most);
            }
        }
        Err(ReadFault::Failed)
    }
}

/// No file.
pub(super) fn no_files<'a>(alloc: Global) -> Shelf<'a> {
    Shelf { alloc, files: &[] }
}

/// The arguments, as the program takes them.
pub(super) fn said(alloc: Global, words: &[&str]) -> Result<Vec<String>, AllocError> {
    let mut said = Vec::new(alloc);
    for word in words {
        said.push(String::from_str(alloc, word)?)?;
    }
    Ok(said)
}

/// Expects the text and the status of a command, and nothing on the error's sink.
pub(super) fn expect_shown<F: AllocGlobal + Files>(
    rt: &impl Abort,
    files: &F,
    words: &[&str],
    scenario: &str,
    shown: &[&str],
    status: u8,
) {
    let mut input = Bytes::new(scenario.as_bytes());
    let mut out = Taken::new(files.alloc());
    let mut err = Taken::new(files.alloc());
    let Ok(words) = said(files.alloc(), words) else {
        panic!(rt; "no memory for the words")
    };
    ends(
        rt,
        work_alone(files, &words, &mut input, &mut out, &mut err),
        status,
    );
    expect_text(rt, out.as_slice(), shown);
    holds(rt, err.as_slice().is_empty());
}

const PAIR: &str = "jsoncrdt 1 replica b{yield} replica a{let x=doc . get(\"\\u0061\\/\");x:=-0;}";

const PAIR_PRINTED: &str =
    "jsoncrdt 1\nreplica a {\n  let x = doc.get(\"a/\");\n  x := -0;\n}\nreplica b {\n  yield;\n}\nschedule {\n}\n";

const COUNTS: &str = "replicas 1 commands 1 events 1\n";

const NO_HEADER: &str = "refused 14 NoHeader at 0\n";

const ABSENT: &str = "jsoncrdt 1 replica a { let x = doc.get(\"l\").idx(0) } schedule { a.exec }";

const ABSENT_ENDS: &str =
    "{\"acted\":false,\"left\":1,\"name\":\"a\",\"ops\":[],\"queue\":[],\"recv\":[],\"send\":[],\"tree\":{},\"vars\":{}}\nstuck 25 NoSuchNode mapT(doc) a.exec\n";

/// The journal of one event.
const ONE_LINE: &str =
    "{\"command\":\"doc.get(\\\"a\\\") := 1\",\"event\":\"a.exec\",\"kind\":\"exec\",\"number\":1,\"op\":{\"cursor\":[\"mapT(doc)\",\"\\\"a\\\"\"],\"deps\":{},\"id\":\"1@a\",\"mutation\":\"assign\",\"value\":{\"n\":\"1\"}},\"replica\":\"a\"}\n";

/// Arguments, the text of standard input, what is printed, and the status.
const COMMANDS: &[(&[&str], &str, &[&str], u8)] = &[
    (&["check", "-"], ONE, &[COUNTS], 0),
    (
        &["check", "-"],
        PAIR,
        &["replicas 2 commands 3 events 0\n"],
        0,
    ),
    (&["check", "-"], "", &[NO_HEADER], 1),
    (&["print", "-"], PAIR, &[PAIR_PRINTED], 0),
    (&["print", "-"], "", &[NO_HEADER], 1),
    (&["run", "-"], ONE, &[ONE_DUMP], 0),
    (&["run", "-"], "", &[NO_HEADER], 1),
    (&["run", "-"], ABSENT, &[ABSENT_ENDS], 3),
    (&["run", "--trace", "-"], ONE, &[FIRST_BLOCK, ONE_DUMP], 0),
    (&["run", "-", "--trace"], ONE, &[FIRST_BLOCK, ONE_DUMP], 0),
    (&["journal", "-"], ONE, &[ONE_LINE], 0),
    (&["check", "here"], "", &[COUNTS], 0),
    (&["run", "here"], "", &[ONE_DUMP], 0),
    (&["run", "broken"], "", &[NO_HEADER], 1),
];

#[test]
fn commands(rt: HostRuntime) {
    let shelf = Shelf {
        alloc: rt.alloc(),
        files: &[("here", ONE.as_bytes()), ("broken", b"")],
    };
    for (words, scenario, shown, status) in COMMANDS {
        expect_shown(&rt, &shelf, words, scenario, shown, *status);
    }
}

/// Expects that arguments end with this status before any text is read, and that the error's sink begins with the line.
fn expect_unread<R: AllocGlobal + Abort>(rt: &R, words: &[&str], status: u8, line: &[u8]) {
    let mut input = Bytes::new(ONE.as_bytes());
    let mut out = Taken::new(rt.alloc());
    let mut err = Taken::new(rt.alloc());
    let Ok(words) = said(rt.alloc(), words) else {
        panic!(rt; "no memory for the words")
    };
    ends(
        rt,
        work_alone(
            &no_files(rt.alloc()),
            &words,
            &mut input,
            &mut out,
            &mut err,
        ),
        status,
    );
    holds(rt, out.as_slice().is_empty());
    holds(rt, err.as_slice().starts_with(line));
    let mut left = [0; 100];
    holds(rt, input.read(&mut left) == Ok(62));
}

/// Arguments that are no command.
const UNKNOWN: &[&[&str]] = &[
    &["debug"],
    &["debug", "--trace", "-"],
    &["threads"],
    &["threads", "--limit", "100001", "-"],
    &["threads", "--limit", "x", "-"],
    &["jump"],
    &["help", "jump"],
    &["run", "--version"],
    &[""],
    &["run"],
    &["run", "-", "-"],
    &["run", "--trace", "--trace", "-"],
    &["check", "--trace", "-"],
    &["--trace", "-"],
];

#[test]
fn no_command(rt: HostRuntime) {
    for words in UNKNOWN {
        expect_unread(&rt, words, 2, b"error: ");
    }
}

#[test]
fn no_such_file(rt: HostRuntime) {
    expect_unread(&rt, &["run", "/no/such/file"], 4, b"read failed\n");
    expect_unread(&rt, &["check", "/no/such/file"], 4, b"read failed\n");
    expect_unread(&rt, &["debug", "/no/such/file"], 4, b"read failed\n");
}

/// The view of two values under one key.
const CONFLICT: &str =
    "{\"doc\":{\"key\":{\"!conflict\":{\"values\":[[\"1@p\",\"B\"],[\"1@q\",\"C\"]]}}},\"name\":\"q\"}\n";

/// Arguments that ask for help or the version, and parts of the text.
const HELPS: &[(&[&str], &[&str])] = &[
    (
        &["--help"],
        &[
            "A scenario is",
            CONFLICT,
            "check",
            "print",
            "run",
            "debug",
            "threads",
            "  P.insertAfter(V)  ",
            "  A.apply(N, B)     ",
            "  3  an event was stuck",
        ],
    ),
    (&["-h"], &["A scenario is", CONFLICT]),
    (&["help"], &["A scenario is", CONFLICT]),
    (
        &["help", "run"],
        &[
            "A scenario is",
            ONE,
            "Usage: jsoncrdt run [OPTIONS] <FILE>\n",
        ],
    ),
    (&["--version"], &["jsoncrdt 2.0.0\n"]),
    (
        &["check", "--help"],
        &[
            "A scenario is",
            ONE,
            COUNTS,
            "FILE",
            "  1  the scenario's text was refused",
        ],
    ),
    (
        &["print", "--help"],
        &[
            "A scenario is",
            ONE,
            "  jsoncrdt 1\n  replica a {\n    doc.get(\"a\") := 1;\n  }\n",
            "FILE",
        ],
    ),
    (
        &["run", "--help"],
        &[
            "A scenario is",
            ONE,
            ONE_DUMP,
            "Usage: jsoncrdt run [OPTIONS] <FILE>\n",
            "--trace",
            "  3  an event was stuck",
        ],
    ),
    (
        &["journal", "--help"],
        &[
            "A scenario is",
            ONE,
            ONE_LINE,
            "Usage: jsoncrdt journal [OPTIONS] <FILE>\n",
            "--trace",
            "  3  an event was stuck",
        ],
    ),
    (
        &["debug", "--help"],
        &[
            "A scenario is",
            ONE,
            ONE_DUMP,
            "  at 1\n  at 1 of 1\n",
            "  break at N, break rule NAME, break replica NAME\n",
            "FILE",
            "  1  the scenario's text was refused",
        ],
    ),
    (
        &["threads", "--help"],
        &[
            "A scenario is",
            ONE,
            "a made 1 finished\n",
            "--limit",
            "10000",
            "FILE",
        ],
    ),
];

/// Expects help, with these parts.
fn expect_help<R: AllocGlobal + Abort>(rt: &R, words: &[&str], parts: &[&str]) {
    let mut input = Bytes::new(b"");
    let mut out = Taken::new(rt.alloc());
    let mut err = Taken::new(rt.alloc());
    let Ok(words) = said(rt.alloc(), words) else {
        panic!(rt; "no memory for the words")
    };
    ends(
        rt,
        work_alone(
            &no_files(rt.alloc()),
            &words,
            &mut input,
            &mut out,
            &mut err,
        ),
        0,
    );
    holds(rt, err.as_slice().is_empty());
    let Ok(text) = std::str::from_utf8(out.as_slice()) else {
        panic!(rt; "help is no UTF-8")
    };
    for part in parts {
        assert!(rt; text.contains(*part), "{part}");
    }
}

#[test]
fn help(rt: HostRuntime) {
    for (words, parts) in HELPS {
        expect_help(&rt, words, parts);
    }
}

#[test]
fn help_that_is_not_written(rt: HostRuntime) {
    let mut input = Bytes::new(b"");
    let mut out = TakesUpTo::new(Taken::new(rt.alloc()), 3, Then::Fails);
    let mut err = Taken::new(rt.alloc());
    let Ok(words) = said(rt.alloc(), &["--help"]) else {
        panic!(&rt; "no memory for the words")
    };
    ends(
        &rt,
        work_alone(
            &no_files(rt.alloc()),
            &words,
            &mut input,
            &mut out,
            &mut err,
        ),
        4,
    );
    expect_text(&rt, err.as_slice(), &["write failed\n"]);
}
