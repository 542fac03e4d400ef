//! Tables of arguments, each with the command, the help or the fault that `order_of` returns for them.

use jc_cli::{Order, Task, View, WordsFault, order_of};
use std::alloc::{AllocError, Global};
use std::process::Abort;

/// What `order_of` returns: a task, help, a fault, or want of memory.
#[derive(Clone, Copy, Debug, PartialEq, Eq)]
enum Taken {
    Check,
    Print,
    Run,
    RunWithTrace,
    View(u64),
    Journal,
    JournalWithTrace,
    JournalWithEffects,
    JournalWithBoth,
    Debug,
    Serve,
    Threads(u64),
    Weave(u64, u64),
    Help,
    Usage,
    Memory,
}

/// The arguments, as `order_of` takes them.
fn said(alloc: Global, words: &[&str]) -> Result<Vec<String>, AllocError> {
    let mut said = Vec::new(alloc);
    for word in words {
        said.push(String::from_str(alloc, word)?)?;
    }
    Ok(said)
}

fn journal_by(trace: bool, effects: bool) -> Taken {
    match (trace, effects) {
        (false, false) => Taken::Journal,
        (true, false) => Taken::JournalWithTrace,
        (false, true) => Taken::JournalWithEffects,
        (true, true) => Taken::JournalWithBoth,
    }
}

fn task_of(order: &Order) -> Taken {
    match order.task {
        Task::Show(View::Check) => Taken::Check,
        Task::Show(View::Print) => Taken::Print,
        Task::Show(View::Run { trace: false }) => Taken::Run,
        Task::Show(View::Run { trace: true }) => Taken::RunWithTrace,
        Task::Show(View::Document { events }) => Taken::View(events),
        Task::Show(View::Journal { trace, effects }) => journal_by(trace, effects),
        Task::Debug => Taken::Debug,
        Task::Serve => Taken::Serve,
        Task::Threads { limit } => Taken::Threads(limit),
        Task::Weave { seed, limit } => Taken::Weave(seed, limit),
    }
}

fn is_taken(rt: &impl Abort, got: Taken, file: &str, want: Taken, want_file: &str) {
    assert_eq!(rt; got, want);
    assert!(rt; file == want_file);
}

/// Expects this task and this file of the arguments.
fn expect_taken<R: AllocGlobal + Abort>(rt: &R, words: &[&str], want: Taken, file: &str) {
    let Ok(words) = said(rt.alloc(), words) else {
        panic!(rt; "no memory for the words")
    };
    match order_of(rt.alloc(), &words) {
        Ok(order) => is_taken(rt, task_of(&order), order.file.as_str(), want, file),
        Err(WordsFault::Help(_)) => is_taken(rt, Taken::Help, "", want, file),
        Err(WordsFault::Usage(_)) => is_taken(rt, Taken::Usage, "", want, file),
        Err(WordsFault::Memory) => is_taken(rt, Taken::Memory, "", want, file),
    }
}

/// Arguments, the task, and the file.
const WORDS: &[(&[&str], Taken, &str)] = &[
    (&[], Taken::RunWithTrace, "-"),
    (&["check", "-"], Taken::Check, "-"),
    (&["print", "a b"], Taken::Print, "a b"),
    (&["run", "x"], Taken::Run, "x"),
    (&["run", "--trace", "x"], Taken::RunWithTrace, "x"),
    (&["run", "x", "--trace"], Taken::RunWithTrace, "x"),
    (&["run", "--", "--trace"], Taken::Run, "--trace"),
    (&["run", ""], Taken::Run, ""),
    (&["view", "-"], Taken::View(100_000), "-"),
    (&["view", "--at", "3", "a b"], Taken::View(3), "a b"),
    (&["view", "x", "--at=0"], Taken::View(0), "x"),
    (&["view", "--at", "100000", "x"], Taken::View(100_000), "x"),
    (&["journal", "-"], Taken::Journal, "-"),
    (&["journal", "--trace", "x"], Taken::JournalWithTrace, "x"),
    (&["journal", "x", "--trace"], Taken::JournalWithTrace, "x"),
    (
        &["journal", "--effects", "-"],
        Taken::JournalWithEffects,
        "-",
    ),
    (
        &["journal", "x", "--effects"],
        Taken::JournalWithEffects,
        "x",
    ),
    (
        &["journal", "--effects", "--trace", "x"],
        Taken::JournalWithBoth,
        "x",
    ),
    (
        &["journal", "--trace", "--effects", "a b"],
        Taken::JournalWithBoth,
        "a b",
    ),
    (
        &["journal", "--trace", "x", "--effects"],
        Taken::JournalWithBoth,
        "x",
    ),
    (&["journal", "--", "--effects"], Taken::Journal, "--effects"),
    (&["debug", "-"], Taken::Debug, "-"),
    (&["debug", "a b"], Taken::Debug, "a b"),
    (&["serve"], Taken::Serve, ""),
    (&["serve", "-"], Taken::Usage, ""),
    (&["serve", "--help"], Taken::Help, ""),
    (&["--help"], Taken::Help, ""),
    (&["-h"], Taken::Help, ""),
    (&["run", "--help"], Taken::Help, ""),
    (&["check", "-h"], Taken::Help, ""),
    (&["debug", "--help"], Taken::Help, ""),
    (&["view", "--help"], Taken::Help, ""),
    (&["journal", "--help"], Taken::Help, ""),
    (&["run"], Taken::Usage, ""),
    (&["debug"], Taken::Usage, ""),
    (&["debug", "--trace", "x"], Taken::Usage, ""),
    (&["run", "x", "y"], Taken::Usage, ""),
    (&["run", "--trace=yes", "x"], Taken::Usage, ""),
    (&["check", "--trace", "x"], Taken::Usage, ""),
    (&["view"], Taken::Usage, ""),
    (&["view", "--at", "100001", "x"], Taken::Usage, ""),
    (&["view", "--at", "-1", "x"], Taken::Usage, ""),
    (&["view", "--at", "x", "x"], Taken::Usage, ""),
    (&["view", "--at", "1.5", "x"], Taken::Usage, ""),
    (&["view", "x", "--at"], Taken::Usage, ""),
    (&["view", "--at", "1", "--at", "2", "x"], Taken::Usage, ""),
    (&["view", "--trace", "x"], Taken::Usage, ""),
    (&["journal"], Taken::Usage, ""),
    (&["journal", "--at", "1", "x"], Taken::Usage, ""),
    (&["journal", "--trace=yes", "x"], Taken::Usage, ""),
    (&["journal", "--effects"], Taken::Usage, ""),
    (
        &["journal", "--effects", "--effects", "x"],
        Taken::Usage,
        "",
    ),
    (
        &["journal", "--effects", "x", "--effects"],
        Taken::Usage,
        "",
    ),
    (&["journal", "--effects=x", "x"], Taken::Usage, ""),
    (&["journal", "--effect", "x"], Taken::Usage, ""),
    (&["run", "--effects", "x"], Taken::Usage, ""),
    (&["run", "--trace", "--effects", "x"], Taken::Usage, ""),
    (&["view", "--effects", "x"], Taken::Usage, ""),
    (&["check", "--effects", "x"], Taken::Usage, ""),
    (&["debug", "--effects", "x"], Taken::Usage, ""),
    (&["run", "--at", "5", "x"], Taken::Usage, ""),
    (&["help"], Taken::Help, ""),
    (&["help", "run"], Taken::Help, ""),
    (&["help", "run", "x", "y"], Taken::Help, ""),
    (&["help", "help"], Taken::Help, ""),
    (&["help", "--help"], Taken::Help, ""),
    (&["help", "nothing"], Taken::Usage, ""),
    (&["help", "--"], Taken::Usage, ""),
    (&["help", ""], Taken::Usage, ""),
    (&["--help", "nothing"], Taken::Help, ""),
    (&["run", "help"], Taken::Run, "help"),
    (&["Help"], Taken::Usage, ""),
    (&["--", "help"], Taken::Usage, ""),
    (&["--version"], Taken::Help, ""),
    (&["-V"], Taken::Help, ""),
    (&["--version", "nothing"], Taken::Help, ""),
    (&["help", "--version"], Taken::Help, ""),
    (&["--version=1"], Taken::Usage, ""),
    (&["version"], Taken::Usage, ""),
    (&["run", "--version"], Taken::Usage, ""),
    (&["run", "--", "--version"], Taken::Run, "--version"),
    (&["--"], Taken::Usage, ""),
    (&[""], Taken::Usage, ""),
    (&["jsoncrdt", "run", "x"], Taken::Usage, ""),
];

#[test]
fn words_are_taken(rt: HostRuntime) {
    for (words, want, file) in WORDS {
        expect_taken(&rt, words, *want, file);
    }
}

/// The same for the commands that make a schedule.
const SCHEDULE_WORDS: &[(&[&str], Taken, &str)] = &[
    (&["threads", "-"], Taken::Threads(10_000), "-"),
    (&["threads", "--limit", "5", "x"], Taken::Threads(5), "x"),
    (&["threads", "--limit=0", "x"], Taken::Threads(0), "x"),
    (&["threads", "--limit", "+7", "x"], Taken::Threads(7), "x"),
    (
        &["threads", "x", "--limit", "100000"],
        Taken::Threads(100_000),
        "x",
    ),
    (&["threads", "--help"], Taken::Help, ""),
    (&["view", "--limit", "5", "x"], Taken::Usage, ""),
    (&["threads"], Taken::Usage, ""),
    (&["threads", "--limit", "100001", "x"], Taken::Usage, ""),
    (&["threads", "--limit", "-1", "x"], Taken::Usage, ""),
    (&["threads", "--limit", "x", "x"], Taken::Usage, ""),
    (&["threads", "x", "--limit"], Taken::Usage, ""),
    (&["threads", "--limit=", "x"], Taken::Usage, ""),
    (
        &["threads", "--limit", "5", "--limit", "6", "x"],
        Taken::Usage,
        "",
    ),
    (&["threads", "--trace", "x"], Taken::Usage, ""),
    (&["run", "--limit", "5", "x"], Taken::Usage, ""),
    (&["weave", "-"], Taken::Weave(0, 10_000), "-"),
    (&["weave", "--seed", "5", "x"], Taken::Weave(5, 10_000), "x"),
    (
        &["weave", "--limit=7", "x", "--seed=3"],
        Taken::Weave(3, 7),
        "x",
    ),
    (
        &[
            "weave",
            "--seed",
            "18446744073709551615",
            "--limit",
            "100000",
            "x",
        ],
        Taken::Weave(18_446_744_073_709_551_615, 100_000),
        "x",
    ),
    (&["weave", "--help"], Taken::Help, ""),
    (&["threads", "--seed", "5", "x"], Taken::Usage, ""),
    (&["weave"], Taken::Usage, ""),
    (
        &["weave", "--seed", "18446744073709551616", "x"],
        Taken::Usage,
        "",
    ),
    (&["weave", "--seed", "-1", "x"], Taken::Usage, ""),
    (&["weave", "--seed", "0x5", "x"], Taken::Usage, ""),
    (&["weave", "--seed=", "x"], Taken::Usage, ""),
    (&["weave", "x", "--seed"], Taken::Usage, ""),
    (
        &["weave", "--seed", "1", "--seed", "1", "x"],
        Taken::Usage,
        "",
    ),
    (&["weave", "--limit", "100001", "x"], Taken::Usage, ""),
    (&["weave", "--at", "1", "x"], Taken::Usage, ""),
];

#[test]
fn words_of_schedules_are_taken(rt: HostRuntime) {
    for (words, want, file) in SCHEDULE_WORDS {
        expect_taken(&rt, words, *want, file);
    }
}

/// For arguments that are no command: whether they ask for help or the version, and the text.
fn told<R: AllocGlobal + Abort>(rt: &R, words: &[&str]) -> (bool, String) {
    let Ok(words) = said(rt.alloc(), words) else {
        panic!(rt; "no memory for the words")
    };
    match order_of(rt.alloc(), &words) {
        Err(WordsFault::Help(text)) => (true, text),
        Err(WordsFault::Usage(text)) => (false, text),
        Err(WordsFault::Memory) => panic!(rt; "no memory for the text"),
        Ok(_) => panic!(rt; "the words are an order"),
    }
}

#[test]
fn version_is_told(rt: HostRuntime) {
    let (is_asked, text) = told(&rt, &["--version"]);
    assert!(&rt; is_asked);
    assert!(&rt; text.as_str() == "jsoncrdt 2.0.0\n");
}

/// Arguments that ask for help by `help`, those that ask for it by `--help`, and a part of the text.
const CALLS: &[(&[&str], &[&str], &str)] = &[
    (&["help"], &["--help"], "\nUsage: jsoncrdt [COMMAND]\n"),
    (
        &["help", "help"],
        &["-h"],
        "  -V, --version  Print version\n",
    ),
    (
        &["help", "check"],
        &["check", "--help"],
        "\nUsage: jsoncrdt check <FILE>\n",
    ),
    (
        &["help", "print"],
        &["print", "-h"],
        "\nUsage: jsoncrdt print <FILE>\n",
    ),
    (
        &["help", "run"],
        &["run", "--help"],
        "A trace may be very long",
    ),
    (
        &["help", "view", "x"],
        &["view", "--help"],
        "\nUsage: jsoncrdt view [OPTIONS] <FILE>\n",
    ),
    (
        &["help", "journal"],
        &["journal", "--help"],
        "{\"command\":\"doc.get(\\\"a\\\") := 1\",\"event\":\"a.exec\",\"kind\":\"exec\",\"number\":1,",
    ),
    (
        &["help", "journal", "--effects"],
        &["journal", "-h"],
        "      --effects  Print what each event changed in the tree of its replica, in its line\n",
    ),
    (
        &["help", "debug"],
        &["debug", "--help"],
        "Debugger: step through the schedule",
    ),
    (
        &["help", "threads"],
        &["threads", "--help"],
        "A stuck event isn't in it.",
    ),
    (
        &["help", "weave"],
        &["weave", "--help"],
        "The same seed gives the same schedule",
    ),
];

#[test]
fn help_is_that_of_the_flag(rt: HostRuntime) {
    for (words, flagged, part) in CALLS {
        let (is_asked, text) = told(&rt, words);
        let (_, want) = told(&rt, flagged);
        assert!(&rt; is_asked);
        assert!(&rt; text.as_str() == want.as_str());
        assert!(&rt; text.as_str().contains(*part));
    }
}

#[test]
fn unknown_topic_is_told(rt: HostRuntime) {
    let (is_asked, text) = told(&rt, &["help", "nothing"]);
    assert!(&rt; !is_asked);
    assert!(&rt;
        text.as_str()
            .starts_with("error: unrecognized subcommand 'nothing'\n")
    );
}
