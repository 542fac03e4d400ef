//! What lines ask for, as it stands in the document of formats.

use jc_requests::{Asked, Position, asked};
use jc_session::Request;
use std::alloc::{AllocError, Global};
use std::process::Abort;
use std::test::Fail;

/// A line, and what it asks for, written out; `58` where it is refused.
const ROWS: &[(&str, &str)] = &[
    ("scenario 0", "scenario 0"),
    (" \tscenario\t 9999999999 ", "scenario 9999999999"),
    ("scenario", "58"),
    ("scenario 01", "58"),
    ("scenario 10000000000", "58"),
    ("scenario 5 6", "58"),
    ("Scenario 5", "58"),
    ("places", "places"),
    ("places x", "58"),
    ("print", "print"),
    ("print 1", "58"),
    ("breaks", "breaks"),
    ("breaks 1", "58"),
    // What a session has is its own.
    ("step", "session step 1"),
    ("step 7", "session step 7"),
    ("back", "session back 1"),
    ("back 3", "session back 3"),
    ("back run", "back run"),
    ("back run 1", "58"),
    ("back end", "58"),
    ("goto 3", "session goto 3"),
    ("goto end", "goto end"),
    ("goto", "58"),
    ("goto -1", "58"),
    ("goto end 1", "58"),
    ("quit", "session quit"),
    ("act  p.exec ", "session act p.exec "),
    ("act", "session act "),
    ("state", "session state"),
    ("state p", "session state p"),
    ("state p q", "58"),
    ("compare p q", "session compare p q"),
    ("run", "session run"),
    ("run p", "58"),
    ("", "58"),
    (" \t", "58"),
    ("where\r", "58"),
    ("jump", "58"),
    ("wh\u{e9}re", "58"),
    ("eval p \u{e9}", "58"),
    // Breakpoints.
    ("break at 3", "session break at 3"),
    ("break rule LET", "session break rule LET"),
    ("break replica p", "session break replica p"),
    ("break at", "58"),
    ("break at x", "58"),
    ("break", "58"),
    ("break op 2@p", "break op 2 p"),
    ("break op 0@_a9", "break op 0 _a9"),
    ("break op 9999999999@Z", "break op 9999999999 Z"),
    ("break op", "58"),
    ("break op 2@p 3@p", "58"),
    ("break op 2", "58"),
    ("break op 2@", "58"),
    ("break op @p", "58"),
    ("break op 02@p", "58"),
    ("break op 2@9p", "58"),
    ("break op 2@p@q", "58"),
    ("break op 2@@p", "58"),
    ("break op 2@p-", "58"),
    ("break op 10000000000@p", "58"),
    (
        "break place p doc.get(\"a\")",
        "break place p [doc.get(\"a\")]",
    ),
    (
        "break\t place  p   doc . keys ",
        "break place p [doc . keys ]",
    ),
    ("break place p", "break place p []"),
    ("break place", "58"),
    ("break here p doc", "58"),
    // What is shown.
    ("view", "view -"),
    ("view p", "view - p"),
    ("view --at 3", "view 3"),
    ("view --at -3 p", "view -3 p"),
    ("view --at 0 p", "view 0 p"),
    ("view --at -0 p", "58"),
    ("view --at -03 p", "58"),
    ("view --at --3 p", "58"),
    ("view --at - p", "58"),
    ("view --at +3 p", "58"),
    ("view --at", "58"),
    ("view --at x", "58"),
    ("view --at 10000000000", "58"),
    ("view --at -9999999999", "view -9999999999"),
    ("view p --at 3", "view place - p [--at 3]"),
    ("view p m.get(\"x\") ", "view place - p [m.get(\"x\") ]"),
    ("view  --at  3\tp   m n", "view place 3 p [m n]"),
    ("view --at 3 --at 4", "view place 3 --at [4]"),
    ("state --at 3", "state 3"),
    ("state --at -1 p", "state -1 p"),
    ("state --at 3 p q", "58"),
    ("state --at", "58"),
    ("state --at p", "58"),
    ("brief p", "brief - p"),
    ("brief --at 3 p", "brief 3 p"),
    ("brief", "58"),
    ("brief --at 3", "58"),
    ("brief p q", "58"),
    ("eval p doc", "eval - p [doc]"),
    ("eval p", "eval - p []"),
    ("eval --at 3 p  doc.keys", "eval 3 p [doc.keys]"),
    ("eval --at 3 p", "eval 3 p []"),
    ("eval", "58"),
    ("eval --at 3", "58"),
    ("eval --at", "58"),
    // Events.
    ("event", "event -"),
    ("event --at -2", "event -2"),
    ("event --trace", "event - trace"),
    ("event --effects", "event - effects"),
    ("event --at 2 --trace --effects", "event 2 trace effects"),
    ("event --effects --trace", "58"),
    ("event --trace --at 2", "58"),
    ("event --trace --trace", "58"),
    ("event 2", "58"),
    ("event --at", "58"),
    ("journal", "journal"),
    ("journal --trace", "journal trace"),
    ("journal --effects", "journal effects"),
    (
        "journal --trace --effects -1 2",
        "journal trace effects -1 2",
    ),
    ("journal 2 1", "journal 2 1"),
    ("journal 1", "58"),
    ("journal 1 2 3", "58"),
    ("journal 1 x", "58"),
    ("journal x 1", "58"),
    ("journal 1 2 --trace", "58"),
    ("journal --effects --trace", "58"),
    ("journal --at 1", "58"),
    // Schedules.
    ("weave 0 0", "weave 0 0"),
    (
        "weave 18446744073709551615 100000",
        "weave 18446744073709551615 100000",
    ),
    ("weave 18446744073709551616 1", "58"),
    ("weave 99999999999999999999 1", "58"),
    ("weave 100000000000000000000 1", "58"),
    ("weave 1 100001", "58"),
    ("weave 01 1", "58"),
    ("weave 1 01", "58"),
    ("weave -1 1", "58"),
    ("weave 1", "58"),
    ("weave", "58"),
    ("weave 1 2 3", "58"),
];

fn word(bytes: &[u8]) -> &str {
    std::str::from_utf8(bytes).unwrap_or("?")
}

fn of_position(alloc: Global, at: Option<Position>) -> Result<String, AllocError> {
    match at {
        None => format!(in alloc; "-"),
        Some(Position::After(n)) => format!(in alloc; "{n}"),
        Some(Position::Before(n)) => format!(in alloc; "-{n}"),
    }
}

/// A name behind a blank, and nothing where there is none.
fn of_name(alloc: Global, name: Option<&[u8]>) -> Result<String, AllocError> {
    match name {
        None => Ok(String::new(alloc)),
        Some(name) => format!(in alloc; " {}", word(name)),
    }
}

fn of_flag(is_there: bool, name: &'static str) -> &'static str {
    if is_there { name } else { "" }
}

fn of_session(alloc: Global, request: Request) -> Result<String, AllocError> {
    match request {
        Request::Step(n) => format!(in alloc; "session step {n}"),
        Request::Back(n) => format!(in alloc; "session back {n}"),
        Request::Goto(n) => format!(in alloc; "session goto {n}"),
        Request::Act(event) => format!(in alloc; "session act {event}"),
        Request::Run => format!(in alloc; "session run"),
        Request::BreakAt(n) => format!(in alloc; "session break at {n}"),
        Request::BreakRule(rule) => format!(in alloc; "session break rule {rule}"),
        Request::BreakReplica(p) => format!(in alloc; "session break replica {}", word(p)),
        Request::State => format!(in alloc; "session state"),
        Request::StateOf(p) => format!(in alloc; "session state {}", word(p)),
        Request::Compare(p, q) => format!(in alloc; "session compare {} {}", word(p), word(q)),
        Request::Quit => format!(in alloc; "session quit"),
        _ => format!(in alloc; "session ?"),
    }
}

/// What is shown, written out.
fn of_shown(alloc: Global, asked: Asked) -> Result<String, AllocError> {
    match asked {
        Asked::View { at, name } => {
            let (at, name) = (of_position(alloc, at)?, of_name(alloc, name)?);
            format!(in alloc; "view {at}{name}")
        }
        Asked::ViewPlace {
            at,
            name,
            expression,
        } => {
            let at = of_position(alloc, at)?;
            format!(in alloc; "view place {at} {} [{expression}]", word(name))
        }
        Asked::StateAt { at, name } => {
            let (at, name) = (of_position(alloc, Some(at))?, of_name(alloc, name)?);
            format!(in alloc; "state {at}{name}")
        }
        Asked::Brief { at, name } => {
            let at = of_position(alloc, at)?;
            format!(in alloc; "brief {at} {}", word(name))
        }
        Asked::Eval {
            at,
            name,
            expression,
        } => {
            let at = of_position(alloc, at)?;
            format!(in alloc; "eval {at} {} [{expression}]", word(name))
        }
        _ => format!(in alloc; "?"),
    }
}

fn of_journal(
    alloc: Global,
    trace: bool,
    effects: bool,
    between: Option<(Position, Position)>,
) -> Result<String, AllocError> {
    let (trace, effects) = (of_flag(trace, " trace"), of_flag(effects, " effects"));
    match between {
        None => format!(in alloc; "journal{trace}{effects}"),
        Some((first, last)) => {
            let first = of_position(alloc, Some(first))?;
            let last = of_position(alloc, Some(last))?;
            format!(in alloc; "journal{trace}{effects} {first} {last}")
        }
    }
}

/// What a line asks for, written out.
fn text_of(alloc: Global, line: &str) -> Result<String, AllocError> {
    match asked(Some(line.as_bytes())) {
        None => format!(in alloc; "58"),
        Some(Asked::Scenario(n)) => format!(in alloc; "scenario {n}"),
        Some(Asked::Places) => format!(in alloc; "places"),
        Some(Asked::Print) => format!(in alloc; "print"),
        Some(Asked::Breaks) => format!(in alloc; "breaks"),
        Some(Asked::GotoEnd) => format!(in alloc; "goto end"),
        Some(Asked::BackRun) => format!(in alloc; "back run"),
        Some(Asked::OfSession(request)) => of_session(alloc, request),
        Some(Asked::BreakOp(n, name)) => format!(in alloc; "break op {n} {}", word(name)),
        Some(Asked::BreakPlace(name, expression)) => {
            format!(in alloc; "break place {} [{expression}]", word(name))
        }
        Some(Asked::Event { at, trace, effects }) => {
            let at = of_position(alloc, at)?;
            let (trace, effects) = (of_flag(trace, " trace"), of_flag(effects, " effects"));
            format!(in alloc; "event {at}{trace}{effects}")
        }
        Some(
            Asked::Journal {
                trace,
                effects,
                between,
            },
        ) => of_journal(alloc, trace, effects, between),
        Some(Asked::Weave { seed, limit }) => format!(in alloc; "weave {seed} {limit}"),
        Some(shown) => of_shown(alloc, shown),
    }
}

#[test]
fn forms_of_lines(rt: HostRuntime) -> Result<(), Fail> {
    for (line, want) in ROWS {
        let got = text_of(rt.alloc(), line)?;
        assert_eq!(rt; got.as_str(), *want, "{line}");
    }
    Ok(())
}

#[test]
fn too_long(rt: HostRuntime) -> Result<(), Fail> {
    assert!(rt; asked(None).is_none());
    Ok(())
}
