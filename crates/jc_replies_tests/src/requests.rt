//! Requests of sessions, one after the other, and the answer to each.

ghost use Rattle.std.specs.Prelude.{All, OnOk, length};
ghost use Rattle.jc_printer.specs.Canon.{AreNamed};
ghost use Rattle.jc_session.specs.AnswerOf.{AllNamed};

use crate::debuggers::begun;
use jc_debug::Debugger;
use jc_replies::answer_to;
use jc_rules::Event;
use jc_scenario::read;
use jc_session::{Meaning, Request, meaning_of};
use std::alloc::Global;
use std::process::Abort;
use std::test::Fail;

/// A line that asks for something in a session, and its answer.
type Row = (&'static str, &'static str);

/// Two replicas that assign to one place. The one applies what the other sent.
const MERGE: &str = "jsoncrdt 1
    replica p { doc.get(\"key\") := \"A\"; yield }
    replica q { doc.get(\"key\") := \"B\"; yield }
    schedule { p.exec; q.exec; p.send; q.recv(p); q.apply(1, p) }";

const MERGE_ROWS: &[Row] = &[
    // Position 0 has no event where none is given.
    ("where", "{\"at\":0,\"of\":5}"),
    ("trace", "{\"start\":true}"),
    ("back", "{\"refused\":{\"name\":\"AtStart\",\"number\":50}}"),
    ("compare p q", "{\"operations\":\"same\",\"tree\":\"same\"}"),
    ("enabled", "[\"p.exec\",\"q.exec\"]"),
    (
        "schedule",
        "[\"p.exec\",\"q.exec\",\"p.send\",\"q.recv(p)\",\"q.apply(1, p)\"]",
    ),
    ("break at 3", "{\"set\":1}"),
    ("break rule APPLY-REMOTE", "{\"set\":2}"),
    ("break replica q", "{\"set\":3}"),
    ("run", "{\"at\":2,\"break\":3,\"event\":\"q.exec\"}"),
    ("run", "{\"at\":3,\"break\":1,\"event\":\"p.send\"}"),
    ("run", "{\"at\":4,\"break\":3,\"event\":\"q.recv(p)\"}"),
    ("run", "{\"at\":5,\"break\":2,\"event\":\"q.apply(1, p)\"}"),
    ("run", "{\"refused\":{\"name\":\"AtEnd\",\"number\":51}}"),
    ("step", "{\"refused\":{\"name\":\"AtEnd\",\"number\":51}}"),
    (
        "goto 6",
        "{\"refused\":{\"name\":\"PastSchedule\",\"number\":52}}",
    ),
    (
        "unbreak 4",
        "{\"refused\":{\"name\":\"NoSuchBreak\",\"number\":53}}",
    ),
    ("unbreak 2", "{\"cleared\":2}"),
    (
        "trace",
        "{\"event\":\"q.apply(1, p)\",\"number\":5,\"rules\":[[0,\"APPLY-REMOTE\"],[1,\"DESCEND\"],[2,\"CHILD-GET\"],[2,\"ASSIGN\"],[3,\"CLEAR-REG\"],[3,\"ADD-ID1\"],[4,\"PRESENCE1\"],[3,\"CHILD-GET\"],[2,\"ADD-ID1\"],[3,\"PRESENCE1\"]]}",
    ),
    (
        "state q",
        "{\"acted\":true,\"left\":1,\"name\":\"q\",\"ops\":[\"1@p\",\"1@q\"],\"queue\":[\"1@q\"],\"recv\":[\"1@p\"],\"send\":[],\"tree\":{\"mapT(doc)\":{\"pres(\\\"key\\\")\":[\"1@p\",\"1@q\"],\"regT(\\\"key\\\")\":{\"1@p\":\"A\",\"1@q\":\"B\"}},\"pres(doc)\":[\"1@p\",\"1@q\"]},\"vars\":{}}",
    ),
    (
        "state",
        "[{\"acted\":true,\"left\":1,\"name\":\"p\",\"ops\":[\"1@p\"],\"queue\":[\"1@p\"],\"recv\":[],\"send\":[\"1@p\"],\"tree\":{\"mapT(doc)\":{\"pres(\\\"key\\\")\":[\"1@p\"],\"regT(\\\"key\\\")\":{\"1@p\":\"A\"}},\"pres(doc)\":[\"1@p\"]},\"vars\":{}},{\"acted\":true,\"left\":1,\"name\":\"q\",\"ops\":[\"1@p\",\"1@q\"],\"queue\":[\"1@q\"],\"recv\":[\"1@p\"],\"send\":[],\"tree\":{\"mapT(doc)\":{\"pres(\\\"key\\\")\":[\"1@p\",\"1@q\"],\"regT(\\\"key\\\")\":{\"1@p\":\"A\",\"1@q\":\"B\"}},\"pres(doc)\":[\"1@p\",\"1@q\"]},\"vars\":{}}]",
    ),
    ("compare p q", "{\"operations\":\"different\"}"),
    // Names and rules that there aren't.
    (
        "state r",
        "{\"refused\":{\"name\":\"UnknownReplica\",\"number\":18}}",
    ),
    (
        "compare r p",
        "{\"refused\":{\"name\":\"UnknownReplica\",\"number\":18}}",
    ),
    (
        "break replica r",
        "{\"refused\":{\"name\":\"UnknownReplica\",\"number\":18}}",
    ),
    (
        "break rule RECV-ONE",
        "{\"refused\":{\"name\":\"BadLine\",\"number\":58}}",
    ),
    // An event that is stuck behind the position, and texts that spell none.
    (
        "act q.apply(1, p)",
        "{\"at\":5,\"event\":\"q.apply(1, p)\",\"stuck\":{\"cause\":\"AlreadyApplied\",\"event\":\"q.apply(1, p)\",\"kind\":\"apply\",\"number\":6,\"replica\":\"q\",\"stuck\":35}}",
    ),
    (
        "act  q.exec x",
        "{\"refused\":{\"column\":8,\"end\":8,\"line\":1,\"name\":\"Unexpected\",\"number\":7,\"offset\":7}}",
    ),
    (
        "act p.recv(rst)",
        "{\"refused\":{\"column\":8,\"end\":10,\"line\":1,\"name\":\"UnknownReplica\",\"number\":18,\"offset\":7}}",
    ),
    (
        "act",
        "{\"refused\":{\"column\":1,\"end\":0,\"line\":1,\"name\":\"EndOfText\",\"number\":8,\"offset\":0}}",
    ),
    ("back 2", "{\"at\":3,\"event\":\"p.send\"}"),
    ("act q.recv(q)", "{\"at\":4,\"event\":\"q.recv(q)\"}"),
    ("act q.done", "{\"at\":5,\"event\":\"q.done\"}"),
    (
        "enabled",
        "[\"p.send\",\"p.recv(p)\",\"p.recv(q)\",\"p.done\"]",
    ),
    (
        "schedule",
        "[\"p.exec\",\"q.exec\",\"p.send\",\"q.recv(q)\",\"q.done\"]",
    ),
    ("goto 0", "{\"at\":0}"),
];

/// A given event, and a schedule that is stuck.
const GIVEN: &str = "jsoncrdt 2
    replica a { doc := 1; yield }
    replica b { yield }
    given { a.exec }
    schedule { a.send; a.done; a.done; b.send }";

const GIVEN_ROWS: &[Row] = &[
    // The event of position 0 is the last given one, which has no trace.
    ("where", "{\"at\":0,\"event\":\"a.exec\",\"of\":4}"),
    ("trace", "{\"start\":true}"),
    (
        "run",
        "{\"at\":2,\"event\":\"a.done\",\"stuck\":{\"cause\":\"NoCommand\",\"event\":\"a.done\",\"kind\":\"done\",\"number\":3,\"replica\":\"a\",\"stuck\":30}}",
    ),
    (
        "step 2",
        "{\"at\":2,\"event\":\"a.done\",\"stuck\":{\"cause\":\"NoCommand\",\"event\":\"a.done\",\"kind\":\"done\",\"number\":3,\"replica\":\"a\",\"stuck\":30}}",
    ),
    ("break rule RECV-ONE", "{\"set\":1}"),
    ("goto 1", "{\"at\":1,\"event\":\"a.send\"}"),
    ("back", "{\"at\":0,\"event\":\"a.exec\"}"),
    (
        "act a.take(b, 1, a)",
        "{\"at\":0,\"event\":\"a.exec\",\"stuck\":{\"cause\":\"NotReceived\",\"event\":\"a.take(b, 1, a)\",\"kind\":\"take\",\"number\":1,\"offered\":[],\"replica\":\"a\",\"stuck\":34}}",
    ),
    ("act b.send", "{\"at\":1,\"event\":\"b.send\"}"),
    ("schedule", "[\"b.send\"]"),
    ("goto 0", "{\"at\":0,\"event\":\"a.exec\"}"),
    ("run", "{\"at\":1,\"end\":true,\"event\":\"b.send\"}"),
];

/// Nothing can be done.
const EMPTY: &str = "jsoncrdt 1 replica a {} schedule {}";

const EMPTY_ROWS: &[Row] = &[
    ("schedule", "[]"),
    ("enabled", "[]"),
    ("where", "{\"at\":0,\"of\":0}"),
    ("run", "{\"refused\":{\"name\":\"AtEnd\",\"number\":51}}"),
    ("step 0", "{\"at\":0}"),
];

fn request_of<'a>(rt: &impl Abort, line: &'a str) -> Request<'a> {
    match meaning_of(Some(line.as_bytes())) {
        Meaning::Asks(request) => request,
        _ => panic!(rt; "{line} asks for nothing"),
    }
}

fn is_answered(
    rt: &impl Abort,
    alloc: Global,
    debugger: &mut Debugger,
    given: &[Event],
    row: &Row,
) -> Result<(), Fail>
    requires all { AllNamed debugger.old }
    requires given { All (λ e. AreNamed e (length debugger.old.net.names)) given.now }
    ensures all { OnOk result (AllNamed debugger.new) }
    ensures given { OnOk result (All (λ e. AreNamed e (length debugger.new.net.names)) given.now) }
{
    let (line, want) = row;
    match answer_to(alloc, debugger, given, request_of(rt, line))? {
        Some(answer) => assert!(rt; answer.as_slice() == want.as_bytes(), "{line}"),
        None => panic!(rt; "{line} has no answer"),
    }
    Ok(())
}

fn are_answered(
    rt: &impl Abort,
    alloc: Global,
    debugger: &mut Debugger,
    given: &[Event],
    rows: &[Row],
) -> Result<(), Fail>
    requires all { AllNamed debugger.old }
    requires given { All (λ e. AreNamed e (length debugger.old.net.names)) given.now }
{
    for row in rows {
        is_answered(rt, alloc, debugger, given, row)?;
    }
    Ok(())
}

fn on_scenario(rt: &impl Abort, alloc: Global, text: &str, rows: &[Row]) -> Result<(), Fail> {
    let scenario = read(alloc, text.as_bytes())?;
    let given = scenario.given.clone()?;
    let mut debugger = begun(rt, alloc, scenario)?;
    are_answered(rt, alloc, &mut debugger, given.as_slice(), rows)
}

#[test]
fn merges(rt: HostRuntime) -> Result<(), Fail> {
    on_scenario(&rt, rt.alloc(), MERGE, MERGE_ROWS)
}

#[test]
fn given_events(rt: HostRuntime) -> Result<(), Fail> {
    on_scenario(&rt, rt.alloc(), GIVEN, GIVEN_ROWS)
}

#[test]
fn nothing_to_do(rt: HostRuntime) -> Result<(), Fail> {
    on_scenario(&rt, rt.alloc(), EMPTY, EMPTY_ROWS)
}
