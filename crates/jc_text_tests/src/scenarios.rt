//! Scenarios read, printed and copied; and those refused that no row of `jc_rows` can hold, as bytes that are no text and
//! texts that are too long.

use crate::testing::{Fault, Parts, fault, holds, is_fault, is_text, repeated};
use jc_rules::{Event, Id, Text, Version};
use jc_scenario::{Scenario, ScenarioFault, print, read, resolve};
use jc_syntax::{Cmd, Named, NamedEvent};
use std::alloc::{AllocError, Global};
use std::process::Abort;
use std::test::Fail;

fn fault_of(alloc: Global, bytes: &[u8]) -> Fault {
    match read(alloc, bytes) {
        Ok(_) => None,
        Err(why) => fault(why.number(), why.place()),
    }
}

/// Bytes that are no UTF-8: behind a good text, and behind a byte that begins no token.
const NOT_UTF8: &[(&[u8], Fault)] = &[
    (b"jsoncrdt 1 \xff", Some((13, 11))),
    (b"jsoncrdt 1 #\xff", Some((13, 12))),
];

#[test]
fn bytes_that_are_no_text(rt: HostRuntime) {
    for (bytes, want) in NOT_UTF8 {
        is_fault(&rt, "no text", fault_of(rt.alloc(), bytes), *want);
    }
}

/// Bytes that are no scenario, and what their faults are shown as.
const SHOWN: &[(&[u8], &str)] = &[
    (b"jsoncrdt 1 \xff", "NotUtf8 at 11"),
    (b"jsoncrdt 3", "NoHeader at 9"),
    (b"jsoncrdt 1", "NoReplica at 10"),
    (b"jsoncrdt 2", "NoReplica at 10"),
    (b"jsoncrdt 1 replica a {} replica a {}", "SameName at 32"),
    (
        b"jsoncrdt 1 replica a {} schedule {z.exec}",
        "UnknownReplica at 34",
    ),
];

#[test]
fn faults_are_shown(rt: HostRuntime) -> Result<(), Fail> {
    for (bytes, want) in SHOWN {
        let Err(why) = read(rt.alloc(), bytes) else {
            assert!(rt; false, "{want}");
            continue;
        };
        let shown = why.to_string(rt.alloc())?;
        is_text(&rt, shown.as_str(), want);
    }
    let memory = ScenarioFault::from(AllocError).to_string(rt.alloc())?;
    is_text(&rt, memory.as_str(), "no memory");
    Ok(())
}

/// The text before an event.
const HEAD: &str = "jsoncrdt 1 replica a {} schedule {";

fn have_faults(rt: &impl Abort, alloc: Global, rows: &[(Parts, Fault)]) -> Result<(), AllocError> {
    for (parts, want) in rows {
        let text = repeated(alloc, *parts)?;
        is_fault(rt, parts.1, fault_of(alloc, text.as_bytes()), *want);
    }
    Ok(())
}

const EVENTS: &[(Parts, Fault)] = &[
    ((HEAD, "a.send;", 100000, "}"), None),
    ((HEAD, "a.send;", 100001, "}"), Some((19, 700034))),
    ((HEAD, "a.send;", 100000, "1}"), Some((7, 700034))),
];

#[test]
fn events(rt: HostRuntime) -> Result<(), Fail> {
    Ok(have_faults(&rt, rt.alloc(), EVENTS)?)
}

/// The text before a given event.
const GIVEN: &str = "jsoncrdt 2 replica a {} given {";

const GIVEN_EVENTS: &[(Parts, Fault)] = &[
    ((GIVEN, "a.send;", 100000, "}"), None),
    ((GIVEN, "a.send;", 100001, "}"), Some((19, 700031))),
];

/// Events after as many given ones as there may be.
const BEHIND: &[(usize, Fault)] = &[(100000, None), (100001, Some((19, 1400043)))];

/// Given events and those of the schedule are counted apart.
#[test]
fn given_events(rt: HostRuntime) -> Result<(), Fail> {
    have_faults(&rt, rt.alloc(), GIVEN_EVENTS)?;
    let given = repeated(rt.alloc(), (GIVEN, "a.send;", 100000, "} schedule {"))?;
    for (times, want) in BEHIND {
        let schedule = "a.send;".repeat(rt.alloc(), *times)?;
        let text = format!(in rt.alloc(); "{given}{schedule}}}")?;
        is_fault(
            &rt,
            "behind given events",
            fault_of(rt.alloc(), text.as_bytes()),
            *want,
        );
    }
    Ok(())
}

/// Events of no replica: all are counted before a name is looked up.
const STRANGE: &[(Parts, Fault)] = &[
    ((HEAD, "z.send;", 100000, "}"), Some((18, 34))),
    ((HEAD, "z.send;", 100001, "}"), Some((19, 700034))),
];

#[test]
fn events_of_no_replica(rt: HostRuntime) -> Result<(), Fail> {
    Ok(have_faults(&rt, rt.alloc(), STRANGE)?)
}

/// Many commands of one script, and many tokens without a header.
const COMMANDS: &[(Parts, Fault)] = &[
    (("jsoncrdt 1 replica a {", "yield;", 65536, "}"), None),
    (
        ("jsoncrdt 1 replica a {", "yield;", 65537, "}"),
        Some((11, 393238)),
    ),
    (("", "(", 1048576, ""), Some((14, 0))),
];

#[test]
fn commands_and_tokens(rt: HostRuntime) -> Result<(), Fail> {
    Ok(have_faults(&rt, rt.alloc(), COMMANDS)?)
}

/// The number of blanks after the 23 bytes of a scenario, the bytes after them, and the fault.
const BLANKS: &[(usize, &[u8], Fault)] = &[
    (8388585, b"", None),
    (8388586, b"", Some((6, 8388608))),
    // the text's length is looked at before its bytes
    (8388585, b"\xff", Some((6, 8388608))),
    (8388584, b"\xff", Some((13, 8388607))),
];

#[test]
fn bytes(rt: HostRuntime) -> Result<(), Fail> {
    for (times, tail, want) in BLANKS {
        let mut bytes = Vec::new(rt.alloc());
        bytes.extend_from_slice(b"jsoncrdt 1 replica a {}")?;
        bytes.resize(23 + *times, b' ')?;
        bytes.extend_from_slice(tail)?;
        is_fault(&rt, "bytes", fault_of(rt.alloc(), &bytes), *want);
    }
    Ok(())
}

/// Replicas out of order, with events of both, and one that is given.
const TWO: &[u8] = b"jsoncrdt 2 replica b{yield} replica a{doc:=1;yield}
    given {b.send} schedule {a.exec; a.send; b.recv(a); b.apply(1, a); b.done}";

/// Whether these are `a` and `b`.
fn are_the_names(names: &[Text]) -> bool {
    match names {
        [first, second] => first.as_str() == "a" && second.as_str() == "b",
        _ => false,
    }
}

/// Whether the first script is an assignment and a `yield`, and the second a `yield`.
fn are_the_scripts(scripts: &[Vec<Cmd>]) -> bool {
    match scripts {
        [first, second] => {
            matches!(first.as_slice(), [Cmd::Set(_, _), Cmd::Yield])
                && matches!(second.as_slice(), [Cmd::Yield])
        }
        _ => false,
    }
}

const SCHEDULE: [Event; 5] = [
    Event::Exec(0),
    Event::Send(0),
    Event::Recv(1, 0),
    Event::Apply(
        1,
        Id {
            counter: 1,
            replica: 0,
        },
    ),
    Event::Done(1),
];

fn is_two(scenario: &Scenario) -> bool {
    are_the_names(&scenario.names)
        && are_the_scripts(&scenario.scripts)
        && scenario.version == Version::Two
        && scenario.given.as_slice() == [Event::Send(1)].as_slice()
        && scenario.schedule.as_slice() == SCHEDULE.as_slice()
}

#[test]
fn replicas_stand_by_name(rt: HostRuntime) -> Result<(), Fail> {
    let scenario = read(rt.alloc(), TWO)?;
    holds(&rt, "read", is_two(&scenario));
    let copy = scenario.copy()?;
    holds(&rt, "copied", is_two(&copy));
    Ok(())
}

/// Texts, and their canonical texts.
const PRINTED: &[(&str, &str)] = &[
    (
        "jsoncrdt 1 replica b{yield} replica a{let x=doc . get(\"\\u0061\\/\");x:=-0;}",
        "jsoncrdt 1\nreplica a {\n  let x = doc.get(\"a/\");\n  x := -0;\n}\nreplica b {\n  yield;\n}\nschedule {\n}\n",
    ),
    (
        "jsoncrdt 1 replica a { doc.get(\"a\") := 1 } schedule { a.exec }",
        "jsoncrdt 1\nreplica a {\n  doc.get(\"a\") := 1;\n}\nschedule {\n  a.exec;\n}\n",
    ),
    // names are sorted by their bytes: capitals, `_`, small letters, and the shorter one first
    (
        "jsoncrdt 1 replica b{} replica a1{} replica _{} replica a{} replica B{} schedule {b.recv(B)}",
        "jsoncrdt 1\nreplica B {\n}\nreplica _ {\n}\nreplica a {\n}\nreplica a1 {\n}\nreplica b {\n}\nschedule {\n  b.recv(B);\n}\n",
    ),
    (
        "jsoncrdt 2 replica b{yield} replica a{doc:=1;yield} given{a.exec;a.send}schedule{b . take ( a,1 , a );b.apply(1,a)}",
        "jsoncrdt 2\nreplica a {\n  doc := 1;\n  yield;\n}\nreplica b {\n  yield;\n}\ngiven {\n  a.exec;\n  a.send;\n}\nschedule {\n  b.take(a, 1, a);\n  b.apply(1, a);\n}\n",
    ),
    (
        "jsoncrdt 1 replica a {} schedule {a.apply(4294967295,a);}",
        "jsoncrdt 1\nreplica a {\n}\nschedule {\n  a.apply(4294967295, a);\n}\n",
    ),
];

/// The canonical text of what is read.
fn printed(alloc: Global, text: &str) -> Result<String, Fail> {
    let scenario = read(alloc, text.as_bytes())?;
    Ok(print(alloc, &scenario)?)
}

#[test]
fn canonical_texts(rt: HostRuntime) -> Result<(), Fail> {
    for (text, want) in PRINTED {
        let once = printed(rt.alloc(), text)?;
        is_text(&rt, once.as_str(), want);
        let again = printed(rt.alloc(), once.as_str())?;
        is_text(&rt, again.as_str(), want);
    }
    Ok(())
}

fn text(alloc: Global, bytes: &str) -> Result<Text, AllocError> {
    Text::new(alloc, String::from_str(alloc, bytes)?)
}

fn named(alloc: Global, name: &str, place: usize) -> Result<Named, AllocError> {
    let name = text(alloc, name)?;
    Ok(Named { name, place })
}

/// The event `b.recv` of this sender, resolved among `a` and `b`, or the offset of the unknown name.
fn receiving(alloc: Global, sender: &str) -> Result<Result<Event, usize>, AllocError> {
    let first = text(alloc, "a")?;
    let names = [first, text(alloc, "b")?];
    let receiver = named(alloc, "b", 7)?;
    let event = NamedEvent::Recv(receiver, named(alloc, sender, 14)?);
    Ok(resolve(&names, &event).map_err(|unknown| unknown.place))
}

/// The event `b.take` of the operation 2 of this author from `a`, resolved, or the offset of the unknown name.
fn taking(alloc: Global, author: &str) -> Result<Result<Event, usize>, AllocError> {
    let first = text(alloc, "a")?;
    let names = [first, text(alloc, "b")?];
    let event = NamedEvent::Take {
        replica: named(alloc, "b", 7)?,
        sender: named(alloc, "a", 14)?,
        counter: 2,
        author: named(alloc, author, 20)?,
    };
    Ok(resolve(&names, &event).map_err(|unknown| unknown.place))
}

#[test]
fn names_of_replicas(rt: HostRuntime) -> Result<(), Fail> {
    let id = Id {
        counter: 2,
        replica: 1,
    };
    let taken = taking(rt.alloc(), "b")?;
    holds(&rt, "b", taken == Ok(Event::Take(1, 0, id)));
    let unknown = taking(rt.alloc(), "c")?;
    holds(&rt, "c", unknown == Err(20));
    let known = receiving(rt.alloc(), "a")?;
    holds(&rt, "a", known == Ok(Event::Recv(1, 0)));
    let unknown = receiving(rt.alloc(), "c")?;
    holds(&rt, "c", unknown == Err(14));
    Ok(())
}
