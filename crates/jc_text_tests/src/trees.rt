//! The trees of scripts, expressions, events and scenarios, and copies of them.

use crate::testing::{Fault, fault, holds, is_fault, repeated};
use jc_parser::{
    NamedReplica, NamedScenario, event_at, parse_event, parse_expr, parse_script, scenario_of,
};
use jc_rules::{Value, Version};
use jc_syntax::{Cmd, Expr, Named, NamedEvent, lex};
use std::alloc::Global;
use std::test::Fail;

/// Whether a script is `yield`, `let x = doc.get("a/")`, `x := -0`, `doc.insertAfter({})`, `doc.delete` and
/// `x.idx(1) := []`.
fn has_each_command(script: &[Cmd]) -> bool {
    match script {
        [
            Cmd::Yield,
            Cmd::Let(bound, Expr::Get(from, key)),
            Cmd::Set(Expr::Var(name), Value::Number(number)),
            Cmd::InsertAfter(Expr::Doc, Value::EmptyMap),
            Cmd::Delete(Expr::Doc),
            Cmd::Set(Expr::Idx(_, 1), Value::EmptyList),
        ] => {
            let binds = bound.as_str() == "x" && key.as_str() == "a/";
            let sets = name.as_str() == "x" && number.as_str() == "-0";
            binds && matches!(&**from, Expr::Doc) && sets
        }
        _ => false,
    }
}

#[test]
fn each_command(rt: HostRuntime) -> Result<(), Fail> {
    let text =
        "yield; let x=doc . get(\"\\u0061\\/\");x:=-0;doc.insertAfter({});doc.delete;x.idx(1) := []";
    let script = parse_script(rt.alloc(), text)?;
    holds(&rt, text, has_each_command(&script));
    let empty = parse_script(rt.alloc(), "")?;
    holds(&rt, "", empty.is_empty());
    Ok(())
}

/// Whether an expression is `list.get("a/").idx(4294967295).values.keys`.
fn has_each_selector(expr: &Expr) -> bool {
    if let Expr::Keys(expr) = expr
        && let Expr::Values(expr) = &**expr
        && let Expr::Idx(expr, 4294967295) = &**expr
        && let Expr::Get(expr, key) = &**expr
        && let Expr::Var(name) = &**expr
    {
        key.as_str() == "a/" && name.as_str() == "list"
    } else {
        false
    }
}

#[test]
fn each_selector(rt: HostRuntime) -> Result<(), Fail> {
    let text = "list . get(\"\\u0061\\/\").idx(4294967295).values.keys";
    let expr = parse_expr(rt.alloc(), text)?;
    holds(&rt, text, has_each_selector(&expr));
    let doc = parse_expr(rt.alloc(), "doc")?;
    holds(&rt, "doc", matches!(&doc, Expr::Doc));
    Ok(())
}

/// The kind of an event, its replica and its sender or author with their offsets, and its counter. What its kind lacks
/// is no name and 0.
type Event = (
    &'static str,
    (&'static str, usize),
    (&'static str, usize),
    u32,
);

fn is_named(named: &Named, (name, place): (&str, usize)) -> bool {
    named.name.as_str() == name && named.place == place
}

fn is_event(event: &NamedEvent, (kind, own, other, number): Event) -> bool {
    match event {
        NamedEvent::Exec(replica) => kind == "exec" && is_named(replica, own),
        NamedEvent::Send(replica) => kind == "send" && is_named(replica, own),
        NamedEvent::Done(replica) => kind == "done" && is_named(replica, own),
        NamedEvent::Recv(replica, sender) => {
            kind == "recv" && is_named(replica, own) && is_named(sender, other)
        }
        NamedEvent::Apply {
            replica,
            counter,
            author,
        } => {
            let names = is_named(replica, own) && is_named(author, other);
            kind == "apply" && names && *counter == number
        }
        NamedEvent::Take { .. } => false,
    }
}

const EVENTS: &[(&str, Event)] = &[
    (
        " a . apply(4294967295, let)",
        ("apply", ("a", 1), ("let", 23), 4294967295),
    ),
    ("b.recv( a )", ("recv", ("b", 0), ("a", 8), 0)),
    ("  doc.exec", ("exec", ("doc", 2), ("", 0), 0)),
    ("\na . send", ("send", ("a", 1), ("", 0), 0)),
    (
        "\t\tlong_name1.done ",
        ("done", ("long_name1", 2), ("", 0), 0),
    ),
    ("   b.apply(1, a)", ("apply", ("b", 3), ("a", 14), 1)),
];

#[test]
fn each_event_and_its_copy(rt: HostRuntime) -> Result<(), Fail> {
    for (text, want) in EVENTS {
        let event = parse_event(rt.alloc(), Version::One, text)?;
        holds(&rt, text, is_event(&event, *want));
        let copy = event.copy()?;
        holds(&rt, text, copy == event);
        let second = parse_event(rt.alloc(), Version::Two, text)?;
        holds(&rt, text, second == event);
    }
    Ok(())
}

/// The replica, the sender and the author of a take with their offsets, and its counter.
type Take = (
    (&'static str, usize),
    (&'static str, usize),
    (&'static str, usize),
    u32,
);

fn is_take(event: &NamedEvent, (own, from, made_by, number): Take) -> bool {
    match event {
        NamedEvent::Take {
            replica,
            sender,
            counter,
            author,
        } => {
            let names = is_named(replica, own) && is_named(sender, from);
            names && is_named(author, made_by) && *counter == number
        }
        _ => false,
    }
}

const TAKES: &[(&str, Take)] = &[
    ("b.take(a, 2, a)", (("b", 0), ("a", 7), ("a", 13), 2)),
    (
        " take . take( given ,4294967295, let )",
        (("take", 1), ("given", 14), ("let", 33), 4294967295),
    ),
];

#[test]
fn each_take_and_its_copy(rt: HostRuntime) -> Result<(), Fail> {
    for (text, want) in TAKES {
        let event = parse_event(rt.alloc(), Version::Two, text)?;
        holds(&rt, text, is_take(&event, *want));
        let copy = event.copy()?;
        holds(&rt, text, copy == event);
    }
    Ok(())
}

#[test]
fn a_take_among_tokens(rt: HostRuntime) -> Result<(), Fail> {
    let text = "a.exec; b.take(a, 2, a)} c";
    let tokens = lex(rt.alloc(), text)?;
    assert!(rt; tokens.len() == 16);
    let (event, next) = event_at(rt.alloc(), Version::Two, text, &tokens, 4)?;
    let want = (("b", 8), ("a", 15), ("a", 21), 2);
    holds(&rt, text, next == 14 && is_take(&event, want));
    Ok(())
}

/// Events among the tokens of a text: the number of the first token, and of that behind the event.
const EVENTS_AT: &[(usize, usize, Event)] = &[
    (0, 3, ("exec", ("a", 0), ("", 0), 0)),
    (4, 10, ("recv", ("b", 8), ("a", 15), 0)),
];

#[test]
fn events_among_tokens(rt: HostRuntime) -> Result<(), Fail> {
    let text = "a.exec; b.recv(a)} c";
    let tokens = lex(rt.alloc(), text)?;
    assert!(rt; tokens.len() == 12);
    for (from, after, want) in EVENTS_AT {
        assert!(rt; *from <= tokens.len());
        let (event, next) = event_at(rt.alloc(), Version::One, text, &tokens, *from)?;
        holds(&rt, text, next == *after && is_event(&event, *want));
    }
    Ok(())
}

/// A command of each kind, and an expression of each.
const COMMANDS: &str =
    "let y = x.get(\"k\").idx(7).keys.values; doc := -0; doc.insertAfter(null); doc.delete; yield";

#[test]
fn commands_are_copied(rt: HostRuntime) -> Result<(), Fail> {
    let script = parse_script(rt.alloc(), COMMANDS)?;
    assert!(rt; script.len() == 5);
    for command in script.iter() {
        let copy = command.copy(rt.alloc())?;
        holds(&rt, COMMANDS, copy == *command);
    }
    let expr = parse_expr(rt.alloc(), "x.get(\"k\").idx(7).keys.values")?;
    let copy = expr.copy(rt.alloc())?;
    holds(&rt, "an expression", copy == expr);
    Ok(())
}

/// Whether these are `b` without commands and `a` with a `yield`.
fn are_the_replicas(replicas: &[NamedReplica]) -> bool {
    match replicas {
        [first, second] => {
            let scripts = first.script.is_empty()
                && matches!(second.script.as_slice(), [Cmd::Yield]);
            first.name.as_str() == "b" && second.name.as_str() == "a" && scripts
        }
        _ => false,
    }
}

/// Whether these are `a.recv(b)` and `c.send`, with the offsets of their names.
fn are_the_events(events: &[NamedEvent]) -> bool {
    match events {
        [first, second] => {
            is_event(first, ("recv", ("a", 52), ("b", 59), 0))
                && is_event(second, ("send", ("c", 63), ("", 0), 0))
        }
        _ => false,
    }
}

fn scenario_in(alloc: Global, text: &str) -> Result<NamedScenario, Fail> {
    let tokens = lex(alloc, text)?;
    Ok(scenario_of(alloc, text, &tokens)?)
}

/// Two replicas, out of order, and two events.
const TWO: &str = "jsoncrdt 1 replica b {} replica a {yield} schedule {a.recv(b); c.send}";

fn is_two(scenario: &NamedScenario) -> bool {
    let first = scenario.version == Version::One && scenario.given.is_empty();
    first && are_the_replicas(&scenario.replicas) && are_the_events(&scenario.events)
}

// Names in events are not looked up there.
#[test]
fn scenarios_of_tokens(rt: HostRuntime) -> Result<(), Fail> {
    let scenario = scenario_in(rt.alloc(), TWO)?;
    holds(&rt, TWO, is_two(&scenario));
    let one = "jsoncrdt 1 replica a {} schedule {b.exec}";
    let scenario = scenario_in(rt.alloc(), one)?;
    holds(&rt, one, scenario.events.len() == 1);
    Ok(())
}

#[test]
fn scenarios_are_copied(rt: HostRuntime) -> Result<(), Fail> {
    let scenario = scenario_in(rt.alloc(), TWO)?;
    let copy = scenario.copy()?;
    holds(&rt, TWO, is_two(&copy));
    Ok(())
}

/// A scenario of version 2: a given event, which is a take, and an event of the schedule.
const SECOND: &str =
    "jsoncrdt 2 replica given {} replica take {} given {take.take(given, 7, z);} schedule {a.send}";

fn is_second(scenario: &NamedScenario) -> bool {
    match (&*scenario.given, &*scenario.events) {
        ([take], [send]) => {
            let taken = is_take(take, (("take", 51), ("given", 61), ("z", 71), 7));
            let sent = is_event(send, ("send", ("a", 86), ("", 0), 0));
            scenario.version == Version::Two && taken && sent
        }
        _ => false,
    }
}

#[test]
fn given_events_and_their_copy(rt: HostRuntime) -> Result<(), Fail> {
    let scenario = scenario_in(rt.alloc(), SECOND)?;
    holds(&rt, SECOND, is_second(&scenario));
    let copy = scenario.copy()?;
    holds(&rt, SECOND, is_second(&copy));
    Ok(())
}

fn scenario_fault(alloc: Global, text: &str) -> Result<Fault, Fail> {
    let tokens = lex(alloc, text)?;
    match scenario_of(alloc, text, &tokens) {
        Ok(_) => Ok(None),
        Err(why) => Ok(fault(why.number(), why.place())),
    }
}

/// Texts of both versions, and their faults.
const SCENARIOS: &[(&str, Fault)] = &[
    ("jsoncrdt 1", Some((16, 10))),
    ("jsoncrdt 2", Some((16, 10))),
    ("jsoncrdt 3", Some((14, 9))),
    ("jsoncrdt 2.0", Some((14, 9))),
    ("jsoncrdt two", Some((14, 9))),
    ("jsoncrdt 2 given {}", Some((16, 11))),
    ("jsoncrdt 1 replica a {} given {}", Some((7, 24))),
    ("jsoncrdt 2 replica a {} given {}", None),
    ("jsoncrdt 2 replica a {} given {} schedule {}", None),
    (
        "jsoncrdt 2 replica a {} schedule {} given {}",
        Some((7, 36)),
    ),
    ("jsoncrdt 2 replica a {} given {} given {}", Some((7, 33))),
    (
        "jsoncrdt 2 replica a {} given {} replica b {}",
        Some((7, 33)),
    ),
    ("jsoncrdt 2 replica a {} given", Some((8, 29))),
    ("jsoncrdt 2 replica a {} given {a.exec", Some((8, 37))),
    (
        "jsoncrdt 1 replica a {} schedule {a.take(a, 1, a)}",
        Some((7, 36)),
    ),
    ("jsoncrdt 2 replica a {} schedule {a.take(a, 1, a)}", None),
    (
        "jsoncrdt 2 replica a {} given {a.take(a, 4294967296, a)}",
        Some((9, 41)),
    ),
    ("jsoncrdt 2 replica a {} given {a.given}", Some((7, 33))),
];

#[test]
fn faults_of_scenarios(rt: HostRuntime) -> Result<(), Fail> {
    for (text, want) in SCENARIOS {
        is_fault(&rt, text, scenario_fault(rt.alloc(), text)?, *want);
    }
    Ok(())
}

/// The fault of a scenario with this many given events, and this many in the schedule.
fn fault_of_counts(alloc: Global, given: usize, events: usize) -> Result<Fault, Fail> {
    let head = "jsoncrdt 2 replica a {} given {";
    let before = repeated(alloc, (head, "a.send;", given, "} schedule {"))?;
    let schedule = repeated(alloc, ("", "a.send;", events, "}"))?;
    let text = format!(in alloc; "{before}{schedule}")?;
    scenario_fault(alloc, &text)
}

// Each block is counted apart.
#[test]
fn two_full_blocks(rt: HostRuntime) -> Result<(), Fail> {
    let got = fault_of_counts(rt.alloc(), 100000, 100000)?;
    is_fault(&rt, "two full blocks", got, None);
    Ok(())
}

#[test]
fn one_given_event_too_many(rt: HostRuntime) -> Result<(), Fail> {
    let got = fault_of_counts(rt.alloc(), 100001, 0)?;
    is_fault(&rt, "given", got, Some((19, 700031)));
    Ok(())
}

#[test]
fn one_event_too_many_behind_a_given_one(rt: HostRuntime) -> Result<(), Fail> {
    let got = fault_of_counts(rt.alloc(), 1, 100001)?;
    is_fault(&rt, "schedule", got, Some((19, 700050)));
    Ok(())
}
