//! The faults of scripts, expressions and events.

use crate::testing::{Fault, Parts, fault, is_fault, is_text, repeated};
use jc_parser::{ParseFault, event_at, parse_event, parse_expr, parse_script, script_at};
use jc_rules::Version;
use jc_syntax::lex;
use std::alloc::Global;
use std::process::Abort;
use std::test::Fail;

fn fault_in<T: Drop>(parsed: Result<T, ParseFault>) -> Fault {
    match parsed {
        Ok(_) => None,
        Err(why) => fault(why.number(), why.place()),
    }
}

/// What a text is parsed as.
#[derive(Clone, Copy)]
enum Reading {
    Script,
    Expression,
    Event(Version),
}

fn fault_of(alloc: Global, reading: Reading, text: &str) -> Fault {
    match reading {
        Reading::Script => fault_in(parse_script(alloc, text)),
        Reading::Expression => fault_in(parse_expr(alloc, text)),
        Reading::Event(version) => fault_in(parse_event(alloc, version, text)),
    }
}

fn have_faults(rt: &impl Abort, alloc: Global, reading: Reading, rows: &[(&str, Fault)]) {
    for (text, want) in rows {
        is_fault(rt, text, fault_of(alloc, reading, text), *want);
    }
}

const SCRIPTS: &[(&str, Fault)] = &[
    ("doc := 1.", Some((5, 7))),
    ("doc := \"\\ud800\"", Some((4, 8))),
    ("doc := 01", Some((5, 7))),
    ("doc := -0", None),
    ("doc := 1e999", None),
    ("doc := 4294967296", None),
    ("let := 1", Some((7, 4))),
    ("let x = yield", Some((10, 8))),
    ("let x = let", Some((10, 8))),
    ("let let = doc", Some((10, 4))),
    ("true := 1", Some((10, 0))),
    ("yield := 1", Some((7, 6))),
    ("doc.insertAfter(1).delete", Some((7, 18))),
    ("let x = doc.delete", Some((7, 12))),
    ("doc", Some((8, 3))),
    ("doc.", Some((8, 4))),
    (";", Some((7, 0))),
    ("yield;;", Some((7, 6))),
    ("yield;", None),
];

const EXPRESSIONS: &[(&str, Fault)] = &[
    // indices
    ("doc.idx(0)", None),
    ("doc.idx(4294967296)", Some((9, 8))),
    ("doc.idx(4294967296", Some((9, 8))),
    ("doc.idx(99999999999999999999999999)", Some((9, 8))),
    ("doc.idx(-1)", Some((7, 8))),
    ("doc.idx(1.0)", Some((7, 8))),
    ("doc.idx(99999999999e9)", Some((7, 8))),
    ("doc.idx(01)", Some((5, 8))),
    ("doc.idx(x)", Some((7, 8))),
    ("doc.idx(\"1\")", Some((7, 8))),
    ("doc.idx()", Some((7, 8))),
    // ends and strangers
    ("", Some((8, 0))),
    ("doc.", Some((8, 4))),
    ("doc.get(\"a\"", Some((8, 11))),
    ("doc doc", Some((7, 4))),
    ("1", Some((7, 0))),
    ("doc.delete", Some((7, 4))),
    ("doc.insertAfter(1)", Some((7, 4))),
    ("doc := 1", Some((7, 4))),
    ("doc.keys(", Some((7, 8))),
    ("doc.get(\"\\ud800\")", Some((4, 9))),
    ("+1", Some((1, 0))),
    // reserved words
    ("let", Some((10, 0))),
    ("yield", Some((10, 0))),
    ("get", Some((10, 0))),
    ("idx", Some((10, 0))),
    ("keys", Some((10, 0))),
    ("values", Some((10, 0))),
    ("insertAfter", Some((10, 0))),
    ("delete", Some((10, 0))),
    ("true", Some((10, 0))),
    ("false", Some((10, 0))),
    ("null", Some((10, 0))),
    (" true.x", Some((10, 1))),
    ("doc.doc", Some((7, 4))),
    ("lets", None),
    ("document.keys", None),
];

/// Events of both versions.
const EVENTS: &[(&str, Fault)] = &[
    // counters
    ("a.apply(0,b)", None),
    ("a.apply(4294967296, b)", Some((9, 8))),
    ("a.apply(4294967296", Some((9, 8))),
    ("a.apply(-1, b)", Some((7, 8))),
    ("a.apply(1.0, b)", Some((7, 8))),
    ("a.apply(01, a)", Some((5, 8))),
    ("a.apply(b, 1)", Some((7, 8))),
    ("a.apply(1, 2)", Some((7, 11))),
    ("a.apply(1)", Some((7, 9))),
    ("a.apply(1, b", Some((8, 12))),
    // ends and strangers
    ("", Some((8, 0))),
    ("a", Some((8, 1))),
    ("a.", Some((8, 2))),
    ("a.recv", Some((8, 6))),
    ("a.recv()", Some((7, 7))),
    ("a.jump", Some((7, 2))),
    ("a.exec b", Some((7, 7))),
    ("a.done;", Some((7, 6))),
    ("1.exec", Some((5, 0))),
    ("\"a\".exec", Some((7, 0))),
    ("a.exec \"\\ud800\"", Some((4, 8))),
    // words that are not reserved
    ("take.exec", None),
    ("given.recv(take)", None),
];

/// Takes in version 1, which doesn't have them.
const TAKES_IN_ONE: &[(&str, Fault)] = &[
    ("a.take(a, 1, a)", Some((7, 2))),
    ("a.take(a, 4294967296, a)", Some((7, 2))),
    ("a.take", Some((7, 2))),
];

/// Takes in version 2.
const TAKES_IN_TWO: &[(&str, Fault)] = &[
    ("b.take(a, 2, a)", None),
    ("take . take ( given ,0,take )", None),
    // counters
    ("a.take(a, 4294967295, a)", None),
    ("a.take(a, 4294967296, a)", Some((9, 10))),
    ("a.take(a, 4294967296", Some((9, 10))),
    ("a.take(a, -1, a)", Some((7, 10))),
    ("a.take(a, 01, a)", Some((5, 10))),
    ("a.take(a, b, 1)", Some((7, 10))),
    // commas
    ("a.take(a 1, a)", Some((7, 9))),
    ("a.take(a, 1 a)", Some((7, 12))),
    ("a.take(a, 1)", Some((7, 11))),
    ("a.take(a, 1, a, a)", Some((7, 14))),
    // ends and strangers
    ("a.take", Some((8, 6))),
    ("a.take()", Some((7, 7))),
    ("a.take(1, a)", Some((7, 7))),
    ("a.take(a)", Some((7, 8))),
    ("a.take(a, 1, 2)", Some((7, 13))),
    ("a.take(a, 1, a", Some((8, 14))),
    ("a.take(a, 1, a);", Some((7, 15))),
    ("a.takes(a, 1, a)", Some((7, 2))),
];

#[test]
fn faults(rt: HostRuntime) {
    have_faults(&rt, rt.alloc(), Reading::Script, SCRIPTS);
    have_faults(&rt, rt.alloc(), Reading::Expression, EXPRESSIONS);
    have_faults(&rt, rt.alloc(), Reading::Event(Version::One), EVENTS);
    have_faults(&rt, rt.alloc(), Reading::Event(Version::Two), EVENTS);
    have_faults(&rt, rt.alloc(), Reading::Event(Version::One), TAKES_IN_ONE);
    have_faults(&rt, rt.alloc(), Reading::Event(Version::Two), TAKES_IN_TWO);
}

/// Texts of expressions, and what their faults are shown as.
const SHOWN: &[(&str, &str)] = &[
    ("#", "BadByte at 0"),
    ("doc.get(\"a", "OpenString at 8"),
    ("doc.get(\"\\q\")", "BadEscape at 9"),
    ("doc.get(\"\\ud800\")", "LoneSurrogate at 9"),
    ("doc.idx(01)", "BadNumber at 8"),
    ("doc doc", "Unexpected at 4"),
    ("doc.", "EndOfText at 4"),
    ("doc.idx(4294967296)", "IndexTooLarge at 8"),
    ("let", "ReservedName at 0"),
];

#[test]
fn faults_are_shown(rt: HostRuntime) -> Result<(), Fail> {
    for (text, want) in SHOWN {
        let Err(why) = parse_expr(rt.alloc(), text) else {
            assert!(rt; false, "{text}");
            continue;
        };
        let shown = why.to_string(rt.alloc())?;
        is_text(&rt, shown.as_str(), want);
    }
    Ok(())
}

/// Texts at their limits and past them.
const LONG: &[(Reading, Parts, Fault)] = &[
    (Reading::Expression, ("doc", ".get(\"a\")", 256, ""), None),
    (
        Reading::Expression,
        ("doc", ".get(\"a\")", 257, ""),
        Some((12, 2307)),
    ),
    (
        Reading::Expression,
        ("doc", ".get(\"a\")", 256, "."),
        Some((8, 2308)),
    ),
    (
        Reading::Expression,
        ("doc", ".get(\"a\")", 256, ".idx"),
        Some((12, 2307)),
    ),
    (
        Reading::Expression,
        ("doc", ".get(\"a\")", 256, ".delete"),
        Some((7, 2308)),
    ),
    (Reading::Expression, ("", "a", 255, ".keys"), None),
    (Reading::Expression, ("", "a", 256, ".keys"), Some((6, 0))),
    (Reading::Script, ("", "yield;", 65536, ""), None),
    (
        Reading::Script,
        ("", "yield;", 65537, ""),
        Some((11, 393216)),
    ),
    (
        Reading::Script,
        ("", "yield;", 65536, "get := 1"),
        Some((10, 393216)),
    ),
    (
        Reading::Script,
        ("", "yield;", 65536, "1"),
        Some((7, 393216)),
    ),
    (
        Reading::Script,
        ("", "yield;", 65536, "let let"),
        Some((11, 393216)),
    ),
    (
        Reading::Script,
        ("doc", ".get(\"a\")", 257, " := 1"),
        Some((12, 2307)),
    ),
    (
        Reading::Script,
        ("doc", ".get(\"a\")", 256, ".get"),
        Some((12, 2307)),
    ),
    (
        Reading::Script,
        ("doc", ".get(\"a\")", 256, "."),
        Some((8, 2308)),
    ),
    (
        Reading::Script,
        ("doc", ".get(\"a\")", 256, ".insertAfter(1)"),
        None,
    ),
    (
        Reading::Script,
        ("doc", ".get(\"a\")", 256, ".delete"),
        None,
    ),
    (Reading::Script, ("let ", "a", 256, " = doc"), Some((6, 4))),
];

#[test]
fn limits(rt: HostRuntime) -> Result<(), Fail> {
    for (reading, parts, want) in LONG {
        let text = repeated(rt.alloc(), *parts)?;
        is_fault(&rt, parts.3, fault_of(rt.alloc(), *reading, &text), *want);
    }
    Ok(())
}

/// A text with scripts among its tokens.
const PROGRAM: &str = "replica p { yield; let x = doc.keys } schedule";

/// The number of commands of the script that begins at a token, and the number of the brace after it; or the number
/// and the offset of the fault.
const SCRIPTS_AT: &[(&str, usize, (usize, usize))] = &[
    (PROGRAM, 3, (2, 11)),
    (PROGRAM, 5, (1, 11)),
    (PROGRAM, 11, (0, 11)),
    (PROGRAM, 12, (8, 46)),
    (PROGRAM, 13, (8, 46)),
    ("{ yield; }", 1, (1, 3)),
    ("{ doc := {} }", 1, (1, 5)),
    ("{ yield )", 1, (7, 8)),
    ("{ yield", 1, (8, 7)),
    ("{ doc := }", 1, (7, 9)),
    ("{ doc. }", 1, (7, 7)),
    ("{ let yield = doc }", 1, (10, 6)),
    ("{ yield; get := 1 }", 1, (10, 9)),
];

fn script_from(
    rt: &impl Abort,
    alloc: Global,
    text: &str,
    from: usize,
) -> Result<(usize, usize), Fail> {
    let tokens = lex(alloc, text)?;
    assert!(rt; from <= tokens.len());
    match script_at(alloc, text, &tokens, from) {
        Ok((script, brace)) => Ok((script.len(), brace)),
        Err(why) => Ok((
            usize::from(why.number().unwrap_or(0)),
            why.place().unwrap_or(0),
        )),
    }
}

#[test]
fn scripts_among_tokens(rt: HostRuntime) -> Result<(), Fail> {
    for (text, from, want) in SCRIPTS_AT {
        let got = script_from(&rt, rt.alloc(), text, *from)?;
        assert!(rt; got == *want, "{text} from {from}");
    }
    Ok(())
}

/// Of a text with so many tokens, the fault of the event from a token on.
const NO_EVENTS_AT: &[(usize, Fault)] = &[(3, Some((7, 6))), (5, Some((8, 9)))];

#[test]
fn no_event_among_tokens(rt: HostRuntime) -> Result<(), Fail> {
    let text = "a.exec; b";
    let tokens = lex(rt.alloc(), text)?;
    assert!(rt; tokens.len() == 5);
    for (from, want) in NO_EVENTS_AT {
        assert!(rt; *from <= tokens.len());
        let got = fault_in(event_at(rt.alloc(), Version::One, text, &tokens, *from));
        is_fault(&rt, text, got, *want);
    }
    Ok(())
}
