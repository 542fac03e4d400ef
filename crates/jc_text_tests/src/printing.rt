//! Canonical texts of scripts, expressions, values and events.

ghost use Rattle.std.specs.Prelude.{◌<◌, length};
ghost use Rattle.jc_printer.specs.Canon.{AreNamed};

use crate::testing::{holds, is_text};
use jc_parser::{parse_event, parse_expr, parse_script};
use jc_printer::{print_event, print_expr, print_script, print_value, push_cmd};
use jc_rules::{Event, Id, Text, Value, Version};
use jc_syntax::{Cmd, Expr, NamedEvent};
use std::alloc::{AllocError, Global};
use std::process::Abort;
use std::test::Fail;

/// Texts of scripts, and their canonical texts.
const SCRIPTS: &[(&str, &str)] = &[
    ("", ""),
    (
        "let x=doc.get(\"a/\");x:=-0",
        "let x = doc.get(\"a/\"); x := -0",
    ),
    (
        "let x=doc.get(\"a/\");x:=-0;yield;doc.delete;doc.insertAfter([])",
        "let x = doc.get(\"a/\"); x := -0; yield; doc.delete; doc.insertAfter([])",
    ),
    (
        "let x=doc . get(\"\\u0061\\/\");x:=-0;",
        "let x = doc.get(\"a/\"); x := -0",
    ),
    (
        "yield ;doc.idx(0).keys.values.insertAfter({});x.delete;x:=[];x:=\"\\u001F\\\"\\ud83d\\ude00\"",
        "yield; doc.idx(0).keys.values.insertAfter({}); x.delete; x := []; x := \"\\u001f\\\"\u{1f600}\"",
    ),
];

#[test]
fn scripts(rt: HostRuntime) -> Result<(), Fail> {
    for (text, canonical) in SCRIPTS {
        let script = parse_script(rt.alloc(), text)?;
        let printed = print_script(rt.alloc(), script.as_slice())?;
        is_text(&rt, printed.as_str(), canonical);
        let again = parse_script(rt.alloc(), printed.as_str())?;
        holds(&rt, canonical, again == script);
    }
    Ok(())
}

/// The same of expressions.
const EXPRESSIONS: &[(&str, &str)] = &[
    (
        "doc.get(\"l\").idx(4294967295).keys.values",
        "doc.get(\"l\").idx(4294967295).keys.values",
    ),
    (
        "x . idx ( 4294967295 ) . get ( \"\" )",
        "x.idx(4294967295).get(\"\")",
    ),
];

#[test]
fn expressions(rt: HostRuntime) -> Result<(), Fail> {
    for (text, canonical) in EXPRESSIONS {
        let expr = parse_expr(rt.alloc(), text)?;
        let printed = print_expr(rt.alloc(), &expr)?;
        is_text(&rt, printed.as_str(), canonical);
        let again = parse_expr(rt.alloc(), printed.as_str())?;
        holds(&rt, canonical, again == expr);
    }
    Ok(())
}

#[test]
fn a_command_behind_a_text(rt: HostRuntime) -> Result<(), Fail> {
    let mut text = String::from_str(rt.alloc(), "  ")?;
    push_cmd(&mut text, &Cmd::Delete(Expr::Doc))?;
    is_text(&rt, text.as_str(), "  doc.delete");
    Ok(())
}

fn text(alloc: Global, bytes: &str) -> Result<Text, AllocError> {
    Text::new(alloc, String::from_str(alloc, bytes)?)
}

fn prints_value(
    rt: &impl Abort,
    alloc: Global,
    value: &Value,
    want: &str,
) -> Result<(), AllocError> {
    let printed = print_value(alloc, value)?;
    is_text(rt, printed.as_str(), want);
    Ok(())
}

#[test]
fn values(rt: HostRuntime) -> Result<(), Fail> {
    let number = Value::Number(text(rt.alloc(), "1e999")?);
    let rows = [
        (number, "1e999"),
        (Value::True, "true"),
        (Value::False, "false"),
        (Value::Null, "null"),
        (Value::EmptyMap, "{}"),
        (Value::EmptyList, "[]"),
    ];
    for (value, want) in &rows {
        prints_value(&rt, rt.alloc(), value, want)?;
    }
    Ok(())
}

/// The literal of all bytes below 20 hexadecimal, and some that are written as they are or by a backslash.
const CONTROLS: &str =
    "\"\\u0000\\u0001\\u0002\\u0003\\u0004\\u0005\\u0006\\u0007\\b\\t\\n\\u000b\\f\\r\\u000e\\u000f\\u0010\\u0011\\u0012\\u0013\\u0014\\u0015\\u0016\\u0017\\u0018\\u0019\\u001a\\u001b\\u001c\\u001d\\u001e\\u001f\\\"\\\\/\u{7f}é\"";

fn controls(alloc: Global) -> Result<Value, AllocError> {
    let mut bytes = String::new(alloc);
    for byte in 0..0x20u8 {
        bytes.push(byte as char)?;
    }
    bytes.push_str("\"\\/\u{7f}é")?;
    Ok(Value::Str(Text::new(alloc, bytes)?))
}

#[test]
fn control_bytes(rt: HostRuntime) -> Result<(), Fail> {
    let value = controls(rt.alloc())?;
    prints_value(&rt, rt.alloc(), &value, CONTROLS)?;
    Ok(())
}

fn names(alloc: Global) -> Result<[Text; 2], AllocError> {
    let first = text(alloc, "a")?;
    Ok([first, text(alloc, "b")?])
}

fn prints_event(rt: &impl Abort, alloc: Global, event: &Event, want: &str) -> Result<(), AllocError>
    requires { AreNamed event.now 2 }
{
    let names = names(alloc)?;
    let printed = print_event(alloc, &names, event)?;
    is_text(rt, printed.as_str(), want);
    Ok(())
}

const MADE: Id = Id {
    counter: 2,
    replica: 0,
};

#[test]
fn events(rt: HostRuntime) -> Result<(), Fail> {
    let alloc = rt.alloc();
    prints_event(&rt, alloc, &Event::Apply(1, MADE), "b.apply(2, a)")?;
    prints_event(&rt, alloc, &Event::Exec(0), "a.exec")?;
    prints_event(&rt, alloc, &Event::Send(1), "b.send")?;
    prints_event(&rt, alloc, &Event::Recv(0, 1), "a.recv(b)")?;
    prints_event(&rt, alloc, &Event::Take(0, 1, MADE), "a.take(b, 2, a)")?;
    prints_event(&rt, alloc, &Event::Take(1, 0, MADE), "b.take(a, 2, a)")?;
    prints_event(&rt, alloc, &Event::Done(1), "b.done")?;
    Ok(())
}

/// Whether the event is `b.apply(2, a)`.
fn is_apply(event: &NamedEvent) -> bool {
    match event {
        NamedEvent::Apply {
            replica,
            counter,
            author,
        } => replica.name.as_str() == "b" && *counter == 2 && author.name.as_str() == "a",
        _ => false,
    }
}

/// Whether the event is `b.take(a, 2, a)`.
fn is_take(event: &NamedEvent) -> bool {
    match event {
        NamedEvent::Take {
            replica,
            sender,
            counter,
            author,
        } => {
            let names = replica.name.as_str() == "b" && sender.name.as_str() == "a";
            names && *counter == 2 && author.name.as_str() == "a"
        }
        _ => false,
    }
}

#[test]
fn an_event_is_read_back(rt: HostRuntime) -> Result<(), Fail> {
    let names = names(rt.alloc())?;
    let printed = print_event(rt.alloc(), &names, &Event::Apply(1, MADE))?;
    let event = parse_event(rt.alloc(), Version::One, printed.as_str())?;
    holds(&rt, "an apply", is_apply(&event));
    let printed = print_event(rt.alloc(), &names, &Event::Take(1, 0, MADE))?;
    let event = parse_event(rt.alloc(), Version::Two, printed.as_str())?;
    holds(&rt, "a take", is_take(&event));
    Ok(())
}
