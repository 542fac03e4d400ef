//! The texts of answers that no other crate has. The answers are made of them.

ghost use Rattle.std.specs.Prelude.{◌≡◌, ◌++◌, ℕ, List, IfOk, OnOk, All, length, string_bytes, codes, decimal};
ghost use Rattle.jc_printer.specs.Canon.{AreNamed, canon_event};
ghost use Rattle.jc_dump.specs.Texts.{dumps_text};
ghost use Rattle.jc_session.specs.Texts.{refusal_line, at_line, set_line, cleared_line, where_line, compared_line, numbered_line, numbered_lines, event_lines, or_none_text};

use jc_dump::dump_replica;
use jc_meaning::Comparison;
use jc_network::Net;
use jc_printer::print_event;
use jc_rules::{Event, Refusal, Text};
use std::alloc::{AllocError, Global};

/// The line of a refusal without a place.
pub fn refusal_line(alloc: Global, refusal: Refusal) -> Result<String, AllocError>
    ensures { IfOk result (λ text. string_bytes text ≡ refusal_line refusal) }
{
    refused(alloc, refusal.number(), refusal.name())
}

fn refused(alloc: Global, number: u8, name: &str) -> Result<String, AllocError>
    ensures { IfOk result (λ text.
        string_bytes text ≡ codes "refused " ++ decimal number ++ codes " " ++ name.now ++ codes "\n") }
{
    format!(in alloc; "refused {number} {name}\n")
}

/// The line of a position.
pub fn at_line(alloc: Global, n: u64) -> Result<String, AllocError>
    ensures { IfOk result (λ text. string_bytes text ≡ at_line n) }
{
    format!(in alloc; "at {n}\n")
}

/// The line of a position, and another line after it.
pub fn at_and(alloc: Global, n: u64, line: &str) -> Result<String, AllocError>
    ensures { IfOk result (λ text. string_bytes text ≡ at_line n ++ line.now) }
{
    format!(in alloc; "at {n}\n{line}")
}

/// The line of the breakpoint that a run reached.
pub fn break_line(alloc: Global, k: u16) -> Result<String, AllocError>
    ensures { IfOk result (λ text. string_bytes text ≡ codes "break " ++ decimal k ++ codes "\n") }
{
    format!(in alloc; "break {k}\n")
}

/// The line of a new breakpoint.
pub fn set_line(alloc: Global, k: u16) -> Result<String, AllocError>
    ensures { IfOk result (λ text. string_bytes text ≡ set_line k) }
{
    format!(in alloc; "set {k}\n")
}

/// The line of a breakpoint that was taken away.
pub fn cleared_line(alloc: Global, k: u64) -> Result<String, AllocError>
    ensures { IfOk result (λ text. string_bytes text ≡ cleared_line k) }
{
    format!(in alloc; "cleared {k}\n")
}

/// The line of a position in a schedule of so many events.
pub fn where_line(alloc: Global, n: u64, events: usize) -> Result<String, AllocError>
    ensures { IfOk result (λ text. string_bytes text ≡ where_line n events) }
{
    format!(in alloc; "at {n} of {events}\n")
}

/// The line of how two replicas compare.
pub fn compared_line(alloc: Global, found: Comparison) -> Result<String, AllocError>
    ensures { IfOk result (λ text. string_bytes text ≡ compared_line found) }
{
    match found {
        Comparison::SameOps { same_tree: true } => {
            String::from_str(alloc, "same operations same tree\n")
        }
        Comparison::SameOps { same_tree: false } => {
            String::from_str(alloc, "same operations different tree\n")
        }
        Comparison::DifferentOps => String::from_str(alloc, "different operations\n"),
    }
}

/// Appends an event's text as a line of its own.
fn push_event(
    text: &mut String,
    alloc: Global,
    names: &[Text],
    event: &Event,
) -> Result<(), AllocError>
    requires { AreNamed event.now (length names.now) }
    ensures { OnOk result
        (string_bytes text.new ≡ string_bytes text.old ++ (canon_event names.now event.now ++ codes "\n")) }
{
    text.push_str(print_event(alloc, names, event)?.as_str())?;
    text.push_str("\n")
}

/// Events, each as a line.
pub fn event_lines(alloc: Global, names: &[Text], events: &[Event]) -> Result<String, AllocError>
    requires { All (λ e. AreNamed e (length names.now)) events.now }
    ensures { IfOk result (λ text. string_bytes text ≡ event_lines names.now events.now) }
{
    let mut text = String::new(alloc);
    for event in events {
        push_event(&mut text, alloc, names, event)?;
    }
    Ok(text)
}

fn numbered(alloc: Global, n: usize, event: &str) -> Result<String, AllocError>
    ensures { IfOk result (λ text. string_bytes text ≡ decimal n ++ codes " " ++ event.now ++ codes "\n") }
{
    format!(in alloc; "{n} {event}\n")
}

/// Appends the line of an event with this number.
fn push_numbered(
    text: &mut String,
    alloc: Global,
    names: &[Text],
    n: usize,
    event: &Event,
) -> Result<(), AllocError>
    requires { AreNamed event.now (length names.now) }
    ensures { OnOk result
        (string_bytes text.new ≡ string_bytes text.old ++ numbered_line names.now n event.now) }
{
    let event = print_event(alloc, names, event)?;
    text.push_str(numbered(alloc, n, event.as_str())?.as_str())
}

/// Events, each as a line with its number from 1.
pub fn numbered_lines(alloc: Global, names: &[Text], events: &[Event]) -> Result<String, AllocError>
    requires { All (λ e. AreNamed e (length names.now)) events.now }
    ensures { IfOk result (λ text. string_bytes text ≡ numbered_lines names.now 1 events.now) }
{
    let mut text = String::new(alloc);
    for (i, event) in events.iter().enumerate() {
        push_numbered(&mut text, alloc, names, i + 1, event)?;
    }
    Ok(text)
}

/// The lines, or the line `none` where there are none.
pub fn or_none(alloc: Global, text: String) -> Result<String, AllocError>
    ensures { IfOk result (λ shown. string_bytes shown ≡ or_none_text (string_bytes text)) }
{
    if text.is_empty() {
        String::from_str(alloc, "none\n")
    } else {
        Ok(text)
    }
}

/// The dump line of each replica of the network.
pub fn dump_lines(alloc: Global, net: &Net) -> Result<String, AllocError>
    ensures { IfOk result (λ text. string_bytes text ≡ dumps_text net.now.names net.now.history.now.states) }
{
    let mut text = String::new(alloc);
    let count = net.names().len() as u16;
    for p in 0..count {
        let Ok(dump) = dump_replica(alloc, net, p) else {
            return Err(AllocError);
        };
        text.push_str(dump.as_str())?;
    }
    Ok(text)
}
