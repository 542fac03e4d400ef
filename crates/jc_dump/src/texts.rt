//! Trace blocks, the lines of refused texts, and the lines of a given event that is stuck.

ghost use Rattle.std.specs.Prelude.{◌≡◌, ◌++◌, IfOk, OnOk, OnErr, length, string_bytes, codes, decimal, IsUtf8};
ghost use Rattle.jc_rules.specs.declared.operation.Event.{Event as AnyEvent};
ghost use Rattle.jc_rules.specs.Refused.{Cause};
ghost use Rattle.jc_rules.specs.Runs.{rows_of_all};
ghost use Rattle.jc_printer.specs.Canon.{AreNamed};
ghost use Rattle.jc_network.specs.Steps.{stuck_for};
ghost use Rattle.jc_dump.specs.Bytes.{BeginsWith};
ghost use Rattle.jc_dump.specs.Lines.{IsNamedStuck};
ghost use Rattle.jc_dump.specs.Texts.{block_text, given_text, refused_text};

use crate::bytes::{into_text, push_text};
use crate::lines::named_stuck_text;
use crate::rows::push_rows;
use itoa::Buffer;
use jc_network::Stuck;
use jc_printer::print_event;
use jc_rules::{Event, Refusal, Run, Text};
use jc_scenario::Scenario;
use std::alloc::{AllocError, Global};

/// Returns the trace block of an event: a line with its number and the event, and a line for each row of its trace,
/// whose runs these are.
pub fn block_text(
    alloc: Global,
    names: &[Text],
    n: u64,
    event: &Event,
    runs: &[Run],
) -> Result<String, AllocError>
    requires { AreNamed event.now (length names.now) }
    ensures { IfOk result (λ text. string_bytes text ≡ block_text names.now n event.now (rows_of_all runs.now)) }
{
    let mut block = Vec::new(alloc);
    push_block(&mut block, names, n, event, runs)?;
    Ok(into_text(block))
}

/// Appends the trace block of an event. A refusal leaves the bytes as they were.
pub fn push_block(
    out: &mut Vec<u8>,
    names: &[Text],
    n: u64,
    event: &Event,
    runs: &[Run],
) -> Result<(), AllocError>
    requires { AreNamed event.now (length names.now) }
    ensures ok { OnOk result (out.new.items ≡ out.old.items ++ block_text names.now n event.now (rows_of_all runs.now)) }
    ensures err { OnErr result (out.new.items ≡ out.old.items) }
    ensures utf8 { IsUtf8 out.old.items → IsUtf8 out.new.items }
{
    let before = out.len();
    match write_block(out, names, n, event, runs) {
        Ok(()) => Ok(()),
        Err(error) => {
            out.truncate(before);
            Err(error)
        }
    }
}

/// Appends the trace block of an event. After a refusal a part of it may be there.
fn write_block(
    out: &mut Vec<u8>,
    names: &[Text],
    n: u64,
    event: &Event,
    runs: &[Run],
) -> Result<(), AllocError>
    requires { AreNamed event.now (length names.now) }
    ensures block { OnOk result (out.new.items ≡ out.old.items ++ block_text names.now n event.now (rows_of_all runs.now)) }
    ensures begins { BeginsWith out.old.items out.new.items }
    ensures utf8 { IsUtf8 out.old.items → IsUtf8 out.new.items }
{
    let event = print_event(*out.allocator(), names, event)?;
    push_head(out, n, event.as_str())?;
    push_rows(out, runs)?;
    Ok(())
}

/// Appends the first line of a trace block. After a refusal a part of it may be there.
fn push_head(out: &mut Vec<u8>, n: u64, event: &str) -> Result<(), AllocError>
    ensures line { OnOk result (out.new.items
        ≡ out.old.items ++ codes "event " ++ decimal n ++ codes " " ++ event.now ++ codes "\n") }
    ensures begins { BeginsWith out.old.items out.new.items }
    ensures utf8 { IsUtf8 out.old.items → IsUtf8 out.new.items }
{
    let mut buffer = Buffer::new();
    push_text(out, "event ")?;
    push_text(out, buffer.format(n))?;
    push_text(out, " ")?;
    push_text(out, event)?;
    push_text(out, "\n")?;
    Ok(())
}

/// Returns the line of a text that is refused at the offset `place`.
pub fn refused_text(alloc: Global, refusal: Refusal, place: usize) -> Result<String, AllocError>
    ensures { IfOk result (λ text. string_bytes text ≡ refused_text refusal place) }
{
    refused_line(alloc, refusal.number(), refusal.name(), place)
}

/// Returns the two lines of a scenario that has no start: `at` is the number, from 1, of the first given event that is
/// stuck. The names of replicas are the scenario's.
pub fn given_text(
    alloc: Global,
    scenario: &Scenario,
    at: u64,
    stuck: &Stuck,
) -> Result<String, AllocError>
    requires { IsNamedStuck scenario.now.names.items stuck.now }
    ensures { IfOk result (λ text.
        (why : Cause) (event : AnyEvent)
        → stuck.now ≡ stuck_for why event
        → string_bytes text ≡ given_text scenario.now.names.items at why event) }
{
    named_given_text(alloc, scenario.names.as_slice(), at, stuck)
}

/// Returns the same two lines, for who has the scenario's names alone. The list of names has the name of each replica
/// at its number.
pub fn named_given_text(
    alloc: Global,
    names: &[Text],
    at: u64,
    stuck: &Stuck,
) -> Result<String, AllocError>
    requires { IsNamedStuck names.now stuck.now }
    ensures { IfOk result (λ text.
        (why : Cause) (event : AnyEvent)
        → stuck.now ≡ stuck_for why event
        → string_bytes text ≡ given_text names.now at why event) }
{
    let mut text = refused_text(alloc, Refusal::GivenStuck, at as usize)?;
    let line = named_stuck_text(alloc, names, stuck)?;
    text.push_str(line.as_str())?;
    Ok(text)
}

/// Puts the line of a refused text together from its parts.
fn refused_line(alloc: Global, number: u8, cause: &str, place: usize) -> Result<String, AllocError>
    ensures { IfOk result (λ text.
        string_bytes text
        ≡ codes "refused " ++ decimal number ++ codes " " ++ cause.now ++ codes " at " ++ decimal place
        ++ codes "\n") }
{
    format!(in alloc; "refused {number} {cause} at {place}\n")
}
