//! The text of a trace, and the lines of stuck events.

ghost use Rattle.std.specs.Prelude.{◌≡◌, ◌++◌, IfOk, string_bytes, codes, decimal};
ghost use Rattle.jc_rules.specs.declared.operation.Event.{Event as AnyEvent};
ghost use Rattle.jc_rules.specs.Refused.{Cause};
ghost use Rattle.jc_network.specs.Steps.{stuck_for};
ghost use Rattle.jc_dump.specs.Lines.{trace_text, stuck_text, IsNamedStuck};

use crate::bytes::into_text;
use crate::rows::push_rows;
use jc_json::tagged_text;
use jc_network::{Net, Stuck};
use jc_printer::print_event;
use jc_rules::{Text, Trace};
use std::alloc::{AllocError, Global};

/// Returns the text of a trace: a line for each rule, with its depth and its name.
pub fn trace_text(alloc: Global, trace: &Trace) -> Result<String, AllocError>
    ensures { IfOk result (λ text. string_bytes text ≡ trace_text trace.now.rows) }
{
    let mut lines = Vec::new(alloc);
    push_rows(&mut lines, trace.runs())?;
    Ok(into_text(lines))
}

/// Returns the line of an event that is stuck in the network.
pub fn stuck_text(alloc: Global, net: &Net, stuck: &Stuck) -> Result<String, AllocError>
    requires { IsNamedStuck net.now.names stuck.now }
    ensures { IfOk result (λ text.
        (why : Cause) (event : AnyEvent)
        → stuck.now ≡ stuck_for why event
        → string_bytes text ≡ stuck_text net.now.names why event) }
{
    named_stuck_text(alloc, net.names(), stuck)
}

/// Returns the line of a stuck event. The list of names has the name of each replica at its number.
pub(crate) fn named_stuck_text(
    alloc: Global,
    names: &[Text],
    stuck: &Stuck,
) -> Result<String, AllocError>
    requires { IsNamedStuck names.now stuck.now }
    ensures { IfOk result (λ text.
        (why : Cause) (event : AnyEvent)
        → stuck.now ≡ stuck_for why event
        → string_bytes text ≡ stuck_text names.now why event) }
{
    let event = print_event(alloc, names, &stuck.event)?;
    let refusal = stuck.refusal;
    match &stuck.key {
        Some(key) => {
            let key = tagged_text(alloc, names, key)?;
            absent_line(
                alloc,
                refusal.number(),
                refusal.name(),
                key.as_str(),
                event.as_str(),
            )
        }
        None => stuck_line(alloc, refusal.number(), refusal.name(), event.as_str()),
    }
}

/// The line of a stuck event whose refusal has no tagged key.
fn stuck_line(alloc: Global, number: u8, cause: &str, event: &str) -> Result<String, AllocError>
    ensures { IfOk result (λ text.
        string_bytes text
        ≡ codes "stuck " ++ decimal number ++ codes " " ++ cause.now ++ codes " " ++ event.now ++ codes "\n") }
{
    format!(in alloc; "stuck {number} {cause} {event}\n")
}

/// The line of a stuck event, with the tagged key that isn't there.
fn absent_line(
    alloc: Global,
    number: u8,
    cause: &str,
    key: &str,
    event: &str,
) -> Result<String, AllocError>
    ensures { IfOk result (λ text.
        string_bytes text
        ≡ codes "stuck " ++ decimal number ++ codes " " ++ cause.now ++ codes " " ++ key.now ++ codes " " ++ event.now
        ++ codes "\n") }
{
    format!(in alloc; "stuck {number} {cause} {key} {event}\n")
}
