//! Writes the members that the lines of made and of stuck events have in common, and begins and ends a line. `event`
//! and `stuck` call it.

ghost use Rattle.std.specs.Prelude.{◌≡◌, ◌∷◌, ◌++◌, [], IfOk, OnOk, length, decimal};
ghost use Rattle.json.specs.Json.{number, string};
ghost use Rattle.json.specs.Print.{print};
ghost use Rattle.json.specs.Token as T;
ghost use Rattle.jc_printer.specs.Canon.{AreNamed};
ghost use Rattle.jc_json.specs.Gains.{Gains};
ghost use Rattle.jc_journal.specs.EventLine.{event_kind, event_member, given_member, kind_member, number_member, replica_member};
ghost use Rattle.jc_journal.specs.Parts.{member_tokens};

use jc_printer::print_event;
use jc_rules::{Event, Text, name_at};
use json::Writer;
use std::alloc::{AllocError, Global};

/// Begins the object of a line.
pub(crate) fn begin_line(alloc: Global) -> Result<Writer, AllocError>
    ensures before { IfOk result (λ out. out.before ≡ []) }
    ensures tokens { IfOk result (λ out. out.tokens ≡ T.begin_object ∷ []) }
{
    let mut out = Writer::new(Vec::new(alloc));
    out.begin_object()?;
    Ok(out)
}

/// Ends the object of a line, and the line.
pub(crate) fn end_line(mut out: Writer) -> Result<Vec<u8>, AllocError>
    ensures { IfOk result (λ line. line.items
        ≡ (out.before ++ print (out.tokens ++ T.end_object ∷ [])) ++ 10 ∷ []) }
{
    out.end_object()?;
    let mut line = out.into_inner();
    line.push(b'\n')?;
    Ok(line)
}

/// Writes a member whose value is a text.
pub(crate) fn write_text(name: &str, text: &str, out: &mut Writer) -> Result<(), AllocError>
    ensures { OnOk result (Gains out.old out.new (member_tokens ((name.now, string text.now) ∷ []))) }
{
    out.key(name)?;
    out.string(text)
}

/// Writes a member whose value is a number.
pub(crate) fn write_count(name: &str, count: u64, out: &mut Writer) -> Result<(), AllocError>
    ensures { OnOk result (Gains out.old out.new (member_tokens ((name.now, number (decimal count)) ∷ []))) }
{
    out.key(name)?;
    out.u64(count)
}

/// Writes the event's text.
pub(crate) fn write_event(
    alloc: Global,
    names: &[Text],
    event: &Event,
    out: &mut Writer,
) -> Result<(), AllocError>
    requires { AreNamed event.now (length names.now) }
    ensures { OnOk result (Gains out.old out.new (member_tokens (event_member names.now event.now ∷ []))) }
{
    let text = print_event(alloc, names, event)?;
    write_text("event", text.as_str(), out)
}

/// Writes that the event is a given one, if it is.
pub(crate) fn write_given(given: bool, out: &mut Writer) -> Result<(), AllocError>
    ensures { OnOk result (Gains out.old out.new (member_tokens (given_member given))) }
{
    if !given {
        return Ok(());
    }
    out.key("given")?;
    out.boolean(true)
}

fn event_kind(event: &Event) -> &'static str
    ensures { result.now ≡ event_kind event.now }
{
    match event {
        Event::Exec(_) => "exec",
        Event::Send(_) => "send",
        Event::Recv(_, _) => "recv",
        Event::Take(_, _, _) => "take",
        Event::Apply(_, _) => "apply",
        Event::Done(_) => "done",
    }
}

/// Writes the word of the event.
pub(crate) fn write_kind(event: &Event, out: &mut Writer) -> Result<(), AllocError>
    ensures { OnOk result (Gains out.old out.new (member_tokens (kind_member event.now ∷ []))) }
{
    write_text("kind", event_kind(event), out)
}

/// Writes the number of the event.
pub(crate) fn write_number(number: u64, out: &mut Writer) -> Result<(), AllocError>
    ensures { OnOk result (Gains out.old out.new (member_tokens (number_member number ∷ []))) }
{
    write_count("number", number, out)
}

/// Writes the name of the event's replica.
pub(crate) fn write_replica(
    names: &[Text],
    event: &Event,
    out: &mut Writer,
) -> Result<(), AllocError>
    ensures { OnOk result (Gains out.old out.new (member_tokens (replica_member names.now event.now ∷ []))) }
{
    write_text("replica", name_at(names, event.replica()), out)
}
