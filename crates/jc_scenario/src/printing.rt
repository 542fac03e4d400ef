//! The canonical text of a scenario, which `read` reads back.

ghost use Rattle.std.specs.Prelude.{◌≡◌, ◌++◌, ◌<◌, ◌≤◌, OnOk, IfOk, All, string_bytes, map, length, codes, flat_map};
ghost use Rattle.jc_syntax.specs.Trees.{cmd_of};
ghost use Rattle.jc_printer.specs.Canon.{canon_cmd, canon_event, AreNamed};
ghost use Rattle.jc_scenario.specs.WellFormed.{parts_of, IsWellFormedScenario};
ghost use Rattle.jc_scenario.specs.Canon.{line_of, canon_commands, canon_part, canon_events, header_text, canon_given, canon_schedule, canon};
ghost use Rattle.jc_scenario.specs.Views.{scripts_view, scenario_view};

use crate::scenario::Scenario;
use jc_printer::{print_event, push_cmd};
use jc_rules::{Event, Text, Version};
use jc_syntax::Cmd;
use std::alloc::{AllocError, Global};

/// The canonical text of a scenario. It may be longer than the limit of `read`.
pub fn print(alloc: Global, scenario: &Scenario) -> Result<String, AllocError>
    requires { IsWellFormedScenario (scenario_view scenario.now) }
    ensures { IfOk result (λ text. string_bytes text ≡ canon (scenario_view scenario.now)) }
{
    let mut out = String::from_str(alloc, header(scenario.version))?;
    push_parts(&mut out, &scenario.names, &scenario.scripts)?;
    push_given(
        alloc,
        &mut out,
        scenario.version,
        &scenario.names,
        &scenario.given,
    )?;
    push_schedule(alloc, &mut out, &scenario.names, &scenario.schedule)?;
    Ok(out)
}

/// The first line of a text of the version.
fn header(version: Version) -> &'static str
    ensures { result.now ≡ header_text version }
{
    match version {
        Version::One => "jsoncrdt 1\n",
        Version::Two => "jsoncrdt 2\n",
    }
}

/// The replicas, one after another.
fn push_parts(out: &mut String, names: &[Text], scripts: &[Vec<Cmd>]) -> Result<(), AllocError>
    requires { length scripts.now ≡ length names.now }
    ensures { OnOk result (string_bytes out.new ≡
        string_bytes out.old ++ flat_map canon_part (parts_of names.now (scripts_view scripts.now))) }
{
    for (name, script) in names.iter().zip(scripts) {
        push_part(out, name, script)?;
    }
    Ok(())
}

/// A replica: its name and its commands.
fn push_part(out: &mut String, name: &Text, script: &[Cmd]) -> Result<(), AllocError>
    ensures { OnOk result (string_bytes out.new ≡
        string_bytes out.old ++ canon_part (record { name = name.now; script = map cmd_of script.now })) }
{
    out.push_str("replica ")?;
    out.push_str(name.as_str())?;
    out.push_str(" {\n")?;
    push_commands(out, script)?;
    out.push_str("}\n")
}

fn push_commands(out: &mut String, script: &[Cmd]) -> Result<(), AllocError>
    ensures { OnOk result (string_bytes out.new ≡ string_bytes out.old ++ canon_commands (map cmd_of script.now)) }
{
    for cmd in script {
        push_command(out, cmd)?;
    }
    Ok(())
}

/// A command on a line of its own.
fn push_command(out: &mut String, cmd: &Cmd) -> Result<(), AllocError>
    ensures { OnOk result (string_bytes out.new ≡ string_bytes out.old ++ line_of (canon_cmd (cmd_of cmd.now))) }
{
    out.push_str("  ")?;
    push_cmd(out, cmd)?;
    out.push_str(";\n")
}

/// The given events in version 2. In version 1 there is no block for them.
fn push_given(
    alloc: Global,
    out: &mut String,
    version: Version,
    names: &[Text],
    given: &[Event],
) -> Result<(), AllocError>
    requires { All (λ e. AreNamed e (length names.now)) given.now }
    ensures { OnOk result (string_bytes out.new ≡ string_bytes out.old ++ canon_given version names.now given.now) }
{
    match version {
        Version::One => Ok(()),
        Version::Two => push_block(alloc, out, "given {\n", names, given),
    }
}

fn push_schedule(
    alloc: Global,
    out: &mut String,
    names: &[Text],
    schedule: &[Event],
) -> Result<(), AllocError>
    requires { All (λ e. AreNamed e (length names.now)) schedule.now }
    ensures { OnOk result (string_bytes out.new ≡ string_bytes out.old ++ canon_schedule names.now schedule.now) }
{
    push_block(alloc, out, "schedule {\n", names, schedule)
}

/// Events between the head of their block and its end.
fn push_block(
    alloc: Global,
    out: &mut String,
    head: &str,
    names: &[Text],
    events: &[Event],
) -> Result<(), AllocError>
    requires { All (λ e. AreNamed e (length names.now)) events.now }
    ensures { OnOk result (string_bytes out.new ≡
        string_bytes out.old ++ (head.now ++ canon_events names.now events.now ++ codes "}\n")) }
{
    out.push_str(head)?;
    push_events(alloc, out, names, events)?;
    out.push_str("}\n")?;
    Ok(())
}

fn push_events(
    alloc: Global,
    out: &mut String,
    names: &[Text],
    events: &[Event],
) -> Result<(), AllocError>
    requires { All (λ e. AreNamed e (length names.now)) events.now }
    ensures { OnOk result (string_bytes out.new ≡ string_bytes out.old ++ canon_events names.now events.now) }
{
    for event in events {
        push_event(alloc, out, names, event)?;
    }
    Ok(())
}

/// An event on a line of its own.
fn push_event(
    alloc: Global,
    out: &mut String,
    names: &[Text],
    event: &Event,
) -> Result<(), AllocError>
    requires { AreNamed event.now (length names.now) }
    ensures { OnOk result (string_bytes out.new ≡ string_bytes out.old ++ line_of (canon_event names.now event.now)) }
{
    let text = print_event(alloc, names, event)?;
    write!(out, "  {text};\n")
}
