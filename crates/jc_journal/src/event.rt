//! The line of an event that was made: the crate's main call.

ghost use Rattle.std.specs.Prelude.{◌≡◌, ◌≤◌, ◌∷◌, [], ℕ, List, IfOk, OnOk, codes, flat_map, length, option_copied, option_map};
ghost use Rattle.json.specs.Json.{string};
ghost use Rattle.json.specs.Token as T;
ghost use Rattle.json.specs.Tree.{items_tokens};
ghost use Rattle.jc_rules.specs.declared.limits.TheConstants.{MAX_REPLICAS};
ghost use Rattle.jc_rules.specs.declared.rule.Rule.{Rule as AnyRule};
ghost use Rattle.jc_rules.specs.Runs.{run_rows, rows_of_all};
ghost use Rattle.jc_rules.specs.declared.operation.Event.{Event as AnyEvent};
ghost use Rattle.jc_rules.specs.Step.{Network as AnyNetwork, StepIn};
ghost use Rattle.jc_syntax.specs.Trees.{cmd_of};
ghost use Rattle.jc_printer.specs.Canon.{AreNamed, canon_cmd};
ghost use Rattle.jc_json.specs.Gains.{Gains};
ghost use Rattle.jc_journal.specs.EventLine.{IsBeforeLast, event_op, sender_member, new_member, op_member, effects_member, rule_items, rules_member, members_line, event_line};
ghost use Rattle.jc_journal.specs.Parts.{member_tokens, row_tokens, rows_of, differences_at, step_command, step_new, step_op, step_members};

use crate::members::{
    begin_line, end_line, write_event, write_given, write_kind, write_number, write_replica,
    write_text,
};
use crate::operation::{write_ids_of, write_op};
use jc_effects::{Effects, write_effects};
use jc_json::write_ids;
use jc_network::Net;
use jc_printer::push_cmd;
use jc_replica::LastStep;
use jc_rules::{Event, Id, Op, Rule, Run, Text, name_at};
use jc_syntax::Cmd;
use json::Writer;
use std::alloc::{AllocError, Global};

/// An event of a scenario, with its number.
#[derive(Clone, Copy, PartialEq, Eq)]
pub struct NumberedEvent {
    pub event: Event,
    /// Its number, from 1, in the schedule or among the given events.
    pub number: u64,
    /// Whether it is one of the given events.
    pub given: bool,
}

/// What an event's line tells, beside what its replica has.
#[derive(Clone, Copy)]
struct Told<'a> {
    numbered: &'a NumberedEvent,
    step: Option<LastStep<'a>>,
    rules: Option<&'a [Run]>,
    effects: Option<&'a Effects>,
}

/// Writes the canonical text of a command that ran.
fn write_text_of(alloc: Global, command: &Cmd, out: &mut Writer) -> Result<(), AllocError>
    ensures { OnOk result (Gains out.old out.new
        (member_tokens ((codes "command", string (canon_cmd (cmd_of command.now))) ∷ []))) }
{
    let mut text = String::new(alloc);
    push_cmd(&mut text, command)?;
    write_text("command", text.as_str(), out)
}

/// Writes the command that ran.
fn write_command(
    alloc: Global,
    step: Option<LastStep<'_>>,
    out: &mut Writer,
) -> Result<(), AllocError>
    ensures { OnOk result (Gains out.old out.new (member_tokens (step_command step.entry))) }
{
    match step {
        Some(LastStep::Bound(command)) => write_text_of(alloc, command, out),
        Some(LastStep::Made { command, .. }) => write_text_of(alloc, command, out),
        _ => Ok(()),
    }
}

/// Writes the name of the replica from which the event received.
fn write_sender(names: &[Text], event: &Event, out: &mut Writer) -> Result<(), AllocError>
    ensures { OnOk result (Gains out.old out.new (member_tokens (sender_member names.now event.now))) }
{
    match event {
        Event::Recv(_, from) => write_text("from", name_at(names, *from), out),
        Event::Take(_, from, _) => write_text("from", name_at(names, *from), out),
        Event::Exec(_) | Event::Send(_) | Event::Apply(_, _) | Event::Done(_) => Ok(()),
    }
}

/// Writes the identifiers of the operations that came to what the replica offers or received.
fn write_new(
    alloc: Global,
    names: &[Text],
    step: Option<LastStep<'_>>,
    out: &mut Writer,
) -> Result<(), AllocError>
    ensures { OnOk result (Gains out.old out.new (member_tokens (new_member names.now (step_new step.entry)))) }
{
    match step {
        Some(LastStep::Sent(ops)) => {
            out.key("new")?;
            write_ids_of(alloc, names, ops, out)
        }
        Some(LastStep::Received(ids)) => {
            out.key("new")?;
            write_ids(alloc, names, ids, out)
        }
        _ => Ok(()),
    }
}

/// The operation that the step made or applied.
pub(crate) fn op_of(step: Option<LastStep<'_>>) -> Option<&Op>
    ensures { option_copied result ≡ step_op step.entry }
{
    match step {
        Some(LastStep::Made { op, .. }) => Some(op),
        Some(LastStep::Applied(op)) => Some(op),
        _ => None,
    }
}

/// The identifier of the operation that the network's last event made or applied, where it has one. It takes no memory.
pub fn event_op_id(net: &Net) -> Option<Id>
    ensures { (old : AnyNetwork) (event : AnyEvent) (rows : List (AnyRule × ℕ))
        → IsBeforeLast old net.now.history
        → (made : StepIn old event net.now.history.now rows)
        → result ≡ option_map (λ o. o.id) (event_op event made.step.before made.step.after) }
{
    let op = op_of(net.last_step())?;
    Some(op.id)
}

/// Writes an operation as the member `op`, if there is one.
fn write_op_member(
    alloc: Global,
    names: &[Text],
    op: Option<&Op>,
    out: &mut Writer,
) -> Result<(), AllocError>
    requires { length names.now ≤ MAX_REPLICAS }
    ensures { OnOk result (Gains out.old out.new
        (member_tokens (op_member names.now (option_copied op.entry)))) }
{
    match op {
        Some(op) => {
            out.key("op")?;
            write_op(alloc, names, op, out)
        }
        None => Ok(()),
    }
}

/// Writes what the event changed in its replica's tree, where it is told.
fn write_effects_member(
    alloc: Global,
    names: &[Text],
    effects: Option<&Effects>,
    out: &mut Writer,
) -> Result<(), AllocError>
    ensures { OnOk result (Gains out.old out.new
        (member_tokens (effects_member names.now (differences_at effects.entry)))) }
{
    match effects {
        Some(effects) => {
            out.key("effects")?;
            write_effects(alloc, names, effects, out)
        }
        None => Ok(()),
    }
}

/// Writes a rule: its depth, then its name.
fn write_rule(rule: Rule, depth: u64, out: &mut Writer) -> Result<(), AllocError>
    ensures { OnOk result (Gains out.old out.new (row_tokens (rule, depth))) }
{
    out.begin_array()?;
    out.u64(depth)?;
    out.string(rule.name())?;
    out.end_array()
}

/// Writes the rules of a run.
fn write_run(run: &Run, out: &mut Writer) -> Result<(), AllocError>
    ensures { OnOk result (Gains out.old out.new (flat_map row_tokens (run_rows run.now))) }
{
    for i in 0..run.count {
        write_rule(run.rule, run.depth + u64::from(i), out)?;
    }
    Ok(())
}

/// Writes the rules of a trace as a list.
fn write_rows(runs: &[Run], out: &mut Writer) -> Result<(), AllocError>
    ensures { OnOk result (Gains out.old out.new (T.begin_array ∷ items_tokens (rule_items (rows_of_all runs.now)))) }
{
    out.begin_array()?;
    for run in runs {
        write_run(run, out)?;
    }
    out.end_array()
}

/// Writes the rules of the event, where they are asked for.
fn write_rules(rules: Option<&[Run]>, out: &mut Writer) -> Result<(), AllocError>
    ensures { OnOk result (Gains out.old out.new (member_tokens (rules_member (rows_of rules.entry)))) }
{
    match rules {
        Some(rules) => {
            out.key("rules")?;
            write_rows(rules, out)
        }
        None => Ok(()),
    }
}

/// Writes the members of an event's line.
fn write_members(
    alloc: Global,
    names: &[Text],
    told: &Told<'_>,
    out: &mut Writer,
) -> Result<(), AllocError>
    requires few { length names.now ≤ MAX_REPLICAS }
    requires named { AreNamed told.now.numbered.now.event (length names.now) }
    ensures { OnOk result (Gains out.old out.new (member_tokens
        (step_members names.now told.now.numbered.now.given told.now.numbered.now.number told.now.numbered.now.event
        (rows_of told.now.rules) (differences_at told.now.effects) told.now.step))) }
{
    let event = &told.numbered.event;
    write_command(alloc, told.step, out)?;
    write_effects_member(alloc, names, told.effects, out)?;
    write_event(alloc, names, event, out)?;
    write_sender(names, event, out)?;
    write_given(told.numbered.given, out)?;
    write_kind(event, out)?;
    write_new(alloc, names, told.step, out)?;
    write_number(told.numbered.number, out)?;
    write_op_member(alloc, names, op_of(told.step), out)?;
    write_replica(names, event, out)?;
    write_rules(told.rules, out)
}

/// The line of an event.
fn line_of(alloc: Global, names: &[Text], told: &Told<'_>) -> Result<Vec<u8>, AllocError>
    requires few { length names.now ≤ MAX_REPLICAS }
    requires named { AreNamed told.now.numbered.now.event (length names.now) }
    ensures { IfOk result (λ line. line.items ≡ members_line
        (step_members names.now told.now.numbered.now.given told.now.numbered.now.number told.now.numbered.now.event
        (rows_of told.now.rules) (differences_at told.now.effects) told.now.step)) }
{
    let mut out = begin_line(alloc)?;
    write_members(alloc, names, told, &mut out)?;
    end_line(out)
}

/// The line, with its line feed, of the event that was the network's last step, and can be taken back still. With
/// `rules` the line has those of its trace, and with `effects` what it changed in its replica's tree (`event_effects`).
/// Nothing but memory is refused.
pub fn event_line(
    alloc: Global,
    net: &Net,
    numbered: &NumberedEvent,
    rules: Option<&[Run]>,
    effects: Option<&Effects>,
) -> Result<Vec<u8>, AllocError>
    requires { AreNamed numbered.now.event (length net.now.names) }
    ensures { IfOk result (λ line.
        (old : AnyNetwork) (rows : List (AnyRule × ℕ))
        → IsBeforeLast old net.now.history
        → (made : StepIn old numbered.now.event net.now.history.now rows)
        → line.items ≡ event_line net.now.names numbered.now.given numbered.now.number numbered.now.event
        (rows_of rules.entry) (differences_at effects.entry) made.step.before made.step.after) }
{
    let names = net.names();
    let told = Told {
        numbered,
        step: net.last_step(),
        rules,
        effects,
    };
    line_of(alloc, names, &told)
}
