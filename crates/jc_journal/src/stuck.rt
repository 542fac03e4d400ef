//! The line of an event that is stuck: why it is, and for two refusals which replicas or operations would help.

ghost use Rattle.std.specs.Prelude.{◌≡◌, ◌&&◌, ◌||◌, not, Some, IfOk, OnOk, slice_get};
ghost use Rattle.json.specs.Json.{string};
ghost use Rattle.json.specs.Tree.{json_tokens};
ghost use Rattle.jc_rules.specs.declared.id.Id.{Id as AnyId};
ghost use Rattle.jc_rules.specs.Ids.{AreRising, has_id};
ghost use Rattle.jc_rules.specs.Refused.{Cause};
ghost use Rattle.jc_rules.specs.State.{State};
ghost use Rattle.jc_replica.specs.Operations.{identifiers, AreInOrder};
ghost use Rattle.jc_network.specs.Steps.{stuck_for};
ghost use Rattle.jc_dump.specs.Lines.{IsNamedStuck};
ghost use Rattle.jc_json.specs.Gains.{Gains};
ghost use Rattle.jc_json.specs.Values.{strings_json};
ghost use Rattle.jc_journal.specs.StuckLine.{wanted_id, key_member, offering_from, offered_member, missing_ids, missing_member, stuck_event_line};
ghost use Rattle.jc_journal.specs.Parts.{member_tokens, name_tokens, IsMissingOf, told_members};

use crate::members::{
    begin_line, end_line, write_count, write_event, write_given, write_kind, write_number,
    write_replica, write_text,
};
use jc_json::{tagged_text, write_ids};
use jc_network::{Net, Stuck};
use jc_replica::find;
use jc_rules::{Event, Id, IdSet, Op, Refusal, Tagged, Text, insert_id, name_at};
use json::Writer;
use std::alloc::{AllocError, Global};

/// Writes the tagged key of a node that isn't there, if there is one.
fn write_key(
    alloc: Global,
    names: &[Text],
    key: &Option<Tagged>,
    out: &mut Writer,
) -> Result<(), AllocError>
    ensures { OnOk result (Gains out.old out.new (member_tokens (key_member names.now key.now))) }
{
    match key {
        Some(key) => {
            let text = tagged_text(alloc, names, key)?;
            write_text("key", text.as_str(), out)
        }
        None => Ok(()),
    }
}

/// The operation that the event receives or applies.
fn wanted_id(event: &Event) -> Option<Id>
    ensures { result ≡ wanted_id event.now }
{
    match event {
        Event::Take(_, _, id) => Some(*id),
        Event::Apply(_, id) => Some(*id),
        Event::Exec(_) | Event::Send(_) | Event::Recv(_, _) | Event::Done(_) => None,
    }
}

/// Whether an operation has the identifier.
fn has(ops: &[Op], id: Id) -> bool
    requires { AreInOrder ops.now }
    ensures { result ≡ has_id id (identifiers ops.now) }
{
    find(ops, id).is_some()
}

/// Writes the name of the replica, if it is there and offers the operation.
fn write_if_offering(net: &Net, p: u16, id: Id, out: &mut Writer) -> Result<(), AllocError>
    ensures { OnOk result ((A : State) → slice_get net.now.history.now.states p ≡ Some A
        → Gains out.old out.new (name_tokens net.now.names p id A)) }
{
    let Some(replica) = net.replica(p) else {
        return Ok(());
    };
    if !has(replica.sent(), id) {
        return Ok(());
    }
    out.string(name_at(net.names(), p))
}

/// Writes the names of the replicas that offer the operation, as a list.
fn write_offering(net: &Net, id: Id, out: &mut Writer) -> Result<(), AllocError>
    ensures { OnOk result (Gains out.old out.new
        (json_tokens (strings_json (offering_from 0 net.now.names id net.now.history.now.states)))) }
{
    let count = net.names().len() as u16;
    out.begin_array()?;
    for p in 0..count {
        write_if_offering(net, p, id, out)?;
    }
    out.end_array()
}

/// Writes which replicas offer the operation, where the refusal is that it isn't received.
fn write_offered(net: &Net, refusal: u8, event: &Event, out: &mut Writer) -> Result<(), AllocError>
    ensures { OnOk result (Gains out.old out.new (member_tokens
        (offered_member net.now.names refusal (wanted_id event.now) net.now.history.now.states))) }
{
    let Some(id) = wanted_id(event) else {
        return Ok(());
    };
    if refusal != Refusal::NotReceived.number() {
        return Ok(());
    }
    out.key("offered")?;
    write_offering(net, id, out)
}

/// Adds those of the operations that are in the one set and not in the other.
fn add_missing(
    ids: &mut Vec<Id>,
    made: &[Op],
    deps: &IdSet,
    applied: &IdSet,
) -> Result<(), AllocError>
    requires { AreRising ids.old.items }
    ensures rises { OnOk result (AreRising ids.new.items) }
    ensures added { OnOk result ((k : AnyId) → has_id k ids.new.items
        ≡ has_id k ids.old.items || (has_id k (identifiers made.now)
        && (has_id k deps.now && not (has_id k applied.now)))) }
{
    for op in made {
        if deps.contains(op.id) && !applied.contains(op.id) {
            insert_id(ids, op.id)?;
        }
    }
    Ok(())
}

/// The identifiers of the operations made that are in the one set and not in the other, rising.
fn made_missing(
    alloc: Global,
    net: &Net,
    deps: &IdSet,
    applied: &IdSet,
) -> Result<Vec<Id>, AllocError>
    ensures { IfOk result (λ ids. IsMissingOf net.now.history.now.states deps.now applied.now ids.items) }
{
    let mut ids = Vec::new(alloc);
    let count = net.names().len() as u16;
    for p in 0..count {
        match net.replica(p) {
            Some(replica) => add_missing(&mut ids, replica.queue(), deps, applied)?,
            None => unreachable!(),
        }
    }
    Ok(ids)
}

/// What the received operation depends on and the replica has not applied, rising.
fn missing_of(alloc: Global, net: &Net, p: u16, id: Id) -> Result<Vec<Id>, AllocError>
    ensures { IfOk result (λ ids. ids.items ≡ missing_ids (slice_get net.now.history.now.states p) id) }
{
    // For its contract: events have led to the network from a start.
    let _steps = net.steps();
    let Some(replica) = net.replica(p) else {
        return Ok(Vec::new(alloc));
    };
    match find(replica.received(), id) {
        Some(op) => made_missing(alloc, net, &op.deps, replica.ops()),
        None => Ok(Vec::new(alloc)),
    }
}

/// Writes the identifiers that are missing, where the refusal is that dependencies are.
fn write_missing(
    alloc: Global,
    net: &Net,
    refusal: u8,
    event: &Event,
    out: &mut Writer,
) -> Result<(), AllocError>
    ensures { OnOk result (Gains out.old out.new (member_tokens
        (missing_member net.now.names refusal event.now net.now.history.now.states))) }
{
    let Event::Apply(p, id) = event else {
        return Ok(());
    };
    if refusal != Refusal::DepsMissing.number() {
        return Ok(());
    }
    let ids = missing_of(alloc, net, *p, *id)?;
    out.key("missing")?;
    write_ids(alloc, net.names(), ids.as_slice(), out)
}

/// Writes the members of a stuck event's line.
fn write_members(
    alloc: Global,
    net: &Net,
    number: u64,
    given: bool,
    stuck: &Stuck,
    out: &mut Writer,
) -> Result<(), AllocError>
    requires { IsNamedStuck net.now.names stuck.now }
    ensures { OnOk result (Gains out.old out.new (member_tokens
        (told_members net.now.names given number net.now.history.now.states stuck.now))) }
{
    let names = net.names();
    let event = &stuck.event;
    write_text("cause", stuck.refusal.name(), out)?;
    write_event(alloc, names, event, out)?;
    write_given(given, out)?;
    write_key(alloc, names, &stuck.key, out)?;
    write_kind(event, out)?;
    write_missing(alloc, net, stuck.number, event, out)?;
    write_number(number, out)?;
    write_offered(net, stuck.number, event, out)?;
    write_replica(names, event, out)?;
    write_count("stuck", u64::from(stuck.number), out)
}

/// The line, with its line feed, of an event that is stuck in the network. `number` is the event's, from 1; `given` is
/// whether it is a given event. Nothing but memory is refused.
pub fn stuck_line(
    alloc: Global,
    net: &Net,
    number: u64,
    given: bool,
    stuck: &Stuck,
) -> Result<Vec<u8>, AllocError>
    requires { IsNamedStuck net.now.names stuck.now }
    ensures { IfOk result (λ line. (why : Cause)
        → stuck.now ≡ stuck_for why stuck.now.event
        → line.items ≡ stuck_event_line net.now.names given number net.now.history.now.states why stuck.now.event) }
{
    let mut out = begin_line(alloc)?;
    write_members(alloc, net, number, given, stuck, &mut out)?;
    end_line(out)
}
