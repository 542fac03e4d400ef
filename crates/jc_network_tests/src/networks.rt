//! Tests of calls of networks: replicas that aren't there, networks that are full, and the events that can be made.

use crate::nets::{
    DELETION, DELETION_IN_TWO, FIRST, INSERTS, MEETING, ONE, SECOND_OF_A, SECOND_OF_B, STUCK_GIVEN,
    YIELD, holds, number_of, scene, stuck_given,
};
use crate::turns::{Turn, in_network};
use jc_dump::dump_replica;
use jc_meaning::compare;
use jc_network::{CompareFault, Net};
use jc_rules::{Event, Id, Version};
use std::alloc::{AllocError, Global};
use std::process::Abort;
use std::test::Fail;

/// Each event of a replica that isn't there is refused, also one that the version hasn't. Of a replica that is there,
/// such an event is refused for that.
fn events_are_refused(rt: &impl Abort, net: &mut Net) {
    for event in [
        Event::Exec(5),
        Event::Recv(5, 0),
        Event::Recv(0, 5),
        Event::Take(5, 0, FIRST),
        Event::Take(0, 5, FIRST),
        Event::Take(5, 5, FIRST),
    ] {
        holds(rt, number_of(net, &event) == 37);
    }
    holds(rt, number_of(net, &Event::Take(0, 0, FIRST)) == 39);
}

fn are_compared(alloc: Global, net: &Net, p: u16, q: u16) -> bool {
    !matches!(compare(alloc, net, p, q), Err(CompareFault::NoSuchReplica))
}

fn is_dumped(alloc: Global, net: &Net, p: u16) -> bool {
    !matches!(
        dump_replica(alloc, net, p),
        Err(CompareFault::NoSuchReplica)
    )
}

/// Each call that asks for a replica by its number is refused where it isn't there.
pub fn missing_replicas(rt: &impl Abort, alloc: Global, net: &mut Net) {
    events_are_refused(rt, net);
    holds(
        rt,
        matches!(net.applied(5), Err(CompareFault::NoSuchReplica)),
    );
    holds(
        rt,
        matches!(net.applied_ids(5), Err(CompareFault::NoSuchReplica)),
    );
    holds(rt, !is_dumped(alloc, net, 1));
    holds(rt, !are_compared(alloc, net, 0, 9));
    holds(rt, !are_compared(alloc, net, 1, 0));
    holds(rt, net.replica(5).is_none());
}

#[test]
fn replicas_are_missing(rt: HostRuntime) -> Result<(), Fail> {
    for text in [ONE, YIELD] {
        in_network(&rt, rt.alloc(), text, &[], &Turn::MissingReplicas)?;
    }
    Ok(())
}

fn send(rt: &impl Abort, net: &mut Net, times: u64) {
    for _ in 0..times {
        holds(rt, number_of(net, &Event::Send(0)) == 0);
    }
}

/// A network takes 100,000 events, and no more until one is taken back.
pub fn takes_100_000(rt: &impl Abort, net: &mut Net) {
    send(rt, net, 100_000);
    holds(rt, number_of(net, &Event::Send(0)) == 38);
    holds(rt, number_of(net, &Event::Exec(5)) == 38);
    holds(rt, net.steps() == 100_000 && net.undo());
    send(rt, net, 1);
}

#[test]
fn full(rt: HostRuntime) -> Result<(), Fail> {
    in_network(&rt, rt.alloc(), YIELD, &[], &Turn::Full)
}

/// A replica that yields, and has sent 100,000 times before its start.
fn given_sends(alloc: Global) -> Result<String, AllocError> {
    let mut text = String::from_str(alloc, "jsoncrdt 2 replica a { yield } given { ")?;
    for _ in 0..100_000 {
        text.push_str("a.send;")?;
    }
    text.push_str(" }")?;
    Ok(text)
}

/// No given event is counted, nor taken back.
pub fn counts_none_given(rt: &impl Abort, net: &mut Net) {
    holds(rt, net.steps() == 0 && !net.undo());
    takes_100_000(rt, net);
    holds(rt, net.version() == Version::Two);
}

#[test]
fn given_events_are_not_counted(rt: HostRuntime) -> Result<(), Fail> {
    let text = given_sends(rt.alloc())?;
    in_network(
        &rt,
        rt.alloc(),
        text.as_str(),
        &[],
        &Turn::NoneGivenIsCounted,
    )
}

/// The first given event that is stuck has its number from 1.
#[test]
fn a_given_event_is_stuck(rt: HostRuntime) -> Result<(), Fail> {
    let scenario = scene(rt.alloc(), STUCK_GIVEN)?;
    holds(&rt, stuck_given(rt.alloc(), &scenario) == (2, 30));
    Ok(())
}

/// In a network of version 1 each take of replicas that are there is refused for the version, whether a yield is next
/// or a command, and whether the operation is offered or not. Nothing changes.
pub fn takes_are_refused(rt: &impl Abort, net: &mut Net) {
    let steps = net.steps();
    for event in [
        Event::Take(0, 0, FIRST),
        Event::Take(0, 1, FIRST),
        Event::Take(1, 0, FIRST),
        Event::Take(1, 0, SECOND_OF_B),
        Event::Take(1, 1, FIRST),
    ] {
        holds(rt, number_of(net, &event) == 39);
    }
    holds(rt, net.version() == Version::One && net.steps() == steps);
}

#[test]
fn takes_of_version_1(rt: HostRuntime) -> Result<(), Fail> {
    for events in [&MEETING[..0], &MEETING[..2], &MEETING[..5], MEETING] {
        in_network(&rt, rt.alloc(), DELETION, events, &Turn::TakesAreRefused)?;
    }
    Ok(())
}

const SECOND: Id = Id {
    counter: 1,
    replica: 1,
};

/// The events of both replicas with each other and with some identifiers, in the order of `enabled`.
const EVENTS: [Event; 24] = [
    Event::Exec(0),
    Event::Send(0),
    Event::Recv(0, 0),
    Event::Recv(0, 1),
    Event::Take(0, 0, FIRST),
    Event::Take(0, 0, SECOND_OF_A),
    Event::Take(0, 1, SECOND_OF_B),
    Event::Apply(0, FIRST),
    Event::Apply(0, SECOND),
    Event::Apply(0, SECOND_OF_A),
    Event::Apply(0, SECOND_OF_B),
    Event::Done(0),
    Event::Exec(1),
    Event::Send(1),
    Event::Recv(1, 0),
    Event::Recv(1, 1),
    Event::Take(1, 0, FIRST),
    Event::Take(1, 0, SECOND_OF_A),
    Event::Take(1, 1, SECOND_OF_B),
    Event::Apply(1, FIRST),
    Event::Apply(1, SECOND),
    Event::Apply(1, SECOND_OF_A),
    Event::Apply(1, SECOND_OF_B),
    Event::Done(1),
];

/// Whether `enabled` has just those of the events that can be made: each is made and taken back.
fn tells_what_is_made(net: &mut Net) -> Result<bool, AllocError> {
    let told = net.enabled()?;
    let mut left = told.iter();
    for event in &EVENTS {
        if number_of(net, event) == 0 && !(net.undo() && left.next() == Some(event)) {
            return Ok(false);
        }
    }
    Ok(left.next().is_none())
}

/// Whether the operations that replica p has applied have the identifiers of `applied_ids`.
fn are_told_alike(net: &Net, p: u16) -> Result<bool, CompareFault> {
    let (ops, ids) = (net.applied(p)?, net.applied_ids(p)?);
    let mut alike = ops.len() == ids.len();
    for (op, id) in ops.iter().zip(&ids) {
        alike = alike && op.id == *id;
    }
    Ok(alike)
}

/// What the calls return of the network is right in it and in each from which events lead to it.
pub fn all_is_told(rt: &impl Abort, net: &mut Net) {
    for steps in (0..=MEETING.len() as u64).rev() {
        holds(rt, tells_what_is_made(net) == Ok(true));
        holds(rt, are_told_alike(net, 0) == Ok(true));
        holds(rt, are_told_alike(net, 1) == Ok(true));
        holds(rt, net.steps() == steps && net.undo() == (steps > 0));
    }
}

#[test]
fn told_is_made(rt: HostRuntime) -> Result<(), Fail> {
    in_network(&rt, rt.alloc(), DELETION, MEETING, &Turn::ToldIsMade)?;
    in_network(&rt, rt.alloc(), INSERTS, MEETING, &Turn::ToldIsMade)?;
    in_network(&rt, rt.alloc(), DELETION_IN_TWO, MEETING, &Turn::ToldIsMade)
}
