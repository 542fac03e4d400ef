//! The events that a network's replicas can make, listed for `Net::enabled`.

ghost use Rattle.std.specs.Prelude.{◌≡◌, ◌≤◌, ◌∷◌, [], length, OnOk, IfOk};
ghost use Rattle.jc_rules.specs.Step.{replica_of};
ghost use Rattle.jc_network.specs.NetworkHistory.{kept_of, of_version};
ghost use Rattle.jc_network.specs.Enabled.{receivings, takings_of, takings, applyings, applyings_of, Lists, AreEnabledAsKnown};
ghost use Rattle.jc_network.specs.Invariant.{AreNumbered};

use jc_replica::Replica;
use jc_rules::{Event, Op, Version};
use jc_tree::TreeStore;
use std::alloc::{AllocError, Global};

/// Appends the replica's event if the replica can make it.
fn list<S: TreeStore>(
    replica: &Replica<S>,
    event: Event,
    events: &mut Vec<Event>,
) -> Result<(), AllocError>
    requires { replica_of event ≡ replica.now.number }
    ensures { OnOk result (Lists replica.now (event ∷ []) events.old.items events.new.items) }
{
    if replica.can(&event)? {
        events.push(event)?;
    }
    Ok(())
}

/// Appends the events in which the replica receives from a replica; count is the number of replicas.
fn list_receivings<S: TreeStore>(
    replica: &Replica<S>,
    count: u16,
    events: &mut Vec<Event>,
) -> Result<(), AllocError>
    ensures { OnOk result (Lists replica.now (receivings replica.now.number count)
        events.old.items events.new.items) }
{
    for sender in 0..count {
        list(replica, Event::Recv(replica.number(), sender), events)?;
    }
    Ok(())
}

/// Appends the events in which the replica takes one of the operations that the sender offers.
fn list_offered<S: TreeStore>(
    replica: &Replica<S>,
    sender: u16,
    offered: &[Op],
    events: &mut Vec<Event>,
) -> Result<(), AllocError>
    ensures { OnOk result (Lists replica.now (takings_of replica.now.number sender offered.now)
        events.old.items events.new.items) }
{
    for op in offered {
        list(
            replica,
            Event::Take(replica.number(), sender, op.id),
            events,
        )?;
    }
    Ok(())
}

/// Appends the events in which the replica takes an operation that one of the replicas offers.
fn list_takings<S: TreeStore>(
    version: Version,
    replica: &Replica<S>,
    replicas: &[Replica<S>],
    events: &mut Vec<Event>,
) -> Result<(), AllocError>
    requires few { length replicas.now ≤ 65535 }
    ensures { OnOk result (Lists replica.now (takings version replica.now.number (kept_of replicas.now))
        events.old.items events.new.items) }
{
    match version {
        Version::One => return Ok(()),
        Version::Two => {}
    }
    let mut number: u16 = 0;
    for sender in replicas {
        list_offered(replica, number, sender.sent(), events)?;
        number += 1;
    }
    Ok(())
}

/// Appends the events in which the replica applies an operation that it has received.
fn list_applyings<S: TreeStore>(
    replica: &Replica<S>,
    events: &mut Vec<Event>,
) -> Result<(), AllocError>
    ensures { OnOk result (Lists replica.now (applyings replica.now.number replica.now.history.now.recv)
        events.old.items events.new.items) }
{
    for op in replica.received() {
        list(replica, Event::Apply(replica.number(), op.id), events)?;
    }
    Ok(())
}

/// Appends the events that the replica can make; it is one of the replicas.
fn list_events<S: TreeStore>(
    version: Version,
    replica: &Replica<S>,
    replicas: &[Replica<S>],
    events: &mut Vec<Event>,
) -> Result<(), AllocError>
    requires few { length replicas.now ≤ 65535 }
    ensures { OnOk result (Lists replica.now
        (applyings_of (of_version version (kept_of replicas.now)) replica.now.number replica.now.history.now.recv)
        events.old.items events.new.items) }
{
    let count = replicas.len() as u16;
    let number = replica.number();
    list(replica, Event::Exec(number), events)?;
    list(replica, Event::Send(number), events)?;
    list_receivings(replica, count, events)?;
    list_takings(version, replica, replicas, events)?;
    list_applyings(replica, events)?;
    list(replica, Event::Done(number), events)
}

/// The events that can be made: of each replica in order exec, send, recv from each replica, in version 2 take of each
/// operation that each replica offers, apply of each operation that it has received, by identifier, and done.
pub(crate) fn enabled_in<S: TreeStore>(
    alloc: Global,
    version: Version,
    replicas: &[Replica<S>],
) -> Result<Vec<Event>, AllocError>
    requires few { length replicas.now ≤ 65535 }
    requires numbered { AreNumbered replicas.now }
    ensures { IfOk result (λ events. AreEnabledAsKnown version replicas.now events.items) }
{
    let mut events = Vec::new(alloc);
    for replica in replicas {
        list_events(version, replica, replicas, &mut events)?;
    }
    Ok(events)
}
