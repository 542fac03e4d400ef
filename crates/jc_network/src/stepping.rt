//! One event of a network: its replica makes it, and reads what the sender offers. `Net::step` calls it.

ghost use Rattle.std.specs.Prelude.{◌≡◌, ◌<◌, ◌≤◌, ℕ, length, slice_get, MatchBool};
ghost use Rattle.jc_rules.specs.declared.refusal.Refusal.TheVariants.{NoSuchReplica as Missing, WrongVersion as OfAnother};
ghost use Rattle.jc_rules.specs.Refused.{because};
ghost use Rattle.jc_replica.specs.Answers.{AnswersEvent, fault_cause_of};
ghost use Rattle.jc_replica.specs.Operations.{AreInOrder, AreHanded, AreOfOne};
ghost use Rattle.jc_replica.specs.Received.{receiving_event};
ghost use Rattle.jc_network.specs.Steps.{MakesStep, ActsReplica, Moves, AllHand, AllOwn, HasReplicas, IsMissing, fault_for, stuck_for, sent_by, sender_of};
ghost use Rattle.jc_network.specs.Invariant.{AreNumbered};

use crate::fault::{StepFault, Stuck};
use jc_replica::{Replica, ReplicaFault};
use jc_rules::{Event, Id, Op, Refusal, Trace, Version};
use jc_tree::ArenaTree;

/// The stuck event where a replica that it names isn't there.
fn missing(event: Event) -> Stuck
    ensures { result ≡ stuck_for (because Missing) event }
{
    Stuck {
        number: Refusal::NoSuchReplica.number(),
        refusal: Refusal::NoSuchReplica,
        key: None,
        event,
    }
}

/// The stuck event where the network's version has no such event.
fn wrong_version(event: Event) -> Stuck
    ensures { result ≡ stuck_for (because OfAnother) event }
{
    Stuck {
        number: Refusal::WrongVersion.number(),
        refusal: Refusal::WrongVersion,
        key: None,
        event,
    }
}

/// The replica from which the event receives.
fn sender_of(event: &Event) -> Option<u16>
    ensures { result ≡ sender_of event.now }
{
    match event {
        Event::Recv(_, from) | Event::Take(_, from, _) => Some(*from),
        Event::Exec(_) | Event::Send(_) | Event::Apply(_, _) | Event::Done(_) => None,
    }
}

/// Whether the replicas that the event names are there.
fn are_there(event: &Event, replicas: &[Replica<ArenaTree>]) -> bool
    ensures { MatchBool result (HasReplicas event.now replicas.now) (IsMissing event.now replicas.now) }
{
    if usize::from(event.replica()) >= replicas.len() {
        return false;
    }
    if let Some(from) = sender_of(event) {
        if usize::from(from) >= replicas.len() {
            return false;
        }
    }
    true
}

/// The network's fault for the replica's fault.
fn step_fault(fault: ReplicaFault, event: Event) -> StepFault
    ensures { result ≡ fault_for (fault_cause_of fault) event }
{
    let Some(refusal) = fault.refusal() else {
        return StepFault::Memory;
    };
    let key = match fault {
        ReplicaFault::NoSuchNode(key) => Some(key),
        _ => None,
    };
    StepFault::Stuck(Stuck {
        number: refusal.number(),
        refusal,
        key,
        event,
    })
}

/// The event's replica makes the event, where its replicas are there and the version has such events. After a refusal
/// all is as it was.
pub(crate) fn make(
    version: Version,
    replicas: &mut [Replica<ArenaTree>],
    event: &Event,
) -> Result<Trace, StepFault>
    requires numbered { AreNumbered replicas.old }
    requires hand { AllHand replicas.old }
    requires own { AllOwn replicas.old }
    ensures { MakesStep version event.now replicas.old replicas.new result }
{
    if !are_there(event, replicas) {
        return Err(StepFault::Stuck(missing(*event)));
    }
    if !version.allows(event) {
        return Err(StepFault::Stuck(wrong_version(*event)));
    }
    match act(replicas, event) {
        Ok(trace) => Ok(trace),
        Err(fault) => Err(step_fault(fault, *event)),
    }
}

/// The event's replica makes the event. The replicas that the event names are there.
fn act(replicas: &mut [Replica<ArenaTree>], event: &Event) -> Result<Trace, ReplicaFault>
    requires numbered { AreNumbered replicas.old }
    requires hand { AllHand replicas.old }
    requires own { AllOwn replicas.old }
    requires there { HasReplicas event.now replicas.old }
    ensures { ActsReplica event.now replicas.old replicas.new result }
{
    match event {
        Event::Exec(p) => replicas[usize::from(*p)].exec(),
        Event::Send(p) => replicas[usize::from(*p)].send(),
        Event::Recv(p, q) => receive(replicas, *p, *q, None),
        Event::Take(p, q, id) => receive(replicas, *p, *q, Some(*id)),
        Event::Apply(p, id) => replicas[usize::from(*p)].apply(*id),
        Event::Done(p) => replicas[usize::from(*p)].done(),
    }
}

/// The replica receives what another one offers: all of it, or the operation with the identifier.
fn read_from(
    replica: &mut Replica<ArenaTree>,
    offered: &[Op],
    id: Option<Id>,
) -> Result<Trace, ReplicaFault>
    requires order { AreInOrder offered.now }
    requires handed { AreHanded offered.now }
    requires own { AreOfOne offered.now }
    ensures { (q : ℕ) → AnswersEvent (receiving_event q id replica.old.number) offered.now
        replica.old replica.new result }
{
    match id {
        None => replica.recv(offered),
        Some(id) => replica.recv_one(offered, id),
    }
}

/// The replica receives what it offers itself: all of it, or the operation with the identifier.
fn read_own(replica: &mut Replica<ArenaTree>, id: Option<Id>) -> Result<Trace, ReplicaFault>
    requires { AreHanded replica.old.history.now.send }
    ensures { AnswersEvent (receiving_event replica.old.number id replica.old.number) replica.old.history.now.send
        replica.old replica.new result }
{
    match id {
        None => replica.recv_own(),
        Some(id) => replica.recv_one_own(id),
    }
}

/// Replica p receives what replica q offers, which may be p itself: all of it, or the operation with the
/// identifier. No operation is copied to pass it.
fn receive(
    replicas: &mut [Replica<ArenaTree>],
    p: u16,
    q: u16,
    id: Option<Id>,
) -> Result<Trace, ReplicaFault>
    requires numbered { AreNumbered replicas.old }
    requires hand { AllHand replicas.old }
    requires own { AllOwn replicas.old }
    requires receiver { p < length replicas.old }
    requires sender { q < length replicas.old }
    ensures { Moves p (receiving_event q id p) (sent_by (slice_get replicas.old q)) replicas.old replicas.new result }
{
    let to = usize::from(p);
    let from = usize::from(q);
    if to == from {
        read_own(&mut replicas[to], id)
    } else if to < from {
        let (front, back) = replicas.split_at_mut(from);
        read_from(&mut front[to], back[0].sent(), id)
    } else {
        let (front, back) = replicas.split_at_mut(to);
        read_from(&mut back[0], front[from].sent(), id)
    }
}
