//! The rule by which a replica chooses its next event (docs/RULES.md).
ghost use Rattle.std.specs.Prelude.{◌≡◌};
ghost use Rattle.jc_syntax.specs.Trees.{cmd_of};
ghost use Rattle.jc_choice.specs.Chosen.{is_ready, first_ready, apply_or_end, at_yield, is_yield, chosen_by, choice};

use crate::phase::Phase;
use jc_network::Net;
use jc_replica::Replica;
use jc_rules::{Event, Id, IdSet, Op};
use jc_syntax::Cmd;
use jc_tree::TreeStore;

/// Returns whether the operation is ready: it isn't applied, and its dependencies are.
fn is_ready_for(ops: &IdSet, op: &Op) -> bool
    ensures { result ≡ is_ready ops.now op.now }
{
    if ops.contains(op.id) {
        return false;
    }
    op.deps.is_subset(ops)
}

/// Returns the identifier of the first operation that is ready.
fn first_ready_of(ops: &IdSet, received: &[Op]) -> Option<Id>
    ensures { result ≡ first_ready ops.now received.now }
{
    let mut rest = received;
    while let Some((op, others)) = rest.split_first() {
        if is_ready_for(ops, op) {
            return Some(op.id);
        }
        rest = others;
    }
    None
}

/// Chooses to apply the first operation that is ready, or else to end the yield.
fn apply_or_done<S: TreeStore>(replica: &Replica<S>) -> (Event, Phase)
    ensures { result
        ≡ apply_or_end replica.now.number (first_ready replica.now.history.now.ops replica.now.history.now.recv) }
{
    let p = replica.number();
    match first_ready_of(replica.ops(), replica.received()) {
        Some(id) => (Event::Apply(p, id), Phase::Applying),
        None => (Event::Done(p), Phase::Start),
    }
}

/// Chooses the replica's next event at a yield; `replicas` is the number of replicas.
fn in_yield<S: TreeStore>(replica: &Replica<S>, replicas: u16, phase: Phase) -> (Event, Phase)
    ensures { result ≡ at_yield replicas replica.now.number replica.now.history.now phase }
{
    let p = replica.number();
    match phase {
        Phase::Start => (Event::Send(p), Phase::Receiving(0)),
        Phase::Receiving(from) => {
            let next = if from == p {
                from.saturating_add(1)
            } else {
                from
            };
            if next < replicas {
                (Event::Recv(p, next), Phase::Receiving(next + 1))
            } else {
                apply_or_done(replica)
            }
        }
        Phase::Applying => apply_or_done(replica),
    }
}

/// Returns whether the command is a yield.
pub fn yields(cmd: &Cmd) -> bool
    ensures { result ≡ is_yield (cmd_of cmd.now) }
{
    match cmd {
        Cmd::Yield => true,
        Cmd::Let(_, _) | Cmd::Set(_, _) | Cmd::InsertAfter(_, _) | Cmd::Delete(_) => false,
    }
}

/// Chooses the replica's next event. `None` where no command is left.
fn chosen_of<S: TreeStore>(
    replica: &Replica<S>,
    replicas: u16,
    phase: Phase,
) -> Option<(Event, Phase)>
    ensures { result
        ≡ chosen_by replicas replica.now.number replica.now.history.now phase replica.now.history.now.left }
{
    if yields(replica.left().first()?) {
        Some(in_yield(replica, replicas, phase))
    } else {
        Some((Event::Exec(replica.number()), Phase::Start))
    }
}

/// Returns the event that replica p makes next, and its phase after it. `None` where no command is left, or where the
/// network has no such replica. It takes no memory.
///
/// Where no yield comes next it is `exec`. At a yield the replica sends, then receives from each other replica in turn,
/// then applies the operations that are ready, each time the least, and is done. The phase is how far it is in this; it
/// is `Start` at first.
pub fn choose(net: &Net, p: u16, phase: Phase) -> Option<(Event, Phase)>
    ensures { result ≡ choice net.now.history.now.states p phase }
{
    // For its contract: events led to the network from a start, so the stored counters decide what is applied.
    net.steps();
    let replicas = net.names().len() as u16;
    chosen_of(net.replica(p)?, replicas, phase)
}
