//! The operations that a replica has applied, listed by identifier for `Net::applied` and `applied_ids`.

ghost use Rattle.std.specs.Prelude.{◌≡◌, ◌+◌, ◌<◌, ◌∷◌, [], length, filter, IfOk, IfSome, MatchOption};
ghost use Rattle.jc_rules.specs.Ids.{has_id};
ghost use Rattle.jc_rules.specs.Table.{both};
ghost use Rattle.jc_replica.specs.Operations.{identifiers, AreInOrder};
ghost use Rattle.jc_network.specs.Applied.{applied_ops};

use jc_replica::Replica;
use jc_rules::{Id, IdSet, Op};
use jc_tree::TreeStore;
use std::alloc::{AllocError, Global};
use std::cmp::Ordering;

/// The first operation of two lists by identifier, and the rest of each list after it. Where both begin
/// with it, it is that of the first list.
fn next_of<'a>(made: &'a [Op], received: &'a [Op]) -> Option<(&'a Op, &'a [Op], &'a [Op])>
    requires made { AreInOrder made.now }
    requires received { AreInOrder received.now }
    ensures next { MatchOption result (both made.now received.now ≡ [])
        (λ next. both made.now received.now ≡ next.0.now ∷ both next.1.now next.2.now) }
    ensures order { IfSome result (λ next. AreInOrder next.1.now × AreInOrder next.2.now) }
    ensures less { IfSome result (λ next.
        length next.1.now + length next.2.now < length made.now + length received.now) }
{
    match (made.split_first(), received.split_first()) {
        (Some((own, own_left)), Some((other, other_left))) => match own.id.cmp(&other.id) {
            Ordering::Less => Some((own, own_left, received)),
            Ordering::Equal => Some((own, own_left, other_left)),
            Ordering::Greater => Some((other, made, other_left)),
        },
        (Some((own, own_left)), None) => Some((own, own_left, received)),
        (None, Some((other, other_left))) => Some((other, made, other_left)),
        (None, None) => None,
    }
}

/// The first operation of two lists by identifier whose identifier is in the set, and the rest of each
/// list after it.
fn next_in<'a>(
    made: &'a [Op],
    received: &'a [Op],
    ops: &IdSet,
) -> Option<(&'a Op, &'a [Op], &'a [Op])>
    requires made { AreInOrder made.now }
    requires received { AreInOrder received.now }
    ensures next { MatchOption result (filter (λ o. has_id o.id ops.now) (both made.now received.now) ≡ [])
        (λ next. filter (λ o. has_id o.id ops.now) (both made.now received.now)
        ≡ next.0.now ∷ filter (λ o. has_id o.id ops.now) (both next.1.now next.2.now)) }
    ensures order { IfSome result (λ next. AreInOrder next.1.now × AreInOrder next.2.now) }
    ensures less { IfSome result (λ next.
        length next.1.now + length next.2.now < length made.now + length received.now) }
{
    let mut own = made;
    let mut others = received;
    while let Some((op, own_left, others_left)) = next_of(own, others) {
        if ops.contains(op.id) {
            return Some((op, own_left, others_left));
        }
        own = own_left;
        others = others_left;
    }
    None
}

/// Copies of the operations that the replica has applied, by identifier.
pub(crate) fn applied_of<S: TreeStore>(
    alloc: Global,
    replica: &Replica<S>,
) -> Result<Vec<Op>, AllocError>
    ensures { IfOk result (λ ops. ops.items ≡ applied_ops replica.now.history.now) }
{
    let mut applied = Vec::new(alloc);
    let mut own = replica.queue();
    let mut others = replica.received();
    while let Some((op, own_left, others_left)) = next_in(own, others, replica.ops()) {
        applied.push(op.copy()?)?;
        own = own_left;
        others = others_left;
    }
    Ok(applied)
}

/// The identifiers of the operations that the replica has applied, rising.
pub(crate) fn applied_ids_of<S: TreeStore>(
    alloc: Global,
    replica: &Replica<S>,
) -> Result<Vec<Id>, AllocError>
    ensures { IfOk result (λ ids. ids.items ≡ identifiers (applied_ops replica.now.history.now)) }
{
    let mut ids = Vec::new(alloc);
    let mut made = replica.queue();
    let mut received = replica.received();
    while let Some((op, made_left, received_left)) = next_in(made, received, replica.ops()) {
        ids.push(op.id)?;
        made = made_left;
        received = received_left;
    }
    Ok(ids)
}
