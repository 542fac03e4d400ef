//! The operations that a replica received, and how far those of each sender are complete.

ghost use Rattle.std.specs.Prelude.{◌≡◌, ◌≤◌, ◌+◌, ◌∷◌, ℕ, List, [], Some, true, IfOk, OnOk, OnErr, option_copied, length, take, filter, unwrap_or};
ghost use Rattle.std.specs.List.{AllByRecursion};
ghost use Rattle.jc_rules.specs.declared.operation.Op.{Op as AnyOp};
ghost use Rattle.jc_rules.specs.VersionVectors.{covered, greatest_of};
ghost use Rattle.jc_rules.specs.Table.{op_of, both};
ghost use Rattle.jc_replica.specs.Operations.{identifiers, AreInOrder, AreHanded, AreOwn, AreOfOne};
ghost use Rattle.jc_replica.specs.Undo.{without_ops};
ghost use Rattle.jc_replica.specs.Received.{IsOpPlace, IsUnited, IsContiguousTo, AreAmong, HasEach, is_new};

use crate::op_list::OpList;
use jc_rules::{Id, IdSet, Op};
use std::alloc::{AllocError, Global};
use std::marker::Model;

/// The operations that a replica received, by identifier. It is seen as their list.
///
/// For each sender there is a counter up to which none of its operations is missing. So what a sender offers
/// again, with more at its end, isn't read again.
#[derive(Drop)]
pub struct Received {
    ops: OpList,
    /// Each sender's identifiers up to which no operation is missing.
    contiguous: IdSet,
}

impl Model for Received {
    ghost use Rattle.std.specs.Prelude.{List};
    ghost use Rattle.jc_rules.specs.declared.operation.Op.{Op};
    ghost use Rattle.jc_replica.specs.Received.{IsKeptList};

    ghost Value = { List Op };

    ghost view = { λ a. a.ops.items };

    ghost invariant = { λ a. IsKeptList a.ops.items a.contiguous };
}

/// The index of the operation with the identifier, or else the index where it belongs.
fn place_of(ops: &[Op], id: Id) -> Result<usize, usize>
    requires { AreInOrder ops.now }
    ensures { IsOpPlace id ops.now result }
{
    ops.binary_search_by_key(&id, |op| op.id)
}

/// The operation with the identifier.
pub fn find(ops: &[Op], id: Id) -> Option<&Op>
    requires { AreInOrder ops.now }
    ensures { option_copied result ≡ op_of id ops.now }
{
    match place_of(ops, id) {
        Ok(place) => Some(&ops[place]),
        Err(_) => None,
    }
}

/// The replica that made the offered operations.
fn sender_of(offered: &[Op]) -> u16
    ensures { AreOfOne offered.now → AreOwn result offered.now }
{
    match offered {
        [first, ..] => first.id.replica,
        [] => 0,
    }
}

/// The number of operations whose counters are at most `last`.
fn up_to(offered: &[Op], last: u64) -> usize
    requires { AreInOrder offered.now }
    ensures bound { result ≤ length offered.now }
    ensures low { AllByRecursion (λ o. o.id.counter ≤ last) (take result offered.now) }
{
    offered.partition_point(|op| op.id.counter <= last)
}

/// Copies of the offered operations that aren't in the list.
fn new_ones(alloc: Global, ops: &[Op], offered: &[Op]) -> Result<Vec<Op>, AllocError>
    requires { AreInOrder ops.now }
    ensures { IfOk result (λ fresh. fresh.items ≡ filter (is_new ops.now) offered.now) }
{
    let mut fresh = Vec::new(alloc);
    for op in offered {
        if place_of(ops, op.id).is_err() {
            fresh.push(op.copy()?)?;
        }
    }
    Ok(fresh)
}

/// The index at which the first of the new operations belongs, at the end where there is none.
fn first_place(ops: &[Op], fresh: &[Op]) -> usize {
    match fresh {
        [first, ..] => ops.partition_point(|op| op.id < first.id),
        [] => ops.len(),
    }
}

/// The identifiers of the operations.
fn ids_of(alloc: Global, ops: &[Op]) -> Result<Vec<Id>, AllocError>
    ensures { IfOk result (λ ids. ids.items ≡ identifiers ops.now) }
{
    let mut ids = Vec::new(alloc);
    for op in ops {
        ids.push(op.id)?;
    }
    Ok(ids)
}

/// The operation of the list with the identifier of this one, or else this one.
fn received_or<'a>(ops: &'a [Op], op: &'a Op) -> &'a Op
    requires { AreInOrder ops.now }
    ensures { result.now ≡ unwrap_or (op_of op.now.id ops.now) op.now }
{
    match find(ops, op.id) {
        Some(received) => received,
        None => op,
    }
}

/// The counter up to which no operation of the replica is missing once the new ones of these are in the list,
/// where none was missing up to `from`: an operation depends on all that its replica made before it. What the
/// list has already counts too, so that a gap that closes late is closed.
fn whole_to(ops: &[Op], read: &[Op], replica: u16, from: u64) -> u64
    requires { AreInOrder ops.now }
    ensures { (os : List AnyOp) → HasEach ops.now os → AreAmong (filter (is_new ops.now) read.now) os
        → IsContiguousTo replica os from → IsContiguousTo replica os result }
{
    let mut last = from;
    for offered in read {
        let op = received_or(ops, offered);
        if op.id.replica != replica
            || op.id.counter <= last
            || op.deps.greatest_of(replica) != last
        {
            break;
        }
        last = op.id.counter;
    }
    last
}

/// Inserts each operation at its place. None of them is in the list, and there is room for all.
fn bring_in(ops: &mut OpList, fresh: Vec<Op>)
    requires order { AreInOrder ops.old.items }
    requires rises { AreInOrder fresh.items }
    requires new { AllByRecursion (λ o. is_new ops.old.items o ≡ true) fresh.items }
    requires room { length fresh.items ≤ ops.old.room }
    ensures { ops.new.items ≡ both ops.old.items fresh.items }
{
    for op in fresh {
        let place = place_of(ops.as_slice(), op.id).unwrap_err();
        ops.insert(place, op);
    }
}

/// Lowers the counter of the operation's replica to one up to which none is missing without the operation.
fn lower(contiguous: &mut IdSet, op: &Op)
    requires { contiguous.old ≡ covered contiguous.old }
    ensures filled { contiguous.new ≡ covered contiguous.new }
    ensures missing { (os : List AnyOp) → op_of op.now.id os ≡ Some op.now
        → ((q : ℕ) → IsContiguousTo q os (greatest_of q contiguous.old))
        → (q : ℕ) → IsContiguousTo q (without_ops (op.now.id ∷ []) os) (greatest_of q contiguous.new) }
{
    let id = op.id;
    let last = contiguous.greatest_of(id.replica);
    let before = if id.counter == last {
        op.deps.greatest_of(id.replica)
    } else {
        0
    };
    if id.counter <= last && before < last {
        let greatest = Id {
            counter: last,
            replica: id.replica,
        };
        contiguous.withdraw(greatest, before);
    }
}

impl Received {
    /// No operations.
    pub fn new(alloc: Global) -> Self
        ensures { result ≡ [] }
    {
        Received {
            ops: OpList::new(alloc),
            contiguous: IdSet::new(alloc),
        }
    }

    /// The operations, by identifier.
    pub fn as_slice(&self) -> &[Op]
        ensures ops { result.now ≡ self.now }
        ensures order { AreInOrder self.now }
    {
        self.ops.as_slice()
    }

    /// The operation with the identifier.
    pub fn find(&self, id: Id) -> Option<&Op>
        ensures { option_copied result ≡ op_of id self.now }
    {
        find(self.ops.as_slice(), id)
    }

    /// Adds what one replica offers of its own operations, and returns the identifiers of the new ones.
    /// After a refusal all is as it was.
    pub fn unite(&mut self, alloc: Global, offered: &[Op]) -> Result<Vec<Id>, AllocError>
        requires { AreInOrder offered.now }
        ensures ok { OnOk result (IsUnited self.old offered.now self.new) }
        ensures back { IfOk result (λ came. without_ops came.items self.new ≡ self.old) }
        ensures came { IfOk result (λ came. identifiers (filter (is_new self.old) self.new) ≡ came.items) }
        ensures order { AreInOrder self.new }
        ensures handed { AreHanded self.old → AreHanded offered.now → AreHanded self.new }
        ensures err { OnErr result (self.new ≡ self.old) }
    {
        let sender = sender_of(offered);
        let last = self.contiguous.greatest_of(sender);
        let start = up_to(offered, last);
        let fresh = new_ones(alloc, self.ops.as_slice(), &offered[start..])?;
        let came = ids_of(alloc, fresh.as_slice())?;
        let place = first_place(self.ops.as_slice(), fresh.as_slice());
        // Where there is no memory for room in front, the others are moved.
        let _ = self.ops.widen(alloc, place);
        self.ops.reserve(fresh.len())?;
        let counter = whole_to(self.ops.as_slice(), &offered[start..], sender, last);
        self.contiguous.insert(Id {
            counter,
            replica: sender,
        })?;
        bring_in(&mut self.ops, fresh);
        Ok(came)
    }

    /// Removes the operation with the identifier.
    fn take_out(&mut self, id: Id)
        ensures { self.new ≡ without_ops (id ∷ []) self.old }
    {
        let Ok(place) = place_of(self.ops.as_slice(), id) else {
            return;
        };
        let ops = self.ops.as_slice();
        lower(&mut self.contiguous, &ops[place]);
        self.ops.remove(place);
    }

    /// Removes the operations with these identifiers. It takes no memory.
    pub fn withdraw(&mut self, came: &[Id])
        ensures { self.new ≡ without_ops came.now self.old }
    {
        let mut left = came;
        while let Some((last, rest)) = left.split_last() {
            self.take_out(*last);
            left = rest;
        }
    }
}
