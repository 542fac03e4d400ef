//! Applying an operation to a document: replicas do it with operations that they make or receive.

ghost use Rattle.std.specs.Prelude.{◌≡◌, ◌≢◌, ◌≤◌, ◌↔◌, List, [], Some, IsErrOf, IfOk, OnOk, OnErr, length, take, drop};
ghost use Rattle.jc_rules.specs.declared.id.Id.{Id as AnyId};
ghost use Rattle.jc_rules.specs.declared.key.Tagged.{Tagged as AnyTagged};
ghost use Rattle.jc_rules.specs.declared.operation.Op.{Op as AnyOp};
ghost use Rattle.jc_rules.specs.declared.refusal.Refusal.TheVariants.{NotInList as PlaceNotInList};
ghost use Rattle.jc_rules.specs.Derivation.{Operate, ToContext};
ghost use Rattle.jc_rules.specs.Derives.{Derives};
ghost use Rattle.jc_rules.specs.Refused.{Refused, because};
ghost use Rattle.jc_rules.specs.WellFormed.{IsChained};
ghost use Rattle.jc_rules.specs.Representation.{Represents};
ghost use Rattle.jc_rules.specs.Table.{moved, op_of};
ghost use Rattle.jc_rules.specs.History.{IsLater};
ghost use Rattle.jc_tree.specs.Tree.{NamesStay, here};
ghost use Rattle.jc_tree.specs.CanGoBack.{TreeCanGoBack};
ghost use Rattle.jc_vectors.specs.KnownIds.{KnowsOnly};
ghost use Rattle.jc_vectors.specs.OperationIds.{ids_of_ops, with_deps};
ghost use Rattle.jc_apply.specs.Fits.{Fits, IsUnlinked};
ghost use Rattle.jc_apply.specs.AppliesAlong.{AddsId, LeadsTo, LinksNone, LinksOnly};

use crate::assigning::{assign, trace_added};
use crate::entering::enter_below;
use crate::fitting::fits;
use crate::inserting::insert;
use jc_clear::clear_elem_at;
use jc_rules::{Mutation, Op, Rule, Tagged, Trace};
use jc_tree::{ANYWHERE, KeyAt, Place, TreeStore};
use std::alloc::{AllocError, Global};

/// Why an operation was refused.
#[derive(Clone, Copy, Debug, PartialEq, Eq)]
pub enum ApplyFault {
    /// The place of the insert is in no list.
    NotInList,
    /// There was no memory.
    Memory,
}

/// Deletes what is under the operation's last key, in the context at the place.
fn delete<S: TreeStore>(
    alloc: Global,
    store: &mut S,
    place: Place,
    op: &Op,
    trace: &mut Trace,
) -> Result<(), AllocError>
    requires named { (at : List AnyTagged) × S.names store.old place at }
    requires chained { IsChained (S.tree store.old).now }
    requires deletes { op.now.mutation ≡ Mutation.Delete }
    ensures ok { (at : List AnyTagged) → S.names store.old place at
        → OnOk result (LeadsTo (λ c. Operate c (moved op.now [] op.now.cursor.last op.now.mutation))
        at (S.tree store.old) (S.tree store.new) trace.old trace.new) }
    ensures links { (at : List AnyTagged) → S.names store.old place at
        → OnOk result (LinksNone at (S.tree store.old) (S.tree store.new)) }
    ensures names_stay { NamesStay (S.names store.old) (S.names store.new) }
    ensures kept { TreeCanGoBack (S.tree store.old) (S.tree store.new) trace.old trace.new }
{
    let depth = trace.depth();
    trace.open(Rule::Delete)?;
    clear_elem_at(alloc, store, &op.deps, place, &op.cursor.last, trace)?;
    trace.close(depth);
    Ok(())
}

/// Applies the operation to the context at the place, to which its whole path leads.
fn operate_here<S: TreeStore>(
    alloc: Global,
    store: &mut S,
    place: Place,
    op: &Op,
    trace: &mut Trace,
) -> Result<(), AllocError>
    requires chained { IsChained (S.tree store.old).now }
    requires fresh { IsUnlinked op.now.id (S.tree store.old).now }
    requires fits { (at : List AnyTagged) × S.names store.old place at
        × Fits (here at (S.tree store.old)) [] op.now.cursor.last op.now.mutation }
    ensures ok { (at : List AnyTagged) → S.names store.old place at
        → OnOk result (LeadsTo (λ c. Operate c (moved op.now [] op.now.cursor.last op.now.mutation))
        at (S.tree store.old) (S.tree store.new) trace.old trace.new) }
    ensures links { OnOk result (LinksOnly op.now.id (S.tree store.old) (S.tree store.new)) }
    ensures names_stay { NamesStay (S.names store.old) (S.names store.new) }
    ensures kept { TreeCanGoBack (S.tree store.old) (S.tree store.new) trace.old trace.new }
{
    match &op.mutation {
        Mutation::Assign(value) => {
            let key = KeyAt {
                place,
                key: &op.cursor.last,
                hint: ANYWHERE,
            };
            assign(alloc, store, key, op, value, trace)
        }
        Mutation::Insert(value) => insert(alloc, store, place, op, value, trace),
        Mutation::Delete => delete(alloc, store, place, op, trace),
    }
}

/// Adds the operation's identifier to the presence set of a key on its path, in the context at the
/// place, unless the operation deletes. Returns whether there was a set; `None` for a deletion.
fn add_op<S: TreeStore>(
    store: &mut S,
    place: Place,
    key: &Tagged,
    op: &Op,
) -> Result<Option<bool>, AllocError>
    requires { (at : List AnyTagged) × S.names store.old place at }
    ensures ok { (at : List AnyTagged) → S.names store.old place at
        → IfOk result (λ was. AddsId key.now op.now.id op.now.mutation was
        at (S.tree store.old) (S.tree store.new)) }
    ensures links { (at : List AnyTagged) → S.names store.old place at
        → OnOk result (LinksNone at (S.tree store.old) (S.tree store.new)) }
    ensures names_stay { NamesStay (S.names store.old) (S.names store.new) }
    ensures kept { IsLater (S.tree store.old) (S.tree store.new) }
{
    match &op.mutation {
        Mutation::Delete => Ok(None),
        _ => {
            let was = store.add_presence_at(place, key.key(), op.id)?;
            Ok(Some(was))
        }
    }
}

/// Applies the operation to the context at the place, to which the first `depth` keys of its path lead.
fn operate<S: TreeStore>(
    alloc: Global,
    store: &mut S,
    op: &Op,
    depth: usize,
    place: Place,
    trace: &mut Trace,
) -> Result<(), AllocError>
    requires within { depth ≤ length op.now.cursor.path }
    requires named { S.names store.old place (take depth op.now.cursor.path) }
    requires chained { IsChained (S.tree store.old).now }
    requires fresh { IsUnlinked op.now.id (S.tree store.old).now }
    requires fits { Fits (here (take depth op.now.cursor.path) (S.tree store.old))
        (drop depth op.now.cursor.path) op.now.cursor.last op.now.mutation }
    ensures ok { OnOk result (LeadsTo
        (λ c. Operate c (moved op.now (drop depth op.now.cursor.path) op.now.cursor.last op.now.mutation))
        (take depth op.now.cursor.path) (S.tree store.old) (S.tree store.new) trace.old trace.new) }
    ensures links { OnOk result (LinksOnly op.now.id (S.tree store.old) (S.tree store.new)) }
    ensures names_stay { NamesStay (S.names store.old) (S.names store.new) }
    ensures kept { TreeCanGoBack (S.tree store.old) (S.tree store.new) trace.old trace.new }
{
    let path = op.cursor.path.as_slice();
    if depth == path.len() {
        return operate_here(alloc, store, place, op, trace);
    }
    let key = &path[depth];
    let above = trace.depth();
    trace.open(Rule::Descend)?;
    // Added before the way down, at this place: its rules come after.
    let was = add_op(store, place, key, op)?;
    let child = enter_below(store, place, key, trace)?;
    operate(alloc, store, op, depth + 1, child, trace)?;
    trace_added(was, trace)?;
    trace.close(above);
    Ok(())
}

/// Applies the operation to the document, and adds its rules to the trace at its depth. No
/// identifier but the operation's own gets linked in a list.
///
/// An operation is refused with `NotInList` exactly where it doesn't fit; all else that is refused is
/// memory. After a refusal store and trace are as they were. That no derivation applies an operation
/// that is refused so is the law `refused_has_none` of jc_rules. In each sound set of operations that
/// has the operation's identifier and all of the document, the same rules apply the operation with the
/// dependencies that its version vector represents.
pub fn apply_op<S: TreeStore>(
    alloc: Global,
    store: &mut S,
    op: &Op,
    trace: &mut Trace,
) -> Result<(), ApplyFault>
    requires chained { IsChained (S.tree store.old).now }
    requires fresh { IsUnlinked op.now.id (S.tree store.old).now }
    ensures ok { OnOk result (Derives (Operate (S.tree store.old).now op.now)
        (ToContext (S.tree store.new).now) trace.old trace.new) }
    ensures stands { OnOk result ((set : List AnyOp) (deps : List AnyId) (own : AnyOp)
        → Represents set deps op.now.deps → op_of op.now.id set ≡ Some own
        → KnowsOnly (ids_of_ops set) (S.tree store.old).now
        → Derives (Operate (S.tree store.old).now (with_deps deps op.now))
        (ToContext (S.tree store.new).now) trace.old trace.new
        × KnowsOnly (ids_of_ops set) (S.tree store.new).now) }
    ensures fits { Fits (S.tree store.old).now op.now.cursor.path op.now.cursor.last op.now.mutation
        ↔ (IsErrOf result ApplyFault.NotInList → ⊥) }
    ensures refused { IsErrOf result ApplyFault.NotInList
        → Refused (Operate (S.tree store.old).now op.now) (because PlaceNotInList) }
    ensures stands_refused { IsErrOf result ApplyFault.NotInList → (deps : List AnyId)
        → Refused (Operate (S.tree store.old).now (with_deps deps op.now)) (because PlaceNotInList) }
    ensures names_stay { NamesStay (S.names store.old) (S.names store.new) }
    ensures err_store { OnErr result (S.tree store.new ≡ S.tree store.old) }
    ensures err_trace { OnErr result (trace.new ≡ trace.old) }
    ensures kept { TreeCanGoBack (S.tree store.old) (S.tree store.new) trace.old trace.new }
    ensures chained { IsChained (S.tree store.new).now }
    ensures unlinked { (i : AnyId) → i ≢ op.now.id
        → IsUnlinked i (S.tree store.old).now → IsUnlinked i (S.tree store.new).now }
{
    if !fits(store, &op.cursor, &op.mutation) {
        return Err(ApplyFault::NotInList);
    }
    let start = store.mark();
    let first = trace.mark();
    let root = store.root();
    if operate(alloc, store, op, 0, root, trace).is_err() {
        store.undo_to(start);
        trace.cut(first);
        return Err(ApplyFault::Memory);
    }
    Ok(())
}
