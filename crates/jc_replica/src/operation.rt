//! One operation is applied to a document, and its identifier is added. The events `exec` and `apply` do so.

ghost use Rattle.std.specs.Prelude.{◌≡◌, ◌≢◌, ◌<◌, List, IfOk, OnOk, OnErr, IfErr, IfSome};
ghost use Rattle.jc_rules.specs.declared.id.Id.{Id as AnyId};
ghost use Rattle.jc_rules.specs.Derivation.{Operate, ToContext};
ghost use Rattle.jc_rules.specs.Derives.{Derives};
ghost use Rattle.jc_rules.specs.VersionVectors.{covered, ids_up_to, greatest_of};
ghost use Rattle.jc_rules.specs.Ids.{union};
ghost use Rattle.jc_rules.specs.Refused.{Refused};
ghost use Rattle.jc_rules.specs.WellFormed.{IsChained};
ghost use Rattle.jc_rules.specs.History.{IsLater};
ghost use Rattle.jc_vectors.specs.OperationIds.{with_deps};
ghost use Rattle.jc_apply.specs.Fits.{IsUnlinked};
ghost use Rattle.jc_replica.specs.Answers.{fault_cause_of};

use crate::fault::ReplicaFault;
use jc_apply::apply_op;
use jc_rules::{IdSet, Op, Trace};
use jc_tree::TreeStore;
use std::alloc::Global;

/// Applies the operation to the document, and adds its identifier to those applied. Returns the greatest counter that
/// its replica had among them. After a refusal document and identifiers are as they were.
pub fn apply_to<S: TreeStore>(
    alloc: Global,
    store: &mut S,
    ops: &mut IdSet,
    op: &Op,
    trace: &mut Trace,
) -> Result<u64, ReplicaFault>
    requires chained { IsChained (S.tree store.old).now }
    requires fresh { IsUnlinked op.now.id (S.tree store.old).now }
    requires counters { ops.old ≡ covered ops.old }
    requires above { greatest_of op.now.id.replica ops.old < op.now.id.counter }
    ensures ok { OnOk result (Derives (Operate (S.tree store.old).now op.now)
        (ToContext (S.tree store.new).now) trace.old trace.new) }
    ensures before { IfOk result (λ before. before ≡ greatest_of op.now.id.replica ops.old) }
    ensures ops { OnOk result (ops.new ≡ union (ids_up_to op.now.id.replica op.now.id.counter) ops.old) }
    ensures refused { IfErr result (λ f. IfSome (fault_cause_of f) (λ why. (deps : List AnyId)
        → Refused (Operate (S.tree store.old).now (with_deps deps op.now)) why)) }
    ensures err_store { OnErr result (S.tree store.new ≡ S.tree store.old) }
    ensures err_ops { OnErr result (ops.new ≡ ops.old) }
    ensures later { IsLater (S.tree store.old) (S.tree store.new) }
    ensures chained { IsChained (S.tree store.new).now }
    ensures unlinked { (i : AnyId) → i ≢ op.now.id
        → IsUnlinked i (S.tree store.old).now → IsUnlinked i (S.tree store.new).now }
{
    let before = ops.greatest_of(op.id.replica);
    ops.insert(op.id)?;
    if let Err(fault) = apply_op(alloc, store, op, trace) {
        ops.withdraw(op.id, before);
        return Err(fault.into());
    }
    Ok(before)
}
