//! Builds the tree that a set of operations means; `building` and `ordering` are its two halves.

ghost use Rattle.std.specs.Prelude.{◌≡◌, ◌↔◌, List, [], map, is_some, IsTrue, IfOk};
ghost use Rattle.jc_rules.specs.declared.operation.Op.{Op as AnyOp};
ghost use Rattle.jc_rules.specs.WellFormed.{AreDistinct};
ghost use Rattle.jc_rules.specs.Sound.{IsSound};
ghost use Rattle.jc_rules.specs.Table.{op_of};
ghost use Rattle.jc_vectors.specs.StoredStates.{AreOf, stored_op};
ghost use Rattle.jc_replica.specs.Operations.{identifiers};
ghost use Rattle.jc_meaning.specs.Meaning.{IsMeaning};
ghost use Rattle.jc_meaning.specs.Replicas.{IsTreeOfReplicas};

use crate::building::fill;
use crate::ordering::link_all;
use jc_rules::{Id, Op, compare_ids};
use jc_tree::{PlainTree, TreeStore};
use std::alloc::{AllocError, Global};

/// Whether one of the operations has the identifier.
fn has_op(ops: &[Op], id: Id) -> bool
    ensures { result ≡ is_some (op_of id ops.now) }
{
    for op in ops {
        if compare_ids(id, op.id).is_eq() {
            return true;
        }
    }
    false
}

/// Whether no two operations have the same identifier. A caller of `meaning` can meet its condition by this test.
pub fn have_distinct_ids(ops: &[Op]) -> bool
    ensures { IsTrue result ↔ AreDistinct (identifiers ops.now) }
{
    let mut rest = ops;
    while let Some((op, later)) = rest.split_first() {
        if has_op(later, op.id) {
            return false;
        }
        rest = later;
    }
    true
}

/// The tree that the operations mean, in whatever order they are listed. No presence set in it is empty, and an insert
/// that isn't reached from its list's head isn't linked. Identifiers must differ, which `have_distinct_ids` tests.
///
/// For the operations that a replica has applied, in a network that is reached from a start, it is the replica's tree
/// without empty presence sets.
///
/// Dependencies may be version vectors, where the operations are of one sound set. The tree is then what the operations
/// mean with the dependencies that these represent. What an operation depends on need not be listed.
///
/// Nothing but memory is refused.
pub fn meaning(alloc: Global, ops: &[Op]) -> Result<PlainTree, AllocError>
    requires { AreDistinct (identifiers ops.now) }
    ensures meaning { IfOk result (λ tree. IsMeaning ops.now (⟦<PlainTree as TreeStore>⟧.tree tree).now) }
    ensures stands { IfOk result (λ tree. (set own : List AnyOp)
        → IsSound set → AreOf set own → ops.now ≡ map stored_op own
        → IsMeaning own (⟦<PlainTree as TreeStore>⟧.tree tree).now) }
    ensures replicas { IfOk result (λ tree. IsTreeOfReplicas ops.now (⟦<PlainTree as TreeStore>⟧.tree tree).now) }
    // No earlier content is kept.
    ensures unmarked { IfOk result (λ tree. (⟦<PlainTree as TreeStore>⟧.tree tree).earlier ≡ []) }
{
    let mut tree = PlainTree::new(alloc);
    fill(&mut tree, ops)?;
    link_all(alloc, &mut tree, ops)?;
    tree.forget_marks();
    Ok(tree)
}
