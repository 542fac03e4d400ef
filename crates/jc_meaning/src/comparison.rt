//! Compares two replicas of a network: have they applied the same operations, and have they the same tree? The
//! debugger shows the answer.

ghost use Rattle.std.specs.Prelude.{◌≤◌, ◌⊎◌, ◌↔◌, length, IfOk, IsErrOf};
ghost use Rattle.jc_network.specs.declared.fault.CompareFault.TheVariants as C;
ghost use Rattle.jc_meaning.specs.Comparison.{IsComparison};

use crate::sameness::same_tree;
use jc_network::{CompareFault, Net};
use std::alloc::Global;

/// What `compare` finds of two replicas.
#[derive(Clone, Copy, Debug, PartialEq, Eq)]
pub enum Comparison {
    /// They have applied the same operations.
    SameOps {
        /// Whether their trees are the same, but for empty presence sets. They always are.
        same_tree: bool,
    },
    /// They have applied different operations.
    DifferentOps,
}

/// Compares two replicas of the network: the operations that they have applied, and where these are the same, their
/// trees.
///
/// It is refused with `NoSuchReplica` exactly where the network has no replica of one of the two numbers, and else for
/// want of memory alone.
pub fn compare(alloc: Global, net: &Net, p: u16, q: u16) -> Result<Comparison, CompareFault>
    ensures compared { IfOk result (λ comparison. IsComparison net.now.history.now.states p q comparison) }
    ensures missing { IsErrOf result C.NoSuchReplica
        ↔ ((length net.now.history.now.states ≤ p) ⊎ (length net.now.history.now.states ≤ q)) }
{
    // For its contract: events have led to the network from a start, so version vectors determine what is applied.
    let _steps = net.steps();
    let Some(left) = net.replica(p) else {
        return Err(CompareFault::NoSuchReplica);
    };
    let Some(right) = net.replica(q) else {
        return Err(CompareFault::NoSuchReplica);
    };
    if !left.ops().is_subset(right.ops()) {
        return Ok(Comparison::DifferentOps);
    }
    if !right.ops().is_subset(left.ops()) {
        return Ok(Comparison::DifferentOps);
    }
    let same_tree = same_tree(alloc, left.tree(), right.tree())?;
    Ok(Comparison::SameOps { same_tree })
}
