//! Finds a replica of a network by its number and returns its document line, for the command `view`.

ghost use Rattle.std.specs.Prelude.{◌≡◌, ◌≤◌, ◌↔◌, Some, length, slice_get, IfOk, IsErrOf};
ghost use Rattle.jc_rules.specs.ReplicaNames.{name_at};
ghost use Rattle.jc_rules.specs.State.{State};
ghost use Rattle.jc_network.specs.declared.fault.CompareFault.TheVariants as E;
ghost use Rattle.jc_view.specs.Visible.{view_line};

use crate::document::view_line;
use jc_network::{CompareFault, Net};
use jc_rules::name_at;
use std::alloc::Global;

/// The document line, with its line feed, of the network's replica `p`. It is refused with `NoSuchReplica` exactly
/// where there is none, and else for want of memory alone.
pub fn view_replica(alloc: Global, net: &Net, p: u16) -> Result<Vec<u8>, CompareFault>
    ensures view { IfOk result (λ line.
        (A : State) → slice_get net.now.history.now.states p ≡ Some A
        → line.items ≡ view_line net.now.names (name_at net.now.names p) A) }
    ensures missing { IsErrOf result E.NoSuchReplica ↔ length net.now.history.now.states ≤ p }
{
    // For its contract: events have led to the network from a start, so lists are chained.
    let _steps = net.steps();
    let Some(replica) = net.replica(p) else {
        return Err(CompareFault::NoSuchReplica);
    };
    let names = net.names();
    Ok(view_line(alloc, names, name_at(names, p), replica)?)
}
