//! The dump line of one replica of a network, the crate's main call, and its dump without the tree.

ghost use Rattle.std.specs.Prelude.{◌≡◌, ◌≤◌, ◌↔◌, Some, length, slice_get, string_bytes, IfOk, IsErrOf};
ghost use Rattle.jc_rules.specs.ReplicaNames.{name_at};
ghost use Rattle.jc_rules.specs.State.{State};
ghost use Rattle.jc_network.specs.declared.fault.CompareFault.TheVariants as E;
ghost use Rattle.jc_dump.specs.Dump.{ids_of_dumped, dump_line, brief_text};
ghost use Rattle.jc_dump.specs.DumpParts.{HasParts};

use crate::dump::{Shown, dump_text};
use jc_network::{CompareFault, Net};
use jc_rules::{Id, Op, name_at};
use jc_tree::{ArenaTree, TreeStore};
use std::alloc::{AllocError, Global};

/// Returns the identifiers of the operations.
fn ids_of(alloc: Global, ops: &[Op]) -> Result<Vec<Id>, AllocError>
    ensures { IfOk result (λ ids. ids.items ≡ ids_of_dumped ops.now) }
{
    let mut ids = Vec::new(alloc);
    for op in ops {
        ids.push(op.id)?;
    }
    Ok(ids)
}

/// Returns what a dump shows of the network's replica `p`, and its tree. It is refused with `NoSuchReplica` where there
/// is none, else for want of memory.
fn shown_of<'a>(
    alloc: Global,
    net: &'a Net,
    p: u16,
) -> Result<(Shown<'a>, &'a ArenaTree), CompareFault>
    ensures name { IfOk result (λ shown. shown.0.name.now ≡ name_at net.now.names p) }
    ensures parts { IfOk result (λ shown.
        (A : State) → slice_get net.now.history.now.states p ≡ Some A
        → HasParts A shown.0 (⟦<ArenaTree as TreeStore>⟧.tree shown.1.now).now) }
    ensures missing { IsErrOf result E.NoSuchReplica ↔ length net.now.history.now.states ≤ p }
{
    let Some(replica) = net.replica(p) else {
        return Err(CompareFault::NoSuchReplica);
    };
    let shown = Shown {
        name: name_at(net.names(), p),
        acted: replica.acted(),
        left: replica.left().len(),
        ops: net.applied_ids(p)?,
        queue: ids_of(alloc, replica.queue())?,
        recv: ids_of(alloc, replica.received())?,
        send: ids_of(alloc, replica.sent())?,
        vars: replica.vars(),
    };
    Ok((shown, replica.tree()))
}

/// Returns the dump line of the network's replica `p`, with its line feed. It is refused with `NoSuchReplica` where
/// there is none, else for want of memory.
pub fn dump_replica(alloc: Global, net: &Net, p: u16) -> Result<String, CompareFault>
    ensures dump { IfOk result (λ line.
        (A : State) → slice_get net.now.history.now.states p ≡ Some A
        → string_bytes line ≡ dump_line net.now.names (name_at net.now.names p) A) }
    ensures missing { IsErrOf result E.NoSuchReplica ↔ length net.now.history.now.states ≤ p }
{
    let (shown, tree) = shown_of(alloc, net, p)?;
    let mut line = dump_text(alloc, net.names(), &shown, Some(tree))?;
    line.push_str("\n")?;
    Ok(line)
}

/// Returns the dump of the network's replica `p` without its tree, and without a line feed. It is refused as
/// `dump_replica` is.
pub fn brief_replica(alloc: Global, net: &Net, p: u16) -> Result<String, CompareFault>
    ensures brief { IfOk result (λ text.
        (A : State) → slice_get net.now.history.now.states p ≡ Some A
        → string_bytes text ≡ brief_text net.now.names (name_at net.now.names p) A) }
    ensures missing { IsErrOf result E.NoSuchReplica ↔ length net.now.history.now.states ≤ p }
{
    let (shown, _) = shown_of(alloc, net, p)?;
    Ok(dump_text(alloc, net.names(), &shown, None::<&ArenaTree>)?)
}
