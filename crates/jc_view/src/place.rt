//! What is shown at a cursor of a replica's document, and the line that has it, for requests of programs.

ghost use Rattle.std.specs.Prelude.{◌≡◌, ◌≤◌, ◌↔◌, codes, Some, length, slice_get, IfOk, OnOk, IsErrOf};
ghost use Rattle.jc_rules.specs.ContextsAt.{node_at};
ghost use Rattle.jc_rules.specs.ReplicaNames.{name_at};
ghost use Rattle.jc_rules.specs.State.{State};
ghost use Rattle.jc_rules.specs.WellFormed.{IsChained};
ghost use Rattle.jc_json.specs.Gains.{Gains};
ghost use Rattle.jc_network.specs.declared.fault.CompareFault.TheVariants as E;
ghost use Rattle.jc_view.specs.Parts.{member_tokens};
ghost use Rattle.jc_view.specs.Places.{shown_in, place_line};
ghost use Rattle.jc_view.specs.Visible.{goes_by};

use crate::document::{View, is_present, write_place};
use jc_network::{CompareFault, Net};
use jc_replica::Replica;
use jc_rules::{Cursor, Tagged, Text, name_at};
use jc_tree::{ANYWHERE, KeyAt, TreeStore, is_place, place_of};
use json::Writer;
use std::alloc::{AllocError, Global};

/// A copy of a path.
fn copy_path(alloc: Global, path: &[Tagged]) -> Result<Vec<Tagged>, AllocError>
    ensures { IfOk result (λ copy. copy.items ≡ path.now) }
{
    let mut copy = Vec::new(alloc);
    for tagged in path {
        copy.push(tagged.copy()?)?;
    }
    Ok(copy)
}

/// Writes what is shown at a cursor as a member, if something is.
fn write_shown<S: TreeStore>(
    view: &View<'_, S>,
    cursor: &Cursor,
    out: &mut Writer,
) -> Result<(), AllocError>
    requires { IsChained (S.tree view.now.store.now).now }
    ensures { OnOk result (Gains out.old out.new (member_tokens (codes "doc")
        (shown_in view.now.names.now (goes_by view.now.replica.now.history.now) cursor.now.path
        (node_at cursor.now.path (S.tree view.now.store.now).now) cursor.now.last))) }
{
    let path = cursor.path.as_slice();
    if !is_place(view.store, path) {
        return Ok(());
    }
    let key = KeyAt {
        place: place_of(view.store, path),
        key: &cursor.last,
        hint: ANYWHERE,
    };
    if is_present(view.store, key) {
        let mut at = copy_path(view.alloc, path)?;
        out.key("doc")?;
        write_place(view, &mut at, key, out)?;
    }
    Ok(())
}

/// The line of a replica with this name, with its line feed: what is shown at the cursor. `names` has the name of each
/// replica at its number. Nothing but memory is refused.
fn place_line<S: TreeStore>(
    alloc: Global,
    names: &[Text],
    name: &str,
    replica: &Replica<S>,
    cursor: &Cursor,
) -> Result<Vec<u8>, AllocError>
    requires { IsChained replica.now.history.now.tree }
    ensures { IfOk result (λ line. line.items ≡ place_line names.now name.now replica.now.history.now cursor.now) }
{
    let view = View {
        alloc,
        names,
        replica,
        store: replica.tree(),
    };
    let mut out = Writer::new(Vec::new(alloc));
    out.begin_object()?;
    write_shown(&view, cursor, &mut out)?;
    out.key("name")?;
    out.string(name)?;
    out.end_object()?;
    let mut line = out.into_inner();
    line.push(b'\n')?;
    Ok(line)
}

/// The line, with its line feed, of what the network's replica `p` shows at the cursor. It is refused with
/// `NoSuchReplica` exactly where there is no such replica, and else for want of memory alone.
pub fn view_place(
    alloc: Global,
    net: &Net,
    p: u16,
    cursor: &Cursor,
) -> Result<Vec<u8>, CompareFault>
    ensures view { IfOk result (λ line.
        (A : State) → slice_get net.now.history.now.states p ≡ Some A
        → line.items ≡ place_line net.now.names (name_at net.now.names p) A cursor.now) }
    ensures missing { IsErrOf result E.NoSuchReplica ↔ length net.now.history.now.states ≤ p }
{
    // For its contract: events have led to the network from a start, so lists are chained.
    let _steps = net.steps();
    let Some(replica) = net.replica(p) else {
        return Err(CompareFault::NoSuchReplica);
    };
    let names = net.names();
    Ok(place_line(alloc, names, name_at(names, p), replica, cursor)?)
}
