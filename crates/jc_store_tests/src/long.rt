//! A list of 60,000 elements: a walk along it is a loop.

ghost use Rattle.std.specs.Prelude.{◌+◌, ◌<◌, OnOk};
ghost use Rattle.jc_rules.specs.WellFormed.{IsChained};
ghost use Rattle.jc_store_tests.specs.Ready.{IsReady};

use crate::expressions::{Want, gives};
use crate::keys::{At, Keys, Tag};
use crate::operations::{Does, Made, all_to, apply_next, id_of, make};
use jc_clear::clear;
use jc_rules::{Cursor, IdSet, Key, Mutation, Path, Tagged, Trace, Value};
use jc_tree::{TreeStore, is_place};
use std::alloc::{AllocError, Global};

const ELEMENTS: u64 = 60_000;

const THE_LIST: Made = Made {
    path: &[],
    last: At::Doc,
    does: Does::AssignList,
};

/// The cursor to a key of the document's list.
fn in_the_list(alloc: Global, last: Key) -> Result<Cursor, AllocError> {
    let mut path = Path::new(alloc);
    path.push(Tagged::ListT(Key::Doc))?;
    Ok(Cursor { path, last })
}

/// The cursor behind which the operation that comes after so many inserts.
fn cursor_after(alloc: Global, count: u64) -> Result<Cursor, AllocError> {
    if count == 1 {
        in_the_list(alloc, Key::Head)
    } else {
        in_the_list(alloc, Key::Elem(id_of(count)))
    }
}

fn insert<S: TreeStore>(keys: &Keys, store: &mut S, count: u64) -> Result<(), AllocError>
    requires few { count < 100000 }
    requires ready { IsReady count (S.tree store.old).now }
    ensures { OnOk result (IsReady (count + 1) (S.tree store.new).now) }
{
    let cursor = cursor_after(keys.alloc, count)?;
    let (deps, mutation) = (IdSet::new(keys.alloc), Mutation::Insert(Value::True));
    match apply_next(keys.alloc, store, count, deps, cursor, mutation) {
        Ok(()) => Ok(()),
        Err(_) => Err(AllocError),
    }
}

/// Inserts the elements one behind the other, with the counters from 2 on.
fn make_long<S: TreeStore>(keys: &Keys, store: &mut S) -> Result<(), AllocError>
    requires { IsReady 0 (S.tree store.old).now }
    ensures { OnOk result (IsChained (S.tree store.new).now) }
{
    make(keys, store, 0, &THE_LIST)?;
    for count in 1..ELEMENTS + 1 {
        insert(keys, store, count)?;
    }
    Ok(())
}

/// Whether the last element is given, by as many rules as there are elements, and four, and none behind it.
fn has_last<S: TreeStore>(alloc: Global, store: &S) -> Result<bool, AllocError>
    requires { IsChained (S.tree store.now).now }
{
    Ok(
        gives(
            alloc,
            store,
            &[],
            "doc.idx(60000)",
            Want::Element(60_001),
            60_004,
        )? && gives(alloc, store, &[], "doc.idx(60001)", Want::PastEnd, 0)?
            && gives(alloc, store, &[], "doc.idx(4294967295)", Want::PastEnd, 0)?,
    )
}

/// How many identifiers the last element has, and how many values.
fn counted<S: TreeStore>(keys: &Keys, store: &S) -> Option<(usize, usize)> {
    let at = keys.in_the_list();
    if !is_place(store, at) {
        return None;
    }
    let last = Key::Elem(id_of(ELEMENTS + 1));
    match (store.presence(at, &last), store.register(at, &last)) {
        (Some(ids), Some(pairs)) => Some((ids.len(), pairs.len())),
        _ => None,
    }
}

fn clear_after<S: TreeStore>(keys: &Keys, store: &mut S, deps: &IdSet) -> Result<bool, AllocError>
    requires { IsChained (S.tree store.old).now }
{
    let mut trace = Trace::new(keys.alloc);
    let list = keys.child(Tag::List, At::Doc);
    let left = clear(keys.alloc, store, deps, &[], list, &mut trace)?;
    Ok(left.is_empty())
}

/// Clears the list, all its operations being known: no identifier is left.
fn clear_all<S: TreeStore>(keys: &Keys, store: &mut S) -> Result<bool, AllocError>
    requires { IsChained (S.tree store.old).now }
{
    let deps = all_to(keys.alloc, ELEMENTS + 1)?;
    clear_after(keys, store, &deps)
}

/// Whether the list is cleared, and is as it was when that is taken back.
fn is_cleared<S: TreeStore>(keys: &Keys, store: &mut S) -> Result<bool, AllocError>
    requires { IsChained (S.tree store.old).now }
{
    let start = store.mark();
    let is = clear_all(keys, store)? && counted(keys, store) == Some((0, 0));
    if store.mark().changes < start.changes {
        return Ok(false);
    }
    store.undo_to(start);
    Ok(is && counted(keys, store) == Some((1, 1)))
}

/// Whether all of it stands so in the store.
pub fn is_long<S: TreeStore>(keys: &Keys, store: &mut S) -> Result<bool, AllocError>
    requires { IsReady 0 (S.tree store.old).now }
{
    make_long(keys, store)?;
    Ok(has_last(keys.alloc, store)? && is_cleared(keys, store)?)
}
