//! Each call once, where memory is ample, with values from the published rules.

use crate::testing::{holds, is_text};
use jc_rules::{
    Cursor, Event, Id, IdSet, Key, Mutation, Next, Op, Path, Tagged, Text, Value, Version,
    compare_ids, compare_keys, name_at,
};
use std::alloc::{AllocError, Global};
use std::cmp::Ordering;
use std::process::Abort;
use std::test::Fail;

fn text(alloc: Global, bytes: &str) -> Result<Text, AllocError> {
    Text::new(alloc, String::from_str(alloc, bytes)?)
}

fn id(counter: u64, replica: u16) -> Id {
    Id { counter, replica }
}

fn are_same<T: PartialEq>(rt: &impl Abort, got: &T, want: &T) {
    assert!(rt; *got == *want);
}

#[test]
fn texts(rt: HostRuntime) -> Result<(), Fail> {
    let names = [text(rt.alloc(), "a")?, text(rt.alloc(), "a1")?];
    let first = &names[0];
    let second = &names[1];
    is_text(&rt, first.as_str(), "a");
    holds(&rt, "<", *first < *second);
    holds(&rt, "cmp", first.cmp(second) == Ordering::Less);
    holds(
        &rt,
        "partial_cmp",
        first.partial_cmp(second) == Some(Ordering::Less),
    );
    let copy = first.copy()?;
    are_same(&rt, &copy, first);
    for (replica, want) in [(0, "a"), (1, "a1"), (2, "")] {
        is_text(&rt, name_at(&names, replica), want);
    }
    Ok(())
}

// By counter, then by replica.
#[test]
fn orders_of_identifiers(rt: HostRuntime) {
    let rows = [
        (id(2, 0), id(1, 1), Ordering::Greater),
        (id(1, 0), id(1, 1), Ordering::Less),
        (id(1, 1), id(1, 1), Ordering::Equal),
    ];
    for (first, second, want) in rows {
        are_same(&rt, &compare_ids(first, second), &want);
    }
}

// By kind.
#[test]
fn orders_of_keys(rt: HostRuntime) -> Result<(), Fail> {
    let name = Key::Name(text(rt.alloc(), "z")?);
    let element = Key::Elem(id(1, 0));
    are_same(&rt, &compare_keys(&Key::Doc, &Key::Head), &Ordering::Less);
    are_same(&rt, &compare_keys(&Key::Head, &name), &Ordering::Less);
    are_same(&rt, &compare_keys(&element, &name), &Ordering::Greater);
    Ok(())
}

#[test]
fn keys_are_copied(rt: HostRuntime) -> Result<(), Fail> {
    let name = Key::Name(text(rt.alloc(), "z")?);
    let copy = name.copy()?;
    are_same(&rt, &copy, &name);
    let list = Tagged::ListT(Key::Elem(id(1, 0)).copy()?);
    let again = list.copy()?;
    are_same(&rt, &again, &list);
    are_same(&rt, list.key(), &Key::Elem(id(1, 0)));
    are_same(&rt, &Tagged::default(), &Tagged::MapT(Key::Doc));
    are_same(&rt, &Next::Elem(id(1, 0)), &Next::Elem(id(1, 0)));
    Ok(())
}

/// The cursor at the document's key `a`.
fn cursor_at_a(alloc: Global) -> Result<Cursor, AllocError> {
    let mut path = Path::new(alloc);
    path.push(Tagged::MapT(Key::Doc))?;
    Ok(Cursor {
        path,
        last: Key::Name(text(alloc, "a")?),
    })
}

/// The operation 2 of replica 0, which inserts a number there and depends on 1 of replica 1.
fn an_operation(alloc: Global) -> Result<Op, AllocError> {
    let cursor = cursor_at_a(alloc)?;
    let mut deps = IdSet::new(alloc);
    deps.insert(id(1, 1))?;
    Ok(Op {
        id: id(2, 0),
        deps,
        cursor,
        mutation: Mutation::Insert(Value::Number(text(alloc, "1e999")?)),
    })
}

fn is_path(path: &Path) -> bool {
    path.as_slice() == [Tagged::MapT(Key::Doc)].as_slice()
}

/// Whether the copy has the identifier, the dependency and the path of `an_operation`, and the rest as it is in `op`.
fn is_copy(copy: &Op, op: &Op) -> bool {
    copy.id == id(2, 0)
        && copy.deps.contains(id(1, 1))
        && is_path(&copy.cursor.path)
        && copy.cursor.last == op.cursor.last
        && copy.mutation == op.mutation
}

#[test]
fn operations_are_copied(rt: HostRuntime) -> Result<(), Fail> {
    let op = an_operation(rt.alloc())?;
    let copy = op.copy()?;
    holds(&rt, "an operation", is_copy(&copy, &op));
    Ok(())
}

#[test]
fn cursors_are_copied(rt: HostRuntime) -> Result<(), Fail> {
    let cursor = cursor_at_a(rt.alloc())?;
    let copy = cursor.copy()?;
    holds(&rt, "its path", is_path(&copy.path));
    are_same(&rt, &copy.last, &cursor.last);
    let path = cursor.path.copy()?;
    holds(&rt, "a path", is_path(&path));
    Ok(())
}

/// A copy that goes further down leaves the first path as it was; a path takes no other path's keys.
#[test]
fn paths_share_their_keys(rt: HostRuntime) -> Result<(), Fail> {
    let mut path = Path::new(rt.alloc());
    path.push(Tagged::MapT(Key::Doc))?;
    let mut below = path.copy()?;
    below.push(Tagged::ListT(Key::Head))?;
    holds(&rt, "the path", is_path(&path));
    let keys = [Tagged::MapT(Key::Doc), Tagged::ListT(Key::Head)];
    holds(&rt, "below it", below.as_slice() == keys.as_slice());
    let mut again = cursor_at_a(rt.alloc())?.path;
    again.share(&path)?;
    holds(&rt, "with the same", is_path(&again));
    again.share(&below)?;
    holds(&rt, "with another", is_path(&again));
    Ok(())
}

#[test]
fn mutations_are_copied(rt: HostRuntime) -> Result<(), Fail> {
    let mutation = Mutation::Insert(Value::Number(text(rt.alloc(), "1e999")?));
    let copy = mutation.copy()?;
    are_same(&rt, &copy, &mutation);
    let null = Value::Null.copy()?;
    are_same(&rt, &null, &Value::Null);
    Ok(())
}

#[test]
fn events_name_their_replica(rt: HostRuntime) {
    for event in [
        Event::Exec(3),
        Event::Send(3),
        Event::Recv(3, 4),
        Event::Take(3, 4, id(1, 5)),
        Event::Apply(3, id(1, 4)),
        Event::Done(3),
    ] {
        are_same(&rt, &event.replica(), &3);
    }
}

/// Takes are of version 2 alone.
#[test]
fn versions_allow_events(rt: HostRuntime) {
    let take = Event::Take(0, 1, id(1, 1));
    let recv = Event::Recv(0, 1);
    holds(&rt, "take in 1", !Version::One.allows(&take));
    holds(&rt, "take in 2", Version::Two.allows(&take));
    holds(&rt, "recv in 1", Version::One.allows(&recv));
    holds(&rt, "recv in 2", Version::Two.allows(&recv));
}
