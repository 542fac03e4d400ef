//! Tests of the comparison of trees that differ in one entry, or in none but empty presence sets.

ghost use Rattle.std.specs.Prelude.{IfOk};
ghost use Rattle.jc_rules.specs.WellFormed.{IsWellFormedRegister};

use jc_meaning::same_tree;
use jc_rules::{Id, Key, Next, Tagged, Value};
use jc_tree::{ArenaTree, PlainTree, TreeStore, is_place};
use std::alloc::{AllocError, Global};
use std::process::Abort;
use std::test::Fail;

const FIRST: Id = Id {
    counter: 1,
    replica: 0,
};

const SECOND: Id = Id {
    counter: 2,
    replica: 1,
};

/// An entry that is put under the key `doc` of a context.
#[derive(Clone, Copy)]
enum Entry {
    Map,
    List,
    NoIds,
    Ids(Id),
    Link(Next),
    Register(Option<Id>),
}

/// The entries of the root, and those of the map under its key `doc`.
type Entries = (&'static [Entry], &'static [Entry]);

fn make<S: TreeStore>(
    rt: &impl Abort,
    store: &mut S,
    at: &[Tagged],
    key: &Tagged,
) -> Result<(), AllocError> {
    assert!(rt; is_place(store, at) && !store.has(at, key));
    store.make_child(at, key)
}

fn add_id<S: TreeStore>(
    rt: &impl Abort,
    store: &mut S,
    at: &[Tagged],
    id: Id,
) -> Result<(), AllocError> {
    assert!(rt; is_place(store, at));
    let _was = store.add_presence(at, &Key::Doc, id)?;
    Ok(())
}

fn put_no_ids<S: TreeStore>(
    rt: &impl Abort,
    store: &mut S,
    at: &[Tagged],
) -> Result<(), AllocError> {
    assert!(rt; is_place(store, at));
    store.set_presence(at, &Key::Doc, &[])
}

fn link<S: TreeStore>(
    rt: &impl Abort,
    store: &mut S,
    at: &[Tagged],
    next: Next,
) -> Result<(), AllocError> {
    assert!(rt; is_place(store, at));
    store.set_next(at, &Key::Doc, next)
}

fn values(alloc: Global, id: Option<Id>) -> Result<Vec<(Id, Value)>, AllocError>
    ensures { IfOk result (λ pairs. IsWellFormedRegister pairs.items) }
{
    match id {
        Some(id) => Ok(vec![in alloc; (id, Value::True)]?),
        None => Ok(Vec::new(alloc)),
    }
}

fn put_values<S: TreeStore>(
    rt: &impl Abort,
    store: &mut S,
    at: &[Tagged],
    pairs: Vec<(Id, Value)>,
) -> Result<(), AllocError>
    requires { IsWellFormedRegister pairs.items }
{
    assert!(rt; is_place(store, at));
    store.set_register(at, &Key::Doc, pairs)
}

fn put<S: TreeStore>(
    rt: &impl Abort,
    alloc: Global,
    store: &mut S,
    at: &[Tagged],
    entry: Entry,
) -> Result<(), AllocError> {
    match entry {
        Entry::Map => make(rt, store, at, &Tagged::MapT(Key::Doc)),
        Entry::List => make(rt, store, at, &Tagged::ListT(Key::Doc)),
        Entry::NoIds => put_no_ids(rt, store, at),
        Entry::Ids(id) => add_id(rt, store, at, id),
        Entry::Link(next) => link(rt, store, at, next),
        Entry::Register(id) => put_values(rt, store, at, values(alloc, id)?),
    }
}

fn fill<S: TreeStore>(
    rt: &impl Abort,
    alloc: Global,
    store: &mut S,
    entries: &Entries,
) -> Result<(), AllocError> {
    for entry in entries.0 {
        put(rt, alloc, store, &[], *entry)?;
    }
    let below = [Tagged::MapT(Key::Doc)];
    for entry in entries.1 {
        put(rt, alloc, store, &below, *entry)?;
    }
    Ok(())
}

fn are_found<S: TreeStore, T: TreeStore>(
    rt: &impl Abort,
    alloc: Global,
    one: &S,
    other: &T,
    same: bool,
) {
    assert!(rt; same_tree(alloc, one, other) == Ok(same));
}

/// Both trees are found the same or not, whichever comes first, and each is found the same as itself.
fn are_compared(rt: &impl Abort, alloc: Global, left: &PlainTree, right: &ArenaTree, same: bool) {
    are_found(rt, alloc, left, right, same);
    are_found(rt, alloc, right, left, same);
    are_found(rt, alloc, left, left, true);
    are_found(rt, alloc, right, right, true);
}

/// Two trees, which have these entries then.
fn fill_both(
    rt: &impl Abort,
    alloc: Global,
    left: &mut PlainTree,
    right: &mut ArenaTree,
    row: &Row,
) -> Result<(), AllocError> {
    fill(rt, alloc, left, &row.0)?;
    fill(rt, alloc, right, &row.1)?;
    are_compared(rt, alloc, left, right, row.2);
    Ok(())
}

fn expect_of(
    rt: &impl Abort,
    alloc: Global,
    left: &mut PlainTree,
    row: &Row,
) -> Result<(), AllocError> {
    let mut right = ArenaTree::new(alloc)?;
    fill_both(rt, alloc, left, &mut right, row)
}

fn expect(rt: &impl Abort, alloc: Global, row: &Row) -> Result<(), AllocError> {
    let mut left = PlainTree::new(alloc);
    expect_of(rt, alloc, &mut left, row)
}

/// The entries of two trees, and whether they are the same.
type Row = (Entries, Entries, bool);

const ROWS: [Row; 12] = [
    ((&[], &[]), (&[], &[]), true),
    ((&[Entry::NoIds], &[]), (&[], &[]), true),
    ((&[Entry::Ids(FIRST)], &[]), (&[], &[]), false),
    (
        (&[Entry::Ids(FIRST)], &[]),
        (&[Entry::Ids(SECOND)], &[]),
        false,
    ),
    ((&[Entry::Link(Next::Tail)], &[]), (&[], &[]), false),
    (
        (&[Entry::Link(Next::Tail)], &[]),
        (&[Entry::Link(Next::Elem(FIRST))], &[]),
        false,
    ),
    ((&[Entry::Register(None)], &[]), (&[], &[]), false),
    (
        (&[Entry::Register(Some(FIRST))], &[]),
        (&[Entry::Register(Some(SECOND))], &[]),
        false,
    ),
    ((&[Entry::Map], &[]), (&[], &[]), false),
    ((&[Entry::Map], &[]), (&[Entry::List], &[]), false),
    (
        (&[Entry::Map], &[Entry::Ids(FIRST)]),
        (&[Entry::Map], &[]),
        false,
    ),
    ((&[Entry::Map], &[Entry::NoIds]), (&[Entry::Map], &[]), true),
];

#[test]
fn one_entry(rt: HostRuntime) -> Result<(), Fail> {
    for row in &ROWS {
        expect(&rt, rt.alloc(), row)?;
    }
    Ok(())
}
