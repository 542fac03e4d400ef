//! Clearing of documents that no operations make.

ghost use Rattle.jc_rules.specs.WellFormed.{IsChained};
ghost use Rattle.jc_tree.specs.Tree.{HasPlace};

use crate::by_hand::{make_map, put_ids, put_true};
use crate::keys::{At, Keys, SECOND, THIRD, Tag};
use crate::operations::all_to;
use jc_clear::{clear, clear_elem};
use jc_rules::{Id, IdSet, Key, Rule, Tagged, Trace};
use jc_tree::{TreeStore, is_place};
use std::alloc::{AllocError, Global};
use std::process::Abort;

/// The key of a register that is cleared: only the presence of `deps` goes.
const OF_A_REGISTER: [(Rule, u64); 6] = [
    (Rule::ClearElem, 0),
    (Rule::ClearAny, 1),
    (Rule::ClearNone, 2),
    (Rule::ClearNone, 2),
    (Rule::ClearReg, 2),
    (Rule::Presence1, 1),
];

/// A map of two registers that is cleared, the second without a presence set.
const OF_A_MAP: [(Rule, u64); 16] = [
    (Rule::ClearMap1, 0),
    (Rule::ClearMap2, 1),
    (Rule::ClearElem, 2),
    (Rule::ClearAny, 3),
    (Rule::ClearNone, 4),
    (Rule::ClearNone, 4),
    (Rule::ClearReg, 4),
    (Rule::Presence1, 3),
    (Rule::ClearMap2, 2),
    (Rule::ClearElem, 3),
    (Rule::ClearAny, 4),
    (Rule::ClearNone, 5),
    (Rule::ClearNone, 5),
    (Rule::ClearReg, 5),
    (Rule::Presence2, 4),
    (Rule::ClearMap3, 3),
];

/// Whether the key of the map has this presence set, and a register of so many values.
fn has<S: TreeStore>(store: &S, at: &[Tagged], key: &Key, ids: &[Id], values: usize) -> bool {
    is_place(store, at)
        && store.presence(at, key) == Some(ids)
        && store
            .register(at, key)
            .is_some_and(|pairs| pairs.len() == values)
}

/// What is cleared: what is under a tagged key, or a key under each tag.
#[derive(Clone, Copy)]
enum Cleared<'a> {
    Child(&'a Tagged),
    Key(&'a Key),
}

/// Clears at the place, and returns the identifiers that are left.
fn left_after<S: TreeStore>(
    alloc: Global,
    store: &mut S,
    deps: &IdSet,
    at: &[Tagged],
    what: &Cleared,
    trace: &mut Trace,
) -> Result<Vec<Id>, AllocError>
    requires there { HasPlace at.now (S.tree store.old) }
    requires chained { IsChained (S.tree store.old).now }
{
    match what {
        Cleared::Child(key) => clear(alloc, store, deps, at, key, trace),
        Cleared::Key(key) => clear_elem(alloc, store, deps, at, key, trace),
    }
}

/// Whether clearing at the place leaves these identifiers, by these rules.
fn clears<S: TreeStore>(
    alloc: Global,
    store: &mut S,
    deps: &IdSet,
    at: &[Tagged],
    what: &Cleared,
    left: &[Id],
    rows: &[(Rule, u64)],
) -> Result<bool, AllocError>
    requires there { HasPlace at.now (S.tree store.old) }
    requires chained { IsChained (S.tree store.old).now }
{
    let mut trace = Trace::new(alloc);
    let ids = left_after(alloc, store, deps, at, what, &mut trace)?;
    let shown = trace.to_rows(alloc)?;
    Ok(ids.as_slice() == left && shown.as_slice() == rows && trace.depth() == 0)
}

/// A key of the map is cleared: its value goes, and an identifier of its set stays.
fn clears_a_key<S: TreeStore>(
    rt: &impl Abort,
    keys: &Keys,
    store: &mut S,
    at: &[Tagged],
    deps: &IdSet,
) -> Result<bool, AllocError>
    requires { IsChained (S.tree store.old).now }
{
    let key = keys.key(At::A);
    assert!(rt; is_place(store, at));
    put_true(keys.alloc, store, at, key, SECOND)?;
    put_ids(store, at, key, &[SECOND, THIRD])?;
    let what = Cleared::Key(key);
    let is = clears(keys.alloc, store, deps, at, &what, &[THIRD], &OF_A_REGISTER)?;
    Ok(is && has(store, at, key, &[THIRD], 0))
}

/// A map is cleared by its keys: a value goes, and one stays, whose key has no presence set.
fn clears_a_map<S: TreeStore>(
    rt: &impl Abort,
    keys: &Keys,
    store: &mut S,
    at: &[Tagged],
    deps: &IdSet,
) -> Result<bool, AllocError>
    requires { IsChained (S.tree store.old).now }
{
    assert!(rt; is_place(store, at));
    put_true(keys.alloc, store, at, keys.key(At::A1), THIRD)?;
    put_true(keys.alloc, store, at, keys.key(At::A), SECOND)?;
    put_ids(store, at, keys.key(At::A), &[SECOND])?;
    let what = Cleared::Child(keys.child(Tag::Map, At::Doc));
    let is = clears(keys.alloc, store, deps, &[], &what, &[THIRD], &OF_A_MAP)?;
    Ok(
        is && has(store, at, keys.key(At::A), &[], 0)
            && has(store, at, keys.key(At::A1), &[THIRD], 1),
    )
}

/// Nothing is there to be cleared.
fn clears_nothing<S: TreeStore>(
    keys: &Keys,
    store: &mut S,
    deps: &IdSet,
) -> Result<bool, AllocError>
    requires { IsChained (S.tree store.old).now }
{
    let what = Cleared::Child(keys.child(Tag::Register, At::Doc));
    let rows = [(Rule::ClearNone, 0)];
    clears(keys.alloc, store, deps, &[], &what, &[], &rows)
}

fn clears_in_turn<S: TreeStore>(
    rt: &impl Abort,
    keys: &Keys,
    store: &mut S,
    deps: &IdSet,
    turn: u64,
) -> Result<bool, AllocError>
    requires { IsChained (S.tree store.old).now }
{
    if turn == 6 {
        return clears_nothing(keys, store, deps);
    }
    make_map(rt, store, keys.child(Tag::Map, At::Doc))?;
    if turn == 7 {
        clears_a_key(rt, keys, store, keys.in_the_map(), deps)
    } else {
        clears_a_map(rt, keys, store, keys.in_the_map(), deps)
    }
}

/// Whether a part of an empty document is cleared as it should be: the one whose turn it is.
pub fn clears_by_hand<S: TreeStore>(
    rt: &impl Abort,
    keys: &Keys,
    store: &mut S,
    turn: u64,
) -> Result<bool, AllocError>
    requires { IsChained (S.tree store.old).now }
{
    let deps = all_to(keys.alloc, 2)?;
    clears_in_turn(rt, keys, store, &deps, turn)
}
