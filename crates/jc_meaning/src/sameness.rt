//! Decides whether two stores have the same tree, but for empty presence sets. `compare` calls `same_tree`.

ghost use Rattle.std.specs.Prelude.{◌≡◌, ◌↔◌, IsTrue, IfOk, IfSome, option_copied};
ghost use Rattle.std.specs.Option.{option_map};
ghost use Rattle.jc_rules.specs.WellFormed.{drop};
ghost use Rattle.jc_tree.specs.Tree.{here};
ghost use Rattle.jc_meaning.specs.Seen.{ids_of_some};
ghost use Rattle.jc_meaning.specs.Compared.{Both, SameTree, AreSameEntries, IsSameKey, stands, HasKeys};

use jc_rules::{Id, Value};
use jc_tree::{ANYWHERE, KeyAt, Place, TreeStore};
use std::alloc::{AllocError, Global};

/// Whether the trees of both stores are the same, but for empty presence sets. Nothing but memory is refused.
pub fn same_tree<S: TreeStore, T: TreeStore>(
    alloc: Global,
    left: &S,
    right: &T,
) -> Result<bool, AllocError>
    ensures { IfOk result (λ same. IsTrue same ↔ drop (S.tree left.now).now ≡ drop (T.tree right.now).now) }
{
    same_place(alloc, left, right, left.root(), right.root())
}

/// Whether the contexts at both places are the same, but for empty presence sets: first under each key of the left one,
/// and then nothing may stand under another key of the right one.
#[cycle(walk)]
fn same_place<S: TreeStore, T: TreeStore>(
    alloc: Global,
    left: &S,
    right: &T,
    place: Place,
    other: Place,
) -> Result<bool, AllocError>
    requires left { S.names left.now place (S.path left.now place) }
    requires right { T.names right.now other (T.path right.now other) }
    ensures { IfOk result (λ same. IsTrue same ↔ SameTree
        (here (S.path left.now place) (S.tree left.now)) (here (T.path right.now other) (T.tree right.now))) }
{
    let keys = left.keys_at(alloc, place)?;
    for lent in keys.as_slice() {
        let key = KeyAt {
            place,
            key: lent.0,
            hint: lent.1,
        };
        if !same_key(alloc, left, right, key, other)? {
            return Ok(false);
        }
    }
    has_keys(alloc, left, right, place, other)
}

/// Whether the same stands under the key of the left context in both.
#[cycle(walk)]
fn same_key<S: TreeStore, T: TreeStore>(
    alloc: Global,
    left: &S,
    right: &T,
    key: KeyAt<'_>,
    other: Place,
) -> Result<bool, AllocError>
    requires left { S.names left.now key.place (S.path left.now key.place) }
    requires right { T.names right.now other (T.path right.now other) }
    ensures { IfOk result (λ same. IsTrue same ↔ IsSameKey
        (here (S.path left.now key.entry.place) (S.tree left.now)) (here (T.path right.now other) (T.tree right.now))
        key.entry.key.now) }
{
    if !same_entries(left, right, key, other) {
        return Ok(false);
    }
    let map = left.map_by(key.place, key.key, key.hint);
    let other_map = right.map_by(other, key.key, ANYWHERE);
    if !same_child(alloc, left, right, map, other_map)? {
        return Ok(false);
    }
    let list = left.list_by(key.place, key.key, key.hint);
    let other_list = right.list_by(other, key.key, ANYWHERE);
    same_child(alloc, left, right, list, other_list)
}

/// Whether the contexts at both places are the same, or there is neither.
#[cycle(walk)]
fn same_child<S: TreeStore, T: TreeStore>(
    alloc: Global,
    left: &S,
    right: &T,
    place: Option<Place>,
    other: Option<Place>,
) -> Result<bool, AllocError>
    requires left { IfSome place (λ p. S.names left.now p (S.path left.now p)) }
    requires right { IfSome other (λ p. T.names right.now p (T.path right.now p)) }
    ensures { IfOk result (λ same. IsTrue same ↔ Both SameTree
        (option_map (λ p. here (S.path left.now p) (S.tree left.now)) place)
        (option_map (λ p. here (T.path right.now p) (T.tree right.now)) other)) }
{
    match (place, other) {
        (Some(place), Some(other)) => same_place(alloc, left, right, place, other),
        (None, None) => Ok(true),
        _ => Ok(false),
    }
}

/// Whether both contexts have the same register, presence set and link under the key of the left one.
fn same_entries<S: TreeStore, T: TreeStore>(
    left: &S,
    right: &T,
    key: KeyAt<'_>,
    other: Place,
) -> bool
    requires left { S.names left.now key.place (S.path left.now key.place) }
    requires right { T.names right.now other (T.path right.now other) }
    ensures { IsTrue result ↔ AreSameEntries
        (here (S.path left.now key.entry.place) (S.tree left.now)) (here (T.path right.now other) (T.tree right.now))
        key.entry.key.now }
{
    left.step_by(key.place, key.key, key.hint).next == right.step_by(other, key.key, ANYWHERE).next
        && same_register(
            left.register_by(key.place, key.key, key.hint),
            right.register_by(other, key.key, ANYWHERE),
        )
        && same_ids(
            left.presence_by(key.place, key.key, key.hint),
            right.presence_by(other, key.key, ANYWHERE),
        )
}

/// Whether both have the same register, or neither has one.
fn same_register(left: Option<&[(Id, Value)]>, right: Option<&[(Id, Value)]>) -> bool
    ensures { IsTrue result ↔ option_copied left.entry ≡ option_copied right.entry }
{
    left == right
}

/// Whether both have the same presence set. A missing one counts as empty.
fn same_ids(left: Option<&[Id]>, right: Option<&[Id]>) -> bool
    ensures { IsTrue result ↔ ids_of_some (option_copied left.entry) ≡ ids_of_some (option_copied right.entry) }
{
    left.unwrap_or(&[]) == right.unwrap_or(&[])
}

/// Whether something stands in the left context under each key under which something stands in the right one. It need
/// not be the same.
fn has_keys<S: TreeStore, T: TreeStore>(
    alloc: Global,
    left: &S,
    right: &T,
    place: Place,
    other: Place,
) -> Result<bool, AllocError>
    requires left { S.names left.now place (S.path left.now place) }
    requires right { T.names right.now other (T.path right.now other) }
    ensures { IfOk result (λ has. IsTrue has ↔ HasKeys
        (here (S.path left.now place) (S.tree left.now)) (here (T.path right.now other) (T.tree right.now))) }
{
    let keys = right.keys_at(alloc, other)?;
    for lent in keys.as_slice() {
        let there = KeyAt {
            place: other,
            key: lent.0,
            hint: lent.1,
        };
        let here = KeyAt {
            place,
            hint: ANYWHERE,
            ..there
        };
        if stands(right, there) && !stands(left, here) {
            return Ok(false);
        }
    }
    Ok(true)
}

/// Whether anything stands under the key, but for an empty presence set.
fn stands<S: TreeStore>(store: &S, key: KeyAt<'_>) -> bool
    requires { S.names store.now key.place (S.path store.now key.place) }
    ensures { result ≡ stands (here (S.path store.now key.entry.place) (S.tree store.now)) key.entry.key.now }
{
    let step = store.step_by(key.place, key.key, key.hint);
    step.present
        || step.next.is_some()
        || store.map_by(key.place, key.key, key.hint).is_some()
        || store.list_by(key.place, key.key, key.hint).is_some()
        || store.register_by(key.place, key.key, key.hint).is_some()
}
