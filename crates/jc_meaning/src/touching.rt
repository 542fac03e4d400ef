//! Tests of an operation at a place, for `building` and `ordering`: does it clear, overwrite, write or insert there?

ghost use Rattle.std.specs.Prelude.{◌≡◌, ◌&&◌, is_some, IfOk};
ghost use Rattle.jc_rules.specs.Ids.{has_id};
ghost use Rattle.jc_meaning.specs.Effects.{same_path, is_at_or_above, is_delete as is_deletion, is_insert as is_insertion, is_clearing as is_clear, clears as clears_at, primitive, overwrites as overwrites_at, target as target_in};
ghost use Rattle.jc_meaning.specs.Meaning.{some_op, is_cleared as is_cleared_by};
ghost use Rattle.jc_meaning.specs.Growth.{is_gone as is_gone_by};

use jc_rules::{Id, Key, Mutation, Op, Tagged, Value, compare_keys};
use std::alloc::AllocError;

/// Whether the two paths are the same.
pub fn is_path(path: &[Tagged], at: &[Tagged]) -> bool
    ensures { result ≡ same_path path.now at.now }
{
    path == at
}

/// Whether the key `last` at `path` is the key at `at`, or above it.
fn is_above(path: &[Tagged], last: &Key, at: &[Tagged], key: &Key) -> bool
    ensures { result ≡ is_at_or_above path.now last.now at.now key.now }
{
    match (path.split_first(), at.split_first()) {
        (None, None) => compare_keys(last, key).is_eq(),
        (None, Some((next, _))) => compare_keys(last, next.key()).is_eq(),
        (Some(_), None) => false,
        (Some((first, path)), Some((next, at))) => {
            if first != next {
                return false;
            }
            is_above(path, last, at, key)
        }
    }
}

pub fn is_delete(mutation: &Mutation) -> bool
    ensures { result ≡ is_deletion mutation.now }
{
    matches!(mutation, Mutation::Delete)
}

pub fn is_insert(mutation: &Mutation) -> bool
    ensures { result ≡ is_insertion mutation.now }
{
    matches!(mutation, Mutation::Insert(_))
}

/// Whether the mutation clears its place: it deletes, or assigns a new map or list.
fn is_clearing(mutation: &Mutation) -> bool
    ensures { result ≡ is_clear mutation.now }
{
    match mutation {
        Mutation::Assign(Value::EmptyMap) => true,
        Mutation::Assign(Value::EmptyList) => true,
        Mutation::Assign(_) => false,
        Mutation::Insert(_) => false,
        Mutation::Delete => true,
    }
}

/// Whether the operation clears the key at the place: it clears there or above.
fn clears(op: &Op, at: &[Tagged], key: &Key) -> bool
    ensures { result ≡ clears_at op.now at.now key.now }
{
    if !is_clearing(&op.mutation) {
        return false;
    }
    is_above(op.cursor.path.as_slice(), &op.cursor.last, at, key)
}

/// Whether an operation that depends on the identifier clears the key at the place.
pub fn is_cleared(ops: &[Op], at: &[Tagged], key: &Key, id: Id) -> bool
    ensures { result ≡ is_cleared_by ops.now at.now key.now id }
{
    for op in ops {
        if op.deps.contains(id) && clears(op, at, key) {
            return true;
        }
    }
    false
}

/// Whether the value goes into a register.
pub fn is_primitive(value: &Value) -> bool
    ensures { result ≡ is_some (primitive value.now) }
{
    match value {
        Value::EmptyMap => false,
        Value::EmptyList => false,
        _ => true,
    }
}

/// Whether the operation assigns a primitive value to the key at the place.
fn overwrites(op: &Op, at: &[Tagged], key: &Key) -> bool
    ensures { result ≡ overwrites_at op.now at.now key.now }
{
    let Mutation::Assign(value) = &op.mutation else {
        return false;
    };
    if !is_primitive(value) {
        return false;
    }
    if !is_path(op.cursor.path.as_slice(), at) {
        return false;
    }
    compare_keys(&op.cursor.last, key).is_eq()
}

/// Whether an operation that depends on the identifier overwrites the key at the place.
fn is_overwritten(ops: &[Op], at: &[Tagged], key: &Key, id: Id) -> bool
    ensures { result ≡ some_op (λ a. overwrites_at a at.now key.now && has_id id a.deps) ops.now }
{
    for op in ops {
        if op.deps.contains(id) && overwrites(op, at, key) {
            return true;
        }
    }
    false
}

/// Whether the value that the operation with the identifier writes there is cleared or overwritten.
pub fn is_gone(ops: &[Op], at: &[Tagged], key: &Key, id: Id) -> bool
    ensures { result ≡ is_gone_by ops.now at.now key.now id }
{
    if is_cleared(ops, at, key, id) {
        return true;
    }
    is_overwritten(ops, at, key, id)
}

/// The key that the operation changes: an insert's own element, else its cursor's last key.
pub fn target(op: &Op) -> Result<Key, AllocError>
    ensures { IfOk result (λ key. key ≡ target_in op.now) }
{
    match &op.mutation {
        Mutation::Insert(_) => Ok(Key::Elem(op.id)),
        _ => Ok(op.cursor.last.copy()?),
    }
}
