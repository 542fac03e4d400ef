//! Puts into a store what each operation makes, touches and writes: a meaning but for the links of lists. `meaning`
//! calls `fill`, and then `ordering`.

ghost use Rattle.std.specs.Prelude.{◌≡◌, ◌&&◌, cond, true, Some, None, is_some, OnOk};
ghost use Rattle.jc_rules.specs.declared.key.Tagged.{Tagged as AnyTagged};
ghost use Rattle.jc_rules.specs.declared.key.Tagged.TheVariants.{RegT};
ghost use Rattle.jc_rules.specs.Order.{same_id};
ghost use Rattle.jc_rules.specs.Context.{IsPrimitive};
ghost use Rattle.jc_rules.specs.WellFormed.{AreDistinct};
ghost use Rattle.jc_replica.specs.Operations.{identifiers};
ghost use Rattle.jc_tree.specs.Tree.{HasPlace, here};
ghost use Rattle.jc_meaning.specs.Effects.{same_tagged, is_made_by as is_made, primitive, value_in, target as target_in};
ghost use Rattle.jc_meaning.specs.Seen.{has_tag};
ghost use Rattle.jc_meaning.specs.Meaning.{is_present, value_written, goes};
ghost use Rattle.jc_meaning.specs.Growth.{Grows, no_tag, no_id, no_value, tag_here, key_here, tag_on, key_on, stays, brings_value, Brings, made_here};

use crate::touching::{is_cleared, is_delete, is_gone, is_primitive, target};
use jc_rules::{Id, Key, Mutation, Op, Tagged, Value};
use jc_tree::TreeStore;
use std::alloc::AllocError;

/// Makes the map, list or register under the tagged key, if there is none.
fn make<S: TreeStore>(store: &mut S, at: &[Tagged], key: &Tagged) -> Result<(), AllocError>
    requires { HasPlace at.now (S.tree store.old) }
    ensures { OnOk result
        (Grows (S.tree store.old).now (S.tree store.new).now (tag_here at.now key.now) no_id no_value) }
{
    if store.has(at, key) {
        return Ok(());
    }
    store.make_child(at, key)?;
    Ok(())
}

/// Adds the operation's identifier to the key's presence set, unless the operation is a delete or the identifier is
/// cleared there.
fn touch<S: TreeStore>(
    store: &mut S,
    ops: &[Op],
    op: &Op,
    at: &[Tagged],
    key: &Key,
) -> Result<(), AllocError>
    requires { HasPlace at.now (S.tree store.old) }
    ensures { OnOk result (Grows (S.tree store.old).now (S.tree store.new).now no_tag
        (λ P k i. key_here at.now key.now P k && stays ops.now op.now P k i) no_value) }
{
    if is_delete(&op.mutation) {
        return Ok(());
    }
    if is_cleared(ops, at, key, op.id) {
        return Ok(());
    }
    let _was = store.add_presence(at, key, op.id)?;
    Ok(())
}

/// Makes and touches each tagged key on the operation's path.
fn enter<S: TreeStore>(store: &mut S, ops: &[Op], op: &Op) -> Result<(), AllocError>
    ensures grows { OnOk result (Grows (S.tree store.old).now (S.tree store.new).now (tag_on op.now.cursor.path)
        (λ P k i. key_on op.now.cursor.path P k && stays ops.now op.now P k i) no_value) }
    ensures there { OnOk result (HasPlace op.now.cursor.path (S.tree store.new)) }
{
    let path = op.cursor.path.as_slice();
    for (depth, key) in path.iter().enumerate() {
        let at = &path[..depth];
        make(store, at, key)?;
        touch(store, ops, op, at, key.key())?;
    }
    Ok(())
}

/// The tagged key that the value makes under the key.
fn tag_of(value: &Value, key: Key) -> Tagged
    ensures tag { (u : AnyTagged) → same_tagged result u ≡ is_made (Some value.now) key u }
    ensures register { is_some (primitive value.now) ≡ true → result ≡ RegT key }
{
    match value {
        Value::EmptyMap => Tagged::MapT(key),
        Value::EmptyList => Tagged::ListT(key),
        _ => Tagged::RegT(key),
    }
}

/// Writes the value into the key's register, which exists.
fn write<S: TreeStore>(
    store: &mut S,
    at: &[Tagged],
    key: &Key,
    id: Id,
    value: &Value,
) -> Result<(), AllocError>
    requires there { HasPlace at.now (S.tree store.old) }
    requires register { has_tag (RegT key.now) (here at.now (S.tree store.old)) ≡ true }
    requires primitive { IsPrimitive value.now }
    ensures { OnOk result (Grows (S.tree store.old).now (S.tree store.new).now no_tag no_id
        (λ P k i. cond (key_here at.now key.now P k && same_id i id) (Some value.now) None)) }
{
    let _was = store.put_value(at, key, id, value.copy()?)?;
    Ok(())
}

/// Puts the value of an operation under the key that it changes.
fn put<S: TreeStore>(
    store: &mut S,
    ops: &[Op],
    op: &Op,
    key: &Key,
    value: &Value,
) -> Result<(), AllocError>
    requires there { HasPlace op.now.cursor.path (S.tree store.old) }
    requires key { key.now ≡ target_in op.now }
    requires value { value_in op.now.mutation ≡ Some value.now }
    ensures { OnOk result (Grows (S.tree store.old).now (S.tree store.new).now
        (made_here op.now.cursor.path key.now (Some value.now))
        (λ P k i. key_here op.now.cursor.path key.now P k && stays ops.now op.now P k i)
        (brings_value ops.now op.now)) }
{
    let path = op.cursor.path.as_slice();
    touch(store, ops, op, path, key)?;
    make(store, path, &tag_of(value, key.copy()?))?;
    if !is_primitive(value) {
        return Ok(());
    }
    if is_gone(ops, path, key, op.id) {
        return Ok(());
    }
    write(store, path, key, op.id, value)?;
    Ok(())
}

/// Adds what this one of the operations contributes to the meaning of all.
fn add<S: TreeStore>(store: &mut S, ops: &[Op], op: &Op) -> Result<(), AllocError>
    ensures { OnOk result (Brings ops.now op.now (S.tree store.old).now (S.tree store.new).now) }
{
    let key = target(op)?;
    enter(store, ops, op)?;
    match &op.mutation {
        Mutation::Assign(value) => put(store, ops, op, &key, value),
        Mutation::Insert(value) => put(store, ops, op, &key, value),
        Mutation::Delete => Ok(()),
    }
}

/// Adds what all operations contribute, without the links of lists.
pub fn fill<S: TreeStore>(store: &mut S, ops: &[Op]) -> Result<(), AllocError>
    requires { AreDistinct (identifiers ops.now) }
    ensures { OnOk result (Grows (S.tree store.old).now (S.tree store.new).now
        (goes ops.now) (is_present ops.now) (value_written ops.now)) }
{
    for op in ops {
        add(store, ops, op)?;
    }
    Ok(())
}
