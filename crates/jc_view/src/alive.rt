//! Decides which maps and lists are alive, so shown, by the operations that a replica has applied; `document` asks it.

ghost use Rattle.std.specs.Prelude.{◌≡◌, option_copied};
ghost use Rattle.jc_rules.specs.Table.{op_of};
ghost use Rattle.jc_meaning.specs.Effects.{target, value_in, is_made_by, passed, goes_through};
ghost use Rattle.jc_rules.specs.Order.{same_key};
ghost use Rattle.jc_view.specs.Visible.{applied_op, goes_by, some_goes};
ghost use Rattle.jc_view.specs.Parts.{has_tag_of};

use jc_replica::{Replica, find};
use jc_rules::{Id, Key, Mutation, Op, Tagged, Value, compare_keys};
use jc_tree::TreeStore;

/// The operation with the identifier, if the replica has applied it.
fn applied<S: TreeStore>(replica: &Replica<S>, id: Id) -> Option<&Op>
    ensures { option_copied result ≡ applied_op replica.now.history.now id }
{
    if !replica.ops().contains(id) {
        return None;
    }
    match find(replica.queue(), id) {
        Some(op) => Some(op),
        None => find(replica.received(), id),
    }
}

/// Whether the operation changes this key.
fn is_target(op: &Op, key: &Key) -> bool
    ensures { result ≡ same_key (target op.now) key.now }
{
    match &op.mutation {
        Mutation::Insert(_) => compare_keys(&Key::Elem(op.id), key).is_eq(),
        _ => compare_keys(&op.cursor.last, key).is_eq(),
    }
}

/// Whether the value makes what has this tag: `{}` a map, `[]` a list, any other a register.
fn has_tag_of(value: &Value, tagged: &Tagged) -> bool
    ensures { result ≡ has_tag_of value.now tagged.now }
{
    match value {
        Value::EmptyMap => matches!(tagged, Tagged::MapT(_)),
        Value::EmptyList => matches!(tagged, Tagged::ListT(_)),
        Value::Number(_) | Value::Str(_) => matches!(tagged, Tagged::RegT(_)),
        Value::True | Value::False | Value::Null => matches!(tagged, Tagged::RegT(_)),
    }
}

/// Whether the operation makes the tagged key, where its path ends.
fn makes(op: &Op, tagged: &Tagged) -> bool
    ensures { result ≡ is_made_by (value_in op.now.mutation) (target op.now) tagged.now }
{
    match &op.mutation {
        Mutation::Assign(value) => has_tag_of(value, tagged) && is_target(op, tagged.key()),
        Mutation::Insert(value) => has_tag_of(value, tagged) && is_target(op, tagged.key()),
        Mutation::Delete => false,
    }
}

/// Whether the operation, whose path goes on with this one, goes through the tagged key, or makes it.
fn passes(op: &Op, path: &[Tagged], at: &[Tagged], tagged: &Tagged) -> bool
    ensures { result ≡ passed path.now (target op.now) (value_in op.now.mutation) at.now tagged.now }
{
    match (path.split_first(), at.split_first()) {
        (None, None) => makes(op, tagged),
        (None, Some(_)) => false,
        (Some((first, _)), None) => first == tagged,
        (Some((first, path)), Some((next, at))) => {
            if first != next {
                return false;
            }
            passes(op, path, at, tagged)
        }
    }
}

/// Whether the operation with the identifier goes through the tagged key at the place, or makes it.
fn goes<S: TreeStore>(replica: &Replica<S>, id: Id, at: &[Tagged], tagged: &Tagged) -> bool
    ensures { result ≡ goes_by replica.now.history.now id at.now tagged.now }
{
    match applied(replica, id) {
        Some(op) => passes(op, op.cursor.path.as_slice(), at, tagged),
        None => false,
    }
}

/// Whether one of the operations with the identifiers goes through the tagged key at the place, or
/// makes it.
pub(crate) fn is_alive<S: TreeStore>(
    replica: &Replica<S>,
    ids: &[Id],
    at: &[Tagged],
    tagged: &Tagged,
) -> bool
    ensures { result ≡ some_goes (goes_by replica.now.history.now) at.now tagged.now ids.now }
{
    for id in ids {
        if goes(replica, *id, at, tagged) {
            return true;
        }
    }
    false
}
