//! Entries by key, of which the keys are numbered and the values are in a column: the fast store keeps a context's
//! entries so, and a key is found in all columns by one search.

ghost use Rattle.std.specs.Prelude.{◌≡◌, ◌≤◌, Some, length, option_map, IfOk, OnOk, OnErr, option_copied};
ghost use Rattle.jc_rules.specs.Order.{id_cmp, key_cmp};
ghost use Rattle.jc_rules.specs.Entries.{find, put, keys_of};
ghost use Rattle.jc_rules.specs.Ids.{with_id};
ghost use Rattle.jc_tree.specs.Tree.{or_no_entries, least_after, has_ids};
ghost use Rattle.jc_tree.specs.Counted.{is_last};
ghost use Rattle.jc_tree.specs.Numbered.{column_entries};
ghost use Rattle.jc_tree.specs.Tables.{MayNumber};
ghost use Rattle.jc_tree.specs.Undo.{taken_out, restored, restored_value, former_of_id, former_of_value, out_of_set};

use crate::columns::{put_at, restore_at, value_at};
use crate::ids::Ids;
use crate::keys::KeyTable;
use crate::lists::Pairs;
use crate::node::Former;
use crate::presences::Presences;
use crate::store::Hint;
use jc_rules::{Id, Key, Value};
use std::alloc::{AllocError, Global};

/// The value under the key.
pub fn value_in<'a, X>(keys: &KeyTable, column: &'a [Option<X>], key: &Key) -> Option<&'a X>
    ensures { option_copied result ≡ find key_cmp key.now (column_entries column.now keys.now) }
{
    let number = keys.number(key)?;
    value_at(column, number)
}

/// The value under the key; `hint` is where to look first.
pub fn value_near<'a, X>(
    keys: &KeyTable,
    column: &'a [Option<X>],
    key: &Key,
    hint: Hint,
) -> Option<&'a X>
    ensures { option_copied result ≡ find key_cmp key.now (column_entries column.now keys.now) }
{
    let near = keys.number_near(key, hint.number)?;
    value_at(column, near)
}

/// Puts the value under the key, and returns the one that was there. After a refusal the entries
/// are as they were.
pub fn put_in<X: Drop>(
    keys: &mut KeyTable,
    column: &mut Vec<Option<X>>,
    key: &Key,
    value: X,
) -> Result<Option<X>, AllocError>
    requires { length column.old.items ≤ length keys.old.keys }
    ensures numbers { MayNumber key.now keys.old keys.new }
    ensures within { length column.new.items ≤ length keys.new.keys }
    ensures ok { OnOk result (column_entries column.new.items keys.new
        ≡ put key_cmp key.now value (column_entries column.old.items keys.old)) }
    ensures former { IfOk result (λ former.
        former ≡ find key_cmp key.now (column_entries column.old.items keys.old)) }
    ensures err { OnErr result (column_entries column.new.items keys.new
        ≡ column_entries column.old.items keys.old) }
{
    let number = keys.number_of(key)?;
    let former = put_at(column, number, value)?;
    Ok(former)
}

/// Gives the key the value that it had, or takes its entry away where it had none, and returns the
/// one that was there. It takes no memory: a key without an entry gets none.
pub fn restore_in<X: Drop>(
    keys: &KeyTable,
    column: &mut Vec<Option<X>>,
    key: &Key,
    former: Option<X>,
) -> Option<X>
    requires { length column.old.items ≤ length keys.now.keys }
    ensures within { length column.new.items ≤ length keys.now.keys }
    ensures ok { column_entries column.new.items keys.now
        ≡ restored key_cmp key.now former (column_entries column.old.items keys.now) }
    ensures stood { result ≡ find key_cmp key.now (column_entries column.old.items keys.now) }
{
    let number = keys.number(key)?;
    restore_at(column, number, former)
}

/// The least key above the given one that has an entry, or the least of all where none is given.
pub fn key_above_in<'a, X>(
    keys: &'a KeyTable,
    column: &[Option<X>],
    after: Option<&Key>,
) -> Option<&'a Key>
    ensures { option_copied result
        ≡ least_after (option_copied after.entry) (keys_of (column_entries column.now keys.now)) }
{
    let mut last = after;
    while let Some((key, number)) = keys.above(last) {
        if value_at(column, number).is_some() {
            return Some(key);
        }
        last = Some(key);
    }
    None
}

/// Puts the key's presence set, and returns the one that was there. After a refusal the sets are as they
/// were.
pub fn put_set_in(
    keys: &mut KeyTable,
    sets: &mut Presences,
    key: &Key,
    ids: Ids,
) -> Result<Option<Ids>, AllocError>
    requires { length sets.old ≤ length keys.old.keys }
    ensures numbers { MayNumber key.now keys.old keys.new }
    ensures within { length sets.new ≤ length keys.new.keys }
    ensures ok { OnOk result (column_entries sets.new keys.new
        ≡ put key_cmp key.now ids (column_entries sets.old keys.old)) }
    ensures former { IfOk result (λ former. former ≡ find key_cmp key.now (column_entries sets.old keys.old)) }
    ensures err { OnErr result (column_entries sets.new keys.new ≡ column_entries sets.old keys.old) }
{
    let number = keys.number_of(key)?;
    let former = sets.put(number, ids)?;
    Ok(former)
}

/// Gives the key the presence set that it had, or takes its own away where it had none, and returns the
/// one that was there. It takes no memory: a key without a set gets none.
pub fn restore_set_in(
    keys: &KeyTable,
    sets: &mut Presences,
    key: &Key,
    former: Option<Ids>,
) -> Option<Ids>
    requires { length sets.old ≤ length keys.now.keys }
    ensures within { length sets.new ≤ length keys.now.keys }
    ensures ok { column_entries sets.new keys.now
        ≡ restored key_cmp key.now former (column_entries sets.old keys.now) }
    ensures stood { result ≡ find key_cmp key.now (column_entries sets.old keys.now) }
{
    let number = keys.number(key)?;
    sets.restore(number, former)
}

/// Adds the identifier to the key's set, a new one where there is none. Returns the undo record, and
/// whether the set had an identifier before. After a refusal the sets are as they were.
pub fn add_in(
    keys: &mut KeyTable,
    sets: &mut Presences,
    key: Key,
    id: Id,
    alloc: Global,
) -> Result<(Former, bool), AllocError>
    requires { length sets.old ≤ length keys.old.keys }
    ensures numbers { MayNumber key keys.old keys.new }
    ensures within { length sets.new ≤ length keys.new.keys }
    ensures ok { OnOk result (column_entries sets.new keys.new
        ≡ put key_cmp key (with_id id (or_no_entries (find key_cmp key (column_entries sets.old keys.old))))
        (column_entries sets.old keys.old)) }
    ensures former { IfOk result (λ added.
        added.0 ≡ former_of_id key id (find key_cmp key (column_entries sets.old keys.old))) }
    ensures was { IfOk result (λ added.
        added.1 ≡ has_ids (or_no_entries (find key_cmp key (column_entries sets.old keys.old)))) }
    ensures err { OnErr result (column_entries sets.new keys.new ≡ column_entries sets.old keys.old) }
{
    let number = keys.number_of(&key)?;
    let added = sets.add(number, key, id, alloc)?;
    Ok(added)
}

/// Takes the identifier out of the key's set, where there is one. Returns whether it was the last one
/// of the set. It takes no memory.
pub fn take_out_in(keys: &KeyTable, sets: &mut Presences, key: &Key, id: Id) -> bool
    requires { length sets.old ≤ length keys.now.keys }
    ensures within { length sets.new ≤ length keys.now.keys }
    ensures ok { column_entries sets.new keys.now
        ≡ out_of_set key.now id (find key_cmp key.now (column_entries sets.old keys.now))
        (column_entries sets.old keys.now) }
    ensures last { result
        ≡ is_last id (or_no_entries (find key_cmp key.now (column_entries sets.old keys.now))) }
{
    let Some(number) = keys.number(key) else {
        return false;
    };
    sets.take_out(number, id)
}

/// Puts the value under the identifier into the register, a new one where there is none. Returns the
/// undo record, by the register's key. After a refusal the register is as it was.
fn put_to_register(
    register: &mut Option<Pairs>,
    key: Key,
    id: Id,
    value: Value,
    alloc: Global,
) -> Result<Former, AllocError>
    ensures ok { OnOk result (register.new ≡ Some (put id_cmp id value (or_no_entries register.old))) }
    ensures former { IfOk result (λ former. former ≡ former_of_value key id register.old) }
    ensures err { OnErr result (register.new ≡ register.old) }
{
    let Some(pairs) = register else {
        *register = Some(Pairs::single(id, value, alloc)?);
        return Ok(Former::Register(key, None));
    };
    let former = pairs.put(id, value)?;
    Ok(Former::Value(key, id, former))
}

/// Puts the value under the identifier into the key's register, a new one where there is none.
/// Returns the undo record. After a refusal the registers are as they were.
pub fn put_value_in(
    keys: &mut KeyTable,
    registers: &mut Vec<Option<Pairs>>,
    key: Key,
    id: Id,
    value: Value,
    alloc: Global,
) -> Result<Former, AllocError>
    requires { length registers.old.items ≤ length keys.old.keys }
    ensures numbers { MayNumber key keys.old keys.new }
    ensures within { length registers.new.items ≤ length keys.new.keys }
    ensures ok { OnOk result (column_entries registers.new.items keys.new
        ≡ put key_cmp key
        (put id_cmp id value (or_no_entries (find key_cmp key (column_entries registers.old.items keys.old))))
        (column_entries registers.old.items keys.old)) }
    ensures former { IfOk result (λ former.
        former ≡ former_of_value key id (find key_cmp key (column_entries registers.old.items keys.old))) }
    ensures err { OnErr result (column_entries registers.new.items keys.new
        ≡ column_entries registers.old.items keys.old) }
{
    let number = keys.number_of(&key)?;
    let Some(register) = registers.get_mut(number) else {
        put_at(registers, number, Pairs::single(id, value, alloc)?)?;
        return Ok(Former::Register(key, None));
    };
    put_to_register(register, key, id, value, alloc)
}

/// Gives the identifier the value that it had in the register, if there is one.
fn restore_register(register: &mut Option<Pairs>, id: Id, former: Option<Value>)
    ensures { register.new ≡ option_map (λ r. restored id_cmp id former r) register.old }
{
    if let Some(pairs) = register {
        pairs.restore(id, former);
    }
}

/// Gives the identifier the value that it had in the key's register, where there is one. It takes no
/// memory.
pub fn restore_value_in(
    keys: &KeyTable,
    registers: &mut Vec<Option<Pairs>>,
    key: &Key,
    id: Id,
    former: Option<Value>,
)
    requires { length registers.old.items ≤ length keys.now.keys }
    ensures within { length registers.new.items ≤ length keys.now.keys }
    ensures ok { column_entries registers.new.items keys.now
        ≡ restored_value key.now id former (find key_cmp key.now (column_entries registers.old.items keys.now))
        (column_entries registers.old.items keys.now) }
{
    let Some(number) = keys.number(key) else {
        return;
    };
    if let Some(register) = registers.get_mut(number) {
        restore_register(register, id, former);
    }
}
