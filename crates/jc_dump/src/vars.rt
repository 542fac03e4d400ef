//! Variables and what they are bound to, as JSON: the member `vars` of a dump.

ghost use Rattle.std.specs.Prelude.{◌≡◌, ℕ, List, map, IfOk, OnOk};
ghost use Rattle.serde_json.specs.Data.{no_members};
ghost use Rattle.serde_json.specs.Events.{SendsValue};
ghost use Rattle.serde_json.specs.View.{view};
ghost use Rattle.jc_cursor.specs.Bounds.{bound_of, vars_of};
ghost use Rattle.jc_json.specs.Json.{put_all, texts_data};
ghost use Rattle.jc_json.specs.Parts.{shown_as};
ghost use Rattle.jc_dump.specs.Dump.{pair_data, pairs_data, cursor_data, bound_data, var_member, vars_data};
ghost use Rattle.jc_dump.specs.DumpParts.{bound_shown};

use jc_cursor::Bound;
use jc_json::{granted, id_text, json_value, key_text, send_value, tagged_text};
use jc_rules::{Cursor, Id, Text, Value};
use serde::Serializer;
use serde_json::Value as Json;
use std::alloc::{AllocError, Global};
use std::collections::BTreeMap;

/// Returns a cursor as a list: the texts of its path, then that of its last key.
pub(crate) fn cursor_value(
    alloc: Global,
    names: &[Text],
    cursor: &Cursor,
) -> Result<Json, AllocError>
    ensures { IfOk result (λ v. view v ≡ cursor_data names.now cursor.now) }
{
    let mut texts: Vec<Json> = Vec::new(alloc);
    for key in cursor.path.as_slice() {
        texts.push(Json::from(tagged_text(alloc, names, key)?))?;
    }
    texts.push(Json::from(key_text(alloc, names, &cursor.last)?))?;
    Ok(Json::from(texts))
}

/// Sends the keys that were read, as a list.
fn send_keys<W: Serializer>(keys: &[Text], out: &mut W) -> Result<(), W::Error>
    ensures { OnOk result (SendsValue (texts_data keys.now) (W.written out.old) (W.written out.new)) }
{
    out.begin_seq(Some(keys.len()))?;
    for key in keys {
        out.str(key.as_str())?;
    }
    out.end_seq()
}

/// Returns a value as a pair, with its identifier first.
fn pair_value(alloc: Global, names: &[Text], id: Id, value: &Value) -> Result<Json, AllocError>
    ensures { IfOk result (λ v. view v ≡ pair_data names.now (id, value.now)) }
{
    let mut pair: Vec<Json> = Vec::new(alloc);
    pair.push(Json::from(id_text(alloc, names, id)?))?;
    pair.push(json_value(alloc, value)?)?;
    Ok(Json::from(pair))
}

/// Returns the values that were read as a list, each with its identifier.
fn pairs_value(alloc: Global, names: &[Text], pairs: &[(Id, Value)]) -> Result<Json, AllocError>
    ensures { IfOk result (λ v. view v ≡ pairs_data names.now pairs.now) }
{
    let mut values: Vec<Json> = Vec::new(alloc);
    for (id, value) in pairs {
        values.push(pair_value(alloc, names, *id, value)?)?;
    }
    Ok(Json::from(values))
}

/// Sends what a variable is bound to.
pub(crate) fn send_bound<W: Serializer>(
    alloc: Global,
    names: &[Text],
    bound: &Bound,
    out: &mut W,
) -> Result<(), W::Error>
    ensures { OnOk result (SendsValue (bound_data names.now (bound_of bound.now))
        (W.written out.old) (W.written out.new)) }
{
    out.begin_map(Some(1))?;
    match bound {
        Bound::Cursor(cursor) => {
            out.key("cursor")?;
            send_value(cursor_value(alloc, names, cursor), out)?;
        }
        Bound::Keys(keys) => {
            out.key("keys")?;
            send_keys(keys.as_slice(), out)?;
        }
        Bound::Values(pairs) => {
            out.key("values")?;
            send_value(pairs_value(alloc, names, pairs.as_slice()), out)?;
        }
    }
    out.end_map()
}

/// The variables by the texts of their names.
fn by_name<'a>(
    alloc: Global,
    vars: &'a BTreeMap<Text, Bound>,
) -> Result<BTreeMap<String, &'a Bound>, AllocError>
    ensures { IfOk result (λ found. (names : List (List ℕ)) → shown_as (bound_shown names) found.entries
        ≡ put_all (map (var_member names) (vars_of vars.now.entries)) no_members) }
{
    let mut found = BTreeMap::new(alloc);
    for (name, bound) in vars.iter() {
        let name = String::from_str(alloc, name.as_str())?;
        drop(found.insert(name, bound)?);
    }
    Ok(found)
}

/// Sends variables as an object of what they are bound to.
pub(crate) fn send_vars<W: Serializer>(
    alloc: Global,
    names: &[Text],
    vars: &BTreeMap<Text, Bound>,
    out: &mut W,
) -> Result<(), W::Error>
    ensures { OnOk result (SendsValue (vars_data names.now (vars_of vars.now.entries))
        (W.written out.old) (W.written out.new)) }
{
    let found = granted(by_name(alloc, vars), out)?;
    out.begin_map(Some(found.len()))?;
    for (name, bound) in found.iter() {
        out.key(name.as_str())?;
        send_bound(alloc, names, *bound, out)?;
    }
    out.end_map()
}
