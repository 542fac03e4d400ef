//! Sending to a serializer part after part, so that no value of the whole is made: for trees here and dumps.

ghost use Rattle.std.specs.Prelude.{◌≡◌, [], ◌∷◌, Ok, IfOk, OnOk, IsErr, MatchResult};
ghost use Rattle.serde_json.specs.Data.{Data};
ghost use Rattle.serde_json.specs.Events.{SendsValue};
ghost use Rattle.serde_json.specs.View.{view};
ghost use Rattle.jc_json.specs.Json.{ids_data, value_data, register_data};

use crate::texts::{id_text, push_id};
use crate::values::register_value;
use jc_rules::{Id, Text, Value};
use serde::{Serialize, Serializer};
use serde_json::Value as Json;
use std::alloc::{AllocError, Global};

/// Returns what was made, or the serializer's own error exactly where memory ran out.
pub fn granted<T, W: Serializer>(made: Result<T, AllocError>, out: &W) -> Result<T, W::Error>
    ensures { MatchResult result (λ value. made ≡ Ok value) (λ _. IsErr made) }
{
    match made {
        Ok(value) => Ok(value),
        Err(_) => Err(out.custom("no memory")),
    }
}

/// Sends a small value that was made.
pub fn send_value<W: Serializer>(
    made: Result<Json, AllocError>,
    out: &mut W,
) -> Result<(), W::Error>
    ensures { OnOk result ((d : Data) → IfOk made (λ value. view value ≡ d)
        → SendsValue d (W.written out.old) (W.written out.new)) }
{
    let value = granted(made, out)?;
    value.serialize(out)
}

/// Sends a value. No JSON value is made of it.
fn send_plain<W: Serializer>(value: &Value, out: &mut W) -> Result<(), W::Error>
    ensures { OnOk result (SendsValue (value_data value.now) (W.written out.old) (W.written out.new)) }
{
    match value {
        // Else a number would look like a string.
        Value::Number(text) => {
            out.begin_map(Some(1))?;
            out.key("n")?;
            out.str(text.as_str())?;
            out.end_map()
        }
        Value::Str(text) => out.str(text.as_str()),
        Value::True => out.bool(true),
        Value::False => out.bool(false),
        Value::Null => out.unit(),
        Value::EmptyMap => {
            out.begin_map(Some(0))?;
            out.end_map()
        }
        Value::EmptyList => {
            out.begin_seq(Some(0))?;
            out.end_seq()
        }
    }
}

/// Sends the only value of a register, under its identifier's text.
fn send_single<W: Serializer>(
    alloc: Global,
    names: &[Text],
    id: Id,
    value: &Value,
    out: &mut W,
) -> Result<(), W::Error>
    ensures { OnOk result (SendsValue (register_data names.now ((id, value.now) ∷ []))
        (W.written out.old) (W.written out.new)) }
{
    out.begin_map(Some(1))?;
    let name = granted(id_text(alloc, names, id), out)?;
    out.key(name.as_str())?;
    send_plain(value, out)?;
    out.end_map()
}

/// Sends a register as the object of its values by their identifiers' texts.
pub(crate) fn send_register<W: Serializer>(
    alloc: Global,
    names: &[Text],
    pairs: &[(Id, Value)],
    out: &mut W,
) -> Result<(), W::Error>
    ensures { OnOk result (SendsValue (register_data names.now pairs.now) (W.written out.old) (W.written out.new)) }
{
    match pairs {
        // One value has no order.
        [(id, value)] => send_single(alloc, names, *id, value, out),
        _ => send_value(register_value(alloc, names, pairs), out),
    }
}

/// Sends identifiers as the list of their texts.
pub fn send_ids<W: Serializer>(
    alloc: Global,
    names: &[Text],
    ids: &[Id],
    out: &mut W,
) -> Result<(), W::Error>
    ensures { OnOk result (SendsValue (ids_data names.now ids.now) (W.written out.old) (W.written out.new)) }
{
    out.begin_seq(Some(ids.len()))?;
    let mut text = String::new(alloc);
    for id in ids {
        text.clear();
        granted(push_id(&mut text, names, *id), out)?;
        out.str(text.as_str())?;
    }
    out.end_seq()
}
