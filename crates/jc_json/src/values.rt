//! Values and registers as JSON values, for trees and dumps.

ghost use Rattle.std.specs.Prelude.{◌≡◌, IfOk};
ghost use Rattle.serde_json.specs.View.{view};
ghost use Rattle.jc_json.specs.Json.{value_data, register_data};

use crate::texts::id_text;
use jc_rules::{Id, Text, Value};
use serde_json::{Map, Value as Json, json};
use std::alloc::{AllocError, Global};

/// A value.
pub fn json_value(alloc: Global, value: &Value) -> Result<Json, AllocError>
    ensures { IfOk result (λ v. view v ≡ value_data value.now) }
{
    match value {
        // Else a number would look like a string.
        Value::Number(text) => json!(in alloc; {"n": text.as_str()}),
        Value::Str(text) => Json::try_from_str(alloc, text.as_str()),
        Value::True => Ok(Json::Bool(true)),
        Value::False => Ok(Json::Bool(false)),
        Value::Null => Ok(Json::Null),
        Value::EmptyMap => Ok(Json::from(Map::<String, Json>::new(alloc))),
        Value::EmptyList => Ok(Json::from(Vec::<Json>::new(alloc))),
    }
}

/// A register as the object of its values by their identifiers' texts.
pub(crate) fn register_value(
    alloc: Global,
    names: &[Text],
    pairs: &[(Id, Value)],
) -> Result<Json, AllocError>
    ensures { IfOk result (λ v. view v ≡ register_data names.now pairs.now) }
{
    let mut members: Map<String, Json> = Map::new(alloc);
    for (id, value) in pairs {
        let name = id_text(alloc, names, *id)?;
        let value = json_value(alloc, value)?;
        serde_json::put(&mut members, alloc, name.as_str(), value)?;
    }
    Ok(Json::from(members))
}
