//! Identifiers and values as JSON that is written token by token, for journals, effects and views.

ghost use Rattle.std.specs.Prelude.{OnOk, ◌∷◌, []};
ghost use Rattle.json.specs.Json.{object, array, no_members, no_items};
ghost use Rattle.json.specs.Word.{after_number};
ghost use Rattle.json.specs.Token as T;
ghost use Rattle.json.specs.Tree.{json_tokens};
ghost use Rattle.jc_json.specs.Json.{id_text};
ghost use Rattle.jc_json.specs.Gains.{Gains};
ghost use Rattle.jc_json.specs.Values.{dumped_value, number_json, written_value, pair_json, pair_items, ids_json};

use crate::texts::id_text;
use jc_rules::{Id, Text, Value};
use json::{Writer, is_number};
use std::alloc::{AllocError, Global};

/// How a number is written.
#[derive(Clone, Copy, Debug, PartialEq, Eq)]
pub enum Numbers {
    /// As in dumps: its text under the name `n`, which tells it from a string.
    Named,
    /// As applications have it: its text, or a string where JSON has no such number.
    Plain,
}

/// Writes the text of a number under the name `n`.
fn write_named_number(text: &str, out: &mut Writer) -> Result<(), AllocError>
    ensures { OnOk result (Gains out.old out.new (json_tokens (dumped_value (Value.Number text.now)))) }
{
    out.begin_object()?;
    out.key("n")?;
    out.string(text)?;
    out.end_object()
}

/// Writes the text of a number as it is, or as a string where JSON has no such number.
fn write_plain_number(text: &str, out: &mut Writer) -> Result<(), AllocError>
    ensures { OnOk result (Gains out.old out.new (json_tokens (number_json (after_number text.now) text.now))) }
{
    if is_number(text) {
        out.number(text)
    } else {
        out.string(text)
    }
}

fn write_number(text: &str, numbers: Numbers, out: &mut Writer) -> Result<(), AllocError>
    ensures { OnOk result (Gains out.old out.new (json_tokens (written_value numbers (Value.Number text.now)))) }
{
    match numbers {
        Numbers::Named => write_named_number(text, out),
        Numbers::Plain => write_plain_number(text, out),
    }
}

fn write_empty_map(out: &mut Writer) -> Result<(), AllocError>
    ensures { OnOk result (Gains out.old out.new (json_tokens (object no_members))) }
{
    out.begin_object()?;
    out.end_object()
}

fn write_empty_list(out: &mut Writer) -> Result<(), AllocError>
    ensures { OnOk result (Gains out.old out.new (json_tokens (array no_items))) }
{
    out.begin_array()?;
    out.end_array()
}

/// Writes a value. Only memory is refused; what was written before it was wanting stays written.
pub fn write_value(value: &Value, numbers: Numbers, out: &mut Writer) -> Result<(), AllocError>
    ensures { OnOk result (Gains out.old out.new (json_tokens (written_value numbers value.now))) }
{
    match value {
        Value::Number(text) => write_number(text.as_str(), numbers, out),
        Value::Str(text) => out.string(text.as_str()),
        Value::True => out.boolean(true),
        Value::False => out.boolean(false),
        Value::Null => out.null(),
        Value::EmptyMap => write_empty_map(out),
        Value::EmptyList => write_empty_list(out),
    }
}

/// Writes the text of an identifier. Only memory is refused, and then nothing was written.
pub fn write_id(alloc: Global, names: &[Text], id: Id, out: &mut Writer) -> Result<(), AllocError>
    ensures { OnOk result (Gains out.old out.new (T.string (id_text names.now id) ∷ [])) }
{
    let text = id_text(alloc, names, id)?;
    out.string(text.as_str())
}

/// Writes a list of identifiers, in its order. Only memory is refused; what was written before it was wanting stays
/// written.
pub fn write_ids(
    alloc: Global,
    names: &[Text],
    ids: &[Id],
    out: &mut Writer,
) -> Result<(), AllocError>
    ensures { OnOk result (Gains out.old out.new (json_tokens (ids_json names.now ids.now))) }
{
    out.begin_array()?;
    for id in ids {
        write_id(alloc, names, *id, out)?;
    }
    out.end_array()
}

/// Writes a pair: the identifier's text, then the value.
fn write_pair(
    alloc: Global,
    names: &[Text],
    id: Id,
    value: &Value,
    numbers: Numbers,
    out: &mut Writer,
) -> Result<(), AllocError>
    ensures { OnOk result (Gains out.old out.new (json_tokens (pair_json numbers names.now (id, value.now)))) }
{
    out.begin_array()?;
    write_id(alloc, names, id, out)?;
    write_value(value, numbers, out)?;
    out.end_array()
}

/// Writes a register's values as a list of pairs, in their order: the identifier's text, then the value. Only memory is
/// refused; what was written before it was wanting stays written.
pub fn write_pairs(
    alloc: Global,
    names: &[Text],
    pairs: &[(Id, Value)],
    numbers: Numbers,
    out: &mut Writer,
) -> Result<(), AllocError>
    ensures { OnOk result (Gains out.old out.new (json_tokens (array (pair_items numbers names.now pairs.now)))) }
{
    out.begin_array()?;
    for (id, value) in pairs {
        write_pair(alloc, names, *id, value, numbers, out)?;
    }
    out.end_array()
}
