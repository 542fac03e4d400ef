//! The texts of identifiers and keys, for JSON, dumps and views.

ghost use Rattle.std.specs.Prelude.{◌≡◌, ◌++◌, IfOk, OnOk, string_bytes};
ghost use Rattle.serde_json.specs.Data.{string};
ghost use Rattle.serde_json.specs.Written.{compact_text};
ghost use Rattle.jc_json.specs.Json.{id_text, key_text, closed_text, entry_text, tagged_text, next_text};

use itoa::Buffer;
use jc_rules::{Id, Key, Next, Tagged, Text, name_at};
use serde_json::Value as Json;
use std::alloc::{AllocError, Global};

/// The text of an identifier, `c@name`.
pub fn id_text(alloc: Global, names: &[Text], id: Id) -> Result<String, AllocError>
    ensures { IfOk result (λ s. string_bytes s ≡ id_text names.now id) }
{
    let mut text = String::new(alloc);
    push_id(&mut text, names, id)?;
    Ok(text)
}

/// Appends the text of an identifier. After a refusal a part of it may be there.
pub(crate) fn push_id(text: &mut String, names: &[Text], id: Id) -> Result<(), AllocError>
    ensures { OnOk result (string_bytes text.new ≡ string_bytes text.old ++ id_text names.now id) }
{
    let mut buffer = Buffer::new();
    text.push_str(buffer.format(id.counter))?;
    text.push_str("@")?;
    text.push_str(name_at(names, id.replica))
}

/// Appends a text as a JSON string. After a refusal a part of it may be there.
fn push_quoted(text: &mut String, alloc: Global, name: &str) -> Result<(), AllocError>
    ensures { OnOk result (string_bytes text.new ≡ string_bytes text.old ++ compact_text (string name.now)) }
{
    let quoted = Json::try_from_str(alloc, name)?.to_string(alloc)?;
    text.push_str(quoted.as_str())
}

/// Appends the text of a key: `doc`, `head`, a name as a JSON string, or an identifier's text. After a refusal a part of
/// it may be there.
fn push_key(text: &mut String, alloc: Global, names: &[Text], key: &Key) -> Result<(), AllocError>
    ensures { OnOk result (string_bytes text.new ≡ string_bytes text.old ++ key_text names.now key.now) }
{
    match key {
        Key::Doc => text.push_str("doc"),
        Key::Head => text.push_str("head"),
        Key::Name(name) => push_quoted(text, alloc, name.as_str()),
        Key::Elem(id) => push_id(text, names, *id),
    }
}

/// The text of a key: `doc`, `head`, a name as a JSON string, or an identifier's text.
pub fn key_text(alloc: Global, names: &[Text], key: &Key) -> Result<String, AllocError>
    ensures { IfOk result (λ s. string_bytes s ≡ key_text names.now key.now) }
{
    let mut text = String::new(alloc);
    push_key(&mut text, alloc, names, key)?;
    Ok(text)
}

/// Appends a key's text with the bracket that ends the name of a context's member. After a refusal a part of it may be
/// there.
pub(crate) fn push_closed(
    text: &mut String,
    alloc: Global,
    names: &[Text],
    key: &Key,
) -> Result<(), AllocError>
    ensures { OnOk result (string_bytes text.new ≡ string_bytes text.old ++ closed_text names.now key.now) }
{
    push_key(text, alloc, names, key)?;
    text.push_str(")")
}

/// The name of a context's member: a kind of entry, and a key in brackets.
fn entry_text(alloc: Global, kind: &str, names: &[Text], key: &Key) -> Result<String, AllocError>
    ensures { IfOk result (λ s. string_bytes s ≡ entry_text kind.now names.now key.now) }
{
    let key = key_text(alloc, names, key)?;
    let key = key.as_str();
    format!(in alloc; "{kind}({key})")
}

/// The text of a tagged key, as `mapT(doc)`.
pub fn tagged_text(alloc: Global, names: &[Text], key: &Tagged) -> Result<String, AllocError>
    ensures { IfOk result (λ s. string_bytes s ≡ tagged_text names.now key.now) }
{
    match key {
        Tagged::MapT(key) => entry_text(alloc, "mapT", names, key),
        Tagged::ListT(key) => entry_text(alloc, "listT", names, key),
        Tagged::RegT(key) => entry_text(alloc, "regT", names, key),
    }
}

/// What a list's link leads to.
pub(crate) fn next_text(alloc: Global, names: &[Text], next: Next) -> Result<String, AllocError>
    ensures { IfOk result (λ s. string_bytes s ≡ next_text names.now next) }
{
    match next {
        Next::Tail => String::from_str(alloc, "tail"),
        Next::Elem(id) => id_text(alloc, names, id),
    }
}
