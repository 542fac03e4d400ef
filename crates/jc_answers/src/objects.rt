//! Objects, as texts.

ghost use Rattle.std.specs.Prelude.{◌≡◌, ◌++◌, ◌∷◌, [], List, IfOk, OnOk, decimal, codes};
ghost use Rattle.jc_printer.specs.Canon.{quoted};
ghost use Rattle.jc_answers.specs.JsonTexts.{NamedText, unended, number_member, string_member, text_member, member_text, object_text};
ghost use Rattle.jc_answers.specs.Parts.{value_text, named, member_of, members_of, object_begun};

use jc_printer::push_quoted;
use std::alloc::{AllocError, Global};

/// The value of a member.
#[derive(Clone, Copy)]
pub enum Value<'a> {
    Number(u64),
    /// A string, which isn't escaped yet.
    Str(&'a str),
    /// A value's text.
    Text(&'a [u8]),
}

/// A member of an object, with its name; without a value it isn't there.
#[derive(Clone, Copy)]
pub struct Member<'a> {
    pub name: &'a str,
    pub value: Option<Value<'a>>,
}

impl<'a> Member<'a> {
    pub fn number(name: &'a str, n: u64) -> Self
        ensures { member_of result ≡ number_member name.now n }
    {
        Member {
            name,
            value: Some(Value::Number(n)),
        }
    }

    /// With a string that isn't escaped yet.
    pub fn string(name: &'a str, s: &'a str) -> Self
        ensures { member_of result ≡ string_member name.now s.now }
    {
        Member {
            name,
            value: Some(Value::Str(s)),
        }
    }

    /// With a value's text.
    pub fn text(name: &'a str, text: &'a [u8]) -> Self
        ensures { member_of result ≡ text_member name.now text.now }
    {
        Member {
            name,
            value: Some(Value::Text(text)),
        }
    }

    /// One that isn't there.
    pub fn absent() -> Member<'static>
        ensures { member_of result ≡ [] }
    {
        Member {
            name: "",
            value: None,
        }
    }
}

/// A line without its LF.
pub fn unended(line: Vec<u8>) -> Vec<u8>
    ensures { result.items ≡ unended line.items }
{
    let mut text = line;
    text.pop();
    text
}

/// A string, escaped and in quotes.
pub fn quoted(alloc: Global, s: &str) -> Result<Vec<u8>, AllocError>
    ensures { IfOk result (λ text. text.items ≡ quoted s.now) }
{
    let mut text = String::new(alloc);
    push_quoted(&mut text, s)?;
    Ok(text.into_bytes())
}

/// Appends a string, escaped and in quotes.
pub(crate) fn push_string(out: &mut Vec<u8>, s: &str) -> Result<(), AllocError>
    ensures { OnOk result (out.new.items ≡ out.old.items ++ quoted s.now) }
{
    let text = quoted(*out.allocator(), s)?;
    out.extend_from_slice(text.as_slice())
}

/// Appends a number's digits.
pub(crate) fn push_number(out: &mut Vec<u8>, n: u64) -> Result<(), AllocError>
    ensures { OnOk result (out.new.items ≡ out.old.items ++ decimal n) }
{
    let text = format!(in *out.allocator(); "{n}")?;
    out.extend_from_slice(text.as_bytes())
}

fn push_value(out: &mut Vec<u8>, value: Value<'_>) -> Result<(), AllocError>
    ensures { OnOk result (out.new.items ≡ out.old.items ++ value_text value.entry) }
{
    match value {
        Value::Number(n) => push_number(out, n),
        Value::Str(s) => push_string(out, s),
        Value::Text(text) => out.extend_from_slice(text),
    }
}

/// Appends a name and its value.
fn push_named(out: &mut Vec<u8>, name: &str, value: Value<'_>) -> Result<(), AllocError>
    ensures { OnOk result (out.new.items ≡ out.old.items ++ member_text (name.now, value_text value.entry)) }
{
    push_string(out, name)?;
    out.push(b':')?;
    push_value(out, value)
}

/// Appends a comma to an object without its end, where it has a member.
fn separate(out: &mut Vec<u8>) -> Result<(), AllocError>
    ensures { OnOk result ((ms : List NamedText) (m : NamedText)
        → out.old.items ≡ object_begun ms
        → out.new.items ++ member_text m ≡ object_begun (ms ++ m ∷ [])) }
{
    if out.len() <= 1 {
        return Ok(());
    }
    out.push(b',')?;
    Ok(())
}

/// Appends a member to an object without its end.
fn push_member(out: &mut Vec<u8>, name: &str, value: Option<Value<'_>>) -> Result<(), AllocError>
    ensures { OnOk result ((ms : List NamedText)
        → out.old.items ≡ object_begun ms
        → out.new.items ≡ object_begun (ms ++ named name.now value.entry)) }
{
    let Some(value) = value else {
        return Ok(());
    };
    separate(out)?;
    push_named(out, name, value)
}

/// The object with those members that have a value, in their order. Refused for want of memory alone.
pub fn object_text(alloc: Global, members: &[Member<'_>]) -> Result<Vec<u8>, AllocError>
    ensures { IfOk result (λ text. text.items ≡ object_text (members_of members.now)) }
{
    let mut out = Vec::new(alloc);
    out.push(b'{')?;
    for member in members {
        push_member(&mut out, member.name, member.value)?;
    }
    out.push(b'}')?;
    Ok(out)
}
