//! Objects and lists.

use jc_answers::{ArrayText, Member, Value, object_text, quoted, unended};
use std::alloc::Global;
use std::process::Abort;
use std::test::Fail;

fn is_text(rt: &impl Abort, got: &[u8], want: &str) {
    assert!(rt; got == want.as_bytes(), "{want}");
}

/// Members, and the object of them.
const OBJECTS: &[(&[Member], &str)] = &[
    (&[], "{}"),
    (
        &[Member {
            name: "a",
            value: None,
        }],
        "{}",
    ),
    (
        &[
            Member {
                name: "at",
                value: Some(Value::Number(0)),
            },
            Member {
                name: "most",
                value: Some(Value::Number(18446744073709551615)),
            },
        ],
        "{\"at\":0,\"most\":18446744073709551615}",
    ),
    (
        &[
            Member {
                name: "left out",
                value: None,
            },
            Member {
                name: "é",
                value: Some(Value::Str("\"\\/\n\u{1}é")),
            },
            Member {
                name: "",
                value: None,
            },
            Member {
                name: "\"",
                value: Some(Value::Text(b"[true]")),
            },
        ],
        "{\"é\":\"\\\"\\\\/\\n\\u0001é\",\"\\\"\":[true]}",
    ),
];

#[test]
fn objects(rt: HostRuntime) -> Result<(), Fail> {
    for (members, want) in OBJECTS {
        let text = object_text(rt.alloc(), members)?;
        is_text(&rt, text.as_slice(), want);
    }
    Ok(())
}

fn short_list(alloc: Global) -> Result<Vec<u8>, Fail> {
    let mut list = ArrayText::new(alloc)?;
    list.push(b"null".as_slice())?;
    list.push_string("")?;
    list.push_number(10)?;
    Ok(list.end()?)
}

#[test]
fn lists(rt: HostRuntime) -> Result<(), Fail> {
    let none = ArrayText::new(rt.alloc())?.end()?;
    is_text(&rt, none.as_slice(), "[]");
    let some = short_list(rt.alloc())?;
    is_text(&rt, some.as_slice(), "[null,\"\",10]");
    Ok(())
}

/// A line, and what it is without its LF.
const LINES: &[(&str, &str)] = &[("a\n", "a"), ("\n", ""), ("a\n\n", "a\n"), ("", "")];

#[test]
fn lines(rt: HostRuntime) -> Result<(), Fail> {
    for (line, want) in LINES {
        let text = String::from_str(rt.alloc(), line)?;
        is_text(&rt, unended(text.into_bytes()).as_slice(), want);
    }
    Ok(())
}

/// A text, and the string that it is.
const STRINGS: &[(&str, &str)] = &[("", "\"\""), ("a b", "\"a b\""), ("a\"\\", "\"a\\\"\\\\\"")];

#[test]
fn strings(rt: HostRuntime) -> Result<(), Fail> {
    for (text, want) in STRINGS {
        is_text(&rt, quoted(rt.alloc(), text)?.as_slice(), want);
    }
    Ok(())
}
