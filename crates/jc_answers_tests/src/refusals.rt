//! Refusals with their places in texts.

use jc_answers::{refused, refused_text};
use jc_rules::Refusal;
use std::alloc::{AllocError, Global};
use std::process::Abort;
use std::test::Fail;

/// A text, a refusal and its offset, and the answer.
type Row = (&'static [u8], Refusal, usize, &'static str);

const ROWS: &[Row] = &[
    // At the text's end it ends there, whatever it is.
    (
        b"",
        Refusal::NoHeader,
        0,
        "{\"refused\":{\"column\":1,\"end\":0,\"line\":1,\"name\":\"NoHeader\",\"number\":14,\"offset\":0}}",
    ),
    (
        b"jsoncrdt 1",
        Refusal::NoReplica,
        10,
        "{\"refused\":{\"column\":11,\"end\":10,\"line\":1,\"name\":\"NoReplica\",\"number\":16,\"offset\":10}}",
    ),
    (
        b"doc.\n",
        Refusal::EndOfText,
        5,
        "{\"refused\":{\"column\":1,\"end\":5,\"line\":2,\"name\":\"EndOfText\",\"number\":8,\"offset\":5}}",
    ),
    // Behind a token: a number, a sign, a sign of two bytes, a name, a string.
    (
        b"jsoncrdt 3",
        Refusal::NoHeader,
        9,
        "{\"refused\":{\"column\":10,\"end\":10,\"line\":1,\"name\":\"NoHeader\",\"number\":14,\"offset\":9}}",
    ),
    (
        b"jsoncrdt 1\nreplica a {\n  doc = 1;\n}\n",
        Refusal::Unexpected,
        29,
        "{\"refused\":{\"column\":7,\"end\":30,\"line\":3,\"name\":\"Unexpected\",\"number\":7,\"offset\":29}}",
    ),
    (
        b"let x := 1",
        Refusal::Unexpected,
        6,
        "{\"refused\":{\"column\":7,\"end\":8,\"line\":1,\"name\":\"Unexpected\",\"number\":7,\"offset\":6}}",
    ),
    (
        b"bcd.exec",
        Refusal::UnknownReplica,
        0,
        "{\"refused\":{\"column\":1,\"end\":3,\"line\":1,\"name\":\"UnknownReplica\",\"number\":18,\"offset\":0}}",
    ),
    (
        b"\r\n\"a \\\"b\" x",
        Refusal::Unexpected,
        2,
        "{\"refused\":{\"column\":1,\"end\":9,\"line\":2,\"name\":\"Unexpected\",\"number\":7,\"offset\":2}}",
    ),
    (
        b"doc.idx(4294967296)",
        Refusal::IndexTooLarge,
        8,
        "{\"refused\":{\"column\":9,\"end\":18,\"line\":1,\"name\":\"IndexTooLarge\",\"number\":9,\"offset\":8}}",
    ),
    // Bytes that go on with a character have no column.
    (
        b"doc := \"\xC3\xA9\" xyz",
        Refusal::Unexpected,
        12,
        "{\"refused\":{\"column\":12,\"end\":15,\"line\":1,\"name\":\"Unexpected\",\"number\":7,\"offset\":12}}",
    ),
    // Behind the run of a number, behind an escape, and behind a character.
    (
        b"doc := 01.x;",
        Refusal::BadNumber,
        7,
        "{\"refused\":{\"column\":8,\"end\":11,\"line\":1,\"name\":\"BadNumber\",\"number\":5,\"offset\":7}}",
    ),
    (
        b"doc := \"\\ud800\"",
        Refusal::LoneSurrogate,
        8,
        "{\"refused\":{\"column\":9,\"end\":14,\"line\":1,\"name\":\"LoneSurrogate\",\"number\":4,\"offset\":8}}",
    ),
    (
        b"doc := \"\\x\"",
        Refusal::BadEscape,
        8,
        "{\"refused\":{\"column\":9,\"end\":9,\"line\":1,\"name\":\"BadEscape\",\"number\":3,\"offset\":8}}",
    ),
    (
        b"doc := \"abc",
        Refusal::OpenString,
        7,
        "{\"refused\":{\"column\":8,\"end\":8,\"line\":1,\"name\":\"OpenString\",\"number\":2,\"offset\":7}}",
    ),
    (
        b"# note",
        Refusal::BadByte,
        0,
        "{\"refused\":{\"column\":1,\"end\":1,\"line\":1,\"name\":\"BadByte\",\"number\":1,\"offset\":0}}",
    ),
    (
        b"\xC3\xA9.",
        Refusal::BadByte,
        0,
        "{\"refused\":{\"column\":1,\"end\":2,\"line\":1,\"name\":\"BadByte\",\"number\":1,\"offset\":0}}",
    ),
    // Bytes that are no text.
    (
        b"jsoncrdt 1 \xFF\x80x",
        Refusal::NotUtf8,
        11,
        "{\"refused\":{\"column\":12,\"end\":13,\"line\":1,\"name\":\"NotUtf8\",\"number\":13,\"offset\":11}}",
    ),
];

fn is_answer(rt: &impl Abort, got: &[u8], want: &str) {
    assert!(rt; got == want.as_bytes(), "{want}");
}

#[test]
fn refused_texts(rt: HostRuntime) -> Result<(), Fail> {
    for (text, refusal, place, want) in ROWS {
        let answer = refused_text(rt.alloc(), text, *refusal, *place)?;
        is_answer(&rt, answer.as_slice(), want);
    }
    Ok(())
}

/// A head, a byte, how often it comes, and a tail.
type Parts = (&'static str, &'static str, usize, &'static str);

fn long_text(alloc: Global, parts: Parts) -> Result<String, AllocError> {
    let (head, part, times, tail) = parts;
    let middle = part.repeat(alloc, times)?;
    format!(in alloc; "{head}{middle}{tail}")
}

/// Texts with something that is too long, its offset, and the answer.
const LONG: &[(Parts, usize, &str)] = &[
    (
        ("", "n", 256, " := 1"),
        0,
        "{\"refused\":{\"column\":1,\"end\":256,\"line\":1,\"name\":\"TextTooLong\",\"number\":6,\"offset\":0}}",
    ),
    (
        ("x:=\"", "a", 65_536, "\";"),
        3,
        "{\"refused\":{\"column\":4,\"end\":65541,\"line\":1,\"name\":\"TextTooLong\",\"number\":6,\"offset\":3}}",
    ),
    (
        ("", "1", 65_536, ""),
        0,
        "{\"refused\":{\"column\":1,\"end\":65536,\"line\":1,\"name\":\"TextTooLong\",\"number\":6,\"offset\":0}}",
    ),
    // Of a text that is too long the first byte too many counts, also where others of its character follow.
    (
        ("", "\n", 8_388_608, "é"),
        8_388_608,
        "{\"refused\":{\"column\":1,\"end\":8388609,\"line\":8388609,\"name\":\"TextTooLong\",\"number\":6,\"offset\":8388608}}",
    ),
];

#[test]
fn long_texts(rt: HostRuntime) -> Result<(), Fail> {
    for (parts, place, want) in LONG {
        let text = long_text(rt.alloc(), *parts)?;
        let answer = refused_text(rt.alloc(), text.as_bytes(), Refusal::TextTooLong, *place)?;
        is_answer(&rt, answer.as_slice(), want);
    }
    Ok(())
}

#[test]
fn without_a_place(rt: HostRuntime) -> Result<(), Fail> {
    let answer = refused(rt.alloc(), Refusal::BadLine)?;
    is_answer(
        &rt,
        answer.as_slice(),
        "{\"refused\":{\"name\":\"BadLine\",\"number\":58}}",
    );
    Ok(())
}
