//! The tokens of texts, and what strings spell.

use crate::testing::{Parts, holds, is_text, repeated};
use jc_syntax::{LexFault, TokenKind, lex, slice_of, string_of};
use std::alloc::{AllocError, Global};
use std::process::Abort;
use std::test::Fail;

const BAD_BYTE: u8 = 1;

const OPEN_STRING: u8 = 2;

const BAD_ESCAPE: u8 = 3;

const LONE_SURROGATE: u8 = 4;

const BAD_NUMBER: u8 = 5;

const TEXT_TOO_LONG: u8 = 6;

/// The number of tokens of a text, or the number and the offset of its fault.
type Outcome = Result<usize, (u8, usize)>;

fn outcome(alloc: Global, text: &str) -> Outcome {
    match lex(alloc, text) {
        Ok(tokens) => Ok(tokens.len()),
        Err(fault) => Err((fault.number().unwrap_or(0), fault.place().unwrap_or(0))),
    }
}

/// The kinds, offsets and bytes of tokens.
type Tokens = &'static [(TokenKind, u32, u32, &'static str)];

/// The tokens of a text that has one of each kind.
const KINDS: Tokens = &[
    (TokenKind::Name, 0, 3, "a_1"),
    (TokenKind::Number, 5, 7, "-0"),
    (TokenKind::Str, 9, 12, "\"x\""),
    (TokenKind::Dot, 13, 14, "."),
    (TokenKind::ParenL, 15, 16, "("),
    (TokenKind::ParenR, 17, 18, ")"),
    (TokenKind::BraceL, 19, 20, "{"),
    (TokenKind::BraceR, 21, 22, "}"),
    (TokenKind::BracketL, 23, 24, "["),
    (TokenKind::BracketR, 25, 26, "]"),
    (TokenKind::Comma, 27, 28, ","),
    (TokenKind::Semi, 29, 30, ";"),
    (TokenKind::Assign, 31, 33, ":="),
    (TokenKind::Equals, 34, 35, "="),
];

/// The tokens of a text without blanks.
const WITHOUT_BLANKS: Tokens = &[
    (TokenKind::Name, 0, 3, "doc"),
    (TokenKind::Assign, 3, 5, ":="),
    (TokenKind::Number, 5, 7, "-0"),
];

fn has_tokens(rt: &impl Abort, alloc: Global, text: &str, want: Tokens) -> Result<(), Fail> {
    let tokens = lex(alloc, text)?;
    assert!(rt; tokens.len() == want.len());
    for (token, (kind, start, stop, bytes)) in tokens.iter().zip(want) {
        let stands = token.start == *start && token.stop == *stop;
        let is_it = token.kind == *kind && slice_of(text, token) == *bytes;
        holds(rt, bytes, stands && is_it);
    }
    Ok(())
}

#[test]
fn kinds_and_places(rt: HostRuntime) -> Result<(), Fail> {
    let text = "a_1 \t-0\r\n\"x\" . ( ) { } [ ] , ; := =";
    has_tokens(&rt, rt.alloc(), text, KINDS)?;
    has_tokens(&rt, rt.alloc(), "doc:=-0", WITHOUT_BLANKS)
}

/// Texts, and the number of tokens of each, or the number and the offset of its fault.
const SHORT: &[(&str, Outcome)] = &[
    ("doc := 1e999", Ok(3)),
    (".5", Ok(2)),
    ("", Ok(0)),
    (" \t\r\n", Ok(0)),
    ("0", Ok(1)),
    ("-0", Ok(1)),
    ("10", Ok(1)),
    ("1.5", Ok(1)),
    ("1e9", Ok(1)),
    ("1E+9", Ok(1)),
    ("-0.25e-3", Ok(1)),
    ("120.00", Ok(1)),
    ("01", Err((BAD_NUMBER, 0))),
    ("1.", Err((BAD_NUMBER, 0))),
    ("1.e2", Err((BAD_NUMBER, 0))),
    ("1e", Err((BAD_NUMBER, 0))),
    ("1e+", Err((BAD_NUMBER, 0))),
    ("-", Err((BAD_NUMBER, 0))),
    ("--1", Err((BAD_NUMBER, 0))),
    ("0x10", Err((BAD_NUMBER, 0))),
    ("1replica", Err((BAD_NUMBER, 0))),
    ("1_000", Err((BAD_NUMBER, 0))),
    ("2-1", Err((BAD_NUMBER, 0))),
    ("doc := 1.", Err((BAD_NUMBER, 7))),
    ("doc := 01", Err((BAD_NUMBER, 7))),
    ("jsoncrdt 1replica", Err((BAD_NUMBER, 9))),
    ("\u{FEFF}jsoncrdt 1", Err((BAD_BYTE, 0))),
    ("+1", Err((BAD_BYTE, 0))),
    (": ", Err((BAD_BYTE, 0))),
    (":", Err((BAD_BYTE, 0))),
    ("a\u{0B}b", Err((BAD_BYTE, 1))),
    ("\"\t\"", Err((BAD_BYTE, 1))),
    ("doc := \"\\ud800\"", Err((LONE_SURROGATE, 8))),
    ("\"\\udc00\"", Err((LONE_SURROGATE, 1))),
    ("\"\\ud800\\u0041\"", Err((LONE_SURROGATE, 1))),
    ("\"\\ud800\\n\"", Err((LONE_SURROGATE, 1))),
    ("\"\\ud800", Err((LONE_SURROGATE, 1))),
    ("\"\\ud800\\u12\"", Err((LONE_SURROGATE, 1))),
    ("\"a\\x\"", Err((BAD_ESCAPE, 2))),
    ("\"\\u12g4\"", Err((BAD_ESCAPE, 1))),
    ("\"\\u12", Err((BAD_ESCAPE, 1))),
    ("\"a\\", Err((BAD_ESCAPE, 2))),
    ("\"a\\\"", Err((OPEN_STRING, 0))),
    (" \"a", Err((OPEN_STRING, 1))),
    ("\"\\x\t", Err((BAD_ESCAPE, 1))),
    ("\"\t\\x", Err((BAD_BYTE, 1))),
    ("1. \"", Err((BAD_NUMBER, 0))),
];

/// The same of texts at their limits and past them.
const LONG: &[(Parts, Outcome)] = &[
    (("doc := \"", "a", 65535, "\""), Ok(3)),
    (("\"", "\\u0061", 65535, "\""), Ok(1)),
    (("\"", "\u{20AC}", 21845, "\""), Ok(1)),
    (("let ", "n", 255, ""), Ok(2)),
    (("", "1", 65535, ""), Ok(1)),
    (("", "(", 1048576, ""), Ok(1048576)),
    (("", "                ", 524288, ""), Ok(0)),
    (("doc := \"", "a", 65536, "\""), Err((TEXT_TOO_LONG, 7))),
    (("doc := \"", "a", 65536, ""), Err((OPEN_STRING, 7))),
    (("\"", "\u{20AC}", 21846, "\""), Err((TEXT_TOO_LONG, 0))),
    (("let ", "n", 256, ""), Err((TEXT_TOO_LONG, 4))),
    (("", "1", 65536, ""), Err((TEXT_TOO_LONG, 0))),
    (("", "1", 65536, "."), Err((BAD_NUMBER, 0))),
    (
        ("", "                ", 524288, "\""),
        Err((TEXT_TOO_LONG, 8388608)),
    ),
];

#[test]
fn short_texts(rt: HostRuntime) {
    for (text, want) in SHORT {
        holds(&rt, text, outcome(rt.alloc(), text) == *want);
    }
}

#[test]
fn long_texts(rt: HostRuntime) -> Result<(), Fail> {
    for (parts, want) in LONG {
        let text = repeated(rt.alloc(), *parts)?;
        holds(&rt, parts.0, outcome(rt.alloc(), &text) == *want);
    }
    Ok(())
}

/// What a text spells that is one string.
fn spells(rt: &impl Abort, alloc: Global, text: &str, content: &[u8]) -> Result<(), Fail> {
    let tokens = lex(alloc, text)?;
    assert!(rt; tokens.len() == 1);
    let token = tokens[0];
    assert!(rt; token.kind == TokenKind::Str);
    let spelled = string_of(alloc, text, &token)?;
    holds(rt, text, spelled.as_str().as_bytes() == content);
    Ok(())
}

/// String literals, and what they spell.
const STRINGS: &[(&str, &str)] = &[
    ("\"\"", ""),
    ("\"\\u0061\\/\"", "a/"),
    ("\"\\\"\\\\\\/\\b\\f\\n\\r\\t\"", "\"\\/\u{8}\u{C}\n\r\t"),
    ("\"\\ud83d\\ude00\"", "\u{1F600}"),
    ("\"\\uD834\\uDD1E!\"", "\u{1D11E}!"),
    ("\"\\u00e9\\u20AC\"", "\u{E9}\u{20AC}"),
    ("\"caf\u{E9} \u{1F600}\\u0000\"", "caf\u{E9} \u{1F600}\u{0}"),
];

#[test]
fn strings(rt: HostRuntime) -> Result<(), Fail> {
    for (text, content) in STRINGS {
        spells(&rt, rt.alloc(), text, content.as_bytes())?;
    }
    let smile = [0xF0, 0x9F, 0x98, 0x80];
    spells(&rt, rt.alloc(), "\"\\ud83d\\ude00\"", &smile)
}

#[test]
fn fault_texts(rt: HostRuntime) -> Result<(), Fail> {
    let shown = LexFault::BadNumber { place: 7 }.to_string(rt.alloc())?;
    is_text(&rt, shown.as_str(), "BadNumber at 7");
    let memory = LexFault::from(AllocError);
    let shown = memory.to_string(rt.alloc())?;
    is_text(&rt, shown.as_str(), "no memory");
    let is_memory = matches!(memory, LexFault::Memory);
    holds(
        &rt,
        "memory",
        is_memory && memory.number() == None && memory.place() == None,
    );
    Ok(())
}
