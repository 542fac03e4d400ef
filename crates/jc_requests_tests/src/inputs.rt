//! How inputs are cut into requests, whole, byte by byte, at limits and where a read fails.

use jc_fakes::{Bytes, FailsAt, OneByte};
use jc_io::{ReadFault, Source};
use jc_requests::{Input, Turn};
use std::alloc::{AllocError, Global};
use std::process::Abort;
use std::test::Fail;

/// An input, and its requests: lines in `[]`, texts in `<>`, `[-]` for a line that is too long, and how it ends.
const ROWS: &[(&str, &str)] = &[
    ("", "end"),
    ("where", "[where]end"),
    ("where\n", "[where]end"),
    ("where\r\n", "[where]end"),
    ("where\r", "[where\r]end"),
    ("\n\n x\n", "[][][ x]end"),
    ("scenario 0\nquit", "<>[quit]end"),
    ("scenario 0", "<>end"),
    ("scenario 3\nabcwhere\n", "<abc>[where]end"),
    (" scenario  3 \r\nabc", "<abc>end"),
    (
        "scenario 4\na\n\nbscenario 1\nxgoto 1\n",
        "<a\n\nb><x>[goto 1]end",
    ),
    ("scenario 3\n\u{e9}x\u{e9}\n", "<\u{e9}x>[\u{e9}]end"),
    // No text is where the line isn't that of one.
    ("scenario 03\nabc", "[scenario 03][abc]end"),
    ("scenario 3 4\nabc", "[scenario 3 4][abc]end"),
    // The input ends within a text.
    ("scenario 3\nab", "cut short"),
    ("scenario 3\n", "cut short"),
    ("scenario 3", "cut short"),
    ("where\nscenario 9999999999\nab", "[where]cut short"),
];

/// An input of which 2 requests may be read, and so many bytes.
const LIMITED: &[(u64, &str, &str)] = &[
    (100, "a\nb\n", "[a][b]end"),
    (100, "a\nb\nc", "[a][b]too many"),
    (100, "a\nscenario 2\nbcd\n", "[a]<bc>too many"),
    (4, "a\nb\n", "[a][b]end"),
    (4, "a\nb\nc", "[a][b]too many"),
    (4, "a\nbc", "[a][bc]end"),
    (4, "a\nbc\n", "[a]too many"),
    (4, "abcd", "[abcd]end"),
    (4, "abcd\n", "too many"),
    (4, "abcde", "too many"),
    (14, "scenario 3\nabc", "<abc>end"),
    (14, "scenario 3\nabcd", "<abc>too many"),
    (13, "scenario 3\nabc", "too many"),
    (13, "scenario 3\nab", "cut short"),
    (11, "scenario 3\na", "too many"),
    (11, "scenario 3\n", "cut short"),
    (0, "a", "too many"),
    (0, "", "end"),
];

/// The number of the read that fails, from 0; an input that is read byte by byte; and what is read.
const FAILING: &[(u64, &str, &str)] = &[
    (0, "where\n", "failed"),
    (3, "where\n", "failed"),
    (6, "where\nquit\n", "[where]failed"),
    (11, "scenario 3\nabc", "failed"),
    (13, "scenario 3\nabc", "failed"),
    (14, "scenario 3\nabc", "<abc>failed"),
];

/// Reads a request and notes it. Returns whether it goes on.
fn note<S: Source>(
    alloc: Global,
    input: &mut Input,
    source: &mut S,
    out: &mut Vec<u8>,
) -> Result<bool, AllocError> {
    match input.next(alloc, source) {
        Ok(Turn::Line) => {
            out.push(b'[')?;
            out.extend_from_slice(input.line().unwrap_or(b"-".as_slice()))?;
            out.push(b']')?;
            return Ok(true);
        }
        Ok(Turn::Text(text)) => {
            out.push(b'<')?;
            out.extend_from_slice(&text)?;
            out.push(b'>')?;
            return Ok(true);
        }
        Ok(Turn::End) => out.extend_from_slice(b"end".as_slice())?,
        Ok(Turn::TooMany) => out.extend_from_slice(b"too many".as_slice())?,
        Ok(Turn::CutShort) => out.extend_from_slice(b"cut short".as_slice())?,
        Err(ReadFault::Failed) => out.extend_from_slice(b"failed".as_slice())?,
        Err(ReadFault::Memory) => return Err(AllocError),
    }
    Ok(false)
}

/// All requests of a source, up to 20.
fn notes<S: Source>(
    alloc: Global,
    mut input: Input,
    source: &mut S,
) -> Result<Vec<u8>, AllocError> {
    let mut out = Vec::new(alloc);
    for _ in 0..20 {
        if !note(alloc, &mut input, source, &mut out)? {
            break;
        }
    }
    Ok(out)
}

fn limited(requests: u64, bytes: u64) -> Input {
    let mut input = Input::new();
    input.requests = requests;
    input.bytes = bytes;
    input
}

#[test]
fn cut_into_requests(rt: HostRuntime) -> Result<(), Fail> {
    for (bytes, want) in ROWS {
        let got = notes(rt.alloc(), Input::new(), &mut Bytes::new(bytes.as_bytes()))?;
        assert!(rt; got.as_slice() == want.as_bytes(), "{bytes}");
    }
    Ok(())
}

#[test]
fn byte_by_byte(rt: HostRuntime) -> Result<(), Fail> {
    for (bytes, want) in ROWS {
        let mut source = OneByte::new(Bytes::new(bytes.as_bytes()));
        let got = notes(rt.alloc(), Input::new(), &mut source)?;
        assert!(rt; got.as_slice() == want.as_bytes(), "{bytes}");
    }
    Ok(())
}

#[test]
fn at_limits(rt: HostRuntime) -> Result<(), Fail> {
    for (most, bytes, want) in LIMITED {
        let got = notes(
            rt.alloc(),
            limited(2, *most),
            &mut Bytes::new(bytes.as_bytes()),
        )?;
        assert!(rt; got.as_slice() == want.as_bytes(), "{most} of {bytes}");
    }
    Ok(())
}

#[test]
fn reads_that_fail(rt: HostRuntime) -> Result<(), Fail> {
    for (at, bytes, want) in FAILING {
        let mut source = FailsAt::new(OneByte::new(Bytes::new(bytes.as_bytes())), *at);
        let got = notes(rt.alloc(), Input::new(), &mut source)?;
        assert!(rt; got.as_slice() == want.as_bytes(), "{at} of {bytes}");
    }
    Ok(())
}

/// A line of so many bytes, and whether it is kept.
#[test]
fn long_lines(rt: HostRuntime) -> Result<(), Fail> {
    for (size, is_kept) in [(4095, true), (4096, true), (4097, false), (9000, false)] {
        let mut bytes = vec![in rt.alloc(); b'x'; size]?;
        bytes.extend_from_slice(b"\nwhere".as_slice())?;
        let mut input = Input::new();
        let mut source = Bytes::new(&bytes);
        assert!(rt; matches!(input.next(rt.alloc(), &mut source), Ok(Turn::Line)));
        assert_eq!(rt; input.line().is_some(), is_kept, "{size}");
        assert!(rt; matches!(input.next(rt.alloc(), &mut source), Ok(Turn::Line)));
        assert!(rt; input.line() == Some(b"where".as_slice()), "{size}");
    }
    Ok(())
}
