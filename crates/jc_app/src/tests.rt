//! Tests of the arguments of the process, and of the files of the machine.

use crate::files::Host;
use crate::words::words_of;
use jc_io::ReadFault;
use jc_program::Files;
use std::alloc::Global;
use std::env::FillError;
use std::io::ErrorKind;
use std::process::Abort;
use std::rt::Env;
use std::{fs, io};

/// A call of the program with these arguments, its name first.
#[derive(Clone, Copy)]
struct Called<'a> {
    words: &'a [&'a [u8]],
}

impl Env for Called<'_> {
    fn arg(&self, i: usize, buf: &mut [u8]) -> Result<usize, FillError> {
        let Some(word) = self.words.get(i) else {
            return Err(FillError::NotPresent);
        };
        if buf.len() < word.len() {
            return Err(FillError::TooLong);
        }
        buf[..word.len()].copy_from_slice(word);
        Ok(word.len())
    }

    fn var(&self, _name: &str, _buf: &mut [u8]) -> Result<usize, FillError> {
        Err(FillError::NotPresent)
    }

    fn var_at(&self, _i: usize, _buf: &mut [u8]) -> Result<usize, FillError> {
        Err(FillError::NotPresent)
    }
}

fn holds(rt: &impl Abort, fact: bool) {
    assert!(rt; fact);
}

/// Expects the arguments after the program's name.
fn expect_words(rt: &impl Abort, alloc: Global, words: &[&[u8]], want: &[&str]) {
    match words_of(&(Called { words }, alloc)) {
        Ok(got) => {
            holds(rt, got.len() == want.len());
            for (word, text) in got.iter().zip(want) {
                holds(rt, word.as_str() == *text);
            }
        }
        Err(_) => panic!(rt; "no words"),
    }
}

#[test]
fn words_are_read(rt: HostRuntime) {
    let alloc = rt.alloc();
    expect_words(&rt, alloc, &[b"jsoncrdt"], &[]);
    expect_words(&rt, alloc, &[b"jsoncrdt", b"run", b"-"], &["run", "-"]);
    expect_words(&rt, alloc, &[], &[]);
    match words_of(&(
        Called {
            words: &[b"jsoncrdt", b"\xff"],
        },
        alloc,
    )) {
        Ok(_) => panic!(&rt; "a word that is not UTF-8"),
        Err(error) => holds(&rt, error.kind() == ErrorKind::InvalidData),
    }
}

/// Expects the bytes that are read of a file, at most four.
fn expect_file<F: AllocGlobal + Files>(
    rt: &impl Abort,
    files: &F,
    name: &str,
    want: Option<&[u8]>,
) {
    match (files.read_file(files.alloc(), name, 4), want) {
        (Ok(got), Some(want)) => holds(rt, got.as_slice() == want),
        (Err(ReadFault::Failed), None) => {}
        _ => panic!(rt; "{name}"),
    }
}

#[test]
fn files_are_read(rt: HostRuntime) -> io::Result<()> {
    let host = Host { rt: &rt };
    fs::write(&rt, "short", "abc")?;
    fs::write(&rt, "long", "abcde")?;
    expect_file(&rt, &host, "short", Some(b"abc"));
    expect_file(&rt, &host, "long", Some(b"abcd"));
    expect_file(&rt, &host, "missing", None);
    // A folder is opened, and then its read fails.
    expect_file(&rt, &host, "/", None);
    fs::remove_file(&rt, "short")?;
    fs::remove_file(&rt, "long")
}
