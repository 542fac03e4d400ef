//! Tests of `refuse_words`: arguments that can't be read.

use super::holds;
use jc_fakes::Taken;
use jc_program::refuse_words;
use std::alloc::Global;
use std::io::ErrorKind;
use std::process::Abort;

/// Expects the status and the line of a call whose arguments can't be read.
fn expect_refused(rt: &impl Abort, alloc: Global, why: ErrorKind, status: u8, line: &[u8]) {
    let mut err = Taken::new(alloc);
    let answer = refuse_words(why, &mut err);
    assert_eq!(rt; answer, status);
    holds(rt, err.as_slice() == line);
}

#[test]
fn words_that_cannot_be_read(rt: HostRuntime) {
    let alloc = rt.alloc();
    expect_refused(&rt, alloc, ErrorKind::OutOfMemory, 5, b"no memory\n");
    expect_refused(
        &rt,
        alloc,
        ErrorKind::InvalidData,
        2,
        b"a word is not UTF-8\n",
    );
    expect_refused(
        &rt,
        alloc,
        ErrorKind::Interrupted,
        2,
        b"a word is not UTF-8\n",
    );
}
