//! What the tests share.

use jc_io::{Failed, Sink, Source};
use std::process::Abort;

pub fn is_text(rt: &impl Abort, got: &str, want: &str) {
    assert!(rt; got == want, "{got}");
}

pub fn holds(rt: &impl Abort, about: &str, fact: bool) {
    assert!(rt; fact, "{about}");
}

pub fn has_bytes(rt: &impl Abort, got: &[u8], want: &[u8]) {
    assert!(rt; got == want);
}

/// What a read is to answer, with bytes behind it or a failure.
pub fn reads<S: Source>(
    rt: &impl Abort,
    source: &mut S,
    buf: &mut [u8],
    want: Result<usize, Failed>,
) {
    assert!(rt; source.read(buf) == want);
}

/// What a write is to answer.
pub fn writes<K: Sink>(rt: &impl Abort, sink: &mut K, bytes: &[u8], want: Result<usize, Failed>) {
    assert!(rt; sink.write(bytes) == want);
}

pub fn flushes<K: Sink>(rt: &impl Abort, sink: &mut K, want: Result<(), Failed>) {
    assert!(rt; sink.flush() == want);
}
