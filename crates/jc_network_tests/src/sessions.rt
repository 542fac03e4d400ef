//! The scenarios of sessions, and the ends that the tests expect of sessions.

use crate::nets::holds;
use jc_io::{Sink, Source};
use jc_session::{SessionEnd, SessionFault, session};
use std::process::Abort;

/// One replica without commands.
pub const EMPTY: &str = "jsoncrdt 1 replica a {} schedule {}";

/// Two assignments of one replica, which the other has received.
pub const RECEIVED: &str = "jsoncrdt 1
    replica a { doc.get(\"a\") := 1; doc.get(\"a\") := 2; yield }
    replica b { yield }
    schedule { a.exec; a.exec; a.send; b.recv(a) }";

/// Lines for them.
pub const LINES: &str =
    "goto 4\nact b.apply(2, a)\nact b.apply(1, a)\nact b.apply(2, a)\nstate b\n";

/// Their answers.
pub const ANSWERS: &str =
    "at 4\nat 4\nstuck 36 DepsMissing b.apply(2, a)\nat 5\nat 6\n{\"acted\":true,\"left\":1,\"name\":\"b\",\"ops\":[\"1@a\",\"2@a\"],\"queue\":[],\"recv\":[\"1@a\",\"2@a\"],\"send\":[],\"tree\":{\"mapT(doc)\":{\"pres(\\\"a\\\")\":[\"1@a\",\"2@a\"],\"regT(\\\"a\\\")\":{\"2@a\":{\"n\":\"2\"}}},\"pres(doc)\":[\"1@a\",\"2@a\"]},\"vars\":{}}\n";

/// Expects a session to end so: 0 where it is finished, else the number of the refusal, and 255 for want of memory.
pub fn ends<R: AllocGlobal + Abort, S: Source, K: Sink>(
    rt: &R,
    scenario: &str,
    lines: &mut S,
    out: &mut K,
    want: u8,
) {
    let end = match session(rt.alloc(), scenario.as_bytes(), lines, out) {
        Ok(SessionEnd::Finished) => 0,
        Ok(SessionEnd::TextRefused(fault)) => fault.number().unwrap_or(255),
        Ok(SessionEnd::GivenStuck) => 44,
        Err(SessionFault::ReadFailed) => 55,
        Err(SessionFault::WriteFailed) => 56,
        Err(SessionFault::TooManyLines) => 57,
        Err(SessionFault::Memory) => 255,
    };
    holds(rt, end == want);
}
