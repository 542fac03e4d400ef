//! Tests of sessions: with too little memory they end after whole answers.

use crate::attempts::{Attempt, Outcome, done_if, holds, refusals, refused_if};
use crate::due::Due;
use crate::memory::fill;
use crate::rows::{DEEP, DELETION, INSERTS, TOMBSTONE};
use jc_fakes::Bytes;
use jc_session::{SessionEnd, SessionFault, session};
use std::alloc::{AllocError, Global};
use std::process::Abort;
use std::test::Fail;

/// Two assignments of one replica, which the other has received.
const RECEIVED: &str =
    "jsoncrdt 1 replica a { doc.get(\"a\") := 1; doc.get(\"a\") := 2; yield } replica b { yield } schedule { a.exec; a.exec; a.send; b.recv(a) }";

/// Lines, each with its answer.
const TALK: &[(&str, &str)] = &[
    ("step 2", "at 2\n"),
    (
        "trace",
        "event 2 a.exec\n0 EXEC\n1 MAKE-ASSIGN\n2 GET\n3 DOC\n2 MAKE-OP\n3 APPLY-LOCAL\n4 DESCEND\n5 CHILD-GET\n5 ASSIGN\n6 CLEAR-REG\n6 ADD-ID1\n7 PRESENCE1\n6 CHILD-GET\n5 ADD-ID1\n6 PRESENCE1\n",
    ),
    (
        "enabled",
        "a.send\na.recv(a)\na.recv(b)\nb.send\nb.recv(a)\nb.recv(b)\n",
    ),
    ("goto 4", "at 4\n"),
    (
        "act b.apply(2, a)",
        "at 4\nstuck 36 DepsMissing b.apply(2, a)\n",
    ),
    ("act b.apply(1, a)", "at 5\n"),
    ("act b.apply(2, a)", "at 6\n"),
    (
        "state b",
        "{\"acted\":true,\"left\":1,\"name\":\"b\",\"ops\":[\"1@a\",\"2@a\"],\"queue\":[],\"recv\":[\"1@a\",\"2@a\"],\"send\":[],\"tree\":{\"mapT(doc)\":{\"pres(\\\"a\\\")\":[\"1@a\",\"2@a\"],\"regT(\\\"a\\\")\":{\"2@a\":{\"n\":\"2\"}}},\"pres(doc)\":[\"1@a\",\"2@a\"]},\"vars\":{}}\n",
    ),
    (
        "schedule",
        "1 a.exec\n2 a.exec\n3 a.send\n4 b.recv(a)\n5 b.apply(1, a)\n6 b.apply(2, a)\n",
    ),
    ("compare a b", "same operations same tree\n"),
    ("break rule EXEC", "set 1\n"),
    ("goto 0", "at 0\n"),
    ("run", "at 1\nbreak 1\n"),
    ("unbreak 1", "cleared 1\n"),
    ("run", "at 6\nend\n"),
    ("back 7", "refused 50 AtStart\n"),
    ("where", "at 6 of 6\n"),
    ("jump", "refused 58 BadLine\n"),
    ("act a.jump", "refused 7 Unexpected at 2\n"),
];

const MET: &[(&str, &str)] = &[
    ("goto 14", "at 14\n"),
    (
        "state b",
        "{\"acted\":true,\"left\":1,\"name\":\"b\",\"ops\":[\"1@a\",\"2@a\",\"2@b\"],\"queue\":[\"2@b\"],\"recv\":[\"1@a\",\"2@a\"],\"send\":[\"2@b\"],\"tree\":{\"mapT(doc)\":{\"mapT(\\\"m\\\")\":{\"pres(\\\"k\\\")\":[\"2@b\"],\"regT(\\\"k\\\")\":{\"2@b\":{\"n\":\"1\"}}},\"pres(\\\"m\\\")\":[\"2@b\"]},\"pres(doc)\":[\"1@a\",\"2@b\"]},\"vars\":{}}\n",
    ),
    ("compare a b", "same operations same tree\n"),
];

const MET_IN_A_LIST: &[(&str, &str)] = &[
    ("step 14", "at 14\n"),
    (
        "trace",
        "event 14 b.apply(2, a)\n0 APPLY-REMOTE\n1 DESCEND\n2 CHILD-GET\n2 DESCEND\n3 CHILD-GET\n3 INSERT2\n4 INSERT1\n5 ASSIGN\n6 CLEAR-NONE\n6 ADD-ID1\n7 PRESENCE2\n6 CHILD-REG\n3 ADD-ID1\n4 PRESENCE1\n2 ADD-ID1\n3 PRESENCE1\n",
    ),
    ("back 14", "at 0\n"),
];

const PAST_THE_END: &[(&str, &str)] = &[
    ("run", "at 5\nstuck 26 PastEnd a.exec\n"),
    (
        "trace",
        "event 5 a.exec\n0 EXEC\n1 LET\n2 IDX1\n3 DOC\n3 IDX2\n4 IDX4\n5 IDX3\n6 IDX5\n",
    ),
];

const DEEP_DOWN: &[(&str, &str)] = &[
    ("run", "at 12\nend\n"),
    ("trace", "event 12 a.exec\n0 EXEC\n1 LET\n2 GET\n3 VAR\n"),
    ("step", "refused 51 AtEnd\n"),
];

/// The line of a text that is no scenario.
const NO_HEADER: &[(&str, &str)] = &[("where", "refused 14 NoHeader at 0\n")];

/// Whether this number of bytes is that of the last answers, whole.
fn are_last(talk: &[(&str, &str)], bytes: usize) -> bool {
    let mut last = 0usize;
    for (_, answer) in talk.iter().rev() {
        if last == bytes {
            return true;
        }
        last = last.saturating_add(answer.len());
    }
    last == bytes
}

/// All lines, and all answers.
fn texts(alloc: Global, talk: &[(&str, &str)]) -> Result<(String, String), AllocError> {
    let mut lines = String::new(alloc);
    let mut answers = String::new(alloc);
    for (line, answer) in talk {
        lines.push_str(line)?;
        lines.push_str("\n")?;
        answers.push_str(answer)?;
    }
    Ok((lines, answers))
}

/// A session.
#[derive(Drop)]
struct Talk<'a> {
    alloc: Global,
    scenario: &'a str,
    talk: &'a [(&'a str, &'a str)],
    lines: &'a str,
    answers: &'a str,
}

impl<'a> Attempt for Talk<'a> {
    fn make(&mut self) -> Outcome {
        let mut lines = Bytes::new(self.lines.as_bytes());
        let mut out = Due::new(self.answers);
        match session(self.alloc, self.scenario.as_bytes(), &mut lines, &mut out) {
            Ok(SessionEnd::Finished) => done_if(!self.scenario.is_empty() && out.is_whole()),
            Ok(SessionEnd::TextRefused(_)) => done_if(self.scenario.is_empty() && out.is_whole()),
            Ok(SessionEnd::GivenStuck) => Outcome::Wrong,
            Err(SessionFault::Memory) => match out.flushed_to() {
                Some(bytes) => refused_if(are_last(self.talk, bytes)),
                None => Outcome::Wrong,
            },
            Err(_) => Outcome::Wrong,
        }
    }

    fn stands(&mut self) -> bool {
        true
    }
}

/// The number of sessions that are refused memory before one succeeds.
fn refused_talk(
    rt: &impl Abort,
    alloc: Global,
    scenario: &str,
    talk: &[(&str, &str)],
) -> Result<u64, AllocError> {
    let (lines, answers) = texts(alloc, talk)?;
    let mut talk = Talk {
        alloc,
        scenario,
        talk,
        lines: lines.as_str(),
        answers: answers.as_str(),
    };
    holds(rt, talk.make() == Outcome::Done);
    let blocks = fill(rt, alloc);
    let refused = refusals(rt, alloc, &mut talk);
    drop(blocks);
    Ok(refused)
}

/// A scenario, and the lines of a session with their answers.
const TALKS: [(&str, &[(&str, &str)]); 6] = [
    (RECEIVED, TALK),
    (DELETION, MET),
    (INSERTS, MET_IN_A_LIST),
    (TOMBSTONE, PAST_THE_END),
    (DEEP, DEEP_DOWN),
    ("", NO_HEADER),
];

#[test]
fn sessions_are_refused(rt: HostRuntime) -> Result<(), Fail> {
    for (scenario, talk) in &TALKS {
        let refused = refused_talk(&rt, rt.alloc(), scenario, talk)?;
        holds(&rt, refused > if scenario.is_empty() { 0 } else { 100 });
    }
    Ok(())
}
