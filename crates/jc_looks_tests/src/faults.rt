//! Refusals of texts and without one, and the other texts of answers.

use jc_answers::Member;
use jc_looks::{LookFault, flag, refused_at, refused_with};
use jc_rules::Refusal;
use std::process::Abort;
use std::test::Fail;

fn is_text(rt: &impl Abort, got: &[u8], want: &str) {
    assert!(rt; got == want.as_bytes(), "{want}");
}

/// A text, what is refused and where, and the answer; there is none for want of memory.
type Row = (
    &'static str,
    Option<Refusal>,
    Option<usize>,
    Option<&'static str>,
);

const TEXTS: &[Row] = &[
    (
        "doc.",
        Some(Refusal::EndOfText),
        Some(4),
        Some(
            "{\"refused\":{\"column\":5,\"end\":4,\"line\":1,\"name\":\"EndOfText\",\"number\":8,\"offset\":4}}",
        ),
    ),
    (
        "é.\nxyz.exec",
        Some(Refusal::UnknownReplica),
        Some(4),
        Some(
            "{\"refused\":{\"column\":1,\"end\":7,\"line\":2,\"name\":\"UnknownReplica\",\"number\":18,\"offset\":4}}",
        ),
    ),
    ("doc", Some(Refusal::Unexpected), None, None),
    ("doc", None, Some(0), None),
    ("doc", None, None, None),
];

/// The fault is a refusal by this answer, or want of memory.
fn is_fault(rt: &impl Abort, fault: LookFault, want: Option<&str>) {
    match (fault, want) {
        (LookFault::Refused(answer), Some(want)) => is_text(rt, answer.as_slice(), want),
        (LookFault::Memory, None) => {}
        _ => panic!(rt; "another fault"),
    }
}

#[test]
fn refused_texts(rt: HostRuntime) -> Result<(), Fail> {
    for (text, refusal, place, want) in TEXTS {
        let fault = LookFault::of_text(rt.alloc(), text.as_bytes(), *refusal, *place);
        is_fault(&rt, fault, *want);
        let answer = refused_at(rt.alloc(), text.as_bytes(), *refusal, *place);
        assert!(rt; answer.is_ok() == want.is_some(), "{text}");
    }
    Ok(())
}

#[test]
fn refusals(rt: HostRuntime) -> Result<(), Fail> {
    is_fault(
        &rt,
        LookFault::of(rt.alloc(), Refusal::PastSchedule),
        Some("{\"refused\":{\"name\":\"PastSchedule\",\"number\":52}}"),
    );
    let key = Member::string("key", "mapT(\"a\")");
    let answer = refused_with(rt.alloc(), key, Refusal::NoSuchNode, Member::absent())?;
    is_text(
        &rt,
        answer.as_slice(),
        "{\"refused\":{\"key\":\"mapT(\\\"a\\\")\",\"name\":\"NoSuchNode\",\"number\":25}}",
    );
    let stuck = Member::text("stuck", b"{}".as_slice());
    let answer = refused_with(rt.alloc(), Member::absent(), Refusal::GivenStuck, stuck)?;
    is_text(
        &rt,
        answer.as_slice(),
        "{\"refused\":{\"name\":\"GivenStuck\",\"number\":44,\"stuck\":{}}}",
    );
    Ok(())
}

#[test]
fn flags(rt: HostRuntime) -> Result<(), Fail> {
    let answer = flag(rt.alloc(), "quit")?;
    is_text(&rt, answer.as_slice(), "{\"quit\":true}");
    Ok(())
}
