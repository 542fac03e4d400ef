//! Names, numbers and traces, as they are shown.

use crate::testing::{holds, is_text};
use jc_rules::{Refusal, Rule, Trace};
use std::alloc::Global;
use std::process::Abort;
use std::test::Fail;

const RULES: &[(&str, Option<Rule>)] = &[
    ("CLEAR-LIST3", Some(Rule::ClearList3)),
    ("IDX3", Some(Rule::Idx3)),
    ("RECV-ONE", Some(Rule::RecvOne)),
    ("idx3", None),
    ("", None),
];

#[test]
fn names_and_numbers(rt: HostRuntime) {
    is_text(&rt, Rule::MakeAssign.name(), "MAKE-ASSIGN");
    for (name, want) in RULES {
        holds(&rt, name, Rule::of_name(name) == *want);
    }
    holds(&rt, "NoHeader", Refusal::NoHeader.number() == 14);
    is_text(&rt, Refusal::NoSuchNode.name(), "NoSuchNode");
    holds(&rt, "WrongVersion", Refusal::WrongVersion.number() == 39);
    holds(&rt, "GivenStuck", Refusal::GivenStuck.number() == 44);
    holds(&rt, "BadLine", Refusal::BadLine.number() == 58);
}

fn shows(
    rt: &impl Abort,
    alloc: Global,
    trace: &Trace,
    rows: &[(Rule, u64)],
    depth: u64,
) -> Result<(), Fail> {
    let shown = trace.to_rows(alloc)?;
    assert!(rt; shown.as_slice() == rows);
    assert!(rt; trace.depth() == depth);
    Ok(())
}

#[test]
fn traces(rt: HostRuntime) -> Result<(), Fail> {
    let mut trace = Trace::new(rt.alloc());
    trace.push(Rule::Exec)?;
    trace.down();
    trace.push(Rule::Let)?;
    let mark = trace.mark();
    trace.open(Rule::Get)?;
    trace.push(Rule::Doc)?;
    let rows = [
        (Rule::Exec, 0),
        (Rule::Let, 1),
        (Rule::Get, 1),
        (Rule::Doc, 2),
    ];
    shows(&rt, rt.alloc(), &trace, &rows, 2)?;
    trace.cut(mark);
    shows(&rt, rt.alloc(), &trace, &rows[..2], 1)?;
    trace.up();
    shows(&rt, rt.alloc(), &trace, &rows[..2], 0)?;
    trace.open(Rule::Done)?;
    trace.close(0);
    holds(&rt, "closed", trace.depth() == 0);
    Ok(())
}

/// Rules that go down are one run. A cut within it makes it shorter.
#[test]
fn a_trace_has_runs(rt: HostRuntime) -> Result<(), Fail> {
    let mut trace = Trace::new(rt.alloc());
    trace.open_times(Rule::Idx3, 2)?;
    let mark = trace.mark();
    trace.open(Rule::Idx3)?;
    holds(&rt, "one", trace.runs().len() == 1);
    let rows = [(Rule::Idx3, 0), (Rule::Idx3, 1), (Rule::Idx3, 2)];
    shows(&rt, rt.alloc(), &trace, &rows, 3)?;
    trace.cut(mark);
    shows(&rt, rt.alloc(), &trace, &rows[..2], 2)?;
    trace.push(Rule::Idx4)?;
    holds(&rt, "two", trace.runs().len() == 2);
    Ok(())
}

/// The copy has the rows and the depth, and stays as it is whatever comes to the first trace.
#[test]
fn a_trace_is_copied(rt: HostRuntime) -> Result<(), Fail> {
    let mut trace = Trace::new(rt.alloc());
    trace.open(Rule::Exec)?;
    let copy = trace.copy()?;
    trace.open(Rule::Let)?;
    shows(&rt, rt.alloc(), &copy, &[(Rule::Exec, 0)], 1)
}
