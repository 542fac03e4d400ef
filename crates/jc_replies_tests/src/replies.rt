//! Replies that no request of the rows leads to, and `quit`, which has no answer.

ghost use Rattle.jc_replies.specs.AnswerOf.{IsHere};
ghost use Rattle.jc_session.specs.AnswerOf.{AllNamed, IsNamedReply};

use crate::debuggers::begun;
use jc_debug::Debugger;
use jc_meaning::Comparison;
use jc_replies::{answer_of, answer_to};
use jc_rules::Refusal;
use jc_scenario::read;
use jc_session::{Reply, Request};
use std::alloc::Global;
use std::process::Abort;
use std::test::Fail;

const EMPTY: &str = "jsoncrdt 1 replica a {} schedule {}";

fn is_told(
    rt: &impl Abort,
    alloc: Global,
    debugger: &Debugger,
    text: &str,
    reply: &Reply,
    want: &str,
) -> Result<(), Fail>
    requires all { AllNamed debugger.now }
    requires stuck { IsNamedReply debugger.now.net.names reply.now }
    requires here { IsHere debugger.now reply.now }
{
    let answer = answer_of(alloc, debugger, &[], text.as_bytes(), reply)?;
    assert!(rt; answer.as_slice() == want.as_bytes(), "{want}");
    Ok(())
}

fn refusals(rt: &impl Abort, alloc: Global, debugger: &Debugger) -> Result<(), Fail>
    requires { AllNamed debugger.now }
{
    let reply = Reply::Refused(Refusal::TooManyBreaks);
    let want = "{\"refused\":{\"name\":\"TooManyBreaks\",\"number\":54}}";
    is_told(rt, alloc, debugger, "", &reply, want)?;
    let reply = Reply::Misspelled {
        refusal: Refusal::LoneSurrogate,
        place: 1,
    };
    let want =
        "{\"refused\":{\"column\":2,\"end\":7,\"line\":1,\"name\":\"LoneSurrogate\",\"number\":4,\"offset\":1}}";
    is_told(rt, alloc, debugger, "\"\\ud800\"", &reply, want)
}

fn numbers(rt: &impl Abort, alloc: Global, debugger: &Debugger) -> Result<(), Fail>
    requires { AllNamed debugger.now }
{
    is_told(rt, alloc, debugger, "", &Reply::Set(256), "{\"set\":256}")?;
    is_told(
        rt,
        alloc,
        debugger,
        "",
        &Reply::Cleared(256),
        "{\"cleared\":256}",
    )
}

fn comparisons(rt: &impl Abort, alloc: Global, debugger: &Debugger) -> Result<(), Fail>
    requires { AllNamed debugger.now }
{
    let reply = Reply::Compared(Comparison::SameOps { same_tree: false });
    let want = "{\"operations\":\"same\",\"tree\":\"different\"}";
    is_told(rt, alloc, debugger, "", &reply, want)
}

#[derive(Clone, Copy)]
enum Test {
    Refusals,
    Numbers,
    Comparisons,
}

fn run_test(rt: &impl Abort, alloc: Global, debugger: &Debugger, test: Test) -> Result<(), Fail>
    requires { AllNamed debugger.now }
{
    match test {
        Test::Refusals => refusals(rt, alloc, debugger),
        Test::Numbers => numbers(rt, alloc, debugger),
        Test::Comparisons => comparisons(rt, alloc, debugger),
    }
}

fn in_debugger(rt: &impl Abort, alloc: Global, test: Test) -> Result<(), Fail> {
    let scenario = read(alloc, EMPTY.as_bytes())?;
    let debugger = begun(rt, alloc, scenario)?;
    run_test(rt, alloc, &debugger, test)
}

#[test]
fn told_refusals(rt: HostRuntime) -> Result<(), Fail> {
    in_debugger(&rt, rt.alloc(), Test::Refusals)
}

#[test]
fn told_numbers(rt: HostRuntime) -> Result<(), Fail> {
    in_debugger(&rt, rt.alloc(), Test::Numbers)
}

#[test]
fn told_comparisons(rt: HostRuntime) -> Result<(), Fail> {
    in_debugger(&rt, rt.alloc(), Test::Comparisons)
}

fn quit_has_no_answer(rt: &impl Abort, alloc: Global, debugger: &mut Debugger) -> Result<(), Fail>
    requires { AllNamed debugger.old }
{
    let answer = answer_to(alloc, debugger, &[], Request::Quit)?;
    assert!(rt; answer.is_none());
    Ok(())
}

#[test]
fn quit(rt: HostRuntime) -> Result<(), Fail> {
    let scenario = read(rt.alloc(), EMPTY.as_bytes())?;
    let mut debugger = begun(&rt, rt.alloc(), scenario)?;
    quit_has_no_answer(&rt, rt.alloc(), &mut debugger)
}
