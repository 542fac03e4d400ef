//! Tests of threads that really run.

ghost use Rattle.std.specs.Prelude.{IfOk};
ghost use Rattle.jc_scenario.specs.WellFormed.{IsWellFormedScenario};
ghost use Rattle.jc_scenario.specs.Views.{scenario_view};
ghost use Rattle.jc_choice.specs.Laws.{with_schedule};

use crate::gates::{Open, Own, Signal, open_gates};
use crate::nets::{DELETION, INSERTS, PAST_THE_END, STUCK_GIVEN, dumps, holds, scene};
use crate::turns::{Turn, in_run};
use jc_choice::End;
use jc_network::Net;
use jc_rules::Event;
use jc_runner::{Gate, Report, RunFault, run_threads};
use jc_scenario::{Scenario, print};
use std::alloc::{AllocError, Global};
use std::process::Abort;
use std::sync::Wait;
use std::sync::atomic::{AtomicBool, AtomicU64, Ordering};
use std::test::Fail;
use std::thread::Threads;

/// The report of a run, which there is.
fn report<R: Threads + Wait + Sync + Abort, G: Gate + Send + Drop>(
    rt: &R,
    alloc: Global,
    text: &str,
    gates: Vec<G>,
    limit: u64,
) -> Result<Report, Fail>
    ensures { IfOk result (λ r. IsWellFormedScenario (with_schedule (scenario_view r.start) r.schedule.items)) }
{
    let scenario = scene(alloc, text)?;
    match run_threads(rt, alloc, scenario, gates, limit) {
        Ok(report) => Ok(report),
        Err(_) => panic!(rt; "no report"),
    }
}

/// How an end is expected.
#[derive(Clone, Copy)]
enum Ends {
    Finished,
    AtLimit,
    /// Stuck with this number.
    Stuck(u8),
}

fn ends_so(end: &End, want: Ends) -> bool {
    match (end, want) {
        (End::Finished, Ends::Finished) | (End::LimitReached, Ends::AtLimit) => true,
        (End::StuckAt(stuck), Ends::Stuck(number)) => stuck.number == number,
        _ => false,
    }
}

/// Each replica made so many events and ended so, and all together made the schedule.
fn made_and_ended(rt: &impl Abort, report: &Report, want: &[(Option<u64>, Ends)]) {
    holds(
        rt,
        report.made.len() == want.len() && report.ends.len() == want.len(),
    );
    let mut all = 0u64;
    for ((made, end), (count, ends)) in report.made.iter().zip(&report.ends).zip(want) {
        holds(rt, count.is_none_or(|count| count == *made));
        holds(rt, ends_so(end, *ends));
        all = all.saturating_add(*made);
    }
    holds(rt, all == report.schedule.len() as u64);
}

/// The text of the scenario with another schedule.
fn text_of(alloc: Global, start: Scenario, schedule: Vec<Event>) -> Result<String, AllocError>
    requires { IsWellFormedScenario (with_schedule (scenario_view start) schedule.items) }
{
    let mut recorded = start;
    recorded.schedule = schedule;
    print(alloc, &recorded)
}

/// The scenario with this text leads to a network with the dump lines of this one.
fn leads_to(rt: &impl Abort, alloc: Global, text: &str, net: &Net) -> Result<(), Fail> {
    let want = dumps(rt, alloc, net)?;
    in_run(rt, alloc, text, &Turn::Dumps(want.as_str()))
}

/// The text of the recorded scenario leads again to the report's network.
fn runs_again(rt: &impl Abort, alloc: Global, report: Report) -> Result<(), Fail>
    requires { IsWellFormedScenario (with_schedule (scenario_view report.start) report.schedule.items) }
{
    let Report {
        net,
        schedule,
        made: _,
        ends: _,
        start,
    } = report;
    let text = text_of(alloc, start, schedule)?;
    leads_to(rt, alloc, text.as_str(), &net)
}

/// What is expected of a report: how many events each replica made, and how it ended; where there are any, one of
/// these schedules; the schedule's first events.
#[derive(Clone, Copy)]
struct Want<'a> {
    ends: &'a [(Option<u64>, Ends)],
    schedules: &'a [&'a [Event]],
    first: &'a [Event],
}

fn is_one_of(made: &[Event], schedules: &[&[Event]]) -> bool {
    for schedule in schedules {
        if made == *schedule {
            return true;
        }
    }
    schedules.is_empty()
}

fn is_wanted(rt: &impl Abort, report: &Report, want: &Want) {
    made_and_ended(rt, report, want.ends);
    let made = report.schedule.as_slice();
    holds(
        rt,
        is_one_of(made, want.schedules) && made.starts_with(want.first),
    );
}

/// The report is the one that is expected, and its schedule runs again.
fn is_so(rt: &impl Abort, alloc: Global, report: Report, want: &Want) -> Result<(), Fail>
    requires { IsWellFormedScenario (with_schedule (scenario_view report.start) report.schedule.items) }
{
    is_wanted(rt, &report, want);
    runs_again(rt, alloc, report)
}

const ANY: (Option<u64>, Ends) = (None, Ends::Finished);

/// Two gates which at step 1 raise a flag each and look for the other one.
fn meeting<'a>(
    alloc: Global,
    flags: [&'a AtomicBool; 2],
    found: [&'a AtomicBool; 2],
) -> Result<Vec<Signal<'a>>, AllocError> {
    let mut gates = Vec::new(alloc);
    gates.push(Signal {
        raises: Some((1, flags[0])),
        looks: Some((1, flags[1], found[0])),
    })?;
    gates.push(Signal {
        raises: Some((1, flags[1])),
        looks: Some((1, flags[0], found[1])),
    })?;
    Ok(gates)
}

/// The report of a run with these gates, and with ample takes, is the one that is expected.
fn gated_run<R: Threads + Wait + Sync + Abort>(
    rt: &R,
    alloc: Global,
    gates: Vec<Signal>,
    want: &Want,
) -> Result<(), Fail> {
    let report = report(rt, alloc, DELETION, gates, 100)?;
    is_so(rt, alloc, report, want)
}

/// Both threads are in a gate at the same time.
#[test]
fn two_meet(rt: HostRuntime) -> Result<(), Fail> {
    let alloc = rt.alloc();
    let (a, b) = (AtomicBool::new(false), AtomicBool::new(false));
    let (found_a, found_b) = (AtomicBool::new(false), AtomicBool::new(false));
    let gates = meeting(alloc, [&a, &b], [&found_a, &found_b])?;
    let want = Want {
        ends: &[ANY, ANY],
        schedules: &[],
        first: &[],
    };
    gated_run(&rt, alloc, gates, &want)?;
    holds(
        &rt,
        found_a.load(Ordering::SeqCst) && found_b.load(Ordering::SeqCst),
    );
    Ok(())
}

/// Two gates: the first one raises the flag before the third event, the second one waits for it.
fn late<'a>(
    alloc: Global,
    flag: &'a AtomicBool,
    found: &'a AtomicBool,
) -> Result<Vec<Signal<'a>>, AllocError> {
    let mut gates = Vec::new(alloc);
    gates.push(Signal {
        raises: Some((2, flag)),
        looks: None,
    })?;
    gates.push(Signal {
        raises: None,
        looks: Some((0, flag, found)),
    })?;
    Ok(gates)
}

/// The second thread waits until the first one has made two events.
#[test]
fn b_late(rt: HostRuntime) -> Result<(), Fail> {
    let alloc = rt.alloc();
    let (flag, found) = (AtomicBool::new(false), AtomicBool::new(false));
    let gates = late(alloc, &flag, &found)?;
    let want = Want {
        ends: &[ANY, ANY],
        schedules: &[],
        first: &[Event::Exec(0), Event::Send(0)],
    };
    gated_run(&rt, alloc, gates, &want)?;
    holds(&rt, found.load(Ordering::SeqCst));
    Ok(())
}

/// A gate for each of two replicas, which expects calls with its own number.
fn own_gates<'a>(
    alloc: Global,
    counts: [&'a AtomicU64; 2],
    wrong: &'a AtomicBool,
) -> Result<Vec<Own<'a>>, AllocError> {
    let mut gates = Vec::new(alloc);
    for (replica, count) in [(0, counts[0]), (1, counts[1])] {
        gates.push(Own {
            replica,
            times: 0,
            right: true,
            count,
            wrong,
        })?;
    }
    Ok(gates)
}

/// Each gate was called once more than its replica made events.
fn are_asked(rt: &impl Abort, report: &Report, asked: &[u64]) {
    made_and_ended(rt, report, &[ANY, ANY]);
    for (made, asked) in report.made.iter().zip(asked) {
        holds(rt, made.checked_add(1) == Some(*asked));
    }
}

/// Each gate is called for its own replica, once before each event and once at the end.
#[test]
fn gates_are_asked_for_their_replicas(rt: HostRuntime) -> Result<(), Fail> {
    let alloc = rt.alloc();
    let (a, b) = (AtomicU64::new(0), AtomicU64::new(0));
    let wrong = AtomicBool::new(false);
    let gates = own_gates(alloc, [&a, &b], &wrong)?;
    let report = report(&rt, alloc, DELETION, gates, 100)?;
    let asked = [a.load(Ordering::SeqCst), b.load(Ordering::SeqCst)];
    are_asked(&rt, &report, &asked);
    holds(&rt, !wrong.load(Ordering::SeqCst));
    Ok(())
}

/// A run with open gates, as many as replicas, whose report is the one that is expected.
fn open_run<R: Threads + Wait + Sync + Abort>(
    rt: &R,
    alloc: Global,
    text: &str,
    limit: u64,
    want: &Want,
) -> Result<(), Fail> {
    let gates = open_gates(alloc, want.ends.len())?;
    let report = report(rt, alloc, text, gates, limit)?;
    is_so(rt, alloc, report, want)
}

/// A scenario, the limit, and how many events each replica makes and how it ends; where there are any, one of these
/// schedules.
type Row<'a> = (&'a str, u64, &'a [(Option<u64>, Ends)], &'a [&'a [Event]]);

/// The first replica is stuck at once, the second one isn't.
const ONE_STUCK: &str =
    "jsoncrdt 1 replica a { let s = doc.keys } replica b { doc.get(\"a\") := 1 }";

/// The second replica has taken the operation of the first one before its start.
const GIVEN: &str =
    "jsoncrdt 2 replica a { doc := 1; yield } replica b { yield } given { a.exec; a.send; b.take(a, 1, a) }";

const ROWS: [Row; 5] = [
    // the first one sends, receives and ends; the second one applies as well
    (
        GIVEN,
        100,
        &[(Some(3), Ends::Finished), (Some(4), Ends::Finished)],
        &[],
    ),
    (PAST_THE_END, 100, &[(Some(5), Ends::Stuck(26))], &[]),
    // none makes an event
    (
        DELETION,
        0,
        &[(Some(0), Ends::AtLimit), (Some(0), Ends::AtLimit)],
        &[],
    ),
    // each makes one, in either order
    (
        DELETION,
        1,
        &[(Some(1), Ends::AtLimit), (Some(1), Ends::AtLimit)],
        &[
            &[Event::Exec(0), Event::Send(1)],
            &[Event::Send(1), Event::Exec(0)],
        ],
    ),
    (
        ONE_STUCK,
        10,
        &[(Some(0), Ends::Stuck(27)), (Some(1), Ends::Finished)],
        &[&[Event::Exec(1)]],
    ),
];

#[test]
fn runs_end(rt: HostRuntime) -> Result<(), Fail> {
    for (text, limit, ends, schedules) in &ROWS {
        let want = Want {
            ends: *ends,
            schedules: *schedules,
            first: &[],
        };
        open_run(&rt, rt.alloc(), text, *limit, &want)?;
    }
    Ok(())
}

/// Where the second replica meets its list too early, it is stuck there; the first one finishes.
fn first_finishes(rt: &impl Abort, alloc: Global, report: Report) -> Result<(), Fail>
    requires { IsWellFormedScenario (with_schedule (scenario_view report.start) report.schedule.items) }
{
    holds(
        rt,
        report.ends.len() == 2 && ends_so(&report.ends[0], Ends::Finished),
    );
    runs_again(rt, alloc, report)
}

#[test]
fn a_list_that_may_be_too_late(rt: HostRuntime) -> Result<(), Fail> {
    let gates = open_gates(rt.alloc(), 2)?;
    let report = report(&rt, rt.alloc(), INSERTS, gates, 100)?;
    first_finishes(&rt, rt.alloc(), report)
}

/// So many replicas, r00 and on, each of which makes one assignment.
fn many(alloc: Global, replicas: u16) -> Result<String, AllocError> {
    let mut text = String::from_str(alloc, "jsoncrdt 1")?;
    for number in 0..replicas {
        text.push_str(format!(in alloc; " replica r{number:02} {{ doc := 1 }}")?.as_str())?;
    }
    Ok(text)
}

/// Each of the 64 has made its event, and the schedule runs again.
fn each_has_run(rt: &impl Abort, alloc: Global, report: Report) -> Result<(), Fail>
    requires { IsWellFormedScenario (with_schedule (scenario_view report.start) report.schedule.items) }
{
    made_and_ended(rt, &report, &[(Some(1), Ends::Finished); 64]);
    for p in 0..64 {
        holds(rt, report.schedule.contains(&Event::Exec(p)));
    }
    runs_again(rt, alloc, report)
}

fn run_many<R: Threads + Wait + Sync + Abort>(
    rt: &R,
    alloc: Global,
    text: &str,
) -> Result<(), Fail> {
    let gates = open_gates(alloc, 64)?;
    let report = report(rt, alloc, text, gates, 10)?;
    each_has_run(rt, alloc, report)
}

#[test]
fn each_of_many_runs(rt: HostRuntime) -> Result<(), Fail> {
    let text = many(rt.alloc(), 64)?;
    run_many(&rt, rt.alloc(), text.as_str())
}

/// Appends the script of a replica that only yields, so many times.
fn add_yields(text: &mut String, name: &str, times: u32) -> Result<(), AllocError> {
    text.push_str(" replica ")?;
    text.push_str(name)?;
    text.push_str(" { yield")?;
    for _ in 1..times {
        text.push_str("; yield")?;
    }
    text.push_str(" }")?;
    Ok(())
}

fn is_filled(rt: &impl Abort, report: &Report) {
    let full = (None, Ends::AtLimit);
    made_and_ended(rt, report, &[full, full]);
    holds(
        rt,
        report.schedule.len() == 100_000 && report.net.steps() == 0,
    );
}

fn fill<R: Threads + Wait + Sync + Abort>(rt: &R, alloc: Global, text: &str) -> Result<(), Fail> {
    let gates = open_gates(alloc, 2)?;
    let report = report(rt, alloc, text, gates, 100_000)?;
    is_filled(rt, &report);
    Ok(())
}

/// Both replicas have commands left when the schedule is as long as one can be.
#[test]
fn a_schedule_is_filled(rt: HostRuntime) -> Result<(), Fail> {
    let mut text = String::from_str(rt.alloc(), "jsoncrdt 1")?;
    add_yields(&mut text, "a", 65_536)?;
    add_yields(&mut text, "b", 65_536)?;
    fill(&rt, rt.alloc(), text.as_str())
}

/// The number of the refusal, 0 where there is none.
fn refusal<R: Threads + Wait + Sync>(
    rt: &R,
    alloc: Global,
    text: &str,
    gates: usize,
    limit: u64,
) -> Result<u8, Fail> {
    let gates: Vec<Open> = open_gates(alloc, gates)?;
    let scenario = scene(alloc, text)?;
    match run_threads(rt, alloc, scenario, gates, limit) {
        Ok(_) => Ok(0),
        Err(RunFault::Given { at: 2, stuck }) if stuck.number == 30 => Ok(44),
        Err(RunFault::Given { .. }) => Ok(254),
        Err(RunFault::GateCount) => Ok(45),
        Err(RunFault::LimitTooLarge) => Ok(46),
        Err(RunFault::NoThread(_)) => Ok(47),
        Err(RunFault::Memory) => Ok(255),
    }
}

#[test]
fn runs_are_refused(rt: HostRuntime) -> Result<(), Fail> {
    for (text, gates, limit, number) in [
        (DELETION, 1, 100, 45),
        (DELETION, 3, 100_001, 45),
        (DELETION, 2, 100_001, 46),
        (DELETION, 2, 100_000, 0),
        (STUCK_GIVEN, 1, 100_001, 45),
        (STUCK_GIVEN, 2, 100_001, 46),
        (STUCK_GIVEN, 2, 100_000, 44),
    ] {
        holds(&rt, refusal(&rt, rt.alloc(), text, gates, limit)? == number);
    }
    Ok(())
}
