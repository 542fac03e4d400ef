//! Tests of runs by threads: with too little memory there is no report, or one in which an end says so.
//!
//! Each thread would get a heap of its own from the C library. So the memory is filled before the first thread is made,
//! but for a gap in which stacks fit and no such heap does. Stacks are kept for the next threads; after the first run
//! what threads take comes page by page out of a second gap, and what the thread takes that started them out of the
//! room. Where the C library does otherwise, fewer requests are refused, and the same must hold after each.

ghost use Rattle.std.specs.Prelude.{None, true};
ghost use Rattle.jc_scenario.specs.WellFormed.{IsWellFormedScenario};
ghost use Rattle.jc_scenario.specs.Views.{scenario_view};

use crate::attempts::{Outcome, done_if, holds, is_done, refused_if};
use crate::commands::texts;
use crate::due::AnyOf;
use crate::memory::{SPARE, block, fill_beside_threads, leave};
use crate::rows::{DELETION, scene};
use jc_choice::End;
use jc_fakes::Bytes;
use jc_io::ReadFault;
use jc_program::{Files, work};
use jc_runner::{Gate, Report, RunFault, run_threads};
use jc_scenario::Scenario;
use std::alloc::{AllocError, Global};
use std::process::Abort;
use std::sync::Wait;
use std::sync::atomic::{AtomicBool, Ordering};
use std::test::Fail;
use std::thread::Threads;

/// The C library frees blocks of these sizes to the system at once, and makes no heap in so small a gap. The first one
/// for which there is room is taken, since a stack may stand in a gap that was given back.
const GAPS: [usize; 3] = [48 << 20, 40 << 20, 32 << 20];

const PAGE: usize = 4_096;

/// The number of pages that threads get at most. In fewer than 256 the C library makes no heap for their caller.
const PAGES: usize = 200;

/// The memory of the caller where the threads are to be refused: all that it needs.
const AMPLE: usize = SPARE / 2;

/// The step by which the caller's memory grows where it is to be refused, and the number of steps.
const STEP: usize = 128;

const STEPS: usize = 128;

/// The number of looks at a flag.
const LOOKS: u64 = 1_000_000_000;

/// A gate that is open.
#[derive(Drop)]
struct Open;

impl Gate for Open {
    ghost use Rattle.std.specs.Prelude.{None};

    ghost asked = { λ _. None };

    fn before<R: Wait>(&mut self, _rt: &R, _replica: u16, _step: u64) {}
}

fn gates(alloc: Global) -> Result<Vec<Open>, AllocError> {
    let mut gates = Vec::with_capacity(alloc, 2)?;
    gates.push(Open)?;
    gates.push(Open)?;
    Ok(gates)
}

/// A gate at which a thread waits for the other one, so that both have stacks at one time.
#[derive(Drop)]
struct Meeting<'a> {
    mine: &'a AtomicBool,
    other: &'a AtomicBool,
}

impl<'a> Gate for Meeting<'a> {
    ghost use Rattle.std.specs.Prelude.{None};

    ghost asked = { λ _. None };

    fn before<R: Wait>(&mut self, _rt: &R, _replica: u16, _step: u64) {
        self.mine.store(true, Ordering::SeqCst);
        for _ in 0..LOOKS {
            if self.other.load(Ordering::SeqCst) {
                break;
            }
        }
    }
}

fn meetings<'a>(
    alloc: Global,
    a: &'a AtomicBool,
    b: &'a AtomicBool,
) -> Result<Vec<Meeting<'a>>, AllocError> {
    let mut gates = Vec::with_capacity(alloc, 2)?;
    gates.push(Meeting { mine: a, other: b })?;
    gates.push(Meeting { mine: b, other: a })?;
    Ok(gates)
}

/// Whether all replicas had memory; each end says that one hadn't, or that its script ended.
fn outcome_of(report: &Report) -> Outcome {
    let mut outcome = Outcome::Done;
    for end in &report.ends {
        match end {
            End::Finished => {}
            End::NoMemory => outcome = Outcome::Refused,
            _ => return Outcome::Wrong,
        }
    }
    outcome
}

/// Whether the schedule has as many events as were made, of which none can be taken back.
fn is_summed(report: &Report) -> bool {
    let mut all = 0u64;
    for made in &report.made {
        all = all.saturating_add(*made);
    }
    all == report.schedule.len() as u64 && report.net.steps() == 0
}

/// A run of two threads.
fn run<R: Threads + Wait + Sync, G: Gate + Send + Drop>(
    rt: &R,
    alloc: Global,
    scenario: Scenario,
    gates: Vec<G>,
) -> Outcome
    requires { IsWellFormedScenario (scenario_view scenario) }
{
    match run_threads(rt, alloc, scenario, gates, 100) {
        Ok(report) => {
            if is_summed(&report) {
                outcome_of(&report)
            } else {
                Outcome::Wrong
            }
        }
        Err(RunFault::Memory | RunFault::NoThread(_)) => Outcome::Refused,
        Err(_) => Outcome::Wrong,
    }
}

/// A runtime without files.
#[derive(Drop)]
struct NoFiles<R> {
    rt: R,
}

impl<R: Threads> Threads for NoFiles<R> {}

impl<R: Wait> Wait for NoFiles<R> {}

impl<R: Alloc> Alloc for NoFiles<R> {
    type A = R::A;

    fn alloc(&self) -> R::A {
        self.rt.alloc()
    }
}

impl<R> Files for NoFiles<R> {
    ghost texts = { λ _ _. None };

    ghost may_fail = { λ _ _. true };

    fn read_file(&self, _alloc: Global, _name: &str, _most: usize) -> Result<Vec<u8>, ReadFault> {
        Err(ReadFault::Failed)
    }
}

const ONE: &str = "jsoncrdt 1 replica a { doc := 1 }";

const RECORDED: &str = "jsoncrdt 1\nreplica a {\n  doc := 1;\n}\nschedule {\n  a.exec;\n}\n";

const UNBEGUN: &str = "jsoncrdt 1\nreplica a {\n  doc := 1;\n}\nschedule {\n}\n";

/// The texts of standard error: where there was too little memory, and the last where there was enough.
const LINES: [&str; 5] = [
    "no memory\n",
    "no thread\n",
    "a made 0 no memory\n",
    "a made 1 no memory\n",
    "a made 1 finished\n",
];

/// The command of the arguments, for `threads`.
fn command<R: Threads + Wait + Sync + AllocGlobal>(rt: &R, words: &[String]) -> Outcome {
    let mut out = AnyOf::new([RECORDED, UNBEGUN, "", "", ""]);
    let mut err = AnyOf::new(LINES);
    let mut input = Bytes::new(ONE.as_bytes());
    match work(&NoFiles { rt }, words, &mut input, &mut out, &mut err) {
        0 => done_if(out.is_whole(0) && err.is_whole(4)),
        5 => refused_if(out.is_one() && err.is_one() && !err.is_whole(4)),
        _ => Outcome::Wrong,
    }
}

/// A gap, or an empty block where there is no room for one.
fn gap(alloc: Global) -> Vec<u8> {
    for size in GAPS {
        if let Ok(gap) = block(alloc, size) {
            return gap;
        }
    }
    Vec::new(alloc)
}

/// Takes all memory, but for this number of bytes of the room and of pages of the gap.
fn leave_both(rt: &impl Abort, alloc: Global, bytes: usize, pages: usize) -> Vec<Vec<u8>> {
    let gap = gap(alloc);
    let size = gap.capacity();
    let mut blocks = leave(rt, alloc, bytes);
    drop(gap);
    let rest = block(alloc, size.saturating_sub(pages.saturating_mul(PAGE)));
    if let Ok(rest) = rest {
        blocks.push(rest).ok().expect(rt, "room for a block");
    }
    blocks
}

/// Whether a run is done with this much memory.
fn is_run<R: Threads + Wait + Sync + Abort>(
    rt: &R,
    alloc: Global,
    bytes: usize,
    pages: usize,
) -> bool {
    let scenario = scene(rt, alloc, DELETION);
    let gates = gates(alloc).ok().expect(rt, "gates");
    let blocks = leave_both(rt, alloc, bytes, pages);
    let outcome = run(rt, alloc, scenario, gates);
    drop(blocks);
    is_done(rt, outcome)
}

/// The number of refused runs whose caller has more each time, and whose threads have nothing.
fn refused_callers<R: Threads + Wait + Sync + Abort>(rt: &R, alloc: Global) -> u64 {
    let mut refused = 0u64;
    for n in 0..STEPS {
        if !is_run(rt, alloc, n * STEP, 0) {
            refused = refused.saturating_add(1);
        }
    }
    refused
}

/// The number of refused runs whose threads have more each time.
fn refused_threads<R: Threads + Wait + Sync + Abort>(rt: &R, alloc: Global) -> u64 {
    let mut refused = 0u64;
    for pages in 0..PAGES {
        if !is_run(rt, alloc, AMPLE, pages) {
            refused = refused.saturating_add(1);
        }
    }
    refused
}

#[test]
fn runs_are_refused(rt: HostRuntime) -> Result<(), Fail> {
    let alloc = rt.alloc();
    let (a, b) = (AtomicBool::new(false), AtomicBool::new(false));
    let scenario = scene(&rt, alloc, DELETION);
    let gates = meetings(alloc, &a, &b)?;
    let (stacks, apart, pages) = (gap(alloc), gap(alloc), gap(alloc));
    let blocks = fill_beside_threads(&rt, alloc);
    drop(stacks);
    holds(&rt, run(&rt, alloc, scenario, gates) == Outcome::Done);
    drop(pages);
    holds(&rt, refused_callers(&rt, alloc) > 0);
    holds(&rt, refused_threads(&rt, alloc) > 0);
    drop(apart);
    drop(blocks);
    holds(&rt, is_run(&rt, alloc, SPARE, 0));
    Ok(())
}

/// Whether the command is done with this much memory.
fn is_carried_out<R: Threads + Wait + Sync + AllocGlobal + Abort>(
    rt: &R,
    words: &[String],
    bytes: usize,
    pages: usize,
) -> bool {
    let blocks = leave_both(rt, rt.alloc(), bytes, pages);
    let outcome = command(rt, words);
    drop(blocks);
    is_done(rt, outcome)
}

/// The number of refusals of the command where its caller has more each time, and its threads have nothing.
fn refused_words<R: Threads + Wait + Sync + AllocGlobal + Abort>(rt: &R, words: &[String]) -> u64 {
    let mut refused = 0u64;
    for n in 0..STEPS {
        if !is_carried_out(rt, words, n * STEP, 0) {
            refused = refused.saturating_add(1);
        }
    }
    refused
}

/// The number of refusals of the command where its threads have more each time.
fn refused_commands<R: Threads + Wait + Sync + AllocGlobal + Abort>(
    rt: &R,
    words: &[String],
) -> u64 {
    let mut refused = 0u64;
    for pages in 0..PAGES {
        if !is_carried_out(rt, words, AMPLE, pages) {
            refused = refused.saturating_add(1);
        }
    }
    refused
}

#[test]
fn the_command_is_refused(rt: HostRuntime) -> Result<(), Fail> {
    let alloc = rt.alloc();
    // By this call, which is another, the stack grows.
    holds(
        &rt,
        command(&rt, &texts(alloc, &["check", "-"])?) == Outcome::Wrong,
    );
    let words = texts(alloc, &["threads", "-"])?;
    let (stacks, apart, pages) = (gap(alloc), gap(alloc), gap(alloc));
    let blocks = fill_beside_threads(&rt, alloc);
    drop(stacks);
    holds(&rt, command(&rt, &words) == Outcome::Done);
    drop(pages);
    holds(&rt, refused_words(&rt, &words) > 0);
    holds(&rt, refused_commands(&rt, &words) > 0);
    drop(apart);
    drop(blocks);
    holds(&rt, is_carried_out(&rt, &words, SPARE, 0));
    Ok(())
}
