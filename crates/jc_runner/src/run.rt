//! Runs by threads: one thread for each replica, joined to one report. worker.rt has the work of a thread.
ghost use Rattle.std.specs.Prelude.{◌≡◌, ◌≤◌, map, vec_len, IfOk, IfErr, IfSome};
ghost use Rattle.jc_rules.specs.declared.limits.TheConstants.{MAX_THREAD_EVENTS};
ghost use Rattle.jc_scenario.specs.WellFormed.{IsWellFormedScenario};
ghost use Rattle.jc_scenario.specs.Views.{scenario_view};
ghost use Rattle.jc_runner.specs.WorkerResult.{HaveWorked, CanStart};
ghost use Rattle.jc_runner.specs.Reports.{IsReport, IsReportedFault, IsLateFault};
ghost use Rattle.jc_runner.specs.declared.run.RunFault.TheVariants.{Memory as WantOfMemory, NoThread as WantOfThread};

use crate::bench::{Bench, BenchFault, Pass};
use crate::recorded::Recorded;
use crate::starting::{SpawnRefused, Works, start};
use crate::worker::{Gate, Worked};
use jc_choice::End;
use jc_network::{Net, Stuck};
use jc_rules::Event;
use jc_scenario::Scenario;
use std::alloc::{AllocError, Global};
use std::sync::Wait;
use std::thread;
use std::thread::{PromisedHandle, Scope, Threads, join_promised};

/// Why a run has no report.
#[derive(Drop)]
pub enum RunFault {
    /// 45: there are not as many gates as replicas.
    GateCount,
    /// 46: the limit is above `MAX_THREAD_EVENTS`.
    LimitTooLarge,
    /// 44: of the given events the one of this number, from 1, is the first that is stuck.
    Given { at: u64, stuck: Stuck },
    /// A request for memory was refused.
    Memory,
    /// 47: a thread can't be made, whatever the cause. The start of one was refused.
    NoThread(SpawnRefused),
}

impl RunFault {
    /// A copy.
    pub fn copy(&self) -> Result<Self, AllocError>
        ensures { IfOk result (λ fault. fault ≡ self.now) }
    {
        match self {
            RunFault::GateCount => Ok(RunFault::GateCount),
            RunFault::LimitTooLarge => Ok(RunFault::LimitTooLarge),
            RunFault::Given { at, stuck } => Ok(RunFault::Given {
                at: *at,
                stuck: stuck.copy()?,
            }),
            RunFault::Memory => Ok(RunFault::Memory),
            RunFault::NoThread(refused) => Ok(RunFault::NoThread(*refused)),
        }
    }
}

impl From<AllocError> for RunFault {
    ghost from_gives = { λ _ fault. fault ≡ WantOfMemory };

    fn from(_: AllocError) -> Self {
        RunFault::Memory
    }
}

impl From<SpawnRefused> for RunFault {
    ghost from_gives = { λ refused fault. fault ≡ WantOfThread refused };

    fn from(refused: SpawnRefused) -> Self {
        RunFault::NoThread(refused)
    }
}

// Joins the threads, and drops their results.
fn join_each<R: Threads>(rt: &R, handles: Vec<PromisedHandle<Worked, Works>>) {
    for handle in handles {
        let _worked = handle.join(rt);
    }
}

// Starts a thread for each pass, and joins them all. Where one can't be made, those started before it are joined too.
fn start_all<'s, E, R: Threads + Wait + Sync, G: Gate + Send + Drop + 's>(
    rt: &'s R,
    alloc: Global,
    scope: &Scope<'s, E>,
    bench: &'s Bench,
    passes: Vec<Pass>,
    gates: Vec<G>,
    limit: u64,
) -> Result<Vec<Worked>, RunFault>
    requires { CanStart bench.now passes.items (vec_len passes) (vec_len gates) limit }
    ensures len { IfOk result (λ ws. vec_len ws ≡ vec_len passes) }
    ensures each { IfOk result (λ ws. HaveWorked bench.now limit (vec_len passes) ws.items) }
    ensures fault { IfErr result (λ fault. IsLateFault fault) }
{
    let mut handles = Vec::with_capacity(alloc, passes.len())?;
    let mut gates = gates.into_iter();
    for pass in passes {
        let Some(gate) = gates.next() else {
            unreachable!()
        };
        match start(rt, scope, bench, pass, gate, limit) {
            Ok(handle) => handles.push_reserved(handle),
            Err(refused) => {
                join_each(rt, handles);
                return Err(RunFault::from(refused));
            }
        }
    }
    match join_promised(rt, handles) {
        Ok(all) => Ok(all),
        Err(failed) => {
            join_each(rt, failed.value);
            Err(RunFault::Memory)
        }
    }
}

/// The result of a run by threads.
#[derive(Drop)]
pub struct Report {
    /// The network after all events. It has begun there: none can be taken back.
    pub net: Net,
    /// The events in the order in which they were made.
    pub schedule: Vec<Event>,
    /// The number of events that each replica made.
    pub made: Vec<u64>,
    /// How each replica's thread ended.
    pub ends: Vec<End>,
    /// The scenario that was run. With `schedule` in place of its own it is the recorded one, which can be printed.
    pub start: Scenario,
}

#[derive(Drop)]
struct Parts {
    passes: Vec<Pass>,
    made: Vec<u64>,
    ends: Vec<End>,
}

// Splits the results of the threads into lists. `None` for want of memory.
fn parts_of(alloc: Global, all: Vec<Worked>) -> Option<Parts>
    ensures passes { IfSome result (λ parts. parts.passes.items ≡ map (λ (w : Worked). w.pass) all.items) }
    ensures made { IfSome result (λ parts. parts.made.items ≡ map (λ (w : Worked). w.made) all.items) }
    ensures ends { IfSome result (λ parts. parts.ends.items ≡ map (λ (w : Worked). w.end) all.items) }
{
    let mut parts = Parts {
        passes: Vec::with_capacity(alloc, all.len()).ok()?,
        made: Vec::with_capacity(alloc, all.len()).ok()?,
        ends: Vec::with_capacity(alloc, all.len()).ok()?,
    };
    for worked in all {
        let Worked { pass, made, end } = worked;
        parts.passes.push_reserved(pass);
        parts.made.push_reserved(made);
        parts.ends.push_reserved(end);
    }
    Some(parts)
}

// Runs the threads in a scope of their own.
fn run_on<R: Threads + Wait + Sync, G: Gate + Send + Drop>(
    rt: &R,
    alloc: Global,
    bench: &Bench,
    passes: Vec<Pass>,
    gates: Vec<G>,
    limit: u64,
) -> Result<Vec<Worked>, RunFault>
    requires { CanStart bench.now passes.items (vec_len passes) (vec_len gates) limit }
    ensures len { IfOk result (λ ws. vec_len ws ≡ vec_len passes) }
    ensures each { IfOk result (λ ws. HaveWorked bench.now limit (vec_len passes) ws.items) }
    ensures fault { IfErr result (λ fault. IsLateFault fault) }
{
    thread::scope(
        thread::scope_env(),
        rt,
        |scope| -> Result<Vec<Worked>, RunFault>
            requires { CanStart bench.now passes.items (vec_len passes) (vec_len gates) limit }
            ensures { IfOk result (λ ws. (vec_len ws ≡ vec_len passes)
                × HaveWorked bench.entry.now limit (vec_len passes) ws.items)
                × IfErr result (λ fault. IsLateFault fault) }
        { start_all(rt, alloc, scope, bench, passes, gates, limit) },
    )
}

/// Runs one thread for each replica, with a gate for each. A thread makes the events that its replica chooses, at most
/// `limit` of them, and asks its gate before each take. The scenario's schedule is ignored. The reported schedule leads
/// from the scenario's start to the reported network.
///
/// Refused, in this order: 45 where the gates aren't as many as the replicas; 46 where the limit is above
/// `MAX_THREAD_EVENTS`; 44 where a given event is stuck, before any thread is made; then want of memory, or 47 where a
/// thread can't be made, once those that were started are joined.
pub fn run_threads<R: Threads + Wait + Sync, G: Gate + Send + Drop>(
    rt: &R,
    alloc: Global,
    scenario: Scenario,
    gates: Vec<G>,
    limit: u64,
) -> Result<Report, RunFault>
    requires { IsWellFormedScenario (scenario_view scenario) }
    ensures accepted { IfOk result (λ r. (vec_len gates ≡ vec_len scenario.scripts) × (limit ≤ MAX_THREAD_EVENTS)) }
    ensures report { IfOk result (λ r. IsReport (scenario_view scenario) limit r) }
    ensures fault { IfErr result (λ fault. IsReportedFault fault (scenario_view scenario) (vec_len gates) limit) }
{
    if gates.len() != scenario.scripts.len() {
        return Err(RunFault::GateCount);
    }
    let (bench, passes) = match Bench::open(alloc, scenario, limit) {
        Ok(opened) => opened,
        Err(BenchFault::LimitTooLarge) => return Err(RunFault::LimitTooLarge),
        Err(BenchFault::Given { at, stuck }) => return Err(RunFault::Given { at, stuck }),
        Err(BenchFault::Memory) => return Err(RunFault::Memory),
    };
    let all = run_on(rt, alloc, &bench, passes, gates, limit)?;
    let Some(parts) = parts_of(alloc, all) else {
        return Err(RunFault::Memory);
    };
    let Parts { passes, made, ends } = parts;
    let recorded = match bench.lock.close(passes) {
        Ok(recorded) => recorded,
        Err(_) => unreachable!(),
    };
    let Recorded {
        net,
        schedule,
        start,
    } = recorded;
    Ok(Report {
        net,
        schedule,
        made,
        ends,
        start,
    })
}
