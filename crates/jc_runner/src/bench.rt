//! The bench: a network under a lock, at which replicas step in turn. Each event that was made is recorded.
use crate::recorded::Recorded;
use jc_lock::{HistoryLock, Kept, OpenRefused, Turn};
use jc_network::{Net, StartFault, StepFault, Stuck};
use jc_rules::limits::MAX_THREAD_EVENTS;
use jc_rules::{Event, Trace};
use jc_scenario::Scenario;
use std::alloc::{AllocError, Global};
use std::sync::Wait;

/// The right of one replica to step at a bench.
pub type Pass = jc_lock::Pass<Recorded>;

/// A network at which threads step in turn.
#[derive(Drop)]
pub struct Bench {
    pub(crate) lock: HistoryLock<Recorded>,
}

/// Why a bench wasn't opened.
#[derive(Drop)]
pub enum BenchFault {
    /// 46: the limit is above `MAX_THREAD_EVENTS`.
    LimitTooLarge,
    /// 44: of the given events the one of this number, from 1, is the first that is stuck.
    Given { at: u64, stuck: Stuck },
    /// A request for memory was refused.
    Memory,
}

impl BenchFault {
    ghost use Rattle.std.specs.Prelude.{◌≡◌, IfOk};

    /// A copy.
    pub fn copy(&self) -> Result<Self, AllocError>
        ensures { IfOk result (λ fault. fault ≡ self.now) }
    {
        match self {
            BenchFault::LimitTooLarge => Ok(BenchFault::LimitTooLarge),
            BenchFault::Given { at, stuck } => Ok(BenchFault::Given {
                at: *at,
                stuck: stuck.copy()?,
            }),
            BenchFault::Memory => Ok(BenchFault::Memory),
        }
    }
}

/// 43: the passes aren't those of `open`, each once. Bench and passes come back unchanged.
#[derive(Drop)]
pub struct UnclosedBench {
    pub bench: Bench,
    pub passes: Vec<Pass>,
}

/// The result of a step at the bench. Only `Made` changes the schedule.
#[derive(Drop)]
pub enum StepAnswer {
    /// The event is recorded, as the schedule's event of this number, from 1.
    Made { number: u64, trace: Trace },
    /// The event is stuck after `front` events.
    Refused { front: u64, stuck: Stuck },
    /// 38: the schedule has `MAX_EVENTS` events, which is `front`.
    Full { front: u64 },
    /// A request for memory was refused. The event can be asked for again.
    Memory,
    /// 42: the pass has no take left.
    Spent,
}

impl Bench {
    ghost use Rattle.std.specs.Prelude.{◌≡◌, ◌+◌, ◌<◌, ◌≤◌, ◌↔◌, [], length, All, map, IfOk, IfErr, IsOk, IsSome, Some};
    ghost use Rattle.std.specs.List.{range_with_len};
    ghost use mathlib.Core.List.{IsPrefix};
    ghost use Rattle.jc_rules.specs.declared.limits.TheConstants.{MAX_THREAD_EVENTS};
    ghost use Rattle.jc_rules.specs.Step.{replica_of};
    ghost use Rattle.jc_lock.specs.Numbers.{EachOnce};
    ghost use Rattle.jc_lock.specs.Shows.{IsTurnOf, pass_number, pass_left, pass_origin, pass_seen, pass_mine, turn_number, turn_left, turn_origin, turn_seen, turn_mine, turn_value};
    ghost use Rattle.jc_scenario.specs.WellFormed.{Scenario as Start, IsWellFormedScenario};
    ghost use Rattle.jc_scenario.specs.Views.{scenario_view};
    ghost use Rattle.jc_runner.specs.Answers.{IsStepAnswered, IsSpent, seen_after};
    ghost use Rattle.jc_runner.specs.Benches.{IsPassAt, IsPassFor, IsNewAt, IsSameBench, IsOpenFault, bench_start, bench_passes};
    ghost use Rattle.jc_choice.specs.Legal.{IsLegal, own_events};

    /// Opens a bench at the scenario's start, with one pass of `limit` takes for each replica. The scenario's schedule
    /// is ignored.
    ///
    /// Refused, in this order: 46 where the limit is above `MAX_THREAD_EVENTS`, then 44 where a given event is stuck,
    /// or want of memory.
    pub fn open(
        alloc: Global,
        scenario: Scenario,
        limit: u64,
    ) -> Result<(Bench, Vec<Pass>), BenchFault>
        requires { IsWellFormedScenario (scenario_view scenario) }
        ensures start { IfOk result (λ r. bench_start r.0 ≡ scenario_view scenario) }
        ensures passes { IfOk result (λ r. bench_passes r.0 ≡ length (scenario_view scenario).scripts) }
        ensures numbers { IfOk result (λ r.
            map pass_number r.1.items ≡ range_with_len 0 (length (scenario_view scenario).scripts)) }
        ensures new { IfOk result (λ r. All (IsNewAt r.0 limit) r.1.items) }
        ensures own { IfOk result (λ r. All (λ p. own_events (pass_seen p) (pass_number p) ≡ pass_mine p) r.1.items) }
        ensures limit { IfOk result (λ r. limit ≤ MAX_THREAD_EVENTS) }
        ensures refused { IfErr result (λ fault. IsOpenFault fault (scenario_view scenario) limit) }
    {
        if limit > MAX_THREAD_EVENTS {
            return Err(BenchFault::LimitTooLarge);
        }
        let passes = scenario.scripts.len() as u16;
        let net = match Net::start(alloc, &scenario) {
            Ok(net) => net,
            Err(StartFault::Given { at, stuck }) => return Err(BenchFault::Given { at, stuck }),
            Err(StartFault::Memory) => return Err(BenchFault::Memory),
        };
        let recorded = Recorded {
            net,
            schedule: Vec::new(alloc),
            start: scenario,
        };
        match HistoryLock::open(alloc, recorded, passes, limit) {
            Ok((lock, passes)) => Ok((Bench { lock }, passes)),
            Err(OpenRefused { value: _, why: _ }) => Err(BenchFault::Memory),
        }
    }

    // Makes the event in the turn, and gives the turn back.
    pub(crate) fn make(&self, mut turn: Turn<Recorded>, event: &Event) -> (Pass, StepAnswer)
        requires lock { IsTurnOf self.now.lock turn }
        requires origin { turn_origin turn ≡ Some (turn_value turn).start }
        requires list { turn_seen turn ≡ (turn_value turn).schedule }
        requires number { replica_of event.now ≡ turn_number turn }
        ensures lock { IsPassAt self.now result.0 }
        ensures number { (pass_number result.0 ≡ turn_number turn) × (pass_origin result.0 ≡ turn_origin turn) }
        ensures left { pass_left result.0 ≡ turn_left turn }
        ensures seen { IsPrefix (turn_seen turn) (pass_seen result.0) }
        ensures own { own_events (pass_seen result.0) (pass_number result.0) ≡ pass_mine result.0 }
        ensures answer { IsStepAnswered (turn_value turn).start event.now (pass_seen result.0)
            (turn_mine turn) (pass_mine result.0) (turn_left turn + 1) (pass_left result.0) result.1 }
        ensures list { pass_seen result.0 ≡ seen_after (turn_seen turn) event.now result.1 }
        ensures waited { IsSpent result.1 → ⊥ }
    {
        let added = turn.value_mut().add(event);
        let front = turn.value().entries();
        let pass = self.lock.give(turn);
        match added {
            Ok(trace) => {
                let number = front;
                (pass, StepAnswer::Made { number, trace })
            }
            Err(StepFault::Stuck(stuck)) => (pass, StepAnswer::Refused { front, stuck }),
            Err(StepFault::Full) => (pass, StepAnswer::Full { front }),
            Err(StepFault::Memory) => (pass, StepAnswer::Memory),
        }
    }

    /// Waits for the pass's turn, and makes the event, which must be of the pass's replica. The pass comes back with
    /// one take less, and has seen the history up to this step. The history leads from the start of the scenario that
    /// is the pass's origin.
    ///
    /// `Spent` exactly where the pass has no take left: then the call doesn't wait, and the pass comes back unchanged.
    pub fn step<R: Wait>(&self, rt: &R, pass: Pass, event: &Event) -> (Pass, StepAnswer)
        requires { IsPassFor self.now (replica_of event.now) pass }
        ensures pass { IsPassFor self.now (replica_of event.now) result.0 }
        ensures origin { pass_origin result.0 ≡ pass_origin pass }
        ensures seen { IsPrefix (pass_seen pass) (pass_seen result.0) }
        ensures own { own_events (pass_seen result.0) (pass_number result.0) ≡ pass_mine result.0 }
        ensures when { IsSpent result.1 ↔ (pass_left pass ≡ 0) }
        ensures spent { IsSpent result.1 → result.0 ≡ pass }
        ensures answer { (s : Start) → pass_origin pass ≡ Some s
            → IsStepAnswered s event.now (pass_seen result.0)
            (pass_mine pass) (pass_mine result.0) (pass_left pass) (pass_left result.0) result.1 }
        ensures begun { (IsSpent result.1 → ⊥) → IsSome (pass_origin pass) }
    {
        match self.lock.take(rt, pass) {
            Ok(turn) => self.make(turn, event),
            Err(spent) => (spent.pass, StepAnswer::Spent),
        }
    }

    /// Returns the length of the schedule, and the pass has then seen it. The call waits for nobody.
    pub fn count(&self, pass: &mut Pass) -> u64
        requires { IsPassAt self.now pass.old }
        ensures pass { IsPassAt self.now pass.new }
        ensures count { result ≡ length (pass_seen pass.new) }
        ensures seen { IsPrefix (pass_seen pass.old) (pass_seen pass.new) }
        ensures number { (pass_number pass.new ≡ pass_number pass.old) × (pass_left pass.new ≡ pass_left pass.old) }
        ensures origin { pass_origin pass.new ≡ pass_origin pass.old }
        ensures mine { pass_mine pass.new ≡ pass_mine pass.old }
        ensures own { own_events (pass_seen pass.new) (pass_number pass.new) ≡ pass_mine pass.new }
    {
        self.lock.count(pass)
    }

    /// Returns the network and its schedule, which leads to it from the start of the bench's scenario. The network has
    /// begun there, so no event can be taken back. What each pass has seen is a prefix of the schedule. The events of
    /// each pass in it are those that were made under the pass, and it has no others.
    ///
    /// 43 exactly where the numbers of the passes aren't those of `open`, each once. Then bench and passes come back
    /// unchanged.
    pub fn close(self, passes: Vec<Pass>) -> Result<Recorded, UnclosedBench>
        requires { All (IsPassAt self) passes.items }
        ensures when { IsOk result ↔ EachOnce (bench_passes self) (map pass_number passes.items) }
        ensures legal { IfOk result (λ r. IsLegal r.schedule (bench_start self) r.net.history.now) }
        ensures begun { IfOk result (λ r. r.net.history.earlier ≡ []) }
        ensures origin { IfOk result (λ r. r.start ≡ bench_start self) }
        ensures seen { IfOk result (λ r. All (λ p. IsPrefix (pass_seen p) r.schedule) passes.items) }
        ensures mine { IfOk result (λ r.
            All (λ p. own_events r.schedule (pass_number p) ≡ pass_mine p) passes.items) }
        ensures makers { IfOk result (λ r. All (λ e. replica_of e < bench_passes self) r.schedule) }
        ensures refused { IfErr result (λ r. IsSameBench self r.bench × (r.passes ≡ passes)) }
    {
        match self.lock.close(passes) {
            Ok(recorded) => {
                // Reading a field makes known what the type keeps of the network and the schedule.
                let _ = &recorded.schedule;
                Ok(recorded)
            }
            Err(jc_lock::CloseRefused { lock, passes }) => Err(UnclosedBench {
                bench: Bench { lock },
                passes,
            }),
        }
    }
}
