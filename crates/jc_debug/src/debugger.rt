//! The debugger: a network, its schedule, the traces of the events that were made, and breakpoints. Each call is a
//! move, a question, or a change of breakpoints.

ghost use Rattle.std.specs.Prelude.{◌≡◌, ◌≢◌, ◌+◌, ◌-◌, ◌<◌, ◌≤◌, ◌↔◌, ◌++◌, ◌∷◌, [], ℕ, length, slice_get, Some, None, IsTrue, IsFalse, IsOk, IsNone, IfOk, IfErr, IfSome, IfNone, OnOk, OnErr, IsErrOf};
ghost use Rattle.jc_rules.specs.declared.limits.TheConstants.{MAX_BREAKS, MAX_EVENTS};
ghost use Rattle.jc_rules.specs.Runs.{rows_of_all};
ghost use Rattle.jc_network.specs.declared.fault.StartFault.TheVariants as S;
ghost use Rattle.jc_network.specs.declared.fault.Stuck.{Stuck as AnyStuck};
ghost use Rattle.jc_network.specs.Given.{before_given, IsStarted, IsGivenFault, IsUnstartedFault};
ghost use Rattle.jc_scenario.specs.WellFormed.{IsWellFormedScenario};
ghost use Rattle.jc_scenario.specs.Views.{scenario_view};
ghost use Rattle.jc_debug.specs.declared.breaks.Break.TheVariants as Kind;
ghost use Rattle.jc_debug.specs.Moves.{IsNextHalted, IsHalted, IsMoveFault, IsTraceOf, RunMoves, IsRunFault, IsActed, IsActFault, IsSet, IsCleared, IsNoBreak};
ghost use Rattle.jc_debug.specs.DebuggerState.{IsNetworkAt, Names, NamesAt, IsFree, IsLeast, HasRule, new_session};
ghost use Rattle.jc_debug.specs.Invariant.{IsDebugger, IsMoved, start_of, session_of, placed_in};

use crate::breaks::Break;
use crate::fault::{DebugFault, Halt, RunEnd};
use jc_network::{Net, StartFault, StepFault, Unstarted};
use jc_rules::limits::{MAX_BREAKS, MAX_EVENTS};
use jc_rules::{Event, Refusal, Rule, Run, Trace};
use jc_scenario::Scenario;
use std::alloc::{AllocError, Global};
use std::marker::Model;

/// A network that moves along a schedule, forwards and backwards. Contracts see it as the networks at the positions up
/// to its own, the schedule, the traces of the events up to there, and the breakpoints.
#[derive(Drop)]
pub struct Debugger {
    net: Net,
    schedule: Vec<Event>,
    /// The trace of each event up to the position. Each is kept, since a step that was taken back can't be made again
    /// without memory.
    traces: Vec<Trace>,
    /// Breakpoint j + 1 is at place j.
    breaks: [Option<Break>; MAX_BREAKS],
}

impl Model for Debugger {
    ghost use Rattle.jc_debug.specs.Invariant.{Seen, IsDebugger};
    ghost use Rattle.jc_debug.specs.Stored.{seen_code};

    ghost Value = { Seen };

    ghost coded = { seen_code };

    ghost view = { λ a.
        record { net = a.net; schedule = a.schedule.items; traces = a.traces.items; breaks = a.breaks } };

    ghost invariant = { λ a. IsDebugger
        (record { net = a.net; schedule = a.schedule.items; traces = a.traces.items; breaks = a.breaks }) };
}

impl Debugger {
    /// Makes a debugger at the start of the scenario, without breakpoints. It takes over the scenario's names, scripts
    /// and schedule.
    ///
    /// Refused: `Given`, with the first given event that is stuck, where the scenario has no start; else want of memory.
    pub fn new(alloc: Global, scenario: Scenario) -> Result<Self, StartFault>
        requires { IsWellFormedScenario (scenario_view scenario) }
        ensures net { IfOk result (λ debugger. IsStarted (scenario_view scenario) debugger.net) }
        ensures session { IfOk result (λ debugger. session_of debugger ≡ new_session scenario.schedule.items) }
        ensures given { (at : ℕ) (s : AnyStuck) → IsErrOf result (S.Given at s)
            → IsGivenFault (before_given (scenario_view scenario)) (scenario_view scenario).given at s }
    {
        match Debugger::of(alloc, scenario) {
            Ok(debugger) => Ok(debugger),
            Err(
                Unstarted::Given {
                    names: _,
                    at,
                    stuck,
                },
            ) => Err(StartFault::Given { at, stuck }),
            Err(Unstarted::Memory) => Err(StartFault::Memory),
        }
    }

    /// Makes the debugger that `new` does. Where it is refused for a given event, it gives the scenario's names back,
    /// by which the event is told.
    pub fn of(alloc: Global, scenario: Scenario) -> Result<Self, Unstarted>
        requires { IsWellFormedScenario (scenario_view scenario) }
        ensures net { IfOk result (λ debugger. IsStarted (scenario_view scenario) debugger.net) }
        ensures session { IfOk result (λ debugger. session_of debugger ≡ new_session scenario.schedule.items) }
        ensures unstarted { IfErr result (IsUnstartedFault (scenario_view scenario)) }
    {
        let (net, schedule) = Net::of(alloc, scenario)?;
        Ok(Debugger {
            net,
            schedule,
            traces: Vec::new(alloc),
            breaks: [None; MAX_BREAKS],
        })
    }

    // ---- questions

    /// Returns the position: the number of events from the start to the network.
    pub fn position(&self) -> u64
        ensures position { result ≡ length self.now.traces }
        ensures trail { IsDebugger self.now }
    {
        self.traces.len() as u64
    }

    /// Returns all events, also those after the position.
    pub fn schedule(&self) -> &[Event]
        ensures { result.now ≡ self.now.schedule }
    {
        self.schedule.as_slice()
    }

    /// Returns the network to which the events before the position lead from the start.
    pub fn net(&self) -> &Net
        ensures net { result.now ≡ self.now.net }
        ensures is_at { IsNetworkAt (start_of self.now) self.now.schedule (length self.now.traces)
            result.now.history.now }
    {
        &self.net
    }

    /// Returns the trace of the event that led to the position, as runs. At the start there is none.
    pub fn trace(&self) -> Option<&[Run]>
        ensures trace { IfSome result (λ runs. IsTraceOf self.now (rows_of_all runs.now)) }
        ensures start { IsNone result ↔ (length self.now.traces ≡ 0) }
    {
        match self.traces.last() {
            Some(trace) => Some(trace.runs()),
            None => None,
        }
    }

    // ---- moves

    /// Makes the next n events. It is refused with `AtEnd` where the schedule has fewer left, and then nothing moves.
    /// After another refusal the debugger is before the event that is stuck, or for which there was no memory.
    pub fn step(&mut self, n: u64) -> Result<(), DebugFault>
        ensures ok { OnOk result (IsMoved self.old self.new (length self.old.traces + n)) }
        ensures end { IsErrOf result (DebugFault.Refused Refusal.AtEnd)
            ↔ (length self.old.schedule < length self.old.traces + n) }
        ensures err { IfErr result (IsMoveFault Refusal.AtEnd self.old self.new (length self.old.traces + n)) }
    {
        if n > self.events() - self.position() {
            return Err(DebugFault::Refused(Refusal::AtEnd));
        }
        match self.advance(n) {
            Ok(()) => Ok(()),
            Err(halt) => Err(DebugFault::from(halt)),
        }
    }

    /// Takes n events back. It returns `false`, and nothing moves, where fewer were made. It takes no memory.
    pub fn back(&mut self, n: u64) -> bool
        ensures back { IsTrue result → IsMoved self.old self.new (length self.old.traces - n) }
        ensures start { IsFalse result ↔ (length self.old.traces < n) }
        ensures kept { IsFalse result → self.new ≡ self.old }
    {
        if n > self.position() {
            return false;
        }
        for _taken in 0..n {
            self.backward();
        }
        true
    }

    /// Goes to position n. It is refused with `PastSchedule` where the schedule is shorter, and then nothing moves. On
    /// the way forward, after another refusal, it is before the event that is stuck, or for which there was no memory.
    /// The way back takes no memory and isn't refused.
    pub fn goto(&mut self, n: u64) -> Result<(), DebugFault>
        ensures ok { OnOk result (IsMoved self.old self.new n) }
        ensures past { IsErrOf result (DebugFault.Refused Refusal.PastSchedule) ↔ (length self.old.schedule < n) }
        ensures err { IfErr result (IsMoveFault Refusal.PastSchedule self.old self.new n) }
        ensures back { n ≤ length self.old.traces → IsOk result }
    {
        let here = self.position();
        if n > self.events() {
            return Err(DebugFault::Refused(Refusal::PastSchedule));
        }
        if n <= here {
            let _ = self.back(here - n);
            return Ok(());
        }
        match self.advance(n - here) {
            Ok(()) => Ok(()),
            Err(halt) => Err(DebugFault::from(halt)),
        }
    }

    /// Makes events up to the first of: a later position that a breakpoint names, an event that is stuck, the
    /// schedule's end. It is refused with `AtEnd` where it is at the end already. Where there was no memory it is
    /// before the event that wasn't made.
    pub fn run(&mut self) -> Result<RunEnd, DebugFault>
        ensures ok { IfOk result (RunMoves self.old self.new) }
        ensures end { IsErrOf result (DebugFault.Refused Refusal.AtEnd)
            ↔ (length self.old.traces ≡ length self.old.schedule) }
        ensures err { IfErr result (IsRunFault self.old self.new) }
    {
        let here = self.position();
        let end = self.events();
        if here == end {
            return Err(DebugFault::Refused(Refusal::AtEnd));
        }
        for _position in here..end {
            match self.forward() {
                Ok(()) => {}
                Err(Halt::Stuck(stuck)) => return Ok(RunEnd::Stuck(stuck)),
                Err(Halt::Memory { at: _ }) => return Err(DebugFault::Memory),
            }
            if let Some(j) = self.named() {
                return Ok(RunEnd::Break(j as u16 + 1));
            }
        }
        Ok(RunEnd::End)
    }

    /// Makes an event of the caller's: the schedule is cut at the position, and the event is appended. Refused, in this
    /// order: `TooManyEvents` at position `MAX_EVENTS`, then `Stuck` or want of memory. After a refusal nothing has
    /// changed.
    pub fn act(&mut self, event: &Event) -> Result<(), DebugFault>
        ensures ok { OnOk result (IsActed self.old self.new event.now) }
        ensures full { IsErrOf result (DebugFault.Refused Refusal.TooManyEvents)
            ↔ (length self.old.traces ≡ MAX_EVENTS) }
        ensures stuck { IfErr result (IsActFault self.old event.now) }
        ensures kept { OnErr result (self.new ≡ self.old) }
    {
        let here = self.traces.len();
        if here >= MAX_EVENTS {
            return Err(DebugFault::Refused(Refusal::TooManyEvents));
        }
        if self.schedule.reserve(1).is_err() {
            return Err(DebugFault::Memory);
        }
        let trace = match self.net.step(event) {
            Ok(trace) => trace,
            Err(StepFault::Full) => unreachable!(),
            Err(StepFault::Stuck(stuck)) => return Err(DebugFault::Stuck(stuck)),
            Err(StepFault::Memory) => return Err(DebugFault::Memory),
        };
        if keep(&mut self.traces, &trace).is_err() {
            let _ = self.net.undo();
            return Err(DebugFault::Memory);
        }
        self.schedule.truncate(here);
        self.schedule.push(*event).unwrap();
        Ok(())
    }

    // ---- breakpoints

    /// Sets a breakpoint that names position n. It gets the least number from 1 to `MAX_BREAKS` that is free, and is
    /// refused where none is. It takes no memory, nor do the next two.
    pub fn break_at(&mut self, n: u64) -> Result<u16, DebugFault>
        ensures { IsSet self.old self.new (Kind.Position n) result }
    {
        self.set(Break::Position(n))
    }

    /// Sets a breakpoint that names each position whose event has the rule in its trace.
    pub fn break_rule(&mut self, rule: Rule) -> Result<u16, DebugFault>
        ensures { IsSet self.old self.new (Kind.Rule rule) result }
    {
        self.set(Break::Rule(rule))
    }

    /// Sets a breakpoint that names each position whose event is of replica p. Refused, in this order: where there is
    /// no such replica, then where no number is free.
    pub fn break_replica(&mut self, p: u16) -> Result<u16, DebugFault>
        ensures set { p < length self.old.net.names → IsSet self.old self.new (Kind.Replica p) result }
        ensures missing { IsErrOf result (DebugFault.Refused Refusal.NoSuchReplica) ↔ (length self.old.net.names ≤ p) }
        ensures kept { OnErr result (self.new ≡ self.old) }
    {
        if self.replicas() <= p as usize {
            return Err(DebugFault::Refused(Refusal::NoSuchReplica));
        }
        self.set(Break::Replica(p))
    }

    /// Takes breakpoint k away, and returns whether there was one. It takes no memory.
    pub fn unbreak(&mut self, k: u64) -> bool
        ensures cleared { IsTrue result → IsCleared self.old self.new k }
        ensures none { IsFalse result → IsNoBreak self.old k × (self.new ≡ self.old) }
    {
        // For its contract: there are `MAX_BREAKS` places.
        let _ = self.position();
        if k == 0 || k > MAX_BREAKS as u64 {
            return false;
        }
        let j = k as usize - 1;
        if self.place(j).is_none() {
            return false;
        }
        self.put(j, None);
        true
    }
}

// The parts that the calls share.
impl Debugger {
    /// Returns the number of events of the schedule.
    fn events(&self) -> u64
        ensures { result ≡ length self.now.schedule }
    {
        self.schedule.len() as u64
    }

    /// Makes the next event. After a refusal nothing has changed.
    fn forward(&mut self) -> Result<(), Halt>
        requires more { length self.old.traces < length self.old.schedule }
        ensures ok { OnOk result (IsMoved self.old self.new (length self.old.traces + 1)) }
        ensures err { IfErr result (IsNextHalted self.old) }
        ensures kept { OnErr result (self.new ≡ self.old) }
    {
        let at = self.position();
        let event = self.schedule[self.traces.len()];
        let trace = match self.net.step(&event) {
            Ok(trace) => trace,
            Err(StepFault::Full) => unreachable!(),
            Err(StepFault::Stuck(stuck)) => return Err(Halt::Stuck(stuck)),
            Err(StepFault::Memory) => return Err(Halt::Memory { at }),
        };
        if keep(&mut self.traces, &trace).is_err() {
            let _ = self.net.undo();
            return Err(Halt::Memory { at });
        }
        Ok(())
    }

    /// Makes the next n events, up to one that is stuck or for which there was no memory. Then it is before that event.
    fn advance(&mut self, n: u64) -> Result<(), Halt>
        requires { length self.old.traces + n ≤ length self.old.schedule }
        ensures ok { OnOk result (IsMoved self.old self.new (length self.old.traces + n)) }
        ensures err { IfErr result (IsHalted self.old self.new (length self.old.traces + n)) }
    {
        for _made in 0..n {
            match self.forward() {
                Ok(()) => {}
                Err(halt) => return Err(halt),
            }
        }
        Ok(())
    }

    /// Takes the last event back. It takes no memory.
    fn backward(&mut self)
        requires { 0 < length self.old.traces }
        ensures { IsMoved self.old self.new (length self.old.traces - 1) }
    {
        let _ = self.net.undo();
        drop(self.traces.pop());
    }

    /// Returns the least place of a breakpoint that names the position.
    fn named(&self) -> Option<usize>
        ensures some { IfSome result (λ j.
            (j < MAX_BREAKS)
            × IsLeast (NamesAt (start_of self.now) (session_of self.now) (length self.now.traces)) j) }
        ensures none { IfNone result (IsFree (start_of self.now) (session_of self.now) (length self.now.traces)) }
        ensures trail { IsDebugger self.now }
    {
        // For its contract: there are `MAX_BREAKS` places, and the debugger is on its trail.
        let _ = self.position();
        for j in 0..MAX_BREAKS {
            if let Some(b) = self.place(j) {
                if self.names(b) {
                    return Some(j);
                }
            }
        }
        None
    }

    /// Whether the breakpoint names the position, also where none is set. At the start only a position's does, since no
    /// event led there. It takes no memory.
    pub fn names(&self, b: Break) -> bool
        ensures { IsTrue result ↔ Names (start_of self.now) self.now.schedule b (length self.now.traces) }
    {
        match b {
            Break::Position(n) => n == self.position(),
            Break::Rule(rule) => match self.trace() {
                Some(runs) => has_rule(runs, rule),
                None => false,
            },
            Break::Replica(p) => self.is_last_of(p),
        }
    }

    /// Returns whether the event that led to the position is of the replica.
    fn is_last_of(&self, p: u16) -> bool
        ensures { IsTrue result
            ↔ Names (start_of self.now) self.now.schedule (Kind.Replica p) (length self.now.traces) }
    {
        let here = self.traces.len();
        if here == 0 {
            return false;
        }
        self.schedule[here - 1].replica() == p
    }

    /// Returns the breakpoint at the place.
    fn place(&self, j: usize) -> Option<Break>
        requires { j < MAX_BREAKS }
        ensures { slice_get self.now.breaks j ≡ Some result }
    {
        self.breaks[j]
    }

    /// Returns the least place without a breakpoint.
    fn free(&self) -> Option<usize>
        ensures some { IfSome result (λ j.
            (j < MAX_BREAKS) × IsLeast (λ i. slice_get self.now.breaks i ≡ Some None) j) }
        ensures none { IfNone result ((j : ℕ) → slice_get self.now.breaks j ≢ Some None) }
    {
        // For its contract: there are `MAX_BREAKS` places.
        let _ = self.position();
        for place in 0..MAX_BREAKS {
            if self.place(place).is_none() {
                return Some(place);
            }
        }
        None
    }

    /// Puts a breakpoint, or none, at the place.
    fn put(&mut self, j: usize, b: Option<Break>)
        requires { j < MAX_BREAKS }
        ensures { self.new ≡ placed_in self.old j b }
    {
        self.breaks[j] = b;
    }

    /// Puts a breakpoint at the least free place, and returns its number.
    fn set(&mut self, b: Break) -> Result<u16, DebugFault>
        ensures { IsSet self.old self.new b result }
    {
        match self.free() {
            Some(j) => {
                self.put(j, Some(b));
                Ok(j as u16 + 1)
            }
            None => Err(DebugFault::Refused(Refusal::TooManyBreaks)),
        }
    }

    /// Returns the number of replicas of the network.
    fn replicas(&self) -> usize
        ensures { result ≡ length self.now.net.names }
    {
        self.net.names().len()
    }
}

/// Keeps a trace behind the others, without room that it doesn't need. After a refusal they are as they were.
fn keep(traces: &mut Vec<Trace>, trace: &Trace) -> Result<(), AllocError>
    ensures ok { OnOk result (traces.new.items ≡ traces.old.items ++ trace.now ∷ []) }
    ensures err { OnErr result (traces.new.items ≡ traces.old.items) }
{
    let kept = trace.copy()?;
    traces.push(kept)?;
    Ok(())
}

/// Returns whether a row of the trace has the rule.
fn has_rule(runs: &[Run], rule: Rule) -> bool
    ensures { IsTrue result ↔ HasRule (rows_of_all runs.now) rule }
{
    for run in runs {
        if run.rule == rule && run.count > 0 {
            return true;
        }
    }
    false
}
