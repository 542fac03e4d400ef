//! A network's type `Net`: its start, its steps and its way back. Runs, debuggers and dumps hold one.

ghost use Rattle.std.specs.Prelude.{◌≡◌, ◌≤◌, ◌↔◌, [], length, slice_get, ℕ, IfOk, IfErr, IfSome, OnOk, OnErr, IsErrOf, IsTrue, IsFalse, IfNone};
ghost use Rattle.jc_rules.specs.declared.limits.TheConstants.{MAX_EVENTS, MAX_REPLICAS};
ghost use Rattle.jc_scenario.specs.WellFormed.{IsWellFormedScenario};
ghost use Rattle.jc_scenario.specs.Views.{scenario_view, scripts_view};
ghost use Rattle.jc_network.specs.declared.fault.CompareFault.TheVariants as C;
ghost use Rattle.jc_network.specs.declared.fault.StartFault.TheVariants as S;
ghost use Rattle.jc_network.specs.declared.fault.StepFault.TheVariants as E;
ghost use Rattle.jc_network.specs.declared.fault.Stuck.{Stuck as AnyStuck};
ghost use Rattle.jc_network.specs.Applied.{IsApplied, AreAppliedIds};
ghost use Rattle.jc_rules.specs.History.{timeline, begun, first_of};
ghost use Rattle.jc_network.specs.NetworkHistory.{StepsTo};
ghost use Rattle.jc_network.specs.Enabled.{AreEnabled, candidates};
ghost use Rattle.jc_network.specs.Given.{before_given, AreParts, IsBeforeGiven, IsStarted, IsGivenFault, IsUnstartedFault};
ghost use Rattle.jc_network.specs.Steps.{IsStuckFor, HasReplica};
ghost use Rattle.jc_network.specs.Invariant.{IsFromStart, HasBegun};
ghost use Rattle.jc_network.specs.LastStep.{NetHasLastStep};
ghost use Rattle.jc_rules.specs.Step.{AfterIn};

use crate::applied::{applied_ids_of, applied_of};
use crate::enabled::enabled_in;
use crate::fault::{CompareFault, StartFault, StepFault, Unstarted};
use crate::replicas::{begin_all, replicas_of};
use crate::stepping::make;
use jc_replica::{LastStep, Replica};
use jc_rules::limits::MAX_EVENTS;
use jc_rules::{Event, Id, Op, Text, Trace, Version};
use jc_scenario::{Scenario, copy_names, copy_scripts};
use jc_syntax::Cmd;
use jc_tree::ArenaTree;
use std::alloc::{AllocError, Global};
use std::marker::Model;

/// Replicas in the order of their names. They are seen as their names, the network of their states, and the
/// networks before its steps.
#[derive(Drop)]
pub struct Net {
    version: Version,
    names: Vec<Text>,
    replicas: Vec<Replica<ArenaTree>>,
    /// The number of the replica that made each step.
    whose: Vec<u16>,
    alloc: Global,
}

impl Model for Net {
    ghost use Rattle.std.specs.Prelude.{length, reverse};
    ghost use Rattle.jc_network.specs.NetworkHistory.{NetworkHistory, network_history_code, network_history_of};
    ghost use Rattle.jc_network.specs.Invariant.{IsNet};

    ghost Value = { NetworkHistory };

    ghost coded = { network_history_code };

    ghost view = { λ a. network_history_of a.version a.names.items (reverse a.whose.items) a.replicas.items };

    ghost invariant = { λ a. IsNet a.version (length a.names.items) (reverse a.whose.items) a.replicas.items };
}

impl Net {
    /// The network at the start of the scenario, to which its given events lead. Steps are counted from there, and
    /// `undo` doesn't pass it. The scenario's names and scripts are copied; who owns them has `before_given`.
    ///
    /// It is refused with `Given` exactly where no network is the start, with the first given event that is stuck.
    pub fn start(alloc: Global, scenario: &Scenario) -> Result<Self, StartFault>
        requires { IsWellFormedScenario (scenario_view scenario.now) }
        ensures started { IfOk result (λ net. IsStarted (scenario_view scenario.now) net) }
        ensures given { (at : ℕ) (s : AnyStuck) → IsErrOf result (S.Given at s)
            → IsGivenFault (before_given (scenario_view scenario.now)) (scenario_view scenario.now).given at s }
    {
        let mut net = Net::first(alloc, scenario)?;
        net.lead(&scenario.given)?;
        net.begin();
        Ok(net)
    }

    /// The network at the start of the scenario, as `start` makes it, and the scenario's schedule. Nothing is copied.
    ///
    /// It is refused with `Given` exactly where no network is the start, and gives the names back.
    pub fn of(alloc: Global, scenario: Scenario) -> Result<(Self, Vec<Event>), Unstarted>
        requires { IsWellFormedScenario (scenario_view scenario) }
        ensures started { IfOk result (λ r. IsStarted (scenario_view scenario) r.0) }
        ensures schedule { IfOk result (λ r. r.1.items ≡ scenario.schedule.items) }
        ensures unstarted { IfErr result (IsUnstartedFault (scenario_view scenario)) }
    {
        let Scenario {
            version,
            names,
            scripts,
            given,
            schedule,
        } = scenario;
        let mut net = Net::before_given(alloc, version, names, scripts)?;
        match net.lead(&given) {
            Ok(()) => {
                net.begin();
                Ok((net, schedule))
            }
            Err(StartFault::Given { at, stuck }) => Err(Unstarted::Given {
                names: net.into_names(),
                at,
                stuck,
            }),
            Err(StartFault::Memory) => Err(Unstarted::Memory),
        }
    }

    /// The network before the given events of the scenario, with copies of its names and scripts.
    pub fn first(alloc: Global, scenario: &Scenario) -> Result<Self, AllocError>
        requires { IsWellFormedScenario (scenario_view scenario.now) }
        ensures { IfOk result (λ net. IsBeforeGiven (scenario_view scenario.now).version
            (scenario_view scenario.now).names (scenario_view scenario.now).scripts net) }
    {
        let names = copy_names(alloc, &scenario.names)?;
        let scripts = copy_scripts(alloc, &scenario.scripts)?;
        Net::before_given(alloc, scenario.version, names, scripts)
    }

    /// The network before the given events of a scenario in this version, with these names and scripts: each replica
    /// is at the start of its script, which it takes over. From there `lead`, or `step` for each of them, makes the
    /// given events, and `begin` makes the network to which they lead the start.
    pub fn before_given(
        alloc: Global,
        version: Version,
        names: Vec<Text>,
        scripts: Vec<Vec<Cmd>>,
    ) -> Result<Self, AllocError>
        requires { AreParts names.items (scripts_view scripts.items) }
        ensures { IfOk result (λ net. IsBeforeGiven version names.items (scripts_view scripts.items) net) }
    {
        let replicas = replicas_of(alloc, scripts)?;
        Ok(Net {
            version,
            names,
            replicas,
            whose: Vec::new(alloc),
            alloc,
        })
    }

    /// Makes the given events, before which no step was made. They are steps until `begin`.
    ///
    /// It is refused with `Given` for the first given event that is stuck, with its number, from 1. After a refusal all
    /// is as it was.
    pub fn lead(&mut self, given: &[Event]) -> Result<(), StartFault>
        requires new { self.old.history.earlier ≡ [] }
        requires short { length given.now ≤ MAX_EVENTS }
        ensures led { OnOk result (AfterIn self.old.history.now given.now self.new.history.now) }
        ensures names { self.new.names ≡ self.old.names }
        ensures stuck { (at : ℕ) (s : AnyStuck) → IsErrOf result (S.Given at s)
            → IsGivenFault self.old.history.now given.now at s }
        ensures kept { OnErr result (self.new ≡ self.old) }
    {
        let mut at = 0u64;
        for event in given {
            at += 1;
            match self.step(event) {
                Ok(_trace) => {}
                Err(StepFault::Full) => unreachable!(),
                Err(StepFault::Stuck(stuck)) => {
                    self.undo_all();
                    return Err(StartFault::Given { at, stuck });
                }
                Err(StepFault::Memory) => {
                    self.undo_all();
                    return Err(StartFault::Memory);
                }
            }
        }
        Ok(())
    }

    /// Begins at the network now: no step that was made is counted any more, and none can be taken back. It takes no
    /// memory, and gives that of the undo records up.
    pub fn begin(&mut self)
        ensures { self.new ≡ record self.old { history = begun self.old.history.now } }
    {
        self.whose.clear();
        begin_all(self.replicas.as_mut_slice());
    }

    /// The replicas' names, in order.
    pub fn names(&self) -> &[Text]
        ensures names { result.now ≡ self.now.names }
        ensures each { length self.now.history.now.states ≡ length self.now.names }
        ensures few { length self.now.names ≤ MAX_REPLICAS }
    {
        self.names.as_slice()
    }

    /// The names, and the network isn't needed any more.
    fn into_names(self) -> Vec<Text>
        ensures { result.items ≡ self.names }
    {
        self.names
    }

    /// The version of the scenario, which no step changes.
    pub fn version(&self) -> Version
        ensures { result ≡ self.now.history.now.version }
    {
        self.version
    }

    /// The number of steps. Events of the version have led from the start of some scripts to the first network, and
    /// others from there to the one now, so the laws of networks hold of it.
    pub fn steps(&self) -> u64
        ensures steps { result ≡ length self.now.history.earlier }
        ensures reached { IsFromStart self.now.history.now.states }
        ensures begun { HasBegun self.now }
    {
        self.whose.len() as u64
    }

    /// What the last step did; nothing where there is none that can be taken back. It takes no memory.
    pub fn last_step(&self) -> Option<LastStep<'_>>
        ensures some { IfSome result (λ step. NetHasLastStep self.now.history step) }
        ensures none { IfNone result (self.now.history.earlier ≡ []) }
    {
        let p = self.whose.last()?;
        self.replicas[usize::from(*p)].last_step()
    }

    /// The replica with the number, if there is one.
    pub fn replica(&self, p: u16) -> Option<&Replica<ArenaTree>>
        ensures some { IfSome result (λ replica. HasReplica self.now.history.now.states p replica.now) }
        ensures none { IfNone result (length self.now.history.now.states ≤ p) }
    {
        self.replicas.get(usize::from(p))
    }

    /// The events that aren't stuck, each once: of each replica in order exec, send, recv from each replica, in
    /// version 2 take of each operation that each replica offers, apply by identifier, and done. The limit of
    /// 100,000 steps doesn't count here.
    pub fn enabled(&self) -> Result<Vec<Event>, AllocError>
        ensures { IfOk result (λ events.
            AreEnabled self.now.history.now (candidates self.now.history.now) events.items) }
    {
        enabled_in(self.alloc, self.version, &self.replicas)
    }

    /// The operations that the replica has applied, by identifier.
    pub fn applied(&self, p: u16) -> Result<Vec<Op>, CompareFault>
        ensures applied { IfOk result (λ ops. IsApplied self.now.history.now.states p ops.items) }
        ensures missing { IsErrOf result C.NoSuchReplica ↔ length self.now.history.now.states ≤ p }
    {
        match self.replicas.get(usize::from(p)) {
            Some(replica) => Ok(applied_of(self.alloc, replica)?),
            None => Err(CompareFault::NoSuchReplica),
        }
    }

    /// The identifiers of the operations that the replica has applied, rising.
    pub fn applied_ids(&self, p: u16) -> Result<Vec<Id>, CompareFault>
        ensures applied { IfOk result (λ ids. AreAppliedIds self.now.history.now.states p ids.items) }
        ensures missing { IsErrOf result C.NoSuchReplica ↔ length self.now.history.now.states ≤ p }
    {
        match self.replicas.get(usize::from(p)) {
            Some(replica) => Ok(applied_ids_of(self.alloc, replica)?),
            None => Err(CompareFault::NoSuchReplica),
        }
    }

    /// Makes the event, and returns its trace.
    ///
    /// It is refused with `Full` after 100,000 steps. Else it is refused with `Stuck`, in this order: where the replica
    /// that the event names first isn't there, or the other one, where the network's version has no such event, or for
    /// the cause for which the replica refuses it. After a refusal all is as it was.
    pub fn step(&mut self, event: &Event) -> Result<Trace, StepFault>
        ensures made { IfOk result (λ trace. StepsTo self.old event.now self.new trace) }
        ensures stuck { (s : AnyStuck) → IsErrOf result (E.Stuck s) → IsStuckFor self.old.history.now event.now s }
        ensures full { IsErrOf result E.Full ↔ MAX_EVENTS ≤ length self.old.history.earlier }
        ensures kept { OnErr result (self.new ≡ self.old) }
    {
        let steps = self.whose.len();
        if steps >= MAX_EVENTS {
            return Err(StepFault::Full);
        }
        if self.whose.reserve(1).is_err() {
            return Err(StepFault::Memory);
        }
        let trace = make(self.version, self.replicas.as_mut_slice(), event)?;
        self.whose.push(event.replica()).unwrap();
        Ok(trace)
    }

    /// Takes all steps back.
    fn undo_all(&mut self)
        ensures { self.new ≡ record self.old { history = begun (first_of self.old.history) } }
    {
        for _taken in 0..self.steps() {
            let _ = self.undo();
        }
    }

    /// Takes the last step back, and returns whether there was one. It takes no memory.
    pub fn undo(&mut self) -> bool
        ensures undone { IsTrue result → self.old.history.earlier ≡ timeline self.new.history }
        ensures version { self.new.history.now.version ≡ self.old.history.now.version }
        ensures names { self.new.names ≡ self.old.names }
        ensures none { IsFalse result → (self.new ≡ self.old) × (self.old.history.earlier ≡ []) }
    {
        match self.whose.pop() {
            Some(p) => self.replicas[usize::from(p)].undo(),
            None => false,
        }
    }
}
