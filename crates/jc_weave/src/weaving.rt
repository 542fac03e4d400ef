//! Turns of a loom, from a scenario's start up to the end of a schedule.

ghost use Rattle.std.specs.Prelude.{◌≡◌, ◌≢◌, ◌<◌, ◌≤◌, ◌+◌, ◌++◌, ◌∷◌, [], ℕ, length, map, slice_set, true, false, IfOk, OnOk, IsErrOf};
ghost use Rattle.rand_pcg.specs.Pcg.{pcg32};
ghost use Rattle.jc_rules.specs.declared.limits.TheConstants.{MAX_EVENTS, MAX_REPLICAS};
ghost use Rattle.jc_rules.specs.Step.{StepIn};
ghost use Rattle.jc_rules.specs.Trace.{Rows};
ghost use Rattle.jc_network.specs.declared.fault.StartFault.TheVariants.{Given as GivenFault};
ghost use Rattle.jc_network.specs.declared.fault.Stuck.{Stuck as AnyStuck};
ghost use Rattle.jc_network.specs.Given.{before_given, IsStarted, IsGivenFault};
ghost use Rattle.jc_network.specs.Steps.{IsStuckFor};
ghost use Rattle.jc_scenario.specs.WellFormed.{Scenario as AnyScenario, IsWellFormedScenario};
ghost use Rattle.jc_scenario.specs.Views.{scenario_view};
ghost use Rattle.jc_weave.specs.Looms.{without_replica};
ghost use Rattle.jc_weave.specs.Weaving.{all_start, numbers_from, loom, counts_in, ends_in, IsOneTurnMore, IsWoven};

use crate::drawing::{draw, phase_at};
use crate::ending::{counts_of, ends_of};
use jc_choice::{End, Phase, choose};
use jc_network::{Net, StartFault, StepFault, Stuck};
use jc_rules::{Event, Text};
use jc_scenario::Scenario;
use rand_pcg::Pcg32;
use std::alloc::{AllocError, Global};

/// The stream of the generator, which is that of its reference.
const STREAM: u64 = 54;

/// Each replica is at the start of a yield.
fn phases_of(alloc: Global, names: &[Text]) -> Result<Vec<Phase>, AllocError>
    ensures { IfOk result (λ ps. ps.items ≡ all_start names.now) }
{
    let mut phases = Vec::new(alloc);
    let mut rest = names;
    while let Some((_name, others)) = rest.split_first() {
        phases.push(Phase::Start)?;
        rest = others;
    }
    Ok(phases)
}

/// The numbers of the replicas with these names.
fn numbers_of(alloc: Global, names: &[Text]) -> Result<Vec<u16>, AllocError>
    requires { length names.now ≤ MAX_REPLICAS }
    ensures { IfOk result (λ ps. ps.items ≡ numbers_from 0 names.now) }
{
    let mut numbers = Vec::new(alloc);
    let mut rest = names;
    let mut p = 0;
    while let Some((_name, others)) = rest.split_first() {
        numbers.push(p)?;
        p += 1;
        rest = others;
    }
    Ok(numbers)
}

/// The numbers but this one.
fn without_replica(alloc: Global, live: &[u16], p: u16) -> Result<Vec<u16>, AllocError>
    ensures { IfOk result (λ ps. ps.items ≡ without_replica p live.now) }
{
    let mut kept = Vec::new(alloc);
    let mut rest = live;
    while let Some((q, others)) = rest.split_first() {
        if *q != p {
            kept.push(*q)?;
        }
        rest = others;
    }
    Ok(kept)
}

/// Sets the phase of the replica.
#[tactic(auto, using(crate::proofs::LoomsLemmas::set_beyond))]
fn set_phase(phases: &mut Vec<Phase>, p: u16, next: Phase)
    ensures { phases.new.items ≡ slice_set phases.old.items p next }
{
    let at = usize::from(p);
    if at < phases.len() {
        phases[at] = next;
    }
}

/// Makes the event, and returns whether it was made; the network then begins after it. Where it is stuck, this is added
/// to the stuck events, and the network is unchanged.
fn step_or_stick(net: &mut Net, event: &Event, stucks: &mut Vec<Stuck>) -> Result<bool, AllocError>
    requires { net.old.history.earlier ≡ [] }
    ensures made { IfOk result (λ b. b ≡ true
        → ((rows : Rows) × StepIn net.old.history.now event.now net.new.history.now rows.rows)
        × (stucks.new ≡ stucks.old)) }
    ensures begun { OnOk result ((net.new.names ≡ net.old.names) × (net.new.history.earlier ≡ [])) }
    ensures stuck { IfOk result (λ b. b ≡ false
        → (net.new ≡ net.old)
        × (s : AnyStuck) × IsStuckFor net.old.history.now event.now s
        × (stucks.new.items ≡ stucks.old.items ++ s ∷ [])) }
{
    match net.step(event) {
        Ok(_trace) => {
            // Nothing goes back here, so nothing is kept for that.
            net.begin();
            Ok(true)
        }
        Err(StepFault::Stuck(stuck)) => {
            stucks.push(stuck)?;
            Ok(false)
        }
        Err(StepFault::Full) => unreachable!(),
        Err(StepFault::Memory) => Err(AllocError),
    }
}

/// A network in the making, with what is needed to draw and to choose: the phases, the replicas that haven't left, the
/// generator, and how many events may still be made.
#[derive(Drop)]
struct Loom {
    net: Net,
    schedule: Vec<Event>,
    stucks: Vec<Stuck>,
    phases: Vec<Phase>,
    live: Vec<u16>,
    rng: Pcg32,
    left: u64,
}

impl Loom {
    /// Draws a replica, and makes the event that it chooses. Where there is none, or it is stuck, the replica leaves.
    fn turn(&mut self, alloc: Global) -> Result<(), AllocError>
        requires room { 0 < self.old.left }
        requires some { self.old.live.items ≢ [] }
        requires begun { self.old.net.history.earlier ≡ [] }
        ensures turn { OnOk result (IsOneTurnMore
            (loom self.old.net.history.now self.old.phases.items self.old.live.items self.old.rng self.old.left)
            (loom self.new.net.history.now self.new.phases.items self.new.live.items self.new.rng self.new.left)
            self.old.schedule.items self.new.schedule.items self.old.stucks.items self.new.stucks.items) }
        ensures begun { OnOk result (self.new.net.history.earlier ≡ []) }
        ensures listed { OnOk result
            (length self.new.schedule.items + self.new.left ≡ length self.old.schedule.items + self.old.left) }
        ensures names { OnOk result (self.new.net.names ≡ self.old.net.names) }
        ensures fewer { OnOk result (self.new.left + length self.new.live.items
            < self.old.left + length self.old.live.items) }
    {
        let p = draw(alloc, &self.net, &self.phases, &self.live, &mut self.rng)?;
        match choose(&self.net, p, phase_at(&self.phases, p)) {
            None => {
                self.leave(alloc, p)?;
                Ok(())
            }
            Some((event, next)) => {
                if step_or_stick(&mut self.net, &event, &mut self.stucks)? {
                    self.schedule.push(event)?;
                    set_phase(&mut self.phases, p, next);
                    self.left -= 1;
                    Ok(())
                } else {
                    self.leave(alloc, p)?;
                    Ok(())
                }
            }
        }
    }

    /// The replica leaves.
    fn leave(&mut self, alloc: Global, p: u16) -> Result<(), AllocError>
        ensures gone { OnOk result (self.new.live.items ≡ without_replica p self.old.live.items) }
        ensures net { self.new.net ≡ self.old.net }
        ensures schedule { self.new.schedule ≡ self.old.schedule }
        ensures stucks { self.new.stucks ≡ self.old.stucks }
        ensures phases { self.new.phases ≡ self.old.phases }
        ensures generator { self.new.rng ≡ self.old.rng }
        ensures left { self.new.left ≡ self.old.left }
    {
        self.live = without_replica(alloc, &self.live, p)?;
        Ok(())
    }

    /// What was woven.
    fn woven(self, alloc: Global) -> Result<Woven, AllocError>
        requires { length self.schedule.items ≤ MAX_EVENTS }
        ensures net { IfOk result (λ w. w.net ≡ self.net) }
        ensures schedule { IfOk result (λ w. w.schedule ≡ self.schedule) }
        ensures made { IfOk result (λ w. w.made.items ≡ counts_in self.schedule.items self.net.names) }
        ensures ends { IfOk result (λ w. w.ends.items
            ≡ ends_in self.stucks.items self.net.history.now.states self.net.names) }
    {
        let numbers = numbers_of(alloc, self.net.names())?;
        let made = counts_of(alloc, &self.schedule, &numbers)?;
        let ends = ends_of(alloc, &self.net, &self.stucks, &numbers)?;
        Ok(Woven {
            net: self.net,
            schedule: self.schedule,
            made,
            ends,
        })
    }
}

/// A woven schedule.
#[derive(Drop)]
pub struct Woven {
    /// The network after all events. It has begun there: none can be taken back.
    pub net: Net,
    /// The events in the order in which they were made.
    pub schedule: Vec<Event>,
    /// The number of events that each replica made.
    pub made: Vec<u64>,
    /// How each replica ended.
    pub ends: Vec<End>,
}

/// Weaves from a network at a scenario's start.
fn weave_from(alloc: Global, net: Net, seed: u64, limit: u64) -> Result<Woven, AllocError>
    requires new { net.history.earlier ≡ [] }
    requires limit { limit ≤ MAX_EVENTS }
    ensures woven { IfOk result (λ w. (s : AnyScenario)
        → IsStarted s net
        → IsWoven s seed limit w.schedule.items w.net.history.now w.ends.items) }
    ensures names { IfOk result (λ w. w.net.names ≡ net.names) }
    ensures begun { IfOk result (λ w. w.net.history.earlier ≡ []) }
    ensures made { IfOk result (λ w. w.made.items ≡ counts_in w.schedule.items net.names) }
{
    let phases = phases_of(alloc, net.names())?;
    let live = numbers_of(alloc, net.names())?;
    let mut loom = Loom {
        net,
        schedule: Vec::new(alloc),
        stucks: Vec::new(alloc),
        phases,
        live,
        rng: Pcg32::new(seed, STREAM),
        left: limit,
    };
    while loom.left > 0 && !loom.live.is_empty() {
        loom.turn(alloc)?;
    }
    loom.woven(alloc)
}

/// The schedule that the seed gives, from the scenario's start and with `limit` events at most. The scenario's own
/// schedule is ignored.
///
/// In each turn one replica is drawn, among those that don't wait, or among all that haven't left where each waits. It
/// makes the event that it chooses; where it chooses none, or one that is stuck, it leaves. A replica waits where a
/// `yield` is its last command and it has sent there. The schedule ends where each replica has left, or at the limit.
///
/// Refused with `Given` where a given event is stuck, before any draw, or for want of memory.
pub fn weave(alloc: Global, scenario: &Scenario, seed: u64, limit: u64) -> Result<Woven, StartFault>
    requires scenario { IsWellFormedScenario (scenario_view scenario.now) }
    requires limit { limit ≤ MAX_EVENTS }
    ensures woven { IfOk result (λ w.
        IsWoven (scenario_view scenario.now) seed limit w.schedule.items w.net.history.now w.ends.items) }
    ensures names { IfOk result (λ w. w.net.names ≡ (scenario_view scenario.now).names) }
    ensures begun { IfOk result (λ w. w.net.history.earlier ≡ []) }
    ensures made { IfOk result (λ w. w.made.items ≡ counts_in w.schedule.items (scenario_view scenario.now).names) }
    ensures given { (at : ℕ) (s : AnyStuck) → IsErrOf result (GivenFault at s)
        → IsGivenFault (before_given (scenario_view scenario.now)) (scenario_view scenario.now).given at s }
{
    let net = Net::start(alloc, scenario)?;
    Ok(weave_from(alloc, net, seed, limit)?)
}
