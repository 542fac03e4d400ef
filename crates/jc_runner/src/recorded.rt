//! The value under a bench's lock: a network, the events that led to it, and the scenario from whose start they did.
ghost use Rattle.std.specs.Prelude.{◌≡◌, ◌<◌, ◌∷◌, [], ◌++◌, ◌↔◌, length, IfOk, OnOk, OnErr, IsErrOf};
ghost use Rattle.jc_rules.specs.declared.limits.TheConstants.{MAX_EVENTS};
ghost use Rattle.jc_rules.specs.Step.{StepIn, replica_of};
ghost use Rattle.jc_network.specs.declared.fault.StepFault.TheVariants as Fault;
ghost use Rattle.jc_network.specs.declared.fault.Stuck.{Stuck as AnyStuck};
ghost use Rattle.jc_network.specs.Steps.{IsStuckFor};

use jc_lock::Kept;
use jc_network::{Net, StepFault};
use jc_rules::limits::MAX_EVENTS;
use jc_rules::{Event, Trace};
use jc_scenario::Scenario;
use std::marker::Model;

/// A network, the events that were made from a scenario's start, and the scenario. The type keeps that the events lead
/// to the network, which has begun there, so none of them can be taken back; and that they are `MAX_EVENTS` at most.
#[derive(Drop)]
pub struct Recorded {
    pub net: Net,
    pub schedule: Vec<Event>,
    pub start: Scenario,
}

impl Model for Recorded {
    ghost use Rattle.jc_scenario.specs.Views.{scenario_view};
    ghost use Rattle.jc_runner.specs.Recording.{Recording, recording, recording_code, IsRecorded};

    ghost Value = { Recording };

    ghost coded = { recording_code };

    ghost view = { λ r. recording r.net r.schedule.items (scenario_view r.start) };

    ghost invariant = { λ r. IsRecorded r.net r.schedule.items (scenario_view r.start) };
}

/// The origin of a history in contracts: the scenario from whose start it leads. No value of it is made.
pub struct Beginning {
    scenario: Scenario,
}

impl Model for Beginning {
    ghost use Rattle.jc_scenario.specs.WellFormed.{Scenario};
    ghost use Rattle.jc_scenario.specs.Views.{scenario_view};
    ghost use Rattle.jc_runner.specs.Recording.{scenario_code};

    ghost Value = { Scenario };

    ghost coded = { scenario_code };

    ghost view = { λ b. scenario_view b.scenario };
}

/// Contracts see it as the scenario and the events, each of which names its replica.
impl Kept for Recorded {
    type Entry = Event;

    type Origin = Beginning;

    ghost origin = { λ r. r.start };

    ghost list = { λ r. r.schedule };

    ghost maker = { replica_of };

    fn entries(&self) -> u64 {
        self.schedule.len() as u64
    }
}

impl Recorded {
    /// Makes the event and records it. After a refusal nothing has changed.
    pub(crate) fn add(&mut self, event: &Event) -> Result<Trace, StepFault>
        ensures start { self.new.start ≡ self.old.start }
        ensures step { IfOk result (λ trace.
            StepIn self.old.net.history.now event.now self.new.net.history.now trace.rows) }
        ensures made { OnOk result (self.new.schedule ≡ self.old.schedule ++ event.now ∷ []) }
        ensures same { OnErr result (self.new ≡ self.old) }
        ensures full { IsErrOf result Fault.Full ↔ (length self.old.schedule ≡ MAX_EVENTS) }
        ensures memory { IsErrOf result Fault.Memory → length self.old.schedule < MAX_EVENTS }
        ensures stuck { (s : AnyStuck) → IsErrOf result (Fault.Stuck s)
            → IsStuckFor self.old.net.history.now event.now s }
        ensures room { (s : AnyStuck) → IsErrOf result (Fault.Stuck s) → length self.old.schedule < MAX_EVENTS }
    {
        let Recorded {
            net,
            schedule,
            start: _,
        } = self;
        // Where no more events may be made, no memory is asked for.
        if schedule.len() >= MAX_EVENTS {
            return Err(StepFault::Full);
        }
        // Room for the record comes before the event, so that nothing is refused once it is made.
        if schedule.reserve(1).is_err() {
            return Err(StepFault::Memory);
        }
        let trace = net.step(event)?;
        // Nobody goes back at a bench, so nothing is kept for that.
        net.begin();
        schedule.push_reserved(*event);
        Ok(trace)
    }
}
