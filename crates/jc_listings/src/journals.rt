//! The lines of a journal between two positions, and the line of one event.

ghost use Rattle.std.specs.Prelude.{◌≡◌, ◌≤◌, [], ℕ, suc, List, length, true, false, All, IfOk, OnOk};
ghost use Rattle.jc_rules.specs.declared.operation.Event.{Event as AnyEvent};
ghost use Rattle.jc_rules.specs.declared.rule.Rule.{Rule as AnyRule};
ghost use Rattle.jc_rules.specs.Refused.{Cause, IsStuckIn};
ghost use Rattle.jc_rules.specs.Step.{Network as AnyNetwork, StepIn};
ghost use Rattle.jc_printer.specs.Canon.{AreNamed};
ghost use Rattle.jc_scenario.specs.Views.{scenario_view};
ghost use Rattle.jc_scenario.specs.WellFormed.{IsWellFormedScenario};
ghost use Rattle.jc_network.specs.Steps.{IsStuckFor};
ghost use Rattle.jc_journal.specs.EventLine.{IsBeforeLast, AreEffects};
ghost use Rattle.jc_journal.specs.Parts.{rows_of, differences_in};
ghost use Rattle.jc_answers.specs.JsonTexts.{array_text};
ghost use Rattle.jc_listings.specs.Journals.{rules_asked, AreLines, events_between, ListsLines, IsLineBehind};
ghost use Rattle.jc_listings.specs.JournalParts.{AreTwins, AreBehind, AreFound, IsLineMade, IsLineStuck, IsNextLine};
ghost use Rattle.jc_listings.specs.Positions.{all_events, IsAt};

use crate::events::AllEvents;
use jc_answers::{ArrayText, unended};
use jc_effects::Effects;
use jc_journal::{NumberedEvent, event_effects, event_line, stuck_line};
use jc_network::{Net, StepFault, Stuck};
use jc_rules::{Event, Run, Trace};
use jc_scenario::Scenario;
use std::alloc::{AllocError, Global};

/// What is asked for in a line, besides.
#[derive(Clone, Copy)]
pub struct Details {
    /// The rules.
    pub trace: bool,
    /// What the event changed.
    pub effects: bool,
}

/// The line of an event, without its LF, and whether the event is stuck.
#[derive(Drop)]
struct Line {
    text: Vec<u8>,
    is_stuck: bool,
}

/// Two networks behind the same events: an event is made in the first and then in the second, so that its line can tell
/// what it changed.
#[derive(Drop)]
struct Networks {
    first: Net,
    second: Net,
}

// ---- lines

/// The rules of an event, where they are asked for.
fn rules_asked(rules: &Trace, details: Details) -> Option<&[Run]>
    ensures { rows_of result ≡ rules_asked details.trace rules.now.rows }
{
    if details.trace {
        Some(rules.runs())
    } else {
        None
    }
}

/// What the event changed that led from the second network to the first, where it is asked for.
fn effects_asked(
    alloc: Global,
    networks: &Networks,
    event: &Event,
    details: Details,
) -> Result<Option<Effects>, AllocError>
    requires made { (rows : List (AnyRule × ℕ))
        × StepIn networks.now.second.history.now event.now networks.now.first.history.now rows }
    requires last { IsBeforeLast networks.now.second.history.now networks.now.first.history }
    ensures { IfOk result (λ effects. (rows : List (AnyRule × ℕ))
        → (made : StepIn networks.now.second.history.now event.now networks.now.first.history.now rows)
        → AreEffects details.effects event.now made.step.before made.step.after (differences_in effects)) }
{
    if !details.effects {
        return Ok(None);
    }
    event_effects(alloc, &networks.second, &networks.first, event)
}

/// The line of an event that led from the second network to the first.
fn made_line(
    alloc: Global,
    networks: &Networks,
    next: &NumberedEvent,
    rules: &Trace,
    details: Details,
) -> Result<Vec<u8>, AllocError>
    requires named { AreNamed next.now.event (length networks.now.first.names) }
    requires made { StepIn networks.now.second.history.now next.now.event networks.now.first.history.now rules.now.rows }
    requires last { IsBeforeLast networks.now.second.history.now networks.now.first.history }
    ensures { IfOk result (λ line. IsLineMade details networks.now.first.names next.now
        networks.now.second.history.now networks.now.first.history.now line.items) }
{
    let effects = effects_asked(alloc, networks, &next.event, details)?;
    let rules = rules_asked(rules, details);
    let line = event_line(alloc, &networks.first, next, rules, effects.as_ref())?;
    Ok(unended(line))
}

/// The line of an event that is stuck in the network.
fn stuck_line_of(
    alloc: Global,
    net: &Net,
    next: &NumberedEvent,
    stuck: &Stuck,
) -> Result<Vec<u8>, AllocError>
    requires named { AreNamed next.now.event (length net.now.names) }
    requires stuck { IsStuckFor net.now.history.now next.now.event stuck.now }
    ensures { IfOk result (λ line. IsLineStuck net.now.names next.now net.now.history.now line.items) }
{
    let line = stuck_line(alloc, net, next.number, next.given, stuck)?;
    Ok(unended(line))
}

// ---- networks

/// Makes an event in a network in which it can be made. Nothing is kept to go back with.
fn follow(net: &mut Net, event: &Event) -> Result<(), AllocError>
    requires new { net.old.history.earlier ≡ [] }
    requires can { (next : AnyNetwork) × (rows : List (AnyRule × ℕ))
        × StepIn net.old.history.now event.now next rows }
    ensures made { OnOk result ((rows : List (AnyRule × ℕ))
        × StepIn net.old.history.now event.now net.new.history.now rows) }
    ensures new { OnOk result (net.new.history.earlier ≡ []) }
{
    match net.step(event) {
        Ok(_) => {
            net.begin();
            Ok(())
        }
        Err(StepFault::Memory) => Err(AllocError),
        Err(StepFault::Full) => unreachable!(),
        Err(StepFault::Stuck(_)) => unreachable!(),
    }
}

impl Networks {
    /// Before all events of a scenario.
    fn new(alloc: Global, scenario: &Scenario) -> Result<Self, AllocError>
        requires { IsWellFormedScenario (scenario_view scenario.now) }
        ensures { IfOk result (λ networks. (schedule : List AnyEvent)
            → AreBehind (scenario_view scenario.now) schedule 0 networks) }
    {
        let first = Net::first(alloc, scenario)?;
        let second = Net::first(alloc, scenario)?;
        Ok(Networks { first, second })
    }

    /// Makes an event in both networks, and returns whether that could be made. Else nothing is changed.
    fn pass(&mut self, event: &Event) -> Result<bool, AllocError>
        requires { AreTwins self.old.first self.old.second }
        ensures made { IfOk result (λ made. made ≡ true
            → (rows : List (AnyRule × ℕ)) × StepIn self.old.first.history.now event.now self.new.first.history.now rows) }
        ensures stuck { IfOk result (λ made. made ≡ false
            → (why : Cause) × IsStuckIn self.old.first.history.now event.now why) }
        ensures twins { OnOk result (AreTwins self.new.first self.new.second) }
        ensures names { OnOk result (self.new.first.names ≡ self.old.first.names) }
    {
        match self.first.step(event) {
            Ok(_) => {}
            Err(StepFault::Stuck(_)) => return Ok(false),
            Err(StepFault::Memory) => return Err(AllocError),
            Err(StepFault::Full) => unreachable!(),
        }
        self.first.begin();
        follow(&mut self.second, event)?;
        Ok(true)
    }

    /// The line of an event, which is made in both networks where it can be.
    fn line(
        &mut self,
        alloc: Global,
        next: &NumberedEvent,
        details: Details,
    ) -> Result<Line, AllocError>
        requires twins { AreTwins self.old.first self.old.second }
        requires named { AreNamed next.now.event (length self.old.first.names) }
        ensures line { IfOk result (λ line. IsNextLine details self.old.first.names next.now
            self.old.first.history.now self.new.first.history.now line.is_stuck line.text.items) }
        ensures twins { OnOk result (AreTwins self.new.first self.new.second) }
        ensures names { OnOk result (self.new.first.names ≡ self.old.first.names) }
    {
        match self.first.step(&next.event) {
            Ok(rules) => {
                let text = made_line(alloc, self, next, &rules, details)?;
                self.first.begin();
                follow(&mut self.second, &next.event)?;
                Ok(Line {
                    text,
                    is_stuck: false,
                })
            }
            Err(StepFault::Stuck(stuck)) => {
                let text = stuck_line_of(alloc, &self.first, next, &stuck)?;
                Ok(Line {
                    text,
                    is_stuck: true,
                })
            }
            Err(StepFault::Memory) => Err(AllocError),
            Err(StepFault::Full) => unreachable!(),
        }
    }

    /// A list of the lines of the events behind the first count, up to the last one, or up to one that is stuck, with
    /// its line. The first ones lead to the networks.
    fn lines(
        &mut self,
        alloc: Global,
        events: &AllEvents<'_>,
        details: Details,
        first: usize,
        last: usize,
    ) -> Result<Vec<u8>, AllocError>
        requires twins { AreTwins self.old.first self.old.second }
        requires names { self.old.first.names ≡ (scenario_view events.now.scenario.now).names }
        requires named { All (λ e. AreNamed e (length (scenario_view events.now.scenario.now).names))
            (all_events (scenario_view events.now.scenario.now) events.now.schedule.now) }
        requires last { last ≤ length (all_events (scenario_view events.now.scenario.now) events.now.schedule.now) }
        ensures { IfOk result (λ answer. (texts : List (List ℕ))
            × AreLines details (scenario_view events.now.scenario.now) first self.old.first.history.now
            (events_between (scenario_view events.now.scenario.now) events.now.schedule.now first last) texts
            × (answer.items ≡ array_text texts)) }
    {
        let mut lines = ArrayText::new(alloc)?;
        for count in first..last {
            let next = events.behind(count);
            let line = self.line(alloc, &next, details)?;
            lines.push(line.text.as_slice())?;
            if line.is_stuck {
                return lines.end();
            }
        }
        lines.end()
    }
}

/// The networks behind so many of all events, or none where one of these is stuck.
fn networks_behind(
    alloc: Global,
    events: &AllEvents<'_>,
    count: usize,
) -> Result<Option<Networks>, AllocError>
    requires formed { IsWellFormedScenario (scenario_view events.now.scenario.now) }
    requires within { count ≤ length (all_events (scenario_view events.now.scenario.now) events.now.schedule.now) }
    ensures { IfOk result (λ found. AreFound (scenario_view events.now.scenario.now) events.now.schedule.now count found) }
{
    let mut networks = Networks::new(alloc, events.scenario)?;
    for made in 0..count {
        let next = events.behind(made);
        let is_made = networks.pass(&next.event)?;
        if !is_made {
            return Ok(None);
        }
    }
    Ok(Some(networks))
}

// ---- answers

/// A list without lines.
fn no_lines(alloc: Global) -> Result<Vec<u8>, AllocError>
    ensures { IfOk result (λ answer. answer.items ≡ array_text []) }
{
    ArrayText::new(alloc)?.end()
}

/// A list of the lines of the events behind the first count, up to the last one, or up to one that is stuck, with its
/// line. Where an event up to the first count is stuck, the list is empty. Refused for want of memory alone.
pub fn lines_between(
    alloc: Global,
    scenario: &Scenario,
    schedule: &[Event],
    details: Details,
    first: usize,
    last: usize,
) -> Result<Vec<u8>, AllocError>
    requires formed { IsWellFormedScenario (scenario_view scenario.now) }
    requires named { All (λ e. AreNamed e (length (scenario_view scenario.now).names)) schedule.now }
    requires first { first ≤ length (all_events (scenario_view scenario.now) schedule.now) }
    requires last { last ≤ length (all_events (scenario_view scenario.now) schedule.now) }
    ensures { IfOk result (λ answer.
        ListsLines details (scenario_view scenario.now) schedule.now first last answer.items) }
{
    let events = AllEvents { scenario, schedule };
    let found = networks_behind(alloc, &events, first)?;
    match found {
        Some(mut networks) => networks.lines(alloc, &events, details, first, last),
        None => no_lines(alloc),
    }
}

/// The line of the event behind so many, which is made there, as are all before it. Refused for want of memory alone.
pub fn line_behind(
    alloc: Global,
    scenario: &Scenario,
    schedule: &[Event],
    details: Details,
    count: usize,
) -> Result<Vec<u8>, AllocError>
    requires formed { IsWellFormedScenario (scenario_view scenario.now) }
    requires named { All (λ e. AreNamed e (length (scenario_view scenario.now).names)) schedule.now }
    requires made { (network : AnyNetwork) × IsAt (scenario_view scenario.now) schedule.now (suc count) network }
    ensures { IfOk result (λ line. IsLineBehind details (scenario_view scenario.now) schedule.now count line.items) }
{
    let events = AllEvents { scenario, schedule };
    let found = networks_behind(alloc, &events, count)?;
    let Some(mut networks) = found else {
        unreachable!();
    };
    let next = events.behind(count);
    let line = networks.line(alloc, &next, details)?;
    Ok(line.text)
}
