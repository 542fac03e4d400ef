//! Executes the events of a scenario, the given ones first, and writes the line of each before the next. `journal` is
//! made of these.

ghost use Rattle.std.specs.Prelude.{◌≡◌, ◌<◌, ◌≤◌, [], ℕ, List, length, is_some, IfSome, IfOk, OnOk, OnErr, All};
ghost use Rattle.jc_rules.specs.declared.limits.TheConstants.{MAX_EVENTS};
ghost use Rattle.jc_rules.specs.declared.rule.Rule.{Rule as AnyRule};
ghost use Rattle.jc_rules.specs.Step.{StepIn};
ghost use Rattle.jc_printer.specs.Canon.{AreNamed};
ghost use Rattle.jc_scenario.specs.WellFormed.{IsWellFormedScenario};
ghost use Rattle.jc_scenario.specs.Views.{scenario_view};
ghost use Rattle.jc_network.specs.Given.{before_given};
ghost use Rattle.jc_journal.specs.EventLine.{IsBeforeLast};
ghost use Rattle.jc_journal.specs.Parts.{rows_of};
ghost use Rattle.jc_cli.specs.declared.order.View.TheVariants as V;
ghost use Rattle.jc_out.specs.Out.{output};
ghost use Rattle.jc_program.specs.JournalResult.{asked_by, IsBehind, CatchesUp, IsLineOf, JournalsNext, JournalsAll};
ghost use Rattle.jc_program.specs.Journals.{rows_asked, JournalStops, IsJournalUnfinished};
ghost use Rattle.jc_program.specs.PlayResult.{Added};
ghost use Rattle.jc_program.specs.ViewText.{Shows};

use crate::run::Halted;
use jc_io::Sink;
use jc_journal::{NumberedEvent, event_effects, event_line, stuck_line};
use jc_network::{Net, StepFault};
use jc_out::Out;
use jc_rules::{Event, Run, Trace};
use jc_scenario::Scenario;
use std::alloc::{AllocError, Global};

/// A network, and another one behind it where effects are asked for, which makes each event once the event's line is
/// there.
#[derive(Drop)]
struct Networks {
    net: Net,
    behind: Option<Net>,
}

/// The rules of an event, where they are asked for.
fn rows_asked(rules: &Trace, trace: bool) -> Option<&[Run]>
    ensures { rows_of result ≡ rows_asked trace rules.now.rows }
{
    if trace { Some(rules.runs()) } else { None }
}

/// The line of an event that led to the network, with what it changed where there is a network behind.
fn made_line(
    alloc: Global,
    networks: &Networks,
    numbered: &NumberedEvent,
    rules: Option<&[Run]>,
) -> Result<Vec<u8>, AllocError>
    requires named { AreNamed numbered.now.event (length networks.now.net.names) }
    requires made { IfSome networks.now.behind (λ c. (rows : List (AnyRule × ℕ))
        × StepIn c.history.now numbered.now.event networks.now.net.history.now rows) }
    requires last { IfSome networks.now.behind (λ c. IsBeforeLast c.history.now networks.now.net.history) }
    ensures { IfOk result (λ line. IsLineOf networks.now.net networks.now.behind numbered.now
        (rows_of rules.entry) line.items) }
{
    let net = &networks.net;
    let effects = match &networks.behind {
        Some(old) => event_effects(alloc, old, net, &numbered.event)?,
        None => None,
    };
    event_line(alloc, net, numbered, rules, effects.as_ref())
}

/// Executes the event in the network behind, if there is one. Nothing is kept to go back with.
fn catch_up(behind: &mut Option<Net>, event: &Event) -> Result<(), Halted>
    requires { IfSome behind.old (λ c. c.history.earlier ≡ []) }
    ensures { OnOk result (CatchesUp event.now behind.old behind.new) }
{
    if let Some(net) = behind {
        if net.step(event).is_err() {
            return Err(Halted);
        }
        net.begin();
    }
    Ok(())
}

/// Executes the event. Returns its line, also where it is stuck, and whether it is; then nothing is changed.
fn journal_next(
    alloc: Global,
    networks: &mut Networks,
    numbered: &NumberedEvent,
    trace: bool,
) -> Result<(Vec<u8>, bool), Halted>
    requires room { length networks.old.net.history.earlier < MAX_EVENTS }
    requires named { AreNamed numbered.now.event (length networks.old.net.names) }
    requires behind { IsBehind networks.old.behind networks.old.net.history.now }
    ensures ok { IfOk result (λ made. JournalsNext (asked_by trace networks.old.behind) networks.old.net
        networks.new.net numbered.now made.0.items made.1) }
    ensures behind { OnOk result (IsBehind networks.new.behind networks.new.net.history.now) }
    ensures asked { OnOk result (is_some networks.new.behind ≡ is_some networks.old.behind) }
{
    match networks.net.step(&numbered.event) {
        Ok(rules) => {
            let asked = rows_asked(&rules, trace);
            let line = made_line(alloc, networks, numbered, asked)?;
            catch_up(&mut networks.behind, &numbered.event)?;
            Ok((line, false))
        }
        Err(StepFault::Stuck(stuck)) => {
            let (number, given) = (numbered.number, numbered.given);
            let line = stuck_line(alloc, &networks.net, number, given, &stuck)?;
            Ok((line, true))
        }
        Err(_) => Err(Halted),
    }
}

/// Executes the events up to the end or the first stuck one, and adds the line of each, of the stuck one too. Returns
/// whether there is one.
fn journal_events<K: Sink>(
    alloc: Global,
    networks: &mut Networks,
    events: &[Event],
    given: bool,
    trace: bool,
    out: &mut Out<'_, K>,
) -> Result<bool, Halted>
    requires new { networks.old.net.history.earlier ≡ [] }
    requires short { length events.now ≤ MAX_EVENTS }
    requires named { All (λ e. AreNamed e (length networks.old.net.names)) events.now }
    requires behind { IsBehind networks.old.behind networks.old.net.history.now }
    ensures ok { IfOk result (JournalsAll (asked_by trace networks.old.behind) given networks.old.net networks.new.net
        events.now (output K.Sink out.old) (output K.Sink out.new)) }
    ensures behind { OnOk result (IsBehind networks.new.behind networks.new.net.history.now) }
    ensures asked { OnOk result (is_some networks.new.behind ≡ is_some networks.old.behind) }
    ensures halted { OnErr result (Added (JournalStops (asked_by trace networks.old.behind) given
        networks.old.net.names networks.old.net.history.now events.now)
        (output K.Sink out.old) (output K.Sink out.new)) }
{
    let mut number = 0u64;
    for event in events {
        if out.is_broken() {
            return Err(Halted);
        }
        number += 1;
        let numbered = NumberedEvent {
            event: *event,
            number,
            given,
        };
        let (line, is_stuck) = journal_next(alloc, networks, &numbered, trace)?;
        out.pass(line.as_slice());
        if is_stuck {
            return Ok(true);
        }
        // Nothing is kept to go back with.
        networks.net.begin();
    }
    Ok(false)
}

/// The network that stays one event behind, where effects are asked for.
fn network_behind(
    alloc: Global,
    scenario: &Scenario,
    effects: bool,
) -> Result<Option<Net>, AllocError>
    requires { IsWellFormedScenario (scenario_view scenario.now) }
    ensures behind { IfOk result (λ old. IsBehind old (before_given (scenario_view scenario.now))) }
    ensures asked { IfOk result (λ old. is_some old ≡ effects) }
{
    if !effects {
        return Ok(None);
    }
    let net = Net::first(alloc, scenario)?;
    Ok(Some(net))
}

/// Executes a scenario: adds the text of `journal`, and returns its status.
pub fn add_journal<K: Sink>(
    alloc: Global,
    scenario: Scenario,
    trace: bool,
    effects: bool,
    out: &mut Out<'_, K>,
) -> Result<u8, Halted>
    requires { IsWellFormedScenario (scenario_view scenario) }
    ensures ok { IfOk result (λ status. Added
        (λ text. Shows (V.Journal trace effects) (scenario_view scenario) text status)
        (output K.Sink out.old) (output K.Sink out.new)) }
    ensures halted { OnErr result (Added
        (IsJournalUnfinished (record { rules = trace; effects = effects }) (scenario_view scenario))
        (output K.Sink out.old) (output K.Sink out.new)) }
{
    let behind = network_behind(alloc, &scenario, effects)?;
    let Scenario {
        version,
        names,
        scripts,
        given,
        schedule,
    } = scenario;
    let net = Net::before_given(alloc, version, names, scripts)?;
    let mut networks = Networks { net, behind };
    let given_is_stuck = journal_events(alloc, &mut networks, &given, true, trace, out)?;
    if given_is_stuck {
        return Ok(3);
    }
    networks.net.begin();
    let is_stuck = journal_events(alloc, &mut networks, &schedule, false, trace, out)?;
    if is_stuck {
        return Ok(3);
    }
    Ok(0)
}
