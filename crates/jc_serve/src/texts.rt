//! Texts of answers that several of them have.

ghost use Rattle.std.specs.Prelude.{◌≡◌, ◌≤◌, Ok, Err, All, length, IfOk};
ghost use Rattle.jc_rules.specs.declared.limits.TheConstants.{MAX_EVENTS};
ghost use Rattle.jc_rules.specs.declared.operation.Event.{Event as AnyEvent};
ghost use Rattle.jc_rules.specs.declared.refusal.Refusal.{Refusal as AnyRefusal};
ghost use Rattle.jc_rules.specs.Refused.{Cause};
ghost use Rattle.jc_printer.specs.Canon.{AreNamed};
ghost use Rattle.jc_scenario.specs.Views.{scenario_view};
ghost use Rattle.jc_scenario.specs.WellFormed.{IsWellFormedScenario};
ghost use Rattle.jc_dump.specs.Lines.{IsNamedStuck};
ghost use Rattle.jc_network.specs.Steps.{stuck_for};
ghost use Rattle.jc_debug.specs.Invariant.{IsDebugger};
ghost use Rattle.jc_session.specs.AnswerOf.{AllNamed};
ghost use Rattle.jc_requests.specs.Views.{position_view, between_view};
ghost use Rattle.jc_looks.specs.LookFaults.{Finds, AnswersBy};
ghost use Rattle.jc_answers.specs.Refusals.{refusal_answer};
ghost use Rattle.jc_listings.specs.Journals.{AnswersJournal, asked_counts};
ghost use Rattle.jc_listings.specs.Positions as positions;
ghost use Rattle.jc_serve.specs.Answers.{quit_answer};
ghost use Rattle.jc_serve.specs.AnswerOf.{stopped_answer, answer_in, IsNowhereAnswer};

use jc_debug::Debugger;
use jc_listings::{Details, count_of, lines_between};
use jc_looks::{LookFault, flag};
use jc_network::Stuck;
use jc_replies::answer_of;
use jc_requests::Position;
use jc_rules::Event;
use jc_scenario::Scenario;
use jc_session::Reply;
use std::alloc::{AllocError, Global};

pub(crate) fn quit_answer(alloc: Global) -> Result<Vec<u8>, AllocError>
    ensures { IfOk result (λ answer. answer.items ≡ quit_answer) }
{
    flag(alloc, "quit")
}

/// A refusal is an answer too.
pub(crate) fn answered(answer: Result<Vec<u8>, LookFault>) -> Result<Vec<u8>, AllocError>
    ensures { result ≡ answer_in answer }
{
    match answer {
        Ok(answer) | Err(LookFault::Refused(answer)) => Ok(answer),
        Err(LookFault::Memory) => Err(AllocError),
    }
}

/// The answer of a move that ended at the debugger's position, where an event is stuck. `given` are the events that were
/// made before position 0.
pub(crate) fn stopped(
    alloc: Global,
    debugger: &Debugger,
    given: &[Event],
    stuck: Stuck,
) -> Result<Vec<u8>, AllocError>
    requires all { AllNamed debugger.now }
    requires given { All (λ e. AreNamed e (length debugger.now.net.names)) given.now }
    requires stuck { IsNamedStuck debugger.now.net.names stuck }
    ensures answer { IfOk result (λ answer. (why : Cause) (event : AnyEvent)
        → stuck ≡ stuck_for why event
        → answer.items ≡ stopped_answer given.now debugger.now why event) }
    ensures trail { IsDebugger debugger.now }
{
    let at = debugger.position();
    let reply = Reply::Stuck { at, stuck };
    answer_of(alloc, debugger, given, b"".as_slice(), &reply)
}

/// How many events lead to a position; one that isn't there is refused.
pub(crate) fn counted(
    alloc: Global,
    scenario: &Scenario,
    schedule: &[Event],
    at: Position,
) -> Result<u64, LookFault>
    requires formed { IsWellFormedScenario (scenario_view scenario.now) }
    requires short { length schedule.now ≤ MAX_EVENTS }
    ensures { Finds (λ count. positions.count_of (scenario_view scenario.now) schedule.now (position_view at) ≡ Ok count)
        (IsNowhereAnswer (scenario_view scenario.now) schedule.now (position_view at)) result }
{
    match count_of(scenario.given.len() as u64, schedule.len() as u64, at) {
        Ok(count) => Ok(count),
        Err(refusal) => Err(LookFault::of(alloc, refusal)),
    }
}

/// The counts of two positions, of which the first one that isn't there is refused; without these all.
fn counts_between(
    alloc: Global,
    scenario: &Scenario,
    schedule: &[Event],
    between: Option<(Position, Position)>,
) -> Result<(u64, u64), LookFault>
    requires formed { IsWellFormedScenario (scenario_view scenario.now) }
    requires short { length schedule.now ≤ MAX_EVENTS }
    ensures { Finds (λ counts. asked_counts (scenario_view scenario.now) schedule.now (between_view between) ≡ Ok counts)
        (λ answer. (refusal : AnyRefusal)
        × (asked_counts (scenario_view scenario.now) schedule.now (between_view between) ≡ Err refusal)
        × (answer ≡ refusal_answer refusal)) result }
{
    match between {
        Some((first, last)) => {
            let first = counted(alloc, scenario, schedule, first)?;
            let last = counted(alloc, scenario, schedule, last)?;
            Ok((first, last))
        }
        None => Ok((0, scenario.given.len() as u64 + schedule.len() as u64)),
    }
}

/// The lines between two positions, of which the first one that isn't there is refused; without these all.
pub(crate) fn journal(
    alloc: Global,
    scenario: &Scenario,
    schedule: &[Event],
    details: Details,
    between: Option<(Position, Position)>,
) -> Result<Vec<u8>, LookFault>
    requires formed { IsWellFormedScenario (scenario_view scenario.now) }
    requires short { length schedule.now ≤ MAX_EVENTS }
    requires known { All (λ e. AreNamed e (length scenario.now.names.items)) schedule.now }
    ensures { AnswersBy (AnswersJournal details (scenario_view scenario.now) schedule.now (between_view between)) result }
{
    let (first, last) = counts_between(alloc, scenario, schedule, between)?;
    Ok(lines_between(
        alloc,
        scenario,
        schedule,
        details,
        first as usize,
        last as usize,
    )?)
}
