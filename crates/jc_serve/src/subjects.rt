//! What a text is, and the answers about it as a whole.

ghost use Rattle.std.specs.Prelude.{◌≡◌, ◌≤◌, ℕ, List, [], All, length, sum_by, codes, IfOk};
ghost use Rattle.jc_rules.specs.declared.limits.TheConstants.{MAX_REPLICAS};
ghost use Rattle.jc_parser.specs.Scripts.{IsScriptWellFormed};
ghost use Rattle.jc_scenario.specs.Views.{scenario_view, scripts_view};
ghost use Rattle.jc_scenario.specs.WellFormed.{IsScenario, IsWellFormedScenario};
ghost use Rattle.jc_rules.specs.Step.{Network as AnyNetwork};
ghost use Rattle.jc_network.specs.Given.{before_given, IsStart, IsStarted, IsGivenFault};
ghost use Rattle.jc_debug.specs.DebuggerState.{new_session};
ghost use Rattle.jc_debug.specs.Invariant.{session_of};
ghost use Rattle.jc_answers.specs.JsonTexts.{text_member};
ghost use Rattle.jc_answers.specs.Parts.{member_of};
ghost use Rattle.jc_answers.specs.Refusals.{IsRefusedTextWith};
ghost use Rattle.jc_expected.specs.Expected.{IsExpected};
ghost use Rattle.jc_serve.specs.Subjects as subjects;
ghost use Rattle.jc_serve.specs.Subjects.{Subject as AnySubject, stuck_given, IsTextAnswer, IsFaultAnswer, IsCounts};
ghost use Rattle.jc_serve.specs.AnswerOf.{IsSomeStop, IsOfStop, IsSubjectOf, IsNewFor, IsHeldFor};

use crate::marks::no_marks;
use crate::served::Served;
use crate::stuck::GivenStop;
use jc_answers::{Member, object_text, refused_text, refused_text_with};
use jc_debug::Debugger;
use jc_expected::expected;
use jc_looks::given_network;
use jc_network::{Stuck, Unstarted};
use jc_rules::Refusal;
use jc_scenario::{Scenario, ScenarioFault, read};
use jc_syntax::Cmd;
use std::alloc::{AllocError, Global};

/// What a text is.
#[derive(Drop)]
pub(crate) enum Subject {
    /// No scenario. This answer, which was made once, says why.
    NoScenario(Vec<u8>),
    /// A scenario of which a given event is stuck.
    StuckGiven(GivenStop),
    /// A scenario with a session.
    Served(Served),
}

/// A scenario of which the given event with this number, from 1, is stuck.
fn given_stop(
    alloc: Global,
    scenario: Scenario,
    at: u64,
    stuck: Stuck,
) -> Result<Subject, AllocError>
    requires formed { IsWellFormedScenario (scenario_view scenario) }
    requires stuck { IsGivenFault (before_given (scenario_view scenario)) (scenario_view scenario).given at stuck }
    ensures { IfOk result (λ subject. (text : List ℕ)
        → IsScenario text (scenario_view scenario) → IsNewFor text subject) }
{
    let count = at - 1;
    let net = given_network(alloc, &scenario, count as usize)?;
    Ok(Subject::StuckGiven(GivenStop {
        scenario,
        count,
        net,
        stuck,
    }))
}

/// A second debugger, of a scenario that has a start.
fn second(alloc: Global, scenario: &Scenario) -> Result<Debugger, AllocError>
    requires formed { IsWellFormedScenario (scenario_view scenario.now) }
    requires starts { (start : AnyNetwork) × IsStart (scenario_view scenario.now) start }
    ensures started { IfOk result (λ debugger. IsStarted (scenario_view scenario.now) debugger.net) }
    ensures session { IfOk result (λ debugger. session_of debugger ≡ new_session scenario.now.schedule.items) }
{
    match Debugger::of(alloc, scenario.copy()?) {
        Ok(debugger) => Ok(debugger),
        Err(Unstarted::Memory) => Err(AllocError),
        Err(Unstarted::Given { .. }) => unreachable!(),
    }
}

/// A scenario with a session, from its start.
fn served(alloc: Global, scenario: Scenario, here: Debugger) -> Result<Subject, AllocError>
    requires formed { IsWellFormedScenario (scenario_view scenario) }
    requires started { IsStarted (scenario_view scenario) here.net }
    requires session { session_of here ≡ new_session scenario.schedule.items }
    ensures { IfOk result (λ subject. (text : List ℕ)
        → IsScenario text (scenario_view scenario) → IsNewFor text subject) }
{
    let aside = second(alloc, &scenario)?;
    let marks = no_marks(alloc)?;
    Ok(Subject::Served(Served {
        scenario,
        here,
        aside,
        marks,
    }))
}

/// What a scenario is.
fn subject_of_scenario(alloc: Global, scenario: Scenario) -> Result<Subject, AllocError>
    requires { IsWellFormedScenario (scenario_view scenario) }
    ensures { IfOk result (λ subject. (text : List ℕ)
        → IsScenario text (scenario_view scenario) → IsNewFor text subject) }
{
    match Debugger::of(alloc, scenario.copy()?) {
        Ok(here) => served(alloc, scenario, here),
        Err(
            Unstarted::Given {
                names: _,
                at,
                stuck,
            },
        ) => given_stop(alloc, scenario, at, stuck),
        Err(Unstarted::Memory) => Err(AllocError),
    }
}

// ---- texts that are refused

/// The answer of a refusal at an offset of the text, with what could stand there.
fn misfit_answer(
    alloc: Global,
    text: &[u8],
    refusal: Refusal,
    place: usize,
) -> Result<Vec<u8>, AllocError>
    ensures { IfOk result (λ answer. (list : List ℕ)
        × IsExpected text.now place list
        × IsRefusedTextWith (text_member (codes "expected") list) text.now refusal place answer.items) }
{
    let list = expected(alloc, text, place)?;
    let member = Member::text("expected", list.as_slice());
    refused_text_with(alloc, text, refusal, place, member)
}

/// Whether a refusal is that of a token that doesn't fit, or of a text that ends too early.
fn tells_expected(refusal: Refusal) -> bool
    ensures { result ≡ subjects.tells_expected refusal }
{
    matches!(refusal, Refusal::Unexpected | Refusal::EndOfText)
}

/// The answer of a refusal at an offset of the text.
fn text_answer(
    alloc: Global,
    text: &[u8],
    refusal: Refusal,
    place: usize,
) -> Result<Vec<u8>, AllocError>
    ensures { IfOk result (λ answer. IsTextAnswer text.now refusal place answer.items) }
{
    if tells_expected(refusal) {
        return misfit_answer(alloc, text, refusal, place);
    }
    refused_text(alloc, text, refusal, place)
}

/// Why the text is refused. Want of memory is no refusal.
fn fault_answer(alloc: Global, text: &[u8], fault: &ScenarioFault) -> Result<Vec<u8>, AllocError>
    ensures { IfOk result (λ answer. IsFaultAnswer text.now fault.now answer.items) }
{
    let (Some(refusal), Some(place)) = (fault.refusal(), fault.place()) else {
        return Err(AllocError);
    };
    text_answer(alloc, text, refusal, place)
}

/// What a text is.
pub(crate) fn subject_of(alloc: Global, text: &[u8]) -> Result<Subject, AllocError>
    ensures { IfOk result (IsNewFor text.now) }
{
    match read(alloc, text) {
        Ok(scenario) => subject_of_scenario(alloc, scenario),
        Err(fault) => Ok(Subject::NoScenario(fault_answer(alloc, text, &fault)?)),
    }
}

// ---- answers

/// How many commands all scripts have.
pub fn command_count(scripts: &[Vec<Cmd>]) -> usize
    requires few { length scripts.now ≤ MAX_REPLICAS }
    requires short { All IsScriptWellFormed (scripts_view scripts.now) }
    ensures { result ≡ sum_by (λ script. length script) (scripts_view scripts.now) }
{
    let mut count = 0;
    for script in scripts {
        count += script.len();
    }
    count
}

/// How much there is of a scenario, and a member beside.
fn counts(alloc: Global, scenario: &Scenario, stuck: Member<'_>) -> Result<Vec<u8>, AllocError>
    requires { IsWellFormedScenario (scenario_view scenario.now) }
    ensures { IfOk result (λ answer. answer.items
        ≡ subjects.counts_answer (scenario_view scenario.now) (member_of stuck.entry)) }
{
    let commands = command_count(&scenario.scripts);
    object_text(
        alloc,
        &[
            Member::number("commands", commands as u64),
            Member::number("events", scenario.schedule.len() as u64),
            Member::number("given", scenario.given.len() as u64),
            Member::number("replicas", scenario.names.len() as u64),
            stuck,
        ],
    )
}

/// How much there is of a scenario of which a given event is stuck, with the line of that.
fn stuck_counts(alloc: Global, stop: &GivenStop) -> Result<Vec<u8>, AllocError>
    requires { IsSomeStop stop.now }
    ensures { IfOk result (λ answer. IsOfStop (λ s stop text. IsCounts [] (stuck_given s stop) text) stop.now answer.items) }
{
    let line = stop.line(alloc)?;
    counts(
        alloc,
        &stop.scenario,
        Member::text("stuck", line.as_slice()),
    )
}

/// The answer to the request that brought the text.
pub(crate) fn counts_answer(alloc: Global, subject: &Subject) -> Result<Vec<u8>, AllocError>
    requires { (text : List ℕ) × IsHeldFor text subject.now }
    ensures { IfOk result (λ answer. (text : List ℕ) (is : AnySubject)
        → IsSubjectOf text is subject.now → IsCounts text is answer.items) }
{
    match subject {
        Subject::NoScenario(why) => why.as_slice().to_vec(alloc),
        Subject::StuckGiven(stop) => stuck_counts(alloc, stop),
        Subject::Served(served) => counts(alloc, &served.scenario, Member::absent()),
    }
}
