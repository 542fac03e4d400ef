//! The answers to requests.

ghost use Rattle.std.specs.Prelude.{◌≡◌, ◌↔◌, ◌+◌, ◌<◌, ◌≤◌, ℕ, suc, List, Option, Some, None, Ok, length, IsTrue, IfOk};
ghost use Rattle.jc_rules.specs.declared.rule.Rule.{Rule as AnyRule};
ghost use Rattle.jc_rules.specs.declared.version.Version.TheVariants.{Two};
ghost use Rattle.jc_rules.specs.Step.{Network as AnyNetwork, StepIn};
ghost use Rattle.jc_printer.specs.Canon as canon;
ghost use Rattle.jc_scenario.specs.Canon as canon_text;
ghost use Rattle.jc_scenario.specs.Views.{scenario_view};
ghost use Rattle.jc_scenario.specs.WellFormed.{Scenario as AnyScenario, IsScenario};
ghost use Rattle.jc_debug.specs.Moves.{IsTraceOf};
ghost use Rattle.jc_session.specs.AnswerOf.{AllNamed};
ghost use Rattle.jc_session.specs.Lines.{Line};
ghost use Rattle.jc_session.specs.Requests as Q;
ghost use Rattle.jc_session.specs.Views.{request_view};
ghost use Rattle.jc_requests.specs.Asked as K;
ghost use Rattle.jc_requests.specs.Asked.{Position as AnyPosition};
ghost use Rattle.jc_requests.specs.Input.{size_of};
ghost use Rattle.jc_requests.specs.Views.{position_view, at_view, between_view, asked_view};
ghost use Rattle.jc_answers.specs.JsonTexts.{array_text};
ghost use Rattle.jc_looks.specs.LookFaults.{Finds, AnswersBy};
ghost use Rattle.jc_looks.specs.Looks.{IsWithin};
ghost use Rattle.jc_journal.specs.EventLine.{IsBeforeLast, AreEffects};
ghost use Rattle.jc_journal.specs.Parts.{rows_of, differences_in};
ghost use Rattle.jc_listings.specs.Journals.{AnswersEvent, AnswersJournal, rules_asked};
ghost use Rattle.jc_listings.specs.Positions.{count_at};
ghost use Rattle.jc_serve.specs.Asking.{IsLookRequest, LooksAt};
ghost use Rattle.jc_serve.specs.Answers.{IsNoRule, IsOwn, mark_answers};
ghost use Rattle.jc_choice.specs.Laws.{with_schedule};
ghost use Rattle.jc_serve.specs.AnswerOf.{IsAct, IsLineHere, IsWithinLimit, IsOfWhole, IsInService, LeadsTo, ShowsIn, ShowsBy, ShowsAt, AnswersNowhere, IsHeldFor, AnswersRefusedBy, AnswersOn};
ghost use Rattle.jc_serve.specs.InMemory.{IsServing, IsBehind};

use crate::asking::look_of;
use crate::served::{Served, told_marks};
use crate::subjects::Subject;
use crate::texts::{answered, counted, journal, quit_answer, stopped};
use jc_answers::{quoted, refused, unended};
use jc_debug::DebugFault;
use jc_effects::Effects;
use jc_journal::{NumberedEvent, event_effects, event_line};
use jc_listings::{Details, line_behind, places, woven_answer};
use jc_looks::{Look, LookFault, flag, given_network, shown};
use jc_replies::answer_to;
use jc_requests::{Asked, Position};
use jc_rules::{Event, Refusal, Rule, Run, Version};
use jc_scenario::{Scenario, print};
use jc_session::{Request, rule_of};
use std::alloc::{AllocError, Global};

// ---- where there is no scenario

/// Whether no version has a rule with the name.
fn is_no_rule(name: &str) -> bool
    ensures { IsTrue result ↔ IsNoRule Two name.now }
{
    rule_of(Version::Two, name).is_none()
}

fn rule_refused(alloc: Global, why: &[u8], name: &str) -> Result<Vec<u8>, AllocError>
    ensures { IfOk result (λ answer. AnswersRefusedBy why.now (K.of_session (Q.break_rule name.now)) answer.items) }
{
    if is_no_rule(name) {
        refused(alloc, Refusal::BadLine)
    } else {
        why.to_vec(alloc)
    }
}

fn session_refused(alloc: Global, why: &[u8], request: Request<'_>) -> Result<Vec<u8>, AllocError>
    ensures { IfOk result (λ answer. AnswersRefusedBy why.now (K.of_session (request_view request.entry)) answer.items) }
{
    match request {
        Request::Quit => quit_answer(alloc),
        Request::BreakRule(name) => rule_refused(alloc, why, name),
        _ => why.to_vec(alloc),
    }
}

/// The answer about a text that is refused. `why` is the one that says so.
fn answer_refused(alloc: Global, why: &[u8], request: Asked<'_>) -> Result<Vec<u8>, AllocError>
    ensures { IfOk result (λ answer. AnswersRefusedBy why.now (asked_view request.entry) answer.items) }
{
    match request {
        Asked::OfSession(request) => session_refused(alloc, why, request),
        _ => why.to_vec(alloc),
    }
}

// ---- where there is a session

/// Whether the request has made an event, which led from the one position to the other.
fn has_made(request: &Request<'_>, was: u64, now: u64) -> bool
    ensures { IsTrue result ↔ (IsAct (request_view request.now) × (was < now)) }
{
    matches!(request, Request::Act(_)) && was < now
}

impl Served {
    /// What a request of a session is answered that has nothing to do with breakpoints.
    fn of_session(&mut self, alloc: Global, request: Request<'_>) -> Result<Vec<u8>, AllocError>
        requires held { IsInService self.old }
        requires other { IsOwn (request_view request) → ⊥ }
        ensures { IfOk result (λ answer. (text : List ℕ)
            → LeadsTo text self.old (K.of_session (request_view request.entry)) self.new answer.items) }
    {
        let was = self.here.position();
        let given = self.scenario.given.as_slice();
        let Some(answer) = answer_to(alloc, &mut self.here, given, request)? else {
            unreachable!();
        };
        let now = self.here.position();
        if has_made(&request, was, now) {
            self.follow(was)?;
            return Ok(answer);
        }
        Ok(answer)
    }

    fn session_answer(&mut self, alloc: Global, request: Request<'_>) -> Result<Vec<u8>, LookFault>
        requires { IsInService self.old }
        ensures { AnswersBy (λ answer. (text : List ℕ)
            → LeadsTo text self.old (K.of_session (request_view request.entry)) self.new answer) result }
    {
        match request {
            Request::Quit => Ok(quit_answer(alloc)?),
            Request::Run => Ok(self.run_answer(alloc)?),
            Request::BreakAt(n) => Ok(self.break_at(alloc, n)?),
            Request::BreakRule(name) => Ok(self.break_rule(alloc, name)?),
            Request::BreakReplica(name) => self.break_replica(alloc, name),
            Request::Unbreak(k) => Ok(self.unbreak(alloc, k)?),
            request => Ok(self.of_session(alloc, request)?),
        }
    }

    fn goto_end(&mut self, alloc: Global) -> Result<Vec<u8>, AllocError>
        requires { IsInService self.old }
        ensures { IfOk result (λ answer. (text : List ℕ) → LeadsTo text self.old K.goto_end self.new answer.items) }
    {
        let end = self.here.schedule().len() as u64;
        self.of_session(alloc, Request::Goto(end))
    }

    // ---- what there is at a position

    /// What a look shows where so many of the given events are made.
    fn look_given(&self, alloc: Global, count: u64, look: &Look) -> Result<Vec<u8>, LookFault>
        requires held { IsInService self.now }
        requires within { IsWithin (length self.now.scenario.names.items) look.now }
        requires given { count ≤ length self.now.scenario.given.items }
        ensures { AnswersBy (ShowsIn (λ s A answer. ShowsAt s A.schedule count look.now answer) self.now self.now) result }
    {
        let net = given_network(alloc, &self.scenario, count as usize)?;
        shown(alloc, &net, look)
    }

    /// What a look shows at the position here.
    fn look_here(&self, alloc: Global, look: &Look) -> Result<Vec<u8>, LookFault>
        requires held { IsInService self.now }
        requires within { IsWithin (length self.now.scenario.names.items) look.now }
        ensures { AnswersBy (ShowsIn (λ s A answer.
            ShowsAt s A.schedule (length s.given + A.position) look.now answer) self.now self.now) result }
    {
        shown(alloc, self.here.net(), look)
    }

    /// What a look is answered at a position of the schedule.
    fn look_aside(&mut self, alloc: Global, n: u64, look: &Look) -> Result<Vec<u8>, LookFault>
        requires held { IsInService self.old }
        requires there { n ≤ length self.old.here.schedule }
        requires within { IsWithin (length self.old.scenario.names.items) look.now }
        ensures { AnswersBy (ShowsIn (λ s A answer. (at : Option AnyPosition)
            → count_at s A.schedule A.position at ≡ Ok (length s.given + n)
            → LooksAt s A.schedule A.position at look.now answer) self.old self.new) result }
    {
        match self.aside.goto(n) {
            Ok(()) => shown(alloc, self.aside.net(), look),
            Err(DebugFault::Stuck(stuck)) => {
                let given = self.scenario.given.as_slice();
                Ok(stopped(alloc, &self.aside, given, stuck)?)
            }
            Err(DebugFault::Memory) => Err(LookFault::Memory),
            Err(DebugFault::Refused(_)) => unreachable!(),
        }
    }

    /// What a look is answered at a position.
    fn look_at(&mut self, alloc: Global, at: Position, look: &Look) -> Result<Vec<u8>, LookFault>
        requires held { IsInService self.old }
        requires within { IsWithin (length self.old.scenario.names.items) look.now }
        ensures { AnswersBy (ShowsIn (λ s A answer.
            LooksAt s A.schedule A.position (Some (position_view at)) look.now answer) self.old self.new) result }
    {
        let given = self.scenario.given.len() as u64;
        let count = counted(alloc, &self.scenario, self.here.schedule(), at)?;
        if count < given {
            self.look_given(alloc, count, look)
        } else {
            self.look_aside(alloc, count - given, look)
        }
    }

    /// What a look is answered at a position, or here.
    fn look(
        &mut self,
        alloc: Global,
        at: Option<Position>,
        look: &Look,
    ) -> Result<Vec<u8>, LookFault>
        requires held { IsInService self.old }
        requires within { IsWithin (length self.old.scenario.names.items) look.now }
        ensures { AnswersBy (ShowsIn (λ s A answer.
            LooksAt s A.schedule A.position (at_view at) look.now answer) self.old self.new) result }
    {
        match at {
            Some(at) => self.look_at(alloc, at, look),
            None => self.look_here(alloc, look),
        }
    }

    // ---- events

    /// The rules of the event that led to the position of `here`, where they are asked for.
    fn rules_here(&self, details: Details) -> Option<&[Run]>
        requires { 0 < length self.now.here.traces }
        ensures { (rows : List (AnyRule × ℕ)) × IsTraceOf self.now.here rows
            × (rows_of result ≡ rules_asked details.trace rows) }
    {
        let rules = self.here.trace();
        if details.trace { rules } else { None }
    }

    /// What the event changed that led to the position of `here`, where that is asked for and `aside` is before it.
    fn effects_here(
        &self,
        alloc: Global,
        event: &Event,
        details: Details,
    ) -> Result<Option<Effects>, AllocError>
        requires made { (rows : List (AnyRule × ℕ))
            × StepIn self.now.aside.net.history.now event.now self.now.here.net.history.now rows }
        requires last { IsBeforeLast self.now.aside.net.history.now self.now.here.net.history }
        ensures { IfOk result (λ effects. (rows : List (AnyRule × ℕ))
            → (made : StepIn self.now.aside.net.history.now event.now self.now.here.net.history.now rows)
            → AreEffects details.effects event.now made.step.before made.step.after (differences_in effects)) }
    {
        if details.effects {
            event_effects(alloc, self.aside.net(), self.here.net(), event)
        } else {
            Ok(None)
        }
    }

    /// The line of the event that led to the position of `here`, where `aside` is before that event.
    fn line_here(&self, alloc: Global, details: Details) -> Result<Vec<u8>, AllocError>
        requires behind { IsBehind self.now.aside self.now.here }
        requires known { AllNamed self.now.here }
        ensures { IfOk result (λ text. IsLineHere details self.now.aside self.now.here text.items) }
    {
        let number = self.here.position();
        let event = self.here.schedule()[number as usize - 1];
        // For its contract: the debugger aside is at the network before the event.
        let _aside = self.aside.net();
        let effects = self.effects_here(alloc, &event, details)?;
        let numbered = NumberedEvent {
            event,
            number,
            given: false,
        };
        let line = event_line(
            alloc,
            self.here.net(),
            &numbered,
            self.rules_here(details),
            effects.as_ref(),
        )?;
        Ok(unended(line))
    }

    /// What is told of the event that leads to position n of the schedule, behind 0.
    fn line_at(&mut self, alloc: Global, details: Details, n: u64) -> Result<Vec<u8>, AllocError>
        requires held { IsInService self.old }
        requires behind { 0 < n }
        requires there { n ≤ length self.old.here.schedule }
        ensures { IfOk result (λ answer. ShowsBy (λ s A answer. (at : Option AnyPosition)
            → count_at s A.schedule A.position at ≡ Ok (length s.given + n)
            → AnswersEvent details s A.schedule A.position at answer) self.old self.new answer.items) }
    {
        match self.here.goto(n) {
            Ok(()) => {
                self.bring_aside(n - 1)?;
                self.line_here(alloc, details)
            }
            Err(DebugFault::Stuck(stuck)) => {
                let given = self.scenario.given.as_slice();
                let answer = stopped(alloc, &self.here, given, stuck)?;
                Ok(answer)
            }
            Err(DebugFault::Memory) => Err(AllocError),
            Err(DebugFault::Refused(_)) => unreachable!(),
        }
    }

    /// The same, where `here` is again then.
    fn event_aside(
        &mut self,
        alloc: Global,
        details: Details,
        n: u64,
    ) -> Result<Vec<u8>, AllocError>
        requires held { IsInService self.old }
        requires behind { 0 < n }
        requires there { n ≤ length self.old.here.schedule }
        ensures { IfOk result (λ answer. ShowsIn (λ s A answer. (at : Option AnyPosition)
            → count_at s A.schedule A.position at ≡ Ok (length s.given + n)
            → AnswersEvent details s A.schedule A.position at answer) self.old self.new answer.items) }
    {
        let was = self.here.position();
        let line = self.line_at(alloc, details, n)?;
        self.bring_here(was)?;
        Ok(line)
    }

    /// The line of a given event, behind which so many are made.
    fn event_given(
        &self,
        alloc: Global,
        details: Details,
        count: u64,
    ) -> Result<Vec<u8>, AllocError>
        requires held { IsInService self.now }
        requires given { count < length self.now.scenario.given.items }
        ensures { IfOk result (λ answer. ShowsIn (λ s A answer. (at : Option AnyPosition)
            → count_at s A.schedule A.position at ≡ Ok (suc count)
            → AnswersEvent details s A.schedule A.position at answer) self.now self.now answer.items) }
    {
        let schedule = self.here.schedule();
        line_behind(alloc, &self.scenario, schedule, details, count as usize)
    }

    /// How many events lead to a position, or to the one here.
    fn count_at(&self, alloc: Global, at: Option<Position>) -> Result<u64, LookFault>
        requires { IsInService self.now }
        ensures there { IfOk result (λ count.
            count ≤ length self.now.scenario.given.items + length self.now.here.schedule) }
        ensures count { (s : AnyScenario) (start : AnyNetwork) → IsServing s start self.now → Finds
            (λ count. count_at s self.now.here.schedule (length self.now.here.traces) (at_view at) ≡ Ok count)
            (λ answer. AnswersNowhere s self.now.here.schedule (length self.now.here.traces) (at_view at) answer)
            result }
    {
        match at {
            Some(at) => counted(alloc, &self.scenario, self.here.schedule(), at),
            None => Ok(self.scenario.given.len() as u64 + self.here.position()),
        }
    }

    /// What is told of the event to which so many lead.
    fn event(&mut self, alloc: Global, details: Details, count: u64) -> Result<Vec<u8>, AllocError>
        requires held { IsInService self.old }
        requires there { count ≤ length self.old.scenario.given.items + length self.old.here.schedule }
        ensures { IfOk result (λ answer. ShowsIn (λ s A answer. (at : Option AnyPosition)
            → count_at s A.schedule A.position at ≡ Ok count
            → AnswersEvent details s A.schedule A.position at answer) self.old self.new answer.items) }
    {
        let given = self.scenario.given.len() as u64;
        if count == 0 {
            flag(alloc, "start")
        } else if count > given {
            self.event_aside(alloc, details, count - given)
        } else {
            self.event_given(alloc, details, count - 1)
        }
    }

    /// What is told of the event of a position, or of the one here.
    fn event_at(
        &mut self,
        alloc: Global,
        at: Option<Position>,
        details: Details,
    ) -> Result<Vec<u8>, LookFault>
        requires { IsInService self.old }
        ensures { AnswersBy (ShowsIn (λ s A answer.
            AnswersEvent details s A.schedule A.position (at_view at) answer) self.old self.new) result }
    {
        let count = self.count_at(alloc, at)?;
        Ok(self.event(alloc, details, count)?)
    }

    // ---- the scenario as a whole

    /// The scenario with the schedule as it is now.
    fn current(&self, alloc: Global) -> Result<Scenario, AllocError>
        ensures { IfOk result (λ scenario. scenario_view scenario
            ≡ with_schedule (scenario_view self.now.scenario) self.now.here.schedule) }
    {
        let schedule = self.here.schedule().to_vec(alloc)?;
        let mut scenario = self.scenario.copy()?;
        scenario.schedule = schedule;
        Ok(scenario)
    }

    fn print(&self, alloc: Global) -> Result<Vec<u8>, AllocError>
        requires { IsInService self.now }
        ensures { IfOk result (λ answer. ShowsIn (λ s A answer.
            answer ≡ canon.quoted (canon_text.canon (with_schedule s A.schedule))) self.now self.now answer.items) }
    {
        let scenario = self.current(alloc)?;
        let text = print(alloc, &scenario)?;
        quoted(alloc, text.as_str())
    }

    /// The journal's lines.
    fn journal(
        &self,
        alloc: Global,
        details: Details,
        between: Option<(Position, Position)>,
    ) -> Result<Vec<u8>, LookFault>
        requires { IsInService self.now }
        ensures { AnswersBy (ShowsIn (λ s A answer.
            AnswersJournal details s A.schedule (between_view between) answer) self.now self.now) result }
    {
        let schedule = self.here.schedule();
        journal(alloc, &self.scenario, schedule, details, between)
    }

    fn breaks(&self, alloc: Global) -> Result<Vec<u8>, AllocError>
        requires { IsInService self.now }
        ensures { IfOk result (λ answer. ShowsIn (λ s A answer.
            answer ≡ array_text (mark_answers s.names 1 A.marks)) self.now self.now answer.items) }
    {
        told_marks(alloc, self.scenario.names.as_slice(), self.marks.as_slice())
    }

    // ---- the answer

    /// What is answered about the text and its events, or about breakpoints.
    fn own_answer(
        &mut self,
        alloc: Global,
        text: &[u8],
        request: Asked<'_>,
    ) -> Result<Vec<u8>, LookFault>
        requires held { IsInService self.old }
        requires text { (s : AnyScenario) × IsScenario text.now s }
        requires asked { IsWithinLimit (asked_view request) }
        requires own { IsOfWhole (asked_view request) }
        ensures { AnswersBy (LeadsTo text.now self.old (asked_view request.entry) self.new) result }
    {
        match request {
            Asked::BackRun => Ok(self.back_run_answer(alloc)?),
            Asked::BreakOp(counter, name) => self.break_op(alloc, counter, name),
            Asked::BreakPlace(name, expression) => self.break_place(alloc, name, expression),
            Asked::Breaks => Ok(self.breaks(alloc)?),
            Asked::Places => Ok(places(alloc, text)?),
            Asked::Print => Ok(self.print(alloc)?),
            Asked::Weave { seed, limit } => Ok(woven_answer(alloc, &self.scenario, seed, limit)?),
            _ => unreachable!(),
        }
    }

    /// The answer to a request that asks for no look.
    fn other_answer(
        &mut self,
        alloc: Global,
        text: &[u8],
        request: Asked<'_>,
    ) -> Result<Vec<u8>, LookFault>
        requires held { IsInService self.old }
        requires text { (s : AnyScenario) × IsScenario text.now s }
        requires asked { IsWithinLimit (asked_view request) }
        requires no_text { size_of (Some (asked_view request)) ≡ None }
        requires other { IsLookRequest (asked_view request) → ⊥ }
        ensures { AnswersBy (LeadsTo text.now self.old (asked_view request.entry) self.new) result }
    {
        match request {
            Asked::OfSession(request) => self.session_answer(alloc, request),
            Asked::GotoEnd => Ok(self.goto_end(alloc)?),
            Asked::Event { at, trace, effects } => {
                self.event_at(alloc, at, Details { trace, effects })
            }
            Asked::Journal {
                trace,
                effects,
                between,
            } => self.journal(alloc, Details { trace, effects }, between),
            request => self.own_answer(alloc, text, request),
        }
    }

    /// Does what is asked, and returns the answer.
    fn answer(
        &mut self,
        alloc: Global,
        text: &[u8],
        request: Asked<'_>,
    ) -> Result<Vec<u8>, LookFault>
        requires held { IsInService self.old }
        requires text { (s : AnyScenario) × IsScenario text.now s }
        requires asked { IsWithinLimit (asked_view request) }
        requires no_text { size_of (Some (asked_view request)) ≡ None }
        ensures { AnswersBy (LeadsTo text.now self.old (asked_view request.entry) self.new) result }
    {
        match look_of(alloc, self.scenario.names.as_slice(), request)? {
            Some((at, look)) => self.look(alloc, at, &look),
            None => self.other_answer(alloc, text, request),
        }
    }
}

/// Does what is asked about a text, and returns the answer.
pub(crate) fn answer(
    alloc: Global,
    text: &[u8],
    subject: &mut Subject,
    request: Asked<'_>,
) -> Result<Vec<u8>, AllocError>
    requires held { IsHeldFor text.now subject.old }
    requires asked { (line : Line) × (K.asked line ≡ Some (asked_view request)) }
    requires no_text { size_of (Some (asked_view request)) ≡ None }
    ensures { IfOk result (λ answer.
        AnswersOn text.now subject.old (asked_view request.entry) subject.new answer.items) }
{
    match subject {
        Subject::NoScenario(why) => answer_refused(alloc, why.as_slice(), request),
        Subject::StuckGiven(stop) => answered(stop.answer(alloc, text, request)),
        Subject::Served(served) => answered(served.answer(alloc, text, request)),
    }
}
