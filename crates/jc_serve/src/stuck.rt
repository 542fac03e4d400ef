//! A scenario of which a given event is stuck: there is no session, but what is before that event can be looked at.

ghost use Rattle.std.specs.Prelude.{◌≡◌, ◌≤◌, ℕ, List, Some, Ok, length, IfOk};
ghost use Rattle.jc_rules.specs.declared.limits.TheConstants.{MAX_REPLICAS};
ghost use Rattle.jc_printer.specs.Canon as canon;
ghost use Rattle.jc_scenario.specs.Canon as canon_text;
ghost use Rattle.jc_scenario.specs.Views.{scenario_view};
ghost use Rattle.jc_scenario.specs.WellFormed.{Scenario as AnyScenario, IsScenario, IsWellFormedScenario};
ghost use Rattle.jc_session.specs.Requests as Q;
ghost use Rattle.jc_session.specs.Views.{request_view};
ghost use Rattle.jc_requests.specs.Asked as K;
ghost use Rattle.jc_requests.specs.Asked.{Position as AnyPosition};
ghost use Rattle.jc_requests.specs.Views.{position_view, at_view, asked_view};
ghost use Rattle.jc_looks.specs.LookFaults.{RefusesBy, Finds, AnswersBy};
ghost use Rattle.jc_looks.specs.Looks.{IsWithin};
ghost use Rattle.jc_listings.specs.Journals.{AnswersEvent};
ghost use Rattle.jc_listings.specs.Positions as positions;
ghost use Rattle.jc_serve.specs.Asking.{IsLookRequest, IsStrangeAnswer};
ghost use Rattle.jc_serve.specs.Answers.{IsOwnName, IsBadRequest, IsGoodRequest};
ghost use Rattle.jc_serve.specs.AnswerOf.{IsSomeStop, IsStopped, IsOfStop, IsReachedBy, IsUnreached, ShowsAt, IsStopLook, IsPlain, AnswersStop};
ghost use Rattle.jc_serve.specs.Subjects as subjects;
ghost use Rattle.jc_serve.specs.Subjects.{stuck_line_of, given_stuck_answer};

use crate::asking::{expression_at, look_of, replica_named};
use crate::texts::{counted, journal, quit_answer};
use jc_answers::{Member, quoted, unended};
use jc_journal::stuck_line;
use jc_listings::{Details, line_behind, places};
use jc_looks::{Look, LookFault, flag, given_network, refused_with, shown};
use jc_network::{Net, Stuck};
use jc_requests::{Asked, Position};
use jc_rules::{Refusal, Text};
use jc_scenario::{Scenario, print};
use jc_session::{Request, Spelling, event_of, rule_of};
use std::alloc::{AllocError, Global};

/// A scenario of which a given event is stuck, with the network before that.
#[derive(Drop)]
pub(crate) struct GivenStop {
    pub(crate) scenario: Scenario,
    /// How many given events are made before the stuck one.
    pub(crate) count: u64,
    pub(crate) net: Net,
    pub(crate) stuck: Stuck,
}

impl GivenStop {
    /// The journal's line of the event.
    pub(crate) fn line(&self, alloc: Global) -> Result<Vec<u8>, AllocError>
        requires { IsSomeStop self.now }
        ensures { IfOk result (λ line. IsOfStop (λ s stop text. text ≡ stuck_line_of s stop) self.now line.items) }
    {
        let line = stuck_line(alloc, &self.net, self.count + 1, true, &self.stuck)?;
        Ok(unended(line))
    }

    /// That a given event is stuck.
    fn refusal(&self, alloc: Global) -> Result<Vec<u8>, AllocError>
        requires { IsSomeStop self.now }
        ensures { IfOk result (λ answer.
            IsOfStop (λ s stop text. text ≡ given_stuck_answer s stop) self.now answer.items) }
    {
        let line = self.line(alloc)?;
        let stuck = Member::text("stuck", line.as_slice());
        refused_with(alloc, Member::absent(), Refusal::GivenStuck, stuck)
    }

    /// The same, in place of a result.
    fn refuse(&self, alloc: Global) -> LookFault
        requires { IsSomeStop self.now }
        ensures { RefusesBy (IsOfStop (λ s stop text. text ≡ given_stuck_answer s stop) self.now) result }
    {
        match self.refusal(alloc) {
            Ok(answer) => LookFault::Refused(answer),
            Err(_) => LookFault::Memory,
        }
    }

    fn names(&self) -> &[Text]
        ensures { result.now ≡ self.now.scenario.names.items }
    {
        self.scenario.names.as_slice()
    }

    /// How many events lead to a position, which is there, and is reached. Else it is refused.
    fn reached_at(&self, alloc: Global, at: Position) -> Result<u64, LookFault>
        requires { IsSomeStop self.now }
        ensures { (s : AnyScenario) (stop : subjects.GivenStop s) → IsStopped s stop self.now
            → Finds (IsReachedBy s stop (Some (position_view at))) (IsUnreached s stop (Some (position_view at))) result }
    {
        let count = counted(alloc, &self.scenario, self.scenario.schedule.as_slice(), at)?;
        if count <= self.count {
            Ok(count)
        } else {
            Err(self.refuse(alloc))
        }
    }

    /// The same, where a position is asked for.
    fn reached(&self, alloc: Global, at: Option<Position>) -> Result<u64, LookFault>
        requires { IsSomeStop self.now }
        ensures { (s : AnyScenario) (stop : subjects.GivenStop s) → IsStopped s stop self.now
            → Finds (IsReachedBy s stop (at_view at)) (IsUnreached s stop (at_view at)) result }
    {
        match at {
            Some(at) => self.reached_at(alloc, at),
            None => Err(self.refuse(alloc)),
        }
    }

    /// What a look shows behind so many events, which aren't stuck.
    fn look(&self, alloc: Global, count: u64, look: &Look) -> Result<Vec<u8>, LookFault>
        requires stop { IsSomeStop self.now }
        requires within { IsWithin (length self.now.scenario.names.items) look.now }
        requires made { count ≤ self.now.count }
        ensures { AnswersBy (IsOfStop (λ s stop text. ShowsAt s s.schedule count look.now text) self.now) result }
    {
        let net = given_network(alloc, &self.scenario, count as usize)?;
        shown(alloc, &net, look)
    }

    /// What a look shows at a position.
    fn look_at(
        &self,
        alloc: Global,
        at: Option<Position>,
        look: &Look,
    ) -> Result<Vec<u8>, LookFault>
        requires stop { IsSomeStop self.now }
        requires within { IsWithin (length self.now.scenario.names.items) look.now }
        ensures { AnswersBy (IsOfStop (λ s stop text. IsStopLook s stop (at_view at) look.now text) self.now) result }
    {
        let count = self.reached(alloc, at)?;
        self.look(alloc, count, look)
    }

    /// The line of the event to which so many events lead, none of which is stuck.
    fn event(&self, alloc: Global, count: u64, details: Details) -> Result<Vec<u8>, AllocError>
        requires stop { IsSomeStop self.now }
        requires made { count ≤ self.now.count }
        ensures { IfOk result (λ answer. IsOfStop (λ s stop text. (p : AnyPosition)
            → positions.count_of s s.schedule p ≡ Ok count
            → AnswersEvent details s s.schedule 0 (Some p) text) self.now answer.items) }
    {
        if count == 0 {
            return flag(alloc, "start");
        }
        let schedule = self.scenario.schedule.as_slice();
        line_behind(alloc, &self.scenario, schedule, details, count as usize - 1)
    }

    /// What is told of the event of a position.
    fn event_at(
        &self,
        alloc: Global,
        at: Option<Position>,
        details: Details,
    ) -> Result<Vec<u8>, LookFault>
        requires { IsSomeStop self.now }
        ensures { AnswersBy (λ answer. (text : List ℕ)
            → AnswersStop text self.now (K.event (at_view at) details.trace details.effects) answer) result }
    {
        let count = self.reached(alloc, at)?;
        Ok(self.event(alloc, count, details)?)
    }

    // ---- what is wrong in a request by its names and its text

    fn check_name(&self, alloc: Global, name: &[u8]) -> Result<(), LookFault>
        requires { length self.now.scenario.names.items ≤ MAX_REPLICAS }
        ensures { Finds (λ x. IsOwnName (scenario_view self.now.scenario) name.now)
            (IsStrangeAnswer self.now.scenario.names.items name.now) result }
    {
        replica_named(alloc, self.names(), name)?;
        Ok(())
    }

    fn check_names(&self, alloc: Global, name: &[u8], other: &[u8]) -> Result<(), LookFault>
        requires { length self.now.scenario.names.items ≤ MAX_REPLICAS }
        ensures { Finds (λ x. IsGoodRequest (scenario_view self.now.scenario) (K.of_session (Q.compare name.now other.now)))
            (IsBadRequest (scenario_view self.now.scenario) (K.of_session (Q.compare name.now other.now))) result }
    {
        self.check_name(alloc, name)?;
        self.check_name(alloc, other)
    }

    fn check_rule(&self, alloc: Global, name: &str) -> Result<(), LookFault>
        ensures { Finds (λ x. IsGoodRequest (scenario_view self.now.scenario) (K.of_session (Q.break_rule name.now)))
            (IsBadRequest (scenario_view self.now.scenario) (K.of_session (Q.break_rule name.now))) result }
    {
        match rule_of(self.scenario.version, name) {
            Some(_) => Ok(()),
            None => Err(LookFault::of(alloc, Refusal::BadLine)),
        }
    }

    /// Whether a text is an event; else it is refused.
    fn check_event(&self, alloc: Global, rest: &str) -> Result<(), LookFault>
        requires { length self.now.scenario.names.items ≤ MAX_REPLICAS }
        ensures { Finds (λ x. IsGoodRequest (scenario_view self.now.scenario) (K.of_session (Q.act rest.now)))
            (IsBadRequest (scenario_view self.now.scenario) (K.of_session (Q.act rest.now))) result }
    {
        match event_of(alloc, self.scenario.version, self.names(), rest)? {
            Spelling::Event(_) => Ok(()),
            Spelling::Refused { refusal, place } => Err(LookFault::of_text(
                alloc,
                rest.as_bytes(),
                Some(refusal),
                Some(place),
            )),
        }
    }

    fn check_place(&self, alloc: Global, name: &[u8], text: &str) -> Result<(), LookFault>
        requires { length self.now.scenario.names.items ≤ MAX_REPLICAS }
        ensures { Finds (λ x. IsGoodRequest (scenario_view self.now.scenario) (K.break_place name.now text.now))
            (IsBadRequest (scenario_view self.now.scenario) (K.break_place name.now text.now)) result }
    {
        expression_at(alloc, self.names(), name, text)?;
        Ok(())
    }

    /// Checks a request of a session.
    fn check_request(&self, alloc: Global, request: Request<'_>) -> Result<(), LookFault>
        requires { length self.now.scenario.names.items ≤ MAX_REPLICAS }
        ensures { Finds
            (λ x. IsGoodRequest (scenario_view self.now.scenario) (K.of_session (request_view request.entry)))
            (IsBadRequest (scenario_view self.now.scenario) (K.of_session (request_view request.entry))) result }
    {
        match request {
            Request::BreakRule(name) => self.check_rule(alloc, name),
            Request::BreakReplica(name) => self.check_name(alloc, name),
            Request::StateOf(name) => self.check_name(alloc, name),
            Request::Compare(name, other) => self.check_names(alloc, name, other),
            Request::Act(rest) => self.check_event(alloc, rest),
            _ => Ok(()),
        }
    }

    /// Checks a request that asks for no look.
    fn check(&self, alloc: Global, request: Asked<'_>) -> Result<(), LookFault>
        requires names { length self.now.scenario.names.items ≤ MAX_REPLICAS }
        requires other { IsLookRequest (asked_view request) → ⊥ }
        ensures { Finds (λ x. IsGoodRequest (scenario_view self.now.scenario) (asked_view request.entry))
            (IsBadRequest (scenario_view self.now.scenario) (asked_view request.entry)) result }
    {
        match request {
            Asked::OfSession(request) => self.check_request(alloc, request),
            Asked::BreakOp(_, name) => self.check_name(alloc, name),
            Asked::BreakPlace(name, expression) => self.check_place(alloc, name, expression),
            _ => Ok(()),
        }
    }

    // ---- the answer

    /// The answer to a request that is refused, be it wrong or not.
    fn refused(&self, alloc: Global, request: Asked<'_>) -> Result<Vec<u8>, LookFault>
        requires stop { IsSomeStop self.now }
        requires plain { IsPlain (asked_view request) }
        ensures { AnswersBy (λ answer. (text : List ℕ)
            → AnswersStop text self.now (asked_view request.entry) answer) result }
    {
        self.check(alloc, request)?;
        Err(self.refuse(alloc))
    }

    fn print(&self, alloc: Global) -> Result<Vec<u8>, AllocError>
        requires { IsWellFormedScenario (scenario_view self.now.scenario) }
        ensures { IfOk result (λ answer. answer.items ≡ canon.quoted (canon_text.canon (scenario_view self.now.scenario))) }
    {
        let text = print(alloc, &self.scenario)?;
        quoted(alloc, text.as_str())
    }

    /// The answer to a request of a session.
    fn session_answer(&self, alloc: Global, request: Request<'_>) -> Result<Vec<u8>, LookFault>
        requires { IsSomeStop self.now }
        ensures { AnswersBy (λ answer. (text : List ℕ)
            → AnswersStop text self.now (K.of_session (request_view request.entry)) answer) result }
    {
        match request {
            Request::Quit => Ok(quit_answer(alloc)?),
            _ => self.refused(alloc, Asked::OfSession(request)),
        }
    }

    /// The answer to a request that asks for no look.
    fn other_answer(
        &self,
        alloc: Global,
        text: &[u8],
        request: Asked<'_>,
    ) -> Result<Vec<u8>, LookFault>
        requires stop { IsSomeStop self.now }
        requires text { (s : AnyScenario) × IsScenario text.now s }
        requires other { IsLookRequest (asked_view request) → ⊥ }
        ensures { AnswersBy (AnswersStop text.now self.now (asked_view request.entry)) result }
    {
        match request {
            Asked::OfSession(request) => self.session_answer(alloc, request),
            Asked::Places => Ok(places(alloc, text)?),
            Asked::Print => Ok(self.print(alloc)?),
            Asked::Journal {
                trace,
                effects,
                between,
            } => journal(
                alloc,
                &self.scenario,
                self.scenario.schedule.as_slice(),
                Details { trace, effects },
                between,
            ),
            Asked::Event { at, trace, effects } => {
                self.event_at(alloc, at, Details { trace, effects })
            }
            request => self.refused(alloc, request),
        }
    }

    /// The answer to a request.
    pub(crate) fn answer(
        &self,
        alloc: Global,
        text: &[u8],
        request: Asked<'_>,
    ) -> Result<Vec<u8>, LookFault>
        requires stop { IsSomeStop self.now }
        requires text { (s : AnyScenario) × IsScenario text.now s }
        ensures { AnswersBy (AnswersStop text.now self.now (asked_view request.entry)) result }
    {
        match look_of(alloc, self.names(), request)? {
            Some((at, look)) => self.look_at(alloc, at, &look),
            None => self.other_answer(alloc, text, request),
        }
    }
}
