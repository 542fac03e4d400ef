//! A session with a scenario: two debuggers of it, and breakpoints. What changes it is here, beside runs.

ghost use Rattle.std.specs.Prelude.{◌≡◌, ◌<◌, ◌++◌, ◌∷◌, [], ℕ, List, Some, length, slice_get, option_map, IfOk, OnOk};
ghost use Rattle.jc_rules.specs.declared.limits.TheConstants.{MAX_BREAKS};
ghost use Rattle.jc_rules.specs.declared.operation.Cursor.{Cursor as AnyCursor};
ghost use Rattle.jc_rules.specs.declared.operation.Event.{Event as AnyEvent};
ghost use Rattle.jc_debug.specs.Invariant.{IsMoved};
ghost use Rattle.jc_session.specs.Requests as Q;
ghost use Rattle.jc_requests.specs.Asked as K;
ghost use Rattle.jc_answers.specs.JsonTexts.{object_text, array_text};
ghost use Rattle.jc_answers.specs.Parts.{HasItems};
ghost use Rattle.jc_looks.specs.LookFaults.{Finds, AnswersBy};
ghost use Rattle.jc_serve.specs.Answers.{named_mark, session_mark, mark_members, mark_answers, IsPlace, IsNoPlace};
ghost use Rattle.jc_serve.specs.AnswerOf.{with_here, with_aside, SetsIn, LeadsTo, IsFollowed};
ghost use Rattle.jc_serve.specs.InMemory.{mark_of, marks_of};
ghost use Rattle.jc_serve.specs.Marks.{operation, place};
ghost use Rattle.jc_serve.specs.Moves.{ArePaired, HasNetworkAt, SharesFirst};

use crate::asking::{expression_at, replica_named};
use crate::marks::{Mark, clear_mark, set_mark};
use jc_answers::{ArrayText, Member, object_text, refused};
use jc_cursor::Bound;
use jc_debug::{Break, DebugFault, Debugger};
use jc_dump::cursor_text;
use jc_json::id_text;
use jc_looks::{LookFault, value_of};
use jc_rules::{Cursor, Id, Refusal, Text, name_at};
use jc_scenario::Scenario;
use jc_session::rule_of;
use std::alloc::{AllocError, Global};

/// A session. What is asked at its position is asked of `here`; `aside` has the same schedule, and goes wherever else
/// something is looked at.
#[derive(Drop)]
pub(crate) struct Served {
    /// The scenario as its text has it.
    pub(crate) scenario: Scenario,
    pub(crate) here: Debugger,
    pub(crate) aside: Debugger,
    /// Breakpoint j + 1 is at place j.
    pub(crate) marks: Vec<Option<Mark>>,
}

// ---- breakpoints as they are told

fn told_position(alloc: Global, number: u64, n: u64) -> Result<Vec<u8>, AllocError>
    ensures { IfOk result (λ text. (names : List (List ℕ))
        → text.items ≡ object_text (session_mark names number (Break.Position n))) }
{
    object_text(
        alloc,
        &[
            Member::number("at", n),
            Member::string("kind", "at"),
            Member::number("number", number),
        ],
    )
}

/// One of a rule or of a replica, with the name of that.
fn told_name(alloc: Global, kind: &str, number: u64, name: &str) -> Result<Vec<u8>, AllocError>
    ensures { IfOk result (λ text. text.items ≡ object_text (named_mark kind.now number name.now)) }
{
    object_text(
        alloc,
        &[
            Member::string("kind", kind),
            Member::number("number", number),
            Member::string(kind, name),
        ],
    )
}

/// A breakpoint of a session.
fn told_break(alloc: Global, names: &[Text], number: u64, b: Break) -> Result<Vec<u8>, AllocError>
    ensures { IfOk result (λ text. text.items ≡ object_text (session_mark names.now number b)) }
{
    match b {
        Break::Position(n) => told_position(alloc, number, n),
        Break::Rule(rule) => told_name(alloc, "rule", number, rule.name()),
        Break::Replica(p) => told_name(alloc, "replica", number, name_at(names, p)),
    }
}

fn told_operation(alloc: Global, names: &[Text], number: u64, id: Id) -> Result<Vec<u8>, AllocError>
    ensures { IfOk result (λ text. text.items ≡ object_text (mark_members names.now number (operation id))) }
{
    let id = id_text(alloc, names, id)?;
    told_name(alloc, "op", number, id.as_str())
}

fn told_place(
    alloc: Global,
    names: &[Text],
    number: u64,
    replica: u16,
    cursor: &Cursor,
) -> Result<Vec<u8>, AllocError>
    ensures { IfOk result (λ text. text.items ≡ object_text (mark_members names.now number (place replica cursor.now))) }
{
    let cursor = cursor_text(alloc, names, cursor)?;
    object_text(
        alloc,
        &[
            Member::text("cursor", cursor.as_bytes()),
            Member::string("kind", "place"),
            Member::number("number", number),
            Member::string("replica", name_at(names, replica)),
        ],
    )
}

/// A breakpoint as it is told.
fn told_mark(alloc: Global, names: &[Text], number: u64, mark: &Mark) -> Result<Vec<u8>, AllocError>
    ensures { IfOk result (λ text. text.items ≡ object_text (mark_members names.now number (mark_of mark.now))) }
{
    match mark {
        Mark::Session(b) => told_break(alloc, names, number, *b),
        Mark::Operation(id) => told_operation(alloc, names, number, *id),
        Mark::Place { replica, cursor } => told_place(alloc, names, number, *replica, cursor),
    }
}

/// Appends a breakpoint, if there is one at the place.
fn push_mark(
    alloc: Global,
    all: &mut ArrayText,
    names: &[Text],
    number: u64,
    mark: &Option<Mark>,
) -> Result<(), AllocError>
    ensures { OnOk result ((ts : List (List ℕ))
        → HasItems all.old ts
        → HasItems all.new (ts ++ mark_answers names.now number (option_map mark_of mark.now ∷ []))) }
{
    match mark {
        Some(mark) => {
            let told = told_mark(alloc, names, number, mark)?;
            all.push(told.as_slice())
        }
        None => Ok(()),
    }
}

/// A list of the breakpoints.
pub(crate) fn told_marks(
    alloc: Global,
    names: &[Text],
    marks: &[Option<Mark>],
) -> Result<Vec<u8>, AllocError>
    requires { length marks.now ≡ MAX_BREAKS }
    ensures { IfOk result (λ answer. answer.items ≡ array_text (mark_answers names.now 1 (marks_of marks.now))) }
{
    let mut all = ArrayText::new(alloc)?;
    for (place, mark) in marks.iter().enumerate() {
        push_mark(alloc, &mut all, names, place as u64 + 1, mark)?;
    }
    all.end()
}

// ---- changes

/// Brings a debugger to a position of its schedule to which the events lead.
fn bring(debugger: &mut Debugger, n: u64) -> Result<(), AllocError>
    requires { HasNetworkAt debugger.old n }
    ensures { OnOk result (IsMoved debugger.old debugger.new n) }
{
    match debugger.goto(n) {
        Ok(()) => Ok(()),
        Err(DebugFault::Memory) => Err(AllocError),
        Err(DebugFault::Refused(_)) => unreachable!(),
        Err(DebugFault::Stuck(_)) => unreachable!(),
    }
}

impl Served {
    /// Sets a breakpoint. The number that it got, or that none was free.
    fn set(&mut self, alloc: Global, mark: Mark) -> Result<Vec<u8>, AllocError>
        ensures { IfOk result (λ answer. SetsIn self.old (mark_of mark) self.new answer.items) }
    {
        match set_mark(&mut self.marks, mark) {
            Some(place) => object_text(alloc, &[Member::number("set", place as u64 + 1)]),
            None => refused(alloc, Refusal::TooManyBreaks),
        }
    }

    pub(crate) fn break_at(&mut self, alloc: Global, n: u64) -> Result<Vec<u8>, AllocError>
        ensures { IfOk result (λ answer. (text : List ℕ)
            → LeadsTo text self.old (K.of_session (Q.break_at n)) self.new answer.items) }
    {
        self.set(alloc, Mark::Session(Break::Position(n)))
    }

    pub(crate) fn break_rule(&mut self, alloc: Global, name: &str) -> Result<Vec<u8>, AllocError>
        ensures { IfOk result (λ answer. (text : List ℕ)
            → LeadsTo text self.old (K.of_session (Q.break_rule name.now)) self.new answer.items) }
    {
        match rule_of(self.scenario.version, name) {
            Some(rule) => self.set(alloc, Mark::Session(Break::Rule(rule))),
            None => refused(alloc, Refusal::BadLine),
        }
    }

    pub(crate) fn break_replica(&mut self, alloc: Global, name: &[u8]) -> Result<Vec<u8>, LookFault>
        ensures { AnswersBy (λ answer. (text : List ℕ)
            → LeadsTo text self.old (K.of_session (Q.break_replica name.now)) self.new answer) result }
    {
        let p = replica_named(alloc, self.here.net().names(), name)?;
        Ok(self.set(alloc, Mark::Session(Break::Replica(p)))?)
    }

    pub(crate) fn break_op(
        &mut self,
        alloc: Global,
        counter: u64,
        name: &[u8],
    ) -> Result<Vec<u8>, LookFault>
        ensures { AnswersBy (λ answer. (text : List ℕ)
            → LeadsTo text self.old (K.break_op counter name.now) self.new answer) result }
    {
        let replica = replica_named(alloc, self.here.net().names(), name)?;
        Ok(self.set(alloc, Mark::Operation(Id { counter, replica }))?)
    }

    /// The breakpoint of the place that an expression gives at a replica here.
    fn place_mark(&self, alloc: Global, name: &[u8], expression: &str) -> Result<Mark, LookFault>
        ensures { Finds
            (λ mark. (p : ℕ) × (c : AnyCursor) × (mark_of mark ≡ place p c)
            × IsPlace self.now.here.net.names self.now.here.net.history.now.states name.now expression.now p c)
            (IsNoPlace self.now.here.net.names self.now.here.net.history.now.states name.now expression.now) result }
    {
        let net = self.here.net();
        let (replica, parsed) = expression_at(alloc, net.names(), name, expression)?;
        match value_of(alloc, net, replica, &parsed)? {
            Bound::Cursor(cursor) => Ok(Mark::Place { replica, cursor }),
            _ => Err(LookFault::of(alloc, Refusal::NotACursor)),
        }
    }

    pub(crate) fn break_place(
        &mut self,
        alloc: Global,
        name: &[u8],
        expression: &str,
    ) -> Result<Vec<u8>, LookFault>
        ensures { AnswersBy (λ answer. (text : List ℕ)
            → LeadsTo text self.old (K.break_place name.now expression.now) self.new answer) result }
    {
        // Called for its contract: events lead to the network of the position.
        self.here.net();
        let mark = self.place_mark(alloc, name, expression)?;
        Ok(self.set(alloc, mark)?)
    }

    /// Takes a breakpoint away.
    pub(crate) fn unbreak(&mut self, alloc: Global, k: u64) -> Result<Vec<u8>, AllocError>
        ensures { IfOk result (λ answer. (text : List ℕ)
            → LeadsTo text self.old (K.of_session (Q.unbreak k)) self.new answer.items) }
    {
        if clear_mark(&mut self.marks, k) {
            object_text(alloc, &[Member::number("cleared", k)])
        } else {
            refused(alloc, Refusal::NoSuchBreak)
        }
    }

    // ---- moves

    /// Brings the first debugger to a position to which the events lead.
    pub(crate) fn bring_here(&mut self, n: u64) -> Result<(), AllocError>
        requires { HasNetworkAt self.old.here n }
        ensures moved { OnOk result (IsMoved self.old.here self.new.here n) }
        ensures rest { self.new ≡ with_here self.old self.new.here }
    {
        bring(&mut self.here, n)
    }

    /// Brings the second debugger to a position before that of the first.
    pub(crate) fn bring_aside(&mut self, n: u64) -> Result<(), AllocError>
        requires paired { ArePaired self.old }
        requires before { n < length self.old.here.traces }
        ensures moved { OnOk result (IsMoved self.old.aside self.new.aside n) }
        ensures rest { self.new ≡ with_aside self.old self.new.aside }
    {
        // For its contract: the first debugger is on its trail.
        let _ = self.here.position();
        bring(&mut self.aside, n)
    }

    /// Brings the second debugger's schedule to that of the first, in which an event was made behind the first n.
    pub(crate) fn follow(&mut self, n: u64) -> Result<(), AllocError>
        requires { SharesFirst self.old.aside self.old.here n }
        ensures followed { OnOk result ((event : AnyEvent)
            → slice_get self.old.here.schedule n ≡ Some event
            → IsFollowed self.old.aside self.new.aside n event) }
        ensures rest { self.new ≡ with_aside self.old self.new.aside }
    {
        // For its contract: the first debugger is on its trail.
        let _ = self.here.position();
        let event = self.here.schedule()[n as usize];
        bring(&mut self.aside, n)?;
        match self.aside.act(&event) {
            Ok(()) => Ok(()),
            Err(DebugFault::Memory) => Err(AllocError),
            Err(DebugFault::Refused(_)) => unreachable!(),
            Err(DebugFault::Stuck(_)) => unreachable!(),
        }
    }
}
