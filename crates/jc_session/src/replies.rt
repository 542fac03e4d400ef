//! The replies to requests: what each request does to the debugger, and what is answered. Nothing is written here.

ghost use Rattle.std.specs.Prelude.{◌≡◌, ◌≢◌, ◌↔◌, ◌≤◌, List, ℕ, IfOk, IfErr, IfSome, IfNone, IsTrue, MatchOption, length};
ghost use Rattle.jc_rules.specs.declared.limits.TheConstants.{MAX_REPLICAS};
ghost use Rattle.jc_rules.specs.declared.rule.Rule.{Rule as AnyRule};
ghost use Rattle.jc_rules.specs.declared.version.Version.{Version as AnyVersion};
ghost use Rattle.jc_rules.specs.RuleNames.{rule_name};
ghost use Rattle.jc_parser.specs.Events.{IsEventOf};
ghost use Rattle.jc_session.specs.Answers.{IsNamed, IsStrange, Knows};
ghost use Rattle.jc_session.specs.AnswerOf.{GivesReply, Spells, set_reply};
ghost use Rattle.jc_session.specs.Requests as Q;
ghost use Rattle.jc_session.specs.Views.{request_view};

use crate::request::Request;
use jc_debug::{DebugFault, Debugger, RunEnd};
use jc_meaning::{Comparison, compare};
use jc_network::{Stuck, laws as networks};
use jc_parser::parse_event;
use jc_rules::{Event, Refusal, Rule, Text, Version};
use jc_scenario::resolve;
use jc_syntax::NamedEvent;
use std::alloc::{AllocError, Global};

/// What is answered to a request. What isn't kept here is shown by the debugger that answered, as long as it isn't
/// asked for anything else.
#[derive(Drop)]
pub enum Reply {
    /// The request is refused.
    Refused(Refusal),
    /// The text of its event is refused, at this offset.
    Misspelled { refusal: Refusal, place: usize },
    /// A move reached this position.
    Went(u64),
    /// A move reached this position, and the next event is stuck there.
    Stuck { at: u64, stuck: Stuck },
    /// A run reached this position, and ended so.
    Ran { at: u64, end: RunEnd },
    /// The breakpoint of this number was set.
    Set(u16),
    /// The breakpoint of this number was taken away.
    Cleared(u64),
    /// The state of each replica.
    States,
    /// The state of the replica of this number.
    StateOf(u16),
    /// The event that led to the position and its trace, or that none did.
    Trace,
    /// The events that aren't stuck.
    Enabled,
    /// The events of the schedule.
    Schedule,
    /// The position, and how many events the schedule has.
    Position,
    /// How two replicas compare.
    Compared(Comparison),
}

// ---- moves

fn step(debugger: &mut Debugger, n: u64) -> Result<Reply, AllocError>
    ensures { IfOk result (λ reply. GivesReply debugger.old (Q.step n) debugger.new reply) }
{
    match debugger.step(n) {
        Ok(()) => Ok(Reply::Went(debugger.position())),
        Err(DebugFault::Refused(refusal)) => Ok(Reply::Refused(refusal)),
        Err(DebugFault::Stuck(stuck)) => {
            let at = debugger.position();
            Ok(Reply::Stuck { at, stuck })
        }
        Err(DebugFault::Memory) => Err(AllocError),
    }
}

fn goto(debugger: &mut Debugger, n: u64) -> Result<Reply, AllocError>
    ensures { IfOk result (λ reply. GivesReply debugger.old (Q.goto n) debugger.new reply) }
{
    match debugger.goto(n) {
        Ok(()) => Ok(Reply::Went(debugger.position())),
        Err(DebugFault::Refused(refusal)) => Ok(Reply::Refused(refusal)),
        Err(DebugFault::Stuck(stuck)) => {
            let at = debugger.position();
            Ok(Reply::Stuck { at, stuck })
        }
        Err(DebugFault::Memory) => Err(AllocError),
    }
}

fn back(debugger: &mut Debugger, n: u64) -> Reply
    ensures { GivesReply debugger.old (Q.back n) debugger.new result }
{
    if debugger.back(n) {
        Reply::Went(debugger.position())
    } else {
        Reply::Refused(Refusal::AtStart)
    }
}

fn run(debugger: &mut Debugger) -> Result<Reply, AllocError>
    ensures { IfOk result (λ reply. GivesReply debugger.old Q.run debugger.new reply) }
{
    match debugger.run() {
        Ok(end) => {
            let at = debugger.position();
            Ok(Reply::Ran { at, end })
        }
        Err(DebugFault::Refused(refusal)) => Ok(Reply::Refused(refusal)),
        Err(DebugFault::Stuck(_)) => unreachable!(),
        Err(DebugFault::Memory) => Err(AllocError),
    }
}

// ---- events of a line

/// What a text spells, as the rest of an `act` line: an event, or none, with the refusal and its offset in bytes.
#[derive(Drop)]
pub enum Spelling {
    Event(Event),
    Refused { refusal: Refusal, place: usize },
}

/// What the text spells in this version. `names` has the name of each replica at its number. Why no event is read comes
/// before a name that no replica has. Nothing but memory is an error.
pub fn event_of(
    alloc: Global,
    version: Version,
    names: &[Text],
    rest: &str,
) -> Result<Spelling, AllocError>
    requires { length names.now ≤ MAX_REPLICAS }
    ensures { IfOk result (λ spelling. Spells version names.now rest.now spelling) }
{
    match parse_event(alloc, version, rest) {
        Ok(named) => Ok(resolved(names, &named)),
        Err(fault) => {
            // Want of memory is no refusal.
            let (Some(refusal), Some(place)) = (fault.refusal(), fault.place()) else {
                return Err(AllocError);
            };
            Ok(Spelling::Refused { refusal, place })
        }
    }
}

/// The named event by the numbers of its replicas, or the refusal of a name that no replica has.
fn resolved(names: &[Text], named: &NamedEvent) -> Spelling
    requires { length names.now ≤ MAX_REPLICAS }
    ensures { (version : AnyVersion) (text : List ℕ)
        → IsEventOf version text named.now
        → Spells version names.now text result }
{
    match resolve(names, named) {
        Ok(event) => Spelling::Event(event),
        Err(unknown) => Spelling::Refused {
            refusal: Refusal::UnknownReplica,
            place: unknown.place,
        },
    }
}

fn act(alloc: Global, debugger: &mut Debugger, rest: &str) -> Result<Reply, AllocError>
    ensures { IfOk result (λ reply. GivesReply debugger.old (Q.act rest.now) debugger.new reply) }
{
    let net = debugger.net();
    let event = match event_of(alloc, net.version(), net.names(), rest)? {
        Spelling::Event(event) => event,
        Spelling::Refused { refusal, place } => return Ok(Reply::Misspelled { refusal, place }),
    };
    match debugger.act(&event) {
        Ok(()) => Ok(Reply::Went(debugger.position())),
        Err(DebugFault::Refused(refusal)) => Ok(Reply::Refused(refusal)),
        Err(DebugFault::Stuck(stuck)) => {
            let at = debugger.position();
            Ok(Reply::Stuck { at, stuck })
        }
        Err(DebugFault::Memory) => Err(AllocError),
    }
}

// ---- breakpoints

/// The number of the replica that has the name, if one has: its place among the names.
pub fn number_of(names: &[Text], name: &[u8]) -> Option<u16>
    requires { length names.now ≤ MAX_REPLICAS }
    ensures some { IfSome result (λ p. IsNamed names.now name.now p) }
    ensures none { IfNone result (IsStrange names.now name.now) }
{
    for (number, own) in names.iter().enumerate() {
        if own.as_str().as_bytes() == name {
            return Some(number as u16);
        }
    }
    None
}

/// The reply to a request for a new breakpoint, which no stuck event or want of memory refuses.
fn set(set: Result<u16, DebugFault>) -> Reply
    requires { IfErr set (λ fault. fault ≡ DebugFault.Refused Refusal.TooManyBreaks) }
    ensures { result ≡ set_reply set }
{
    match set {
        Ok(k) => Reply::Set(k),
        Err(DebugFault::Refused(refusal)) => Reply::Refused(refusal),
        Err(DebugFault::Stuck(_)) | Err(DebugFault::Memory) => unreachable!(),
    }
}

fn break_at(debugger: &mut Debugger, n: u64) -> Reply
    ensures { GivesReply debugger.old (Q.break_at n) debugger.new result }
{
    set(debugger.break_at(n))
}

/// Whether a session of the version knows the rule: RECV-ONE is of version 2 alone.
fn knows(version: Version, rule: Rule) -> bool
    ensures { IsTrue result ↔ Knows rule version }
{
    match rule {
        Rule::RecvOne => version == Version::Two,
        _ => true,
    }
}

/// The rule with the name, if a session of the version knows it.
pub fn rule_of(version: Version, name: &str) -> Option<Rule>
    ensures some { IfSome result (λ rule. Knows rule version × (rule_name rule ≡ name.now)) }
    ensures none { IfNone result ((rule : AnyRule) → Knows rule version → rule_name rule ≢ name.now) }
{
    let rule = Rule::of_name(name)?;
    if knows(version, rule) {
        Some(rule)
    } else {
        None
    }
}

fn break_rule(debugger: &mut Debugger, name: &str) -> Reply
    ensures { GivesReply debugger.old (Q.break_rule name.now) debugger.new result }
{
    match rule_of(debugger.net().version(), name) {
        Some(rule) => set(debugger.break_rule(rule)),
        None => Reply::Refused(Refusal::BadLine),
    }
}

fn break_replica(debugger: &mut Debugger, name: &[u8]) -> Reply
    ensures { GivesReply debugger.old (Q.break_replica name.now) debugger.new result }
{
    match number_of(debugger.net().names(), name) {
        Some(p) => set(debugger.break_replica(p)),
        None => Reply::Refused(Refusal::UnknownReplica),
    }
}

fn unbreak(debugger: &mut Debugger, k: u64) -> Reply
    ensures { GivesReply debugger.old (Q.unbreak k) debugger.new result }
{
    if debugger.unbreak(k) {
        Reply::Cleared(k)
    } else {
        Reply::Refused(Refusal::NoSuchBreak)
    }
}

// ---- what is shown

fn state(debugger: &Debugger) -> Reply
    ensures { GivesReply debugger.now Q.state debugger.now result }
{
    // Called for its contract: the network is that of the position.
    debugger.net();
    Reply::States
}

fn state_of(debugger: &Debugger, name: &[u8]) -> Reply
    ensures { GivesReply debugger.now (Q.state_of name.now) debugger.now result }
{
    match number_of(debugger.net().names(), name) {
        Some(p) => Reply::StateOf(p),
        None => Reply::Refused(Refusal::UnknownReplica),
    }
}

fn trace(debugger: &Debugger) -> Reply
    ensures { GivesReply debugger.now Q.trace debugger.now result }
{
    // Called for its contract: there is a trace, but at the start.
    debugger.trace();
    Reply::Trace
}

fn enabled(debugger: &Debugger) -> Reply
    ensures { GivesReply debugger.now Q.enabled debugger.now result }
{
    // Called for their contracts: events lead to the network from a start, so each event has a step there or is stuck.
    debugger.net().steps();
    networks::step_or_stuck();
    Reply::Enabled
}

fn comparison(
    alloc: Global,
    debugger: &Debugger,
    name: &[u8],
    other: &[u8],
) -> Result<Reply, AllocError>
    ensures { IfOk result (λ reply.
        GivesReply debugger.now (Q.compare name.now other.now) debugger.now reply) }
{
    let net = debugger.net();
    let names = net.names();
    let Some(p) = number_of(names, name) else {
        return Ok(Reply::Refused(Refusal::UnknownReplica));
    };
    let Some(q) = number_of(names, other) else {
        return Ok(Reply::Refused(Refusal::UnknownReplica));
    };
    match compare(alloc, net, p, q) {
        Ok(found) => Ok(Reply::Compared(found)),
        Err(_) => Err(AllocError),
    }
}

// ---- requests

/// Does what is asked for and returns the reply; `quit` has none.
///
/// Refused for want of memory alone. A move may have gone a part of its way then.
pub fn reply_to(
    alloc: Global,
    debugger: &mut Debugger,
    request: Request,
) -> Result<Option<Reply>, AllocError>
    ensures { IfOk result (λ answer. MatchOption answer (request_view request.entry ≡ Q.quit)
        (λ reply. GivesReply debugger.old (request_view request.entry) debugger.new reply)) }
{
    match request {
        Request::Step(n) => step(debugger, n).map(Some),
        Request::Back(n) => Ok(Some(back(debugger, n))),
        Request::Goto(n) => goto(debugger, n).map(Some),
        Request::Act(rest) => act(alloc, debugger, rest).map(Some),
        Request::Run => run(debugger).map(Some),
        Request::BreakAt(n) => Ok(Some(break_at(debugger, n))),
        Request::BreakRule(name) => Ok(Some(break_rule(debugger, name))),
        Request::BreakReplica(name) => Ok(Some(break_replica(debugger, name))),
        Request::Unbreak(k) => Ok(Some(unbreak(debugger, k))),
        Request::State => Ok(Some(state(debugger))),
        Request::StateOf(name) => Ok(Some(state_of(debugger, name))),
        Request::Trace => Ok(Some(trace(debugger))),
        Request::Enabled => Ok(Some(enabled(debugger))),
        Request::Schedule => Ok(Some(Reply::Schedule)),
        Request::Position => Ok(Some(Reply::Position)),
        Request::Compare(name, other) => comparison(alloc, debugger, name, other).map(Some),
        Request::Quit => Ok(None),
    }
}
