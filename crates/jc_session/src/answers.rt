//! The answers of lines: the text of each reply. Sessions call `answer`.

ghost use Rattle.std.specs.Prelude.{◌≡◌, ◌++◌, ℕ, List, Some, IfOk, MatchOption, slice_get, string_bytes};
ghost use Rattle.jc_rules.specs.declared.operation.Event.{Event as AnyEvent};
ghost use Rattle.jc_rules.specs.Refused.{Cause};
ghost use Rattle.jc_rules.specs.ReplicaNames.{name_at};
ghost use Rattle.jc_rules.specs.State.{State};
ghost use Rattle.jc_network.specs.Enabled.{AreEnabled, candidates};
ghost use Rattle.jc_network.specs.Steps.{stuck_for};
ghost use Rattle.jc_dump.specs.Dump.{dump_line};
ghost use Rattle.jc_dump.specs.Lines.{stuck_text, IsNamedStuck};
ghost use Rattle.jc_debug.specs.DebuggerState.{RunOutcome};
ghost use Rattle.jc_debug.specs.Moves.{IsEnd};
ghost use Rattle.jc_session.specs.Answers.{IsRefusalAt};
ghost use Rattle.jc_session.specs.AnswerOf.{AllNamed, IsTraceReply, IsReply, IsNamedEnd, IsNamedReply, GivesAnswer, GivesLine};
ghost use Rattle.jc_session.specs.Reply.{Reply as AnyReply};
ghost use Rattle.jc_session.specs.Requests as Q;
ghost use Rattle.jc_session.specs.Requests.{meaning, asks};
ghost use Rattle.jc_session.specs.Texts.{at_line, ran_text, event_lines, numbered_lines, or_none_text, reply_text};
ghost use Rattle.jc_session.specs.Views.{request_view, line_of_bytes};

use crate::replies::{Reply, reply_to};
use crate::request::{Meaning, Request, meaning_of};
use crate::texts::{
    at_and, at_line, break_line, cleared_line, compared_line, dump_lines, event_lines,
    numbered_lines, or_none, refusal_line, set_line, where_line,
};
use jc_debug::{Debugger, RunEnd};
use jc_dump::{block_text, dump_replica, refused_text, stuck_text};
use jc_network::{Net, Stuck};
use jc_rules::Refusal;
use std::alloc::{AllocError, Global};

/// The line of a fault of a text. Want of memory is no refusal and has no line.
pub fn fault_line(
    alloc: Global,
    refusal: Option<Refusal>,
    place: Option<usize>,
) -> Result<String, AllocError>
    ensures { IfOk result (λ text. IsRefusalAt refusal place (string_bytes text)) }
{
    let (Some(refusal), Some(place)) = (refusal, place) else {
        return Err(AllocError);
    };
    refused_text(alloc, refusal, place)
}

// ---- moves

/// The position that a move reached, and the line of the event that is stuck there.
fn stuck_at(alloc: Global, n: u64, net: &Net, stuck: &Stuck) -> Result<String, AllocError>
    requires { IsNamedStuck net.now.names stuck.now }
    ensures { IfOk result (λ text.
        (why : Cause) (event : AnyEvent)
        → stuck.now ≡ stuck_for why event
        → string_bytes text ≡ at_line n ++ stuck_text net.now.names why event) }
{
    at_and(alloc, n, stuck_text(alloc, net, stuck)?.as_str())
}

/// The position that a run reached, and how it ended.
fn ran(alloc: Global, n: u64, net: &Net, end: &RunEnd) -> Result<String, AllocError>
    requires { IsNamedEnd net.now.names end.now }
    ensures { IfOk result (λ text.
        (outcome : RunOutcome) → IsEnd end.now outcome → string_bytes text ≡ ran_text net.now.names n outcome) }
{
    match end {
        RunEnd::Break(k) => {
            let line = break_line(alloc, *k)?;
            at_and(alloc, n, line.as_str())
        }
        RunEnd::Stuck(stuck) => stuck_at(alloc, n, net, stuck),
        RunEnd::End => at_and(alloc, n, "end\n"),
    }
}

// ---- what is shown

/// The dump line of a replica of the network.
fn state_of(alloc: Global, net: &Net, p: u16) -> Result<String, AllocError>
    ensures { IfOk result (λ text.
        (A : State) → slice_get net.now.history.now.states p ≡ Some A
        → string_bytes text ≡ dump_line net.now.names (name_at net.now.names p) A) }
{
    match dump_replica(alloc, net, p) {
        Ok(dump) => Ok(dump),
        Err(_) => Err(AllocError),
    }
}

/// The trace of the event that led to the position, or the line `start`.
fn trace(alloc: Global, debugger: &Debugger) -> Result<String, AllocError>
    requires { AllNamed debugger.now }
    ensures { IfOk result (λ text.
        (r : AnyReply) → IsTraceReply debugger.now r
        → string_bytes text ≡ reply_text debugger.now.net.names r) }
{
    let Some(runs) = debugger.trace() else {
        return String::from_str(alloc, "start\n");
    };
    let n = debugger.position();
    let event = &debugger.schedule()[n as usize - 1];
    block_text(alloc, debugger.net().names(), n, event, runs)
}

/// The events that aren't stuck, or the line `none`.
fn enabled(alloc: Global, net: &Net) -> Result<String, AllocError>
    ensures { IfOk result (λ text.
        (events : List AnyEvent) → AreEnabled net.now.history.now (candidates net.now.history.now) events
        → string_bytes text ≡ or_none_text (event_lines net.now.names events)) }
{
    // Called for its contract: events lead to the network from a start, so each event that can be made names replicas
    // of the network.
    net.steps();
    let events = net.enabled()?;
    let text = event_lines(alloc, net.names(), &events)?;
    or_none(alloc, text)
}

/// The events of the schedule, or the line `none`.
fn schedule(alloc: Global, debugger: &Debugger) -> Result<String, AllocError>
    requires { AllNamed debugger.now }
    ensures { IfOk result (λ text.
        string_bytes text ≡ or_none_text (numbered_lines debugger.now.net.names 1 debugger.now.schedule)) }
{
    let text = numbered_lines(alloc, debugger.net().names(), debugger.schedule())?;
    or_none(alloc, text)
}

// ---- replies

/// The text of a reply of the debugger, which hasn't been asked for anything else.
fn text_of(alloc: Global, debugger: &Debugger, reply: &Reply) -> Result<String, AllocError>
    requires all { AllNamed debugger.now }
    requires stuck { IsNamedReply debugger.now.net.names reply.now }
    ensures { IfOk result (λ text.
        (r : AnyReply) → IsReply debugger.now reply.now r
        → string_bytes text ≡ reply_text debugger.now.net.names r) }
{
    let net = debugger.net();
    match reply {
        Reply::Refused(refusal) => refusal_line(alloc, *refusal),
        Reply::Misspelled { refusal, place } => refused_text(alloc, *refusal, *place),
        Reply::Went(n) => at_line(alloc, *n),
        Reply::Stuck { at, stuck } => stuck_at(alloc, *at, net, stuck),
        Reply::Ran { at, end } => ran(alloc, *at, net, end),
        Reply::Set(k) => set_line(alloc, *k),
        Reply::Cleared(k) => cleared_line(alloc, *k),
        Reply::States => dump_lines(alloc, net),
        Reply::StateOf(p) => state_of(alloc, net, *p),
        Reply::Trace => trace(alloc, debugger),
        Reply::Enabled => enabled(alloc, net),
        Reply::Schedule => schedule(alloc, debugger),
        Reply::Position => where_line(alloc, debugger.position(), debugger.schedule().len()),
        Reply::Compared(found) => compared_line(alloc, *found),
    }
}

/// Does what is asked for and returns the text of the reply; `quit` has none.
fn answer_to(
    alloc: Global,
    debugger: &mut Debugger,
    request: Request,
) -> Result<Option<String>, AllocError>
    requires { AllNamed debugger.old }
    ensures { IfOk result (λ answer. MatchOption answer (request_view request.entry ≡ Q.quit)
        (λ text. GivesAnswer debugger.old (request_view request.entry) debugger.new (string_bytes text))) }
{
    match reply_to(alloc, debugger, request)? {
        Some(reply) => text_of(alloc, debugger, &reply).map(Some),
        None => Ok(None),
    }
}

// ---- lines

/// Does what the line asks for and returns the answer. A line without a word has an empty one, `quit` has none.
pub fn answer(
    alloc: Global,
    debugger: &mut Debugger,
    line: Option<&[u8]>,
) -> Result<Option<String>, AllocError>
    requires { AllNamed debugger.old }
    ensures { IfOk result (λ answer. MatchOption answer (meaning (line_of_bytes line.entry) ≡ asks Q.quit)
        (λ text. GivesLine debugger.old (line_of_bytes line.entry) debugger.new (string_bytes text))) }
{
    match meaning_of(line) {
        Meaning::Nothing => Ok(Some(String::new(alloc))),
        Meaning::Asks(request) => answer_to(alloc, debugger, request),
        Meaning::Bad => Ok(Some(refusal_line(alloc, Refusal::BadLine)?)),
    }
}
