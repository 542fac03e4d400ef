//! The answer of each reply of a session's debugger.

ghost use Rattle.std.specs.Prelude.{◌≡◌, IfOk, MatchOption, All, length};
ghost use Rattle.jc_printer.specs.Canon.{AreNamed};
ghost use Rattle.jc_session.specs.AnswerOf.{AllNamed, IsReply, IsNamedReply};
ghost use Rattle.jc_session.specs.Reply.{Reply as AnyReply};
ghost use Rattle.jc_session.specs.Requests as Q;
ghost use Rattle.jc_session.specs.Views.{request_view};
ghost use Rattle.jc_answers.specs.JsonTexts.{number_member, object_text};
ghost use Rattle.jc_replies.specs.ReplyTexts.{IsAnswer};
ghost use Rattle.jc_replies.specs.AnswerOf.{background_of, IsHere, event_text, GivesServed};

use crate::moves::{position_with, ran, stuck_here};
use crate::shown::{compared, enabled, events_answer, trace};
use jc_answers::{Member, object_text, refused, refused_text};
use jc_debug::Debugger;
use jc_looks::{state_of, states};
use jc_rules::Event;
use jc_session::{Reply, Request, reply_to};
use std::alloc::{AllocError, Global};

/// An object with one number.
fn numbered(alloc: Global, name: &str, n: u64) -> Result<Vec<u8>, AllocError>
    ensures { IfOk result (λ answer. answer.items ≡ object_text (number_member name.now n)) }
{
    object_text(alloc, &[Member::number(name, n)])
}

/// The answer of a reply of the debugger, which hasn't been asked for anything else since. `given` are the events that
/// were made before its position 0, and `text` is that of the request's event, where it has one. Refused for want of
/// memory alone.
pub fn answer_of(
    alloc: Global,
    debugger: &Debugger,
    given: &[Event],
    text: &[u8],
    reply: &Reply,
) -> Result<Vec<u8>, AllocError>
    requires all { AllNamed debugger.now }
    requires given { All (λ e. AreNamed e (length debugger.now.net.names)) given.now }
    requires stuck { IsNamedReply debugger.now.net.names reply.now }
    requires here { IsHere debugger.now reply.now }
    ensures { IfOk result (λ answer.
        (r : AnyReply) → IsReply debugger.now reply.now r
        → IsAnswer (background_of given.now debugger.now) text.now r answer.items) }
{
    let net = debugger.net();
    match reply {
        Reply::Refused(refusal) => refused(alloc, *refusal),
        Reply::Misspelled { refusal, place } => refused_text(alloc, text, *refusal, *place),
        Reply::Went(_) => {
            position_with(alloc, debugger, given, Member::absent(), Member::absent())
        }
        Reply::Stuck { at: _, stuck } => stuck_here(alloc, debugger, given, stuck),
        Reply::Ran { at: _, end } => ran(alloc, debugger, given, end),
        Reply::Set(k) => numbered(alloc, "set", *k as u64),
        Reply::Cleared(k) => numbered(alloc, "cleared", *k),
        Reply::States => states(alloc, net),
        Reply::StateOf(p) => state_of(alloc, net, *p),
        Reply::Trace => trace(alloc, debugger),
        Reply::Enabled => enabled(alloc, net),
        Reply::Schedule => events_answer(alloc, net.names(), debugger.schedule()),
        Reply::Position => {
            let of = Member::number("of", debugger.schedule().len() as u64);
            position_with(alloc, debugger, given, Member::absent(), of)
        }
        Reply::Compared(found) => compared(alloc, *found),
    }
}

/// The text of a request's event.
fn event_text<'a>(request: &Request<'a>) -> &'a [u8]
    ensures { result.now ≡ event_text (request_view request.now) }
{
    match request {
        Request::Act(rest) => rest.as_bytes(),
        _ => b"".as_slice(),
    }
}

/// Does what a session's request asks for, and returns its answer; `quit` has none. `given` are the events that were
/// made before position 0. Refused for want of memory alone. A move may have gone a part of its way then.
pub fn answer_to(
    alloc: Global,
    debugger: &mut Debugger,
    given: &[Event],
    request: Request<'_>,
) -> Result<Option<Vec<u8>>, AllocError>
    requires all { AllNamed debugger.old }
    requires given { All (λ e. AreNamed e (length debugger.old.net.names)) given.now }
    ensures { IfOk result (λ answer. MatchOption answer (request_view request.entry ≡ Q.quit)
        (λ text. GivesServed given.now debugger.old (request_view request.entry) debugger.new text.items)) }
{
    let text = event_text(&request);
    match reply_to(alloc, debugger, request)? {
        Some(reply) => answer_of(alloc, debugger, given, text, &reply).map(Some),
        None => Ok(None),
    }
}
