//! The answers that tell where the debugger stands: those to moves, with what is stuck there.

ghost use Rattle.std.specs.Prelude.{◌≡◌, [], IfOk, All, length};
ghost use Rattle.jc_rules.specs.declared.operation.Event.{Event as AnyEvent};
ghost use Rattle.jc_rules.specs.Refused.{Cause};
ghost use Rattle.jc_printer.specs.Canon.{AreNamed};
ghost use Rattle.jc_network.specs.Steps.{stuck_for};
ghost use Rattle.jc_dump.specs.Lines.{IsNamedStuck};
ghost use Rattle.jc_debug.specs.DebuggerState.{RunOutcome};
ghost use Rattle.jc_debug.specs.Moves.{IsEnd};
ghost use Rattle.jc_session.specs.AnswerOf.{AllNamed, IsNamedEnd};
ghost use Rattle.jc_answers.specs.Parts.{member_of};
ghost use Rattle.jc_replies.specs.ReplyTexts.{event_to, stuck_member, move_answer, ran_answer};
ghost use Rattle.jc_replies.specs.AnswerOf.{background_of};

use jc_answers::{Member, object_text, unended};
use jc_debug::{Debugger, RunEnd};
use jc_journal::stuck_line;
use jc_network::Stuck;
use jc_printer::print_event;
use jc_rules::Event;
use std::alloc::{AllocError, Global};

/// The event that leads to the debugger's position: at position 0 the last given one, if there is one.
fn event_here(debugger: &Debugger, given: &[Event]) -> Option<Event>
    ensures { result ≡ event_to (background_of given.now debugger.now) (length debugger.now.traces) }
{
    let n = debugger.position();
    if n == 0 {
        given.last().copied()
    } else {
        debugger.schedule().get(n as usize - 1).copied()
    }
}

/// The debugger's position with its event, and beside them how a run ended and what else is told. Refused for want of
/// memory alone.
pub fn position_with<'a>(
    alloc: Global,
    debugger: &Debugger,
    given: &[Event],
    end: Member<'a>,
    more: Member<'a>,
) -> Result<Vec<u8>, AllocError>
    requires all { AllNamed debugger.now }
    requires given { All (λ e. AreNamed e (length debugger.now.net.names)) given.now }
    ensures { IfOk result (λ answer. answer.items
        ≡ move_answer (background_of given.now debugger.now) (length debugger.now.traces)
        (member_of end.entry) (member_of more.entry)) }
{
    let at = Member::number("at", debugger.position());
    match event_here(debugger, given) {
        Some(event) => {
            let text = print_event(alloc, debugger.net().names(), &event)?;
            object_text(
                alloc,
                &[at, end, Member::string("event", text.as_str()), more],
            )
        }
        None => object_text(alloc, &[at, end, more]),
    }
}

/// The debugger's position, and the journal's line of the event that is stuck there.
pub(crate) fn stuck_here(
    alloc: Global,
    debugger: &Debugger,
    given: &[Event],
    stuck: &Stuck,
) -> Result<Vec<u8>, AllocError>
    requires all { AllNamed debugger.now }
    requires given { All (λ e. AreNamed e (length debugger.now.net.names)) given.now }
    requires stuck { IsNamedStuck debugger.now.net.names stuck.now }
    ensures { IfOk result (λ answer.
        (why : Cause) (event : AnyEvent)
        → stuck.now ≡ stuck_for why event
        → answer.items
        ≡ move_answer (background_of given.now debugger.now) (length debugger.now.traces)
        [] (stuck_member (background_of given.now debugger.now) (length debugger.now.traces) why event)) }
{
    let line = stuck_line(alloc, debugger.net(), debugger.position() + 1, false, stuck)?;
    let text = unended(line);
    let line = Member::text("stuck", text.as_slice());
    position_with(alloc, debugger, given, Member::absent(), line)
}

/// The debugger's position, to which a run led, and how that ended.
pub(crate) fn ran(
    alloc: Global,
    debugger: &Debugger,
    given: &[Event],
    end: &RunEnd,
) -> Result<Vec<u8>, AllocError>
    requires all { AllNamed debugger.now }
    requires given { All (λ e. AreNamed e (length debugger.now.net.names)) given.now }
    requires stuck { IsNamedEnd debugger.now.net.names end.now }
    ensures { IfOk result (λ answer.
        (outcome : RunOutcome) → IsEnd end.now outcome
        → answer.items ≡ ran_answer (background_of given.now debugger.now) (length debugger.now.traces) outcome) }
{
    match end {
        RunEnd::Break(k) => {
            let number = Member::number("break", *k as u64);
            position_with(alloc, debugger, given, number, Member::absent())
        }
        RunEnd::Stuck(stuck) => stuck_here(alloc, debugger, given, stuck),
        RunEnd::End => {
            let end = Member::text("end", b"true".as_slice());
            position_with(alloc, debugger, given, end, Member::absent())
        }
    }
}
