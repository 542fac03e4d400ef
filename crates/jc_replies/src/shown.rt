//! The answers that show something of the debugger: events, a trace, a comparison.

ghost use Rattle.std.specs.Prelude.{◌≡◌, ℕ, List, [], ◌∷◌, ◌++◌, IfOk, OnOk, All, length, map};
ghost use Rattle.jc_rules.specs.declared.operation.Event.{Event as AnyEvent};
ghost use Rattle.jc_rules.specs.declared.rule.Rule.{Rule as AnyRule};
ghost use Rattle.jc_rules.specs.Runs.{run_rows, rows_of_all};
ghost use Rattle.jc_printer.specs.Canon.{AreNamed, canon_event, quoted};
ghost use Rattle.jc_network.specs.Enabled.{AreEnabled, candidates};
ghost use Rattle.jc_session.specs.AnswerOf.{AllNamed, IsTraceReply};
ghost use Rattle.jc_session.specs.Reply.{Reply as AnyReply};
ghost use Rattle.jc_answers.specs.JsonTexts.{array_text};
ghost use Rattle.jc_answers.specs.Parts.{HasItems};
ghost use Rattle.jc_replies.specs.ReplyTexts.{events_answer, row_text, trace_answer, compared_answer, IsAnswer};
ghost use Rattle.jc_replies.specs.AnswerOf.{background_of};

use jc_answers::{ArrayText, Member, object_text};
use jc_debug::Debugger;
use jc_looks::flag;
use jc_meaning::Comparison;
use jc_network::Net;
use jc_printer::print_event;
use jc_rules::{Event, Rule, Run, Text};
use std::alloc::{AllocError, Global};

// ---- events

/// Appends the text of an event to the list.
fn push_event(
    list: &mut ArrayText,
    alloc: Global,
    names: &[Text],
    event: &Event,
) -> Result<(), AllocError>
    requires { AreNamed event.now (length names.now) }
    ensures { OnOk result ((ts : List (List ℕ))
        → HasItems list.old ts
        → HasItems list.new (ts ++ quoted (canon_event names.now event.now) ∷ [])) }
{
    let text = print_event(alloc, names, event)?;
    list.push_string(text.as_str())
}

/// A list of the texts of events. Refused for want of memory alone.
pub fn events_answer(alloc: Global, names: &[Text], events: &[Event]) -> Result<Vec<u8>, AllocError>
    requires { All (λ e. AreNamed e (length names.now)) events.now }
    ensures { IfOk result (λ answer. answer.items ≡ events_answer names.now events.now) }
{
    let mut list = ArrayText::new(alloc)?;
    for event in events {
        push_event(&mut list, alloc, names, event)?;
    }
    list.end()
}

/// The texts of the events that aren't stuck.
pub(crate) fn enabled(alloc: Global, net: &Net) -> Result<Vec<u8>, AllocError>
    ensures { IfOk result (λ answer.
        (listed : List AnyEvent) → AreEnabled net.now.history.now (candidates net.now.history.now) listed
        → answer.items ≡ events_answer net.now.names listed) }
{
    // Called for its contract: events lead to the network from a start, so each event that can be made names replicas
    // of the network.
    net.steps();
    let enabled = net.enabled()?;
    events_answer(alloc, net.names(), &enabled)
}

// ---- traces

/// A rule with its depth before it.
fn row(alloc: Global, rule: Rule, depth: u64) -> Result<Vec<u8>, AllocError>
    ensures { IfOk result (λ text. text.items ≡ row_text (rule, depth)) }
{
    let mut list = ArrayText::new(alloc)?;
    list.push_number(depth)?;
    list.push_string(rule.name())?;
    list.end()
}

/// Appends the rules of a run to the list.
fn push_run(list: &mut ArrayText, alloc: Global, run: &Run) -> Result<(), AllocError>
    ensures { OnOk result ((ts : List (List ℕ))
        → HasItems list.old ts
        → HasItems list.new (ts ++ map row_text (run_rows run.now))) }
{
    for i in 0..run.count {
        let text = row(alloc, run.rule, run.depth + u64::from(i))?;
        list.push(text.as_slice())?;
    }
    Ok(())
}

/// The rules of a trace.
fn rows_of(alloc: Global, runs: &[Run]) -> Result<Vec<u8>, AllocError>
    ensures { IfOk result (λ text. text.items ≡ array_text (map row_text (rows_of_all runs.now))) }
{
    let mut list = ArrayText::new(alloc)?;
    for run in runs {
        push_run(&mut list, alloc, run)?;
    }
    list.end()
}

/// An event with its number and its rules.
fn traced(
    alloc: Global,
    names: &[Text],
    n: u64,
    event: &Event,
    runs: &[Run],
) -> Result<Vec<u8>, AllocError>
    requires { AreNamed event.now (length names.now) }
    ensures { IfOk result (λ answer. answer.items ≡ trace_answer names.now n event.now (rows_of_all runs.now)) }
{
    let text = print_event(alloc, names, event)?;
    let rules = rows_of(alloc, runs)?;
    object_text(
        alloc,
        &[
            Member::string("event", text.as_str()),
            Member::number("number", n),
            Member::text("rules", rules.as_slice()),
        ],
    )
}

/// The event that led to the position with its rules, or that the position is the start.
pub(crate) fn trace(alloc: Global, debugger: &Debugger) -> Result<Vec<u8>, AllocError>
    requires { AllNamed debugger.now }
    ensures { IfOk result (λ answer.
        (given : List AnyEvent) (text : List ℕ) (r : AnyReply) → IsTraceReply debugger.now r
        → IsAnswer (background_of given debugger.now) text r answer.items) }
{
    let Some(runs) = debugger.trace() else {
        return flag(alloc, "start");
    };
    let n = debugger.position();
    let event = &debugger.schedule()[n as usize - 1];
    traced(alloc, debugger.net().names(), n, event, runs)
}

// ---- comparisons

/// How two replicas compare.
pub(crate) fn compared(alloc: Global, found: Comparison) -> Result<Vec<u8>, AllocError>
    ensures { IfOk result (λ answer. answer.items ≡ compared_answer found) }
{
    match found {
        Comparison::SameOps { same_tree: true } => object_text(
            alloc,
            &[
                Member::string("operations", "same"),
                Member::string("tree", "same"),
            ],
        ),
        Comparison::SameOps { same_tree: false } => object_text(
            alloc,
            &[
                Member::string("operations", "same"),
                Member::string("tree", "different"),
            ],
        ),
        Comparison::DifferentOps => {
            object_text(alloc, &[Member::string("operations", "different")])
        }
    }
}
