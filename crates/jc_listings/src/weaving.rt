//! The schedule that a seed gives, and how each replica ended in it.

ghost use Rattle.std.specs.Prelude.{◌≡◌, ◌≤◌, IfOk, All, length};
ghost use Rattle.jc_rules.specs.declared.limits.TheConstants.{MAX_EVENTS};
ghost use Rattle.jc_scenario.specs.Views.{scenario_view};
ghost use Rattle.jc_scenario.specs.WellFormed.{IsWellFormedScenario};
ghost use Rattle.jc_rules.specs.Step.{Network as AnyNetwork};
ghost use Rattle.jc_network.specs.Given.{IsStart};
ghost use Rattle.jc_choice.specs.declared.end.End.TheVariants.{StuckAt};
ghost use Rattle.jc_dump.specs.Lines.{IsNamedStuck};
ghost use Rattle.jc_answers.specs.JsonTexts.{object_text, array_text};
ghost use Rattle.jc_answers.specs.Parts.{member_of};
ghost use Rattle.jc_listings.specs.WovenTexts.{stuck_members, end_members, end_answers, IsNamedEnd, IsWovenText};

use jc_answers::{ArrayText, Member, object_text};
use jc_choice::End;
use jc_json::tagged_text;
use jc_network::{StartFault, Stuck};
use jc_printer::print_event;
use jc_replies::events_answer;
use jc_rules::{Refusal, Text};
use jc_scenario::Scenario;
use jc_weave::weave;
use std::alloc::{AllocError, Global};

/// How a replica ended that got stuck, with the text of the event and the member of a key.
fn stuck_text(
    alloc: Global,
    name: &str,
    made: u64,
    refusal: Refusal,
    event: &str,
    key: Member<'_>,
) -> Result<Vec<u8>, AllocError>
    ensures { IfOk result (λ answer. answer.items
        ≡ object_text (stuck_members name.now made refusal event.now (member_of key.entry))) }
{
    object_text(
        alloc,
        &[
            Member::string("cause", refusal.name()),
            Member::string("end", "stuck"),
            Member::string("event", event),
            key,
            Member::number("made", made),
            Member::string("name", name),
            Member::number("stuck", refusal.number() as u64),
        ],
    )
}

/// How a replica ended that got stuck.
fn stuck_end(
    alloc: Global,
    names: &[Text],
    name: &str,
    made: u64,
    stuck: &Stuck,
) -> Result<Vec<u8>, AllocError>
    requires { IsNamedStuck names.now stuck.now }
    ensures { IfOk result (λ answer. answer.items
        ≡ object_text (end_members names.now name.now made (StuckAt stuck.now))) }
{
    let event = print_event(alloc, names, &stuck.event)?;
    match &stuck.key {
        Some(key) => {
            let text = tagged_text(alloc, names, key)?;
            let key = Member::string("key", text.as_str());
            stuck_text(alloc, name, made, stuck.refusal, event.as_str(), key)
        }
        None => {
            let key = Member::absent();
            stuck_text(alloc, name, made, stuck.refusal, event.as_str(), key)
        }
    }
}

/// How a replica of this name ended, which made so many events.
fn end_answer(
    alloc: Global,
    names: &[Text],
    name: &str,
    made: u64,
    end: &End,
) -> Result<Vec<u8>, AllocError>
    requires { IsNamedEnd names.now end.now }
    ensures { IfOk result (λ answer. answer.items ≡ object_text (end_members names.now name.now made end.now)) }
{
    let word = match end {
        End::Finished => "finished",
        End::LimitReached => "limit",
        End::StuckAt(stuck) => return stuck_end(alloc, names, name, made, stuck),
        End::NoMemory => unreachable!(),
    };
    object_text(
        alloc,
        &[
            Member::string("end", word),
            Member::number("made", made),
            Member::string("name", name),
        ],
    )
}

/// The ends of all replicas.
fn ends_answer(
    alloc: Global,
    names: &[Text],
    made: &[u64],
    ends: &[End],
) -> Result<Vec<u8>, AllocError>
    requires each { (length ends.now ≡ length names.now) × (length made.now ≡ length names.now) }
    requires named { All (IsNamedEnd names.now) ends.now }
    ensures { IfOk result (λ answer. answer.items
        ≡ array_text (end_answers names.now names.now made.now ends.now)) }
{
    let mut all = ArrayText::new(alloc)?;
    for p in 0..ends.len() {
        let end = end_answer(alloc, names, names[p].as_str(), made[p], &ends[p])?;
        all.push(end.as_slice())?;
    }
    all.end()
}

/// How each replica ended, and the events of the schedule that the seed gives, of so many events at most.
pub fn woven_answer(
    alloc: Global,
    scenario: &Scenario,
    seed: u64,
    limit: u64,
) -> Result<Vec<u8>, AllocError>
    requires formed { IsWellFormedScenario (scenario_view scenario.now) }
    requires starts { (start : AnyNetwork) × IsStart (scenario_view scenario.now) start }
    requires few { limit ≤ MAX_EVENTS }
    ensures { IfOk result (λ answer. IsWovenText (scenario_view scenario.now) seed limit answer.items) }
{
    let woven = match weave(alloc, scenario, seed, limit) {
        Ok(woven) => woven,
        Err(StartFault::Memory) => return Err(AllocError),
        Err(StartFault::Given { .. }) => unreachable!(),
    };
    let names = scenario.names.as_slice();
    let ends = ends_answer(alloc, names, woven.made.as_slice(), woven.ends.as_slice())?;
    let events = events_answer(alloc, names, woven.schedule.as_slice())?;
    object_text(
        alloc,
        &[
            Member::text("ends", ends.as_slice()),
            Member::text("events", events.as_slice()),
        ],
    )
}
