//! From the bytes of a scenario text to the scenario, or its fault.

ghost use Rattle.std.specs.Prelude.{◌≡◌, ◌≢◌, ℕ, ◌≤◌, IfOk, IfErr, All, length};
ghost use Rattle.jc_syntax.specs.Lexemes.{IsTokenOf};
ghost use Rattle.jc_parser.specs.ReaderState.{reading_of};
ghost use Rattle.jc_scenario.specs.Resolved.{AreResolved, all_names_in, IsFirstStranger};
ghost use Rattle.jc_scenario.specs.WellFormed.{AreScenario, IsScenario, IsWellFormedScenario};
ghost use Rattle.jc_scenario.specs.Faults.{IsFaultAmong, IsFault};
ghost use Rattle.jc_scenario.specs.Views.{scenario_view};

use crate::laws;
use crate::names::resolve;
use crate::order::arranged;
use crate::scenario::Scenario;
use jc_parser::{NamedScenario, ScenarioFault, laws as sentences, scenario_of};
use jc_rules::limits::MAX_TEXT;
use jc_rules::{Event, Text};
use jc_syntax::{NamedEvent, Token, lex};
use std::alloc::Global;

/// The events by the numbers of their replicas, if each name is a replica's.
fn resolved(
    alloc: Global,
    names: &[Text],
    events: &[NamedEvent],
) -> Result<Vec<Event>, ScenarioFault>
    requires few { length names.now ≤ 65536 }
    ensures events { IfOk result (λ es. AreResolved names.now events.now es.items) }
    ensures fault { IfErr result (λ e. e ≢ ScenarioFault.Memory →
        (at : ℕ) × IsFirstStranger names.now (all_names_in events.now) at × (e ≡ ScenarioFault.UnknownReplica at)) }
{
    let mut numbered = Vec::new(alloc);
    for event in events {
        numbered.push(resolve(names, event)?)?;
    }
    Ok(numbered)
}

/// The scenario that all of the tokens are.
fn scenario(alloc: Global, text: &str, tokens: &[Token]) -> Result<Scenario, ScenarioFault>
    requires { All (IsTokenOf text.now) tokens.now }
    ensures scenario { IfOk result (λ s. AreScenario (reading_of text.now tokens.now) (scenario_view s)) }
    ensures fault { IfErr result (λ e. e ≢ ScenarioFault.Memory → IsFaultAmong (reading_of text.now tokens.now) e) }
{
    // By this law what is parsed keeps the limits, and no two of its replicas have one name.
    sentences::legal_scenarios();
    let NamedScenario {
        version,
        replicas,
        given,
        events,
    } = scenario_of(alloc, text, tokens)?;
    let (names, scripts) = arranged(alloc, replicas)?;
    let given = resolved(alloc, &names, &given)?;
    let schedule = resolved(alloc, &names, &events)?;
    Ok(Scenario {
        version,
        names,
        scripts,
        given,
        schedule,
    })
}

/// Reads the text of a scenario. The replicas are sorted by their names, and events have their numbers in
/// that order.
///
/// Refusals, in this order: `TextTooLong` for a text over 8,388,608 bytes; `NotUtf8`; the first
/// fault of a token; `NoHeader`; then the first by place of `Unexpected`, `EndOfText`,
/// `IndexTooLarge`, `ReservedName`, `TooManyCommands`, `TooLongExpression`, `SameName`,
/// `NoReplica`, `TooManyReplicas` and `TooManyEvents`, at one place that with the smaller number;
/// then `UnknownReplica` at the first such name. `TooManyEvents` counts the given events and those of
/// the schedule apart. A block of given events and an event `take` are of version 2, and `Unexpected` in
/// version 1.
pub fn read(alloc: Global, bytes: &[u8]) -> Result<Scenario, ScenarioFault>
    // What is read is the scenario that the bytes are.
    ensures scenario { IfOk result (λ s. IsScenario bytes.now (scenario_view s)) }
    ensures well_formed { IfOk result (λ s. IsWellFormedScenario (scenario_view s)) }
    // What is refused has this fault.
    ensures fault { IfErr result (λ e. e ≢ ScenarioFault.Memory → IsFault bytes.now e) }
{
    if bytes.len() > MAX_TEXT {
        return Err(ScenarioFault::TextTooLong { place: MAX_TEXT });
    }
    let text = match std::str::from_utf8(bytes) {
        Ok(text) => text,
        Err(fault) => {
            return Err(ScenarioFault::NotUtf8 {
                place: fault.valid_up_to(),
            });
        }
    };
    let tokens = lex(alloc, text)?;
    // By this law what is read is well formed.
    laws::scenarios_are_well_formed();
    scenario(alloc, text, &tokens)
}
