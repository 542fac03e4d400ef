//! Laws of grammars, for the layers above: what is read is what is spelled, and what is refused has one fault.

ghost use Rattle.jc_grammar.specs.Laws.{AcceptsSentences, RefusesOthers};
ghost use Rattle.jc_grammar.specs.ScenarioGrammar.{ScenariosDecided};
ghost use Rattle.jc_grammar.specs.Examples.{ExamplesHold};
ghost use Rattle.jc_grammar.specs.Limits.{LimitsKept};

/// A decided grammar's reader accepts exactly what is spelled by one of its trees with nothing refused, and returns
/// that tree.
pub fn accepts()
    ensures { AcceptsSentences }
{}

/// A decided grammar's reader refuses exactly what has a fault, with that fault.
pub fn refuses()
    ensures { RefusesOthers }
{}

/// The next symbol decides each choice in expressions, scripts, events and scenarios.
pub fn scenarios_decided()
    ensures { ScenariosDecided }
{}

/// Texts of which docs/FORMATS.md says the fault have it by the value.
pub fn examples_computed()
    ensures { ExamplesHold }
{}

/// A script in which nothing is refused has at most 65,536 commands, and a list of events at most 100,000 events.
pub fn limits_kept()
    ensures { LimitsKept }
{}
