//! The laws of a session's text: each contract is the law, and its body calls the laws of the crates below.

ghost use Rattle.jc_session.specs.Laws.{OneSession, SessionHasAText};

use jc_meaning::laws as meanings;
use jc_network::laws as networks;
use jc_parser::laws as sentences;
use jc_scenario::laws as scenarios;

/// The bytes of a scenario and of lines have one text at most, and a session on them ends in one way.
pub fn one_session()
    ensures { OneSession }
{
    // The laws of the crates below, each called for its contract.
    scenarios::one_scenario();
    scenarios::one_fault();
    scenarios::scenario_or_fault();
    scenarios::scenarios_are_well_formed();
    networks::one_start();
    networks::one_given_stuck();
    networks::led_or_stuck();
    sentences::one_event();
    sentences::one_event_fault();
    sentences::event_or_fault();
}

/// The bytes of a scenario and of lines have a text, whatever they are: each line but `quit` has its answer.
pub fn session_has_a_text()
    ensures { SessionHasAText }
{
    // The laws of the crates below, each called for its contract.
    scenarios::scenario_else_fault();
    scenarios::scenarios_are_well_formed();
    sentences::event_else_fault();
    networks::led_or_stuck();
    networks::step_or_stuck();
    meanings::trees_converge();
}
