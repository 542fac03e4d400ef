//! Laws of scenarios, for the layers above: bytes are one scenario or have one fault, what is read is well formed,
//! and what is printed is read back.

ghost use Rattle.jc_scenario.specs.Laws.{OneScenario, ScenarioOrFault, ScenarioElseFault, OneFault, ScenariosAreWellFormed, ScenariosReadBack, FirstVersionStays};

use jc_parser::laws as sentences;
use jc_syntax::laws as lexemes;

/// Bytes are one scenario at most.
pub fn one_scenario()
    ensures { OneScenario }
{
    lexemes::one_list_of_tokens();
    sentences::one_named_tree();
}

/// Bytes that are a scenario have no fault.
pub fn scenario_or_fault()
    ensures { ScenarioOrFault }
{
    lexemes::one_list_of_tokens();
    lexemes::tokens_or_fault();
    sentences::one_named_tree();
    sentences::named_tree_or_fault();
}

/// Bytes that are no scenario have a fault.
pub fn scenario_else_fault()
    ensures { ScenarioElseFault }
{
    lexemes::tokens_else_fault();
    sentences::named_tree_else_fault();
    sentences::legal_scenarios();
}

/// Bytes have one fault at most: its number and its place are determined.
pub fn one_fault()
    ensures { OneFault }
{
    lexemes::one_list_of_tokens();
    lexemes::one_fault();
    lexemes::tokens_or_fault();
    sentences::one_named_tree();
    sentences::named_tree_or_fault();
    sentences::one_tree_fault();
}

/// The scenario that bytes are is well formed.
pub fn scenarios_are_well_formed()
    ensures { ScenariosAreWellFormed }
{
    sentences::legal_scenarios();
}

/// The canonical text of a well-formed scenario, within the limit for texts, is that scenario.
pub fn scenarios_read_back()
    ensures { ScenariosReadBack }
{}

/// The canonical text of a scenario of version 1 has no given events, as scenarios of version 1 have none.
pub fn first_version_stays()
    ensures { FirstVersionStays }
{}
