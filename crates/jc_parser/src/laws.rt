//! Laws of the grammar, for the layers above: a text is one scenario, expression, script or event, or has one fault,
//! and not both. What is parsed is legal.

ghost use Rattle.jc_parser.specs.Laws.{OneExpression, ExpressionOrFault, ExpressionElseFault, OneExpressionFault, OneScript, ScriptOrFault, ScriptElseFault, OneScriptFault, OneScriptAt, ScriptOrFaultAt, ScriptElseFaultAt, OneScriptFaultAt};
ghost use Rattle.jc_parser.specs.EventLaws.{OneEvent, EventOrFault, EventElseFault, OneEventFault, OneEventAt, EventOrFaultAt, EventElseFaultAt, OneEventFaultAt};
ghost use Rattle.jc_parser.specs.ScenarioLaws.{OneNamedTree, NamedTreeOrFault, NamedTreeElseFault, OneTreeFault};
ghost use Rattle.jc_parser.specs.LegalSymbolLaws.{LegalExpressions, LegalScripts, LegalEvents, LegalScriptsAt, LegalEventsAt, LegalScenarios};

use jc_syntax::laws as lexemes;

/// A text is one expression at most.
pub fn one_expression()
    ensures { OneExpression }
{
    lexemes::one_list_of_tokens();
}

/// A text that is an expression has no fault.
pub fn expression_or_fault()
    ensures { ExpressionOrFault }
{
    lexemes::one_list_of_tokens();
    lexemes::tokens_or_fault();
}

/// A text that is no expression has a fault.
pub fn expression_else_fault()
    ensures { ExpressionElseFault }
{
    lexemes::tokens_else_fault();
}

/// A text has one fault at most as an expression: its number and its offset are determined.
pub fn one_expression_fault()
    ensures { OneExpressionFault }
{
    lexemes::one_list_of_tokens();
    lexemes::one_fault();
    lexemes::tokens_or_fault();
}

/// A text is one script at most.
pub fn one_script()
    ensures { OneScript }
{
    lexemes::one_list_of_tokens();
}

/// A text that is a script has no fault.
pub fn script_or_fault()
    ensures { ScriptOrFault }
{
    lexemes::one_list_of_tokens();
    lexemes::tokens_or_fault();
}

/// A text that is no script has a fault.
pub fn script_else_fault()
    ensures { ScriptElseFault }
{
    lexemes::tokens_else_fault();
}

/// A text has one fault at most as a script: its number and its offset are determined.
pub fn one_script_fault()
    ensures { OneScriptFault }
{
    lexemes::one_list_of_tokens();
    lexemes::one_fault();
    lexemes::tokens_or_fault();
}

/// A text is one event at most, with one offset for each of its names.
pub fn one_event()
    ensures { OneEvent }
{
    lexemes::one_list_of_tokens();
}

/// A text that is an event has no fault.
pub fn event_or_fault()
    ensures { EventOrFault }
{
    lexemes::one_list_of_tokens();
    lexemes::tokens_or_fault();
}

/// A text that is no event has a fault.
pub fn event_else_fault()
    ensures { EventElseFault }
{
    lexemes::tokens_else_fault();
}

/// A text has one fault at most as an event: its number and its offset are determined.
pub fn one_event_fault()
    ensures { OneEventFault }
{
    lexemes::one_list_of_tokens();
    lexemes::one_fault();
    lexemes::tokens_or_fault();
}

/// At most one event begins at a token, and one token comes after it.
pub fn one_event_at()
    ensures { OneEventAt }
{}

/// Where an event begins at a token, there is no fault.
pub fn event_or_fault_at()
    ensures { EventOrFaultAt }
{}

/// At each token an event begins, or there is a fault.
pub fn event_else_fault_at()
    ensures { EventElseFaultAt }
{}

/// Where no event begins at a token, there is one fault at most.
pub fn one_event_fault_at()
    ensures { OneEventFaultAt }
{}

/// At most one script with a closing brace begins at a token, and its brace has one number.
pub fn one_script_at()
    ensures { OneScriptAt }
{}

/// Where a script with a closing brace begins at a token, there is no fault.
pub fn script_or_fault_at()
    ensures { ScriptOrFaultAt }
{}

/// At each token a script with a closing brace begins, or there is a fault.
pub fn script_else_fault_at()
    ensures { ScriptElseFaultAt }
{}

/// Where no script with a closing brace begins at a token, there is one fault at most.
pub fn one_script_fault_at()
    ensures { OneScriptFaultAt }
{}

/// Tokens are one scenario at most, with one offset for each name in its events.
pub fn one_named_tree()
    ensures { OneNamedTree }
{}

/// Tokens that are a scenario have no fault.
pub fn named_tree_or_fault()
    ensures { NamedTreeOrFault }
{}

/// Tokens that are no scenario have a fault.
pub fn named_tree_else_fault()
    ensures { NamedTreeElseFault }
{}

/// Tokens have one fault at most as a scenario: its number and its offset are determined.
pub fn one_tree_fault()
    ensures { OneTreeFault }
{}

/// The expression that a text is stays within the limits, and its names and strings are such as tokens have.
pub fn legal_expressions()
    ensures { LegalExpressions }
{
    lexemes::legal_strings();
}

/// The script that a text is stays within the limits, and its names, numbers and strings are such as tokens
/// have.
pub fn legal_scripts()
    ensures { LegalScripts }
{
    lexemes::legal_strings();
}

/// The event that a text is has a counter within its limit, and names such as tokens have.
pub fn legal_events()
    ensures { LegalEvents }
{
    lexemes::legal_strings();
}

/// A script among the tokens of a text is as legal as one that is a whole text.
pub fn legal_scripts_at()
    ensures { LegalScriptsAt }
{
    lexemes::legal_strings();
}

/// An event among the tokens of a text is as legal as one that is a whole text.
pub fn legal_events_at()
    ensures { LegalEventsAt }
{
    lexemes::legal_strings();
}

/// A scenario that the tokens of a UTF-8 text are keeps the limits, and its names, numbers and strings are such as
/// tokens have.
pub fn legal_scenarios()
    ensures { LegalScenarios }
{
    lexemes::legal_strings();
}
