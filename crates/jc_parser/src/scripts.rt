//! Readers of commands and scripts, for lone scripts and for the replicas of a scenario.

ghost use Rattle.std.specs.Prelude.{◌≡◌, ◌≢◌, ◌≤◌, ◌<◌, IfOk, IfErr, All, map, length};
ghost use Rattle.jc_rules.specs.Syntax.{Expr, SetTo, InsertAfter};
ghost use Rattle.jc_rules.specs.declared.limits.TheConstants.{MAX_COMMANDS};
ghost use Rattle.jc_syntax.specs.Trees.{cmd_of, expr_of};
ghost use Rattle.jc_syntax.specs.Lexemes.{IsTokenOf};
ghost use Rattle.jc_parser.specs.ReaderState.{MapsResult, reading_of};
ghost use Rattle.jc_parser.specs.ScriptReader.{any_value_at, assignment_at, binding_at, insertion_at, finish_at, update_at, command_at, too_many_commands_at, commands_at, only_script_at, closed_script_at};
ghost use Rattle.jc_parser.specs.Scripts.{IsScript, IsNoScript, IsScriptOf, IsScriptFault, IsClosedScript, IsNoScriptAhead, IsScriptAt, IsScriptFaultAt};
ghost use Rattle.jc_parser.specs.Sentences.{IsAhead};
ghost use Rattle.jc_grammar.specs.Symbols.{lexemes};
ghost use Rattle.jc_parser.specs.Faults.{from_sentence, IsOfSentence};

use crate::cursor::Cursor;
use crate::expressions::{Chain, expression, follow, root};
use crate::fault::ScenarioFault;
use crate::parse_fault::{ParseFault, of_sentence};
use crate::parts::{name, value as plain_value};
use jc_rules::Value;
use jc_rules::limits::MAX_COMMANDS;
use jc_syntax::{Cmd, Token, TokenKind, lex};
use std::alloc::Global;

/// A value.
#[tactic(auto, unfolding(crate::specs::ScriptReader::any_value_at))]
fn value(alloc: Global, cursor: &mut Cursor) -> Result<Value, ScenarioFault>
    ensures { MapsResult (λ v. (v, cursor.new)) result (any_value_at cursor.old) }
{
    if cursor.begins(TokenKind::BraceL) {
        cursor.advance();
        cursor.mark(TokenKind::BraceR)?;
        return Ok(Value::EmptyMap);
    }
    if cursor.begins(TokenKind::BracketL) {
        cursor.advance();
        cursor.mark(TokenKind::BracketR)?;
        return Ok(Value::EmptyList);
    }
    plain_value(alloc, cursor)
}

/// A command `let`, from its word on.
#[tactic(auto, unfolding(crate::specs::ScriptReader::binding_at))]
fn binding(alloc: Global, cursor: &mut Cursor) -> Result<Cmd, ScenarioFault>
    ensures { MapsResult (λ c. (cmd_of c, cursor.new)) result (binding_at cursor.old) }
{
    cursor.word("let")?;
    let name = name(alloc, cursor)?;
    cursor.mark(TokenKind::Equals)?;
    let expression = expression(alloc, cursor)?;
    Ok(Cmd::Let(name, expression))
}

/// The value of an assignment, from its sign on.
#[tactic(auto, unfolding(crate::specs::ScriptReader::assignment_at))]
fn assigned(alloc: Global, cursor: &mut Cursor) -> Result<Value, ScenarioFault>
    ensures { (place : Expr) → MapsResult (λ v. (SetTo place v, cursor.new)) result (assignment_at place cursor.old) }
{
    cursor.mark(TokenKind::Assign)?;
    value(alloc, cursor)
}

/// The value of a command `insertAfter`, from its word on.
#[tactic(auto, unfolding(crate::specs::ScriptReader::insertion_at))]
fn inserted(alloc: Global, cursor: &mut Cursor) -> Result<Value, ScenarioFault>
    ensures { (place : Expr)
        → MapsResult (λ v. (InsertAfter place v, cursor.new)) result (insertion_at place cursor.old) }
{
    cursor.word("insertAfter")?;
    cursor.mark(TokenKind::ParenL)?;
    let value = value(alloc, cursor)?;
    cursor.mark(TokenKind::ParenR)?;
    Ok(value)
}

/// What follows the expression of a command.
// `drop` is a call: each `?` would drop the expression variant by variant, which is dear to prove.
#[tactic(auto, unfolding(crate::specs::ScriptReader::finish_at, crate::specs::ScriptReader::deletion_at))]
fn finish(alloc: Global, cursor: &mut Cursor, chain: Chain) -> Result<Cmd, ScenarioFault>
    ensures { MapsResult (λ c. (cmd_of c, cursor.new)) result
        (finish_at (expr_of chain.expression) chain.dotted cursor.old) }
{
    let Chain { expression, dotted } = chain;
    if !dotted {
        return match assigned(alloc, cursor) {
            Ok(value) => Ok(Cmd::Set(expression, value)),
            Err(fault) => {
                drop(expression);
                Err(fault)
            }
        };
    }
    if cursor.begins_word("insertAfter") {
        return match inserted(alloc, cursor) {
            Ok(value) => Ok(Cmd::InsertAfter(expression, value)),
            Err(fault) => {
                drop(expression);
                Err(fault)
            }
        };
    }
    cursor.word("delete")?;
    Ok(Cmd::Delete(expression))
}

/// A command that begins with an expression.
#[tactic(auto, unfolding(crate::specs::ScriptReader::update_at))]
fn update(alloc: Global, cursor: &mut Cursor) -> Result<Cmd, ScenarioFault>
    ensures { MapsResult (λ c. (cmd_of c, cursor.new)) result (update_at cursor.old) }
{
    let root = root(alloc, cursor)?;
    let chain = follow(alloc, cursor, root)?;
    finish(alloc, cursor, chain)
}

/// A command.
#[tactic(auto, unfolding(crate::specs::ScriptReader::command_at, crate::specs::ScriptReader::yield_at))]
fn command(alloc: Global, cursor: &mut Cursor) -> Result<Cmd, ScenarioFault>
    ensures { MapsResult (λ c. (cmd_of c, cursor.new)) result (command_at cursor.old) }
{
    if cursor.begins_word("yield") {
        cursor.advance();
        return Ok(Cmd::Yield);
    }
    if cursor.begins_word("let") {
        return binding(alloc, cursor);
    }
    update(alloc, cursor)
}

/// The fault of one command more than there may be.
fn crowd(cursor: &Cursor) -> ScenarioFault
    ensures { result ≡ too_many_commands_at cursor.now }
{
    let place = cursor.place();
    if cursor.begins_misused() {
        ScenarioFault::ReservedName { place }
    } else {
        ScenarioFault::TooManyCommands { place }
    }
}

/// The commands of a script, up to what begins none.
pub(crate) fn script(alloc: Global, cursor: &mut Cursor) -> Result<Vec<Cmd>, ScenarioFault>
    ensures { MapsResult (λ s. (map cmd_of s.items, cursor.new)) result (commands_at MAX_COMMANDS cursor.old) }
{
    let mut script = Vec::new(alloc);
    let mut left = MAX_COMMANDS;
    'commands: while cursor.begins(TokenKind::Name) {
        if left == 0 {
            return Err(crowd(cursor));
        }
        let command = command(alloc, cursor)?;
        script.push(command)?;
        if !cursor.begins(TokenKind::Semi) {
            return Ok(script);
        }
        cursor.advance();
        left -= 1;
    }
    Ok(script)
}

/// The script that all of the tokens are.
#[tactic(auto, unfolding(crate::specs::ScriptReader::only_script_at, crate::specs::ScriptReader::script_at))]
fn only_script(alloc: Global, cursor: &mut Cursor) -> Result<Vec<Cmd>, ScenarioFault>
    ensures { MapsResult (λ s. map cmd_of s.items) result (only_script_at cursor.old) }
{
    let script = script(alloc, cursor)?;
    cursor.value_if(cursor.is_at_end(), script)
}

/// The script of a text, from its tokens.
fn script_of(alloc: Global, text: &str, tokens: &[Token]) -> Result<Vec<Cmd>, ScenarioFault>
    requires { All (IsTokenOf text.now) tokens.now }
    ensures tree { IfOk result (λ s. IsScript (lexemes text.now tokens.now) (map cmd_of s.items)) }
    ensures fault { IfErr result (λ e. e ≢ ScenarioFault.Memory → IsNoScript (reading_of text.now tokens.now) e) }
    ensures kind { IfErr result IsOfSentence }
{
    let mut cursor = Cursor::new(text, tokens);
    only_script(alloc, &mut cursor)
}

/// The script that a text is.
fn script_in(alloc: Global, text: &str) -> Result<Vec<Cmd>, ScenarioFault>
    ensures tree { IfOk result (λ s. IsScriptOf text.now (map cmd_of s.items)) }
    ensures fault { IfErr result (λ e. e ≢ ScenarioFault.Memory → IsScriptFault text.now e) }
    ensures kind { IfErr result IsOfSentence }
{
    let tokens = lex(alloc, text)?;
    script_of(alloc, text, &tokens)
}

/// Reads a script that is the whole text.
///
/// Refusals: `TextTooLong` for a text over 8,388,608 bytes; then the first fault of a token; then
/// the first by place of `Unexpected`, `EndOfText`, `IndexTooLarge`, `ReservedName`,
/// `TooManyCommands` and `TooLongExpression`, at one place that with the smaller number.
pub fn parse_script(alloc: Global, text: &str) -> Result<Vec<Cmd>, ParseFault>
    // What is read is the script that the text is.
    ensures tree { IfOk result (λ s. IsScriptOf text.now (map cmd_of s.items)) }
    // What is refused has this fault.
    ensures fault { IfErr result (λ e. e ≢ ParseFault.Memory → IsScriptFault text.now (from_sentence e)) }
{
    match script_in(alloc, text) {
        Ok(script) => Ok(script),
        Err(fault) => Err(of_sentence(fault)),
    }
}

/// A script and the closing brace after it.
#[tactic(auto, unfolding(crate::specs::ScriptReader::closed_script_at, crate::specs::ScriptReader::script_at))]
pub(crate) fn closed_script(alloc: Global, cursor: &mut Cursor) -> Result<Vec<Cmd>, ScenarioFault>
    ensures { MapsResult (λ s. (map cmd_of s.items, cursor.new)) result (closed_script_at cursor.old) }
{
    let commands = script(alloc, cursor)?;
    cursor.mark(TokenKind::BraceR)?;
    Ok(commands)
}

/// The script that a prefix of the tokens is, and the number of tokens after its closing brace.
fn closed_before(
    alloc: Global,
    text: &str,
    tokens: &[Token],
) -> Result<(Vec<Cmd>, usize), ScenarioFault>
    requires { All (IsTokenOf text.now) tokens.now }
    ensures tree { IfOk result (λ x. IsAhead IsClosedScript (lexemes text.now tokens.now) (map cmd_of x.0.items) x.1) }
    ensures fewer { IfOk result (λ x. x.1 < length tokens.now) }
    ensures fault { IfErr result (λ e. e ≢ ScenarioFault.Memory → IsNoScriptAhead (reading_of text.now tokens.now) e) }
    ensures kind { IfErr result IsOfSentence }
{
    let mut cursor = Cursor::new(text, tokens);
    let script = closed_script(alloc, &mut cursor)?;
    Ok((script, cursor.left()))
}

/// Reads the script whose first token has the number `from`, and returns the number of the token after
/// it, which is a closing brace. It is offered to callers; the program has none.
///
/// Refusals: the first by place of `Unexpected`, `EndOfText`, `IndexTooLarge`, `ReservedName`,
/// `TooManyCommands` and `TooLongExpression`, at one place that with the smaller number.
pub fn script_at(
    alloc: Global,
    text: &str,
    tokens: &[Token],
    from: usize,
) -> Result<(Vec<Cmd>, usize), ParseFault>
    requires lexed { All (IsTokenOf text.now) tokens.now }
    requires within { from ≤ length tokens.now }
    // What is read is the script that these tokens are, up to its brace.
    ensures tree { IfOk result (λ x. IsScriptAt text.now tokens.now from (map cmd_of x.0.items) x.1) }
    // Where it refuses, no script with a brace begins there, and this is the fault.
    ensures fault { IfErr result (λ e. e ≢ ParseFault.Memory
        → IsScriptFaultAt text.now tokens.now from (from_sentence e)) }
{
    match closed_before(alloc, text, &tokens[from..]) {
        Ok((script, left)) => Ok((script, tokens.len() - left - 1)),
        Err(fault) => Err(of_sentence(fault)),
    }
}
