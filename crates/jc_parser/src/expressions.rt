//! Readers of expressions, which scripts and lone expressions are read with.

ghost use Rattle.std.specs.Prelude.{◌≡◌, ◌≢◌, IfOk, IfErr, All, true, false};
ghost use Rattle.jc_rules.specs.declared.limits.TheConstants.{MAX_SELECTORS};
ghost use Rattle.jc_syntax.specs.Trees.{expr_of};
ghost use Rattle.jc_syntax.specs.Lexemes.{IsTokenOf};
ghost use Rattle.jc_parser.specs.ReaderState.{MapsResult, reading_of};
ghost use Rattle.jc_parser.specs.Expressions.{IsExpression, IsNoExpression, IsExpressionOf, IsExpressionFault};
ghost use Rattle.jc_parser.specs.ExpressionReader.{extended, key_selector_at, index_selector_at, plain_selector_at, step_at, chain_at, doc_at, variable_at, root_at, expression_at, only_expression_at};
ghost use Rattle.jc_grammar.specs.Symbols.{lexemes};
ghost use Rattle.jc_parser.specs.Faults.{from_sentence, IsOfSentence};
ghost use Rattle.jc_parser.specs.Views.{selector_view, chain_view};

use crate::cursor::Cursor;
use crate::fault::ScenarioFault;
use crate::parse_fault::{ParseFault, of_sentence};
use crate::parts::{get, name};
use jc_rules::Text;
use jc_rules::limits::MAX_SELECTORS;
use jc_syntax::{Expr, Token, TokenKind, lex};
use std::alloc::{AllocError, Global};

/// A selector.
#[derive(Drop)]
enum Selector {
    Get(Text),
    Idx(u32),
    Keys,
    Values,
}

/// An expression, and whether the dot after it was taken.
#[derive(Drop)]
pub(crate) struct Chain {
    pub(crate) expression: Expr,
    pub(crate) dotted: bool,
}

/// A selector `get`, from its word on.
#[tactic(auto, unfolding(crate::specs::ExpressionReader::key_selector_at))]
fn key_selector(alloc: Global, cursor: &mut Cursor) -> Result<Selector, ScenarioFault>
    ensures { MapsResult (λ s. (selector_view s, cursor.new)) result (key_selector_at cursor.old) }
{
    let key = get(alloc, cursor)?;
    Ok(Selector::Get(key))
}

/// A selector `idx`, from its word on.
#[tactic(auto, unfolding(crate::specs::ExpressionReader::index_selector_at))]
fn index_selector(cursor: &mut Cursor) -> Result<Selector, ScenarioFault>
    ensures { MapsResult (λ s. (selector_view s, cursor.new)) result (index_selector_at cursor.old) }
{
    cursor.word("idx")?;
    cursor.mark(TokenKind::ParenL)?;
    let index = cursor.index()?;
    cursor.mark(TokenKind::ParenR)?;
    Ok(Selector::Idx(index))
}

/// A selector, from its word on.
#[tactic(auto, unfolding(crate::specs::ExpressionReader::step_at))]
fn step(alloc: Global, cursor: &mut Cursor) -> Result<Selector, ScenarioFault>
    ensures { MapsResult (λ s. (selector_view s, cursor.new)) result (step_at cursor.old) }
{
    if cursor.begins_word("get") {
        return key_selector(alloc, cursor);
    }
    if cursor.begins_word("idx") {
        return index_selector(cursor);
    }
    if cursor.begins_word("keys") {
        cursor.advance();
        return Ok(Selector::Keys);
    }
    cursor.word("values")?;
    Ok(Selector::Values)
}

/// The expression, extended by one selector.
fn extend(alloc: Global, from: Expr, selector: Selector) -> Result<Expr, AllocError>
    ensures { IfOk result (λ e. expr_of e ≡ extended (expr_of from) (selector_view selector)) }
{
    let from = Box::new(alloc, from)?;
    Ok(match selector {
        Selector::Get(key) => Expr::Get(from, key),
        Selector::Idx(index) => Expr::Idx(from, index),
        Selector::Keys => Expr::Keys(from),
        Selector::Values => Expr::Values(from),
    })
}

/// The root, extended by the selectors that follow.
// `drop` is a call: `?` would drop the expression variant by variant, which is dear to prove.
pub(crate) fn follow(alloc: Global, cursor: &mut Cursor, root: Expr) -> Result<Chain, ScenarioFault>
    ensures { MapsResult (λ c. (chain_view c, cursor.new)) result (chain_at MAX_SELECTORS (expr_of root) cursor.old) }
{
    let mut expression = root;
    let mut left = MAX_SELECTORS;
    'selectors: while cursor.begins(TokenKind::Dot) {
        let place = cursor.place();
        cursor.advance();
        if !cursor.begins_selector() {
            return Ok(Chain {
                expression,
                dotted: true,
            });
        }
        if left == 0 {
            drop(expression);
            return Err(ScenarioFault::TooLongExpression { place });
        }
        let selector = match step(alloc, cursor) {
            Ok(selector) => selector,
            Err(fault) => {
                drop(expression);
                return Err(fault);
            }
        };
        expression = extend(alloc, expression, selector)?;
        left -= 1;
    }
    Ok(Chain {
        expression,
        dotted: false,
    })
}

/// `doc` or a variable.
#[tactic(auto, unfolding(crate::specs::ExpressionReader::root_at, crate::specs::ExpressionReader::doc_at, crate::specs::ExpressionReader::variable_at))]
pub(crate) fn root(alloc: Global, cursor: &mut Cursor) -> Result<Expr, ScenarioFault>
    ensures { MapsResult (λ e. (expr_of e, cursor.new)) result (root_at cursor.old) }
{
    if cursor.begins_word("doc") {
        cursor.advance();
        return Ok(Expr::Doc);
    }
    let name = name(alloc, cursor)?;
    Ok(Expr::Var(name))
}

/// An expression.
#[tactic(auto, unfolding(crate::specs::ExpressionReader::expression_at))]
pub(crate) fn expression(alloc: Global, cursor: &mut Cursor) -> Result<Expr, ScenarioFault>
    ensures { MapsResult (λ e. (expr_of e, cursor.new)) result (expression_at cursor.old) }
{
    let root = root(alloc, cursor)?;
    let chain = follow(alloc, cursor, root)?;
    cursor.value_if(!chain.dotted, chain.expression)
}

/// The expression that all of the tokens are.
#[tactic(auto, unfolding(crate::specs::ExpressionReader::only_expression_at))]
fn only_expression(alloc: Global, cursor: &mut Cursor) -> Result<Expr, ScenarioFault>
    ensures { MapsResult expr_of result (only_expression_at cursor.old) }
{
    let expression = expression(alloc, cursor)?;
    cursor.value_if(cursor.is_at_end(), expression)
}

/// The expression of a text, from its tokens.
fn expression_of(alloc: Global, text: &str, tokens: &[Token]) -> Result<Expr, ScenarioFault>
    requires { All (IsTokenOf text.now) tokens.now }
    ensures tree { IfOk result (λ e. IsExpression (lexemes text.now tokens.now) (expr_of e)) }
    ensures fault { IfErr result (λ e. e ≢ ScenarioFault.Memory → IsNoExpression (reading_of text.now tokens.now) e) }
    ensures kind { IfErr result IsOfSentence }
{
    let mut cursor = Cursor::new(text, tokens);
    only_expression(alloc, &mut cursor)
}

/// The expression that a text is.
fn expression_in(alloc: Global, text: &str) -> Result<Expr, ScenarioFault>
    ensures tree { IfOk result (λ e. IsExpressionOf text.now (expr_of e)) }
    ensures fault { IfErr result (λ e. e ≢ ScenarioFault.Memory → IsExpressionFault text.now e) }
    ensures kind { IfErr result IsOfSentence }
{
    let tokens = lex(alloc, text)?;
    expression_of(alloc, text, &tokens)
}

/// Reads an expression that is the whole text.
///
/// Refusals: `TextTooLong` for a text over 8,388,608 bytes; then the first fault of a token; then
/// the first by place of `Unexpected`, `EndOfText`, `IndexTooLarge`, `ReservedName` and
/// `TooLongExpression`, at one place that with the smaller number.
pub fn parse_expr(alloc: Global, text: &str) -> Result<Expr, ParseFault>
    // What is read is the expression that the text is.
    ensures tree { IfOk result (λ e. IsExpressionOf text.now (expr_of e)) }
    // What is refused has this fault.
    ensures fault { IfErr result (λ e. e ≢ ParseFault.Memory → IsExpressionFault text.now (from_sentence e)) }
{
    match expression_in(alloc, text) {
        Ok(expression) => Ok(expression),
        Err(fault) => Err(of_sentence(fault)),
    }
}
