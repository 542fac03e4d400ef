//! Readers of events. `scenarios` reads blocks with them, and sessions read lone events; version 2 alone has `take`.

ghost use Rattle.std.specs.Prelude.{◌≡◌, ◌≢◌, ◌≤◌, IfOk, IfErr, All, length};
ghost use Rattle.jc_syntax.specs.Lexemes.{IsTokenOf};
ghost use Rattle.jc_grammar.specs.Symbols.{lexemes};
ghost use Rattle.jc_parser.specs.ReaderState.{MapsResult, reading_of};
ghost use Rattle.jc_parser.specs.Events.{IsEvent, IsNoEvent, IsEventOf, IsEventFault, IsNoEventAhead, IsEventAt, IsEventFaultAt};
ghost use Rattle.jc_parser.specs.EventReader.{last_name_at, sender_at, last_identifier_at, taking_at, application_at, common_action_at, action_at, any_event_at, only_event_at};
ghost use Rattle.jc_parser.specs.Sentences.{IsAhead};
ghost use Rattle.jc_parser.specs.Faults.{from_sentence, IsOfSentence};

use crate::cursor::Cursor;
use crate::fault::ScenarioFault;
use crate::parse_fault::{ParseFault, of_sentence};
use jc_rules::Version;
use jc_syntax::{Named, NamedEvent, Token, TokenKind, lex};
use std::alloc::Global;

/// A name and the closing parenthesis.
#[tactic(auto, unfolding(crate::specs::EventReader::last_name_at))]
fn last_name(alloc: Global, cursor: &mut Cursor) -> Result<Named, ScenarioFault>
    ensures { MapsResult (λ n. (n, cursor.new)) result (last_name_at cursor.old) }
{
    let name = cursor.name(alloc)?;
    cursor.mark(TokenKind::ParenR)?;
    Ok(name)
}

/// The sender of `recv`, from its word on.
#[tactic(auto, unfolding(crate::specs::EventReader::sender_at))]
fn sender(alloc: Global, cursor: &mut Cursor) -> Result<Named, ScenarioFault>
    ensures { MapsResult (λ n. (n, cursor.new)) result (sender_at cursor.old) }
{
    cursor.word("recv")?;
    cursor.mark(TokenKind::ParenL)?;
    last_name(alloc, cursor)
}

/// An identifier and the closing parenthesis.
#[tactic(auto, unfolding(crate::specs::EventReader::last_identifier_at))]
fn last_identifier(alloc: Global, cursor: &mut Cursor) -> Result<(u32, Named), ScenarioFault>
    ensures { MapsResult (λ i. (i, cursor.new)) result (last_identifier_at cursor.old) }
{
    let counter = cursor.index()?;
    cursor.mark(TokenKind::Comma)?;
    let author = last_name(alloc, cursor)?;
    Ok((counter, author))
}

/// The event `take` of a replica, from its word on.
#[tactic(auto, unfolding(crate::specs::EventReader::taking_at))]
fn taking(alloc: Global, cursor: &mut Cursor, replica: Named) -> Result<NamedEvent, ScenarioFault>
    ensures { MapsResult (λ e. (e, cursor.new)) result (taking_at replica cursor.old) }
{
    cursor.word("take")?;
    cursor.mark(TokenKind::ParenL)?;
    let sender = cursor.name(alloc)?;
    cursor.mark(TokenKind::Comma)?;
    let (counter, author) = last_identifier(alloc, cursor)?;
    Ok(NamedEvent::Take {
        replica,
        sender,
        counter,
        author,
    })
}

/// The event `apply` of a replica, from its word on.
#[tactic(auto, unfolding(crate::specs::EventReader::application_at))]
fn application(
    alloc: Global,
    cursor: &mut Cursor,
    replica: Named,
) -> Result<NamedEvent, ScenarioFault>
    ensures { MapsResult (λ e. (e, cursor.new)) result (application_at replica cursor.old) }
{
    cursor.word("apply")?;
    cursor.mark(TokenKind::ParenL)?;
    let (counter, author) = last_identifier(alloc, cursor)?;
    Ok(NamedEvent::Apply {
        replica,
        counter,
        author,
    })
}

/// An event that each version has, of a replica, after its dot.
#[tactic(auto, unfolding(crate::specs::EventReader::common_action_at))]
fn common_action(
    alloc: Global,
    cursor: &mut Cursor,
    replica: Named,
) -> Result<NamedEvent, ScenarioFault>
    ensures { MapsResult (λ e. (e, cursor.new)) result (common_action_at replica cursor.old) }
{
    if cursor.begins_word("exec") {
        cursor.advance();
        return Ok(NamedEvent::Exec(replica));
    }
    if cursor.begins_word("send") {
        cursor.advance();
        return Ok(NamedEvent::Send(replica));
    }
    if cursor.begins_word("recv") {
        let sender = sender(alloc, cursor)?;
        return Ok(NamedEvent::Recv(replica, sender));
    }
    if cursor.begins_word("apply") {
        return application(alloc, cursor, replica);
    }
    cursor.word("done")?;
    Ok(NamedEvent::Done(replica))
}

/// The event of a replica, after its dot.
#[tactic(auto, unfolding(crate::specs::EventReader::action_at))]
fn action(
    alloc: Global,
    version: Version,
    cursor: &mut Cursor,
    replica: Named,
) -> Result<NamedEvent, ScenarioFault>
    ensures { MapsResult (λ e. (e, cursor.new)) result (action_at version replica cursor.old) }
{
    match version {
        Version::One => common_action(alloc, cursor, replica),
        Version::Two => {
            if cursor.begins_word("take") {
                return taking(alloc, cursor, replica);
            }
            common_action(alloc, cursor, replica)
        }
    }
}

/// An event.
#[tactic(auto, unfolding(crate::specs::EventReader::any_event_at))]
pub(crate) fn event(
    alloc: Global,
    version: Version,
    cursor: &mut Cursor,
) -> Result<NamedEvent, ScenarioFault>
    ensures { MapsResult (λ e. (e, cursor.new)) result (any_event_at version cursor.old) }
{
    let replica = cursor.name(alloc)?;
    cursor.mark(TokenKind::Dot)?;
    action(alloc, version, cursor, replica)
}

/// The event that all of the tokens are.
#[tactic(auto, unfolding(crate::specs::EventReader::only_event_at))]
fn only_event(
    alloc: Global,
    version: Version,
    cursor: &mut Cursor,
) -> Result<NamedEvent, ScenarioFault>
    ensures { MapsResult (λ e. e) result (only_event_at version cursor.old) }
{
    let event = event(alloc, version, cursor)?;
    cursor.value_if(cursor.is_at_end(), event)
}

/// The event of a text, from its tokens.
fn event_of(
    alloc: Global,
    version: Version,
    text: &str,
    tokens: &[Token],
) -> Result<NamedEvent, ScenarioFault>
    requires { All (IsTokenOf text.now) tokens.now }
    ensures tree { IfOk result (λ e. IsEvent version (lexemes text.now tokens.now) e) }
    ensures fault { IfErr result (λ e. e ≢ ScenarioFault.Memory → IsNoEvent version (reading_of text.now tokens.now) e) }
    ensures kind { IfErr result IsOfSentence }
{
    let mut cursor = Cursor::new(text, tokens);
    only_event(alloc, version, &mut cursor)
}

/// The event that a text is.
fn event_in(alloc: Global, version: Version, text: &str) -> Result<NamedEvent, ScenarioFault>
    ensures tree { IfOk result (λ e. IsEventOf version text.now e) }
    ensures fault { IfErr result (λ e. e ≢ ScenarioFault.Memory → IsEventFault version text.now e) }
    ensures kind { IfErr result IsOfSentence }
{
    let tokens = lex(alloc, text)?;
    event_of(alloc, version, text, &tokens)
}

/// Reads an event of a version that is the whole text. Names of replicas are not looked up.
///
/// Refusals: `TextTooLong` for a text over 8,388,608 bytes; then the first fault of a token; then
/// the first by place of `Unexpected`, `EndOfText` and `IndexTooLarge`, at one place that with the
/// smaller number.
pub fn parse_event(alloc: Global, version: Version, text: &str) -> Result<NamedEvent, ParseFault>
    // What is read is the event that the text is, each name with its offset.
    ensures tree { IfOk result (λ e. IsEventOf version text.now e) }
    // What is refused has this fault.
    ensures fault { IfErr result (λ e. e ≢ ParseFault.Memory → IsEventFault version text.now (from_sentence e)) }
{
    match event_in(alloc, version, text) {
        Ok(event) => Ok(event),
        Err(fault) => Err(of_sentence(fault)),
    }
}

/// The event that a prefix of the tokens is, and the number of tokens after it.
fn event_before(
    alloc: Global,
    version: Version,
    text: &str,
    tokens: &[Token],
) -> Result<(NamedEvent, usize), ScenarioFault>
    requires { All (IsTokenOf text.now) tokens.now }
    ensures tree { IfOk result (λ x. IsAhead (IsEvent version) (lexemes text.now tokens.now) x.0 x.1) }
    ensures fault { IfErr result (λ e. e ≢ ScenarioFault.Memory
        → IsNoEventAhead version (reading_of text.now tokens.now) e) }
    ensures kind { IfErr result IsOfSentence }
{
    let mut cursor = Cursor::new(text, tokens);
    let event = event(alloc, version, &mut cursor)?;
    Ok((event, cursor.left()))
}

/// Reads the event of a version whose first token has the number `from`, and returns the number of the
/// token after it. Names of replicas are not looked up. It is offered to callers; the program has none.
///
/// Refusals: the first by place of `Unexpected`, `EndOfText` and `IndexTooLarge`.
pub fn event_at(
    alloc: Global,
    version: Version,
    text: &str,
    tokens: &[Token],
    from: usize,
) -> Result<(NamedEvent, usize), ParseFault>
    requires lexed { All (IsTokenOf text.now) tokens.now }
    requires within { from ≤ length tokens.now }
    // What is read is the event that these tokens are, each name with its offset.
    ensures tree { IfOk result (λ x. IsEventAt version text.now tokens.now from x.0 x.1) }
    // Where it refuses, no event begins there, and this is the fault.
    ensures fault { IfErr result (λ e. e ≢ ParseFault.Memory
        → IsEventFaultAt version text.now tokens.now from (from_sentence e)) }
{
    match event_before(alloc, version, text, &tokens[from..]) {
        Ok((event, left)) => Ok((event, tokens.len() - left)),
        Err(fault) => Err(of_sentence(fault)),
    }
}
