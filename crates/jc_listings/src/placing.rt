//! Where the blocks of a scenario's text are, and in them the commands and events.

ghost use Rattle.std.specs.Prelude.{◌≡◌, ◌≢◌, ◌+◌, ◌++◌, List, true, false, length, map, option_map, All, IfOk};
ghost use Rattle.jc_syntax.specs.declared.token.Token.{Token as AnyToken};
ghost use Rattle.jc_syntax.specs.declared.token.TokenKind.TheVariants.{Semi, BraceR};
ghost use Rattle.jc_syntax.specs.Lexemes.{IsTokenOf};
ghost use Rattle.jc_scenario.specs.WellFormed.{Scenario as AnyScenario, IsScenario};
ghost use Rattle.jc_answers.specs.JsonTexts.{array_text};
ghost use Rattle.jc_listings.specs.Places.{Block as AnyBlock, AreInside, AreBlocks, span_answer, block_text, block_answer, IsPlaces};
ghost use Rattle.jc_listings.specs.PlaceParts.{EndsItem, BeginsWithItems, BeginsWithBlock};

use jc_answers::{ArrayText, Member, object_text};
use jc_syntax::{Token, TokenKind, lex, slice_of};
use std::alloc::{AllocError, Global};

/// What some tokens are, as the text of a value, and how many these are.
#[derive(Drop)]
struct Placed {
    text: Vec<u8>,
    len: usize,
}

/// Whether the token is a `;`.
fn is_semi(token: &Token) -> bool
    ensures yes { result ≡ true → token.now.kind ≡ Semi }
    ensures not { result ≡ false → token.now.kind ≢ Semi }
{
    matches!(token.kind, TokenKind::Semi)
}

/// Whether the token is a `}`.
fn is_close(token: &Token) -> bool
    ensures yes { result ≡ true → token.now.kind ≡ BraceR }
    ensures not { result ≡ false → token.now.kind ≢ BraceR }
{
    matches!(token.kind, TokenKind::BraceR)
}

/// How many tokens the command or event has with which they begin. No `;` is among them, and of braces those of `{}`
/// alone.
fn item_len(tokens: &[Token]) -> usize
    ensures { (inside rest : List AnyToken)
        → tokens.now ≡ inside ++ rest
        → AreInside inside
        → EndsItem rest
        → result ≡ length inside }
{
    let mut len = 0;
    'tokens: while len < tokens.len() {
        match tokens[len].kind {
            TokenKind::Semi | TokenKind::BraceR => return len,
            TokenKind::BraceL => len += 2,
            _ => len += 1,
        }
    }
    len
}

/// A list of two offsets.
fn span(alloc: Global, start: u32, stop: u32) -> Result<Vec<u8>, AllocError>
    ensures { IfOk result (λ text. text.items ≡ span_answer (start, stop)) }
{
    let mut list = ArrayText::new(alloc)?;
    list.push_number(start as u64)?;
    list.push_number(stop as u64)?;
    list.end()
}

/// A list of the spans of the commands or events with which the tokens begin, up to the brace behind them.
fn items(alloc: Global, tokens: &[Token]) -> Result<Placed, AllocError>
    requires { BeginsWithItems tokens.now }
    ensures text { IfOk result (λ placed. (h : BeginsWithItems tokens.now)
        → placed.text.items ≡ array_text (map span_answer h.spans)) }
    ensures len { IfOk result (λ placed. (h : BeginsWithItems tokens.now) → placed.len ≡ length h.inside) }
{
    let mut spans = ArrayText::new(alloc)?;
    let mut at = 0;
    'items: while !is_close(&tokens[at]) {
        let len = item_len(&tokens[at..]);
        let span = span(alloc, tokens[at].start, tokens[at + len - 1].stop)?;
        spans.push(span.as_slice())?;
        at += len;
        if is_semi(&tokens[at]) {
            at += 1;
        }
    }
    let text = spans.end()?;
    Ok(Placed { text, len: at })
}

/// A block with its span and the list of what is in it.
fn block_text(
    alloc: Global,
    kind: &str,
    name: Option<&str>,
    start: u32,
    stop: u32,
    items: &[u8],
) -> Result<Vec<u8>, AllocError>
    ensures { IfOk result (λ text. text.items
        ≡ block_text kind.now (option_map (λ w. w.now) name.entry) (start, stop) items.now) }
{
    let name = match name {
        Some(name) => Member::string("name", name),
        None => Member::absent(),
    };
    object_text(
        alloc,
        &[
            Member::number("end", stop as u64),
            Member::text("items", items),
            Member::string("kind", kind),
            name,
            Member::number("start", start as u64),
        ],
    )
}

/// A block of which the word begins at an offset, by the tokens behind its first brace.
fn braced(
    alloc: Global,
    kind: &str,
    name: Option<&str>,
    start: u32,
    tokens: &[Token],
) -> Result<Placed, AllocError>
    requires { BeginsWithItems tokens.now }
    ensures text { IfOk result (λ placed. (h : BeginsWithItems tokens.now) → placed.text.items
        ≡ block_text kind.now (option_map (λ w. w.now) name.entry) (start, h.closes.stop) (array_text (map span_answer h.spans))) }
    ensures len { IfOk result (λ placed. (h : BeginsWithItems tokens.now) → placed.len ≡ length h.inside + 1) }
{
    let inside = items(alloc, tokens)?;
    let stop = tokens[inside.len].stop;
    let text = block_text(alloc, kind, name, start, stop, inside.text.as_slice())?;
    Ok(Placed {
        text,
        len: inside.len + 1,
    })
}

/// The block with which the tokens begin.
fn block(alloc: Global, text: &str, tokens: &[Token]) -> Result<Placed, AllocError>
    requires each { All (IsTokenOf text.now) tokens.now }
    requires begins { BeginsWithBlock text.now tokens.now }
    ensures text { IfOk result (λ placed. (h : BeginsWithBlock text.now tokens.now)
        → placed.text.items ≡ block_answer h.block) }
    ensures len { IfOk result (λ placed. (h : BeginsWithBlock text.now tokens.now) → placed.len ≡ length h.own) }
{
    let word = tokens[0];
    let kind = slice_of(text, &word);
    if kind == "replica" {
        let name = slice_of(text, &tokens[1]);
        let behind = braced(alloc, kind, Some(name), word.start, &tokens[3..])?;
        Ok(Placed {
            text: behind.text,
            len: behind.len + 3,
        })
    } else {
        let behind = braced(alloc, kind, None, word.start, &tokens[2..])?;
        Ok(Placed {
            text: behind.text,
            len: behind.len + 2,
        })
    }
}

/// The list of the blocks that the tokens are.
fn blocks(alloc: Global, text: &str, tokens: &[Token]) -> Result<Vec<u8>, AllocError>
    requires each { All (IsTokenOf text.now) tokens.now }
    requires are { (bs : List AnyBlock) × AreBlocks text.now tokens.now bs }
    ensures { IfOk result (λ answer. (bs : List AnyBlock)
        → AreBlocks text.now tokens.now bs
        → answer.items ≡ array_text (map block_answer bs)) }
{
    let mut all = ArrayText::new(alloc)?;
    let mut at = 0;
    'each: while at < tokens.len() {
        let block = block(alloc, text, &tokens[at..])?;
        all.push(block.text.as_slice())?;
        at += block.len;
    }
    all.end()
}

/// The blocks of a scenario's text, as the text of an answer. Refused for want of memory alone.
pub fn places(alloc: Global, text: &[u8]) -> Result<Vec<u8>, AllocError>
    requires { (s : AnyScenario) × IsScenario text.now s }
    ensures { IfOk result (λ answer. IsPlaces text.now answer.items) }
{
    let Ok(text) = std::str::from_utf8(text) else {
        unreachable!();
    };
    let tokens = match lex(alloc, text) {
        Ok(tokens) => tokens,
        Err(fault) => match fault.refusal() {
            None => return Err(AllocError),
            // The text of a scenario has tokens.
            Some(_) => unreachable!(),
        },
    };
    // The first two tokens are the header.
    blocks(alloc, text, &tokens[2..])
}
