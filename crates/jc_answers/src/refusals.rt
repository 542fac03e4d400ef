//! Refusals, as answers: those of a text with the place of what is refused.

ghost use Rattle.std.specs.Prelude.{◌≡◌, ◌<◌, ◌≤◌, ◌+◌, ◌^◌, ℕ, List, IfOk, length};
ghost use Rattle.std.specs.List.{prefix_len};
ghost use Rattle.jc_answers.specs.declared.refusals.Extent.TheVariants.{Token};
ghost use Rattle.jc_answers.specs.Parts.{member_of, members_of, next_line, next_column, IsBehind};
ghost use Rattle.jc_answers.specs.Refusals as spec;
ghost use Rattle.jc_answers.specs.Refusals.{refused_object, refusal_answer, extent_of, after_character, EndsWith, EndsAt, IsRefusedTextWith, IsRefusedText};

use crate::objects::{Member, object_text};
use jc_rules::Refusal;
use jc_rules::limits::MAX_TEXT;
use jc_syntax::token_end;
use std::alloc::{AllocError, Global};

// ---- positions

/// A line of a text and a column in it, from 1.
#[derive(Clone, Copy)]
struct Position {
    line: u64,
    column: u64,
}

fn is_lf(byte: u8) -> bool
    ensures { result ≡ spec.is_lf byte }
{
    byte == b'\n'
}

/// Whether the byte goes on with a character.
fn is_continuation(byte: u8) -> bool
    ensures { result ≡ spec.is_continuation byte }
{
    byte >= 0x80 && byte < 0xC0
}

fn next_line(line: u64, byte: u8) -> u64
    requires { line < 2 ^ 63 }
    ensures line { result ≡ next_line line byte }
    ensures bound { result ≤ line + 1 }
{
    if is_lf(byte) { line + 1 } else { line }
}

fn next_column(column: u64, byte: u8) -> u64
    requires { column < 2 ^ 63 }
    ensures column { result ≡ next_column column byte }
    ensures bound { result ≤ column + 1 }
{
    if is_lf(byte) {
        1
    } else if is_continuation(byte) {
        column
    } else {
        column + 1
    }
}

/// The position behind these bytes of a text.
fn position_behind(before: &[u8]) -> Position
    ensures { IsBehind result before.now }
{
    let mut line = 1;
    let mut column = 1;
    for byte in before {
        line = next_line(line, *byte);
        column = next_column(column, *byte);
    }
    Position { line, column }
}

// ---- ends

/// What is refused at an offset: a token or a number's run, an escape of six bytes, a character, or a byte.
#[derive(Clone, Copy)]
enum Extent {
    Token,
    Escape,
    Character,
    Byte,
}

fn extent_of(refusal: Refusal, at: usize) -> Extent
    ensures { result ≡ extent_of refusal at }
{
    match refusal {
        Refusal::LoneSurrogate => Extent::Escape,
        Refusal::TextTooLong => {
            if at < MAX_TEXT {
                Extent::Token
            } else {
                Extent::Byte
            }
        }
        Refusal::BadNumber
        | Refusal::Unexpected
        | Refusal::IndexTooLarge
        | Refusal::ReservedName
        | Refusal::TooManyCommands
        | Refusal::TooLongExpression
        | Refusal::NoHeader
        | Refusal::SameName
        | Refusal::NoReplica
        | Refusal::TooManyReplicas
        | Refusal::UnknownReplica
        | Refusal::TooManyEvents => Extent::Token,
        _ => Extent::Character,
    }
}

fn continuation_run(bytes: &[u8]) -> usize
    ensures run { result ≡ prefix_len spec.is_continuation bytes.now }
    ensures within { result ≤ length bytes.now }
{
    bytes.iter().take_while(|b| is_continuation(**b)).count()
}

fn after_character(text: &[u8], at: usize) -> usize
    requires { at < length text.now }
    ensures { result ≡ after_character text.now at }
{
    at + 1 + continuation_run(&text[at + 1..])
}

/// The offset behind the token at an offset, or behind the character where no token begins.
fn after_token(text: &[u8], at: usize) -> usize
    requires { at < length text.now }
    ensures { EndsWith Token text.now at result }
{
    match token_end(text, at) {
        Some(stop) => stop,
        None => after_character(text, at),
    }
}

/// The offset behind what is refused at an offset of the text.
fn end_within(text: &[u8], refusal: Refusal, at: usize) -> usize
    requires { at < length text.now }
    ensures { EndsWith (extent_of refusal at) text.now at result }
{
    match extent_of(refusal, at) {
        Extent::Token => after_token(text, at),
        Extent::Escape => at + 6,
        Extent::Character => after_character(text, at),
        Extent::Byte => at + 1,
    }
}

/// The same, also at the text's end.
fn end_of(text: &[u8], refusal: Refusal, at: usize) -> usize
    ensures { EndsAt refusal text.now at result }
{
    if at < text.len() {
        end_within(text, refusal, at)
    } else {
        at
    }
}

// ---- answers

/// The object whose one member is the object of a refusal.
fn refused_with(alloc: Global, members: &[Member<'_>]) -> Result<Vec<u8>, AllocError>
    ensures { IfOk result (λ answer. answer.items ≡ refused_object (members_of members.now)) }
{
    let refusal = object_text(alloc, members)?;
    object_text(alloc, &[Member::text("refused", refusal.as_slice())])
}

/// The answer of a refusal without a place. Refused for want of memory alone.
pub fn refused(alloc: Global, refusal: Refusal) -> Result<Vec<u8>, AllocError>
    ensures { IfOk result (λ answer. answer.items ≡ refusal_answer refusal) }
{
    refused_with(
        alloc,
        &[
            Member::string("name", refusal.name()),
            Member::number("number", refusal.number() as u64),
        ],
    )
}

/// The answer that refuses a text at an offset, with one member more behind the end. The text need not be UTF-8. Of one
/// that is too long any bytes from the first 8,388,609 on may be left out: the answer stays the same. Refused for want of
/// memory alone.
pub fn refused_text_with(
    alloc: Global,
    text: &[u8],
    refusal: Refusal,
    place: usize,
    more: Member<'_>,
) -> Result<Vec<u8>, AllocError>
    ensures is { IfOk result (λ answer. IsRefusedTextWith (member_of more.entry) text.now refusal place answer.items) }
    ensures only { IfOk result (λ answer. (other : List ℕ)
        → IsRefusedTextWith (member_of more.entry) text.now refusal place other
        → other ≡ answer.items) }
{
    let position = position_behind(&text[..place.min(text.len())]);
    let end = end_of(text, refusal, place);
    let members = [
        Member::number("column", position.column),
        Member::number("end", end as u64),
        more,
        Member::number("line", position.line),
        Member::string("name", refusal.name()),
        Member::number("number", refusal.number() as u64),
        Member::number("offset", place as u64),
    ];
    refused_with(alloc, &members)
}

/// The answer that refuses a text at an offset. Refused for want of memory alone.
pub fn refused_text(
    alloc: Global,
    text: &[u8],
    refusal: Refusal,
    place: usize,
) -> Result<Vec<u8>, AllocError>
    ensures is { IfOk result (λ answer. IsRefusedText text.now refusal place answer.items) }
    ensures only { IfOk result (λ answer. (other : List ℕ)
        → IsRefusedText text.now refusal place other
        → other ≡ answer.items) }
{
    refused_text_with(alloc, text, refusal, place, Member::absent())
}
