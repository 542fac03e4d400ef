//! The lexer: the tokens of a text, or its lexical fault. The readers of texts begin with it.

ghost use Rattle.std.specs.Prelude.{◌≡◌, ◌≢◌, ◌+◌, ◌<◌, ◌≤◌, ℕ, length, All, IfOk, IfErr, IfSome, IfNone, Some};
ghost use Rattle.std.specs.List.{prefix_len};
ghost use Rattle.jc_rules.specs.declared.limits.TheConstants.{MAX_TEXT};
ghost use Rattle.jc_syntax.specs.Bytes as spec;
ghost use Rattle.jc_syntax.specs.Lexemes.{after_blanks, kind_at, IsLexeme, IsTokenOf, IsLexFault, AreTokensOf, IsFaultOf, RunEndsAt, IsTokenEnd};

use crate::extent::{extent_of, is_name_start, limit_of, number_run};
use crate::fault::LexFault;
use crate::piece::byte_at;
use crate::token::{Token, TokenKind};
use jc_rules::limits::MAX_TEXT;
use std::alloc::Global;

fn is_blank(byte: u8) -> bool
    ensures { result ≡ spec.is_blank_byte byte }
{
    byte == b' ' || byte == b'\t' || byte == b'\r' || byte == b'\n'
}

fn blank_run(bytes: &[u8]) -> usize
    ensures run { result ≡ prefix_len spec.is_blank_byte bytes.now }
    ensures within { result ≤ length bytes.now }
{
    bytes.iter().take_while(|b| is_blank(**b)).count()
}

/// The offset of the first byte from `at` on that is no blank, or the end.
fn skip_blanks(bytes: &[u8], at: usize) -> usize
    requires { at ≤ length bytes.now }
    ensures place { result ≡ after_blanks bytes.now at }
    ensures from { at ≤ result }
    ensures within { result ≤ length bytes.now }
{
    at + blank_run(&bytes[at..])
}

/// The kind of the token that begins at `at`, if one does.
fn kind_at(bytes: &[u8], at: usize) -> Option<TokenKind>
    requires { at < length bytes.now }
    ensures { result ≡ kind_at bytes.now at }
{
    Some(match bytes[at] {
        byte if is_name_start(byte) => TokenKind::Name,
        b'0'..=b'9' | b'-' => TokenKind::Number,
        b'"' => TokenKind::Str,
        b'.' => TokenKind::Dot,
        b'(' => TokenKind::ParenL,
        b')' => TokenKind::ParenR,
        b'{' => TokenKind::BraceL,
        b'}' => TokenKind::BraceR,
        b'[' => TokenKind::BracketL,
        b']' => TokenKind::BracketR,
        b',' => TokenKind::Comma,
        b';' => TokenKind::Semi,
        b'=' => TokenKind::Equals,
        b':' if byte_at(bytes, at + 1) == b'=' => TokenKind::Assign,
        _ => return None,
    })
}

/// The token that begins at `at`.
fn token_at(bytes: &[u8], at: usize) -> Result<Token, LexFault>
    requires inside { at < length bytes.now }
    requires room { length bytes.now ≤ MAX_TEXT }
    ensures token { IfOk result (λ t. (t.start ≡ at) × IsLexeme bytes.now t) }
    ensures inside { IfOk result (λ t. t.stop ≤ length bytes.now) }
    ensures fault { IfErr result (IsLexFault bytes.now at) }
{
    let Some(kind) = kind_at(bytes, at) else {
        return Err(LexFault::BadByte { place: at });
    };
    let extent = extent_of(kind, bytes, at)?;
    if extent.size > limit_of(kind) {
        return Err(LexFault::TextTooLong { place: at });
    }
    Ok(Token {
        kind,
        start: at as u32,
        stop: extent.stop as u32,
    })
}

/// The tokens of a text.
///
/// Refusals: `TextTooLong` for a text over 8,388,608 bytes, at that offset; then the first fault from the
/// left. `BadByte` is at a byte that begins no token. In a string the first of `BadByte`, `BadEscape` and
/// `LoneSurrogate` comes before `OpenString`, and that before `TextTooLong` for more than 65,535 bytes
/// that it spells. `BadNumber` comes before `TextTooLong` for a number over 65,535 bytes. A name over 255
/// bytes is `TextTooLong`.
pub fn lex(alloc: Global, text: &str) -> Result<Vec<Token>, LexFault>
    ensures tokens { IfOk result (λ v. AreTokensOf text.now v.items) }
    ensures each { IfOk result (λ v. All (IsTokenOf text.now) v.items) }
    ensures fault { IfErr result (λ e. e ≢ LexFault.Memory → IsFaultOf text.now e) }
{
    let bytes = text.as_bytes();
    if bytes.len() > MAX_TEXT {
        return Err(LexFault::TextTooLong { place: MAX_TEXT });
    }
    let mut tokens = Vec::new(alloc);
    let mut at = skip_blanks(bytes, 0);
    'tokens: while at < bytes.len() {
        let token = token_at(bytes, at)?;
        tokens.push(token)?;
        at = skip_blanks(bytes, token.stop as usize);
    }
    Ok(tokens)
}

/// The offset behind what begins like a token of this kind, if it is one; a number's run need not be a JSON number.
fn run_end(kind: TokenKind, text: &[u8], at: usize) -> Option<usize>
    requires begins { kind_at text.now at ≡ Some kind }
    requires inside { at < length text.now }
    requires room { length text.now ≤ MAX_TEXT }
    ensures end { IfSome result (RunEndsAt kind text.now at) }
    ensures none { IfNone result ((stop : ℕ) → RunEndsAt kind text.now at stop → ⊥) }
    ensures inside { IfSome result (λ stop. stop ≤ length text.now) }
{
    if let TokenKind::Number = kind {
        return Some(at + number_run(&text[at..]));
    }
    match extent_of(kind, text, at) {
        Ok(extent) => Some(extent.stop),
        Err(_) => None,
    }
}

/// The offset behind the token that begins at `at`, be it within its limit or not. A number's run need not be a JSON
/// number. There is none where no token begins, where a string is malformed, and in a text of more than 8,388,608 bytes.
pub fn token_end(text: &[u8], at: usize) -> Option<usize>
    ensures end { IfSome result (IsTokenEnd text.now at) }
    ensures only { IfSome result (λ stop. (other : ℕ) → IsTokenEnd text.now at other → other ≡ stop) }
    ensures none { IfNone result ((stop : ℕ) → IsTokenEnd text.now at stop → ⊥) }
    ensures inside { IfSome result (λ stop. stop ≤ length text.now) }
{
    if at >= text.len() || text.len() > MAX_TEXT {
        return None;
    }
    let kind = kind_at(text, at)?;
    run_end(kind, text, at)
}
