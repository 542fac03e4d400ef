//! Where a token of a known kind ends, and its size. The lexer checks the size against the limit of the kind.

ghost use Rattle.std.specs.Prelude.{◌≡◌, ◌+◌, ◌<◌, ◌≤◌, length, IfOk, IfErr, Some};
ghost use Rattle.std.specs.List.{prefix_len};
ghost use Rattle.jc_rules.specs.declared.limits.TheConstants.{MAX_TEXT};
ghost use Rattle.jc_syntax.specs.declared.token.TokenKind.TheVariants.{Name, Number, Str};
ghost use Rattle.jc_syntax.specs.Bytes as spec;
ghost use Rattle.jc_syntax.specs.Strings.{IsStringFault};
ghost use Rattle.jc_syntax.specs.Lexemes.{kind_at, token_limit, LexemeEndsAt, IsMalformed};

use crate::fault::LexFault;
use crate::number::is_number;
use crate::piece::piece_at;
use crate::token::TokenKind;
use jc_rules::limits::{MAX_NAME, MAX_STRING};

/// The offset of a token's end, and its size: its length, or for a string that of what it spells.
#[derive(Clone, Copy)]
pub(crate) struct Extent {
    pub(crate) stop: usize,
    pub(crate) size: usize,
}

pub(crate) fn is_name_start(byte: u8) -> bool
    ensures { result ≡ spec.is_name_start byte }
{
    byte.is_ascii_alphabetic() || byte == b'_'
}

fn is_name_byte(byte: u8) -> bool
    ensures { result ≡ spec.is_name_byte byte }
{
    is_name_start(byte) || byte.is_ascii_digit()
}

fn is_number_byte(byte: u8) -> bool
    ensures { result ≡ spec.is_number_byte byte }
{
    is_name_byte(byte) || byte == b'+' || byte == b'.' || byte == b'-'
}

fn name_run(bytes: &[u8]) -> usize
    ensures run { result ≡ prefix_len spec.is_name_byte bytes.now }
    ensures within { result ≤ length bytes.now }
{
    bytes.iter().take_while(|b| is_name_byte(**b)).count()
}

/// The length of the longest run of bytes that a number may have.
pub(crate) fn number_run(bytes: &[u8]) -> usize
    ensures run { result ≡ prefix_len spec.is_number_byte bytes.now }
    ensures within { result ≤ length bytes.now }
{
    bytes.iter().take_while(|b| is_number_byte(**b)).count()
}

fn name_extent(bytes: &[u8], at: usize) -> Extent
    requires { at ≤ length bytes.now }
    ensures found { LexemeEndsAt Name bytes.now at result.stop result.size }
    ensures inside { result.stop ≤ length bytes.now }
{
    let size = name_run(&bytes[at..]);
    Extent {
        stop: at + size,
        size,
    }
}

fn number_extent(bytes: &[u8], at: usize) -> Result<Extent, LexFault>
    requires { at ≤ length bytes.now }
    ensures found { IfOk result (λ e. LexemeEndsAt Number bytes.now at e.stop e.size) }
    ensures inside { IfOk result (λ e. e.stop ≤ length bytes.now) }
    ensures malformed { IfErr result (IsMalformed (Some Number) bytes.now at) }
{
    let size = number_run(&bytes[at..]);
    let stop = at + size;
    if is_number(&bytes[at..stop]) {
        Ok(Extent { stop, size })
    } else {
        Err(LexFault::BadNumber { place: at })
    }
}

fn string_extent(bytes: &[u8], quote: usize) -> Result<Extent, LexFault>
    requires inside { quote < length bytes.now }
    requires room { length bytes.now ≤ MAX_TEXT }
    ensures found { IfOk result (λ e. LexemeEndsAt Str bytes.now quote e.stop e.size) }
    ensures inside { IfOk result (λ e. e.stop ≤ length bytes.now) }
    ensures malformed { IfErr result (IsStringFault bytes.now quote) }
{
    let mut at = quote + 1;
    let mut size = 0;
    'pieces: while at < bytes.len() {
        if bytes[at] == b'"' {
            return Ok(Extent { stop: at + 1, size });
        }
        let piece = piece_at(bytes, at)?;
        size += piece.size();
        at += piece.len();
    }
    Err(LexFault::OpenString { place: quote })
}

/// The extent of the token of this kind that begins at `at`, or its fault.
pub(crate) fn extent_of(kind: TokenKind, bytes: &[u8], at: usize) -> Result<Extent, LexFault>
    requires begins { kind_at bytes.now at ≡ Some kind }
    requires inside { at < length bytes.now }
    requires room { length bytes.now ≤ MAX_TEXT }
    ensures found { IfOk result (λ e. LexemeEndsAt kind bytes.now at e.stop e.size) }
    ensures inside { IfOk result (λ e. e.stop ≤ length bytes.now) }
    ensures malformed { IfErr result (IsMalformed (Some kind) bytes.now at) }
{
    let size = match kind {
        TokenKind::Name => return Ok(name_extent(bytes, at)),
        TokenKind::Number => return number_extent(bytes, at),
        TokenKind::Str => return string_extent(bytes, at),
        TokenKind::Assign => 2,
        TokenKind::Dot
        | TokenKind::ParenL
        | TokenKind::ParenR
        | TokenKind::BraceL
        | TokenKind::BraceR
        | TokenKind::BracketL
        | TokenKind::BracketR
        | TokenKind::Comma
        | TokenKind::Semi
        | TokenKind::Equals => 1,
    };
    Ok(Extent {
        stop: at + size,
        size,
    })
}

/// The greatest size of a token of this kind.
pub(crate) fn limit_of(kind: TokenKind) -> usize
    ensures { result ≡ token_limit kind }
{
    match kind {
        TokenKind::Name => MAX_NAME,
        _ => MAX_STRING,
    }
}
