//! The pieces of a string literal: plain bytes and escapes. `extent` measures with them, and `content` decodes.

ghost use Rattle.std.specs.Prelude.{◌≡◌, ◌+◌, ◌<◌, ◌≤◌, ◌^◌, length, slice_index, IfOk, IfSome, true};
ghost use Rattle.std.specs.Char.{InScalarRange};
ghost use Rattle.jc_syntax.specs.Strings as spec;

use crate::fault::LexFault;

/// A plain byte or an escape of a string literal.
#[derive(Clone, Copy)]
pub(crate) enum Piece {
    /// A byte that spells itself.
    Byte(u8),
    /// An escape of `len` bytes that spells a character.
    Escape { len: usize, character: char },
}

impl Piece {
    /// How many bytes of the text the piece takes.
    pub(crate) fn len(self) -> usize
        ensures { result ≡ spec.piece_len self }
    {
        match self {
            Piece::Byte(_) => 1,
            Piece::Escape { len, .. } => len,
        }
    }

    /// How many bytes the piece spells.
    pub(crate) fn size(self) -> usize
        ensures size { result ≡ length (spec.piece_bytes self) }
        ensures small { result ≤ 4 }
    {
        match self {
            Piece::Byte(_) => 1,
            Piece::Escape { character, .. } => character.len_utf8(),
        }
    }
}

/// The byte at `index`, or 0 past the end.
pub(crate) fn byte_at(bytes: &[u8], index: usize) -> u8
    ensures { result ≡ slice_index bytes.now index }
{
    if index < bytes.len() { bytes[index] } else { 0 }
}

fn hex_digit(byte: u8) -> Option<u32>
    ensures value { result ≡ spec.hex_digit byte }
    ensures fits { IfSome result (λ digit. digit < 16) }
{
    char::from(byte).to_digit(16)
}

/// The number that four hexadecimal digits spell.
fn code_unit(bytes: &[u8], at: usize) -> Option<u32>
    requires { at + 4 < 2 ^ 64 }
    ensures value { result ≡ spec.code_unit bytes.now at }
    ensures fits { IfSome result (λ unit. unit < 65536) }
{
    let a = hex_digit(byte_at(bytes, at))?;
    let b = hex_digit(byte_at(bytes, at + 1))?;
    let c = hex_digit(byte_at(bytes, at + 2))?;
    let d = hex_digit(byte_at(bytes, at + 3))?;
    Some(a * 4096 + b * 256 + c * 16 + d)
}

/// The number that an escape `\u` at `at` spells.
fn unit_escape(bytes: &[u8], at: usize) -> Option<u32>
    requires { at + 8 < 2 ^ 64 }
    ensures value { result ≡ spec.unit_escape bytes.now at }
    ensures fits { IfSome result (λ unit. unit < 65536) }
{
    if byte_at(bytes, at) == b'\\' && byte_at(bytes, at + 1) == b'u' {
        code_unit(bytes, at + 2)
    } else {
        None
    }
}

/// The character that a letter after a backslash spells.
fn short_escape(letter: u8) -> Option<char>
    ensures { result ≡ spec.short_escape letter }
{
    match letter {
        b'"' => Some('"'),
        b'\\' => Some('\\'),
        b'/' => Some('/'),
        b'b' => Some('\x08'),
        b'f' => Some('\x0C'),
        b'n' => Some('\n'),
        b'r' => Some('\r'),
        b't' => Some('\t'),
        _ => None,
    }
}

fn is_high(unit: u32) -> bool
    ensures { result ≡ spec.is_high unit }
{
    0xD800 <= unit && unit < 0xDC00
}

fn is_low(unit: u32) -> bool
    ensures { result ≡ spec.is_low unit }
{
    0xDC00 <= unit && unit < 0xE000
}

/// The character of a code that is no surrogate.
fn character_of(code: u32) -> char
    requires { InScalarRange code }
    ensures { result ≡ code }
{
    char::from_u32(code).unwrap()
}

/// The escape of a high surrogate at `at`, and of the low surrogate that must follow it.
fn pair_at(at: usize, high: u32, low: Option<u32>) -> Result<Piece, LexFault>
    requires { spec.is_high high ≡ true }
    ensures value { result ≡ spec.pair_at at high low }
    ensures len { IfOk result (λ piece. spec.piece_len piece ≡ 12) }
{
    match low {
        Some(low) if is_low(low) => {
            let code = 0x10000 + (high - 0xD800) * 0x400 + (low - 0xDC00);
            let character = character_of(code);
            Ok(Piece::Escape { len: 12, character })
        }
        _ => Err(LexFault::LoneSurrogate { place: at }),
    }
}

/// The escape `\u` at `at`.
fn unit_at(bytes: &[u8], at: usize) -> Result<Piece, LexFault>
    requires { at + 16 < 2 ^ 64 }
    ensures value { result ≡ spec.unit_at bytes.now at (spec.unit_escape bytes.now at) }
    ensures len { IfOk result (λ piece. (0 < spec.piece_len piece) × (spec.piece_len piece ≤ 12)) }
{
    let Some(unit) = unit_escape(bytes, at) else {
        return Err(LexFault::BadEscape { place: at });
    };
    if is_high(unit) {
        pair_at(at, unit, unit_escape(bytes, at + 6))
    } else if is_low(unit) {
        Err(LexFault::LoneSurrogate { place: at })
    } else {
        let character = character_of(unit);
        Ok(Piece::Escape { len: 6, character })
    }
}

/// The escape whose backslash is at `at`.
#[tactic(auto, unfolding(crate::specs::Strings::escape_at))]
pub(crate) fn escape_at(bytes: &[u8], at: usize) -> Result<Piece, LexFault>
    requires { at + 16 < 2 ^ 64 }
    ensures value { result ≡ spec.escape_at bytes.now at }
    ensures len { IfOk result (λ piece. (0 < spec.piece_len piece) × (spec.piece_len piece ≤ 12)) }
{
    match short_escape(byte_at(bytes, at + 1)) {
        Some(character) => Ok(Piece::Escape { len: 2, character }),
        None => unit_at(bytes, at),
    }
}

/// The piece at `at`.
#[tactic(auto, unfolding(crate::specs::Strings::piece_at))]
pub(crate) fn piece_at(bytes: &[u8], at: usize) -> Result<Piece, LexFault>
    requires { at + 16 < 2 ^ 64 }
    ensures value { result ≡ spec.piece_at bytes.now at }
    ensures len { IfOk result (λ piece. (0 < spec.piece_len piece) × (spec.piece_len piece ≤ 12)) }
{
    match byte_at(bytes, at) {
        byte if byte < 0x20 => Err(LexFault::BadByte { place: at }),
        b'\\' => escape_at(bytes, at),
        byte => Ok(Piece::Byte(byte)),
    }
}

/// The length and the character of the escape at `at`, if there is one.
pub(crate) fn escape_of(bytes: &[u8], at: usize) -> Option<(usize, char)>
    requires { at + 16 < 2 ^ 64 }
    ensures value { result ≡ spec.escape_of (spec.piece_at bytes.now at) }
    ensures len { IfSome result (λ e. (0 < e.0) × (e.0 ≤ 12)) }
{
    match piece_at(bytes, at) {
        Ok(Piece::Escape { len, character }) => Some((len, character)),
        Ok(Piece::Byte(_)) | Err(_) => None,
    }
}
