//! Canonical string literals, which `print` writes for strings and keys.

ghost use Rattle.std.specs.Prelude.{◌≡◌, ◌++◌, ◌<◌, ◌≤◌, length, slice_index, OnOk, string_bytes, false, [], ◌∷◌, take, drop, MatchOption, IfSome, IsUtf8};
ghost use Rattle.std.specs.List.{prefix_len};
ghost use Rattle.std.specs.Char.{digit_char};
ghost use Rattle.jc_printer.specs.Canon.{is_plain_char, escape_byte, escape, quoted};

use std::alloc::AllocError;

/// Appends a string literal.
pub fn push_quoted(out: &mut String, text: &str) -> Result<(), AllocError>
    ensures { OnOk result (string_bytes out.new ≡ string_bytes out.old ++ quoted text.now) }
{
    out.push_str("\"")?;
    push_content(out, text)?;
    out.push_str("\"")
}

/// Appends what is between the quotes: runs of plain bytes, and escapes.
fn push_content(out: &mut String, text: &str) -> Result<(), AllocError>
    ensures { OnOk result (string_bytes out.new ≡ string_bytes out.old ++ escape text.now) }
{
    let mut rest = text;
    'runs: loop {
        let (plain, after) = split_plain(rest);
        out.push_str(plain)?;
        let Some((byte, next)) = split_first(after) else {
            return Ok(());
        };
        push_escape(out, byte)?;
        rest = next;
    }
}

fn is_plain(byte: u8) -> bool
    ensures { result ≡ is_plain_char byte }
{
    byte >= 0x20 && byte != b'"' && byte != b'\\'
}

fn plain_run(bytes: &[u8]) -> usize
    ensures run { result ≡ prefix_len is_plain_char bytes.now }
    ensures within { result ≤ length bytes.now }
{
    bytes.iter().take_while(|byte| is_plain(**byte)).count()
}

/// The longest prefix of plain bytes, and the rest.
fn split_plain(text: &str) -> (&str, &str)
    ensures front { result.0.now ≡ take (prefix_len is_plain_char text.now) text.now }
    ensures back { result.1.now ≡ drop (prefix_len is_plain_char text.now) text.now }
{
    text.split_at(plain_run(text.as_bytes()))
}

/// The first byte, which is ASCII, and the rest.
fn split_first(text: &str) -> Option<(u8, &str)>
    requires ascii { 0 < length text.now → slice_index text.now 0 < 128 }
    ensures parts { MatchOption result (text.now ≡ []) (λ p. text.now ≡ p.0 ∷ p.1.now) }
    ensures utf8 { IfSome result (λ p. IsUtf8 p.1.now) }
{
    if text.is_empty() {
        return None;
    }
    Some((text.as_bytes()[0], &text[1..]))
}

/// Appends the escape of a byte that isn't plain.
fn push_escape(out: &mut String, byte: u8) -> Result<(), AllocError>
    requires { is_plain_char byte ≡ false }
    ensures { OnOk result (string_bytes out.new ≡ string_bytes out.old ++ escape_byte byte) }
{
    match byte {
        b'"' => out.push_str("\\\""),
        b'\\' => out.push_str("\\\\"),
        8 => out.push_str("\\b"),
        12 => out.push_str("\\f"),
        b'\n' => out.push_str("\\n"),
        b'\r' => out.push_str("\\r"),
        b'\t' => out.push_str("\\t"),
        _ => {
            out.push_str("\\u00")?;
            out.push(hex_digit(byte / 16))?;
            out.push(hex_digit(byte % 16))
        }
    }
}

fn hex_digit(digit: u8) -> char
    requires { digit < 16 }
    ensures { result ≡ digit_char digit }
{
    if digit < 10 {
        (b'0' + digit) as char
    } else {
        (b'a' + (digit - 10)) as char
    }
}
