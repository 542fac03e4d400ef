//! The bytes of a token, and what a string token spells. The parser takes names, numbers and strings from here.

ghost use Rattle.std.specs.Prelude.{◌≡◌, ◌≤◌, length, IfOk, IsUtf8};
ghost use Rattle.std.specs.List.{prefix_len};
ghost use Rattle.jc_syntax.specs.Strings.{is_plain_byte, after_plain, IsString};
ghost use Rattle.jc_syntax.specs.Lexemes.{IsTokenOf, IsStringToken, token_bytes, token_content};

use crate::piece::escape_of;
use crate::token::Token;
use jc_rules::Text;
use std::alloc::{AllocError, Global};

/// The bytes of a token.
pub fn slice_of<'a>(text: &'a str, token: &Token) -> &'a str
    requires { IsTokenOf text.now token.now }
    ensures { result.now ≡ token_bytes text.now token.now }
{
    &text[token.start as usize..token.stop as usize]
}

fn is_plain(byte: u8) -> bool
    ensures { result ≡ is_plain_byte byte }
{
    byte != b'"' && byte != b'\\'
}

fn plain_run(bytes: &[u8]) -> usize
    ensures run { result ≡ prefix_len is_plain_byte bytes.now }
    ensures within { result ≤ length bytes.now }
{
    bytes.iter().take_while(|b| is_plain(**b)).count()
}

/// The offset of the first byte from `at` on that is not plain, or the end.
fn skip_plain(bytes: &[u8], at: usize) -> usize
    requires { at ≤ length bytes.now }
    ensures place { result ≡ after_plain bytes.now at }
    ensures from { at ≤ result }
    ensures within { result ≤ length bytes.now }
{
    at + plain_run(&bytes[at..])
}

/// What a string token spells, its escapes decoded.
pub fn string_of(alloc: Global, text: &str, token: &Token) -> Result<Text, AllocError>
    requires { IsStringToken text.now token.now }
    ensures content { IfOk result (λ t. t ≡ token_content text.now token.now) }
    ensures spells { IfOk result (λ t. IsString text.now token.now.start token.now.stop t) }
    ensures utf8 { IfOk result (λ t. IsUtf8 t) }
{
    let bytes = text.as_bytes();
    let mut content = String::new(alloc);
    let mut at = token.start as usize + 1;
    'runs: loop {
        let end = skip_plain(bytes, at);
        content.push_str(&text[at..end])?;
        let Some((len, character)) = escape_of(bytes, end) else {
            return Text::new(alloc, content);
        };
        content.push(character)?;
        at = end + len;
    }
}
