//! A cursor over the tokens that are left, with which every reader of this crate takes tokens.

ghost use Rattle.std.specs.Prelude.{◌≡◌, All, IfOk, Bool, Ok, Err, true, nat_lt, if◌then◌else◌, length, Some, None};
ghost use Rattle.std.specs.Str.{all_ascii_digits};
ghost use Rattle.jc_syntax.specs.declared.token.TokenKind.TheVariants.{Name, Number, Str};
ghost use Rattle.jc_syntax.specs.Lexemes.{IsTokenOf};
ghost use Rattle.jc_parser.specs.ReaderState.{MapsResult, reading_of, place, stuck, begins, has_kind, is_word, is_number_symbol, reserved, skip, take, named_at, is_at_end};
ghost use Rattle.jc_grammar.specs.SymbolTests as words;
ghost use Rattle.jc_grammar.specs.SymbolTests.{numeral_value};
ghost use Rattle.jc_parser.specs.ExpressionReader as language;
ghost use Rattle.jc_parser.specs.ExpressionReader.{index_at};
ghost use Rattle.jc_parser.specs.ScriptReader.{is_misused as misused};
ghost use Rattle.jc_grammar.specs.Symbols.{Symbol, word, number};

use crate::fault::ScenarioFault;
use jc_rules::Text;
use jc_syntax::{Named, Token, TokenKind, slice_of, string_of};
use std::alloc::{AllocError, Global};
use std::marker::Model;

/// A text, and its tokens that are left.
#[derive(Drop)]
pub(crate) struct Cursor<'a> {
    text: &'a str,
    tokens: &'a [Token],
}

impl<'a> Model for Cursor<'a> {
    ghost use Rattle.std.specs.Prelude.{All};
    ghost use Rattle.jc_syntax.specs.Lexemes.{IsTokenOf};
    ghost use Rattle.jc_parser.specs.ReaderState.{Reading, reading_of};

    ghost Value = { Reading };

    ghost view = { λ c. reading_of c.text.now c.tokens.now };

    ghost invariant = { λ c. All (IsTokenOf c.text.now) c.tokens.now };
}

impl<'a> Cursor<'a> {
    pub(crate) fn new(text: &'a str, tokens: &'a [Token]) -> Cursor<'a>
        requires { All (IsTokenOf text.now) tokens.now }
        ensures { result ≡ reading_of text.now tokens.now }
    {
        Cursor { text, tokens }
    }

    /// The offset of the next token, or of the text's end.
    pub(crate) fn place(&self) -> usize
        ensures { result ≡ place self.now }
    {
        match self.tokens {
            [] => self.text.len(),
            [first, ..] => first.start as usize,
        }
    }

    /// The fault that the next token fits nothing.
    pub(crate) fn stuck(&self) -> ScenarioFault
        ensures { result ≡ stuck self.now }
    {
        let place = self.place();
        match self.tokens {
            [] => ScenarioFault::EndOfText { place },
            [_, ..] => ScenarioFault::Unexpected { place },
        }
    }

    /// The number of tokens that are left.
    pub(crate) fn left(&self) -> usize
        ensures { result ≡ length self.now.left }
    {
        self.tokens.len()
    }

    /// Whether no token is left.
    pub(crate) fn is_at_end(&self) -> bool
        ensures { result ≡ is_at_end self.now }
    {
        self.tokens.is_empty()
    }

    /// Whether a token of this kind comes next.
    pub(crate) fn begins(&self, kind: TokenKind) -> bool
        ensures { result ≡ begins (has_kind kind) self.now }
    {
        match self.tokens {
            [] => false,
            [first, ..] => first.kind == kind,
        }
    }

    /// The bytes of the next token; none where no token is left.
    fn spelling(&self) -> &'a str
        ensures name { begins (has_kind Name) self.now ≡ true
            → (p : Symbol → Bool) → begins p self.now ≡ p (word result.now) }
        ensures number { begins (has_kind Number) self.now ≡ true
            → (p : Symbol → Bool) → begins p self.now ≡ p (number result.now) }
    {
        match self.tokens {
            [] => "",
            [first, ..] => slice_of(self.text, first),
        }
    }

    /// Whether this word comes next.
    pub(crate) fn begins_word(&self, word: &str) -> bool
        ensures { result ≡ begins (is_word word.now) self.now }
    {
        if !self.begins(TokenKind::Name) {
            return false;
        }
        self.spelling() == word
    }

    /// Whether this number comes next, spelled so.
    pub(crate) fn begins_number(&self, digits: &str) -> bool
        ensures { result ≡ begins (is_number_symbol digits.now) self.now }
    {
        if !self.begins(TokenKind::Number) {
            return false;
        }
        self.spelling() == digits
    }

    /// Whether a reserved word comes next.
    pub(crate) fn begins_reserved(&self) -> bool
        ensures { result ≡ begins reserved self.now }
    {
        if !self.begins(TokenKind::Name) {
            return false;
        }
        is_reserved(self.spelling())
    }

    /// Whether a reserved word comes next that is no keyword at a command's start.
    pub(crate) fn begins_misused(&self) -> bool
        ensures { result ≡ begins misused self.now }
    {
        if !self.begins(TokenKind::Name) {
            return false;
        }
        is_misused(self.spelling())
    }

    /// Whether the word of a selector comes next.
    pub(crate) fn begins_selector(&self) -> bool
        ensures { result ≡ begins language.is_selector self.now }
    {
        if !self.begins(TokenKind::Name) {
            return false;
        }
        is_selector(self.spelling())
    }

    /// Passes over the next token, if one is left.
    pub(crate) fn advance(&mut self)
        ensures { (p : Symbol → Bool) → begins p self.old ≡ true → skip p self.old ≡ Ok (tt, self.new) }
    {
        if let [_, rest @ ..] = self.tokens {
            self.tokens = rest;
        }
    }

    /// The value where it fits, else the fault that the next token fits nothing.
    pub(crate) fn value_if<T: Drop>(&self, fits: bool, value: T) -> Result<T, ScenarioFault>
        ensures { result ≡ (if fits then Ok value else Err (stuck self.now)) }
    {
        if !fits {
            return Err(self.stuck());
        }
        Ok(value)
    }

    /// Takes a token of this kind.
    pub(crate) fn mark(&mut self, kind: TokenKind) -> Result<(), ScenarioFault>
        ensures { MapsResult (λ _. (tt, self.new)) result (skip (has_kind kind) self.old) }
    {
        if !self.begins(kind) {
            return Err(self.stuck());
        }
        self.advance();
        Ok(())
    }

    /// Takes this word.
    #[tactic(auto, using(crate::proofs::FirstTokensLemmas::not_skipped))]
    pub(crate) fn word(&mut self, word: &str) -> Result<(), ScenarioFault>
        ensures { MapsResult (λ _. (tt, self.new)) result (skip (is_word word.now) self.old) }
    {
        if !self.begins_word(word) {
            return Err(self.stuck());
        }
        self.advance();
        Ok(())
    }

    /// Takes a string, and returns what it spells.
    pub(crate) fn string(&mut self, alloc: Global) -> Result<Text, ScenarioFault>
        ensures { MapsResult (λ t. (t, self.new)) result (take (has_kind Str) self.old) }
    {
        if !self.begins(TokenKind::Str) {
            return Err(self.stuck());
        }
        let [first, ..] = self.tokens else {
            return Err(self.stuck());
        };
        let value = string_of(alloc, self.text, first)?;
        self.advance();
        Ok(value)
    }

    /// Takes a number, and returns its bytes.
    pub(crate) fn number(&mut self, alloc: Global) -> Result<Text, ScenarioFault>
        ensures { MapsResult (λ t. (t, self.new)) result (take (has_kind Number) self.old) }
    {
        if !self.begins(TokenKind::Number) {
            return Err(self.stuck());
        }
        let [first, ..] = self.tokens else {
            return Err(self.stuck());
        };
        let value = text_of(alloc, slice_of(self.text, first))?;
        self.advance();
        Ok(value)
    }

    /// Takes a number of digits alone, below 2 to the 32.
    #[tactic(auto, unfolding(crate::specs::ReaderState::one, crate::specs::ExpressionReader::index_at), using(crate::proofs::SymbolTestsLemmas::kinds))]
    pub(crate) fn index(&mut self) -> Result<u32, ScenarioFault>
        ensures { MapsResult (λ i. (i, self.new)) result (index_at self.old) }
    {
        match self.tokens {
            [first, rest @ ..] if first.kind == TokenKind::Number => {
                let digits = slice_of(self.text, first);
                if !is_numeral(digits) {
                    return Err(self.stuck());
                }
                let Some(index) = index_of(digits) else {
                    return Err(ScenarioFault::IndexTooLarge {
                        place: first.start as usize,
                    });
                };
                self.tokens = rest;
                Ok(index)
            }
            _ => Err(self.stuck()),
        }
    }

    /// Takes a name, and returns it with its offset.
    pub(crate) fn name(&mut self, alloc: Global) -> Result<Named, ScenarioFault>
        ensures { MapsResult (λ n. (n, self.new)) result (named_at self.old) }
    {
        if !self.begins(TokenKind::Name) {
            return Err(self.stuck());
        }
        let [first, ..] = self.tokens else {
            return Err(self.stuck());
        };
        let name = text_of(alloc, slice_of(self.text, first))?;
        let place = first.start as usize;
        self.advance();
        Ok(Named { name, place })
    }
}

/// A copy of a text.
fn text_of(alloc: Global, text: &str) -> Result<Text, AllocError>
    ensures { IfOk result (λ t. t ≡ text.now) }
{
    Text::new(alloc, String::from_str(alloc, text)?)
}

/// Whether a name is a reserved word.
fn is_reserved(name: &str) -> bool
    ensures { result ≡ words.is_reserved name.now }
{
    match name {
        "let"
        | "doc"
        | "yield"
        | "get"
        | "idx"
        | "keys"
        | "values"
        | "insertAfter"
        | "delete"
        | "true"
        | "false"
        | "null" => true,
        _ => false,
    }
}

/// Whether a reserved word is no keyword at a command's start.
fn is_misused(name: &str) -> bool
    ensures { result ≡ misused (word name.now) }
{
    match name {
        "let" | "yield" | "doc" => false,
        _ => is_reserved(name),
    }
}

/// Whether a name begins a selector.
fn is_selector(name: &str) -> bool
    ensures { result ≡ language.is_selector (word name.now) }
{
    match name {
        "get" | "idx" | "keys" | "values" => true,
        _ => false,
    }
}

/// Whether each byte is a digit.
fn all_digits(bytes: &[u8]) -> bool
    ensures { result ≡ all_ascii_digits bytes.now }
{
    bytes.iter().all(|b| b.is_ascii_digit())
}

/// Whether a text is one digit or more, and nothing else.
fn is_numeral(text: &str) -> bool
    ensures { result ≡ words.is_numeral text.now }
{
    !text.is_empty() && all_digits(text.as_bytes())
}

/// The value of digits, if it is below 2 to the 32.
fn index_of(digits: &str) -> Option<u32>
    requires { words.is_numeral digits.now ≡ true }
    ensures { result
        ≡ (if nat_lt (numeral_value digits.now) 4294967296 then Some (numeral_value digits.now) else None) }
{
    match digits.parse::<u32>() {
        Ok(index) => Some(index),
        Err(_) => None,
    }
}
