//! Numbers, positions and options among the words of a line. `asked` reads them.

ghost use Rattle.std.specs.Prelude.{◌≡◌, option_map};
ghost use Rattle.jc_session.specs.Requests.{words};
ghost use Rattle.jc_requests.specs.Asked.{only, has_seed_form, seed_in, limit_in, position_in, past_at, past_option, past_details, pair_of};
ghost use Rattle.jc_requests.specs.Views.{word_view, position_view, at_view, between_view};

use crate::kinds::Position;
use jc_rules::limits::MAX_EVENTS;
use jc_session::{all_digits, ascii_text, first_word, number_in};

/// The word of a text that has one.
pub fn only(text: &[u8]) -> Option<&[u8]>
    ensures { word_view result ≡ only (words text.now) }
{
    let (word, rest) = first_word(text)?;
    if first_word(rest).is_some() {
        return None;
    }
    Some(word)
}

/// Whether a word is `0`, or 1 to 20 digits of which the first isn't `0`.
fn has_seed_form(word: &[u8]) -> bool
    ensures { result ≡ has_seed_form word.now }
{
    word == b"0".as_slice()
        || (!word.is_empty() && word.len() <= 20 && all_digits(word) && word[0] != b'0')
}

/// The seed that a word is.
pub fn seed_in(word: &[u8]) -> Option<u64>
    ensures { result ≡ seed_in word.now }
{
    if has_seed_form(word) {
        ascii_text(word).parse::<u64>().ok()
    } else {
        None
    }
}

/// The number of events that a word is, where there may be so many.
pub fn limit_in(word: &[u8]) -> Option<u64>
    ensures { result ≡ limit_in word.now }
{
    let limit = number_in(word)?;
    if limit <= MAX_EVENTS as u64 {
        Some(limit)
    } else {
        None
    }
}

/// The position that a word is.
pub fn position_in(word: &[u8]) -> Option<Position>
    ensures { option_map position_view result ≡ position_in word.now }
{
    if word.is_empty() || word[0] != b'-' {
        return Some(Position::After(number_in(word)?));
    }
    match number_in(&word[1..])? {
        0 => None,
        n => Some(Position::Before(n)),
    }
}

/// The positions that two words are.
pub fn positions_in(first: &[u8], second: &[u8]) -> Option<(Position, Position)>
    ensures { between_view result ≡ pair_of (position_in first.now) (position_in second.now) }
{
    let first = position_in(first)?;
    let second = position_in(second)?;
    Some((first, second))
}

/// The position of `--at`, where that comes first in a text, and what follows. `None` is an `--at` without a position.
pub fn past_at(text: &[u8]) -> Option<(Option<Position>, &[u8])>
    ensures { option_map (λ r. (at_view r.0, words r.1.now)) result ≡ past_at (words text.now) }
{
    let Some((word, rest)) = first_word(text) else {
        return Some((None, text));
    };
    if word != b"--at".as_slice() {
        return Some((None, text));
    }
    let (value, rest) = first_word(rest)?;
    Some((Some(position_in(value)?), rest))
}

/// Whether an option comes first in a text, and what follows.
fn past_option<'a>(option: &[u8], text: &'a [u8]) -> (bool, &'a [u8])
    ensures { (result.0, words result.1.now) ≡ past_option option.now (words text.now) }
{
    match first_word(text) {
        Some((word, rest)) if word == option => (true, rest),
        _ => (false, text),
    }
}

/// Whether rules and effects are asked for, and what follows these options.
pub fn past_details(text: &[u8]) -> (bool, bool, &[u8])
    ensures { (result.0, result.1, words result.2.now) ≡ past_details (words text.now) }
{
    let (trace, text) = past_option(b"--trace".as_slice(), text);
    let (effects, text) = past_option(b"--effects".as_slice(), text);
    (trace, effects, text)
}
