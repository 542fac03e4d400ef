//! What a line of `serve` asks for, by its words. The command answers what `asked` returns.

ghost use Rattle.std.specs.Prelude.{◌≡◌, ◌<◌, ◌==◌, [], ◌∷◌, length, position, option_map, IfSome};
ghost use Rattle.std.specs.List.{list_all};
ghost use Rattle.jc_session.specs.Requests.{words, after_word, among};
ghost use Rattle.jc_session.specs.Views.{line_of_bytes, AreAscii};
ghost use Rattle.jc_syntax.specs.Bytes as B;
ghost use Rattle.jc_requests.specs.Asked.{after_words, words_before, in_session, alone, exactly, scenario_of, at_position, viewed, stated, briefed, evaluated, event_of, journal_of, journal_by, is_name, op_in, break_of, weave_of, shows, own, or_by_session, asked_by, asked};
ghost use Rattle.jc_requests.specs.Views.{asked_view, at_view};

use crate::kinds::{Asked, Position};
use crate::options::{limit_in, only, past_at, past_details, positions_in, seed_in};
use jc_session::{
    Meaning, all_ascii, ascii_text, first_word, meaning_of, number_in, past_blanks, word_len,
};

/// What follows the first word of a text and the blanks behind it.
fn after_word(text: &[u8]) -> &[u8]
    ensures { result.now ≡ after_word text.now }
{
    let text = past_blanks(text);
    past_blanks(text.split_at(word_len(text)).1)
}

/// What follows so many words of a line, and the blanks behind them.
fn after_words(count: usize, line: &[u8]) -> &str
    requires { AreAscii line.now }
    ensures { result.now ≡ after_words count line.now }
{
    let mut text = line;
    for _word in 0..count {
        text = after_word(text);
    }
    ascii_text(text)
}

/// What a line asks for in a session.
fn in_session(line: &[u8]) -> Option<Asked<'_>>
    ensures { option_map asked_view result ≡ in_session line.now }
{
    match meaning_of(Some(line)) {
        Meaning::Asks(request) => Some(Asked::OfSession(request)),
        Meaning::Nothing => None,
        Meaning::Bad => None,
    }
}

/// A request that no word follows.
fn alone<'a>(request: Asked<'a>, rest: &[u8]) -> Option<Asked<'a>>
    ensures { option_map asked_view result ≡ alone (asked_view request.entry) (words rest.now) }
{
    if first_word(rest).is_some() {
        return None;
    }
    Some(request)
}

/// A request that one word of its own follows. What a session does where it isn't that word.
fn exactly<'a>(line: &'a [u8], word: &[u8], request: Asked<'a>, rest: &[u8]) -> Option<Asked<'a>>
    ensures { option_map asked_view result
        ≡ exactly line.now word.now (asked_view request.entry) (words rest.now) }
{
    let Some(found) = only(rest) else {
        return in_session(line);
    };
    if found == word {
        return Some(request);
    }
    in_session(line)
}

fn scenario(rest: &[u8]) -> Option<Asked<'static>>
    ensures { option_map asked_view result ≡ scenario_of (words rest.now) }
{
    let size = number_in(only(rest)?)?;
    Some(Asked::Scenario(size))
}

/// How many words a request at a position has before the name.
fn words_before(at: Option<Position>) -> usize
    ensures { result ≡ words_before (at_view at) }
{
    match at {
        Some(_) => 3,
        None => 1,
    }
}

fn view<'a>(line: &'a [u8], rest: &'a [u8]) -> Option<Asked<'a>>
    requires { AreAscii line.now }
    ensures { option_map asked_view result ≡ at_position (viewed line.now) (words rest.now) }
{
    let (at, rest) = past_at(rest)?;
    let Some((name, rest)) = first_word(rest) else {
        return Some(Asked::View { at, name: None });
    };
    if first_word(rest).is_none() {
        return Some(Asked::View {
            at,
            name: Some(name),
        });
    }
    let expression = after_words(words_before(at) + 1, line);
    Some(Asked::ViewPlace {
        at,
        name,
        expression,
    })
}

fn state<'a>(line: &'a [u8], rest: &'a [u8]) -> Option<Asked<'a>>
    ensures { option_map asked_view result ≡ at_position (stated line.now) (words rest.now) }
{
    let (at, rest) = past_at(rest)?;
    let Some(at) = at else {
        return in_session(line);
    };
    let Some((name, rest)) = first_word(rest) else {
        return Some(Asked::StateAt { at, name: None });
    };
    if first_word(rest).is_some() {
        return None;
    }
    Some(Asked::StateAt {
        at,
        name: Some(name),
    })
}

fn brief(rest: &[u8]) -> Option<Asked<'_>>
    ensures { option_map asked_view result ≡ at_position briefed (words rest.now) }
{
    let (at, rest) = past_at(rest)?;
    let name = only(rest)?;
    Some(Asked::Brief { at, name })
}

fn eval<'a>(line: &'a [u8], rest: &'a [u8]) -> Option<Asked<'a>>
    requires { AreAscii line.now }
    ensures { option_map asked_view result ≡ at_position (evaluated line.now) (words rest.now) }
{
    let (at, rest) = past_at(rest)?;
    let (name, _) = first_word(rest)?;
    let expression = after_words(words_before(at) + 1, line);
    Some(Asked::Eval {
        at,
        name,
        expression,
    })
}

fn event(rest: &[u8]) -> Option<Asked<'_>>
    ensures { option_map asked_view result ≡ at_position event_of (words rest.now) }
{
    let (at, rest) = past_at(rest)?;
    let (trace, effects, rest) = past_details(rest);
    alone(Asked::Event { at, trace, effects }, rest)
}

fn journal(rest: &[u8]) -> Option<Asked<'_>>
    ensures { option_map asked_view result ≡ journal_of (words rest.now) }
{
    let (trace, effects, rest) = past_details(rest);
    let Some((first, rest)) = first_word(rest) else {
        return Some(Asked::Journal {
            trace,
            effects,
            between: None,
        });
    };
    let between = positions_in(first, only(rest)?)?;
    Some(Asked::Journal {
        trace,
        effects,
        between: Some(between),
    })
}

fn is_name_start(byte: u8) -> bool
    ensures { result ≡ B.is_name_start byte }
{
    byte.is_ascii_alphabetic() || byte == b'_'
}

fn is_name_byte(byte: u8) -> bool
    ensures { result ≡ B.is_name_byte byte }
{
    is_name_start(byte) || byte.is_ascii_digit()
}

fn are_name_bytes(word: &[u8]) -> bool
    ensures { result ≡ list_all B.is_name_byte word.now }
{
    word.iter().all(|b| is_name_byte(*b))
}

/// Whether a word is a letter or `_`, and behind it letters, digits and `_`.
fn is_name(word: &[u8]) -> bool
    ensures { result ≡ is_name word.now }
{
    !word.is_empty() && is_name_start(word[0]) && are_name_bytes(word)
}

/// Where the first `@` of a word is.
fn at_sign(word: &[u8]) -> Option<usize>
    ensures at { result ≡ position (λ b. b == 64) word.now }
    ensures within { IfSome result (λ at. at < length word.now) }
{
    word.iter().position(|b| *b == b'@')
}

/// The breakpoint for the operation with the identifier that a word is.
fn break_op(word: &[u8]) -> Option<Asked<'_>>
    ensures { option_map asked_view result ≡ op_in word.now }
{
    let at = at_sign(word)?;
    let counter = number_in(&word[..at])?;
    let name = &word[at + 1..];
    if is_name(name) {
        Some(Asked::BreakOp(counter, name))
    } else {
        None
    }
}

fn break_at<'a>(line: &'a [u8], rest: &'a [u8]) -> Option<Asked<'a>>
    requires { AreAscii line.now }
    ensures { option_map asked_view result ≡ break_of line.now (words rest.now) }
{
    let Some((kind, rest)) = first_word(rest) else {
        return in_session(line);
    };
    let Some((name, more)) = first_word(rest) else {
        return in_session(line);
    };
    if kind == b"op".as_slice() {
        return if first_word(more).is_none() {
            break_op(name)
        } else {
            None
        };
    }
    if kind == b"place".as_slice() {
        return Some(Asked::BreakPlace(name, after_words(3, line)));
    }
    in_session(line)
}

fn weave(rest: &[u8]) -> Option<Asked<'static>>
    ensures { option_map asked_view result ≡ weave_of (words rest.now) }
{
    let (first, rest) = first_word(rest)?;
    let second = only(rest)?;
    let seed = seed_in(first)?;
    let limit = limit_in(second)?;
    Some(Asked::Weave { seed, limit })
}

/// What a line asks for that shows something, by its first word and what follows.
fn shows<'a>(word: &[u8], line: &'a [u8], rest: &'a [u8]) -> Option<Asked<'a>>
    requires { AreAscii line.now }
    ensures { option_map asked_view result
        ≡ or_by_session line.now (among word.now (shows line.now)) (words rest.now) }
{
    if word == b"view".as_slice() {
        return view(line, rest);
    }
    if word == b"state".as_slice() {
        return state(line, rest);
    }
    if word == b"brief".as_slice() {
        return brief(rest);
    }
    if word == b"eval".as_slice() {
        return eval(line, rest);
    }
    if word == b"event".as_slice() {
        return event(rest);
    }
    if word == b"journal".as_slice() {
        return journal(rest);
    }
    in_session(line)
}

/// What a line asks for, by its first word and what follows.
fn asked_by<'a>(word: &[u8], line: &'a [u8], rest: &'a [u8]) -> Option<Asked<'a>>
    requires { AreAscii line.now }
    ensures { option_map asked_view result
        ≡ or_by_session line.now (among word.now (own line.now)) (words rest.now) }
{
    if word == b"scenario".as_slice() {
        return scenario(rest);
    }
    if word == b"places".as_slice() {
        return alone(Asked::Places, rest);
    }
    if word == b"print".as_slice() {
        return alone(Asked::Print, rest);
    }
    if word == b"breaks".as_slice() {
        return alone(Asked::Breaks, rest);
    }
    if word == b"goto".as_slice() {
        return exactly(line, b"end".as_slice(), Asked::GotoEnd, rest);
    }
    if word == b"back".as_slice() {
        return exactly(line, b"run".as_slice(), Asked::BackRun, rest);
    }
    if word == b"break".as_slice() {
        return break_at(line, rest);
    }
    if word == b"weave".as_slice() {
        return weave(rest);
    }
    shows(word, line, rest)
}

/// What a line of `serve` asks for: its bytes without its end, and `None` where it is too long. `None` is refused by 58.
/// What a session has too is what it means there (`meaning_of`), and nothing else is looked at in its words: whether a
/// rule or a replica has a name, and whether there is such a position, is for who answers.
pub fn asked(line: Option<&[u8]>) -> Option<Asked<'_>>
    ensures { option_map asked_view result ≡ asked (line_of_bytes line.entry) }
{
    let Some(text) = line else {
        return None;
    };
    if !all_ascii(text) {
        return None;
    }
    let Some((word, rest)) = first_word(text) else {
        return None;
    };
    asked_by(word, text, rest)
}
