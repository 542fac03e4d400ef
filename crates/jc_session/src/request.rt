//! What a line of a session asks for, by its words. Answers begin with `meaning_of`.

ghost use Rattle.std.specs.Prelude.{◌≡◌, ◌≤◌, [], ◌∷◌, length, drop, not, nat_lt, IfSome, MatchOption, option_map, true};
ghost use Rattle.std.specs.List.{list_all, prefix_len, position_or_len};
ghost use Rattle.std.specs.Option.{option_and_then};
ghost use Rattle.std.specs.Str.{all_ascii_digits};
ghost use Rattle.jc_session.specs.Requests.{is_blank_char, words, past, after_word, is_number_word, number_in, among, single_words, of_two, of_break, of_three, asked_by, meaning, meaning_of_words};
ghost use Rattle.jc_session.specs.Views.{request_view, meaning_view, line_of_bytes, AreAscii};

/// What a line asks for. Words are a rule's or a replica's name.
#[derive(Clone, Copy)]
pub enum Request<'a> {
    Step(u64),
    Back(u64),
    Goto(u64),
    /// The rest of the line is the text of an event.
    Act(&'a str),
    Run,
    BreakAt(u64),
    BreakRule(&'a str),
    BreakReplica(&'a [u8]),
    Unbreak(u64),
    State,
    StateOf(&'a [u8]),
    Trace,
    Enabled,
    Schedule,
    Position,
    Compare(&'a [u8], &'a [u8]),
    Quit,
}

/// What a line means.
#[derive(Clone, Copy)]
pub enum Meaning<'a> {
    /// It has no word.
    Nothing,
    Asks(Request<'a>),
    /// It asks for nothing that a session can do.
    Bad,
}

fn is_blank(byte: u8) -> bool
    ensures { result ≡ is_blank_char byte }
{
    byte == b' ' || byte == b'\t'
}

/// How many blanks a text begins with.
fn blanks(text: &[u8]) -> usize
    ensures { result ≡ prefix_len is_blank_char text.now }
{
    for (at, byte) in text.iter().enumerate() {
        if !is_blank(*byte) {
            return at;
        }
    }
    text.len()
}

/// How many bytes are before the first blank.
pub fn word_len(text: &[u8]) -> usize
    ensures { result ≡ position_or_len is_blank_char text.now }
{
    for (at, byte) in text.iter().enumerate() {
        if is_blank(*byte) {
            return at;
        }
    }
    text.len()
}

/// The bytes from the first one on that is no blank.
pub fn past_blanks(text: &[u8]) -> &[u8]
    ensures { result.now ≡ past is_blank_char text.now }
{
    text.split_at(blanks(text)).1
}

/// The first word of a text, and what follows it. `None` where it has no word.
pub fn first_word(text: &[u8]) -> Option<(&[u8], &[u8])>
    ensures parts { MatchOption result (words text.now ≡ []) (λ x.
        (words text.now ≡ x.0.now ∷ words x.1.now)
        × (x.1.now ≡ past (λ b. not (is_blank_char b)) (past is_blank_char text.now))) }
    ensures ascii { AreAscii text.now → IfSome result (λ x. AreAscii x.0.now × AreAscii x.1.now) }
{
    let text = past_blanks(text);
    if text.is_empty() {
        return None;
    }
    Some(text.split_at(word_len(text)))
}

/// Whether each byte is a digit.
pub fn all_digits(word: &[u8]) -> bool
    ensures { result ≡ all_ascii_digits word.now }
{
    word.iter().all(|b| b.is_ascii_digit())
}

/// Whether each byte is below 128.
pub fn all_ascii(text: &[u8]) -> bool
    ensures { result ≡ list_all (λ b. nat_lt b 128) text.now }
{
    text.iter().all(|b| b.is_ascii())
}

/// Whether a word is `0`, or 1 to 10 digits of which the first isn't `0`.
fn is_number(word: &[u8]) -> bool
    ensures { result ≡ is_number_word word.now }
{
    word == b"0".as_slice()
        || (!word.is_empty() && word.len() <= 10 && all_digits(word) && word[0] != b'0')
}

/// Bytes below 128 as a text.
pub fn ascii_text(bytes: &[u8]) -> &str
    requires { AreAscii bytes.now }
    ensures { result.now ≡ bytes.now }
{
    match std::str::from_utf8(bytes) {
        Ok(text) => text,
        Err(_) => unreachable!(),
    }
}

/// The number that a word is: `0`, or 1 to 10 digits of which the first isn't `0`. `None` is another word.
pub fn number_in(word: &[u8]) -> Option<u64>
    ensures { result ≡ number_in word.now }
{
    if is_number(word) {
        ascii_text(word).parse::<u64>().ok()
    } else {
        None
    }
}

/// What a line of one word asks for.
fn alone(word: &[u8]) -> Option<Request<'static>>
    ensures { option_map request_view result ≡ among word.now single_words }
{
    if word == b"step".as_slice() {
        return Some(Request::Step(1));
    }
    if word == b"back".as_slice() {
        return Some(Request::Back(1));
    }
    if word == b"run".as_slice() {
        return Some(Request::Run);
    }
    if word == b"state".as_slice() {
        return Some(Request::State);
    }
    if word == b"trace".as_slice() {
        return Some(Request::Trace);
    }
    if word == b"enabled".as_slice() {
        return Some(Request::Enabled);
    }
    if word == b"schedule".as_slice() {
        return Some(Request::Schedule);
    }
    if word == b"where".as_slice() {
        return Some(Request::Position);
    }
    if word == b"quit".as_slice() {
        return Some(Request::Quit);
    }
    None
}

/// What a line of two words asks for.
fn of_two<'a>(verb: &[u8], word: &'a [u8]) -> Option<Request<'a>>
    ensures { option_map request_view result ≡ option_and_then (λ f. f word.now) (among verb.now of_two) }
{
    if verb == b"step".as_slice() {
        return Some(Request::Step(number_in(word)?));
    }
    if verb == b"back".as_slice() {
        return Some(Request::Back(number_in(word)?));
    }
    if verb == b"goto".as_slice() {
        return Some(Request::Goto(number_in(word)?));
    }
    if verb == b"unbreak".as_slice() {
        return Some(Request::Unbreak(number_in(word)?));
    }
    if verb == b"state".as_slice() {
        return Some(Request::StateOf(word));
    }
    None
}

/// What a line asks for that sets a breakpoint.
fn of_break<'a>(kind: &[u8], word: &'a [u8]) -> Option<Request<'a>>
    requires { AreAscii word.now }
    ensures { option_map request_view result ≡ option_and_then (λ f. f word.now) (among kind.now of_break) }
{
    if kind == b"at".as_slice() {
        return Some(Request::BreakAt(number_in(word)?));
    }
    if kind == b"rule".as_slice() {
        return Some(Request::BreakRule(ascii_text(word)));
    }
    if kind == b"replica".as_slice() {
        return Some(Request::BreakReplica(word));
    }
    None
}

/// What a line of three words asks for.
fn of_three<'a>(verb: &[u8], second: &'a [u8], third: &'a [u8]) -> Option<Request<'a>>
    requires { AreAscii third.now }
    ensures { option_map request_view result
        ≡ option_and_then (λ f. f second.now third.now) (among verb.now of_three) }
{
    if verb == b"break".as_slice() {
        return of_break(second, third);
    }
    if verb == b"compare".as_slice() {
        return Some(Request::Compare(second, third));
    }
    None
}

/// What a line asks for, by its first word and what follows it.
fn asked_by<'a>(verb: &[u8], rest: &'a [u8]) -> Option<Request<'a>>
    requires { AreAscii rest.now }
    ensures { option_map request_view result ≡ asked_by (verb.now ∷ words rest.now) }
{
    let Some((second, rest)) = first_word(rest) else {
        return alone(verb);
    };
    let Some((third, rest)) = first_word(rest) else {
        return of_two(verb, second);
    };
    if first_word(rest).is_some() {
        return None;
    }
    of_three(verb, second, third)
}

fn meaning_of_text(text: &[u8]) -> Meaning<'_>
    requires { AreAscii text.now }
    ensures { meaning_view result ≡ meaning_of_words text.now (words text.now) }
{
    let Some((verb, rest)) = first_word(text) else {
        return Meaning::Nothing;
    };
    if verb == b"act".as_slice() {
        return Meaning::Asks(Request::Act(ascii_text(past_blanks(rest))));
    }
    match asked_by(verb, rest) {
        Some(request) => Meaning::Asks(request),
        None => Meaning::Bad,
    }
}

/// What a line means. `None` is a line that is too long.
pub fn meaning_of(line: Option<&[u8]>) -> Meaning<'_>
    ensures { meaning_view result ≡ meaning (line_of_bytes line.entry) }
{
    let Some(text) = line else {
        return Meaning::Bad;
    };
    if all_ascii(text) {
        meaning_of_text(text)
    } else {
        Meaning::Bad
    }
}
