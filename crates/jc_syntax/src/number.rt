//! JSON numbers: whether bytes are one. `extent` asks it of each number token.

ghost use Rattle.std.specs.Prelude.{◌≡◌, ◌≤◌, ◌↔◌, option_map, length, IsTrue};
ghost use Rattle.std.specs.List.{prefix_len};
ghost use Rattle.std.specs.Char.{is_ascii_digit};
ghost use Rattle.jc_syntax.specs.NumberReading as spec;
ghost use Rattle.jc_syntax.specs.Numbers.{IsNumber};

fn first(bytes: &[u8]) -> u8
    ensures { result ≡ spec.first bytes.now }
{
    match bytes {
        [] => 0,
        [byte, ..] => *byte,
    }
}

fn digit_run(bytes: &[u8]) -> usize
    ensures run { result ≡ prefix_len is_ascii_digit bytes.now }
    ensures within { result ≤ length bytes.now }
{
    bytes.iter().take_while(|b| b.is_ascii_digit()).count()
}

/// What follows one or more digits.
fn after_digits(bytes: &[u8]) -> Option<&[u8]>
    ensures { option_map (λ r. r.now) result ≡ spec.after_digits bytes.now }
{
    let count = digit_run(bytes);
    if count == 0 {
        None
    } else {
        Some(&bytes[count..])
    }
}

fn after_whole(bytes: &[u8]) -> Option<&[u8]>
    ensures { option_map (λ r. r.now) result ≡ spec.after_whole bytes.now }
{
    if first(bytes) == b'0' {
        Some(&bytes[1..])
    } else {
        after_digits(bytes)
    }
}

fn after_fraction(bytes: &[u8]) -> Option<&[u8]>
    ensures { option_map (λ r. r.now) result ≡ spec.after_fraction bytes.now }
{
    if first(bytes) == b'.' {
        after_digits(&bytes[1..])
    } else {
        Some(bytes)
    }
}

fn after_sign(bytes: &[u8]) -> &[u8]
    ensures { result.now ≡ spec.after_sign bytes.now }
{
    if first(bytes) == b'+' || first(bytes) == b'-' {
        &bytes[1..]
    } else {
        bytes
    }
}

fn after_exponent(bytes: &[u8]) -> Option<&[u8]>
    ensures { option_map (λ r. r.now) result ≡ spec.after_exponent bytes.now }
{
    if first(bytes) == b'e' || first(bytes) == b'E' {
        after_digits(after_sign(&bytes[1..]))
    } else {
        Some(bytes)
    }
}

fn after_minus(bytes: &[u8]) -> &[u8]
    ensures { result.now ≡ spec.after_minus bytes.now }
{
    if first(bytes) == b'-' {
        &bytes[1..]
    } else {
        bytes
    }
}

#[tactic(auto, unfolding(crate::specs::NumberReading::after_number))]
fn after_number(bytes: &[u8]) -> Option<&[u8]>
    ensures { option_map (λ r. r.now) result ≡ spec.after_number bytes.now }
{
    after_exponent(after_fraction(after_whole(after_minus(bytes))?)?)
}

/// Whether the bytes are one JSON number.
pub fn is_number(bytes: &[u8]) -> bool
    ensures { IsTrue result ↔ IsNumber bytes.now }
{
    match after_number(bytes) {
        Some(rest) => rest.is_empty(),
        None => false,
    }
}
