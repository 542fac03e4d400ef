//! Lexical faults: their refusals, their offsets, and how they are shown. The lexer returns them.

ghost use Rattle.std.specs.Prelude.{◌≡◌, Some};
ghost use Rattle.jc_syntax.specs.declared.fault.LexFault.TheVariants.{Memory};
ghost use Rattle.jc_syntax.specs.Faults.{lex_fault_number, lex_fault_offset, lex_refusal, lex_fault_text};

use jc_rules::Refusal;
use std::alloc::{AllocError, AllocFailed};
use std::fmt;
use thiserror::Error;

/// Why a text has no list of tokens. Places are offsets in bytes, from 0.
#[derive(Clone, Copy, Debug, Error)]
pub enum LexFault {
    /// A byte that begins no token, or a control byte inside a string.
    BadByte { place: usize },
    /// A string without a closing quote; the place is its opening quote.
    OpenString { place: usize },
    /// A backslash that begins no escape.
    BadEscape { place: usize },
    /// The escape of a surrogate that is no half of a pair; the place is its backslash.
    LoneSurrogate { place: usize },
    /// Bytes that begin like a number and are no JSON number.
    BadNumber { place: usize },
    /// A text or a token that is longer than its limit; for a token the place is its start.
    TextTooLong { place: usize },
    /// A request for memory was refused.
    Memory,
}

impl LexFault {
    /// The fault's offset in the text; want of memory has none.
    pub fn place(&self) -> Option<usize>
        ensures { result ≡ lex_fault_offset self.now }
    {
        match self {
            LexFault::BadByte { place }
            | LexFault::OpenString { place }
            | LexFault::BadEscape { place }
            | LexFault::LoneSurrogate { place }
            | LexFault::BadNumber { place }
            | LexFault::TextTooLong { place } => Some(*place),
            LexFault::Memory => None,
        }
    }

    /// The refusal; want of memory is none.
    pub fn refusal(&self) -> Option<Refusal>
        ensures { result ≡ lex_refusal self.now }
    {
        match self {
            LexFault::BadByte { .. } => Some(Refusal::BadByte),
            LexFault::OpenString { .. } => Some(Refusal::OpenString),
            LexFault::BadEscape { .. } => Some(Refusal::BadEscape),
            LexFault::LoneSurrogate { .. } => Some(Refusal::LoneSurrogate),
            LexFault::BadNumber { .. } => Some(Refusal::BadNumber),
            LexFault::TextTooLong { .. } => Some(Refusal::TextTooLong),
            LexFault::Memory => None,
        }
    }

    /// The number of the refusal, from 1 to 6; want of memory has none.
    pub fn number(&self) -> Option<u8>
        ensures { result ≡ lex_fault_number self.now }
    {
        match self.refusal() {
            Some(refusal) => Some(refusal.number()),
            None => None,
        }
    }
}

// By hand, since no contract says what a derived one writes.
impl fmt::Display for LexFault {
    ghost output = { λ fault. Some (lex_fault_text fault) };

    fn fmt<W: fmt::Write>(&self, f: &mut fmt::Formatter<W>) -> fmt::Result {
        match (self.refusal(), self.place()) {
            (Some(refusal), Some(place)) => {
                let name = refusal.name();
                write!(f, "{name} at {place}")
            }
            _ => f.write_str("no memory"),
        }
    }
}

impl From<AllocError> for LexFault {
    ghost from_gives = { λ _ e. e ≡ Memory };

    fn from(_e: AllocError) -> LexFault {
        LexFault::Memory
    }
}

impl<T: Drop> From<AllocFailed<T>> for LexFault {
    ghost from_gives = { λ _ e. e ≡ Memory };

    fn from(_e: AllocFailed<T>) -> LexFault {
        LexFault::Memory
    }
}
