//! The faults that a scenario text can have: their refusals, their offsets, and how they are shown.

ghost use Rattle.std.specs.Prelude.{◌≡◌, Some};
ghost use Rattle.jc_parser.specs.declared.fault.ScenarioFault.TheVariants.{Memory};
ghost use Rattle.jc_parser.specs.Faults.{fault_number, fault_offset, fault_refusal, fault_text, from_lexer};

use jc_rules::Refusal;
use jc_syntax::LexFault;
use std::alloc::{AllocError, AllocFailed};
use std::fmt;
use thiserror::Error;

/// Why a text is no scenario. Places are offsets in bytes, from 0.
#[derive(Clone, Copy, Error)]
pub enum ScenarioFault {
    /// A byte that begins no token, or a control byte inside a string.
    BadByte { place: usize },
    /// A string without a closing quote; the place is its opening quote.
    OpenString { place: usize },
    /// A backslash that begins no escape.
    BadEscape { place: usize },
    /// The escape of a surrogate that is no half of a pair; the place is its backslash.
    LoneSurrogate { place: usize },
    /// Bytes that begin like a number and are no JSON number.
    BadNumber { place: usize },
    /// A text or a token that is longer than its limit; for a token the place is its start.
    TextTooLong { place: usize },
    /// A token that does not fit.
    Unexpected { place: usize },
    /// The text ends too early; the place is its length.
    EndOfText { place: usize },
    /// A number of 4,294,967,296 or more where an index must be.
    IndexTooLarge { place: usize },
    /// A reserved word where a name must be.
    ReservedName { place: usize },
    /// A command past the limit of 65,536; the place is its first token.
    TooManyCommands { place: usize },
    /// A selector past the limit of 256; the place is the dot before it.
    TooLongExpression { place: usize },
    /// The bytes are not UTF-8; the place is the length of the longest prefix that is UTF-8.
    NotUtf8 { place: usize },
    /// A token that is not the header's, or the text's end before the header's.
    NoHeader { place: usize },
    /// A name that an earlier replica has.
    SameName { place: usize },
    /// No replica follows the header.
    NoReplica { place: usize },
    /// A replica past the limit of 64; the place is its name.
    TooManyReplicas { place: usize },
    /// An event names a replica that the scenario does not have; the place is the name.
    UnknownReplica { place: usize },
    /// An event past the limit of 100,000; the place is its first token.
    TooManyEvents { place: usize },
    /// A request for memory was refused.
    Memory,
}

impl ScenarioFault {
    /// The fault's offset in the text; want of memory has none.
    pub fn place(&self) -> Option<usize>
        ensures { result ≡ fault_offset self.now }
    {
        match self {
            ScenarioFault::BadByte { place }
            | ScenarioFault::OpenString { place }
            | ScenarioFault::BadEscape { place }
            | ScenarioFault::LoneSurrogate { place }
            | ScenarioFault::BadNumber { place }
            | ScenarioFault::TextTooLong { place }
            | ScenarioFault::Unexpected { place }
            | ScenarioFault::EndOfText { place }
            | ScenarioFault::IndexTooLarge { place }
            | ScenarioFault::ReservedName { place }
            | ScenarioFault::TooManyCommands { place }
            | ScenarioFault::TooLongExpression { place }
            | ScenarioFault::NotUtf8 { place }
            | ScenarioFault::NoHeader { place }
            | ScenarioFault::SameName { place }
            | ScenarioFault::NoReplica { place }
            | ScenarioFault::TooManyReplicas { place }
            | ScenarioFault::UnknownReplica { place }
            | ScenarioFault::TooManyEvents { place } => Some(*place),
            ScenarioFault::Memory => None,
        }
    }

    /// The refusal; want of memory is none.
    pub fn refusal(&self) -> Option<Refusal>
        ensures { result ≡ fault_refusal self.now }
    {
        match self {
            ScenarioFault::BadByte { .. } => Some(Refusal::BadByte),
            ScenarioFault::OpenString { .. } => Some(Refusal::OpenString),
            ScenarioFault::BadEscape { .. } => Some(Refusal::BadEscape),
            ScenarioFault::LoneSurrogate { .. } => Some(Refusal::LoneSurrogate),
            ScenarioFault::BadNumber { .. } => Some(Refusal::BadNumber),
            ScenarioFault::TextTooLong { .. } => Some(Refusal::TextTooLong),
            ScenarioFault::Unexpected { .. } => Some(Refusal::Unexpected),
            ScenarioFault::EndOfText { .. } => Some(Refusal::EndOfText),
            ScenarioFault::IndexTooLarge { .. } => Some(Refusal::IndexTooLarge),
            ScenarioFault::ReservedName { .. } => Some(Refusal::ReservedName),
            ScenarioFault::TooManyCommands { .. } => Some(Refusal::TooManyCommands),
            ScenarioFault::TooLongExpression { .. } => Some(Refusal::TooLongExpression),
            ScenarioFault::NotUtf8 { .. } => Some(Refusal::NotUtf8),
            ScenarioFault::NoHeader { .. } => Some(Refusal::NoHeader),
            ScenarioFault::SameName { .. } => Some(Refusal::SameName),
            ScenarioFault::NoReplica { .. } => Some(Refusal::NoReplica),
            ScenarioFault::TooManyReplicas { .. } => Some(Refusal::TooManyReplicas),
            ScenarioFault::UnknownReplica { .. } => Some(Refusal::UnknownReplica),
            ScenarioFault::TooManyEvents { .. } => Some(Refusal::TooManyEvents),
            ScenarioFault::Memory => None,
        }
    }

    /// The number of the refusal, from 1 to 19; want of memory has none.
    pub fn number(&self) -> Option<u8>
        ensures { result ≡ fault_number self.now }
    {
        match self.refusal() {
            Some(refusal) => Some(refusal.number()),
            None => None,
        }
    }
}

// By hand, since no contract says what a derived one writes.
impl fmt::Display for ScenarioFault {
    ghost output = { λ fault. Some (fault_text fault) };

    fn fmt<W: fmt::Write>(&self, f: &mut fmt::Formatter<W>) -> fmt::Result {
        match (self.refusal(), self.place()) {
            (Some(refusal), Some(place)) => {
                let name = refusal.name();
                write!(f, "{name} at {place}")
            }
            _ => f.write_str("no memory"),
        }
    }
}

// The same text as `Display`: a derived match of every variant is dear to prove.
impl fmt::Debug for ScenarioFault {
    ghost debug_output = { λ fault. Some (fault_text fault) };

    fn fmt<W: fmt::Write>(&self, f: &mut fmt::Formatter<W>) -> fmt::Result {
        fmt::Display::fmt(self, f)
    }
}

impl From<LexFault> for ScenarioFault {
    ghost from_gives = { λ fault e. e ≡ from_lexer fault };

    fn from(fault: LexFault) -> ScenarioFault {
        match fault {
            LexFault::BadByte { place } => ScenarioFault::BadByte { place },
            LexFault::OpenString { place } => ScenarioFault::OpenString { place },
            LexFault::BadEscape { place } => ScenarioFault::BadEscape { place },
            LexFault::LoneSurrogate { place } => ScenarioFault::LoneSurrogate { place },
            LexFault::BadNumber { place } => ScenarioFault::BadNumber { place },
            LexFault::TextTooLong { place } => ScenarioFault::TextTooLong { place },
            LexFault::Memory => ScenarioFault::Memory,
        }
    }
}

impl From<AllocError> for ScenarioFault {
    ghost from_gives = { λ _ e. e ≡ Memory };

    fn from(_e: AllocError) -> ScenarioFault {
        ScenarioFault::Memory
    }
}

impl<T: Drop> From<AllocFailed<T>> for ScenarioFault {
    ghost from_gives = { λ _ e. e ≡ Memory };

    fn from(_e: AllocFailed<T>) -> ScenarioFault {
        ScenarioFault::Memory
    }
}
