//! The faults that an expression, a script or an event can have, which are some of those of a scenario.

ghost use Rattle.std.specs.Prelude.{◌≡◌, Some};
ghost use Rattle.jc_parser.specs.Faults.{fault_refusal, fault_number, fault_offset, fault_text, from_sentence, IsOfSentence};

use crate::fault::ScenarioFault;
use jc_rules::Refusal;
use std::fmt;
use thiserror::Error;

/// Why a text is no script, expression or event. Places are offsets in bytes, from 0.
#[derive(Clone, Copy, Error)]
pub enum ParseFault {
    /// A byte that begins no token, or a control byte inside a string.
    BadByte { place: usize },
    /// A string without a closing quote; the place is its opening quote.
    OpenString { place: usize },
    /// A backslash that begins no escape.
    BadEscape { place: usize },
    /// The escape of a surrogate that is no half of a pair; the place is its backslash.
    LoneSurrogate { place: usize },
    /// Bytes that begin like a number and are no JSON number.
    BadNumber { place: usize },
    /// A text or a token that is longer than its limit; for a token the place is its start.
    TextTooLong { place: usize },
    /// A token that does not fit.
    Unexpected { place: usize },
    /// The text ends too early; the place is its length.
    EndOfText { place: usize },
    /// A number of 4,294,967,296 or more where an index must be.
    IndexTooLarge { place: usize },
    /// A reserved word where a name must be.
    ReservedName { place: usize },
    /// A command past the limit of 65,536; the place is its first token.
    TooManyCommands { place: usize },
    /// A selector past the limit of 256; the place is the dot before it.
    TooLongExpression { place: usize },
    /// A request for memory was refused.
    Memory,
}

impl ParseFault {
    /// The same fault, as a fault of a scenario.
    fn of_scenario(&self) -> ScenarioFault
        ensures { result ≡ from_sentence self.now }
    {
        match *self {
            ParseFault::BadByte { place } => ScenarioFault::BadByte { place },
            ParseFault::OpenString { place } => ScenarioFault::OpenString { place },
            ParseFault::BadEscape { place } => ScenarioFault::BadEscape { place },
            ParseFault::LoneSurrogate { place } => ScenarioFault::LoneSurrogate { place },
            ParseFault::BadNumber { place } => ScenarioFault::BadNumber { place },
            ParseFault::TextTooLong { place } => ScenarioFault::TextTooLong { place },
            ParseFault::Unexpected { place } => ScenarioFault::Unexpected { place },
            ParseFault::EndOfText { place } => ScenarioFault::EndOfText { place },
            ParseFault::IndexTooLarge { place } => ScenarioFault::IndexTooLarge { place },
            ParseFault::ReservedName { place } => ScenarioFault::ReservedName { place },
            ParseFault::TooManyCommands { place } => ScenarioFault::TooManyCommands { place },
            ParseFault::TooLongExpression { place } => ScenarioFault::TooLongExpression { place },
            ParseFault::Memory => ScenarioFault::Memory,
        }
    }

    /// The refusal; want of memory is none.
    pub fn refusal(&self) -> Option<Refusal>
        ensures { result ≡ fault_refusal (from_sentence self.now) }
    {
        self.of_scenario().refusal()
    }

    /// The number of the refusal, from 1 to 12; want of memory has none.
    pub fn number(&self) -> Option<u8>
        ensures { result ≡ fault_number (from_sentence self.now) }
    {
        self.of_scenario().number()
    }

    /// The fault's offset in the text; want of memory has none.
    pub fn place(&self) -> Option<usize>
        ensures { result ≡ fault_offset (from_sentence self.now) }
    {
        self.of_scenario().place()
    }
}

impl fmt::Display for ParseFault {
    ghost output = { λ fault. Some (fault_text (from_sentence fault)) };

    fn fmt<W: fmt::Write>(&self, f: &mut fmt::Formatter<W>) -> fmt::Result {
        fmt::Display::fmt(&self.of_scenario(), f)
    }
}

// The same text as `Display`: a derived match of every variant is dear to prove.
impl fmt::Debug for ParseFault {
    ghost debug_output = { λ fault. Some (fault_text (from_sentence fault)) };

    fn fmt<W: fmt::Write>(&self, f: &mut fmt::Formatter<W>) -> fmt::Result {
        fmt::Display::fmt(self, f)
    }
}

/// A fault of a scenario, as the fault of a sentence that it is.
pub(crate) fn of_sentence(fault: ScenarioFault) -> ParseFault
    requires { IsOfSentence fault }
    ensures { from_sentence result ≡ fault }
{
    match fault {
        ScenarioFault::BadByte { place } => ParseFault::BadByte { place },
        ScenarioFault::OpenString { place } => ParseFault::OpenString { place },
        ScenarioFault::BadEscape { place } => ParseFault::BadEscape { place },
        ScenarioFault::LoneSurrogate { place } => ParseFault::LoneSurrogate { place },
        ScenarioFault::BadNumber { place } => ParseFault::BadNumber { place },
        ScenarioFault::TextTooLong { place } => ParseFault::TextTooLong { place },
        ScenarioFault::Unexpected { place } => ParseFault::Unexpected { place },
        ScenarioFault::EndOfText { place } => ParseFault::EndOfText { place },
        ScenarioFault::IndexTooLarge { place } => ParseFault::IndexTooLarge { place },
        ScenarioFault::ReservedName { place } => ParseFault::ReservedName { place },
        ScenarioFault::TooManyCommands { place } => ParseFault::TooManyCommands { place },
        ScenarioFault::TooLongExpression { place } => ParseFault::TooLongExpression { place },
        ScenarioFault::Memory => ParseFault::Memory,
        ScenarioFault::NotUtf8 { .. }
        | ScenarioFault::NoHeader { .. }
        | ScenarioFault::SameName { .. }
        | ScenarioFault::NoReplica { .. }
        | ScenarioFault::TooManyReplicas { .. }
        | ScenarioFault::UnknownReplica { .. }
        | ScenarioFault::TooManyEvents { .. } => unreachable!(),
    }
}
