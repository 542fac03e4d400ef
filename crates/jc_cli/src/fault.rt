//! The faults of the arguments: what `order_of` returns where these are no command.

ghost use Rattle.std.specs.Prelude.{◌≡◌, ◌≢◌, [], IfOk, string_bytes};
ghost use Rattle.clap.specs.Words.{kind_of};
ghost use Rattle.jc_cli.specs.declared.fault.WordsFault.TheVariants.{Memory as NoMemory};
ghost use Rattle.jc_cli.specs.Arguments.{IsFaultBy, HasText};

use crate::help::BRIEF;
use clap::Error;
use clap::error::ErrorKind;
use std::alloc::{AllocError, Global};

/// Why the arguments are no command. A text is never empty.
#[derive(Debug, Drop)]
pub enum WordsFault {
    /// They ask for help or for the version, and this is its text.
    Help(String),
    /// They are wrong, for the reason in this text.
    Usage(String),
    /// There was no memory.
    Memory,
}

impl From<AllocError> for WordsFault {
    ghost from_gives = { λ _ fault. fault ≡ NoMemory };

    fn from(_: AllocError) -> Self {
        WordsFault::Memory
    }
}

/// The text of an error of clap's.
fn text_of(alloc: Global, error: &Error) -> Result<String, AllocError>
    ensures { IfOk result (λ text. string_bytes text ≢ []) }
{
    let text = format!(in alloc; "{error}")?;
    if text.is_empty() {
        return String::from_str(alloc, BRIEF);
    }
    Ok(text)
}

/// The fault for an error of clap's.
pub(crate) fn fault_by(alloc: Global, error: &Error) -> WordsFault
    ensures kind { IsFaultBy (kind_of error.now) result }
    ensures text { HasText result }
{
    let Ok(text) = text_of(alloc, error) else {
        return WordsFault::Memory;
    };
    match error.kind() {
        ErrorKind::OutOfMemory => WordsFault::Memory,
        ErrorKind::DisplayHelp | ErrorKind::DisplayVersion => WordsFault::Help(text),
        _ => WordsFault::Usage(text),
    }
}
