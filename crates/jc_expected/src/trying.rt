//! Whether a text could go on.

ghost use Rattle.std.specs.Prelude.{◌≡◌, ◌≢◌, ◌↔◌, IfOk, IsTrue};
ghost use Rattle.jc_expected.specs.Expected as spec;
ghost use Rattle.jc_expected.specs.Expected.{IsBeginning, text_with};

use jc_scenario::{ScenarioFault, laws, read};
use std::alloc::{AllocError, Global};

/// Whether a fault is one of what would have to come behind a text, of a limit, or of replicas' names. Want of memory is
/// none of a text.
fn leaves_open(fault: ScenarioFault) -> Result<bool, AllocError>
    ensures { IfOk result (λ b. (b ≡ spec.leaves_open fault) × (fault ≢ ScenarioFault.Memory)) }
{
    match fault {
        ScenarioFault::EndOfText { .. }
        | ScenarioFault::TooManyCommands { .. }
        | ScenarioFault::TooLongExpression { .. }
        | ScenarioFault::SameName { .. }
        | ScenarioFault::TooManyReplicas { .. }
        | ScenarioFault::UnknownReplica { .. }
        | ScenarioFault::TooManyEvents { .. } => Ok(true),
        ScenarioFault::Memory => Err(AllocError),
        _ => Ok(false),
    }
}

/// Whether a text is a scenario, or has such a fault alone.
pub(crate) fn is_beginning(alloc: Global, text: &[u8]) -> Result<bool, AllocError>
    ensures { IfOk result (λ b. IsTrue b ↔ IsBeginning text.now) }
{
    // By these laws a text that has another fault is none of both.
    laws::scenario_or_fault();
    laws::one_fault();
    match read(alloc, text) {
        Ok(_) => Ok(true),
        Err(fault) => leaves_open(fault),
    }
}

/// A text up to an offset, a blank, and a spelling.
pub(crate) fn text_with(
    alloc: Global,
    text: &[u8],
    at: usize,
    spelling: &str,
) -> Result<Vec<u8>, AllocError>
    ensures { IfOk result (λ tried. tried.items ≡ text_with text.now at spelling.now) }
{
    let mut tried = Vec::new(alloc);
    tried.extend_from_slice(&text[..at.min(text.len())])?;
    tried.push(b' ')?;
    tried.extend_from_slice(spelling.as_bytes())?;
    Ok(tried)
}
