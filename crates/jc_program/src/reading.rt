//! What the file of a command has: its text, and the scenario that this is, or the line for which it is refused. Each
//! command reads here.

ghost use Rattle.std.specs.Prelude.{◌≡◌, ◌≢◌, ◌+◌, ◌≤◌, ◌⊎◌, vec_len, codes, string_bytes, IfOk, OnOk, IsErrOf};
ghost use Rattle.jc_io.specs.Streams.{IsPrefixUpTo, ConsumesUpTo};
ghost use Rattle.jc_rules.specs.declared.limits.TheConstants.{MAX_TEXT};
ghost use Rattle.jc_scenario.specs.WellFormed.{IsWellFormedScenario};
ghost use Rattle.jc_scenario.specs.Views.{scenario_view};
ghost use Rattle.jc_program.specs.ViewOutput.{told_by};
ghost use Rattle.jc_program.specs.ViewText.{IsRefused};
ghost use Rattle.jc_program.specs.Found.{IsFound};
ghost use Rattle.jc_program.specs.Faults.{IsUnread};

use crate::files::Files;
use jc_dump::refused_text;
use jc_io::{ReadFault, Source, read_up_to};
use jc_rules::limits::MAX_TEXT;
use jc_scenario::{Scenario, ScenarioFault, read};
use std::alloc::{AllocError, Global};

/// The number of bytes that are read of a text at most. By the last one a text is known to be too long.
const MOST_READ: usize = MAX_TEXT + 1;

/// The bytes of the file that a command names, up to its end or one byte past the longest text of a scenario.
pub fn text_of<R: AllocGlobal + Files, I: Source>(
    rt: &R,
    file: &str,
    input: &mut I,
) -> Result<Vec<u8>, ReadFault>
    ensures front { IfOk result (λ text.
        IsPrefixUpTo (MAX_TEXT + 1) (told_by (I.left input.old) (R.texts rt.now) file.now) text.items) }
    ensures bound { IfOk result (λ text. vec_len text ≤ MAX_TEXT + 1) }
    ensures most { ConsumesUpTo (MAX_TEXT + 1) (I.left input.old) (I.left input.new) }
    ensures untouched { file.now ≢ codes "-" → input.new ≡ input.old }
    ensures ok { OnOk result (I.failures input.new ≡ I.failures input.old) }
    ensures memory { IsErrOf result ReadFault.Memory → I.failures input.new ≡ I.failures input.old }
    ensures failed { IsErrOf result ReadFault.Failed
        → (I.failures input.new ≡ I.failures input.old + 1) ⊎ IsUnread (R.may_fail rt.now) file.now }
{
    if file == "-" {
        read_up_to(rt.alloc(), input, MOST_READ)
    } else {
        rt.read_file(rt.alloc(), file, MOST_READ)
    }
}

/// The line of a refused text. Want of memory has no line.
fn refused_line(alloc: Global, fault: &ScenarioFault) -> Result<String, AllocError>
    ensures { IfOk result (λ line. IsRefused fault.now (string_bytes line) 1) }
{
    let (Some(refusal), Some(place)) = (fault.refusal(), fault.place()) else {
        return Err(AllocError);
    };
    refused_text(alloc, refusal, place)
}

/// The scenario in the file that a command names, or the line for its text where this is refused. The text is given up
/// once it is read.
pub fn scenario_in<R: AllocGlobal + Files, I: Source>(
    rt: &R,
    file: &str,
    input: &mut I,
) -> Result<Result<Scenario, String>, ReadFault>
    ensures found { IfOk result (IsFound (told_by (I.left input.old) (R.texts rt.now) file.now)) }
    ensures formed { IfOk result (λ found. IfOk found (λ s. IsWellFormedScenario (scenario_view s))) }
    ensures most { ConsumesUpTo (MAX_TEXT + 1) (I.left input.old) (I.left input.new) }
    ensures untouched { file.now ≢ codes "-" → input.new ≡ input.old }
    ensures ok { OnOk result (I.failures input.new ≡ I.failures input.old) }
    ensures memory { IsErrOf result ReadFault.Memory → I.failures input.new ≡ I.failures input.old }
    ensures failed { IsErrOf result ReadFault.Failed
        → (I.failures input.new ≡ I.failures input.old + 1) ⊎ IsUnread (R.may_fail rt.now) file.now }
{
    let text = text_of(rt, file, input)?;
    let found = read(rt.alloc(), &text);
    drop(text);
    match found {
        Ok(scenario) => Ok(Ok(scenario)),
        Err(fault) => {
            let line = refused_line(rt.alloc(), &fault)?;
            Ok(Err(line))
        }
    }
}
