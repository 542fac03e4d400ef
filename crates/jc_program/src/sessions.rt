//! The command `debug`: a session on a scenario's text. `work_alone` calls it.

ghost use Rattle.std.specs.Prelude.{◌≡◌, ◌≢◌, ◌+◌, ◌<◌, ◌⊎◌, [], Some, Ok, codes, IfOk, IfErr, OnOk};
ghost use Rattle.std.specs.Io.{ReadsAtMost};
ghost use Rattle.jc_io.specs.Streams.{ConsumesUpTo, ReadsBytes};
ghost use Rattle.jc_rules.specs.declared.limits.TheConstants.{MAX_TEXT};
ghost use Rattle.jc_io.specs.Written.{sink};
ghost use Rattle.jc_program.specs.ViewOutput.{told_by};
ghost use Rattle.jc_program.specs.Faults.{IsCause, IsUnread};
ghost use Rattle.jc_program.specs.SessionRuns.{lines_by, TalksOn, StopsOn, HasTalked, HasStopped};

use crate::fault::WorkFault;
use crate::files::Files;
use crate::reading::text_of;
use jc_io::{Failed, Sink, Source};
use jc_session::{SessionEnd, SessionFault, session};
use std::alloc::Global;

/// A source without a byte.
#[derive(Drop)]
struct NoBytes;

impl Source for NoBytes {
    ghost left = { λ _. Some [] };

    ghost failures = { λ _. 0 };

    fn read(&mut self, _buf: &mut [u8]) -> Result<usize, Failed> {
        Ok(0)
    }
}

/// Answers the lines of a source on a scenario's text, each before it reads the next, and returns the status.
fn converse<S: Source, K: Sink>(
    alloc: Global,
    text: &[u8],
    lines: &mut S,
    out: &mut K,
) -> Result<u8, WorkFault>
    ensures talked { IfOk result (TalksOn text.now (S.left lines.old) (sink K.Sink out.old) (sink K.Sink out.new)) }
    ensures stopped { IfErr result (λ fault. StopsOn fault text.now (S.left lines.old) (S.left lines.new)
        (sink K.Sink out.old) (sink K.Sink out.new)) }
    ensures unread { (result ≡ Ok 1) ⊎ (result ≡ Ok 3) → lines.new ≡ lines.old }
    ensures same { OnOk result
        ((S.failures lines.new ≡ S.failures lines.old) × (K.failures out.new ≡ K.failures out.old)) }
    ensures cause { IfErr result (λ fault. IsCause fault ⊥
        (S.failures lines.old) (S.failures lines.new) (K.failures out.old) (K.failures out.new)) }
{
    match session(alloc, text, lines, out) {
        Ok(SessionEnd::Finished) => Ok(0),
        Ok(SessionEnd::TextRefused(_fault)) => Ok(1),
        Ok(SessionEnd::GivenStuck) => Ok(3),
        Err(SessionFault::ReadFailed) => Err(WorkFault::Read),
        Err(SessionFault::WriteFailed) => Err(WorkFault::Write),
        Err(SessionFault::TooManyLines) => Err(WorkFault::TooManyLines),
        Err(SessionFault::Memory) => Err(WorkFault::Memory),
    }
}

/// Answers the lines of the input on the scenario in a file, and returns the status. Where the file is `-`, the input
/// has the scenario, and there is no line.
pub fn debug<R: AllocGlobal + Files, I: Source, K: Sink>(
    rt: &R,
    file: &str,
    input: &mut I,
    out: &mut K,
) -> Result<u8, WorkFault>
    ensures talked { IfOk result (HasTalked (told_by (I.left input.old) (R.texts rt.now) file.now)
        (lines_by (I.left input.old) file.now) (sink K.Sink out.old) (sink K.Sink out.new)) }
    ensures stopped { IfErr result (λ fault. HasStopped fault
        (told_by (I.left input.old) (R.texts rt.now) file.now) (lines_by (I.left input.old) file.now)
        (lines_by (I.left input.new) file.now) (sink K.Sink out.old) (sink K.Sink out.new)) }
    ensures most { file.now ≡ codes "-" → ConsumesUpTo (MAX_TEXT + 1) (I.left input.old) (I.left input.new) }
    ensures untouched { (result ≡ Ok 1) ⊎ (result ≡ Ok 3) → file.now ≢ codes "-" → input.new ≡ input.old }
    ensures same { OnOk result
        ((I.failures input.new ≡ I.failures input.old) × (K.failures out.new ≡ K.failures out.old)) }
    ensures cause { IfErr result (λ fault. IsCause fault (IsUnread (R.may_fail rt.now) file.now)
        (I.failures input.old) (I.failures input.new) (K.failures out.old) (K.failures out.new)) }
{
    let text = text_of(rt, file, input)?;
    if file == "-" {
        converse(rt.alloc(), &text, &mut NoBytes, out)
    } else {
        converse(rt.alloc(), &text, input, out)
    }
}
