//! Sessions: a scenario is read, and lines are answered one by one. The program calls `session`.

ghost use Rattle.std.specs.Prelude.{◌≡◌, ℕ, ◌+◌, ◌⊎◌, List, Ok, IfErr, OnOk, IsErrOf};
ghost use Rattle.jc_parser.specs.declared.fault.ScenarioFault.{ScenarioFault as TextFault};
ghost use Rattle.jc_parser.specs.declared.fault.ScenarioFault.TheVariants as T;
ghost use Rattle.jc_debug.specs.Invariant.{session_of};
ghost use Rattle.jc_session.specs.AnswerOf.{origin_in, AllNamed};
ghost use Rattle.jc_session.specs.SessionText.{finished, too_many, text_refused, given_stuck};
ghost use Rattle.jc_session.specs.Sent.{OfLines, OfLinesLeft, LosesFront, AnsweredAll, StopsAt, WentToRead, WentWhole, WentFront, IsPast, ShowsAll, WentRefused, WentGiven, OnScenario};
ghost use Rattle.jc_io.specs.Written.{sink};

use crate::answers::{answer, fault_line};
use crate::lines::{Lines, Next};
use jc_debug::Debugger;
use jc_dump::named_given_text;
use jc_io::{Failed, Sink, Source, write_flushed};
use jc_network::Unstarted;
use jc_scenario::{ScenarioFault, read};
use std::alloc::{AllocError, Global};

/// How a session ended.
#[derive(Clone, Copy)]
pub enum SessionEnd {
    /// At `quit`, or at the end of the lines.
    Finished,
    /// The scenario was refused, for this fault, and no line was read.
    TextRefused(ScenarioFault),
    /// A given event of the scenario is stuck, and no line was read.
    GivenStuck,
}

/// Why a session ended early.
#[derive(Clone, Copy, Debug, PartialEq, Eq)]
pub enum SessionFault {
    /// A read failed.
    ReadFailed,
    /// A write or a flush failed.
    WriteFailed,
    /// A byte past the limits of `MAX_LINES` lines and `MAX_SESSION` bytes was read.
    TooManyLines,
    /// There was no memory.
    Memory,
}

impl From<AllocError> for SessionFault {
    ghost use Rattle.jc_session.specs.declared.sessions.SessionFault.TheVariants.{Memory as NoMemory};

    ghost from_gives = { λ _ fault. fault ≡ NoMemory };

    fn from(_: AllocError) -> Self {
        SessionFault::Memory
    }
}

/// Answers the lines of a source, each before the next is read, up to `quit` or its end.
fn converse<S: Source, K: Sink>(
    alloc: Global,
    debugger: &mut Debugger,
    source: &mut S,
    out: &mut K,
) -> Result<(), SessionFault>
    requires { AllNamed debugger.old }
    // Where nothing failed, the answers of the lines were sent, and no more.
    ensures finished { OnOk result (OfLines (S.left source.old) (λ l.
        AnsweredAll (origin_in debugger.old) (session_of debugger.old) l finished (sink K.Sink out.old)
        (sink K.Sink out.new))) }
    ensures stopped { IfErr result (λ fault. OfLinesLeft (S.left source.old) (S.left source.new) (λ l left.
        StopsAt fault (origin_in debugger.old) (session_of debugger.old) l left (sink K.Sink out.old)
        (sink K.Sink out.new))) }
    // Where no read failed, what was read is a prefix of what was left.
    ensures left { IsErrOf result SessionFault.ReadFailed ⊎ LosesFront (S.left source.old) (S.left source.new) }
    // A failure of the source comes with this fault alone.
    ensures reads { (IsErrOf result SessionFault.ReadFailed → S.failures source.new ≡ S.failures source.old + 1)
        × ((IsErrOf result SessionFault.ReadFailed → ⊥) → S.failures source.new ≡ S.failures source.old) }
{
    let mut lines = Lines::new();
    'lines: loop {
        match lines.next(source) {
            Ok(Next::Whole) => {
                let Some(text) = answer(alloc, debugger, lines.line.content(true))? else {
                    return Ok(());
                };
                match write_flushed(out, text.as_str().as_bytes()) {
                    Ok(()) => {}
                    Err(Failed) => return Err(SessionFault::WriteFailed),
                }
            }
            Ok(Next::Last) => {
                let Some(text) = answer(alloc, debugger, lines.line.content(false))? else {
                    return Ok(());
                };
                match write_flushed(out, text.as_str().as_bytes()) {
                    Ok(()) => return Ok(()),
                    Err(Failed) => return Err(SessionFault::WriteFailed),
                }
            }
            Ok(Next::End) => return Ok(()),
            Ok(Next::TooMany) => return Err(SessionFault::TooManyLines),
            Err(Failed) => return Err(SessionFault::ReadFailed),
        }
    }
}

/// A session: reads the scenario, and answers the lines one by one, each before the next is read.
///
/// It ends at `quit` or at the end of the lines. For a refused scenario its line is written, and for one with a given
/// event that is stuck the lines of that event; then no line is read.
///
/// Refusals: `Memory` and `WriteFailed` before a line is read or for its answer, `ReadFailed` and `TooManyLines` while
/// a line is read. The answers of the lines before were written, whole, and nothing is written after a failure. What
/// was written and read then, byte by byte, is in `specs/Sent.antt`; the bytes that were read are lost.
pub fn session<S: Source, K: Sink>(
    alloc: Global,
    scenario: &[u8],
    lines: &mut S,
    out: &mut K,
) -> Result<SessionEnd, SessionFault>
    // Where nothing failed, the text of the session was sent, and no more: on the lines where their bytes are known,
    // and else on some lines.
    ensures finished { result ≡ Ok SessionEnd.Finished → OfLines (S.left lines.old) (λ l.
        ShowsAll scenario.now l finished (sink K.Sink out.old) (sink K.Sink out.new)) }
    ensures text_refused { (fault : TextFault) → result ≡ Ok (SessionEnd.TextRefused fault)
        → ((l : List ℕ) → ShowsAll scenario.now l (text_refused fault) (sink K.Sink out.old) (sink K.Sink out.new))
        × (lines.new ≡ lines.old) }
    ensures given_stuck { result ≡ Ok SessionEnd.GivenStuck
        → ((l : List ℕ) → ShowsAll scenario.now l given_stuck (sink K.Sink out.old) (sink K.Sink out.new))
        × (lines.new ≡ lines.old) }
    ensures too_many { IsErrOf result SessionFault.TooManyLines
        → OfLinesLeft (S.left lines.old) (S.left lines.new) (λ l left.
        ShowsAll scenario.now l too_many (sink K.Sink out.old) (sink K.Sink out.new) × IsPast l left) }
    // After a failed read: the answers of all lines whose LF was read.
    ensures read { IsErrOf result SessionFault.ReadFailed → OnScenario scenario.now (λ O A.
        OfLinesLeft (S.left lines.old) (S.left lines.new) (λ l left.
        WentToRead O A l left (sink K.Sink out.old) (sink K.Sink out.new))) }
    // Without memory: those of the lines before, whole; or nothing, where memory was refused before the first line.
    ensures memory { IsErrOf result SessionFault.Memory
        → ((lines.new ≡ lines.old) × (out.new ≡ out.old))
        ⊎ OnScenario scenario.now (λ O A.
        OfLinesLeft (S.left lines.old) (S.left lines.new) (λ l left.
        WentWhole O A l left (sink K.Sink out.old) (sink K.Sink out.new))) }
    // After a failed write: those of the lines before, whole, and the next one up to the failure; or, up to the
    // failure, the line of a refused scenario or the lines of a given event that is stuck.
    ensures write { IsErrOf result SessionFault.WriteFailed
        → ((lines.new ≡ lines.old) × WentRefused scenario.now (sink K.Sink out.old) (sink K.Sink out.new))
        ⊎ ((lines.new ≡ lines.old) × WentGiven scenario.now (sink K.Sink out.old) (sink K.Sink out.new))
        ⊎ OnScenario scenario.now (λ O A.
        OfLinesLeft (S.left lines.old) (S.left lines.new) (λ l left.
        WentFront O A l left (sink K.Sink out.old) (sink K.Sink out.new))) }
    // Where no read failed, what was read is a prefix of the lines.
    ensures left { IsErrOf result SessionFault.ReadFailed ⊎ LosesFront (S.left lines.old) (S.left lines.new) }
    // Failures come with these answers alone.
    ensures reads { (IsErrOf result SessionFault.ReadFailed → S.failures lines.new ≡ S.failures lines.old + 1)
        × ((IsErrOf result SessionFault.ReadFailed → ⊥) → S.failures lines.new ≡ S.failures lines.old) }
    ensures writes { (IsErrOf result SessionFault.WriteFailed → K.failures out.new ≡ K.failures out.old + 1)
        × ((IsErrOf result SessionFault.WriteFailed → ⊥) → K.failures out.new ≡ K.failures out.old) }
{
    let scenario = match read(alloc, scenario) {
        Ok(scenario) => scenario,
        Err(fault) => {
            let line = fault_line(alloc, fault.refusal(), fault.place())?;
            match write_flushed(out, line.as_str().as_bytes()) {
                Ok(()) => return Ok(SessionEnd::TextRefused(fault)),
                Err(Failed) => return Err(SessionFault::WriteFailed),
            }
        }
    };
    let mut debugger = match Debugger::of(alloc, scenario) {
        Ok(debugger) => debugger,
        Err(Unstarted::Given { names, at, stuck }) => {
            let text = named_given_text(alloc, &names, at, &stuck)?;
            match write_flushed(out, text.as_str().as_bytes()) {
                Ok(()) => return Ok(SessionEnd::GivenStuck),
                Err(Failed) => return Err(SessionFault::WriteFailed),
            }
        }
        Err(Unstarted::Memory) => return Err(SessionFault::Memory),
    };
    match converse(alloc, &mut debugger, lines, out) {
        Ok(()) => Ok(SessionEnd::Finished),
        Err(fault) => Err(fault),
    }
}
