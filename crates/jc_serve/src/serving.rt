//! The command `serve`: requests are read one by one, and each is answered before the next is read.

ghost use Rattle.std.specs.Prelude.{◌≡◌, ◌⊎◌, ◌++◌, ◌∷◌, ◌+◌, ◌↔◌, [], None, Ok, true, false, IsTrue, IfOk, IfErr, OnOk, IsErrOf};
ghost use Rattle.jc_io.specs.Written.{sink, Wrote, Interrupted, Written};
ghost use Rattle.jc_session.specs.Views.{line_of_bytes};
ghost use Rattle.jc_session.specs.Requests as Q;
ghost use Rattle.jc_requests.specs.Asked as requests;
ghost use Rattle.jc_requests.specs.Input.{size_of, says, brings, finished, cut_short, too_many};
ghost use Rattle.jc_requests.specs.Views.{asked_view};
ghost use Rattle.jc_serve.specs.Subjects.{IsSubject};
ghost use Rattle.jc_serve.specs.Serving.{Held as AnyHeld, IsFirst, IsQuit, Serves};
ghost use Rattle.jc_serve.specs.Stopped.{StoppedAtRead, StoppedWhole, StoppedInside, LeftPast};
ghost use Rattle.jc_serve.specs.Progress.{IsHeldAs, IsHeld, IsOfAnswer, LeadsOn};

use crate::answers::answer;
use crate::subjects::{Subject, counts_answer, subject_of};
use jc_answers::refused;
use jc_io::{Failed, ReadFault, Sink, Source, write_flushed};
use jc_requests::{Asked, Input, Turn, asked};
use jc_rules::Refusal;
use jc_session::Request;
use std::alloc::{AllocError, Global};

/// Why requests ended early.
#[derive(Clone, Copy, Debug, PartialEq, Eq)]
pub enum ServeFault {
    /// A read failed.
    ReadFailed,
    /// The input ended within a text.
    CutShort,
    /// A write or a flush failed.
    WriteFailed,
    /// A byte past the limits of an input was read.
    TooMany,
    /// There was no memory.
    Memory,
}

impl From<AllocError> for ServeFault {
    ghost use Rattle.jc_serve.specs.declared.serving.ServeFault.TheVariants.{Memory as NoMemory};

    ghost from_gives = { λ _ fault. fault ≡ NoMemory };

    fn from(_: AllocError) -> Self {
        ServeFault::Memory
    }
}

impl From<ReadFault> for ServeFault {
    ghost use Rattle.jc_serve.specs.Progress.{fault_of_read};

    ghost from_gives = { λ read fault. fault ≡ fault_of_read read };

    fn from(fault: ReadFault) -> Self {
        match fault {
            ReadFault::Failed => ServeFault::ReadFailed,
            ReadFault::Memory => ServeFault::Memory,
        }
    }
}

/// The text that there is, and what it is.
#[derive(Drop)]
struct Held {
    text: Vec<u8>,
    subject: Subject,
}

impl Held {
    fn of(alloc: Global, text: Vec<u8>) -> Result<Self, AllocError>
        ensures { IfOk result (λ held. (H : AnyHeld)
            × (H.text ≡ text.items) × IsSubject text.items H.subject × IsHeldAs H held) }
    {
        let subject = subject_of(alloc, text.as_slice())?;
        Ok(Held { text, subject })
    }
}

// ---- one request

/// An answer with its LF.
fn ended(answer: Vec<u8>) -> Result<Vec<u8>, AllocError>
    ensures { IfOk result (λ line. line.items ≡ answer.items ++ 10 ∷ []) }
{
    let mut line = answer;
    line.push(b'\n')?;
    Ok(line)
}

/// Writes an answer as a line, and flushes it.
fn send<K: Sink>(out: &mut K, answer: Vec<u8>) -> Result<(), ServeFault>
    ensures ok { OnOk result (Wrote (answer.items ++ 10 ∷ []) (sink K.Sink out.old) (sink K.Sink out.new)) }
    ensures memory { IsErrOf result ServeFault.Memory → out.new ≡ out.old }
    ensures write { IsErrOf result ServeFault.WriteFailed
        → Interrupted (answer.items ++ 10 ∷ []) (sink K.Sink out.old) (sink K.Sink out.new) }
    ensures kind { IfErr result IsOfAnswer }
{
    let line = ended(answer)?;
    match write_flushed(out, line.as_slice()) {
        Ok(()) => Ok(()),
        Err(Failed) => Err(ServeFault::WriteFailed),
    }
}

/// Whether a request is one to end.
fn is_quit(request: &Asked<'_>) -> bool
    ensures { IsTrue result ↔ (asked_view request.now ≡ requests.of_session Q.quit) }
{
    matches!(request, Asked::OfSession(Request::Quit))
}

/// The answer to a line, and whether more is read behind it.
fn line_answer(
    alloc: Global,
    held: &mut Held,
    line: Option<&[u8]>,
) -> Result<(Vec<u8>, bool), AllocError>
    requires held { IsHeld held.old }
    requires no_text { size_of (requests.asked (line_of_bytes line)) ≡ None }
    ensures answer { IfOk result (λ found.
        LeadsOn held.old (says (line_of_bytes line.entry)) held.new found.0.items) }
    ensures more { IfOk result (λ found. found.1 ≡ false ↔ IsQuit (says (line_of_bytes line.entry))) }
{
    let Some(request) = asked(line) else {
        let text = refused(alloc, Refusal::BadLine)?;
        return Ok((text, true));
    };
    let more = !is_quit(&request);
    let text = answer(alloc, held.text.as_slice(), &mut held.subject, request)?;
    Ok((text, more))
}

/// Holds a text, and returns how much there is of it.
fn text_answer(alloc: Global, held: &mut Held, text: Vec<u8>) -> Result<Vec<u8>, AllocError>
    ensures { IfOk result (λ answer. LeadsOn held.old (brings text.items) held.new answer.items) }
{
    *held = Held::of(alloc, text)?;
    counts_answer(alloc, &held.subject)
}

// ---- all requests

/// Answers requests, each before the next is read, up to `quit` or the input's end. The text is that before the first.
fn converse<S: Source, K: Sink>(
    alloc: Global,
    held: &mut Held,
    source: &mut S,
    out: &mut K,
) -> Result<(), ServeFault>
    requires { (H : AnyHeld) × IsFirst H × IsHeldAs H held.old }
    ensures finished { OnOk result (Written (λ text. Serves (S.left source.old) text finished)
        (sink K.Sink out.old) (sink K.Sink out.new)) }
    ensures too_many { IsErrOf result ServeFault.TooMany
        → Written (λ text. Serves (S.left source.old) text too_many) (sink K.Sink out.old) (sink K.Sink out.new)
        × LeftPast (S.left source.old) (S.left source.new) }
    ensures cut_short { IsErrOf result ServeFault.CutShort
        → Written (λ text. Serves (S.left source.old) text cut_short) (sink K.Sink out.old) (sink K.Sink out.new) }
    ensures read { IsErrOf result ServeFault.ReadFailed
        → StoppedAtRead (S.left source.old) (S.left source.new) (sink K.Sink out.old) (sink K.Sink out.new) }
    ensures memory { IsErrOf result ServeFault.Memory
        → StoppedWhole (S.left source.old) (S.left source.new) (sink K.Sink out.old) (sink K.Sink out.new) }
    ensures write { IsErrOf result ServeFault.WriteFailed
        → StoppedInside (S.left source.old) (S.left source.new) (sink K.Sink out.old) (sink K.Sink out.new) }
    ensures reads { (IsErrOf result ServeFault.ReadFailed → S.failures source.new ≡ S.failures source.old + 1)
        × ((IsErrOf result ServeFault.ReadFailed → ⊥) → S.failures source.new ≡ S.failures source.old) }
    ensures writes { (IsErrOf result ServeFault.WriteFailed → K.failures out.new ≡ K.failures out.old + 1)
        × ((IsErrOf result ServeFault.WriteFailed → ⊥) → K.failures out.new ≡ K.failures out.old) }
{
    let mut input = Input::new();
    'requests: loop {
        match input.next(alloc, source)? {
            Turn::Line => {
                let (answer, more) = line_answer(alloc, held, input.line())?;
                send(out, answer)?;
                if !more {
                    return Ok(());
                }
            }
            Turn::Text(text) => send(out, text_answer(alloc, held, text)?)?,
            Turn::End => return Ok(()),
            Turn::TooMany => return Err(ServeFault::TooMany),
            Turn::CutShort => return Err(ServeFault::CutShort),
        }
    }
}

/// Answers requests, each before the next is read, up to `quit` or the input's end.
///
/// The answers of the requests before a fault were written, whole, and nothing is written after a failure. What was
/// written and read then is in `specs/Stopped.antt`.
pub fn serve<S: Source, K: Sink>(
    alloc: Global,
    source: &mut S,
    out: &mut K,
) -> Result<(), ServeFault>
    // Where nothing failed, the answers of the requests were written, and no more.
    ensures finished { OnOk result (Written (λ text. Serves (S.left source.old) text finished)
        (sink K.Sink out.old) (sink K.Sink out.new)) }
    ensures too_many { IsErrOf result ServeFault.TooMany
        → Written (λ text. Serves (S.left source.old) text too_many) (sink K.Sink out.old) (sink K.Sink out.new)
        × LeftPast (S.left source.old) (S.left source.new) }
    ensures cut_short { IsErrOf result ServeFault.CutShort
        → Written (λ text. Serves (S.left source.old) text cut_short) (sink K.Sink out.old) (sink K.Sink out.new) }
    // After a failed read: the answers of all requests that were read whole.
    ensures read { IsErrOf result ServeFault.ReadFailed
        → StoppedAtRead (S.left source.old) (S.left source.new) (sink K.Sink out.old) (sink K.Sink out.new) }
    // Without memory: those of first requests, whole, and at most the next one was read; or nothing, where memory was
    // refused before the first.
    ensures memory { IsErrOf result ServeFault.Memory
        → ((source.new ≡ source.old) × (out.new ≡ out.old))
        ⊎ StoppedWhole (S.left source.old) (S.left source.new) (sink K.Sink out.old) (sink K.Sink out.new) }
    // After a failed write: those of first requests, whole, and the next one up to the failure, behind which few bytes
    // were read.
    ensures write { IsErrOf result ServeFault.WriteFailed
        → StoppedInside (S.left source.old) (S.left source.new) (sink K.Sink out.old) (sink K.Sink out.new) }
    // Failures come with these answers alone.
    ensures reads { (IsErrOf result ServeFault.ReadFailed → S.failures source.new ≡ S.failures source.old + 1)
        × ((IsErrOf result ServeFault.ReadFailed → ⊥) → S.failures source.new ≡ S.failures source.old) }
    ensures writes { (IsErrOf result ServeFault.WriteFailed → K.failures out.new ≡ K.failures out.old + 1)
        × ((IsErrOf result ServeFault.WriteFailed → ⊥) → K.failures out.new ≡ K.failures out.old) }
{
    let mut held = Held::of(alloc, Vec::new(alloc))?;
    converse(alloc, &mut held, source, out)
}
