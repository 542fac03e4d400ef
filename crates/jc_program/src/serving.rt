//! The command `serve`: the requests of standard input are answered. `work_alone` calls it.

ghost use Rattle.std.specs.Prelude.{◌≡◌, IfOk, IfErr, OnOk};
ghost use Rattle.jc_io.specs.Written.{sink};
ghost use Rattle.jc_program.specs.Faults.{IsCause};
ghost use Rattle.jc_program.specs.Served.{ServesTo, StopsServing};

use crate::fault::WorkFault;
use jc_io::{Sink, Source};
use jc_serve::{ServeFault, serve};
use std::alloc::Global;

/// Answers the requests of the input, each before it reads the next, and returns the status.
pub fn serve_input<I: Source, K: Sink>(
    alloc: Global,
    input: &mut I,
    out: &mut K,
) -> Result<u8, WorkFault>
    ensures served { IfOk result (ServesTo (I.left input.old) (sink K.Sink out.old) (sink K.Sink out.new)) }
    ensures stopped { IfErr result (λ fault. StopsServing fault (I.left input.old) (I.left input.new)
        (sink K.Sink out.old) (sink K.Sink out.new)) }
    ensures same { OnOk result
        ((I.failures input.new ≡ I.failures input.old) × (K.failures out.new ≡ K.failures out.old)) }
    ensures cause { IfErr result (λ fault. IsCause fault ⊥
        (I.failures input.old) (I.failures input.new) (K.failures out.old) (K.failures out.new)) }
{
    match serve(alloc, input, out) {
        Ok(()) => Ok(0),
        Err(ServeFault::ReadFailed) => Err(WorkFault::Read),
        Err(ServeFault::CutShort) => Err(WorkFault::CutShort),
        Err(ServeFault::WriteFailed) => Err(WorkFault::Write),
        Err(ServeFault::TooMany) => Err(WorkFault::TooManyLines),
        Err(ServeFault::Memory) => Err(WorkFault::Memory),
    }
}
