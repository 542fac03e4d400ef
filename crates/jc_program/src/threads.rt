//! The command `threads`: runs a scenario's replicas in threads, and writes what they made. `work` calls it.

ghost use Rattle.std.specs.Prelude.{◌≡◌, ◌≢◌, ◌+◌, ◌≤◌, codes, IfOk, IfErr, OnOk, OnErr};
ghost use Rattle.jc_io.specs.Streams.{ConsumesUpTo};
ghost use Rattle.jc_rules.specs.declared.limits.TheConstants.{MAX_TEXT, MAX_THREAD_EVENTS};
ghost use Rattle.jc_io.specs.Written.{sink, Sent};
ghost use Rattle.jc_program.specs.ViewOutput.{told_by};
ghost use Rattle.jc_program.specs.Faults.{IsCause, IsUnread};
ghost use Rattle.jc_program.specs.ThreadRuns.{HaveThreaded, HaveStopped};

use crate::fault::WorkFault;
use crate::files::Files;
use crate::reading::scenario_in;
use crate::recording::record;
use crate::sending::send;
use crate::telling::tell;
use jc_io::{Sink, Source};
use std::sync::Wait;
use std::thread::Threads;

/// Runs the replicas of the scenario in a file in threads, each of which makes `limit` events at most. Writes the
/// scenario with the schedule that they made, and on `err` a line for each replica, and returns the status. Where a
/// given event is stuck, its lines alone are written. After a fault nothing is written on `err`.
pub fn threads<R: Threads + Wait + Sync + AllocGlobal + Files, I: Source, K: Sink, E: Sink>(
    rt: &R,
    limit: u64,
    file: &str,
    input: &mut I,
    out: &mut K,
    err: &mut E,
) -> Result<u8, WorkFault>
    requires { limit ≤ MAX_THREAD_EVENTS }
    ensures ok { IfOk result (HaveThreaded limit (told_by (I.left input.old) (R.texts rt.now) file.now)
        (sink K.Sink out.old) (sink K.Sink out.new) (λ lines. Sent lines (sink E.Sink err.old) (sink E.Sink err.new))) }
    ensures stopped { IfErr result (λ fault. HaveStopped limit fault
        (told_by (I.left input.old) (R.texts rt.now) file.now) (sink K.Sink out.old) (sink K.Sink out.new)) }
    ensures quiet { OnErr result (err.new ≡ err.old) }
    ensures most { ConsumesUpTo (MAX_TEXT + 1) (I.left input.old) (I.left input.new) }
    ensures untouched { file.now ≢ codes "-" → input.new ≡ input.old }
    ensures same { OnOk result
        ((I.failures input.new ≡ I.failures input.old) × (K.failures out.new ≡ K.failures out.old)) }
    ensures cause { IfErr result (λ fault. IsCause fault (IsUnread (R.may_fail rt.now) file.now)
        (I.failures input.old) (I.failures input.new) (K.failures out.old) (K.failures out.new)) }
{
    let found = scenario_in(rt, file, input)?;
    match found {
        Ok(scenario) => tell(&record(rt, rt.alloc(), scenario, limit), out, err),
        Err(line) => {
            send(out, line.as_str())?;
            Ok(1)
        }
    }
}
