//! The start of a replica's thread, and what says that it was refused. run.rt starts them all.
ghost use Rattle.std.specs.Prelude.{◌≡◌, ◌<◌, length, IfOk};
ghost use Rattle.jc_lock.specs.Shows.{pass_number};
ghost use Rattle.jc_runner.specs.Benches.{IsNewAt, bench_start};

use crate::bench::{Bench, Pass};
use crate::worker::{Gate, Worked, work};
use std::snapshot::Snapshot;
use std::sync::Wait;
use std::thread::{Promise, PromisedHandle, Scope};

/// That the start of a thread was refused. Nothing but a refused start makes one, so there is no 47 without it. The
/// library's error can't stand for this, since everybody can make one.
#[derive(Clone, Copy, Debug, PartialEq, Eq)]
pub struct SpawnRefused {
    refused: (),
}

/// The promise of a replica's thread: what its result is.
#[derive(Drop)]
pub struct Works {
    bench: Snapshot<Bench>,
    number: u16,
    limit: u64,
}

impl Promise<Worked> for Works {
    ghost use Rattle.jc_runner.specs.WorkerResult.{IsWorkerResult};

    ghost kept_by = { λ p w. IsWorkerResult p.bench.value p.number p.limit w };
}

/// Starts the thread of a new pass.
pub(crate) fn start<'s, E, R: Wait + Sync, G: Gate + Send + Drop + 's>(
    rt: &'s R,
    scope: &Scope<'s, E>,
    bench: &'s Bench,
    pass: Pass,
    gate: G,
    limit: u64,
) -> Result<PromisedHandle<Worked, Works>, SpawnRefused>
    requires new { IsNewAt bench.now limit pass }
    requires there { pass_number pass < length (bench_start bench.now).scripts }
    ensures bench { IfOk result (λ handle. handle.promise.bench.value ≡ bench.now) }
    ensures number { IfOk result (λ handle. handle.promise.number ≡ pass_number pass) }
    ensures limit { IfOk result (λ handle. handle.promise.limit ≡ limit) }
{
    let promise = Works {
        bench: Snapshot::of(bench),
        number: pass.number(),
        limit,
    };
    match scope.spawn_with(promise, move || work(rt, bench, pass, gate)) {
        Ok(handle) => Ok(handle),
        Err(_) => Err(SpawnRefused { refused: () }),
    }
}
