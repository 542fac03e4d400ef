//! The work of one replica's thread: it asks its gate, takes a turn, chooses an event and makes it. run.rt starts it.
ghost use Rattle.std.specs.Prelude.{◌≡◌, ◌+◌, ◌<◌, ◌∷◌, [], List, Option, length};
ghost use Rattle.jc_lock.specs.Shows.{pass_number, pass_left};
ghost use Rattle.jc_runner.specs.Asked.{GateQuestion, Asks, questions_of};
ghost use Rattle.jc_runner.specs.Benches.{IsNewAt, bench_start};
ghost use Rattle.jc_runner.specs.WorkerResult.{IsWorkerResult, end_of};

use crate::bench::{Bench, Pass, StepAnswer};
use jc_choice::{End, Phase, choose};
use std::sync::Wait;

/// A hook that a replica's thread calls before each take, while it holds no turn.
///
/// Contracts see a gate as the questions that it was asked so far, if it shows them.
pub trait Gate {
    ghost asked: { Self → Option (List GateQuestion) };

    /// Asks the gate; `step` is the number of events that the replica has made.
    fn before<R: Wait>(&mut self, rt: &R, replica: u16, step: u64)
        ensures { Asks (asked self.old) (asked self.new) ((replica, step) ∷ []) };
}

/// The result of a thread: the replica's pass, the number of events that it made, and how it ended.
#[derive(Drop)]
pub struct Worked {
    pub(crate) pass: Pass,
    pub(crate) made: u64,
    pub(crate) end: End,
}

/// Returns how a thread ends after a step; `None` where the event was made, and it goes on.
fn end_of(answer: StepAnswer) -> Option<End>
    ensures { result ≡ end_of answer }
{
    match answer {
        StepAnswer::Made {
            number: _,
            trace: _,
        } => None,
        StepAnswer::Refused { front: _, stuck } => Some(End::StuckAt(stuck)),
        StepAnswer::Full { front: _ } | StepAnswer::Spent => Some(End::LimitReached),
        StepAnswer::Memory => Some(End::NoMemory),
    }
}

/// Makes the events that the replica chooses, until no command is left, one is stuck, no take is left, or memory is
/// wanting. The replica chooses while it holds the turn, from the network as it is then. It asks the gate once before
/// each take, also before the last one, which makes no event.
fn work_through<R: Wait, G: Gate>(rt: &R, bench: &Bench, mut pass: Pass, gate: &mut G) -> Worked
    requires new { IsNewAt bench.now (pass_left pass) pass }
    requires there { pass_number pass < length (bench_start bench.now).scripts }
    ensures worked { IsWorkerResult bench.now (pass_number pass) (pass_left pass) result }
    ensures asked { Asks (G.asked gate.old) (G.asked gate.new)
        (questions_of (pass_number pass) (result.made + 1)) }
{
    let p = pass.number();
    let mut made = 0;
    let mut phase = Phase::Start;
    for _ in rt.forever() {
        gate.before(rt, p, made);
        let turn = match bench.lock.take(rt, pass) {
            Ok(turn) => turn,
            Err(spent) => {
                return Worked {
                    pass: spent.pass,
                    made,
                    end: End::LimitReached,
                };
            }
        };
        let recorded = turn.value();
        let (event, next) = match choose(&recorded.net, p, phase) {
            Some(chosen) => chosen,
            None => {
                return Worked {
                    pass: bench.lock.give(turn),
                    made,
                    end: End::Finished,
                };
            }
        };
        let (back, answer) = bench.make(turn, &event);
        pass = back;
        if let Some(end) = end_of(answer) {
            return Worked { pass, made, end };
        }
        made += 1;
        phase = next;
    }
    unreachable!()
}

/// Does the work of a thread that owns its gate.
pub(crate) fn work<R: Wait, G: Gate + Drop>(
    rt: &R,
    bench: &Bench,
    pass: Pass,
    mut gate: G,
) -> Worked
    requires new { IsNewAt bench.now (pass_left pass) pass }
    requires there { pass_number pass < length (bench_start bench.now).scripts }
    ensures { IsWorkerResult bench.now (pass_number pass) (pass_left pass) result }
{
    work_through(rt, bench, pass, &mut gate)
}
