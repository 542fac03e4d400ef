//! Two replicas on plain stores: each call with ample memory, what can be made, and the way back.

ghost use Rattle.std.specs.Prelude.{◌≡◌, ◌&&◌, leb, eqb};
ghost use Rattle.std.specs.List.{list_all};
ghost use Rattle.jc_rules.specs.declared.operation.Op.{Op as AnyOp};

use crate::keys::Keys;
use crate::last_steps::{LAST_STEPS, show_last_steps};
use crate::texts::is_shown;
use jc_parser::parse_script;
use jc_replica::{Replica, ReplicaFault};
use jc_rules::limits::{MAX_COMMANDS, MAX_PATH};
use jc_rules::{Event, Id, Op, Rule, Trace};
use jc_tree::PlainTree;
use std::alloc::{AllocError, Global};
use std::process::Abort;

/// The replica with this number and this script, at its start.
fn replica(
    rt: &impl Abort,
    alloc: Global,
    number: u16,
    script: &str,
) -> Result<Replica<PlainTree>, AllocError> {
    let Ok(script) = parse_script(alloc, script) else {
        return Err(AllocError);
    };
    assert!(rt; script.len() <= MAX_COMMANDS);
    Ok(Replica::new(alloc, number, script, PlainTree::new(alloc)))
}

/// Whether each counter is one that a replica may be passed.
fn are_handed(ops: &[Op]) -> bool
    ensures { result ≡ list_all (λ (o : AnyOp). leb 1 o.id.counter && leb o.id.counter 4194304) ops.now }
{
    ops.iter()
        .all(|op| 1 <= op.id.counter && op.id.counter <= 4_194_304)
}

/// Whether the replica made each operation.
fn are_of(replica: u16, ops: &[Op]) -> bool
    ensures { result ≡ list_all (λ (o : AnyOp). eqb o.id.replica replica) ops.now }
{
    ops.iter().all(|op| op.id.replica == replica)
}

/// The one replica receives what the other one offers.
#[tactic(auto, using(crate::proofs::HandedLemmas::handed))]
fn receive(
    rt: &impl Abort,
    to: &mut Replica<PlainTree>,
    from: &Replica<PlainTree>,
) -> Result<Trace, ReplicaFault> {
    let offered = from.sent();
    assert!(rt; are_handed(offered));
    assert!(rt; are_of(from.number(), offered));
    to.recv(offered)
}

/// The replica receives what it offers itself.
#[tactic(auto, using(crate::proofs::HandedLemmas::handed))]
fn receive_own(rt: &impl Abort, replica: &mut Replica<PlainTree>) -> Result<Trace, ReplicaFault> {
    assert!(rt; are_handed(replica.sent()));
    replica.recv_own()
}

/// The one replica takes one operation of what the other one offers.
#[tactic(auto, using(crate::proofs::HandedLemmas::handed))]
fn take(
    rt: &impl Abort,
    to: &mut Replica<PlainTree>,
    from: &Replica<PlainTree>,
    id: Id,
) -> Result<Trace, ReplicaFault> {
    let offered = from.sent();
    assert!(rt; are_handed(offered));
    assert!(rt; are_of(from.number(), offered));
    to.recv_one(offered, id)
}

/// The replica takes one operation of what it offers itself.
#[tactic(auto, using(crate::proofs::HandedLemmas::handed))]
fn take_own(
    rt: &impl Abort,
    replica: &mut Replica<PlainTree>,
    id: Id,
) -> Result<Trace, ReplicaFault> {
    assert!(rt; are_handed(replica.sent()));
    replica.recv_one_own(id)
}

/// The replica makes the event. What it receives of another one is what that one offers.
pub fn make(
    rt: &impl Abort,
    replica: &mut Replica<PlainTree>,
    other: &Replica<PlainTree>,
    event: &Event,
) -> Result<Trace, ReplicaFault> {
    match event {
        Event::Exec(_) => replica.exec(),
        Event::Send(_) => replica.send(),
        Event::Recv(p, q) if p == q => receive_own(rt, replica),
        Event::Recv(_, _) => receive(rt, replica, other),
        Event::Take(p, q, id) if p == q => take_own(rt, replica, *id),
        Event::Take(_, _, id) => take(rt, replica, other, *id),
        Event::Apply(_, id) => replica.apply(*id),
        Event::Done(_) => replica.done(),
    }
}

/// What is seen of a replica: its commands left, whether it acted, its variables, the greatest counters
/// that it applied of both replicas, and its operations made, offered and received.
#[derive(Clone, Copy, PartialEq, Eq)]
struct Seen {
    left: usize,
    acted: bool,
    vars: usize,
    greatest: (u64, u64),
    made: usize,
    offered: usize,
    received: usize,
}

fn seen_of(replica: &Replica<PlainTree>) -> Seen {
    Seen {
        left: replica.left().len(),
        acted: replica.acted(),
        vars: replica.vars().len(),
        greatest: (replica.ops().greatest_of(0), replica.ops().greatest_of(1)),
        made: replica.queue().len(),
        offered: replica.sent().len(),
        received: replica.received().len(),
    }
}

/// An event, and whether it is made: that is where it can be.
type Row = (Event, bool);

/// Whether the replica can make the event as expected, and makes it; where it is refused, nothing changes.
fn is_made(
    rt: &impl Abort,
    replica: &mut Replica<PlainTree>,
    other: &Replica<PlainTree>,
    row: &Row,
) -> Result<bool, AllocError> {
    let (event, want) = row;
    if event.replica() != replica.number() || replica.can(event)? != *want {
        return Ok(false);
    }
    let before = seen_of(replica);
    let is = make(rt, replica, other, event).is_ok();
    Ok(is == *want && (is || seen_of(replica) == before))
}

/// An event, the number of its refusal, which is 0 where it is made, and what its replica has received after it.
type Taking = (Event, u8, &'static [Id]);

fn number_of(made: &Result<Trace, ReplicaFault>) -> u8 {
    match made {
        Ok(_) => 0,
        Err(ReplicaFault::NoCommand) => 30,
        Err(ReplicaFault::NotAtYield) => 32,
        Err(ReplicaFault::NotReceived) => 34,
        Err(ReplicaFault::DepsMissing) => 36,
        Err(_) => 255,
    }
}

/// Whether a trace, where there is one, is that of a take.
fn is_traced(made: &Result<Trace, ReplicaFault>) -> bool {
    match made {
        Ok(trace) => match trace.runs() {
            [run] => run.rule == Rule::RecvOne && run.count == 1 && run.depth == 0,
            _ => false,
        },
        Err(_) => true,
    }
}

/// Whether the operations that the replica has received have these identifiers.
fn has_received(replica: &Replica<PlainTree>, ids: &[Id]) -> bool {
    let ops = replica.received();
    let mut alike = ops.len() == ids.len();
    for (op, id) in ops.iter().zip(ids) {
        alike = alike && op.id == *id;
    }
    alike
}

/// Whether the event is made or refused so. A take that is made sets `acted` and what was received, and nothing else; one
/// that is refused sets nothing.
fn is_taken(
    rt: &impl Abort,
    replica: &mut Replica<PlainTree>,
    other: &Replica<PlainTree>,
    row: &Taking,
) -> bool {
    let (event, want, received) = row;
    let mut due = seen_of(replica);
    let made = make(rt, replica, other, event);
    if number_of(&made) != *want || !has_received(replica, received) {
        return false;
    }
    if !matches!(event, Event::Take(_, _, _)) {
        return true;
    }
    if made.is_ok() {
        due.acted = true;
        due.received = received.len();
    }
    is_traced(&made) && seen_of(replica) == due
}

/// Two replicas of one document.
#[derive(Drop)]
struct Pair {
    a: Replica<PlainTree>,
    b: Replica<PlainTree>,
}

impl Pair {
    fn new(rt: &impl Abort, alloc: Global, scripts: &[&str; 2]) -> Result<Self, AllocError> {
        let a = replica(rt, alloc, 0, scripts[0])?;
        let b = replica(rt, alloc, 1, scripts[1])?;
        Ok(Pair { a, b })
    }

    fn is_made(&mut self, rt: &impl Abort, row: &Row) -> Result<bool, AllocError> {
        if row.0.replica() == 0 {
            is_made(rt, &mut self.a, &self.b, row)
        } else {
            is_made(rt, &mut self.b, &self.a, row)
        }
    }

    fn seen(&self) -> (Seen, Seen) {
        (seen_of(&self.a), seen_of(&self.b))
    }

    /// Makes the events, and keeps what was seen before each that is made.
    fn make(
        &mut self,
        rt: &impl Abort,
        rows: &[Row],
        kept: &mut Vec<(u16, Seen, Seen)>,
    ) -> Result<(), AllocError> {
        for (number, row) in rows.iter().enumerate() {
            let (of_a, of_b) = self.seen();
            if row.1 {
                kept.push((row.0.replica(), of_a, of_b))?;
            }
            assert!(rt; self.is_made(rt, row)?, "{number}");
        }
        Ok(())
    }

    fn is_taken(&mut self, rt: &impl Abort, row: &Taking) -> bool {
        if row.0.replica() == 0 {
            is_taken(rt, &mut self.a, &self.b, row)
        } else {
            is_taken(rt, &mut self.b, &self.a, row)
        }
    }

    /// Makes the events of such a table, and keeps what was seen before each that is made.
    fn take(
        &mut self,
        rt: &impl Abort,
        rows: &[Taking],
        kept: &mut Vec<(u16, Seen, Seen)>,
    ) -> Result<(), AllocError> {
        for (number, row) in rows.iter().enumerate() {
            let (of_a, of_b) = self.seen();
            if row.1 == 0 {
                kept.push((row.0.replica(), of_a, of_b))?;
            }
            assert!(rt; self.is_taken(rt, row), "{number}");
        }
        Ok(())
    }

    /// Takes each step back: the same is seen as before it.
    fn go_back(&mut self, rt: &impl Abort, kept: &[(u16, Seen, Seen)]) {
        for (p, of_a, of_b) in kept.iter().rev() {
            let is = if *p == 0 {
                self.a.undo()
            } else {
                self.b.undo()
            };
            assert!(rt; is && self.seen() == (*of_a, *of_b));
        }
        assert!(rt; !self.a.undo() && !self.b.undo());
    }
}

const ONE_A: Id = Id {
    counter: 1,
    replica: 0,
};

const TWO_A: Id = Id {
    counter: 2,
    replica: 0,
};

const TWO_B: Id = Id {
    counter: 2,
    replica: 1,
};

/// The identifier of no operation.
const NINE_A: Id = Id {
    counter: 9,
    replica: 0,
};

/// Both replicas insert at the head of a list.
const INSERTS: [&str; 2] = [
    "doc.get(\"l\") := []; yield; doc.get(\"l\").idx(0).insertAfter(\"x\"); yield",
    "yield; doc.get(\"l\").idx(0).insertAfter(\"y\"); yield",
];

/// They meet, with events on the way that can't be made.
const MEETING: &[Row] = &[
    (Event::Send(0), false),
    (Event::Exec(0), true),
    (Event::Exec(0), false),
    (Event::Done(0), false),
    (Event::Send(0), true),
    (Event::Recv(0, 0), true),
    (Event::Apply(0, ONE_A), false),
    (Event::Apply(0, NINE_A), false),
    (Event::Done(0), true),
    (Event::Apply(1, ONE_A), false),
    (Event::Recv(1, 0), true),
    (Event::Apply(1, ONE_A), true),
    (Event::Done(1), true),
    (Event::Exec(0), true),
    (Event::Exec(1), true),
    (Event::Send(0), true),
    (Event::Send(1), true),
    (Event::Recv(0, 1), true),
    (Event::Recv(1, 0), true),
    (Event::Apply(0, TWO_B), true),
    (Event::Apply(1, TWO_A), true),
    (Event::Done(0), true),
    (Event::Done(0), false),
];

const MET: &str =
    "{\"mapT(doc)\":{\"listT(\\\"l\\\")\":{\"next(2@a)\":\"tail\",\"next(2@b)\":\"2@a\",\"next(head)\":\"2@b\",\"pres(2@a)\":[\"2@a\"],\"pres(2@b)\":[\"2@b\"],\"regT(2@a)\":{\"2@a\":\"x\"},\"regT(2@b)\":{\"2@b\":\"y\"}},\"pres(\\\"l\\\")\":[\"1@a\",\"2@a\",\"2@b\"]},\"pres(doc)\":[\"1@a\",\"2@a\",\"2@b\"]}";

/// What is seen of replica 0, whose script has ended, and of replica 1, which is at its last yield.
const MET_SEEN: (Seen, Seen) = (
    Seen {
        left: 0,
        acted: false,
        vars: 0,
        greatest: (2, 2),
        made: 2,
        offered: 2,
        received: 2,
    },
    Seen {
        left: 1,
        acted: true,
        vars: 0,
        greatest: (2, 2),
        made: 1,
        offered: 1,
        received: 2,
    },
);

/// Whether the trees of both are shown so.
fn are_shown(keys: &Keys, pair: &Pair, want: &str) -> Result<bool, AllocError> {
    Ok(is_shown(keys, pair.a.tree(), want)? && is_shown(keys, pair.b.tree(), want)?)
}

/// The replicas meet and begin there: no step is taken back, and all else is as it was.
fn begin(
    rt: &impl Abort,
    keys: &Keys,
    pair: &mut Pair,
    kept: &mut Vec<(u16, Seen, Seen)>,
) -> Result<(), AllocError> {
    pair.make(rt, MEETING, kept)?;
    pair.a.begin();
    pair.b.begin();
    assert!(rt; !pair.a.undo() && !pair.b.undo());
    let is = pair.seen() == MET_SEEN && are_shown(keys, pair, MET)?;
    assert!(rt; is);
    Ok(())
}

/// The replicas meet, take each step back, meet again and begin there.
fn meet(
    rt: &impl Abort,
    keys: &Keys,
    pair: &mut Pair,
    kept: &mut Vec<(u16, Seen, Seen)>,
) -> Result<(), AllocError> {
    pair.make(rt, MEETING, kept)?;
    let is = pair.seen() == MET_SEEN && are_shown(keys, pair, MET)?;
    assert!(rt; is);
    pair.go_back(rt, kept.as_slice());
    let is = are_shown(keys, pair, "{}")?;
    assert!(rt; is);
    begin(rt, keys, pair, kept)
}

/// What two replicas do.
#[derive(Clone, Copy)]
enum Deed {
    /// They meet.
    Meet,
    /// The first one goes as deep as it can.
    GoDeep,
    /// They take operations one at a time.
    Take,
    /// The second one takes many of the first one's, in no order.
    TakeMany,
    /// Their last steps are looked at.
    ShowLastSteps,
}

/// Two new replicas with these scripts do this.
fn play(rt: &impl Abort, keys: &Keys, scripts: &[&str; 2], deed: Deed) -> Result<(), AllocError> {
    let mut pair = Pair::new(rt, keys.alloc, scripts)?;
    play_with(rt, keys, &mut pair, deed)
}

fn play_with(rt: &impl Abort, keys: &Keys, pair: &mut Pair, deed: Deed) -> Result<(), AllocError> {
    let mut kept = Vec::new(keys.alloc);
    match deed {
        Deed::Meet => meet(rt, keys, pair, &mut kept),
        Deed::GoDeep => go_deep(rt, pair, &mut kept),
        Deed::Take => take_each(rt, pair, &mut kept),
        Deed::TakeMany => take_many(rt, pair, &mut kept),
        Deed::ShowLastSteps => {
            show_last_steps(rt, &mut pair.a, &mut pair.b);
            Ok(())
        }
    }
}

pub fn last_steps(rt: &impl Abort, keys: &Keys) -> Result<(), AllocError> {
    play(rt, keys, &LAST_STEPS, Deed::ShowLastSteps)
}

pub fn meeting(rt: &impl Abort, keys: &Keys) -> Result<(), AllocError> {
    play(rt, keys, &INSERTS, Deed::Meet)
}

/// Replica 0 assigns twice; replica 1 has two yields.
const ASSIGNMENTS: [&str; 2] = [
    "doc.get(\"a\") := 1; doc.get(\"a\") := 2; yield",
    "yield; yield",
];

/// Takes of what is offered and of what isn't, out of order and again, also of the replica's own.
const TAKINGS: &[Taking] = &[
    // no yield comes next, and nothing is offered
    (Event::Take(0, 1, NINE_A), 32, &[]),
    (Event::Take(0, 0, NINE_A), 32, &[]),
    // nothing is made, and then nothing offered
    (Event::Take(1, 0, ONE_A), 34, &[]),
    (Event::Exec(0), 0, &[]),
    (Event::Exec(0), 0, &[]),
    (Event::Take(1, 0, ONE_A), 34, &[]),
    (Event::Send(0), 0, &[]),
    (Event::Take(1, 0, NINE_A), 34, &[]),
    (Event::Take(1, 0, TWO_B), 34, &[]),
    (Event::Take(1, 1, ONE_A), 34, &[]),
    // the second one first, and in the next yield again
    (Event::Take(1, 0, TWO_A), 0, &[TWO_A]),
    (Event::Apply(1, TWO_A), 36, &[TWO_A]),
    (Event::Done(1), 0, &[TWO_A]),
    (Event::Take(1, 0, TWO_A), 0, &[TWO_A]),
    (Event::Take(1, 0, ONE_A), 0, &[ONE_A, TWO_A]),
    // nothing new is left for recv
    (Event::Recv(1, 0), 0, &[ONE_A, TWO_A]),
    (Event::Apply(1, ONE_A), 0, &[ONE_A, TWO_A]),
    (Event::Apply(1, TWO_A), 0, &[ONE_A, TWO_A]),
    // what the replica offers itself
    (Event::Take(0, 0, NINE_A), 34, &[]),
    (Event::Take(0, 0, TWO_A), 0, &[TWO_A]),
    // behind the last command
    (Event::Done(1), 0, &[ONE_A, TWO_A]),
    (Event::Take(1, 0, ONE_A), 30, &[ONE_A, TWO_A]),
    (Event::Take(1, 0, NINE_A), 30, &[ONE_A, TWO_A]),
];

/// What is seen then.
const TAKEN_SEEN: (Seen, Seen) = (
    Seen {
        left: 1,
        acted: true,
        vars: 0,
        greatest: (2, 0),
        made: 2,
        offered: 2,
        received: 1,
    },
    Seen {
        left: 0,
        acted: false,
        vars: 0,
        greatest: (2, 0),
        made: 0,
        offered: 0,
        received: 2,
    },
);

/// The replicas take operations one at a time, and take each step back.
fn take_each(
    rt: &impl Abort,
    pair: &mut Pair,
    kept: &mut Vec<(u16, Seen, Seen)>,
) -> Result<(), AllocError> {
    pair.take(rt, TAKINGS, kept)?;
    assert!(rt; pair.seen() == TAKEN_SEEN);
    pair.go_back(rt, kept.as_slice());
    Ok(())
}

const THREE_A: Id = Id {
    counter: 3,
    replica: 0,
};

const FOUR_A: Id = Id {
    counter: 4,
    replica: 0,
};

const FIVE_A: Id = Id {
    counter: 5,
    replica: 0,
};

/// Replica 0 assigns five times.
const FIVE_ASSIGNMENTS: [&str; 2] = [
    "doc.get(\"a\") := 1; doc.get(\"a\") := 2; doc.get(\"a\") := 3; doc.get(\"a\") := 4; doc.get(\"a\") := 5; yield",
    "yield",
];

const MANY_MADE: &[Taking] = &[
    (Event::Exec(0), 0, &[]),
    (Event::Exec(0), 0, &[]),
    (Event::Exec(0), 0, &[]),
    (Event::Exec(0), 0, &[]),
    (Event::Exec(0), 0, &[]),
    (Event::Send(0), 0, &[]),
];

/// Before all, behind all, and between others on either side.
const MANY_TAKEN: &[Taking] = &[
    (Event::Take(1, 0, FOUR_A), 0, &[FOUR_A]),
    (Event::Take(1, 0, THREE_A), 0, &[THREE_A, FOUR_A]),
    (Event::Take(1, 0, ONE_A), 0, &[ONE_A, THREE_A, FOUR_A]),
    (
        Event::Take(1, 0, TWO_A),
        0,
        &[ONE_A, TWO_A, THREE_A, FOUR_A],
    ),
    (
        Event::Take(1, 0, FIVE_A),
        0,
        &[ONE_A, TWO_A, THREE_A, FOUR_A, FIVE_A],
    ),
    (
        Event::Take(1, 0, TWO_A),
        0,
        &[ONE_A, TWO_A, THREE_A, FOUR_A, FIVE_A],
    ),
];

/// Where going back has left no operation, others come as before.
const MANY_AGAIN: &[Taking] = &[
    (Event::Take(1, 0, TWO_A), 0, &[TWO_A]),
    (Event::Take(1, 0, FIVE_A), 0, &[TWO_A, FIVE_A]),
    (Event::Take(1, 0, ONE_A), 0, &[ONE_A, TWO_A, FIVE_A]),
    (
        Event::Recv(1, 0),
        0,
        &[ONE_A, TWO_A, THREE_A, FOUR_A, FIVE_A],
    ),
];

/// The second replica takes operations in no order, goes back, and takes them in another one.
fn take_many(
    rt: &impl Abort,
    pair: &mut Pair,
    kept: &mut Vec<(u16, Seen, Seen)>,
) -> Result<(), AllocError> {
    pair.take(rt, MANY_MADE, kept)?;
    kept.clear();
    pair.a.begin();
    pair.take(rt, MANY_TAKEN, kept)?;
    pair.go_back(rt, kept.as_slice());
    kept.clear();
    pair.take(rt, MANY_AGAIN, kept)?;
    pair.go_back(rt, kept.as_slice());
    Ok(())
}

pub fn takings(rt: &impl Abort, keys: &Keys) -> Result<(), AllocError> {
    play(rt, keys, &ASSIGNMENTS, Deed::Take)?;
    play(rt, keys, &FIVE_ASSIGNMENTS, Deed::TakeMany)
}

/// A script whose 515th command leads to the deepest cursor; the one after it would lead deeper.
fn deepest_script(alloc: Global) -> Result<String, AllocError> {
    let mut script = String::from_str(alloc, "let x = doc")?;
    for _ in 0..MAX_PATH {
        script.push_str("; let x = x.get(\"a\")")?;
    }
    script.push_str("; x := 1; doc := {}; let x = x.get(\"a\")")?;
    Ok(script)
}

/// Replica 0 runs the script up to the command that would lead too deep, and takes each step back.
fn go_deep(
    rt: &impl Abort,
    pair: &mut Pair,
    kept: &mut Vec<(u16, Seen, Seen)>,
) -> Result<(), AllocError> {
    pair.make(rt, &[(Event::Exec(0), true); 515], kept)?;
    pair.make(rt, &[(Event::Exec(0), false)], kept)?;
    assert!(rt; pair.a.left().len() == 1);
    pair.go_back(rt, kept.as_slice());
    Ok(())
}

pub fn deepest_cursor(rt: &impl Abort, keys: &Keys) -> Result<(), AllocError> {
    let script = deepest_script(keys.alloc)?;
    play(rt, keys, &[script.as_str(), ""], Deed::GoDeep)
}
