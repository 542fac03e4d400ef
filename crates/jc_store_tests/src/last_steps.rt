//! The last step of a replica, after each event that is made and on the way back.

use crate::replicas::make;
use jc_replica::{LastStep, Replica};
use jc_rules::{Event, Id, Op};
use jc_syntax::Cmd;
use jc_tree::PlainTree;
use std::process::Abort;
use std::slice::from_ref;

/// What a step did.
#[derive(Clone, Copy)]
enum Kind {
    Bound,
    Made,
    Sent,
    Received,
    Applied,
    Ended,
}

/// An event, what its replica's last step is once it is made, and the identifiers that this step has.
type Row = (Event, Kind, &'static [Id]);

const ONE_A: Id = Id {
    counter: 1,
    replica: 0,
};

const TWO_A: Id = Id {
    counter: 2,
    replica: 0,
};

/// Replica 0 binds a variable and assigns twice; replica 1 has two yields.
pub const LAST_STEPS: [&str; 2] = [
    "let x = doc.get(\"a\"); x := 1; doc.get(\"a\") := 2; yield",
    "yield; yield",
];

const ROWS: &[Row] = &[
    (Event::Exec(0), Kind::Bound, &[]),
    (Event::Exec(0), Kind::Made, &[ONE_A]),
    (Event::Exec(0), Kind::Made, &[TWO_A]),
    (Event::Send(0), Kind::Sent, &[ONE_A, TWO_A]),
    // nothing more was made
    (Event::Send(0), Kind::Sent, &[]),
    (Event::Take(1, 0, TWO_A), Kind::Received, &[TWO_A]),
    // the other one alone is new, and then none
    (Event::Recv(1, 0), Kind::Received, &[ONE_A]),
    (Event::Recv(1, 0), Kind::Received, &[]),
    (Event::Apply(1, ONE_A), Kind::Applied, &[ONE_A]),
    (Event::Done(1), Kind::Ended, &[]),
    (Event::Apply(1, TWO_A), Kind::Applied, &[TWO_A]),
    (Event::Send(1), Kind::Sent, &[]),
    // a replica receives what it offers itself
    (Event::Recv(0, 0), Kind::Received, &[ONE_A, TWO_A]),
    (Event::Done(0), Kind::Ended, &[]),
];

/// Whether the operations have these identifiers.
fn have_ids(ops: &[Op], ids: &[Id]) -> bool {
    let mut alike = ops.len() == ids.len();
    for (op, id) in ops.iter().zip(ids) {
        alike = alike && op.id == *id;
    }
    alike
}

/// Whether the replica's last step is of this kind, with these identifiers.
fn is_last(replica: &Replica<PlainTree>, row: &Row) -> bool {
    let (_, kind, ids) = row;
    match replica.last_step() {
        None => false,
        Some(LastStep::Bound(command)) => {
            matches!(kind, Kind::Bound) && matches!(command, Cmd::Let(_, _))
        }
        Some(LastStep::Made { command, op }) => {
            matches!(kind, Kind::Made)
                && matches!(command, Cmd::Set(_, _))
                && have_ids(from_ref(op), ids)
        }
        Some(LastStep::Sent(ops)) => matches!(kind, Kind::Sent) && have_ids(ops, ids),
        Some(LastStep::Received(came)) => matches!(kind, Kind::Received) && came == *ids,
        Some(LastStep::Applied(op)) => {
            matches!(kind, Kind::Applied) && have_ids(from_ref(op), ids)
        }
        Some(LastStep::Ended) => matches!(kind, Kind::Ended),
    }
}

/// Makes the row's event in the replica, and looks at its last step.
fn there(
    rt: &impl Abort,
    replica: &mut Replica<PlainTree>,
    other: &Replica<PlainTree>,
    row: &Row,
) -> bool {
    make(rt, replica, other, &row.0).is_ok() && is_last(replica, row)
}

/// Looks at the replica's last step, and takes it back.
fn back(replica: &mut Replica<PlainTree>, row: &Row) -> bool {
    is_last(replica, row) && replica.undo()
}

/// Each event that is made is the last step, also on the way back; then there is none, and none where steps begin anew.
pub fn show_last_steps(rt: &impl Abort, a: &mut Replica<PlainTree>, b: &mut Replica<PlainTree>) {
    for (number, row) in ROWS.iter().enumerate() {
        let is = if row.0.replica() == 0 {
            there(rt, a, b, row)
        } else {
            there(rt, b, a, row)
        };
        assert!(rt; is, "{number}");
    }
    go_back(rt, a, b);
    let is = there(rt, a, b, &ROWS[0]);
    a.begin();
    assert!(rt; is && a.last_step().is_none());
}

fn go_back(rt: &impl Abort, a: &mut Replica<PlainTree>, b: &mut Replica<PlainTree>) {
    for row in ROWS.iter().rev() {
        let is = if row.0.replica() == 0 {
            back(a, row)
        } else {
            back(b, row)
        };
        assert!(rt; is);
    }
    assert!(rt; a.last_step().is_none() && b.last_step().is_none());
}
