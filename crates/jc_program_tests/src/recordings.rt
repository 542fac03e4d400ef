//! Tests of `record`: runs by threads that can go in one way alone, and their texts.

use jc_program::{Outcome, record};
use jc_scenario::read;
use std::process::Abort;
use std::sync::Wait;
use std::thread::Threads;

const TWO_KEYS: &str =
    "jsoncrdt 1 replica a { doc.get(\"a\") := 1; doc.get(\"b\") := 2 } schedule { a.done }";

/// The second replica is stuck at once, the first one isn't.
const ONE_STUCK: &str =
    "jsoncrdt 1 replica a { doc.get(\"a\") := 1 } replica b { let s = doc.keys }";

const BOTH: &str =
    "jsoncrdt 1\nreplica a {\n  doc.get(\"a\") := 1;\n  doc.get(\"b\") := 2;\n}\nschedule {\n  a.exec;\n  a.exec;\n}\n";

const FIRST: &str =
    "jsoncrdt 1\nreplica a {\n  doc.get(\"a\") := 1;\n  doc.get(\"b\") := 2;\n}\nschedule {\n  a.exec;\n}\n";

const BESIDE: &str =
    "jsoncrdt 1\nreplica a {\n  doc.get(\"a\") := 1;\n}\nreplica b {\n  let s = doc.keys;\n}\nschedule {\n  a.exec;\n}\n";

/// A scenario's text, the number of events of each replica at most, the text and the lines of the recording, and the
/// outcome.
const RUNS: &[(&str, u16, &str, &str, Outcome)] = &[
    (TWO_KEYS, 2, BOTH, "a made 2 limit\n", Outcome::Done),
    (TWO_KEYS, 100, BOTH, "a made 2 finished\n", Outcome::Done),
    (TWO_KEYS, 1, FIRST, "a made 1 limit\n", Outcome::Done),
    (
        ONE_STUCK,
        100,
        BESIDE,
        "a made 1 finished\nb made 0 stuck 27 NoMap b.exec\n",
        Outcome::Stuck,
    ),
];

fn expect<R: Threads + Wait + Sync + AllocGlobal + Abort>(
    rt: &R,
    text: &str,
    limit: u16,
    shown: &str,
    told: &str,
    outcome: Outcome,
) {
    let Ok(scenario) = read(rt.alloc(), text.as_bytes()) else {
        panic!(rt; "refused")
    };
    let Ok(recording) = record(rt, rt.alloc(), scenario, u64::from(limit)) else {
        panic!(rt; "no recording")
    };
    assert!(rt; recording.text.as_str() == shown);
    assert!(rt; recording.lines.as_str() == told);
    assert!(rt; recording.outcome == outcome);
}

#[test]
fn what_is_told(rt: HostRuntime) {
    for (text, limit, shown, told, outcome) in RUNS {
        expect(&rt, text, *limit, shown, told, *outcome);
    }
}
