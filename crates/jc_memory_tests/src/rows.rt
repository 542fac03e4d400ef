//! Scenarios for the tests of the other files, and the networks at their starts.

ghost use Rattle.jc_scenario.specs.WellFormed.{IsWellFormedScenario};
ghost use Rattle.jc_scenario.specs.Views.{scenario_view};

use jc_dump::dump_replica;
use jc_network::{CompareFault, Net};
use jc_rules::Event;
use jc_scenario::{Scenario, read};
use std::alloc::Global;
use std::process::Abort;

/// One replica deletes a map in which the other one assigns a key.
pub const DELETION: &str =
    "jsoncrdt 1 replica a { doc.get(\"m\") := {}; yield; doc.get(\"m\").delete; yield } replica b { yield; doc.get(\"m\").get(\"k\") := 1; yield } schedule { a.exec; a.send; a.done; b.recv(a); b.apply(1, a); b.done; a.exec; b.exec; a.send; b.send; a.recv(b); b.recv(a); a.apply(2, b); b.apply(2, a) }";

/// Both insert at the head of a list.
pub const INSERTS: &str =
    "jsoncrdt 1 replica a { doc.get(\"l\") := []; yield; doc.get(\"l\").idx(0).insertAfter(\"x\"); yield } replica b { yield; doc.get(\"l\").idx(0).insertAfter(\"y\"); yield } schedule { a.exec; a.send; a.done; b.recv(a); b.apply(1, a); b.done; a.exec; b.exec; a.send; b.send; a.recv(b); b.recv(a); a.apply(2, b); b.apply(2, a) }";

/// A list with a deleted element. The last command is stuck after its end.
pub const TOMBSTONE: &str =
    "jsoncrdt 1 replica a { doc := []; doc.idx(0).insertAfter(\"x\"); doc.idx(1).insertAfter(\"y\"); doc.idx(1).delete; let z = doc.idx(1); let w = doc.idx(2) } schedule { a.exec; a.exec; a.exec; a.exec; a.exec; a.exec }";

/// An assignment eight names down, and one at the top, which takes it back.
pub const DEEP: &str =
    "jsoncrdt 1 replica a { let x = doc; let x = x.get(\"a\"); let x = x.get(\"a\"); let x = x.get(\"a\"); let x = x.get(\"a\"); let x = x.get(\"a\"); let x = x.get(\"a\"); let x = x.get(\"a\"); let x = x.get(\"a\"); x := 1; doc := {}; let x = x.get(\"a\") } schedule { a.exec; a.exec; a.exec; a.exec; a.exec; a.exec; a.exec; a.exec; a.exec; a.exec; a.exec; a.exec }";

/// Each kind of command, expression and value, and given events.
pub const WORDS: &str =
    "jsoncrdt 2\nreplica a {\n  let x = doc.get(\"k\\n\").idx(4294967295);\n  x := -1.5e3;\n  x.insertAfter(\"s\");\n  x.delete;\n  let y = x.keys;\n  let z = doc.values;\n  doc := true;\n  doc := false;\n  doc := null;\n  doc := {};\n  doc := [];\n  yield;\n}\nreplica b {\n  yield;\n}\ngiven {\n  b.send;\n  b.recv(a);\n}\nschedule {\n  a.exec;\n  a.send;\n  a.done;\n  b.recv(a);\n  b.apply(1, a);\n}\n";

/// These texts, and the other scenarios.
pub const TEXTS: [&str; 5] = [WORDS, DELETION, INSERTS, TOMBSTONE, DEEP];

/// The scenario with this text, which is one.
pub fn scene(rt: &impl Abort, alloc: Global, text: &str) -> Scenario
    ensures { IsWellFormedScenario (scenario_view result) }
{
    match read(alloc, text.as_bytes()) {
        Ok(scenario) => scenario,
        Err(_) => panic!(rt; "no scenario"),
    }
}

/// The network at the start of the scenario with this text, and its schedule.
pub fn start(rt: &impl Abort, alloc: Global, text: &str) -> (Net, Vec<Event>) {
    let scenario = scene(rt, alloc, text);
    match Net::start(alloc, &scenario) {
        Ok(net) => (net, scenario.schedule),
        Err(_) => panic!(rt; "no network"),
    }
}

/// The dump lines of all replicas.
pub fn dumps(alloc: Global, net: &Net) -> Result<String, CompareFault> {
    let mut lines = String::new(alloc);
    for p in 0..net.names().len() as u16 {
        lines.push_str(dump_replica(alloc, net, p)?.as_str())?;
    }
    Ok(lines)
}

/// The network has these dump lines.
pub fn has_dumps(alloc: Global, net: &Net, want: &str) -> bool {
    match dumps(alloc, net) {
        Ok(lines) => lines.as_str() == want,
        Err(_) => false,
    }
}
