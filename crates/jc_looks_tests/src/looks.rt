//! Looks at the networks to which given events lead.

ghost use Rattle.std.specs.Prelude.{◌<◌, IfOk};
ghost use Rattle.jc_scenario.specs.Views.{scenario_view};
ghost use Rattle.jc_scenario.specs.WellFormed.{IsWellFormedScenario};
ghost use Rattle.jc_looks.specs.Looks.{IsWithin};

use jc_looks::{Look, LookFault, given_network, shown};
use jc_network::Net;
use jc_parser::parse_expr;
use jc_scenario::{Scenario, read};
use jc_syntax::Expr;
use std::alloc::{AllocError, Global};
use std::process::Abort;
use std::test::Fail;

/// What is looked at, by the numbers of replicas and the texts of expressions.
#[derive(Clone, Copy)]
enum Shows {
    Views,
    View(u16),
    Place(u16, &'static str),
    States,
    State(u16),
    Brief(u16),
    Eval(u16, &'static str),
}

/// How many of the given events lead there, what is looked at, and the answer.
type Row = (usize, Shows, &'static str);

/// Two replicas assign to one place. The one applies what the other handed on, and binds a variable of each kind.
const MERGED: &str = "jsoncrdt 2
    replica p {
      doc.get(\"!k\") := \"a\\n\"; doc.get(\"l\") := []; doc.get(\"l\").idx(0).insertAfter(\"x\"); yield;
      let first = doc.get(\"l\").idx(0); let ks = doc.keys; let vs = doc.get(\"!k\").values; yield }
    replica q { doc.get(\"!k\") := 2; yield }
    given {
      p.exec; q.exec; q.send; p.exec; p.exec; p.take(q, 1, q); p.apply(1, q); p.done; p.exec; p.exec; p.exec }
    schedule {}";

const ROWS: &[Row] = &[
    // Views and states.
    (
        11,
        Shows::Views,
        "[{\"doc\":{\"!!k\":{\"!conflict\":{\"values\":[[\"1@p\",\"a\\n\"],[\"1@q\",2]]}},\"l\":[\"x\"]},\"name\":\"p\"},{\"doc\":{\"!!k\":2},\"name\":\"q\"}]",
    ),
    (11, Shows::View(1), "{\"doc\":{\"!!k\":2},\"name\":\"q\"}"),
    (
        11,
        Shows::States,
        "[{\"acted\":false,\"left\":1,\"name\":\"p\",\"ops\":[\"1@p\",\"1@q\",\"2@p\",\"3@p\"],\"queue\":[\"1@p\",\"2@p\",\"3@p\"],\"recv\":[\"1@q\"],\"send\":[],\"tree\":{\"mapT(doc)\":{\"listT(\\\"l\\\")\":{\"next(3@p)\":\"tail\",\"next(head)\":\"3@p\",\"pres(3@p)\":[\"3@p\"],\"regT(3@p)\":{\"3@p\":\"x\"}},\"pres(\\\"!k\\\")\":[\"1@p\",\"1@q\"],\"pres(\\\"l\\\")\":[\"2@p\",\"3@p\"],\"regT(\\\"!k\\\")\":{\"1@p\":\"a\\n\",\"1@q\":{\"n\":\"2\"}}},\"pres(doc)\":[\"1@p\",\"1@q\",\"2@p\",\"3@p\"]},\"vars\":{\"first\":{\"cursor\":[\"mapT(doc)\",\"listT(\\\"l\\\")\",\"head\"]},\"ks\":{\"keys\":[\"!k\",\"l\"]},\"vs\":{\"values\":[[\"1@p\",\"a\\n\"],[\"1@q\",{\"n\":\"2\"}]]}}},{\"acted\":true,\"left\":1,\"name\":\"q\",\"ops\":[\"1@q\"],\"queue\":[\"1@q\"],\"recv\":[],\"send\":[\"1@q\"],\"tree\":{\"mapT(doc)\":{\"pres(\\\"!k\\\")\":[\"1@q\"],\"regT(\\\"!k\\\")\":{\"1@q\":{\"n\":\"2\"}}},\"pres(doc)\":[\"1@q\"]},\"vars\":{}}]",
    ),
    (
        11,
        Shows::State(1),
        "{\"acted\":true,\"left\":1,\"name\":\"q\",\"ops\":[\"1@q\"],\"queue\":[\"1@q\"],\"recv\":[],\"send\":[\"1@q\"],\"tree\":{\"mapT(doc)\":{\"pres(\\\"!k\\\")\":[\"1@q\"],\"regT(\\\"!k\\\")\":{\"1@q\":{\"n\":\"2\"}}},\"pres(doc)\":[\"1@q\"]},\"vars\":{}}",
    ),
    (
        11,
        Shows::Brief(0),
        "{\"acted\":false,\"left\":1,\"name\":\"p\",\"ops\":[\"1@p\",\"1@q\",\"2@p\",\"3@p\"],\"queue\":[\"1@p\",\"2@p\",\"3@p\"],\"recv\":[\"1@q\"],\"send\":[],\"vars\":{\"first\":{\"cursor\":[\"mapT(doc)\",\"listT(\\\"l\\\")\",\"head\"]},\"ks\":{\"keys\":[\"!k\",\"l\"]},\"vs\":{\"values\":[[\"1@p\",\"a\\n\"],[\"1@q\",{\"n\":\"2\"}]]}}}",
    ),
    // What expressions give, and what is at the places to which they lead.
    (11, Shows::Eval(0, "doc"), "{\"cursor\":[\"doc\"]}"),
    (
        11,
        Shows::Eval(0, "first"),
        "{\"cursor\":[\"mapT(doc)\",\"listT(\\\"l\\\")\",\"head\"]}",
    ),
    (11, Shows::Eval(0, "ks"), "{\"keys\":[\"!k\",\"l\"]}"),
    (
        11,
        Shows::Eval(0, "vs"),
        "{\"values\":[[\"1@p\",\"a\\n\"],[\"1@q\",{\"n\":\"2\"}]]}",
    ),
    (
        11,
        Shows::Eval(0, "doc.get(\"l\").idx(1)"),
        "{\"cursor\":[\"mapT(doc)\",\"listT(\\\"l\\\")\",\"3@p\"]}",
    ),
    (
        11,
        Shows::Eval(0, "doc.get(\"none\").get(\"a\")"),
        "{\"cursor\":[\"mapT(doc)\",\"mapT(\\\"none\\\")\",\"\\\"a\\\"\"]}",
    ),
    (
        11,
        Shows::Place(0, "doc"),
        "{\"doc\":{\"!!k\":{\"!conflict\":{\"values\":[[\"1@p\",\"a\\n\"],[\"1@q\",2]]}},\"l\":[\"x\"]},\"name\":\"p\"}",
    ),
    (11, Shows::Place(0, "first"), "{\"name\":\"p\"}"),
    (11, Shows::Place(0, "ks"), "{\"keys\":[\"!k\",\"l\"]}"),
    (
        11,
        Shows::Place(0, "vs"),
        "{\"values\":[[\"1@p\",\"a\\n\"],[\"1@q\",{\"n\":\"2\"}]]}",
    ),
    (
        11,
        Shows::Place(0, "doc.get(\"!k\")"),
        "{\"doc\":{\"!conflict\":{\"values\":[[\"1@p\",\"a\\n\"],[\"1@q\",2]]}},\"name\":\"p\"}",
    ),
    (11, Shows::Place(0, "doc.get(\"none\")"), "{\"name\":\"p\"}"),
    (
        11,
        Shows::Place(0, "doc.get(\"l\")"),
        "{\"doc\":[\"x\"],\"name\":\"p\"}",
    ),
    (
        11,
        Shows::Place(0, "doc.get(\"l\").idx(1)"),
        "{\"doc\":\"x\",\"name\":\"p\"}",
    ),
    // Expressions that give nothing.
    (
        11,
        Shows::Eval(1, "first"),
        "{\"refused\":{\"name\":\"UnboundVariable\",\"number\":22}}",
    ),
    (
        11,
        Shows::Eval(0, "first.get(\"a\")"),
        "{\"refused\":{\"name\":\"GetOnHead\",\"number\":23}}",
    ),
    (
        11,
        Shows::Eval(0, "ks.keys"),
        "{\"refused\":{\"name\":\"NotACursor\",\"number\":24}}",
    ),
    (
        11,
        Shows::Eval(0, "doc.get(\"none\").idx(1)"),
        "{\"refused\":{\"key\":\"listT(\\\"none\\\")\",\"name\":\"NoSuchNode\",\"number\":25}}",
    ),
    (
        11,
        Shows::Eval(0, "doc.get(\"a\\\"\\n\").get(\"b\").values"),
        "{\"refused\":{\"key\":\"mapT(\\\"a\\\\\\\"\\\\n\\\")\",\"name\":\"NoSuchNode\",\"number\":25}}",
    ),
    (
        11,
        Shows::Eval(0, "doc.get(\"l\").idx(2)"),
        "{\"refused\":{\"name\":\"PastEnd\",\"number\":26}}",
    ),
    (
        11,
        Shows::Eval(0, "doc.get(\"l\").keys"),
        "{\"refused\":{\"name\":\"NoMap\",\"number\":27}}",
    ),
    (
        11,
        Shows::Eval(0, "doc.get(\"!k\").keys"),
        "{\"refused\":{\"name\":\"NoMap\",\"number\":27}}",
    ),
    (
        11,
        Shows::Eval(0, "doc.values"),
        "{\"refused\":{\"name\":\"NoRegister\",\"number\":28}}",
    ),
    (11, Shows::Eval(1, "doc.keys"), "{\"keys\":[\"!k\"]}"),
    (
        11,
        Shows::Place(0, "doc.get(\"l\").idx(2)"),
        "{\"refused\":{\"name\":\"PastEnd\",\"number\":26}}",
    ),
    (
        11,
        Shows::Place(1, "none"),
        "{\"refused\":{\"name\":\"UnboundVariable\",\"number\":22}}",
    ),
    // Before all given events, and between them.
    (0, Shows::Views, "[{\"name\":\"p\"},{\"name\":\"q\"}]"),
    (0, Shows::Place(0, "doc"), "{\"name\":\"p\"}"),
    (
        0,
        Shows::State(1),
        "{\"acted\":false,\"left\":2,\"name\":\"q\",\"ops\":[],\"queue\":[],\"recv\":[],\"send\":[],\"tree\":{},\"vars\":{}}",
    ),
    (
        7,
        Shows::Brief(0),
        "{\"acted\":true,\"left\":5,\"name\":\"p\",\"ops\":[\"1@p\",\"1@q\",\"2@p\",\"3@p\"],\"queue\":[\"1@p\",\"2@p\",\"3@p\"],\"recv\":[\"1@q\"],\"send\":[],\"vars\":{}}",
    ),
    (
        0,
        Shows::Eval(0, "doc.keys"),
        "{\"refused\":{\"name\":\"NoMap\",\"number\":27}}",
    ),
];

/// The number of a replica among so many.
fn among(rt: &impl Abort, p: u16, count: usize) -> u16
    ensures { result < count }
{
    assert!(rt; usize::from(p) < count, "no replica {p}");
    p
}

fn expression(rt: &impl Abort, alloc: Global, text: &str) -> Expr {
    match parse_expr(alloc, text) {
        Ok(expression) => expression,
        Err(_) => panic!(rt; "{text} is no expression"),
    }
}

fn look_of(rt: &impl Abort, alloc: Global, shows: &Shows, count: usize) -> Look
    ensures { IsWithin count result }
{
    match shows {
        Shows::Views => Look::View(None),
        Shows::View(p) => Look::View(Some(among(rt, *p, count))),
        Shows::Place(p, text) => {
            Look::ViewPlace(among(rt, *p, count), expression(rt, alloc, text))
        }
        Shows::States => Look::State(None),
        Shows::State(p) => Look::State(Some(among(rt, *p, count))),
        Shows::Brief(p) => Look::Brief(among(rt, *p, count)),
        Shows::Eval(p, text) => Look::Eval(among(rt, *p, count), expression(rt, alloc, text)),
    }
}

/// The answer, and whether it refuses.
fn answer_of(rt: &impl Abort, outcome: Result<Vec<u8>, LookFault>) -> (Vec<u8>, bool) {
    match outcome {
        Ok(answer) => (answer, false),
        Err(LookFault::Refused(answer)) => (answer, true),
        Err(LookFault::Memory) => panic!(rt; "no memory"),
    }
}

fn is_shown(rt: &impl Abort, alloc: Global, net: &Net, shows: &Shows, want: &str) {
    let look = look_of(rt, alloc, shows, net.names().len());
    let (answer, refuses) = answer_of(rt, shown(alloc, net, &look));
    assert!(rt; answer.as_slice() == want.as_bytes(), "{want}");
    assert!(rt; refuses == want.starts_with("{\"refused\":"), "{want}");
}

/// The network to which so many given events lead, none of which is stuck.
fn network_at(
    rt: &impl Abort,
    alloc: Global,
    scenario: &Scenario,
    count: usize,
) -> Result<Net, AllocError>
    requires { IsWellFormedScenario (scenario_view scenario.now) }
{
    assert!(rt; count <= scenario.given.len());
    let mut net = Net::first(alloc, scenario)?;
    let led = net.lead(&scenario.given[..count]);
    assert!(rt; led.is_ok());
    given_network(alloc, scenario, count)
}

fn row_holds(
    rt: &impl Abort,
    alloc: Global,
    scenario: &Scenario,
    row: &Row,
) -> Result<(), AllocError>
    requires { IsWellFormedScenario (scenario_view scenario.now) }
{
    let (count, shows, want) = row;
    let net = network_at(rt, alloc, scenario, *count)?;
    is_shown(rt, alloc, &net, shows, want);
    Ok(())
}

#[test]
fn looks(rt: HostRuntime) -> Result<(), Fail> {
    let scenario = read(rt.alloc(), MERGED.as_bytes())?;
    for row in ROWS {
        row_holds(&rt, rt.alloc(), &scenario, row)?;
    }
    Ok(())
}
