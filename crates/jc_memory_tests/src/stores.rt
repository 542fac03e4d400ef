//! Tests of both stores: with too little memory operations, clearing and expressions leave document and trace as they
//! were, and they succeed with enough.

ghost use Rattle.std.specs.Prelude.{◌≡◌, ◌≢◌, ◌+◌, ◌<◌, false, IfOk, OnOk};
ghost use Rattle.jc_rules.specs.declared.id.Id.{Id as AnyId};
ghost use Rattle.jc_apply.specs.Fits.{IsUnlinked};
ghost use Rattle.jc_rules.specs.WellFormed.{IsChained};
ghost use Rattle.jc_memory_tests.specs.Ready.{IsReady};

use crate::attempts::{MOST, Outcome, done_if, holds, is_done, refused_if};
use crate::memory::{budget, fill, leave};
use crate::steps::is_trace;
use jc_apply::{ApplyFault, apply_op};
use jc_clear::{clear, clear_elem};
use jc_cursor::{EvalFault, eval};
use jc_json::Tree;
use jc_parser::parse_expr;
use jc_rules::{Cursor, Id, IdSet, Key, Mutation, Op, Path, Tagged, Text, Trace, Value};
use jc_syntax::Expr;
use jc_tree::{ArenaTree, PlainTree, TreeStore};
use std::alloc::{AllocError, Global};
use std::process::Abort;
use std::test::Fail;

/// A key, as a table writes it.
#[derive(Clone, Copy)]
pub enum At {
    Doc,
    Head,
    Name(&'static str),
    /// The element that the operation with this counter inserted.
    Elem(u64),
}

#[derive(Clone, Copy)]
pub enum Does {
    AssignMap,
    AssignList,
    AssignNull,
    InsertMap,
    InsertNull,
    Delete,
}

/// An operation: the keys down to its last key, `true` for those of lists, and what it does.
#[derive(Clone, Copy)]
pub struct Made {
    pub path: &'static [(bool, At)],
    pub last: At,
    pub does: Does,
}

pub const IN_MAP: &[(bool, At)] = &[(false, At::Doc)];

pub const IN_LIST: &[(bool, At)] = &[(false, At::Doc), (true, At::Name("l"))];

const IN_ELEMENT: &[(bool, At)] = &[
    (false, At::Doc),
    (true, At::Name("l")),
    (false, At::Elem(3)),
];

/// A map with a list of two elements. One has a map, and is deleted; then a map is assigned over the list.
const OPERATIONS: &[Made] = &[
    Made {
        path: &[],
        last: At::Doc,
        does: Does::AssignMap,
    },
    Made {
        path: IN_MAP,
        last: At::Name("l"),
        does: Does::AssignList,
    },
    Made {
        path: IN_LIST,
        last: At::Head,
        does: Does::InsertMap,
    },
    Made {
        path: IN_LIST,
        last: At::Head,
        does: Does::InsertMap,
    },
    Made {
        path: IN_ELEMENT,
        last: At::Name("k"),
        does: Does::AssignNull,
    },
    Made {
        path: IN_LIST,
        last: At::Elem(3),
        does: Does::Delete,
    },
    Made {
        path: IN_MAP,
        last: At::Name("l"),
        does: Does::AssignMap,
    },
    Made {
        path: IN_MAP,
        last: At::Name("v"),
        does: Does::AssignNull,
    },
];

/// More operations than there are.
const MANY: u64 = 100;

fn id_of(counter: u64) -> Id {
    Id {
        counter,
        replica: 0,
    }
}

fn text(alloc: Global, text: &str) -> Result<Text, AllocError> {
    Text::new(alloc, String::from_str(alloc, text)?)
}

fn key_of(alloc: Global, at: At) -> Result<Key, AllocError> {
    match at {
        At::Doc => Ok(Key::Doc),
        At::Head => Ok(Key::Head),
        At::Name(name) => Ok(Key::Name(text(alloc, name)?)),
        At::Elem(counter) => Ok(Key::Elem(id_of(counter))),
    }
}

fn path_of(alloc: Global, keys: &[(bool, At)]) -> Result<Path, AllocError> {
    let mut path = Path::new(alloc);
    for (is_list, at) in keys {
        if path.as_slice().len() >= 512 {
            return Err(AllocError);
        }
        let key = key_of(alloc, *at)?;
        if *is_list {
            path.push(Tagged::ListT(key))?;
        } else {
            path.push(Tagged::MapT(key))?;
        }
    }
    Ok(path)
}

fn mutation_of(does: Does) -> Mutation {
    match does {
        Does::AssignMap => Mutation::Assign(Value::EmptyMap),
        Does::AssignList => Mutation::Assign(Value::EmptyList),
        Does::AssignNull => Mutation::Assign(Value::Null),
        Does::InsertMap => Mutation::Insert(Value::EmptyMap),
        Does::InsertNull => Mutation::Insert(Value::Null),
        Does::Delete => Mutation::Delete,
    }
}

/// The identifiers up to this one.
fn all_to(alloc: Global, counter: u64) -> Result<IdSet, AllocError> {
    let mut all = IdSet::new(alloc);
    all.insert(id_of(counter))?;
    Ok(all)
}

/// The operation with this index.
pub fn op_of(alloc: Global, made: &Made, count: u64) -> Result<Op, AllocError>
    requires { count < 100 }
    ensures { IfOk result (λ op. op.id.counter ≡ count + 1) }
{
    let path = path_of(alloc, made.path)?;
    let last = key_of(alloc, made.last)?;
    let deps = all_to(alloc, count)?;
    Ok(Op {
        id: Id {
            counter: count + 1,
            replica: 0,
        },
        deps,
        cursor: Cursor { path, last },
        mutation: mutation_of(made.does),
    })
}

/// The document as a text.
pub fn shown<S: TreeStore>(alloc: Global, store: &S) -> Result<String, AllocError> {
    let names = [text(alloc, "a")?];
    let tree = Tree {
        alloc,
        names: &names,
        store,
    };
    serde_json::to_string(alloc, &tree).map_err(|_| AllocError)
}

pub fn is_shown<S: TreeStore>(alloc: Global, store: &S, want: &str) -> bool {
    match shown(alloc, store) {
        Ok(text) => text.as_str() == want,
        Err(_) => false,
    }
}

/// Applies the operation with this much memory, and returns whether there was enough.
fn is_applied<S: TreeStore>(
    rt: &impl Abort,
    alloc: Global,
    store: &mut S,
    op: &Op,
    trace: &mut Trace,
    bytes: usize,
) -> bool
    requires chained { IsChained (S.tree store.old).now }
    requires fresh { IsUnlinked op.now.id (S.tree store.old).now }
    ensures kept { result ≡ false → S.tree store.new ≡ S.tree store.old }
    ensures chained { IsChained (S.tree store.new).now }
    ensures unlinked { (i : AnyId)
        → i ≢ op.now.id → IsUnlinked i (S.tree store.old).now → IsUnlinked i (S.tree store.new).now }
{
    let blocks = leave(rt, alloc, bytes);
    let applied = apply_op(alloc, store, op, trace);
    drop(blocks);
    match applied {
        Ok(()) => true,
        Err(ApplyFault::Memory) => false,
        Err(_) => panic!(rt; "it doesn't fit"),
    }
}

/// Applies the operation with this index, once there is enough memory. Returns the number of refusals, after which
/// document and trace were as before.
#[tactic(auto, using(crate::proofs::MadeLemmas::ready_on))]
pub fn applied_at_last<S: TreeStore>(
    rt: &impl Abort,
    alloc: Global,
    store: &mut S,
    op: &Op,
    count: u64,
    is_ample: bool,
) -> Result<(Trace, u64), AllocError>
    requires ready { IsReady count (S.tree store.old).now }
    requires next { op.now.id.counter ≡ count + 1 }
    ensures { OnOk result (IsReady (count + 1) (S.tree store.new).now) }
{
    let before = shown(alloc, store)?;
    let changes = store.mark().changes;
    let mut trace = Trace::new(alloc);
    for n in 0..MOST {
        if is_applied(rt, alloc, store, op, &mut trace, budget(is_ample, n)) {
            return Ok((trace, n as u64));
        }
        holds(
            rt,
            trace.runs().is_empty() && store.mark().changes == changes,
        );
        holds(rt, is_shown(alloc, store, before.as_str()));
    }
    panic!(rt; "it is always refused")
}

/// Applies all operations to an empty document. Returns the traces and the number of refusals.
fn apply_all<S: TreeStore>(
    rt: &impl Abort,
    alloc: Global,
    store: &mut S,
    is_ample: bool,
) -> Result<(Vec<Trace>, u64), AllocError>
    requires { IsReady 0 (S.tree store.old).now }
    ensures { OnOk result (IsChained (S.tree store.new).now) }
{
    let mut traces = Vec::new(alloc);
    let mut refused = 0u64;
    let mut count = 0;
    for made in OPERATIONS {
        if count >= MANY {
            return Err(AllocError);
        }
        let op = op_of(alloc, made, count)?;
        let (trace, more) = applied_at_last(rt, alloc, store, &op, count, is_ample)?;
        traces.push(trace)?;
        refused = refused.saturating_add(more);
        count += 1;
    }
    Ok((traces, refused))
}

/// Expressions, and the number of rules that evaluate each after all operations.
const EXPRESSIONS: &[(&str, usize)] = &[
    ("doc.keys", 3),
    ("doc.get(\"v\").values", 5),
    ("doc.get(\"l\").idx(0)", 6),
];

/// Evaluates the expression with this much memory. Where it is refused, the trace is empty.
fn evaluated<S: TreeStore>(
    rt: &impl Abort,
    alloc: Global,
    store: &S,
    expr: &Expr,
    rules: usize,
    bytes: usize,
) -> Outcome
    requires { IsChained (S.tree store.now).now }
{
    let mut trace = Trace::new(alloc);
    let blocks = leave(rt, alloc, bytes);
    let outcome = eval(alloc, store, &[], expr, &mut trace);
    drop(blocks);
    match outcome {
        Ok(_) => done_if(trace.mark().rows == rules),
        Err(EvalFault::Memory) => refused_if(trace.runs().is_empty()),
        Err(_) => Outcome::Wrong,
    }
}

/// The number of refusals before the expression is evaluated.
pub fn refused_value<S: TreeStore>(
    rt: &impl Abort,
    alloc: Global,
    store: &S,
    expr: &Expr,
    rules: usize,
    is_ample: bool,
) -> u64
    requires { IsChained (S.tree store.now).now }
{
    for n in 0..MOST {
        if is_done(
            rt,
            evaluated(rt, alloc, store, expr, rules, budget(is_ample, n)),
        ) {
            return n as u64;
        }
    }
    panic!(rt; "it is always refused")
}

/// Evaluates all expressions.
fn refused_values<S: TreeStore>(
    rt: &impl Abort,
    alloc: Global,
    store: &S,
    is_ample: bool,
) -> Result<u64, AllocError>
    requires { IsChained (S.tree store.now).now }
{
    let mut refused = 0u64;
    for (text, rules) in EXPRESSIONS {
        let expr = parse_expr(alloc, text).map_err(|_| AllocError)?;
        let more = refused_value(rt, alloc, store, &expr, *rules, is_ample);
        refused = refused.saturating_add(more);
    }
    Ok(refused)
}

/// Clears the document's map with this much memory, or all of the document. Returns whether there was enough.
#[tactic(auto, using(crate::proofs::MadeLemmas::at_top))]
fn is_cleared<S: TreeStore>(
    rt: &impl Abort,
    alloc: Global,
    store: &mut S,
    all: bool,
    trace: &mut Trace,
    bytes: usize,
) -> bool
    requires { IsChained (S.tree store.old).now }
    ensures { IsChained (S.tree store.new).now }
{
    let deps = all_to(alloc, MANY).ok().expect(rt, "a set");
    let blocks = leave(rt, alloc, bytes);
    let cleared = if all {
        clear_elem(alloc, store, &deps, &[], &Key::Doc, trace)
    } else {
        clear(alloc, store, &deps, &[], &Tagged::MapT(Key::Doc), trace)
    };
    drop(blocks);
    match cleared {
        Ok(ids) => {
            holds(rt, ids.is_empty());
            true
        }
        Err(_) => false,
    }
}

/// The number of times that clearing is refused memory. Then document and trace were as before.
fn refused_clearing<S: TreeStore>(
    rt: &impl Abort,
    alloc: Global,
    store: &mut S,
    all: bool,
    is_ample: bool,
) -> Result<u64, AllocError>
    requires { IsChained (S.tree store.old).now }
    ensures { OnOk result (IsChained (S.tree store.new).now) }
{
    let before = shown(alloc, store)?;
    let changes = store.mark().changes;
    let mut trace = Trace::new(alloc);
    for n in 0..MOST {
        if is_cleared(rt, alloc, store, all, &mut trace, budget(is_ample, n)) {
            return Ok(n as u64);
        }
        holds(
            rt,
            trace.runs().is_empty() && store.mark().changes == changes,
        );
        holds(rt, is_shown(alloc, store, before.as_str()));
    }
    panic!(rt; "it is always refused")
}

/// The numbers of refusals of operations, expressions and clearing.
#[derive(Clone, Copy)]
struct Refused {
    operations: u64,
    values: u64,
    clearing: u64,
}

/// Makes all calls, and returns the document after the operations.
fn call_all<S: TreeStore>(
    rt: &impl Abort,
    alloc: Global,
    store: &mut S,
    is_ample: bool,
) -> Result<(Vec<Trace>, Refused), AllocError>
    requires { IsReady 0 (S.tree store.old).now }
{
    let (traces, operations) = apply_all(rt, alloc, store, is_ample)?;
    let values = refused_values(rt, alloc, store, is_ample)?;
    let map = refused_clearing(rt, alloc, store, false, is_ample)?;
    let all = refused_clearing(rt, alloc, store, true, is_ample)?;
    let clearing = map.min(all);
    Ok((
        traces,
        Refused {
            operations,
            values,
            clearing,
        },
    ))
}

fn are_same(ample: &[Trace], traces: &[Trace]) -> bool {
    let mut same = ample.len() == traces.len();
    for (one, other) in ample.iter().zip(traces) {
        same = same && is_trace(one, other);
    }
    same
}

/// Makes all calls with ample memory in one store, and with little in another one.
fn expect_refused<S: TreeStore>(
    rt: &impl Abort,
    alloc: Global,
    first: &mut S,
    second: &mut S,
) -> Result<(), AllocError>
    requires { IsReady 0 (S.tree first.old).now × IsReady 0 (S.tree second.old).now }
{
    let (ample, none) = call_all(rt, alloc, first, true)?;
    holds(
        rt,
        none.operations == 0 && none.values == 0 && none.clearing == 0,
    );
    let blocks = fill(rt, alloc);
    let (traces, some) = call_all(rt, alloc, second, false)?;
    drop(blocks);
    holds(
        rt,
        some.operations > 100 && some.values > 3 && some.clearing > 0,
    );
    holds(rt, are_same(&ample, &traces));
    Ok(())
}

#[test]
fn a_plain_store_is_refused(rt: HostRuntime) -> Result<(), Fail> {
    let alloc = rt.alloc();
    let (mut first, mut second) = (PlainTree::new(alloc), PlainTree::new(alloc));
    Ok(expect_refused(&rt, alloc, &mut first, &mut second)?)
}

#[test]
fn an_arena_is_refused(rt: HostRuntime) -> Result<(), Fail> {
    let alloc = rt.alloc();
    let (mut first, mut second) = (ArenaTree::new(alloc)?, ArenaTree::new(alloc)?);
    Ok(expect_refused(&rt, alloc, &mut first, &mut second)?)
}
