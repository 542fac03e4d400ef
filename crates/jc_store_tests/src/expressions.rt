//! Expressions in documents that were made by operations or by hand.

ghost use Rattle.jc_rules.specs.WellFormed.{IsChained};
ghost use Rattle.jc_store_tests.specs.Ready.{IsReady};

use crate::by_hand::{make_map, put_ids, put_true};
use crate::keys::{At, Keys, SECOND, THIRD, Tag, text};
use crate::operations::{FIRST_DELETED, id_of, make_all};
use jc_cursor::{Bound, EvalFault, eval, eval_in_map};
use jc_parser::parse_expr;
use jc_rules::{Key, Tagged, Text, Trace, Value};
use jc_tree::{TreeStore, is_place};
use std::alloc::{AllocError, Global};
use std::collections::BTreeMap;
use std::process::Abort;

/// What the expression evaluates to.
fn given<S: TreeStore>(
    alloc: Global,
    store: &S,
    vars: &[(Text, Bound)],
    expr: &str,
    trace: &mut Trace,
) -> Result<Bound, EvalFault>
    requires { IsChained (S.tree store.now).now }
{
    let Ok(expr) = parse_expr(alloc, expr) else {
        return Err(EvalFault::Memory);
    };
    eval(alloc, store, vars, &expr, trace)
}

/// Whether it is the cursor to this key of the document's list.
fn is_element(bound: &Bound, last: &Key) -> bool {
    match bound {
        Bound::Cursor(cursor) => {
            cursor.path.as_slice() == [Tagged::ListT(Key::Doc)].as_slice() && cursor.last == *last
        }
        _ => false,
    }
}

/// Whether it is one name, `a`.
fn is_name(bound: &Bound) -> bool {
    match bound {
        Bound::Keys(names) => match names.as_slice() {
            [name] => name.as_str() == "a",
            _ => false,
        },
        _ => false,
    }
}

/// Whether it is one value, `y` of 3@a.
fn is_value(bound: &Bound) -> bool {
    match bound {
        Bound::Values(pairs) => match pairs.as_slice() {
            [(id, Value::Str(text))] => *id == THIRD && text.as_str() == "y",
            _ => false,
        },
        _ => false,
    }
}

/// What an expression evaluates to, or why it is refused.
#[derive(Clone, Copy)]
pub enum Want {
    /// The element of the document's list with this counter.
    Element(u64),
    /// The name `a` alone.
    Name,
    /// The value `y` of 3@a alone.
    Value,
    PastEnd,
    NoMap,
}

fn is_given(bound: &Bound, want: Want) -> bool {
    match want {
        Want::Element(counter) => is_element(bound, &Key::Elem(id_of(counter))),
        Want::Name => is_name(bound),
        Want::Value => is_value(bound),
        _ => false,
    }
}

fn is_refused(fault: &EvalFault, want: Want) -> bool {
    match want {
        Want::PastEnd => *fault == EvalFault::PastEnd,
        Want::NoMap => *fault == EvalFault::NoMap,
        _ => false,
    }
}

/// Whether it is given, and its copy too.
fn are_given(bound: &Bound, want: Want) -> Result<bool, AllocError> {
    Ok(is_given(bound, want) && is_given(&bound.copy()?, want))
}

/// Whether it is refused so, and the copy of the fault too.
fn are_refused(fault: &EvalFault, want: Want) -> Result<bool, AllocError> {
    Ok(is_refused(fault, want) && is_refused(&fault.copy()?, want))
}

/// Whether that is what came out.
fn is_as(outcome: &Result<Bound, EvalFault>, want: Want) -> Result<bool, AllocError> {
    match outcome {
        Ok(bound) => are_given(bound, want),
        Err(fault) => are_refused(fault, want),
    }
}

/// Whether the expression evaluates to that by so many rules; where it is refused, the trace is as it was.
pub fn gives<S: TreeStore>(
    alloc: Global,
    store: &S,
    vars: &[(Text, Bound)],
    expr: &str,
    want: Want,
    rules: usize,
) -> Result<bool, AllocError>
    requires { IsChained (S.tree store.now).now }
{
    let mut trace = Trace::new(alloc);
    let outcome = given(alloc, store, vars, expr, &mut trace);
    if trace.mark().rows == rules {
        is_as(&outcome, want)
    } else {
        Ok(false)
    }
}

fn second<S: TreeStore>(alloc: Global, store: &S) -> Result<Bound, AllocError>
    requires { IsChained (S.tree store.now).now }
{
    let mut trace = Trace::new(alloc);
    match given(alloc, store, &[], "doc.idx(1)", &mut trace) {
        Ok(bound) => Ok(bound),
        Err(_) => Err(AllocError),
    }
}

/// `x`, bound to the second element of the document's list.
fn bound_x<S: TreeStore>(alloc: Global, store: &S) -> Result<(Text, Bound), AllocError>
    requires { IsChained (S.tree store.now).now }
{
    let name = text(alloc, "x")?;
    let bound = second(alloc, store)?;
    Ok((name, bound))
}

/// Whether a variable of a list gives what the element has that it is bound to.
fn of_a_list<S: TreeStore>(keys: &Keys, store: &S) -> Result<bool, AllocError>
    requires { IsChained (S.tree store.now).now }
{
    let vars = [bound_x(keys.alloc, store)?];
    gives(keys.alloc, store, &vars, "x.values", Want::Value, 4)
}

/// Whether one of a map does.
fn of_a_map<S: TreeStore>(keys: &Keys, store: &S) -> Result<bool, AllocError>
    requires { IsChained (S.tree store.now).now }
{
    let Ok(expr) = parse_expr(keys.alloc, "x.values") else {
        return Err(AllocError);
    };
    let (name, bound) = bound_x(keys.alloc, store)?;
    let mut vars = BTreeMap::new(keys.alloc);
    vars.insert(name, bound)?;
    let mut trace = Trace::new(keys.alloc);
    let outcome = eval_in_map(keys.alloc, store, &vars, &expr, &mut trace);
    Ok(trace.mark().rows == 4 && is_as(&outcome, Want::Value)?)
}

/// Whether expressions in a list whose first element is deleted give what they should.
pub fn in_a_list<S: TreeStore>(keys: &Keys, store: &mut S) -> Result<bool, AllocError>
    requires { IsReady 0 (S.tree store.old).now }
{
    make_all(keys, store, FIRST_DELETED)?;
    let is = gives(keys.alloc, store, &[], "doc.idx(1)", Want::Element(3), 6)?
        && gives(keys.alloc, store, &[], "doc.idx(2)", Want::PastEnd, 0)?
        && gives(keys.alloc, store, &[], "doc.idx(0).keys", Want::NoMap, 0)?;
    Ok(is && of_a_list(keys, store)? && of_a_map(keys, store)?)
}

/// A map of two names, of which one has no identifier any more, and of a register under an element: one name is given.
pub fn names_in_a_map<S: TreeStore>(
    rt: &impl Abort,
    keys: &Keys,
    store: &mut S,
) -> Result<bool, AllocError>
    requires { IsChained (S.tree store.old).now }
{
    let at = keys.in_the_map();
    make_map(rt, store, keys.child(Tag::Map, At::Doc))?;
    assert!(rt; is_place(store, at));
    put_ids(store, at, keys.key(At::A), &[SECOND])?;
    put_ids(store, at, keys.key(At::A1), &[])?;
    put_true(keys.alloc, store, at, keys.key(At::Third), THIRD)?;
    put_ids(store, at, keys.key(At::Third), &[THIRD])?;
    gives(keys.alloc, store, &[], "doc.keys", Want::Name, 3)
}
