//! A test of the fast store: with too little memory a list of more elements than a block has grows and is walked, and
//! stays as it was after each refusal. Then, with no memory, it is again as it was when it was half as long. The plain
//! store says what it should be.

ghost use Rattle.std.specs.Prelude.{◌≡◌, ◌<◌, ◌≤◌, OnOk};
ghost use Rattle.jc_rules.specs.WellFormed.{IsChained};
ghost use Rattle.jc_memory_tests.specs.Ready.{IsReady};

use crate::attempts::holds;
use crate::memory::{fill, leave};
use crate::stores::{
    At, Does, IN_LIST, IN_MAP, Made, applied_at_last, is_shown, op_of, refused_value, shown,
};
use jc_parser::parse_expr;
use jc_tree::{ArenaTree, Mark, PlainTree, TreeStore};
use std::alloc::{AllocError, Global};
use std::process::Abort;
use std::test::Fail;

/// As many operations are made before the list is half as long.
const HALF: u64 = 40;

/// And as many before elements come in elsewhere than at the end.
const AT_END: u64 = 76;

const ALL: u64 = 84;

fn in_list(last: At, does: Does) -> Made {
    Made {
        path: IN_LIST,
        last,
        does,
    }
}

/// The first operation makes a map, the second one a list in it. Then elements come in, each behind the one before. An
/// operation's counter is its index and one more.
fn made_at_end(index: u64) -> Made {
    match index {
        0 => Made {
            path: &[],
            last: At::Doc,
            does: Does::AssignMap,
        },
        1 => Made {
            path: IN_MAP,
            last: At::Name("l"),
            does: Does::AssignList,
        },
        2 => in_list(At::Head, Does::InsertNull),
        _ => in_list(At::Elem(index), Does::InsertNull),
    }
}

/// Elements come in behind the head and behind some others, and four go.
fn made_elsewhere(index: u64) -> Made {
    match index {
        76 => in_list(At::Elem(20), Does::InsertNull),
        77 => in_list(At::Elem(40), Does::InsertNull),
        78 => in_list(At::Elem(60), Does::InsertNull),
        79 => in_list(At::Head, Does::InsertNull),
        80 => in_list(At::Elem(5), Does::Delete),
        81 => in_list(At::Elem(6), Does::Delete),
        82 => in_list(At::Elem(30), Does::Delete),
        _ => in_list(At::Elem(70), Does::Delete),
    }
}

fn made(index: u64) -> Made {
    if index < AT_END {
        made_at_end(index)
    } else {
        made_elsewhere(index)
    }
}

/// Whether the operation is made with ample memory in any case: nothing happens in it that others don't show. Those
/// that begin blocks, come where a block is full, or come elsewhere than at the end are made with little memory.
fn is_like_others(index: u64) -> bool {
    index < 2 || (index > 5 && index < 63) || (index > 66 && index < AT_END)
}

/// Makes the operations from one index up to another. Returns the number of refusals.
fn grow<S: TreeStore>(
    rt: &impl Abort,
    alloc: Global,
    store: &mut S,
    from: u64,
    to: u64,
    is_ample: bool,
) -> Result<u64, AllocError>
    requires order { from ≤ to }
    requires few { to ≤ 100 }
    requires ready { IsReady from (S.tree store.old).now }
    ensures { OnOk result (IsReady to (S.tree store.new).now) }
{
    let mut refused = 0u64;
    for index in from..to {
        let op = op_of(alloc, &made(index), index)?;
        let ample = is_ample || is_like_others(index);
        let (_, more) = applied_at_last(rt, alloc, store, &op, index, ample)?;
        refused = refused.saturating_add(more);
    }
    Ok(refused)
}

/// Expressions, and the number of rules that evaluate each in the end: six, and one for each element that is passed.
/// Up to the element with counter 42 there are 43, of which three are deleted, up to the last one 78.
const EXPRESSIONS: &[(&str, usize)] = &[
    ("doc.get(\"l\").idx(0)", 6),
    ("doc.get(\"l\").idx(40)", 49),
    ("doc.get(\"l\").idx(74)", 84),
];

/// Evaluates the expressions. Returns the number of refusals.
fn walk<S: TreeStore>(
    rt: &impl Abort,
    alloc: Global,
    store: &S,
    is_ample: bool,
) -> Result<u64, AllocError>
    requires { IsChained (S.tree store.now).now }
{
    let mut refused = 0u64;
    for (text, rules) in EXPRESSIONS {
        let expr = parse_expr(alloc, text).map_err(|_| AllocError)?;
        refused = refused.saturating_add(refused_value(rt, alloc, store, &expr, *rules, is_ample));
    }
    Ok(refused)
}

/// Goes back to the mark, with no memory.
fn go_back<S: TreeStore>(rt: &impl Abort, alloc: Global, store: &mut S, mark: Mark) {
    holds(rt, mark.changes < store.mark().changes);
    let blocks = leave(rt, alloc, 0);
    if mark.changes < store.mark().changes {
        store.undo_to(mark);
    }
    drop(blocks);
}

/// Grows the list in an empty document, walks along it and goes back. Returns the document when the list was longest.
fn grow_and_go_back<S: TreeStore>(
    rt: &impl Abort,
    alloc: Global,
    store: &mut S,
    is_ample: bool,
) -> Result<String, AllocError>
    requires { IsReady 0 (S.tree store.old).now }
{
    let few = grow(rt, alloc, store, 0, HALF, is_ample)?;
    let mark = store.mark();
    let half = shown(alloc, store)?;
    let more = grow(rt, alloc, store, HALF, ALL, is_ample)?;
    let walked = walk(rt, alloc, store, is_ample)?;
    holds(rt, is_ample || (few > 20 && more > 50 && walked > 3));
    let longest = shown(alloc, store)?;
    holds(rt, longest.as_str() != half.as_str());
    go_back(rt, alloc, store, mark);
    holds(rt, is_shown(alloc, store, half.as_str()));
    Ok(longest)
}

#[test]
fn a_long_list_is_refused(rt: HostRuntime) -> Result<(), Fail> {
    let alloc = rt.alloc();
    let (mut plain, mut arena) = (PlainTree::new(alloc), ArenaTree::new(alloc)?);
    let wanted = grow_and_go_back(&rt, alloc, &mut plain, true)?;
    let blocks = fill(&rt, alloc);
    let longest = grow_and_go_back(&rt, alloc, &mut arena, false)?;
    drop(blocks);
    holds(&rt, longest.as_str() == wanted.as_str());
    Ok(())
}
