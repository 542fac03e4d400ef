//! Documents that operations made, each after all before it: what operations lead to, and what fits.

ghost use Rattle.std.specs.Prelude.{◌≢◌, ◌+◌, ◌<◌, IfOk, OnOk};
ghost use Rattle.jc_rules.specs.declared.id.Id.{Id as AnyId};
ghost use Rattle.jc_apply.specs.Fits.{IsUnlinked};
ghost use Rattle.jc_rules.specs.WellFormed.{IsChained};
ghost use Rattle.jc_store_tests.specs.Ready.{IsReady};

use crate::keys::{At, Keys, Tag, text};
use crate::texts::is_shown;
use jc_apply::{ApplyFault, apply_op, fits};
use jc_rules::limits::MAX_PATH;
use jc_rules::{Cursor, Id, IdSet, Mutation, Op, Path, Tagged, Trace, Value};
use jc_tree::{ArenaTree, PlainTree, TreeStore};
use std::alloc::{AllocError, Global};

/// More operations than any document here has.
const MANY: u64 = 100_000;

/// A mutation, as a table writes it.
#[derive(Clone, Copy)]
pub enum Does {
    AssignList,
    Insert(&'static str),
    Delete,
}

/// An operation: its cursor's path and last key, and what it does there.
pub struct Made {
    pub path: &'static [(Tag, At)],
    pub last: At,
    pub does: Does,
}

fn push_key(keys: &Keys, path: &mut Path, tag: Tag, at: At) -> Result<(), AllocError> {
    if path.as_slice().len() >= MAX_PATH {
        return Err(AllocError);
    }
    let key = keys.key(at).copy()?;
    match tag {
        Tag::Map => path.push(Tagged::MapT(key)),
        _ => path.push(Tagged::ListT(key)),
    }
}

fn path_of(keys: &Keys, below: &[(Tag, At)]) -> Result<Path, AllocError> {
    let mut path = Path::new(keys.alloc);
    for (tag, at) in below {
        push_key(keys, &mut path, *tag, *at)?;
    }
    Ok(path)
}

/// The cursor with these keys.
fn cursor_of(keys: &Keys, below: &[(Tag, At)], last: At) -> Result<Cursor, AllocError> {
    let last = keys.key(last).copy()?;
    let path = path_of(keys, below)?;
    Ok(Cursor { path, last })
}

fn mutation_of(alloc: Global, does: Does) -> Result<Mutation, AllocError> {
    Ok(match does {
        Does::AssignList => Mutation::Assign(Value::EmptyList),
        Does::Insert(string) => Mutation::Insert(Value::Str(text(alloc, string)?)),
        Does::Delete => Mutation::Delete,
    })
}

pub fn id_of(counter: u64) -> Id {
    Id {
        counter,
        replica: 0,
    }
}

/// The identifiers up to this one.
pub fn all_to(alloc: Global, counter: u64) -> Result<IdSet, AllocError> {
    let mut all = IdSet::new(alloc);
    all.insert(id_of(counter))?;
    Ok(all)
}

/// Applies the operation. Where memory is refused, the same call is made again.
fn apply<S: TreeStore>(alloc: Global, store: &mut S, op: &Op) -> Result<(), ApplyFault>
    requires chained { IsChained (S.tree store.old).now }
    requires fresh { IsUnlinked op.now.id (S.tree store.old).now }
    ensures chained { IsChained (S.tree store.new).now }
    ensures unlinked { (i : AnyId)
        → i ≢ op.now.id → IsUnlinked i (S.tree store.old).now → IsUnlinked i (S.tree store.new).now }
{
    let mut trace = Trace::new(alloc);
    if apply_op(alloc, store, op, &mut trace).is_ok() {
        return Ok(());
    }
    apply_op(alloc, store, op, &mut trace)
}

/// Applies the operation that comes after so many.
#[tactic(auto, using(crate::proofs::MadeLemmas::ready_on))]
pub fn apply_next<S: TreeStore>(
    alloc: Global,
    store: &mut S,
    count: u64,
    deps: IdSet,
    cursor: Cursor,
    mutation: Mutation,
) -> Result<(), ApplyFault>
    requires few { count < 100000 }
    requires ready { IsReady count (S.tree store.old).now }
    ensures { IsReady (count + 1) (S.tree store.new).now }
{
    let id = Id {
        counter: count + 1,
        replica: 0,
    };
    let op = Op {
        id,
        deps,
        cursor,
        mutation,
    };
    apply(alloc, store, &op)
}

/// Makes the operation that comes after so many, and applies it.
pub fn make<S: TreeStore>(
    keys: &Keys,
    store: &mut S,
    count: u64,
    made: &Made,
) -> Result<(), AllocError>
    requires few { count < 100000 }
    requires ready { IsReady count (S.tree store.old).now }
    ensures { OnOk result (IsReady (count + 1) (S.tree store.new).now) }
{
    let deps = all_to(keys.alloc, count)?;
    let cursor = cursor_of(keys, made.path, made.last)?;
    let mutation = mutation_of(keys.alloc, made.does)?;
    match apply_next(keys.alloc, store, count, deps, cursor, mutation) {
        Ok(()) => Ok(()),
        Err(_) => Err(AllocError),
    }
}

/// Makes these operations in an empty document.
pub fn make_all<S: TreeStore>(keys: &Keys, store: &mut S, all: &[Made]) -> Result<(), AllocError>
    requires { IsReady 0 (S.tree store.old).now }
    ensures { OnOk result (IsChained (S.tree store.new).now) }
{
    let mut count = 0;
    for made in all {
        if count >= MANY {
            return Err(AllocError);
        }
        make(keys, store, count, made)?;
        count += 1;
    }
    Ok(())
}

/// An empty plain store.
pub fn plain(alloc: Global) -> PlainTree
    ensures { IsReady 0 (⟦<PlainTree as TreeStore>⟧.tree result).now }
{
    PlainTree::new(alloc)
}

/// An empty fast store.
pub fn fast(alloc: Global) -> Result<ArenaTree, AllocError>
    ensures { IfOk result (λ store. IsReady 0 (⟦<ArenaTree as TreeStore>⟧.tree store).now) }
{
    ArenaTree::new(alloc)
}

/// Two elements are inserted into the document's list, and the first is deleted.
pub const FIRST_DELETED: &[Made] = &[
    Made {
        path: &[],
        last: At::Doc,
        does: Does::AssignList,
    },
    Made {
        path: &[(Tag::List, At::Doc)],
        last: At::Head,
        does: Does::Insert("x"),
    },
    Made {
        path: &[(Tag::List, At::Doc)],
        last: At::Second,
        does: Does::Insert("y"),
    },
    Made {
        path: &[(Tag::List, At::Doc)],
        last: At::Second,
        does: Does::Delete,
    },
];

const ITS_TREE: &str =
    "{\"listT(doc)\":{\"next(2@a)\":\"3@a\",\"next(3@a)\":\"tail\",\"next(head)\":\"2@a\",\"pres(2@a)\":[],\"pres(3@a)\":[\"3@a\"],\"regT(2@a)\":{},\"regT(3@a)\":{\"3@a\":\"y\"}},\"pres(doc)\":[\"1@a\",\"2@a\",\"3@a\"]}";

/// Whether the operations give this tree.
pub fn give_a_tree<S: TreeStore>(keys: &Keys, store: &mut S) -> Result<bool, AllocError>
    requires { IsReady 0 (S.tree store.old).now }
{
    make_all(keys, store, FIRST_DELETED)?;
    is_shown(keys, store, ITS_TREE)
}

/// Whether an insert into the document's map is refused, since it is no list.
fn refuses<S: TreeStore>(keys: &Keys, store: &mut S) -> Result<bool, AllocError>
    requires { IsReady 0 (S.tree store.old).now }
{
    let cursor = cursor_of(keys, &[(Tag::Map, At::Doc)], At::A)?;
    let (deps, mutation) = (IdSet::new(keys.alloc), Mutation::Insert(Value::True));
    let outcome = apply_next(keys.alloc, store, 0, deps, cursor, mutation);
    Ok(outcome == Err(ApplyFault::NotInList))
}

/// Whether an insert into a map is refused, and changes nothing.
pub fn is_refused<S: TreeStore>(keys: &Keys, store: &mut S) -> Result<bool, AllocError>
    requires { IsReady 0 (S.tree store.old).now }
{
    let is = refuses(keys, store)? && store.mark().changes == 0;
    Ok(is && is_shown(keys, store, "{}")?)
}

/// A path and a last key, and whether an insert fits there. The other mutations fit everywhere.
type Place = (&'static [(Tag, At)], At, bool);

const IN_AN_EMPTY_DOCUMENT: &[Place] = &[
    (&[(Tag::Map, At::Doc), (Tag::List, At::A)], At::Head, true),
    (&[(Tag::Map, At::Doc), (Tag::List, At::A)], At::First, false),
    (&[(Tag::List, At::Doc)], At::Head, true),
    (&[(Tag::List, At::Doc)], At::First, false),
    (&[(Tag::Map, At::Doc)], At::A, false),
    (&[(Tag::Map, At::Doc)], At::Head, false),
    (
        &[(Tag::List, At::Doc), (Tag::Map, At::First)],
        At::Head,
        false,
    ),
    (&[(Tag::List, At::Doc), (Tag::Map, At::First)], At::A, false),
    (&[], At::Doc, false),
    (&[], At::Head, false),
];

const LIST_OF_ONE: &[Made] = &[
    Made {
        path: &[],
        last: At::Doc,
        does: Does::AssignList,
    },
    Made {
        path: &[(Tag::List, At::Doc)],
        last: At::Head,
        does: Does::Insert("x"),
    },
];

const IN_A_LIST_OF_ONE: &[Place] = &[
    (&[(Tag::List, At::Doc)], At::Head, true),
    (&[(Tag::List, At::Doc)], At::Second, true),
    (&[(Tag::List, At::Doc)], At::Third, false),
    (
        &[(Tag::List, At::Doc), (Tag::List, At::Second)],
        At::Head,
        true,
    ),
    (
        &[(Tag::List, At::Doc), (Tag::List, At::Second)],
        At::Second,
        false,
    ),
];

/// Whether the mutation fits as it is said.
fn fits_as<S: TreeStore>(store: &S, cursor: &Cursor, mutation: Mutation, want: bool) -> bool {
    fits(store, cursor, &mutation) == want
}

/// Whether all mutations but an insert fit.
fn others_fit<S: TreeStore>(store: &S, cursor: &Cursor) -> bool {
    fits_as(store, cursor, Mutation::Assign(Value::Null), true)
        && fits_as(store, cursor, Mutation::Assign(Value::EmptyMap), true)
        && fits_as(store, cursor, Mutation::Assign(Value::EmptyList), true)
        && fits_as(store, cursor, Mutation::Delete, true)
}

/// Whether operations fit at the place as it is said.
fn fit_at<S: TreeStore>(keys: &Keys, store: &S, place: &Place) -> Result<bool, AllocError> {
    let (path, last, want) = place;
    let cursor = cursor_of(keys, path, *last)?;
    let insert = Mutation::Insert(Value::True);
    Ok(fits_as(store, &cursor, insert, *want) && others_fit(store, &cursor))
}

/// Whether operations fit as the table says.
fn fit<S: TreeStore>(keys: &Keys, store: &S, places: &[Place]) -> Result<bool, AllocError> {
    for place in places {
        if !fit_at(keys, store, place)? {
            return Ok(false);
        }
    }
    Ok(true)
}

/// Whether operations fit as the tables say, before there is a list and then.
pub fn fit_in_both<S: TreeStore>(keys: &Keys, store: &mut S) -> Result<bool, AllocError>
    requires { IsReady 0 (S.tree store.old).now }
{
    if !fit(keys, store, IN_AN_EMPTY_DOCUMENT)? {
        return Ok(false);
    }
    make_all(keys, store, LIST_OF_ONE)?;
    fit(keys, store, IN_A_LIST_OF_ONE)
}
