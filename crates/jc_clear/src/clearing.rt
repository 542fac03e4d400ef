//! Clearing what is under a key, at every depth: assignments and deletions of jc_apply begin with it.
//! Recursion follows paths; keys of maps and elements of lists are walked by loops.

ghost use Rattle.std.specs.Prelude.{◌≡◌, [], List, Some, IfOk, OnOk, OnErr};
ghost use Rattle.jc_rules.specs.declared.id.Id.{Id as AnyId};
ghost use Rattle.jc_rules.specs.declared.key.Key.TheVariants.{Head};
ghost use Rattle.jc_rules.specs.declared.key.Tagged.{Tagged as AnyTagged};
ghost use Rattle.jc_rules.specs.declared.key.Tagged.TheVariants.{MapT, ListT};
ghost use Rattle.jc_rules.specs.declared.operation.Op.{Op as AnyOp};
ghost use Rattle.jc_rules.specs.Derivation.{Clear, ClearAny, ClearElem, ClearList, ClearMap};
ghost use Rattle.jc_rules.specs.Representation.{Represents};
ghost use Rattle.jc_rules.specs.WellFormed.{IsChained, IsChainedList};
ghost use Rattle.jc_vectors.specs.KnownIds.{KnowsOnly};
ghost use Rattle.jc_vectors.specs.OperationIds.{ids_of_ops};
ghost use Rattle.jc_tree.specs.CanGoBack.{TreeCanGoBack};
ghost use Rattle.jc_tree.specs.ChainedBelow.{AreChainedBelow};
ghost use Rattle.jc_tree.specs.Tree.{HasPlace, NamesStay, here};
ghost use Rattle.jc_rules.specs.Entries.{keys_of};
ghost use Rattle.jc_clear.specs.Clears.{Clears};
ghost use Rattle.jc_clear.specs.ContentKeys.{has_content};
ghost use Rattle.jc_clear.specs.Turns.{ThroughKeys};

use crate::cleared::{is_cleared, push_cleared};
use crate::registers::{clear_register, presence_of, put_presence};
use crate::sets::{left_out, united};
use jc_rules::{Id, IdSet, Key, Next, Rule, Tagged, Trace};
use jc_tree::{ANYWHERE, Hint, KeyAt, Place, TreeStore, place_of};
use std::alloc::{AllocError, Global};

/// Clears a key under each tag, and takes the dependencies out of its presence set. A key that was cleared before, and
/// has got nothing since, is written down and no more.
#[cycle(clearing)]
fn elem_in<S: TreeStore>(
    alloc: Global,
    store: &mut S,
    deps: &IdSet,
    key: KeyAt<'_>,
    trace: &mut Trace,
) -> Result<Vec<Id>, AllocError>
    requires { (at : List AnyTagged) × S.names store.old key.place at
        × AreChainedBelow (here at (S.tree store.old)) }
    ensures ok { (at : List AnyTagged) → S.names store.old key.entry.place at
        → IfOk result (λ ids. Clears (λ c. ClearElem c deps.now key.entry.key.now)
        at (S.tree store.old) (S.tree store.new) ids.items trace.old trace.new) }
    ensures names_stay { NamesStay (S.names store.old) (S.names store.new) }
    ensures kept { TreeCanGoBack (S.tree store.old) (S.tree store.new) trace.old trace.new }
{
    if is_cleared(store, key) {
        push_cleared(trace)?;
        return Ok(Vec::new(alloc));
    }
    let depth = trace.depth();
    trace.open(Rule::ClearElem)?;
    let below = any_in(alloc, store, deps, key, trace)?;
    let present = presence_of(alloc, store, key, trace)?;
    let all = united(below, present.as_slice())?;
    let ids = left_out(alloc, all.as_slice(), deps)?;
    put_presence(store, key, ids.as_slice())?;
    trace.close(depth);
    Ok(ids)
}

/// Clears a key under each tag.
#[cycle(clearing)]
fn any_in<S: TreeStore>(
    alloc: Global,
    store: &mut S,
    deps: &IdSet,
    key: KeyAt<'_>,
    trace: &mut Trace,
) -> Result<Vec<Id>, AllocError>
    requires { (at : List AnyTagged) × S.names store.old key.place at
        × AreChainedBelow (here at (S.tree store.old)) }
    ensures ok { (at : List AnyTagged) → S.names store.old key.entry.place at
        → IfOk result (λ ids. Clears (λ c. ClearAny c deps.now key.entry.key.now)
        at (S.tree store.old) (S.tree store.new) ids.items trace.old trace.new) }
    ensures names_stay { NamesStay (S.names store.old) (S.names store.new) }
    ensures kept { TreeCanGoBack (S.tree store.old) (S.tree store.new) trace.old trace.new }
{
    let depth = trace.depth();
    trace.open(Rule::ClearAny)?;
    let maps = clear_map(alloc, store, deps, key, trace)?;
    let lists = clear_list(alloc, store, deps, key, trace)?;
    let values = clear_register(alloc, store, deps, key, trace)?;
    let rest = united(lists, values.as_slice())?;
    let ids = united(maps, rest.as_slice())?;
    trace.close(depth);
    Ok(ids)
}

/// Clears a map.
#[cycle(clearing)]
fn clear_map<S: TreeStore>(
    alloc: Global,
    store: &mut S,
    deps: &IdSet,
    key: KeyAt<'_>,
    trace: &mut Trace,
) -> Result<Vec<Id>, AllocError>
    requires { (at : List AnyTagged) × S.names store.old key.place at
        × AreChainedBelow (here at (S.tree store.old)) }
    ensures ok { (at : List AnyTagged) → S.names store.old key.entry.place at
        → IfOk result (λ ids. Clears (λ c. Clear c deps.now (MapT key.entry.key.now))
        at (S.tree store.old) (S.tree store.new) ids.items trace.old trace.new) }
    ensures names_stay { NamesStay (S.names store.old) (S.names store.new) }
    ensures kept { TreeCanGoBack (S.tree store.old) (S.tree store.new) trace.old trace.new }
{
    let Some(child) = store.map_by(key.place, key.key, key.hint) else {
        trace.push(Rule::ClearNone)?;
        return Ok(Vec::new(alloc));
    };
    let depth = trace.depth();
    trace.open(Rule::ClearMap1)?;
    let ids = map_in(alloc, store, deps, child, trace)?;
    trace.close(depth);
    Ok(ids)
}

/// Whether there is a map, a list or a register under the key.
fn has_content<S: TreeStore>(store: &S, key: KeyAt<'_>) -> bool
    requires { (at : List AnyTagged) × S.names store.now key.place at }
    ensures { (at : List AnyTagged) → S.names store.now key.entry.place at
        → result ≡ has_content (here at (S.tree store.now)) key.entry.key.now }
{
    store.register_by(key.place, key.key, key.hint).is_some()
        || store.map_by(key.place, key.key, key.hint).is_some()
        || store.list_by(key.place, key.key, key.hint).is_some()
}

/// Clears the first keys of the map at the place as long as they were cleared before, and returns those behind them that
/// have a map, a list or a register, rising, each with a hint.
fn clear_first<S: TreeStore>(
    alloc: Global,
    store: &S,
    place: Place,
    trace: &mut Trace,
) -> Result<Vec<(Key, Hint)>, AllocError>
    requires { (at : List AnyTagged) × S.names store.now place at }
    ensures through { (at : List AnyTagged) → S.names store.now place at → IfOk result (λ keys. (deps : List AnyId)
        → ThroughKeys deps at (S.tree store.now) trace.old (S.tree store.now) (keys_of keys.items) [] trace.new) }
    ensures kept { TreeCanGoBack (S.tree store.now) (S.tree store.now) trace.old trace.new }
{
    let keys = store.keys_at(alloc, place)?;
    let mut left = Vec::new(alloc);
    for lent in keys.as_slice() {
        let key = KeyAt {
            place,
            key: lent.0,
            hint: lent.1,
        };
        if left.is_empty() && is_cleared(store, key) {
            trace.open(Rule::ClearMap2)?;
            push_cleared(trace)?;
        } else if has_content(store, key) {
            left.push((lent.0.copy()?, lent.1))?;
        }
    }
    Ok(left)
}

/// Clears the keys of a map, the least first.
#[cycle(clearing)]
fn map_in<S: TreeStore>(
    alloc: Global,
    store: &mut S,
    deps: &IdSet,
    place: Place,
    trace: &mut Trace,
) -> Result<Vec<Id>, AllocError>
    requires { (at : List AnyTagged) × S.names store.old place at
        × AreChainedBelow (here at (S.tree store.old)) }
    ensures ok { (at : List AnyTagged) → S.names store.old place at
        → IfOk result (λ ids. Clears (λ c. ClearMap c deps.now [])
        at (S.tree store.old) (S.tree store.new) ids.items trace.old trace.new) }
    ensures names_stay { NamesStay (S.names store.old) (S.names store.new) }
    ensures kept { TreeCanGoBack (S.tree store.old) (S.tree store.new) trace.old trace.new }
{
    let depth = trace.depth();
    let keys = clear_first(alloc, store, place, trace)?;
    let mut ids = Vec::new(alloc);
    for (key, hint) in keys.as_slice() {
        trace.open(Rule::ClearMap2)?;
        let key = KeyAt {
            place,
            key,
            hint: *hint,
        };
        let more = elem_in(alloc, store, deps, key, trace)?;
        ids = united(ids, more.as_slice())?;
    }
    trace.push(Rule::ClearMap3)?;
    trace.close(depth);
    Ok(ids)
}

/// Clears a list.
#[cycle(clearing)]
fn clear_list<S: TreeStore>(
    alloc: Global,
    store: &mut S,
    deps: &IdSet,
    key: KeyAt<'_>,
    trace: &mut Trace,
) -> Result<Vec<Id>, AllocError>
    requires { (at : List AnyTagged) × S.names store.old key.place at
        × AreChainedBelow (here at (S.tree store.old)) }
    ensures ok { (at : List AnyTagged) → S.names store.old key.entry.place at
        → IfOk result (λ ids. Clears (λ c. Clear c deps.now (ListT key.entry.key.now))
        at (S.tree store.old) (S.tree store.new) ids.items trace.old trace.new) }
    ensures names_stay { NamesStay (S.names store.old) (S.names store.new) }
    ensures kept { TreeCanGoBack (S.tree store.old) (S.tree store.new) trace.old trace.new }
{
    let Some(child) = store.list_by(key.place, key.key, key.hint) else {
        trace.push(Rule::ClearNone)?;
        return Ok(Vec::new(alloc));
    };
    let depth = trace.depth();
    trace.open(Rule::ClearList1)?;
    let ids = list_in(alloc, store, deps, child, trace)?;
    trace.close(depth);
    Ok(ids)
}

/// Clears the elements of a list, its head first. What follows an element is read before the element
/// is cleared; clearing leaves links as they are.
#[cycle(clearing)]
fn list_in<S: TreeStore>(
    alloc: Global,
    store: &mut S,
    deps: &IdSet,
    place: Place,
    trace: &mut Trace,
) -> Result<Vec<Id>, AllocError>
    requires { (at : List AnyTagged) × S.names store.old place at
        × IsChainedList (here at (S.tree store.old)) }
    ensures ok { (at : List AnyTagged) → S.names store.old place at
        → IfOk result (λ ids. Clears (λ c. ClearList c deps.now (Some Head))
        at (S.tree store.old) (S.tree store.new) ids.items trace.old trace.new) }
    ensures names_stay { NamesStay (S.names store.old) (S.names store.new) }
    ensures kept { TreeCanGoBack (S.tree store.old) (S.tree store.new) trace.old trace.new }
{
    let depth = trace.depth();
    let mut ids = Vec::new(alloc);
    let mut key = Some(Key::Head);
    let mut hint = ANYWHERE;
    while let Some(element) = key {
        let step = store.step_by(place, &element, hint);
        let Some(next) = step.next else {
            unreachable!();
        };
        trace.open(Rule::ClearList2)?;
        let at = KeyAt {
            place,
            key: &element,
            hint,
        };
        let more = elem_in(alloc, store, deps, at, trace)?;
        hint = step.hint;
        ids = united(ids, more.as_slice())?;
        key = match next {
            Next::Tail => None,
            Next::Elem(id) => Some(Key::Elem(id)),
        };
    }
    trace.push(Rule::ClearList3)?;
    trace.close(depth);
    Ok(ids)
}

/// Clears what is under a tagged key.
fn tagged_in<S: TreeStore>(
    alloc: Global,
    store: &mut S,
    deps: &IdSet,
    place: Place,
    key: &Tagged,
    trace: &mut Trace,
) -> Result<Vec<Id>, AllocError>
    requires { (at : List AnyTagged) × S.names store.old place at
        × AreChainedBelow (here at (S.tree store.old)) }
    ensures ok { (at : List AnyTagged) → S.names store.old place at
        → IfOk result (λ ids. Clears (λ c. Clear c deps.now key.now)
        at (S.tree store.old) (S.tree store.new) ids.items trace.old trace.new) }
    ensures names_stay { NamesStay (S.names store.old) (S.names store.new) }
    ensures kept { TreeCanGoBack (S.tree store.old) (S.tree store.new) trace.old trace.new }
{
    let hint = ANYWHERE;
    match key {
        Tagged::MapT(key) => clear_map(alloc, store, deps, KeyAt { place, key, hint }, trace),
        Tagged::ListT(key) => clear_list(alloc, store, deps, KeyAt { place, key, hint }, trace),
        Tagged::RegT(key) => clear_register(alloc, store, deps, KeyAt { place, key, hint }, trace),
    }
}

/// Clears what is under the tagged key in the context at the place: in registers the values go
/// whose operation is in `deps`, and in the presence sets at or below it the identifiers that are.
/// Returns the identifiers that are left in what was cleared, rising.
///
/// The rules are added to the trace at its depth. Tagged keys, links and names of places stay as they
/// are. In each sound set of operations that has all identifiers of the document, the same rules clear
/// alike by the causally closed set that `deps` represents. Only memory can be refused; store and trace
/// are then as they were.
pub fn clear<S: TreeStore>(
    alloc: Global,
    store: &mut S,
    deps: &IdSet,
    at: &[Tagged],
    key: &Tagged,
    trace: &mut Trace,
) -> Result<Vec<Id>, AllocError>
    requires there { HasPlace at.now (S.tree store.old) }
    requires chained { IsChained (S.tree store.old).now }
    ensures ok { IfOk result (λ ids. Clears (λ c. Clear c deps.now key.now)
        at.now (S.tree store.old) (S.tree store.new) ids.items trace.old trace.new) }
    ensures stands { IfOk result (λ ids. (set : List AnyOp) (members : List AnyId)
        → Represents set members deps.now → KnowsOnly (ids_of_ops set) (S.tree store.old).now
        → Clears (λ c. Clear c members key.now)
        at.now (S.tree store.old) (S.tree store.new) ids.items trace.old trace.new
        × KnowsOnly (ids_of_ops set) (S.tree store.new).now) }
    ensures names_stay { NamesStay (S.names store.old) (S.names store.new) }
    ensures err_store { OnErr result (S.tree store.new ≡ S.tree store.old) }
    ensures err_trace { OnErr result (trace.new ≡ trace.old) }
    ensures kept { TreeCanGoBack (S.tree store.old) (S.tree store.new) trace.old trace.new }
    ensures chained { IsChained (S.tree store.new).now }
{
    let place = place_of(store, at);
    clear_at(alloc, store, deps, place, key, trace)
}

/// As [`clear`], in the context at a place that is known.
pub fn clear_at<S: TreeStore>(
    alloc: Global,
    store: &mut S,
    deps: &IdSet,
    place: Place,
    key: &Tagged,
    trace: &mut Trace,
) -> Result<Vec<Id>, AllocError>
    requires named { (at : List AnyTagged) × S.names store.old place at }
    requires chained { IsChained (S.tree store.old).now }
    ensures ok { (at : List AnyTagged) → S.names store.old place at
        → IfOk result (λ ids. Clears (λ c. Clear c deps.now key.now)
        at (S.tree store.old) (S.tree store.new) ids.items trace.old trace.new) }
    ensures names_stay { NamesStay (S.names store.old) (S.names store.new) }
    ensures err_store { OnErr result (S.tree store.new ≡ S.tree store.old) }
    ensures err_trace { OnErr result (trace.new ≡ trace.old) }
    ensures kept { TreeCanGoBack (S.tree store.old) (S.tree store.new) trace.old trace.new }
    ensures chained { IsChained (S.tree store.new).now }
{
    let start = store.mark();
    let first = trace.mark();
    match tagged_in(alloc, store, deps, place, key, trace) {
        Ok(ids) => Ok(ids),
        Err(refused) => {
            store.undo_to(start);
            trace.cut(first);
            Err(refused)
        }
    }
}

/// Clears the key under each tag as [`clear`] does. Its presence set becomes the union of that set
/// and the identifiers that are left below, without those in `deps`; it is set even where it is
/// empty. Returns that set, rising.
///
/// The rules are added to the trace at its depth. Tagged keys, links and names of places stay as they
/// are. In each sound set of operations that has all identifiers of the document, the same rules clear
/// alike by the causally closed set that `deps` represents. Only memory can be refused; store and trace
/// are then as they were.
pub fn clear_elem<S: TreeStore>(
    alloc: Global,
    store: &mut S,
    deps: &IdSet,
    at: &[Tagged],
    key: &Key,
    trace: &mut Trace,
) -> Result<Vec<Id>, AllocError>
    requires there { HasPlace at.now (S.tree store.old) }
    requires chained { IsChained (S.tree store.old).now }
    ensures ok { IfOk result (λ ids. Clears (λ c. ClearElem c deps.now key.now)
        at.now (S.tree store.old) (S.tree store.new) ids.items trace.old trace.new) }
    ensures stands { IfOk result (λ ids. (set : List AnyOp) (members : List AnyId)
        → Represents set members deps.now → KnowsOnly (ids_of_ops set) (S.tree store.old).now
        → Clears (λ c. ClearElem c members key.now)
        at.now (S.tree store.old) (S.tree store.new) ids.items trace.old trace.new
        × KnowsOnly (ids_of_ops set) (S.tree store.new).now) }
    ensures names_stay { NamesStay (S.names store.old) (S.names store.new) }
    ensures err_store { OnErr result (S.tree store.new ≡ S.tree store.old) }
    ensures err_trace { OnErr result (trace.new ≡ trace.old) }
    ensures kept { TreeCanGoBack (S.tree store.old) (S.tree store.new) trace.old trace.new }
    ensures chained { IsChained (S.tree store.new).now }
{
    let place = place_of(store, at);
    clear_elem_at(alloc, store, deps, place, key, trace)
}

/// As [`clear_elem`], in the context at a place that is known.
pub fn clear_elem_at<S: TreeStore>(
    alloc: Global,
    store: &mut S,
    deps: &IdSet,
    place: Place,
    key: &Key,
    trace: &mut Trace,
) -> Result<Vec<Id>, AllocError>
    requires named { (at : List AnyTagged) × S.names store.old place at }
    requires chained { IsChained (S.tree store.old).now }
    ensures ok { (at : List AnyTagged) → S.names store.old place at
        → IfOk result (λ ids. Clears (λ c. ClearElem c deps.now key.now)
        at (S.tree store.old) (S.tree store.new) ids.items trace.old trace.new) }
    ensures names_stay { NamesStay (S.names store.old) (S.names store.new) }
    ensures err_store { OnErr result (S.tree store.new ≡ S.tree store.old) }
    ensures err_trace { OnErr result (trace.new ≡ trace.old) }
    ensures kept { TreeCanGoBack (S.tree store.old) (S.tree store.new) trace.old trace.new }
    ensures chained { IsChained (S.tree store.new).now }
{
    let at = KeyAt {
        place,
        key,
        hint: ANYWHERE,
    };
    let start = store.mark();
    let first = trace.mark();
    match elem_in(alloc, store, deps, at, trace) {
        Ok(ids) => Ok(ids),
        Err(refused) => {
            store.undo_to(start);
            trace.cut(first);
            Err(refused)
        }
    }
}
