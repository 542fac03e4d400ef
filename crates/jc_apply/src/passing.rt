//! The search for the place of an insert: past as many elements at once as the store tells of, if all have greater
//! identifiers, else past one.

ghost use Rattle.std.specs.Prelude.{◌≡◌, ◌≢◌, ◌↔◌, ◌<◌, ◌≤◌, List, IsTrue, None, Some, IfOk, IfSome};
ghost use Rattle.std.specs.declared.cmp.Ordering.TheVariants.{Less};
ghost use Rattle.jc_rules.specs.declared.id.Id.{Id as AnyId};
ghost use Rattle.jc_rules.specs.declared.key.Key.TheVariants.{Elem};
ghost use Rattle.jc_rules.specs.declared.key.Next.TheVariants.{Elem as To};
ghost use Rattle.jc_rules.specs.declared.key.Tagged.{Tagged as AnyTagged};
ghost use Rattle.jc_rules.specs.declared.operation.Mutation.TheVariants.{Insert};
ghost use Rattle.jc_rules.specs.declared.value.Value.{Value as AnyValue};
ghost use Rattle.jc_rules.specs.Order.{id_cmp};
ghost use Rattle.jc_rules.specs.Context.{next as next_of};
ghost use Rattle.jc_rules.specs.WellFormed.{IsChained};
ghost use Rattle.jc_rules.specs.Trace.{IsLonger};
ghost use Rattle.jc_tree.specs.Tree.{here};
ghost use Rattle.jc_apply.specs.Fits.{IsUnlinked};
ghost use Rattle.jc_apply.specs.AppliesAlong.{Passes};
ghost use Rattle.jc_apply.specs.Passing.{LeadsOverGreater, PassesOn};

use jc_rules::{Id, Key, Next, Op, Rule, Trace, compare_ids};
use jc_tree::{ANYWHERE, Hint, Place, Stretch, TreeStore};
use std::alloc::AllocError;

/// The most elements that are passed at once: as many as a store tells of in a word.
const MOST: usize = 64;

/// How far the search has come: the key, where to look first for it, what follows it, and where to look first for that.
#[derive(Drop)]
struct Search {
    key: Key,
    hint: Hint,
    next: Next,
    next_hint: Hint,
}

/// The search at the key of the list at the place. `hint` is where to look first for the key.
fn search_at<S: TreeStore>(store: &S, place: Place, key: Key, hint: Hint) -> Search
    requires { (at : List AnyTagged) × S.names store.now place at
        × (next_of key (here at (S.tree store.now)) ≢ None) }
    ensures key { result.key ≡ key }
    ensures next { (at : List AnyTagged) → S.names store.now place at
        → next_of result.key (here at (S.tree store.now)) ≡ Some result.next }
{
    let step = store.step_by(place, &key, hint);
    let Some(next) = step.next else {
        unreachable!();
    };
    Search {
        key,
        hint,
        next,
        next_hint: step.hint,
    }
}

/// The element that `next` leads to, if its identifier is greater than the given one.
fn greater_element(next: Next, id: Id) -> Option<Id>
    ensures some { (n : AnyId) → result ≡ Some n → (next ≡ To n) × (id_cmp id n ≡ Less) }
    ensures none { result ≡ None → (n : AnyId) → next ≡ To n → id_cmp id n ≢ Less }
{
    match next {
        Next::Elem(element) if compare_ids(id, element).is_lt() => Some(element),
        _ => None,
    }
}

/// Whether the first identifier is less than the second.
fn is_below(first: Id, second: Id) -> bool
    ensures { IsTrue result ↔ id_cmp first second ≡ Less }
{
    compare_ids(first, second).is_lt()
}

/// What the store tells of the elements behind the search's key, if their identifiers are all greater than the
/// given one.
fn stretch_above<S: TreeStore>(store: &S, place: Place, search: &Search, id: Id) -> Option<Stretch>
    requires { (at : List AnyTagged) × S.names store.now place at }
    ensures some { IfSome result (λ s. 0 < s.count) }
    ensures most { IfSome result (λ s. s.count ≤ 64) }
    ensures leads { (at : List AnyTagged) → S.names store.now place at → IfSome result (λ s.
        LeadsOverGreater (here at (S.tree store.now)) id search.now.key s.count (Elem s.last)) }
{
    let stretch = store.stretch_by(place, &search.key, search.hint, MOST)?;
    if is_below(id, stretch.least) {
        return Some(stretch);
    }
    None
}

/// Passes the element that follows, if its identifier is greater than the given one, and with it those behind it of
/// which the store tells that theirs are. Returns the last key that was passed, and where to look first for it.
fn pass_on<S: TreeStore>(
    store: &S,
    place: Place,
    search: &Search,
    id: Id,
    trace: &mut Trace,
) -> Result<Option<(Key, Hint)>, AllocError>
    requires named { (at : List AnyTagged) × S.names store.now place at }
    requires follows { (at : List AnyTagged) → S.names store.now place at
        → next_of search.now.key (here at (S.tree store.now)) ≡ Some search.now.next }
    ensures some { (at : List AnyTagged) → S.names store.now place at → IfOk result (λ o. IfSome o (λ p.
        PassesOn (here at (S.tree store.now)) id search.now.key p.0 trace.old trace.new)) }
    ensures none { IfOk result (λ o. o ≡ None
        → (trace.new ≡ trace.old) × ((n : AnyId) → search.now.next ≡ To n → id_cmp id n ≢ Less)) }
    ensures longer { IsLonger trace.old trace.new }
{
    let Some(element) = greater_element(search.next, id) else {
        return Ok(None);
    };
    match stretch_above(store, place, search, id) {
        Some(stretch) => {
            trace.open_times(Rule::Insert2, stretch.count as u32)?;
            Ok(Some((Key::Elem(stretch.last), stretch.hint)))
        }
        None => {
            trace.open(Rule::Insert2)?;
            Ok(Some((Key::Elem(element), search.next_hint)))
        }
    }
}

/// Goes in the list at the place from the operation's last key past the elements there whose identifier is
/// greater than the operation's. Returns the key behind which the new element belongs, and what follows
/// that key.
pub fn pass<S: TreeStore>(
    store: &S,
    place: Place,
    op: &Op,
    trace: &mut Trace,
) -> Result<(Key, Next), AllocError>
    requires chained { IsChained (S.tree store.now).now }
    requires fresh { IsUnlinked op.now.id (S.tree store.now).now }
    requires inserts { (v : AnyValue) × (op.now.mutation ≡ Insert v) }
    requires linked { (at : List AnyTagged) × S.names store.now place at
        × (next_of op.now.cursor.last (here at (S.tree store.now)) ≢ None) }
    ensures ok { (at : List AnyTagged) → S.names store.now place at
        → IfOk result (λ p. Passes op.now (here at (S.tree store.now)) p.0 p.1 trace.old trace.new) }
    ensures kept { IsLonger trace.old trace.new }
{
    let key = op.cursor.last.copy()?;
    let mut search = search_at(store, place, key, ANYWHERE);
    while let Some((key, hint)) = pass_on(store, place, &search, op.id, trace)? {
        search = search_at(store, place, key, hint);
    }
    let Search { key, next, .. } = search;
    Ok((key, next))
}
