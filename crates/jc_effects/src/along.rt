//! The places that differ by an operation: along its path, at its target and below it.

ghost use Rattle.std.specs.Prelude.{◌≡◌, ◌≢◌, ◌≤◌, ◌++◌, ◌∷◌, [], List, cond, length, take, true, false, Some, None, IfOk};
ghost use Rattle.std.specs.declared.cmp.Ordering.TheVariants.{Less};
ghost use Rattle.jc_rules.specs.declared.id.Id.{Id as AnyId};
ghost use Rattle.jc_rules.specs.declared.key.Key.{Key as AnyKey};
ghost use Rattle.jc_rules.specs.declared.key.Next.TheVariants.{Elem as To};
ghost use Rattle.jc_rules.specs.declared.key.Tagged.{Tagged as AnyTagged};
ghost use Rattle.jc_rules.specs.Order.{id_cmp, same_key};
ghost use Rattle.jc_rules.specs.Context.{key_of_tagged};
ghost use Rattle.jc_meaning.specs.Effects.{is_delete as deletes, is_insert as is_insertion, is_clearing as clears_there, target};
ghost use Rattle.jc_meaning.specs.Seen.{seen};
ghost use Rattle.jc_effects.specs.Difference.{below, own_difference, IsDifference};
ghost use Rattle.jc_effects.specs.Laws.{IsChangedBy};
ghost use Rattle.jc_effects.specs.Parts.{AreContexts, AreLater, IsDifferenceAmong, IsKeyBefore, own_seen, tags_made, differences_of};

use crate::below::{Change, Contexts, child_below, contexts_below};
use crate::effects::{Effects, with_place};
use crate::entries::{entries_at, has_tag_in, ids_in, link_in};
use crate::own::{
    Candidates, NO_TAGS, OwnEffects, Tags, ids_without, link_changed, own_between, shown_between,
};
use jc_rules::{Id, Key, Mutation, Next, Op, Tagged, Value, compare_ids, compare_keys};
use jc_tree::{ANYWHERE, TreeStore};
use std::alloc::{AllocError, Global};

fn is_delete(mutation: &Mutation) -> bool
    ensures { result ≡ deletes mutation.now }
{
    matches!(mutation, Mutation::Delete)
}

fn is_insert(mutation: &Mutation) -> bool
    ensures { result ≡ is_insertion mutation.now }
{
    matches!(mutation, Mutation::Insert(_))
}

/// Whether the mutation clears its target: it deletes, or assigns a new map or list.
fn is_clearing(mutation: &Mutation) -> bool
    ensures { result ≡ clears_there mutation.now }
{
    match mutation {
        Mutation::Assign(Value::EmptyMap) | Mutation::Assign(Value::EmptyList) => true,
        Mutation::Assign(_) | Mutation::Insert(_) => false,
        Mutation::Delete => true,
    }
}

/// The identifiers, or none.
fn ids_if(wanted: bool, ids: &[Id]) -> &[Id]
    ensures { result.now ≡ cond wanted ids.now [] }
{
    if wanted { ids } else { &[] }
}

/// The tag of the key, unless it was there before.
fn tag_made(tagged: &Tagged, was: bool) -> Tags
    ensures { tags_made (key_of_tagged tagged.now) result ≡ cond was [] (tagged.now ∷ []) }
{
    let is = !was;
    match tagged {
        Tagged::MapT(_) => Tags { map: is, ..NO_TAGS },
        Tagged::ListT(_) => Tags {
            list: is,
            ..NO_TAGS
        },
        Tagged::RegT(_) => Tags {
            register: is,
            ..NO_TAGS
        },
    }
}

/// What differs of the entries at a key on the path: the operation's identifier may have come, and the tagged key may
/// be new.
fn own_on_path<S: TreeStore>(
    change: &Change<'_, S>,
    contexts: Contexts,
    tagged: &Tagged,
) -> Result<OwnEffects, AllocError>
    requires changed { IsChangedBy change.now.op.now (S.tree change.now.old.now).now (S.tree change.now.new.now).now }
    requires contexts { (at : List AnyTagged) × AreContexts (S.names change.now.old.now) (S.names change.now.new.now)
        (S.tree change.now.old.now) (S.tree change.now.new.now) at contexts }
    ensures { (at rest : List AnyTagged) → AreContexts (S.names change.now.old.now) (S.names change.now.new.now)
        (S.tree change.now.old.now) (S.tree change.now.new.now) at contexts
        → change.now.op.now.cursor.path ≡ at ++ tagged.now ∷ rest
        → IfOk result (λ own. own_seen (key_of_tagged tagged.now) own ≡ own_difference (key_of_tagged tagged.now)
        (seen at (S.tree change.now.old.now).now) (seen at (S.tree change.now.new.now).now)) }
{
    let was = ids_in(change.old, contexts.old, tagged.key(), ANYWHERE);
    let now = ids_in(change.new, contexts.new, tagged.key(), ANYWHERE);
    let id = [change.op.id];
    let came = ids_if(!is_delete(&change.op.mutation), &id);
    Ok(OwnEffects {
        gained: ids_without(change.alloc, came, was)?,
        lost: Vec::new(change.alloc),
        made: tag_made(tagged, has_tag_in(change.old, contexts.old, tagged)),
        next: None,
        shown: shown_between(was, now),
        taken: Vec::new(change.alloc),
        written: Vec::new(change.alloc),
    })
}

/// What differs of the entries at the target.
fn own_at_target<S: TreeStore>(
    change: &Change<'_, S>,
    contexts: Contexts,
    key: &Key,
) -> Result<OwnEffects, AllocError>
    requires changed { IsChangedBy change.now.op.now (S.tree change.now.old.now).now (S.tree change.now.new.now).now }
    requires contexts { AreContexts (S.names change.now.old.now) (S.names change.now.new.now)
        (S.tree change.now.old.now) (S.tree change.now.new.now) change.now.op.now.cursor.path contexts }
    requires target { key.now ≡ target change.now.op.now }
    ensures { IfOk result (λ own. own_seen key.now own ≡ own_difference key.now
        (seen change.now.op.now.cursor.path (S.tree change.now.old.now).now)
        (seen change.now.op.now.cursor.path (S.tree change.now.new.now).now)) }
{
    let path = change.op.cursor.path.as_slice();
    let was = entries_at(change.old, contexts.old, path, key);
    let now = entries_at(change.new, contexts.new, path, key);
    let id = [change.op.id];
    let candidates = Candidates {
        gained: ids_if(!is_delete(&change.op.mutation), &id),
        lost: ids_if(is_clearing(&change.op.mutation), was.ids),
        taken: was.pairs,
        written: now.pairs,
    };
    own_between(change.alloc, &was, &now, candidates)
}

/// What differs of the entries at the key before a new element: the link alone.
fn own_linked<S: TreeStore>(change: &Change<'_, S>, contexts: Contexts, key: &Key) -> OwnEffects
    requires changed { IsChangedBy change.now.op.now (S.tree change.now.old.now).now (S.tree change.now.new.now).now }
    requires contexts { AreContexts (S.names change.now.old.now) (S.names change.now.new.now)
        (S.tree change.now.old.now) (S.tree change.now.new.now) change.now.op.now.cursor.path contexts }
    requires inserts { is_insertion change.now.op.now.mutation ≡ true }
    requires other { same_key (target change.now.op.now) key.now ≡ false }
    ensures { own_seen key.now result ≡ own_difference key.now
        (seen change.now.op.now.cursor.path (S.tree change.now.old.now).now)
        (seen change.now.op.now.cursor.path (S.tree change.now.new.now).now) }
{
    let path = change.op.cursor.path.as_slice();
    let was = link_in(change.old, contexts.old, path, key);
    let now = link_in(change.new, contexts.new, path, key);
    OwnEffects {
        gained: Vec::new(change.alloc),
        lost: Vec::new(change.alloc),
        made: NO_TAGS,
        next: link_changed(was, now),
        shown: None,
        taken: Vec::new(change.alloc),
        written: Vec::new(change.alloc),
    }
}

/// The places that differ in the target's map or list, which are those that were cleared.
fn child_cleared<S: TreeStore>(
    change: &Change<'_, S>,
    contexts: Contexts,
    tagged: &Tagged,
) -> Result<Effects, AllocError>
    requires changed { IsChangedBy change.now.op.now (S.tree change.now.old.now).now (S.tree change.now.new.now).now }
    requires contexts { AreContexts (S.names change.now.old.now) (S.names change.now.new.now)
        (S.tree change.now.old.now) (S.tree change.now.new.now) change.now.op.now.cursor.path contexts }
    ensures { IfOk result (λ effects. IsDifference
        (below tagged.now (seen change.now.op.now.cursor.path (S.tree change.now.old.now).now))
        (below tagged.now (seen change.now.op.now.cursor.path (S.tree change.now.new.now).now)) (differences_of effects)) }
{
    if is_clearing(&change.op.mutation) {
        child_below(change, contexts, tagged)
    } else {
        Ok(Effects::Nothing)
    }
}

/// With the target's place in front of the others, if something differs there. All other keys that differ are greater.
fn place_at_target<S: TreeStore>(
    change: &Change<'_, S>,
    contexts: Contexts,
    key: &Key,
    rest: Effects,
) -> Result<Effects, AllocError>
    requires changed { IsChangedBy change.now.op.now (S.tree change.now.old.now).now (S.tree change.now.new.now).now }
    requires contexts { AreContexts (S.names change.now.old.now) (S.names change.now.new.now)
        (S.tree change.now.old.now) (S.tree change.now.new.now) change.now.op.now.cursor.path contexts }
    requires target { key.now ≡ target change.now.op.now }
    ensures { IfOk result (λ effects. (ks : List AnyKey) → AreLater key.now ks
        → IsDifferenceAmong ks (seen change.now.op.now.cursor.path (S.tree change.now.old.now).now)
        (seen change.now.op.now.cursor.path (S.tree change.now.new.now).now) (differences_of rest)
        → IsDifferenceAmong (key.now ∷ ks) (seen change.now.op.now.cursor.path (S.tree change.now.old.now).now)
        (seen change.now.op.now.cursor.path (S.tree change.now.new.now).now) (differences_of effects)) }
{
    let list = child_cleared(change, contexts, &Tagged::ListT(key.copy()?))?;
    let map = child_cleared(change, contexts, &Tagged::MapT(key.copy()?))?;
    let own = own_at_target(change, contexts, key)?;
    with_place(change.alloc, key, own, map, list, rest)
}

/// The element that `next` leads to, if its identifier is greater than the given one.
fn greater_element(next: Option<Next>, id: Id) -> Option<Id>
    ensures some { (n : AnyId) → result ≡ Some n → (next ≡ Some (To n)) × (id_cmp id n ≡ Less) }
    ensures none { result ≡ None → (n : AnyId) → next ≡ Some (To n) → id_cmp id n ≢ Less }
{
    match next {
        Some(Next::Elem(element)) if compare_ids(id, element).is_lt() => Some(element),
        _ => None,
    }
}

/// The key behind which the operation put its element, by the list as it was.
fn key_before<S: TreeStore>(change: &Change<'_, S>, contexts: Contexts) -> Result<Key, AllocError>
    requires changed { IsChangedBy change.now.op.now (S.tree change.now.old.now).now (S.tree change.now.new.now).now }
    requires contexts { AreContexts (S.names change.now.old.now) (S.names change.now.new.now)
        (S.tree change.now.old.now) (S.tree change.now.new.now) change.now.op.now.cursor.path contexts }
    requires inserts { is_insertion change.now.op.now.mutation ≡ true }
    ensures { IfOk result (λ key. IsKeyBefore change.now.op.now
        (seen change.now.op.now.cursor.path (S.tree change.now.old.now).now) key) }
{
    let op = change.op;
    let path = op.cursor.path.as_slice();
    let mut key = op.cursor.last.copy()?;
    while let Some(id) = greater_element(link_in(change.old, contexts.old, path, &key), op.id) {
        key = Key::Elem(id);
    }
    Ok(key)
}

/// With the place of the key before the new element in front of the others. All other keys that differ are greater.
fn place_of_link<S: TreeStore>(
    change: &Change<'_, S>,
    contexts: Contexts,
    key: &Key,
    rest: Effects,
) -> Result<Effects, AllocError>
    requires changed { IsChangedBy change.now.op.now (S.tree change.now.old.now).now (S.tree change.now.new.now).now }
    requires contexts { AreContexts (S.names change.now.old.now) (S.names change.now.new.now)
        (S.tree change.now.old.now) (S.tree change.now.new.now) change.now.op.now.cursor.path contexts }
    requires inserts { is_insertion change.now.op.now.mutation ≡ true }
    requires other { same_key (target change.now.op.now) key.now ≡ false }
    ensures { IfOk result (λ effects. (ks : List AnyKey) → AreLater key.now ks
        → IsDifferenceAmong ks (seen change.now.op.now.cursor.path (S.tree change.now.old.now).now)
        (seen change.now.op.now.cursor.path (S.tree change.now.new.now).now) (differences_of rest)
        → IsDifferenceAmong (key.now ∷ ks) (seen change.now.op.now.cursor.path (S.tree change.now.old.now).now)
        (seen change.now.op.now.cursor.path (S.tree change.now.new.now).now) (differences_of effects)) }
{
    let own = own_linked(change, contexts, key);
    with_place(
        change.alloc,
        key,
        own,
        Effects::Nothing,
        Effects::Nothing,
        rest,
    )
}

/// The places of the new element and of the key before it, which an insert links otherwise.
fn places_of_insert<S: TreeStore>(
    change: &Change<'_, S>,
    contexts: Contexts,
) -> Result<Effects, AllocError>
    requires changed { IsChangedBy change.now.op.now (S.tree change.now.old.now).now (S.tree change.now.new.now).now }
    requires contexts { AreContexts (S.names change.now.old.now) (S.names change.now.new.now)
        (S.tree change.now.old.now) (S.tree change.now.new.now) change.now.op.now.cursor.path contexts }
    requires inserts { is_insertion change.now.op.now.mutation ≡ true }
    ensures { IfOk result (λ effects. IsDifference (seen change.now.op.now.cursor.path (S.tree change.now.old.now).now)
        (seen change.now.op.now.cursor.path (S.tree change.now.new.now).now) (differences_of effects)) }
{
    let element = Key::Elem(change.op.id);
    let before = key_before(change, contexts)?;
    if compare_keys(&before, &element).is_lt() {
        let rest = place_at_target(change, contexts, &element, Effects::Nothing)?;
        place_of_link(change, contexts, &before, rest)
    } else {
        let rest = place_of_link(change, contexts, &before, Effects::Nothing)?;
        place_at_target(change, contexts, &element, rest)
    }
}

/// The places that differ in the context of the target.
fn places_at_target<S: TreeStore>(
    change: &Change<'_, S>,
    contexts: Contexts,
) -> Result<Effects, AllocError>
    requires changed { IsChangedBy change.now.op.now (S.tree change.now.old.now).now (S.tree change.now.new.now).now }
    requires contexts { AreContexts (S.names change.now.old.now) (S.names change.now.new.now)
        (S.tree change.now.old.now) (S.tree change.now.new.now) change.now.op.now.cursor.path contexts }
    ensures { IfOk result (λ effects. IsDifference
        (seen change.now.op.now.cursor.path (S.tree change.now.old.now).now)
        (seen change.now.op.now.cursor.path (S.tree change.now.new.now).now) (differences_of effects)) }
{
    let op = change.op;
    if is_insert(&op.mutation) {
        places_of_insert(change, contexts)
    } else {
        place_at_target(change, contexts, &op.cursor.last, Effects::Nothing)
    }
}

/// The place of a key on the path, from the places that differ in the context below it.
fn place_on_path<S: TreeStore>(
    change: &Change<'_, S>,
    contexts: Contexts,
    tagged: &Tagged,
    inside: Effects,
) -> Result<Effects, AllocError>
    requires changed { IsChangedBy change.now.op.now (S.tree change.now.old.now).now (S.tree change.now.new.now).now }
    requires contexts { (at : List AnyTagged) × AreContexts (S.names change.now.old.now) (S.names change.now.new.now)
        (S.tree change.now.old.now) (S.tree change.now.new.now) at contexts }
    ensures { (at rest : List AnyTagged) → AreContexts (S.names change.now.old.now) (S.names change.now.new.now)
        (S.tree change.now.old.now) (S.tree change.now.new.now) at contexts
        → change.now.op.now.cursor.path ≡ at ++ tagged.now ∷ rest
        → IsDifference (below tagged.now (seen at (S.tree change.now.old.now).now))
        (below tagged.now (seen at (S.tree change.now.new.now).now)) (differences_of inside)
        → IfOk result (λ effects. IsDifference (seen at (S.tree change.now.old.now).now)
        (seen at (S.tree change.now.new.now).now) (differences_of effects)) }
{
    let own = own_on_path(change, contexts, tagged)?;
    let none = Effects::Nothing;
    match tagged {
        Tagged::MapT(key) => with_place(change.alloc, key, own, inside, none, Effects::Nothing),
        Tagged::ListT(key) => with_place(change.alloc, key, own, none, inside, Effects::Nothing),
        Tagged::RegT(key) => with_place(
            change.alloc,
            key,
            own,
            none,
            Effects::Nothing,
            Effects::Nothing,
        ),
    }
}

/// The places that differ in the context so deep on the operation's path.
fn places_along<S: TreeStore>(
    change: &Change<'_, S>,
    contexts: Contexts,
    depth: usize,
) -> Result<Effects, AllocError>
    requires changed { IsChangedBy change.now.op.now (S.tree change.now.old.now).now (S.tree change.now.new.now).now }
    requires contexts { AreContexts (S.names change.now.old.now) (S.names change.now.new.now)
        (S.tree change.now.old.now) (S.tree change.now.new.now) (take depth change.now.op.now.cursor.path) contexts }
    requires depth { depth ≤ length change.now.op.now.cursor.path }
    ensures { IfOk result (λ effects. IsDifference
        (seen (take depth change.now.op.now.cursor.path) (S.tree change.now.old.now).now)
        (seen (take depth change.now.op.now.cursor.path) (S.tree change.now.new.now).now) (differences_of effects)) }
{
    let path = change.op.cursor.path.as_slice();
    if depth == path.len() {
        return places_at_target(change, contexts);
    }
    let tagged = &path[depth];
    let inside = contexts_below(change, contexts, tagged);
    let effects = places_along(change, inside, depth + 1)?;
    place_on_path(change, contexts, tagged, effects)
}

/// All places at which the tree `new` differs from `old`, where the operation led from the one to the other. It looks
/// at the operation's path and at what is at or below its target, however large the trees are.
pub fn effects_of<S: TreeStore>(
    alloc: Global,
    old: &S,
    new: &S,
    op: &Op,
) -> Result<Effects, AllocError>
    requires { IsChangedBy op.now (S.tree old.now).now (S.tree new.now).now }
    ensures { IfOk result (λ effects. IsDifference (S.tree old.now).now (S.tree new.now).now (differences_of effects)) }
{
    let change = Change {
        alloc,
        old,
        new,
        op,
    };
    let contexts = Contexts {
        old: Some(old.root()),
        new: Some(new.root()),
    };
    places_along(&change, contexts, 0)
}
