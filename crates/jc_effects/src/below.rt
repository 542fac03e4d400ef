//! The places that differ in a context in which nothing but losses can be, however deep.

ghost use Rattle.std.specs.Prelude.{◌≡◌, ◌++◌, ◌∷◌, [], List, Some, IfOk};
ghost use Rattle.jc_rules.specs.declared.key.Key.{Key as AnyKey};
ghost use Rattle.jc_rules.specs.declared.key.Tagged.{Tagged as AnyTagged};
ghost use Rattle.jc_meaning.specs.Seen.{seen};
ghost use Rattle.jc_effects.specs.Difference.{below, own_difference, IsDifference};
ghost use Rattle.jc_effects.specs.Parts.{AreContexts, OnlyLoses, OnlyLosesAt, AreLater, IsDifferenceAmong, own_seen, differences_of};

use crate::effects::{Effects, with_place};
use crate::entries::{ids_in, name_below, pairs_in};
use crate::own::{NO_TAGS, OwnEffects, ids_without, pairs_without, shown_between};
use jc_rules::{Key, Op, Tagged};
use jc_tree::{Hint, Place, TreeStore};
use std::alloc::{AllocError, Global};

/// A store before an operation and one after it.
#[derive(Drop)]
pub(crate) struct Change<'a, S> {
    pub alloc: Global,
    pub old: &'a S,
    pub new: &'a S,
    pub op: &'a Op,
}

/// A context in both stores: the store's name for it, if it is there.
#[derive(Clone, Copy)]
pub(crate) struct Contexts {
    pub old: Option<Place>,
    pub new: Option<Place>,
}

/// The context under the tagged key.
pub(crate) fn contexts_below<S: TreeStore>(
    change: &Change<'_, S>,
    contexts: Contexts,
    tagged: &Tagged,
) -> Contexts
    requires { (at : List AnyTagged) × AreContexts (S.names change.now.old.now) (S.names change.now.new.now)
        (S.tree change.now.old.now) (S.tree change.now.new.now) at contexts }
    ensures { (at : List AnyTagged) → AreContexts (S.names change.now.old.now) (S.names change.now.new.now)
        (S.tree change.now.old.now) (S.tree change.now.new.now) at contexts
        → AreContexts (S.names change.now.old.now) (S.names change.now.new.now)
        (S.tree change.now.old.now) (S.tree change.now.new.now) (at ++ tagged.now ∷ []) result }
{
    Contexts {
        old: name_below(change.old, contexts.old, tagged),
        new: name_below(change.new, contexts.new, tagged),
    }
}

/// What differs of a key's own entries, where nothing but losses can. `hint` is where to look first for the key.
fn own_lost<S: TreeStore>(
    change: &Change<'_, S>,
    contexts: Contexts,
    key: &Key,
    hint: Hint,
) -> Result<OwnEffects, AllocError>
    requires { (at : List AnyTagged) × AreContexts (S.names change.now.old.now) (S.names change.now.new.now)
        (S.tree change.now.old.now) (S.tree change.now.new.now) at contexts }
    ensures { (at : List AnyTagged) → AreContexts (S.names change.now.old.now) (S.names change.now.new.now)
        (S.tree change.now.old.now) (S.tree change.now.new.now) at contexts
        → OnlyLosesAt key.now (seen at (S.tree change.now.old.now).now) (seen at (S.tree change.now.new.now).now)
        → IfOk result (λ own. own_seen key.now own ≡ own_difference key.now
        (seen at (S.tree change.now.old.now).now) (seen at (S.tree change.now.new.now).now)) }
{
    let was = ids_in(change.old, contexts.old, key, hint);
    let now = ids_in(change.new, contexts.new, key, hint);
    let had = pairs_in(change.old, contexts.old, key, hint);
    let has = pairs_in(change.new, contexts.new, key, hint);
    Ok(OwnEffects {
        gained: Vec::new(change.alloc),
        lost: ids_without(change.alloc, was, now)?,
        made: NO_TAGS,
        next: None,
        shown: shown_between(was, now),
        taken: pairs_without(change.alloc, had, has)?,
        written: Vec::new(change.alloc),
    })
}

/// The places that differ in the map or the list under the tagged key.
#[cycle(below)]
pub(crate) fn child_below<S: TreeStore>(
    change: &Change<'_, S>,
    contexts: Contexts,
    tagged: &Tagged,
) -> Result<Effects, AllocError>
    requires { (at : List AnyTagged) × AreContexts (S.names change.now.old.now) (S.names change.now.new.now)
        (S.tree change.now.old.now) (S.tree change.now.new.now) at contexts }
    ensures { (at : List AnyTagged) → AreContexts (S.names change.now.old.now) (S.names change.now.new.now)
        (S.tree change.now.old.now) (S.tree change.now.new.now) at contexts
        → OnlyLoses (below tagged.now (seen at (S.tree change.now.old.now).now))
        (below tagged.now (seen at (S.tree change.now.new.now).now))
        → IfOk result (λ effects. IsDifference (below tagged.now (seen at (S.tree change.now.old.now).now))
        (below tagged.now (seen at (S.tree change.now.new.now).now)) (differences_of effects)) }
{
    let inside = contexts_below(change, contexts, tagged);
    let Some(place) = inside.old else {
        return Ok(Effects::Nothing);
    };
    places_below(change, place, inside)
}

/// With the key's place in front of the others, if something differs there. All other keys that differ are greater.
/// `hint` is where to look first for the key.
#[cycle(below)]
fn place_below<S: TreeStore>(
    change: &Change<'_, S>,
    contexts: Contexts,
    key: &Key,
    hint: Hint,
    rest: Effects,
) -> Result<Effects, AllocError>
    requires { (at : List AnyTagged) × AreContexts (S.names change.now.old.now) (S.names change.now.new.now)
        (S.tree change.now.old.now) (S.tree change.now.new.now) at contexts }
    ensures { (at : List AnyTagged) → AreContexts (S.names change.now.old.now) (S.names change.now.new.now)
        (S.tree change.now.old.now) (S.tree change.now.new.now) at contexts
        → OnlyLoses (seen at (S.tree change.now.old.now).now) (seen at (S.tree change.now.new.now).now)
        → IfOk result (λ effects. (ks : List AnyKey) → AreLater key.now ks
        → IsDifferenceAmong ks (seen at (S.tree change.now.old.now).now)
        (seen at (S.tree change.now.new.now).now) (differences_of rest)
        → IsDifferenceAmong (key.now ∷ ks) (seen at (S.tree change.now.old.now).now)
        (seen at (S.tree change.now.new.now).now) (differences_of effects)) }
{
    let own = own_lost(change, contexts, key, hint)?;
    if own.lost.is_empty() {
        // Where a key keeps its identifiers, nothing at it or below it is lost.
        return Ok(rest);
    }
    let list = child_below(change, contexts, &Tagged::ListT(key.copy()?))?;
    let map = child_below(change, contexts, &Tagged::MapT(key.copy()?))?;
    with_place(change.alloc, key, own, map, list, rest)
}

/// The places that differ in the context, whose name in the old store is `place`.
#[cycle(below)]
fn places_below<S: TreeStore>(
    change: &Change<'_, S>,
    place: Place,
    contexts: Contexts,
) -> Result<Effects, AllocError>
    requires contexts { (at : List AnyTagged) × AreContexts (S.names change.now.old.now) (S.names change.now.new.now)
        (S.tree change.now.old.now) (S.tree change.now.new.now) at contexts }
    requires named { contexts.old ≡ Some place }
    ensures { (at : List AnyTagged) → AreContexts (S.names change.now.old.now) (S.names change.now.new.now)
        (S.tree change.now.old.now) (S.tree change.now.new.now) at contexts
        → OnlyLoses (seen at (S.tree change.now.old.now).now) (seen at (S.tree change.now.new.now).now)
        → IfOk result (λ effects. IsDifference (seen at (S.tree change.now.old.now).now)
        (seen at (S.tree change.now.new.now).now) (differences_of effects)) }
{
    let mut effects = Effects::Nothing;
    let mut keys = change.old.keys_at(change.alloc, place)?;
    while let Some(lent) = keys.pop() {
        if ids_in(change.old, contexts.old, lent.0, lent.1).is_empty() {
            // Where nothing was, nothing was lost.
            continue;
        }
        effects = place_below(change, contexts, lent.0, lent.1, effects)?;
    }
    Ok(effects)
}
