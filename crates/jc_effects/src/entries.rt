//! What stands under a key of a context that may be missing: then it is what a descent would make there.

ghost use Rattle.std.specs.Prelude.{◌≡◌, ◌++◌, ◌∷◌, [], List, option_copied};
ghost use Rattle.jc_rules.specs.declared.key.Tagged.{Tagged as AnyTagged};
ghost use Rattle.jc_rules.specs.declared.key.Tagged.TheVariants.{MapT, ListT, RegT};
ghost use Rattle.jc_rules.specs.Context.{next as next_of};
ghost use Rattle.jc_rules.specs.Ids.{AreRising};
ghost use Rattle.jc_rules.specs.WellFormed.{IsWellFormedRegister};
ghost use Rattle.jc_apply.specs.Fits.{made_under};
ghost use Rattle.jc_tree.specs.Tree.{or_no_entries};
ghost use Rattle.jc_meaning.specs.Seen.{seen, ids_at, reg_at, has_tag};
ghost use Rattle.jc_effects.specs.Parts.{IsNameOf, AreEntries};

use crate::own::Tags;
use jc_rules::{Id, Key, Next, Tagged, Value};
use jc_tree::{ANYWHERE, Hint, Place, TreeStore};

/// What stands under a key. A presence set or a register that isn't there is as an empty one.
#[derive(Clone, Copy)]
pub(crate) struct Entries<'a> {
    pub ids: &'a [Id],
    pub tags: Tags,
    pub next: Option<Next>,
    pub pairs: &'a [(Id, Value)],
}

/// The presence set of the key; `hint` is where to look first.
pub(crate) fn ids_in<'a, S: TreeStore>(
    store: &'a S,
    place: Option<Place>,
    key: &Key,
    hint: Hint,
) -> &'a [Id]
    requires { (at : List AnyTagged) × IsNameOf (S.names store.now) (S.tree store.now) at place }
    ensures ids { (at : List AnyTagged) → IsNameOf (S.names store.now) (S.tree store.now) at place
        → result.now ≡ ids_at key.now (seen at (S.tree store.now).now) }
    ensures rising { AreRising result.now }
{
    let Some(place) = place else {
        return &[];
    };
    match store.presence_by(place, key, hint) {
        Some(ids) => ids,
        None => &[],
    }
}

/// The values of the key's register; `hint` is where to look first.
pub(crate) fn pairs_in<'a, S: TreeStore>(
    store: &'a S,
    place: Option<Place>,
    key: &Key,
    hint: Hint,
) -> &'a [(Id, Value)]
    requires { (at : List AnyTagged) × IsNameOf (S.names store.now) (S.tree store.now) at place }
    ensures pairs { (at : List AnyTagged) → IsNameOf (S.names store.now) (S.tree store.now) at place
        → result.now ≡ or_no_entries (reg_at key.now (seen at (S.tree store.now).now)) }
    ensures formed { IsWellFormedRegister result.now }
{
    let Some(place) = place else {
        return &[];
    };
    match store.register_by(place, key, hint) {
        Some(pairs) => pairs,
        None => &[],
    }
}

/// Which tags the key has.
fn tags_in<S: TreeStore>(store: &S, place: Option<Place>, key: &Key) -> Tags
    requires { (at : List AnyTagged) × IsNameOf (S.names store.now) (S.tree store.now) at place }
    ensures map { (at : List AnyTagged) → IsNameOf (S.names store.now) (S.tree store.now) at place
        → result.map ≡ has_tag (MapT key.now) (seen at (S.tree store.now).now) }
    ensures list { (at : List AnyTagged) → IsNameOf (S.names store.now) (S.tree store.now) at place
        → result.list ≡ has_tag (ListT key.now) (seen at (S.tree store.now).now) }
    ensures register { (at : List AnyTagged) → IsNameOf (S.names store.now) (S.tree store.now) at place
        → result.register ≡ has_tag (RegT key.now) (seen at (S.tree store.now).now) }
{
    match place {
        Some(place) => Tags {
            map: store.map_by(place, key, ANYWHERE).is_some(),
            list: store.list_by(place, key, ANYWHERE).is_some(),
            register: store.register_by(place, key, ANYWHERE).is_some(),
        },
        None => Tags {
            map: false,
            list: false,
            register: false,
        },
    }
}

/// Whether the context has the tagged key.
pub(crate) fn has_tag_in<S: TreeStore>(store: &S, place: Option<Place>, tagged: &Tagged) -> bool
    requires { (at : List AnyTagged) × IsNameOf (S.names store.now) (S.tree store.now) at place }
    ensures { (at : List AnyTagged) → IsNameOf (S.names store.now) (S.tree store.now) at place
        → result ≡ has_tag tagged.now (seen at (S.tree store.now).now) }
{
    let Some(place) = place else {
        return false;
    };
    match tagged {
        Tagged::MapT(key) => store.map_by(place, key, ANYWHERE).is_some(),
        Tagged::ListT(key) => store.list_by(place, key, ANYWHERE).is_some(),
        Tagged::RegT(key) => store.register_by(place, key, ANYWHERE).is_some(),
    }
}

/// What follows the key in a new context under the tagged key: only the head of a new list is linked.
fn new_link(parent: Option<&Tagged>, key: &Key) -> Option<Next>
    ensures { result ≡ next_of key.now (made_under (option_copied parent.entry)) }
{
    match (parent, key) {
        (Some(Tagged::ListT(_)), Key::Head) => Some(Next::Tail),
        _ => None,
    }
}

/// What follows the key. In a new list the head is followed by the end.
pub(crate) fn link_in<S: TreeStore>(
    store: &S,
    place: Option<Place>,
    at: &[Tagged],
    key: &Key,
) -> Option<Next>
    requires { IsNameOf (S.names store.now) (S.tree store.now) at.now place }
    ensures { result ≡ next_of key.now (seen at.now (S.tree store.now).now) }
{
    match place {
        Some(place) => store.step_by(place, key, ANYWHERE).next,
        None => new_link(at.last(), key),
    }
}

/// What stands under the key.
pub(crate) fn entries_at<'a, S: TreeStore>(
    store: &'a S,
    place: Option<Place>,
    at: &[Tagged],
    key: &Key,
) -> Entries<'a>
    requires { IsNameOf (S.names store.now) (S.tree store.now) at.now place }
    ensures { AreEntries key.now (seen at.now (S.tree store.now).now) result }
{
    Entries {
        ids: ids_in(store, place, key, ANYWHERE),
        tags: tags_in(store, place, key),
        next: link_in(store, place, at, key),
        pairs: pairs_in(store, place, key, ANYWHERE),
    }
}

/// The store's name for the context under the tagged key, if it is there.
pub(crate) fn name_below<S: TreeStore>(
    store: &S,
    place: Option<Place>,
    tagged: &Tagged,
) -> Option<Place>
    requires { (at : List AnyTagged) × IsNameOf (S.names store.now) (S.tree store.now) at place }
    ensures { (at : List AnyTagged) → IsNameOf (S.names store.now) (S.tree store.now) at place
        → IsNameOf (S.names store.now) (S.tree store.now) (at ++ tagged.now ∷ []) result }
{
    match place {
        Some(place) => store.below(place, tagged),
        None => None,
    }
}
