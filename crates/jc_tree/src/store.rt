//! What every store of a document's tree promises; the rules of operations and expressions are written over it.

ghost use Rattle.std.specs.Prelude.{◌≡◌, ◌<◌, ◌≤◌, ◌+◌, ◌↔◌, List, [], ◌∷◌, ◌++◌, None, IsTrue, length, take, is_some, option_copied, Contains, IfSome, IfOk, OnOk, OnErr};
ghost use Rattle.std.specs.List.{AllByRecursion};
ghost use Rattle.jc_rules.specs.declared.key.Key.TheVariants.{Elem};
ghost use Rattle.jc_rules.specs.declared.key.Tagged.{Tagged as AnyTagged};
ghost use Rattle.jc_rules.specs.declared.key.Tagged.TheVariants.{MapT, ListT, RegT};
ghost use Rattle.jc_rules.specs.Order.{id_cmp, key_cmp};
ghost use Rattle.jc_rules.specs.Entries.{IsRising, find, put, keys_of};
ghost use Rattle.jc_rules.specs.Ids.{AreRising, with_id};
ghost use Rattle.jc_rules.specs.Context.{Values, IsPrimitive, content, with_content, new_content, presence, with_presence, presences, links, next as next_of, with_next, registers, keys};
ghost use Rattle.jc_rules.specs.Paths.{HasContext};
ghost use Rattle.jc_rules.specs.ContextsAt.{node_in};
ghost use Rattle.jc_rules.specs.WellFormed.{IsWellFormedContext, IsWellFormedRegister};
ghost use Rattle.jc_tree.specs.declared.store.Place.{Place as AnyPlace};
ghost use Rattle.jc_rules.specs.History.{timeline, begun};
ghost use Rattle.jc_tree.specs.Tree.{Tree, HasPlace, here, or_no_entries, IsChanged, NamesStay, AllNamesStay, least_after, has_ids, count_present, all_keys, keys_lent, keys_in};
ghost use Rattle.jc_tree.specs.Stretches.{LeadsOver};

use jc_rules::{Id, Key, Next, Tagged, Value};
use std::alloc::{AllocError, Global};

/// A savepoint in a store's history: the number of earlier contents at that time.
#[derive(Clone, Copy, Debug, PartialEq, Eq)]
pub struct Mark {
    pub changes: usize,
}

/// A store's name for a place, by which it is reached without the way down from the root.
#[derive(Clone, Copy, Debug, PartialEq, Eq)]
pub struct Place {
    pub number: usize,
}

/// Where a store may look first for a key of a context. Any number will do: a wrong one costs a
/// search, and changes no answer.
#[derive(Clone, Copy, Debug, PartialEq, Eq)]
pub struct Hint {
    pub number: usize,
}

/// The hint for a key of which none is known.
pub const ANYWHERE: Hint = Hint { number: 0 };

/// A key in the context at a place, and where a store may look first for it.
#[derive(Clone, Copy)]
pub struct KeyAt<'a> {
    pub place: Place,
    pub key: &'a Key,
    pub hint: Hint,
}

/// What a walk along a list reads of a key.
#[derive(Clone, Copy, Debug, PartialEq, Eq)]
pub struct Step {
    /// What follows the key.
    pub next: Option<Next>,
    /// Whether the key's presence set has an identifier.
    pub present: bool,
    /// Where to look first for the key that follows.
    pub hint: Hint,
}

/// What lies behind a key of a list, as far as a store tells it at once.
#[derive(Clone, Copy, Debug, PartialEq, Eq)]
pub struct Stretch {
    /// How many elements: one or more.
    pub count: usize,
    /// A bit for each, the lowest that of the first: whether its presence set has an identifier.
    pub bits: u64,
    /// None of them has a lesser identifier.
    pub least: Id,
    /// The last of them.
    pub last: Id,
    /// Where to look first for the last one.
    pub hint: Hint,
}

/// Which keys of a context: those of one of its parts.
#[derive(Clone, Copy, Debug, PartialEq, Eq)]
pub enum KeysOf {
    /// Maps, lists and registers.
    Content,
    /// Presence sets, also empty ones.
    Presence,
    /// What follows a key in a list.
    Link,
}

/// A document's tree, with the contents that it had before each change since `forget_marks` was last
/// called. Contexts are reached by places, the store's names for them: each call is about the context at the path that
/// the place names. Each changing call changes the named entry and no other. Only memory can be refused; the content
/// and the earlier ones are then as they were. Places stay, also after a refusal. Below the calls by place are those by
/// path, which are no part of an implementation.
pub trait TreeStore {
    /// The content now and the earlier ones.
    ghost tree: { Self → Tree };

    /// That the place is the store's name for the path, which leads to a context.
    ghost names: { Self → AnyPlace → List AnyTagged → Type 0 };

    /// The path that the place names, if it names one.
    ghost path: { Self → AnyPlace → List AnyTagged };

    /// The place of the root.
    fn root(&self) -> Place
        ensures { names self.now result [] };

    /// The place of the map or the list under the tagged key.
    fn below(&self, place: Place, key: &Tagged) -> Option<Place>
        requires { (at : List AnyTagged) × names self.now place at }
        ensures some { (at : List AnyTagged) → names self.now place at
            → is_some result ≡ is_some (node_in (content key.now (here at (tree self.now)))) }
        ensures named { (at : List AnyTagged) → names self.now place at
            → IfSome result (λ child. names self.now child (at ++ key.now ∷ [])) };

    /// The place of the map under the key. `hint` is where to look first for the key.
    fn map_by(&self, place: Place, key: &Key, hint: Hint) -> Option<Place>
        requires { (at : List AnyTagged) × names self.now place at }
        ensures some { (at : List AnyTagged) → names self.now place at
            → is_some result ≡ is_some (content (MapT key.now) (here at (tree self.now))) }
        ensures named { (at : List AnyTagged) → names self.now place at
            → IfSome result (λ child. names self.now child (at ++ MapT key.now ∷ [])) };

    /// As `map_by`, for the list under the key.
    fn list_by(&self, place: Place, key: &Key, hint: Hint) -> Option<Place>
        requires { (at : List AnyTagged) × names self.now place at }
        ensures some { (at : List AnyTagged) → names self.now place at
            → is_some result ≡ is_some (content (ListT key.now) (here at (tree self.now))) }
        ensures named { (at : List AnyTagged) → names self.now place at
            → IfSome result (λ child. names self.now child (at ++ ListT key.now ∷ [])) };

    /// Makes a new map, list or register under the tagged key. A new list has its head linked to its end.
    fn make_child_at(&mut self, place: Place, key: &Tagged) -> Result<(), AllocError>
        requires { (at : List AnyTagged) × names self.old place at
            × (content key.now (here at (tree self.old)) ≡ None) }
        ensures ok { (at : List AnyTagged) → names self.old place at → OnOk result (IsChanged at
            (with_content key.now (new_content key.now) (here at (tree self.old)))
            (tree self.old) (tree self.new)) }
        ensures names_stay { NamesStay (names self.old) (names self.new) }
        ensures err { OnErr result (tree self.new ≡ tree self.old) };

    /// The presence set of the key, rising. `hint` is where to look first for the key.
    fn presence_by(&self, place: Place, key: &Key, hint: Hint) -> Option<&[Id]>
        requires { (at : List AnyTagged) × names self.now place at }
        ensures { (at : List AnyTagged) → names self.now place at
            → option_copied result ≡ presence key.now (here at (tree self.now)) };

    /// Sets the key's presence set. An empty set is an entry too.
    fn set_presence_at(&mut self, place: Place, key: &Key, ids: &[Id]) -> Result<(), AllocError>
        requires named { (at : List AnyTagged) × names self.old place at }
        requires rising { AreRising ids.now }
        ensures ok { (at : List AnyTagged) → names self.old place at → OnOk result (IsChanged at
            (with_presence key.now ids.now (here at (tree self.old)))
            (tree self.old) (tree self.new)) }
        ensures names_stay { NamesStay (names self.old) (names self.new) }
        ensures err { OnErr result (tree self.new ≡ tree self.old) };

    /// Adds the identifier to the key's presence set, a new one where there is none. Returns whether
    /// there was one.
    fn add_presence_at(&mut self, place: Place, key: &Key, id: Id) -> Result<bool, AllocError>
        requires { (at : List AnyTagged) × names self.old place at }
        ensures ok { (at : List AnyTagged) → names self.old place at → OnOk result (IsChanged at
            (with_presence key.now (with_id id (or_no_entries (presence key.now (here at (tree self.old)))))
            (here at (tree self.old)))
            (tree self.old) (tree self.new)) }
        ensures was { (at : List AnyTagged) → names self.old place at
            → IfOk result (λ was. was ≡ is_some (presence key.now (here at (tree self.old)))) }
        ensures names_stay { NamesStay (names self.old) (names self.new) }
        ensures err { OnErr result (tree self.new ≡ tree self.old) };

    /// How many keys have a presence set with an identifier.
    fn count_present_at(&self, place: Place) -> usize
        requires { (at : List AnyTagged) × names self.now place at }
        ensures { (at : List AnyTagged) → names self.now place at
            → result ≡ count_present (presences (here at (tree self.now))) };

    /// One step of a walk along a list: what follows the key, whether the key is present, and a hint for the key that
    /// follows. `hint` is where to look first.
    fn step_by(&self, place: Place, key: &Key, hint: Hint) -> Step
        requires { (at : List AnyTagged) × names self.now place at }
        ensures next { (at : List AnyTagged) → names self.now place at
            → result.next ≡ next_of key.now (here at (tree self.now)) }
        ensures present { (at : List AnyTagged) → names self.now place at
            → result.present ≡ has_ids (or_no_entries (presence key.now (here at (tree self.now)))) };

    /// What lies behind a key of a list, `most` elements at most, as far as the store tells it at once, which may be not
    /// at all. `hint` is where to look first.
    fn stretch_by(&self, place: Place, key: &Key, hint: Hint, most: usize) -> Option<Stretch>
        requires { (at : List AnyTagged) × names self.now place at }
        ensures over { (at : List AnyTagged) → names self.now place at → IfSome result (λ s.
            LeadsOver (here at (tree self.now)) key.now s.count s.bits s.least (Elem s.last)) }
        ensures some { IfSome result (λ s. 0 < s.count) }
        ensures most { IfSome result (λ s. s.count ≤ most) };

    /// Links the key to what follows it.
    fn set_next_at(&mut self, place: Place, key: &Key, next: Next) -> Result<(), AllocError>
        requires { (at : List AnyTagged) × names self.old place at }
        ensures ok { (at : List AnyTagged) → names self.old place at → OnOk result (IsChanged at
            (with_next key.now next (here at (tree self.old)))
            (tree self.old) (tree self.new)) }
        ensures names_stay { NamesStay (names self.old) (names self.new) }
        ensures err { OnErr result (tree self.new ≡ tree self.old) };

    /// The values of the key's register, rising by identifier. `hint` is where to look first for the key.
    fn register_by(&self, place: Place, key: &Key, hint: Hint) -> Option<&[(Id, Value)]>
        requires { (at : List AnyTagged) × names self.now place at }
        ensures { (at : List AnyTagged) → names self.now place at
            → option_copied result ≡ find key_cmp key.now (registers (here at (tree self.now))) };

    /// Sets the key's register to these values. After a refusal the values are gone.
    fn set_register_at(
        &mut self,
        place: Place,
        key: &Key,
        pairs: Vec<(Id, Value)>,
    ) -> Result<(), AllocError>
        requires named { (at : List AnyTagged) × names self.old place at }
        requires kept { IsWellFormedRegister pairs.items }
        ensures ok { (at : List AnyTagged) → names self.old place at → OnOk result (IsChanged at
            (with_content (RegT key.now) (Values pairs.items) (here at (tree self.old)))
            (tree self.old) (tree self.new)) }
        ensures names_stay { NamesStay (names self.old) (names self.new) }
        ensures err { OnErr result (tree self.new ≡ tree self.old) };

    /// Puts the value under the identifier into the key's register, a new one where there is
    /// none. Returns whether there was one. After a refusal the value is gone.
    fn put_value_at(
        &mut self,
        place: Place,
        key: &Key,
        id: Id,
        value: Value,
    ) -> Result<bool, AllocError>
        requires named { (at : List AnyTagged) × names self.old place at }
        requires primitive { IsPrimitive value }
        ensures ok { (at : List AnyTagged) → names self.old place at → OnOk result (IsChanged at
            (with_content (RegT key.now)
            (Values (put id_cmp id value (or_no_entries (find key_cmp key.now (registers (here at (tree self.old)))))))
            (here at (tree self.old)))
            (tree self.old) (tree self.new)) }
        ensures was { (at : List AnyTagged) → names self.old place at → IfOk result (λ was.
            was ≡ is_some (find key_cmp key.now (registers (here at (tree self.old))))) }
        ensures names_stay { NamesStay (names self.old) (names self.new) }
        ensures err { OnErr result (tree self.new ≡ tree self.old) };

    /// The least key of a part of the context, above the given one.
    fn after_at(&self, place: Place, of: KeysOf, above: Option<&Key>) -> Option<&Key>
        requires { (at : List AnyTagged) × names self.now place at }
        ensures { (at : List AnyTagged) → names self.now place at → option_copied result
            ≡ least_after (option_copied above.entry) (keys_in of (here at (tree self.now))) };

    /// The keys of the context, rising, each with a hint for it. Each key under which something stands is one of them;
    /// others may be too.
    fn keys_at(&self, alloc: Global, place: Place) -> Result<Vec<(&Key, Hint)>, AllocError>
        requires { (at : List AnyTagged) × names self.now place at }
        ensures rising { IfOk result (λ lent. IsRising key_cmp (keys_lent lent.items)) }
        ensures all { (at : List AnyTagged) → names self.now place at → IfOk result (λ lent.
            AllByRecursion (Contains (keys_lent lent.items)) (all_keys (here at (tree self.now)))) };

    /// Marks the content as it is: a savepoint.
    fn mark(&self) -> Mark
        ensures { result.changes ≡ length (tree self.now).earlier };

    /// Goes back to the content at the mark: a rollback. It takes no memory. A place stays that a store
    /// with this content has: one that was there at the mark, if it still was one.
    fn undo_to(&mut self, mark: Mark)
        requires { mark.changes ≤ length (tree self.old).earlier }
        ensures content { timeline (tree self.new) ≡ take (mark.changes + 1) (timeline (tree self.old)) }
        ensures names_stay { (then : Self) → tree then ≡ tree self.new
            → AllNamesStay (names then) (names self.old) (names self.new) };

    /// Gives up the earlier contents, so that earlier marks are valid no more: a commit.
    fn forget_marks(&mut self)
        ensures { tree self.new ≡ begun (tree self.old).now };

    /// At every depth the entries rise by key, presence sets and registers by identifier, and
    /// registers have primitive values.
    ghost kept: { (s : Self) → IsWellFormedContext (tree s).now };

    /// A place names one path.
    ghost one: { (s : Self) (p : AnyPlace) (at : List AnyTagged) → names s p at → path s p ≡ at };

    /// What a place names is there.
    ghost there: { (s : Self) (p : AnyPlace) (at : List AnyTagged) → names s p at → HasPlace at (tree s) };

    /// Whether the tagged key is in the context.
    final fn has(&self, at: &[Tagged], key: &Tagged) -> bool
        requires { HasPlace at.now (tree self.now) }
        ensures { result ≡ is_some (content key.now (here at.now (tree self.now))) }
    {
        let place = place_of(self, at);
        match key {
            Tagged::RegT(name) => self.register_by(place, name, ANYWHERE).is_some(),
            _ => self.below(place, key).is_some(),
        }
    }

    /// Makes a new map, list or register under the tagged key. A new list has its head linked to its end.
    final fn make_child(&mut self, at: &[Tagged], key: &Tagged) -> Result<(), AllocError>
        requires there { HasPlace at.now (tree self.old) }
        requires absent { content key.now (here at.now (tree self.old)) ≡ None }
        ensures ok { OnOk result (IsChanged at.now
            (with_content key.now (new_content key.now) (here at.now (tree self.old)))
            (tree self.old) (tree self.new)) }
        ensures names_stay { NamesStay (names self.old) (names self.new) }
        ensures err { OnErr result (tree self.new ≡ tree self.old) }
    {
        let place = place_of(self, at);
        self.make_child_at(place, key)
    }

    /// The presence set of the key, rising.
    final fn presence(&self, at: &[Tagged], key: &Key) -> Option<&[Id]>
        requires { HasPlace at.now (tree self.now) }
        ensures { option_copied result ≡ presence key.now (here at.now (tree self.now)) }
    {
        let place = place_of(self, at);
        self.presence_by(place, key, ANYWHERE)
    }

    /// Sets the key's presence set. An empty set is an entry too.
    final fn set_presence(&mut self, at: &[Tagged], key: &Key, ids: &[Id]) -> Result<(), AllocError>
        requires there { HasPlace at.now (tree self.old) }
        requires rising { AreRising ids.now }
        ensures ok { OnOk result (IsChanged at.now
            (with_presence key.now ids.now (here at.now (tree self.old)))
            (tree self.old) (tree self.new)) }
        ensures names_stay { NamesStay (names self.old) (names self.new) }
        ensures err { OnErr result (tree self.new ≡ tree self.old) }
    {
        let place = place_of(self, at);
        self.set_presence_at(place, key, ids)
    }

    /// Adds the identifier to the key's presence set, a new one where there is none. Returns whether
    /// there was one.
    final fn add_presence(&mut self, at: &[Tagged], key: &Key, id: Id) -> Result<bool, AllocError>
        requires { HasPlace at.now (tree self.old) }
        ensures ok { OnOk result (IsChanged at.now
            (with_presence key.now (with_id id (or_no_entries (presence key.now (here at.now (tree self.old)))))
            (here at.now (tree self.old)))
            (tree self.old) (tree self.new)) }
        ensures was { IfOk result (λ was. was ≡ is_some (presence key.now (here at.now (tree self.old)))) }
        ensures names_stay { NamesStay (names self.old) (names self.new) }
        ensures err { OnErr result (tree self.new ≡ tree self.old) }
    {
        let place = place_of(self, at);
        self.add_presence_at(place, key, id)
    }

    /// What follows the key in a list.
    final fn next(&self, at: &[Tagged], key: &Key) -> Option<Next>
        requires { HasPlace at.now (tree self.now) }
        ensures { result ≡ next_of key.now (here at.now (tree self.now)) }
    {
        let place = place_of(self, at);
        self.step_by(place, key, ANYWHERE).next
    }

    /// Links the key to what follows it.
    final fn set_next(&mut self, at: &[Tagged], key: &Key, next: Next) -> Result<(), AllocError>
        requires { HasPlace at.now (tree self.old) }
        ensures ok { OnOk result (IsChanged at.now
            (with_next key.now next (here at.now (tree self.old)))
            (tree self.old) (tree self.new)) }
        ensures names_stay { NamesStay (names self.old) (names self.new) }
        ensures err { OnErr result (tree self.new ≡ tree self.old) }
    {
        let place = place_of(self, at);
        self.set_next_at(place, key, next)
    }

    /// The values of the key's register, rising by identifier.
    final fn register(&self, at: &[Tagged], key: &Key) -> Option<&[(Id, Value)]>
        requires { HasPlace at.now (tree self.now) }
        ensures { option_copied result ≡ find key_cmp key.now (registers (here at.now (tree self.now))) }
    {
        let place = place_of(self, at);
        self.register_by(place, key, ANYWHERE)
    }

    /// Sets the key's register to these values. After a refusal the values are gone.
    final fn set_register(
        &mut self,
        at: &[Tagged],
        key: &Key,
        pairs: Vec<(Id, Value)>,
    ) -> Result<(), AllocError>
        requires there { HasPlace at.now (tree self.old) }
        requires kept { IsWellFormedRegister pairs.items }
        ensures ok { OnOk result (IsChanged at.now
            (with_content (RegT key.now) (Values pairs.items) (here at.now (tree self.old)))
            (tree self.old) (tree self.new)) }
        ensures names_stay { NamesStay (names self.old) (names self.new) }
        ensures err { OnErr result (tree self.new ≡ tree self.old) }
    {
        let place = place_of(self, at);
        self.set_register_at(place, key, pairs)
    }

    /// Puts the value under the identifier into the key's register, a new one where there is
    /// none. Returns whether there was one. After a refusal the value is gone.
    final fn put_value(
        &mut self,
        at: &[Tagged],
        key: &Key,
        id: Id,
        value: Value,
    ) -> Result<bool, AllocError>
        requires there { HasPlace at.now (tree self.old) }
        requires primitive { IsPrimitive value }
        ensures ok { OnOk result (IsChanged at.now
            (with_content (RegT key.now)
            (Values (put id_cmp id value (or_no_entries (find key_cmp key.now (registers (here at.now (tree self.old)))))))
            (here at.now (tree self.old)))
            (tree self.old) (tree self.new)) }
        ensures was { IfOk result (λ was.
            was ≡ is_some (find key_cmp key.now (registers (here at.now (tree self.old))))) }
        ensures names_stay { NamesStay (names self.old) (names self.new) }
        ensures err { OnErr result (tree self.new ≡ tree self.old) }
    {
        let place = place_of(self, at);
        self.put_value_at(place, key, id, value)
    }

    /// The least key with a map, a list or a register, above the given one.
    final fn key_after(&self, at: &[Tagged], above: Option<&Key>) -> Option<&Key>
        requires { HasPlace at.now (tree self.now) }
        ensures { option_copied result ≡ least_after (option_copied above.entry) (keys (here at.now (tree self.now))) }
    {
        let place = place_of(self, at);
        self.after_at(place, KeysOf::Content, above)
    }

    /// The least key with a presence set, above the given one. The set may be empty.
    final fn presence_after(&self, at: &[Tagged], above: Option<&Key>) -> Option<&Key>
        requires { HasPlace at.now (tree self.now) }
        ensures { option_copied result
            ≡ least_after (option_copied above.entry) (keys_of (presences (here at.now (tree self.now)))) }
    {
        let place = place_of(self, at);
        self.after_at(place, KeysOf::Presence, above)
    }
}

/// The store's place for the path, if this leads to a context.
fn place_at<S: TreeStore>(store: &S, at: &[Tagged]) -> Option<Place>
    ensures is { IsTrue (is_some result) ↔ HasPlace at.now (S.tree store.now) }
    ensures named { IfSome result (λ place. S.names store.now place at.now) }
{
    let mut place = store.root();
    for key in at {
        place = store.below(place, key)?;
    }
    Some(place)
}

/// Whether the path leads to a context, which the calls by path require. With it a caller that doesn't know can meet
/// that condition.
pub fn is_place<S: TreeStore>(store: &S, at: &[Tagged]) -> bool
    ensures { IsTrue result ↔ HasPlace at.now (S.tree store.now) }
{
    place_at(store, at).is_some()
}

/// The store's place for the path.
pub fn place_of<S: TreeStore>(store: &S, at: &[Tagged]) -> Place
    requires { HasPlace at.now (S.tree store.now) }
    ensures { S.names store.now result at.now }
{
    match place_at(store, at) {
        Some(place) => place,
        None => unreachable!(),
    }
}
