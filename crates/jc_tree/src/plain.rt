//! The plain store: nested lists that are sorted by key. Tests compare the fast store with it.

ghost use Rattle.std.specs.Prelude.{◌≡◌, ◌≢◌, ℕ, ◌<◌, ◌+◌, ◌↔◌, List, None, Some, [], ◌∷◌, ◌++◌, length, IsTrue, OnOk, OnErr};
ghost use Rattle.std.specs.List.{AllByRecursion};
ghost use Rattle.jc_rules.specs.History.{begun};
ghost use Rattle.jc_rules.specs.Context.{empty};
ghost use Rattle.jc_rules.specs.ContextsAt.{context_at};
ghost use Rattle.jc_rules.specs.WellFormed.{IsWellFormedContext};
ghost use Rattle.jc_tree.specs.declared.store.Place.{Place as AnyPlace};
ghost use Rattle.jc_tree.specs.Tree.{Tree};
ghost use Rattle.jc_tree.specs.Change.{IsFit, IsNew, changed_at};
ghost use Rattle.jc_tree.specs.Arena.{IsInside};
ghost use Rattle.jc_tree.specs.Undo.{earlier_contents};
ghost use Rattle.jc_tree.specs.Single.{IsKept-single, AreAllKept-single};
ghost use Rattle.jc_tree.specs.Named.{path_at, IsPlaceOf, IsNamed, AreNamed, AreAllNamed, AreNamed-single, AreAllNamed-single, child_key, or_root};
ghost use Rattle.jc_rules.specs.declared.key.Tagged.{Tagged as AnyTagged};
ghost use Rattle.std.proofs.Common.{ap};

use crate::ids::Ids;
use crate::lists::{Pairs, copy_place};
use crate::node::{Change, Former, Node};
use crate::store::{ANYWHERE, Hint, KeysOf, Mark, Place, Step, Stretch, TreeStore};
use jc_rules::{Id, Key, Next, Tagged, Value};
use std::alloc::{AllocError, Global};

/// The undo record of one change: what the change set in the context at the place, as it was before.
#[derive(Drop)]
pub struct Undo {
    at: Vec<Tagged>,
    former: Former,
}

/// Whether the tagged key is that of the map under the key, or of the list.
fn is_tagged(tagged: &Tagged, key: &Key, is_list: bool) -> bool
    ensures { IsTrue result ↔ tagged.now ≡ child_key is_list key.now }
{
    match tagged {
        Tagged::MapT(own) => !is_list && own == key,
        Tagged::ListT(own) => is_list && own == key,
        Tagged::RegT(_) => false,
    }
}

/// Whether the path is that of the map under the key in the context at the other path, or of the list.
fn is_child(path: &[Tagged], at: &[Tagged], key: &Key, is_list: bool) -> bool
    ensures { IsTrue result ↔ path.now ≡ at.now ++ child_key is_list key.now ∷ [] }
{
    match path.split_last() {
        Some((last, front)) => front == at && is_tagged(last, key, is_list),
        None => false,
    }
}

/// A tree of nested sorted lists, with the undo records of its changes, the latest last.
#[derive(Drop)]
pub struct PlainTree {
    alloc: Global,
    root: Node,
    undos: Vec<Undo>,
    /// The paths of the contexts below the root, also of those that are gone. A place is one more than the index of its
    /// path.
    paths: Vec<Vec<Tagged>>,
    ghost root_kept: { IsWellFormedContext root } by { IsKept-single root },
    ghost earlier_kept: { AllByRecursion IsWellFormedContext
        (earlier_contents undos.items root) } by { AreAllKept-single (earlier_contents undos.items root) },
    ghost root_named: { AreNamed paths.items root } by { AreNamed-single paths.items root },
    ghost earlier_named: { AreAllNamed paths.items (earlier_contents undos.items root) } by { AreAllNamed-single paths.items (earlier_contents undos.items root) },
}

impl PlainTree {
    /// The empty tree, with no earlier content.
    pub fn new(alloc: Global) -> Self
        ensures { ⟦<PlainTree as TreeStore>⟧.tree result ≡ begun empty }
    {
        PlainTree {
            alloc,
            root: Node::new(alloc),
            undos: Vec::new(alloc),
            paths: Vec::new(alloc),
        }
    }

    /// The path that the place names.
    fn path(&self, place: Place) -> &[Tagged]
        requires { path_at self.now.paths.items place.number ≢ None }
        ensures { path_at self.now.paths.items place.number ≡ Some result.now }
    {
        if place.number == 0 {
            return &[];
        }
        self.paths[place.number - 1].as_slice()
    }

    /// The place of the map under the key in the context at the path, or of the list.
    fn place_below(&self, at: &[Tagged], key: &Key, is_list: bool) -> Place
        requires { IsNamed self.now.paths.items (at.now ++ child_key is_list key.now ∷ []) }
        ensures { path_at self.now.paths.items result.number ≡ Some (at.now ++ child_key is_list key.now ∷ []) }
    {
        for (index, path) in self.paths.iter().enumerate() {
            if is_child(path.as_slice(), at, key, is_list) {
                return Place { number: index + 1 };
            }
        }
        unreachable!()
    }

    /// The context at the place.
    fn node(&self, place: Place) -> &Node
        requires { (at : List AnyTagged) × IsPlaceOf self.now.paths.items self.now.root place.number at }
        ensures { (at : List AnyTagged) → IsPlaceOf self.now.paths.items self.now.root place.number at
            → result.now ≡ context_at at self.now.root }
    {
        self.root.node_at(self.path(place))
    }

    /// Makes one change at the place, and keeps its undo record. After a refusal all is as it was.
    fn change(&mut self, place: Place, change: Change) -> Result<(), AllocError>
        requires named { (at : List AnyTagged) × IsPlaceOf self.old.paths.items self.old.root place.number at
            × IsNew change (context_at at self.old.root)
            × AreNamed self.old.paths.items (changed_at at change self.old.root) }
        requires fit { IsFit change }
        ensures root { (at : List AnyTagged) → IsPlaceOf self.old.paths.items self.old.root place.number at
            → OnOk result (self.new.root ≡ changed_at at change self.old.root) }
        ensures earlier { OnOk result (earlier_contents self.new.undos.items self.new.root
            ≡ earlier_contents self.old.undos.items self.old.root ++ self.old.root ∷ []) }
        ensures names_stay { (p : AnyPlace) (at : List AnyTagged) → IsPlaceOf self.old.paths.items self.old.root p.number at
            → IsPlaceOf self.new.paths.items self.new.root p.number at }
        ensures same_root { OnErr result (self.new.root ≡ self.old.root) }
        ensures same_undos { OnErr result (self.new.undos.items ≡ self.old.undos.items) }
    {
        let at = copy_place(self.alloc, self.path(place))?;
        self.undos.reserve(1)?;
        let former = self.root.change_at(at.as_slice(), change, self.alloc)?;
        self.undos.push(Undo { at, former }).unwrap();
        Ok(())
    }

    /// Makes one change at the place that makes no context. After a refusal all is as it was.
    fn set(&mut self, place: Place, change: Change) -> Result<(), AllocError>
        requires there { (at : List AnyTagged) × IsPlaceOf self.old.paths.items self.old.root place.number at
            × IsNew change (context_at at self.old.root) }
        requires inside { IsInside change }
        requires fit { IsFit change }
        ensures root { (at : List AnyTagged) → IsPlaceOf self.old.paths.items self.old.root place.number at
            → OnOk result (self.new.root ≡ changed_at at change self.old.root) }
        ensures earlier { OnOk result (earlier_contents self.new.undos.items self.new.root
            ≡ earlier_contents self.old.undos.items self.old.root ++ self.old.root ∷ []) }
        ensures names_stay { (p : AnyPlace) (at : List AnyTagged) → IsPlaceOf self.old.paths.items self.old.root p.number at
            → IsPlaceOf self.new.paths.items self.new.root p.number at }
        ensures same_root { OnErr result (self.new.root ≡ self.old.root) }
        ensures same_undos { OnErr result (self.new.undos.items ≡ self.old.undos.items) }
    {
        self.change(place, change)
    }

    /// Gives a place to the path of what comes under the tagged key.
    fn name_child(&mut self, place: Place, key: &Tagged) -> Result<(), AllocError>
        requires { path_at self.old.paths.items place.number ≢ None }
        ensures named { OnOk result ((at : List AnyTagged) → path_at self.old.paths.items place.number ≡ Some at
            → IsNamed self.new.paths.items (at ++ key.now ∷ [])) }
        ensures stay { (n : ℕ) (at : List AnyTagged) → path_at self.old.paths.items n ≡ Some at
            → path_at self.new.paths.items n ≡ Some at }
        ensures root { self.new.root ≡ self.old.root }
        ensures undos { self.new.undos.items ≡ self.old.undos.items }
    {
        let mut path = copy_place(self.alloc, self.path(place))?;
        path.push(key.copy()?)?;
        self.paths.push(path)?;
        Ok(())
    }

    /// Takes the latest change back.
    fn undo(&mut self)
        requires { 0 < length self.old.undos.items }
        ensures undos { length self.new.undos.items + 1 ≡ length self.old.undos.items }
        ensures history { earlier_contents self.new.undos.items self.new.root ++ self.new.root ∷ []
            ≡ earlier_contents self.old.undos.items self.old.root }
        ensures paths { self.new.paths.items ≡ self.old.paths.items }
    {
        if let Some(Undo { at, former }) = self.undos.pop() {
            self.root.restore_at(at.as_slice(), former);
        }
    }
}

impl TreeStore for PlainTree {
    ghost tree = { λ s. record { now = s.root; earlier = earlier_contents s.undos.items s.root } };

    ghost names = { λ s place at. IsPlaceOf s.paths.items s.root place.number at };

    ghost path = { λ s place. or_root (path_at s.paths.items place.number) };

    ghost kept = { λ s. s.root_kept };

    ghost one = { λ s p at named. ap or_root named.named };

    ghost there = { λ s p at named. named.there };

    fn root(&self) -> Place {
        Place { number: 0 }
    }

    fn below(&self, place: Place, key: &Tagged) -> Option<Place> {
        match key {
            Tagged::MapT(key) => self.map_by(place, key, ANYWHERE),
            Tagged::ListT(key) => self.list_by(place, key, ANYWHERE),
            Tagged::RegT(_) => None,
        }
    }

    fn map_by(&self, place: Place, key: &Key, hint: Hint) -> Option<Place> {
        if self.node(place).has_map(key) {
            Some(self.place_below(self.path(place), key, false))
        } else {
            None
        }
    }

    fn list_by(&self, place: Place, key: &Key, hint: Hint) -> Option<Place> {
        if self.node(place).has_list(key) {
            Some(self.place_below(self.path(place), key, true))
        } else {
            None
        }
    }

    fn make_child_at(&mut self, place: Place, key: &Tagged) -> Result<(), AllocError> {
        if let Tagged::RegT(_) = key {
            return self.set(place, Change::Child(key.copy()?));
        }
        self.name_child(place, key)?;
        self.change(place, Change::Child(key.copy()?))
    }

    fn presence_by(&self, place: Place, key: &Key, hint: Hint) -> Option<&[Id]> {
        self.node(place).presence(key)
    }

    fn set_presence_at(&mut self, place: Place, key: &Key, ids: &[Id]) -> Result<(), AllocError> {
        let ids = Ids::new(ids.to_vec(self.alloc)?);
        self.set(place, Change::Presence(key.copy()?, ids))
    }

    fn add_presence_at(&mut self, place: Place, key: &Key, id: Id) -> Result<bool, AllocError> {
        let was = self.node(place).presence(key).is_some();
        self.set(place, Change::AddId(key.copy()?, id))?;
        Ok(was)
    }

    fn count_present_at(&self, place: Place) -> usize {
        self.node(place).count_present()
    }

    fn step_by(&self, place: Place, key: &Key, hint: Hint) -> Step {
        let node = self.node(place);
        Step {
            next: node.next(key),
            present: node.presence(key).is_some_and(|ids| !ids.is_empty()),
            hint,
        }
    }

    fn stretch_by(&self, place: Place, key: &Key, hint: Hint, most: usize) -> Option<Stretch> {
        None
    }

    fn set_next_at(&mut self, place: Place, key: &Key, next: Next) -> Result<(), AllocError> {
        self.set(place, Change::Link(key.copy()?, next))
    }

    fn register_by(&self, place: Place, key: &Key, hint: Hint) -> Option<&[(Id, Value)]> {
        self.node(place).register(key)
    }

    fn set_register_at(
        &mut self,
        place: Place,
        key: &Key,
        pairs: Vec<(Id, Value)>,
    ) -> Result<(), AllocError> {
        self.set(place, Change::Register(key.copy()?, Pairs::new(pairs)))
    }

    fn put_value_at(
        &mut self,
        place: Place,
        key: &Key,
        id: Id,
        value: Value,
    ) -> Result<bool, AllocError> {
        let was = self.node(place).register(key).is_some();
        self.set(place, Change::PutValue(key.copy()?, id, value))?;
        Ok(was)
    }

    fn after_at(&self, place: Place, of: KeysOf, above: Option<&Key>) -> Option<&Key> {
        let node = self.node(place);
        match of {
            KeysOf::Content => node.key_after(above),
            KeysOf::Presence => node.presence_after(above),
            KeysOf::Link => node.link_after(above),
        }
    }

    fn keys_at(&self, alloc: Global, place: Place) -> Result<Vec<(&Key, Hint)>, AllocError> {
        self.node(place).keys_in_order(alloc)
    }

    #[tactic(auto, using(crate::proofs::UndoLemmas::length_contents))]
    fn mark(&self) -> Mark {
        Mark {
            changes: self.undos.len(),
        }
    }

    fn undo_to(&mut self, mark: Mark) {
        while mark.changes < self.undos.len() {
            self.undo();
        }
    }

    fn forget_marks(&mut self) {
        self.undos.clear();
    }
}
