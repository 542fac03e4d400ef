//! The fast store, which the program uses: nodes in one list, each of which names its children by number.

ghost use Rattle.std.specs.Prelude.{◌≡◌, ◌<◌, ◌+◌, List, None, Some, [], ◌∷◌, ◌++◌, length, IfOk, OnOk, OnErr};
ghost use Rattle.jc_rules.specs.declared.key.Tagged.{Tagged as AnyTagged};
ghost use Rattle.jc_rules.specs.History.{begun};
ghost use Rattle.jc_rules.specs.Context.{empty, content, with_content, new_content};
ghost use Rattle.jc_rules.specs.Paths.{HasContext};
ghost use Rattle.jc_rules.specs.ContextsAt.{context_at};
ghost use Rattle.jc_tree.specs.declared.store.Place.{Place as AnyPlace};
ghost use Rattle.jc_tree.specs.Tree.{IsChanged};
ghost use Rattle.jc_tree.specs.Change.{IsFit, changed_by};
ghost use Rattle.jc_tree.specs.Arena.{IsInside, content_of_arena, flat_at, former_of_flat, walk, path_to, IsNodeAt};
ghost use Rattle.jc_tree.specs.Undo.{was_there};
ghost use Rattle.jc_tree.specs.ArenaUndo.{arena_contents, fewer, arena_undone_once, tree_of_arena, AreOldNumbers, IsGood, AreGood, IsGood-single, AreGood-single};

use crate::arena_node::{ArenaNode, NodeId};
use crate::ids::Ids;
use crate::lists::Pairs;
use crate::node::{Change, Former};
use crate::small_former::{Room, SmallFormer, former_of_node, make_room};
use crate::store::{Hint, KeysOf, Mark, Place, Step, Stretch, TreeStore};
use jc_rules::{Id, Key, Next, Tagged, Value};
use std::alloc::{AllocError, Global};

/// The undo record of one change: the number of the changed node, and what the change set in it, as
/// it was before.
#[derive(Drop)]
pub struct Undo {
    node: NodeId,
    former: SmallFormer,
}

/// A tree as a list of nodes, the document's first and each one before its children, with the undo
/// records of its changes, the latest last. What a change replaces goes into the room, which is made before
/// the change.
#[derive(Drop)]
pub struct ArenaTree {
    alloc: Global,
    nodes: Vec<ArenaNode>,
    undos: Vec<Undo>,
    room: Room,
    ghost good: { IsGood nodes.items } by { IsGood-single nodes.items },
    ghost earlier_good: { AreGood undos.items nodes.items } by { AreGood-single undos.items nodes.items },
}

/// Takes the last node away, if the change made one.
fn drop_node(nodes: &mut Vec<ArenaNode>, former: &Former)
    ensures { nodes.new.items ≡ fewer former.now nodes.old.items }
{
    match former {
        Former::Map(_) => {
            nodes.pop();
        }
        Former::List(_) => {
            nodes.pop();
        }
        _ => {}
    }
}

/// Takes a change back by its undo record. It takes no memory.
fn take_back(nodes: &mut Vec<ArenaNode>, undo: Undo)
    ensures { nodes.new.items ≡ arena_undone_once undo nodes.old.items }
{
    let Undo { node, former } = undo;
    let former = former.former();
    drop_node(nodes, &former);
    let number = node.number();
    if number < nodes.len() {
        nodes[number].restore(former);
    }
}

impl ArenaTree {
    /// The empty tree, with no earlier content.
    pub fn new(alloc: Global) -> Result<Self, AllocError>
        ensures { IfOk result (λ s. ⟦<ArenaTree as TreeStore>⟧.tree s ≡ begun empty) }
    {
        let mut nodes = Vec::new(alloc);
        nodes.push(ArenaNode::new(alloc))?;
        Ok(ArenaTree {
            alloc,
            nodes,
            undos: Vec::new(alloc),
            room: None,
        })
    }

    /// The node with this number.
    fn node(&self, id: NodeId) -> &ArenaNode
        requires { id < length self.now.nodes.items }
        ensures { result.now ≡ flat_at self.now.nodes.items id }
    {
        &self.nodes[id.number()]
    }

    /// The node at the place.
    fn named(&self, place: Place) -> &ArenaNode
        requires { (at : List AnyTagged) × IsNodeAt self.now.nodes.items place.number at }
        ensures { result.now ≡ flat_at self.now.nodes.items place.number }
    {
        self.node(NodeId::new(place.number))
    }

    /// Makes one change of a node to which a path leads, and keeps its undo record. The change makes no
    /// node, so paths lead to the same numbers as before. Returns whether there was a register or a
    /// presence set, where one was set. After a refusal all is as it was.
    fn change_node(&mut self, node: NodeId, change: Change) -> Result<bool, AllocError>
        requires there { (at : List AnyTagged) × (walk self.old.nodes.items 0 at ≡ Some node) }
        requires within { node < length self.old.nodes.items }
        requires inside { IsInside change }
        requires fit { IsFit change }
        ensures ok { OnOk result ((at : List AnyTagged) → walk self.old.nodes.items 0 at ≡ Some node → IsChanged at
            (changed_by change (context_at at (content_of_arena self.old.nodes.items)))
            (tree_of_arena self.old.nodes.items self.old.undos.items)
            (tree_of_arena self.new.nodes.items self.new.undos.items)) }
        ensures was { IfOk result (λ was.
            was ≡ was_there (former_of_flat change (flat_at self.old.nodes.items node))) }
        ensures names_stay { (p : AnyPlace) (at : List AnyTagged) → IsNodeAt self.old.nodes.items p.number at → IsNodeAt self.new.nodes.items p.number at }
        ensures err { OnErr result (tree_of_arena self.new.nodes.items self.new.undos.items
            ≡ tree_of_arena self.old.nodes.items self.old.undos.items) }
    {
        let number = node.number();
        self.undos.reserve(1)?;
        make_room(&mut self.room, self.alloc)?;
        let former = self.nodes[number].change(change, self.alloc)?;
        let was = former.was_there();
        let former = SmallFormer::new(former, &mut self.room);
        self.undos.push(Undo { node, former }).unwrap();
        Ok(was)
    }

    /// Makes one change at the place that makes no node. After a refusal all is as it was.
    fn change(&mut self, place: Place, change: Change) -> Result<(), AllocError>
        requires there { (at : List AnyTagged) × IsNodeAt self.old.nodes.items place.number at }
        requires inside { IsInside change }
        requires fit { IsFit change }
        ensures ok { OnOk result ((at : List AnyTagged) → IsNodeAt self.old.nodes.items place.number at → IsChanged at
            (changed_by change (context_at at (content_of_arena self.old.nodes.items)))
            (tree_of_arena self.old.nodes.items self.old.undos.items)
            (tree_of_arena self.new.nodes.items self.new.undos.items)) }
        ensures names_stay { (p : AnyPlace) (at : List AnyTagged) → IsNodeAt self.old.nodes.items p.number at → IsNodeAt self.new.nodes.items p.number at }
        ensures err { OnErr result (tree_of_arena self.new.nodes.items self.new.undos.items
            ≡ tree_of_arena self.old.nodes.items self.old.undos.items) }
    {
        self.change_node(NodeId::new(place.number), change)?;
        Ok(())
    }

    /// Makes a new map or list under the tagged key at the place. After a refusal all is as it was.
    fn make_node(&mut self, place: Place, key: &Tagged) -> Result<(), AllocError>
        requires absent { (at : List AnyTagged) × IsNodeAt self.old.nodes.items place.number at
            × (content key.now (context_at at (content_of_arena self.old.nodes.items)) ≡ None) }
        requires context { HasContext key.now }
        ensures ok { (at : List AnyTagged) → IsNodeAt self.old.nodes.items place.number at → OnOk result (IsChanged at
            (with_content key.now (new_content key.now) (context_at at (content_of_arena self.old.nodes.items)))
            (tree_of_arena self.old.nodes.items self.old.undos.items)
            (tree_of_arena self.new.nodes.items self.new.undos.items)) }
        ensures names_stay { (p : AnyPlace) (at : List AnyTagged) → IsNodeAt self.old.nodes.items p.number at → IsNodeAt self.new.nodes.items p.number at }
        ensures err { OnErr result (tree_of_arena self.new.nodes.items self.new.undos.items
            ≡ tree_of_arena self.old.nodes.items self.old.undos.items) }
    {
        let number = self.nodes.len();
        self.undos.reserve(1)?;
        self.nodes.reserve(1)?;
        let name = key.copy()?;
        let copy = key.copy()?;
        let child = ArenaNode::of_child(self.alloc, key)?;
        self.nodes[place.number].name_child(copy, NodeId::new(number))?;
        self.nodes.push(child).unwrap();
        let node = NodeId::new(place.number);
        let former = former_of_node(name);
        self.undos.push(Undo { node, former }).unwrap();
        Ok(())
    }

    /// Takes the latest change back.
    fn undo(&mut self)
        requires { 0 < length self.old.undos.items }
        ensures undos { length self.new.undos.items + 1 ≡ length self.old.undos.items }
        ensures history { arena_contents self.new.undos.items self.new.nodes.items ++ content_of_arena self.new.nodes.items ∷ []
            ≡ arena_contents self.old.undos.items self.old.nodes.items }
        ensures numbers { AreOldNumbers self.new.nodes.items self.old.nodes.items }
    {
        if let Some(undo) = self.undos.pop() {
            take_back(&mut self.nodes, undo);
        }
    }
}

impl TreeStore for ArenaTree {
    ghost tree = { λ s. tree_of_arena s.nodes.items s.undos.items };

    ghost names = { λ s place at. IsNodeAt s.nodes.items place.number at };

    ghost path = { λ s place. path_to s.nodes.items place.number };

    ghost kept = { λ s. s.good.kept };

    ghost one = { λ s p at named. named.path };

    ghost there = { λ s p at named. named.there };

    fn root(&self) -> Place {
        Place { number: 0 }
    }

    fn below(&self, place: Place, key: &Tagged) -> Option<Place> {
        let child = self.named(place).child(key)?;
        Some(Place {
            number: child.number(),
        })
    }

    fn map_by(&self, place: Place, key: &Key, hint: Hint) -> Option<Place> {
        let child = self.named(place).map_near(key, hint)?;
        Some(Place {
            number: child.number(),
        })
    }

    fn list_by(&self, place: Place, key: &Key, hint: Hint) -> Option<Place> {
        let child = self.named(place).list_near(key, hint)?;
        Some(Place {
            number: child.number(),
        })
    }

    fn make_child_at(&mut self, place: Place, key: &Tagged) -> Result<(), AllocError> {
        match key {
            Tagged::RegT(_) => self.change(place, Change::Child(key.copy()?)),
            _ => self.make_node(place, key),
        }
    }

    fn presence_by(&self, place: Place, key: &Key, hint: Hint) -> Option<&[Id]> {
        self.named(place).presence_near(key, hint)
    }

    fn set_presence_at(&mut self, place: Place, key: &Key, ids: &[Id]) -> Result<(), AllocError> {
        let ids = Ids::new(ids.to_vec(self.alloc)?);
        self.change(place, Change::Presence(key.copy()?, ids))
    }

    fn add_presence_at(&mut self, place: Place, key: &Key, id: Id) -> Result<bool, AllocError> {
        let node = NodeId::new(place.number);
        self.change_node(node, Change::AddId(key.copy()?, id))
    }

    fn count_present_at(&self, place: Place) -> usize {
        self.named(place).count_present()
    }

    #[inline(always)]
    fn step_by(&self, place: Place, key: &Key, hint: Hint) -> Step {
        self.named(place).step(key, hint)
    }

    fn stretch_by(&self, place: Place, key: &Key, hint: Hint, most: usize) -> Option<Stretch> {
        self.named(place).stretch(key, hint, most)
    }

    fn set_next_at(&mut self, place: Place, key: &Key, next: Next) -> Result<(), AllocError> {
        self.change(place, Change::Link(key.copy()?, next))
    }

    fn register_by(&self, place: Place, key: &Key, hint: Hint) -> Option<&[(Id, Value)]> {
        self.named(place).register_near(key, hint)
    }

    fn set_register_at(
        &mut self,
        place: Place,
        key: &Key,
        pairs: Vec<(Id, Value)>,
    ) -> Result<(), AllocError> {
        self.change(place, Change::Register(key.copy()?, Pairs::new(pairs)))
    }

    fn put_value_at(
        &mut self,
        place: Place,
        key: &Key,
        id: Id,
        value: Value,
    ) -> Result<bool, AllocError> {
        let node = NodeId::new(place.number);
        self.change_node(node, Change::PutValue(key.copy()?, id, value))
    }

    fn after_at(&self, place: Place, of: KeysOf, above: Option<&Key>) -> Option<&Key> {
        let node = self.named(place);
        match of {
            KeysOf::Content => node.key_after(above),
            KeysOf::Presence => node.presence_after(above),
            KeysOf::Link => node.link_after(above),
        }
    }

    fn keys_at(&self, alloc: Global, place: Place) -> Result<Vec<(&Key, Hint)>, AllocError> {
        self.named(place).keys_in_order(alloc)
    }

    fn mark(&self) -> Mark {
        Mark {
            changes: self.undos.len(),
        }
    }

    fn undo_to(&mut self, mark: Mark) {
        while mark.changes < self.undos.len() {
            self.undo();
        }
    }

    fn forget_marks(&mut self) {
        self.undos.clear();
    }
}
