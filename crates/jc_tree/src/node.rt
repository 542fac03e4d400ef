//! The contexts of the plain store, as nested lists sorted by key, with the changes and undo records of both stores.

ghost use Rattle.std.specs.Prelude.{◌≡◌, ◌≢◌, ◌++◌, None, Some, is_some, option_copied, option_to_list, Contains, IfOk, IfSome, IsSomeAnd, OnOk, OnErr};
ghost use Rattle.std.specs.List.{AllByRecursion};
ghost use Rattle.jc_rules.specs.Order.{key_cmp};
ghost use Rattle.jc_rules.specs.Entries.{IsRising, find, put, keys_of};
ghost use Rattle.jc_rules.specs.Context.{empty, empty_list, content, presence, presences, links, next as next_of, registers, keys};
ghost use Rattle.jc_rules.specs.ContextsAt.{node_in, node_at, context_at};
ghost use Rattle.jc_rules.specs.Table.{least};
ghost use Rattle.jc_tree.specs.Tree.{least_after, count_present, all_keys, keys_lent};
ghost use Rattle.jc_tree.specs.Sorted.{AreSorted};
ghost use Rattle.jc_tree.specs.Change.{changed_by, changed_at};
ghost use Rattle.jc_tree.specs.Undo.{was_there, former_of, former_of_id, restored_by, restored_at};

use crate::entries::{key_above, place_of, put_value, restore_value, value_of};
use crate::ids::{Ids, add_to, count_present, take_from};
use crate::lists::{Pairs, put_to, restore_from};
use crate::store::{ANYWHERE, Hint};
use jc_rules::{Id, Key, Next, Tagged, Value, compare_keys};
use std::alloc::{AllocError, Global};
use std::marker::Model;

/// A context: its entries by kind, each kind sorted by key.
#[derive(Drop)]
pub struct Node {
    maps: Vec<(Key, Node)>,
    lists: Vec<(Key, Node)>,
    registers: Vec<(Key, Pairs)>,
    presences: Vec<(Key, Ids)>,
    links: Vec<(Key, Next)>,
}

impl Model for Node {
    ghost use Rattle.std.specs.Prelude.{ℕ, List};
    ghost use Rattle.std.proofs.Common.{arith};
    ghost use Rattle.jc_rules.specs.Context.{Context, context, children};
    ghost use Rattle.jc_tree.specs.Nested.{nested, context_code};
    ghost use Rattle.jc_tree.specs.Sorted.{IsSortedNode};

    ghost Value = { Context };

    ghost coded = { context_code };

    ghost view = { λ a. context (children a.maps.items) (children a.lists.items)
        a.registers.items a.presences.items a.links.items };

    ghost invariant = { λ a. IsSortedNode a.maps.items a.lists.items
        a.registers.items a.presences.items a.links.items };

    ghost size = { nested };

    ghost use Rattle.jc_tree.specs.Falls.{children_fall};

    ghost size_decreases = { λ a h. omega (arith, children_fall a.maps, children_fall a.lists) };
}

/// A change of one context: a new child, an identifier that is added to a presence set, a value that
/// is put into a register, or an entry that is set.
#[derive(Drop)]
pub enum Change {
    Child(Tagged),
    AddId(Key, Id),
    Presence(Key, Ids),
    Link(Key, Next),
    PutValue(Key, Id, Value),
    Register(Key, Pairs),
}

/// An undo record: what a change set, as it was before. There was no map or list under the key; or
/// another entry or none; or the identifier's value in the key's register, or none; or the identifier
/// wasn't in the key's presence set; or nothing was changed.
#[derive(Drop)]
pub enum Former {
    Map(Key),
    List(Key),
    Register(Key, Option<Pairs>),
    Value(Key, Id, Option<Value>),
    Presence(Key, Option<Ids>),
    Link(Key, Option<Next>),
    NoId(Key, Id),
    Same,
}

impl Former {
    /// Whether there was a register or a presence set before, where this is the undo record of setting
    /// one.
    pub fn was_there(&self) -> bool
        ensures { result ≡ was_there self.now }
    {
        !matches!(self, Former::Register(_, None) | Former::Presence(_, None))
    }
}

impl Node {
    /// The content of a new map.
    pub fn new(alloc: Global) -> Self
        ensures { result ≡ empty }
    {
        Node {
            maps: Vec::new(alloc),
            lists: Vec::new(alloc),
            registers: Vec::new(alloc),
            presences: Vec::new(alloc),
            links: Vec::new(alloc),
        }
    }

    /// The content of a new list.
    fn new_list(alloc: Global) -> Result<Self, AllocError>
        ensures { IfOk result (λ node. node ≡ empty_list) }
    {
        let mut node = Node::new(alloc);
        put_value(&mut node.links, Key::Head, Next::Tail)?;
        Ok(node)
    }

    /// Whether a map is under the key.
    pub fn has_map(&self, key: &Key) -> bool
        ensures { result ≡ is_some (content (Tagged.MapT key.now) self.now) }
    {
        value_of(self.maps.as_slice(), key).is_some()
    }

    /// Whether a list is under the key.
    pub fn has_list(&self, key: &Key) -> bool
        ensures { result ≡ is_some (content (Tagged.ListT key.now) self.now) }
    {
        value_of(self.lists.as_slice(), key).is_some()
    }

    /// The context under the tagged key.
    fn child(&self, key: &Tagged) -> Option<&Node>
        ensures { option_copied result ≡ node_in (content key.now self.now) }
    {
        match key {
            Tagged::MapT(key) => value_of(self.maps.as_slice(), key),
            Tagged::ListT(key) => value_of(self.lists.as_slice(), key),
            Tagged::RegT(_) => None,
        }
    }

    /// The context at the place.
    pub fn node_at(&self, at: &[Tagged]) -> &Node
        requires { node_at at.now self.now ≢ None }
        ensures { result.now ≡ context_at at.now self.now }
    {
        let mut node = self;
        for key in at {
            match node.child(key) {
                Some(child) => node = child,
                None => unreachable!(),
            }
        }
        node
    }

    /// The presence set of the key.
    pub fn presence(&self, key: &Key) -> Option<&[Id]>
        ensures { option_copied result ≡ presence key.now self.now }
    {
        Some(value_of(self.presences.as_slice(), key)?.as_slice())
    }

    /// What follows the key.
    pub fn next(&self, key: &Key) -> Option<Next>
        ensures { result ≡ next_of key.now self.now }
    {
        value_of(self.links.as_slice(), key).copied()
    }

    /// The values of the key's register.
    pub fn register(&self, key: &Key) -> Option<&[(Id, Value)]>
        ensures { option_copied result ≡ find key_cmp key.now (registers self.now) }
    {
        Some(value_of(self.registers.as_slice(), key)?.as_slice())
    }

    /// The least key with a tag, above the given one.
    pub fn key_after(&self, after: Option<&Key>) -> Option<&Key>
        ensures { option_copied result ≡ least_after (option_copied after.entry) (keys self.now) }
    {
        let of_maps = key_above(self.maps.as_slice(), after);
        let of_lists = key_above(self.lists.as_slice(), after);
        let of_registers = key_above(self.registers.as_slice(), after);
        lesser(lesser(of_maps, of_lists), of_registers)
    }

    /// The least key with a presence set, above the given one.
    pub fn presence_after(&self, after: Option<&Key>) -> Option<&Key>
        ensures { option_copied result ≡ least_after (option_copied after.entry) (keys_of (presences self.now)) }
    {
        key_above(self.presences.as_slice(), after)
    }

    /// How many keys have a presence set with an identifier.
    pub fn count_present(&self) -> usize
        ensures { result ≡ count_present (presences self.now) }
    {
        count_present(self.presences.as_slice())
    }

    /// The least key that something follows, above the given one.
    pub fn link_after(&self, after: Option<&Key>) -> Option<&Key>
        ensures { option_copied result ≡ least_after (option_copied after.entry) (keys_of (links self.now)) }
    {
        key_above(self.links.as_slice(), after)
    }

    /// The least key under which something stands, above the given one.
    fn any_after(&self, after: Option<&Key>) -> Option<&Key>
        ensures { option_copied result ≡ least_after (option_copied after.entry) (all_keys self.now) }
    {
        let of_tags = self.key_after(after);
        let of_presences = self.presence_after(after);
        let of_links = self.link_after(after);
        lesser(lesser(of_tags, of_presences), of_links)
    }

    /// The keys under which something stands, in their order. The hints are of no use here.
    pub fn keys_in_order(&self, alloc: Global) -> Result<Vec<(&Key, Hint)>, AllocError>
        ensures rising { IfOk result (λ lent. IsRising key_cmp (keys_lent lent.items)) }
        ensures all { IfOk result (λ lent. AllByRecursion (Contains (keys_lent lent.items)) (all_keys self.now)) }
    {
        let mut lent = Vec::new(alloc);
        let mut last = None;
        while let Some(key) = self.any_after(last) {
            lent.push((key, ANYWHERE))?;
            last = Some(key);
        }
        Ok(lent)
    }

    /// Puts an empty map under the key. Returns the undo record. After a refusal the context is as it
    /// was.
    #[tactic(auto, using(crate::proofs::NodeLemmas::map_with))]
    fn make_map(&mut self, key: Key, alloc: Global) -> Result<Former, AllocError>
        ensures ok { OnOk result (self.new ≡ changed_by (Change.Child (Tagged.MapT key)) self.old) }
        ensures former { IfOk result (λ former. former ≡ former_of (Change.Child (Tagged.MapT key)) self.old) }
        ensures err { OnErr result (self.new ≡ self.old) }
    {
        let copy = key.copy()?;
        put_value(&mut self.maps, key, Node::new(alloc))?;
        Ok(Former::Map(copy))
    }

    /// Puts an empty list under the key. Returns the undo record. After a refusal the context is as it
    /// was.
    fn make_list(&mut self, key: Key, alloc: Global) -> Result<Former, AllocError>
        ensures ok { OnOk result (self.new ≡ changed_by (Change.Child (Tagged.ListT key)) self.old) }
        ensures former { IfOk result (λ former. former ≡ former_of (Change.Child (Tagged.ListT key)) self.old) }
        ensures err { OnErr result (self.new ≡ self.old) }
    {
        let copy = key.copy()?;
        put_value(&mut self.lists, key, Node::new_list(alloc)?)?;
        Ok(Former::List(copy))
    }

    /// Sets the key's register. Returns the undo record. After a refusal the context is as it was.
    fn put_register(&mut self, key: Key, pairs: Pairs) -> Result<Former, AllocError>
        ensures ok { OnOk result (self.new ≡ changed_by (Change.Register key pairs) self.old) }
        ensures former { IfOk result (λ former. former ≡ former_of (Change.Register key pairs) self.old) }
        ensures err { OnErr result (self.new ≡ self.old) }
    {
        let copy = key.copy()?;
        Ok(Former::Register(copy, put_value(&mut self.registers, key, pairs)?))
    }

    /// Sets the key's presence set. Returns the undo record. After a refusal the context is as it was.
    fn put_presence(&mut self, key: Key, ids: Ids) -> Result<Former, AllocError>
        ensures ok { OnOk result (self.new ≡ changed_by (Change.Presence key ids) self.old) }
        ensures former { IfOk result (λ former. former ≡ former_of (Change.Presence key ids) self.old) }
        ensures err { OnErr result (self.new ≡ self.old) }
    {
        let copy = key.copy()?;
        Ok(Former::Presence(copy, put_value(&mut self.presences, key, ids)?))
    }

    /// Sets what follows the key. Returns the undo record. After a refusal the context is as it was.
    fn put_link(&mut self, key: Key, next: Next) -> Result<Former, AllocError>
        ensures ok { OnOk result (self.new ≡ changed_by (Change.Link key next) self.old) }
        ensures former { IfOk result (λ former. former ≡ former_of (Change.Link key next) self.old) }
        ensures err { OnErr result (self.new ≡ self.old) }
    {
        let copy = key.copy()?;
        Ok(Former::Link(copy, put_value(&mut self.links, key, next)?))
    }

    /// Adds the identifier to the key's presence set, a new one where there is none. Returns the undo
    /// record. After a refusal the context is as it was.
    fn add_id(&mut self, key: Key, id: Id, alloc: Global) -> Result<Former, AllocError>
        ensures ok { OnOk result (self.new ≡ changed_by (Change.AddId key id) self.old) }
        ensures former { IfOk result (λ former. former ≡ former_of (Change.AddId key id) self.old) }
        ensures err { OnErr result (self.new ≡ self.old) }
    {
        let former = former_of_id(value_of(self.presences.as_slice(), &key), &key, id)?;
        add_to(&mut self.presences, key, id, alloc)?;
        Ok(former)
    }

    /// Changes this context. Returns the undo record. After a refusal the context is as it was.
    fn change(&mut self, change: Change, alloc: Global) -> Result<Former, AllocError>
        ensures ok { OnOk result (self.new ≡ changed_by change self.old) }
        ensures former { IfOk result (λ former. former ≡ former_of change self.old) }
        ensures err { OnErr result (self.new ≡ self.old) }
    {
        match change {
            Change::Child(Tagged::MapT(key)) => self.make_map(key, alloc),
            Change::Child(Tagged::ListT(key)) => self.make_list(key, alloc),
            Change::Child(Tagged::RegT(key)) => {
                self.put_register(key, Pairs::new(Vec::new(alloc)))
            }
            Change::AddId(key, id) => self.add_id(key, id, alloc),
            Change::Presence(key, ids) => self.put_presence(key, ids),
            Change::Link(key, next) => self.put_link(key, next),
            Change::PutValue(key, id, value) => {
                put_to(&mut self.registers, key, id, value, alloc)
            }
            Change::Register(key, pairs) => self.put_register(key, pairs),
        }
    }

    /// Changes the context at the place. Returns the undo record. After a refusal all is as it was.
    #[cycle(changing)]
    pub fn change_at(
        &mut self,
        at: &[Tagged],
        change: Change,
        alloc: Global,
    ) -> Result<Former, AllocError>
        requires { node_at at.now self.old ≢ None }
        ensures ok { OnOk result (self.new ≡ changed_at at.now change self.old) }
        ensures former { IfOk result (λ former. former ≡ former_of change (context_at at.now self.old)) }
        ensures err { OnErr result (self.new ≡ self.old) }
    {
        let Some((first, rest)) = at.split_first() else {
            return self.change(change, alloc);
        };
        match first {
            Tagged::MapT(key) => change_in(&mut self.maps, key, rest, change, alloc),
            Tagged::ListT(key) => change_in(&mut self.lists, key, rest, change, alloc),
            Tagged::RegT(_) => unreachable!(),
        }
    }

    /// Takes a change of this context back by its undo record.
    #[tactic(auto, using(crate::proofs::NodeLemmas::map_restored, crate::proofs::NodeLemmas::list_restored))]
    fn restore(&mut self, former: Former)
        ensures { self.new ≡ restored_by former self.old }
    {
        match former {
            Former::Map(key) => restore_value(&mut self.maps, &key, None),
            Former::List(key) => restore_value(&mut self.lists, &key, None),
            Former::Register(key, pairs) => restore_value(&mut self.registers, &key, pairs),
            Former::Value(key, id, value) => restore_from(&mut self.registers, &key, id, value),
            Former::Presence(key, ids) => restore_value(&mut self.presences, &key, ids),
            Former::Link(key, next) => restore_value(&mut self.links, &key, next),
            Former::NoId(key, id) => take_from(&mut self.presences, &key, id),
            Former::Same => {}
        }
    }

    /// Takes a change of the context at the place back by its undo record.
    #[cycle(restoring)]
    pub fn restore_at(&mut self, at: &[Tagged], former: Former)
        ensures { self.new ≡ restored_at at.now former self.old }
    {
        let Some((first, rest)) = at.split_first() else {
            return self.restore(former);
        };
        match first {
            Tagged::MapT(key) => restore_in(&mut self.maps, key, rest, former),
            Tagged::ListT(key) => restore_in(&mut self.lists, key, rest, former),
            Tagged::RegT(_) => drop(former),
        }
    }
}

/// The undo record of adding the identifier to the key's presence set, which is there or not.
pub fn former_of_id(presence: Option<&Ids>, key: &Key, id: Id) -> Result<Former, AllocError>
    ensures { IfOk result (λ former. former ≡ former_of_id key.now id (option_copied presence.entry)) }
{
    match presence {
        None => Ok(Former::Presence(key.copy()?, None)),
        Some(ids) if ids.contains(id) => Ok(Former::Same),
        Some(_) => Ok(Former::NoId(key.copy()?, id)),
    }
}

/// Changes the context at the place in the key's child. Returns the undo record. After a refusal all
/// is as it was.
#[cycle(changing)]
fn change_in(
    children: &mut Vec<(Key, Node)>,
    key: &Key,
    at: &[Tagged],
    change: Change,
    alloc: Global,
) -> Result<Former, AllocError>
    requires sorted { AreSorted children.old.items }
    requires there { IsSomeAnd (find key_cmp key.now children.old.items) (λ child. node_at at.now child ≢ None) }
    ensures ok { OnOk result (IfSome (find key_cmp key.now children.old.items) (λ child.
        children.new.items ≡ put key_cmp key.now (changed_at at.now change child) children.old.items)) }
    ensures former { IfOk result (λ former. IfSome (find key_cmp key.now children.old.items) (λ child.
        former ≡ former_of change (context_at at.now child))) }
    ensures err { OnErr result (children.new.items ≡ children.old.items) }
    ensures still_sorted { AreSorted children.new.items }
{
    match place_of(children.as_slice(), key) {
        Ok(i) => children[i].1.change_at(at, change, alloc),
        Err(_) => unreachable!(),
    }
}

/// Takes a change of the context at the place in the key's child back by its undo record.
#[cycle(restoring)]
fn restore_in(children: &mut Vec<(Key, Node)>, key: &Key, at: &[Tagged], former: Former)
    requires sorted { AreSorted children.old.items }
    ensures found { IfSome (find key_cmp key.now children.old.items) (λ child.
        children.new.items ≡ put key_cmp key.now (restored_at at.now former child) children.old.items) }
    ensures absent { find key_cmp key.now children.old.items ≡ None → children.new.items ≡ children.old.items }
    ensures still_sorted { AreSorted children.new.items }
{
    match place_of(children.as_slice(), key) {
        Ok(i) => children[i].1.restore_at(at, former),
        Err(_) => drop(former),
    }
}

/// The lesser of two keys, or the only one.
pub fn lesser<'a>(first: Option<&'a Key>, second: Option<&'a Key>) -> Option<&'a Key>
    ensures { option_copied result
        ≡ least (option_to_list (option_copied first.entry) ++ option_to_list (option_copied second.entry)) }
{
    match (first, second) {
        (Some(x), Some(y)) => Some(if compare_keys(x, y).is_gt() { y } else { x }),
        (None, other) => other,
        (other, None) => other,
    }
}
